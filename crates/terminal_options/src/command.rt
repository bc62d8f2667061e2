//! Describes the options to `clap`.
ghost use Rattle.std.specs.Prelude.{◌≡◌, fold, map, codes, false, IfOk};
ghost use Rattle.clap.specs.Words.{app_of, rule_of, with_rule};
ghost use Rattle.terminal_options.specs.Program.{direction_rule, files_rule, flag_rule, flags};
ghost use Rattle.terminal_options.specs.Program.{profile_flags, program, value_rule, values, width_rule};

use clap::{Arg, ArgAction, Command};
use command_line::{UNICODE_VERSIONS, VERSION};
use std::alloc::{AllocError, Global};

/// Returns the `clap` command with all options, and with the argument for files if `files` is true.
pub(crate) fn command<'a>(alloc: Global, files: bool) -> Result<Command<'a>, AllocError>
    ensures { IfOk result (λ command. app_of command ≡ program files) }
{
    let command = with_options(alloc)?;
    if files {
        command.arg(texts(alloc))
    } else {
        Ok(command)
    }
}

// Returns the `clap` command with all options, but without the argument for files.
fn with_options<'a>(alloc: Global) -> Result<Command<'a>, AllocError>
    ensures { IfOk result (λ command. app_of command ≡ program false) }
{
    let command = Command::new(alloc, "hordguli")
        .no_binary_name(true)
        .args_override_self(true)
        .version(VERSION)
        .about("Show bidirectional text in visual order, with its colors")
        .after_help(UNICODE_VERSIONS);
    let command = command.arg(width(alloc))?.arg(direction(alloc))?;
    let command = with_values(alloc, command)?;
    let command = with_flags(alloc, command)?;
    let command = with_profile_flags(alloc, command)?;
    command.arg(script(alloc))
}

// Adds the options with a value, apart from those with a short name.
fn with_values<'a>(alloc: Global, command: Command<'a>) -> Result<Command<'a>, AllocError>
    ensures { IfOk result (λ new. app_of new
        ≡ fold with_rule (app_of command.entry) (map value_rule values)) }
{
    let command = command.arg(value(
        alloc,
        "tabs",
        "N",
        "Set a tab stop every N columns, from 1 to 255, or none [default: 8]",
    ))?;
    let command = command.arg(value(
        alloc,
        "marks",
        "ORDER",
        "Order of marks: clusters, after (their base) or logical [default: clusters]",
    ))?;
    let command = command.arg(value(
        alloc,
        "escapes",
        "MODE",
        "Colors, links and overstrikes: keep, strip or text [default: keep]",
    ))?;
    let command = command.arg(value(
        alloc,
        "prefix",
        "REGEX",
        "Keep what REGEX matches at the start of a paragraph to the left of its lines",
    ))?;
    let command = command.arg(value(
        alloc,
        "ucd",
        "DIR",
        "Read the Unicode table files from DIR [default: the installed files]",
    ))?;
    command.arg(value(
        alloc,
        "unicode",
        "VERSION",
        "Follow Unicode VERSION, 15.0 or 17.0 [default: 15.0]",
    ))
}

// Adds the options without a value.
fn with_flags<'a>(alloc: Global, command: Command<'a>) -> Result<Command<'a>, AllocError>
    ensures { IfOk result (λ new. app_of new
        ≡ fold with_rule (app_of command.entry) (map flag_rule flags)) }
{
    with_each_flag(
        alloc,
        command,
        false,
        &[
            (
                "quotes",
                "Repeat quote marks (>) on each line of a paragraph",
            ),
            (
                "whole-numbers",
                "Do not break lines inside numbers such as $1,234.56",
            ),
            (
                "show-spaces",
                "Show spaces at the end of lines, up to the width",
            ),
            ("line-separators", "End paragraphs at LF, CR and CRLF only"),
            (
                "nomirror",
                "Do not mirror brackets and other paired characters",
            ),
            (
                "basedir",
                "Print LTR or RTL after the first line of each paragraph",
            ),
            (
                "nopad",
                "Do not right-align lines of right-to-left paragraphs",
            ),
            (
                "strict",
                "Refuse invalid UTF-8 and paragraphs that are too long",
            ),
        ],
    )
}

// Adds the strict command's options without a value, hidden from the help, so that they can be refused by
// name.
fn with_profile_flags<'a>(alloc: Global, command: Command<'a>) -> Result<Command<'a>, AllocError>
    ensures { IfOk result (λ new. app_of new
        ≡ fold with_rule (app_of command.entry) (map flag_rule profile_flags)) }
{
    with_each_flag(
        alloc,
        command,
        true,
        &[
            ("rtl", ""),
            ("ltr", ""),
            ("wrtl", ""),
            ("wltr", ""),
            ("nobreak", ""),
            ("reordernsm", ""),
            ("reorder-clusters", ""),
            ("novisual", ""),
            ("ltov", ""),
            ("vtol", ""),
            ("levels", ""),
            ("queries", ""),
        ],
    )
}

// Adds options without a value, given their names and help texts. The help omits them if `hide` is set.
fn with_each_flag<'a>(
    alloc: Global,
    command: Command<'a>,
    hide: bool,
    flags: &[(&'a str, &'a str)],
) -> Result<Command<'a>, AllocError>
    ensures { IfOk result (λ new. app_of new
        ≡ fold with_rule (app_of command.entry) (map (λ f. flag_rule f.0.now) flags.now)) }
{
    let mut command = command;
    for (name, help) in flags {
        command = with_flag(alloc, command, hide, name, help)?;
    }
    Ok(command)
}

fn with_flag<'a>(
    alloc: Global,
    command: Command<'a>,
    hide: bool,
    name: &'a str,
    help: &'a str,
) -> Result<Command<'a>, AllocError>
    ensures { IfOk result (λ new. app_of new ≡ with_rule (app_of command.entry) (flag_rule name.now)) }
{
    command.arg(flag(alloc, name, help).hide(hide))
}

// Returns an option without a value.
fn flag<'a>(alloc: Global, name: &'a str, help: &'a str) -> Arg<'a>
    ensures rule { rule_of result ≡ flag_rule name.now }
    ensures local { result.global ≡ false }
{
    Arg::new(alloc, name)
        .long(name)
        .action(ArgAction::SetTrue)
        .help(help)
}

// Returns an option with a value.
fn value<'a>(alloc: Global, name: &'a str, value: &'a str, help: &'a str) -> Arg<'a>
    ensures rule { rule_of result ≡ value_rule name.now }
    ensures local { result.global ≡ false }
{
    Arg::new(alloc, name)
        .long(name)
        .value_name(value)
        .action(ArgAction::Set)
        .help(help)
}

fn width<'a>(alloc: Global) -> Arg<'a>
    ensures rule { rule_of result ≡ width_rule }
    ensures local { result.global ≡ false }
{
    value(
        alloc,
        "width",
        "N",
        "Width of lines: 1 to 65535 columns, auto or none [default: auto]",
    )
    .short('w')
}

fn direction<'a>(alloc: Global) -> Arg<'a>
    ensures rule { rule_of result ≡ direction_rule }
    ensures local { result.global ≡ false }
{
    value(
        alloc,
        "direction",
        "DIR",
        "Base direction of paragraphs: auto, rtl-auto, ltr, rtl or file [default: auto]",
    )
    .short('d')
}

// Returns the strict command's option `--script`, hidden from the help.
fn script<'a>(alloc: Global) -> Arg<'a>
    ensures rule { rule_of result ≡ value_rule (codes "script") }
    ensures local { result.global ≡ false }
{
    value(alloc, "script", "FILE", "").hide(true)
}

fn texts<'a>(alloc: Global) -> Arg<'a>
    ensures rule { rule_of result ≡ files_rule }
    ensures local { result.global ≡ false }
{
    Arg::new(alloc, "files")
        .value_name("FILE")
        .action(ArgAction::Append)
        .help("Files to show, - for standard input [default: standard input]")
}
