//! Parses the arguments with `clap`, and reads the settings from the matches.
ghost use Rattle.std.specs.Prelude.{◌≡◌, List, codes, fold, map, not, option_map, true, false, is_some};
ghost use Rattle.std.specs.Prelude.{IfOk, IfErr, IfSome};
ghost use Rattle.clap.specs.Words.{Text, app_of, found_of, rows_of, rule_of, with_rule};
ghost use Rattle.clap.specs.Takes.{is_given};
ghost use Rattle.command_line.specs.CommandLine.{program, ucd_rule, width_rule, tabs_rule};
ghost use Rattle.command_line.specs.CommandLine.{unicode_rule, script_rule};
ghost use Rattle.command_line.specs.CommandLine.{files_rule, flag_rule};
ghost use Rattle.command_line.specs.CommandLine.{AreMatches, AreSettings, HidesNothing, IsLineFault};
ghost use Rattle.command_line.specs.CommandLine.{base_by, base_of, fits_queries, fits_script, version_by};
ghost use Rattle.command_line.specs.CommandLine.{layout_rules, print_rules, tab_width_of, HasTabs};

use crate::options::{LineFault, Settings};
use crate::version::{UNICODE_VERSIONS, VERSION};
use bidi::Base;
use clap::error::ErrorKind;
use clap::parser::ValueSource;
use clap::{Arg, ArgAction, ArgMatches, Command, value_parser};
use lines::{Options, Print};
use std::alloc::{AllocError, Global};
use ucd::Version;

// Returns the `clap` command with all options and the argument for texts.
fn command<'a>(alloc: Global) -> Result<Command<'a>, AllocError>
    ensures { IfOk result (λ command. app_of command ≡ program) }
{
    let command = Command::new(alloc, "fribidi")
        .no_binary_name(true)
        .version(VERSION)
        .about("Wrap bidirectional text and print its lines in visual order")
        .after_help(UNICODE_VERSIONS);
    let command = with_layout(alloc, command)?;
    let command = with_print(alloc, command)?;
    let command = command.arg(script(alloc))?;
    let command = with_flag(
        alloc,
        command,
        "queries",
        "Allow queries in the edit script",
    )?;
    command.arg(files(alloc))
}

// Adds the layout options to the command.
fn with_layout<'a>(alloc: Global, command: Command<'a>) -> Result<Command<'a>, AllocError>
    ensures { IfOk result (λ new. app_of new ≡ fold with_rule (app_of command.entry) layout_rules) }
{
    let command = command.arg(ucd(alloc))?.arg(width(alloc))?;
    let command = command.arg(tabs(alloc))?.arg(unicode(alloc))?;
    with_flags(
        alloc,
        command,
        &[
            ("rtl", "Lay out every paragraph right-to-left"),
            ("ltr", "Lay out every paragraph left-to-right"),
            (
                "wrtl",
                "Lay out paragraphs without a strong character right-to-left",
            ),
            (
                "wltr",
                "Lay out paragraphs without a strong character left-to-right (default)",
            ),
            // how lines are broken and ordered
            ("nobreak", "Break lines at mandatory breaks only"),
            (
                "reordernsm",
                "Reorder nonspacing marks to follow their base in right-to-left text",
            ),
            (
                "whole-numbers",
                "Do not break lines inside numbers such as $1,234.56",
            ),
            (
                "reorder-clusters",
                "Keep the characters of grapheme clusters in order in right-to-left text",
            ),
            (
                "show-spaces",
                "Show spaces at the end of lines, up to the width",
            ),
            ("line-separators", "End paragraphs at LF, CR and CRLF only"),
        ],
    )
}

// Adds the print options to the command.
fn with_print<'a>(alloc: Global, command: Command<'a>) -> Result<Command<'a>, AllocError>
    ensures { IfOk result (λ new. app_of new ≡ fold with_rule (app_of command.entry) print_rules) }
{
    with_flags(
        alloc,
        command,
        &[
            (
                "nopad",
                "Do not right-align lines of right-to-left paragraphs",
            ),
            (
                "nomirror",
                "Do not mirror brackets and other paired characters",
            ),
            ("novisual", "Do not print the visual lines"),
            (
                "basedir",
                "Print LTR or RTL after the first line of each paragraph",
            ),
            (
                "ltov",
                "Print the logical-to-visual position map of each line",
            ),
            (
                "vtol",
                "Print the visual-to-logical position map of each line",
            ),
            ("levels", "Print the embedding level of each character"),
        ],
    )
}

// Adds options without a value, given their names and help texts.
fn with_flags<'a>(
    alloc: Global,
    command: Command<'a>,
    flags: &[(&'a str, &'a str)],
) -> Result<Command<'a>, AllocError>
    ensures { IfOk result (λ new. app_of new
        ≡ fold with_rule (app_of command.entry) (map (λ f. flag_rule f.0.now) flags.now)) }
{
    let mut command = command;
    for (name, help) in flags {
        command = with_flag(alloc, command, name, help)?;
    }
    Ok(command)
}

fn with_flag<'a>(
    alloc: Global,
    command: Command<'a>,
    name: &'a str,
    help: &'a str,
) -> Result<Command<'a>, AllocError>
    ensures { IfOk result (λ new. app_of new ≡ with_rule (app_of command.entry) (flag_rule name.now)) }
{
    command.arg(flag(alloc, name, help))
}

fn ucd<'a>(alloc: Global) -> Arg<'a>
    ensures rule { rule_of result ≡ ucd_rule }
    ensures local { result.global ≡ false }
{
    Arg::new(alloc, "ucd")
        .long("ucd")
        .value_name("DIR")
        .required(true)
        .action(ArgAction::Set)
        .help("Read the Unicode table files from DIR [default: the installed files, if any]")
}

fn width<'a>(alloc: Global) -> Arg<'a>
    ensures rule { rule_of result ≡ width_rule }
    ensures local { result.global ≡ false }
{
    Arg::new(alloc, "width")
        .long("width")
        .value_name("N")
        .action(ArgAction::Set)
        .value_parser(value_parser!(u16).range(1..))
        .default_value("80")
        .help("Wrap lines at N columns, from 1 to 65535")
}

fn tabs<'a>(alloc: Global) -> Arg<'a>
    ensures rule { rule_of result ≡ tabs_rule }
    ensures local { result.global ≡ false }
{
    Arg::new(alloc, "tabs")
        .long("tabs")
        .value_name("N")
        .action(ArgAction::Set)
        .value_parser(value_parser!(u8).range(1..))
        .help("Set a tab stop every N columns, from 1 to 255")
}

fn unicode<'a>(alloc: Global) -> Arg<'a>
    ensures rule { rule_of result ≡ unicode_rule }
    ensures local { result.global ≡ false }
{
    Arg::new(alloc, "unicode")
        .long("unicode")
        .value_name("VERSION")
        .action(ArgAction::Set)
        .help("Follow Unicode VERSION, 15.0 or 17.0 [default: 15.0]")
}

fn script<'a>(alloc: Global) -> Arg<'a>
    ensures rule { rule_of result ≡ script_rule }
    ensures local { result.global ≡ false }
{
    Arg::new(alloc, "script")
        .long("script")
        .value_name("FILE")
        .action(ArgAction::Set)
        .help("Run an edit script on one text file")
}

fn files<'a>(alloc: Global) -> Arg<'a>
    ensures rule { rule_of result ≡ files_rule }
    ensures local { result.global ≡ false }
{
    Arg::new(alloc, "files")
        .value_name("FILE")
        .action(ArgAction::Append)
        .help("Files to lay out, each as a separate text [default: standard input]")
}

// Returns an option without a value.
fn flag<'a>(alloc: Global, name: &'a str, help: &'a str) -> Arg<'a>
    ensures rule { rule_of result ≡ flag_rule name.now }
    ensures local { result.global ≡ false }
{
    Arg::new(alloc, name)
        .long(name)
        .action(ArgAction::SetTrue)
        .help(help)
}

// Returns whether an option is set.
fn is_set(matches: &ArgMatches<'_>, name: &str) -> bool
    ensures { result ≡ is_given name.now (rows_of (found_of matches.now)) }
{
    matches.contains_id(name) && matches.value_source(name) != Some(ValueSource::DefaultValue)
}

// Returns how base levels are found, or `None` if more than one of the options for base directions is set.
fn base_of(rtl: bool, ltr: bool, weak_rtl: bool, weak_ltr: bool) -> Option<Base>
    ensures { result ≡ base_by rtl ltr weak_rtl weak_ltr }
{
    match (rtl, ltr, weak_rtl, weak_ltr) {
        (true, false, false, false) => Some(Base::Rtl),
        (false, true, false, false) => Some(Base::Ltr),
        (false, false, true, false) => Some(Base::WeakRtl),
        (false, false, false, true) | (false, false, false, false) => Some(Base::WeakLtr),
        _ => None,
    }
}

// Returns the Unicode version with this name, the default version if no name is given, or `None` if no
// version has this name.
fn version_by(name: Option<&str>) -> Option<Version>
    ensures { result ≡ version_by (option_map (λ name. name.now) name.entry) }
{
    match name {
        None => Some(Version::V15_0),
        Some(name) if name == "15.0" => Some(Version::V15_0),
        Some(name) if name == "17.0" => Some(Version::V17_0),
        Some(_) => None,
    }
}

// Returns whether the number of texts is allowed. A script requires exactly one text.
fn fits_script(script: Option<&str>, texts: usize) -> bool
    ensures { result ≡ fits_script (is_some script.entry) texts }
{
    script.is_none() || texts == 1
}

// Returns whether the use of `--queries` is allowed. Queries require a script.
fn fits_queries(queries: bool, script: Option<&str>) -> bool
    ensures { result ≡ fits_queries queries (is_some script.entry) }
{
    !queries || script.is_some()
}

/// Parses the arguments after the program's name with `clap`.
///
/// Fails with `Words` if `clap` refuses the arguments, or if they request help or the version. Fails with
/// `NoMemory` if `clap` runs out of memory before it has found such a reason.
pub fn parse<'a>(alloc: Global, words: &'a [&'a str]) -> Result<ArgMatches<'a>, LineFault>
    ensures ok { IfOk result (AreMatches (map (λ word. word.now) words.entry.now)) }
    ensures err { IfErr result (IsLineFault (map (λ word. word.now) words.entry.now)) }
{
    let Ok(command) = command(alloc) else {
        return Err(LineFault::NoMemory);
    };
    match command.try_get_matches_from(words) {
        Ok(matches) => Ok(matches),
        Err(error) if error.kind() == ErrorKind::OutOfMemory => Err(LineFault::NoMemory),
        Err(error) => Err(LineFault::Words(error)),
    }
}

/// Returns the settings that the arguments after the program's name specify. Calls [`parse`], and then
/// [`settings_of`].
pub fn settings<'a>(alloc: Global, words: &'a [&'a str]) -> Result<Settings<'a>, LineFault>
    ensures ok { IfOk result (AreSettings (map (λ word. word.now) words.entry.now)) }
    ensures err { IfErr result (IsLineFault (map (λ word. word.now) words.entry.now)) }
{
    let matches = parse(alloc, words)?;
    settings_of(alloc, &matches)
}

/// Returns the settings that parsed arguments specify.
///
/// Fails with the first of `Directions`, `Unicode`, `ScriptFiles` and `Queries` that applies. Fails with
/// `NoMemory` only if none of them applies.
pub fn settings_of<'a>(alloc: Global, matches: &ArgMatches<'a>) -> Result<Settings<'a>, LineFault>
    requires { (words : List Text) × AreMatches words matches.now }
    ensures ok { (words : List Text) → AreMatches words matches.now → IfOk result (AreSettings words) }
    ensures err { (words : List Text) → AreMatches words matches.now → IfErr result (IsLineFault words) }
    ensures memory { IfErr result (HidesNothing (rows_of (found_of matches.now))) }
{
    let Some(options) = options_of(matches) else {
        return Err(LineFault::Directions);
    };
    let Some(unicode) = version_by(matches.get_str("unicode")) else {
        return Err(LineFault::Unicode);
    };
    let Some(ucd) = matches.get_str("ucd") else {
        unreachable!()
    };
    let Some(width) = matches.get_one::<u16>("width") else {
        unreachable!()
    };
    let texts = matches.get_strs("files").unwrap_or(&[]);
    let script = matches.get_str("script");
    if !fits_script(script, texts.len()) {
        return Err(LineFault::ScriptFiles);
    }
    let queries = is_set(matches, "queries");
    if !fits_queries(queries, script) {
        return Err(LineFault::Queries);
    }
    let line_separators = is_set(matches, "line-separators");
    let Ok(files) = Vec::from_slice(alloc, texts) else {
        return Err(LineFault::NoMemory);
    };
    Ok(Settings {
        ucd,
        unicode,
        width,
        options,
        line_separators,
        print: print_of(matches),
        script,
        queries,
        files,
    })
}

// Returns the tab width, or 0 if the option is not set.
fn tab_width_of(matches: &ArgMatches<'_>) -> u8
    requires { HasTabs (rows_of (found_of matches.now)) }
    ensures { result ≡ tab_width_of (rows_of (found_of matches.now)) }
{
    matches.get_one::<u8>("tabs").unwrap_or(0)
}

// Returns the layout options, or `None` if more than one base direction is set.
fn options_of(matches: &ArgMatches<'_>) -> Option<Options>
    requires { HasTabs (rows_of (found_of matches.now)) }
    ensures base { option_map (λ o. o.base) result ≡ base_of (rows_of (found_of matches.now)) }
    ensures nobreak { IfSome result (λ o.
        o.nobreak ≡ is_given (codes "nobreak") (rows_of (found_of matches.now))) }
    ensures reordernsm { IfSome result (λ o.
        o.reordernsm ≡ is_given (codes "reordernsm") (rows_of (found_of matches.now))) }
    ensures whole_numbers { IfSome result (λ o.
        o.whole_numbers ≡ is_given (codes "whole-numbers") (rows_of (found_of matches.now))) }
    ensures reorder_clusters { IfSome result (λ o.
        o.reorder_clusters ≡ is_given (codes "reorder-clusters") (rows_of (found_of matches.now))) }
    ensures show_spaces { IfSome result (λ o.
        o.show_spaces ≡ is_given (codes "show-spaces") (rows_of (found_of matches.now))) }
    ensures tab_width { IfSome result (λ o. o.tab_width ≡ tab_width_of (rows_of (found_of matches.now))) }
{
    let base = base_of(
        is_set(matches, "rtl"),
        is_set(matches, "ltr"),
        is_set(matches, "wrtl"),
        is_set(matches, "wltr"),
    )?;
    Some(Options {
        base,
        nobreak: is_set(matches, "nobreak"),
        reordernsm: is_set(matches, "reordernsm"),
        whole_numbers: is_set(matches, "whole-numbers"),
        reorder_clusters: is_set(matches, "reorder-clusters"),
        show_spaces: is_set(matches, "show-spaces"),
        tab_width: tab_width_of(matches),
    })
}

// Returns what to print for each line, according to the options without a value.
fn print_of(matches: &ArgMatches<'_>) -> Print
    ensures novisual { result.novisual ≡ is_given (codes "novisual") (rows_of (found_of matches.now)) }
    ensures basedir { result.basedir ≡ is_given (codes "basedir") (rows_of (found_of matches.now)) }
    ensures ltov { result.ltov ≡ is_given (codes "ltov") (rows_of (found_of matches.now)) }
    ensures vtol { result.vtol ≡ is_given (codes "vtol") (rows_of (found_of matches.now)) }
    ensures levels { result.levels ≡ is_given (codes "levels") (rows_of (found_of matches.now)) }
    ensures nopad { result.nopad ≡ is_given (codes "nopad") (rows_of (found_of matches.now)) }
    ensures nomirror { result.nomirror ≡ is_given (codes "nomirror") (rows_of (found_of matches.now)) }
{
    Print {
        novisual: is_set(matches, "novisual"),
        basedir: is_set(matches, "basedir"),
        ltov: is_set(matches, "ltov"),
        vtol: is_set(matches, "vtol"),
        levels: is_set(matches, "levels"),
        nopad: is_set(matches, "nopad"),
        nomirror: is_set(matches, "nomirror"),
    }
}
