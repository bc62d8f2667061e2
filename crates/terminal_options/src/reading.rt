//! Reads the settings from the options.
ghost use Rattle.std.specs.Prelude.{◌≡◌, codes, find, map, true, is_some, IfErr, IfOk, IfSome, None};
ghost use Rattle.std.specs.Prelude.{option_map};
ghost use Rattle.clap.specs.Words.{IsAmong, Text, all_of, fault_of, found_of, kind_of, matches_of, rows_of};
ghost use Rattle.terminal_options.specs.Given.{is_set, rows_by, value_of};
ghost use Rattle.terminal_options.specs.Program.{program};
ghost use Rattle.terminal_options.specs.Settings.{AreSettings, IsFault, IsMeaningless, IsRefusal};
ghost use Rattle.terminal_options.specs.Settings.{has_prefix, options_for, prefix_options, profile_option};
ghost use Rattle.terminal_options.specs.Sources.{rows_in};

use crate::choices::Prefix;
use crate::command::command;
use crate::fault::OptionFault;
use crate::given::{Given, is_set_in, value_in};
use crate::options::Settings;
use crate::values::{direction_by, escapes_by, marks_by, tabs_by, version_by, width_by};
use clap::ArgMatches;
use clap::error::ErrorKind;
use std::alloc::Global;

// Parses words with `clap`. Fails with `Words` if it refuses them.
fn parse<'a>(
    alloc: Global,
    files: bool,
    words: &'a [&'a str],
) -> Result<ArgMatches<'a>, OptionFault>
    ensures ok { IfOk result (λ matches. rows_of (found_of matches)
        ≡ matches_of (program files) (map (λ word. word.now) words.entry.now)) }
    ensures err { IfErr result (IsRefusal files (map (λ word. word.now) words.entry.now)) }
{
    let Ok(command) = command(alloc, files) else {
        return Err(OptionFault::NoMemory);
    };
    match command.try_get_matches_from(words) {
        Ok(matches) => Ok(matches),
        Err(error) if error.kind() == ErrorKind::OutOfMemory => Err(OptionFault::NoMemory),
        Err(error) => Err(OptionFault::Words(error)),
    }
}

// Returns the first of these options that is set, or `None` if none is.
fn first_set(given: &Given<'_, '_>, names: &[&'static str]) -> Option<&'static str>
    ensures { option_map (λ name. name.now) result
        ≡ find (λ name. is_set name (rows_in given.now)) (map (λ name. name.now) names.now) }
{
    for name in names {
        if given.is_set(name) {
            return Some(name);
        }
    }
    None
}

// Returns the first of the strict command's options that is set, or `None` if none is.
fn profile_option(given: &Given<'_, '_>) -> Option<&'static str>
    ensures { option_map (λ name. name.now) result
        ≡ profile_option (rows_in given.now) }
{
    first_set(
        given,
        &[
            "script",
            "rtl",
            "ltr",
            "wrtl",
            "wltr",
            "nobreak",
            "reordernsm",
            "reorder-clusters",
            "novisual",
            "ltov",
            "vtol",
            "levels",
            "queries",
        ],
    )
}

// Returns whether `--quotes` or `--prefix` is given in one of the two sources.
fn has_prefix(matches: &ArgMatches<'_>) -> bool
    ensures { result ≡ has_prefix (rows_of (found_of matches.now)) }
{
    is_set_in(matches, "quotes") || value_in(matches, "prefix").is_some()
}

// Returns the prefix that `--quotes` and `--prefix` specify, or `None` if both are set.
fn prefix_by<'a>(quotes: bool, pattern: Option<&'a str>) -> Option<Prefix<'a>>
    ensures some { IfSome result (λ prefix. options_for prefix
        ≡ (quotes, option_map (λ text. text.now) pattern.entry)) }
    ensures none { result ≡ None → (quotes ≡ true) × (is_some pattern.entry ≡ true) }
{
    match (quotes, pattern) {
        (false, None) => Some(Prefix::Absent),
        (true, None) => Some(Prefix::Quotes),
        (false, Some(text)) => Some(Prefix::Pattern(text)),
        (true, Some(_)) => None,
    }
}

// Returns the prefix, or `None` if both options for prefixes are set. Reads the options of the environment
// only if the arguments set neither.
fn prefix_of<'a>(given: &Given<'_, 'a>) -> Option<Prefix<'a>>
    ensures some { IfSome result (λ prefix. options_for prefix ≡ prefix_options (rows_in given.now)) }
    ensures none { result ≡ None → ((prefix_options (rows_in given.now)).0 ≡ true)
        × (is_some (prefix_options (rows_in given.now)).1 ≡ true) }
{
    let matches = if has_prefix(given.line) {
        given.line
    } else {
        given.environment
    };
    prefix_by(is_set_in(matches, "quotes"), value_in(matches, "prefix"))
}

/// Returns the settings, given the words of `HORDGULI_OPTIONS` and the arguments after the program's name.
///
/// Fails with the first of these faults that applies:
///
/// - `Words`: `clap` refuses one of the lists of words.
/// - `Profile`: an option of the strict command is set.
/// - `Width`, `Tabs`, `Marks`, `Direction`, `Escapes`, `Unicode`: the option has an invalid value.
/// - `Prefixes`: both `--quotes` and `--prefix` are set.
///
/// Fails with `NoMemory` if an allocation fails first.
pub fn settings<'a>(
    alloc: Global,
    environment: &'a [&'a str],
    line: &'a [&'a str],
) -> Result<Settings<'a>, OptionFault>
    ensures ok { IfOk result (AreSettings (rows_by (map (λ word. word.now) environment.entry.now)
        (map (λ word. word.now) line.entry.now))) }
    ensures err { IfErr result (IsFault (map (λ word. word.now) environment.entry.now)
        (map (λ word. word.now) line.entry.now)) }
{
    let environment = parse(alloc, false, environment)?;
    let line = parse(alloc, true, line)?;
    let given = Given {
        environment: &environment,
        line: &line,
    };
    settings_of(alloc, &given)
}

// Returns the settings that parsed options specify. Fails as `settings` does, but not with `Words`.
fn settings_of<'a>(alloc: Global, given: &Given<'_, 'a>) -> Result<Settings<'a>, OptionFault>
    ensures ok { IfOk result (AreSettings (rows_in given.now)) }
    ensures err { IfErr result (IsMeaningless (rows_in given.now)) }
{
    if let Some(name) = profile_option(given) {
        return Err(OptionFault::Profile(name));
    }
    let Some(width) = width_by(given.value("width")) else {
        return Err(OptionFault::Width);
    };
    let Some(tab_width) = tabs_by(given.value("tabs")) else {
        return Err(OptionFault::Tabs);
    };
    let Some(marks) = marks_by(given.value("marks")) else {
        return Err(OptionFault::Marks);
    };
    let Some(direction) = direction_by(given.value("direction")) else {
        return Err(OptionFault::Direction);
    };
    let Some(escapes) = escapes_by(given.value("escapes")) else {
        return Err(OptionFault::Escapes);
    };
    let Some(unicode) = version_by(given.value("unicode")) else {
        return Err(OptionFault::Unicode);
    };
    let Some(prefix) = prefix_of(given) else {
        return Err(OptionFault::Prefixes);
    };
    let Ok(files) = Vec::from_slice(alloc, given.line.get_strs("files").unwrap_or(&[])) else {
        return Err(OptionFault::NoMemory);
    };
    Ok(Settings {
        ucd: given.value("ucd"),
        unicode,
        width,
        tab_width,
        marks,
        direction,
        escapes,
        prefix,
        whole_numbers: given.is_set("whole-numbers"),
        show_spaces: given.is_set("show-spaces"),
        line_separators: given.is_set("line-separators"),
        nomirror: given.is_set("nomirror"),
        basedir: given.is_set("basedir"),
        nopad: given.is_set("nopad"),
        strict: given.is_set("strict"),
        files,
    })
}
