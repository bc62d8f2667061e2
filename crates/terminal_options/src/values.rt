//! Converts the values of options to settings. Each function `.._by` returns the default if there is no
//! value, and `None` if the value is invalid.
ghost use Rattle.std.specs.Prelude.{◌≡◌, option_map};
ghost use Rattle.terminal_options.specs.Choices.{direction_by, escapes_by, marks_by, number_up_to};
ghost use Rattle.terminal_options.specs.Choices.{tabs_by, version_by, width_by};

use crate::choices::{Direction, Marks, Width};
use terminal::Escapes;
use ucd::Version;

// Returns the number from 1 to `most` that a text denotes in decimal, or `None` for any other text.
fn number_up_to(most: u16, text: &str) -> Option<u16>
    ensures { result ≡ number_up_to most text.now }
{
    match text.parse::<u16>() {
        Ok(number) if 1 <= number && number <= most => Some(number),
        _ => None,
    }
}

/// Returns the width that a value names.
pub(crate) fn width_by(text: Option<&str>) -> Option<Width>
    ensures { result ≡ width_by (option_map (λ text. text.now) text.entry) }
{
    match text {
        None => Some(Width::Auto),
        Some(text) if text == "auto" => Some(Width::Auto),
        Some(text) if text == "none" => Some(Width::Unlimited),
        Some(text) => number_up_to(u16::MAX, text).map(Width::Columns),
    }
}

/// Returns the tab width that a value names, or 0 for tabs without a width.
pub(crate) fn tabs_by(text: Option<&str>) -> Option<u8>
    ensures { result ≡ tabs_by (option_map (λ text. text.now) text.entry) }
{
    match text {
        None => Some(8),
        Some(text) if text == "none" => Some(0),
        Some(text) => match number_up_to(255, text) {
            Some(number) => Some(number as u8),
            None => None,
        },
    }
}

/// Returns the order of a cluster's characters that a value names.
pub(crate) fn marks_by(text: Option<&str>) -> Option<Marks>
    ensures { result ≡ marks_by (option_map (λ text. text.now) text.entry) }
{
    match text {
        None => Some(Marks::Clusters),
        Some(text) if text == "clusters" => Some(Marks::Clusters),
        Some(text) if text == "after" => Some(Marks::After),
        Some(text) if text == "logical" => Some(Marks::Logical),
        Some(_) => None,
    }
}

/// Returns the base direction that a value names.
pub(crate) fn direction_by(text: Option<&str>) -> Option<Direction>
    ensures { result ≡ direction_by (option_map (λ text. text.now) text.entry) }
{
    match text {
        None => Some(Direction::Auto),
        Some(text) if text == "auto" => Some(Direction::Auto),
        Some(text) if text == "rtl-auto" => Some(Direction::RtlAuto),
        Some(text) if text == "ltr" => Some(Direction::Ltr),
        Some(text) if text == "rtl" => Some(Direction::Rtl),
        Some(text) if text == "file" => Some(Direction::File),
        Some(_) => None,
    }
}

/// Returns the treatment of escape sequences that a value names.
pub(crate) fn escapes_by(text: Option<&str>) -> Option<Escapes>
    ensures { result ≡ escapes_by (option_map (λ text. text.now) text.entry) }
{
    match text {
        None => Some(Escapes::Keep),
        Some(text) if text == "keep" => Some(Escapes::Keep),
        Some(text) if text == "strip" => Some(Escapes::Strip),
        Some(text) if text == "text" => Some(Escapes::Text),
        Some(_) => None,
    }
}

/// Returns the Unicode version that a value names.
pub(crate) fn version_by(text: Option<&str>) -> Option<Version>
    ensures { result ≡ version_by (option_map (λ text. text.now) text.entry) }
{
    match text {
        None => Some(Version::V15_0),
        Some(text) if text == "15.0" => Some(Version::V15_0),
        Some(text) if text == "17.0" => Some(Version::V17_0),
        Some(_) => None,
    }
}
