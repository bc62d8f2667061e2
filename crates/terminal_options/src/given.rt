//! Where the value of an option comes from.
ghost use Rattle.std.specs.Prelude.{◌≡◌, ◌&&◌, ◌||◌, is_some, option_map};
ghost use Rattle.clap.specs.Words.{first_of, found_of, rows_of};
ghost use Rattle.clap.specs.Takes.{is_given};
ghost use Rattle.terminal_options.specs.Given.{is_set, value_of};
ghost use Rattle.terminal_options.specs.Sources.{rows_in};

use clap::ArgMatches;
use clap::parser::ValueSource;

/// The options parsed from `HORDGULI_OPTIONS`, and those parsed from the arguments.
#[derive(Clone, Copy)]
pub(crate) struct Given<'m, 'a> {
    pub environment: &'m ArgMatches<'a>,
    pub line: &'m ArgMatches<'a>,
}

// Returns the value of an option in `matches`, one of the two sources, or `None` if it is not set there.
pub(crate) fn value_in<'a>(matches: &ArgMatches<'a>, name: &str) -> Option<&'a str>
    ensures { option_map (λ text. text.now) result ≡ first_of name.now (rows_of (found_of matches.now)) }
{
    matches.get_str(name)
}

// Returns whether an option is set in `matches`, one of the two sources.
pub(crate) fn is_set_in(matches: &ArgMatches<'_>, name: &str) -> bool
    ensures { result ≡ is_given name.now (rows_of (found_of matches.now)) }
{
    matches.contains_id(name) && matches.value_source(name) != Some(ValueSource::DefaultValue)
}

impl<'a> Given<'_, 'a> {
    /// Returns the value of an option, or `None` if it is not set in either source. The arguments override
    /// the environment.
    pub(crate) fn value(&self, name: &str) -> Option<&'a str>
        ensures { option_map (λ text. text.now) result ≡ value_of name.now (rows_in self.now) }
    {
        match value_in(self.line, name) {
            Some(text) => Some(text),
            None => value_in(self.environment, name),
        }
    }

    /// Returns whether an option without a value is set in either source.
    pub(crate) fn is_set(&self, name: &str) -> bool
        ensures { result ≡ is_set name.now (rows_in self.now) }
    {
        is_set_in(self.line, name) || is_set_in(self.environment, name)
    }
}
