//! The options of a layout.
ghost use Rattle.std.specs.Prelude.{◌≡◌, false};
ghost use Rattle.bidi.specs.declared.base.Base.TheVariants.{WeakLtr};

use bidi::Base;

/// The options that a layout depends on, besides the text, the tables and the width.
#[derive(Clone, Copy, Debug, PartialEq, Eq)]
pub struct Options {
    /// How base levels are determined.
    pub base: Base,
    /// Whether lines end at mandatory breaks only.
    pub nobreak: bool,
    /// Whether L3 of UAX #9 is applied: in visual order, nonspacing marks at odd levels come after their base
    /// instead of before it.
    pub reordernsm: bool,
    /// Whether no line ends inside a number (replaces UAX #14, LB25).
    pub whole_numbers: bool,
    /// Whether adjacent characters of a grapheme cluster that are shown at the same odd level are in logical
    /// order instead of reversed. `reordernsm` then has no effect.
    pub reorder_clusters: bool,
    /// Whether spaces at the end of a line are shown, as far as they fit in the width.
    pub show_spaces: bool,
    /// The distance between tab stops in columns, or 0 for none. A tab, U+0009 of bidi class S, moves to the
    /// next tab stop, counted from the start of its line. Without tab stops, a tab has no columns.
    pub tab_width: u8,
}

impl Default for Options {
    // The options of the command when it is run without arguments.
    ghost is_default = { λ options. options
        ≡ record {
          base = WeakLtr;
          nobreak = false;
          reordernsm = false;
          whole_numbers = false;
          reorder_clusters = false;
          show_spaces = false;
          tab_width = 0;
        } };

    fn default() -> Options {
        Options {
            base: Base::default(),
            nobreak: false,
            reordernsm: false,
            whole_numbers: false,
            reorder_clusters: false,
            show_spaces: false,
            tab_width: 0,
        }
    }
}

impl Options {
    ghost use Rattle.lines.specs.ShownParts.{margin_of};

    // Returns the margin up to which spaces at the end of a line are shown, in columns, or `None` if they are
    // hidden.
    pub(crate) fn margin(self, width: u32) -> Option<u32>
        ensures { result ≡ margin_of self width }
    {
        if self.show_spaces { Some(width) } else { None }
    }
}
