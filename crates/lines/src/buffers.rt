//! Buffers for the layout of a paragraph, reused for the next one.
ghost use Rattle.std.specs.Prelude.{◌≡◌, ◌*◌, ◌≤◌, length, max, OnOk};
ghost use Rattle.lines.specs.Buffers.{CanHold};
ghost use Rattle.lines.specs.declared.engine.TheConstants.{PARAGRAPH_LIMIT};

use crate::extents::Extents;
use crate::reserve::grow;
use breaks::Mark;
use std::alloc::{AllocError, Global};

/// Buffers for levels, position maps, and characters in visual order. `maps` holds the visual position of
/// each logical position, and then the logical position of each visual position. If the buffers hold all
/// lines of a paragraph, each map has one item per character of the paragraph, and a line's items start at
/// the index of the line's first character. If they hold one line at a time, its items are at the front.
#[derive(Drop)]
pub(crate) struct VisualBuffers {
    pub(crate) levels: Vec<u8>,
    pub(crate) maps: Vec<u32>,
    pub(crate) chars: Vec<char>,
}

impl VisualBuffers {
    /// Creates empty buffers. Allocates nothing.
    pub(crate) fn new(alloc: Global) -> VisualBuffers {
        VisualBuffers {
            levels: Vec::new(alloc),
            maps: Vec::new(alloc),
            chars: Vec::new(alloc),
        }
    }

    /// Grows the buffers to hold a line of `len` characters.
    pub(crate) fn grow_to(&mut self, len: usize) -> Result<(), AllocError>
        requires { len ≤ PARAGRAPH_LIMIT }
        ensures fit { OnOk result (CanHold len self.new) }
        ensures levels { OnOk result (length self.new.levels.items ≡ max (length self.old.levels.items) len) }
        ensures maps { OnOk result
            (length self.new.maps.items ≡ max (length self.old.maps.items) (2 * len)) }
        ensures chars { OnOk result (length self.new.chars.items ≡ max (length self.old.chars.items) len) }
    {
        grow(&mut self.levels, len, 0)?;
        grow(&mut self.maps, 2 * len, 0)?;
        grow(&mut self.chars, len, '\0')
    }
}

/// Buffers for the lines of a paragraph: where each line starts, how much of it is shown, and its visual
/// line.
#[derive(Drop)]
pub(crate) struct LineBuffers {
    pub(crate) extents: Extents,
    pub(crate) visual: VisualBuffers,
}

impl LineBuffers {
    /// Creates empty buffers. Allocates nothing.
    pub(crate) fn new(alloc: Global) -> LineBuffers {
        LineBuffers {
            extents: Extents::new(alloc),
            visual: VisualBuffers::new(alloc),
        }
    }
}

/// The layout of a paragraph, without its text and its base level.
#[derive(Drop)]
pub(crate) struct LayoutBuffers {
    pub(crate) levels: Vec<u8>,
    pub(crate) marks: Vec<Mark>,
    pub(crate) ends: Vec<bool>,
    pub(crate) lines: LineBuffers,
}

impl LayoutBuffers {
    /// Creates empty buffers. Allocates nothing.
    pub(crate) fn new(alloc: Global) -> LayoutBuffers {
        LayoutBuffers {
            levels: Vec::new(alloc),
            marks: Vec::new(alloc),
            ends: Vec::new(alloc),
            lines: LineBuffers::new(alloc),
        }
    }
}
