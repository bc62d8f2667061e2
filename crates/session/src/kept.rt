//! A paragraph as an item of a session's store.
ghost use Rattle.std.specs.Prelude.{◌≡◌, ◌+◌, ◌≤◌, ℕ, length, refl, IfOk};
ghost use Rattle.lines.specs.Engine.{counted, rules_of};
ghost use Rattle.lines.specs.Extents.{extents_in, extents_of, reflowed};
ghost use Rattle.lines.specs.SameKind.{IsEdited};
ghost use Rattle.session.specs.Kept.{rules_for, IsFresh};
ghost use Rattle.session.specs.Offsets.{length_in, units_of};
ghost use Rattle.session.specs.declared.offsets.Encoding.TheVariants.{Utf8, Utf16};

use crate::offsets::{lengths, utf16_length};
use lines::{Engine, Extents, Fill, Laid, ReflowScratch, Replacement};
use std::alloc::{AllocError, Global};
use std::marker::Model;
use store::{Exchange, Exchanger, Measured};

/// The layout of a paragraph, as an item of a store. The layout is in a box, and its counts of characters,
/// lines, UTF-8 bytes and UTF-16 code units are stored beside the box. So a search reads only the counts.
#[derive(Debug)]
pub struct Kept {
    chars: usize,
    lines: usize,
    bytes: usize,
    utf16: usize,
    laid: Box<Laid>,
}

impl Drop for Kept {
    fn drop(self) {
        let Kept {
            chars: _,
            lines: _,
            bytes: _,
            utf16: _,
            laid: _,
        } = self;
    }
}

impl Model for Kept {
    ghost use Rattle.std.specs.Prelude.{◌≡◌, length};
    ghost use Rattle.lines.specs.Layouts.{Layout};

    ghost Value = { Layout };

    ghost view = { λ k. k.laid.value };

    ghost use Rattle.session.specs.Offsets.{length_in};
    ghost use Rattle.session.specs.declared.offsets.Encoding.TheVariants.{Utf8, Utf16};

    ghost invariant = { λ k.
        (k.chars ≡ length k.laid.value.text) × (k.lines ≡ length k.laid.value.lines)
        × (k.bytes ≡ length_in Utf8 k.laid.value.text) × (k.utf16 ≡ length_in Utf16 k.laid.value.text) };
}

impl Kept {
    /// Moves a layout into a box, and counts the bytes and code units of its text.
    pub fn new(alloc: Global, laid: Laid) -> Result<Kept, AllocError>
        ensures { IfOk result (λ kept. kept ≡ laid) }
    {
        let text = laid.text();
        let (bytes, utf16) = lengths(text);
        Ok(Kept {
            chars: text.len(),
            lines: laid.line_count(),
            bytes,
            utf16,
            laid: Box::new(alloc, laid)?,
        })
    }

    /// Does the same as `new`, for a layout whose text an edit has made of that of `old`. Counts only the
    /// edited characters.
    pub fn of_edited(
        alloc: Global,
        laid: Laid,
        old: &Kept,
        edit: Replacement,
    ) -> Result<Kept, AllocError>
        requires { IsEdited old.now.text laid.text edit }
        ensures { IfOk result (λ kept. kept ≡ laid) }
    {
        let text = laid.text();
        let removed = lengths(&old.laid.text()[edit.at..edit.at + edit.removed]);
        let inserted = lengths(&text[edit.at..edit.at + edit.inserted]);
        Ok(Kept {
            chars: text.len(),
            lines: laid.line_count(),
            bytes: old.bytes - removed.0 + inserted.0,
            utf16: old.utf16 - removed.1 + inserted.1,
            laid: Box::new(alloc, laid)?,
        })
    }

    /// Takes a layout whose text has `bytes` bytes in UTF-8, and counts the UTF-16 code units of its text.
    pub fn of_box(laid: Box<Laid>, bytes: usize) -> Kept
        requires { bytes ≡ length_in Utf8 laid.value.text }
        ensures { result ≡ laid.value }
    {
        let text = laid.text();
        let utf16 = utf16_length(text, bytes);
        Kept {
            chars: text.len(),
            lines: laid.line_count(),
            bytes,
            utf16,
            laid,
        }
    }

    /// Moves the layout out of its box.
    pub fn into_laid(self) -> Laid {
        let Kept {
            chars: _,
            lines: _,
            bytes: _,
            utf16: _,
            laid,
        } = self;
        Box::into_inner(laid)
    }

    /// Returns the layout.
    pub fn laid(&self) -> &Laid
        ensures { result.now ≡ self.now }
    {
        &self.laid
    }

    // Replaces the lines with those that have the given extents, and replaces `extents` with the extents of
    // the old lines.
    fn reflow(&mut self, engine: &Engine, extents: &mut Extents, scratch: &mut ReflowScratch)
        requires laid { IsFresh (rules_of engine.now) self.old }
        requires extents { (width : ℕ) × (extents.old
            ≡ extents_of (rules_for (rules_of engine.now) self.old) width self.old.text) }
        requires scratch { length self.old.text ≤ scratch.old.len }
        ensures kept { self.new ≡ reflowed (rules_of engine.now) self.old extents.old }
        ensures extents { extents.new ≡ extents_in self.old.lines }
        ensures scratch { scratch.new ≡ record scratch.old {
          written = counted scratch.old.written (length self.old.text);
        } }
        ensures least { scratch.old.written ≤ scratch.new.written }
    {
        engine.reflow(&mut self.laid, extents, scratch);
        self.lines = self.laid.line_count();
    }
}

impl Measured for Kept {
    ghost chars = { λ kept. length kept.text };

    ghost lines = { λ kept. length kept.lines };

    ghost bytes = { units_of Utf8 };

    ghost utf16 = { units_of Utf16 };

    fn chars(&self) -> usize {
        self.chars
    }

    fn lines(&self) -> usize {
        self.lines
    }

    fn bytes(&self) -> usize {
        self.bytes
    }

    fn utf16(&self) -> usize {
        self.utf16
    }
}

/// Exchanges the lines of a paragraph for its lines at another width.
impl Exchange for Kept {
    type Part = Fill;

    ghost use Rattle.std.specs.Prelude.{length, refl};
    ghost use Rattle.lines.specs.Layouts.{AreLinesOf, IsLaidOut, Rules};

    // The new lines are lines of this paragraph, found with the tables and options of its layout.
    ghost fits = { λ kept fill.
        (rules : Rules) × IsLaidOut rules kept × AreLinesOf rules kept.text fill };

    ghost exchanged = { λ kept fill. record kept { lines = fill.lines } };

    ghost handed_out = { λ kept fill. record { lines = kept.lines; len = length kept.text } };

    fn exchange(&mut self, part: &mut Fill) {
        self.laid.exchange(part);
        self.lines = self.laid.line_count();
    }

    ghost keeps_chars = { λ kept fill fits. refl };

    ghost keeps_bytes = { λ kept fill fits. refl };

    ghost keeps_utf16 = { λ kept fill fits. refl };
}

/// Overwrites the lines of paragraphs with those at another width, using an engine's tables and options. The
/// extents of the new lines are given for each paragraph, or `None` if its lines do not change.
pub struct Reflow<'a> {
    pub engine: &'a Engine,
    /// Scratch space with capacity for the longest paragraph, and the count of characters whose lines were
    /// written.
    pub scratch: ReflowScratch,
}

impl<'a> Model for Reflow<'a> {
    ghost use Rattle.lines.specs.Engine.{rules_of};
    ghost use Rattle.session.specs.Kept.{ReflowState};

    ghost Value = { ReflowState };

    ghost view = { λ r. record {
      by = record { rules = rules_of r.engine.now; capacity = r.scratch.len };
      written = r.scratch.written;
    } };
}

impl<'a> Exchanger<Kept> for Reflow<'a> {
    type Part = Option<Extents>;

    ghost use Rattle.std.specs.Prelude.{IfSome, length};
    ghost use Rattle.std.proofs.Common.{ap};
    ghost use Rattle.session.specs.Kept.{text_stays, put_into, taken_from, written_for, CanBePut, Writer};

    ghost Kind = { Writer };

    ghost kind = { λ reflow. reflow.by };

    // The extents belong to this paragraph, and the scratch space is large enough for it.
    ghost fits = { λ by kept part. IfSome part (CanBePut by kept) };

    ghost exchanged = { put_into };

    ghost handed_out = { λ _. taken_from };

    ghost worked = { λ reflow. reflow.written };

    // The number of characters in a paragraph if its lines are replaced, and otherwise 0.
    ghost cost = { written_for };

    ghost keeps_chars = { λ by kept part _. ap length (text_stays by kept part) };

    ghost keeps_bytes = { λ by kept part _. ap (length_in Utf8) (text_stays by kept part) };

    ghost keeps_utf16 = { λ by kept part _. ap (length_in Utf16) (text_stays by kept part) };

    fn exchange(&mut self, item: &mut Kept, part: &mut Option<Extents>) {
        let Some(extents) = part else {
            return;
        };
        item.reflow(self.engine, extents, &mut self.scratch);
    }
}
