//! Defines `Session`, which is generic over its `ParagraphStore`.
ghost use Rattle.std.specs.Prelude.{◌≡◌, ◌+◌, ◌^◌, ◌<◌, ◌≤◌, nat_le, nat_lt, length};
ghost use Rattle.std.specs.Prelude.{is_none, is_some, min, option_map, slice_get, slice_index, Option};
ghost use Rattle.std.specs.Prelude.{IfOk, IfErr, IfSome, IsErrOf, OnOk, OnErr};
ghost use Rattle.std.specs.List.{flat_map};
ghost use Rattle.std.specs.Str.{chars};
ghost use Rattle.device.specs.Device.{StoppedAt, Wrote};
ghost use Rattle.lines.specs.Bytes.{line_bytes};
ghost use Rattle.lines.specs.Engine.{analysed_of, filled_of, rules_of, written_of, SameRules};
ghost use Rattle.lines.specs.Separators.{separator_len};
ghost use Rattle.lines.specs.Writing.{PassedOn, StoppedIn};
ghost use Rattle.lines.specs.declared.printing.print.Print.{Print};
ghost use Rattle.session.specs.Carets.{caret_at};
ghost use Rattle.session.specs.Changes.{all_lines, AreChanged};
ghost use Rattle.session.specs.Edits.{after_all, replacing, deletion, insertion};
ghost use Rattle.session.specs.Clusters.{cluster_at, line_clusters};
ghost use Rattle.session.specs.Hits.{hit_at};
ghost use Rattle.session.specs.Kept.{lines_in};
ghost use Rattle.session.specs.Offsets.{length_in, offset_of, position_of};
ghost use Rattle.session.specs.Places.{first_line_at, is_closed, line_starts, paragraph_starts, place_at};
ghost use Rattle.session.specs.Printing.{lines_page, HasLines, PrintsNot, WritesNot};
ghost use Rattle.session.specs.Reading.{text_part, utf8_len, utf8_part};
ghost use Rattle.session.specs.Reasons.{reasons_at};
ghost use Rattle.session.specs.Runs.{StopsAt, WorksAtMost};
ghost use Rattle.session.specs.Sessions.{cuts_at, held_at, page_at, text_at, IsWholeLayout};
ghost use Rattle.lines.specs.Layouts.{cut_by};
ghost use Rattle.session.specs.Edits.{text_refusal};
ghost use Rattle.session.specs.Measuring.{SetsAdvances, SetsAdvancesNot};
ghost use Rattle.session.specs.Measuring.{SetsMeasuredWidth, SetsMeasuredWidthNot};
ghost use Rattle.session.specs.Sessions.{is_no_width, state_of, Edits, EditsNot};
ghost use Rattle.session.specs.Sessions.{Opens, OpensAs, OpensMeasured};
ghost use Rattle.session.specs.Sessions.{OpensMeasuredNot, OpensNot, OpensNotFor, SetsWidth, SetsWidthNot};
ghost use Rattle.session.specs.declared.edits.AdvanceFault.TheVariants as AdvanceFault;
ghost use Rattle.session.specs.declared.edits.EditFault.{EditFault};
ghost use Rattle.session.specs.Words.{word_at};
ghost use Rattle.session.specs.declared.edits.EditFault.TheVariants.{NoMemory};
ghost use Rattle.session.specs.declared.offsets.Encoding.TheVariants.{Utf8, Utf16};

use crate::carets::{Caret, caret_in};
use crate::clusters::{Cluster, cluster_of, line_clusters};
use crate::edits::{
    AdvanceFault, ChangedLines, Damage, Edit, EditFault, MEASURED_WIDTH_LIMIT, TEXT_LIMIT,
    TextRange,
};
use crate::hits::{Hit, hit_in};
use crate::joined::{Form, has_long_in_text};
use crate::kept::Kept;
use crate::measuring::set_advances;
use crate::offsets::{Encoding, offset_of, position_of};
use crate::opening::{append_all, is_too_long};
use crate::places::{
    Place, char_at, is_closed, line_start, paragraph_first_line, paragraph_start, place_of,
};
use crate::printing::{RangeFault, write_lines};
use crate::reading::{text_part, utf8_len, write_text};
use crate::reasons::{CharReasons, reasons_of};
use crate::replace::replace;
use crate::width::set_width;
use crate::words::{Word, word_of};
use bidi::paragraphs_are_pieces;
use device::Sink;
use lines::{
    Engine, Laid, Print, VisualLine, WriteFault, lines_are_few, paragraphs_print_their_lines,
};
use std::alloc::{AllocError, Global};
use std::marker::Model;
use store::ParagraphStore;

/// A text at a width, with the layout of each paragraph.
pub struct Session<S: ParagraphStore<Kept>> {
    engine: Engine,
    store: S,
    form: Form,
    changed: ChangedLines,
    alloc: Global,
}

impl<S: ParagraphStore<Kept> + Drop> Drop for Session<S> {
    fn drop(self) {
        let Session {
            engine: _,
            store: _,
            form: _,
            changed: _,
            alloc: _,
        } = self;
    }
}

impl<S: ParagraphStore<Kept>> Model for Session<S> {
    ghost use Rattle.session.specs.Sessions.{state_of, with_changed, SessionState, IsWholeLayout};

    ghost Value = { SessionState };

    ghost view = { λ s. with_changed
        (state_of s.engine s.form.width s.form.is_measured (S.items s.store)) s.changed };

    ghost invariant = { λ s.
        IsWholeLayout (state_of s.engine s.form.width s.form.is_measured (S.items s.store)) };
}

// Returns whether a width is invalid for a measured session.
fn is_no_width(width: u32) -> bool
    ensures { result ≡ is_no_width width }
{
    width == 0 || width > MEASURED_WIDTH_LIMIT
}

// Returns the changed lines of a new session, which are all of its lines.
fn all_lines<S: ParagraphStore<Kept>>(store: &S) -> ChangedLines
    ensures { result ≡ all_lines (S.items store.now) }
{
    ChangedLines {
        first_line: 0,
        old_lines: 0,
        new_lines: store.total_lines(),
    }
}

// Lays out the paragraphs of a text, and puts them into a new store.
fn fill_store<S: ParagraphStore<Kept> + Drop>(
    alloc: Global,
    engine: &mut Engine,
    text: &str,
    form: Form,
) -> Result<S, EditFault>
    requires { 0 < form.width }
    ensures ok { IfOk result (λ store. (reason : Option EditFault)
        → reason ≡ text_refusal (cut_by (rules_of engine.old)) (chars text.now)
        → OpensAs form.is_measured reason engine.old (chars text.now) form.width
        (state_of engine.new form.width form.is_measured (S.items store))) }
    ensures err { IfErr result (λ fault. (reason : Option EditFault)
        → reason ≡ text_refusal (cut_by (rules_of engine.old)) (chars text.now)
        → OpensNotFor reason engine.old (chars text.now) (engine.new, fault)) }
    ensures memory { IsErrOf result NoMemory → 0 < length (chars text.now) }
{
    if is_too_long(text) {
        return Err(EditFault::TextTooLong);
    }
    // By these theorems, the paragraphs make up the text, and the sum of lines does not overflow.
    paragraphs_are_pieces();
    lines_are_few();
    if has_long_in_text(engine, text) {
        return Err(EditFault::ParagraphTooLong);
    }
    let mut store = S::new(alloc);
    if text.is_empty() {
        return Ok(store);
    }
    if append_all(alloc, engine, &mut store, text, form).is_err() {
        return Err(EditFault::NoMemory);
    }
    Ok(store)
}

impl<S: ParagraphStore<Kept> + Drop> Session<S> {
    /// Opens a session on a text at a width in columns. If opening fails, returns the engine together with
    /// the error.
    pub fn open(
        alloc: Global,
        engine: Engine,
        text: &str,
        width: u16,
    ) -> Result<Session<S>, (Engine, EditFault)>
        ensures ok { IfOk result (Opens engine (chars text.now) width) }
        ensures changed { IfOk result (λ session. session.changed ≡ all_lines session.kept) }
        ensures err { IfErr result (OpensNot engine (chars text.now) width) }
        ensures memory { IfErr result (λ back. back.1 ≡ NoMemory → 0 < length (chars text.now)) }
    {
        if width == 0 {
            return Err((engine, EditFault::WidthOutOfRange));
        }
        let form = Form {
            is_measured: false,
            width: u32::from(width),
        };
        let mut engine = engine;
        match fill_store(alloc, &mut engine, text, form) {
            Ok(store) => Ok(Session {
                engine,
                changed: all_lines(&store),
                store,
                form,
                alloc,
            }),
            Err(fault) => Err((engine, fault)),
        }
    }

    /// Opens a measured session on a text at a width from 1 to 2,147,483,647. Each character has an advance:
    /// its width, in a unit that the caller chooses. All advances are 0 until [`Session::set_advances`] sets
    /// them. All columns of the session, such as those of lines, carets and hits, are in this unit. If
    /// opening fails, returns the engine together with the error.
    pub fn open_measured(
        alloc: Global,
        engine: Engine,
        text: &str,
        width: u32,
    ) -> Result<Session<S>, (Engine, EditFault)>
        ensures ok { IfOk result (OpensMeasured engine (chars text.now) width) }
        ensures changed { IfOk result (λ session. session.changed ≡ all_lines session.kept) }
        ensures err { IfErr result (OpensMeasuredNot engine (chars text.now) width) }
        ensures memory { IfErr result (λ back. back.1 ≡ NoMemory → 0 < length (chars text.now)) }
    {
        if is_no_width(width) {
            return Err((engine, EditFault::WidthOutOfRange));
        }
        let form = Form {
            is_measured: true,
            width,
        };
        let mut engine = engine;
        match fill_store(alloc, &mut engine, text, form) {
            Ok(store) => Ok(Session {
                engine,
                changed: all_lines(&store),
                store,
                form,
                alloc,
            }),
            Err(fault) => Err((engine, fault)),
        }
    }
}

impl<S: ParagraphStore<Kept>> Session<S> {
    /// Returns the number of lines of the text.
    pub fn line_count(&self) -> usize
        ensures { result ≡ length (lines_in self.now.kept) }
    {
        self.store.total_lines()
    }

    /// Returns line `n`, or `None` past the last line.
    pub fn line(&self, n: usize) -> Option<VisualLine<'_>>
        ensures { result ≡ slice_get (lines_in self.now.kept) n }
    {
        if n >= self.store.total_lines() {
            return None;
        }
        let found = self.store.find_line(n);
        match self.store.get(found.index) {
            Some(kept) => kept.laid().line(found.rest),
            None => None,
        }
    }

    /// Returns the position at which a line starts, or `None` past the last line.
    pub fn line_start(&self, n: usize) -> Option<usize>
        ensures start { result ≡ slice_get (line_starts self.now.kept) n }
        ensures none { is_none result ≡ nat_le (length (lines_in self.now.kept)) n }
        ensures fits { IfSome result (λ start. start < 2 ^ 33) }
    {
        line_start(&self.store, n)
    }

    /// Returns the paragraph and the line of the character at a position, and the character's offset in that
    /// line. Returns `None` past the end of the text.
    ///
    /// The end of the text is also a position, after the last character. If the text is empty or ends with a
    /// separator, the end is where the next paragraph would start, and its `line` is `line_count`.
    pub fn place(&self, pos: usize) -> Option<Place>
        ensures place { result ≡ place_at (rules_of self.now.engine) self.now.kept pos }
        ensures none { is_none result ≡ nat_lt (length (text_at self.now)) pos }
    {
        // By these theorems, each paragraph has lines, which start in order.
        paragraphs_are_pieces();
        Laid::lines_begin_in_order();
        place_of(&self.store, &self.engine, pos)
    }

    // Returns whether a new paragraph would start at the end of the text.
    pub(crate) fn is_closed(&self) -> bool
        ensures { result ≡ is_closed (rules_of self.now.engine) (text_at self.now) }
    {
        is_closed(&self.store, &self.engine)
    }

    // Returns the character at a position, or U+0000 past the last one.
    fn char_at(&self, pos: usize) -> char
        ensures { result ≡ slice_index (text_at self.now) pos }
    {
        if pos < self.store.total_chars() {
            char_at(&self.store, pos)
        } else {
            '\0'
        }
    }

    // Returns the length of the separator at the end of a line, or 0 if there is none, given the positions of
    // the line's last two characters.
    pub(crate) fn separator_len(&self, before: usize, last: usize) -> usize
        ensures { result ≡ separator_len (rules_of self.now.engine).tables
            (slice_index (text_at self.now) before) (slice_index (text_at self.now) last) }
    {
        self.engine
            .separator_len(self.char_at(before), self.char_at(last))
    }

    /// Returns where to draw a caret before the character at a position, or `None` past the end of the text.
    ///
    /// The caret is at the leading edge of the character: the left edge if the character's level is even, and
    /// the right edge if it is odd. Before a character that is not shown, and at the end of the text, the
    /// caret is at the end of the line in the base direction. At the end of a text that is empty or ends with
    /// a separator, the caret is at column 0 of the line after the last line.
    ///
    /// Where the direction changes, a position has a second edge: the trailing edge of the character before
    /// it. This second edge and the caret at `pos - 1` are on opposite sides of that character. For example,
    /// in a text of Latin letters followed by a Hebrew word:
    ///
    /// ```text
    /// positions   0 1 2 3 4 5 6       a b c, a space, and the letters 4, 5 and 6
    /// shown       a b c _ 6 5 4
    /// columns    0 1 2 3 4 5 6 7      caret(3): column 3; caret(4): column 7, at 4's right edge
    /// ```
    pub fn caret(&self, pos: usize) -> Option<Caret>
        ensures caret { result ≡ caret_at (rules_of self.now.engine) self.now.kept pos }
        ensures none { is_none result ≡ nat_lt (length (text_at self.now)) pos }
        ensures fits { IfSome result (λ caret. caret.column < 2 ^ 63) }
    {
        let place = self.place(pos)?;
        match self.line(place.line) {
            Some(line) => Some(caret_in(&line, place)),
            None => Some(Caret {
                line: place.line,
                column: 0,
                level: self.engine.empty_base(),
            }),
        }
    }

    /// Returns the character that covers a column of line `n`, or `None` past the last line. Columns are
    /// counted from the left edge of the line's shown part. For a column to the right of the shown part,
    /// returns the rightmost character of nonzero width. In a line of width 0, returns the start of the line.
    pub fn hit(&self, n: usize, column: usize) -> Option<Hit>
        ensures hit { result ≡ hit_at self.now.kept n column }
        ensures none { is_none result ≡ nat_le (length (lines_in self.now.kept)) n }
    {
        let start = line_start(&self.store, n)?;
        let line = self.line(n)?;
        Some(hit_in(&line, start, column))
    }

    /// Returns the grapheme cluster of a character within its paragraph, or `None` past the last character.
    ///
    /// Reads back to the nearest place where a cluster ends regardless of other characters, such as before
    /// most letters and emoji, and forward to the next such place. In the worst case, such as a paragraph of
    /// flags, reads the whole paragraph. Allocates a copy of these characters if there is more than one.
    /// Fails only if memory runs out, and never past the last character.
    pub fn cluster(&self, pos: usize) -> Result<Option<Cluster>, AllocError>
        ensures ok { IfOk result (λ cluster. cluster ≡ cluster_at self.now.kept pos) }
        ensures memory { OnErr result (pos < length (text_at self.now)) }
    {
        // By this theorem, no paragraph is empty.
        paragraphs_are_pieces();
        Laid::lines_begin_in_order();
        cluster_of(&self.store, self.alloc, pos)
    }

    /// Returns where the grapheme clusters of line `n` end, in characters from the line's start, or `None`
    /// past the last line. The last of these ends is the end of the line, even if the line's last cluster
    /// continues on the next line.
    ///
    /// Reads the characters of the line and, as `cluster` does, the characters around it. Allocates a copy of
    /// all these characters.
    pub fn line_clusters(&self, n: usize) -> Result<Option<Vec<usize>>, AllocError>
        ensures ok { IfOk result (λ ends. option_map (λ ends. ends.items) ends
            ≡ line_clusters self.now.kept n) }
        ensures memory { OnErr result (n < length (lines_in self.now.kept)) }
    {
        // By these theorems, no paragraph is empty, and lines start in order.
        paragraphs_are_pieces();
        Laid::lines_begin_in_order();
        line_clusters(&self.store, self.alloc, n)
    }

    /// Returns the word of the character at a position: the segment between word boundaries (UAX #29) of the
    /// paragraph that contains the character. Returns `None` past the last character. Spaces and punctuation
    /// are segments too. Allocates a copy of the paragraph, and needs time linear in its length.
    pub fn word(&self, pos: usize) -> Result<Option<Word>, AllocError>
        ensures ok { IfOk result (λ word. word ≡ word_at self.now.kept pos) }
        ensures memory { OnErr result (pos < length (text_at self.now)) }
    {
        // By this theorem, no paragraph is empty.
        paragraphs_are_pieces();
        Laid::lines_begin_in_order();
        word_of(&self.store, self.alloc, pos)
    }

    /// Returns how the algorithms arrive at the level of the character at a position and at the break mark
    /// after it. Returns `None` past the last character. The rules depend on the Unicode version of the
    /// tables and on the session's options. The level is the one before L1; the level in the line can differ.
    ///
    /// Needs time and memory proportional to the length of the paragraph: about 500 bytes for each character.
    /// Does not change the work counters.
    pub fn reasons(&self, pos: usize) -> Result<Option<CharReasons>, AllocError>
        ensures ok { IfOk result (λ reasons. reasons
            ≡ reasons_at (rules_of self.now.engine) self.now.kept pos) }
        ensures none { IfOk result (λ reasons. is_none reasons ≡ nat_le (length (text_at self.now)) pos) }
        ensures memory { OnErr result (pos < length (text_at self.now)) }
    {
        // By this theorem, no paragraph is empty.
        paragraphs_are_pieces();
        Laid::lines_begin_in_order();
        reasons_of(&self.store, &self.engine, self.alloc, pos)
    }

    /// Returns the session's allocator.
    pub fn allocator(&self) -> Global {
        self.alloc
    }

    /// Returns the characters from `pos` to the end of their paragraph, but at most `count`. Returns `None`
    /// if `pos + count` is past the end. The returned part is empty only if `count` is 0. To read the rest,
    /// call again with `pos + part.len()` and `count - part.len()`.
    pub fn text(&self, pos: usize, count: usize) -> Option<&[char]>
        ensures part { option_map (λ part. part.now) result ≡ text_part self.now.kept pos count }
        ensures some { 0 < count → IfSome result (λ part. 0 < length part.now) }
        ensures none { is_none result ≡ nat_lt (length (text_at self.now)) (pos + count) }
    {
        // By this theorem, no paragraph is empty.
        paragraphs_are_pieces();
        Laid::lines_begin_in_order();
        text_part(&self.store, pos, count)
    }

    /// Returns the length in UTF-8 bytes of the `count` characters starting at `pos`. Returns `None` if the
    /// range reaches past the end. Costs as much as two calls to `byte_of`. Allocates nothing.
    pub fn utf8_len(&self, pos: usize, count: usize) -> Option<usize>
        ensures { result ≡ utf8_len self.now.kept pos count }
    {
        utf8_len(&self.store, pos, count)
    }

    /// Returns the number of UTF-8 bytes before a position, or `None` past the end. Needs time logarithmic in
    /// the number of paragraphs and, unless the paragraph at `pos` is ASCII, linear in that paragraph's
    /// length. Allocates nothing.
    pub fn byte_of(&self, pos: usize) -> Option<usize>
        ensures byte { result ≡ offset_of Utf8 (text_at self.now) pos }
        ensures none { is_none result ≡ nat_lt (length (text_at self.now)) pos }
    {
        offset_of(&self.store, pos, Encoding::Utf8)
    }

    /// Returns the position of the character that contains a UTF-8 byte, and how many bytes of the character
    /// precede that byte. At the end of the text, these are `char_count` and 0. Returns `None` past the end.
    /// Costs as much as `byte_of`.
    pub fn position_of_byte(&self, byte: usize) -> Option<(usize, usize)>
        ensures position { result ≡ position_of Utf8 (text_at self.now) byte }
        ensures none { is_none result ≡ nat_lt (length_in Utf8 (text_at self.now)) byte }
    {
        position_of(&self.store, byte, Encoding::Utf8)
    }

    /// Returns the number of UTF-16 code units before a position, or `None` past the end. Needs time
    /// logarithmic in the number of paragraphs. If the paragraph at `pos` has a character of two code units,
    /// also linear in that paragraph's length. Allocates nothing.
    pub fn utf16_of(&self, pos: usize) -> Option<usize>
        ensures unit { result ≡ offset_of Utf16 (text_at self.now) pos }
        ensures none { is_none result ≡ nat_lt (length (text_at self.now)) pos }
    {
        offset_of(&self.store, pos, Encoding::Utf16)
    }

    /// Returns the position of the character that contains a UTF-16 code unit, and how many code units of the
    /// character precede that unit. At the end of the text, these are `char_count` and 0. Returns `None` past
    /// the end. Costs as much as `utf16_of`.
    pub fn position_of_utf16(&self, unit: usize) -> Option<(usize, usize)>
        ensures position { result ≡ position_of Utf16 (text_at self.now) unit }
        ensures none { is_none result ≡ nat_lt (length_in Utf16 (text_at self.now)) unit }
    {
        position_of(&self.store, unit, Encoding::Utf16)
    }

    /// Writes `count` characters, starting at `pos`, as UTF-8. If the range reaches past the end, writes
    /// nothing and fails with `OutOfRange`. Allocates nothing.
    pub fn write_text<W: Sink>(
        &self,
        writer: &mut W,
        pos: usize,
        count: usize,
    ) -> Result<(), RangeFault>
        ensures within { OnOk result (pos + count ≤ length (text_at self.now)) }
        ensures ok { OnOk result (Wrote (utf8_part self.now.kept pos count)
            (W.state writer.old) (W.state writer.new)) }
        ensures err { IfErr result (WritesNot (length (text_at self.now)) pos count
            (W.state writer.new ≡ W.state writer.old)
            (λ written. StoppedAt written (utf8_part self.now.kept pos count)
            (W.state writer.old) (W.state writer.new))) }
    {
        self.write_text_after(writer, 0, pos, count)?;
        Ok(())
    }

    /// Writes `count` characters, starting at `pos`, as UTF-8. `before` is the number of bytes already
    /// written. The returned byte count includes these bytes, as does the count in a `WriteFault`.
    pub fn write_text_after<W: Sink>(
        &self,
        writer: &mut W,
        before: u64,
        pos: usize,
        count: usize,
    ) -> Result<u64, RangeFault>
        requires { before ≤ (W.state writer.old).passed }
        ensures within { OnOk result (pos + count ≤ length (text_at self.now)) }
        ensures ok { IfOk result (λ n. PassedOn (utf8_part self.now.kept pos count) before
            (W.state writer.old) (W.state writer.new) n) }
        ensures err { IfErr result (WritesNot (length (text_at self.now)) pos count
            (W.state writer.new ≡ W.state writer.old)
            (λ written. StoppedIn (utf8_part self.now.kept pos count) before
            (W.state writer.old) (W.state writer.new) written)) }
        ensures counted { IfOk result (λ n. n ≤ (W.state writer.new).passed) }
    {
        let chars = self.store.total_chars();
        if pos > chars || count > chars - pos {
            return Err(RangeFault::OutOfRange);
        }
        // By this theorem, no paragraph is empty.
        paragraphs_are_pieces();
        Laid::lines_begin_in_order();
        match write_text(&self.store, pos, count, writer, before) {
            Ok(written) => Ok(written),
            Err(fault) => Err(RangeFault::Write(fault)),
        }
    }

    /// Returns the number of characters of the text.
    pub fn char_count(&self) -> usize
        ensures { result ≡ length (text_at self.now) }
    {
        self.store.total_chars()
    }

    /// Returns the number of paragraphs of the text.
    pub fn paragraph_count(&self) -> usize
        ensures { result ≡ length self.now.kept }
    {
        self.store.count()
    }

    /// Returns the layout of a paragraph, or `None` past the last paragraph.
    pub fn paragraph(&self, index: usize) -> Option<&Laid>
        ensures { option_map (λ laid. laid.now) result ≡ slice_get self.now.kept index }
    {
        Some(self.store.get(index)?.laid())
    }

    /// Returns the position of a paragraph's first character, or `None` past the last paragraph. Needs time
    /// logarithmic in the number of paragraphs.
    pub fn paragraph_start(&self, index: usize) -> Option<usize>
        ensures start { result ≡ slice_get (paragraph_starts self.now.kept) index }
        ensures none { is_none result ≡ nat_le (length self.now.kept) index }
    {
        paragraph_start(&self.store, index)
    }

    /// Returns the index of a paragraph's first line, or `None` past the last paragraph. Costs as much as
    /// `paragraph_start`.
    pub fn paragraph_first_line(&self, index: usize) -> Option<usize>
        ensures line { result ≡ first_line_at self.now.kept index }
        ensures none { is_none result ≡ nat_le (length self.now.kept) index }
    {
        paragraph_first_line(&self.store, index)
    }

    /// Returns the width, in columns. In a measured session, returns the width in the caller's unit, or
    /// 65,535 if the width is greater than that. Use `measured_width` there.
    pub fn width(&self) -> u16
        ensures width { result ≡ min self.now.width 65535 }
        ensures laid_out { IsWholeLayout self.now }
    {
        match u16::try_from(self.form.width) {
            Ok(width) => width,
            Err(_) => u16::MAX,
        }
    }

    /// Returns the width: in the caller's unit if the session is measured, and otherwise in columns.
    pub fn measured_width(&self) -> u32
        ensures width { result ≡ self.now.width }
    {
        self.form.width
    }

    /// Returns whether the session is measured.
    pub fn is_measured(&self) -> bool
        ensures { result ≡ is_some self.now.advances }
    {
        self.form.is_measured
    }

    /// Returns how many characters the session's engine has analysed. The count saturates at 2^64−1.
    pub fn analysed(&self) -> u64
        ensures { result ≡ analysed_of self.now.engine }
    {
        self.engine.analysed()
    }

    /// Returns how many characters the session's engine has filled into lines. The count saturates at 2^64−1.
    pub fn filled(&self) -> u64
        ensures { result ≡ filled_of self.now.engine }
    {
        self.engine.filled()
    }

    /// Returns the number of characters whose lines the session's engine has written. The count saturates at
    /// 2^64−1.
    pub fn written(&self) -> u64
        ensures { result ≡ written_of self.now.engine }
    {
        self.engine.written()
    }

    /// Swaps the buffers of this session's engine with those of another engine. A newly opened session owns
    /// the buffers of its engine, which have grown to the size that the longest paragraph needed.
    pub fn swap_buffers(&mut self, engine: &mut Engine)
        ensures session { self.new ≡ self.old }
        ensures engine { engine.new ≡ engine.old }
    {
        self.engine.swap_buffers(engine);
    }

    /// Returns which lines were changed by the last successful call that edits the text, sets the width or
    /// sets advances. These are the damaged lines without the longest run of unchanged lines at their start,
    /// and then without the longest such run at their end. After opening, all lines count as changed.
    pub fn changed_lines(&self) -> ChangedLines
        ensures { result ≡ self.now.changed }
    {
        self.changed
    }

    /// Inserts text before the character at `pos`, or at the end.
    pub fn insert(&mut self, pos: usize, text: &str) -> Result<Damage, EditFault>
        ensures ok { IfOk result (Edits (insertion pos (chars text.now)) self.old self.new) }
        ensures err { IfErr result (EditsNot (insertion pos (chars text.now)) self.old self.new) }
        ensures changed { IfOk result (λ damage.
            AreChanged (lines_in self.old.kept) (lines_in self.new.kept) damage self.new.changed) }
        ensures unchanged { OnErr result (self.new.changed ≡ self.old.changed) }
        ensures memory { IsErrOf result NoMemory
            → 0 < length (text_at self.old) + length (chars text.now) }
    {
        self.replace(pos, 0, text)
    }

    /// Deletes `count` characters, starting at `pos`.
    pub fn delete(&mut self, pos: usize, count: usize) -> Result<Damage, EditFault>
        ensures ok { IfOk result (Edits (deletion pos count) self.old self.new) }
        ensures err { IfErr result (EditsNot (deletion pos count) self.old self.new) }
        ensures changed { IfOk result (λ damage.
            AreChanged (lines_in self.old.kept) (lines_in self.new.kept) damage self.new.changed) }
        ensures unchanged { OnErr result (self.new.changed ≡ self.old.changed) }
        ensures memory { IsErrOf result NoMemory → 0 < length (text_at self.old) }
    {
        self.replace(pos, count, "")
    }

    /// Replaces `count` characters from `pos` on with a text, in a single edit with a single damage.
    pub fn replace(&mut self, pos: usize, count: usize, piece: &str) -> Result<Damage, EditFault>
        ensures ok { IfOk result (Edits (replacing pos count (chars piece.now)) self.old self.new) }
        ensures err { IfErr result (EditsNot (replacing pos count (chars piece.now)) self.old self.new) }
        ensures changed { IfOk result (λ damage.
            AreChanged (lines_in self.old.kept) (lines_in self.new.kept) damage self.new.changed) }
        ensures unchanged { OnErr result (self.new.changed ≡ self.old.changed) }
        ensures memory { IsErrOf result NoMemory
            → 0 < length (text_at self.old) + length (chars piece.now) }
    {
        // By these theorems, each paragraph has lines.
        paragraphs_are_pieces();
        Laid::lines_begin_in_order();
        replace(
            self.alloc,
            &mut self.engine,
            &mut self.store,
            &mut self.changed,
            self.form,
            TextRange { pos, count },
            piece,
        )
    }

    /// Sets the width, in columns, and rewraps every paragraph. A paragraph of one line is unchanged if the
    /// line fits and, with `show_spaces`, no space that would fit is hidden. Every other paragraph is filled
    /// and written once. In a measured session, the width is in the caller's unit.
    pub fn set_width(&mut self, width: u16) -> Result<Damage, EditFault>
        ensures ok { IfOk result (SetsWidth width self.old self.new) }
        ensures err { IfErr result (SetsWidthNot width self.old self.new) }
        ensures changed { IfOk result (λ damage.
            AreChanged (lines_in self.old.kept) (lines_in self.new.kept) damage self.new.changed) }
        ensures unchanged { OnErr result (self.new.changed ≡ self.old.changed) }
        ensures memory { IsErrOf result NoMemory → 0 < length (text_at self.old) }
    {
        // By these theorems, each paragraph has lines.
        paragraphs_are_pieces();
        Laid::lines_begin_in_order();
        set_width(
            self.alloc,
            &mut self.engine,
            &mut self.store,
            &mut self.changed,
            &mut self.form,
            u32::from(width),
        )
    }

    /// Sets the width of a measured session, and rewraps paragraphs as `set_width` does. Fails with
    /// `NotMeasured`, or with `WidthOutOfRange` if the width is 0 or more than 2,147,483,647.
    pub fn set_measured_width(&mut self, width: u32) -> Result<Damage, AdvanceFault>
        ensures ok { IfOk result (SetsMeasuredWidth width self.old self.new) }
        ensures err { IfErr result (SetsMeasuredWidthNot width self.old self.new) }
        ensures changed { IfOk result (λ damage.
            AreChanged (lines_in self.old.kept) (lines_in self.new.kept) damage self.new.changed) }
        ensures unchanged { OnErr result (self.new.changed ≡ self.old.changed) }
        ensures memory { IsErrOf result AdvanceFault.NoMemory → 0 < length (text_at self.old) }
    {
        if !self.form.is_measured {
            return Err(AdvanceFault::NotMeasured);
        }
        if is_no_width(width) {
            return Err(AdvanceFault::WidthOutOfRange);
        }
        // By these theorems, each paragraph has lines.
        paragraphs_are_pieces();
        Laid::lines_begin_in_order();
        match set_width(
            self.alloc,
            &mut self.engine,
            &mut self.store,
            &mut self.changed,
            &mut self.form,
            width,
        ) {
            Ok(damage) => Ok(damage),
            Err(_) => Err(AdvanceFault::NoMemory),
        }
    }

    /// Sets the advances of the characters from `pos` on, in the unit of the width, and rewraps the
    /// paragraphs that contain these characters, without analysing them again. The damage names these
    /// paragraphs, or none if `advances` is empty. Fails with `NotMeasured`, with `OutOfRange` if the range
    /// reaches past the end, or with `ParagraphTooLong` if the advances of a paragraph would add up to more
    /// than 4,294,967,295.
    pub fn set_advances(&mut self, pos: usize, advances: &[u32]) -> Result<Damage, AdvanceFault>
        ensures ok { IfOk result (SetsAdvances pos advances.now self.old self.new) }
        ensures err { IfErr result (SetsAdvancesNot pos advances.now self.old self.new) }
        ensures changed { IfOk result (λ damage.
            AreChanged (lines_in self.old.kept) (lines_in self.new.kept) damage self.new.changed) }
        ensures unchanged { OnErr result (self.new.changed ≡ self.old.changed) }
        ensures memory { IsErrOf result AdvanceFault.NoMemory → 0 < length (text_at self.old) }
    {
        // By these theorems, each paragraph has lines.
        paragraphs_are_pieces();
        Laid::lines_begin_in_order();
        set_advances(
            self.alloc,
            &mut self.engine,
            &mut self.store,
            &mut self.changed,
            self.form,
            pos,
            advances,
        )
    }

    /// Writes all lines. Stops at the first failed write. Allocates nothing.
    pub fn print<W: Sink>(&self, writer: &mut W, print: &Print) -> Result<(), WriteFault>
        ensures ok { OnOk result (Wrote (page_at self.now print.now)
            (W.state writer.old) (W.state writer.new)) }
        ensures err { IfErr result (λ fault. StoppedAt fault.written (page_at self.now print.now)
            (W.state writer.old) (W.state writer.new)) }
    {
        self.prints_its_lines();
        match self.print_lines(writer, 0, self.line_count(), print) {
            Ok(()) => Ok(()),
            Err(RangeFault::Write(fault)) => Err(fault),
            Err(RangeFault::OutOfRange) => unreachable!(),
        }
    }

    /// Writes all lines. `before` is the number of bytes already written. The returned byte count includes
    /// these bytes, as does the count in a `WriteFault`.
    pub fn print_after<W: Sink>(
        &self,
        writer: &mut W,
        before: u64,
        print: &Print,
    ) -> Result<u64, WriteFault>
        requires { before ≤ (W.state writer.old).passed }
        ensures ok { IfOk result (λ n. PassedOn (page_at self.now print.now) before
            (W.state writer.old) (W.state writer.new) n) }
        ensures err { IfErr result (λ fault. StoppedIn (page_at self.now print.now) before
            (W.state writer.old) (W.state writer.new) fault.written) }
        ensures counted { IfOk result (λ n. n ≤ (W.state writer.new).passed) }
    {
        self.prints_its_lines();
        match self.print_lines_after(writer, before, 0, self.line_count(), print) {
            Ok(written) => Ok(written),
            Err(RangeFault::Write(fault)) => Err(fault),
            Err(RangeFault::OutOfRange) => unreachable!(),
        }
    }

    /// Writes `count` lines, starting at line `first`, as `print` writes them. If the range reaches past the
    /// last line, writes nothing and fails with `OutOfRange`. Allocates nothing.
    pub fn print_lines<W: Sink>(
        &self,
        writer: &mut W,
        first: usize,
        count: usize,
        print: &Print,
    ) -> Result<(), RangeFault>
        ensures within { OnOk result (HasLines self.now first count) }
        ensures ok { OnOk result (Wrote (lines_page self.now first count print.now)
            (W.state writer.old) (W.state writer.new)) }
        ensures err { IfErr result (PrintsNot self.now first count
            (W.state writer.new ≡ W.state writer.old)
            (λ written. StoppedAt written (lines_page self.now first count print.now)
            (W.state writer.old) (W.state writer.new))) }
    {
        self.print_lines_after(writer, 0, first, count, print)?;
        Ok(())
    }

    /// Writes `count` lines, starting at line `first`. `before` is the number of bytes already written. The
    /// returned byte count includes these bytes, as does the count in a `WriteFault`.
    pub fn print_lines_after<W: Sink>(
        &self,
        writer: &mut W,
        before: u64,
        first: usize,
        count: usize,
        print: &Print,
    ) -> Result<u64, RangeFault>
        requires { before ≤ (W.state writer.old).passed }
        ensures within { OnOk result (HasLines self.now first count) }
        ensures ok { IfOk result (λ n. PassedOn (lines_page self.now first count print.now) before
            (W.state writer.old) (W.state writer.new) n) }
        ensures err { IfErr result (PrintsNot self.now first count
            (W.state writer.new ≡ W.state writer.old)
            (λ written. StoppedIn (lines_page self.now first count print.now) before
            (W.state writer.old) (W.state writer.new) written)) }
        ensures counted { IfOk result (λ n. n ≤ (W.state writer.new).passed) }
    {
        let lines = self.store.total_lines();
        if first > lines || count > lines - first {
            return Err(RangeFault::OutOfRange);
        }
        match write_lines(
            &self.store,
            first,
            count,
            writer,
            before,
            self.form.width,
            print,
        ) {
            Ok(written) => Ok(written),
            Err(fault) => Err(RangeFault::Write(fault)),
        }
    }

    /// States, as a theorem, that `print` writes the lines that `line` returns, one after another, as
    /// `VisualLine::write` writes them. Costs nothing at run time.
    pub fn prints_its_lines(&self)
        ensures { (print : Print) → page_at self.now print
            ≡ flat_map (line_bytes self.now.width print) (lines_in self.now.kept) }
    {
        // Uses the same theorem for each paragraph, and the fact that each paragraph is laid out.
        paragraphs_print_their_lines();
        let _ = &self.engine;
    }

    /// Executes edits in order. A refused edit changes nothing. Stops at the first edit that fails because
    /// memory runs out. The work counters increase by at most the sum of the edits' bounds, including the
    /// bound of the edit that failed.
    pub fn run(&mut self, edits: &[Edit<'_>]) -> Result<(), AllocError>
        ensures ok { OnOk result (held_at self.new
            ≡ after_all (cuts_at self.old) (held_at self.old) edits.now) }
        ensures err { OnErr result (StopsAt (rules_of self.old.engine) (held_at self.old) edits.now
            (held_at self.new) self.old.engine self.new.engine) }
        ensures counts { WorksAtMost (rules_of self.old.engine) (held_at self.old) edits.now
            self.old.engine self.new.engine }
        ensures laid_out { IsWholeLayout self.new }
        ensures rules { SameRules self.old.engine self.new.engine }
    {
        // Tells the prover that each paragraph is laid out before the first edit.
        let _ = &self.engine;
        for edit in edits {
            let result = match *edit {
                Edit::Insert(pos, text) => self.insert(pos, text),
                Edit::Delete(pos, count) => self.delete(pos, count),
                Edit::SetWidth(width) => self.set_width(width),
            };
            if result == Err(EditFault::NoMemory) {
                return Err(AllocError);
            }
        }
        Ok(())
    }
}
