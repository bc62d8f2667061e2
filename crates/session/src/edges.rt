//! The two edges of a position, and steps from edge to edge on a line.
ghost use Rattle.std.specs.Prelude.{◌≡◌, ◌^◌, ◌+◌, ◌-◌, ◌<◌, ◌≤◌, length, true, None, IfOk, IfSome, OnErr};
ghost use Rattle.lines.specs.Columns.{columns_left};
ghost use Rattle.lines.specs.Engine.{rules_of};
ghost use Rattle.session.specs.Edges.{after, before, caret_beside, caret_of, column_on, edge_at};
ghost use Rattle.session.specs.Edges.{edge_caret_at};
ghost use Rattle.session.specs.Edges.{edge_by, edge_on, end_of, is_next, last_edge, left_edge, line_at};
ghost use Rattle.session.specs.Edges.{line_edges, nearer_edge, nearest_edge, nearest_on};
ghost use Rattle.session.specs.Edges.{is_edge_in, right_edge, step_at, unit_at, HasCharacter};
ghost use Rattle.session.specs.Kept.{lines_in};
ghost use Rattle.session.specs.Places.{place_in};
ghost use Rattle.session.specs.Sessions.{text_at};

use crate::carets::{Caret, end_caret, is_odd};
use crate::clusters::Cluster;
use crate::hits::logical;
use crate::kept::Kept;
use crate::session::Session;
use crate::units::{CaretUnit, column_after, column_before, unit_of};
use lines::VisualLine;
use std::alloc::AllocError;
use store::ParagraphStore;

/// A side of a position, in logical order.
#[derive(Clone, Copy, Debug, PartialEq, Eq)]
pub enum Side {
    /// The leading edge of the character at the position.
    Before,
    /// The trailing edge of the character before the position.
    After,
}

/// One of the two edges of a position. The two edges are drawn at different places where the direction
/// changes or a line wraps. For an edit, only `pos` matters.
#[derive(Clone, Copy, Debug, PartialEq, Eq)]
pub struct Edge {
    pub pos: usize,
    pub side: Side,
}

/// A direction on the screen.
#[derive(Clone, Copy, Debug, PartialEq, Eq)]
pub enum Direction {
    Left,
    Right,
}

/// The edges of a line to which Home and End move the caret, in logical order.
#[derive(Clone, Copy, Debug, PartialEq, Eq)]
pub struct LineEdges {
    pub first: Edge,
    pub last: Edge,
}

fn before(pos: usize) -> Edge
    ensures { result ≡ before pos }
{
    Edge {
        pos,
        side: Side::Before,
    }
}

fn after(pos: usize) -> Edge
    ensures { result ≡ after pos }
{
    Edge {
        pos,
        side: Side::After,
    }
}

// Returns the edge at the left end of a unit, on a line that starts at the position `start`.
fn left_edge(start: usize, unit: CaretUnit) -> Edge
    requires start { start + unit.start < 2 ^ 64 }
    requires end { start + unit.end < 2 ^ 64 }
    ensures { result ≡ left_edge start unit }
{
    if is_odd(unit.level) {
        after(start + unit.end)
    } else {
        before(start + unit.start)
    }
}

// Returns the edge at the right end of a unit, on a line that starts at the position `start`.
fn right_edge(start: usize, unit: CaretUnit) -> Edge
    requires start { start + unit.start < 2 ^ 64 }
    requires end { start + unit.end < 2 ^ 64 }
    ensures { result ≡ right_edge start unit }
{
    if is_odd(unit.level) {
        before(start + unit.start)
    } else {
        after(start + unit.end)
    }
}

// Returns the edge at one end of a unit: the end nearer to a column of the unit, or the right end at the
// unit's middle. The line starts at the position `start`.
fn nearer_edge(start: usize, unit: CaretUnit, column: usize) -> Edge
    requires start { start + unit.start < 2 ^ 64 }
    requires end { start + unit.end < 2 ^ 64 }
    ensures { result ≡ nearer_edge start column unit }
{
    let (left, right) = if is_odd(unit.level) {
        (unit.trailing, unit.leading)
    } else {
        (unit.leading, unit.trailing)
    };
    if column.saturating_sub(left) < right.saturating_sub(column) {
        left_edge(start, unit)
    } else {
        right_edge(start, unit)
    }
}

// Returns the column of the edge before or after character `k`, depending on `side`. The line starts at the
// position `start`.
fn column_on(side: Side, line: &VisualLine<'_>, start: usize, cluster: Cluster, k: usize) -> usize
    requires { k + 1 < 2 ^ 63 }
    ensures { result ≡ column_on side line.now start cluster k }
{
    match side {
        Side::Before => column_before(line, start, cluster, k),
        Side::After => column_after(line, start, cluster, k),
    }
}

// Returns the caret before or after character `k` of line `n`, depending on `side`, or the caret at the
// line's end if the character is not shown. The line starts at the position `start`.
fn caret_beside(
    side: Side,
    n: usize,
    line: &VisualLine<'_>,
    start: usize,
    k: usize,
    cluster: Cluster,
) -> Caret
    ensures { result ≡ caret_beside side n line.now start k cluster }
{
    match line.levels().get(k) {
        Some(level) => Caret {
            line: n,
            column: column_on(side, line, start, cluster, k),
            level: *level,
        },
        None => end_caret(line, n),
    }
}

impl<S: ParagraphStore<Kept>> Session<S> {
    // Returns line `n` and the position at which it starts, or `None` past the last line.
    fn line_at(&self, n: usize) -> Option<(VisualLine<'_>, usize)>
        ensures found { result ≡ line_at self.now.kept n }
        ensures within { IfSome result (λ found. n < length (lines_in self.now.kept)) }
        ensures fits { IfSome result (λ found. found.1 < 2 ^ 33) }
    {
        Some((self.line(n)?, self.line_start(n)?))
    }

    // Returns the unit that covers a column of a line, or `None` if none does. The line starts at `start`.
    fn unit_at(
        &self,
        line: &VisualLine<'_>,
        start: usize,
        column: usize,
    ) -> Result<Option<CaretUnit>, AllocError>
        requires { start < 2 ^ 33 }
        ensures ok { IfOk result (λ unit. unit ≡ unit_at self.now.kept line.now start column) }
        ensures start { IfOk result (λ unit. IfSome unit (λ unit. unit.start < 2 ^ 32)) }
        ensures end { IfOk result (λ unit. IfSome unit (λ unit. unit.end < 2 ^ 63)) }
        ensures memory { OnErr result (0 < length (text_at self.now)) }
    {
        let Some(place) = line.covering(column) else {
            return Ok(None);
        };
        let k = logical(line, place);
        match self.cluster(start + k)? {
            Some(cluster) => Ok(Some(unit_of(line, start, cluster, k))),
            None => Ok(None),
        }
    }

    // Returns the caret before or after the character at a position, depending on `side`, or `None` past the
    // last character.
    fn caret_of(&self, side: Side, pos: usize) -> Result<Option<Caret>, AllocError>
        requires { pos < length (text_at self.now) }
        ensures { IfOk result (λ caret. caret
            ≡ caret_of self.now.kept side pos (place_in self.now.kept pos)) }
    {
        let Some(place) = self.place(pos) else {
            return Ok(None);
        };
        let Some(line) = self.line(place.line) else {
            return Ok(None);
        };
        match self.cluster(pos)? {
            Some(cluster) => Ok(Some(caret_beside(
                side,
                place.line,
                &line,
                pos - place.offset,
                place.offset,
                cluster,
            ))),
            None => Ok(None),
        }
    }

    /// Returns where to draw a caret at an edge, or `None` past the end of the text and for the `After` edge
    /// of position 0.
    ///
    /// A `Before` edge belongs to the character at the position, and an `After` edge to the character before
    /// that position. The caret is on the character's line. Its level is the character's or, if the character
    /// is not shown, the base level. It is drawn:
    /// - If a caret unit (see `step`) begins with the character (`Before`) or ends with it (`After`): at that
    ///   end of the unit.
    /// - Otherwise, if the character is shown: at its leading edge (`Before`) or its trailing edge (`After`).
    /// - If the character is not shown: at the end of the line in the base direction.
    ///
    /// At the end of the text, the caret of the `Before` edge is the one that `caret` returns.
    ///
    /// Fails only if memory runs out, and only for an edge that belongs to a character. Needs time linear in
    /// the lengths of the line and of the character's cluster (see `cluster`).
    pub fn edge_caret(&self, edge: Edge) -> Result<Option<Caret>, AllocError>
        ensures ok { IfOk result (λ caret. caret
            ≡ edge_caret_at (rules_of self.now.engine) self.now.kept edge) }
        ensures some { IfOk result (λ caret. IfSome caret (λ _.
            is_edge_in (length (text_at self.now)) edge ≡ true)) }
        ensures memory { OnErr result (HasCharacter (length (text_at self.now)) edge) }
    {
        match edge.side {
            Side::Before => {
                if edge.pos >= self.char_count() {
                    return Ok(self.caret(edge.pos));
                }
                self.caret_of(Side::Before, edge.pos)
            }
            Side::After => {
                if edge.pos == 0 || edge.pos > self.char_count() {
                    return Ok(None);
                }
                self.caret_of(Side::After, edge.pos - 1)
            }
        }
    }

    /// Returns the edge that a caret reaches by one step to the left or right on its line. Returns `None` if
    /// the caret is at the end of the line in that direction, or if `edge_caret` returns `None`.
    ///
    /// A step moves over one caret unit: a grapheme cluster or, if the cluster's characters are in several
    /// level runs, the part in one of these runs. The returned edge is the unit's far edge.
    ///
    /// Fails only if memory runs out, and never in an empty text. Costs as much as `edge_caret`.
    pub fn step(&self, edge: Edge, direction: Direction) -> Result<Option<Edge>, AllocError>
        ensures ok { IfOk result (λ next. next
            ≡ step_at (rules_of self.now.engine) self.now.kept edge direction) }
        ensures memory { OnErr result ((is_edge_in (length (text_at self.now)) edge ≡ true)
            × (0 < length (text_at self.now))) }
    {
        let Some(caret) = self.edge_caret(edge)? else {
            return Ok(None);
        };
        let Some((line, start)) = self.line_at(caret.line) else {
            return Ok(None);
        };
        match direction {
            Direction::Right => match self.unit_at(&line, start, caret.column)? {
                Some(unit) => Ok(Some(right_edge(start, unit))),
                None => Ok(None),
            },
            Direction::Left => {
                if caret.column == 0 {
                    return Ok(None);
                }
                match self.unit_at(&line, start, caret.column - 1)? {
                    Some(unit) => Ok(Some(left_edge(start, unit))),
                    None => Ok(None),
                }
            }
        }
    }

    // Returns the edge at a column of a line that starts at the position `start`.
    fn edge_on(
        &self,
        line: &VisualLine<'_>,
        start: usize,
        column: usize,
    ) -> Result<Edge, AllocError>
        requires { start < 2 ^ 33 }
        ensures { IfOk result (λ edge. edge ≡ edge_on self.now.kept line.now start column) }
    {
        match self.unit_at(line, start, column)? {
            Some(unit) => Ok(left_edge(start, unit)),
            None => self.rightmost_edge(line, start),
        }
    }

    // Returns the edge nearest to a column of a line that starts at the position `start`.
    fn nearest_on(
        &self,
        line: &VisualLine<'_>,
        start: usize,
        column: usize,
    ) -> Result<Edge, AllocError>
        requires { start < 2 ^ 33 }
        ensures { IfOk result (λ edge. edge ≡ nearest_on self.now.kept line.now start column) }
    {
        match self.unit_at(line, start, column)? {
            Some(unit) => Ok(nearer_edge(start, unit, column)),
            None => self.rightmost_edge(line, start),
        }
    }

    // Returns the edge at the right end of a line's shown part or, in a line of width 0, the edge before the
    // first character.
    fn rightmost_edge(&self, line: &VisualLine<'_>, start: usize) -> Result<Edge, AllocError>
        requires { start < 2 ^ 33 }
        ensures { IfOk result (λ edge. edge ≡ edge_by self.now.kept start None
            (unit_at self.now.kept line.now start (columns_left line.now (length line.now.vtol) - 1))) }
    {
        let columns = line.columns_left(line.vtol().len());
        match self.unit_at(line, start, columns.saturating_sub(1))? {
            Some(unit) => Ok(right_edge(start, unit)),
            None => Ok(before(start)),
        }
    }

    // Returns whether line `n` would be the first line of a new paragraph at the end of the text.
    fn is_next(&self, n: usize) -> bool
        ensures { result ≡ is_next (rules_of self.now.engine) self.now.kept n }
    {
        n == self.line_count() && self.is_closed()
    }

    // Returns the position at which line `n` ends.
    fn end_of_line(&self, n: usize) -> usize
        requires { n < length (lines_in self.now.kept) }
        ensures { result ≡ end_of self.now.kept n }
    {
        // The contract of `line_count` bounds the number of lines.
        let _lines = self.line_count();
        match self.line_start(n + 1) {
            Some(next) => next,
            None => self.char_count(),
        }
    }

    // Returns the last edge, in logical order, of a line from position `start` up to `end`, of which `shown`
    // characters are shown.
    fn last_edge(&self, start: usize, end: usize, shown: usize) -> Edge
        requires { start + shown < 2 ^ 64 }
        ensures { result ≡ last_edge (rules_of self.now.engine) (text_at self.now) start end shown }
    {
        let separators = self.separator_len(
            end.saturating_sub(2).max(start),
            end.saturating_sub(1),
        );
        if separators > 0 {
            return before(end.saturating_sub(separators));
        }
        if end == self.char_count() {
            return before(end);
        }
        if shown < end.saturating_sub(start) {
            return before(start + shown);
        }
        after(end)
    }

    /// Returns the edge at a column of line `n`: the left end of the caret unit that covers the column. For a
    /// column to the right of the text, this is the text's right end. So the columns 0 and `usize::MAX` give
    /// the two ends of the line on the screen. Returns `None` past the line that contains the end of the
    /// text.
    ///
    /// Fails only if memory runs out, and only on a line that exists. Costs as much as `edge_caret`.
    pub fn edge_at(&self, n: usize, column: usize) -> Result<Option<Edge>, AllocError>
        ensures ok { IfOk result (λ edge. edge
            ≡ edge_at (rules_of self.now.engine) self.now.kept n column) }
        ensures memory { OnErr result (n < length (lines_in self.now.kept)) }
    {
        if self.is_next(n) {
            return Ok(Some(before(self.char_count())));
        }
        match self.line_at(n) {
            Some((line, start)) => Ok(Some(self.edge_on(&line, start, column)?)),
            None => Ok(None),
        }
    }

    /// Returns the edge nearest to a column of line `n`: the nearer end of the caret unit that covers the
    /// column. At the unit's middle, this is the right end. For a unit of one column, and for a column
    /// outside the text, this is the edge that `edge_at` returns.
    ///
    /// Fails only if memory runs out, and only on a line that exists. Costs as much as `edge_caret`.
    pub fn nearest_edge(&self, n: usize, column: usize) -> Result<Option<Edge>, AllocError>
        ensures ok { IfOk result (λ edge. edge
            ≡ nearest_edge (rules_of self.now.engine) self.now.kept n column) }
        ensures memory { OnErr result (n < length (lines_in self.now.kept)) }
    {
        if self.is_next(n) {
            return Ok(Some(before(self.char_count())));
        }
        match self.line_at(n) {
            Some((line, start)) => Ok(Some(self.nearest_on(&line, start, column)?)),
            None => Ok(None),
        }
    }

    /// Returns the first and the last edge of line `n` in logical order, for Home and End. Returns `None`
    /// past the line that contains the end of the text.
    ///
    /// The first edge is before the line's first character. The last edge is before the separator that ends
    /// the line (CR LF is one separator). If there is none, the last edge of the text's last line is before
    /// the end of the text. On other lines, it is before the first space that is not shown, or else after the
    /// line's last character.
    ///
    /// Costs as much as `place`. Allocates nothing.
    pub fn line_edges(&self, n: usize) -> Option<LineEdges>
        ensures { result ≡ line_edges (rules_of self.now.engine) self.now.kept n }
    {
        if self.is_next(n) {
            let next = before(self.char_count());
            return Some(LineEdges {
                first: next,
                last: next,
            });
        }
        let (line, start) = self.line_at(n)?;
        Some(LineEdges {
            first: before(start),
            last: self.last_edge(start, self.end_of_line(n), line.levels().len()),
        })
    }
}
