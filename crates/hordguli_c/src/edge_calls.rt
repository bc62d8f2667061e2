//! Functions for carets and for the edges of positions: places, hits, clusters, words, selections and steps.
ghost use Rattle.std.specs.Prelude.{◌≡◌, ◌≤◌, length, option_map};
ghost use Rattle.lines.specs.Engine.{rules_of};
ghost use Rattle.session.specs.Carets.{caret_at};
ghost use Rattle.session.specs.Edges.{is_edge_in};
ghost use Rattle.session.specs.Hits.{hit_at};
ghost use Rattle.session.specs.Places.{place_at};
ghost use Rattle.hordguli_c.specs.Arrays.{put, PutsItems};
ghost use Rattle.hordguli_c.specs.Calls.{Asks, AsksBy, Gives};
ghost use Rattle.hordguli_c.specs.Edges.{caret_out, hit_out, place_out, GivesCluster, GivesWord};
ghost use Rattle.hordguli_c.specs.Edges.{edge_of, edge_out, side_of, step_direction, step_of};
ghost use Rattle.hordguli_c.specs.Edges.{spans_out, GivesSpans};
ghost use Rattle.hordguli_c.specs.Edges.{GivesEdge, GivesEdgeCaret, GivesLineClusters, GivesLineEdges};
ghost use Rattle.hordguli_c.specs.Edges.{GivesNearestEdge, GivesStep};
ghost use Rattle.hordguli_c.specs.Statuses.{Returns};

use crate::arrays::put_ends;
use crate::calls::with_object;
use crate::flags::flag;
use crate::session_handle::{SessionHandle, SessionObject};
use crate::status::{Status, number_of};
use lines::VisualLine;
use session::{Caret, Direction, Edge, Side};
use std::alloc::Global;

/// The place of a character (`hordguli_place` in C).
#[repr(C)]
#[derive(Clone, Copy)]
pub struct PlaceOut {
    pub paragraph: usize,
    pub line: usize,
    pub offset: usize,
}

fn find_place(session: &SessionObject, pos: usize, place: &mut PlaceOut) -> Status
    ensures { Gives (option_map place_out (place_at (rules_of session.now.engine) session.now.kept pos))
        result place.old place.new }
{
    match session.place(pos) {
        Some(found) => {
            *place = PlaceOut {
                paragraph: found.paragraph,
                line: found.line,
                offset: found.offset,
            };
            Status::Ok
        }
        None => Status::OutOfRange,
    }
}

/// Stores the place of the character at a position.
#[unsafe(no_mangle)]
pub extern "C" fn hordguli_core_place_of(
    alloc: Global,
    session: &mut SessionHandle,
    pos: usize,
    place: &mut PlaceOut,
) -> u32
    ensures unchanged { session.new.held ≡ session.old.held }
    ensures place { Returns (λ status. Asks (λ status state.
        Gives (option_map place_out (place_at (rules_of state.engine) state.kept pos)) status) status
        session.old.held place.old place.new) result }
{
    with_object!(session, alloc, object, find_place(&object, pos, place))
}

/// Where to draw a caret (`hordguli_caret` in C).
#[repr(C)]
#[derive(Clone, Copy)]
pub struct CaretOut {
    pub line: usize,
    pub column: usize,
    pub level: u32,
    pub zero: u32,
}

fn find_caret(session: &SessionObject, pos: usize, caret: &mut CaretOut) -> Status
    ensures { Gives (option_map caret_out (caret_at (rules_of session.now.engine) session.now.kept pos))
        result caret.old caret.new }
{
    match session.caret(pos) {
        Some(found) => {
            *caret = CaretOut {
                line: found.line,
                column: found.column,
                level: u32::from(found.level),
                zero: 0,
            };
            Status::Ok
        }
        None => Status::OutOfRange,
    }
}

/// Stores where to draw the caret before the character at a position.
#[unsafe(no_mangle)]
pub extern "C" fn hordguli_core_caret_at(
    alloc: Global,
    session: &mut SessionHandle,
    pos: usize,
    caret: &mut CaretOut,
) -> u32
    ensures unchanged { session.new.held ≡ session.old.held }
    ensures caret { Returns (λ status. Asks (λ status state.
        Gives (option_map caret_out (caret_at (rules_of state.engine) state.kept pos)) status) status
        session.old.held caret.old caret.new) result }
{
    with_object!(session, alloc, object, find_caret(&object, pos, caret))
}

/// The character at a column (`hordguli_hit` in C).
#[repr(C)]
#[derive(Clone, Copy)]
pub struct HitOut {
    pub pos: usize,
    pub trailing: u32,
    pub zero: u32,
}

fn find_hit(session: &SessionObject, line: usize, column: usize, hit: &mut HitOut) -> Status
    ensures { Gives (option_map hit_out (hit_at session.now.kept line column)) result hit.old hit.new }
{
    match session.hit(line, column) {
        Some(found) => {
            *hit = HitOut {
                pos: found.pos,
                trailing: flag(found.trailing),
                zero: 0,
            };
            Status::Ok
        }
        None => Status::OutOfRange,
    }
}

/// Stores the character that covers a column of a line.
#[unsafe(no_mangle)]
pub extern "C" fn hordguli_core_hit_at(
    alloc: Global,
    session: &mut SessionHandle,
    line: usize,
    column: usize,
    hit: &mut HitOut,
) -> u32
    ensures unchanged { session.new.held ≡ session.old.held }
    ensures hit { Returns (λ status.
        Asks (λ status state. Gives (option_map hit_out (hit_at state.kept line column)) status)
        status session.old.held hit.old hit.new) result }
{
    with_object!(session, alloc, object, find_hit(&object, line, column, hit))
}

/// A grapheme cluster (`hordguli_cluster` in C).
#[repr(C)]
#[derive(Clone, Copy)]
pub struct ClusterOut {
    pub start: usize,
    pub end: usize,
}

fn find_cluster(session: &SessionObject, pos: usize, cluster: &mut ClusterOut) -> Status
    ensures { GivesCluster pos result session.now cluster.old cluster.new }
{
    match session.cluster(pos) {
        Ok(Some(found)) => {
            *cluster = ClusterOut {
                start: found.start,
                end: found.end,
            };
            Status::Ok
        }
        Ok(None) => Status::OutOfRange,
        Err(_) => Status::NoMemory,
    }
}

/// Stores the grapheme cluster of the character at a position.
#[unsafe(no_mangle)]
pub extern "C" fn hordguli_core_cluster_at(
    alloc: Global,
    session: &mut SessionHandle,
    pos: usize,
    cluster: &mut ClusterOut,
) -> u32
    ensures unchanged { session.new.held ≡ session.old.held }
    ensures cluster { Returns (λ status.
        Asks (GivesCluster pos) status session.old.held cluster.old cluster.new) result }
{
    with_object!(session, alloc, object, find_cluster(&object, pos, cluster))
}

/// A word (`hordguli_word` in C). `kind` is 1 if the word has an alphabetic or numeric character, else 0.
#[repr(C)]
#[derive(Clone, Copy)]
pub struct WordOut {
    pub start: usize,
    pub end: usize,
    pub kind: u32,
    pub zero: u32,
}

fn find_word(session: &SessionObject, pos: usize, word: &mut WordOut) -> Status
    ensures { GivesWord pos result session.now word.old word.new }
{
    match session.word(pos) {
        Ok(Some(found)) => {
            *word = WordOut {
                start: found.start,
                end: found.end,
                kind: u32::from(found.has_letter),
                zero: 0,
            };
            Status::Ok
        }
        Ok(None) => Status::OutOfRange,
        Err(_) => Status::NoMemory,
    }
}

/// Stores the word that contains the character at a position.
#[unsafe(no_mangle)]
pub extern "C" fn hordguli_core_word_at(
    alloc: Global,
    session: &mut SessionHandle,
    pos: usize,
    word: &mut WordOut,
) -> u32
    ensures unchanged { session.new.held ≡ session.old.held }
    ensures word { Returns (λ status.
        Asks (GivesWord pos) status session.old.held word.old word.new) result }
{
    with_object!(session, alloc, object, find_word(&object, pos, word))
}

/// An interval of columns (`hordguli_span` in C).
#[repr(C)]
#[derive(Clone, Copy)]
pub struct SpanOut {
    pub left: usize,
    pub right: usize,
}

// Returns how many spans a range covers in a line. The range is counted from the start of the line.
fn span_count(line: &VisualLine<'_>, from: usize, to: usize) -> usize
    ensures { result ≡ length (spans_out line.now from to) }
{
    // There are at most as many spans as columns, whose number is bounded by the contract of `columns_left`.
    // So `count` does not overflow.
    let _columns = line.columns_left(line.vtol().len());
    let mut count = 0;
    for _span in line.spans(from, to) {
        count += 1;
    }
    count
}

// Writes the spans that a range covers in a line to the front of an array. The range is counted from the
// start of the line.
fn put_each_span(line: &VisualLine<'_>, from: usize, to: usize, array: &mut [SpanOut])
    requires { length (spans_out line.now from to) ≤ length array.old }
    ensures { array.new ≡ put (spans_out line.now from to) array.old }
{
    let mut k = 0;
    for span in line.spans(from, to) {
        array[k] = SpanOut {
            left: span.left,
            right: span.right,
        };
        k += 1;
    }
}

fn put_spans(
    line: &VisualLine<'_>,
    from: usize,
    to: usize,
    array: &mut [SpanOut],
    count: &mut usize,
) -> Status
    ensures { PutsItems (spans_out line.now from to) result (array.old, count.old) (array.new, count.new) }
{
    *count = span_count(line, from, to);
    if array.len() < *count {
        return Status::NoRoom;
    }
    put_each_span(line, from, to, array);
    Status::Ok
}

fn find_spans(
    session: &SessionObject,
    n: usize,
    from: usize,
    to: usize,
    array: &mut [SpanOut],
    count: &mut usize,
) -> Status
    ensures { GivesSpans n from to result session.now (array.old, count.old) (array.new, count.new) }
{
    let Some(start) = session.line_start(n) else {
        return Status::OutOfRange;
    };
    let Some(line) = session.line(n) else {
        return Status::OutOfRange;
    };
    put_spans(
        &line,
        from.saturating_sub(start),
        to.saturating_sub(start),
        array,
        count,
    )
}

/// Stores how many spans of columns a range of characters covers in a line and, if they fit, the spans.
#[unsafe(no_mangle)]
pub extern "C" fn hordguli_core_spans(
    alloc: Global,
    session: &mut SessionHandle,
    n: usize,
    from: usize,
    to: usize,
    array: &mut [SpanOut],
    count: &mut usize,
) -> u32
    ensures unchanged { session.new.held ≡ session.old.held }
    ensures spans { Returns (λ status. Asks (GivesSpans n from to) status session.old.held
        (array.old, count.old) (array.new, count.new)) result }
{
    with_object!(
        session,
        alloc,
        object,
        find_spans(&object, n, from, to, array, count)
    )
}

// The numbers of sides and directions, as in include/hordguli.h.
const BEFORE: u32 = 0;

const AFTER: u32 = 1;

const LEFT: u32 = 0;

const RIGHT: u32 = 1;

/// An edge of a position (`hordguli_edge` in C).
#[repr(C)]
#[derive(Clone, Copy)]
pub struct EdgeOut {
    pub pos: usize,
    pub side: u32,
    pub zero: u32,
}

// Returns the side with this number, or `None` if the number is unknown.
fn side_of(side: u32) -> Option<Side>
    ensures { result ≡ side_of side }
{
    if side == BEFORE {
        Some(Side::Before)
    } else if side == AFTER {
        Some(Side::After)
    } else {
        None
    }
}

// Returns the direction with this number, or `None` if the number is unknown.
fn step_direction(direction: u32) -> Option<Direction>
    ensures { result ≡ step_direction direction }
{
    if direction == LEFT {
        Some(Direction::Left)
    } else if direction == RIGHT {
        Some(Direction::Right)
    } else {
        None
    }
}

// Returns the edge of a position on the side with this number, or `None` if the number is unknown.
fn edge_of(pos: usize, side: u32) -> Option<Edge>
    ensures { result ≡ edge_of pos side }
{
    let side = side_of(side)?;
    Some(Edge { pos, side })
}

// Returns an edge and a direction, given the numbers of a side and of a direction, or `None` if either number
// is unknown.
fn step_of(pos: usize, side: u32, direction: u32) -> Option<(Edge, Direction)>
    ensures { result ≡ step_of pos side direction }
{
    let edge = edge_of(pos, side)?;
    let towards = step_direction(direction)?;
    Some((edge, towards))
}

fn edge_out(edge: Edge) -> EdgeOut
    ensures { result ≡ edge_out edge }
{
    EdgeOut {
        pos: edge.pos,
        side: match edge.side {
            Side::Before => BEFORE,
            Side::After => AFTER,
        },
        zero: 0,
    }
}

fn caret_out(caret: Caret) -> CaretOut
    ensures { result ≡ caret_out caret }
{
    CaretOut {
        line: caret.line,
        column: caret.column,
        level: u32::from(caret.level),
        zero: 0,
    }
}

#[tactic(auto, unfolding(crate::specs::Edges::IsOfCharacter))]
fn find_edge_caret(session: &SessionObject, edge: Edge, caret: &mut CaretOut) -> Status
    ensures { GivesEdgeCaret edge result session.now caret.old caret.new }
{
    match session.edge_caret(edge) {
        Ok(Some(found)) => {
            *caret = caret_out(found);
            Status::Ok
        }
        Ok(None) => Status::OutOfRange,
        Err(_) => Status::NoMemory,
    }
}

/// Stores where to draw the caret at an edge.
#[unsafe(no_mangle)]
pub extern "C" fn hordguli_core_edge_caret(
    alloc: Global,
    session: &mut SessionHandle,
    pos: usize,
    side: u32,
    caret: &mut CaretOut,
) -> u32
    ensures unchanged { session.new.held ≡ session.old.held }
    ensures caret { Returns (λ status. AsksBy GivesEdgeCaret (edge_of pos side) status
        session.old.held caret.old caret.new) result }
{
    let Some(edge) = edge_of(pos, side) else {
        return number_of(Status::UnknownOption);
    };
    with_object!(
        session,
        alloc,
        object,
        find_edge_caret(&object, edge, caret)
    )
}

// Returns whether `edge` exists in a text of `chars` characters.
fn is_edge_in(chars: usize, edge: Edge) -> bool
    ensures { result ≡ is_edge_in chars edge }
{
    edge.pos <= chars
        && match edge.side {
            Side::Before => true,
            Side::After => edge.pos != 0,
        }
}

fn find_step(
    session: &SessionObject,
    asked: (Edge, Direction),
    next: &mut EdgeOut,
    moved: &mut u32,
) -> Status
    ensures { GivesStep asked result session.now (next.old, moved.old) (next.new, moved.new) }
{
    let (edge, direction) = asked;
    if !is_edge_in(session.char_count(), edge) {
        return Status::OutOfRange;
    }
    match session.step(edge, direction) {
        Ok(Some(found)) => {
            *next = edge_out(found);
            *moved = 1;
            Status::Ok
        }
        Ok(None) => {
            *moved = 0;
            Status::Ok
        }
        Err(_) => Status::NoMemory,
    }
}

/// Moves one step to the left or right from an edge, on the edge's line. Stores the edge that is reached, and
/// 1 as the number of steps. If no step is possible, stores only the number 0.
#[unsafe(no_mangle)]
pub extern "C" fn hordguli_core_step(
    alloc: Global,
    session: &mut SessionHandle,
    pos: usize,
    side: u32,
    direction: u32,
    next: &mut EdgeOut,
    moved: &mut u32,
) -> u32
    ensures unchanged { session.new.held ≡ session.old.held }
    ensures step { Returns (λ status. AsksBy GivesStep (step_of pos side direction) status
        session.old.held (next.old, moved.old) (next.new, moved.new)) result }
{
    let Some(asked) = step_of(pos, side, direction) else {
        return number_of(Status::UnknownOption);
    };
    with_object!(
        session,
        alloc,
        object,
        find_step(&object, asked, next, moved)
    )
}

fn find_edge(session: &SessionObject, n: usize, column: usize, edge: &mut EdgeOut) -> Status
    ensures { GivesEdge n column result session.now edge.old edge.new }
{
    match session.edge_at(n, column) {
        Ok(Some(found)) => {
            *edge = edge_out(found);
            Status::Ok
        }
        Ok(None) => Status::OutOfRange,
        Err(_) => Status::NoMemory,
    }
}

/// Stores the edge at a column of a line.
#[unsafe(no_mangle)]
pub extern "C" fn hordguli_core_edge_at(
    alloc: Global,
    session: &mut SessionHandle,
    n: usize,
    column: usize,
    edge: &mut EdgeOut,
) -> u32
    ensures unchanged { session.new.held ≡ session.old.held }
    ensures edge { Returns (λ status. Asks (GivesEdge n column) status
        session.old.held edge.old edge.new) result }
{
    with_object!(session, alloc, object, find_edge(&object, n, column, edge))
}

fn find_nearest_edge(session: &SessionObject, n: usize, column: usize, edge: &mut EdgeOut) -> Status
    ensures { GivesNearestEdge n column result session.now edge.old edge.new }
{
    match session.nearest_edge(n, column) {
        Ok(Some(found)) => {
            *edge = edge_out(found);
            Status::Ok
        }
        Ok(None) => Status::OutOfRange,
        Err(_) => Status::NoMemory,
    }
}

/// Stores the edge nearest to a column of a line.
#[unsafe(no_mangle)]
pub extern "C" fn hordguli_core_nearest_edge(
    alloc: Global,
    session: &mut SessionHandle,
    n: usize,
    column: usize,
    edge: &mut EdgeOut,
) -> u32
    ensures unchanged { session.new.held ≡ session.old.held }
    ensures edge { Returns (λ status. Asks (GivesNearestEdge n column) status
        session.old.held edge.old edge.new) result }
{
    with_object!(
        session,
        alloc,
        object,
        find_nearest_edge(&object, n, column, edge)
    )
}

fn find_line_edges(
    session: &SessionObject,
    n: usize,
    first: &mut EdgeOut,
    last: &mut EdgeOut,
) -> Status
    ensures { GivesLineEdges n result session.now (first.old, last.old) (first.new, last.new) }
{
    match session.line_edges(n) {
        Some(edges) => {
            *first = edge_out(edges.first);
            *last = edge_out(edges.last);
            Status::Ok
        }
        None => Status::OutOfRange,
    }
}

/// Stores the first and the last edge of a line, in logical order.
#[unsafe(no_mangle)]
pub extern "C" fn hordguli_core_line_edges(
    alloc: Global,
    session: &mut SessionHandle,
    n: usize,
    first: &mut EdgeOut,
    last: &mut EdgeOut,
) -> u32
    ensures unchanged { session.new.held ≡ session.old.held }
    ensures edges { Returns (λ status. Asks (GivesLineEdges n) status
        session.old.held (first.old, last.old) (first.new, last.new)) result }
{
    with_object!(
        session,
        alloc,
        object,
        find_line_edges(&object, n, first, last)
    )
}

fn find_line_clusters(
    session: &SessionObject,
    n: usize,
    array: &mut [usize],
    count: &mut usize,
) -> Status
    ensures { GivesLineClusters n result session.now (array.old, count.old) (array.new, count.new) }
{
    match session.line_clusters(n) {
        Ok(Some(ends)) => put_ends(&ends, array, count),
        Ok(None) => Status::OutOfRange,
        Err(_) => Status::NoMemory,
    }
}

/// Stores the ends of a line's grapheme clusters.
#[unsafe(no_mangle)]
pub extern "C" fn hordguli_core_line_clusters(
    alloc: Global,
    session: &mut SessionHandle,
    n: usize,
    array: &mut [usize],
    count: &mut usize,
) -> u32
    ensures unchanged { session.new.held ≡ session.old.held }
    ensures clusters { Returns (λ status. Asks (GivesLineClusters n) status session.old.held
        (array.old, count.old) (array.new, count.new)) result }
{
    with_object!(
        session,
        alloc,
        object,
        find_line_clusters(&object, n, array, count)
    )
}
