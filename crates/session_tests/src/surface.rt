//! Tests the public calls of `lines` and `session`. Each call has one test, which makes the call by its full
//! path, names the types, and checks one example.
ghost use Rattle.std.specs.Prelude.{◌<◌, IfSome};
ghost use Rattle.lines.specs.Engine.{rules_of, SameRules};
ghost use Rattle.lines.specs.Layouts.{AreLinesOf, IsLaidOut};

mod directions;

use crate::files::{FILES, engine};
use std::alloc::{AllocError, Global};

// Returns whether a check holds for a new engine. Returns `false` if its tables cannot be read.
fn of_engine<F: FnOnce(&mut lines::Engine) -> bool>(alloc: Global, check: F) -> bool
    requires { F.IsAlwaysCallable check }
{
    let Ok(mut engine) = engine(alloc, &FILES, lines::Options::default()) else {
        return false;
    };
    let is_right = check(&mut engine);
    drop(engine);
    is_right
}

// Lays out a text. Returns `None` if the text is not one paragraph of an allowed length, and after an
// allocation failure.
fn lay_out(alloc: Global, engine: &mut lines::Engine, text: &str, width: u32) -> Option<lines::Laid>
    requires { 0 < width }
    ensures laid { IfSome result (IsLaidOut (rules_of engine.new)) }
    ensures rules { SameRules engine.old engine.new }
{
    let Ok(text) = text.chars().collect::<Vec<char>>(alloc) else {
        return None;
    };
    if text.is_empty() || text.len() > lines::PARAGRAPH_LIMIT || engine.first_cut(&text).is_some() {
        return None;
    }
    let laid: Result<lines::Laid, (Vec<char>, AllocError)> = engine.lay_out(alloc, text, width);
    match laid {
        Ok(laid) => Some(laid),
        Err(_) => None,
    }
}

// Returns whether a check holds for the layout of `a`, a space, alef and bet. Its only line shows `a`, a
// space, bet and alef.
fn of_laid<F: FnOnce(&lines::Laid) -> bool>(alloc: Global, check: F) -> bool
    requires { F.IsAlwaysCallable check }
{
    let Ok(mut engine) = engine(alloc, &FILES, lines::Options::default()) else {
        return false;
    };
    let laid = lay_out(alloc, &mut engine, "a אב", 80);
    drop(engine);
    match laid {
        Some(laid) => check(&laid),
        None => false,
    }
}

// Returns whether a check holds for the only line of the layout in `of_laid`.
fn of_line<F: FnOnce(&lines::VisualLine<'_>) -> bool>(alloc: Global, check: F) -> bool
    requires { F.IsAlwaysCallable check }
{
    of_laid(alloc, |laid| match laid.line(0) {
        Some(line) => check(&line),
        None => false,
    })
}

#[test]
fn default_options_are_weak_ltr_and_no_flag(rt: HostRuntime) {
    let options = lines::Options {
        base: bidi::Base::WeakLtr,
        nobreak: false,
        reordernsm: false,
        whole_numbers: false,
        reorder_clusters: false,
        show_spaces: false,
        tab_width: 0,
    };
    assert!(rt; lines::Options::default() == options);
}

fn starts_at_zero(alloc: Global) -> bool {
    let Ok(tables) = ucd::Tables::read(alloc, &FILES) else {
        return false;
    };
    let engine: lines::Engine = lines::Engine::new(tables, lines::Options::default());
    let counts: [u64; 2] = [engine.analysed(), engine.filled()];
    drop(engine);
    counts == [0, 0]
}

#[test]
fn new_engine_has_not_worked_yet(rt: HostRuntime) {
    assert!(rt; starts_at_zero(rt.alloc()));
}

#[test]
fn engine_cuts_after_a_newline(rt: HostRuntime) {
    assert!(rt;
        of_engine(rt.alloc(), |engine| {
            let is_cut: bool = engine.is_cut('\n', 'a');
            is_cut
        })
    );
}

#[test]
fn first_cut_of_an_engine_is_after_the_newline(rt: HostRuntime) {
    assert!(rt;
        of_engine(rt.alloc(), |engine| {
            let first_cut: Option<usize> = engine.first_cut(&['a', '\n', 'b']);
            first_cut == Some(2)
        })
    );
}

#[test]
fn lay_out_breaks_eight_letters_at_width_three(rt: HostRuntime) {
    let alloc = rt.alloc();
    assert!(rt;
        of_engine(alloc, |engine| {
            lay_out(alloc, engine, "abcdefgh", 3).is_some_and(|laid| laid.line_starts()
                == [0, 3, 6].as_slice())
        })
    );
}

#[test]
fn analysed_is_the_length_after_a_layout(rt: HostRuntime) {
    let alloc = rt.alloc();
    assert!(rt;
        of_engine(alloc, |engine| {
            let is_laid_out = lay_out(alloc, engine, "abcdefgh", 3).is_some();
            let analysed: u64 = engine.analysed();
            is_laid_out && analysed == 8
        })
    );
}

#[test]
fn filled_is_the_length_after_a_layout(rt: HostRuntime) {
    let alloc = rt.alloc();
    assert!(rt;
        of_engine(alloc, |engine| {
            let is_laid_out = lay_out(alloc, engine, "abcdefgh", 3).is_some();
            let filled: u64 = engine.filled();
            is_laid_out && filled == 8
        })
    );
}

// Finds the lines of a paragraph at a width, or returns `None` after an allocation failure.
fn refill(
    alloc: Global,
    engine: &mut lines::Engine,
    laid: &lines::Laid,
    width: u32,
) -> Option<lines::Fill>
    requires laid { IsLaidOut (rules_of engine.old) laid.now }
    requires width { 0 < width }
    ensures { IfSome result (AreLinesOf (rules_of engine.old) laid.now.text) }
{
    let fill: Result<lines::Fill, AllocError> = engine.refill(alloc, laid, width);
    match fill {
        Ok(fill) => Some(fill),
        Err(_) => None,
    }
}

#[test]
fn refill_counts_the_characters_as_filled_again(rt: HostRuntime) {
    let alloc = rt.alloc();
    assert!(rt;
        of_engine(alloc, |engine| {
            let Some(laid) = lay_out(alloc, engine, "abcdefgh", 3) else {
                return false;
            };
            let is_filled = refill(alloc, engine, &laid, 4).is_some();
            is_filled && engine.analysed() == 8 && engine.filled() == 16
        })
    );
}

#[test]
fn exchange_puts_in_the_lines_at_the_other_width(rt: HostRuntime) {
    let alloc = rt.alloc();
    assert!(rt;
        of_engine(alloc, |engine| {
            let Some(mut laid) = lay_out(alloc, engine, "abcdefgh", 3) else {
                return false;
            };
            let Some(mut fill) = refill(alloc, engine, &laid, 4) else {
                return false;
            };
            laid.exchange(&mut fill);
            laid.line_starts() == [0, 4].as_slice()
        })
    );
}

#[test]
fn text_of_a_layout_is_the_paragraph(rt: HostRuntime) {
    assert!(rt;
        of_laid(rt.alloc(), |laid| {
            let text: &[char] = laid.text();
            text == ['a', ' ', 'א', 'ב'].as_slice()
        })
    );
}

#[test]
fn base_of_a_layout_that_begins_with_a_letter_is_zero(rt: HostRuntime) {
    assert!(rt;
        of_laid(rt.alloc(), |laid| {
            let base: u8 = laid.base();
            base == 0
        })
    );
}

#[test]
fn levels_of_hebrew_in_a_layout_are_one(rt: HostRuntime) {
    assert!(rt;
        of_laid(rt.alloc(), |laid| {
            let levels: &[u8] = laid.levels();
            levels == [0, 0, 1, 1].as_slice()
        })
    );
}

// The marks of `a`, a space, alef and bet.
const MARKS: [breaks::Mark; 4] = [
    breaks::Mark::Never,
    breaks::Mark::May,
    breaks::Mark::Never,
    breaks::Mark::Must,
];

#[test]
fn marks_of_a_layout_allow_a_break_after_a_space(rt: HostRuntime) {
    assert!(rt;
        of_laid(rt.alloc(), |laid| {
            let marks: &[breaks::Mark] = laid.marks();
            marks == MARKS.as_slice()
        })
    );
}

#[test]
fn line_starts_of_one_line_are_zero(rt: HostRuntime) {
    assert!(rt;
        of_laid(rt.alloc(), |laid| {
            let starts: &[u32] = laid.line_starts();
            starts == [0].as_slice()
        })
    );
}

#[test]
fn line_count_of_a_layout_that_fits_is_one(rt: HostRuntime) {
    assert!(rt;
        of_laid(rt.alloc(), |laid| {
            let count: usize = laid.line_count();
            count == 1
        })
    );
}

#[test]
fn line_of_a_layout_is_none_past_the_last_one(rt: HostRuntime) {
    assert!(rt;
        of_laid(rt.alloc(), |laid| {
            let line: Option<lines::VisualLine<'_>> = laid.line(1);
            line.is_none()
        })
    );
}

#[test]
fn is_first_holds_of_the_first_line(rt: HostRuntime) {
    assert!(rt;
        of_line(rt.alloc(), |line| {
            let is_first: bool = line.is_first();
            is_first
        })
    );
}

#[test]
fn base_of_a_line_is_its_paragraphs(rt: HostRuntime) {
    assert!(rt;
        of_line(rt.alloc(), |line| {
            let base: u8 = line.base();
            base == 0
        })
    );
}

#[test]
fn chars_of_a_line_are_in_visual_order(rt: HostRuntime) {
    assert!(rt;
        of_line(rt.alloc(), |line| {
            let chars: &[char] = line.chars();
            chars == ['a', ' ', 'ב', 'א'].as_slice()
        })
    );
}

#[test]
fn levels_of_a_line_are_in_logical_order(rt: HostRuntime) {
    assert!(rt;
        of_line(rt.alloc(), |line| {
            let levels: &[u8] = line.levels();
            levels == [0, 0, 1, 1].as_slice()
        })
    );
}

#[test]
fn ltov_swaps_the_two_hebrew_letters(rt: HostRuntime) {
    assert!(rt;
        of_line(rt.alloc(), |line| {
            let ltov: &[u32] = line.ltov();
            ltov == [0, 1, 3, 2].as_slice()
        })
    );
}

#[test]
fn vtol_swaps_the_two_hebrew_letters(rt: HostRuntime) {
    assert!(rt;
        of_line(rt.alloc(), |line| {
            let vtol: &[u32] = line.vtol();
            vtol == [0, 1, 3, 2].as_slice()
        })
    );
}

#[test]
fn columns_of_four_characters_are_four(rt: HostRuntime) {
    assert!(rt;
        of_line(rt.alloc(), |line| {
            let columns: u32 = line.columns();
            columns == 4
        })
    );
}

const VISUAL: lines::Print = lines::Print {
    novisual: false,
    basedir: false,
    ltov: false,
    vtol: false,
    levels: false,
    nopad: false,
    nomirror: false,
};

#[test]
fn default_print_is_the_visual_line_alone(rt: HostRuntime) {
    assert!(rt; lines::Print::default() == VISUAL);
}

#[test]
fn print_of_levels_prints_them_alone_without_the_visual_line(rt: HostRuntime) {
    let print = lines::Print {
        novisual: true,
        levels: true,
        ..lines::Print::default()
    };
    assert!(rt; of_line(rt.alloc(), |line| writes(line, &print, b"0 0 1 1\n")));
}

// Returns whether a line is written as these bytes.
fn writes(line: &lines::VisualLine<'_>, print: &lines::Print, bytes: &[u8]) -> bool {
    let mut room: [u8; 16] = [0; 16];
    let mut sink = device::ToWrite::new(room.as_mut_slice());
    let written: Result<(), lines::WriteFault> = line.write(&mut sink, 80, print);
    drop(sink);
    written == Ok(()) && room.get(..bytes.len()) == Some(bytes)
}

#[test]
fn write_writes_the_line_in_visual_order_and_a_newline(rt: HostRuntime) {
    assert!(rt;
        of_line(
            rt.alloc(),
            |line| writes(line, &VISUAL, "a בא\n".as_bytes())
        )
    );
}

// Returns the error from writing a line to a sink of two bytes, or `None` if the line fits.
fn fault_after_two_bytes(line: &lines::VisualLine<'_>) -> Option<lines::WriteFault> {
    let mut room: [u8; 2] = [0; 2];
    let mut sink = device::ToWrite::new(room.as_mut_slice());
    line.write(&mut sink, 80, &VISUAL).err()
}

#[test]
fn write_fault_is_the_number_of_bytes_written(rt: HostRuntime) {
    let fault = lines::WriteFault { written: 2 };
    assert!(rt;
        of_line(
            rt.alloc(),
            |line| fault_after_two_bytes(line) == Some(fault)
        )
    );
}

// session

// The session methods that are tested.
#[derive(Clone, Copy)]
enum Call {
    Insert,
    Delete,
    SetWidth,
    LineCount,
    Line,
    CharCount,
    ParagraphCount,
    Paragraph,
    ParagraphStart,
    Width,
    Analysed,
    Filled,
    Print,
    Bytes,
    CodeUnits,
    OutOfRange,
    WidthOutOfRange,
}

// Returns whether the example of a call holds in a session on "ab\ncd\nef", of 80 columns. Returns `false`
// after an allocation failure. Only the functions below that open a session name a store, since each
// function that names a store is slow to prove.
fn holds(alloc: Global, call: Call) -> bool {
    match open(alloc, "ab\ncd\nef", 80) {
        Ok(session) => holds_in(session, call),
        Err((engine, _)) => {
            drop(engine);
            false
        }
    }
}

// Opens a session, or returns the engine and the error. There is no engine if its tables cannot be read.
fn open(
    alloc: Global,
    text: &str,
    width: u16,
) -> Result<
    session::Session<store::TreeStore<session::Kept>>,
    (Option<lines::Engine>, session::EditFault),
> {
    let Ok(engine) = engine(alloc, &FILES, lines::Options::default()) else {
        return Err((None, session::EditFault::NoMemory));
    };
    let opened: Result<
        session::Session<store::TreeStore<session::Kept>>,
        (lines::Engine, session::EditFault),
    > = session::Session::open(alloc, engine, text, width);
    match opened {
        Ok(session) => Ok(session),
        Err((engine, fault)) => Err((Some(engine), fault)),
    }
}

fn holds_in<S: store::ParagraphStore<session::Kept> + Drop>(
    session: session::Session<S>,
    call: Call,
) -> bool {
    let mut session = session;
    let is_right = match call {
        Call::Insert => inserts(&mut session),
        Call::Delete => deletes(&mut session),
        Call::SetWidth => sets_width(&mut session),
        Call::OutOfRange => refuses_range(&mut session),
        Call::WidthOutOfRange => refuses_width(&mut session),
        Call::Print => prints(&session),
        Call::Bytes => converts_bytes(&mut session),
        Call::CodeUnits => converts_code_units(&mut session),
        Call::ParagraphStart => starts_paragraph(&mut session),
        _ => reads(&session, call),
    };
    drop(session);
    is_right
}

fn reads<S: store::ParagraphStore<session::Kept>>(
    session: &session::Session<S>,
    call: Call,
) -> bool {
    match call {
        Call::LineCount => counts_lines(session),
        Call::Line => shows_line(session),
        Call::CharCount => counts_chars(session),
        Call::ParagraphCount => counts_paragraphs(session),
        Call::Paragraph => shows_paragraph(session),
        Call::Width => tells_width(session),
        Call::Analysed => counts_analysed(session),
        Call::Filled => counts_filled(session),
        _ => false,
    }
}

#[test]
fn open_keeps_the_text(rt: HostRuntime) {
    assert!(rt; opens(rt.alloc(), "ab"));
}

fn opens(alloc: Global, text: &str) -> bool {
    match open(alloc, text, 80) {
        Ok(session) => session.char_count() == text.len(),
        Err((engine, _)) => {
            drop(engine);
            false
        }
    }
}

// Returns the error from opening a session, or `None` if it opens.
fn fault_of(alloc: Global, text: &str, width: u16) -> Option<session::EditFault> {
    match open(alloc, text, width) {
        Ok(_) => None,
        Err((engine, fault)) => {
            drop(engine);
            Some(fault)
        }
    }
}

#[test]
fn open_that_is_refused_returns_the_engine(rt: HostRuntime) {
    let opened = open(rt.alloc(), "ab", 0);
    assert!(rt; opened.is_err_and(|(engine, _)| engine.is_some()));
}

const INSERTED: session::Damage = session::Damage {
    first_line: 1,
    old_lines: 1,
    new_lines: 2,
    first_par: 1,
    old_pars: 1,
    new_pars: 2,
};

fn inserts<S: store::ParagraphStore<session::Kept>>(session: &mut session::Session<S>) -> bool {
    let damage: Result<session::Damage, session::EditFault> = session.insert(4, "x\ny");
    damage == Ok(INSERTED)
}

#[test]
fn insert_of_a_newline_makes_two_paragraphs_of_one(rt: HostRuntime) {
    assert!(rt; holds(rt.alloc(), Call::Insert));
}

const DELETED: session::Damage = session::Damage {
    first_line: 0,
    old_lines: 3,
    new_lines: 1,
    first_par: 0,
    old_pars: 3,
    new_pars: 1,
};

fn deletes<S: store::ParagraphStore<session::Kept>>(session: &mut session::Session<S>) -> bool {
    let damage: Result<session::Damage, session::EditFault> = session.delete(2, 4);
    damage == Ok(DELETED)
}

#[test]
fn delete_of_two_newlines_joins_three_paragraphs(rt: HostRuntime) {
    assert!(rt; holds(rt.alloc(), Call::Delete));
}

const NARROWED: session::Damage = session::Damage {
    first_line: 0,
    old_lines: 3,
    new_lines: 6,
    first_par: 0,
    old_pars: 3,
    new_pars: 3,
};

fn sets_width<S: store::ParagraphStore<session::Kept>>(session: &mut session::Session<S>) -> bool {
    let damage: Result<session::Damage, session::EditFault> = session.set_width(1);
    damage == Ok(NARROWED)
}

#[test]
fn set_width_of_one_puts_each_letter_on_a_line(rt: HostRuntime) {
    assert!(rt; holds(rt.alloc(), Call::SetWidth));
}

#[test]
fn damage_is_lines_and_paragraphs_before_and_after(rt: HostRuntime) {
    let damage: session::Damage = INSERTED;
    let lines: [usize; 3] = [damage.first_line, damage.old_lines, damage.new_lines];
    let paragraphs: [usize; 3] = [damage.first_par, damage.old_pars, damage.new_pars];
    assert!(rt; lines == [1, 1, 2] && paragraphs == [1, 1, 2]);
}

fn counts_lines<S: store::ParagraphStore<session::Kept>>(session: &session::Session<S>) -> bool {
    let count: usize = session.line_count();
    count == 3
}

#[test]
fn line_count_of_three_short_paragraphs_is_three(rt: HostRuntime) {
    assert!(rt; holds(rt.alloc(), Call::LineCount));
}

fn shows_line<S: store::ParagraphStore<session::Kept>>(session: &session::Session<S>) -> bool {
    let line: Option<lines::VisualLine<'_>> = session.line(1);
    line.is_some_and(|line| line.chars() == ['c', 'd'].as_slice())
}

#[test]
fn line_1_is_the_second_paragraph(rt: HostRuntime) {
    assert!(rt; holds(rt.alloc(), Call::Line));
}

// Inserts U+05D0 and U+1F600 before the first newline.
fn insert_wide<S: store::ParagraphStore<session::Kept>>(session: &mut session::Session<S>) -> bool {
    session.insert(2, "א😀").is_ok()
}

fn converts_bytes<S: store::ParagraphStore<session::Kept>>(
    session: &mut session::Session<S>,
) -> bool {
    let is_put: bool = insert_wide(session);
    let byte: Option<usize> = session.byte_of(4);
    let place: Option<(usize, usize)> = session.position_of_byte(5);
    let len: Option<usize> = session.utf8_len(2, 2);
    is_put & (byte == Some(8)) & (place == Some((3, 1))) & (len == Some(6))
}

#[test]
fn byte_of_4_is_8_and_byte_5_is_in_character_3(rt: HostRuntime) {
    assert!(rt; holds(rt.alloc(), Call::Bytes));
}

fn converts_code_units<S: store::ParagraphStore<session::Kept>>(
    session: &mut session::Session<S>,
) -> bool {
    let is_put: bool = insert_wide(session);
    let unit: Option<usize> = session.utf16_of(4);
    let place: Option<(usize, usize)> = session.position_of_utf16(4);
    let end: Option<(usize, usize)> = session.position_of_utf16(11);
    is_put & (unit == Some(5)) & (place == Some((3, 1))) & (end == Some((10, 0)))
}

#[test]
fn utf16_of_4_is_5_and_the_end_is_character_10(rt: HostRuntime) {
    assert!(rt; holds(rt.alloc(), Call::CodeUnits));
}

fn counts_chars<S: store::ParagraphStore<session::Kept>>(session: &session::Session<S>) -> bool {
    let count: usize = session.char_count();
    count == 8
}

#[test]
fn char_count_includes_newlines(rt: HostRuntime) {
    assert!(rt; holds(rt.alloc(), Call::CharCount));
}

fn counts_paragraphs<S: store::ParagraphStore<session::Kept>>(
    session: &session::Session<S>,
) -> bool {
    let count: usize = session.paragraph_count();
    count == 3
}

#[test]
fn paragraph_count_is_one_more_than_the_newlines(rt: HostRuntime) {
    assert!(rt; holds(rt.alloc(), Call::ParagraphCount));
}

fn shows_paragraph<S: store::ParagraphStore<session::Kept>>(session: &session::Session<S>) -> bool {
    let paragraph: Option<&lines::Laid> = session.paragraph(1);
    paragraph.is_some_and(|laid| laid.text() == ['c', 'd', '\n'].as_slice())
}

#[test]
fn paragraph_1_ends_with_its_newline(rt: HostRuntime) {
    assert!(rt; holds(rt.alloc(), Call::Paragraph));
}

// Sets a width of one column, so that the first two paragraphs have two lines each.
fn starts_paragraph<S: store::ParagraphStore<session::Kept>>(
    session: &mut session::Session<S>,
) -> bool {
    let is_narrow: bool = session.set_width(1).is_ok();
    let start: Option<usize> = session.paragraph_start(2);
    let line: Option<usize> = session.paragraph_first_line(2);
    is_narrow & (start == Some(6)) & (line == Some(4))
}

#[test]
fn paragraph_2_starts_at_6_on_line_4(rt: HostRuntime) {
    assert!(rt; holds(rt.alloc(), Call::ParagraphStart));
}

fn tells_width<S: store::ParagraphStore<session::Kept>>(session: &session::Session<S>) -> bool {
    let width: u16 = session.width();
    width == 80
}

#[test]
fn width_is_that_of_open(rt: HostRuntime) {
    assert!(rt; holds(rt.alloc(), Call::Width));
}

fn counts_analysed<S: store::ParagraphStore<session::Kept>>(session: &session::Session<S>) -> bool {
    let analysed: u64 = session.analysed();
    analysed == 8
}

#[test]
fn analysed_is_the_length_after_open(rt: HostRuntime) {
    assert!(rt; holds(rt.alloc(), Call::Analysed));
}

fn counts_filled<S: store::ParagraphStore<session::Kept>>(session: &session::Session<S>) -> bool {
    let filled: u64 = session.filled();
    filled == 8
}

#[test]
fn filled_is_the_length_after_open(rt: HostRuntime) {
    assert!(rt; holds(rt.alloc(), Call::Filled));
}

fn prints<S: store::ParagraphStore<session::Kept>>(session: &session::Session<S>) -> bool {
    let mut room: [u8; 9] = [0; 9];
    let mut sink = device::ToWrite::new(room.as_mut_slice());
    let printed: Result<(), lines::WriteFault> = session.print(&mut sink, &VISUAL);
    drop(sink);
    printed == Ok(()) && room == *b"ab\ncd\nef\n"
}

#[test]
fn print_writes_all_lines_in_order(rt: HostRuntime) {
    assert!(rt; holds(rt.alloc(), Call::Print));
}

fn refuses_range<S: store::ParagraphStore<session::Kept>>(
    session: &mut session::Session<S>,
) -> bool {
    session.delete(8, 1) == Err(session::EditFault::OutOfRange)
}

#[test]
fn delete_past_the_end_is_out_of_range(rt: HostRuntime) {
    assert!(rt; holds(rt.alloc(), Call::OutOfRange));
}

fn refuses_width<S: store::ParagraphStore<session::Kept>>(
    session: &mut session::Session<S>,
) -> bool {
    session.set_width(0) == Err(session::EditFault::WidthOutOfRange)
}

#[test]
fn width_of_zero_is_out_of_range(rt: HostRuntime) {
    assert!(rt; holds(rt.alloc(), Call::WidthOutOfRange));
}

// Returns the error from opening a session on `count` letters, or `None` if it opens or the text cannot be
// allocated.
fn fault_of_letters(alloc: Global, count: usize) -> Option<session::EditFault> {
    let Ok(letters) = vec![in alloc; b'a'; count] else {
        return None;
    };
    fault_of(alloc, std::str::from_utf8(&letters).unwrap_or(""), 80)
}

#[test]
fn text_of_16_777_217_letters_is_too_long(rt: HostRuntime) {
    let fault = fault_of_letters(rt.alloc(), session::TEXT_LIMIT + 1);
    assert!(rt; fault == Some(session::EditFault::TextTooLong));
}

#[test]
fn paragraph_of_1_048_577_letters_is_too_long(rt: HostRuntime) {
    let fault = fault_of_letters(rt.alloc(), lines::PARAGRAPH_LIMIT + 1);
    assert!(rt; fault == Some(session::EditFault::ParagraphTooLong));
}

#[test]
fn no_memory_is_shown_as_out_of_memory(rt: HostRuntime) {
    let shown = session::EditFault::NoMemory.to_string(rt.alloc());
    assert!(rt; shown.is_ok_and(|shown| shown.as_str() == "out of memory"));
}
