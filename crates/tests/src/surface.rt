//! Tests the public calls of `device`, `ucd`, `bidi`, `breaks` and `store`. Each call has one test, which
//! makes the call by its full path, names the types, and checks one example.
ghost use Rattle.std.specs.Prelude.{◌<◌, ◌^◌};

use crate::files::{FILES, read};
use std::alloc::{AllocError, Global};
use std::io::ErrorKind;

// device

#[test]
fn source_reads_up_to_the_buffers_length(rt: HostRuntime) {
    let mut reader = device::FromRead::new(b"abc".as_slice());
    let mut buffer: [u8; 2] = [0; 2];
    let read: Result<usize, ErrorKind> = device::Source::read(&mut reader, &mut buffer);
    assert!(rt; read == Ok(2) && buffer == *b"ab");
}

#[test]
fn sink_takes_bytes(rt: HostRuntime) {
    let mut room: [u8; 4] = [0; 4];
    let mut writer = device::ToWrite::new(room.as_mut_slice());
    let written: Result<usize, ErrorKind> = device::Sink::write(&mut writer, b"ab");
    drop(writer);
    assert!(rt; written == Ok(2) && room == *b"ab\0\0");
}

#[test]
fn from_read_is_a_source_that_ends_with_its_reader(rt: HostRuntime) {
    let mut reader: device::FromRead<&[u8]> = device::FromRead::new(b"".as_slice());
    assert!(rt; device::Source::read(&mut reader, &mut [0]) == Ok(0));
}

#[test]
fn to_write_is_a_sink_that_ends_with_its_writer(rt: HostRuntime) {
    let mut room: [u8; 1] = [0];
    let mut writer: device::ToWrite<&mut [u8]> = device::ToWrite::new(room.as_mut_slice());
    let taken = device::Sink::write(&mut writer, b"ab");
    drop(writer);
    assert!(rt; taken == Ok(1));
}

// ucd

// Returns whether a check holds for the test tables, or `false` if they cannot be read.
fn of_tables<F: FnOnce(&ucd::Tables) -> bool>(alloc: Global, check: F) -> bool
    requires { F.IsAlwaysCallable check }
{
    let Ok(tables) = read(alloc, &FILES) else {
        return false;
    };
    let is_right = check(&tables);
    drop(tables);
    is_right
}

// Seven files without lines.
const EMPTY: ucd::UcdFiles<'_> = ucd::UcdFiles {
    bidi_class: b"",
    bidi_brackets: b"",
    bidi_mirroring: b"",
    line_break: b"",
    general_category: b"",
    east_asian_width: b"",
    emoji_data: b"",
};

// Returns the fault with which files are refused, or `None` if they are accepted.
fn fault_of(alloc: Global, files: &ucd::UcdFiles<'_>) -> Option<ucd::TableFault> {
    let tables: Result<ucd::Tables, ucd::TableFault> = ucd::Tables::read(alloc, files);
    match tables {
        Ok(_) => None,
        Err(fault) => Some(fault),
    }
}

#[test]
fn bidi_classes_are_23(rt: HostRuntime) {
    let classes: [ucd::BidiClass; 23] = [
        ucd::BidiClass::L,
        ucd::BidiClass::R,
        ucd::BidiClass::AL,
        ucd::BidiClass::EN,
        ucd::BidiClass::ES,
        ucd::BidiClass::ET,
        ucd::BidiClass::AN,
        ucd::BidiClass::CS,
        ucd::BidiClass::NSM,
        ucd::BidiClass::BN,
        ucd::BidiClass::B,
        ucd::BidiClass::S,
        ucd::BidiClass::WS,
        ucd::BidiClass::ON,
        ucd::BidiClass::LRE,
        ucd::BidiClass::LRO,
        ucd::BidiClass::RLE,
        ucd::BidiClass::RLO,
        ucd::BidiClass::PDF,
        ucd::BidiClass::LRI,
        ucd::BidiClass::RLI,
        ucd::BidiClass::FSI,
        ucd::BidiClass::PDI,
    ];
    assert!(rt; classes[22] as u8 == 22);
}

#[test]
fn line_classes_are_49(rt: HostRuntime) {
    let classes: [ucd::LineClass; 49] = [
        ucd::LineClass::AI,
        ucd::LineClass::AL,
        ucd::LineClass::B2,
        ucd::LineClass::BA,
        ucd::LineClass::BB,
        ucd::LineClass::BK,
        ucd::LineClass::CB,
        ucd::LineClass::CJ,
        ucd::LineClass::CL,
        ucd::LineClass::CM,
        ucd::LineClass::CP,
        ucd::LineClass::CR,
        ucd::LineClass::EB,
        ucd::LineClass::EM,
        ucd::LineClass::EX,
        ucd::LineClass::GL,
        ucd::LineClass::H2,
        ucd::LineClass::H3,
        ucd::LineClass::HL,
        ucd::LineClass::HY,
        ucd::LineClass::ID,
        ucd::LineClass::IN,
        ucd::LineClass::IS,
        ucd::LineClass::JL,
        ucd::LineClass::JT,
        ucd::LineClass::JV,
        ucd::LineClass::LF,
        ucd::LineClass::NL,
        ucd::LineClass::NS,
        ucd::LineClass::NU,
        ucd::LineClass::OP,
        ucd::LineClass::PO,
        ucd::LineClass::PR,
        ucd::LineClass::QU,
        ucd::LineClass::RI,
        ucd::LineClass::SA,
        ucd::LineClass::SG,
        ucd::LineClass::SP,
        ucd::LineClass::SY,
        ucd::LineClass::WJ,
        ucd::LineClass::XX,
        ucd::LineClass::ZW,
        ucd::LineClass::ZWJ,
        ucd::LineClass::AK,
        ucd::LineClass::AP,
        ucd::LineClass::AS,
        ucd::LineClass::HH,
        ucd::LineClass::VF,
        ucd::LineClass::VI,
    ];
    assert!(rt; classes[40] as u8 == 42);
    assert!(rt; classes[48] as u8 == 48);
}

#[test]
fn files_are_numbered_in_the_order_of_their_fields(rt: HostRuntime) {
    let files: ucd::UcdFiles<'_> = ucd::UcdFiles {
        bidi_class: b"",
        bidi_brackets: b"",
        bidi_mirroring: b"",
        line_break: b"",
        general_category: b"",
        east_asian_width: b"",
        emoji_data: b"110000;Emoji",
    };
    assert!(rt; fault_of(rt.alloc(), &files).is_some_and(|fault| fault.file == 7));
}

#[test]
fn read_accepts_empty_files(rt: HostRuntime) {
    let tables: Result<ucd::Tables, ucd::TableFault> = ucd::Tables::read(rt.alloc(), &EMPTY);
    assert!(rt; tables.is_ok());
}

#[test]
fn table_fault_is_the_line_at_fault_and_its_cause(rt: HostRuntime) {
    let files = ucd::UcdFiles {
        bidi_class: b"0041;L\n0041;R\n",
        ..EMPTY
    };
    let fault = ucd::TableFault {
        file: 1,
        line: 2,
        cause: ucd::Cause::NamedBefore,
    };
    assert!(rt; fault_of(rt.alloc(), &files) == Some(fault));
}

#[test]
fn cause_of_a_reversed_range_is_3(rt: HostRuntime) {
    let files = ucd::UcdFiles {
        bidi_class: b"0041..0030;L",
        ..EMPTY
    };
    assert!(rt; fault_of(rt.alloc(), &files).is_some_and(|fault| fault.cause as u8 == 3));
}

#[test]
fn bidi_class_of_alef_is_r(rt: HostRuntime) {
    assert!(rt;
        of_tables(rt.alloc(), |tables| {
            let class: ucd::BidiClass = tables.bidi_class('א');
            class == ucd::BidiClass::R
        })
    );
}

#[test]
fn bracket_of_a_parenthesis_pairs_with_the_other_one(rt: HostRuntime) {
    assert!(rt;
        of_tables(rt.alloc(), |tables| {
            let bracket: Option<ucd::Bracket> = tables.bracket('(');
            bracket
                == Some(ucd::Bracket {
                    pair: ')',
                    opens: true
                })
        })
    );
}

#[test]
fn mirror_of_a_parenthesis_is_the_other_one(rt: HostRuntime) {
    assert!(rt;
        of_tables(rt.alloc(), |tables| {
            let mirror: Option<char> = tables.mirror('(');
            mirror == Some(')')
        })
    );
}

#[test]
fn line_class_of_a_space_is_sp(rt: HostRuntime) {
    assert!(rt;
        of_tables(rt.alloc(), |tables| {
            let class: ucd::LineClass = tables.line_class(' ');
            class == ucd::LineClass::SP
        })
    );
}

#[test]
fn is_wide_holds_of_an_ideograph(rt: HostRuntime) {
    assert!(rt;
        of_tables(rt.alloc(), |tables| {
            let is_wide: bool = tables.is_wide('一');
            is_wide
        })
    );
}

#[test]
fn is_mark_holds_of_a_combining_grave_accent(rt: HostRuntime) {
    assert!(rt;
        of_tables(rt.alloc(), |tables| {
            let is_mark: bool = tables.is_mark('\u{300}');
            is_mark
        })
    );
}

#[test]
fn is_future_pictograph_does_not_hold_of_a_letter(rt: HostRuntime) {
    assert!(rt;
        of_tables(rt.alloc(), |tables| {
            let is_future_pictograph: bool = tables.is_future_pictograph('a');
            !is_future_pictograph
        })
    );
}

// bidi

#[test]
fn bases_are_four(rt: HostRuntime) {
    let bases: [bidi::Base; 4] = [
        bidi::Base::Rtl,
        bidi::Base::Ltr,
        bidi::Base::WeakRtl,
        bidi::Base::WeakLtr,
    ];
    assert!(rt; bases[0] != bases[3]);
}

#[test]
fn is_cut_holds_after_a_newline(rt: HostRuntime) {
    assert!(rt;
        of_tables(rt.alloc(), |tables| {
            let is_cut: bool = bidi::is_cut(tables, '\n', 'a');
            is_cut
        })
    );
}

#[test]
fn first_cut_is_after_the_newline(rt: HostRuntime) {
    assert!(rt;
        of_tables(rt.alloc(), |tables| {
            let first_cut: Option<usize> = bidi::first_cut(tables, &['a', '\n', 'b']);
            first_cut == Some(2)
        })
    );
}

#[test]
fn base_level_of_hebrew_is_one(rt: HostRuntime) {
    assert!(rt;
        of_tables(rt.alloc(), |tables| {
            let level: u8 = bidi::base_level(tables, &['א', 'a'], bidi::Base::WeakLtr);
            level == 1
        })
    );
}

#[test]
fn base_level_of_hebrew_text_is_one(rt: HostRuntime) {
    assert!(rt;
        of_tables(rt.alloc(), |tables| {
            let level: u8 = bidi::base_level_in_text(tables, "1אa", bidi::Base::WeakLtr);
            level == 1
        })
    );
}

#[test]
fn resolve_raises_a_number_after_hebrew_to_two(rt: HostRuntime) {
    let alloc = rt.alloc();
    assert!(rt;
        of_tables(alloc, |tables| {
            let levels: Result<Vec<u8>, AllocError> = bidi::resolve(
                alloc,
                tables,
                &['א', ' ', '1'],
                bidi::Base::WeakLtr
            );
            levels.is_ok_and(|levels| levels.as_slice() == [1, 1, 2].as_slice())
        })
    );
}

// breaks

#[test]
fn marks_are_three(rt: HostRuntime) {
    let marks: [breaks::Mark; 3] = [breaks::Mark::Never, breaks::Mark::May, breaks::Mark::Must];
    assert!(rt; marks[0] != marks[1] && marks[1] != marks[2]);
}

// The marks of `a`, a space and `b`.
const MARKS: [breaks::Mark; 3] = [breaks::Mark::Never, breaks::Mark::May, breaks::Mark::Must];

#[test]
fn marks_allow_a_break_after_a_space(rt: HostRuntime) {
    let alloc = rt.alloc();
    assert!(rt;
        of_tables(alloc, |tables| {
            let marks: Result<Vec<breaks::Mark>, AllocError> = breaks::marks(
                alloc,
                tables,
                &['a', ' ', 'b'],
                false
            );
            marks.is_ok_and(|marks| marks.as_slice() == MARKS.as_slice())
        })
    );
}

#[test]
fn marks_into_writes_over_a_list(rt: HostRuntime) {
    let alloc = rt.alloc();
    assert!(rt;
        of_tables(alloc, |tables| {
            let properties: [ucd::Properties; 3] = [
                tables.properties('a'),
                tables.properties(' '),
                tables.properties('b'),
            ];
            let mut marks: Vec<breaks::Mark> = Vec::new(alloc);
            let written: Result<(), AllocError> = breaks::marks_into(
                tables,
                &['a', ' ', 'b'],
                &properties,
                false,
                &mut marks
            );
            written.is_ok() && marks.as_slice() == MARKS.as_slice()
        })
    );
}

// store

// An item with a number of characters, lines, bytes and code units.
#[derive(Clone, Copy, Debug, PartialEq, Eq)]
struct Item {
    chars: usize,
    lines: usize,
    bytes: usize,
    utf16: usize,
}

impl store::Measured for Item {
    ghost chars = { λ item. item.chars };

    ghost lines = { λ item. item.lines };

    ghost bytes = { λ item. item.bytes };

    ghost utf16 = { λ item. item.utf16 };

    fn chars(&self) -> usize {
        self.chars
    }

    fn lines(&self) -> usize {
        self.lines
    }

    fn bytes(&self) -> usize {
        self.bytes
    }

    fn utf16(&self) -> usize {
        self.utf16
    }
}

impl store::Exchange for Item {
    // The number of lines.
    type Part = usize;

    ghost use Rattle.std.specs.Prelude.{refl};

    ghost fits = { λ item lines. lines < 2 ^ 64 };

    ghost exchanged = { λ item lines. record item { lines = lines } };

    ghost handed_out = { λ item _. item.lines };

    fn exchange(&mut self, part: &mut usize) {
        std::mem::swap(&mut self.lines, part);
    }

    ghost keeps_chars = { λ item lines fits. refl };

    ghost keeps_bytes = { λ item lines fits. refl };

    ghost keeps_utf16 = { λ item lines fits. refl };
}

const FIRST: Item = Item {
    chars: 5,
    lines: 1,
    bytes: 7,
    utf16: 6,
};

const SECOND: Item = Item {
    chars: 90,
    lines: 2,
    bytes: 180,
    utf16: 91,
};

#[test]
fn measured_items_have_characters_lines_bytes_and_code_units(rt: HostRuntime) {
    let chars: usize = store::Measured::chars(&SECOND);
    let lines: usize = store::Measured::lines(&SECOND);
    let bytes: usize = store::Measured::bytes(&SECOND);
    let utf16: usize = store::Measured::utf16(&SECOND);
    assert!(rt; chars == 90 && lines == 2 && bytes == 180 && utf16 == 91);
}

#[test]
fn exchange_swaps_the_part(rt: HostRuntime) {
    let mut item = SECOND;
    let mut part: usize = 7;
    store::Exchange::exchange(&mut item, &mut part);
    assert!(rt; item.lines == 7 && part == 2);
}

// The store methods that are tested.
#[derive(Clone, Copy)]
enum Call {
    New,
    Count,
    TotalChars,
    TotalLines,
    TotalBytes,
    TotalUtf16,
    Get,
    FindChar,
    FindLine,
    FindByte,
    FindUtf16,
    FindItem,
    Found,
    Replace,
    ExchangeAll,
}

// Returns whether the example of a call holds in both stores, or `false` after an allocation failure. Only
// this function names both stores, since a function that names them is slow to prove.
fn holds(alloc: Global, call: Call) -> bool {
    holds_in::<store::VecStore<Item>>(alloc, call) & holds_in::<store::TreeStore<Item>>(alloc, call)
}

fn holds_in<S: store::ParagraphStore<Item> + Drop>(alloc: Global, call: Call) -> bool {
    match call {
        Call::New => starts_empty::<S>(alloc),
        Call::Replace => replaces::<S>(alloc),
        Call::ExchangeAll => exchanges::<S>(alloc),
        _ => reads::<S>(alloc, call),
    }
}

// Makes a store of FIRST and SECOND, or returns `None` after an allocation failure.
fn of_two<S: store::ParagraphStore<Item> + Drop>(alloc: Global) -> Option<S> {
    let mut store: S = S::new(alloc);
    let Ok(items) = vec![in alloc; FIRST, SECOND] else {
        return None;
    };
    match store.replace(0..0, items) {
        Ok(_) => Some(store),
        Err(_) => None,
    }
}

fn reads<S: store::ParagraphStore<Item> + Drop>(alloc: Global, call: Call) -> bool {
    let Some(store) = of_two::<S>(alloc) else {
        return false;
    };
    let is_right = match call {
        Call::Count => counts(&store),
        Call::TotalChars => sums_chars(&store),
        Call::TotalLines => sums_lines(&store),
        Call::TotalBytes => sums_bytes(&store),
        Call::TotalUtf16 => sums_utf16(&store),
        Call::Get => gets(&store),
        Call::FindChar => finds_char(&store),
        Call::FindLine => finds_line(&store),
        Call::FindByte => finds_byte(&store),
        Call::FindUtf16 => finds_utf16(&store),
        Call::FindItem => finds_item(&store),
        Call::Found => tells_what_is_found(&store),
        _ => false,
    };
    drop(store);
    is_right
}

fn starts_empty<S: store::ParagraphStore<Item> + Drop>(alloc: Global) -> bool {
    let store: S = S::new(alloc);
    store.count() == 0
}

#[test]
fn new_is_empty(rt: HostRuntime) {
    assert!(rt; holds(rt.alloc(), Call::New));
}

fn counts<S: store::ParagraphStore<Item>>(store: &S) -> bool {
    let count: usize = store.count();
    count == 2
}

#[test]
fn count_of_two_items_is_two(rt: HostRuntime) {
    assert!(rt; holds(rt.alloc(), Call::Count));
}

fn sums_chars<S: store::ParagraphStore<Item>>(store: &S) -> bool {
    let chars: usize = store.total_chars();
    chars == 95
}

#[test]
fn total_chars_of_5_and_90_is_95(rt: HostRuntime) {
    assert!(rt; holds(rt.alloc(), Call::TotalChars));
}

fn sums_lines<S: store::ParagraphStore<Item>>(store: &S) -> bool {
    let lines: usize = store.total_lines();
    lines == 3
}

#[test]
fn total_lines_of_1_and_2_is_3(rt: HostRuntime) {
    assert!(rt; holds(rt.alloc(), Call::TotalLines));
}

fn sums_bytes<S: store::ParagraphStore<Item>>(store: &S) -> bool {
    let bytes: usize = store.total_bytes();
    bytes == 187
}

#[test]
fn total_bytes_of_7_and_180_is_187(rt: HostRuntime) {
    assert!(rt; holds(rt.alloc(), Call::TotalBytes));
}

fn sums_utf16<S: store::ParagraphStore<Item>>(store: &S) -> bool {
    let utf16: usize = store.total_utf16();
    utf16 == 97
}

#[test]
fn total_utf16_of_6_and_91_is_97(rt: HostRuntime) {
    assert!(rt; holds(rt.alloc(), Call::TotalUtf16));
}

fn gets<S: store::ParagraphStore<Item>>(store: &S) -> bool {
    let item: Option<&Item> = store.get(1);
    item == Some(&SECOND) && store.get(2).is_none()
}

#[test]
fn get_is_the_item_and_none_past_the_end(rt: HostRuntime) {
    assert!(rt; holds(rt.alloc(), Call::Get));
}

fn finds_char<S: store::ParagraphStore<Item>>(store: &S) -> bool {
    if store.total_chars() < 10 {
        return false;
    }
    let found: store::Found = store.find_char(9);
    found.index == 1 && found.rest == 4
}

#[test]
fn find_char_9_is_character_4_of_the_second_item(rt: HostRuntime) {
    assert!(rt; holds(rt.alloc(), Call::FindChar));
}

fn finds_line<S: store::ParagraphStore<Item>>(store: &S) -> bool {
    if store.total_lines() < 3 {
        return false;
    }
    let found: store::Found = store.find_line(2);
    found.index == 1 && found.rest == 1
}

#[test]
fn find_line_2_is_line_1_of_the_second_item(rt: HostRuntime) {
    assert!(rt; holds(rt.alloc(), Call::FindLine));
}

fn finds_byte<S: store::ParagraphStore<Item>>(store: &S) -> bool {
    if store.total_bytes() < 10 {
        return false;
    }
    let found: store::Found = store.find_byte(9);
    found.index == 1 && found.rest == 2 && found.bytes_before == 7
}

#[test]
fn find_byte_9_is_byte_2_of_the_second_item(rt: HostRuntime) {
    assert!(rt; holds(rt.alloc(), Call::FindByte));
}

fn finds_utf16<S: store::ParagraphStore<Item>>(store: &S) -> bool {
    if store.total_utf16() < 10 {
        return false;
    }
    let found: store::Found = store.find_utf16(9);
    found.index == 1 && found.rest == 3 && found.utf16_before == 6
}

#[test]
fn find_utf16_9_is_code_unit_3_of_the_second_item(rt: HostRuntime) {
    assert!(rt; holds(rt.alloc(), Call::FindUtf16));
}

fn finds_item<S: store::ParagraphStore<Item>>(store: &S) -> bool {
    if store.count() < 2 {
        return false;
    }
    let found: store::Found = store.find_item(1);
    let chars_and_lines: [usize; 2] = [found.chars_before, found.lines_before];
    let bytes_and_units: [usize; 2] = [found.bytes_before, found.utf16_before];
    found.index == 1 && found.rest == 0 && chars_and_lines == [5, 1] && bytes_and_units == [7, 6]
}

#[test]
fn find_item_1_has_the_sums_of_the_first_item(rt: HostRuntime) {
    assert!(rt; holds(rt.alloc(), Call::FindItem));
}

fn tells_what_is_found<S: store::ParagraphStore<Item>>(store: &S) -> bool {
    if store.total_lines() < 3 {
        return false;
    }
    let store::Found {
        index,
        rest,
        lines_before,
        visits,
        ..
    } = store.find_line(2);
    let place: [usize; 3] = [index, rest, lines_before];
    let visits: usize = visits;
    place == [1, 1, 1] && visits > 0
}

#[test]
fn found_is_the_item_the_rest_and_the_lines_before(rt: HostRuntime) {
    assert!(rt; holds(rt.alloc(), Call::Found));
}

fn replaces<S: store::ParagraphStore<Item> + Drop>(alloc: Global) -> bool {
    let mut store: S = S::new(alloc);
    let Ok(items) = vec![in alloc; FIRST, SECOND] else {
        return false;
    };
    let old: Result<Vec<Item>, (Vec<Item>, AllocError)> = store.replace(0..0, items);
    old.is_ok_and(|old| old.is_empty()) && store.count() == 2
}

#[test]
fn replace_of_no_items_by_two_adds_them(rt: HostRuntime) {
    assert!(rt; holds(rt.alloc(), Call::Replace));
}

fn exchanges<S: store::ParagraphStore<Item> + Drop>(alloc: Global) -> bool {
    let mut store: S = S::new(alloc);
    let (Ok(items), Ok(mut parts)) = (vec![in alloc; FIRST], vec![in alloc; 7]) else {
        return false;
    };
    if store.replace(0..0, items).is_err() {
        return false;
    }
    store.exchange_all(&mut parts);
    store.total_lines() == 7 && parts.as_slice() == [1].as_slice()
}

#[test]
fn exchange_all_swaps_the_lines_of_each_item(rt: HostRuntime) {
    assert!(rt; holds(rt.alloc(), Call::ExchangeAll));
}

// Returns how many items a search for the last line visits, or 0 after an allocation failure.
fn visits_in<S: store::ParagraphStore<Item> + Drop>(alloc: Global) -> usize {
    let Some(store) = of_two::<S>(alloc) else {
        return 0;
    };
    if store.total_lines() < 3 {
        return 0;
    }
    store.find_line(2).visits
}

#[test]
fn vec_store_looks_at_each_item_up_to_the_one_found(rt: HostRuntime) {
    let visits: usize = visits_in::<store::VecStore<Item>>(rt.alloc());
    assert!(rt; visits == 2);
}

#[test]
fn tree_store_looks_at_two_items_at_most(rt: HostRuntime) {
    let visits: usize = visits_in::<store::TreeStore<Item>>(rt.alloc());
    assert!(rt; visits == 1 || visits == 2);
}
