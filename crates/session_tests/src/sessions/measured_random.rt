//! Makes random edits of a measured session, and sets random advances and widths. Each result is compared
//! with a simple reference implementation, which keeps the text and the advances in two lists and finds one
//! line after another. Some results are also compared with a session that is opened on the text.
use super::random::{Numbers, random_piece};
use super::{PAGE, pages, same, without_engine};
use crate::files::{FILES, engine};
use breaks::Mark;
use lines::Options;
use session::{AdvanceFault, EditFault, Kept, Session};
use std::alloc::{AllocError, Global};
use std::process::Abort;
use std::test::Fail;
use store::TreeStore;

// The text of a session, the advance of each character, and the width.
#[derive(Drop)]
struct Reference {
    text: Vec<char>,
    advances: Vec<u32>,
    width: u32,
}

// A change of a measured session. `SetAdvances` has a position and the advances of the characters from there.
#[derive(Clone, Copy, Debug)]
enum Change<'a> {
    Insert(usize, &'a [char]),
    Delete(usize, usize),
    SetAdvances(usize, &'a [u32]),
    SetWidth(u32),
}

// Why a change is refused.
#[derive(Clone, Copy, Debug, PartialEq, Eq)]
enum Refusal {
    OutOfRange,
    TooLong,
    Width,
    Other,
}

// Returns a copy of a list in which `count` items from an index on are replaced.
fn spliced<T: Copy>(
    alloc: Global,
    list: &[T],
    pos: usize,
    count: usize,
    new: &[T],
) -> Result<Vec<T>, AllocError> {
    let mut all = Vec::new(alloc);
    all.extend_from_slice(list.get(..pos).unwrap_or(&[]))?;
    all.extend_from_slice(new)?;
    all.extend_from_slice(list.get(pos.wrapping_add(count)..).unwrap_or(&[]))?;
    Ok(all)
}

fn is_separator(c: char) -> bool {
    (c == '\n') | (c == '\r') | (c == '\u{2029}')
}

// Returns whether a paragraph ends after the character at an index.
fn ends_paragraph(text: &[char], k: usize) -> bool {
    let next = k.wrapping_add(1);
    match (text.get(k), text.get(next)) {
        (Some('\r'), Some('\n')) => false,
        (Some(c), Some(_)) => is_separator(*c),
        _ => true,
    }
}

// Returns where the paragraph that starts at an index ends.
fn paragraph_end(text: &[char], start: usize) -> usize {
    for k in start..text.len() {
        if ends_paragraph(text, k) {
            return k.wrapping_add(1);
        }
    }
    text.len()
}

// Returns whether the advances of each paragraph add up to less than 2^32.
fn have_room(text: &[char], advances: &[u32]) -> bool {
    let mut sum = 0u64;
    let mut all = true;
    for k in 0..advances.len() {
        sum = sum.wrapping_add(u64::from(advances[k]));
        all &= sum <= u64::from(u32::MAX);
        if ends_paragraph(text, k) {
            sum = 0;
        }
    }
    all
}

// Returns whether a line may end after the character at an index if no break opportunity fits. CR LF needs no
// case, since separators do not widen a line. Apart from that LF, only U+0300 continues a cluster here.
fn ends_cluster(text: &[char], k: usize) -> bool {
    match (text.get(k), text.get(k.wrapping_add(1))) {
        (Some(c), Some('\u{300}')) => ('\u{2066}'..='\u{2069}').contains(c),
        _ => true,
    }
}

impl Reference {
    // Returns where the line from `start` on ends, and the sum of the advances that it shows. `marks` are the
    // break marks of the line's paragraph, which goes from `first` to `end`.
    fn line(&self, marks: &[Mark], first: usize, start: usize, end: usize) -> (usize, u64) {
        let (mut all, mut shown) = (0u64, 0u64);
        let (mut by_break, mut by_cluster, mut least) = (None, None, None);
        for k in start..end {
            let c = self.text.get(k).copied().unwrap_or(' ');
            let advance = self.advances.get(k).copied().unwrap_or(0);
            all = all.wrapping_add(u64::from(advance));
            if c != ' ' && !is_separator(c) {
                shown = all;
            }
            let mark = marks.get(k.wrapping_sub(first)).copied();
            let is_break = mark != Some(Mark::Never);
            let is_end = is_break || ends_cluster(&self.text, k);
            let found = Some((k.wrapping_add(1), shown));
            if is_end && least.is_none() {
                least = found;
            }
            if shown <= u64::from(self.width) {
                if is_break {
                    by_break = found;
                }
                if is_end {
                    by_cluster = found;
                }
            }
        }
        by_break.or(by_cluster).or(least).unwrap_or((end, shown))
    }

    // Returns whether a session has the text, the advances and the lines of the reference implementation.
    fn has_lines(&self, session: &Session<TreeStore<Kept>>) -> bool {
        let (mut n, mut first) = (0usize, 0usize);
        let mut all = true;
        for i in 0..session.paragraph_count() {
            let Some(laid) = session.paragraph(i) else {
                return false;
            };
            let end = paragraph_end(&self.text, first);
            all &= (Some(laid.text()) == self.text.get(first..end))
                & (laid.advances() == self.advances.get(first..end));
            let mut next = first;
            for k in first..end {
                if k == next {
                    let (stop, columns) = self.line(laid.marks(), first, k, end);
                    all &= session.line_start(n) == Some(k);
                    all &= match session.line(n) {
                        Some(line) => u64::from(line.columns()) == columns,
                        None => false,
                    };
                    n = n.wrapping_add(1);
                    next = stop;
                }
            }
            first = end;
        }
        all & (n == session.line_count()) & (first == self.text.len())
    }

    // Returns the text, the advances and the width after a change that is not refused.
    fn after(&self, alloc: Global, change: Change<'_>) -> Result<Reference, AllocError> {
        let (pos, count, text): (usize, usize, &[char]) = match change {
            Change::Insert(pos, piece) => (pos, 0, piece),
            Change::Delete(pos, count) => (pos, count, &[]),
            _ => (0, 0, &[]),
        };
        let zeros = vec![in alloc; 0u32; text.len()]?;
        let moved = spliced(alloc, &self.advances, pos, count, &zeros)?;
        let advances = match change {
            Change::SetAdvances(pos, list) => spliced(alloc, &moved, pos, list.len(), list)?,
            _ => moved,
        };
        let width = match change {
            Change::SetWidth(width) => width,
            _ => self.width,
        };
        Ok(Reference {
            text: spliced(alloc, &self.text, pos, count, text)?,
            advances,
            width,
        })
    }

    // Returns why a session must refuse a change, or `None` if it must not. `after` is the state to which the
    // change leads.
    fn refusal(&self, change: Change<'_>, after: &Reference) -> Option<Refusal> {
        let end = match change {
            Change::Insert(pos, _) => pos,
            Change::Delete(pos, count) => pos.wrapping_add(count),
            Change::SetAdvances(pos, list) => pos.wrapping_add(list.len()),
            Change::SetWidth(_) => 0,
        };
        if after.width == 0 || after.width > 2_147_483_647 {
            return Some(Refusal::Width);
        }
        if end > self.text.len() {
            return Some(Refusal::OutOfRange);
        }
        if have_room(&after.text, &after.advances) {
            None
        } else {
            Some(Refusal::TooLong)
        }
    }

    // Returns whether a session equals one that is opened on the text.
    fn is_opened(
        &self,
        alloc: Global,
        session: &Session<TreeStore<Kept>>,
        room: &mut [u8],
    ) -> Result<bool, Fail> {
        let mut text = String::new(alloc);
        for k in 0..self.text.len() {
            text.push(self.text[k])?;
        }
        let engine = engine(alloc, &FILES, Options::default())?;
        let opened = Session::open_measured(alloc, engine, text.as_str(), self.width);
        let mut opened: Session<TreeStore<Kept>> = without_engine(opened)?;
        opened.set_advances(0, &self.advances)?;
        Ok(same(session, &opened, room))
    }
}

fn of_edit(fault: EditFault) -> Refusal {
    match fault {
        EditFault::OutOfRange => Refusal::OutOfRange,
        EditFault::ParagraphTooLong => Refusal::TooLong,
        _ => Refusal::Other,
    }
}

fn of_measuring(fault: AdvanceFault) -> Refusal {
    match fault {
        AdvanceFault::OutOfRange => Refusal::OutOfRange,
        AdvanceFault::ParagraphTooLong => Refusal::TooLong,
        AdvanceFault::WidthOutOfRange => Refusal::Width,
        _ => Refusal::Other,
    }
}

// Makes a change. Returns why the session refused it, or `None` if the change was made.
fn make(
    alloc: Global,
    session: &mut Session<TreeStore<Kept>>,
    change: Change<'_>,
) -> Result<Option<Refusal>, AllocError> {
    Ok(match change {
        Change::Insert(pos, piece) => {
            let mut text = String::new(alloc);
            for k in 0..piece.len() {
                text.push(piece[k])?;
            }
            session.insert(pos, text.as_str()).err().map(of_edit)
        }
        Change::Delete(pos, count) => session.delete(pos, count).err().map(of_edit),
        Change::SetAdvances(pos, list) => session.set_advances(pos, list).err().map(of_measuring),
        Change::SetWidth(width) => session.set_measured_width(width).err().map(of_measuring),
    })
}

// Returns fewer than 60 advances, which are all 0, all equal, large, or below 20.
fn random_advances(alloc: Global, numbers: &mut Numbers) -> Result<Vec<u32>, AllocError> {
    let kind = numbers.below(8);
    let equal = numbers.below(30);
    let mut list = Vec::new(alloc);
    for _ in 0..numbers.below(60) {
        let advance = match kind {
            0 => 0,
            1 | 2 => equal,
            3 => numbers.below(2_147_483_648),
            4 => numbers.below(40_000_000),
            _ => numbers.below(20),
        };
        list.push(u32::try_from(advance).unwrap_or(u32::MAX))?;
    }
    Ok(list)
}

fn random_width(numbers: &mut Numbers) -> u32 {
    let width = match numbers.below(8) {
        0 => numbers.below(2_147_483_650),
        1 => 2_147_483_647usize.wrapping_add(numbers.below(2)),
        2 => numbers.below(2),
        _ => numbers.below(400),
    };
    u32::try_from(width).unwrap_or(0)
}

fn random_change<'a>(
    numbers: &mut Numbers,
    len: usize,
    piece: &'a [char],
    list: &'a [u32],
) -> Change<'a> {
    let pos = numbers.below(len.wrapping_add(2));
    match numbers.below(10) {
        0 => Change::SetWidth(random_width(numbers)),
        1 | 2 => Change::Insert(pos, piece),
        3 | 4 => Change::Delete(pos, numbers.below(42)),
        _ => Change::SetAdvances(numbers.below(len.wrapping_add(2)), list),
    }
}

// Makes the next random change, and compares its result with the reference implementation.
fn check_next(
    rt: &impl Abort,
    alloc: Global,
    session: &mut Session<TreeStore<Kept>>,
    reference: &mut Reference,
    numbers: &mut Numbers,
) -> Result<(), Fail> {
    let text = random_piece(alloc, numbers)?;
    let mut piece = Vec::new(alloc);
    for c in text.chars() {
        piece.push(c)?;
    }
    let list = random_advances(alloc, numbers)?;
    let change = random_change(numbers, session.char_count(), &piece, &list);
    let before = session.analysed();
    let refused = make(alloc, session, change)?;
    let after = reference.after(alloc, change)?;
    assert!(rt; refused == reference.refusal(change, &after), "{change:?}");
    let is_edit = matches!(change, Change::Insert(_, _) | Change::Delete(_, _));
    assert!(rt; is_edit || session.analysed() == before, "{change:?}");
    if refused.is_none() {
        *reference = after;
    }
    assert!(rt; session.measured_width() == reference.width);
    assert!(rt; reference.has_lines(session), "{change:?}");
    Ok(())
}

#[test]
fn random_changes_of_a_measured_session_equal_a_plain_reference(
    rt: HostRuntime,
) -> Result<(), Fail> {
    let alloc = rt.alloc();
    let engine = engine(alloc, &FILES, Options::default())?;
    let opened = Session::open_measured(alloc, engine, "", 20);
    let mut session: Session<TreeStore<Kept>> = without_engine(opened)?;
    let mut reference = Reference {
        text: Vec::new(alloc),
        advances: Vec::new(alloc),
        width: 20,
    };
    let mut room = pages(alloc, 2 * PAGE)?;
    let mut numbers = Numbers::from_seed(17);
    for turn in 0..20_000 {
        check_next(&rt, alloc, &mut session, &mut reference, &mut numbers)?;
        if turn % 500 == 0 {
            let is_opened = reference.is_opened(alloc, &session, &mut room)?;
            assert!(rt; is_opened, "turn {turn}");
        }
    }
    Ok(())
}
