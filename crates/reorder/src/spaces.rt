//! Applies L1 (UAX #9): separators, the blanks before them, and the blanks at the end of a line are reset to
//! the paragraph level.
ghost use Rattle.std.specs.Prelude.{◌≡◌, ◌≤◌, ◌&&◌, ◌||◌, false, true, length};
ghost use Rattle.reorder.specs.Spaces.{ends_segment, is_blank, line_levels};
ghost use Rattle.reorder.specs.NoEnds.{AreNoEnds};

use ucd::{BidiClass, Classes};

/// Applies L1 to a line: resets some of its levels to the paragraph level, `base`. The classes must be the
/// original classes, unchanged by earlier rules.
pub fn reset_levels<C: Classes>(line: &C, base: u8, levels: &mut [u8])
    requires { length (C.all line.now) ≡ length levels.old }
    ensures { levels.new ≡ line_levels base (C.all line.now) levels.old }
{
    // Whether a blank directly before the index `at` would be reset. If not, no character back to the last
    // separator is reset.
    let mut resets = true;
    let mut at = line.len();
    while at > 0 {
        let end = changed_end(line, resets, at);
        if end == 0 {
            return;
        }
        at = end - 1;
        resets = is_reset(line.class_at(at), resets);
        if resets {
            levels[at] = base;
        }
    }
}

// Returns the index after the last character before `at` that may have to be reset, or 0 if there is none.
fn changed_end<C: Classes>(line: &C, resets: bool, at: usize) -> usize
    requires { at ≤ length (C.all line.now) }
    ensures within { result ≤ at }
    ensures resets { resets ≡ true → result ≡ at }
    ensures passed { AreNoEnds (C.all line.now) result at }
{
    if resets { at } else { separator_end(line, at) }
}

// The number of characters that are tested together.
const AT_ONCE: usize = 16;

// Returns the index after the last separator before `end`, or 0 if there is none.
fn separator_end<C: Classes>(line: &C, end: usize) -> usize
    requires { end ≤ length (C.all line.now) }
    ensures within { result ≤ end }
    ensures passed { AreNoEnds (C.all line.now) result end }
{
    let mut at = end;
    while at >= AT_ONCE && !has_separator(line, at - AT_ONCE, at) {
        at -= AT_ONCE;
    }
    // The first group may overlap the next group, so that no characters are left to be tested one by one.
    if at < AT_ONCE && end >= AT_ONCE && !has_separator(line, 0, AT_ONCE) {
        return 0;
    }
    while at > 0 && !ends_segment(line.class_at(at - 1)) {
        at -= 1;
    }
    at
}

// Returns whether there is a separator in a range. Reads the whole range, which is faster than exiting the
// loop early.
fn has_separator<C: Classes>(line: &C, start: usize, end: usize) -> bool
    requires { end ≤ length (C.all line.now) }
    ensures { result ≡ false → AreNoEnds (C.all line.now) start end }
{
    let mut any = false;
    for k in start..end {
        any |= ends_segment(line.class_at(k));
    }
    any
}

fn ends_segment(class: BidiClass) -> bool
    ensures { result ≡ ends_segment class }
{
    matches!(class, BidiClass::S | BidiClass::B)
}

// Returns whether the level of a character is reset: always for a separator, and for a blank only if `after`
// is true.
fn is_reset(class: BidiClass, after: bool) -> bool
    ensures { result ≡ (ends_segment class || (is_blank class && after)) }
{
    match class {
        BidiClass::S | BidiClass::B => true,
        BidiClass::WS => after,
        BidiClass::LRI | BidiClass::RLI | BidiClass::FSI | BidiClass::PDI => after,
        BidiClass::LRE | BidiClass::RLE | BidiClass::LRO | BidiClass::RLO => after,
        BidiClass::PDF | BidiClass::BN => after,
        _ => false,
    }
}
