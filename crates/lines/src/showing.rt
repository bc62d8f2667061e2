//! The visual lines of a paragraph: the levels of each line after L1, and its shown part in visual order (L2,
//! L3), mirrored (L4).
ghost use Rattle.std.specs.Prelude.{◌≡◌, ◌*◌, ◌≤◌, ℕ, List, Option, true, false, OnErr, OnOk};
ghost use Rattle.std.specs.Prelude.{drop, length, map, take, slice_index};
ghost use Rattle.std.specs.List.{list_any, range_with_len};
ghost use Rattle.ucd.specs.Properties.{properties_of};
ghost use Rattle.ucd.specs.Classes.{class_in};
ghost use Rattle.reorder.specs.Spaces.{line_levels};
ghost use Rattle.ucd.specs.Within.{AreWithin};
ghost use Rattle.lines.specs.Engine.{counted, RisesBy};
ghost use Rattle.lines.specs.Extents.{shown_from};
ghost use Rattle.lines.specs.Kept.{AreStarts};
ghost use Rattle.lines.specs.Layouts;
ghost use Rattle.lines.specs.Buffers.{held_lines, AreSound};
ghost use Rattle.reorder.specs.Mirroring.{visual_chars};
ghost use Rattle.reorder.specs.Order.{is_odd};
ghost use Rattle.lines.specs.Paragraphs.{HasEnds, IsLookedUp};
ghost use Rattle.lines.specs.Reordering.{ltov_by, reorders, vtol_by};
ghost use Rattle.lines.specs.Showing.{lines_shown, AreShown, IsShown};
ghost use Rattle.lines.specs.declared.char_info.CharInfo.{CharInfo};
ghost use Rattle.lines.specs.declared.engine.TheConstants.{PARAGRAPH_LIMIT};

use crate::buffers::LineBuffers;
use crate::counts::Count;
use crate::extents::Extents;
use crate::fill::Shown;
use crate::line_classes::LineClasses;
use crate::options::Options;
use crate::paragraph::{Paragraph, Text};
use crate::reserve::reserve;
use reorder::{
    identity, order_runs, reset_levels, show_places, visual_chars, visual_places, visual_runs,
};
use std::alloc::AllocError;
use ucd::{KnownClasses, Properties};

/// Computes the visual lines of a paragraph from their extents in `lines.extents`: applies L1 to each line,
/// and L2, L3 and L4 to its shown part.
pub(crate) fn show_lines(
    paragraph: &Paragraph<'_>,
    lines: &mut LineBuffers,
    written: &mut Count,
) -> Result<(), AllocError>
    requires text { IsLookedUp paragraph.now.text }
    requires ends { HasEnds paragraph.now.text }
    requires limit { length paragraph.now.text.characters.now ≤ PARAGRAPH_LIMIT }
    requires levels { length paragraph.now.levels.now ≡ length paragraph.now.text.characters.now }
    requires starts { AreStarts (length paragraph.now.text.characters.now) lines.old.extents.starts }
    requires shown { (margin : Option ℕ) × (infos : List CharInfo) × (lines.old.extents.shown ≡ shown_from
        margin (length paragraph.now.text.characters.now) infos lines.old.extents.starts) }
    ensures sound { OnOk result (AreSound lines.new) }
    ensures lines { OnOk result (held_lines lines.new
        ≡ lines_shown paragraph.now.text.rules.tables.now paragraph.now.text.rules.options
        paragraph.now.text.base paragraph.now.text.characters.now paragraph.now.levels.now
        lines.old.extents.starts lines.old.extents.shown) }
    ensures within { OnOk result
        (Layouts.AreWithin (length paragraph.now.text.characters.now) (held_lines lines.new)) }
    ensures lines_len { OnOk result
        (length lines.new.visual.levels.items ≡ length paragraph.now.text.characters.now) }
    ensures counts { OnOk result
        (written.new ≡ counted written.old (length paragraph.now.text.characters.now)) }
    ensures unwritten { OnErr result (written.new ≡ written.old) }
    ensures at_most { RisesBy (length paragraph.now.text.characters.now) written.old written.new }
{
    let len = paragraph.text.characters.len();
    let visual = &mut lines.visual;
    copy(paragraph.levels, &mut visual.levels)?;
    make_numbers(&mut visual.maps, 2 * len)?;
    make_characters(&mut visual.chars, len)?;
    show_all(
        &paragraph.text,
        &lines.extents,
        &mut visual.levels,
        &mut visual.maps,
        &mut visual.chars,
        written,
    );
    Ok(())
}

// Replaces the contents of `list` with the levels before L1. L1 then changes them in place.
fn copy(levels: &[u8], list: &mut Vec<u8>) -> Result<(), AllocError>
    ensures { OnOk result (list.new.items ≡ levels.now) }
{
    list.clear();
    reserve(list, levels.len())?;
    list.extend_from_slice(levels)
}

// Sets the length of a list. Old items are not cleared, because each item is written before it is read.
fn make_numbers(list: &mut Vec<u32>, len: usize) -> Result<(), AllocError>
    ensures { OnOk result (length list.new.items ≡ len) }
{
    reserve(list, len)?;
    list.resize(len, 0)
}

// Sets the length of a list of characters. Old items are not cleared, because each item is written before it
// is read.
fn make_characters(list: &mut Vec<char>, len: usize) -> Result<(), AllocError>
    ensures { OnOk result (length list.new.items ≡ len) }
{
    reserve(list, len)?;
    list.resize(len, '\0')
}

/// Overwrites the levels before L1 with those after L1, and writes the position maps and characters of each
/// line's shown part. Each half of `maps` holds one position map. Counts the characters.
pub(crate) fn show_all(
    text: &Text<'_>,
    extents: &Extents,
    levels: &mut [u8],
    maps: &mut [u32],
    chars: &mut [char],
    written: &mut Count,
)
    requires text { IsLookedUp text.now }
    requires ends { HasEnds text.now }
    requires limit { length text.now.characters.now ≤ PARAGRAPH_LIMIT }
    requires starts { AreStarts (length text.now.characters.now) extents.now.starts }
    requires shown { (margin : Option ℕ) × (infos : List CharInfo) × (extents.now.shown
        ≡ shown_from margin (length text.now.characters.now) infos extents.now.starts) }
    requires levels { length levels.old ≡ length text.now.characters.now }
    requires maps { length maps.old ≡ 2 * length text.now.characters.now }
    requires chars { length chars.old ≡ length text.now.characters.now }
    ensures shown { AreShown text.now.rules.tables.now text.now.rules.options text.now.base
        text.now.characters.now levels.old extents.now.starts (length extents.now.starts)
        extents.now.shown levels.new (take (length levels.new) maps.new)
        (drop (length levels.new) maps.new) chars.new }
    ensures counts { written.new ≡ counted written.old (length text.now.characters.now) }
    ensures least { written.old ≤ written.new }
{
    let (ltov, vtol) = maps.split_at_mut(levels.len());
    if let Some(shown) = extents.only_line() {
        written.raise(text.characters.len());
        show_line(text, shown, levels, ltov, vtol, chars);
        return;
    }
    show_each(text, extents, levels, ltov, vtol, chars, written);
}

// Implements `show_all`, with one list per position map.
fn show_each(
    text: &Text<'_>,
    extents: &Extents,
    levels: &mut [u8],
    ltov: &mut [u32],
    vtol: &mut [u32],
    chars: &mut [char],
    written: &mut Count,
)
    requires text { IsLookedUp text.now }
    requires ends { HasEnds text.now }
    requires limit { length text.now.characters.now ≤ PARAGRAPH_LIMIT }
    requires starts { AreStarts (length text.now.characters.now) extents.now.starts }
    requires shown { (margin : Option ℕ) × (infos : List CharInfo) × (extents.now.shown
        ≡ shown_from margin (length text.now.characters.now) infos extents.now.starts) }
    requires levels { length levels.old ≡ length text.now.characters.now }
    requires ltov { length ltov.old ≡ length text.now.characters.now }
    requires vtol { length vtol.old ≡ length text.now.characters.now }
    requires chars { length chars.old ≡ length text.now.characters.now }
    ensures shown { AreShown text.now.rules.tables.now text.now.rules.options text.now.base
        text.now.characters.now levels.old extents.now.starts (length extents.now.starts)
        extents.now.shown levels.new ltov.new vtol.new chars.new }
    ensures counts { written.new ≡ counted written.old (length text.now.characters.now) }
    ensures least { written.old ≤ written.new }
{
    let starts = extents.starts();
    written.raise(text.characters.len());
    let mut k = 0;
    while k < starts.len() {
        let line = extents.line_at(starts, text, k);
        let (start, end) = (line.start, line.end);
        show_line(
            &line.text,
            line.shown,
            &mut levels[start..end],
            &mut ltov[start..end],
            &mut vtol[start..end],
            &mut chars[start..end],
        );
        k += 1;
    }
}

// Writes the levels of a line after L1, and the position maps and characters of its shown part.
fn show_line(
    line: &Text<'_>,
    shown: Shown,
    levels: &mut [u8],
    ltov: &mut [u32],
    vtol: &mut [u32],
    chars: &mut [char],
)
    requires line { IsLookedUp line.now }
    requires limit { length line.now.characters.now ≤ PARAGRAPH_LIMIT }
    requires shown { shown.len ≤ length line.now.characters.now }
    requires levels { length levels.old ≡ length line.now.characters.now }
    requires ltov { length ltov.old ≡ length line.now.characters.now }
    requires vtol { length vtol.old ≡ length line.now.characters.now }
    requires chars { length chars.old ≡ length line.now.characters.now }
    ensures { IsShown line.now.rules.tables.now line.now.rules.options line.now.base
        line.now.ends.now line.now.characters.now levels.old shown levels.new ltov.new vtol.new chars.new }
{
    let is_flat = reset_line(line.properties, line.base, levels);
    let n = shown.len as usize;
    show_part(
        line,
        &levels[..n],
        is_flat,
        &mut ltov[..n],
        &mut vtol[..n],
        &mut chars[..n],
    );
}

/// Applies L1 to a line. Returns `true` only if all levels are then 0.
pub(crate) fn reset_line(properties: &[Properties], base: u8, levels: &mut [u8]) -> bool
    requires { length properties.now ≡ length levels.old }
    ensures levels { levels.new ≡ line_levels base (map class_in properties.now) levels.old }
    ensures flat { result ≡ true → (k : ℕ) → slice_index levels.new k ≡ 0 }
{
    if base == 0 && are_zero(levels) {
        return true;
    }
    reset_levels(&KnownClasses { properties }, base, levels);
    false
}

// Returns whether all levels are 0.
fn are_zero(levels: &[u8]) -> bool
    ensures { result ≡ true → (k : ℕ) → slice_index levels.now k ≡ 0 }
{
    let mut highest = 0;
    for level in levels {
        highest = highest.max(*level);
    }
    highest == 0
}

// Returns whether no level is odd.
fn are_even(levels: &[u8]) -> bool
    ensures { result ≡ true → (k : ℕ) → is_odd (slice_index levels.now k) ≡ false }
{
    let mut odd = 0;
    for level in levels {
        odd = odd.max(*level % 2);
    }
    odd == 0
}

/// Returns whether no level is odd. If `is_flat` is true, all levels must be 0, and the list is not read.
pub(crate) fn is_plain(levels: &[u8], is_flat: bool) -> bool
    requires { is_flat ≡ true → (k : ℕ) → slice_index levels.now k ≡ 0 }
    ensures { result ≡ true → (k : ℕ) → is_odd (slice_index levels.now k) ≡ false }
{
    is_flat || are_even(levels)
}

// Writes the position maps and characters of a shown part without odd levels. The visual order of such a part
// is its logical order.
fn show_plain(part: &[char], ltov: &mut [u32], vtol: &mut [u32], chars: &mut [char])
    requires part { length part.now ≤ PARAGRAPH_LIMIT }
    requires ltov { length ltov.old ≡ length part.now }
    requires vtol { length vtol.old ≡ length part.now }
    requires chars { length chars.old ≡ length part.now }
    ensures ltov { ltov.new ≡ range_with_len 0 (length part.now) }
    ensures vtol { vtol.new ≡ range_with_len 0 (length part.now) }
    ensures chars { chars.new ≡ part.now }
{
    identity(ltov);
    identity(vtol);
    chars.copy_from_slice(part);
}

/// Writes the position maps of a line's shown part, and its characters in visual order. `levels` are the
/// levels of the shown part.
pub(crate) fn show_part(
    line: &Text<'_>,
    levels: &[u8],
    is_flat: bool,
    ltov: &mut [u32],
    vtol: &mut [u32],
    chars: &mut [char],
)
    requires line { IsLookedUp line.now }
    requires limit { length line.now.characters.now ≤ PARAGRAPH_LIMIT }
    requires levels { length levels.now ≤ length line.now.characters.now }
    requires flat { is_flat ≡ true → (k : ℕ) → slice_index levels.now k ≡ 0 }
    requires ltov { length ltov.old ≡ length levels.now }
    requires vtol { length vtol.old ≡ length levels.now }
    requires chars { length chars.old ≡ length levels.now }
    ensures ltov { ltov.new ≡ ltov_by line.now.rules.options
        (map class_in line.now.properties.now) line.now.ends.now levels.now }
    ensures vtol { vtol.new ≡ vtol_by line.now.rules.options
        (map class_in line.now.properties.now) line.now.ends.now levels.now }
    ensures chars { chars.new ≡ visual_chars line.now.rules.tables.now levels.now
        (take (length levels.now) line.now.characters.now)
        (vtol_by line.now.rules.options (map class_in line.now.properties.now) line.now.ends.now
        levels.now) }
    ensures within { AreWithin (length levels.now) vtol.new }
{
    let part = &line.characters[..levels.len()];
    if is_flat {
        show_plain(part, ltov, vtol, chars);
    } else {
        let classes = LineClasses {
            properties: line.properties,
            ends: line.ends,
            levels,
            reorder_clusters: line.rules.options.reorder_clusters,
        };
        visual_places(&classes, levels, reorders(line.rules.options), vtol);
        let properties = &line.properties[..levels.len()];
        show_places(
            line.rules.tables,
            part,
            properties,
            levels,
            vtol,
            ltov,
            chars,
        );
    }
}

// Returns whether L3 is applied, either to clusters or to nonspacing marks.
fn reorders(options: Options) -> bool
    ensures { result ≡ reorders options }
{
    options.reorder_clusters || options.reordernsm
}

/// Writes only the characters of a line's shown part, in visual order. `levels` are the levels of the shown
/// part. `places` is scratch space.
pub(crate) fn show_chars(line: &Text<'_>, levels: &[u8], places: &mut [u32], chars: &mut [char])
    requires line { IsLookedUp line.now }
    requires limit { length line.now.characters.now ≤ PARAGRAPH_LIMIT }
    requires levels { length levels.now ≤ length line.now.characters.now }
    requires places { length places.old ≡ length levels.now }
    requires chars { length chars.old ≡ length levels.now }
    ensures { chars.new ≡ visual_chars line.now.rules.tables.now levels.now
        (take (length levels.now) line.now.characters.now)
        (vtol_by line.now.rules.options (map class_in line.now.properties.now) line.now.ends.now
        levels.now) }
{
    let part = &line.characters[..levels.len()];
    let properties = &line.properties[..levels.len()];
    if reorders(line.rules.options) {
        let classes = LineClasses {
            properties: line.properties,
            ends: line.ends,
            levels,
            reorder_clusters: line.rules.options.reorder_clusters,
        };
        visual_places(&classes, levels, true, places);
        visual_chars(line.rules.tables, part, properties, levels, places, chars);
        return;
    }
    match order_runs(levels, places) {
        Some(count) => {
            let runs = &places[..count];
            visual_runs(line.rules.tables, part, properties, levels, runs, chars);
        }
        None => visual_chars(line.rules.tables, part, properties, levels, places, chars),
    }
}
