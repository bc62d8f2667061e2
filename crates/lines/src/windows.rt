//! Fills only a window of a paragraph again after an edit. The lines before and after the window stay the
//! same.
ghost use Rattle.std.specs.Prelude.{◌≡◌, ◌+◌, ◌-◌, ◌<◌, ◌≤◌, true, length, map, slice_index, None};
ghost use Rattle.std.specs.Prelude.{option_map, slice_range, take, IfOk, IfSome, OnOk};
ghost use Rattle.ucd.specs.Properties.{properties_of};
ghost use Rattle.lines.specs.Buffers.{held_lines, AreSound};
ghost use Rattle.lines.specs.Counts.{FillsSome, IsSameCount};
ghost use Rattle.lines.specs.Layouts.{lines_of, with_advances, AreWithin, HaveRoom};
ghost use Rattle.lines.specs.Paragraphs.{rules_in};
ghost use Rattle.lines.specs.Reordering.{ends_by};
ghost use Rattle.lines.specs.Windows.{window_lines, IsBreakIn, IsEditedText, IsFilled, IsFirstLine, IsWindow};
ghost use Rattle.lines.specs.Windows.{IsRefillable, IsShared, Meets, MeetsLine};

use crate::buffers::LineBuffers;
use crate::char_info::{CharInfo, InfoBuffers};
use crate::clusters::is_split_point;
use crate::counts::Counts;
use crate::filling::line_starts_by_breaks;
use crate::laid::Laid;
use crate::layout::fill_lines;
use crate::matching::SharedLines;
use crate::paragraph::{LentRules, Paragraph, Text};
use crate::properties::fill_properties;
use crate::same_kind::Replacement;
use crate::showing::show_lines;
use crate::splicing::Gap;
use crate::workspace::Workspace;
use breaks::Mark;
use std::alloc::{AllocError, Global};
use ucd::Properties;

// A window ends at most this many times the width after the edited characters, and after long inserts a
// quarter of their length more. Most edits move fewer lines.
const LINES: usize = 16;

/// A paragraph after an edit, with its levels and break marks, and its layout before the edit. Outside the
/// edited characters, the levels and break marks are those of the old paragraph.
#[derive(Clone, Copy)]
pub(crate) struct Edited<'a> {
    pub(crate) rules: LentRules<'a>,
    pub(crate) laid: &'a Laid,
    pub(crate) edit: Replacement,
    pub(crate) base: u8,
    pub(crate) text: &'a [char],
    pub(crate) levels: &'a [u8],
    pub(crate) marks: &'a [Mark],
    pub(crate) width: u32,
}

/// Where the lines of a window meet the old lines: the first `lines` lines of the window have `len`
/// characters, and are followed by the old line `old_line`, which starts at `old_start`.
#[derive(Clone, Copy)]
pub(crate) struct Meeting {
    pub(crate) lines: usize,
    pub(crate) len: usize,
    pub(crate) old_line: usize,
    pub(crate) old_start: usize,
}

/// Buffers for a window, reused for the next one.
#[derive(Drop)]
pub(crate) struct WindowBuffers {
    starts: Vec<u32>,
    lines: LineBuffers,
}

// Allocates empty buffers.
fn allocated(alloc: Global) -> Result<Box<WindowBuffers>, AllocError> {
    let buffers = WindowBuffers {
        starts: Vec::new(alloc),
        lines: LineBuffers::new(alloc),
    };
    Ok(Box::new(alloc, buffers)?)
}

// Returns the buffers for a window, and allocates them first if there are none yet. Most workspaces never
// need them.
fn ready_window(
    buffers: &mut Option<Box<WindowBuffers>>,
    alloc: Global,
) -> Result<&mut WindowBuffers, AllocError> {
    if buffers.is_none() {
        *buffers = Some(allocated(alloc)?);
    }
    match buffers {
        Some(buffers) => Ok(buffers),
        None => unreachable!(),
    }
}

/// Part of a paragraph in which lines are filled again: the characters from `start`, where the old line
/// `line` starts, up to `end`.
#[derive(Clone, Copy)]
pub(crate) struct Window {
    pub(crate) line: usize,
    pub(crate) start: usize,
    pub(crate) end: usize,
}

// Returns the index of the last character from `from` up to `to` after which a line may or must end, or
// `None` if there is none.
fn last_break(marks: &[Mark], from: usize, to: usize) -> Option<usize>
    ensures { IfSome result (IsBreakIn marks.now from to) }
{
    let mut k = to.min(marks.len());
    while k > from {
        k -= 1;
        if marks[k] != Mark::Never {
            return Some(k);
        }
    }
    None
}

// Returns the index of the line that contains a character. If lines start in ascending order, it is the last
// one that starts at or before the character.
fn line_of(starts: &[u32], pos: usize) -> usize
    requires some { 0 < length starts.now }
    requires first { slice_index starts.now 0 ≤ pos }
    ensures line { slice_index starts.now result ≤ pos }
    ensures within { result < length starts.now }
{
    let (mut low, mut high) = (0, starts.len());
    while high - low > 1 {
        let middle = low + (high - low) / 2;
        if starts[middle] as usize <= pos {
            low = middle;
        } else {
            high = middle;
        }
    }
    low
}

// Returns the index of a line from which filling can begin again if the first `len` characters of the
// paragraph have not changed.
fn first_line(starts: &[u32], marks: &[Mark], len: usize) -> usize
    requires some { 0 < length starts.now }
    requires first { slice_index starts.now 0 ≡ 0 }
    ensures line { IsFirstLine starts.now marks.now len result }
    ensures within { result < length starts.now }
{
    match last_break(marks, 0, len) {
        Some(k) => line_of(starts, k),
        None => 0,
    }
}

// Returns how many characters after the edited ones a window ends at most.
fn reach(width: u32) -> usize {
    (width as usize).saturating_mul(LINES)
}

/// Returns whether a paragraph is so long that only a window of it should be filled again.
pub(crate) fn is_long(text: &[char], width: u32) -> bool {
    reach(width) <= text.len() / 2
}

// Returns the window to fill again, or `None` if no line may end close to the edited characters, or if the
// paragraph is so short that all its lines can be filled again.
fn window_of(edited: &Edited<'_>) -> Option<Window>
    requires { IsRefillable edited.now }
    ensures { IfSome result (IsWindow edited.now) }
{
    let (laid, edit) = (edited.laid, edited.edit);
    let starts = laid.line_starts();
    let edit_end = edit.at + edit.inserted;
    let reach = reach(edited.width).saturating_add(edit.inserted / 4);
    if reach > edited.text.len() / 2 {
        return None;
    }
    let last = last_break(edited.marks, edit_end - 1, edit_end + reach)?;
    let line = first_line(starts, laid.marks(), edit.at.saturating_sub(1));
    Some(Window {
        line,
        start: starts[line] as usize,
        end: last + 1,
    })
}

// Returns the meeting with the old line that starts at the same character as line `n` of the window, or
// `None` if there is none.
fn meeting_at(edited: &Edited<'_>, from: usize, starts: &[u32], n: usize) -> Option<Meeting>
    requires edited { IsRefillable edited.now }
    requires from { from ≤ length edited.now.text.now }
    requires n { n < length starts.now }
    ensures { IfSome result (MeetsLine edited.now from starts.now) }
{
    let (laid, edit) = (edited.laid, edited.edit);
    let len = starts[n] as usize;
    let start = from + len;
    if start >= edited.text.len() || start <= edit.at + edit.inserted {
        return None;
    }
    if !is_split_point(edited.text, start) {
        return None;
    }
    let old_start = start - edit.inserted + edit.removed;
    let old = laid.line_starts();
    let old_line = line_of(old, old_start);
    if old[old_line] as usize != old_start {
        return None;
    }
    Some(Meeting {
        lines: n,
        len,
        old_line,
        old_start,
    })
}

// Returns where the lines of a window of `len` characters meet the old lines, or `None` if they do not.
fn meeting_of(edited: &Edited<'_>, from: usize, len: usize, starts: &[u32]) -> Option<Meeting>
    requires edited { IsRefillable edited.now }
    requires within { from + len ≤ length edited.now.text.now }
    ensures { IfSome result (Meets edited.now from len starts.now) }
{
    for n in 1..starts.len() {
        if let Some(meeting) = meeting_at(edited, from, starts, n) {
            return Some(meeting);
        }
    }
    if from + len != edited.text.len() {
        return None;
    }
    Some(Meeting {
        lines: starts.len(),
        len,
        old_line: edited.laid.line_count(),
        old_start: edited.laid.text().len(),
    })
}

// Returns whether `refill` can be tried: the old paragraph is not measured and has the same base level, lines
// are not ordered by clusters, and the edit removes and inserts at least one character.
fn can_be_refilled(edited: &Edited<'_>) -> bool
    requires { IsEditedText edited.now }
    ensures { result ≡ true → IsRefillable edited.now }
{
    let Replacement {
        at: _,
        removed,
        inserted,
    } = edited.edit;
    if edited.laid.advances().is_some() || edited.rules.options.reorder_clusters {
        return false;
    }
    edited.laid.base() == edited.base && removed > 0 && inserted > 0
}

impl Workspace {
    /// Replaces the contents of `lines` with the lines of a paragraph after an edit. In a long paragraph,
    /// fills only a window around the edited characters, and copies the other lines. `ends` are the cluster
    /// ends if lines are ordered by clusters. Returns which lines were copied.
    pub(crate) fn fill_edited(
        &mut self,
        edited: &Edited<'_>,
        advances: Option<&[u32]>,
        ends: &[bool],
        lines: &mut LineBuffers,
        counts: &mut Counts,
    ) -> Result<SharedLines, AllocError>
        requires edited { IsEditedText edited.now }
        requires room { HaveRoom (option_map (λ list. list.now) advances) }
        requires ends { ends.now ≡ ends_by edited.now.rules.options edited.now.text.now }
        ensures lines { OnOk result (held_lines lines.new
            ≡ lines_of (with_advances (rules_in edited.now.rules)
            (option_map (λ list. list.now) advances.entry)) edited.now.width edited.now.text.now) }
        ensures shared { IfOk result (λ shared. IsShared edited.now
            (option_map (λ list. list.now) advances.entry) shared) }
        ensures sound { OnOk result (AreSound lines.new) }
        ensures within { OnOk result (AreWithin (length edited.now.text.now) (held_lines lines.new)) }
        ensures lines_len { OnOk result
            (length lines.new.visual.levels.items ≡ length edited.now.text.now) }
        ensures at_most { FillsSome (length edited.now.text.now) counts.old counts.new }
    {
        let (laid, rules) = (edited.laid, edited.rules);
        if advances.is_none() && can_be_refilled(edited) {
            if let Some(shared) = self.refill(edited, lines, counts)? {
                return Ok(shared);
            }
        }
        let filled = counts.take_filled(edited.text.len());
        let analysis = &mut self.analysis;
        fill_properties(rules.tables, edited.text, &mut analysis.properties)?;
        let paragraph = Paragraph {
            text: Text {
                rules,
                characters: edited.text,
                properties: &analysis.properties[..edited.text.len()],
                ends,
                base: edited.base,
            },
            advances,
            levels: edited.levels,
            marks: edited.marks,
        };
        let (clusters, infos) = (&mut self.clusters, &mut self.infos);
        let written = &mut counts.written;
        fill_lines(
            clusters,
            &paragraph,
            infos,
            edited.width,
            lines,
            filled,
            written,
        )?;
        Ok(SharedLines::NONE)
    }

    /// Replaces the contents of `lines` with the lines of a paragraph after an edit. Fills only a window
    /// around the edited characters, and copies the other lines. Returns which lines were copied, or `None`
    /// if the lines of the window depend on clusters or do not meet the old lines. The contents of `lines`
    /// are then unspecified.
    pub(crate) fn refill(
        &mut self,
        edited: &Edited<'_>,
        lines: &mut LineBuffers,
        counts: &mut Counts,
    ) -> Result<Option<SharedLines>, AllocError>
        requires { IsRefillable edited.now }
        ensures lines { IfOk result (λ done. IfSome done (λ shared. held_lines lines.new
            ≡ lines_of (rules_in edited.now.rules) edited.now.width edited.now.text.now)) }
        ensures shared { IfOk result (λ done. IfSome done (IsShared edited.now None)) }
        ensures sound { IfOk result (λ done. IfSome done (λ shared. AreSound lines.new)) }
        ensures len { IfOk result (λ done. IfSome done (λ shared.
            length lines.new.visual.levels.items ≡ length edited.now.text.now)) }
        ensures undone { IfOk result (λ done. done ≡ None → IsSameCount counts.old counts.new) }
        ensures at_most { FillsSome (length edited.now.text.now) counts.old counts.new }
    {
        let Some(window) = window_of(edited) else {
            return Ok(None);
        };
        let text = &edited.text[window.start..window.end];
        fill_properties(edited.rules.tables, text, &mut self.analysis.properties)?;
        let properties = &self.analysis.properties;
        let buffers = ready_window(&mut self.window, *properties.allocator())?;
        let starts = &mut buffers.starts;
        let Some(meeting) = fill_window(edited, window, properties, &mut self.infos, starts)? else {
            return Ok(None);
        };
        let infos = &self.infos.infos;
        show_window(edited, window, meeting, infos, properties, buffers, counts)?;
        let gap = Gap {
            line: window.line,
            start: window.start,
            end_line: meeting.old_line,
            end: meeting.old_start,
        };
        lines.put_spliced(edited.laid.lines(), gap, &buffers.lines)?;
        Ok(Some(SharedLines {
            front: window.line,
            back: edited.laid.line_count() - meeting.old_line,
        }))
    }
}

// Finds where the lines of a window start, and returns where they meet the old lines. Returns `None` if they
// depend on clusters or do not meet the old lines. `properties` are those of the window's characters.
fn fill_window(
    edited: &Edited<'_>,
    window: Window,
    properties: &[Properties],
    infos: &mut InfoBuffers,
    starts: &mut Vec<u32>,
) -> Result<Option<Meeting>, AllocError>
    requires edited { IsRefillable edited.now }
    requires window { IsWindow edited.now window }
    requires properties { take (window.end - window.start) properties.now
        ≡ map (properties_of edited.now.rules.tables.now)
        (slice_range edited.now.text.now window.start window.end) }
    requires properties_len { window.end - window.start ≤ length properties.now }
    ensures { IfOk result (λ found. IfSome found
        (IsFilled edited.now window infos.new.infos.items starts.new.items)) }
{
    let (from, end) = (window.start, window.end);
    let len = end - from;
    let text = Text {
        rules: edited.rules,
        characters: &edited.text[from..end],
        properties: &properties[..len],
        ends: &[],
        base: edited.laid.base(),
    };
    infos.fill_with(&text, &edited.marks[from..end])?;
    let nobreak = edited.rules.options.nobreak;
    if line_starts_by_breaks(&infos.infos[..len], edited.width, nobreak, starts)? {
        Ok(meeting_of(edited, from, len, starts))
    } else {
        Ok(None)
    }
}

// Computes the visual lines of a window up to where they meet the old lines. `infos` and `properties` are
// those of the window's characters.
fn show_window(
    edited: &Edited<'_>,
    window: Window,
    meeting: Meeting,
    infos: &[CharInfo],
    properties: &[Properties],
    buffers: &mut WindowBuffers,
    counts: &mut Counts,
) -> Result<(), AllocError>
    requires edited { IsRefillable edited.now }
    requires window { IsWindow edited.now window }
    requires filled { IsFilled edited.now window infos.now buffers.old.starts.items meeting }
    requires len { meeting.len ≤ window.end - window.start }
    requires properties { take (window.end - window.start) properties.now
        ≡ map (properties_of edited.now.rules.tables.now)
        (slice_range edited.now.text.now window.start window.end) }
    requires properties_len { window.end - window.start ≤ length properties.now }
    ensures lines { OnOk result (held_lines buffers.new.lines
        ≡ window_lines edited.now window infos.now buffers.old.starts.items meeting) }
    ensures sound { OnOk result (AreSound buffers.new.lines) }
    ensures len { OnOk result (length buffers.new.lines.visual.levels.items ≡ meeting.len) }
    ensures counts { FillsSome (length edited.now.text.now) counts.old counts.new }
{
    let len = meeting.len;
    let (from, end) = (window.start, window.start + len);
    let filled = counts.take_filled(len);
    let options = edited.rules.options;
    let starts = &buffers.starts[..meeting.lines];
    let lines = &mut buffers.lines;
    let margin = options.margin(edited.width);
    lines
        .extents
        .put_starts(starts, &infos[..len], margin, filled)?;
    let paragraph = Paragraph {
        text: Text {
            rules: edited.rules,
            characters: &edited.text[from..end],
            properties: &properties[..len],
            ends: &[],
            base: edited.laid.base(),
        },
        advances: None,
        levels: &edited.levels[from..end],
        marks: &edited.marks[from..end],
    };
    show_lines(&paragraph, lines, &mut counts.written)
}
