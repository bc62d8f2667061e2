//! Replaces part of a paragraph's lines with other lines.
ghost use Rattle.std.specs.Prelude.{◌≡◌, ◌+◌, ◌-◌, ◌^◌, ◌<◌, ◌≤◌, ◌++◌, drop, length, map, take, All, OnOk};
ghost use Rattle.lines.specs.Buffers.{held_lines, AreSound};
ghost use Rattle.lines.specs.Layouts.{AreWithin};
ghost use Rattle.lines.specs.Spliced.{spliced, spliced_lines};
ghost use Rattle.lines.specs.Splicing.{moved_start};
ghost use Rattle.lines.specs.declared.engine.TheConstants.{PARAGRAPH_LIMIT};

use crate::buffers::LineBuffers;
use crate::fill::Fill;
use crate::reserve::reserve;
use std::alloc::AllocError;

/// Part of a paragraph's lines: those from `line`, which starts at character `start`, up to `end_line`, which
/// starts at character `end`. If the part includes the last line, `end_line` is the number of lines, and
/// `end` is that of characters.
#[derive(Clone, Copy)]
pub(crate) struct Gap {
    pub(crate) line: usize,
    pub(crate) start: usize,
    pub(crate) end_line: usize,
    pub(crate) end: usize,
}

impl LineBuffers {
    /// Replaces the contents with the lines of a paragraph, of which those of a window replace the ones in
    /// `gap`. The lines after the gap move with their characters.
    pub(crate) fn put_spliced(
        &mut self,
        old: &Fill,
        gap: Gap,
        window: &LineBuffers,
    ) -> Result<(), AllocError>
        requires order { gap.start ≤ gap.end }
        requires within { gap.end ≤ old.now.len }
        requires before { AreWithin gap.start (take gap.line old.now.lines) }
        requires after { All (λ line. gap.end ≤ line.start) (drop gap.end_line old.now.lines) }
        requires sound { AreSound window.now }
        requires fits { gap.start + length window.now.visual.levels.items + (old.now.len - gap.end)
            ≤ PARAGRAPH_LIMIT }
        ensures lines { OnOk result (held_lines self.new
            ≡ spliced_lines gap (length window.now.visual.levels.items) old.now.lines
            (held_lines window.now)) }
        ensures sound { OnOk result (AreSound self.new) }
        ensures len { OnOk result (length self.new.visual.levels.items
            ≡ gap.start + length window.now.visual.levels.items + (old.now.len - gap.end)) }
    {
        let (visual, new) = (&mut self.visual, &window.visual);
        let len = new.levels.len();
        put_items(&old.levels, gap, &new.levels, &mut visual.levels)?;
        put_items(&old.chars, gap, &new.chars, &mut visual.chars)?;
        put_maps(
            old.maps.split_at(old.levels.len()),
            gap,
            new.maps.split_at(len),
            &mut visual.maps,
        )?;
        self.extents
            .put_spliced(&old.extents, gap, &window.extents, len)
    }
}

// Replaces the contents of `list` with the items of `old`, of which `between` replaces those in `gap`.
fn put_items<T: Copy>(
    old: &[T],
    gap: Gap,
    between: &[T],
    list: &mut Vec<T>,
) -> Result<(), AllocError>
    requires order { gap.start ≤ gap.end }
    requires within { gap.end ≤ length old.now }
    requires fits { gap.start + length between.now + (length old.now - gap.end) ≤ PARAGRAPH_LIMIT }
    ensures { OnOk result (list.new.items ≡ spliced gap old.now between.now) }
{
    list.clear();
    reserve(list, gap.start + between.len() + (old.len() - gap.end))?;
    push_items(old, gap, between, list)
}

// Replaces the contents of `list` with both position maps, of which `between` replaces the items in `gap`.
fn put_maps(
    old: (&[u32], &[u32]),
    gap: Gap,
    between: (&[u32], &[u32]),
    list: &mut Vec<u32>,
) -> Result<(), AllocError>
    requires order { gap.start ≤ gap.end }
    requires within { gap.end ≤ length old.0.now }
    requires old { length old.1.now ≡ length old.0.now }
    requires fits { gap.start + length between.0.now + (length old.0.now - gap.end) ≤ PARAGRAPH_LIMIT }
    ensures { OnOk result (list.new.items
        ≡ spliced gap old.entry.0.now between.entry.0.now
        ++ spliced gap old.entry.1.now between.entry.1.now) }
{
    list.clear();
    reserve(
        list,
        2 * (gap.start + between.0.len() + (old.0.len() - gap.end)),
    )?;
    push_items(old.0, gap, between.0, list)?;
    push_items(old.1, gap, between.1, list)
}

// Appends the items of `old`, of which `between` replaces those in `gap`.
fn push_items<T: Copy>(
    old: &[T],
    gap: Gap,
    between: &[T],
    list: &mut Vec<T>,
) -> Result<(), AllocError>
    requires order { gap.start ≤ gap.end }
    requires within { gap.end ≤ length old.now }
    ensures { OnOk result (list.new.items ≡ list.old.items ++ spliced gap old.now between.now) }
{
    list.extend_from_slice(&old[..gap.start])?;
    list.extend_from_slice(between)?;
    list.extend_from_slice(&old[gap.end..])
}

/// Appends line starts that move from `from` to `to` with their characters.
pub(crate) fn push_starts(
    starts: &[u32],
    from: usize,
    to: usize,
    list: &mut Vec<u32>,
) -> Result<(), AllocError>
    requires after { All (λ start. from ≤ start) starts.now }
    requires fits { All (λ start. moved_start from to start < 2 ^ 32) starts.now }
    ensures { OnOk result (list.new.items ≡ list.old.items ++ map (moved_start from to) starts.now) }
{
    let mut k = 0;
    while k < starts.len() {
        list.push((to + (starts[k] as usize - from)) as u32)?;
        k += 1;
    }
    Ok(())
}
