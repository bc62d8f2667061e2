//! Where each line of a paragraph starts at a width, and how much of it is shown.
ghost use Rattle.std.specs.Prelude.{◌≡◌, ◌+◌, ◌*◌, ◌^◌, ◌<◌, ◌≤◌, ℕ, [], ◌∷◌, length, sum, IfSome, OnOk};
ghost use Rattle.std.specs.Prelude.{List, Option, option_map, ◌++◌, All};
ghost use Rattle.std.specs.Prelude.{drop, slice_index, slice_index_or, slice_range};
ghost use Rattle.lines.specs.Bare.{with_ends};
ghost use Rattle.lines.specs.CharInfos.{sized};
ghost use Rattle.lines.specs.Clusters.{cluster_ends};
ghost use Rattle.lines.specs.Extents.{in_pairs, shown_from};
ghost use Rattle.lines.specs.Filling.{line_starts_of};
ghost use Rattle.lines.specs.Kept.{AreStarts};
ghost use Rattle.lines.specs.Paragraphs.{HasEnds, IsLineAt, IsLookedUp};
ghost use Rattle.lines.specs.Showing.{nothing_shown};
ghost use Rattle.lines.specs.ShownParts.{margin_of};
ghost use Rattle.lines.specs.Spliced.{spliced_shown, spliced_starts};
ghost use Rattle.lines.specs.Splicing.{moved_start};
ghost use Rattle.lines.specs.Visual.{end_of};
ghost use Rattle.lines.specs.declared.char_info.CharInfo.{CharInfo};
ghost use Rattle.lines.specs.declared.engine.TheConstants.{PARAGRAPH_LIMIT};

use crate::char_info::CharInfo;
use crate::clusters::ClusterBuffers;
use crate::counts::Counted;
use crate::fill::Shown;
use crate::filling::line_starts;
use crate::options::Options;
use crate::paragraph::{LineSlice, Text};
use crate::reserve::reserve;
use crate::shown_parts::fill_shown;
use crate::sizes::{ByAdvances, ByColumns, Ruler, Sizes};
use crate::splicing::{Gap, push_starts};
use std::alloc::{AllocError, Global};
use std::marker::Model;

/// Where each line of a paragraph starts at a width, and how much of it is shown. Given its extents, a
/// paragraph's lines can be written without allocating.
#[derive(Debug, Drop)]
pub struct Extents {
    // How much is shown of the only line. Most paragraphs have one line, whose extents need no list.
    line: Option<Shown>,
    // If `line` is `None`, the start of each line, and then the length and the columns of each line's shown
    // part. One list saves an allocation per paragraph.
    items: Vec<u32>,
}

impl Model for Extents {
    ghost use Rattle.lines.specs.Extents.{stored, LineExtents};

    ghost Value = { LineExtents };

    ghost view = { λ e. stored e.line e.items.items };
}

impl Extents {
    /// Creates extents without lines. Allocates nothing.
    pub(crate) fn new(alloc: Global) -> Extents {
        Extents {
            line: None,
            items: Vec::new(alloc),
        }
    }

    /// Returns where each line starts.
    pub(crate) fn starts(&self) -> &[u32]
        ensures { result.now ≡ self.now.starts }
    {
        match self.line {
            Some(_) => &[0],
            None => &self.items[..self.items.len() / 3],
        }
    }

    /// Returns how much of the only line is shown, or `None` if there may be several lines.
    pub(crate) fn only_line(&self) -> Option<Shown>
        ensures { IfSome result (λ shown. self.now ≡ record { starts = 0 ∷ []; shown = shown ∷ [] }) }
    {
        self.line
    }

    /// Returns how much of line `k` is shown.
    pub(crate) fn shown(&self, k: usize) -> Shown
        requires { k < length self.now.starts }
        ensures { result ≡ slice_index_or self.now.shown k nothing_shown }
    {
        match self.line {
            Some(shown) => shown,
            None => {
                let place = self.items.len() / 3 + 2 * k;
                Shown {
                    len: self.items[place],
                    columns: self.items[place + 1],
                }
            }
        }
    }

    /// Returns line `k` of a paragraph that has these extents. Pass the result of `starts` as `starts`.
    pub(crate) fn line_at<'a>(&self, starts: &[u32], text: &Text<'a>, k: usize) -> LineSlice<'a>
        requires listed { starts.now ≡ self.now.starts }
        requires text { IsLookedUp text.now }
        requires ends { HasEnds text.now }
        requires starts { AreStarts (length text.now.characters.now) self.now.starts }
        requires shown { (margin : Option ℕ) × (infos : List CharInfo) × (self.now.shown
            ≡ shown_from margin (length text.now.characters.now) infos self.now.starts) }
        requires k { k < length self.now.starts }
        ensures { IsLineAt text.now self.now k result }
    {
        let start = starts[k] as usize;
        let end = end_of(starts, k, text.characters.len());
        LineSlice {
            start,
            end,
            text: Text {
                rules: text.rules,
                characters: &text.characters[start..end],
                properties: &text.properties[start..end],
                ends: ends_between(text.ends, start, end),
                base: text.base,
            },
            shown: self.shown(k),
        }
    }

    /// Replaces the extents with those of a single line, which starts at the first character. Allocates
    /// nothing.
    pub(crate) fn put_line(&mut self, shown: Shown, _filled: Counted)
        ensures { self.new ≡ record { starts = 0 ∷ []; shown = shown ∷ [] } }
    {
        self.line = Some(shown);
    }

    /// Replaces the extents with those of the lines that start at `starts`. The lines are not measured.
    pub(crate) fn put_starts(
        &mut self,
        starts: &[u32],
        infos: &[CharInfo],
        margin: Option<u32>,
        _filled: Counted,
    ) -> Result<(), AllocError>
        requires counted { _filled ≡ length infos.now }
        requires within { length infos.now ≤ PARAGRAPH_LIMIT }
        requires ordered { AreStarts (length infos.now) starts.now }
        ensures starts { OnOk result (self.new.starts ≡ starts.now) }
        ensures shown { OnOk result (self.new.shown
            ≡ shown_from margin (length infos.now) infos.now starts.now) }
    {
        self.line = None;
        self.items.clear();
        self.items.extend_from_slice(starts)?;
        fill_shown(infos, ByColumns, margin, &mut self.items)
    }

    /// Replaces the extents with those of the lines of a paragraph, of which those of a window of `len`
    /// characters replace the ones in `gap`. The lines after the gap move with their characters.
    pub(crate) fn put_spliced(
        &mut self,
        old: &Extents,
        gap: Gap,
        window: &Extents,
        len: usize,
    ) -> Result<(), AllocError>
        requires limit { gap.start + len ≤ PARAGRAPH_LIMIT }
        requires old { length old.now.shown ≡ length old.now.starts }
        requires window { length window.now.shown ≡ length window.now.starts }
        requires fits { All (λ start. moved_start 0 gap.start start < 2 ^ 32) window.now.starts }
        requires after { All (λ start. gap.end ≤ start) (drop gap.end_line old.now.starts) }
        requires fits_after { All (λ start. moved_start gap.end (gap.start + len) start < 2 ^ 32)
            (drop gap.end_line old.now.starts) }
        ensures starts { OnOk result
            (self.new.starts ≡ spliced_starts gap len old.now.starts window.now.starts) }
        ensures shown { OnOk result
            (self.new.shown ≡ spliced_shown gap old.now.shown window.now.shown) }
    {
        let (starts, between) = (old.starts(), window.starts());
        let line = gap.line.min(starts.len());
        let end_line = gap.end_line.min(starts.len());
        let count = line + between.len() + (starts.len() - end_line);
        self.line = None;
        self.items.clear();
        let items = &mut self.items;
        reserve(items, count.saturating_mul(3))?;
        items.extend_from_slice(&starts[..line])?;
        push_starts(between, 0, gap.start, items)?;
        push_starts(&starts[end_line..], gap.end, gap.start + len, items)?;
        old.push_shown(0, line, items)?;
        window.push_shown(0, between.len(), items)?;
        old.push_shown(end_line, starts.len(), items)
    }

    // Appends the length and the columns of the shown parts of lines `from..to`.
    fn push_shown(&self, from: usize, to: usize, list: &mut Vec<u32>) -> Result<(), AllocError>
        requires order { from ≤ to }
        requires within { to ≤ length self.now.starts }
        ensures { OnOk result
            (list.new.items ≡ list.old.items ++ in_pairs (slice_range self.now.shown from to)) }
    {
        match self.line {
            Some(shown) => {
                if from < to {
                    list.push(shown.len)?;
                    list.push(shown.columns)?;
                }
                Ok(())
            }
            None => {
                let count = self.items.len() / 3;
                list.extend_from_slice(&self.items[count + 2 * from..count + 2 * to])
            }
        }
    }

    /// Finds where each line of a paragraph starts, and how much of it is shown. The ruler's sizes must be
    /// the advances, or `None` if the paragraph is not measured. `infos` need not contain the cluster ends.
    pub(crate) fn find(
        &mut self,
        clusters: &mut ClusterBuffers,
        text: &[char],
        infos: &mut [CharInfo],
        ruler: Ruler<Option<&[u32]>>,
        options: Options,
        filled: Counted,
    ) -> Result<(), AllocError>
        requires counted { filled ≡ length text.now }
        requires len { length infos.old ≡ length text.now }
        requires within { length text.now ≤ PARAGRAPH_LIMIT }
        requires room { IfSome ruler.sizes (λ list. sum list.now < 2 ^ 32) }
        ensures starts { OnOk result (self.new.starts ≡ line_starts_of options.nobreak ruler.entry.width
            (sized (option_map (λ list. list.now) ruler.entry.sizes)
            (with_ends infos.old (cluster_ends text.now)))) }
        ensures shown { OnOk result (self.new.shown
            ≡ shown_from (margin_of options ruler.entry.width) (length text.now)
            (sized (option_map (λ list. list.now) ruler.entry.sizes)
            (with_ends infos.old (cluster_ends text.now)))
            self.new.starts) }
        ensures ordered { OnOk result (AreStarts (length text.now) self.new.starts) }
    {
        let width = ruler.width;
        match ruler.sizes {
            None => {
                let sizes = ByColumns;
                self.find_by(
                    clusters,
                    text,
                    infos,
                    Ruler { sizes, width },
                    options,
                    filled,
                )
            }
            Some(advances) => {
                let sizes = ByAdvances { advances };
                self.find_by(
                    clusters,
                    text,
                    infos,
                    Ruler { sizes, width },
                    options,
                    filled,
                )
            }
        }
    }

    // Implements `find`.
    fn find_by<S: Sizes>(
        &mut self,
        clusters: &mut ClusterBuffers,
        text: &[char],
        infos: &mut [CharInfo],
        ruler: Ruler<S>,
        options: Options,
        filled: Counted,
    ) -> Result<(), AllocError>
        requires counted { filled ≡ length text.now }
        requires len { length infos.old ≡ length text.now }
        requires within { length text.now ≤ PARAGRAPH_LIMIT }
        requires room { (k : ℕ) → k ≤ length text.now → S.most ruler.sizes k < 2 ^ 32 }
        ensures starts { OnOk result (self.new.starts ≡ line_starts_of options.nobreak ruler.width
            (sized (S.given ruler.sizes) (with_ends infos.old (cluster_ends text.now)))) }
        ensures shown { OnOk result (self.new.shown
            ≡ shown_from (margin_of options ruler.width) (length text.now)
            (sized (S.given ruler.sizes) (with_ends infos.old (cluster_ends text.now))) self.new.starts) }
        ensures ordered { OnOk result (AreStarts (length text.now) self.new.starts) }
    {
        self.line = None;
        let items = &mut self.items;
        line_starts(clusters, text, infos, ruler, options.nobreak, items, filled)?;
        fill_shown(
            infos,
            ruler.sizes,
            options.margin(ruler.width),
            &mut self.items,
        )
    }
}

/// Returns the end of a line: the start of the next one, or the end of the paragraph.
pub(crate) fn end_of(starts: &[u32], k: usize, len: usize) -> usize
    requires { k < length starts.now }
    ensures end { result ≡ end_of len starts.now k }
    ensures within { AreStarts len starts.now → (slice_index starts.now k < result) × (result ≤ len) }
{
    if k + 1 < starts.len() {
        starts[k + 1] as usize
    } else {
        len
    }
}

// Returns the items of `ends` for the characters from `start` up to `end`, or an empty list if `ends` is
// empty.
fn ends_between(ends: &[bool], start: usize, end: usize) -> &[bool]
    requires { start ≤ end }
    ensures { result.now ≡ slice_range ends.now start end }
{
    let len = ends.len();
    &ends[start.min(len)..end.min(len)]
}
