//! Lays out a paragraph, and keeps its layout.
ghost use Rattle.std.specs.Prelude.{◌≡◌, ◌<◌, ◌≤◌, length, None, IfOk, OnErr, OnOk};
ghost use Rattle.lines.specs.Bare.{with_ends};
ghost use Rattle.lines.specs.Buffers.{held_lines, AreSound};
ghost use Rattle.lines.specs.CharInfos.{infos_of};
ghost use Rattle.lines.specs.Clusters.{cluster_ends};
ghost use Rattle.lines.specs.Engine.{counted, RisesBy};
ghost use Rattle.lines.specs.Layouts.{AreWithin, HaveRoom, lines_of};
ghost use Rattle.lines.specs.OneLine.{IsOneLine};
ghost use Rattle.lines.specs.Paragraphs.{HasEnds, IsLookedUp, IsPrepared, advances_in, lines_at};
ghost use Rattle.lines.specs.Paragraphs.{rules_by};
ghost use Rattle.lines.specs.declared.engine.TheConstants.{PARAGRAPH_LIMIT};

use crate::buffers::{LayoutBuffers, LineBuffers};
use crate::changed::{Change, changed};
use crate::char_info::{CharInfo, InfoBuffers};
use crate::clusters::ClusterBuffers;
use crate::counts::{Count, Counted, Counts};
use crate::fill::Shown;
use crate::laid::Laid;
use crate::matching::SharedLines;
use crate::one_line::one_line;
use crate::paragraph::{LentRules, Paragraph, Text};
use crate::properties::fill_properties;
use crate::same_kind::{Replacement, RunChange, put_levels, put_marks};
use crate::showing::show_lines;
use crate::sizes::Ruler;
use crate::windows::Edited;
use crate::workspace::{Workspace, fill_ends, fill_marks};
use bidi::doubling_keeps_levels;
use breaks::{doubling_keeps_marks, marks_are_as_many};
use std::alloc::{AllocError, Global};

impl Workspace {
    ghost use Rattle.lines.specs.Counts.{LaysOutAll, LaysOutSome};
    ghost use Rattle.lines.specs.Engine.{counted};
    ghost use Rattle.std.specs.Prelude.{option_map};
    ghost use Rattle.bidi.specs.Levels.{levels_of};
    ghost use Rattle.breaks.specs.Marks.{marks_of};
    ghost use Rattle.lines.specs.Layouts.{AreWithin, HaveRoom, base_of, layout_of, lines_of, visuals};
    ghost use Rattle.lines.specs.Layouts.{with_advances};
    ghost use Rattle.lines.specs.Matching.{ShareEnds};
    ghost use Rattle.lines.specs.Buffers.{held_lines, AreSound};
    ghost use Rattle.lines.specs.Paragraphs.{rules_in};
    ghost use Rattle.lines.specs.Reordering.{ends_by};
    ghost use Rattle.lines.specs.Counts.{FillsSome};
    ghost use Rattle.lines.specs.HeldLayouts.{HoldsLayout};
    ghost use Rattle.lines.specs.SameKind.{MakesText};

    /// Lays out a paragraph. Returns its base level, and replaces the contents of `kept` with the rest of its
    /// layout.
    pub(crate) fn lay_out(
        &mut self,
        rules: &LentRules<'_>,
        text: &[char],
        advances: Option<&[u32]>,
        width: u32,
        kept: &mut LayoutBuffers,
        counts: &mut Counts,
    ) -> Result<u8, AllocError>
        requires limit { length text.now ≤ PARAGRAPH_LIMIT }
        requires room { HaveRoom (option_map (λ list. list.now) advances) }
        ensures layout { IfOk result (λ base. HoldsLayout (with_advances (rules_in rules.now)
            (option_map (λ list. list.now) advances.entry)) width text.now base kept.new) }
        ensures counts { OnOk result (LaysOutAll (length text.now) counts.old counts.new) }
        ensures unwritten { OnErr result (counts.new.written ≡ counts.old.written) }
        ensures at_most { LaysOutSome (length text.now) counts.old counts.new }
        ensures analysed { counts.new.analysed ≡ counted counts.old.analysed (length text.now) }
        ensures filled { counts.new.filled ≡ counted counts.old.filled (length text.now) }
    {
        let filled = counts.take_filled(text.len());
        let analysis = &mut self.analysis;
        let base = analysis.resolve(rules, text, &mut kept.levels, &mut counts.analysed)?;
        fill_ends(&mut self.clusters, rules.options, text, &mut kept.ends)?;
        let text = Text {
            rules: *rules,
            characters: text,
            properties: &analysis.properties[..text.len()],
            ends: &kept.ends,
            base,
        };
        fill_marks(&text, &mut kept.marks)?;
        let paragraph = Paragraph {
            text,
            advances,
            levels: &kept.levels,
            marks: &kept.marks,
        };
        let (clusters, infos) = (&mut self.clusters, &mut self.infos);
        let (lines, written) = (&mut kept.lines, &mut counts.written);
        fill_lines(clusters, &paragraph, infos, width, lines, filled, written)?;
        Ok(base)
    }

    /// Lays out a paragraph that a run edit has made of a laid-out one. The levels and marks are those of the
    /// old paragraph, with those of the new run. Returns the base level and which lines are known to be the
    /// old ones, and replaces the contents of `kept` with the rest of the layout.
    pub(crate) fn lay_out_run(
        &mut self,
        rules: &LentRules<'_>,
        change: RunChange<'_>,
        text: &[char],
        ruler: Ruler<Option<&[u32]>>,
        kept: &mut LayoutBuffers,
        counts: &mut Counts,
    ) -> Result<(u8, SharedLines), AllocError>
        requires change { MakesText (rules_in rules.now) ruler.width change text.now }
        requires limit { length text.now ≤ PARAGRAPH_LIMIT }
        requires room { HaveRoom (option_map (λ list. list.now) ruler.sizes) }
        ensures layout { IfOk result (λ done. HoldsLayout (with_advances (rules_in rules.now)
            (option_map (λ list. list.now) ruler.entry.sizes)) ruler.entry.width text.now done.0 kept.new) }
        ensures shared { IfOk result (λ done. ShareEnds (visuals change.entry.laid.now)
            (visuals (layout_of (with_advances (rules_in rules.now)
            (option_map (λ list. list.now) ruler.entry.sizes)) ruler.entry.width text.now))
            done.1.front done.1.back) }
        ensures at_most { FillsSome (length text.now) counts.old counts.new }
    {
        // By these theorems, the run edit changes no other level or mark.
        doubling_keeps_levels();
        doubling_keeps_marks();
        marks_are_as_many(
            rules.tables,
            change.laid.text(),
            rules.options.whole_numbers,
        );
        marks_are_as_many(rules.tables, text, rules.options.whole_numbers);
        let RunChange { laid, run } = change;
        put_levels(laid.levels(), run, &mut kept.levels)?;
        put_marks(laid.marks(), run, &mut kept.marks)?;
        fill_ends(&mut self.clusters, rules.options, text, &mut kept.ends)?;
        let edited = Edited {
            rules: *rules,
            laid,
            edit: Replacement {
                at: run.at,
                removed: run.old_len,
                inserted: run.new_len,
            },
            base: laid.base(),
            text,
            levels: &kept.levels,
            marks: &kept.marks,
            width: ruler.width,
        };
        let lines = &mut kept.lines;
        let shared = self.fill_edited(&edited, ruler.sizes, &kept.ends, lines, counts)?;
        Ok((laid.base(), shared))
    }
}

impl Workspace {
    ghost use Rattle.std.specs.Prelude.{◌≡◌, ◌≤◌};
    ghost use Rattle.bidi.specs.Levels.{levels_of};
    ghost use Rattle.breaks.specs.Marks.{marks_of};
    ghost use Rattle.lines.specs.Counts.{LaysOutSome};
    ghost use Rattle.lines.specs.HeldLayouts.{HoldsLayout};
    ghost use Rattle.lines.specs.Layouts.{base_of, layout_of, visuals, with_advances, IsLaidAt};
    ghost use Rattle.lines.specs.Matching.{ShareEnds};
    ghost use Rattle.lines.specs.Paragraphs.{rules_in};
    ghost use Rattle.lines.specs.Reordering.{ends_by};
    ghost use Rattle.lines.specs.SameKind.{IsEdited};

    /// Lays out a long paragraph that an edit has made of a laid-out one. Fills only a window of it if the
    /// levels and break marks outside the window are the old ones. Returns the base level and which lines are
    /// known to be the old ones, and replaces the contents of `kept` with the rest of the layout.
    pub(crate) fn lay_out_changed(
        &mut self,
        rules: &LentRules<'_>,
        change: Change<'_>,
        text: &[char],
        width: u32,
        kept: &mut LayoutBuffers,
        counts: &mut Counts,
    ) -> Result<(u8, SharedLines), AllocError>
        requires laid { IsLaidAt (with_advances (rules_in rules.now) change.laid.now.advances) width
            change.laid.now }
        requires edit { IsEdited change.laid.now.text text.now change.edit }
        requires limit { length text.now ≤ PARAGRAPH_LIMIT }
        ensures layout { IfOk result (λ done.
            HoldsLayout (rules_in rules.now) width text.now done.0 kept.new) }
        ensures shared { IfOk result (λ done. ShareEnds (visuals change.entry.laid.now)
            (visuals (layout_of (rules_in rules.now) width text.now)) done.1.front done.1.back) }
        ensures at_most { LaysOutSome (length text.now) counts.old counts.new }
    {
        let base = self.analyse(rules, text, kept, &mut counts.analysed)?;
        let Change { laid, edit } = change;
        marks_are_as_many(rules.tables, laid.text(), rules.options.whole_numbers);
        let edited = Edited {
            rules: *rules,
            laid,
            edit: changed(laid, edit, text, &kept.levels, &kept.marks),
            base,
            text,
            levels: &kept.levels,
            marks: &kept.marks,
            width,
        };
        let lines = &mut kept.lines;
        let shared = self.fill_edited(&edited, None, &kept.ends, lines, counts)?;
        Ok((base, shared))
    }

    // Finds the levels, the cluster ends and the break marks of a paragraph. Returns its base level.
    fn analyse(
        &mut self,
        rules: &LentRules<'_>,
        text: &[char],
        kept: &mut LayoutBuffers,
        analysed: &mut Count,
    ) -> Result<u8, AllocError>
        ensures base { IfOk result (λ base. base ≡ base_of (rules_in rules.now) text.now) }
        ensures levels { OnOk result
            (kept.new.levels.items ≡ levels_of rules.now.tables.now text.now rules.now.options.base) }
        ensures len { OnOk result (length kept.new.levels.items ≡ length text.now) }
        ensures ends { OnOk result (kept.new.ends.items ≡ ends_by rules.now.options text.now) }
        ensures marks { OnOk result (kept.new.marks.items
            ≡ marks_of rules.now.tables.now rules.now.options.whole_numbers text.now) }
        ensures marks_len { OnOk result (length kept.new.marks.items ≡ length text.now) }
        ensures counts { analysed.new ≡ counted analysed.old (length text.now) }
        ensures least { analysed.old ≤ analysed.new }
    {
        let analysis = &mut self.analysis;
        let base = analysis.resolve(rules, text, &mut kept.levels, analysed)?;
        fill_ends(&mut self.clusters, rules.options, text, &mut kept.ends)?;
        let text = Text {
            rules: *rules,
            characters: text,
            properties: &analysis.properties[..text.len()],
            ends: &kept.ends,
            base,
        };
        marks_are_as_many(rules.tables, text.characters, rules.options.whole_numbers);
        fill_marks(&text, &mut kept.marks)?;
        Ok(base)
    }
}

/// Replaces the contents of `lines` with the lines of a paragraph.
pub(crate) fn fill_lines(
    clusters: &mut ClusterBuffers,
    paragraph: &Paragraph<'_>,
    infos: &mut InfoBuffers,
    width: u32,
    lines: &mut LineBuffers,
    filled: Counted,
    written: &mut Count,
) -> Result<(), AllocError>
    requires counted { filled ≡ length paragraph.now.text.characters.now }
    requires paragraph { IsPrepared paragraph.now }
    ensures lines { OnOk result (held_lines lines.new
        ≡ lines_of (rules_by paragraph.now) width paragraph.now.text.characters.now) }
    ensures sound { OnOk result (AreSound lines.new) }
    ensures within { OnOk result
        (AreWithin (length paragraph.now.text.characters.now) (held_lines lines.new)) }
    ensures lines_len { OnOk result
        (length lines.new.visual.levels.items ≡ length paragraph.now.text.characters.now) }
    ensures counts { OnOk result
        (written.new ≡ counted written.old (length paragraph.now.text.characters.now)) }
    ensures unwritten { OnErr result (written.new ≡ written.old) }
    ensures at_most { RisesBy (length paragraph.now.text.characters.now) written.old written.new }
{
    infos.cache.prepare()?;
    if paragraph.advances.is_none() {
        if let Some(shown) = one_line(&paragraph.text, width, &mut infos.cache) {
            return show_one_line(paragraph, shown, width, lines, filled, written);
        }
    }
    infos.fill(&paragraph.text, paragraph.marks)?;
    let infos = &mut infos.infos[..paragraph.text.characters.len()];
    fill_lines_by(clusters, paragraph, infos, width, lines, filled, written)
}

// Replaces the contents of `lines` with the only line of a paragraph. The paragraph is not measured, and is
// one line at the given width.
fn show_one_line(
    paragraph: &Paragraph<'_>,
    shown: Shown,
    _width: u32,
    lines: &mut LineBuffers,
    filled: Counted,
    written: &mut Count,
) -> Result<(), AllocError>
    requires counted { filled ≡ length paragraph.now.text.characters.now }
    requires paragraph { IsPrepared paragraph.now }
    requires some { 0 < length paragraph.now.text.characters.now }
    requires shown { IsOneLine paragraph.now.text _width shown }
    ensures lines { OnOk result (held_lines lines.new
        ≡ lines_at None paragraph.now.text paragraph.now.levels.now _width) }
    ensures sound { OnOk result (AreSound lines.new) }
    ensures within { OnOk result
        (AreWithin (length paragraph.now.text.characters.now) (held_lines lines.new)) }
    ensures lines_len { OnOk result
        (length lines.new.visual.levels.items ≡ length paragraph.now.text.characters.now) }
    ensures counts { OnOk result
        (written.new ≡ counted written.old (length paragraph.now.text.characters.now)) }
    ensures unwritten { OnErr result (written.new ≡ written.old) }
    ensures at_most { RisesBy (length paragraph.now.text.characters.now) written.old written.new }
{
    lines.extents.put_line(shown, filled);
    show_lines(paragraph, lines, written)
}

// Replaces the contents of `lines` with the lines of a paragraph at a width. `infos` need not contain the
// cluster ends.
fn fill_lines_by(
    clusters: &mut ClusterBuffers,
    paragraph: &Paragraph<'_>,
    infos: &mut [CharInfo],
    width: u32,
    lines: &mut LineBuffers,
    filled: Counted,
    written: &mut Count,
) -> Result<(), AllocError>
    requires counted { filled ≡ length paragraph.now.text.characters.now }
    requires text { IsLookedUp paragraph.now.text }
    requires ends { HasEnds paragraph.now.text }
    requires infos { with_ends infos.old (cluster_ends paragraph.now.text.characters.now)
        ≡ infos_of paragraph.now.text.rules.tables.now paragraph.now.text.rules.options None
        paragraph.now.text.characters.now }
    requires infos_len { length infos.old ≡ length paragraph.now.text.characters.now }
    requires levels_len { length paragraph.now.levels.now ≡ length paragraph.now.text.characters.now }
    requires within { length paragraph.now.text.characters.now ≤ PARAGRAPH_LIMIT }
    requires room { HaveRoom (advances_in paragraph.now) }
    ensures lines { OnOk result (held_lines lines.new
        ≡ lines_at (advances_in paragraph.now) paragraph.now.text paragraph.now.levels.now width) }
    ensures sound { OnOk result (AreSound lines.new) }
    ensures within { OnOk result
        (AreWithin (length paragraph.now.text.characters.now) (held_lines lines.new)) }
    ensures lines_len { OnOk result
        (length lines.new.visual.levels.items ≡ length paragraph.now.text.characters.now) }
    ensures counts { OnOk result
        (written.new ≡ counted written.old (length paragraph.now.text.characters.now)) }
    ensures unwritten { OnErr result (written.new ≡ written.old) }
    ensures at_most { RisesBy (length paragraph.now.text.characters.now) written.old written.new }
{
    let (text, options) = (paragraph.text.characters, paragraph.text.rules.options);
    let advances = paragraph.advances;
    let ruler = Ruler {
        sizes: advances,
        width,
    };
    lines
        .extents
        .find(clusters, text, infos, ruler, options, filled)?;
    show_lines(paragraph, lines, written)
}
