//! Lays out paragraphs that an edit has made of laid-out ones.
ghost use Rattle.std.specs.Prelude.{◌≡◌, ◌^◌, ◌<◌, ◌≤◌, List, None, Some, length, option_map, sum};
ghost use Rattle.std.specs.Prelude.{IfOk};
ghost use Rattle.lines.specs.Engine.{rules_of, FillsAtMost, LaysOutAtMost, SameRules};
ghost use Rattle.lines.specs.HeldLayouts.{HoldsLayout};
ghost use Rattle.lines.specs.Layouts.{layout_of, visuals, with_advances};
ghost use Rattle.lines.specs.Layouts.{HaveRoom, IsLaidAt, IsParagraph};
ghost use Rattle.lines.specs.Matching.{ShareEnds};
ghost use Rattle.lines.specs.SameKind.{IsEdited, IsInRun, MakesText};
ghost use Rattle.lines.specs.declared.engine.TheConstants.{PARAGRAPH_LIMIT};

use crate::buffers::LayoutBuffers;
use crate::changed::Change;
use crate::engine::Engine;
use crate::fill::Fill;
use crate::laid::{Laid, put_all_widths, with_room};
use crate::matching::SharedLines;
use crate::paragraph::LentRules;
use crate::same_kind::{Replacement, RunChange, run_of};
use crate::sizes::Ruler;
use crate::windows::is_long;
use crate::workspace::ready;
use std::alloc::{AllocError, Global};

impl Engine {
    /// Lays out a paragraph that an edit has made of a laid-out one, with the same result as `lay_out`. If
    /// all inserted and removed characters are of the same kind as a character next to them, copies the
    /// levels and break marks, and analyses nothing. This requires a kind that can be doubled (see
    /// `bidi::doubling_keeps_levels` and `breaks::doubling_keeps_marks`). In a long paragraph, fills only
    /// the lines around the edit. Also returns how many lines at both ends are known to be the old ones. The
    /// old paragraph must have been laid out with this engine's tables and options, and at the same width.
    pub fn lay_out_edited(
        &mut self,
        alloc: Global,
        old: &Laid,
        edit: Replacement,
        text: Vec<char>,
        width: u32,
    ) -> Result<(Laid, SharedLines), AllocError>
        requires laid { IsLaidAt (with_advances (rules_of self.old) old.now.advances) width old.now }
        requires edit { IsEdited old.now.text text.items edit }
        requires paragraph { IsParagraph (rules_of self.old) text.items }
        requires width { 0 < width }
        ensures ok { IfOk result (λ done. done.0 ≡ layout_of (rules_of self.old) width text.items) }
        ensures shared { IfOk result (λ done. ShareEnds (visuals old.now) (visuals done.0)
            done.1.front done.1.back) }
        ensures run { IfOk result (λ done. IsInRun (rules_of self.old).tables old.now.text text.items edit
            → FillsAtMost (length text.items) self.old self.new) }
        ensures at_most { LaysOutAtMost (length text.items) self.old self.new }

        // The engine's own rules are those for text that is not measured.
        ensures unmeasured { (rules_of self.old).advances ≡ None }
        ensures rules { SameRules self.old self.new }
    {
        let Some(run) = run_of(&self.tables, old.text(), &text, edit) else {
            return self.lay_out_again(alloc, old, edit, text, width);
        };
        let mut lists = LayoutBuffers::new(alloc);
        let change = RunChange { laid: old, run };
        let (base, shared) = self.fill_run(alloc, change, &text, None, width, &mut lists)?;
        let laid = Laid {
            text,
            base,
            tab_width: self.tab_width(),
            is_measured: false,
            sizes: Vec::new(alloc),
            levels: lists.levels,
            marks: lists.marks,
            ends: lists.ends,
            lines: Fill::of(lists.lines),
        };
        Ok((laid, shared))
    }

    // Implements `lay_out_edited` if a new analysis is needed.
    fn lay_out_again(
        &mut self,
        alloc: Global,
        old: &Laid,
        edit: Replacement,
        text: Vec<char>,
        width: u32,
    ) -> Result<(Laid, SharedLines), AllocError>
        requires laid { IsLaidAt (with_advances (rules_of self.old) old.now.advances) width old.now }
        requires edit { IsEdited old.now.text text.items edit }
        requires paragraph { IsParagraph (rules_of self.old) text.items }
        requires width { 0 < width }
        ensures ok { IfOk result (λ done. done.0 ≡ layout_of (rules_of self.old) width text.items) }
        ensures shared { IfOk result (λ done. ShareEnds (visuals old.now) (visuals done.0)
            done.1.front done.1.back) }
        ensures at_most { LaysOutAtMost (length text.items) self.old self.new }
        ensures unmeasured { (rules_of self.old).advances ≡ None }
        ensures rules { SameRules self.old self.new }
    {
        if !is_long(&text, width) {
            return match self.lay_out(alloc, text, width) {
                Ok(laid) => Ok((laid, SharedLines::NONE)),
                Err((_text, error)) => Err(error),
            };
        }
        let mut lists = LayoutBuffers::new(alloc);
        let (base, shared) = self.fill_changed(alloc, old, edit, &text, width, &mut lists)?;
        let laid = Laid {
            text,
            base,
            tab_width: self.tab_width(),
            is_measured: false,
            sizes: Vec::new(alloc),
            levels: lists.levels,
            marks: lists.marks,
            ends: lists.ends,
            lines: Fill::of(lists.lines),
        };
        Ok((laid, shared))
    }

    /// Lays out a measured paragraph that an edit has made of a laid-out one, with the same result as
    /// `lay_out_measured`. Analyses nothing in the cases in which `lay_out_edited` analyses nothing.
    pub fn lay_out_measured_edited(
        &mut self,
        alloc: Global,
        old: &Laid,
        edit: Replacement,
        text: Vec<char>,
        advances: Vec<u32>,
        width: u32,
    ) -> Result<(Laid, SharedLines), AllocError>
        requires laid { IsLaidAt (with_advances (rules_of self.old) old.now.advances) width old.now }
        requires edit { IsEdited old.now.text text.items edit }
        requires paragraph { IsParagraph (rules_of self.old) text.items }
        requires width { 0 < width }
        requires len { length advances.items ≡ length text.items }
        requires room { sum advances.items < 2 ^ 32 }
        ensures ok { IfOk result (λ done. done.0
            ≡ layout_of (with_advances (rules_of self.old) (Some advances.items)) width text.items) }
        ensures shared { IfOk result (λ done. ShareEnds (visuals old.now) (visuals done.0)
            done.1.front done.1.back) }
        ensures run { IfOk result (λ done. IsInRun (rules_of self.old).tables old.now.text text.items edit
            → FillsAtMost (length text.items) self.old self.new) }
        ensures at_most { LaysOutAtMost (length text.items) self.old self.new }
        ensures rules { SameRules self.old self.new }
    {
        let Some(run) = run_of(&self.tables, old.text(), &text, edit) else {
            let laid = self.lay_out_measured(alloc, text, advances, width)?;
            return Ok((laid, SharedLines::NONE));
        };
        let mut lists = LayoutBuffers::new(alloc);
        let change = RunChange { laid: old, run };
        let (base, shared) = self.fill_run(
            alloc,
            change,
            &text,
            Some(&advances),
            width,
            &mut lists,
        )?;
        let tab_width = self.tab_width();
        let lines = Fill::of(lists.lines);
        let mut sizes = with_room(advances, tab_width)?;
        put_all_widths(true, &text, tab_width, &lines, &mut sizes);
        let laid = Laid {
            text,
            base,
            tab_width,
            is_measured: true,
            sizes,
            levels: lists.levels,
            marks: lists.marks,
            ends: lists.ends,
            lines,
        };
        Ok((laid, shared))
    }

    // Does the same as `fill_lists` for a paragraph that a run edit has made of a laid-out one, but analyses
    // nothing. Also returns which lines are known to be the old ones.
    fn fill_run(
        &mut self,
        alloc: Global,
        change: RunChange<'_>,
        text: &[char],
        advances: Option<&[u32]>,
        width: u32,
        lists: &mut LayoutBuffers,
    ) -> Result<(u8, SharedLines), AllocError>
        requires change { MakesText (rules_of self.old) width change text.now }
        requires limit { length text.now ≤ PARAGRAPH_LIMIT }
        requires room { HaveRoom (option_map (λ list. list.now) advances) }
        ensures layout { IfOk result (λ done. HoldsLayout (with_advances (rules_of self.old)
            (option_map (λ list. list.now) advances.entry)) width text.now done.0 lists.new) }
        ensures shared { IfOk result (λ done. ShareEnds (visuals change.entry.laid.now)
            (visuals (layout_of (with_advances (rules_of self.old)
            (option_map (λ list. list.now) advances.entry)) width text.now)) done.1.front done.1.back) }
        ensures unmeasured { (rules_of self.old).advances ≡ None }
        ensures at_most { FillsAtMost (length text.now) self.old self.new }
        ensures rules { SameRules self.old self.new }
    {
        let work = ready(&mut self.work, alloc)?;
        work.lend_lists(text.len(), lists);
        let counts = &mut self.counts;
        let rules = LentRules {
            tables: &self.tables,
            options: self.options,
        };
        let ruler = Ruler {
            sizes: advances,
            width,
        };
        let done = work.lay_out_run(&rules, change, text, ruler, lists, counts)?;
        Ok(done)
    }

    // Does the same as `fill_lists` for a long paragraph that an edit has made of a laid-out one, but fills
    // only a window of it, if possible. Also returns which lines are known to be the old ones.
    fn fill_changed(
        &mut self,
        alloc: Global,
        old: &Laid,
        edit: Replacement,
        text: &[char],
        width: u32,
        lists: &mut LayoutBuffers,
    ) -> Result<(u8, SharedLines), AllocError>
        requires laid { IsLaidAt (with_advances (rules_of self.old) old.now.advances) width old.now }
        requires edit { IsEdited old.now.text text.now edit }
        requires limit { length text.now ≤ PARAGRAPH_LIMIT }
        ensures layout { IfOk result (λ done.
            HoldsLayout (rules_of self.old) width text.now done.0 lists.new) }
        ensures shared { IfOk result (λ done. ShareEnds (visuals old.now)
            (visuals (layout_of (rules_of self.old) width text.now)) done.1.front done.1.back) }
        ensures unmeasured { (rules_of self.old).advances ≡ None }
        ensures at_most { LaysOutAtMost (length text.now) self.old self.new }
        ensures rules { SameRules self.old self.new }
    {
        let work = ready(&mut self.work, alloc)?;
        work.lend_lists(text.len(), lists);
        let counts = &mut self.counts;
        let rules = LentRules {
            tables: &self.tables,
            options: self.options,
        };
        let change = Change { laid: old, edit };
        let done = work.lay_out_changed(&rules, change, text, width, lists, counts)?;
        Ok(done)
    }
}
