//! Sets the advances of characters of a measured text. Everything that can fail happens before the store is
//! changed.
ghost use Rattle.std.specs.Prelude.{◌≡◌, ◌+◌, ◌-◌, ◌^◌, ◌<◌, ◌≤◌, nat_lt, true, ℕ, List, Some, None};
ghost use Rattle.std.specs.Prelude.{drop, length, slice_index, sum, take, IfErr, IfOk, IsErrOf, OnErr};
ghost use Rattle.std.specs.List.{All, concat, slice_range};
ghost use Rattle.lines.specs.Engine.{rules_of, FillsAtMost, SameRules};
ghost use Rattle.lines.specs.Layouts.{with_advances};
ghost use Rattle.session.specs.Changes.{AreFound};
ghost use Rattle.session.specs.Edits.{have_room};
ghost use Rattle.session.specs.Kept.{layouts_from, pars_of, text_of, IsFresh};
ghost use Rattle.session.specs.Measuring.{spliced, SetsAdvances, SetsAdvancesNot};
ghost use Rattle.session.specs.Sessions.{state_of, IsWholeLayout};
ghost use Rattle.session.specs.declared.edits.AdvanceFault.TheVariants.{NoMemory};

use crate::borders::{Border, back_part, front_border, front_part, last_touched};
use crate::edits::{AdvanceFault, ChangedLines, Damage};
use crate::joined::Form;
use crate::kept::Kept;
use crate::replace::put;
use bidi::paragraphs_are_pieces;
use lines::{Engine, SharedLines, lines_are_few};
use std::alloc::{AllocError, Global};
use store::{Measured, ParagraphStore};

/// The advances of the paragraphs that overlap a range. `front` holds those before the range in the first
/// paragraph, `new` those of the range, and `back` those after the range in the last paragraph.
#[derive(Clone, Copy, Debug)]
pub struct Spliced<'a> {
    pub front: &'a [u32],
    pub new: &'a [u32],
    pub back: &'a [u32],
}

impl Spliced<'_> {
    // Returns the advance at an index, counted from the start of the first paragraph.
    fn get(&self, index: usize) -> u32
        requires { index < length (spliced self.now) }
        ensures { result ≡ slice_index (spliced self.now) index }
    {
        if index < self.front.len() {
            return self.front[index];
        }
        let rest = index - self.front.len();
        if rest < self.new.len() {
            return self.new[rest];
        }
        self.back[rest - self.new.len()]
    }

    // Returns whether `len` advances from an index on add up to less than 2^32.
    fn fit(&self, from: usize, len: usize) -> bool
        requires { from + len ≤ length (spliced self.now) }
        ensures { result ≡ nat_lt (sum (take len (drop from (spliced self.now)))) (2 ^ 32) }
    {
        let mut total: u32 = 0;
        for k in 0..len {
            match total.checked_add(self.get(from + k)) {
                Some(sum) => total = sum,
                None => return false,
            }
        }
        true
    }

    // Copies `len` advances from an index on.
    fn collect(&self, alloc: Global, from: usize, len: usize) -> Result<Vec<u32>, AllocError>
        requires { from + len ≤ length (spliced self.now) }
        ensures { IfOk result (λ list. list.items ≡ take len (drop from (spliced self.now))) }
    {
        let mut list = Vec::with_capacity(alloc, len)?;
        for k in 0..len {
            list.push(self.get(from + k))?;
        }
        Ok(list)
    }
}

// Returns whether the new advances of each paragraph from index `first` up to `end` add up to less than 2^32.
fn has_room<S: ParagraphStore<Kept>>(
    store: &S,
    first: usize,
    end: usize,
    list: &Spliced<'_>,
) -> bool
    requires order { first ≤ end }
    requires within { end ≤ length (S.items store.now) }
    requires each { length (spliced list.now)
        ≡ length (concat (slice_range (pars_of (S.items store.now)) first end)) }
    requires fits { length (spliced list.now) < 2 ^ 64 }
    ensures { result
        ≡ have_room (spliced list.now) (slice_range (pars_of (S.items store.now)) first end) }
{
    let mut from = 0;
    for i in first..end {
        match store.get(i) {
            Some(kept) => {
                if !list.fit(from, kept.chars()) {
                    return false;
                }
                from += kept.chars();
            }
            None => unreachable!(),
        }
    }
    true
}

// Lays out the paragraphs from index `first` up to `end` again, with their new advances.
fn remeasure_each<S: ParagraphStore<Kept>>(
    alloc: Global,
    engine: &mut Engine,
    store: &S,
    first: usize,
    end: usize,
    list: &Spliced<'_>,
    width: u32,
) -> Result<Vec<Kept>, AllocError>
    requires order { first ≤ end }
    requires within { end ≤ length (S.items store.now) }
    requires each { length (spliced list.now)
        ≡ length (concat (slice_range (pars_of (S.items store.now)) first end)) }
    requires fits { length (spliced list.now) < 2 ^ 64 }
    requires room { have_room (spliced list.now)
        (slice_range (pars_of (S.items store.now)) first end) ≡ true }
    requires fresh { All (IsFresh (rules_of engine.old)) (S.items store.now) }
    requires width { 0 < width }
    ensures ok { IfOk result (λ new. new.items ≡ layouts_from (with_advances (rules_of engine.old) None)
        width (Some (spliced list.now)) (slice_range (pars_of (S.items store.now)) first end)) }
    ensures rules { SameRules engine.old engine.new }
    ensures counts { FillsAtMost (length (concat (slice_range (pars_of (S.items store.now)) first end)))
        engine.old engine.new }
{
    let mut new = Vec::with_capacity(alloc, end - first)?;
    let mut from = 0;
    for i in first..end {
        match store.get(i) {
            Some(kept) => {
                let advances = list.collect(alloc, from, kept.chars())?;
                let laid = engine.remeasure(alloc, kept.laid(), advances, width)?;
                new.push(Kept::new(alloc, laid)?)?;
                from += kept.chars();
            }
            None => unreachable!(),
        }
    }
    Ok(new)
}

/// Sets the advances of the characters from `pos` on, and rewraps the paragraphs that contain these
/// characters.
pub fn set_advances<S: ParagraphStore<Kept>>(
    alloc: Global,
    engine: &mut Engine,
    store: &mut S,
    changed: &mut ChangedLines,
    form: Form,
    pos: usize,
    list: &[u32],
) -> Result<Damage, AdvanceFault>
    requires { IsWholeLayout (state_of engine.old form.width form.is_measured (S.items store.old)) }
    ensures ok { IfOk result (SetsAdvances pos list.now
        (state_of engine.old form.width form.is_measured (S.items store.old))
        (state_of engine.new form.width form.is_measured (S.items store.new))) }
    ensures err { IfErr result (SetsAdvancesNot pos list.now
        (state_of engine.old form.width form.is_measured (S.items store.old))
        (state_of engine.new form.width form.is_measured (S.items store.new))) }
    ensures changed { IfOk result (λ damage.
        AreFound (S.items store.old) (S.items store.new) damage changed.new) }
    ensures kept { OnErr result (changed.new ≡ changed.old) }
    ensures memory { IsErrOf result NoMemory → 0 < length (text_of (S.items store.old)) }
{
    if !form.is_measured {
        return Err(AdvanceFault::NotMeasured);
    }
    let len = store.total_chars();
    if pos > len || list.len() > len - pos {
        return Err(AdvanceFault::OutOfRange);
    }
    if list.is_empty() {
        *changed = ChangedLines {
            first_line: 0,
            old_lines: 0,
            new_lines: 0,
        };
        return Ok(Damage {
            first_line: 0,
            old_lines: 0,
            new_lines: 0,
            first_par: 0,
            old_pars: 0,
            new_pars: 0,
        });
    }
    // By these theorems, the paragraphs make up the text, and the sum of lines does not overflow.
    paragraphs_are_pieces();
    lines_are_few();
    let end = pos + list.len();
    let front = front_border(store, pos + 1);
    let first = store.get(front.index);
    let last = last_touched(store, front, first, end - 1);
    let back = last.end;
    let spliced = Spliced {
        front: front_part(first, front, pos).advances,
        new: list,
        back: back_part(last, end).advances,
    };
    if !has_room(store, front.index, back.index, &spliced) {
        return Err(AdvanceFault::ParagraphTooLong);
    }
    let width = form.width;
    let laid = remeasure_each(
        alloc,
        engine,
        store,
        front.index,
        back.index,
        &spliced,
        width,
    );
    let Ok(new) = laid else {
        return Err(AdvanceFault::NoMemory);
    };
    match put(engine, store, changed, front, back, new, SharedLines::NONE) {
        Ok(damage) => Ok(damage),
        Err(_) => Err(AdvanceFault::NoMemory),
    }
}
