//! Changes the width. The starts and shown lengths of all lines that change are found before any line is
//! overwritten.
ghost use Rattle.std.specs.Prelude.{◌≡◌, ◌^◌, ◌<◌, ◌≤◌, ℕ, Bool, false, true, is_none, length, map, sum_by};
ghost use Rattle.std.specs.Prelude.{IfOk, IfErr, IfSome, IsErrOf, OnErr, OnOk};
ghost use Rattle.std.specs.List.{All, AllZip};
ghost use Rattle.lines.specs.Engine.{rules_of, FindsExtents, FindsExtentsAtMost, SameRules};
ghost use Rattle.lines.specs.Engine.{Rewrites, RewritesAtMost};
ghost use Rattle.lines.specs.Layouts.{keeps_lines};
ghost use Rattle.session.specs.Changes.{AreFound};
ghost use Rattle.session.specs.Sessions.{state_of, IsWholeLayout, SetsWidth, SetsWidthNot};
ghost use Rattle.session.specs.Kept.{changed, changed_in, put_into, written_for};
ghost use Rattle.session.specs.Kept.{BringsTo, CanBePut, IsFresh};
ghost use Rattle.session.specs.declared.edits.EditFault.TheVariants.{NoMemory};
ghost use Rattle.store.specs.Exchanging.{pairwise, total_cost};

use crate::changed::{staying_at_end, staying_at_start, without_same};
use crate::edits::{ChangedLines, Damage, EditFault};
use crate::joined::Form;
use crate::kept::{Kept, Reflow};
use bidi::paragraphs_are_pieces;
use lines::{Engine, Extents, Laid, ReflowScratch, lines_are_few};
use std::alloc::{AllocError, Global};
use store::{Measured, ParagraphStore};

// Returns the extents of a paragraph's lines at another width, or `None` if its lines do not change.
fn find_one(
    alloc: Global,
    engine: &mut Engine,
    laid: &Laid,
    width: u32,
) -> Result<Option<Extents>, AllocError>
    requires laid { IsFresh (rules_of engine.old) laid.now }
    requires width { 0 < width }
    ensures ok { IfOk result (BringsTo (rules_of engine.old) width laid.now) }
    ensures kept { IfOk result (λ part.
        is_none part ≡ keeps_lines (rules_of engine.old) width laid.now) }
    ensures memory { OnErr result (keeps_lines (rules_of engine.old) width laid.now ≡ false) }
    ensures unfilled { keeps_lines (rules_of engine.old) width laid.now ≡ true
        → engine.new ≡ engine.old }
    ensures rules { SameRules engine.old engine.new }
    ensures exact { OnOk result (FindsExtents (changed_in (rules_of engine.old) width laid.now)
        engine.old engine.new) }
    ensures counts { FindsExtentsAtMost (changed_in (rules_of engine.old) width laid.now)
        engine.old engine.new }
{
    // The contract of `filled` bounds the count.
    let _filled = engine.filled();
    if engine.keeps_lines(laid, width) {
        return Ok(None);
    }
    Ok(Some(engine.extents(alloc, laid, width)?))
}

// Returns the extents of each paragraph's lines at another width, or `None` for a paragraph whose lines do
// not change.
fn find_each(
    alloc: Global,
    engine: &mut Engine,
    list: &[&Kept],
    width: u32,
) -> Result<Vec<Option<Extents>>, AllocError>
    requires laid { All (IsFresh (rules_of engine.old)) (map (λ kept. kept.now) list.now) }
    requires width { 0 < width }
    ensures ok { IfOk result (λ parts.
        AllZip (BringsTo (rules_of engine.old) width) (map (λ kept. kept.now) list.now) parts.items) }
    ensures memory { OnErr result (0 < length list.now) }
    ensures rules { SameRules engine.old engine.new }
    ensures exact { OnOk result (FindsExtents
        (changed (rules_of engine.old) width (map (λ kept. kept.now) list.now)) engine.old engine.new) }
    ensures counts { FindsExtentsAtMost
        (changed (rules_of engine.old) width (map (λ kept. kept.now) list.now)) engine.old engine.new }
{
    // The contract of `filled` bounds the count.
    let _filled = engine.filled();
    let mut parts = Vec::with_capacity(alloc, list.len())?;
    for kept in list {
        parts.push(find_one(alloc, engine, kept.laid(), width)?)?;
    }
    Ok(parts)
}

// Returns the length of the longest paragraph, or 0 if there are no paragraphs.
fn longest(list: &[&Kept]) -> usize
    ensures all { All (λ kept. length kept.text ≤ result) (map (λ kept. kept.now) list.now) }
    ensures least { (n : ℕ) → All (λ kept. length kept.text ≤ n) (map (λ kept. kept.now) list.now)
        → result ≤ n }
    ensures none { length list.now ≡ 0 → result ≡ 0 }
{
    let mut most = 0;
    for kept in list {
        most = most.max(kept.chars());
    }
    most
}

// Returns the extents of all lines that change at another width, and the scratch space for writing these
// lines.
fn find_all<S: ParagraphStore<Kept>>(
    alloc: Global,
    engine: &mut Engine,
    store: &S,
    width: u32,
) -> Result<(Vec<Option<Extents>>, ReflowScratch), AllocError>
    requires laid { (old : ℕ) × (is_measured : Bool)
        × IsWholeLayout (state_of engine.old old is_measured (S.items store.now)) }
    requires width { 0 < width }
    ensures ok { IfOk result (λ found.
        AllZip (BringsTo (rules_of engine.old) width) (S.items store.now) found.0.items) }
    ensures scratch { IfOk result (λ found.
        All (λ kept. length kept.text ≤ found.1.len) (S.items store.now)) }
    ensures least { (n : ℕ) → All (λ kept. length kept.text ≤ n) (S.items store.now)
        → IfOk result (λ found. found.1.len ≤ n) }
    ensures unwritten { IfOk result (λ found. found.1.written ≡ 0) }
    ensures memory { OnErr result (0 < length (S.items store.now)) }
    ensures rules { SameRules engine.old engine.new }
    ensures exact { OnOk result (FindsExtents (changed (rules_of engine.old) width (S.items store.now))
        engine.old engine.new) }
    ensures counts { FindsExtentsAtMost (changed (rules_of engine.old) width (S.items store.now))
        engine.old engine.new }
{
    // By this theorem, the text of each layout is one paragraph.
    paragraphs_are_pieces();
    let list = store.list(alloc)?;
    let parts = find_each(alloc, engine, &list, width)?;
    let scratch = engine.reflow_scratch(alloc, longest(&list))?;
    Ok((parts, scratch))
}

// Overwrites all lines that change, given the extents of the new lines.
fn reflow_all<S: ParagraphStore<Kept>>(
    engine: &mut Engine,
    store: &mut S,
    parts: &mut Vec<Option<Extents>>,
    scratch: ReflowScratch,
)
    requires fit { AllZip (λ kept part. IfSome part
        (CanBePut (record { rules = rules_of engine.old; capacity = scratch.len }) kept))
        (S.items store.old) parts.old.items }
    requires lines_fit { sum_by (λ kept. length kept.lines) (pairwise
        (put_into (record { rules = rules_of engine.old; capacity = scratch.len }))
        (S.items store.old) parts.old.items) < 2 ^ 64 }
    requires unwritten { scratch.written ≡ 0 }
    ensures items { S.items store.new ≡ pairwise
        (put_into (record { rules = rules_of engine.old; capacity = scratch.len }))
        (S.items store.old) parts.old.items }
    ensures rules { SameRules engine.old engine.new }
    ensures counts { Rewrites (total_cost written_for (S.items store.old) parts.old.items)
        engine.old engine.new }
    ensures at_most { RewritesAtMost (total_cost written_for (S.items store.old) parts.old.items)
        engine.old engine.new }
{
    let mut reflow = Reflow { engine, scratch };
    store.exchange_all_by(&mut reflow, parts);
    let Reflow { engine: _, scratch } = reflow;
    engine.take_back(scratch);
}

/// Sets the width and rewraps every paragraph. Everything that can fail happens before the store is changed.
pub fn set_width<S: ParagraphStore<Kept>>(
    alloc: Global,
    engine: &mut Engine,
    store: &mut S,
    changed: &mut ChangedLines,
    form: &mut Form,
    new_width: u32,
) -> Result<Damage, EditFault>
    requires { IsWholeLayout
        (state_of engine.old form.old.width form.old.is_measured (S.items store.old)) }
    ensures ok { IfOk result (SetsWidth new_width
        (state_of engine.old form.old.width form.old.is_measured (S.items store.old))
        (state_of engine.new form.new.width form.new.is_measured (S.items store.new))) }
    ensures err { IfErr result (SetsWidthNot new_width
        (state_of engine.old form.old.width form.old.is_measured (S.items store.old))
        (state_of engine.new form.new.width form.new.is_measured (S.items store.new))) }
    ensures changed { IfOk result (λ damage.
        AreFound (S.items store.old) (S.items store.new) damage changed.new) }
    ensures kept { OnErr result (changed.new ≡ changed.old) }
    ensures measured { form.new.is_measured ≡ form.old.is_measured }
    ensures memory { IsErrOf result NoMemory → 0 < length (S.items store.old) }
{
    if new_width == 0 {
        return Err(EditFault::WidthOutOfRange);
    }
    // By these theorems, the new lines belong to the paragraphs, and the sum of lines does not overflow.
    paragraphs_are_pieces();
    lines_are_few();
    let Ok((mut parts, scratch)) = find_all(alloc, engine, store, new_width) else {
        return Err(EditFault::NoMemory);
    };
    let start = staying_at_start(store, &parts);
    let end = staying_at_end(store, &parts);
    let (count, old_lines) = (store.count(), store.total_lines());
    reflow_all(engine, store, &mut parts, scratch);
    form.width = new_width;
    let damage = Damage {
        first_line: 0,
        old_lines,
        new_lines: store.total_lines(),
        first_par: 0,
        old_pars: count,
        new_pars: count,
    };
    *changed = without_same(damage, start, end);
    Ok(damage)
}
