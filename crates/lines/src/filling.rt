//! Finds where the lines of a paragraph start.
ghost use Rattle.std.specs.Prelude.{◌≡◌, ◌+◌, ◌&&◌, ◌||◌, ◌<◌, ◌≤◌, ℕ, suc, Bool, List, length, drop};
ghost use Rattle.std.specs.Prelude.{false, true, IsTrue, None, IfOk, IfSome, OnErr, OnOk};
ghost use Rattle.bidi.specs.Brackets.{greatest};
ghost use Rattle.lines.specs.Bare.{AreAlike, with_ends};
ghost use Rattle.lines.specs.CharInfos.{sized};
ghost use Rattle.lines.specs.Clusters.{cluster_ends};
ghost use Rattle.lines.specs.Filling.{by_break, cluster_ends_at, first_end, fits_to, is_break, line_end};
ghost use Rattle.lines.specs.Filling.{line_len, line_starts_of, may_end, stop};
ghost use Rattle.lines.specs.FitsUpTo.{FitsUpTo};
ghost use Rattle.lines.specs.Kept.{AreStarts};
ghost use Rattle.lines.specs.declared.char_info.CharInfo.{CharInfo};
ghost use Rattle.lines.specs.declared.engine.TheConstants.{PARAGRAPH_LIMIT};

use crate::char_info::{CharInfo, GROUP, is_must};
use crate::clusters::ClusterBuffers;
use crate::counts::Counted;
use crate::sizes::{ByColumns, Ruler, Sizes};
use breaks::Mark;
use std::alloc::AllocError;

/// Replaces the contents of `starts` with the start of each line of a paragraph at a width. `infos` need not
/// contain the cluster ends. The cluster ends are found and stored in `infos` when a line first needs them.
pub(crate) fn line_starts<S: Sizes>(
    clusters: &mut ClusterBuffers,
    text: &[char],
    infos: &mut [CharInfo],
    ruler: Ruler<S>,
    nobreak: bool,
    starts: &mut Vec<u32>,
    _filled: Counted,
) -> Result<(), AllocError>
    requires counted { _filled ≡ length text.now }
    requires len { length infos.old ≡ length text.now }
    requires within { length infos.old ≤ PARAGRAPH_LIMIT }
    ensures lines { OnOk result (starts.new.items
        ≡ line_starts_of nobreak ruler.width
        (sized (S.given ruler.sizes) (with_ends infos.old (cluster_ends text.now)))) }
    ensures starts { OnOk result (AreStarts (length text.now) starts.new.items) }
    ensures alike { OnOk result (AreAlike infos.new infos.old) }
{
    starts.clear();
    let mut start = 0;
    let mut is_known = false;
    while start < infos.len() {
        starts.push(start as u32)?;
        let (len, known) = line_len(clusters, text, infos, is_known, start, ruler, nobreak)?;
        start += len;
        is_known = known;
    }
    Ok(())
}

/// Like `line_starts` for text that is not measured, but does not find the cluster ends. Returns `false` if
/// the start of a line depends on them.
pub(crate) fn line_starts_by_breaks(
    infos: &[CharInfo],
    width: u32,
    nobreak: bool,
    starts: &mut Vec<u32>,
) -> Result<bool, AllocError>
    requires within { length infos.now ≤ PARAGRAPH_LIMIT }
    ensures lines { IfOk result (λ all. all ≡ true → (known : List CharInfo) → AreAlike infos.now known
        → starts.new.items ≡ line_starts_of nobreak width known) }
    ensures starts { IfOk result (λ all. all ≡ true → AreStarts (length infos.now) starts.new.items) }
{
    starts.clear();
    let ruler = Ruler {
        sizes: ByColumns,
        width,
    };
    let mut start = 0;
    while start < infos.len() {
        let Some(len) = broken_len(&infos[start..], ruler, nobreak) else {
            return Ok(false);
        };
        starts.push(start as u32)?;
        start += len;
    }
    Ok(true)
}

// Returns the length of the line that begins at `start`, and whether `infos` now contains the cluster ends.
fn line_len<S: Sizes>(
    clusters: &mut ClusterBuffers,
    text: &[char],
    infos: &mut [CharInfo],
    is_known: bool,
    start: usize,
    ruler: Ruler<S>,
    nobreak: bool,
) -> Result<(usize, bool), AllocError>
    requires start { (start < length infos.old) × (length infos.old ≤ PARAGRAPH_LIMIT) }
    requires len { length infos.old ≡ length text.now }
    requires known { IsTrue is_known → infos.old ≡ with_ends infos.old (cluster_ends text.now) }
    ensures line { IfOk result (λ line.
        line.0 ≡ line_len nobreak ruler.width
        (drop start (sized (S.given ruler.sizes) (with_ends infos.old (cluster_ends text.now))))) }
    ensures within { IfOk result (λ line. (0 < line.0) × (start + line.0 ≤ length infos.old)) }
    ensures known { IfOk result (λ line.
        IsTrue line.1 → infos.new ≡ with_ends infos.new (cluster_ends text.now)) }
    ensures alike { OnOk result (AreAlike infos.new infos.old) }
    ensures memory { OnErr result ((nobreak ≡ false) × (by_break ruler.width
        (drop start (sized (S.given ruler.sizes) infos.old)) ≡ None)) }
{
    if let Some(len) = broken_len(&infos[start..], ruler.from(start), nobreak) {
        return Ok((len, is_known));
    }
    if !is_known {
        clusters.mark(text, infos)?;
    }
    Ok((line_end(&infos[start..], ruler.from(start)) + 1, true))
}

// Returns the length of the first line, or `None` if the length depends on clusters. The length does not
// depend on clusters if the line ends at a break opportunity or `nobreak` is set.
fn broken_len<S: Sizes>(rest: &[CharInfo], ruler: Ruler<S>, nobreak: bool) -> Option<usize>
    requires { (0 < length rest.now) × (length rest.now ≤ PARAGRAPH_LIMIT) }
    ensures len { (known : List CharInfo) → AreAlike rest.now known
        → IfSome result (λ len. len ≡ line_len nobreak ruler.width (sized (S.given ruler.sizes) known)) }
    ensures within { IfSome result (λ len. (0 < len) × (len ≤ length rest.now)) }
    ensures none { result ≡ None
        → (nobreak ≡ false) × (by_break ruler.width (sized (S.given ruler.sizes) rest.now) ≡ None) }
{
    if nobreak {
        return Some(first_must(rest) + 1);
    }
    let k = last_break(rest, fitting_len(rest, ruler))?;
    Some(k + 1)
}

// Returns whether a line may or must end after a character with this break mark.
fn is_break(mark: Mark) -> bool
    ensures { result ≡ is_break mark }
{
    mark != Mark::Never
}

// Returns whether a line may or must end, or a cluster ends, after a character.
fn is_candidate(info: &CharInfo) -> bool
    ensures { result ≡ is_break info.now.mark || info.now.ends_cluster }
{
    is_break(info.mark) || info.ends_cluster
}

// Returns the index of the first character after which a line must end, or of the last character if there is
// none.
fn first_must(rest: &[CharInfo]) -> usize
    requires { 0 < length rest.now }
    ensures end { result ≡ stop rest.now }
    ensures within { result < length rest.now }
{
    for (k, info) in rest.iter().enumerate() {
        if is_must(info.mark) {
            return k;
        }
    }
    rest.len() - 1
}

// Returns the index of the first character after which a line may end or a cluster ends, or of the last
// character if there is none.
fn first_end(rest: &[CharInfo]) -> usize
    requires { 0 < length rest.now }
    ensures end { result ≡ first_end rest.now }
    ensures within { result < length rest.now }
{
    for (k, info) in rest.iter().enumerate() {
        if is_candidate(info) {
            return k;
        }
    }
    rest.len() - 1
}

// Returns the index of the last character of the first line without `nobreak`. `rest` must contain the
// cluster ends.
fn line_end<S: Sizes>(rest: &[CharInfo], ruler: Ruler<S>) -> usize
    requires { (0 < length rest.now) × (length rest.now ≤ PARAGRAPH_LIMIT) }
    ensures end { result ≡ line_end ruler.width (sized (S.given ruler.sizes) rest.now) }
    ensures within { result < length rest.now }
{
    let len = fitting_len(rest, ruler);
    if let Some(k) = last_break(rest, len) {
        return k;
    }
    match last_cluster_end(rest, len) {
        Some(k) => k,
        None => first_end(rest),
    }
}

// Returns the index of the last character, among the first `len`, after which the line may end, or `None` if
// there is none.
fn last_break(rest: &[CharInfo], len: usize) -> Option<usize>
    requires { len ≤ length rest.now }
    ensures { result ≡ greatest (may_end rest.now) len }
{
    let mut k = len;
    while k > 0 {
        k -= 1;
        if is_break(rest[k].mark) {
            return Some(k);
        }
    }
    None
}

// Returns the index of the last character, among the first `len`, after which a cluster ends, or `None` if
// there is none.
fn last_cluster_end(rest: &[CharInfo], len: usize) -> Option<usize>
    requires { len ≤ length rest.now }
    ensures { result ≡ greatest (cluster_ends_at rest.now) len }
{
    let mut k = len;
    while k > 0 {
        k -= 1;
        if rest[k].ends_cluster {
            return Some(k);
        }
    }
    None
}

// Returns the largest number of characters with which the first line fits in the width and does not go past
// its first mandatory break.
fn fitting_len<S: Sizes>(rest: &[CharInfo], ruler: Ruler<S>) -> usize
    requires { (0 < length rest.now) × (length rest.now ≤ PARAGRAPH_LIMIT) }
    ensures last { (test : ℕ → Bool)
        → greatest (λ k. test k && fits_to ruler.width (sized (S.given ruler.sizes) rest.now) k)
        (suc (stop (sized (S.given ruler.sizes) rest.now))) ≡ greatest test result }
    ensures within { result ≤ length rest.now }
{
    let (len, columns) = fitting_groups(rest, ruler);
    fitting_after(rest, ruler, len, columns)
}

// Reads groups of characters while they fit on the first line and contain no mandatory break. Returns the
// number of characters read and their columns.
fn fitting_groups<S: Sizes>(rest: &[CharInfo], ruler: Ruler<S>) -> (usize, usize)
    requires { length rest.now ≤ PARAGRAPH_LIMIT }
    ensures { FitsUpTo ruler.width (sized (S.given ruler.sizes) rest.now) result.0 result.1 }
{
    let (sizes, width) = (ruler.sizes, ruler.width as usize);
    let mut columns = 0;
    let mut k = 0;
    // Most characters have at least one column, so a group rarely fits in fewer than `GROUP` columns.
    while k + GROUP <= rest.len() && columns + GROUP <= width && !is_must(rest[k].mark) {
        let Some(group) = sizes.group(rest, k) else {
            break;
        };
        let next = columns + group.columns as usize;
        if group.has_tab | (group.has_must | (next > width)) {
            break;
        }
        columns = next;
        k += GROUP;
    }
    (k, columns)
}

// Implements `fitting_len`, given the number of characters already read, and their columns.
fn fitting_after<S: Sizes>(rest: &[CharInfo], ruler: Ruler<S>, len: usize, columns: usize) -> usize
    requires some { (0 < length rest.now) × (length rest.now ≤ PARAGRAPH_LIMIT) }
    requires fits { FitsUpTo ruler.width (sized (S.given ruler.sizes) rest.now) len columns }
    ensures last { (test : ℕ → Bool)
        → greatest (λ k. test k && fits_to ruler.width (sized (S.given ruler.sizes) rest.now) k)
        (suc (stop (sized (S.given ruler.sizes) rest.now))) ≡ greatest test result }
    ensures within { result ≤ length rest.now }
{
    let (sizes, width) = (ruler.sizes, ruler.width as usize);
    let mut columns = columns;
    let mut k = len;
    while k < rest.len() {
        let info = rest[k];
        columns = info.advance(sizes.size(rest, k), columns);
        if columns > width && !info.trailing.may_trail() {
            return k;
        }
        k += 1;
        if is_must(info.mark) {
            return k;
        }
    }
    k
}
