//! Finds where the grapheme clusters and the words of a paragraph end (UAX #29), using the crate
//! `unicode_segmentation`. A split point is the start or the end of a text, or a place between two characters
//! at which a cluster ends in any context.
ghost use Rattle.std.specs.Prelude.{◌≡◌, ℕ, ◌+◌, ◌<◌, ◌≤◌, ◌++◌, false, length, string_bytes};
ghost use Rattle.std.specs.Prelude.{IfOk, OnErr, OnOk};
ghost use Rattle.std.specs.Char.{encode_utf8};
ghost use Rattle.std.specs.List.{flat_map, list_all};
ghost use Rattle.lines.specs.Bare.{with_ends};
ghost use Rattle.lines.specs.Clusters.{cluster_begin, cluster_end, cluster_ends, ends_in, ends_of};
ghost use Rattle.lines.specs.Clusters.{can_split, is_alone, is_split_point, may_end, may_start, no_conjunct};
ghost use Rattle.lines.specs.Clusters.{IsAloneBetweenSplits, IsSplitPoint};
ghost use Rattle.lines.specs.Words.{word_ends};

use crate::char_info::CharInfo;
use crate::reserve::reserve;
use std::alloc::{AllocError, Global};
use ucd_breaks::GraphemeClusterBreak;
use ucd_derived::IndicConjunctBreak;
use unicode_segmentation::UnicodeSegmentation;

/// Buffers for finding grapheme clusters. If they are large enough for a paragraph, finding its clusters
/// allocates nothing.
#[derive(Drop)]
pub(crate) struct ClusterBuffers {
    utf8: String,
    ends: Vec<bool>,
}

impl ClusterBuffers {
    /// Creates empty buffers. Allocates nothing.
    pub(crate) fn new(alloc: Global) -> ClusterBuffers {
        ClusterBuffers {
            utf8: String::new(alloc),
            ends: Vec::new(alloc),
        }
    }

    /// Replaces the contents of `ends` with one item per character of a paragraph: whether a grapheme cluster
    /// ends after the character.
    pub(crate) fn fill(&mut self, text: &[char], ends: &mut Vec<bool>) -> Result<(), AllocError>
        ensures { OnOk result (ends.new.items ≡ cluster_ends text.now) }
    {
        fill_cluster_ends(text, &mut self.utf8, ends)
    }

    /// Sets `ends_cluster` in the info of each character of a paragraph.
    pub(crate) fn mark(&mut self, text: &[char], infos: &mut [CharInfo]) -> Result<(), AllocError>
        requires { length infos.old ≡ length text.now }
        ensures { OnOk result (infos.new ≡ with_ends infos.old (cluster_ends text.now)) }
    {
        fill_cluster_ends(text, &mut self.utf8, &mut self.ends)?;
        put_ends(infos, &self.ends);
        Ok(())
    }
}

/// Returns, for each character of a paragraph, whether a grapheme cluster ends after it.
pub fn cluster_ends(alloc: Global, text: &[char]) -> Result<Vec<bool>, AllocError>
    ensures ends { IfOk result (λ ends. ends.items ≡ cluster_ends text.now) }
    ensures len { IfOk result (λ ends. length ends.items ≡ length text.now) }
    ensures memory { OnErr result (0 < length text.now) }
{
    let mut utf8 = String::new(alloc);
    let mut ends = Vec::new(alloc);
    fill_cluster_ends(text, &mut utf8, &mut ends)?;
    Ok(ends)
}

// Replaces the contents of `ends` with one item per character of a paragraph: whether a grapheme cluster ends
// after the character. Overwrites `utf8` with the text.
fn fill_cluster_ends(
    text: &[char],
    utf8: &mut String,
    ends: &mut Vec<bool>,
) -> Result<(), AllocError>
    ensures ends { OnOk result (ends.new.items ≡ cluster_ends text.now) }
    ensures len { OnOk result (length ends.new.items ≡ length text.now) }
    ensures memory { OnErr result (0 < length text.now) }
{
    ends.clear();
    if text.is_empty() {
        return Ok(());
    }
    reserve(ends, text.len())?;
    if are_alone(text) {
        return ends.resize(text.len(), true);
    }
    spell(text, utf8)?;
    for cluster in utf8.graphemes(true) {
        push_ends(ends, cluster)?;
    }
    Ok(())
}

// Replaces the contents of `utf8` with the text.
fn spell(text: &[char], utf8: &mut String) -> Result<(), AllocError>
    ensures { OnOk result (string_bytes utf8.new ≡ flat_map encode_utf8 text.now) }
{
    utf8.clear();
    for k in 0..text.len() {
        utf8.push(text[k])?;
    }
    Ok(())
}

/// Returns the start and the end of the grapheme cluster of character `k` of a paragraph. Finds only the
/// clusters between the last split point at or before the character and the first one after it. Allocates
/// only if another character is between these split points.
pub fn cluster_of(alloc: Global, text: &[char], k: usize) -> Result<(usize, usize), AllocError>
    requires { k < length text.now }
    ensures start { IfOk result (λ found. found.0 ≡ cluster_begin (cluster_ends text.now) k) }
    ensures end { IfOk result (λ found. found.1 ≡ cluster_end (cluster_ends text.now) k) }
    ensures around { IfOk result (λ found. (found.0 ≤ k) × (k < found.1)) }
    ensures within { IfOk result (λ found. found.1 ≤ length text.now) }
    ensures memory { OnErr result (¬ (IsAloneBetweenSplits text.now k)) }
{
    let start = window_start(text, k);
    let end = window_end(text, k);
    if end - start == 1 {
        return Ok((k, k + 1));
    }
    let ends = cluster_ends(alloc, &text[start..end])?;
    let first = cluster_begin(&ends, k - start);
    let past = cluster_end(&ends, k - start);
    Ok((start + first, start + past))
}

/// Returns the ends of the clusters in the `len` characters from `start` on, counted from `start`. The last
/// of these ends is `len`, even if a cluster continues after it. Finds only the clusters between the last
/// split point at or before these characters and the first one after them.
pub fn ends_in(
    alloc: Global,
    text: &[char],
    start: usize,
    len: usize,
) -> Result<Vec<usize>, AllocError>
    requires some { 0 < len }
    requires within { start + len ≤ length text.now }
    ensures { IfOk result (λ found. found.items ≡ ends_in (cluster_ends text.now) start len) }
{
    let first = window_start(text, start);
    let ends = cluster_ends(alloc, &text[first..window_end(text, start + len - 1)])?;
    part_ends(alloc, &ends, start - first, len)
}

// Implements `ends_in`. `ends[i]` says whether a cluster ends after character `i`.
fn part_ends(
    alloc: Global,
    ends: &[bool],
    start: usize,
    len: usize,
) -> Result<Vec<usize>, AllocError>
    requires { start + len ≤ length ends.now }
    ensures { IfOk result (λ found. found.items ≡ ends_in ends.now start len) }
{
    let mut found = Vec::new(alloc);
    for k in 1..len + 1 {
        if k == len || ends[start + k - 1] {
            found.push(k)?;
        }
    }
    Ok(found)
}

/// Returns the start of the segment that contains character `k`, such as a cluster or a word. `ends[i]` says
/// whether a segment ends after character `i`.
pub fn cluster_begin(ends: &[bool], k: usize) -> usize
    requires { k < length ends.now }
    ensures value { result ≡ cluster_begin ends.now k }
    ensures most { result ≤ k }
{
    let mut start = k;
    while start > 0 {
        if ends[start - 1] {
            return start;
        }
        start -= 1;
    }
    0
}

/// Returns the end of the segment that contains character `k`, such as a cluster or a word. `ends[i]` says
/// whether a segment ends after character `i`.
pub fn cluster_end(ends: &[bool], k: usize) -> usize
    requires { k < length ends.now }
    ensures value { result ≡ cluster_end ends.now k }
    ensures most { result ≤ length ends.now }
    ensures past { k < result }
{
    let mut last = k;
    while last < ends.len() {
        if ends[last] {
            return last + 1;
        }
        last += 1;
    }
    ends.len()
}

// Returns the last split point at or before character `k`.
fn window_start(text: &[char], k: usize) -> usize
    requires { k < length text.now }
    ensures split { IsSplitPoint text.now result }
    ensures most { result ≤ k }
    ensures nearest { (i : ℕ) → result < i → i ≤ k → is_split_point text.now i ≡ false }
{
    let mut start = k;
    while start > 0 {
        if is_split_point(text, start) {
            return start;
        }
        start -= 1;
    }
    0
}

// Returns the first split point after character `k`.
fn window_end(text: &[char], k: usize) -> usize
    requires { k < length text.now }
    ensures split { IsSplitPoint text.now result }
    ensures most { result ≤ length text.now }
    ensures past { k < result }
    ensures nearest { (i : ℕ) → k < i → i < result → is_split_point text.now i ≡ false }
{
    let mut end = k + 1;
    while end < text.len() {
        if is_split_point(text, end) {
            return end;
        }
        end += 1;
    }
    text.len()
}

/// Returns whether the characters before and after index `k` show that `k` is a split point. If so, the
/// clusters of the text before `k` and of the text from `k` on are the clusters of the whole text.
pub(crate) fn is_split_point(text: &[char], k: usize) -> bool
    requires some { 0 < k }
    requires within { k < length text.now }
    ensures { result ≡ is_split_point text.now k }
{
    can_split(text[k - 1], text[k])
}

// Returns whether a cluster ends between two characters, whatever comes before and after them.
#[tactic(auto, unfolding(crate::specs::Clusters::can_split))]
fn can_split(last: char, next: char) -> bool
    ensures { result ≡ can_split last next }
{
    may_end(GraphemeClusterBreak::for_char(last))
        && may_start(GraphemeClusterBreak::for_char(next))
        && no_conjunct(
            IndicConjunctBreak::for_char(last),
            IndicConjunctBreak::for_char(next),
        )
}

// Returns whether no rule except GB9c joins a character of this class to the next one, if `may_start` is true
// for the next one's class.
fn may_end(last: GraphemeClusterBreak) -> bool
    ensures { result ≡ may_end last }
{
    matches!(
        last,
        GraphemeClusterBreak::Control
            | GraphemeClusterBreak::Extend
            | GraphemeClusterBreak::Lf
            | GraphemeClusterBreak::Other
            | GraphemeClusterBreak::SpacingMark
    )
}

// Returns whether no rule except GB9c joins a character of this class to the one before it, if `may_end` is
// true for the previous one's class. No rule except GB9c looks back past a boundary between two such
// characters.
fn may_start(next: GraphemeClusterBreak) -> bool
    ensures { result ≡ may_start next }
{
    !matches!(
        next,
        GraphemeClusterBreak::Extend | GraphemeClusterBreak::SpacingMark | GraphemeClusterBreak::Zwj
    )
}

// Returns whether GB9c does not join two characters, and no later match of the rule extends back past the
// second one.
fn no_conjunct(last: IndicConjunctBreak, next: IndicConjunctBreak) -> bool
    ensures { result ≡ no_conjunct last next }
{
    match next {
        IndicConjunctBreak::Extend => false,
        IndicConjunctBreak::Consonant => {
            !matches!(
                last,
                IndicConjunctBreak::Extend | IndicConjunctBreak::Linker
            )
        }
        _ => true,
    }
}

/// Returns, for each character of a paragraph, whether there is a word boundary after it.
pub fn word_ends(alloc: Global, text: &[char]) -> Result<Vec<bool>, AllocError>
    ensures ends { IfOk result (λ ends. ends.items ≡ word_ends text.now) }
    ensures len { IfOk result (λ ends. length ends.items ≡ length text.now) }
    ensures memory { OnErr result (0 < length text.now) }
{
    if text.is_empty() {
        return Ok(Vec::new(alloc));
    }
    let mut utf8 = String::new(alloc);
    spell(text, &mut utf8)?;
    let mut ends = Vec::with_capacity(alloc, text.len())?;
    for word in utf8.split_word_bounds() {
        push_ends(&mut ends, word)?;
    }
    Ok(ends)
}

// Returns whether a quick test shows that each character of a text is a cluster of its own.
fn are_alone(text: &[char]) -> bool
    ensures { result ≡ list_all is_alone text.now }
{
    text.iter().all(|c| is_alone(*c))
}

fn is_alone(c: char) -> bool
    ensures { result ≡ is_alone c }
{
    matches!(
        c,
        ' '..='\u{2FF}'
            | '\t'..='\n'
            | '\u{370}'..='\u{482}'
            | '\u{48A}'..='\u{590}'
            | '\u{5D0}'..='\u{5EA}'
            | '\u{621}'..='\u{64A}'
            | '\u{1E00}'..='\u{200B}'
            | '\u{200E}'..='\u{20CF}'
            | '\u{3000}'..='\u{3029}'
            | '\u{3030}'..='\u{3098}'
            | '\u{309B}'..='\u{A66E}'
            | '\u{FF00}'..='\u{FF9D}'
            | '\u{20000}'..='\u{2FFFF}'
    )
}

fn put_ends(infos: &mut [CharInfo], ends: &[bool])
    requires { length ends.now ≡ length infos.old }
    ensures { infos.new ≡ with_ends infos.old ends.now }
{
    for k in 0..infos.len() {
        let info = &mut infos[k];
        info.ends_cluster = ends[k];
    }
}

// Appends an item for each character of a cluster: `true` for the last one, `false` for the others.
fn push_ends(ends: &mut Vec<bool>, cluster: &str) -> Result<(), AllocError>
    ensures { OnOk result (ends.new.items ≡ ends.old.items ++ ends_of cluster.now) }
{
    let mut left = cluster.chars().count();
    while left > 1 {
        ends.push(false)?;
        left -= 1;
    }
    ends.push(true)?;
    Ok(())
}
