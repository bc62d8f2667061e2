//! Finds the grapheme cluster of a character, or all clusters of a line. An editor can use them to keep its
//! caret from landing inside a cluster.
ghost use Rattle.std.specs.Prelude.{◌≡◌, ◌-◌, ◌<◌, ◌≤◌, ℕ, All, length, map, option_map, slice_index};
ghost use Rattle.std.specs.Prelude.{IfOk, OnErr};
ghost use Rattle.lines.specs.Clusters.{cluster_ends, ends_in};
ghost use Rattle.lines.specs.Kept.{AreStarts};
ghost use Rattle.lines.specs.Layouts.{start_of};
ghost use Rattle.lines.specs.Visual.{end_of};
ghost use Rattle.session.specs.Clusters.{cluster_at, line_clusters};
ghost use Rattle.session.specs.Kept.{lines_in, text_of};
ghost use Rattle.session.specs.Places.{IsLined};

use crate::kept::Kept;
use lines::Laid;
use std::alloc::{AllocError, Global};
use store::ParagraphStore;

/// A grapheme cluster of a text.
#[derive(Clone, Copy, Debug, PartialEq, Eq)]
pub struct Cluster {
    /// The position of the cluster's first character.
    pub start: usize,
    /// The position after the cluster's last character.
    pub end: usize,
}

/// Returns the cluster of the character at a position, or `None` past the last character. Reads only the
/// characters around that position (see `Laid::cluster`).
pub fn cluster_of<S: ParagraphStore<Kept>>(
    store: &S,
    alloc: Global,
    pos: usize,
) -> Result<Option<Cluster>, AllocError>
    requires { All IsLined (S.items store.now) }
    ensures ok { IfOk result (λ cluster. cluster ≡ cluster_at (S.items store.now) pos) }
    ensures memory { OnErr result (pos < length (text_of (S.items store.now))) }
{
    // The contract of `total_chars` bounds the number of characters.
    let len = store.total_chars();
    if pos >= len {
        return Ok(None);
    }
    let found = store.find_char(pos);
    match store.get(found.index) {
        Some(kept) => {
            let cluster = kept.laid().cluster(alloc, found.rest)?;
            let start = pos - found.rest;
            Ok(Some(Cluster {
                start: start + cluster.0,
                end: start + cluster.1,
            }))
        }
        None => unreachable!(),
    }
}

// Returns the end of line `k` of a paragraph, given the starts of its lines and the paragraph's length.
fn end_of(starts: &[u32], k: usize, len: usize) -> usize
    requires starts { AreStarts len starts.now }
    requires k { k < length starts.now }
    ensures end { result ≡ end_of len starts.now k }
    ensures some { slice_index starts.now k < result }
    ensures within { result ≤ len }
{
    match starts.get(k + 1) {
        Some(next) => *next as usize,
        None => len,
    }
}

// Returns where the clusters in line `k` of a paragraph end, counted from the line's start.
fn clusters_in(laid: &Laid, alloc: Global, k: usize) -> Result<Vec<usize>, AllocError>
    requires lined { IsLined laid.now }
    requires k { k < length laid.now.lines }
    ensures { IfOk result (λ ends. let starts = map start_of laid.now.lines in
        ends.items ≡ ends_in (cluster_ends laid.now.text) (slice_index starts k)
        (end_of (length laid.now.text) starts k - slice_index starts k)) }
{
    let starts = laid.line_starts();
    let start = starts[k] as usize;
    let end = end_of(starts, k, laid.text().len());
    laid.cluster_ends_in(alloc, start, end - start)
}

/// Returns where the clusters in line `n` end, counted from the line's start, or `None` past the last line.
pub fn line_clusters<S: ParagraphStore<Kept>>(
    store: &S,
    alloc: Global,
    n: usize,
) -> Result<Option<Vec<usize>>, AllocError>
    requires { All IsLined (S.items store.now) }
    ensures ok { IfOk result (λ ends. option_map (λ ends. ends.items) ends
        ≡ line_clusters (S.items store.now) n) }
    ensures memory { OnErr result (n < length (lines_in (S.items store.now))) }
{
    if n >= store.total_lines() {
        return Ok(None);
    }
    let found = store.find_line(n);
    match store.get(found.index) {
        Some(kept) => Ok(Some(clusters_in(kept.laid(), alloc, found.rest)?)),
        None => unreachable!(),
    }
}
