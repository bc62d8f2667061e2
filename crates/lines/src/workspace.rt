//! The buffers of an engine, and the levels and break marks of a paragraph.
ghost use Rattle.std.specs.Prelude.{[], ◌≡◌, ◌≤◌, length, map, take, IfOk, OnOk};
ghost use Rattle.ucd.specs.Properties.{properties_of};
ghost use Rattle.bidi.specs.Levels.{levels_of};
ghost use Rattle.breaks.specs.Marks.{marks_of};
ghost use Rattle.lines.specs.Engine.{counted};
ghost use Rattle.lines.specs.Layouts.{base_of};
ghost use Rattle.lines.specs.Paragraphs.{IsLookedUp, rules_in};
ghost use Rattle.lines.specs.Reordering.{ends_by};

use crate::buffers::LayoutBuffers;
use crate::char_info::InfoBuffers;
use crate::clusters::ClusterBuffers;
use crate::counts::Count;
use crate::laid::Laid;
use crate::options::Options;
use crate::paragraph::{LentRules, Text};
use crate::properties::fill_properties;
use crate::reserve::reserve;
use crate::windows::WindowBuffers;
use bidi::Resolver;
use breaks::{Mark, marks_into};
use std::alloc::{AllocError, Global};
use std::mem;
use ucd::Properties;

/// The buffers of an engine. If they are large enough for a paragraph, laying it out allocates only the lists
/// of its layout.
pub(crate) struct Workspace {
    pub(crate) analysis: Analysis,
    pub(crate) infos: InfoBuffers,
    pub(crate) clusters: ClusterBuffers,
    // The buffers for a window, once a long paragraph has been edited.
    pub(crate) window: Option<Box<WindowBuffers>>,
    // The lists for paragraphs that are printed and not kept.
    pub(crate) lists: LayoutBuffers,
    // Recycled lists for the next paragraph that is kept.
    recycled: LayoutBuffers,
    // A recycled list for the text of the next paragraph that is kept.
    text: Vec<char>,
}

impl Drop for Workspace {
    fn drop(self) {
        let Workspace {
            analysis: _,
            infos: _,
            clusters: _,
            window: _,
            lists: _,
            recycled: _,
            text: _,
        } = self;
    }
}

impl Workspace {
    /// Creates empty buffers. Allocates nothing.
    pub(crate) fn new(alloc: Global) -> Workspace {
        Workspace {
            analysis: Analysis {
                properties: Vec::new(alloc),
                resolver: Resolver::new(alloc),
            },
            infos: InfoBuffers::new(alloc),
            clusters: ClusterBuffers::new(alloc),
            window: None,
            lists: LayoutBuffers::new(alloc),
            recycled: LayoutBuffers::new(alloc),
            text: Vec::new(alloc),
        }
    }

    /// Keeps the lists of a layout that is no longer needed, for the next paragraph that is kept. Frees the
    /// lists that were kept before.
    pub(crate) fn recycle(&mut self, laid: Laid) {
        (self.text, self.recycled) = laid.into_lists();
    }

    /// Returns an empty list. Reuses the list of a recycled text if its capacity is suitable for `len`
    /// characters (see `fits`).
    pub(crate) fn take_text(&mut self, alloc: Global, len: usize) -> Vec<char>
        ensures { result.items ≡ [] }
    {
        if fits(self.text.capacity(), len) {
            self.text.clear();
            mem::replace(&mut self.text, Vec::new(alloc))
        } else {
            Vec::new(alloc)
        }
    }

    /// Exchanges lists for the recycled ones if the capacity of those is suitable for a paragraph of `len`
    /// characters (see `fits`).
    pub(crate) fn lend_lists(&mut self, len: usize, lists: &mut LayoutBuffers) {
        if fits(self.recycled.levels.capacity(), len) {
            mem::swap(&mut self.recycled, lists);
        }
    }
}

// The length from which it is cheaper to grow a list a little than to allocate a new one.
const LONG: usize = 1_024;

// Returns whether a list of this capacity is worth using for `len` items: the two differ by at most
// `len / 8 + 16`, and only a list of `LONG` items or more has to grow.
fn fits(capacity: usize, len: usize) -> bool {
    (capacity >= len || len >= LONG) && capacity.abs_diff(len) <= len / 8 + 16
}

// Allocates a workspace.
#[inline(never)] // so that calls that need no new workspace do not clear its frame
fn allocated(alloc: Global) -> Result<Box<Workspace>, AllocError> {
    let work = Box::new(alloc, Workspace::new(alloc))?;
    Ok(work)
}

/// Returns an engine's workspace, and allocates it first if there is none yet.
pub(crate) fn ready(
    work: &mut Option<Box<Workspace>>,
    alloc: Global,
) -> Result<&mut Workspace, AllocError> {
    if work.is_none() {
        *work = Some(allocated(alloc)?);
    }
    match work {
        Some(work) => Ok(work),
        None => unreachable!(),
    }
}

/// Finds the levels of paragraphs. The front of `properties` holds the properties of the most recent
/// paragraph's characters.
pub(crate) struct Analysis {
    pub(crate) properties: Vec<Properties>,
    resolver: Resolver,
}

impl Drop for Analysis {
    fn drop(self) {
        let Analysis {
            properties: _,
            resolver: _,
        } = self;
    }
}

impl Analysis {
    /// Looks up the properties of a paragraph's characters, replaces the contents of `levels` with their
    /// levels, and returns the base level. Counts the characters.
    pub(crate) fn resolve(
        &mut self,
        rules: &LentRules<'_>,
        text: &[char],
        levels: &mut Vec<u8>,
        analysed: &mut Count,
    ) -> Result<u8, AllocError>
        ensures base { IfOk result (λ base. base ≡ base_of (rules_in rules.now) text.now) }
        ensures levels { OnOk result
            (levels.new.items ≡ levels_of rules.now.tables.now text.now rules.now.options.base) }
        ensures len { OnOk result (length levels.new.items ≡ length text.now) }
        ensures properties { OnOk result (take (length text.now) self.new.properties.items
            ≡ map (properties_of rules.now.tables.now) text.now) }
        ensures properties_len { OnOk result (length text.now ≤ length self.new.properties.items) }
        ensures counts { analysed.new ≡ counted analysed.old (length text.now) }
        ensures least { analysed.old ≤ analysed.new }
    {
        analysed.raise(text.len());
        fill_properties(rules.tables, text, &mut self.properties)?;
        reserve(levels, text.len())?;
        let base = rules.options.base;
        let properties = &self.properties[..text.len()];
        self.resolver
            .resolve(rules.tables, text, properties, base, levels)
    }
}

/// If lines are ordered by clusters, replaces the contents of `ends` with one item per character of a
/// paragraph: whether a grapheme cluster ends after the character. Otherwise, clears `ends`.
pub(crate) fn fill_ends(
    clusters: &mut ClusterBuffers,
    options: Options,
    text: &[char],
    ends: &mut Vec<bool>,
) -> Result<(), AllocError>
    ensures { OnOk result (ends.new.items ≡ ends_by options text.now) }
{
    if options.reorder_clusters {
        return clusters.fill(text, ends);
    }
    ends.clear();
    Ok(())
}

/// Replaces the contents of `marks` with the break marks of a paragraph.
pub(crate) fn fill_marks(text: &Text<'_>, marks: &mut Vec<Mark>) -> Result<(), AllocError>
    requires { IsLookedUp text.now }
    ensures { OnOk result (marks.new.items ≡ marks_of text.now.rules.tables.now
        text.now.rules.options.whole_numbers text.now.characters.now) }
{
    reserve(marks, text.characters.len())?;
    marks_into(
        text.rules.tables,
        text.characters,
        text.properties,
        text.rules.options.whole_numbers,
        marks,
    )
}
