//! Characters with their styles.
ghost use Rattle.std.specs.Prelude.{◌≡◌, ◌+◌, ◌≤◌, ℕ, true, List, length, take, drop, All};
ghost use Rattle.sequences.specs.SameLooks.{same_look};

use crate::look::{Look, PLAIN};
use crate::same_look::same_look;
use std::alloc::{AllocError, Global};

/// The range of `StyledText::links` that holds a link: its parameters, a semicolon and its URI. The range is
/// empty if there is no link.
#[derive(Clone, Copy, Debug, PartialEq, Eq)]
pub struct Link {
    pub start: usize,
    pub len: usize,
}

/// No link.
pub const NO_LINK: Link = Link { start: 0, len: 0 };

/// A run of characters with one style, from an index up to the start of the next run.
#[derive(Clone, Copy, Debug, PartialEq, Eq)]
pub struct StyleRun {
    pub start: usize,
    pub look: Look,
    pub link: Link,
}

/// A style: attributes and a link. The link consists of its parameters, a semicolon and its URI, or is empty
/// if there is none.
#[derive(Clone, Copy, Debug)]
pub struct StyleRef<'a> {
    pub look: Look,
    pub link: &'a [char],
}

/// Characters with their styles. The characters before the first run have the default style.
#[derive(Debug, Drop)]
pub struct StyledText {
    pub characters: Vec<char>,
    pub runs: Vec<StyleRun>,
    /// The text of all links that were added, one after the other.
    pub links: Vec<char>,
    ghost starts: { All (λ run. run.start ≤ length characters.items) runs.items },
    ghost linked: { All (λ run. run.link.start + run.link.len ≤ length links.items) runs.items },
}

impl StyledText {
    ghost use Rattle.std.specs.Prelude.{◌++◌, ◌∷◌, [], map, slice_index_or, ◌<◌, IfOk, OnOk, OnErr};
    ghost use Rattle.sequences.specs.Styled.{DEFAULT};
    ghost use Rattle.sequences.specs.StyledTexts.{style_at, style_in, style_of, styled_of};
    ghost use Rattle.sequences.specs.StyleRefs.{style_by};
    ghost use Rattle.sequences.specs.declared.style.StyleRun.{StyleRun};

    /// Makes an empty text. Allocates nothing.
    pub fn new(alloc: Global) -> StyledText
        ensures text { styled_of result ≡ [] }
        ensures links { result.links.items ≡ [] }
    {
        StyledText {
            characters: Vec::new(alloc),
            runs: Vec::new(alloc),
            links: Vec::new(alloc),
        }
    }

    /// Appends characters in one style. After a failed allocation, the characters and their styles are
    /// unchanged.
    pub fn push_all(
        &mut self,
        characters: &[char],
        look: Look,
        link: Link,
    ) -> Result<(), AllocError>
        requires { link.start + link.len ≤ length self.old.links.items }
        ensures ok { OnOk result (styled_of self.new
            ≡ styled_of self.old ++ map (λ c. (c, style_of self.old.links.items look link)) characters.now) }
        ensures err { OnErr result (styled_of self.new ≡ styled_of self.old) }
        ensures links { self.new.links.items ≡ self.old.links.items }
    {
        self.start_run(look, link)?;
        self.characters.extend_from_slice(characters)?;
        Ok(())
    }

    /// Returns the style of the run at an index.
    pub fn run_style(&self, run: usize) -> StyleRef<'_>
        requires { run < length self.now.runs.items }
        ensures { (d : StyleRun) → style_by result
            ≡ style_in self.now.links.items (slice_index_or self.now.runs.items run d) }
    {
        let run = self.runs[run];
        let (_, from) = self.links.split_at(run.link.start);
        StyleRef {
            look: run.look,
            link: from.split_at(run.link.len).0,
        }
    }

    /// Appends the text of a link to `links`, and returns its range. After a failed allocation, nothing has
    /// changed.
    pub fn add_link(&mut self, link: &[char]) -> Result<Link, AllocError>
        ensures link { IfOk result (λ added. take added.len (drop added.start self.new.links.items)
            ≡ link.now) }
        ensures within { IfOk result (λ added. added.start + added.len ≤ length self.new.links.items) }
        ensures len { OnOk result (length self.new.links.items
            ≡ length self.old.links.items + length link.now) }
        ensures text { styled_of self.new ≡ styled_of self.old }
        ensures err { OnErr result (self.new.links.items ≡ self.old.links.items) }
    {
        let added = Link {
            start: self.links.len(),
            len: link.len(),
        };
        self.links.extend_from_slice(link)?;
        Ok(added)
    }

    /// Removes all characters, and all links except `link`. Returns the new range of that link.
    pub fn clear(&mut self, link: Link) -> Link
        requires { link.start + link.len ≤ length self.old.links.items }
        ensures text { styled_of self.new ≡ [] }
        ensures links { self.new.links.items ≡ take link.len (drop link.start self.old.links.items) }
        ensures link { (result.start ≡ 0) × (result.len ≡ link.len) }
    {
        self.characters.clear();
        self.runs.clear();
        self.links.rotate_left(link.start);
        self.links.truncate(link.len);
        Link {
            start: 0,
            len: link.len,
        }
    }

    // Returns true only if appended characters would have the given style without a new run.
    fn ends_in(&self, look: Look, link: Link) -> bool
        ensures { result ≡ true
            → style_at self.now.links.items DEFAULT self.now.runs.items (length self.now.characters.items)
            ≡ style_of self.now.links.items look link }
    {
        match self.runs.last() {
            Some(run) => has_style(*run, look, link),
            None => is_default(look, link),
        }
    }

    // Starts a run for the characters that are appended next, if a new run is needed.
    fn start_run(&mut self, look: Look, link: Link) -> Result<(), AllocError>
        requires { link.start + link.len ≤ length self.old.links.items }
        ensures style { OnOk result (style_at self.new.links.items DEFAULT self.new.runs.items
            (length self.new.characters.items)
            ≡ style_of self.new.links.items look link) }
        ensures text { styled_of self.new ≡ styled_of self.old }
        ensures characters { self.new.characters.items ≡ self.old.characters.items }
        ensures links { self.new.links.items ≡ self.old.links.items }
    {
        if self.ends_in(look, link) {
            return Ok(());
        }
        self.runs.push(StyleRun {
            start: self.characters.len(),
            look,
            link,
        })?;
        Ok(())
    }

    /// Appends a character. After a failed allocation, the characters and their styles are unchanged.
    pub fn push(&mut self, c: char, look: Look, link: Link) -> Result<(), AllocError>
        requires { link.start + link.len ≤ length self.old.links.items }
        ensures ok { OnOk result (styled_of self.new
            ≡ styled_of self.old ++ (c, style_of self.old.links.items look link) ∷ []) }
        ensures err { OnErr result (styled_of self.new ≡ styled_of self.old) }
        ensures links { self.new.links.items ≡ self.old.links.items }
    {
        self.start_run(look, link)?;
        self.characters.push(c)?;
        Ok(())
    }
}

// Returns whether a run has these attributes and this link, as compared by `same_link`.
fn has_style(run: StyleRun, look: Look, link: Link) -> bool
    ensures look { result ≡ true → same_look run.look look ≡ true }
    ensures link { result ≡ true → (links : List ℕ) → take run.link.len (drop run.link.start links)
        ≡ take link.len (drop link.start links) }
{
    if same_look(&run.look, &look) {
        same_link(run.link, link)
    } else {
        false
    }
}

// Returns whether two links are the same range, or are both empty.
fn same_link(link: Link, other: Link) -> bool
    ensures { result ≡ true → (links : List ℕ) → take link.len (drop link.start links)
        ≡ take other.len (drop other.start links) }
{
    if link.len != other.len {
        return false;
    }
    link.start == other.start || link.len == 0
}

// Returns whether a style is the default.
fn is_default(look: Look, link: Link) -> bool
    ensures look { result ≡ true → same_look look PLAIN ≡ true }
    ensures link { result ≡ true → link.len ≡ 0 }
{
    if same_look(&look, &PLAIN) {
        link.len == 0
    } else {
        false
    }
}
