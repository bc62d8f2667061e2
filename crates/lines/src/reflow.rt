//! Finds the lines of a paragraph at another width.
ghost use Rattle.std.specs.Prelude.{◌≡◌, ◌<◌, ◌≤◌, [], ◌∷◌, length, option_map, IfOk, OnErr, OnOk};

use crate::buffers::LineBuffers;
use crate::counts::{Count, Counted, Counts};
use crate::extents::Extents;
use crate::fill::{Fill, Shown};
use crate::laid::Laid;
use crate::layout::fill_lines;
use crate::one_line::one_line;
use crate::paragraph::{LentRules, Paragraph, Text};
use crate::properties::fill_properties;
use crate::sizes::Ruler;
use crate::workspace::Workspace;
use std::alloc::{AllocError, Global};
use std::marker::Model;
use ucd::{Properties, Tables};

/// Scratch space for overwriting the lines of a paragraph with new ones. It counts the characters whose lines
/// are written. It is not `Drop`, because `Engine::take_back` must add its count to the engine's.
#[derive(Debug)]
pub struct ReflowScratch {
    pub(crate) properties: Vec<Properties>,
    pub(crate) written: Count,
}

impl Model for ReflowScratch {
    ghost use Rattle.std.specs.Prelude.{length};
    ghost use Rattle.lines.specs.Extents.{ScratchState};

    ghost Value = { ScratchState };

    ghost view = { λ s. record { len = length s.properties.items; written = s.written } };
}

impl ReflowScratch {
    /// Allocates scratch space for paragraphs of at most `len` characters.
    pub(crate) fn new(
        alloc: Global,
        tables: &Tables,
        len: usize,
    ) -> Result<ReflowScratch, AllocError>
        ensures ok { IfOk result (λ scratch. scratch ≡ record { len = len; written = 0 }) }
        ensures memory { OnErr result (0 < len) }
    {
        let mut properties = Vec::new(alloc);
        properties.resize(len, tables.properties('\0'))?;
        Ok(ReflowScratch {
            properties,
            written: Count::zero(),
        })
    }

    /// Frees the scratch space, and returns the count of the characters whose lines were written.
    pub(crate) fn end(self) -> Count
        ensures { result ≡ self.written }
    {
        let ReflowScratch {
            properties: _,
            written,
        } = self;
        written
    }
}

impl Workspace {
    ghost use Rattle.lines.specs.Counts.{FillsAll, FillsSome, FindsAll, FindsSome};
    ghost use Rattle.lines.specs.Engine.{counted};
    ghost use Rattle.lines.specs.Extents.{extents_of};
    ghost use Rattle.lines.specs.Layouts.{AreWithin, HaveRoom, IsLaidOut, fill_of, with_advances};
    ghost use Rattle.lines.specs.Paragraphs.{rules_in};

    /// Finds where each line of a laid-out paragraph starts at another width, and how much of it is shown.
    pub(crate) fn extents(
        &mut self,
        alloc: Global,
        rules: &LentRules<'_>,
        laid: &Laid,
        width: u32,
        counts: &mut Counts,
    ) -> Result<Extents, AllocError>
        requires { IsLaidOut (with_advances (rules_in rules.now) laid.now.advances) laid.now }
        ensures extents { IfOk result (λ extents. extents
            ≡ extents_of (with_advances (rules_in rules.now) laid.now.advances) width laid.now.text) }
        ensures counts { OnOk result (FindsAll (length laid.now.text) counts.old counts.new) }
        ensures at_most { FindsSome (length laid.now.text) counts.old counts.new }
        ensures filled { counts.new.filled ≡ counted counts.old.filled (length laid.now.text) }
    {
        let text = laid.text();
        let filled = counts.take_filled(text.len());
        let properties = &mut self.analysis.properties;
        fill_properties(rules.tables, text, properties)?;
        let known = Text {
            rules: *rules,
            characters: text,
            properties: &properties[..text.len()],
            ends: &[],
            base: laid.base(),
        };
        self.infos.cache.prepare()?;
        if laid.advances().is_none() {
            if let Some(shown) = one_line(&known, width, &mut self.infos.cache) {
                return Ok(extents_of_line(alloc, shown, filled));
            }
        }
        self.infos.fill(&known, laid.marks())?;
        let (clusters, infos) = (&mut self.clusters, &mut self.infos.infos[..text.len()]);
        let (advances, options) = (laid.advances(), rules.options);
        let ruler = Ruler {
            sizes: advances,
            width,
        };
        let mut extents = Extents::new(alloc);
        extents.find(clusters, text, infos, ruler, options, filled)?;
        Ok(extents)
    }

    /// Finds the lines of a laid-out paragraph at another width, or with other advances.
    pub(crate) fn fill(
        &mut self,
        alloc: Global,
        rules: &LentRules<'_>,
        laid: &Laid,
        advances: Option<&[u32]>,
        width: u32,
        counts: &mut Counts,
    ) -> Result<Fill, AllocError>
        requires laid { IsLaidOut (with_advances (rules_in rules.now) laid.now.advances) laid.now }
        requires room { HaveRoom (option_map (λ list. list.now) advances) }
        ensures lines { IfOk result (λ fill. fill ≡ fill_of (with_advances (rules_in rules.now)
            (option_map (λ list. list.now) advances.entry)) width laid.now.text) }
        ensures within { IfOk result (λ fill. AreWithin (length laid.now.text) fill.lines) }
        ensures counts { OnOk result (FillsAll (length laid.now.text) counts.old counts.new) }
        ensures unwritten { OnErr result (counts.new.written ≡ counts.old.written) }
        ensures at_most { FillsSome (length laid.now.text) counts.old counts.new }
        ensures filled { counts.new.filled ≡ counted counts.old.filled (length laid.now.text) }
    {
        let text = laid.text();
        let filled = counts.take_filled(text.len());
        let properties = &mut self.analysis.properties;
        fill_properties(rules.tables, text, properties)?;
        let paragraph = Paragraph {
            text: Text {
                rules: *rules,
                characters: text,
                properties: &properties[..text.len()],
                ends: laid.ends(),
                base: laid.base(),
            },
            advances,
            levels: laid.levels(),
            marks: laid.marks(),
        };
        let (clusters, infos) = (&mut self.clusters, &mut self.infos);
        let mut lines = LineBuffers::new(alloc);
        let written = &mut counts.written;
        fill_lines(
            clusters, &paragraph, infos, width, &mut lines, filled, written,
        )?;
        Ok(Fill::of(lines))
    }
}

// Returns the extents of a single line whose shown part is `shown`.
fn extents_of_line(alloc: Global, shown: Shown, filled: Counted) -> Extents
    ensures { result ≡ record { starts = 0 ∷ []; shown = shown ∷ [] } }
{
    let mut extents = Extents::new(alloc);
    extents.put_line(shown, filled);
    extents
}
