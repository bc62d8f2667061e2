//! Prints the lines of a paragraph without keeping them.
ghost use Rattle.std.specs.Prelude.{◌≡◌, ◌<◌, ◌≤◌, true, false, length, IfErr, IsErrOf, OnOk};
ghost use Rattle.device.specs.Device.{Wrote};
ghost use Rattle.lines.specs.Engine.{counted, RisesBy};
ghost use Rattle.lines.specs.Pages.{paragraph_bytes};
ghost use Rattle.lines.specs.Paragraphs.{IsLookedUp, IsResolved, rules_in};
ghost use Rattle.lines.specs.Printing.{FailedAs};
ghost use Rattle.lines.specs.BufferedExtents.{AreExtentsOf};
ghost use Rattle.lines.specs.Whole.{IsWhole};
ghost use Rattle.lines.specs.declared.engine.TheConstants.{PARAGRAPH_LIMIT};

pub(crate) mod bytes;
pub(crate) mod print;
pub(crate) mod writing;

use crate::buffers::LineBuffers;
use crate::char_info::InfoBuffers;
use crate::clusters::ClusterBuffers;
use crate::counts::{Count, Counted, Counts};
use crate::one_line::one_line;
use crate::paragraph::{LentRules, Text};
use crate::printing::print::PrintFault;
use crate::printing::writing::{Form, write_each};
use crate::sizes::Ruler;
use crate::whole::{is_whole, write_whole};
use crate::workspace::{Workspace, fill_ends, fill_marks};
use breaks::Mark;
use device::Sink;
use std::alloc::{AllocError, Global};

impl Workspace {
    ghost use Rattle.device.specs.Device.{Wrote};
    ghost use Rattle.lines.specs.Counts.{LaysOutAll, LaysOutSome};
    ghost use Rattle.lines.specs.Engine.{counted};
    ghost use Rattle.lines.specs.Pages.{paragraph_bytes};
    ghost use Rattle.lines.specs.Paragraphs.{rules_in};
    ghost use Rattle.lines.specs.Printing.{FailedAs};

    /// Writes the lines of a paragraph. If an allocation fails, writes nothing.
    pub(crate) fn write<W: Sink>(
        &mut self,
        rules: &LentRules<'_>,
        text: &[char],
        form: &Form<'_>,
        counts: &mut Counts,
        writer: &mut W,
    ) -> Result<(), PrintFault>
        requires { length text.now ≤ PARAGRAPH_LIMIT }
        ensures ok { OnOk result (Wrote
            (paragraph_bytes (rules_in rules.now) form.now.width form.now.print.now text.now)
            (W.state writer.old) (W.state writer.new)) }
        ensures err { IfErr result (λ fault. FailedAs fault
            (paragraph_bytes (rules_in rules.now) form.now.width form.now.print.now text.now)
            (W.state writer.old) (W.state writer.new)) }
        ensures counts { ¬ (IsErrOf result PrintFault.Memory)
            → LaysOutAll (length text.now) counts.old counts.new }
        ensures unwritten { IsErrOf result PrintFault.Memory → counts.new.written ≡ counts.old.written }
        ensures at_most { LaysOutSome (length text.now) counts.old counts.new }
        ensures analysed { counts.new.analysed ≡ counted counts.old.analysed (length text.now) }
        ensures filled { counts.new.filled ≡ counted counts.old.filled (length text.now) }
    {
        let filled = counts.take_filled(text.len());
        let levels = &mut self.lists.levels;
        let Ok(base) = self
            .analysis
            .resolve(rules, text, levels, &mut counts.analysed)
        else {
            return Err(PrintFault::Memory);
        };
        let clusters = &mut self.clusters;
        let Ok(()) = fill_ends(clusters, rules.options, text, &mut self.lists.ends) else {
            return Err(PrintFault::Memory);
        };
        let text = Text {
            rules: *rules,
            characters: text,
            properties: &self.analysis.properties[..text.len()],
            ends: &self.lists.ends,
            base,
        };
        let written = &mut counts.written;
        if is_one_line(form, &text) {
            let (levels, lines) = (&self.lists.levels, &mut self.lists.lines);
            return write_one_line(writer, form, &text, levels, lines, filled, written);
        }
        let (marks, lines) = (&mut self.lists.marks, &mut self.lists.lines);
        let infos = &mut self.infos;
        let Ok(()) = fill_spans(clusters, &text, marks, infos, form.width, lines, filled) else {
            return Err(PrintFault::Memory);
        };
        write_lines(writer, form, &text, &self.lists.levels, lines, written)
    }
}

// Returns whether `write_one_line` can write a paragraph. The paragraph must be one line: it is not empty,
// `nobreak` is set, and no mandatory break comes before the end. Tab stops, shown spaces and printed
// characters are excluded, because they require columns.
fn is_one_line(form: &Form<'_>, text: &Text<'_>) -> bool
    requires { IsLookedUp text.now }
    ensures nobreak { result ≡ true → text.now.rules.options.nobreak ≡ true }
    ensures hidden { result ≡ true → text.now.rules.options.show_spaces ≡ false }
    ensures tabs { result ≡ true → text.now.rules.options.tab_width ≡ 0 }
    ensures unseen { result ≡ true → form.now.print.now.novisual ≡ true }
    ensures some { result ≡ true → 0 < length text.now.characters.now }
    ensures whole { result ≡ true → IsWhole text.now.rules.tables.now text.now.characters.now }
    ensures no { result ≡ false → text.now.rules.options.nobreak ≡ true
        → text.now.rules.options.show_spaces ≡ false → text.now.rules.options.tab_width ≡ 0
        → form.now.print.now.novisual ≡ true
        → 0 < length text.now.characters.now
        → ¬ (IsWhole text.now.rules.tables.now text.now.characters.now) }
{
    let options = text.rules.options;
    if !options.nobreak || options.show_spaces || options.tab_width > 0 {
        return false;
    }
    if !form.print.novisual || text.characters.is_empty() {
        return false;
    }
    is_whole(text)
}

// Writes a paragraph that is one line and whose characters are not printed.
fn write_one_line<W: Sink>(
    writer: &mut W,
    form: &Form<'_>,
    text: &Text<'_>,
    levels: &[u8],
    lines: &mut LineBuffers,
    filled: Counted,
    written: &mut Count,
) -> Result<(), PrintFault>
    requires counted { filled ≡ length text.now.characters.now }
    requires text { IsResolved text.now levels.now }
    requires some { 0 < length text.now.characters.now }
    requires whole { IsWhole text.now.rules.tables.now text.now.characters.now }
    requires nobreak { text.now.rules.options.nobreak ≡ true }
    requires hidden { text.now.rules.options.show_spaces ≡ false }
    requires tabs { text.now.rules.options.tab_width ≡ 0 }
    requires unseen { form.now.print.now.novisual ≡ true }
    ensures ok { OnOk result (Wrote (paragraph_bytes (rules_in text.now.rules)
        form.now.width form.now.print.now text.now.characters.now)
        (W.state writer.old) (W.state writer.new)) }
    ensures err { IfErr result (λ fault. FailedAs fault (paragraph_bytes (rules_in text.now.rules)
        form.now.width form.now.print.now text.now.characters.now)
        (W.state writer.old) (W.state writer.new)) }
    ensures counts { ¬ (IsErrOf result PrintFault.Memory)
        → written.new ≡ counted written.old (length text.now.characters.now) }
    ensures unwritten { IsErrOf result PrintFault.Memory → written.new ≡ written.old }
    ensures at_most { RisesBy (length text.now.characters.now) written.old written.new }
{
    let Ok(()) = lines.visual.grow_to(text.characters.len()) else {
        return Err(PrintFault::Memory);
    };
    match write_whole(
        writer,
        form,
        text,
        levels,
        &mut lines.visual,
        filled,
        written,
    ) {
        Ok(_) => Ok(()),
        Err(fault) => Err(PrintFault::Write(fault)),
    }
}

// Finds where each line of a paragraph starts, and how much of it is shown. Grows the buffers in
// `lines.visual` to the length of the paragraph. Uses `marks` as a buffer for the paragraph's break marks.
fn fill_spans(
    clusters: &mut ClusterBuffers,
    text: &Text<'_>,
    marks: &mut Vec<Mark>,
    infos: &mut InfoBuffers,
    width: u32,
    lines: &mut LineBuffers,
    filled: Counted,
) -> Result<(), AllocError>
    requires counted { filled ≡ length text.now.characters.now }
    requires text { IsLookedUp text.now }
    requires limit { length text.now.characters.now ≤ PARAGRAPH_LIMIT }
    ensures { OnOk result (AreExtentsOf text.now width lines.new) }
{
    lines.visual.grow_to(text.characters.len())?;
    infos.cache.prepare()?;
    if let Some(shown) = one_line(text, width, &mut infos.cache) {
        lines.extents.put_line(shown, filled);
        return Ok(());
    }
    fill_marks(text, marks)?;
    infos.fill(text, marks)?;
    let options = text.rules.options;
    let text = text.characters;
    let infos = &mut infos.infos[..text.len()];
    let ruler = Ruler { sizes: None, width };
    lines
        .extents
        .find(clusters, text, infos, ruler, options, filled)
}

// Writes the lines of a paragraph. `lines` holds their extents.
fn write_lines<W: Sink>(
    writer: &mut W,
    form: &Form<'_>,
    text: &Text<'_>,
    levels: &[u8],
    lines: &mut LineBuffers,
    written: &mut Count,
) -> Result<(), PrintFault>
    requires text { IsResolved text.now levels.now }
    requires spans { AreExtentsOf text.now form.now.width lines.old }
    ensures ok { OnOk result (Wrote (paragraph_bytes (rules_in text.now.rules)
        form.now.width form.now.print.now text.now.characters.now)
        (W.state writer.old) (W.state writer.new)) }
    ensures err { IfErr result (λ fault. FailedAs fault (paragraph_bytes
        (rules_in text.now.rules) form.now.width form.now.print.now
        text.now.characters.now) (W.state writer.old) (W.state writer.new)) }
    ensures memory { ¬ (IsErrOf result PrintFault.Memory) }
    ensures counts { written.new ≡ counted written.old (length text.now.characters.now) }
    ensures least { written.old ≤ written.new }
{
    match write_each(
        writer,
        form,
        text,
        &lines.extents,
        levels,
        &mut lines.visual,
        written,
    ) {
        Ok(_) => Ok(()),
        Err(fault) => Err(PrintFault::Write(fault)),
    }
}
