//! A fast path for paragraphs without a mandatory break before their end. It requires that lines end only at
//! mandatory breaks and hide spaces at their end, that there are no tab stops, and that no characters are
//! printed. Such a paragraph is one line. Neither its break marks nor its columns are computed.
ghost use Rattle.std.specs.Prelude.{◌≡◌, ◌<◌, ◌≤◌, Bool, true, false, length, None, IfOk, IfErr};
ghost use Rattle.std.specs.List.{list_all};
ghost use Rattle.breaks.specs.Bases.{resolved};
ghost use Rattle.lines.specs.Buffers.{CanHold};
ghost use Rattle.lines.specs.Engine.{counted};
ghost use Rattle.lines.specs.Pages.{lines_bytes};
ghost use Rattle.lines.specs.Paragraphs.{HasEnds, IsLookedUp, lines_at};
ghost use Rattle.lines.specs.Tabs.{tab_width_in};
ghost use Rattle.lines.specs.Whole.{ends_line, is_cr, is_lf, may_go_on, IsEndLen, IsShownLen, IsWhole};
ghost use Rattle.lines.specs.Writing.{PassedOn, StoppedIn};
ghost use Rattle.lines.specs.declared.engine.TheConstants.{PARAGRAPH_LIMIT};

use crate::buffers::VisualBuffers;
use crate::char_info::trailing_of;
use crate::counts::{Count, Counted};
use crate::fill::Shown;
use crate::paragraph::{LogicalLine, Text};
use crate::printing::bytes::WriteFault;
use crate::printing::writing::{Form, write_line};
use breaks::marks_are_as_many;
use device::Sink;
use ucd::{LineClass, Properties};

/// Returns whether no character of the paragraph is of a class after which a line must end, except the last
/// and the CR of a final CR LF.
pub(crate) fn is_whole(text: &Text<'_>) -> bool
    requires { IsLookedUp text.now }
    ensures yes { result ≡ true → IsWhole text.now.rules.tables.now text.now.characters.now }
    ensures no { result ≡ false → ¬ (IsWhole text.now.rules.tables.now text.now.characters.now) }
{
    let properties = text.properties;
    end_no_line(&properties[..properties.len().saturating_sub(end_len(text))])
}

// Returns 2 if the paragraph ends in CR LF, and otherwise 1.
fn end_len(text: &Text<'_>) -> usize
    requires { IsLookedUp text.now }
    ensures { IsEndLen text.now.rules.tables.now text.now.characters.now result }
{
    let properties = text.properties;
    let len = properties.len();
    if len < 2 {
        return 1;
    }
    if is_cr(properties[len - 2].line_class()) & is_lf(properties[len - 1].line_class()) {
        2
    } else {
        1
    }
}

fn is_cr(class: LineClass) -> bool
    ensures { (is_mark : Bool) → result ≡ is_cr (resolved class is_mark) }
{
    class as u8 == LineClass::CR as u8
}

fn is_lf(class: LineClass) -> bool
    ensures { (is_mark : Bool) → result ≡ is_lf (resolved class is_mark) }
{
    class as u8 == LineClass::LF as u8
}

// Returns whether none of the characters is of a class after which a line must end. CR counts as such a class
// even before LF. The loop has no branches, so the compiler can test several characters at a time.
fn end_no_line(properties: &[Properties]) -> bool
    ensures { result ≡ list_all may_go_on properties.now }
{
    let mut none = true;
    for at in 0..properties.len() {
        none &= !ends_line(properties[at].line_class());
    }
    none
}

// Returns whether a line must end after a character of this class. Returns `true` for CR, even though no line
// ends between CR and LF. Uses comparisons instead of a `match`, so that the loop above has no branches.
fn ends_line(class: LineClass) -> bool
    ensures { (is_mark : Bool) → result ≡ ends_line (resolved class is_mark) }
{
    let number = class as u8;
    (number == LineClass::BK as u8)
        | ((number == LineClass::CR as u8)
            | ((number == LineClass::LF as u8) | (number == LineClass::NL as u8)))
}

/// Returns how many characters of a one-line paragraph are shown: all but its tail.
pub(crate) fn shown_len(text: &Text<'_>) -> usize
    requires { IsLookedUp text.now }
    ensures { IsShownLen text.now.rules.tables.now text.now.characters.now result }
{
    let properties = text.properties;
    let mut len = properties.len();
    while len > 0 && trailing_of(properties[len - 1].line_class()).may_trail() {
        len -= 1;
    }
    len
}

/// Writes a one-line paragraph, given its levels before L1, and returns the number of bytes written. Uses the
/// front of `visual` as scratch space. Counts the characters.
pub(crate) fn write_whole<W: Sink>(
    writer: &mut W,
    form: &Form<'_>,
    text: &Text<'_>,
    levels: &[u8],
    visual: &mut VisualBuffers,
    _filled: Counted,
    written: &mut Count,
) -> Result<u64, WriteFault>
    requires counted { _filled ≡ length text.now.characters.now }
    requires text { IsLookedUp text.now }
    requires ends { HasEnds text.now }
    requires limit { length text.now.characters.now ≤ PARAGRAPH_LIMIT }
    requires some { 0 < length text.now.characters.now }
    requires whole { IsWhole text.now.rules.tables.now text.now.characters.now }
    requires nobreak { text.now.rules.options.nobreak ≡ true }
    requires hidden { text.now.rules.options.show_spaces ≡ false }
    requires tabs { text.now.rules.options.tab_width ≡ 0 }
    requires unseen { form.now.print.now.novisual ≡ true }
    requires levels { length levels.now ≡ length text.now.characters.now }
    requires visual { CanHold (length text.now.characters.now) visual.old }
    ensures ok { IfOk result (λ n. PassedOn (lines_bytes form.now.width form.now.print.now text.now.base
        (tab_width_in text.now.rules.tables.now text.now.rules.options) None
        text.now.characters.now (lines_at None text.now levels.now form.now.width)) 0
        (W.state writer.old) (W.state writer.new) n) }
    ensures err { IfErr result (λ fault. StoppedIn (lines_bytes form.now.width form.now.print.now
        text.now.base (tab_width_in text.now.rules.tables.now text.now.rules.options) None
        text.now.characters.now (lines_at None text.now levels.now form.now.width)) 0
        (W.state writer.old) (W.state writer.new) fault.written) }
    ensures counts { written.new ≡ counted written.old (length text.now.characters.now) }
    ensures least { written.old ≤ written.new }
{
    written.raise(text.characters.len());
    let whole_numbers = text.rules.options.whole_numbers;
    marks_are_as_many(text.rules.tables, text.characters, whole_numbers);
    let line = LogicalLine {
        text: *text,
        levels,
        shown: Shown {
            len: shown_len(text) as u32,
            columns: 0,
        },
        is_first: true,
    };
    write_line(writer, 0, form, &line, visual)
}
