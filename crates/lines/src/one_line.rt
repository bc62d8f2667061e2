//! A fast path for short paragraphs that fit on one line. To find the line of such a paragraph, neither its
//! break marks nor the infos of its characters are needed.
ghost use Rattle.std.specs.Prelude.{◌≡◌, ◌<◌, ◌≤◌, true, false, length, IfSome};
ghost use Rattle.lines.specs.OneLine.{IsOneLine};
ghost use Rattle.lines.specs.Paragraphs.{IsLookedUp};
ghost use Rattle.lines.specs.declared.engine.TheConstants.{PARAGRAPH_LIMIT};

use crate::column_cache::ColumnCache;
use crate::fill::Shown;
use crate::paragraph::Text;
use crate::whole::{is_whole, shown_len};
use breaks::{marks_are_as_many, paragraphs_end_at_must};

/// Returns how much of a paragraph is shown if a quick test finds that it is one line, and `None` otherwise.
/// The test requires that no mandatory break comes before the end, and that the shown part fits in the width.
pub(crate) fn one_line(text: &Text<'_>, width: u32, cache: &mut ColumnCache) -> Option<Shown>
    requires text { IsLookedUp text.now }
    requires limit { length text.now.characters.now ≤ PARAGRAPH_LIMIT }
    ensures some { IfSome result (λ part. 0 < length text.now.characters.now) }
    ensures line { IfSome result (λ part. IsOneLine text.now width part) }
{
    if !may_be_one_line(text, width) || !is_whole(text) {
        return None;
    }
    marks_are_as_many(
        text.rules.tables,
        text.characters,
        text.rules.options.whole_numbers,
    );
    paragraphs_end_at_must();
    let len = shown_len(text);
    let columns = cache.sum(&text.characters[..len]);
    if columns > width {
        return None;
    }
    Some(Shown {
        len: len as u32,
        columns,
    })
}

// Returns whether `one_line` can be used and is likely to succeed. Tab stops and shown spaces are excluded,
// so that the width is the sum of the columns of the characters before the tail. A paragraph with more
// characters than `width` rarely fits.
fn may_be_one_line(text: &Text<'_>, width: u32) -> bool
    ensures some { result ≡ true → 0 < length text.now.characters.now }
    ensures few { result ≡ true → length text.now.characters.now ≤ width }
    ensures hidden { result ≡ true → text.now.rules.options.show_spaces ≡ false }
    ensures tabs { result ≡ true → text.now.rules.options.tab_width ≡ 0 }
{
    let options = text.rules.options;
    if options.show_spaces || options.tab_width > 0 || text.characters.is_empty() {
        return false;
    }
    text.characters.len() <= width as usize
}
