//! The links of OSC 8.
ghost use Rattle.std.specs.Prelude.{◌≡◌, ◌∷◌, ◌≤◌, [], length, MatchOption, Some, None};
ghost use Rattle.sequences.specs.Parameters.{osc_link, uri_link};

use crate::parts::part_end;

/// The maximum total length of a paragraph's links, in characters. URIs are ASCII, so this is 1 MB.
pub const MAX_LINKS_LEN: usize = 1_048_576;

/// Returns the link that an OSC string sets, given the text after OSC. The link is empty if the string ends a
/// link. Returns `None` if the string is not a valid OSC 8.
pub(crate) fn osc_link(text: &[char]) -> Option<&[char]>
    ensures { MatchOption result (osc_link text.now ≡ None) (λ link. osc_link text.now ≡ Some link.now) }
{
    match text {
        ['8', ';', link @ ..] => uri_link(link),
        _ => None,
    }
}

// Returns the link that an OSC 8 string sets, given the text after `8;`: parameters, a semicolon and a URI.
// The link is empty if the URI is empty. Returns `None` if there is no semicolon.
fn uri_link(link: &[char]) -> Option<&[char]>
    ensures { MatchOption result (uri_link link.now ≡ None) (λ found. uri_link link.now ≡ Some found.now) }
{
    let end = part_end(';', link);
    if end == link.len() {
        None
    } else if end + 1 == link.len() {
        Some(&[])
    } else {
        Some(link)
    }
}
