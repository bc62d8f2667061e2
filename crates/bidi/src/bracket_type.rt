//! Bracket types: whether a character is an opening or a closing bracket, and which brackets it can pair with
//! (UAX #9, BD14 and BD15).
ghost use Rattle.std.specs.Prelude.{◌≡◌, ◌<◌, ◌≤◌, ℕ, false, length, slice_index_or, Bool};
ghost use Rattle.ucd.specs.Tables.{bracket_of};
ghost use Rattle.bidi.specs.BracketTypes.{is_bracket, type_by};
ghost use Rattle.bidi.specs.Plain.{has_bracket_in};

use ucd::{Properties, Tables};

/// The bracket type of a character. An opening and a closing bracket can form a pair if they have the same
/// number. In bracket types derived from tables, the number is the code point of the pair's closing bracket.
/// U+2329 counts as U+3008, and U+232A as U+3009. Callers that choose bracket types without tables may use
/// any numbers that are the same for both brackets of a pair.
#[derive(Clone, Copy, Debug, PartialEq, Eq)]
pub enum BracketType {
    /// Not a bracket.
    Other,
    Opening(u32),
    Closing(u32),
}

impl Default for BracketType {
    ghost use Rattle.bidi.specs.declared.bracket_type.BracketType.TheVariants.{Other};

    // `Other`, because most characters are not brackets.
    ghost is_default = { λ bracket. bracket ≡ Other };

    fn default() -> BracketType {
        BracketType::Other
    }
}

/// Returns a character's bracket type according to the tables.
pub(crate) fn bracket_type(tables: &Tables, character: char) -> BracketType
    ensures { result ≡ type_by (bracket_of tables.now character) character }
{
    match tables.bracket(character) {
        Some(bracket) => {
            if bracket.opens {
                BracketType::Opening(bracket.pair as u32)
            } else {
                BracketType::Closing(character as u32)
            }
        }
        None => BracketType::Other,
    }
}

/// Returns whether a bracket type is `Opening` or `Closing`.
pub(crate) fn is_bracket(bracket: BracketType) -> bool
    ensures { result ≡ is_bracket bracket }
{
    !matches!(bracket, BracketType::Other)
}

/// An item that may be a bracket. `next_bracket` searches lists of such items.
pub(crate) trait MaybeBracket {
    ghost is_one: { Self → Bool };

    fn is_one(&self) -> bool
        ensures { result ≡ is_one self.now };
}

impl MaybeBracket for BracketType {
    ghost is_one = { λ b. is_bracket b };

    fn is_one(&self) -> bool {
        is_bracket(*self)
    }
}

impl MaybeBracket for Properties {
    ghost is_one = { λ p. has_bracket_in p };

    fn is_one(&self) -> bool {
        self.has_bracket()
    }
}

/// Returns the index of the first bracket at or after `from`, or the length if there is none.
pub(crate) fn next_bracket<T: MaybeBracket>(items: &[T], from: usize) -> usize
    requires { from ≤ length items.now }
    ensures reached { from ≤ result }
    ensures within { result ≤ length items.now }
    ensures passed { (m : ℕ) (e : T) → from ≤ m → m < result
        → T.is_one (slice_index_or items.now m e) ≡ false }
{
    let mut at = after_groups(items, from);
    while at < items.len() && !items[at].is_one() {
        at += 1;
    }
    at
}

// The number of items that are tested together.
const AT_ONCE: usize = 8;

// Skips groups of items that contain no bracket, starting at `from`. Returns the index after the last such
// group.
fn after_groups<T: MaybeBracket>(items: &[T], from: usize) -> usize
    requires { from ≤ length items.now }
    ensures reached { from ≤ result }
    ensures within { result ≤ length items.now }
    ensures passed { (m : ℕ) (e : T) → from ≤ m → m < result
        → T.is_one (slice_index_or items.now m e) ≡ false }
{
    let mut at = from;
    while items.len() - at >= AT_ONCE && !has_bracket(&items[at..at + AT_ONCE]) {
        at += AT_ONCE;
    }
    at
}

// Returns whether any of the items is a bracket. The loop has no branches, so the compiler can test several
// items at a time.
#[inline(always)] // so that the loop over a group knows its length
fn has_bracket<T: MaybeBracket>(items: &[T]) -> bool
    ensures { result ≡ false → (m : ℕ) (e : T) → m < length items.now
        → T.is_one (slice_index_or items.now m e) ≡ false }
{
    let mut any = false;
    for item in items {
        any |= item.is_one();
    }
    any
}
