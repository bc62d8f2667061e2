//! Checks whether the advances of each paragraph of a measured text add up to less than 2^32, in one pass and
//! without allocating.
ghost use Rattle.std.specs.Prelude.{◌≡◌, ◌+◌, ◌^◌, ◌<◌, ◌++◌, ◌∷◌, [], true, ℕ, Bool, List};
ghost use Rattle.std.specs.Prelude.{length, replicate, sum, IfSome};
ghost use Rattle.std.specs.Str.{chars};
ghost use Rattle.bidi.specs.Cuts.{paragraphs};
ghost use Rattle.lines.specs.Engine.{rules_of};
ghost use Rattle.lines.specs.Layouts.{cut_by};
ghost use Rattle.session.specs.Edits.{have_room};
ghost use Rattle.session.specs.Joined.{joined_text};

use crate::joined::Part;
use bidi::paragraphs_are_pieces;
use lines::Engine;

/// What a scan knows about the characters read so far.
#[derive(Clone, Copy, Debug)]
pub struct RoomScan {
    last: Option<char>,
    // The sum of the advances of the last paragraph, unless some sum is too large.
    sum: u32,
    is_over: bool,
}

impl RoomScan {
    ghost use Rattle.session.specs.Scans.{HasSummed, is_over_scan};

    /// Returns the state before any character is read.
    pub fn new() -> RoomScan
        ensures { (is_cut : ℕ → ℕ → Bool) → HasSummed is_cut [] [] result }
    {
        RoomScan {
            last: None,
            sum: 0,
            is_over: false,
        }
    }

    /// Reads one more character and its advance.
    pub fn take(&mut self, engine: &Engine, c: char, advance: u32)
        ensures { (text list : List ℕ) → HasSummed (cut_by (rules_of engine.now)) text list self.old
            → HasSummed (cut_by (rules_of engine.now)) (text ++ c ∷ []) (list ++ advance ∷ []) self.new }
    {
        // By this theorem, the paragraphs make up the text.
        paragraphs_are_pieces();
        let starts_paragraph = self.last.is_some_and(|last| engine.is_cut(last, c));
        if starts_paragraph {
            self.sum = 0;
        }
        match self.sum.checked_add(advance) {
            Some(sum) => self.sum = sum,
            None => self.is_over = true,
        }
        self.last = Some(c);
    }

    /// Reads more characters and their advances.
    pub fn take_all(&mut self, engine: &Engine, part: &[char], advances: &[u32])
        requires { length advances.now ≡ length part.now }
        ensures { (text list : List ℕ) → HasSummed (cut_by (rules_of engine.now)) text list self.old
            → HasSummed (cut_by (rules_of engine.now)) (text ++ part.now) (list ++ advances.now) self.new }
    {
        for k in 0..part.len() {
            self.take(engine, part[k], advances[k]);
        }
    }

    /// Reads the characters of a string, which have advance 0.
    pub fn take_text(&mut self, engine: &Engine, part: &str)
        ensures { (text list : List ℕ) → HasSummed (cut_by (rules_of engine.now)) text list self.old
            → HasSummed (cut_by (rules_of engine.now)) (text ++ chars part.now)
            (list ++ replicate (length (chars part.now)) 0) self.new }
    {
        for c in part.chars() {
            self.take(engine, c, 0);
        }
    }

    /// Returns whether the advances of any paragraph read so far add up to 2^32 or more.
    pub fn is_over(&self) -> bool
        ensures { result ≡ is_over_scan self.now }
    {
        self.is_over
    }
}

// Returns the sum of advances, or `None` if it is 2^32 or more.
fn sum_of(advances: &[u32]) -> Option<u32>
    ensures { IfSome result (λ total. total ≡ sum advances.now) }
{
    let mut total: u32 = 0;
    for advance in advances {
        total = total.checked_add(*advance)?;
    }
    Some(total)
}

// Returns whether two lists of advances together add up to less than 2^32.
fn fit_together(front: &[u32], back: &[u32]) -> bool
    ensures { result ≡ true → sum front.now + sum back.now < 2 ^ 32 }
{
    match (sum_of(front), sum_of(back)) {
        (Some(first), Some(last)) => first.checked_add(last).is_some(),
        _ => false,
    }
}

/// Returns whether the advances of each paragraph of the joined text add up to less than 2^32, if inserted
/// characters have advance 0.
#[inline(never)] // so that edits of texts that are not measured do not clear its frame
pub fn has_room(engine: &Engine, front: &Part<'_>, piece: &str, back: &Part<'_>) -> bool
    requires front { length front.now.advances.now ≡ length front.now.text.now }
    requires back { length back.now.advances.now ≡ length back.now.text.now }
    ensures { result ≡ have_room (front.now.advances.now
        ++ (replicate (length (chars piece.now)) 0 ++ back.now.advances.now))
        (paragraphs (cut_by (rules_of engine.now)) (joined_text front.now piece.now back.now)) }
{
    // Fast path: no paragraph's sum exceeds that of the whole text.
    if fit_together(front.advances, back.advances) {
        return true;
    }
    let mut scan = RoomScan::new();
    scan.take_all(engine, front.text, front.advances);
    scan.take_text(engine, piece);
    scan.take_all(engine, back.text, back.advances);
    !scan.is_over()
}
