//! What joining depends on: joining types and levels.
ghost use Rattle.std.specs.Prelude.{◌≡◌, ◌<◌, List, length, Option};
ghost use Rattle.joining.specs.Joiners.{joiner_at, joins_after, joins_before, is_transparent};
ghost use Rattle.joining.specs.Joiners.{joins_left, joins_right, is_rtl};
ghost use Rattle.joining.specs.declared.joiner.Joiner.{Joiner};

use ucd_bidi::JoiningType;

/// A character: its joining type, and its level before L1, which is `None` if X9 removes the character.
#[derive(Clone, Copy)]
pub struct Joiner {
    pub joining: JoiningType,
    pub level: Option<u8>,
}

/// Which levels the characters from one to another must have, so that the two join. Characters that X9
/// removes have none.
#[derive(Clone, Copy)]
pub enum Agreement {
    /// All have the same level.
    All,
    /// All have the level of the first. If X9 removes the first, they may have any levels. This is FriBidi's
    /// condition.
    WithFirst,
}

/// The characters of a text.
pub trait Joiners {
    ghost all: { Self → List Joiner };

    /// Returns the number of characters.
    fn len(&self) -> usize
        ensures { result ≡ length (all self.now) };

    /// Returns the character at an index.
    fn joiner_at(&self, k: usize) -> Joiner
        requires { k < length (all self.now) }
        ensures { result ≡ joiner_at (all self.now) k };
}

// Returns whether a joining type joins to the right.
fn joins_right(joining: JoiningType) -> bool
    ensures { result ≡ joins_right joining }
{
    match joining {
        JoiningType::RightJoining | JoiningType::DualJoining | JoiningType::JoinCausing => true,
        JoiningType::LeftJoining | JoiningType::Transparent | JoiningType::NonJoining => false,
    }
}

// Returns whether a joining type joins to the left.
fn joins_left(joining: JoiningType) -> bool
    ensures { result ≡ joins_left joining }
{
    match joining {
        JoiningType::LeftJoining | JoiningType::DualJoining | JoiningType::JoinCausing => true,
        JoiningType::RightJoining | JoiningType::Transparent | JoiningType::NonJoining => false,
    }
}

/// A list of characters.
#[derive(Clone, Copy)]
pub struct ListedJoiners<'a> {
    pub joiners: &'a [Joiner],
}

impl Joiners for ListedJoiners<'_> {
    ghost all = { λ s. s.joiners.now };

    fn len(&self) -> usize {
        self.joiners.len()
    }

    fn joiner_at(&self, k: usize) -> Joiner {
        self.joiners[k]
    }
}

impl Joiner {
    /// Returns whether the character before this one is on its right, as at odd levels.
    pub fn is_rtl(self) -> bool
        ensures { result ≡ is_rtl self.level }
    {
        match self.level {
            Some(level) => level % 2 == 1,
            None => true,
        }
    }

    /// Returns whether the character joins those before it that fit.
    pub fn joins_before(self) -> bool
        ensures { result ≡ joins_before self }
    {
        if self.is_rtl() {
            joins_right(self.joining)
        } else {
            joins_left(self.joining)
        }
    }

    /// Returns whether the character joins those after it that fit.
    pub fn joins_after(self) -> bool
        ensures { result ≡ joins_after self }
    {
        if self.is_rtl() {
            joins_left(self.joining)
        } else {
            joins_right(self.joining)
        }
    }

    /// Returns whether the character is transparent: those around it join as if it were not there.
    pub fn is_transparent(self) -> bool
        ensures { result ≡ is_transparent self }
    {
        match self.joining {
            JoiningType::Transparent => true,
            _ => false,
        }
    }
}
