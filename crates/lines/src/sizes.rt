//! The sizes of characters: their columns or, in a measured paragraph, their advances. The size of a
//! character determines its width.
ghost use Rattle.std.specs.Prelude.{◌≡◌, ◌+◌, ◌*◌, ◌^◌, ◌<◌, ◌≤◌, nat_lt, ℕ, false, List, None, Option, Some};
ghost use Rattle.std.specs.Prelude.{drop, fold, length, slice_range, sum, take, IfSome};
ghost use Rattle.std.specs.List.{list_any};
ghost use Rattle.lines.specs.CharInfos.{advance, sized};
ghost use Rattle.lines.specs.Filling.{is_must, place_at};
ghost use Rattle.lines.specs.declared.char_info.CharInfo.{CharInfo};
ghost use Rattle.lines.specs.declared.char_info.TheConstants.{GROUP};
ghost use Rattle.lines.specs.declared.engine.TheConstants.{PARAGRAPH_LIMIT};

use crate::char_info::{CharInfo, GROUP, Sum};

/// Returns whether the advances of a paragraph add up to less than 2^32.
pub fn advances_fit(advances: &[u32]) -> bool
    requires { length advances.now ≤ PARAGRAPH_LIMIT }
    ensures { result ≡ nat_lt (sum advances.now) (2 ^ 32) }
{
    let mut sum: u64 = 0;
    for advance in advances {
        sum += u64::from(*advance);
    }
    sum < 1 << 32
}

/// The sizes of a paragraph's characters from some character on. The `infos` passed to the methods must start
/// at that character.
pub(crate) trait Sizes: Copy {
    // The advances, if the paragraph is measured.
    ghost given: { Self → Option (List ℕ) };

    // An upper bound on the total size of the first n characters, given n.
    ghost most: { Self → ℕ → ℕ };

    /// Returns the sizes from character `start` on.
    fn from(self, start: usize) -> Self
        ensures sizes { (infos : List CharInfo)
            → sized (given result) (drop start infos) ≡ drop start (sized (given self) infos) }
        ensures most { (k : ℕ) → most self start + most result k ≤ most self (start + k) };

    /// Returns the size of character `k`.
    fn size(self, infos: &[CharInfo], k: usize) -> u32
        requires { k < length infos.now }
        ensures size { place_at (sized (given self) infos.now) k
            ≡ record (place_at infos.now k) { columns = result } }
        ensures most { most self k + result ≤ most self (k + 1) };

    /// Returns the `Sum` of the `GROUP` characters from `k` on, or `None` if they must be read one by one.
    fn group(self, infos: &[CharInfo], k: usize) -> Option<Sum>
        requires { k + GROUP ≤ length infos.now }
        ensures columns { IfSome result (λ group. group.has_tab ≡ false → (before : ℕ)
            → fold advance before (slice_range (sized (given self) infos.now) k (k + GROUP))
            ≡ before + group.columns) }
        ensures must { IfSome result (λ group. group.has_must
            ≡ list_any (λ p. is_must p.mark) (slice_range (sized (given self) infos.now) k (k + GROUP))) }
        ensures most { IfSome result (λ group. most self k + group.columns ≤ most self (k + GROUP)) };
}

/// Sizes in columns, which the characters' infos hold.
#[derive(Clone, Copy)]
pub(crate) struct ByColumns;

impl Sizes for ByColumns {
    ghost given = { λ _. None };

    ghost most = { λ _ k. 255 * k };

    fn from(self, _start: usize) -> ByColumns {
        self
    }

    fn size(self, infos: &[CharInfo], k: usize) -> u32 {
        u32::from(infos[k].columns)
    }

    fn group(self, infos: &[CharInfo], k: usize) -> Option<Sum> {
        Some(Sum::of(&infos[k..k + GROUP]))
    }
}

/// Sizes that are advances, in the caller's unit. Characters past the last advance have size 0.
#[derive(Clone, Copy)]
pub(crate) struct ByAdvances<'a> {
    pub(crate) advances: &'a [u32],
}

impl<'a> Sizes for ByAdvances<'a> {
    ghost given = { λ sizes. Some sizes.advances.now };

    ghost most = { λ sizes k. sum (take k sizes.advances.now) };

    fn from(self, start: usize) -> ByAdvances<'a> {
        let start = start.min(self.advances.len());
        ByAdvances {
            advances: &self.advances[start..],
        }
    }

    fn size(self, _infos: &[CharInfo], k: usize) -> u32 {
        if k < self.advances.len() {
            self.advances[k]
        } else {
            0
        }
    }

    fn group(self, _infos: &[CharInfo], _k: usize) -> Option<Sum> {
        None
    }
}

/// The sizes of a paragraph's characters, and the maximum width of its lines.
#[derive(Clone, Copy)]
pub(crate) struct Ruler<S> {
    pub(crate) sizes: S,
    pub(crate) width: u32,
}

impl<S: Sizes> Ruler<S> {
    /// Returns the ruler for the characters from `start` on.
    pub(crate) fn from(self, start: usize) -> Ruler<S>
        ensures sizes { (infos : List CharInfo) → sized (S.given result.sizes) (drop start infos)
            ≡ drop start (sized (S.given self.sizes) infos) }
        ensures width { result.width ≡ self.width }
    {
        Ruler {
            sizes: self.sizes.from(start),
            width: self.width,
        }
    }
}
