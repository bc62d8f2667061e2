//! The bases before a position, with what the rules need to know about runs of spaces, digits and regional
//! indicators, so that no run is read twice.
ghost use Rattle.std.specs.Prelude.{◌≡◌, ◌∷◌, [], length, map};
ghost use Rattle.breaks.specs.Numbers.{is_in_number};
ghost use Rattle.breaks.specs.Reasons.{chars_in, start_of};
ghost use Rattle.breaks.specs.Rules as rules;
ghost use Rattle.breaks.specs.Seen.{base_in};
ghost use Rattle.breaks.specs.Walk.{ends_in_closed_digits};
ghost use Rattle.ucd.specs.declared.line_class.LineClass.TheVariants.{CL, CP};

use crate::bases::{BaseCharacter, is_one_of};
use crate::conditions::{begins_unaffixed, is};
use std::marker::Model;
use ucd::LineClass;

/// The bases before a position, the nearest first.
#[derive(Drop)]
pub struct Before<'b, 'a> {
    pub bases: &'b [BaseCharacter<'a>],
    // How many spaces directly precede the position.
    spaces: usize,
    // Where the base before these spaces starts, or `None` if there is none.
    behind_spaces: Option<usize>,
    is_odd_run: bool,
    ends_in_number: bool,
    ends_in_digits: bool,
    // The values of the two fields above for all bases except the nearest one.
    rest_ends_in_number: bool,
    rest_ends_in_digits: bool,
}

impl<'b, 'a> Model for Before<'b, 'a> {
    ghost use Rattle.std.specs.Prelude.{◌≡◌, ◌≤◌, List, drop, length, map};
    ghost use Rattle.breaks.specs.Bases.{BaseCharacter};
    ghost use Rattle.breaks.specs.Reasons.{start_of};
    ghost use Rattle.breaks.specs.Rules as rules;
    ghost use Rattle.breaks.specs.Seen.{base_in, rest};
    ghost use Rattle.breaks.specs.Walk as walk;

    ghost Value = { List BaseCharacter };

    ghost view = { λ b. map base_in b.bases.now };

    ghost invariant = { λ b. (b.spaces ≤ length b.bases.now)
        × (map base_in (drop b.spaces b.bases.now) ≡ rules.without_spaces (map base_in b.bases.now))
        × (b.behind_spaces ≡ start_of (rules.without_spaces (map base_in b.bases.now)))
        × (b.is_odd_run ≡ rules.ends_in_odd_run (map base_in b.bases.now))
        × (b.ends_in_number ≡ rules.ends_in_number (map base_in b.bases.now))
        × (b.ends_in_digits ≡ walk.ends_in_digits (map base_in b.bases.now))
        × (b.rest_ends_in_number ≡ rules.ends_in_number (rest (map base_in b.bases.now)))
        × (b.rest_ends_in_digits ≡ walk.ends_in_digits (rest (map base_in b.bases.now))) };
}

impl<'b, 'a> Before<'b, 'a> {
    /// Returns the value for the start of a text. `bases` must be empty.
    pub fn none(bases: &'b [BaseCharacter<'a>]) -> Before<'b, 'a>
        requires { length bases.now ≡ 0 }
        ensures { result ≡ [] }
    {
        Before {
            bases,
            spaces: 0,
            behind_spaces: None,
            is_odd_run: false,
            ends_in_number: false,
            ends_in_digits: false,
            rest_ends_in_number: false,
            rest_ends_in_digits: false,
        }
    }

    /// Returns the value for the position after `base`, which starts at `start`. `bases` must hold `base` and
    /// then the bases of `self`.
    pub fn next(
        &self,
        base: &BaseCharacter<'a>,
        bases: &'b [BaseCharacter<'a>],
        start: usize,
    ) -> Before<'b, 'a>
        requires bases { map base_in bases.now ≡ base_in base.now ∷ self.now }
        requires start { start ≡ chars_in self.now }
        ensures { result ≡ map base_in bases.now }
    {
        let class = base.class();
        let (spaces, behind_spaces) = if class == LineClass::SP {
            (self.spaces + 1, self.behind_spaces)
        } else {
            (0, Some(start))
        };
        let is_digit = class == LineClass::NU;
        let is_middle = is_one_of(&[LineClass::IS, LineClass::SY], class);
        let is_part = is_one_of(&[LineClass::NU, LineClass::SY, LineClass::IS], class);
        Before {
            bases,
            spaces,
            behind_spaces,
            is_odd_run: (class == LineClass::RI) & !self.is_odd_run,
            ends_in_number: is_digit | (is_middle & self.ends_in_number),
            ends_in_digits: is_digit | (is_part & self.ends_in_digits),
            rest_ends_in_number: self.ends_in_number,
            rest_ends_in_digits: self.ends_in_digits,
        }
    }

    /// Returns where the nearest base that is not a space starts, or `None` if there is none.
    pub fn behind_spaces(&self) -> Option<usize>
        ensures { result ≡ start_of (rules.without_spaces self.now) }
    {
        self.behind_spaces
    }

    /// Returns the bases before the spaces that directly precede the position, or all bases if none do.
    pub fn without_spaces(&self) -> &'b [BaseCharacter<'a>]
        ensures { map base_in result.now ≡ rules.without_spaces self.now }
    {
        &self.bases[self.spaces..]
    }

    /// Returns whether the nearest base that is not a space has one of the classes.
    pub fn is_spaced(&self, classes: &[LineClass]) -> bool
        ensures { result ≡ rules.is_spaced classes.now self.now }
    {
        is(classes, self.without_spaces())
    }

    /// LB30a: returns whether the run of RI before the position has an odd length.
    pub fn ends_in_odd_run(&self) -> bool
        ensures { result ≡ rules.ends_in_odd_run self.now }
    {
        self.is_odd_run
    }

    /// LB25 of 17.0: returns whether the bases end in a number, `NU ( SY | IS )*`.
    pub fn ends_in_number(&self) -> bool
        ensures { result ≡ rules.ends_in_number self.now }
    {
        self.ends_in_number
    }

    /// LB25 of 17.0: returns whether the nearest base is a CL or CP that follows a number.
    pub fn ends_in_closed_number(&self) -> bool
        ensures { result ≡ rules.followed (rules.is (CL ∷ CP ∷ [])) rules.ends_in_number self.now }
    {
        is(&[LineClass::CL, LineClass::CP], self.bases) && self.rest_ends_in_number
    }

    // LB25 of 15.0: returns whether the nearest base is a CL or CP that follows `NU ( NU | SY | IS )*`.
    fn ends_in_closed_digits(&self) -> bool
        ensures { result ≡ ends_in_closed_digits self.now }
    {
        is(&[LineClass::CL, LineClass::CP], self.bases) && self.rest_ends_in_digits
    }

    /// LB25 of 15.0 for whole numbers: returns whether the position is inside a number, given the bases after
    /// the position.
    #[tactic(auto, using(crate::proofs::NumberLemmas::in_number_is))]
    pub fn is_in_number(&self, after: &[BaseCharacter<'_>]) -> bool
        ensures { result ≡ is_in_number self.now (map base_in after.now) }
    {
        let affix = [LineClass::PR, LineClass::PO];
        let goes_on = [
            LineClass::NU,
            LineClass::SY,
            LineClass::IS,
            LineClass::CL,
            LineClass::CP,
            LineClass::PR,
            LineClass::PO,
        ];
        let before = self.bases;
        (is(&affix, before) && begins_unaffixed(after))
            || (is(&[LineClass::OP, LineClass::HY], before) && is(&[LineClass::NU], after))
            || (self.ends_in_digits && is(&goes_on, after))
            || (self.ends_in_closed_digits() && is(&affix, after))
    }
}
