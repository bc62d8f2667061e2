//! The rules' conditions on the bases before a position or after it. The nearest base comes first. Most
//! functions implement the definitions of the same name in specs/Rules.antt.
ghost use Rattle.std.specs.Prelude.{◌≡◌, ◌∷◌, [], map};
ghost use Rattle.breaks.specs.Rules as rules;
ghost use Rattle.ucd.specs.declared.line_detail.LineDetail.TheVariants.{Final};
ghost use Rattle.ucd.specs.declared.line_class.LineClass.TheVariants.{AK, AS, HH, HY, IS, NU, OP, VF, VI};
ghost use Rattle.breaks.specs.Seen.{base_in, rest};
ghost use Rattle.breaks.specs.Walk.{begins_unaffixed};

use crate::bases::{BaseCharacter, is_one_of};
use ucd::{LineClass, LineDetail};

pub fn is(classes: &[LineClass], bases: &[BaseCharacter<'_>]) -> bool
    ensures { result ≡ rules.is classes.now (map base_in bases.now) }
{
    match bases.first() {
        Some(base) => is_one_of(classes, base.class()),
        None => false,
    }
}

pub fn is_narrow(classes: &[LineClass], bases: &[BaseCharacter<'_>]) -> bool
    ensures { result ≡ rules.is_narrow classes.now (map base_in bases.now) }
{
    match bases.first() {
        Some(base) => is_one_of(classes, base.class()) && !base.first.is_wide,
        None => false,
    }
}

pub fn is_not(classes: &[LineClass], bases: &[BaseCharacter<'_>]) -> bool
    ensures { result ≡ rules.is_not classes.now (map base_in bases.now) }
{
    match bases.first() {
        Some(base) => !is_one_of(classes, base.class()),
        None => false,
    }
}

/// Returns all bases except the nearest one.
pub fn rest<'b, 'a>(bases: &'b [BaseCharacter<'a>]) -> &'b [BaseCharacter<'a>]
    ensures { map base_in result.now ≡ rest (map base_in bases.now) }
{
    &bases[bases.len().min(1)..]
}

pub fn is_pair(firsts: &[LineClass], classes: &[LineClass], bases: &[BaseCharacter<'_>]) -> bool
    ensures { result ≡ rules.is_pair firsts.now classes.now (map base_in bases.now) }
{
    is(firsts, rest(bases)) && is(classes, bases)
}

pub fn is_not_east_asian(bases: &[BaseCharacter<'_>]) -> bool
    ensures { result ≡ rules.is_not_east_asian (map base_in bases.now) }
{
    match bases.first() {
        Some(base) => !base.is_east_asian(),
        None => false,
    }
}

pub fn is_quote(detail: LineDetail, bases: &[BaseCharacter<'_>]) -> bool
    ensures { result ≡ rules.is_quote detail (map base_in bases.now) }
{
    match bases.first() {
        Some(base) => base.class() == LineClass::QU && base.first.detail == detail,
        None => false,
    }
}

pub fn is_quote_but(detail: LineDetail, bases: &[BaseCharacter<'_>]) -> bool
    ensures { result ≡ rules.is_quote_but detail (map base_in bases.now) }
{
    match bases.first() {
        Some(base) => base.class() == LineClass::QU && base.first.detail != detail,
        None => false,
    }
}

pub fn is_aksara(classes: &[LineClass], bases: &[BaseCharacter<'_>]) -> bool
    ensures { result ≡ rules.is_aksara classes.now (map base_in bases.now) }
{
    match bases.first() {
        Some(base) => is_one_of(classes, base.class()) || base.is_dotted_circle(),
        None => false,
    }
}

pub fn ends_in_zwj(bases: &[BaseCharacter<'_>]) -> bool
    ensures { result ≡ rules.ends_in_zwj (map base_in bases.now) }
{
    match bases.first() {
        Some(base) => base.ends_in_zwj(),
        None => false,
    }
}

pub fn is_future_pictograph(bases: &[BaseCharacter<'_>]) -> bool
    ensures { result ≡ rules.is_future_pictograph (map base_in bases.now) }
{
    match bases.first() {
        Some(base) => base.first.is_future_pictograph,
        None => false,
    }
}

/// LB15a: returns whether the nearest base is a QU of category Pi, at the start of the text or after a base
/// of a class that the rule lists.
pub fn begins_quotation(bases: &[BaseCharacter<'_>]) -> bool
    ensures { result ≡ rules.begins_quotation (map base_in bases.now) }
{
    is_quote(LineDetail::Initial, bases)
        && (rest(bases).is_empty()
            || is(
                &[
                    LineClass::BK,
                    LineClass::CR,
                    LineClass::GL,
                    LineClass::LF,
                    LineClass::NL,
                    LineClass::SP,
                    LineClass::ZW,
                    LineClass::OP,
                    LineClass::QU,
                ],
                rest(bases),
            ))
}

/// LB15b: returns whether the nearest base is a QU of category Pf, at the end of the text or before a base of
/// a class that the rule lists.
pub fn ends_quotation(bases: &[BaseCharacter<'_>]) -> bool
    ensures { result ≡ rules.followed (rules.is_quote Final) (rules.or_edge (rules.is rules.after_final))
        (map base_in bases.now) }
{
    is_quote(LineDetail::Final, bases)
        && (rest(bases).is_empty()
            || is(
                &[
                    LineClass::BK,
                    LineClass::CR,
                    LineClass::GL,
                    LineClass::LF,
                    LineClass::NL,
                    LineClass::SP,
                    LineClass::WJ,
                    LineClass::ZW,
                    LineClass::CL,
                    LineClass::CP,
                    LineClass::EX,
                    LineClass::QU,
                    LineClass::IS,
                    LineClass::SY,
                ],
                rest(bases),
            ))
}

/// LB19a: returns whether there are no bases, or the nearest one is not wide (East Asian width F, W or H).
pub fn is_edge_or_not_east_asian(bases: &[BaseCharacter<'_>]) -> bool
    ensures { result ≡ rules.or_edge rules.is_not_east_asian (map base_in bases.now) }
{
    bases.is_empty() || is_not_east_asian(bases)
}

/// LB20a: returns whether the nearest base is a hyphen at the start of a word.
pub fn is_first_hyphen(bases: &[BaseCharacter<'_>]) -> bool
    ensures { result ≡ rules.followed (rules.is (HY ∷ HH ∷ [])) (rules.or_edge (rules.is rules.before_word))
        (map base_in bases.now) }
{
    is(&[LineClass::HY, LineClass::HH], bases) && begins_word(rest(bases))
}

/// LB25 of 17.0: returns whether the bases begin with OP and then NU.
pub fn is_opened_number(bases: &[BaseCharacter<'_>]) -> bool
    ensures { result ≡ rules.followed (rules.is (OP ∷ [])) (rules.is (NU ∷ [])) (map base_in bases.now) }
{
    is(&[LineClass::OP], bases) && is(&[LineClass::NU], rest(bases))
}

/// LB25 of 17.0: returns whether the bases begin with OP, IS and then NU.
pub fn is_opened_fraction(bases: &[BaseCharacter<'_>]) -> bool
    ensures { result ≡ rules.followed (rules.is (OP ∷ []))
        (rules.followed (rules.is (IS ∷ [])) (rules.is (NU ∷ []))) (map base_in bases.now) }
{
    is(&[LineClass::OP], bases) && is_fraction(rest(bases))
}

// Returns whether the bases begin with IS and then NU.
fn is_fraction(bases: &[BaseCharacter<'_>]) -> bool
    ensures { result ≡ rules.followed (rules.is (IS ∷ [])) (rules.is (NU ∷ [])) (map base_in bases.now) }
{
    is(&[LineClass::IS], bases) && is(&[LineClass::NU], rest(bases))
}

/// LB28a: returns whether the nearest base is VI after a letter of a Brahmic script.
pub fn is_virama_after_aksara(bases: &[BaseCharacter<'_>]) -> bool
    ensures { result ≡ rules.followed (rules.is (VI ∷ [])) (rules.is_aksara (AK ∷ AS ∷ []))
        (map base_in bases.now) }
{
    is(&[LineClass::VI], bases) && is_aksara(&[LineClass::AK, LineClass::AS], rest(bases))
}

/// LB28a: returns whether the nearest base is a letter of a Brahmic script before VF.
pub fn is_aksara_before_vf(bases: &[BaseCharacter<'_>]) -> bool
    ensures { result ≡ rules.followed (rules.is_aksara (AK ∷ AS ∷ [])) (rules.is (VF ∷ []))
        (map base_in bases.now) }
{
    is_aksara(&[LineClass::AK, LineClass::AS], bases) && is(&[LineClass::VF], rest(bases))
}

// Returns whether there are no bases, or the nearest one has one of the classes that LB20a lists.
fn begins_word(bases: &[BaseCharacter<'_>]) -> bool
    ensures { result ≡ rules.or_edge (rules.is rules.before_word) (map base_in bases.now) }
{
    bases.is_empty()
        || is(
            &[
                LineClass::BK,
                LineClass::CR,
                LineClass::GL,
                LineClass::LF,
                LineClass::NL,
                LineClass::SP,
                LineClass::ZW,
                LineClass::CB,
            ],
            bases,
        )
}

/// LB25 of 15.0 for whole numbers: returns whether the bases begin with NU, or with OP or HY and then NU.
pub fn begins_unaffixed(bases: &[BaseCharacter<'_>]) -> bool
    ensures { result ≡ begins_unaffixed (map base_in bases.now) }
{
    is(&[LineClass::NU], bases)
        || (is(&[LineClass::OP, LineClass::HY], bases) && is(&[LineClass::NU], rest(bases)))
}
