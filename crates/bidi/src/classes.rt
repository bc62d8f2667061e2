//! Tests for kinds of bidi classes.
ghost use Rattle.std.specs.Prelude.{◌≡◌};
ghost use Rattle.ucd.specs.Classes.{is_initiator, is_pdi};
ghost use Rattle.ucd.specs.Classes.{is_removed};

use ucd::BidiClass;

/// Returns whether characters of a class are isolate initiators (BD8).
pub(crate) fn is_initiator(class: BidiClass) -> bool
    ensures { result ≡ is_initiator class }
{
    matches!(class, BidiClass::LRI | BidiClass::RLI | BidiClass::FSI)
}

/// Returns whether a class is PDI.
pub(crate) fn is_pdi(class: BidiClass) -> bool
    ensures { result ≡ is_pdi class }
{
    matches!(class, BidiClass::PDI)
}

/// Returns whether X9 removes the characters of a class.
pub(crate) fn is_removed(class: BidiClass) -> bool
    ensures { result ≡ is_removed class }
{
    matches!(
        class,
        BidiClass::RLE
            | BidiClass::LRE
            | BidiClass::RLO
            | BidiClass::LRO
            | BidiClass::PDF
            | BidiClass::BN
    )
}
