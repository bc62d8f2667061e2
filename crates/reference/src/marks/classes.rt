//! Sets of line breaking classes, as the rules list them.

use ucd::LineClass;

/// A set of line breaking classes: one bit for each class, in the order of `LineClass`.
pub type Classes = u64;

/// Returns whether the class is in the set.
pub fn has(classes: Classes, class: LineClass) -> bool {
    classes >> (class as u64) & 1 == 1
}

pub const BK: Classes = 1 << LineClass::BK as u64;

pub const CM: Classes = 1 << LineClass::CM as u64;

pub const CR: Classes = 1 << LineClass::CR as u64;

pub const GL: Classes = 1 << LineClass::GL as u64;

pub const LF: Classes = 1 << LineClass::LF as u64;

pub const NL: Classes = 1 << LineClass::NL as u64;

pub const SP: Classes = 1 << LineClass::SP as u64;

pub const WJ: Classes = 1 << LineClass::WJ as u64;

pub const ZW: Classes = 1 << LineClass::ZW as u64;

pub const ZWJ: Classes = 1 << LineClass::ZWJ as u64;

pub const B2: Classes = 1 << LineClass::B2 as u64;

pub const BA: Classes = 1 << LineClass::BA as u64;

pub const BB: Classes = 1 << LineClass::BB as u64;

pub const CB: Classes = 1 << LineClass::CB as u64;

pub const HY: Classes = 1 << LineClass::HY as u64;

pub const CL: Classes = 1 << LineClass::CL as u64;

pub const CP: Classes = 1 << LineClass::CP as u64;

pub const EX: Classes = 1 << LineClass::EX as u64;

pub const IN: Classes = 1 << LineClass::IN as u64;

pub const NS: Classes = 1 << LineClass::NS as u64;

pub const OP: Classes = 1 << LineClass::OP as u64;

pub const QU: Classes = 1 << LineClass::QU as u64;

pub const IS: Classes = 1 << LineClass::IS as u64;

pub const NU: Classes = 1 << LineClass::NU as u64;

pub const PO: Classes = 1 << LineClass::PO as u64;

pub const PR: Classes = 1 << LineClass::PR as u64;

pub const SY: Classes = 1 << LineClass::SY as u64;

pub const AL: Classes = 1 << LineClass::AL as u64;

pub const EB: Classes = 1 << LineClass::EB as u64;

pub const EM: Classes = 1 << LineClass::EM as u64;

pub const H2: Classes = 1 << LineClass::H2 as u64;

pub const H3: Classes = 1 << LineClass::H3 as u64;

pub const HL: Classes = 1 << LineClass::HL as u64;

pub const ID: Classes = 1 << LineClass::ID as u64;

pub const JL: Classes = 1 << LineClass::JL as u64;

pub const JT: Classes = 1 << LineClass::JT as u64;

pub const JV: Classes = 1 << LineClass::JV as u64;

pub const RI: Classes = 1 << LineClass::RI as u64;
