//! The properties of one character in 16 bits, from a single lookup.
ghost use Rattle.std.specs.Prelude.{◌≡◌, ◌≢◌, ◌<◌, ◌&&◌, true, false, IsTrue};
ghost use Rattle.ucd.specs.LineSeparators.{is_rare_separator};
ghost use Rattle.ucd.specs.declared.bidi_class.BidiClass.TheVariants.{B};
ghost use Rattle.ucd.specs.declared.line_detail.LineDetail.TheVariants.{Plain};

use crate::bidi_class::BidiClass;
use crate::line_class::LineClass;
use crate::line_detail::LineDetail;
use crate::version::Version;
use std::marker::Model;

/// An exclusive upper bound on `Properties::line_index`: 8 values for each six-bit line-breaking number.
pub const LINE_INDEX_COUNT: usize = 512;

// Returns whether a code point is one of U+001C to U+001E, U+0085 and U+2029.
#[inline]
fn is_rare_separator(point: u32) -> bool
    ensures { result ≡ is_rare_separator point }
{
    (0x1c <= point && point <= 0x1e) || point == 0x85 || point == 0x2029
}

/// The properties of one character, except the other bracket of its pair and its mirror.
///
/// From the lowest bit: five bits for the bidi class, five flags, and six bits for the line-breaking number,
/// which encodes the line breaking class and its detail. The flags say, in order, whether the character is a
/// bracket, has a mirror, is a future pictograph, is a mark, and is wide. There can be up to 32 bidi classes
/// and 64 line-breaking numbers. All 16 bits are used. Another property would require a `u32`, which would
/// double the size of pages.
#[derive(Clone, Copy, Debug)]
pub struct Properties {
    bits: u16,
}

impl Model for Properties {
    ghost use Rattle.ucd.specs.Answers.{PropertyAnswers, AreBits, answers_in, bits_of};
    ghost use Rattle.ucd.specs.Bits.{bits_of-answers_in};
    ghost use Rattle.std.proofs.Common.{ap};

    ghost Value = { PropertyAnswers };

    ghost view = { λ p. answers_in p.bits };

    ghost invariant = { λ p. AreBits p.bits };

    ghost inverse = { λ a. record { bits = bits_of a } };

    ghost inverse_ok = { λ p are. ap (λ n. record { bits = n }) (bits_of-answers_in p.bits are) };
}

impl Properties {
    ghost use Rattle.ucd.specs.Answers.{AreBits, answers_in, line_answers, line_answers_at, line_class_at};
    ghost use Rattle.ucd.specs.Answers.{line_detail_at, line_index, unnamed};
    ghost use Rattle.ucd.specs.DistinctPages.{IsEntryOf};
    ghost use Rattle.ucd.specs.ImagePages.{IsOrdinary};
    ghost use Rattle.ucd.specs.Images.{is_entry};
    ghost use Rattle.ucd.specs.LineSeparators.{answers_for_lines, answers_if};
    ghost use Rattle.ucd.specs.Versions.{circle_by, quote_by};
    ghost use Rattle.ucd.specs.declared.category.Category.TheVariants.{InitialQuote, FinalQuote};
    ghost use Rattle.ucd.specs.declared.version.Version.{Version};

    /// Returns the properties of a character that no line lists: bidi class `L`, line breaking class `XX`,
    /// and no flags.
    pub(crate) fn unnamed() -> Properties
        ensures { result ≡ unnamed }
    {
        Properties {
            bits: LineClass::XX as u16 * 1024,
        }
    }

    pub(crate) fn with_bidi_class(self, class: BidiClass) -> Properties
        ensures { result ≡ record self { bidi_class = class } }
    {
        Properties {
            bits: self.bits / 32 * 32 + class as u16,
        }
    }

    pub(crate) fn with_bracket(self) -> Properties
        ensures { result ≡ record self { has_bracket = true } }
    {
        Properties {
            bits: self.bits / 64 * 64 + 32 + self.bits % 32,
        }
    }

    pub(crate) fn with_mirror(self) -> Properties
        ensures { result ≡ record self { has_mirror = true } }
    {
        Properties {
            bits: self.bits / 128 * 128 + 64 + self.bits % 64,
        }
    }

    pub(crate) fn with_line_class(self, class: LineClass) -> Properties
        ensures { result ≡ record self { line_class = class; line_detail = Plain } }
    {
        Properties {
            bits: class as u16 * 1024 + self.bits % 1024,
        }
    }

    // Returns the properties with another line-breaking number.
    fn with_number(self, number: u16) -> Properties
        requires { number < 56 }
        ensures { result ≡ record self {
          line_class = line_class_at number;
          line_detail = line_detail_at number;
        } }
    {
        Properties {
            bits: number * 1024 + self.bits % 1024,
        }
    }

    /// Returns the properties that the code point has in tables in which only LF and CR end paragraphs.
    #[inline]
    pub(crate) fn for_lines(self, point: u32) -> Properties
        ensures { result ≡ answers_for_lines point self }
    {
        if is_rare_separator(point) && self.is_separator() {
            self.with_bidi_class(BidiClass::S)
        } else {
            self
        }
    }

    /// Returns the result of `for_lines` if `separates` is set, and otherwise these properties.
    #[inline]
    pub(crate) fn for_lines_if(self, separates: bool, point: u32) -> Properties
        ensures { result ≡ answers_if separates point self }
    {
        if separates {
            self.for_lines(point)
        } else {
            self
        }
    }

    /// Returns the properties, with the detail `Initial` if the line breaking class is QU.
    pub(crate) fn with_initial_quote(self) -> Properties
        ensures { result ≡ record self {
          line_detail = quote_by InitialQuote self.line_class self.line_detail;
        } }
    {
        if self.line_class() == LineClass::QU {
            self.with_number(49)
        } else {
            self
        }
    }

    /// Returns the properties, with the detail `Final` if the line breaking class is QU.
    pub(crate) fn with_final_quote(self) -> Properties
        ensures { result ≡ record self {
          line_detail = quote_by FinalQuote self.line_class self.line_detail;
        } }
    {
        if self.line_class() == LineClass::QU {
            self.with_number(50)
        } else {
            self
        }
    }

    /// Returns the properties, with the detail `DottedCircle` if LB1 resolves the line breaking class to AL.
    pub(crate) fn with_circle(self) -> Properties
        ensures { result ≡ record self { line_detail = circle_by self.line_class self.line_detail } }
    {
        match self.line_class() {
            LineClass::AL => self.with_number(51),
            LineClass::AI => self.with_number(52),
            LineClass::SG => self.with_number(53),
            LineClass::XX => self.with_number(54),
            LineClass::SA => self.with_number(55),
            _ => self,
        }
    }

    /// Returns the properties with the flag for a wide East Asian width (F, W or H) set.
    pub(crate) fn with_wide(self) -> Properties
        ensures { result ≡ record self { is_wide = true } }
    {
        Properties {
            bits: self.bits / 1024 * 1024 + 512 + self.bits % 512,
        }
    }

    /// Returns the properties with the flag for a mark set, and the flag for a future pictograph cleared.
    pub(crate) fn with_mark(self) -> Properties
        ensures { result ≡ record self { is_mark = true; is_future_pictograph = false } }
    {
        Properties {
            bits: self.bits / 512 * 512 + 256 + self.bits % 128,
        }
    }

    /// Returns the properties with the flag for a future pictograph cleared, as for any assigned character.
    pub(crate) fn with_assignment(self) -> Properties
        ensures { result ≡ record self { is_future_pictograph = false } }
    {
        Properties {
            bits: self.bits / 256 * 256 + self.bits % 128,
        }
    }

    /// Returns the properties with the flag for a future pictograph set.
    pub(crate) fn with_future_pictograph(self) -> Properties
        ensures { result ≡ record self { is_future_pictograph = true } }
    {
        Properties {
            bits: self.bits / 256 * 256 + 128 + self.bits % 128,
        }
    }

    /// Returns whether the bits encode properties: the bidi class and the line-breaking number are in range,
    /// and no mark is a future pictograph.
    pub(crate) fn are_bits(version: Version, bits: u16) -> bool
        ensures { result ≡ is_entry version bits }
    {
        (bits % 32 < 23) & (bits / 1024 < version.number_count()) & (bits / 128 % 4 != 3)
    }

    /// Returns the properties that the bits encode.
    pub(crate) fn from_bits(bits: u16) -> Properties
        requires { AreBits bits }
        ensures { result ≡ answers_in bits }
    {
        Properties { bits }
    }

    /// Returns the bits that encode the properties.
    pub(crate) fn bits(self) -> u16
        ensures answers { answers_in result ≡ self }
        ensures valid { (version : Version) → IsEntryOf version self → IsTrue (is_entry version result) }
    {
        self.bits
    }

    /// Returns whether the character is neither a paragraph separator nor a bracket, and has no mirror.
    pub(crate) fn is_ordinary(self) -> bool
        ensures { result ≡ true → IsOrdinary self }
    {
        (self.bits % 32 != BidiClass::B as u16) & (self.bits / 32 % 4 == 0)
    }

    /// Returns whether these properties have the same bits as `other`.
    pub(crate) fn is(self, other: Properties) -> bool
        ensures same { IsTrue result → self ≡ other }
        ensures all { self ≡ other → IsTrue result }
    {
        self.bits == other.bits
    }

    /// Returns the bidi class.
    pub fn bidi_class(self) -> BidiClass
        ensures { result ≡ self.bidi_class }
    {
        BidiClass::at((self.bits % 32) as usize)
    }

    /// Returns whether the bidi class is B, without decoding the class.
    pub(crate) fn is_separator(self) -> bool
        ensures no { result ≡ false → self.bidi_class ≢ B }
        ensures yes { result ≡ true → self.bidi_class ≡ B }
    {
        self.bits % 32 == BidiClass::B as u16
    }

    /// Returns the line breaking class.
    pub fn line_class(self) -> LineClass
        ensures { result ≡ self.line_class }
    {
        LineClass::in_number((self.bits / 1024) as usize)
    }

    /// Returns what the line breaking rules of Unicode 17.0 need to know besides the line breaking class.
    pub fn line_detail(self) -> LineDetail
        ensures { result ≡ self.line_detail }
    {
        LineDetail::in_number((self.bits / 1024) as usize)
    }

    /// Returns whether the East Asian width is F, W or H.
    pub fn is_wide(self) -> bool
        ensures { result ≡ self.is_wide }
    {
        self.bits / 512 % 2 == 1
    }

    /// Returns whether the general category is Mn or Mc.
    pub fn is_mark(self) -> bool
        ensures { result ≡ self.is_mark }
    {
        self.bits / 256 % 2 == 1
    }

    /// Returns whether the character is Extended_Pictographic and unassigned.
    pub fn is_future_pictograph(self) -> bool
        ensures { result ≡ self.is_future_pictograph }
    {
        self.bits / 128 % 2 == 1
    }

    /// Returns whether the character is a bracket.
    pub fn has_bracket(self) -> bool
        ensures { result ≡ self.has_bracket }
    {
        self.bits / 32 % 2 == 1
    }

    /// Returns whether the character has a mirror.
    pub fn has_mirror(self) -> bool
        ensures { result ≡ self.has_mirror }
    {
        self.bits / 64 % 2 == 1
    }

    /// Returns, as one number, all properties that line breaking needs: 8 times the line-breaking number,
    /// plus 4 for a wide character, 2 for a mark and 1 for a future pictograph. The line-breaking number of a
    /// character without a detail is the index of its line breaking class in `LineClass`.
    pub fn line_index(self) -> usize
        ensures index { result ≡ line_index self }
        ensures answers { line_answers self ≡ line_answers_at result }
        ensures within { result < 448 }
    {
        (self.bits / 128) as usize
    }
}
