//! The bits of options and print flags.
ghost use Rattle.std.specs.Prelude.{◌≡◌, ◌<◌};
ghost use Rattle.hordguli_c.specs.Options.{
  base_of,
  direction_of,
  has_bit,
  low_bits_of,
  names_direction,
  options_of,
  page_form_of,
  print_of,
  row_options_in,
  row_options_of,
  separates_lines,
  tailoring_in,
  tailoring_of,
};

use bidi::Base;
use lines::{Options, Print};

// The options and print flags of include/hordguli.h. The two lowest bits of the options are the base
// direction. Bit 24 states that the lowest bit is 0, and bit 25 that the next bit is 0. All calls accept bit
// 26.
const LOW_BIT: u32 = 1;

const HIGH_BIT: u32 = 2;

const LOW_BIT_IS_0: u32 = 1 << 24;

const HIGH_BIT_IS_0: u32 = 1 << 25;

const LINE_SEPARATORS: u32 = 1 << 26;

// No call accepts this bit or a higher one.
const UNKNOWN: u32 = 1 << 27;

const NOBREAK: u32 = 4;

const REORDER_NSM: u32 = 8;

const WHOLE_NUMBERS: u32 = 16;

const REORDER_CLUSTERS: u32 = 32;

const SHOW_SPACES: u32 = 64;

// The two options that a row can have.
const REORDERS: u32 = 40;

// Bits 8 to 15 are the tab width. Bits 16 to 23 are reserved: the header sets the lowest of them for a tab
// width above 255.
const TAB_WIDTH: u32 = 1 << 8;

const RESERVED: u32 = 1 << 16;

const ALL_OPTIONS: u32 = 127;

const PRINT_VISUAL: u32 = 1;

const PRINT_BASEDIR: u32 = 2;

const PRINT_LTOV: u32 = 4;

const PRINT_VTOL: u32 = 8;

const PRINT_LEVELS: u32 = 16;

const PRINT_PADDED: u32 = 32;

const PRINT_MIRRORED: u32 = 64;

const ALL_PRINT_FLAGS: u32 = 127;

/// Returns whether the bit with a given value is set.
pub fn has_bit(bits: u32, value: u32) -> bool
    requires { 0 < value }
    ensures { result ≡ has_bit bits value }
{
    bits / value % 2 == 1
}

fn base_of(bits: u32) -> Base
    ensures { result ≡ base_of bits }
{
    if bits % 4 == 0 {
        Base::WeakLtr
    } else if bits % 4 == 1 {
        Base::WeakRtl
    } else if bits % 4 == 2 {
        Base::Ltr
    } else {
        Base::Rtl
    }
}

// Returns whether no bit above 26 is set, and the bits do not combine two base directions.
fn names_direction(bits: u32) -> bool
    ensures { result ≡ names_direction bits }
{
    !(has_bit(bits, LOW_BIT) && has_bit(bits, LOW_BIT_IS_0))
        && !(has_bit(bits, HIGH_BIT) && has_bit(bits, HIGH_BIT_IS_0))
        && bits < UNKNOWN
}

/// Returns the base direction, or `None` if a bit that the call does not accept is set, or if the bits
/// combine two directions.
pub fn direction_of(bits: u32) -> Option<Base>
    ensures { result ≡ direction_of bits }
{
    if bits % LOW_BIT_IS_0 < NOBREAK && names_direction(bits) {
        Some(base_of(bits))
    } else {
        None
    }
}

/// Returns whether only LF and CR end paragraphs.
pub fn separates_lines(bits: u32) -> bool
    ensures { result ≡ separates_lines bits }
{
    has_bit(bits, LINE_SEPARATORS)
}

// Returns the bits below the line separator bit, or `None` if a higher bit is set.
fn low_bits_of(bits: u32) -> Option<u32>
    ensures { result ≡ low_bits_of bits }
{
    if bits < UNKNOWN {
        Some(bits % LINE_SEPARATORS)
    } else {
        None
    }
}

/// Returns whether breaks inside numbers are disabled, or `None` if a bit that the call does not accept is
/// set.
pub fn tailoring_of(bits: u32) -> Option<bool>
    ensures { result ≡ tailoring_of bits }
{
    tailoring_in(low_bits_of(bits)?)
}

fn tailoring_in(bits: u32) -> Option<bool>
    ensures { result ≡ tailoring_in bits }
{
    if bits == 0 {
        Some(false)
    } else if bits == WHOLE_NUMBERS {
        Some(true)
    } else {
        None
    }
}

/// Returns the options of a row, or `None` if a bit that the call does not accept is set.
pub fn row_options_of(bits: u32) -> Option<Options>
    ensures { result ≡ row_options_of bits }
{
    row_options_in(low_bits_of(bits)?)
}

fn row_options_in(bits: u32) -> Option<Options>
    ensures { result ≡ row_options_in bits }
{
    if bits == 0 || bits == REORDER_NSM || bits == REORDER_CLUSTERS || bits == REORDERS {
        options_of(bits)
    } else {
        None
    }
}

/// Returns the options of a session, or `None` if an unknown or reserved bit is set, or if the bits combine
/// two directions.
pub fn options_of(bits: u32) -> Option<Options>
    ensures { result ≡ options_of bits }
{
    if bits % TAB_WIDTH <= ALL_OPTIONS && bits / RESERVED % 256 == 0 && names_direction(bits) {
        Some(Options {
            base: base_of(bits),
            nobreak: has_bit(bits, NOBREAK),
            reordernsm: has_bit(bits, REORDER_NSM),
            whole_numbers: has_bit(bits, WHOLE_NUMBERS),
            reorder_clusters: has_bit(bits, REORDER_CLUSTERS),
            show_spaces: has_bit(bits, SHOW_SPACES),
            tab_width: (bits / TAB_WIDTH % 256) as u8,
        })
    } else {
        None
    }
}

/// Returns what to print for each line, or `None` if an unknown bit is set.
pub fn print_of(bits: u32) -> Option<Print>
    ensures { result ≡ print_of bits }
{
    if bits <= ALL_PRINT_FLAGS {
        Some(Print {
            novisual: !has_bit(bits, PRINT_VISUAL),
            basedir: has_bit(bits, PRINT_BASEDIR),
            ltov: has_bit(bits, PRINT_LTOV),
            vtol: has_bit(bits, PRINT_VTOL),
            levels: has_bit(bits, PRINT_LEVELS),
            nopad: !has_bit(bits, PRINT_PADDED),
            nomirror: !has_bit(bits, PRINT_MIRRORED),
        })
    } else {
        None
    }
}

/// How a text is laid out and printed.
#[derive(Clone, Copy)]
pub struct PageForm {
    pub options: Options,
    pub width: u16,
    pub print: Print,
}

/// Returns how a text is laid out and printed, or `None` if the options or the print flags are refused.
pub fn page_form_of(options: u32, width: u16, print: u32) -> Option<PageForm>
    ensures { result ≡ page_form_of options width print }
{
    Some(PageForm {
        options: options_of(options)?,
        width,
        print: print_of(print)?,
    })
}
