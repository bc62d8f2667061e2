//! Whether attributes are equal, and the SGR numbers of the kinds of underline and of blinking.
ghost use Rattle.std.specs.Prelude.{◌≡◌};
ghost use Rattle.sequences.specs.SameLooks.{blink_number, same_color, same_colors, same_flag, same_flags};
ghost use Rattle.sequences.specs.SameLooks.{same_look};
ghost use Rattle.sequences.specs.SameLooks.{underline_kind};

use crate::look::{Blink, Color, Look, Underline};

/// Returns the k for which the SGR parameter `4:k` sets an underline, or 0 for none.
pub(crate) fn underline_kind(underline: Option<Underline>) -> u32
    ensures { result ≡ underline_kind underline }
{
    match underline {
        None => 0,
        Some(Underline::Single) => 1,
        Some(Underline::Double) => 2,
        Some(Underline::Curly) => 3,
        Some(Underline::Dotted) => 4,
        Some(Underline::Dashed) => 5,
    }
}

/// Returns the SGR parameter that sets a kind of blinking, or 0 for none.
pub(crate) fn blink_number(blink: Option<Blink>) -> u32
    ensures { result ≡ blink_number blink }
{
    match blink {
        None => 0,
        Some(Blink::Slow) => 5,
        Some(Blink::Rapid) => 6,
    }
}

fn same_color(color: Option<Color>, other: Option<Color>) -> bool
    ensures { result ≡ same_color color other }
{
    match (color, other) {
        (None, None) => true,
        (Some(Color::Basic(n)), Some(Color::Basic(m))) => n == m,
        (Some(Color::Indexed(n)), Some(Color::Indexed(m))) => n == m,
        (Some(Color::Rgb(r, g, b)), Some(Color::Rgb(x, y, z))) => r == x && g == y && b == z,
        _ => false,
    }
}

fn same_flag(a: bool, b: bool) -> bool
    ensures { result ≡ same_flag a b }
{
    a == b
}

fn same_flags(a: &Look, b: &Look) -> bool
    ensures { result ≡ same_flags a.now b.now }
{
    same_flag(a.bold, b.bold)
        && same_flag(a.faint, b.faint)
        && same_flag(a.italic, b.italic)
        && same_flag(a.inverse, b.inverse)
        && same_flag(a.conceal, b.conceal)
        && same_flag(a.strike, b.strike)
        && same_flag(a.overline, b.overline)
}

fn same_colors(a: &Look, b: &Look) -> bool
    ensures { result ≡ same_colors a.now b.now }
{
    same_color(a.foreground, b.foreground)
        && same_color(a.background, b.background)
        && same_color(a.underline_color, b.underline_color)
}

/// Returns whether two sets of attributes are equal.
pub(crate) fn same_look(a: &Look, b: &Look) -> bool
    ensures { result ≡ same_look a.now b.now }
{
    same_flags(a, b)
        && underline_kind(a.underline) == underline_kind(b.underline)
        && blink_number(a.blink) == blink_number(b.blink)
        && same_colors(a, b)
}
