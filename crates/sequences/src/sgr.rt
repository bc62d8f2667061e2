//! How SGR changes the attributes of characters.
ghost use Rattle.std.specs.Prelude.{◌≡◌, ◌<◌, ◌≤◌, map, drop, length};
ghost use Rattle.sequences.specs.Looks.{applied_after, changed, color_len, color_of, end_attribute};
ghost use Rattle.sequences.specs.Looks.{field_color, indexed};
ghost use Rattle.sequences.specs.Looks.{is_color, is_kind, rgb, set_attribute, set_basic, single, taken};
ghost use Rattle.sequences.specs.Looks.{with_color};
ghost use Rattle.sequences.specs.Looks.{with_fields, with_parameter, with_underline};
ghost use Rattle.sequences.specs.Parts.{fields_after, parameters_after};

use crate::look::{Blink, Color, Look, PLAIN, Underline};
use crate::parts::{field, field_count, parameter_count, single_at, split_parameter};

/// Returns the attributes after SGR, given its parameters with the character before them.
pub(crate) fn applied(look: Look, parameters: &[char]) -> Look
    ensures { result ≡ applied_after 0 look (parameters_after parameters.now) }
{
    let mut look = look;
    let mut rest = parameters;
    let mut skip = 0;
    while !rest.is_empty() {
        let (parameter, following) = split_parameter(rest);
        if skip > 0 {
            skip -= 1;
        } else {
            look = changed(look, parameter, following);
            skip = taken(parameter, following);
        }
        rest = following;
    }
    look
}

// Returns the attributes after one parameter, given the parameters that follow it.
fn changed(look: Look, parameter: &[char], following: &[char]) -> Look
    ensures { result ≡ changed look (fields_after parameter.now) (parameters_after following.now) }
{
    let n = field(parameter, 0);
    match field_count(parameter) {
        0 => look,
        1 if is_color(n) => with_color(n, color_after(following), look),
        1 => with_parameter(n, look),
        _ => with_fields(n, parameter, look),
    }
}

// Returns how many of the parameters in `following` belong to the parameter before them.
fn taken(parameter: &[char], following: &[char]) -> usize
    ensures { result ≡ taken (fields_after parameter.now) (parameters_after following.now) }
{
    if !is_color(field(parameter, 0)) {
        return 0;
    }
    if field_count(parameter) == 1 {
        return color_len(following);
    }
    if is_kind(field(parameter, 1)) {
        0
    } else {
        parameter_count(following)
    }
}

// Returns how many of the following parameters belong to 38, 48 or 58: all of them if the kind of color is
// unknown.
fn color_len(following: &[char]) -> usize
    ensures { result ≡ color_len (parameters_after following.now) }
{
    match single_at(following, 0) {
        5 => 2,
        2 => 4,
        _ => parameter_count(following),
    }
}

fn is_kind(kind: u32) -> bool
    ensures { result ≡ is_kind kind }
{
    kind == 5 || kind == 2
}

fn is_color(n: u32) -> bool
    ensures { result ≡ is_color n }
{
    n == 38 || n == 48 || n == 58
}

fn with_color(n: u32, color: Option<Color>, look: Look) -> Look
    ensures { result ≡ with_color n color look }
{
    match color {
        None => look,
        Some(_) if n == 38 => Look {
            foreground: color,
            ..look
        },
        Some(_) if n == 48 => Look {
            background: color,
            ..look
        },
        Some(_) => Look {
            underline_color: color,
            ..look
        },
    }
}

fn indexed(n: u32) -> Option<Color>
    ensures { result ≡ indexed n }
{
    if n < 256 {
        Some(Color::Indexed(n as u8))
    } else {
        None
    }
}

fn rgb(r: u32, g: u32, b: u32) -> Option<Color>
    ensures { result ≡ rgb r g b }
{
    if r < 256 && g < 256 && b < 256 {
        Some(Color::Rgb(r as u8, g as u8, b as u8))
    } else {
        None
    }
}

// Returns the color that some parameters begin with, or `None` if its kind is unknown or a value is invalid.
fn color_after(following: &[char]) -> Option<Color>
    ensures { result ≡ color_of (map single (parameters_after following.now)) }
{
    match single_at(following, 0) {
        5 => indexed(single_at(following, 1)),
        2 => rgb(
            single_at(following, 1),
            single_at(following, 2),
            single_at(following, 3),
        ),
        _ => None,
    }
}

// Returns the attributes after a parameter with one field, other than 38, 48 and 58.
fn with_parameter(n: u32, look: Look) -> Look
    ensures { result ≡ with_parameter n look }
{
    if n == 0 {
        PLAIN
    } else if n < 10 {
        set_attribute(n, look)
    } else if n < 30 {
        end_attribute(n, look)
    } else {
        set_basic(n, look)
    }
}

fn set_attribute(n: u32, look: Look) -> Look
    ensures { result ≡ set_attribute n look }
{
    match n {
        1 => Look { bold: true, ..look },
        2 => Look {
            faint: true,
            ..look
        },
        3 => Look {
            italic: true,
            ..look
        },
        4 => Look {
            underline: Some(Underline::Single),
            ..look
        },
        5 => Look {
            blink: Some(Blink::Slow),
            ..look
        },
        6 => Look {
            blink: Some(Blink::Rapid),
            ..look
        },
        7 => Look {
            inverse: true,
            ..look
        },
        8 => Look {
            conceal: true,
            ..look
        },
        _ => Look {
            strike: true,
            ..look
        },
    }
}

fn end_attribute(n: u32, look: Look) -> Look
    ensures { result ≡ end_attribute n look }
{
    match n {
        21 => Look {
            underline: Some(Underline::Double),
            ..look
        },
        22 => Look {
            bold: false,
            faint: false,
            ..look
        },
        23 => Look {
            italic: false,
            ..look
        },
        24 => Look {
            underline: None,
            ..look
        },
        25 => Look {
            blink: None,
            ..look
        },
        27 => Look {
            inverse: false,
            ..look
        },
        28 => Look {
            conceal: false,
            ..look
        },
        29 => Look {
            strike: false,
            ..look
        },
        _ => look,
    }
}

fn set_basic(n: u32, look: Look) -> Look
    requires { 30 ≤ n }
    ensures { result ≡ set_basic n look }
{
    if n < 38 {
        Look {
            foreground: Some(Color::Basic((n - 30) as u8)),
            ..look
        }
    } else if n == 39 {
        Look {
            foreground: None,
            ..look
        }
    } else if 40 <= n && n < 48 {
        Look {
            background: Some(Color::Basic((n - 40) as u8)),
            ..look
        }
    } else if n == 49 {
        Look {
            background: None,
            ..look
        }
    } else if n == 53 {
        Look {
            overline: true,
            ..look
        }
    } else if n == 55 {
        Look {
            overline: false,
            ..look
        }
    } else if n == 59 {
        Look {
            underline_color: None,
            ..look
        }
    } else if 90 <= n && n < 98 {
        Look {
            foreground: Some(Color::Basic((n - 82) as u8)),
            ..look
        }
    } else if 100 <= n && n < 108 {
        Look {
            background: Some(Color::Basic((n - 92) as u8)),
            ..look
        }
    } else {
        look
    }
}

fn with_underline(k: u32, look: Look) -> Look
    ensures { result ≡ with_underline k look }
{
    match k {
        0 => Look {
            underline: None,
            ..look
        },
        1 => Look {
            underline: Some(Underline::Single),
            ..look
        },
        2 => Look {
            underline: Some(Underline::Double),
            ..look
        },
        3 => Look {
            underline: Some(Underline::Curly),
            ..look
        },
        4 => Look {
            underline: Some(Underline::Dotted),
            ..look
        },
        5 => Look {
            underline: Some(Underline::Dashed),
            ..look
        },
        _ => look,
    }
}

// Returns the attributes after a parameter with several fields, the first of which is n.
fn with_fields(n: u32, parameter: &[char], look: Look) -> Look
    ensures { result ≡ with_fields n (drop 1 (fields_after parameter.now)) look }
{
    if is_color(n) {
        with_color(n, field_color(parameter), look)
    } else if n == 4 && field_count(parameter) == 2 {
        with_underline(field(parameter, 1), look)
    } else {
        look
    }
}

// Returns the color of a parameter with several fields, or `None` if its kind is unknown or a value is
// invalid.
fn field_color(parameter: &[char]) -> Option<Color>
    ensures { result ≡ field_color (drop 1 (fields_after parameter.now)) }
{
    match (field(parameter, 1), field_count(parameter)) {
        (5, 3) => indexed(field(parameter, 2)),
        (2, 5) => rgb(
            field(parameter, 2),
            field(parameter, 3),
            field(parameter, 4),
        ),
        (2, 6) => rgb(
            field(parameter, 3),
            field(parameter, 4),
            field(parameter, 5),
        ),
        _ => None,
    }
}
