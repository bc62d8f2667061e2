//! Writes the sequences that change the style between two characters.
ghost use Rattle.std.specs.Prelude.{◌≡◌, ◌<◌, ◌≤◌, ◌+◌, ◌++◌, ◌∷◌, [], OnOk, IfOk, IfSome, codes, length};
ghost use Rattle.std.specs.Prelude.{take, drop};
ghost use Rattle.sequences.specs.Led.{led};
ghost use Rattle.sequences.specs.Output.{blink_parameter, color_parameter, color_parameters, digits};
ghost use Rattle.sequences.specs.Output.{effect_parameters, flag_parameter};
ghost use Rattle.sequences.specs.Output.{line_parameters, parameters_of, three, underline_color_parameter};
ghost use Rattle.sequences.specs.Output.{underline_parameter};
ghost use Rattle.sequences.specs.Output.{between, link_between, look_between, look_text, osc_of, reset_text};
ghost use Rattle.sequences.specs.Output.{sgr_of};
ghost use Rattle.sequences.specs.Output.{weight_parameters};
ghost use Rattle.sequences.specs.StyleRefs.{style_by};

use crate::look::{Blink, Color, Look, PLAIN, Underline};
use crate::same_look::same_look;
use crate::style::StyleRef;
use std::alloc::AllocError;

fn push_digit(n: u32, out: &mut Vec<char>) -> Result<(), AllocError>
    requires { n < 10 }
    ensures { OnOk result (out.new.items ≡ out.old.items ++ (48 + n) ∷ []) }
{
    out.push(char::from(b'0' + n as u8))?;
    Ok(())
}

// Writes a number below 1,000.
fn push_digits(n: u32, out: &mut Vec<char>) -> Result<(), AllocError>
    requires { n < 1000 }
    ensures { OnOk result (out.new.items ≡ out.old.items ++ digits n) }
{
    if n >= 100 {
        push_digit(n / 100, out)?;
    }
    if n >= 10 {
        push_digit(n / 10 % 10, out)?;
    }
    push_digit(n % 10, out)
}

// Writes three numbers with a separator between them.
fn push_three(separator: char, r: u8, g: u8, b: u8, out: &mut Vec<char>) -> Result<(), AllocError>
    ensures { OnOk result (out.new.items ≡ out.old.items ++ three separator r g b) }
{
    push_digits(u32::from(r), out)?;
    out.push(separator)?;
    push_digits(u32::from(g), out)?;
    out.push(separator)?;
    push_digits(u32::from(b), out)
}

// The functions below write a semicolon before each parameter.
fn push_flag(holds: bool, parameter: &[char], out: &mut Vec<char>) -> Result<(), AllocError>
    ensures { OnOk result (out.new.items ≡ out.old.items ++ led (flag_parameter holds parameter.now)) }
{
    if holds {
        out.push(';')?;
        out.extend_from_slice(parameter)?;
    }
    Ok(())
}

fn push_weights(look: &Look, out: &mut Vec<char>) -> Result<(), AllocError>
    ensures { OnOk result (out.new.items ≡ out.old.items ++ led (weight_parameters look.now)) }
{
    push_flag(look.bold, &['1'], out)?;
    push_flag(look.faint, &['2'], out)?;
    push_flag(look.italic, &['3'], out)
}

fn push_lines(look: &Look, out: &mut Vec<char>) -> Result<(), AllocError>
    ensures { OnOk result (out.new.items ≡ out.old.items ++ led (line_parameters look.now)) }
{
    push_underline(look.underline, out)?;
    push_blink(look.blink, out)
}

fn push_underline(underline: Option<Underline>, out: &mut Vec<char>) -> Result<(), AllocError>
    ensures { OnOk result (out.new.items ≡ out.old.items ++ led (underline_parameter underline)) }
{
    match underline {
        None => Ok(()),
        Some(Underline::Single) => out.extend_from_slice(&[';', '4']),
        Some(Underline::Double) => out.extend_from_slice(&[';', '4', ':', '2']),
        Some(Underline::Curly) => out.extend_from_slice(&[';', '4', ':', '3']),
        Some(Underline::Dotted) => out.extend_from_slice(&[';', '4', ':', '4']),
        Some(Underline::Dashed) => out.extend_from_slice(&[';', '4', ':', '5']),
    }
}

fn push_blink(blink: Option<Blink>, out: &mut Vec<char>) -> Result<(), AllocError>
    ensures { OnOk result (out.new.items ≡ out.old.items ++ led (blink_parameter blink)) }
{
    match blink {
        None => Ok(()),
        Some(Blink::Slow) => out.extend_from_slice(&[';', '5']),
        Some(Blink::Rapid) => out.extend_from_slice(&[';', '6']),
    }
}

fn push_effects(look: &Look, out: &mut Vec<char>) -> Result<(), AllocError>
    ensures { OnOk result (out.new.items ≡ out.old.items ++ led (effect_parameters look.now)) }
{
    push_flag(look.inverse, &['7'], out)?;
    push_flag(look.conceal, &['8'], out)?;
    push_flag(look.strike, &['9'], out)?;
    push_flag(look.overline, &['5', '3'], out)
}

fn push_color(more: u32, color: Option<Color>, out: &mut Vec<char>) -> Result<(), AllocError>
    requires { more ≤ 10 }
    ensures { OnOk result (out.new.items ≡ out.old.items ++ led (color_parameter more color)) }
{
    match color {
        None => Ok(()),
        Some(Color::Basic(n)) => {
            out.push(';')?;
            let first = if n < 8 { 30 } else { 82 };
            push_digits(first + more + u32::from(n), out)
        }
        Some(Color::Indexed(n)) => {
            out.push(';')?;
            push_digits(38 + more, out)?;
            out.extend_from_slice(&[';', '5', ';'])?;
            push_digits(u32::from(n), out)
        }
        Some(Color::Rgb(r, g, b)) => {
            out.push(';')?;
            push_digits(38 + more, out)?;
            out.extend_from_slice(&[';', '2', ';'])?;
            push_three(';', r, g, b, out)
        }
    }
}

fn push_underline_color(color: Option<Color>, out: &mut Vec<char>) -> Result<(), AllocError>
    ensures { OnOk result (out.new.items ≡ out.old.items ++ led (underline_color_parameter color)) }
{
    match color {
        None => Ok(()),
        Some(Color::Basic(n) | Color::Indexed(n)) => {
            out.extend_from_slice(&[';', '5', '8', ':', '5', ':'])?;
            push_digits(u32::from(n), out)
        }
        Some(Color::Rgb(r, g, b)) => {
            out.extend_from_slice(&[';', '5', '8', ':', '2', ':', ':'])?;
            push_three(':', r, g, b, out)
        }
    }
}

fn push_colors(look: &Look, out: &mut Vec<char>) -> Result<(), AllocError>
    ensures { OnOk result (out.new.items ≡ out.old.items ++ led (color_parameters look.now)) }
{
    push_color(0, look.foreground, out)?;
    push_color(10, look.background, out)?;
    push_underline_color(look.underline_color, out)
}

fn push_parameters(look: &Look, out: &mut Vec<char>) -> Result<(), AllocError>
    ensures { OnOk result (out.new.items ≡ out.old.items ++ led (parameters_of look.now)) }
{
    push_weights(look, out)?;
    push_lines(look, out)?;
    push_effects(look, out)?;
    push_colors(look, out)
}

// Replaces the semicolon at an index with `[`, the end of the introducer. Appends `[` if the index is the end
// of the buffer.
fn end_introducer(at: usize, out: &mut Vec<char>) -> Result<(), AllocError>
    requires { at ≤ length out.old.items }
    ensures { OnOk result (out.new.items ≡ take at out.old.items ++ 91 ∷ drop (at + 1) out.old.items) }
{
    if at < out.len() {
        out[at] = '[';
    } else {
        out.push('[')?;
    }
    Ok(())
}

fn push_sgr(look: &Look, out: &mut Vec<char>) -> Result<(), AllocError>
    ensures { OnOk result (out.new.items ≡ out.old.items ++ sgr_of (parameters_of look.now)) }
{
    out.push('\u{1b}')?;
    let start = out.len();
    push_parameters(look, out)?;
    end_introducer(start, out)?;
    out.push('m')?;
    Ok(())
}

fn push_reset(look: &Look, out: &mut Vec<char>) -> Result<(), AllocError>
    ensures { OnOk result (out.new.items ≡ out.old.items ++ reset_text look.now) }
{
    if same_look(look, &PLAIN) {
        return Ok(());
    }
    out.extend_from_slice(&['\u{1b}', '[', 'm'])
}

fn push_look(look: &Look, out: &mut Vec<char>) -> Result<(), AllocError>
    ensures { OnOk result (out.new.items ≡ out.old.items ++ look_text look.now) }
{
    if same_look(look, &PLAIN) {
        return Ok(());
    }
    push_sgr(look, out)
}

fn push_look_between(before: &Look, after: &Look, out: &mut Vec<char>) -> Result<(), AllocError>
    ensures { OnOk result (out.new.items ≡ out.old.items ++ look_between before.now after.now) }
{
    if same_look(before, after) {
        return Ok(());
    }
    push_reset(before, out)?;
    push_look(after, out)
}

fn push_link(link: &[char], out: &mut Vec<char>) -> Result<(), AllocError>
    ensures { OnOk result (out.new.items ≡ out.old.items ++ osc_of link.now) }
{
    out.extend_from_slice(&['\u{1b}', ']', '8', ';'])?;
    if link.is_empty() {
        out.push(';')?;
    } else {
        out.extend_from_slice(link)?;
    }
    out.extend_from_slice(&['\u{1b}', '\\'])
}

fn push_link_between(before: &[char], after: &[char], out: &mut Vec<char>) -> Result<(), AllocError>
    ensures { OnOk result (out.new.items ≡ out.old.items ++ link_between before.now after.now) }
{
    if before == after {
        return Ok(());
    }
    push_link(after, out)
}

#[tactic(auto, unfolding(crate::specs::Output::between))]
/// Appends the sequences that change the style from `before` to `after`. A line should begin and end in the
/// default style. After a failed allocation, some characters may be missing.
pub fn push_between(
    before: &StyleRef,
    after: &StyleRef,
    out: &mut Vec<char>,
) -> Result<(), AllocError>
    ensures { OnOk result (out.new.items
        ≡ out.old.items ++ between (style_by before.now) (style_by after.now)) }
{
    push_look_between(&before.look, &after.look, out)?;
    push_link_between(before.link, after.link, out)
}
