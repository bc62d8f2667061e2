//! The attributes of a character that SGR sets (ECMA-48, 8.3.117).

/// A color other than the default one.
#[derive(Clone, Copy, Debug, PartialEq, Eq)]
pub enum Color {
    /// One of the 16 colors that have their own parameters: 30 to 37 are 0 to 7, and 90 to 97 are 8 to 15.
    Basic(u8),
    /// One of 256 colors, as set by `38;5;n`. A terminal may show it differently from the basic color n.
    Indexed(u8),
    /// Red, green and blue.
    Rgb(u8, u8, u8),
}

/// The kinds of underline, in the order of their parameters `4:1` to `4:5`.
#[derive(Clone, Copy, Debug, PartialEq, Eq)]
pub enum Underline {
    Single,
    Double,
    Curly,
    Dotted,
    Dashed,
}

/// A kind of blinking: slow (5) or rapid (6).
#[derive(Clone, Copy, Debug, PartialEq, Eq)]
pub enum Blink {
    Slow,
    Rapid,
}

/// The attributes of a character. If an attribute is optional, `None` is its default.
#[derive(Clone, Copy, Debug, PartialEq, Eq)]
pub struct Look {
    pub bold: bool,
    pub faint: bool,
    pub italic: bool,
    pub underline: Option<Underline>,
    pub blink: Option<Blink>,
    pub inverse: bool,
    pub conceal: bool,
    pub strike: bool,
    pub overline: bool,
    pub foreground: Option<Color>,
    pub background: Option<Color>,
    pub underline_color: Option<Color>,
}

/// The default attributes.
pub const PLAIN: Look = Look {
    bold: false,
    faint: false,
    italic: false,
    underline: None,
    blink: None,
    inverse: false,
    conceal: false,
    strike: false,
    overline: false,
    foreground: None,
    background: None,
    underline_color: None,
};
