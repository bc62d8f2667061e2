//! What the line breaking rules of Unicode 17.0 need to know about a character besides its class.
ghost use Rattle.std.specs.Prelude.{◌≡◌, ◌<◌, slice_index_or};
ghost use Rattle.ucd.specs.LineNumbers.{numbered_details};
ghost use Rattle.ucd.specs.declared.line_detail.LineDetail.TheVariants.{Plain};
ghost use Rattle.ucd.specs.declared.line_class.TheConstants.{LINE_NUMBER_COUNT};

use crate::line_class::LINE_NUMBER_COUNT;

/// A detail of a character. In tables of Unicode 15.0, all characters are `Plain`.
#[derive(Clone, Copy, Debug, PartialEq, Eq)]
pub enum LineDetail {
    /// No detail.
    Plain,
    /// An initial quotation mark: class QU and general category Pi.
    Initial,
    /// A final quotation mark: class QU and general category Pf.
    Final,
    /// U+25CC DOTTED CIRCLE with a class that LB1 resolves to AL: AL, AI, SG, XX or SA.
    DottedCircle,
}

// The detail that each line-breaking number encodes.
#[rattlefmt::skip]
static NUMBERED: [LineDetail; LINE_NUMBER_COUNT] = [
    LineDetail::Plain, LineDetail::Plain, LineDetail::Plain, LineDetail::Plain, LineDetail::Plain,
    LineDetail::Plain, LineDetail::Plain, LineDetail::Plain, LineDetail::Plain, LineDetail::Plain,
    LineDetail::Plain, LineDetail::Plain, LineDetail::Plain, LineDetail::Plain, LineDetail::Plain,
    LineDetail::Plain, LineDetail::Plain, LineDetail::Plain, LineDetail::Plain, LineDetail::Plain,
    LineDetail::Plain, LineDetail::Plain, LineDetail::Plain, LineDetail::Plain, LineDetail::Plain,
    LineDetail::Plain, LineDetail::Plain, LineDetail::Plain, LineDetail::Plain, LineDetail::Plain,
    LineDetail::Plain, LineDetail::Plain, LineDetail::Plain, LineDetail::Plain, LineDetail::Plain,
    LineDetail::Plain, LineDetail::Plain, LineDetail::Plain, LineDetail::Plain, LineDetail::Plain,
    LineDetail::Plain, LineDetail::Plain, LineDetail::Plain, LineDetail::Plain, LineDetail::Plain,
    LineDetail::Plain, LineDetail::Plain, LineDetail::Plain, LineDetail::Plain,
    LineDetail::Initial, LineDetail::Final, LineDetail::DottedCircle, LineDetail::DottedCircle,
    LineDetail::DottedCircle, LineDetail::DottedCircle, LineDetail::DottedCircle,
];

impl LineDetail {
    /// Returns the detail that a line-breaking number encodes.
    pub(crate) fn in_number(number: usize) -> LineDetail
        requires { number < LINE_NUMBER_COUNT }
        ensures { result ≡ slice_index_or numbered_details number Plain }
    {
        NUMBERED[number]
    }
}
