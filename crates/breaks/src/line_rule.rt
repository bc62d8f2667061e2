//! The rules of UAX #14.
ghost use Rattle.std.specs.Prelude.{◌≡◌};
ghost use Rattle.breaks.specs.LineRules.{name_of};

/// A rule of UAX #14 that decides break marks. LB1, LB2 and LB10 decide no marks.
#[derive(Clone, Copy, Debug, PartialEq, Eq)]
pub enum LineRule {
    LB3,
    LB4,
    LB5,
    LB6,
    LB7,
    LB8,
    LB8a,
    LB9,
    LB11,
    LB12,
    LB12a,
    LB13,
    LB14,
    LB15,
    LB15a,
    LB15b,
    LB15c,
    LB15d,
    LB16,
    LB17,
    LB18,
    LB19,
    LB19a,
    LB20,
    LB20a,
    LB21,
    LB21a,
    LB21b,
    LB22,
    LB23,
    LB23a,
    LB24,
    LB25,
    LB26,
    LB27,
    LB28,
    LB28a,
    LB29,
    LB30,
    LB30a,
    LB30b,
    LB31,
}

/// The number of rules.
const LINE_RULE_COUNT: usize = 42;

macro_rules! names {
    ($($rule:ident)*) => { [$(stringify!($rule),)*] };
}

// The name of each rule, in the order of the enum.
static NAMES: [&str; LINE_RULE_COUNT] = names! {
    LB3 LB4 LB5 LB6 LB7 LB8 LB8a LB9 LB11 LB12 LB12a LB13 LB14 LB15 LB15a LB15b LB15c LB15d LB16 LB17
    LB18 LB19 LB19a LB20 LB20a LB21 LB21a LB21b LB22 LB23 LB23a LB24 LB25 LB26 LB27 LB28 LB28a LB29
    LB30 LB30a LB30b LB31
};

impl LineRule {
    /// Returns the name of the rule, such as `LB8a`.
    pub fn name(self) -> &'static str
        ensures { result.now ≡ name_of self }
    {
        NAMES[self as usize]
    }
}
