//! Measures the times to find the levels of one paragraph and to lay it out, for several kinds of text.
use crate::fill::lay_out;
use crate::paragraphs::{Kind, Subject, engine, let_go, measure_all};
use crate::rows::show;
use anyhow::Result;
use lines::Engine;

// As many opening brackets as the stack of BD16 holds (63), followed by their closing brackets.
const DEEP: &str = "(((((((((((((((((((((((((((((((((((((((((((((((((((((((((((((((\
    )))))))))))))))))))))))))))))))))))))))))))))))))))))))))))))))";

// Plain letters, plain words and real text, followed by the worst cases of some rules.
const KINDS: [Kind; 18] = [
    Kind {
        name: "plain letters",
        words: &[
            "the", "quick", "brown", "fox", "jumps", "over", "lazy", "dog",
        ],
    },
    Kind {
        name: "plain words",
        words: &[
            "the ", "quick ", "brown ", "fox ", "jumps ", "over ", "lazy ", "dog ",
        ],
    },
    Kind {
        name: "Hebrew text",
        words: &[
            "שלום ",
            "עולם, ",
            "בשנת ",
            "2022 ",
            "נכתבו ",
            "12.5% ",
            "(מן ",
            "הספרים) ",
            "כאן. ",
        ],
    },
    Kind {
        name: "Arabic text",
        words: &[
            "مرحبا ",
            "بالعالم، ",
            "في ",
            "عام ",
            "٢٠٢٢ ",
            "كُتِبَ ",
            "12/5 ",
            "(من ",
            "الكتب) ",
            "هنا. ",
        ],
    },
    Kind {
        name: "FSI alone",
        words: &["\u{2068}"],
    },
    Kind {
        name: "LRI a PDI",
        words: &["\u{2066}a\u{2069}"],
    },
    Kind {
        name: "FSI a PDI",
        words: &["\u{2068}a\u{2069}"],
    },
    Kind {
        name: "RLI and LRI in turn",
        words: &["\u{2067}\u{2066}"],
    },
    Kind {
        name: "RLE and LRE in turn",
        words: &["\u{202b}\u{202a}"],
    },
    Kind {
        name: "U+05D0 and 1 in turn",
        words: &["\u{5d0}1"],
    },
    Kind {
        name: "NSM alone",
        words: &["\u{300}"],
    },
    Kind {
        name: "ET alone",
        words: &["$"],
    },
    Kind {
        name: "PDI alone",
        words: &["\u{2069}"],
    },
    Kind {
        name: "( alone",
        words: &["("],
    },
    Kind {
        name: "() again and again",
        words: &["()"],
    },
    Kind {
        name: "(a) between Hebrew",
        words: &["\u{5d0}(a)"],
    },
    Kind {
        name: "63 ( and 63 )",
        words: &[DEEP],
    },
    Kind {
        name: ") alone",
        words: &[")"],
    },
];

/// Prints a line for each kind, with a paragraph of `characters` characters: the minimum time in nanoseconds,
/// the highest level and the name of the kind.
pub fn run(rt: &HostRuntime, folder: &str, characters: usize) -> Result<()> {
    measure_all(rt, Subject::Levels, &KINDS, folder, characters)
}

/// Prints a line for each kind, with a paragraph of `characters` characters laid out at 80 columns: the
/// minimum time in nanoseconds, the number of lines and the name of the kind.
pub fn lay_out_each(rt: &HostRuntime, folder: &str, characters: usize) -> Result<()> {
    let mut engine = engine(rt, folder)?;
    let answer = show_layouts(rt, &mut engine, &KINDS, characters);
    let_go(engine);
    answer
}

fn show_layouts(
    rt: &HostRuntime,
    engine: &mut Engine,
    kinds: &[Kind],
    characters: usize,
) -> Result<()> {
    for kind in kinds {
        show_layout(rt, engine, kind, characters)?;
    }
    Ok(())
}

fn show_layout(
    rt: &HostRuntime,
    engine: &mut Engine,
    kind: &Kind,
    characters: usize,
) -> Result<()> {
    let (time, laid) = lay_out(rt, engine, kind.words, 80, characters)?;
    show(rt, &[time, laid.line_count() as u64], kind.name)
}
