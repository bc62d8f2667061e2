//! Measures the time to find the break marks of one paragraph, for several kinds of text.
use crate::paragraphs::{Kind, Subject, measure_all};
use anyhow::Result;

// Plain letters and real text, followed by the worst cases of some rules.
const KINDS: [Kind; 8] = [
    Kind {
        name: "plain letters",
        words: &[
            "the", "quick", "brown", "fox", "jumps", "over", "lazy", "dog",
        ],
    },
    Kind {
        name: "English text",
        words: &[
            "The ",
            "quick ",
            "brown ",
            "fox, ",
            "(12.5%) ",
            "jumps ",
            "over ",
            "\"lazy\" ",
            "well-known ",
            "dogs. ",
        ],
    },
    Kind {
        name: "Chinese text",
        words: &["你好，", "世界。", "今天", "天气", "很好", "（2022）", "「引用」"],
    },
    Kind {
        name: "spaces alone",
        words: &[" "],
    },
    Kind {
        name: "RI alone",
        words: &["\u{1F1E6}"],
    },
    Kind {
        name: "CM alone",
        words: &["\u{300}"],
    },
    Kind {
        name: "( and spaces",
        words: &["(   "],
    },
    Kind {
        name: "ZWJ alone",
        words: &["\u{200D}"],
    },
];

/// Prints a line for each kind, with a paragraph of `characters` characters: the minimum time in nanoseconds,
/// the number of break opportunities and the name of the kind.
pub fn run(rt: &HostRuntime, folder: &str, characters: usize) -> Result<()> {
    measure_all(rt, Subject::Marks, &KINDS, folder, characters)
}
