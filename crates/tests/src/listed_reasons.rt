//! Tests the reasons for the levels of worked examples, as a list with positions in the paragraph. The
//! tests must also pass if any one allocation fails.
use crate::files::{FILES, read};
use bidi::{Base, LevelReason, level_reasons};
use std::alloc::{AllocError, Global};
use std::process::Abort;
use std::test::Fail;
use ucd::{BidiClass, Tables};

// The expected values of some fields in a list of reasons, one for each character.
#[derive(Clone, Copy)]
struct Expected<'a> {
    levels: &'a [u8],
    openers: &'a [Option<usize>],
    matching: &'a [Option<usize>],
    sequences: &'a [Option<usize>],
    level_from: &'a [Option<usize>],
    left: &'a [Option<usize>],
    right: &'a [Option<usize>],
}

// Returns the list of reasons, and tries again after an allocation failure.
fn list_of(alloc: Global, tables: &Tables, text: &[char]) -> Result<Vec<LevelReason>, AllocError> {
    match level_reasons(alloc, tables, text, Base::WeakLtr) {
        Ok(list) => Ok(list),
        Err(_) => level_reasons(alloc, tables, text, Base::WeakLtr),
    }
}

// Returns the position of the first character of a character's sequence, or `None` if it is in none.
fn sequence_of(reason: &LevelReason) -> Option<usize> {
    match reason.resolved {
        Some(resolved) => Some(resolved.sequence),
        None => None,
    }
}

fn left_of(reason: &LevelReason) -> Option<usize> {
    match reason.resolved {
        Some(resolved) => resolved.step.neutral.left,
        None => None,
    }
}

fn right_of(reason: &LevelReason) -> Option<usize> {
    match reason.resolved {
        Some(resolved) => resolved.step.neutral.right,
        None => None,
    }
}

fn have_levels(list: &[LevelReason], levels: &[u8]) -> bool {
    let mut all_right = list.len() == levels.len();
    for (reason, level) in list.iter().zip(levels.iter()) {
        all_right &= reason.level == *level;
    }
    all_right
}

fn have_openers(list: &[LevelReason], openers: &[Option<usize>]) -> bool {
    let mut all_right = list.len() == openers.len();
    for (reason, opener) in list.iter().zip(openers.iter()) {
        all_right &= reason.explicit.opener == *opener;
    }
    all_right
}

fn have_matching(list: &[LevelReason], matching: &[Option<usize>]) -> bool {
    let mut all_right = list.len() == matching.len();
    for (reason, one) in list.iter().zip(matching.iter()) {
        all_right &= reason.matching == *one;
    }
    all_right
}

fn have_level_from(list: &[LevelReason], level_from: &[Option<usize>]) -> bool {
    let mut all_right = list.len() == level_from.len();
    for (reason, one) in list.iter().zip(level_from.iter()) {
        all_right &= reason.level_from == *one;
    }
    all_right
}

fn have_sequences(list: &[LevelReason], sequences: &[Option<usize>]) -> bool {
    let mut all_right = list.len() == sequences.len();
    for (reason, one) in list.iter().zip(sequences.iter()) {
        all_right &= sequence_of(reason) == *one;
    }
    all_right
}

fn have_left(list: &[LevelReason], left: &[Option<usize>]) -> bool {
    let mut all_right = list.len() == left.len();
    for (reason, one) in list.iter().zip(left.iter()) {
        all_right &= left_of(reason) == *one;
    }
    all_right
}

fn have_right(list: &[LevelReason], right: &[Option<usize>]) -> bool {
    let mut all_right = list.len() == right.len();
    for (reason, one) in list.iter().zip(right.iter()) {
        all_right &= right_of(reason) == *one;
    }
    all_right
}

fn is_expected(list: &[LevelReason], expected: &Expected<'_>) -> bool {
    have_levels(list, expected.levels)
        && have_openers(list, expected.openers)
        && have_matching(list, expected.matching)
        && have_sequences(list, expected.sequences)
        && have_level_from(list, expected.level_from)
        && have_left(list, expected.left)
        && have_right(list, expected.right)
}

fn check_list_with(
    rt: &impl Abort,
    alloc: Global,
    tables: &Tables,
    text: &[char],
    expected: &Expected<'_>,
) -> Result<(), AllocError> {
    let list = list_of(alloc, tables, text)?;
    let are_right = is_expected(&list, expected);
    drop(list);
    assert!(rt; are_right);
    Ok(())
}

fn check_list(
    rt: &impl Abort,
    alloc: Global,
    text: &[char],
    expected: &Expected<'_>,
) -> Result<(), Fail> {
    let tables = read(alloc, &FILES)?;
    let result = check_list_with(rt, alloc, &tables, text, expected);
    drop(tables);
    Ok(result?)
}

// An RLE around an LRI around an RLO. The PDI closes the override too. The PDF closes the embedding.
#[test]
fn openers_of_nested_embeddings_and_isolates(rt: HostRuntime) -> Result<(), Fail> {
    let text = [
        'a', '\u{202B}', 'b', '\u{2066}', 'c', '\u{202E}', 'd', '\u{2069}', 'e', '\u{202C}', 'f',
    ];
    let (one, three) = (Some(1), Some(3));
    let expected = Expected {
        levels: &[0, 0, 2, 2, 2, 2, 3, 2, 2, 2, 0],
        openers: &[
            None,
            None,
            one,
            one,
            three,
            three,
            Some(5),
            one,
            one,
            one,
            None,
        ],
        matching: &[
            None,
            None,
            None,
            Some(7),
            None,
            None,
            None,
            three,
            None,
            None,
            None,
        ],
        sequences: &[
            Some(0),
            None,
            Some(2),
            Some(2),
            Some(4),
            None,
            Some(6),
            Some(2),
            Some(2),
            None,
            Some(10),
        ],
        level_from: &[
            None,
            Some(0),
            None,
            None,
            None,
            Some(4),
            None,
            None,
            None,
            Some(8),
            None,
        ],
        left: &[
            None,
            None,
            None,
            Some(2),
            None,
            None,
            None,
            Some(2),
            None,
            None,
            None,
        ],
        right: &[
            None,
            None,
            None,
            Some(8),
            None,
            None,
            None,
            Some(8),
            None,
            None,
            None,
        ],
    };
    check_list(&rt, rt.alloc(), &text, &expected)
}

// Characters that X9 removes at the start of a paragraph, and after a kept character.
#[test]
fn removed_characters_take_the_level_of_the_kept_one_before(rt: HostRuntime) -> Result<(), Fail> {
    let text = [
        '\u{202C}', '\u{200B}', '\u{5D0}', '\u{200B}', '\u{202C}', '1',
    ];
    let (none, two) = ([None; 6], Some(2));
    let expected = Expected {
        levels: &[1, 1, 1, 1, 1, 2],
        openers: &none,
        matching: &none,
        sequences: &[None, None, two, None, None, two],
        level_from: &[None, None, None, two, two, None],
        left: &none,
        right: &none,
    };
    check_list(&rt, rt.alloc(), &text, &expected)
}

// A PDI without an initiator, and an initiator without a PDI.
#[test]
fn isolate_without_an_end_has_no_match(rt: HostRuntime) -> Result<(), Fail> {
    let text = [
        '\u{2069}', 'a', '\u{2067}', '\u{5D0}', '\u{2066}', '\u{2069}',
    ];
    let (zero, two, three) = (Some(0), Some(2), Some(3));
    let expected = Expected {
        levels: &[0, 0, 0, 1, 1, 1],
        openers: &[None, None, None, two, two, two],
        matching: &[None, None, None, None, Some(5), Some(4)],
        sequences: &[zero, zero, zero, three, three, three],
        level_from: &[None; 6],
        left: &[None, None, Some(1), None, three, three],
        right: &[Some(1), None, None, None, None, None],
    };
    check_list(&rt, rt.alloc(), &text, &expected)
}

// Returns a text of 126 embedding initiators, of which the last overflows, a letter, and two PDFs, each
// followed by a letter.
fn deep_text(alloc: Global) -> Result<Vec<char>, AllocError> {
    let mut text = Vec::new(alloc);
    for k in 0..126 {
        text.push(if k % 2 == 0 { '\u{202B}' } else { '\u{202A}' })?;
    }
    for character in ['a', '\u{202C}', 'b', '\u{202C}', 'c'] {
        text.push(character)?;
    }
    Ok(text)
}

// Returns the text of `deep_text`, and tries again after an allocation failure.
fn deep_text_again(alloc: Global) -> Result<Vec<char>, AllocError> {
    match deep_text(alloc) {
        Ok(text) => Ok(text),
        Err(_) => deep_text(alloc),
    }
}

// The letter inside the embedding that overflows is at level 126, which only I2 gives.
fn are_deep(list: &[LevelReason]) -> bool {
    let [.., last, inside, _, after, _, outside] = list else {
        return false;
    };
    last.explicit.opener == Some(124)
        && inside.explicit.opener == Some(124)
        && inside.explicit.level == 125
        && inside.level == 126
        && after.explicit.opener == Some(124)
        && outside.explicit.opener == Some(123)
        && outside.explicit.level == 124
}

fn check_deep(rt: &impl Abort, alloc: Global, tables: &Tables) -> Result<(), AllocError> {
    let text = deep_text_again(alloc)?;
    let list = list_of(alloc, tables, &text);
    drop(text);
    let list = list?;
    let are_right = list.len() == 131 && are_deep(&list);
    drop(list);
    assert!(rt; are_right);
    Ok(())
}

#[test]
fn embedding_that_overflows_is_no_opener(rt: HostRuntime) -> Result<(), Fail> {
    let tables = read(rt.alloc(), &FILES)?;
    let result = check_deep(&rt, rt.alloc(), &tables);
    drop(tables);
    Ok(result?)
}

// An FSI around R acts as RLI, but its class is FSI.
fn are_first_strong(list: &[LevelReason]) -> bool {
    let [_, initiator, letter, closing] = list else {
        return false;
    };
    initiator.class == BidiClass::FSI
        && initiator.explicit.class == BidiClass::RLI
        && initiator.matching == Some(3)
        && letter.level == 1
        && letter.explicit.opener == Some(1)
        && closing.matching == Some(1)
}

fn check_first_strong(rt: &impl Abort, alloc: Global, tables: &Tables) -> Result<(), AllocError> {
    let list = list_of(alloc, tables, &['a', '\u{2068}', '\u{5D0}', '\u{2069}'])?;
    let are_right = are_first_strong(&list);
    drop(list);
    assert!(rt; are_right);
    Ok(())
}

#[test]
fn first_strong_isolate_keeps_its_class(rt: HostRuntime) -> Result<(), Fail> {
    let tables = read(rt.alloc(), &FILES)?;
    let result = check_first_strong(&rt, rt.alloc(), &tables);
    drop(tables);
    Ok(result?)
}
