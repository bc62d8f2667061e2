//! Worked examples of characters that join.
use joining::{
    Agreement, Form, Joiner, Joiners, JoiningType, Letter, LetterForms, ListedForms, ListedJoiners,
    PresentationForms, join_letters, lam_alef, next_joined,
};
use std::alloc::{AllocError, Global};
use std::process::Abort;
use std::test::Fail;

// Texts, the level of each character (`x` if X9 removes it), and its form by the joins: isolated (s), initial
// (i), medial (m) or final (f). Transparent characters have a dot.
static ROWS: [(&str, &str, &str); 24] = [
    ("", "", ""),
    ("سلام", "1111", "imfs"),
    ("لا", "11", "if"),
    ("ـلا", "111", "imf"),
    ("لا\u{64B}", "111", "if."),
    ("ل\u{64E}ا", "111", "i.f"),
    ("ل\u{64E}\u{651}\u{670}ا", "11111", "i...f"),
    ("ل\u{200D}ا", "1x1", "imf"),
    ("ل\u{200C}ا", "1x1", "sss"),
    ("می\u{200C}خواهم", "11x11111", "ifsifsif"),
    ("ه\u{200D}", "1x", "if"),
    ("\u{200D}ه", "x1", "if"),
    ("بب", "12", "ss"),
    ("بب", "13", "ss"),
    ("بب", "33", "if"),
    ("ب\u{64E}ب", "121", "s.s"),
    ("ب\u{AD}ب", "1x1", "i.f"),
    ("لا", "22", "ss"),
    ("ال", "22", "if"),
    ("ببب", "000", "imf"),
    ("بaب", "111", "sss"),
    ("بءب", "111", "sss"),
    ("اابا", "1111", "ssif"),
    ("\u{A872}\u{A86A}", "11", "if"),
];

// A joiner between two levels, and a mark after it: with the second condition, the mark's level counts only
// if the joiner has one.
static BETWEEN: [(&str, &str, &str); 2] = [
    ("ب\u{200D}\u{64E}ب", "1x12", "if.s"),
    ("ب\u{200D}ب", "1x2", "imf"),
];

static BETWEEN_WITH_FIRST: [(&str, &str, &str); 2] = [
    ("ب\u{200D}\u{64E}ب", "1x12", "im.f"),
    ("ب\u{200D}ب", "1x2", "imf"),
];

// Letters, each followed by its isolated, final, initial and medial form, or by `-` for a form that it lacks.
static LETTERS: &str =
    "ا\u{FE8D}\u{FE8E}--ب\u{FE8F}\u{FE90}\u{FE91}\u{FE92}س\u{FEB1}\u{FEB2}\u{FEB3}\u{FEB4}\
ل\u{FEDD}\u{FEDE}\u{FEDF}\u{FEE0}م\u{FEE1}\u{FEE2}\u{FEE3}\u{FEE4}ه\u{FEE9}\u{FEEA}\u{FEEB}\u{FEEC}\
آ\u{FE81}\u{FE82}--أ\u{FE83}\u{FE84}--إ\u{FE87}\u{FE88}--ء\u{FE80}---\u{6BA}\u{FB9E}\u{FB9F}--";

// Texts, the level of each character (`x` if X9 removes it), and the characters that a line shows. A lam that
// is shown in a ligature becomes U+FEFF.
static SHOWN_ROWS: [(&str, &str, &str); 28] = [
    ("", "", ""),
    ("سلام", "1111", "\u{FEB3}\u{FEFF}\u{FEFC}\u{FEE1}"),
    ("لا", "11", "\u{FEFF}\u{FEFB}"),
    (
        "لآلألإ",
        "111111",
        "\u{FEFF}\u{FEF5}\u{FEFF}\u{FEF7}\u{FEFF}\u{FEF9}",
    ),
    ("بلآ", "111", "\u{FE91}\u{FEFF}\u{FEF6}"),
    ("ـلا", "111", "ـ\u{FEFF}\u{FEFC}"),
    ("لا\u{64B}", "111", "\u{FEFF}\u{FEFB}\u{64B}"),
    ("ل\u{64E}ا", "111", "\u{FEFF}\u{64E}\u{FEFB}"),
    (
        "ل\u{64E}\u{AD}\u{651}ا",
        "11x11",
        "\u{FEFF}\u{64E}\u{AD}\u{651}\u{FEFB}",
    ),
    ("\u{64E}لا", "111", "\u{64E}\u{FEFF}\u{FEFB}"),
    ("ل\u{200D}ا", "1x1", "\u{FEDF}\u{200D}\u{FE8E}"),
    ("ل\u{200C}ا", "1x1", "\u{FEDD}\u{200C}\u{FE8D}"),
    ("ه\u{200D}", "1x", "\u{FEEB}\u{200D}"),
    ("لا", "13", "\u{FEDD}\u{FE8D}"),
    ("ل\u{64E}ا", "121", "\u{FEDD}\u{64E}\u{FE8D}"),
    ("بب", "12", "\u{FE8F}\u{FE8F}"),
    ("بب", "22", "\u{FE90}\u{FE91}"),
    ("لا", "22", "\u{FEDD}\u{FE8D}"),
    ("ال", "22", "\u{FE8E}\u{FEDF}"),
    ("لال", "222", "\u{FEDD}\u{FE8E}\u{FEDF}"),
    ("ب\u{6BA}ب", "111", "\u{FE91}\u{6BA}\u{FE90}"),
    ("ب\u{6BA}", "11", "\u{FE91}\u{FB9F}"),
    ("بءب", "111", "\u{FE8F}ء\u{FE8F}"),
    ("بaب", "101", "\u{FE8F}a\u{FE8F}"),
    ("لالا", "1111", "\u{FEFF}\u{FEFB}\u{FEFF}\u{FEFB}"),
    ("للا", "111", "\u{FEDF}\u{FEFF}\u{FEFC}"),
    ("اا", "11", "\u{FE8D}\u{FE8D}"),
    ("ب\u{64E}\u{651}", "111", "\u{FE8F}\u{64E}\u{651}"),
];

fn level_of(level: char) -> Option<u8> {
    match level {
        '0' => Some(0),
        '1' => Some(1),
        '2' => Some(2),
        '3' => Some(3),
        _ => None,
    }
}

fn joiner_of(c: char, level: char) -> Joiner {
    Joiner {
        joining: JoiningType::for_char(c),
        level: level_of(level),
    }
}

fn form_of(transparent: bool, before: bool, after: bool) -> char {
    if transparent {
        '.'
    } else if before {
        if after { 'm' } else { 'f' }
    } else if after {
        'i'
    } else {
        's'
    }
}

// Returns whether the characters have these forms.
fn are_forms(text: &ListedJoiners, by: Agreement, forms: &str) -> bool {
    let mut all_right = text.len() == forms.chars().count();
    let mut joined = None;
    for (k, form) in forms.chars().enumerate() {
        if k < text.len() {
            let after = next_joined(text, by, k);
            let transparent = text.joiner_at(k).is_transparent();
            all_right &= form == form_of(transparent, joined == Some(k), after.is_some());
            if !transparent {
                joined = after;
            }
        }
    }
    all_right
}

fn check_each(
    rt: &impl Abort,
    alloc: Global,
    by: Agreement,
    rows: &[(&str, &str, &str)],
) -> Result<(), AllocError> {
    for (text, levels, forms) in rows {
        let joiners: Vec<Joiner> = text
            .chars()
            .zip(levels.chars())
            .map(|(c, level)| joiner_of(c, level))
            .collect(alloc)?;
        let are_right = are_forms(&ListedJoiners { joiners: &joiners }, by, forms);
        drop(joiners);
        assert!(rt; are_right, "{text:?} {levels}");
    }
    Ok(())
}

fn form_in(form: Option<char>) -> Option<char> {
    if form == Some('-') { None } else { form }
}

fn letters_of(alloc: Global, listed: &str) -> Result<Vec<Letter>, AllocError> {
    let mut letters = Vec::new(alloc);
    let mut rest = listed.chars();
    while let Some(letter) = rest.next() {
        let forms = PresentationForms {
            isolated_form: form_in(rest.next()),
            final_form: form_in(rest.next()),
            initial_form: form_in(rest.next()),
            medial_form: form_in(rest.next()),
        };
        letters.push(Letter { letter, forms })?;
    }
    Ok(letters)
}

// Returns whether a line shows these characters, and hides those that become U+FEFF.
fn shows(
    alloc: Global,
    letters: &[Letter],
    text: &str,
    levels: &str,
    shown: &str,
) -> Result<bool, AllocError> {
    let joiners: Vec<Joiner> = text
        .chars()
        .zip(levels.chars())
        .map(|(c, level)| joiner_of(c, level))
        .collect(alloc)?;
    let mut characters: Vec<char> = text.chars().collect(alloc)?;
    let mut hidden: Vec<bool> = text.chars().map(|_| true).collect(alloc)?;
    let is_even = joiners.len() == characters.len() && hidden.len() == characters.len();
    if is_even {
        join_letters(
            &ListedJoiners { joiners: &joiners },
            &ListedForms { letters },
            &mut characters,
            &mut hidden,
        );
    }
    Ok(
        is_even
            && characters.iter().copied().eq(shown.chars())
            && hidden
                .iter()
                .copied()
                .eq(shown.chars().map(|c| c == '\u{FEFF}')),
    )
}

#[test]
fn line_shows_its_letters_joined(rt: HostRuntime) -> Result<(), Fail> {
    let letters = letters_of(rt.alloc(), LETTERS)?;
    for (text, levels, shown) in &SHOWN_ROWS {
        let is_right = shows(rt.alloc(), &letters, text, levels, shown)?;
        assert!(&rt; is_right, "{text:?} {levels}");
    }
    Ok(())
}

#[test]
fn letters_have_the_forms_of_their_joins(rt: HostRuntime) -> Result<(), Fail> {
    check_each(&rt, rt.alloc(), Agreement::All, &ROWS)?;
    check_each(&rt, rt.alloc(), Agreement::WithFirst, &ROWS)?;
    Ok(())
}

#[test]
fn removed_joiner_ends_the_second_condition(rt: HostRuntime) -> Result<(), Fail> {
    check_each(&rt, rt.alloc(), Agreement::All, &BETWEEN)?;
    check_each(&rt, rt.alloc(), Agreement::WithFirst, &BETWEEN_WITH_FIRST)?;
    Ok(())
}

#[test]
fn lam_joins_alef(rt: HostRuntime) {
    let lam = Joiner {
        joining: JoiningType::for_char('ل'),
        level: Some(1),
    };
    let alef = Joiner {
        joining: JoiningType::for_char('ا'),
        level: Some(1),
    };
    let text = ListedJoiners {
        joiners: &[lam, alef],
    };
    assert!(rt; next_joined(&text, Agreement::All, 0) == Some(1));
}

#[test]
fn forms_depend_on_both_sides(rt: HostRuntime) {
    assert!(rt;
        Form::by_sides(true, true) == Form::Medial && Form::by_sides(true, false) == Form::Final
    );
    assert!(rt;
        Form::by_sides(false, true) == Form::Initial
            && Form::by_sides(false, false) == Form::Isolated
    );
}

#[test]
fn missing_form_is_none(rt: HostRuntime) {
    let forms = PresentationForms {
        isolated_form: Some('\u{FB9E}'),
        final_form: Some('\u{FB9F}'),
        initial_form: None,
        medial_form: None,
    };
    let letters = [Letter {
        letter: '\u{6BA}',
        forms,
    }];
    let listed = ListedForms { letters: &letters };
    assert!(rt; forms.in_form(Form::Isolated) == Some('\u{FB9E}'));
    assert!(rt; forms.in_form(Form::Initial).is_none());
    assert!(rt; listed.forms_of('\u{6BA}').in_form(Form::Final) == Some('\u{FB9F}'));
    assert!(rt; listed.forms_of('a').in_form(Form::Isolated).is_none());
}

#[test]
fn lam_and_alef_have_eight_ligatures(rt: HostRuntime) {
    let mut count = 0_u32;
    for lam in 0xFE70..0xFF00_u32 {
        for alef in 0xFE70..0xFF00_u32 {
            if lam_alef(lam, alef).is_some() {
                count = count.wrapping_add(1);
            }
        }
    }
    assert!(rt; count == 8);
    assert!(rt;
        lam_alef(0xFEDF, 0xFE8E) == Some(0xFEFB) && lam_alef(0xFEE0, 0xFE82) == Some(0xFEF6)
    );
    assert!(rt; lam_alef(0xFEDF, 0xFE88) == Some(0xFEF9) && lam_alef(0xFE8E, 0xFEDF).is_none());
}
