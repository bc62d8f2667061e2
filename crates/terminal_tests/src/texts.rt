//! Tests of the lines that are written for texts. Each row is a text and its output.
use lines::{Engine, Options, PARAGRAPH_LIMIT};
use std::alloc::Global;
use std::test::Fail;
use stream::Page;
use terminal::{Escapes, Form, Prefix, picture, push_text};
use ucd::{Tables, UcdFiles};

const FILES: UcdFiles<'_> = UcdFiles {
    bidi_class: test_tables::BIDI_CLASS,
    bidi_brackets: test_tables::BIDI_BRACKETS,
    bidi_mirroring: test_tables::BIDI_MIRRORING,
    line_break: test_tables::LINE_BREAK,
    general_category: test_tables::GENERAL_CATEGORY,
    east_asian_width: test_tables::EAST_ASIAN_WIDTH,
    emoji_data: test_tables::EMOJI_DATA,
};

pub(crate) fn engine(alloc: Global, tab_width: u8) -> Result<Engine, Fail> {
    let options = Options {
        tab_width,
        ..Options::default()
    };
    match Tables::read(alloc, &FILES) {
        Ok(tables) => Ok(Engine::new(tables, options)),
        Err(_) => Err(Fail::new("no tables")),
    }
}

pub(crate) fn form(width: u16, escapes: Escapes) -> Form<'static> {
    Form {
        width,
        nopad: true,
        nomirror: false,
        basedir: false,
        escapes,
        strict: false,
        prefix: Prefix::None,
    }
}

// Returns whether characters are written as expected.
fn are_written_as(
    alloc: Global,
    engine: &mut Engine,
    form: &Form<'_>,
    text: &[char],
    expected: &str,
) -> Result<bool, Fail> {
    if text.len() > PARAGRAPH_LIMIT {
        return Err(Fail::new("no text"));
    }
    let mut page = Page::new(alloc);
    push_text(alloc, &mut page, engine, form, text)?;
    Ok(page.bytes() == expected.as_bytes())
}

// Returns whether a text is written as expected.
pub(crate) fn is_written_as(
    alloc: Global,
    engine: &mut Engine,
    form: &Form<'_>,
    text: &str,
    expected: &str,
) -> Result<bool, Fail> {
    let characters: Vec<char> = text.chars().collect(alloc)?;
    are_written_as(alloc, engine, form, &characters, expected)
}

#[test]
fn characters_keep_their_styles(rt: HostRuntime) -> Result<(), Fail> {
    let mut engine = engine(rt.alloc(), 0)?;
    let form = form(20, Escapes::Keep);
    for (text, expected) in [
        ("ab\n", "ab\n"),
        ("\u{1b}[31mab\u{1b}[m c\n", "\u{1b}[31mab\u{1b}[m c\n"),
        // Hebrew text is reversed together with its styles.
        ("\u{1b}[31mאב\u{1b}[mגד\n", "דג\u{1b}[31mבא\u{1b}[m\n"),
        ("שלום \u{1b}[1mab\u{1b}[m\n", "\u{1b}[1mab\u{1b}[m םולש\n"),
    ] {
        assert!(rt; is_written_as(rt.alloc(), &mut engine, &form, text, expected)?);
    }
    Ok(())
}

#[test]
fn lines_begin_and_end_in_the_default_style(rt: HostRuntime) -> Result<(), Fail> {
    let mut engine = engine(rt.alloc(), 0)?;
    let form = form(3, Escapes::Keep);
    for (text, expected) in [
        (
            "\u{1b}[1mab cd\n",
            "\u{1b}[1mab\u{1b}[m\n\u{1b}[1mcd\u{1b}[m\n",
        ),
        (
            "\u{1b}[31ma\nb",
            "\u{1b}[31ma\u{1b}[m\n\u{1b}[31mb\u{1b}[m\n",
        ),
    ] {
        assert!(rt; is_written_as(rt.alloc(), &mut engine, &form, text, expected)?);
    }
    Ok(())
}

#[test]
fn sequences_have_no_columns_and_no_direction(rt: HostRuntime) -> Result<(), Fail> {
    let mut engine = engine(rt.alloc(), 0)?;
    let narrow = form(2, Escapes::Keep);
    assert!(rt;
        is_written_as(
            rt.alloc(),
            &mut engine,
            &narrow,
            "a\u{1b}[31mb\n",
            "a\u{1b}[31mb\u{1b}[m\n"
        )?
    );
    let padded = Form {
        nopad: false,
        ..form(3, Escapes::Keep)
    };
    assert!(rt;
        is_written_as(
            rt.alloc(),
            &mut engine,
            &padded,
            "\u{1b}[31mא\n",
            "  \u{1b}[31mא\u{1b}[m\n"
        )?
    );
    Ok(())
}

#[test]
fn sequences_are_passed_over_between_cr_and_lf(rt: HostRuntime) -> Result<(), Fail> {
    let mut engine = engine(rt.alloc(), 0)?;
    let form = form(20, Escapes::Keep);
    for (text, expected) in [
        ("a\r\u{1b}[31m\nb", "a\n\u{1b}[31mb\u{1b}[m\n"),
        ("a\r\u{1b}[31mb", "a\n\u{1b}[31mb\u{1b}[m\n"),
        ("a\n\u{1b}[m", "a\n"),
    ] {
        assert!(rt; is_written_as(rt.alloc(), &mut engine, &form, text, expected)?);
    }
    Ok(())
}

#[test]
fn spaces_of_a_tab_have_its_style(rt: HostRuntime) -> Result<(), Fail> {
    let mut engine = engine(rt.alloc(), 8)?;
    let form = form(20, Escapes::Keep);
    for (text, expected) in [
        ("\u{1b}[7ma\tb\n", "\u{1b}[7ma       b\u{1b}[m\n"),
        ("a\u{1b}[7m\t\u{1b}[mb\n", "a\u{1b}[7m       \u{1b}[mb\n"),
    ] {
        assert!(rt; is_written_as(rt.alloc(), &mut engine, &form, text, expected)?);
    }
    Ok(())
}

#[test]
fn strip_writes_no_styles(rt: HostRuntime) -> Result<(), Fail> {
    let mut engine = engine(rt.alloc(), 0)?;
    let form = form(20, Escapes::Strip);
    assert!(rt;
        is_written_as(
            rt.alloc(),
            &mut engine,
            &form,
            "\u{1b}[31mאב\u{1b}[mגד\n",
            "דגבא\n"
        )?
    );
    Ok(())
}

#[test]
fn pictures_are_no_sequences(rt: HostRuntime) -> Result<(), Fail> {
    let mut engine = engine(rt.alloc(), 0)?;
    let form = form(20, Escapes::Text);
    let mut text = Vec::new(rt.alloc());
    for c in "\u{1b}[1ma\u{7f}\u{9b}\n".chars() {
        text.push(picture(c))?;
    }
    assert!(rt;
        are_written_as(
            rt.alloc(),
            &mut engine,
            &form,
            &text,
            "\u{241b}[1ma\u{2421}\u{fffd}\n"
        )?
    );
    Ok(())
}
