//! Tests of prefixes and of text without a width: each row is a text and its output.
use crate::texts::{engine, form, is_written_as};
use lines::Engine;
use regex::Regex;
use std::alloc::Global;
use std::test::Fail;
use terminal::{Escapes, Form, Prefix};

fn quotes(width: u16) -> Form<'static> {
    Form {
        nopad: false,
        prefix: Prefix::Quotes,
        ..form(width, Escapes::Keep)
    }
}

#[test]
fn quotes_are_on_each_line(rt: HostRuntime) -> Result<(), Fail> {
    let mut engine = engine(rt.alloc(), 0)?;
    let form = quotes(11);
    for (text, expected) in [
        ("> one two three\n", "> one two\n> three\n"),
        ("> > one two three\n", "> > one two\n> > three\n"),
        (">> one two three\n", ">> one two\n>> three\n"),
        ("> one two\n> three\n", "> one two\n> three\n"),
        // Only one space after each mark belongs to the quote.
        (">  one two\n", ">  one two\n"),
        (">one two three\n", ">one two\n>three\n"),
        ("one > two three\n", "one > two\nthree\n"),
    ] {
        assert!(rt; is_written_as(rt.alloc(), &mut engine, &form, text, expected)?);
    }
    Ok(())
}

#[test]
fn quote_is_to_the_right_of_right_to_left_lines(rt: HostRuntime) -> Result<(), Fail> {
    let mut engine = engine(rt.alloc(), 0)?;
    let text = "> שלום עולם\n";
    let padded = quotes(10);
    let nopad = Form {
        nopad: true,
        ..quotes(10)
    };
    let nomirror = Form {
        nomirror: true,
        ..quotes(10)
    };
    for (form, expected) in [
        (&padded, "    םולש <\n    םלוע <\n"),
        (&nopad, "םולש <\nםלוע <\n"),
        (&nomirror, "    םולש >\n    םלוע >\n"),
    ] {
        assert!(rt; is_written_as(rt.alloc(), &mut engine, form, text, expected)?);
    }
    let nested = "> >> אב\n";
    assert!(rt; is_written_as(rt.alloc(), &mut engine, &padded, nested, "   בא << <\n")?);
    Ok(())
}

#[test]
fn direction_is_found_after_the_quote(rt: HostRuntime) -> Result<(), Fail> {
    let mut engine = engine(rt.alloc(), 0)?;
    let form = Form {
        basedir: true,
        ..quotes(6)
    };
    for (text, expected) in [
        ("> ab cd\n", "> ab\nLTR\n> cd\n"),
        ("> אב\n", "  בא <\nRTL\n"),
        ("> 1\n> א\n", "> 1\nLTR\n   א <\nRTL\n"),
    ] {
        assert!(rt; is_written_as(rt.alloc(), &mut engine, &form, text, expected)?);
    }
    Ok(())
}

#[test]
fn quote_alone_is_one_line(rt: HostRuntime) -> Result<(), Fail> {
    let mut engine = engine(rt.alloc(), 0)?;
    let form = quotes(5);
    for (text, expected) in [
        (">\n", ">\n"),
        ("> \n", "> \n"),
        ("> > \n", "> > \n"),
        // The separator may be missing.
        (">", ">\n"),
        ("> ", "> \n"),
    ] {
        assert!(rt; is_written_as(rt.alloc(), &mut engine, &form, text, expected)?);
    }
    Ok(())
}

#[test]
fn quote_as_wide_as_the_width_is_text(rt: HostRuntime) -> Result<(), Fail> {
    let mut engine = engine(rt.alloc(), 0)?;
    for (width, expected) in [
        (2, ">\na\nb\n"),
        (3, "> a\n> b\n"),
        // Without a width, no quote is too wide.
        (0, "> a b\n"),
    ] {
        let form = quotes(width);
        assert!(rt; is_written_as(rt.alloc(), &mut engine, &form, "> a b\n", expected)?);
    }
    let form = quotes(3);
    assert!(rt; is_written_as(rt.alloc(), &mut engine, &form, ">>>\n", ">>>\n")?);
    Ok(())
}

#[test]
fn quote_keeps_its_styles(rt: HostRuntime) -> Result<(), Fail> {
    let mut engine = engine(rt.alloc(), 0)?;
    let form = quotes(6);
    for (text, expected) in [
        // A color that ends inside the quote
        (
            "\u{1b}[31m>\u{1b}[m one two\n",
            "\u{1b}[31m>\u{1b}[m one\n\u{1b}[31m>\u{1b}[m two\n",
        ),
        // A color of all characters
        (
            "\u{1b}[31m> one two\u{1b}[m\n",
            "\u{1b}[31m> one\u{1b}[m\n\u{1b}[31m> two\u{1b}[m\n",
        ),
        // A color of the text after the quote
        ("> \u{1b}[31mone\u{1b}[m\n", "> \u{1b}[31mone\u{1b}[m\n"),
        // Padding has the default style.
        ("\u{1b}[31m> אב\u{1b}[m\n", "  \u{1b}[31mבא <\u{1b}[m\n"),
        ("\u{1b}[31m> \u{1b}[mאב\n", "  בא\u{1b}[31m <\u{1b}[m\n"),
    ] {
        assert!(rt; is_written_as(rt.alloc(), &mut engine, &form, text, expected)?);
    }
    let strip = Form {
        escapes: Escapes::Strip,
        ..quotes(6)
    };
    let text = "\u{1b}[31m>\u{1b}[m one two\n";
    assert!(rt; is_written_as(rt.alloc(), &mut engine, &strip, text, "> one\n> two\n")?);
    Ok(())
}

#[test]
fn tab_stops_are_counted_after_the_quote(rt: HostRuntime) -> Result<(), Fail> {
    let mut engine = engine(rt.alloc(), 4)?;
    let form = quotes(20);
    for (text, expected) in [(">\ta\n", ">    a\n"), ("> a\tb\n", "> a   b\n")] {
        assert!(rt; is_written_as(rt.alloc(), &mut engine, &form, text, expected)?);
    }
    Ok(())
}

#[test]
fn text_without_a_width_is_neither_wrapped_nor_padded(rt: HostRuntime) -> Result<(), Fail> {
    let mut engine = engine(rt.alloc(), 0)?;
    let form = Form {
        nopad: false,
        ..form(0, Escapes::Keep)
    };
    for (text, expected) in [
        ("one two three\n", "one two three\n"),
        ("a\u{2028}b\nc", "a\nb\nc\n"),
        ("אב גד\n", "דג בא\n"),
        ("\u{1b}[1mאב\u{1b}[m\n", "\u{1b}[1mבא\u{1b}[m\n"),
    ] {
        assert!(rt; is_written_as(rt.alloc(), &mut engine, &form, text, expected)?);
    }
    Ok(())
}

// Returns whether a text is written as expected if prefixes are what a pattern matches.
fn is_split(
    alloc: Global,
    engine: &mut Engine,
    pattern: &str,
    width: u16,
    text: &str,
    expected: &str,
) -> Result<bool, Fail> {
    let Ok(regex) = Regex::new(alloc, pattern) else {
        return Err(Fail::new("no pattern"));
    };
    let form = Form {
        nopad: false,
        prefix: Prefix::Pattern(&regex),
        ..form(width, Escapes::Keep)
    };
    is_written_as(alloc, engine, &form, text, expected)
}

#[test]
fn lines_are_indented_by_what_a_pattern_matches(rt: HostRuntime) -> Result<(), Fail> {
    let mut engine = engine(rt.alloc(), 4)?;
    let time = r"\A\d\d:\d\d ";
    for (pattern, width, text, expected) in [
        (
            time,
            14,
            "12:30 one two three\n",
            "12:30 one two\n      three\n",
        ),
        (time, 12, "12:30 אב\n", "12:30     בא\n"),
        (time, 14, "one two\n", "one two\n"),
        (time, 14, "12:30 \n", "12:30 \n"),
        (
            time,
            10,
            "\u{1b}[33m12:30\u{1b}[m one two\n",
            "\u{1b}[33m12:30\u{1b}[m one\n      two\n",
        ),
        (r"\A[-+ ]", 4, "+one two\n-one\n", "+one\n two\n-one\n"),
        (r"\A\S+: ", 20, "אב: one\n", "בא: one\n"),
        (r"\A\S+\t", 8, "a\tone two\n", "a   one\n    two\n"),
    ] {
        assert!(rt; is_split(rt.alloc(), &mut engine, pattern, width, text, expected)?);
    }
    Ok(())
}

#[test]
fn matches_that_are_no_prefix_are_text(rt: HostRuntime) -> Result<(), Fail> {
    let mut engine = engine(rt.alloc(), 0)?;
    for (pattern, width, text, expected) in [
        // An empty match
        (r"\Ax*", 4, "one two\n", "one\ntwo\n"),
        // A match that is as wide as the width
        (r"\A\d+", 4, "1234 a\n", "1234\na\n"),
        // A match that is not at the start
        (r"\d+ ", 20, "a 12 b\n", "a 12 b\n"),
        // The separator is not matched.
        (r"(?s)\A.*", 9, "ab\n", "ab\n"),
    ] {
        assert!(rt; is_split(rt.alloc(), &mut engine, pattern, width, text, expected)?);
    }
    Ok(())
}
