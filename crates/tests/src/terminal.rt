//! Tests which characters and styles a terminal shows for a text, and how they are written. Each row is a
//! text and its expected output.
use sequences::{
    Link, MAX_LINKS_LEN, NO_LINK, PLAIN, Progress, Scanner, StyleRef, StyledText,
    is_sequence_known, push_between, sequence_len, shows_itself, shows_no_controls, shows_pieces,
    shows_plain_text, shows_the_same, writes_plain_text,
};
use std::alloc::{AllocError, Global};
use std::test::Fail;

// Appends the characters of a text.
fn push_characters(text: &str, out: &mut Vec<char>) -> Result<(), AllocError> {
    for c in text.chars() {
        out.push(c)?;
    }
    Ok(())
}

// Returns the style of character `k`, and the index of the first run that starts after `k`. `before` is the
// style of the preceding character, and `next` the index of the first run that starts at `k` or later.
fn style_at<'a>(
    text: &'a StyledText,
    k: usize,
    next: usize,
    before: StyleRef<'a>,
) -> (StyleRef<'a>, usize) {
    if next < text.runs.len() && text.runs[next].start == k {
        (text.run_style(next), next + 1)
    } else {
        (before, next)
    }
}

// Writes characters with their styles as one line.
fn push_line(text: &StyledText, out: &mut Vec<char>) -> Result<(), AllocError> {
    let plain = StyleRef {
        look: PLAIN,
        link: &[],
    };
    let mut before = plain;
    let mut next = 0;
    for (k, c) in text.characters.iter().enumerate() {
        let (after, run) = style_at(text, k, next, before);
        push_between(&before, &after, out)?;
        out.push(*c)?;
        before = after;
        next = run;
    }
    push_between(&before, &plain, out)
}

// Returns the output for a text: the characters that a terminal shows for it, with their styles.
fn rewritten(alloc: Global, text: &[char]) -> Result<Vec<char>, AllocError> {
    let mut scanner = Scanner::new(alloc);
    scanner.push_text(text)?;
    let mut out = Vec::new(alloc);
    push_line(&scanner.text, &mut out)?;
    Ok(out)
}

// Returns whether a text is written as expected, and that output is written unchanged if it is read as a text
// again.
fn is_written_as(alloc: Global, text: &str, expected: &str) -> Result<bool, AllocError> {
    let mut characters = Vec::new(alloc);
    push_characters(text, &mut characters)?;
    let mut wanted = Vec::new(alloc);
    push_characters(expected, &mut wanted)?;
    let out = rewritten(alloc, &characters)?;
    let again = rewritten(alloc, &out)?;
    Ok(out.as_slice() == wanted.as_slice() && again.as_slice() == wanted.as_slice())
}

#[test]
fn sequences_other_than_sgr_and_links_are_dropped(rt: HostRuntime) -> Result<(), Fail> {
    for (text, expected) in [
        ("a\u{1b}[2Kb", "ab"),
        ("a\u{1b}[?1;2 qb", "ab"),
        ("a\u{9b}2Kb", "ab"),
        ("a\u{1b}]0;title\u{7}b", "ab"),
        ("a\u{1b}]0;title\u{1b}\\b", "ab"),
        ("a\u{9d}0;title\u{9c}b", "ab"),
        (
            "a\u{1b}P1q\u{1b}\\b\u{1b}Xc\u{1b}\\d\u{1b}^e\u{9c}f\u{1b}_g\u{1b}\\h",
            "abdfh",
        ),
        ("a\u{1b}(Bb\u{1b}7c\u{1b}#8d\u{84}e", "abcde"),
        ("a\u{1b}[1 mb\u{1b}[>1mc", "abc"),
    ] {
        assert!(rt; is_written_as(rt.alloc(), text, expected)?, "{text}");
    }
    Ok(())
}

#[test]
fn incomplete_sequences_are_text(rt: HostRuntime) -> Result<(), Fail> {
    for (text, expected) in [
        ("a\u{1b}", "a"),
        ("a\u{1b}[31", "a[31"),
        ("a\u{9b}31", "a31"),
        ("a\u{1b}[31\u{1b}[1mb", "a[31\u{1b}[1mb\u{1b}[m"),
        ("a\u{1b}]0;title\nb", "a]0;title\nb"),
        ("a\u{1b}Ptext\u{7}b", "aPtextb"),
        ("a\u{1b}]8;;u\u{2029}b\u{7}", "a]8;;u\u{2029}b"),
        ("a\u{1b}(", "a("),
    ] {
        assert!(rt; is_written_as(rt.alloc(), text, expected)?, "{text}");
    }
    Ok(())
}

#[test]
fn controls_are_dropped_but_those_of_lines_and_columns(rt: HostRuntime) -> Result<(), Fail> {
    let text =
        "\0a\t\n\u{b}\u{c}\r\u{e}\u{1b}b\u{1c}\u{1d}\u{1e}\u{1f} ~\u{7f}\u{80}\u{85}\u{86}\u{9f}\u{a0}\u{ad}\u{2028}\u{2029}";
    let expected = "a\t\n\u{b}\u{c}\r\u{1c}\u{1d}\u{1e} ~\u{85}\u{a0}\u{ad}\u{2028}\u{2029}";
    assert!(rt; is_written_as(rt.alloc(), text, expected)?);
    Ok(())
}

#[test]
fn attributes_are_written_in_order(rt: HostRuntime) -> Result<(), Fail> {
    for (text, expected) in [
        ("\u{1b}[1ma", "\u{1b}[1ma\u{1b}[m"),
        (
            "\u{1b}[53;9;8;7;5;4;3;2;1ma",
            "\u{1b}[1;2;3;4;5;7;8;9;53ma\u{1b}[m",
        ),
        ("\u{1b}[1;2;3;22ma", "\u{1b}[3ma\u{1b}[m"),
        ("\u{1b}[1;3;23;22ma", "a"),
        ("\u{1b}[21ma\u{1b}[24mb", "\u{1b}[4:2ma\u{1b}[mb"),
        ("\u{1b}[4:3ma\u{1b}[4:0mb", "\u{1b}[4:3ma\u{1b}[mb"),
        (
            "\u{1b}[4:4ma\u{1b}[4:5mb\u{1b}[4:9mc",
            "\u{1b}[4:4ma\u{1b}[m\u{1b}[4:5mbc\u{1b}[m",
        ),
        ("\u{1b}[6ma\u{1b}[25mb", "\u{1b}[6ma\u{1b}[mb"),
        ("\u{1b}[7;8;9;53;27;28;29;55ma", "a"),
        (
            "\u{1b}[31ma\u{1b}[0mb\u{1b}[1mc\u{1b}[md",
            "\u{1b}[31ma\u{1b}[mb\u{1b}[1mc\u{1b}[md",
        ),
        (
            "\u{1b}[1ma\u{1b}[31mb",
            "\u{1b}[1ma\u{1b}[m\u{1b}[1;31mb\u{1b}[m",
        ),
        ("\u{1b}[1m\u{1b}[mab\u{1b}[3m", "ab"),
    ] {
        assert!(rt; is_written_as(rt.alloc(), text, expected)?, "{text}");
    }
    Ok(())
}

#[test]
fn colors_keep_their_kind(rt: HostRuntime) -> Result<(), Fail> {
    for (text, expected) in [
        ("\u{1b}[31;42ma", "\u{1b}[31;42ma\u{1b}[m"),
        ("\u{1b}[97;100ma", "\u{1b}[97;100ma\u{1b}[m"),
        ("\u{1b}[31;42;39;49ma", "a"),
        ("\u{1b}[38;5;1ma", "\u{1b}[38;5;1ma\u{1b}[m"),
        (
            "\u{1b}[38:5:255;48:5:0ma",
            "\u{1b}[38;5;255;48;5;0ma\u{1b}[m",
        ),
        ("\u{1b}[38;2;1;20;255ma", "\u{1b}[38;2;1;20;255ma\u{1b}[m"),
        ("\u{1b}[48:2:1:2:3ma", "\u{1b}[48;2;1;2;3ma\u{1b}[m"),
        ("\u{1b}[48:2::1:2:3ma", "\u{1b}[48;2;1;2;3ma\u{1b}[m"),
        ("\u{1b}[58;5;7ma\u{1b}[59mb", "\u{1b}[58:5:7ma\u{1b}[mb"),
        ("\u{1b}[58:2::1:2:3ma", "\u{1b}[58:2::1:2:3ma\u{1b}[m"),
        ("\u{1b}[38;5;256;1ma", "\u{1b}[1ma\u{1b}[m"),
        ("\u{1b}[38;2;1;2;300;1ma", "\u{1b}[1ma\u{1b}[m"),
        ("\u{1b}[1;38;2;1;2ma", "\u{1b}[1ma\u{1b}[m"),
        ("\u{1b}[1;38;5ma", "\u{1b}[1ma\u{1b}[m"),
        ("\u{1b}[38:5;1ma", "\u{1b}[1ma\u{1b}[m"),
        ("\u{1b}[1;38;3;4;9ma", "\u{1b}[1ma\u{1b}[m"),
        ("\u{1b}[26;1;77;1:2;99999999999ma", "\u{1b}[1ma\u{1b}[m"),
    ] {
        assert!(rt; is_written_as(rt.alloc(), text, expected)?, "{text}");
    }
    Ok(())
}

#[test]
fn links_keep_their_parameters(rt: HostRuntime) -> Result<(), Fail> {
    for (text, expected) in [
        (
            "\u{1b}]8;id=1;u:v;w\u{7}a",
            "\u{1b}]8;id=1;u:v;w\u{1b}\\a\u{1b}]8;;\u{1b}\\",
        ),
        (
            "\u{1b}]8;;u\u{1b}\\a\u{1b}]8;;\u{1b}\\b",
            "\u{1b}]8;;u\u{1b}\\a\u{1b}]8;;\u{1b}\\b",
        ),
        (
            "\u{1b}]8;;u\u{7}a\u{1b}]8;;v\u{7}b\u{1b}]8;x;\u{7}c",
            "\u{1b}]8;;u\u{1b}\\a\u{1b}]8;;v\u{1b}\\b\u{1b}]8;;\u{1b}\\c",
        ),
        (
            "\u{1b}]8;;u\u{7}a\u{1b}]8;u\u{7}b",
            "\u{1b}]8;;u\u{1b}\\ab\u{1b}]8;;\u{1b}\\",
        ),
        (
            "\u{1b}]8;;u\u{7}a\u{1b}]8;;u\u{7}b",
            "\u{1b}]8;;u\u{1b}\\ab\u{1b}]8;;\u{1b}\\",
        ),
        (
            "\u{1b}[1m\u{1b}]8;;u\u{7}a",
            "\u{1b}[1m\u{1b}]8;;u\u{1b}\\a\u{1b}[m\u{1b}]8;;\u{1b}\\",
        ),
    ] {
        assert!(rt; is_written_as(rt.alloc(), text, expected)?, "{text}");
    }
    Ok(())
}

#[test]
fn overstrikes_are_bold_or_underlined(rt: HostRuntime) -> Result<(), Fail> {
    for (text, expected) in [
        ("x\u{8}xy", "\u{1b}[1mx\u{1b}[my"),
        ("_\u{8}x", "\u{1b}[4mx\u{1b}[m"),
        ("x\u{8}_", "\u{1b}[4mx\u{1b}[m"),
        ("_\u{8}x\u{8}x", "\u{1b}[1;4mx\u{1b}[m"),
        ("x\u{8}y", "y"),
        ("x\u{8}x\u{8}x", "\u{1b}[1mx\u{1b}[m"),
        ("_\u{8}_", "\u{1b}[1m_\u{1b}[m"),
        ("_\u{8}x_\u{8}_", "\u{1b}[4mx_\u{1b}[m"),
        (
            "_\u{8}x\u{8}x_\u{8}_",
            "\u{1b}[1;4mx\u{1b}[m\u{1b}[1m_\u{1b}[m",
        ),
        ("_\u{8}x\n_\u{8}_", "\u{1b}[4mx\u{1b}[m\n\u{1b}[1m_\u{1b}[m"),
        ("\u{1b}[31mx\u{8}x", "\u{1b}[1;31mx\u{1b}[m"),
        ("ש\u{8}ש\u{5b8}\u{8}\u{5b8}", "\u{1b}[1mש\u{5b8}\u{1b}[m"),
        ("字\u{8}字", "\u{1b}[1m字\u{1b}[m"),
        ("\u{8}x\u{8}\u{8}y\u{8}", "xy"),
        ("x\u{8}\u{1b}[mx", "xx"),
        ("\t\u{8}\t", "\t\t"),
    ] {
        assert!(rt; is_written_as(rt.alloc(), text, expected)?, "{text}");
    }
    Ok(())
}

// Returns a text with a string of n letters, from ESC ] to BEL, between `a` and `b`.
fn with_string(alloc: Global, n: usize) -> Result<Vec<char>, AllocError> {
    let mut text = Vec::new(alloc);
    push_characters("a\u{1b}]", &mut text)?;
    for _ in 0..n {
        text.push('x')?;
    }
    push_characters("\nb", &mut text)?;
    Ok(text)
}

#[test]
fn long_string_without_an_end_is_dropped(rt: HostRuntime) -> Result<(), Fail> {
    for (n, expected) in [(4_096, 4_100), (4_097, 3)] {
        let mut scanner = Scanner::new(rt.alloc());
        let text = with_string(rt.alloc(), n)?;
        scanner.push_text(&text)?;
        assert!(rt; scanner.text.characters.len() == expected);
    }
    Ok(())
}

#[test]
fn style_stays_in_the_next_paragraph(rt: HostRuntime) -> Result<(), Fail> {
    let mut scanner = Scanner::new(rt.alloc());
    let mut text = Vec::new(rt.alloc());
    push_characters("a\u{1b}[1m\u{1b}]8;;u\u{7}b\n", &mut text)?;
    scanner.push_text(&text)?;
    scanner.start_paragraph();
    assert!(rt; scanner.text.characters.is_empty());
    scanner.push_text(&['c', 'd'])?;
    let mut out = Vec::new(rt.alloc());
    push_line(&scanner.text, &mut out)?;
    let mut expected = Vec::new(rt.alloc());
    push_characters(
        "\u{1b}[1m\u{1b}]8;;u\u{1b}\\cd\u{1b}[m\u{1b}]8;;\u{1b}\\",
        &mut expected,
    )?;
    assert!(rt; out.as_slice() == expected.as_slice());
    Ok(())
}

#[test]
fn characters_are_appended_with_links(rt: HostRuntime) -> Result<(), Fail> {
    let mut text = StyledText::new(rt.alloc());
    let link = text.add_link(&[';', 'u'])?;
    text.push('a', PLAIN, NO_LINK)?;
    text.push('b', PLAIN, link)?;
    assert!(rt; text.characters.len() == 2 && text.runs.len() == 1);
    assert!(rt;
        text.clear(link) == Link { start: 0, len: 2 }
            && text.links.as_slice() == [';', 'u'].as_slice()
    );
    Ok(())
}

#[test]
fn text_without_styles_has_no_runs(rt: HostRuntime) -> Result<(), Fail> {
    let mut text = Vec::new(rt.alloc());
    push_characters(
        "a\u{1b}[1m\u{1b}[mb\u{1b}]8;;u\u{7}\u{1b}]8;;\u{7}c\u{1b}[2Kd",
        &mut text,
    )?;
    let mut scanner = Scanner::new(rt.alloc());
    scanner.push_text(&text)?;
    assert!(rt; scanner.text.characters.len() == 4 && scanner.text.runs.is_empty());
    Ok(())
}

// Appends a link of 4,001 characters, and a letter.
fn push_long_link(text: &mut Vec<char>) -> Result<(), AllocError> {
    push_characters("\u{1b}]8;;", text)?;
    for _ in 0..4_000 {
        text.push('u')?;
    }
    push_characters("\u{7}a", text)
}

#[test]
fn links_past_one_megabyte_are_dropped(rt: HostRuntime) -> Result<(), Fail> {
    let mut text = Vec::new(rt.alloc());
    for _ in 0..263 {
        push_long_link(&mut text)?;
    }
    let mut scanner = Scanner::new(rt.alloc());
    scanner.push_text(&text)?;
    assert!(rt;
        scanner.text.links.len() == 262 * 4_001 && scanner.text.links.len() <= MAX_LINKS_LEN
    );
    assert!(rt; scanner.text.runs.len() == 263);
    if let Some(run) = scanner.text.runs.last() {
        assert!(rt; run.link.len == 0);
    }
    Ok(())
}

#[test]
fn sequences_are_known_once_they_cannot_go_on(rt: HostRuntime) {
    for (text, known) in [
        (['\u{1b}', '[', '3', 'm'].as_slice(), true),
        (['\u{1b}', '[', '3'].as_slice(), false),
        (['\u{1b}', '[', '\n'].as_slice(), true),
        (['\u{1b}'].as_slice(), false),
        (['\u{9b}', 'm'].as_slice(), true),
        (['\u{1b}', ']', 'a', '\u{7}'].as_slice(), true),
        (['\u{1b}', ']', 'a', '\u{1b}'].as_slice(), false),
        (['\u{1b}', ']', 'a', '\u{1b}', '\\'].as_slice(), true),
        (['\u{1b}', '(', 'B'].as_slice(), true),
        (['\u{1b}', '('].as_slice(), false),
        (['a'].as_slice(), true),
        ([].as_slice(), false),
    ] {
        assert!(rt; is_sequence_known(text) == known);
    }
}

#[test]
fn sequences_can_be_scanned_in_pieces(rt: HostRuntime) {
    for (text, known) in [
        (['\u{1b}', '[', '3', ' ', 'q'].as_slice(), true),
        (['\u{1b}', '[', '3', ' ', ' '].as_slice(), false),
        (['\u{1b}', 'P', 'a', '\u{1b}', '\\'].as_slice(), true),
        (['\u{1b}', 'P', 'a', '\u{7}'].as_slice(), true),
        (['\u{9d}', 'a', 'b'].as_slice(), false),
    ] {
        for len in 0..text.len() {
            let (front, rest) = text.split_at(len);
            let progress = Progress::Start.scan(front);
            assert!(rt; !progress.is_known() && progress.scan(rest).is_known() == known);
        }
    }
}

#[test]
fn sequences_have_lengths(rt: HostRuntime) {
    assert!(rt;
        sequence_len(&['\u{1b}', '[', 'm', 'a']) == Some(3) && sequence_len(&['a']) == None
    );
    shows_itself();
    shows_no_controls();
    shows_pieces();
    shows_plain_text();
    shows_the_same();
    writes_plain_text();
}

// The example in the first lines of `sequences`.
#[test]
fn bold_character_begins_a_run(rt: HostRuntime) -> Result<(), Fail> {
    let mut scanner = Scanner::new(rt.alloc());
    scanner.push_text(&['a', '\u{1b}', '[', '1', 'm', 'b'])?;
    assert!(rt; scanner.text.characters.as_slice() == ['a', 'b'].as_slice());
    assert!(rt; scanner.text.runs.len() == 1); // b is bold
    Ok(())
}
