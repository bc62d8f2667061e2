//! Prints properties of paragraphs. Each line of standard input is a paragraph, given by the hexadecimal code
//! points of its characters. UCD is the folder of the table files, and VERSION is their Unicode version, 15.0
//! (the default) or 17.0.
//!
//! - `conformance marks-of UCD [VERSION]` prints the break marks of each paragraph, with the rules for
//!   whole numbers.
//! - `conformance lines-of UCD DIRECTION [VERSION]` lays out each paragraph as a single line, and prints its
//!   base level, its levels and its order.
//! - `conformance levels-of UCD DIRECTION [VERSION]` prints the levels of each paragraph before L1.
//! - `conformance starts-of UCD WIDTH [VERSION]` lays out each paragraph, fills it again at WIDTH columns,
//!   and prints where its lines start.
//!
//! Without one of these commands, the program prints its usage. The first two commands are for Unicode's
//! conformance tests (`tests/conformance/run`). The other commands make calls that the program `fribidi`
//! never makes, so that `tests/resources/run` can measure these calls. For the same reason, `marks-of` and
//! `levels-of` use a copy of the tables.
#![tactic(auto)]

ghost use Rattle.std.specs.Prelude.{◌<◌, IfOk};
ghost use Rattle.lines.specs.Engine.{rules_of};
ghost use Rattle.lines.specs.Layouts.{IsLaidOut};

use anyhow::{Result, bail};
use bidi::{Base, resolve};
use breaks::{Mark, marks};
use lines::{Engine, Laid, Options, PARAGRAPH_LIMIT};
use std::alloc::Global;
use std::io::{BufRead, BufReader, BufWriter, Write};
use std::{env, io};
use tables::in_folder_as;
use ucd::{Tables, Version};

const USAGE: &str =
    "conformance marks-of UCD [15.0|17.0], or conformance lines-of UCD ltr|rtl|wltr|wrtl [15.0|17.0],
or conformance levels-of UCD ltr|rtl|wltr|wrtl [15.0|17.0], or conformance starts-of UCD WIDTH [15.0|17.0]";

fn main(rt: HostRuntime) -> Result<()> {
    let words: Vec<String> = env::args(&rt)?.collect(rt.alloc())?;
    run(&rt, &words)
}

fn run(rt: &HostRuntime, words: &[String]) -> Result<()> {
    let (subject, folder, choice) = (word(words, 1), word(words, 2), word(words, 3));
    if subject == "marks-of" {
        let source = Source {
            folder,
            version: version(choice)?,
        };
        return tell_by_tables(rt, source, Subject::Marks);
    }
    let source = Source {
        folder,
        version: version(word(words, 4))?,
    };
    if subject == "levels-of" {
        return tell_by_tables(rt, source, Subject::Levels(base(choice)?));
    }
    if subject == "lines-of" {
        return tell_by_engine(rt, source, in_one_line(base(choice)?), None);
    }
    if subject == "starts-of" {
        return tell_by_engine(rt, source, Options::default(), Some(width(choice)?));
    }
    println!(rt; "{USAGE}")?;
    Ok(())
}

// Returns an argument, or an empty string if it is missing. Argument 0 is the program's name.
fn word(words: &[String], place: usize) -> &str {
    match words.get(place) {
        Some(word) => word.as_str(),
        None => "",
    }
}

const DIRECTIONS: [(&str, Base); 4] = [
    ("ltr", Base::Ltr),
    ("rtl", Base::Rtl),
    ("wltr", Base::WeakLtr),
    ("wrtl", Base::WeakRtl),
];

// Returns the base direction with this name. The names are those of the command's options. Fails for any
// other name.
fn base(direction: &str) -> Result<Base> {
    for (name, base) in &DIRECTIONS {
        if direction == *name {
            return Ok(*base);
        }
    }
    bail!("in which direction?")
}

// The folder of the table files, and their version.
#[derive(Clone, Copy)]
struct Source<'a> {
    folder: &'a str,
    version: Version,
}

// Returns the version with this name, or 15.0 for an empty name. Fails for any other name.
fn version(name: &str) -> Result<Version> {
    match name {
        "" | "15.0" => Ok(Version::V15_0),
        "17.0" => Ok(Version::V17_0),
        _ => bail!("which version?"),
    }
}

fn width(digits: &str) -> Result<u16> {
    Ok(u16::from_str_radix(digits, 10)?)
}

// Returns options with which each paragraph is laid out as one line.
fn in_one_line(base: Base) -> Options {
    Options {
        base,
        nobreak: true,
        ..Options::default()
    }
}

// What is computed from the tables, without an engine.
#[derive(Clone, Copy)]
enum Subject {
    Marks,
    Levels(Base),
}

fn tell_by_tables(rt: &HostRuntime, source: Source<'_>, subject: Subject) -> Result<()> {
    let tables = copied(rt, source)?;
    write_by_tables(rt, &tables, subject)
}

// Reads the tables, and returns a copy.
fn copied(rt: &HostRuntime, source: Source<'_>) -> Result<Tables> {
    Ok(in_folder_as(rt, source.version, source.folder)?.copy(rt.alloc())?)
}

fn write_by_tables(rt: &HostRuntime, tables: &Tables, subject: Subject) -> Result<()> {
    let mut output = BufWriter::new(rt.alloc(), io::writer(rt))?;
    for line in BufReader::new(rt.alloc(), rt.reader())?.lines(rt.alloc()) {
        let text = characters(rt.alloc(), line?.as_str())?;
        write_subject(rt.alloc(), tables, &text, subject, &mut output)?;
    }
    Ok(output.flush()?)
}

fn write_subject<W: Write>(
    alloc: Global,
    tables: &Tables,
    text: &[char],
    subject: Subject,
    output: &mut W,
) -> Result<()> {
    match subject {
        Subject::Marks => write_marks(alloc, tables, text, output),
        Subject::Levels(base) => {
            write_levels(output, &resolve(alloc, tables, text, base)?)?;
            Ok(writeln!(output)?)
        }
    }
}

// Prints the mark after each character of a paragraph: `x` if no line may end there, `/` if a line may end
// there, and `!` if a line must.
fn write_marks<W: Write>(
    alloc: Global,
    tables: &Tables,
    text: &[char],
    output: &mut W,
) -> Result<()> {
    for mark in &marks(alloc, tables, text, true)? {
        write!(output, "{}", sign(*mark))?;
    }
    Ok(writeln!(output)?)
}

fn sign(mark: Mark) -> char {
    match mark {
        Mark::Never => 'x',
        Mark::May => '/',
        Mark::Must => '!',
    }
}

// Lays out paragraphs. Prints the only line of each or, if a width is given, where the lines of each start.
fn tell_by_engine(
    rt: &HostRuntime,
    source: Source<'_>,
    options: Options,
    width: Option<u16>,
) -> Result<()> {
    let tables = in_folder_as(rt, source.version, source.folder)?;
    let mut engine = Engine::new(tables, options);
    let answer = write_by_engine(rt, &mut engine, width);
    let_go(engine);
    answer
}

fn write_by_engine(rt: &HostRuntime, engine: &mut Engine, width: Option<u16>) -> Result<()> {
    let mut output = BufWriter::new(rt.alloc(), io::writer(rt))?;
    for line in BufReader::new(rt.alloc(), rt.reader())?.lines(rt.alloc()) {
        let text = characters(rt.alloc(), line?.as_str())?;
        write_laid_out(rt.alloc(), engine, text, width, &mut output)?;
    }
    Ok(output.flush()?)
}

fn write_laid_out<W: Write>(
    alloc: Global,
    engine: &mut Engine,
    text: Vec<char>,
    width: Option<u16>,
    output: &mut W,
) -> Result<()> {
    let laid = lay_out(alloc, engine, text)?;
    match width {
        Some(width) => write_starts(alloc, engine, laid, width, output),
        None => write_line(output, &laid),
    }
}

// Parses a line of hexadecimal code points into characters. Fails if a word is not such a code point.
fn characters(alloc: Global, line: &str) -> Result<Vec<char>> {
    let mut text = Vec::new(alloc);
    for word in line.split_whitespace() {
        text.push(character(word)?)?;
    }
    Ok(text)
}

fn character(word: &str) -> Result<char> {
    let code = u32::from_str_radix(word, 16)?;
    match char::from_u32(code) {
        Some(c) => Ok(c),
        None => bail!("{word} is no character"),
    }
}

// Prints a paragraph of one line, for example as `1; 1 2; 1 0`. These are its base level and, for its shown
// part, the levels after L1 and the logical positions in visual order.
fn write_line<W: Write>(output: &mut W, laid: &Laid) -> Result<()> {
    let Some(line) = laid.line(0) else {
        bail!("there is no line");
    };
    if laid.line_count() > 1 {
        bail!("that is more than one line");
    }
    write!(output, "{};", line.base())?;
    write_levels(output, line.levels())?;
    write!(output, ";")?;
    write_places(output, line.vtol())
}

// Fills a paragraph again at a width, exchanges its lines for the new ones, and prints where the new lines
// start.
fn write_starts<W: Write>(
    alloc: Global,
    engine: &mut Engine,
    laid: Laid,
    width: u16,
    output: &mut W,
) -> Result<()>
    requires { IsLaidOut (rules_of engine.old) laid }
{
    if width == 0 {
        bail!("at which width?");
    }
    let mut laid = laid;
    let mut fill = engine.refill(alloc, &laid, u32::from(width))?;
    laid.exchange(&mut fill);
    write_places(output, laid.line_starts())
}

fn write_levels<W: Write>(output: &mut W, levels: &[u8]) -> Result<()> {
    for level in levels {
        write!(output, " {level}")?;
    }
    Ok(())
}

fn write_places<W: Write>(output: &mut W, places: &[u32]) -> Result<()> {
    for place in places {
        write!(output, " {place}")?;
    }
    Ok(writeln!(output)?)
}

// Lays out a paragraph at the maximum width. Fails if the text is not one paragraph.
fn lay_out(alloc: Global, engine: &mut Engine, text: Vec<char>) -> Result<Laid>
    ensures { IfOk result (IsLaidOut (rules_of engine.new)) }
{
    let is_long = text.len() > PARAGRAPH_LIMIT;
    if text.is_empty() || is_long || engine.first_cut(&text).is_some() {
        bail!("that is no paragraph");
    }
    match engine.lay_out(alloc, text, u32::from(u16::MAX)) {
        Ok(laid) => Ok(laid),
        Err(_) => bail!("out of memory"),
    }
}

// Drops an engine. No other function drops an engine, since every proof that drops all lists of an engine is
// slow.
fn let_go(_engine: Engine) {}
