//! Parses the lines of an edit script. Each parser returns `None` for a text that does not have its form.
ghost use Rattle.std.specs.Prelude.{◌≡◌, ◌+◌, ◌<◌, ◌≤◌, ◌^◌, List, ℕ, take, drop, length, true};
ghost use Rattle.std.specs.Prelude.{IfOk, IfSome, None, OnErr, Some, is_some, option_map};
ghost use Rattle.std.specs.Prelude.{if◌then◌else◌, string_bytes};
ghost use Rattle.std.specs.List.{prefix_len};
ghost use Rattle.std.specs.Char.{is_digit};
ghost use Rattle.std.specs.Str.{chars};
ghost use Rattle.script_commands.specs.Parsed.{command_of};
ghost use Rattle.script_commands.specs.Commands.{LacksInserted, LacksInsertedIn, LacksText};
ghost use Rattle.script_commands.specs.Commands.{Ask, SetWidth, are_digits, both_in, braced, deletion_in};
ghost use Rattle.script_commands.specs.Commands.{command_in, edit_command_in, escaped, insertion_in};
ghost use Rattle.script_commands.specs.Commands.{choice_in, edge_in, edge_query_in, number_by, number_in};
ghost use Rattle.script_commands.specs.Commands.{offset_query_in, parted, query_in, step_in, stripped};
ghost use Rattle.script_commands.specs.Commands.{three_in, turn_in, unescaped, written};

use std::alloc::AllocError;

/// A query about the current text. Positions count characters. Positions, lines and columns start at 0.
#[derive(Clone, Copy, Debug, PartialEq, Eq)]
pub enum Query {
    /// A range of lines. The fields are the first line and the number of lines.
    Lines(usize, usize),
    /// The screen column at which to draw the caret before the character at a position.
    Caret(usize),
    /// The character at a place on the screen. The fields are the line and the screen column.
    Hit(usize, usize),
    /// The grapheme cluster of the character at a position.
    Cluster(usize),
    /// The word of the character at a position.
    Word(usize),
    /// The numbers of characters, lines and paragraphs.
    Size,
    /// A range of characters. The fields are the position of the first character and the number of
    /// characters.
    Text(usize, usize),
    /// The number of UTF-8 bytes before a position.
    Byte(usize),
    /// The number of UTF-16 code units before a position.
    Utf16(usize),
    /// The position of the character that contains a UTF-8 byte.
    FromByte(usize),
    /// The position of the character that contains a UTF-16 code unit.
    FromUtf16(usize),
    /// The screen column at which to draw the caret at an edge. The fields are a character's position, and
    /// whether the edge is after that character.
    Edge(usize, bool),
    /// The edge one step away from an edge. The fields are a character's position, whether the first edge is
    /// after that character, and whether the step is to the right.
    Step(usize, bool, bool),
    /// The edge at a place on the screen. The fields are the line and the screen column.
    At(usize, usize),
    /// The first and the last edge of a line.
    Ends(usize),
    /// The screen columns that a range of characters covers in a line. The fields are the line, the position
    /// of the first character and the position after the last one.
    Spans(usize, usize, usize),
    /// The level runs of a line.
    Runs(usize),
    /// The ends of the grapheme clusters of a line.
    Clusters(usize),
    /// How the algorithms arrive at the level and the break mark of the character at a position.
    Why(usize),
}

/// A command, which is one line of a script.
#[derive(Clone, Copy, Debug, PartialEq, Eq)]
pub enum Command {
    /// Inserts text before the character at a position. The text is passed separately from the command.
    Insert(usize),
    /// Deletes characters. The fields are the position of the first character and the number of characters.
    Delete(usize, usize),
    /// Sets the width, in columns.
    SetWidth(usize),
    /// Writes all lines.
    Show,
    /// Replies to a query.
    Ask(Query),
}

const SHOW: [char; 4] = ['s', 'h', 'o', 'w'];

const INSERT: [char; 7] = ['i', 'n', 's', 'e', 'r', 't', ' '];

const DELETE: [char; 7] = ['d', 'e', 'l', 'e', 't', 'e', ' '];

const WIDTH: [char; 6] = ['w', 'i', 'd', 't', 'h', ' '];

const LINES: [char; 6] = ['l', 'i', 'n', 'e', 's', ' '];

const CARET: [char; 6] = ['c', 'a', 'r', 'e', 't', ' '];

const HIT: [char; 4] = ['h', 'i', 't', ' '];

const CLUSTER: [char; 8] = ['c', 'l', 'u', 's', 't', 'e', 'r', ' '];

const WORD: [char; 5] = ['w', 'o', 'r', 'd', ' '];

const SIZE: [char; 4] = ['s', 'i', 'z', 'e'];

const TEXT: [char; 5] = ['t', 'e', 'x', 't', ' '];

const BYTE: [char; 5] = ['b', 'y', 't', 'e', ' '];

const UTF16: [char; 6] = ['u', 't', 'f', '1', '6', ' '];

const FROM_BYTE: [char; 9] = ['f', 'r', 'o', 'm', 'b', 'y', 't', 'e', ' '];

const FROM_UTF16: [char; 10] = ['f', 'r', 'o', 'm', 'u', 't', 'f', '1', '6', ' '];

const EDGE: [char; 5] = ['e', 'd', 'g', 'e', ' '];

const STEP: [char; 5] = ['s', 't', 'e', 'p', ' '];

const AT: [char; 3] = ['a', 't', ' '];

const ENDS: [char; 5] = ['e', 'n', 'd', 's', ' '];

const SPANS: [char; 6] = ['s', 'p', 'a', 'n', 's', ' '];

const RUNS: [char; 5] = ['r', 'u', 'n', 's', ' '];

const CLUSTERS: [char; 9] = ['c', 'l', 'u', 's', 't', 'e', 'r', 's', ' '];

const WHY: [char; 4] = ['w', 'h', 'y', ' '];

const BEFORE: [char; 6] = ['b', 'e', 'f', 'o', 'r', 'e'];

const AFTER: [char; 5] = ['a', 'f', 't', 'e', 'r'];

const LEFT: [char; 4] = ['l', 'e', 'f', 't'];

const RIGHT: [char; 5] = ['r', 'i', 'g', 'h', 't'];

/// Parses a line, which may be a query only if `queries` is true. Returns `None` if the line is not valid.
/// Stores the text of an insert in `inserted`.
pub fn read_command(
    queries: bool,
    line: &[char],
    inserted: &mut String,
) -> Result<Option<Command>, AllocError>
    ensures ok { IfOk result (λ command. option_map (command_of (string_bytes inserted.new)) command
        ≡ command_in queries line.now) }
    ensures memory { OnErr result (LacksInserted line.now (chars (string_bytes inserted.new))) }
{
    match read_edit_command(line, inserted) {
        Ok(None) if queries => Ok(read_query(line)),
        command => command,
    }
}

// Parses a line as a query. Returns `None` if the line is not a query.
fn read_query(line: &[char]) -> Option<Command>
    ensures { (inserted : List ℕ)
        → option_map (command_of inserted) result ≡ option_map Ask (query_in line.now) }
{
    Some(Command::Ask(parse_query(line)?))
}

#[tactic(auto, unfolding(crate::specs::Commands::query_in))]
fn parse_query(line: &[char]) -> Option<Query>
    ensures { result ≡ query_in line.now }
{
    if let Some(rest) = after(&LINES, line) {
        let (first, count) = both(rest)?;
        return Some(Query::Lines(first, count));
    }
    if let Some(rest) = after(&CARET, line) {
        return Some(Query::Caret(number(rest)?));
    }
    if let Some(rest) = after(&HIT, line) {
        let (n, column) = both(rest)?;
        return Some(Query::Hit(n, column));
    }
    if let Some(rest) = after(&CLUSTER, line) {
        return Some(Query::Cluster(number(rest)?));
    }
    if let Some(rest) = after(&WORD, line) {
        return Some(Query::Word(number(rest)?));
    }
    if let Some(rest) = after(&SIZE, line) {
        return if rest.is_empty() {
            Some(Query::Size)
        } else {
            None
        };
    }
    if let Some(rest) = after(&TEXT, line) {
        let (pos, count) = both(rest)?;
        return Some(Query::Text(pos, count));
    }
    parse_offset_query(line)
}

#[tactic(auto, unfolding(crate::specs::Commands::offset_query_in))]
fn parse_offset_query(line: &[char]) -> Option<Query>
    ensures { result ≡ offset_query_in line.now }
{
    if let Some(rest) = after(&BYTE, line) {
        return Some(Query::Byte(number(rest)?));
    }
    if let Some(rest) = after(&UTF16, line) {
        return Some(Query::Utf16(number(rest)?));
    }
    if let Some(rest) = after(&FROM_BYTE, line) {
        return Some(Query::FromByte(number(rest)?));
    }
    if let Some(rest) = after(&FROM_UTF16, line) {
        return Some(Query::FromUtf16(number(rest)?));
    }
    parse_edge_query(line)
}

#[tactic(auto, unfolding(crate::specs::Commands::edge_query_in))]
fn parse_edge_query(line: &[char]) -> Option<Query>
    ensures { result ≡ edge_query_in line.now }
{
    if let Some(rest) = after(&EDGE, line) {
        let (pos, is_after) = edge(rest)?;
        return Some(Query::Edge(pos, is_after));
    }
    if let Some(rest) = after(&STEP, line) {
        let (pos, (is_after, is_right)) = step(rest)?;
        return Some(Query::Step(pos, is_after, is_right));
    }
    if let Some(rest) = after(&AT, line) {
        let (n, column) = both(rest)?;
        return Some(Query::At(n, column));
    }
    if let Some(rest) = after(&ENDS, line) {
        return Some(Query::Ends(number(rest)?));
    }
    if let Some(rest) = after(&SPANS, line) {
        let (n, (from, to)) = three(rest)?;
        return Some(Query::Spans(n, from, to));
    }
    if let Some(rest) = after(&RUNS, line) {
        return Some(Query::Runs(number(rest)?));
    }
    if let Some(rest) = after(&CLUSTERS, line) {
        return Some(Query::Clusters(number(rest)?));
    }
    Some(Query::Why(number(after(&WHY, line)?)?))
}

// Parses two numbers separated by a space.
fn both(text: &[char]) -> Option<(usize, usize)>
    ensures { result ≡ both_in (parted text.now) }
{
    let (one, other) = words(text)?;
    Some((number(one)?, number(other)?))
}

// Parses three numbers separated by single spaces.
fn three(text: &[char]) -> Option<(usize, (usize, usize))>
    ensures { result ≡ three_in (parted text.now) }
{
    let (first, rest) = words(text)?;
    Some((number(first)?, both(rest)?))
}

// Parses a position and a side. The second result is true for the side `after`.
fn edge(text: &[char]) -> Option<(usize, bool)>
    ensures { result ≡ edge_in (parted text.now) }
{
    let (pos, side) = words(text)?;
    Some((number(pos)?, choice(&BEFORE, &AFTER, side)?))
}

// Parses a side and a direction. The results are true for `after` and for `right`.
fn turn(text: &[char]) -> Option<(bool, bool)>
    ensures { result ≡ turn_in (parted text.now) }
{
    let (side, direction) = words(text)?;
    Some((
        choice(&BEFORE, &AFTER, side)?,
        choice(&LEFT, &RIGHT, direction)?,
    ))
}

// Parses a position, a side and a direction.
fn step(text: &[char]) -> Option<(usize, (bool, bool))>
    ensures { result ≡ step_in (parted text.now) }
{
    let (pos, rest) = words(text)?;
    Some((number(pos)?, turn(rest)?))
}

// Returns `false` for the first of two words, `true` for the second, and `None` for other texts.
fn choice(one: &[char], other: &[char], text: &[char]) -> Option<bool>
    ensures { result ≡ choice_in one.now other.now text.now }
{
    if text == one {
        Some(false)
    } else if text == other {
        Some(true)
    } else {
        None
    }
}

// Parses a line as `show`, `insert`, `delete` or `width`. Stores the text of an insert in `inserted`.
fn read_edit_command(line: &[char], inserted: &mut String) -> Result<Option<Command>, AllocError>
    ensures ok { IfOk result (λ command. option_map (command_of (string_bytes inserted.new)) command
        ≡ edit_command_in line.now) }
    ensures memory { OnErr result (LacksInserted line.now (chars (string_bytes inserted.new))) }
{
    if let Some(rest) = after(&SHOW, line) {
        return Ok(if rest.is_empty() {
            Some(Command::Show)
        } else {
            None
        });
    }
    if let Some(rest) = after(&INSERT, line) {
        return insertion(rest, inserted);
    }
    if let Some(rest) = after(&DELETE, line) {
        return Ok(deletion(rest));
    }
    match after(&WIDTH, line) {
        Some(rest) => Ok(width(rest)),
        None => Ok(None),
    }
}

fn insertion(text: &[char], inserted: &mut String) -> Result<Option<Command>, AllocError>
    ensures ok { IfOk result (λ command. option_map (command_of (string_bytes inserted.new)) command
        ≡ insertion_in (parted text.now)) }
    ensures memory { OnErr result (LacksInsertedIn text.now (chars (string_bytes inserted.new))) }
{
    let Some((pos, text)) = words(text) else {
        return Ok(None);
    };
    let Some(pos) = number(pos) else {
        return Ok(None);
    };
    match unescape(text, inserted) {
        Ok(true) => Ok(Some(Command::Insert(pos))),
        Ok(false) => Ok(None),
        Err(error) => Err(error),
    }
}

fn deletion(text: &[char]) -> Option<Command>
    ensures { (inserted : List ℕ) → option_map (command_of inserted) result ≡ deletion_in (parted text.now) }
{
    let (pos, count) = words(text)?;
    Some(Command::Delete(number(pos)?, number(count)?))
}

fn width(text: &[char]) -> Option<Command>
    ensures { (inserted : List ℕ)
        → option_map (command_of inserted) result ≡ option_map SetWidth (number_in text.now) }
{
    Some(Command::SetWidth(number(text)?))
}

// Returns the rest of a text after the prefix `word`, or `None` if the text does not start with `word`.
fn after<'a>(word: &[char], text: &'a [char]) -> Option<&'a [char]>
    ensures { option_map (λ rest. rest.now) result ≡ stripped word.now text.now }
{
    text.strip_prefix(word)
}

// Returns the parts of a text before and after its first space, or `None` if it has no space.
fn words(text: &[char]) -> Option<(&[char], &[char])>
    ensures { option_map (λ words. (words.0.now, words.1.now)) result ≡ parted text.now }
{
    match text.iter().position(|&c| c == ' ') {
        Some(at) => Some((&text[..at], &text[at + 1..])),
        None => None,
    }
}

// Parses a number of 1 to 9 decimal digits.
fn number(text: &[char]) -> Option<usize>
    ensures { result ≡ number_in text.now }
{
    if text.is_empty() || text.len() > 9 || !are_digits(text, 10) {
        return None;
    }
    Some(value(text, 10))
}

fn are_digits(text: &[char], radix: u32) -> bool
    requires { (2 ≤ radix) × (radix ≤ 16) }
    ensures { result ≡ are_digits radix text.now }
{
    for c in text {
        if !c.is_digit(radix) {
            return false;
        }
    }
    true
}

// Returns the number that digits represent in a radix.
fn value(digits: &[char], radix: u32) -> usize
    requires radix { (2 ≤ radix) × (radix ≤ 16) }
    requires digits { are_digits radix digits.now ≡ true }
    requires few { length digits.now ≤ 9 }
    ensures value { result ≡ number_by radix digits.now }
    ensures bound { result < radix ^ length digits.now }
{
    let mut number = 0;
    for c in digits {
        match c.to_digit(radix) {
            Some(digit) => number = radix as usize * number + digit as usize,
            None => unreachable!(),
        }
    }
    number
}

// Returns whether all escapes in a text are valid.
fn has_right_escapes(text: &[char]) -> bool
    ensures { result ≡ is_some (unescaped text.now) }
{
    let mut at = 0;
    while at < text.len() {
        match written(text[at], &text[at + 1..]) {
            Some((_, len)) => at += len,
            None => return false,
        }
    }
    true
}

// Replaces the escapes in a text, and stores the result in `inserted`. Returns `false`, and leaves `inserted`
// unchanged, if an escape is not valid. Checks the escapes before allocating.
fn unescape(text: &[char], inserted: &mut String) -> Result<bool, AllocError>
    ensures ok { IfOk result (λ right.
        (if right then Some (chars (string_bytes inserted.new)) else None) ≡ unescaped text.now) }
    ensures memory { OnErr result (0 < length text.now) }
    ensures lacks { OnErr result (LacksText text.now (chars (string_bytes inserted.new))) }
{
    if !has_right_escapes(text) {
        return Ok(false);
    }
    inserted.clear();
    let mut at = 0;
    while at < text.len() {
        match written(text[at], &text[at + 1..]) {
            Some((c, len)) => {
                inserted.push(c)?;
                at += len;
            }
            None => return Ok(false),
        }
    }
    Ok(true)
}

// Returns the first character that a text represents, and how many characters represent it, or `None` if
// these are an invalid escape. The text is `c`, followed by `after`.
fn written(c: char, after: &[char]) -> Option<(char, usize)>
    ensures value { result ≡ written c after.now }
    ensures within { IfSome result (λ w. (0 < w.1) × (w.1 ≤ length after.now + 1)) }
{
    if c == '\\' {
        escaped(after)
    } else {
        Some((c, 1))
    }
}

// Returns the character and the length of an escape, or `None` if it is invalid, given the text after its
// backslash.
fn escaped(text: &[char]) -> Option<(char, usize)>
    ensures value { result ≡ escaped text.now }
    ensures within { IfSome result (λ w. (0 < w.1) × (w.1 ≤ length text.now + 1)) }
{
    let letter = *text.first()?;
    if letter == 'n' {
        Some(('\n', 2))
    } else if letter == 'r' {
        Some(('\r', 2))
    } else if letter == '\\' {
        Some(('\\', 2))
    } else if letter == 'u' && text.len() > 1 && text[1] == '{' {
        braced(&text[2..])
    } else {
        None
    }
}

// Returns the character and the length of an escape `\u{H}`, or `None` if it is invalid, given the text after
// `\u{`.
fn braced(text: &[char]) -> Option<(char, usize)>
    ensures value { result ≡ braced text.now }
    ensures within { IfSome result (λ w. (0 < w.1) × (w.1 ≤ length text.now + 3)) }
{
    let len = hex_len(text);
    if len == 0 || len > 6 || len == text.len() || text[len] != '}' {
        return None;
    }
    let number = value(&text[..len], 16);
    match char::from_u32(number as u32) {
        Some(c) => Some((c, len + 4)),
        None => None,
    }
}

// Returns the number of hexadecimal digits at the start of a text.
fn hex_len(text: &[char]) -> usize
    ensures len { result ≡ prefix_len (λ c. is_digit c 16) text.now }
    ensures within { result ≤ length text.now }
    ensures digits { are_digits 16 (take result text.now) ≡ true }
{
    for (at, c) in text.iter().enumerate() {
        if !c.is_digit(16) {
            return at;
        }
    }
    text.len()
}
