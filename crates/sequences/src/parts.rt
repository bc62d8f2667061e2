//! The parameters of SGR and their fields.
//!
//! Lists of parameters, and single parameters, are passed with the character before them. So an empty slice
//! has no parts, and a slice of one character has one empty part.
ghost use Rattle.std.specs.Prelude.{◌≡◌, ◌==◌, ◌≤◌, ◌<◌, ◌+◌, length, drop, map, take, count_by};
ghost use Rattle.std.specs.List.{position_or_len};
ghost use Rattle.sequences.specs.Looks.{single, value};
ghost use Rattle.sequences.specs.Parameters.{number};
ghost use Rattle.sequences.specs.Parts.{fields_after, first_len, parameters_after, parts_after};

/// The number that represents a missing or meaningless value.
pub(crate) const NO_VALUE: u32 = 256;

fn number(digits: &[char]) -> u32
    ensures value { result ≡ number digits.now }
    ensures small { result ≤ 256 }
{
    let mut n = 0;
    for digit in digits {
        n = (10 * n + (*digit as u32).saturating_sub(0x30)).min(NO_VALUE);
    }
    n
}

/// Returns the index of the first separator, or the length of the text if there is none.
pub(crate) fn part_end(separator: char, text: &[char]) -> usize
    ensures end { result ≡ position_or_len (λ c. c == separator) text.now }
    ensures within { result ≤ length text.now }
{
    for (k, c) in text.iter().enumerate() {
        if *c == separator {
            return k;
        }
    }
    text.len()
}

// Returns the length of the first part of a text, including the character before the part.
fn first_len(separator: char, text: &[char]) -> usize
    ensures len { result ≡ first_len separator text.now }
    ensures within { result ≤ length text.now }
    ensures some { 0 < length text.now → 0 < result }
{
    match text.split_first() {
        Some((_, rest)) => part_end(separator, rest) + 1,
        None => 0,
    }
}

// Splits a text after its first part.
fn split_part(separator: char, text: &[char]) -> (&[char], &[char])
    ensures first { result.0.now ≡ take (first_len separator text.now) text.now }
    ensures rest { result.1.now ≡ drop (first_len separator text.now) text.now }
    ensures within { length result.1.now ≤ length text.now }
    ensures less { 0 < length text.now → length result.1.now < length text.now }
{
    text.split_at(first_len(separator, text))
}

// Returns a text without its first part.
#[tactic(auto, using(crate::proofs::PartLemmas::parts_after_drop))]
fn after_part(separator: char, text: &[char]) -> &[char]
    ensures rest { parts_after separator result.now ≡ drop 1 (parts_after separator text.now) }
    ensures within { length result.now ≤ length text.now }
{
    split_part(separator, text).1
}

// Returns a text without its first n parts, or an empty text if it has fewer.
fn without_parts(separator: char, text: &[char], n: usize) -> &[char]
    ensures { parts_after separator result.now ≡ drop n (parts_after separator text.now) }
{
    let mut rest = text;
    for _ in 0..n {
        rest = after_part(separator, rest);
    }
    rest
}

fn separator_count(separator: char, text: &[char]) -> usize
    ensures { result ≡ count_by (λ c. c == separator) text.now }
{
    text.iter().filter(|c| **c == separator).count()
}

// Returns the number of parts of a text.
fn part_count(separator: char, text: &[char]) -> usize
    ensures { result ≡ length (parts_after separator text.now) }
{
    match text.split_first() {
        Some((_, rest)) => separator_count(separator, rest) + 1,
        None => 0,
    }
}

/// Returns the number of fields of a parameter, which is passed with the character before it.
pub(crate) fn field_count(parameter: &[char]) -> usize
    ensures { result ≡ length (fields_after parameter.now) }
{
    part_count(':', parameter)
}

/// Returns the field at an index of a parameter, or `NO_VALUE` if there is none.
pub(crate) fn field(parameter: &[char], k: usize) -> u32
    ensures value { result ≡ value (fields_after parameter.now) k }
    ensures small { result ≤ 256 }
{
    let rest = without_parts(':', parameter, k);
    first_field(rest)
}

// Returns the first field of a parameter, or `NO_VALUE` if there is none.
fn first_field(text: &[char]) -> u32
    ensures value { result ≡ value (fields_after text.now) 0 }
    ensures small { result ≤ 256 }
{
    match text.split_first() {
        Some((_, rest)) => number(rest.split_at(part_end(':', rest)).0),
        None => NO_VALUE,
    }
}

/// Splits a text after its first parameter.
pub(crate) fn split_parameter(text: &[char]) -> (&[char], &[char])
    ensures first { result.0.now ≡ take (first_len 0x3B text.now) text.now }
    ensures rest { result.1.now ≡ drop (first_len 0x3B text.now) text.now }
    ensures within { length result.1.now ≤ length text.now }
    ensures less { 0 < length text.now → length result.1.now < length text.now }
{
    split_part(';', text)
}

/// Returns the number of parameters of a text.
pub(crate) fn parameter_count(text: &[char]) -> usize
    ensures { result ≡ length (parameters_after text.now) }
{
    part_count(';', text)
}

/// Returns the value of a parameter, or `NO_VALUE` unless the parameter has exactly one field.
pub(crate) fn single(parameter: &[char]) -> u32
    ensures value { result ≡ single (fields_after parameter.now) }
    ensures small { result ≤ 256 }
{
    if field_count(parameter) == 1 {
        field(parameter, 0)
    } else {
        NO_VALUE
    }
}

/// Returns the value of the parameter at an index of a text, or `NO_VALUE` if there is no such parameter or
/// it has several fields.
pub(crate) fn single_at(text: &[char], k: usize) -> u32
    ensures value { result ≡ value (map single (parameters_after text.now)) k }
    ensures small { result ≤ 256 }
{
    let rest = without_parts(';', text, k);
    single(split_part(';', rest).0)
}
