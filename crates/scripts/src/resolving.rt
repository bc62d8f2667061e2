//! Finds the script of each character.
ghost use Rattle.std.specs.Prelude.{◌≡◌, ◌<◌, length, IfOk, OnErr};
ghost use Rattle.circular_buffer.specs.Buffer.{buffer};
ghost use Rattle.ucd.specs.Tables.{bracket_of};
ghost use Rattle.ucd_script.specs.Script.{script_eq};
ghost use Rattle.scripts.specs.Scripts.{closed_by, first_script, matching, open_after};
ghost use Rattle.scripts.specs.Scripts.{script_in, scripts_of, taken_script, takes_script};
ghost use Rattle.scripts.specs.declared.resolving.TheConstants.{MOST_OPEN};

use circular_buffer::HeapCircularBuffer;
use std::alloc::{AllocError, Global};
use ucd::{Bracket, Tables};
use ucd_script::Script;

/// The maximum number of opening brackets that are kept, which bounds the time for each closing bracket. UAX
/// #9 has the same limit for bracket pairs (BD16).
const MOST_OPEN: usize = 63;

/// An opening bracket that is not closed yet: the closing bracket of its pair, and its script.
#[derive(Clone, Copy, Drop)]
pub struct Opening {
    pub closing: char,
    pub script: Script,
}

// Returns whether two scripts are the same.
pub(crate) fn is_same(one: Script, other: Script) -> bool
    ensures { result ≡ script_eq one other }
{
    one.number() == other.number()
}

// Returns whether a character with this Script value (Common or Inherited) takes the script of another
// character.
fn takes_script(script: Script) -> bool
    ensures { result ≡ takes_script script }
{
    is_same(script, Script::Common) || is_same(script, Script::Inherited)
}

// Returns the first script that is neither Common nor Inherited, or Common if there is none.
fn first_script(text: &[char]) -> Script
    ensures { result ≡ first_script text.now }
{
    for k in 0..text.len() {
        let script = Script::for_char(text[k]);
        if !takes_script(script) {
            return script;
        }
    }
    Script::Common
}

// Returns the index of the innermost opening bracket that a closing bracket matches, or `None` if there is
// none.
fn matching(openings: &HeapCircularBuffer<Opening>, closing: char) -> Option<usize>
    ensures { result ≡ matching closing openings.now.items }
{
    openings
        .iter()
        .position(|opening| opening.closing == closing)
}

// Returns the index of the opening bracket that a character closes, or `None` if it closes none.
fn closed_by(
    bracket: Option<Bracket>,
    openings: &HeapCircularBuffer<Opening>,
    c: char,
) -> Option<usize>
    ensures { result ≡ closed_by bracket c openings.now.items }
{
    match bracket {
        Some(bracket) => {
            if bracket.opens {
                None
            } else {
                matching(openings, c)
            }
        }
        None => None,
    }
}

// Returns the script that a character takes: from the opening bracket that it closes, or else from the
// character before it.
fn taken_script(
    bracket: Option<Bracket>,
    openings: &HeapCircularBuffer<Opening>,
    c: char,
    before: Script,
) -> Script
    ensures { result ≡ taken_script bracket c before openings.now.items }
{
    match closed_by(bracket, openings, c) {
        Some(k) => openings.get(k).map_or(before, |opening| opening.script),
        None => before,
    }
}

// Returns the script of a character, given the script of the character before it.
fn script_in(
    bracket: Option<Bracket>,
    openings: &HeapCircularBuffer<Opening>,
    c: char,
    before: Script,
) -> Script
    ensures { result ≡ script_in bracket c before openings.now.items }
{
    let own = Script::for_char(c);
    if takes_script(own) {
        taken_script(bracket, openings, c, before)
    } else {
        own
    }
}

// Updates the list of open brackets after a character with the given script.
fn pass(
    bracket: Option<Bracket>,
    openings: &mut HeapCircularBuffer<Opening>,
    c: char,
    script: Script,
)
    requires { openings.old.capacity ≡ MOST_OPEN }
    ensures { openings.new ≡ buffer (open_after bracket c script openings.old.items) MOST_OPEN }
{
    match bracket {
        Some(bracket) => {
            if bracket.opens {
                openings.push_front(Opening {
                    closing: bracket.pair,
                    script,
                });
            } else if let Some(k) = matching(openings, c) {
                openings.truncate_front(openings.len() - k - 1);
            }
        }
        None => {}
    }
}

/// Returns the script of each character of a text.
#[tactic(auto, unfolding(crate::specs::Scripts::scripts_of))]
pub fn resolve(alloc: Global, tables: &Tables, text: &[char]) -> Result<Vec<Script>, AllocError>
    ensures scripts { IfOk result (λ scripts. scripts.items
        ≡ scripts_of (bracket_of tables.now) text.now) }
    ensures len { IfOk result (λ scripts. length scripts.items ≡ length text.now) }
    ensures memory { OnErr result (0 < length text.now) }
{
    let mut scripts = Vec::new(alloc);
    if text.is_empty() {
        return Ok(scripts);
    }
    let mut openings = HeapCircularBuffer::with_capacity(alloc, MOST_OPEN)?;
    let mut script = first_script(text);
    for k in 0..text.len() {
        let c = text[k];
        let bracket = tables.bracket(c);
        script = script_in(bracket, &openings, c, script);
        pass(bracket, &mut openings, c, script);
        scripts.push(script)?;
    }
    Ok(scripts)
}
