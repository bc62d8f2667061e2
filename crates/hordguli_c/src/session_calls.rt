//! Functions that open, edit and close a session, and store its size and its work counters.
ghost use Rattle.std.specs.Prelude.{◌≡◌, chars, length, None, Some, MatchResult};
ghost use Rattle.lines.specs.Engine.{analysed_of, filled_of, written_of};
ghost use Rattle.session.specs.Edits.{deletion, insertion, replacing};
ghost use Rattle.session.specs.Kept.{lines_in};
ghost use Rattle.session.specs.Sessions.{text_at};
ghost use Rattle.ucd.specs.LineSeparators.{contents_if};
ghost use Rattle.ucd.specs.declared.tables.Tables.{Tables};
ghost use Rattle.lines.specs.declared.options.Options.{Options};
ghost use Rattle.hordguli_c.specs.Calls.{Asks, Changes, Gives, OfText};
ghost use Rattle.hordguli_c.specs.Options.{options_of, tables_by};
ghost use Rattle.hordguli_c.specs.Sessions.{IsFresh, IsOpened, IsRefused, OpensOn, OpensSession};
ghost use Rattle.hordguli_c.specs.Sessions.{changed_out, damage_out, TriesAdvances, TriesEdit};
ghost use Rattle.hordguli_c.specs.Sessions.{TriesMeasuredWidth, TriesWidth};
ghost use Rattle.hordguli_c.specs.declared.session_calls.OpenWidth.TheVariants.{Columns, Units};
ghost use Rattle.hordguli_c.specs.Statuses.{Returns};
ghost use Rattle.hordguli_c.specs.declared.status.Status.TheVariants.{Ok};

use crate::calls::with_object;
use crate::options::{options_of, separates_lines};
use crate::session_handle::{SessionHandle, SessionObject};
use crate::status::{Status, advance_status, edit_status, number_of};
use crate::tables_handle::TablesHandle;
use crate::tables_object::TablesObject;
use crate::utf8::text_of;
use lines::{Engine, Options};
use session::{Damage, Session};
use std::alloc::Global;

/// The width at which a session is opened: in columns, or in the caller's unit if the session is measured.
#[derive(Clone, Copy)]
pub enum OpenWidth {
    Columns(u16),
    Units(u32),
}

// Opens a session with a new engine. If this fails, returns the status for the fault.
fn open_by(
    alloc: Global,
    engine: Engine,
    text: &str,
    width: OpenWidth,
) -> Result<SessionObject, Status>
    ensures { (tables : Tables) (options : Options) → IsFresh tables options engine
        → MatchResult result (IsOpened tables options (chars text.now) width)
        (IsRefused tables options (chars text.now) width) }
{
    match width {
        OpenWidth::Columns(width) => match Session::open(alloc, engine, text, width) {
            Ok(session) => Ok(session),
            Err((_, fault)) => Err(edit_status(fault)),
        },
        OpenWidth::Units(width) => match Session::open_measured(alloc, engine, text, width) {
            Ok(session) => Ok(session),
            Err((_, fault)) => Err(edit_status(fault)),
        },
    }
}

// Opens a session, and stores it in a closed handle. Uses the buffers of the tables object while the session
// is opened.
fn open_at(
    alloc: Global,
    session: &mut SessionHandle,
    tables: &mut TablesObject,
    separates: bool,
    options: Options,
    text: &str,
    width: OpenWidth,
) -> Status
    requires { session.old.held ≡ None }
    ensures tables { tables.new ≡ tables.old }
    ensures opens { OpensOn options (chars text.now) width result (Some (contents_if separates tables.old))
        session.old.held session.new.held }
{
    let Ok(engine) = tables.lend_engine(alloc, separates, options) else {
        return Status::NoMemory;
    };
    let mut opened = match open_by(alloc, engine, text, width) {
        Ok(opened) => opened,
        Err(status) => return status,
    };
    tables.take_buffers(alloc, &mut opened, text.len());
    match Box::new(alloc, opened) {
        Ok(object) => {
            session.swap(alloc, Some(object));
            Status::Ok
        }
        Err(_) => Status::NoMemory,
    }
}

/// Opens a session on a text. The session shares the tables.
#[unsafe(no_mangle)]
pub extern "C" fn hordguli_core_session_open(
    alloc: Global,
    session: &mut SessionHandle,
    tables: &mut TablesHandle,
    options: u32,
    width: u16,
    text: &[u8],
) -> u32
    ensures unchanged { tables.new.held ≡ tables.old.held }
    ensures opens { Returns (λ status. OpensSession (options_of options) text.now (Columns width) status
        (tables_by options tables.old.held) session.old.held session.new.held) result }
{
    open_session(
        alloc,
        session,
        tables,
        options,
        OpenWidth::Columns(width),
        text,
    )
}

/// Opens a measured session on a text. Each character has advance 0. The session shares the tables.
#[unsafe(no_mangle)]
pub extern "C" fn hordguli_core_session_open_measured(
    alloc: Global,
    session: &mut SessionHandle,
    tables: &mut TablesHandle,
    options: u32,
    width: u32,
    text: &[u8],
) -> u32
    ensures unchanged { tables.new.held ≡ tables.old.held }
    ensures opens { Returns (λ status. OpensSession (options_of options) text.now (Units width) status
        (tables_by options tables.old.held) session.old.held session.new.held) result }
{
    open_session(
        alloc,
        session,
        tables,
        options,
        OpenWidth::Units(width),
        text,
    )
}

// Opens a session on a text, at a width in columns or in the caller's unit.
fn open_session(
    alloc: Global,
    session: &mut SessionHandle,
    tables: &mut TablesHandle,
    options: u32,
    width: OpenWidth,
    text: &[u8],
) -> u32
    ensures unchanged { tables.new.held ≡ tables.old.held }
    ensures opens { Returns (λ status. OpensSession (options_of options) text.now width status
        (tables_by options tables.old.held) session.old.held session.new.held) result }
{
    let separates = separates_lines(options);
    let Some(options) = options_of(options) else {
        return number_of(Status::UnknownOption);
    };
    let Some(text) = text_of(text) else {
        return number_of(Status::NotUtf8);
    };
    if let Some(object) = session.swap(alloc, None) {
        session.swap(alloc, Some(object));
        return number_of(Status::AlreadyOpen);
    }
    with_object!(
        tables,
        alloc,
        mut object,
        open_at(
            alloc,
            session,
            &mut object,
            separates,
            options,
            text,
            width
        )
    )
}

/// Frees the session of a handle, and closes the handle.
#[unsafe(no_mangle)]
pub extern "C" fn hordguli_core_session_close(alloc: Global, session: &mut SessionHandle)
    ensures { session.new.held ≡ None }
{
    session.swap(alloc, None);
}

/// What an edit replaced (`hordguli_damage` in C).
#[repr(C)]
#[derive(Clone, Copy)]
pub struct DamageOut {
    pub first_line: usize,
    pub old_lines: usize,
    pub new_lines: usize,
    pub first_paragraph: usize,
    pub old_paragraphs: usize,
    pub new_paragraphs: usize,
}

// Stores the damage of an edit, and returns `Ok`.
fn tell(damage: Damage, out: &mut DamageOut) -> Status
    ensures status { result ≡ Ok }
    ensures damage { out.new ≡ damage_out damage }
{
    *out = DamageOut {
        first_line: damage.first_line,
        old_lines: damage.old_lines,
        new_lines: damage.new_lines,
        first_paragraph: damage.first_par,
        old_paragraphs: damage.old_pars,
        new_paragraphs: damage.new_pars,
    };
    Status::Ok
}

fn insert(session: &mut SessionObject, pos: usize, text: &str, damage: &mut DamageOut) -> Status
    ensures { TriesEdit (insertion pos (chars text.now)) result session.old session.new
        damage.old damage.new }
{
    match session.insert(pos, text) {
        Ok(made) => tell(made, damage),
        Err(fault) => edit_status(fault),
    }
}

/// Inserts text before the character at a position, or at the end of the text.
#[unsafe(no_mangle)]
pub extern "C" fn hordguli_core_insert(
    alloc: Global,
    session: &mut SessionHandle,
    pos: usize,
    text: &[u8],
    damage: &mut DamageOut,
) -> u32
    ensures { Returns (λ status. OfText text.now status
        ((session.new.held ≡ session.old.held) × (damage.new ≡ damage.old))
        (λ piece. Changes (TriesEdit (insertion pos piece)) status
        session.old.held session.new.held damage.old damage.new)) result }
{
    let Some(text) = text_of(text) else {
        return number_of(Status::NotUtf8);
    };
    with_object!(session, alloc, mut object, insert(&mut object, pos, text, damage))
}

fn delete(session: &mut SessionObject, pos: usize, count: usize, damage: &mut DamageOut) -> Status
    ensures { TriesEdit (deletion pos count) result session.old session.new damage.old damage.new }
{
    match session.delete(pos, count) {
        Ok(made) => tell(made, damage),
        Err(fault) => edit_status(fault),
    }
}

/// Deletes characters, starting at a position.
#[unsafe(no_mangle)]
pub extern "C" fn hordguli_core_delete(
    alloc: Global,
    session: &mut SessionHandle,
    pos: usize,
    count: usize,
    damage: &mut DamageOut,
) -> u32
    ensures { Returns (λ status. Changes (TriesEdit (deletion pos count)) status
        session.old.held session.new.held damage.old damage.new) result }
{
    with_object!(session, alloc, mut object, delete(&mut object, pos, count, damage))
}

fn replace(
    session: &mut SessionObject,
    pos: usize,
    count: usize,
    text: &str,
    damage: &mut DamageOut,
) -> Status
    ensures { TriesEdit (replacing pos count (chars text.now)) result session.old session.new
        damage.old damage.new }
{
    match session.replace(pos, count, text) {
        Ok(made) => tell(made, damage),
        Err(fault) => edit_status(fault),
    }
}

/// Replaces characters, starting at a position, with text.
#[unsafe(no_mangle)]
pub extern "C" fn hordguli_core_replace(
    alloc: Global,
    session: &mut SessionHandle,
    pos: usize,
    count: usize,
    text: &[u8],
    damage: &mut DamageOut,
) -> u32
    ensures { Returns (λ status. OfText text.now status
        ((session.new.held ≡ session.old.held) × (damage.new ≡ damage.old))
        (λ piece. Changes (TriesEdit (replacing pos count piece)) status
        session.old.held session.new.held damage.old damage.new)) result }
{
    let Some(text) = text_of(text) else {
        return number_of(Status::NotUtf8);
    };
    with_object!(session, alloc, mut object, replace(&mut object, pos, count, text, damage))
}

fn set_width(session: &mut SessionObject, width: u16, damage: &mut DamageOut) -> Status
    ensures { TriesWidth width result session.old session.new damage.old damage.new }
{
    match session.set_width(width) {
        Ok(made) => tell(made, damage),
        Err(fault) => edit_status(fault),
    }
}

/// Sets the width, in columns, and rewraps the paragraphs.
#[unsafe(no_mangle)]
pub extern "C" fn hordguli_core_set_width(
    alloc: Global,
    session: &mut SessionHandle,
    width: u16,
    damage: &mut DamageOut,
) -> u32
    ensures { Returns (λ status.
        Changes (TriesWidth width) status session.old.held session.new.held damage.old damage.new) result }
{
    with_object!(session, alloc, mut object, set_width(&mut object, width, damage))
}

fn set_measured_width(session: &mut SessionObject, width: u32, damage: &mut DamageOut) -> Status
    ensures { TriesMeasuredWidth width result session.old session.new damage.old damage.new }
{
    match session.set_measured_width(width) {
        Ok(made) => tell(made, damage),
        Err(fault) => advance_status(fault),
    }
}

/// Sets the width of a measured session, and rewraps the paragraphs.
#[unsafe(no_mangle)]
pub extern "C" fn hordguli_core_set_measured_width(
    alloc: Global,
    session: &mut SessionHandle,
    width: u32,
    damage: &mut DamageOut,
) -> u32
    ensures { Returns (λ status. Changes (TriesMeasuredWidth width) status
        session.old.held session.new.held damage.old damage.new) result }
{
    with_object!(session, alloc, mut object, set_measured_width(&mut object, width, damage))
}

fn set_advances(
    session: &mut SessionObject,
    pos: usize,
    advances: &[u32],
    damage: &mut DamageOut,
) -> Status
    ensures { TriesAdvances pos advances.now result session.old session.new damage.old damage.new }
{
    match session.set_advances(pos, advances) {
        Ok(made) => tell(made, damage),
        Err(fault) => advance_status(fault),
    }
}

/// Sets the advances of characters of a measured session, and rewraps their paragraphs.
#[unsafe(no_mangle)]
pub extern "C" fn hordguli_core_set_advances(
    alloc: Global,
    session: &mut SessionHandle,
    pos: usize,
    advances: &[u32],
    damage: &mut DamageOut,
) -> u32
    ensures { Returns (λ status. Changes (TriesAdvances pos advances.now) status
        session.old.held session.new.held damage.old damage.new) result }
{
    with_object!(session, alloc, mut object, set_advances(&mut object, pos, advances, damage))
}

/// The numbers of characters, lines and paragraphs of a session, and its width (`hordguli_counts` in C).
#[repr(C)]
#[derive(Clone, Copy)]
pub struct CountsOut {
    pub characters: usize,
    pub lines: usize,
    pub paragraphs: usize,
    pub width: usize,
}

fn counts_of(session: &SessionObject) -> CountsOut
    ensures { result ≡ record {
      characters = length (text_at session.now);
      lines = length (lines_in session.now.kept);
      paragraphs = length session.now.kept;
      width = session.now.width;
    } }
{
    CountsOut {
        characters: session.char_count(),
        lines: session.line_count(),
        paragraphs: session.paragraph_count(),
        width: session.measured_width() as usize,
    }
}

/// Stores the numbers of characters, lines and paragraphs of a session, and its width.
#[unsafe(no_mangle)]
pub extern "C" fn hordguli_core_session_counts(
    alloc: Global,
    session: &mut SessionHandle,
    counts: &mut CountsOut,
) -> u32
    ensures unchanged { session.new.held ≡ session.old.held }
    ensures counts { Returns (λ status. Asks (λ status state. Gives (Some (record {
      characters = length (text_at state);
      lines = length (lines_in state.kept);
      paragraphs = length state.kept;
      width = state.width;
    })) status) status session.old.held counts.old counts.new) result }
{
    match session.swap(alloc, None) {
        Some(object) => {
            *counts = counts_of(&object);
            session.swap(alloc, Some(object));
            number_of(Status::Ok)
        }
        None => number_of(Status::Closed),
    }
}

/// The work counters of a session (`hordguli_work` in C).
#[repr(C)]
#[derive(Clone, Copy)]
pub struct WorkOut {
    pub analysed: u64,
    pub filled: u64,
    pub written: u64,
}

fn work_of(session: &SessionObject) -> WorkOut
    ensures { result ≡ record {
      analysed = analysed_of session.now.engine;
      filled = filled_of session.now.engine;
      written = written_of session.now.engine;
    } }
{
    WorkOut {
        analysed: session.analysed(),
        filled: session.filled(),
        written: session.written(),
    }
}

/// Stores the work counters of a session.
#[unsafe(no_mangle)]
pub extern "C" fn hordguli_core_session_work(
    alloc: Global,
    session: &mut SessionHandle,
    work: &mut WorkOut,
) -> u32
    ensures unchanged { session.new.held ≡ session.old.held }
    ensures work { Returns (λ status. Asks (λ status state. Gives (Some (record {
      analysed = analysed_of state.engine;
      filled = filled_of state.engine;
      written = written_of state.engine;
    })) status) status session.old.held work.old work.new) result }
{
    match session.swap(alloc, None) {
        Some(object) => {
            *work = work_of(&object);
            session.swap(alloc, Some(object));
            number_of(Status::Ok)
        }
        None => number_of(Status::Closed),
    }
}

/// Which lines a call changed (`hordguli_changed` in C).
#[repr(C)]
#[derive(Clone, Copy)]
pub struct ChangedOut {
    pub first_line: usize,
    pub old_lines: usize,
    pub new_lines: usize,
}

fn changed_of(session: &SessionObject) -> ChangedOut
    ensures { result ≡ changed_out session.now.changed }
{
    let changed = session.changed_lines();
    ChangedOut {
        first_line: changed.first_line,
        old_lines: changed.old_lines,
        new_lines: changed.new_lines,
    }
}

/// Stores which lines the last successful call changed.
#[unsafe(no_mangle)]
pub extern "C" fn hordguli_core_changed_lines(
    alloc: Global,
    session: &mut SessionHandle,
    changed: &mut ChangedOut,
) -> u32
    ensures unchanged { session.new.held ≡ session.old.held }
    ensures changed { Returns (λ status. Asks (λ status state.
        Gives (Some (changed_out state.changed)) status)
        status session.old.held changed.old changed.new) result }
{
    match session.swap(alloc, None) {
        Some(object) => {
            *changed = changed_of(&object);
            session.swap(alloc, Some(object));
            number_of(Status::Ok)
        }
        None => number_of(Status::Closed),
    }
}
