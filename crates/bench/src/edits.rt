//! Makes edits at pseudorandom positions in a session with many paragraphs.
use crate::numbers::Numbers;
use crate::paragraphs::let_go;
use anyhow::Result;
use lines::{Engine, Options};
use session::{EditFault, Kept, Session};
use std::alloc::{AllocError, Global};
use store::{ParagraphStore, TreeStore, VecStore};
use ucd::{Tables, UcdFiles};

const FILES: UcdFiles<'_> = UcdFiles {
    bidi_class: b"000A;B\n0061..007A;L\n05D0..05EA;R",
    bidi_brackets: b"",
    bidi_mirroring: b"",
    line_break: b"0020;SP",
    general_category: b"",
    east_asian_width: b"",
    emoji_data: b"",
};

// A paragraph of 80 characters, with two Hebrew words.
const PARAGRAPH: &str =
    "the quick brown fox jumps over שלום עולם and (then) runs away before a dog wake\n";

/// The kind of store that keeps a session's paragraphs.
#[derive(Clone, Copy)]
pub enum StoreKind {
    List,
    Tree,
}

/// Makes edits in a session that keeps its paragraphs in a list or a tree, and prints the session's counts.
pub fn run(rt: &HostRuntime, kind: StoreKind, paragraphs: usize, edits: usize) -> Result<()> {
    match kind {
        StoreKind::List => show::<VecStore<Kept>>(rt, paragraphs, edits),
        StoreKind::Tree => show::<TreeStore<Kept>>(rt, paragraphs, edits),
    }
}

fn show<S: ParagraphStore<Kept> + Drop>(
    rt: &HostRuntime,
    paragraphs: usize,
    edits: usize,
) -> Result<()> {
    let mut session: Session<S> = open_on(rt.alloc(), paragraphs)?;
    make_edits(&mut session, edits);
    let answer = show_counts(rt, &session);
    close(session);
    answer
}

fn open_on<S: ParagraphStore<Kept> + Drop>(alloc: Global, paragraphs: usize) -> Result<Session<S>> {
    let text = text_of(alloc, paragraphs)?;
    open_on_text(alloc, text.as_str())
}

fn open_on_text<S: ParagraphStore<Kept> + Drop>(alloc: Global, text: &str) -> Result<Session<S>> {
    let tables = Tables::read(alloc, &FILES)?;
    Ok(open(alloc, Engine::new(tables, Options::default()), text)?)
}

fn show_counts<S: ParagraphStore<Kept>>(rt: &HostRuntime, session: &Session<S>) -> Result<()> {
    println!(rt;
        "{} paragraphs, {} lines, {} characters, {} analysed",
        session.paragraph_count(),
        session.line_count(),
        session.char_count(),
        session.analysed()
    )?;
    Ok(())
}

/// Returns a text of `paragraphs` paragraphs, each of 80 characters.
pub fn text_of(alloc: Global, paragraphs: usize) -> Result<String, AllocError> {
    let mut text = String::new(alloc);
    for _ in 0..paragraphs {
        text.push_str(PARAGRAPH)?;
    }
    Ok(text)
}

/// Opens a session on a text, at 80 columns.
pub fn open<S: ParagraphStore<Kept> + Drop>(
    alloc: Global,
    engine: Engine,
    text: &str,
) -> Result<Session<S>, EditFault> {
    match Session::open(alloc, engine, text, 80) {
        Ok(session) => Ok(session),
        Err((engine, fault)) => {
            let_go(engine);
            Err(fault)
        }
    }
}

/// Drops a session. No other function drops a session, to keep proofs fast (see `let_go`).
pub fn close<S: ParagraphStore<Kept> + Drop>(_session: Session<S>) {}

/// Makes `edits` edits at pseudorandom positions, each of which inserts or deletes two characters. Paragraphs
/// are split about as often as joined, so their number and their lengths change little.
pub fn make_edits<S: ParagraphStore<Kept>>(session: &mut Session<S>, edits: usize) {
    let mut numbers = Numbers::new();
    for _ in 0..edits {
        make_edit(session, numbers.next());
    }
}

fn make_edit<S: ParagraphStore<Kept>>(session: &mut Session<S>, number: u64) {
    let pos = (number >> 33) as usize % session.char_count().max(1);
    let choice = (number >> 20) % 80;
    let _ = if choice >= 40 {
        session.delete(pos, 2)
    } else {
        session.insert(pos, if choice == 0 { "a\n" } else { "ab" })
    };
}
