//! Tables, with buffers that are reused to lay out texts without a session and to open sessions.
ghost use Rattle.std.specs.Prelude.{◌≡◌, chars, IfOk};
ghost use Rattle.hordguli_c.specs.Sessions.{IsFresh};
ghost use Rattle.lines.specs.Engine.{rules_of};
ghost use Rattle.ucd.specs.LineSeparators.{contents_if};
ghost use Rattle.hordguli_c.specs.Texts.{PutsPage};

use crate::arrays::put_bytes;
use crate::options::PageForm;
use crate::session_handle::SessionObject;
use crate::status::{Status, edit_status};
use lines::{Engine, Options};
use session::opening_refusal;
use std::alloc::{AllocError, Global};
use std::marker::Model;
use stream::Page;
use text_run::push_page;
use ucd::Tables;

// The maximum number of bytes that a text may have if its buffers are kept after a call. The same limit
// applies to printed lines.
const KEPT_BYTES: usize = 65_536;

/// The object of a handle of tables. Contracts see only the tables: buffers kept for the next call never
/// change a result.
pub struct TablesObject {
    tables: Tables,
    // An engine on the tables.
    engine: Engine,
    // The tables in which only LF and CR end paragraphs, and an engine on them.
    line_tables: Tables,
    line_engine: Engine,
    buffers: Buffers,
}

// The characters and the printed lines of one text.
#[derive(Drop)]
struct Buffers {
    characters: Vec<char>,
    page: Page,
}

impl Drop for TablesObject {
    fn drop(self) {
        let TablesObject {
            tables: _,
            engine: _,
            line_tables: _,
            line_engine: _,
            buffers: _,
        } = self;
    }
}

impl Model for TablesObject {
    ghost use Rattle.std.specs.Prelude.{◌≡◌};
    ghost use Rattle.lines.specs.Engine.{rules_of};
    ghost use Rattle.ucd.specs.LineSeparators.{with_line_separators};
    ghost use Rattle.ucd.specs.declared.tables.Tables.{Tables};

    ghost Value = { Tables };

    ghost view = { λ o. o.tables };

    ghost invariant = { λ o. ((rules_of o.engine).tables ≡ o.tables)
        × (o.line_tables ≡ with_line_separators o.tables)
        × ((rules_of o.line_engine).tables ≡ with_line_separators o.tables) };
}

impl TablesObject {
    /// Returns an object that owns the tables and has empty buffers. Fails only if the tables have 2^63
    /// owners.
    pub fn new(alloc: Global, tables: Tables) -> Result<TablesObject, AllocError>
        ensures { IfOk result (λ object. object ≡ tables) }
    {
        let copy = tables.copy(alloc)?;
        let line_tables = tables.with_line_separators(alloc)?;
        let line_copy = line_tables.copy(alloc)?;
        Ok(TablesObject {
            tables,
            engine: Engine::new(copy, Options::default()),
            line_tables,
            line_engine: Engine::new(line_copy, Options::default()),
            buffers: Buffers {
                characters: Vec::new(alloc),
                page: Page::new(alloc),
            },
        })
    }

    /// Returns the tables.
    pub fn tables(&self) -> &Tables
        ensures { result.now ≡ self.now }
    {
        &self.tables
    }

    /// Returns the tables or, if `separates` is set, the tables in which only LF and CR end paragraphs.
    pub fn tables_if(&self, separates: bool) -> &Tables
        ensures { result.now ≡ contents_if separates self.now }
    {
        if separates {
            &self.line_tables
        } else {
            &self.tables
        }
    }

    /// Stores the length of a text's printed lines in bytes and, if they fit, copies them to an array. If
    /// `separates` is set, only LF and CR end paragraphs. Only the engine used last keeps buffers.
    pub fn put_page(
        &mut self,
        alloc: Global,
        separates: bool,
        form: &PageForm,
        text: &str,
        array: &mut [u8],
        len: &mut usize,
    ) -> Status
        ensures unchanged { self.new ≡ self.old }
        ensures page { PutsPage form.now (chars text.now) result (contents_if separates self.old)
            (array.old, len.old) (array.new, len.new) }
    {
        if separates {
            self.engine.free_buffers();
            let engine = &mut self.line_engine;
            put_page_by(alloc, engine, &mut self.buffers, form, text, array, len)
        } else {
            self.line_engine.free_buffers();
            let engine = &mut self.engine;
            put_page_by(alloc, engine, &mut self.buffers, form, text, array, len)
        }
    }

    /// Returns a new engine on the tables or, if `separates` is set, on the tables in which only LF and CR
    /// end paragraphs. Lends the buffers to it.
    pub fn lend_engine(
        &mut self,
        alloc: Global,
        separates: bool,
        options: Options,
    ) -> Result<Engine, AllocError>
        ensures unchanged { self.new ≡ self.old }
        ensures fresh { IfOk result (IsFresh (contents_if separates self.old) options) }
    {
        let copy = self.tables_if(separates).copy(alloc)?;
        let mut engine = Engine::new(copy, options);
        engine.swap_buffers(&mut self.engine);
        Ok(engine)
    }

    /// Takes back the buffers that were lent to open a session on a text of `len` bytes.
    pub fn take_buffers(&mut self, alloc: Global, session: &mut SessionObject, len: usize)
        ensures unchanged { self.new ≡ self.old }
        ensures session { session.new ≡ session.old }
    {
        session.swap_buffers(&mut self.engine);
        free_large(alloc, &mut self.engine, &mut self.buffers, len);
    }
}

// Lays out a text with an engine and buffers that are reused. Stores the length of the printed lines in bytes
// and, if they fit, copies them to an array.
fn put_page_by(
    alloc: Global,
    engine: &mut Engine,
    buffers: &mut Buffers,
    form: &PageForm,
    text: &str,
    array: &mut [u8],
    len: &mut usize,
) -> Status
    ensures tables { (rules_of engine.new).tables ≡ (rules_of engine.old).tables }
    ensures page { PutsPage form.now (chars text.now) result (rules_of engine.old).tables
        (array.old, len.old) (array.new, len.new) }
{
    engine.set_options(form.options);
    if let Some(fault) = opening_refusal(engine, text, form.width) {
        return edit_status(fault);
    }
    buffers.page.clear();
    let (page, characters) = (&mut buffers.page, &mut buffers.characters);
    let pushed = push_page(
        alloc,
        page,
        engine,
        form.width,
        &form.print,
        characters,
        text,
    );
    let status = match pushed {
        Ok(()) => put_bytes(buffers.page.bytes(), array, len),
        Err(_) => Status::NoMemory,
    };
    free_large(alloc, engine, buffers, text.len());
    status
}

// Frees the buffers for the text, if it has more than `KEPT_BYTES` bytes, and the printed lines, if they do.
// `len` is the length of the text in bytes.
fn free_large(alloc: Global, engine: &mut Engine, buffers: &mut Buffers, len: usize)
    ensures { engine.new ≡ engine.old }
{
    if len > KEPT_BYTES {
        engine.free_buffers();
        buffers.characters = Vec::new(alloc);
    }
    if buffers.page.bytes().len() > KEPT_BYTES {
        buffers.page = Page::new(alloc);
    }
}
