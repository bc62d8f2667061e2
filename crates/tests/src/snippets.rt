//! The examples in the crate comments of `ucd`, `bidi`, `reorder`, `breaks` and `store`. `tests/docs/run`
//! checks that this file contains them.
use crate::files::{FILES, read};
use crate::levels::properties_of;
use bidi::{Base, resolve};
use breaks::{Mark, marks};
use reorder::{reset_levels, visual_chars, visual_order};
use std::alloc::{AllocError, Global};
use std::process::Abort;
use std::test::Fail;
use store::{Measured, ParagraphStore, TreeStore};
use ucd::{BidiClass, LineClass, TableFault, Tables, TextClasses, UcdFiles};

fn look_up(rt: &impl Abort, alloc: Global, files: &UcdFiles<'_>) -> Result<(), TableFault> {
    let tables = Tables::read(alloc, files)?;
    assert!(rt; tables.bidi_class('א') == BidiClass::R);
    assert!(rt; tables.mirror('(') == Some(')'));
    let space = tables.properties(' '); // all properties, by one lookup
    assert!(rt; space.line_class() == LineClass::SP && !space.is_wide());
    Ok(())
}

#[test]
fn characters_have_their_classes_and_mirrors(rt: HostRuntime) -> Result<(), Fail> {
    Ok(look_up(&rt, rt.alloc(), &FILES)?)
}

fn find_levels(rt: &impl Abort, alloc: Global, tables: &Tables) -> Result<(), AllocError> {
    let text: Vec<char> = "(שלום) ok".chars().collect(alloc)?;
    let levels = resolve(alloc, tables, &text, Base::WeakLtr)?;
    assert!(rt; levels.as_slice() == [1, 1, 1, 1, 1, 1, 1, 2, 2].as_slice());
    Ok(())
}

#[test]
fn latin_after_hebrew_in_brackets_has_level_two(rt: HostRuntime) -> Result<(), Fail> {
    let tables = read(rt.alloc(), &FILES)?;
    let result = find_levels(&rt, rt.alloc(), &tables);
    drop(tables);
    Ok(result?)
}

fn order_line(rt: &impl Abort, alloc: Global, tables: &Tables) -> Result<(), AllocError> {
    let text = &['(', 'ב', ')', ' '];
    let properties = properties_of(alloc, tables, text)?;
    let mut levels = [1; 4];
    let (mut vtol, mut ltov, mut chars) = ([0; 4], [0; 4], [' '; 4]);
    let line = TextClasses { tables, text };
    reset_levels(&line, 0, &mut levels);
    visual_order(&line, &levels, false, &mut vtol, &mut ltov);
    visual_chars(tables, text, &properties, &levels, &vtol, &mut chars);
    assert!(rt; levels == [1, 1, 1, 0] && vtol == [2, 1, 0, 3]);
    assert!(rt; chars == ['(', 'ב', ')', ' ']);
    Ok(())
}

#[test]
fn line_is_reversed_and_mirrored_up_to_its_last_space(rt: HostRuntime) -> Result<(), Fail> {
    let tables = read(rt.alloc(), &FILES)?;
    let result = order_line(&rt, rt.alloc(), &tables);
    drop(tables);
    Ok(result?)
}

fn find_marks(rt: &impl Abort, alloc: Global, tables: &Tables) -> Result<(), AllocError> {
    let text: Vec<char> = "to go".chars().collect(alloc)?;
    let marks = marks(alloc, tables, &text, false)?;
    let wanted = [Mark::Never, Mark::Never, Mark::May, Mark::Never, Mark::Must];
    assert!(rt; marks.as_slice() == wanted.as_slice());
    Ok(())
}

#[test]
fn break_is_allowed_after_a_space_and_required_at_the_end(rt: HostRuntime) -> Result<(), Fail> {
    let tables = read(rt.alloc(), &FILES)?;
    let result = find_marks(&rt, rt.alloc(), &tables);
    drop(tables);
    Ok(result?)
}

// An item with a number of characters, all of them ASCII, and a number of lines.
#[derive(Drop)]
struct Paragraph(usize, usize);

impl Measured for Paragraph {
    ghost chars = { λ item. item.0 };

    ghost lines = { λ item. item.1 };

    ghost bytes = { λ item. item.0 };

    ghost utf16 = { λ item. item.0 };

    fn chars(&self) -> usize {
        self.0
    }

    fn lines(&self) -> usize {
        self.1
    }

    fn bytes(&self) -> usize {
        self.0
    }

    fn utf16(&self) -> usize {
        self.0
    }
}

fn search(rt: &impl Abort, alloc: Global) -> Result<(), AllocError> {
    let paragraphs = vec![in alloc; Paragraph(5, 1), Paragraph(90, 2)]?;
    let mut store = TreeStore::new(alloc);
    match store.replace(0..0, paragraphs) {
        Ok(_) => find(rt, &store),
        Err((_, fault)) => return Err(fault),
    }
    Ok(())
}

fn find(rt: &impl Abort, store: &TreeStore<Paragraph>) {
    assert!(rt; store.total_chars() == 95 && store.total_lines() == 3);
    let found = store.find_line(2);
    assert!(rt; found.index == 1 && found.rest == 1 && found.chars_before == 5);
}

#[test]
fn find_line_2_is_line_1_of_the_second_paragraph(rt: HostRuntime) -> Result<(), Fail> {
    Ok(search(&rt, rt.alloc())?)
}
