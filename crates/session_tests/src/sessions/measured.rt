//! Tests of measured sessions, whose characters have advances in place of columns.
use super::without_engine;
use crate::files::{FILES, engine};
use lines::Options;
use session::{AdvanceFault, Damage, EditFault, Kept, Session};
use std::alloc::Global;
use std::process::Abort;
use std::test::Fail;
use store::TreeStore;

// The smallest width above 0 that is refused.
const TOO_WIDE: u32 = 2_147_483_648;

// Opens a measured session on a text, and sets the advances of all characters.
fn measured(
    alloc: Global,
    text: &str,
    width: u32,
    advances: &[u32],
) -> Result<Session<TreeStore<Kept>>, Fail> {
    let engine = engine(alloc, &FILES, Options::default())?;
    let mut session = without_engine(Session::open_measured(alloc, engine, text, width))?;
    session.set_advances(0, advances)?;
    Ok(session)
}

// Returns whether the lines of a session start at these positions.
fn starts_at(session: &Session<TreeStore<Kept>>, starts: &[usize]) -> bool {
    let mut all_right = session.line_count() == starts.len();
    for n in 0..starts.len() {
        all_right &= session.line_start(n) == Some(starts[n]);
    }
    all_right
}

#[test]
fn a_text_without_advances_has_one_line_a_paragraph(rt: HostRuntime) -> Result<(), Fail> {
    let session = measured(rt.alloc(), "one two\nthree", 1, &[])?;
    assert!(rt; session.is_measured() & starts_at(&session, &[0, 8]));
    Ok(())
}

#[test]
fn lines_end_where_advances_reach_the_width(rt: HostRuntime) -> Result<(), Fail> {
    let mut session = measured(rt.alloc(), "a b\nc d", 100_000, &[40_000; 7])?;
    assert!(rt; starts_at(&session, &[0, 2, 4, 6]));
    session.set_measured_width(200_000)?;
    assert!(rt; starts_at(&session, &[0, 4]));
    assert!(rt; (session.width() == 65_535) & (session.measured_width() == 200_000));
    Ok(())
}

#[test]
fn setting_advances_across_a_boundary_damages_both_paragraphs(rt: HostRuntime) -> Result<(), Fail> {
    let mut session = measured(rt.alloc(), "a b\nc d\ne f", 20, &[10; 11])?;
    let before = session.analysed();
    let damage = session.set_advances(3, &[0, 5, 5])?;
    let both = Damage {
        first_line: 0,
        old_lines: 4,
        new_lines: 3,
        first_par: 0,
        old_pars: 2,
        new_pars: 2,
    };
    assert!(rt; (damage == both) & starts_at(&session, &[0, 2, 4, 8, 10]));
    assert!(rt; session.analysed() == before);
    Ok(())
}

#[test]
fn setting_no_advances_changes_nothing(rt: HostRuntime) -> Result<(), Fail> {
    let mut session = measured(rt.alloc(), "a b", 20, &[10; 3])?;
    let damage = session.set_advances(3, &[])?;
    let none = Damage {
        first_line: 0,
        old_lines: 0,
        new_lines: 0,
        first_par: 0,
        old_pars: 0,
        new_pars: 0,
    };
    assert!(rt; (damage == none) & starts_at(&session, &[0, 2]));
    Ok(())
}

#[test]
fn edits_keep_the_advances_of_other_characters(rt: HostRuntime) -> Result<(), Fail> {
    let mut session = measured(rt.alloc(), "a b\nc d", 20, &[10; 7])?;
    session.delete(3, 1)?;
    assert!(rt; starts_at(&session, &[0, 2, 5]));
    session.insert(2, "x ")?;
    assert!(rt; starts_at(&session, &[0, 4, 7]));
    session.insert(4, "\n")?;
    assert!(rt; starts_at(&session, &[0, 5, 8]));
    Ok(())
}

#[test]
fn a_join_whose_advances_are_too_large_is_refused(rt: HostRuntime) -> Result<(), Fail> {
    let half = 2_147_483_648;
    let mut session = measured(rt.alloc(), "a\nb", 20, &[half, 0, half])?;
    assert!(rt; session.delete(1, 1) == Err(EditFault::ParagraphTooLong));
    assert!(rt; session.set_advances(1, &[half]) == Err(AdvanceFault::ParagraphTooLong));
    session.set_advances(2, &[half - 1])?;
    session.delete(1, 1)?;
    assert!(rt; session.char_count() == 2);
    Ok(())
}

#[test]
fn calls_for_measured_text_are_refused_in_order(rt: HostRuntime) -> Result<(), Fail> {
    let alloc = rt.alloc();
    let mut plain = super::session::<TreeStore<Kept>>(alloc, "ab", 20)?;
    assert!(rt; plain.set_advances(3, &[0]) == Err(AdvanceFault::NotMeasured));
    assert!(rt; plain.set_measured_width(0) == Err(AdvanceFault::NotMeasured));
    let mut session = measured(alloc, "ab", 20, &[1; 2])?;
    let most = u32::MAX;
    assert!(rt; session.set_advances(1, &[most, most]) == Err(AdvanceFault::OutOfRange));
    assert!(rt; session.set_advances(usize::MAX, &[0]) == Err(AdvanceFault::OutOfRange));
    assert!(rt; session.set_advances(1, &[most]) == Err(AdvanceFault::ParagraphTooLong));
    assert!(rt; session.set_measured_width(0) == Err(AdvanceFault::WidthOutOfRange));
    assert!(rt; session.set_measured_width(TOO_WIDE) == Err(AdvanceFault::WidthOutOfRange));
    Ok(())
}
