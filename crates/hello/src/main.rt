//! A session in a few lines: opens, edits, rewraps, reads and prints a text. `README.md` shows the bodies of
//! `main` and `edit`. CI checks that they are the same there and here.
#![tactic(auto)]

use anyhow::Result;
use device::ToWrite;
use lines::{Engine, Options, Print};
use session::{Kept, Session};
use store::TreeStore;

fn main(rt: HostRuntime) -> Result<()> {
    let engine = Engine::new(tables::in_folder(&rt, ".")?, Options::default());
    match Session::open(rt.alloc(), engine, "hello, שלום\n", 80) {
        Ok(session) => edit(&rt, session),
        Err((_, fault)) => Err(fault.into()),
    }
}

fn edit(rt: &HostRuntime, mut session: Session<TreeStore<Kept>>) -> Result<()> {
    session.insert(7, "(مرحبا) ")?;
    let damage = session.set_width(14)?;
    println!(rt; "{} lines from {} on", damage.new_lines, damage.first_line)?;
    if let Some(line) = session.line(0) {
        let levels = line.levels();
        println!(rt; "levels of the first: {levels:?}")?;
    }
    session.print(&mut ToWrite::new(rt.stdout()), &Print::default())?;
    Ok(())
}
