//! Opens a session on the text that a script starts with.
ghost use Rattle.std.specs.Prelude.{◌≡◌, ◌<◌, IfOk, IfErr};
ghost use Rattle.lines.specs.Engine.{rules_of};
ghost use Rattle.tool.specs.Starts.{IsStartFault, Starts, start_fault};

use lines::Engine;
use session::{EditFault, Kept, Session};
use std::alloc::Global;
use store::ParagraphStore;
use stream::front;
use text_run::RunFault;

/// Opens a session on a text, given as bytes. The width is in columns, and must not be 0.
///
/// Fails with the first of `NotUtf8`, `TextTooLong` and `ParagraphTooLong` that applies. Fails with `Memory`
/// only if none of them applies.
pub fn open_text<S: ParagraphStore<Kept> + Drop>(
    alloc: Global,
    engine: Engine,
    bytes: &[u8],
    width: u16,
) -> Result<Session<S>, RunFault>
    requires { 0 < width }
    ensures ok { IfOk result (Starts engine bytes.now width) }
    ensures err { IfErr result (IsStartFault (rules_of engine) bytes.now) }
{
    let (text, _) = front(bytes);
    if text.len() < bytes.len() {
        return Err(RunFault::NotUtf8(text.len() as u64));
    }
    match Session::open(alloc, engine, text, width) {
        Ok(session) => Ok(session),
        Err((_, fault)) => Err(start_fault(fault)),
    }
}

// Converts an error from `Session::open` to a `RunFault`. A session refuses a text only because the text or
// one of its paragraphs is too long. Any other error means that memory ran out.
fn start_fault(fault: EditFault) -> RunFault
    ensures { result ≡ start_fault fault }
{
    match fault {
        EditFault::TextTooLong => RunFault::TextTooLong,
        EditFault::ParagraphTooLong => RunFault::ParagraphTooLong,
        _ => RunFault::Memory,
    }
}
