//! Writes all of a slice to a sink, in several calls if needed.
ghost use Rattle.std.specs.Prelude.{◌≡◌, IfErr, OnOk};
ghost use Rattle.device.specs.Device.{Wrote, StaysCounted, StoppedAt};

use crate::Sink;

/// Writes all the bytes. If the sink fails, returns how many bytes were written before the failure.
pub fn write_all<W: Sink>(writer: &mut W, bytes: &[u8]) -> Result<(), usize>
    ensures ok { OnOk result (Wrote bytes.now (W.state writer.old) (W.state writer.new)) }
    ensures err { IfErr result (λ n.
        StoppedAt n bytes.now (W.state writer.old) (W.state writer.new)) }
    ensures counted { StaysCounted (W.state writer.old) (W.state writer.new) }
{
    let mut written = 0;
    while written < bytes.len() {
        match writer.write(&bytes[written..]) {
            Ok(0) => return Err(written),
            Ok(n) => written += n,
            Err(_) => return Err(written),
        }
    }
    Ok(())
}
