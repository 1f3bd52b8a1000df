//! Whole pieces, over calls that may take less.
ghost use Rattle.std.specs.Prelude.{◌≡◌, OnErr, OnOk};
ghost use Rattle.asp_io.specs.Copying.{AddsPart};
ghost use Rattle.asp_io.specs.Faults.{HasCause, failure};
ghost use Rattle.asp_io.specs.Sink.{with_bytes};

use crate::fault::Failed;
use crate::sink::Sink;

/// Writes the whole of `piece`, by as many calls as the sink needs.
pub fn write_all<K: Sink>(sink: &mut K, piece: &[u8]) -> Result<(), Failed>
    ensures ok { OnOk result (K.held sink.new ≡ with_bytes (K.held sink.old) piece.now) }
    ensures err { OnErr result (AddsPart (K.held sink.old) (K.held sink.new) piece.now) }
    ensures cause { HasCause failure (K.faults sink.old) (K.faults sink.new) result }
{
    let mut taken = 0;
    while taken < piece.len() {
        taken += sink.write(&piece[taken..])? as usize;
    }
    Ok(())
}
