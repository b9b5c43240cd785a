//! A piece that is written whole.
ghost use Rattle.std.specs.Prelude.{◌≡◌, OnOk, OnErr};
ghost use Rattle.io_edge.specs.Faults.{Rose};
ghost use Rattle.io_edge.specs.Bytes.{Gains, GainsPrefix};
ghost use Rattle.io_edge.specs.Writing.{Wrote};

use super::sink::{Sink, SinkFault};

/// Writes all of `bytes`. Where a write fails, a front of them was written.
pub fn write_whole<K: Sink>(sink: &mut K, bytes: &[u8]) -> Result<(), SinkFault>
    ensures written { Wrote K.Sink result sink.old sink.new bytes.now }
    ensures whole { OnOk result (Gains (K.held sink.old) (K.held sink.new) bytes.now) }
    ensures quiet { OnOk result (K.faults sink.new ≡ K.faults sink.old) }
    ensures rose { OnErr result (Rose (K.faults sink.old) (K.faults sink.new)) }
    ensures prefix { OnErr result (GainsPrefix (K.held sink.old) (K.held sink.new) bytes.now) }
{
    let mut done = 0;
    while done < bytes.len() {
        done += sink.write(&bytes[done..])?;
    }
    Ok(())
}
