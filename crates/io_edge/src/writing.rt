//! A whole text.

ghost use Rattle.std.specs.Prelude.{◌≡◌, OnOk, OnErr};
ghost use Rattle.io_edge.specs.Faults.{Rose};
ghost use Rattle.io_edge.specs.Sink.{Appends, AppendsPart};

use crate::files::Failed;
use crate::sink::Sink;

/// Writes all of the bytes. After a failure a part of them was written, and not all.
pub fn write_all<K: Sink>(sink: &mut K, bytes: &[u8]) -> Result<(), Failed>
    ensures written { OnOk result (Appends (K.stream sink.old).written (K.stream sink.new).written bytes.now) }
    ensures same_count { OnOk result ((K.stream sink.new).faults ≡ (K.stream sink.old).faults) }
    ensures rose { OnErr result (Rose (K.stream sink.old).faults (K.stream sink.new).faults) }
    ensures part { OnErr result (AppendsPart (K.stream sink.old).written (K.stream sink.new).written bytes.now) }
{
    let mut done = 0;
    while done < bytes.len() {
        done += sink.put(&bytes[done..])?;
    }
    Ok(())
}
