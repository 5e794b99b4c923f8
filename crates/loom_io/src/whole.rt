//! Writes a whole text.
ghost use Rattle.std.specs.Prelude.{◌≡◌, ◌≤◌, OnOk, OnErr};
ghost use Rattle.std.specs.Io.KnownBytes.{Appends};
ghost use Rattle.loom_io.specs.FaultCount.{Rose};
ghost use Rattle.loom_io.specs.Sink.{TookFront};

use crate::sink::{Sink, SinkFailed};

/// Puts the whole text, in as many pieces as the sink takes, and stops at the first fault: then the
/// sink has taken a front of the text, and its count of faults rose in this call.
pub fn put_all<K: Sink>(sink: &mut K, text: &[u8]) -> Result<(), SinkFailed>
    ensures later { K.faults sink.old ≤ K.faults sink.new }
    ensures ok { OnOk result (Appends (K.taken sink.old) (K.taken sink.new) text.now) }
    ensures calm { OnOk result (K.faults sink.new ≡ K.faults sink.old) }
    ensures part { OnErr result (TookFront (K.taken sink.old) (K.taken sink.new) text.now) }
    ensures failed { OnErr result (Rose (K.faults sink.old) (K.faults sink.new)) }
{
    let mut at = 0;
    'pieces: while at < text.len() {
        at += sink.put(&text[at..])?;
    }
    Ok(())
}
