//! Writes one text, and answers with which status.
ghost use Rattle.std.specs.Prelude.{◌≤◌, ◌++◌, codes, OnOk, OnErr};
ghost use Rattle.std.specs.Io.KnownBytes.{Appends};
ghost use Rattle.loom_io.specs.FaultCount.{Rose};
ghost use Rattle.loom_io.specs.Sink.{TookFront};
ghost use Rattle.loom_top.specs.declared.status.Status.TheVariants as status;
ghost use Rattle.loom_top.specs.Code.{fault_status, fault_told};
ghost use Rattle.loom_top.specs.RefusalLine.{refusal_line, script_line};
ghost use Rattle.loom_top.specs.TopCall.{Put};

use crate::read::FileFault;
use crate::refusal::{refusal_line, script_line};
use crate::status::Status;
use loom_io::sink::{Sink, SinkFailed};
use loom_io::whole::put_all;
use loom_lang::refusal::LangRefusal;
use loom_script::parse::ScriptRefusal;

/// Writes a text, and answers its status, or that of a fault.
pub(crate) fn put_text<K: Sink>(sink: &mut K, text: &[u8], owed: Status) -> Status
    ensures later { K.faults sink.old ≤ K.faults sink.new }
    ensures put { Put (K.taken sink.old) (K.taken sink.new) (K.faults sink.old) (K.faults sink.new) text.now owed result }
{
    match put_all(sink, text) {
        Ok(()) => owed,
        Err(_) => Status::WriteFault,
    }
}

/// The same of the line that says why a file is no program.
pub(crate) fn put_refusal<K: Sink>(sink: &mut K, refusal: LangRefusal) -> Status
    ensures later { K.faults sink.old ≤ K.faults sink.new }
    ensures put { Put (K.taken sink.old) (K.taken sink.new) (K.faults sink.old) (K.faults sink.new) (refusal_line refusal.line refusal.reason) status.Refused result }
{
    put_text(sink, refusal_line(refusal).as_slice(), Status::Refused)
}

/// The same of the line that says where a script's file is no script.
pub(crate) fn put_no_script<K: Sink>(sink: &mut K, refusal: ScriptRefusal) -> Status
    ensures later { K.faults sink.old ≤ K.faults sink.new }
    ensures put { Put (K.taken sink.old) (K.taken sink.new) (K.faults sink.old) (K.faults sink.new) (script_line refusal.line) status.NoScript result }
{
    put_text(sink, script_line(refusal).as_slice(), Status::NoScript)
}

fn put_named_text<K: Sink>(sink: &mut K, before: &[u8], name: &str) -> Result<(), SinkFailed>
    ensures later { K.faults sink.old ≤ K.faults sink.new }
    ensures ok { OnOk result (Appends (K.taken sink.old) (K.taken sink.new) (before.now ++ (name.now ++ codes "\n"))) }
    ensures part { OnErr result (TookFront (K.taken sink.old) (K.taken sink.new) (before.now ++ (name.now ++ codes "\n"))) }
    ensures failed { OnErr result (Rose (K.faults sink.old) (K.faults sink.new)) }
{
    put_all(sink, before)?;
    put_all(sink, name.as_bytes())?;
    put_all(sink, b"\n")
}

// The same of a line that ends with a file's name.
fn put_named<K: Sink>(sink: &mut K, before: &[u8], name: &str, owed: Status) -> Status
    ensures later { K.faults sink.old ≤ K.faults sink.new }
    ensures put { Put (K.taken sink.old) (K.taken sink.new) (K.faults sink.old) (K.faults sink.new) (before.now ++ (name.now ++ codes "\n")) owed result }
{
    match put_named_text(sink, before, name) {
        Ok(()) => owed,
        Err(_) => Status::WriteFault,
    }
}

/// The same of the line that says why the bytes of the file of that name aren't had.
pub(crate) fn put_fault<K: Sink>(sink: &mut K, name: &str, fault: FileFault) -> Status
    ensures later { K.faults sink.old ≤ K.faults sink.new }
    ensures put { Put (K.taken sink.old) (K.taken sink.new) (K.faults sink.old) (K.faults sink.new) (fault_told fault name.now) (fault_status fault) result }
{
    match fault {
        FileFault::Failed => put_named(sink, b"read fault: ", name, Status::ReadFault),
        FileFault::TooLong => put_named(sink, b"too long: ", name, Status::TooLong),
        FileFault::NoMemory => put_text(sink, b"no memory\n", Status::NoMemory),
    }
}
