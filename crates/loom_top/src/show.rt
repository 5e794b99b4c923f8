//! Shows a program: writes its canonical text.
ghost use Rattle.std.specs.Prelude.{◌≡◌, ◌≤◌, length, IfOk, IfErr};
ghost use Rattle.loom_tree.specs.Tree.{Source};
ghost use Rattle.loom_lang.specs.Canonical.{canonical_text};
ghost use Rattle.loom_lang.specs.Limits.{file_limit};
ghost use Rattle.loom_lang.specs.Program.{IsProgram};
ghost use Rattle.loom_lang.specs.LangError.{TellsRefusal};
ghost use Rattle.loom_top.specs.TopCall.{IsShownText, ShowOwes, SinkEnds};

use crate::put::{put_refusal, put_text};
use crate::status::Status;
use loom_canonical::print::print_program;
use loom_io::sink::Sink;
use loom_lang::parse::{LangError, parse_program};
use loom_lang::refusal::LangRefusal;
use loom_tree::name::Name;
use std::alloc::Global;

// The canonical text of the program that the bytes are.
fn text_of(alloc: Global, file: &[u8]) -> Result<Name, LangError>
    requires small { length file.now ≤ file_limit }
    ensures text { IfOk result (λ text. IsShownText file.now (λ p t. t ≡ canonical_text p) text) }
    ensures refused { IfErr result (λ e. TellsRefusal file.now e) }
    ensures none { (r : LangRefusal) → result ≡ Err (LangError.Refused r) → (p : Source) → IsProgram file.now p → ⊥ }
{
    let program = parse_program(alloc, file)?;
    Ok(print_program(alloc, &program)?)
}

/// Writes the canonical text of a program's bytes.
pub(crate) fn show_file<K: Sink>(alloc: Global, file: &[u8], sink: &mut K) -> Status
    requires small { length file.now ≤ file_limit }
    ensures later { K.faults sink.old ≤ K.faults sink.new }
    ensures ends { SinkEnds (K.taken sink.old) (K.taken sink.new) (K.faults sink.old) (K.faults sink.new) (ShowOwes file.now (λ p t. t ≡ canonical_text p)) result }
{
    match text_of(alloc, file) {
        Ok(text) => put_text(sink, text.bytes(), Status::Done),
        Err(LangError::Refused(refusal)) => put_refusal(sink, refusal),
        Err(LangError::NoMemory) => put_text(sink, b"no memory\n", Status::NoMemory),
    }
}
