//! Shows what a filter is for a program.
ghost use Rattle.std.specs.Prelude.{◌≡◌, ◌≤◌, length, IfOk, IfErr};
ghost use Rattle.loom_tree.specs.Tree.{Source};
ghost use Rattle.loom_lang.specs.Limits.{file_limit};
ghost use Rattle.loom_lang.specs.Program.{IsProgram};
ghost use Rattle.loom_lang.specs.LangError.{TellsRefusal};
ghost use Rattle.loom_law.specs.Judgement.{file_name};
ghost use Rattle.loom_filter.specs.FilterError.{text_limit};
ghost use Rattle.loom_top.specs.ShowText.{IsFilterText};
ghost use Rattle.loom_top.specs.TopCall.{IsShownText, ShowOwes, SinkEnds};

use crate::file_name::file_name;
use crate::filter_lines::{fault_text, plan_text};
use crate::put::{put_refusal, put_text};
use crate::status::Status;
use loom_filter::parse::FilterError;
use loom_flow::flow::Flow;
use loom_flow::lower::lower;
use loom_io::sink::Sink;
use loom_lang::parse::{LangError, parse_program};
use loom_lang::refusal::LangRefusal;
use loom_sites::judge::judge;
use loom_tree::name::{Name, NoMemory};
use std::alloc::Global;

// What is written of a filter's text.
fn filter_text(alloc: Global, flow: &Flow, name: &[u8], text: &[u8]) -> Result<Name, NoMemory>
    requires { length text.now ≤ text_limit }
    ensures { IfOk result (λ out. IsFilterText flow.now.program name.now text.now out) }
{
    match judge(alloc, flow, name, text) {
        Ok(found) => plan_text(alloc, flow, &found.filter, &found.unsafe_places),
        Err(FilterError::Refused(refusal)) => fault_text(alloc, refusal),
        Err(FilterError::NoMemory) => Err(NoMemory),
    }
}

// What is written of the text of a filter for the program that the bytes are, in the file that the word names.
fn text_of(alloc: Global, file: &[u8], word: &str, text: &str) -> Result<Name, LangError>
    requires small { length file.now ≤ file_limit }
    requires short { length text.now ≤ text_limit }
    ensures text { IfOk result (λ out. IsShownText file.now (λ p t. IsFilterText p (file_name word.now) text.now t) out) }
    ensures refused { IfErr result (λ e. TellsRefusal file.now e) }
    ensures none { (r : LangRefusal) → result ≡ Err (LangError.Refused r) → (p : Source) → IsProgram file.now p → ⊥ }
{
    let program = parse_program(alloc, file)?;
    let flow = lower(alloc, &program)?;
    Ok(filter_text(alloc, &flow, file_name(word.as_bytes()), text.as_bytes())?)
}

/// Writes what a filter's text is for a program's bytes, in the file that the word names.
pub(crate) fn show_filter<K: Sink>(
    alloc: Global,
    file: &[u8],
    word: &str,
    text: &str,
    sink: &mut K,
) -> Status
    requires small { length file.now ≤ file_limit }
    requires short { length text.now ≤ text_limit }
    ensures later { K.faults sink.old ≤ K.faults sink.new }
    ensures ends { SinkEnds (K.taken sink.old) (K.taken sink.new) (K.faults sink.old) (K.faults sink.new) (ShowOwes file.now (λ p t. IsFilterText p (file_name word.now) text.now t)) result }
{
    match text_of(alloc, file, word, text) {
        Ok(text) => put_text(sink, text.bytes(), Status::Done),
        Err(LangError::Refused(refusal)) => put_refusal(sink, refusal),
        Err(LangError::NoMemory) => put_text(sink, b"no memory\n", Status::NoMemory),
    }
}
