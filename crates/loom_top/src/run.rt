//! Runs a program with the commands of a script, and writes the journal.
ghost use Rattle.std.specs.Prelude.{List, ◌≤◌, length, IfOk};
ghost use Rattle.loom_trace.specs.declared.entry.Ending.{Ending};
ghost use Rattle.loom_trace.specs.Text.{journal_text};
ghost use Rattle.loom_trace.specs.Limits.{entry_limit};
ghost use Rattle.loom_lang.specs.Limits.{file_limit};
ghost use Rattle.loom_law.specs.Control.{Command};
ghost use Rattle.loom_script.specs.View.{script_of};
ghost use Rattle.loom_world.specs.Commands.{AreCommandsSoFar};
ghost use Rattle.loom_top.specs.Code.{ended_as};
ghost use Rattle.loom_top.specs.Read.{CanBeRun};
ghost use Rattle.loom_top.specs.Task.{name_if};
ghost use Rattle.loom_top.specs.TopCall.{EndsIn, IsRunOf, Put, CommandsOwe, ProgramOwes, RunOwes, call_of, SinkEnds, CallEnds};

use crate::code::{ending_of, status_of};
use crate::file_name::file_name;
use crate::put::{put_fault, put_no_script, put_refusal, put_text};
use crate::read::{ScriptFault, empty_script, read_script};
use crate::status::Status;
use crate::write::put_journal;
use loom_crew::alone::run_alone;
use loom_io::shelf::Shelf;
use loom_io::sink::Sink;
use loom_lang::parse::{LangError, parse_program};
use loom_lang::program::Program;
use loom_script::script::Script;
use loom_trace::journal::Journal;
use loom_tree::name::NoMemory;
use loom_world::world::World;
use std::alloc::Global;

// Writes the text of a run's journal, and answers the status of how it ended, or that of a fault.
fn put_run<K: Sink>(sink: &mut K, journal: &Journal) -> Status
    requires { (kind : Ending) × EndsIn journal.now.entries kind }
    ensures later { K.faults sink.old ≤ K.faults sink.new }
    ensures put { (kind : Ending) × EndsIn journal.now.entries kind × Put (K.taken sink.old) (K.taken sink.new) (K.faults sink.old) (K.faults sink.new) (journal_text journal.now.entries) (ended_as kind) result }
{
    match put_journal(sink, journal) {
        Ok(()) => status_of(ending_of(journal)),
        Err(_) => Status::WriteFault,
    }
}

// The run of a program in the file of this name with the commands of a script, up to its end, in which threads make at most `limit` entries.
fn run_of(
    alloc: Global,
    program: &Program,
    name: &[u8],
    script: &Script,
    limit: u32,
) -> Result<World, NoMemory>
    requires can { CanBeRun (script_of script.now) }
    requires least { 1 ≤ limit }
    requires limit { limit ≤ entry_limit }
    ensures { IfOk result (λ w. (cs : List Command) × (AreCommandsSoFar program.now name.now (script_of script.now) cs × ((kind : Ending) × IsRunOf program.now cs limit kind w.entries))) }
{
    let mut world = World::make(alloc, program, name, script, limit)?;
    run_alone(&mut world);
    Ok(world)
}

// Runs a program with the commands of a script, and writes what the journal says. The word names the program's file.
fn run_commands<K: Sink>(
    alloc: Global,
    program: &Program,
    word: &str,
    script: &Script,
    limit: u32,
    sink: &mut K,
) -> Status
    requires can { CanBeRun (script_of script.now) }
    requires least { 1 ≤ limit }
    requires limit { limit ≤ entry_limit }
    ensures later { K.faults sink.old ≤ K.faults sink.new }
    ensures ends { SinkEnds (K.taken sink.old) (K.taken sink.new) (K.faults sink.old) (K.faults sink.new) (CommandsOwe program.now word.now (script_of script.now) limit) result }
{
    match run_of(alloc, program, file_name(word.as_bytes()), script, limit) {
        Ok(world) => put_run(sink, world.journal()),
        Err(NoMemory) => put_text(sink, b"no memory\n", Status::NoMemory),
    }
}

// Reads the script, if one is named, and runs a program with its commands.
fn run_program<F: Shelf, K: Sink>(
    alloc: Global,
    program: &Program,
    word: &str,
    script: Option<&str>,
    limit: u32,
    shelf: &mut F,
    sink: &mut K,
) -> Status
    requires least { 1 ≤ limit }
    requires limit { limit ≤ entry_limit }
    ensures later { K.faults sink.old ≤ K.faults sink.new }
    ensures ends { let s = call_of F.told F.faults K.taken K.faults shelf.old shelf.new sink.old sink.new in CallEnds s (ProgramOwes s program.now word.now (name_if script.entry) limit) result }
{
    match script {
        None => run_commands(alloc, program, word, &empty_script(alloc), limit, sink),
        Some(name) => match read_script(alloc, name, shelf) {
            Ok(commands) => run_commands(alloc, program, word, &commands, limit, sink),
            Err(ScriptFault::NoScript(refusal)) => put_no_script(sink, refusal),
            Err(ScriptFault::File(fault)) => put_fault(sink, name, fault),
        },
    }
}

/// Runs a program's bytes with the commands of the script that is named, if one is, and writes what the journal says. The word names the
/// program's file.
pub(crate) fn run_file<F: Shelf, K: Sink>(
    alloc: Global,
    word: &str,
    file: &[u8],
    script: Option<&str>,
    limit: u32,
    shelf: &mut F,
    sink: &mut K,
) -> Status
    requires small { length file.now ≤ file_limit }
    requires least { 1 ≤ limit }
    requires limit { limit ≤ entry_limit }
    ensures later { K.faults sink.old ≤ K.faults sink.new }
    ensures ends { let s = call_of F.told F.faults K.taken K.faults shelf.old shelf.new sink.old sink.new in CallEnds s (RunOwes s word.now file.now (name_if script.entry) limit) result }
{
    match parse_program(alloc, file) {
        Ok(program) => run_program(alloc, &program, word, script, limit, shelf, sink),
        Err(LangError::Refused(refusal)) => put_refusal(sink, refusal),
        Err(LangError::NoMemory) => put_text(sink, b"no memory\n", Status::NoMemory),
    }
}
