//! The top call.
ghost use Rattle.std.specs.Prelude.{◌≡◌, ◌≤◌, ◌⊎◌, map, length};
ghost use Rattle.loom_lang.specs.Limits.{file_limit};
ghost use Rattle.loom_top.specs.declared.status.Status.{Status};
ghost use Rattle.loom_top.specs.Code.{code};
ghost use Rattle.loom_top.specs.Invocation.{HasBounds};
ghost use Rattle.loom_top.specs.Task.{task_of};
ghost use Rattle.loom_top.specs.TopCall.{FileOwes, EndsWith, call_of, CallEnds, AnswersCall, IsValid, IsMissing, IsMissingScript};

use crate::code::code_of;
use crate::invocation::{Task, invocation_of};
use crate::put::{put_fault, put_text};
use crate::read::read_file;
use crate::run::run_file;
use crate::show::show_file;
use crate::show_filter::show_filter;
use crate::status::Status;
use loom_io::shelf::Shelf;
use loom_io::sink::Sink;
use std::alloc::Global;

// Does with a program's bytes what the task is. The word names their file.
fn put_file<F: Shelf, K: Sink>(
    alloc: Global,
    word: &str,
    file: &[u8],
    task: Task<'_>,
    shelf: &mut F,
    sink: &mut K,
) -> Status
    requires small { length file.now ≤ file_limit }
    requires bounds { HasBounds (task_of task) }
    ensures later { K.faults sink.old ≤ K.faults sink.new }
    ensures ends { let s = call_of F.told F.faults K.taken K.faults shelf.old shelf.new sink.old sink.new in CallEnds s (FileOwes s word.now file.now (task_of task.entry)) result }
{
    match task {
        Task::Run { script, limit } => run_file(alloc, word, file, script, limit, shelf, sink),
        Task::Show => show_file(alloc, file, sink),
        Task::ShowFilter { text } => show_filter(alloc, file, word, text, sink),
    }
}

// Does what the words ask for.
fn answer<F: Shelf, K: Sink>(alloc: Global, words: &[&str], shelf: &mut F, sink: &mut K) -> Status
    ensures later { K.faults sink.old ≤ K.faults sink.new }
    ensures answers { AnswersCall (call_of F.told F.faults K.taken K.faults shelf.old shelf.new sink.old sink.new) (map (λ w. w.now) words.now) result }
{
    let Some(invocation) = invocation_of(words) else {
        return put_text(sink, b"usage\n", Status::Usage);
    };
    match read_file(alloc, invocation.name, shelf) {
        Ok(file) => put_file(
            alloc,
            invocation.name,
            file.bytes(),
            invocation.task,
            shelf,
            sink,
        ),
        Err(fault) => put_fault(sink, invocation.name, fault),
    }
}

/// All that the program does, but for its `main`. By the words `run PROG`, behind which `SCRIPT` may stand and then `--steps B`, it runs the
/// program in the file PROG with the commands of the script in the file SCRIPT, and writes the text of the journal. A command that comes to be due
/// is asked, and has one answer: its filter is in, or is out, or it is refused, stalled or cut; each other command is told to be unreached. From its
/// installation to its removal a filter is obeyed, and it comes in while no thread is inside it; what is refused, stalled, cut or unreached changes
/// neither the version nor its filters. For now only filters of exclusions go in. Without SCRIPT there is no command. B, from 1 to 1,000,000 in
/// decimal, is how many entries threads make at most, and without it they are 100,000. By the words `show PROG` it writes the program's canonical
/// text, and by `show PROG FILTER`, with a text of at most 65,536 bytes, what that filter is for it: that it is refused for its text, for what it
/// names or for its paths, or how many clauses it has, the lines of its events, and the places that are unsafe for it, with their lines. PROG and
/// SCRIPT aren't empty and don't begin with `-`. What it answers is the status with which the program ends:
///
/// 0 the run is done, since all threads have ended, or the program or the filter was shown, and what was to be written was; 1 the words are no
/// invocation; 2 the program's file is no program; 3 the script's file is no script, or has a command that waits for a stall, which isn't built
/// yet; 4 the shelf could not read the one or the other, which the text names; 5 the sink could not take the text, and took a front of it; 6
/// memory ran out before the run began, or before what is shown was made; 7 the run is stuck, since each thread that lives waits, and its text was
/// written; 8 the run has as many thread entries as it may have, and its text was written; 10 the one or the other file has more than 65,536 bytes.
///
/// They are tested in this order: the words, the program's read, its length, the program, the script's read, its length, the script, the task, the
/// writing; of a run's ends the limit first. A script is read only behind a program, and only where the words name one.
pub fn loom_alone<F: Shelf, K: Sink>(
    alloc: Global,
    words: &[&str],
    shelf: &mut F,
    sink: &mut K,
) -> u8
    // The status, its cause and what was written.
    ensures answers { (status : Status) × (result ≡ code status) × AnswersCall (call_of F.told F.faults K.taken K.faults shelf.old shelf.new sink.old sink.new) (map (λ w. w.now) words.now) status }
    // A program is run, with its script, or shown, unless memory runs out.
    ensures complete { (v : IsValid (call_of F.told F.faults K.taken K.faults shelf.old shelf.new sink.old sink.new) (map (λ w. w.now) words.now)) → EndsWith v.names.invocation.task result }
    // Where the shelf tells that there is no such program, that is a read fault, or its text can't be written.
    ensures missing { IsMissing (call_of F.told F.faults K.taken K.faults shelf.old shelf.new sink.old sink.new) (map (λ w. w.now) words.now) → (result ≡ 4) ⊎ (result ≡ 5) }
    // So it is where the file is a program and there is no such script, but that memory may run out before it is looked for.
    ensures missing_script { IsMissingScript (call_of F.told F.faults K.taken K.faults shelf.old shelf.new sink.old sink.new) (map (λ w. w.now) words.now) → (result ≡ 4) ⊎ ((result ≡ 5) ⊎ (result ≡ 6)) }
{
    code_of(answer(alloc, words, shelf, sink))
}
