//! What standard error says where a call failed, or something was refused. No contract speaks of it.
ghost use Rattle.std.specs.Prelude.{◌≤◌, length};
ghost use Rattle.loom_lang.specs.Limits.{file_limit};

use crate::copy::CopyShelf;
use crate::explanation::{Explanation, explanation_of};
use crate::lines::{command_line, line_of};
use crate::misfit::{Misfit, misfit_of};
use crate::plain::{Plain, PlainLine};
use crate::reading::{Reading, reading_of};
use crate::reason::reason_text;
use crate::refusal_notes::{RefusalNote, RefusalSink};
use crate::token_fault::TokenFault;
use loom_io::adapters::{DirShelf, OutSink};
use loom_lang::limits::FILE_LIMIT;
use loom_lang::parse::{LangError, parse_program};
use loom_lang::refusal::LangRefusal;
use loom_script::parse::{ScriptError, parse_script};
use loom_tree::name::{Name, NoMemory};
use std::alloc::Global;
use std::env::FillError;
use std::io;
use std::io::ErrorKind;
use std::rt::Env;

/// How many bytes the system takes as one word at most.
const WORD_LIMIT: usize = 131_072;

/// Why a file is no program where its end comes too early.
const EARLY_END: &str = "the file ends before the program does: something is missing";

/// The forms of commands.
const FORMS: &str =
    "usage: loom run PROG [SCRIPT] [--steps B]  runs the program in the file PROG with the commands in the file SCRIPT; its threads make B entries at most
       loom show PROG                      writes the program in its canonical text
       loom show PROG FILTER               tells what that filter is for the program";

/// The system's files, with a copy of what was read.
pub type FileShelf<'a, R> = CopyShelf<DirShelf<'a, R>>;

// The number of the first word that isn't UTF-8 text, where there is one.
fn no_text_word<R: Env>(rt: &R) -> Option<usize> {
    let mut word = [0; WORD_LIMIT];
    for i in 1..usize::MAX {
        match rt.arg(i, &mut word) {
            Ok(n) => {
                if str::from_utf8(&word[..n]).is_err() {
                    return Some(i);
                }
            }
            Err(FillError::TooLong) => {}
            Err(FillError::NotPresent) => return None,
        }
    }
    None
}

// Which word wasn't understood. Where one isn't text, no word was given to the call.
fn tell_misfit<R: Env + Eprint>(rt: &R, words: &[&str]) -> io::Result<()> {
    if words.is_empty()
        && let Some(number) = no_text_word(rt)
    {
        return eprintln!(rt; "loom: word {number} was not understood: it isn't UTF-8 text");
    }
    match misfit_of(words) {
        Misfit::Missing(what) => eprintln!(rt; "loom: {what} is missing"),
        Misfit::Word { number, word, why } => {
            let word = Plain(word.as_bytes());
            eprintln!(rt; "loom: word {number}, \"{word}\", was not understood: {why}")
        }
    }
}

// Says why a file is refused at this line, and the line.
fn tell_line<R: Eprint>(
    rt: &R,
    name: Plain<'_>,
    file: &[u8],
    number: u32,
    why: Explanation<'_>,
) -> io::Result<()> {
    let line = PlainLine(line_of(file, number).trim_ascii());
    eprintln!(rt; "loom: {name}: line {number}: {why}\n{number:>6} | {line}")
}

// Why the file is no program, for this reason at this line: by what stands there, where memory doesn't run out.
fn tell_program<R: Eprint>(
    rt: &R,
    alloc: Global,
    name: Plain<'_>,
    file: &[u8],
    refusal: LangRefusal,
) -> io::Result<()>
    requires { length file.now ≤ file_limit }
{
    let number = refusal.line;
    match reading_of(alloc, file) {
        Ok(Reading::Items(items)) => {
            let why = explanation_of(alloc, &items.0, refusal);
            tell_line(rt, name, file, number, why)
        }
        Ok(Reading::Stop(Some(token))) => {
            let why = Explanation::Token(TokenFault::new(file, token));
            tell_line(rt, name, file, number, why)
        }
        Ok(Reading::Stop(None)) => tell_line(rt, name, file, number, Explanation::Text(EARLY_END)),
        Err(NoMemory) => {
            let why = Explanation::Text(reason_text(refusal.reason));
            tell_line(rt, name, file, number, why)
        }
    }
}

// The same of the refusal that the bytes have: the same ones have one, which is that which was written.
fn tell_refusal<R: Eprint>(rt: &R, alloc: Global, name: Plain<'_>, file: &[u8]) -> io::Result<()> {
    if file.len() > FILE_LIMIT {
        return Ok(());
    }
    match parse_program(alloc, file) {
        Err(LangError::Refused(refusal)) => tell_program(rt, alloc, name, file, refusal),
        _ => Ok(()),
    }
}

// Why no script has this line, which by itself is one where only too many commands stand before it.
fn script_reason(alloc: Global, line: &[u8]) -> &'static str {
    if line.len() > FILE_LIMIT {
        return "the line is too long";
    }
    match parse_script(alloc, line) {
        Ok(_) => "there are more than 64 commands",
        Err(_) => "this is no command, or one that waits for a stall, which isn't built yet",
    }
}

// The same of a file that is no script.
fn tell_no_script<R: Eprint>(
    rt: &R,
    alloc: Global,
    name: Plain<'_>,
    file: &[u8],
) -> io::Result<()> {
    if file.len() > FILE_LIMIT {
        return Ok(());
    }
    match parse_script(alloc, file) {
        Err(ScriptError::Refused(refusal)) => {
            let why = script_reason(alloc, line_of(file, refusal.line));
            tell_line(rt, name, file, refusal.line, Explanation::Text(why))
        }
        _ => Ok(()),
    }
}

// Why a filter is refused, or a command of this script; of a command the line on which it stands.
fn tell_note<R: Eprint>(
    rt: &R,
    name: Plain<'_>,
    script: &[u8],
    note: RefusalNote,
) -> io::Result<()> {
    if note.command == 0 {
        return eprintln!(rt; "loom: {note}");
    }
    match command_line(script, note.command) {
        Some(number) => tell_line(rt, name, script, number, Explanation::Command(note)),
        None => Ok(()),
    }
}

// The same of all that are refused. The file is that of the last read.
fn tell_notes<R: Eprint>(
    rt: &R,
    name: Plain<'_>,
    file: &Option<Name>,
    notes: &[RefusalNote],
) -> io::Result<()> {
    if let Some(file) = file {
        for note in notes {
            tell_note(rt, name, file.bytes(), *note)?;
        }
    }
    Ok(())
}

// Why the output didn't take the text. Where nobody reads it any more there is nobody to tell.
fn tell_write_fault<R: Eprint>(rt: &R, cause: Option<io::Error>) -> io::Result<()> {
    match cause {
        Some(error) if error.kind() != ErrorKind::BrokenPipe => {
            eprintln!(rt; "loom: standard output: {error}")
        }
        _ => Ok(()),
    }
}

/// That memory ran out.
pub fn tell_no_memory<R: Eprint>(rt: &R) -> io::Result<()> {
    eprintln!(rt; "loom: memory ran out")
}

/// Says why a call of these words ended with this status.
pub fn tell<R: Env + Eprint, F, P>(
    rt: &R,
    alloc: Global,
    words: &[&str],
    status: u8,
    shelf: &FileShelf<'_, F>,
    sink: &RefusalSink<OutSink<'_, P>>,
) -> io::Result<()> {
    // the file of the last read: the program is the second word and read first, the script is the third one
    let name = match words.get(shelf.reads) {
        Some(word) => Plain(word.as_bytes()),
        None => Plain(b""),
    };
    match status {
        0 | 7 | 8 => tell_notes(rt, name, &shelf.copy, sink.notes.notes()),
        1 => {
            tell_misfit(rt, words)?;
            eprintln!(rt; "{FORMS}")
        }
        2 => match &shelf.copy {
            Some(file) => tell_refusal(rt, alloc, name, file.bytes()),
            None => Ok(()),
        },
        3 => match &shelf.copy {
            Some(file) => tell_no_script(rt, alloc, name, file.bytes()),
            None => Ok(()),
        },
        4 => match shelf.shelf.cause {
            Some(error) => eprintln!(rt; "loom: {name}: {error}"),
            None => Ok(()),
        },
        5 => tell_write_fault(rt, sink.sink.cause),
        6 => tell_no_memory(rt),
        10 => eprintln!(rt; "loom: {name}: a program or a script has at most {FILE_LIMIT} bytes"),
        _ => Ok(()),
    }
}
