//! Runs loom on the command words, the files of the system and standard output, and says on standard error why a call failed, or what was refused.
#![tactic(auto)]

use loom_io::adapters::{DirShelf, OutSink};
use loom_report::copy::CopyShelf;
use loom_report::refusal_notes::{RefusalNotes, RefusalSink};
use loom_report::report::{tell, tell_no_memory};
use loom_top::alone::loom_alone;
use loom_tree::name::NoMemory;
use std::env;
use std::io::{ErrorKind, Print};
use std::process::ExitCode;
use std::rt::{Env, Files};

/// The status where memory for the words is wanting.
const NO_MEMORY: u8 = 6;

// The words behind the program's name. Where a word isn't UTF-8 there are none, and so the call
// answers that they are no command.
fn words_of<R: Env + AllocGlobal>(rt: &R) -> Result<Vec<String>, NoMemory> {
    let mut words = Vec::new(rt.alloc());
    match env::args(rt) {
        Ok(args) => {
            for arg in args.skip(1) {
                words.push(arg)?;
            }
        }
        Err(error) => {
            if error.kind() == ErrorKind::OutOfMemory {
                return Err(NoMemory);
            }
        }
    }
    Ok(words)
}

// Whether the words, if they are a command, name a script or a filter.
fn name_more(words: &[&str]) -> bool {
    match words {
        [_, _, word, ..] => *word != "--steps",
        _ => false,
    }
}

fn status_of<R: Files + Print + Eprint + Env + AllocGlobal>(rt: &R) -> Result<u8, NoMemory> {
    let texts = words_of(rt)?;
    let mut words = Vec::new(rt.alloc());
    for text in &texts {
        words.push(text.as_str())?;
    }
    let mut shelf = CopyShelf {
        shelf: DirShelf {
            rt,
            faults: 0,
            cause: None,
        },
        copy: None,
        reads: 0,
    };
    let mut sink = RefusalSink {
        sink: OutSink {
            rt,
            faults: 0,
            cause: None,
        },
        notes: RefusalNotes::new(rt.alloc()),
        is_noting: name_more(&words),
    };
    let status = loom_alone(rt.alloc(), &words, &mut shelf, &mut sink);
    // Where standard error takes nothing, nothing can be said of it.
    let _ = tell(rt, rt.alloc(), &words, status, &shelf, &sink);
    Ok(status)
}

// The same where memory for the words is wanting.
fn exit_status<R: Files + Print + Eprint + Env + AllocGlobal>(rt: &R) -> u8 {
    match status_of(rt) {
        Ok(status) => status,
        Err(NoMemory) => {
            let _ = tell_no_memory(rt);
            NO_MEMORY
        }
    }
}

fn main(rt: HostRuntime) -> ExitCode {
    ExitCode::from(exit_status(&rt))
}

#[cfg(test)]
mod tests {
    use super::*;
    use std::env::{FillError, VarError};
    use std::test::Fail;

    // The words of a command, as the system gives them.
    #[derive(Drop)]
    struct Words<'a>(&'a [&'a [u8]]);

    impl Env for Words<'_> {
        fn arg(&self, i: usize, buf: &mut [u8]) -> Result<usize, FillError> {
            let Some(word) = self.0.get(i) else {
                return Err(FillError::NotPresent);
            };
            if buf.len() < word.len() {
                return Err(FillError::TooLong);
            }
            buf[..word.len()].copy_from_slice(word);
            Ok(word.len())
        }

        fn var(&self, _name: &str, _buf: &mut [u8]) -> Result<usize, FillError> {
            Err(FillError::NotPresent)
        }

        fn var_at(&self, _i: usize, _buf: &mut [u8]) -> Result<usize, FillError> {
            Err(FillError::NotPresent)
        }
    }

    #[test]
    fn tells_the_words(rt: HostRuntime) -> Result<(), Fail> {
        let rows: [(&[&[u8]], usize); 7] = [
            (&[], 0),
            (&[b"loom"], 0),
            (&[b"loom", b"run", b"p1.lm"], 2),
            (&[b"loom", b"run", b"p1.lm", b"s.txt"], 3),
            (&[b"loom", b"run", b"p1.lm", b"--steps", b"3"], 4),
            (&[b"loom", b"1", b"2", b"3", b"4", b"5", b"6"], 6),
            (&[b"loom", b"run", b"\xff"], 0),
        ];
        for (i, (given, count)) in rows.iter().enumerate() {
            let told = words_of(&(Words(given), rt.alloc()))?;
            assert_eq!(rt; told.len(), *count, "in row {i}");
            for (word, text) in told.iter().zip(given.iter().skip(1)) {
                assert_eq!(rt; word.as_bytes(), *text, "in row {i}");
            }
        }
        Ok(())
    }
}
