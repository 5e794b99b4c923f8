//! A sink that notes which filters and commands are refused.
ghost use Rattle.std.specs.Prelude.{ℕ, ◌≡◌, ◌≤◌, ◌<◌, ◌++◌, ◌∷◌, [], List, true, IfOk, OnOk, OnErr, length};
ghost use Rattle.loom_report.specs.OpenLine.{HasLine, line_behind};

use crate::reason::number_text;
use loom_io::sink::{Sink, SinkFailed};
use std::alloc::Global;
use std::fmt;

/// How many bytes a line has at most that is looked at: with its LF, `refused 64 15 9` has fewer.
const MOST_BYTES: usize = 32;

/// What a line `refused ..` of standard output says.
#[derive(Clone, Copy, Debug, Drop, PartialEq, Eq)]
pub struct RefusalNote {
    /// The number of the command, from 1; 0 where a filter is shown.
    pub command: u32,
    /// The reason's number.
    pub number: u32,
    /// The clause of the filter, from 1, or 0.
    pub clause: u32,
}

// What a line says, if it is one of these.
fn note_of(line: &[u8]) -> Option<RefusalNote> {
    let text = str::from_utf8(line).ok()?;
    let mut words = text.split_whitespace();
    if words.next()? != "refused" {
        return None;
    }
    let first = words.next()?.parse::<u32>().ok()?;
    let second = words.next()?.parse::<u32>().ok()?;
    match words.next() {
        None => Some(RefusalNote {
            command: 0,
            number: first,
            clause: second,
        }),
        Some(word) => Some(RefusalNote {
            command: first,
            number: second,
            clause: word.parse::<u32>().ok()?,
        }),
    }
}

impl fmt::Display for RefusalNote {
    fn fmt<W: fmt::Write>(&self, f: &mut fmt::Formatter<W>) -> fmt::Result {
        let command = self.command;
        let clause = self.clause;
        if command == 0 {
            write!(f, "the filter is refused")?;
        } else {
            write!(f, "command {command} is refused")?;
        }
        if clause != 0 {
            write!(f, " at clause {clause}")?;
        }
        let why = number_text(self.number);
        write!(f, ": {why}")
    }
}

/// What lines of a text say that something is refused. A line for which memory is wanting is left out as a whole.
#[derive(Drop)]
pub struct RefusalNotes {
    // the line that isn't at its end yet, where it is looked at
    line: Vec<u8>,
    // that line isn't looked at: it begins like no such one, has too many bytes, or memory for one of them was wanting
    is_other: bool,
    notes: Vec<RefusalNote>,
}

impl RefusalNotes {
    /// Of no text.
    pub fn new(alloc: Global) -> RefusalNotes
        ensures { HasLine [] result }
    {
        RefusalNotes {
            line: Vec::new(alloc),
            is_other: false,
            notes: Vec::new(alloc),
        }
    }

    /// The notes, in the order of the text.
    pub fn notes(&self) -> &[RefusalNote] {
        self.notes.as_slice()
    }

    // Notes the line that is at its end. The next one is looked at.
    fn end_line(&mut self)
        ensures anew { HasLine [] self.new }
        ensures other { self.old.is_other ≡ true → self.new.notes.items ≡ self.old.notes.items }
    {
        if self.is_other {
            self.is_other = false;
        } else if let Some(note) = note_of(self.line.as_slice()) {
            let _ = self.notes.push(note);
        }
        self.line.clear();
    }

    // Goes on with a byte of a line. A line that can't be had whole isn't looked at.
    fn add_byte(&mut self, b: u8)
        ensures { HasLine (self.old.line.items ++ b ∷ []) self.new }
    {
        let is_other = self.line.is_empty() && b != b'r' || self.line.len() >= MOST_BYTES;
        if is_other || self.line.push(b).is_err() {
            self.line.clear();
            self.is_other = true;
        }
    }

    /// Goes on with more of the text. What the notes have of a line is all of it, or the line is none of theirs.
    pub fn add(&mut self, text: &[u8])
        ensures { (line : List ℕ) → HasLine line self.old → HasLine (line_behind line text.now) self.new }
    {
        'bytes: for b in text {
            if *b == b'\n' {
                self.end_line();
            } else if !self.is_other {
                self.add_byte(*b);
            }
        }
    }
}

/// Another sink, with notes of what it took where they are wanted.
#[derive(Drop)]
pub struct RefusalSink<K> {
    pub sink: K,
    pub notes: RefusalNotes,
    pub is_noting: bool,
}

impl<K: Sink> Sink for RefusalSink<K> {
    ghost faults = { λ s. K.faults s.sink };

    ghost taken = { λ s. K.taken s.sink };

    fn put(&mut self, piece: &[u8]) -> Result<usize, SinkFailed> {
        let answer = self.sink.put(piece);
        if self.is_noting
            && let Ok(n) = &answer
        {
            self.notes.add(&piece[..*n]);
        }
        answer
    }
}

#[cfg(test)]
mod tests {
    use super::*;
    use std::test::Fail;

    #[test]
    fn notes_refusals(rt: HostRuntime) -> Result<(), Fail> {
        let pieces: [&[u8]; 5] = [
            b"5\n---\nasked 1\nrefu",
            b"sed 1 15 2\n1:1 begin\nrefused",
            b" 12 3 0\nrefused 7 8\n1:1 write 0 refused 1 2\n",
            b"refused 1\nrefused x 1\nrefused 4294967296 1\n",
            b"finish done\nrefused 1 2 3",
        ];
        let mut notes = RefusalNotes::new(rt.alloc());
        for piece in pieces {
            notes.add(piece);
        }
        let wanted = [(1, 15, 2), (12, 3, 0), (0, 7, 8)];
        assert_eq!(rt; notes.notes().len(), 3);
        for (note, (command, number, clause)) in notes.notes().iter().zip(wanted.iter()) {
            assert_eq!(rt; note.command, *command);
            assert_eq!(rt; note.number, *number);
            assert_eq!(rt; note.clause, *clause);
        }
        Ok(())
    }
}
