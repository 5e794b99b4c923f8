//! Shelves and sinks in memory, with faults at the calls that are to fail.
ghost use Rattle.std.specs.Prelude.{◌≡◌, ◌≤◌, ◌<◌, ◌+◌, ◌++◌, ◌⊎◌, ◌↔◌, ℕ, List, [], Some, None, IfOk, OnErr, IsTrue, IsErr, IsNone, Contains, length, take, min};
ghost use Rattle.std.specs.Option.{option_map, option_copied};
ghost use Rattle.loom_io.specs.FaultCount.{next};
ghost use Rattle.loom_io.specs.Files.{bytes_of};
ghost use Rattle.loom_io.specs.Shelf.{state_of, faults_after_read};
ghost use Rattle.loom_io.specs.Sink.{faults_after_put};

use crate::buffer::Buffer;
use crate::shelf::{LARGEST_LIMIT, Shelf, ShelfError};
use crate::sink::{Sink, SinkFailed};
use loom_tree::name::{Name, NoMemory};
use std::alloc::Global;
use std::marker::Model;

/// A file: its name and its bytes.
pub type File = (Name, Name);

/// A list of files.
#[derive(Debug, Drop)]
pub struct Files(pub Vec<File>);

impl Model for Files {
    ghost use Rattle.std.specs.Prelude.{List, ℕ};

    ghost Value = { List (List ℕ × List ℕ) };

    ghost view = { λ f. f.0.items };
}

impl Files {
    // The bytes of the first file of that name.
    fn find(&self, name: &str) -> Option<&Name>
        ensures { option_copied result ≡ bytes_of self.now name.now }
    {
        for file in &self.0 {
            if file.0.bytes() == name.as_bytes() {
                return Some(&file.1);
            }
        }
        None
    }
}

/// A list of numbers of calls.
#[derive(Debug, Drop)]
pub struct Calls(pub Vec<u64>);

impl Model for Calls {
    ghost use Rattle.std.specs.Prelude.{List, ℕ};

    ghost Value = { List ℕ };

    ghost view = { λ c. c.0.items };
}

impl Calls {
    // Whether the call of that number is one of them.
    fn has(&self, call: u64) -> bool
        ensures { IsTrue result ↔ Contains self.now call }
    {
        self.0.as_slice().contains(&call)
    }
}

/// Files in memory.
#[derive(Debug, Drop)]
pub struct MemShelf {
    /// Where two files have one name, the first counts.
    pub files: Files,
    /// The numbers of the calls that are to fail, from 1.
    pub failing: Calls,
    /// The number of calls, up to 18446744073709551615.
    pub calls: u64,
    /// The number of faults, up to 18446744073709551615. It is the count of every name.
    pub faults: u64,
}

impl Shelf for MemShelf {
    ghost faults = { λ s _. s.faults };

    ghost told = { λ s name. state_of (bytes_of s.files name) };

    /// Fails exactly where the call is to fail or there is no such file.
    fn read(&mut self, alloc: Global, name: &str, limit: usize) -> Result<Name, ShelfError>
        requires { limit ≤ LARGEST_LIMIT }
        ensures files { self.new.files ≡ self.old.files }
        ensures failing { self.new.failing ≡ self.old.failing }
        ensures calls { self.new.calls ≡ next self.old.calls }
        ensures faults { self.new.faults ≡ faults_after_read self.old.faults result }
        ensures later { self.old.faults ≤ self.new.faults }
        ensures ok { IfOk result (λ bytes. option_map (take (limit + 1)) (bytes_of self.old.files name.now) ≡ Some bytes) }
        ensures failed { (result ≡ Err ShelfError.Failed) ↔ (Contains self.old.failing self.new.calls ⊎ IsNone (bytes_of self.old.files name.now)) }
    {
        self.calls = self.calls.saturating_add(1);
        if !self.failing.has(self.calls)
            && let Some(file) = self.files.find(name)
        {
            let bytes = file.bytes();
            let end = bytes.len().min(limit + 1);
            return Ok(Name::copied(alloc, &bytes[..end])?);
        }
        self.faults = self.faults.saturating_add(1);
        Err(ShelfError::Failed)
    }
}

/// A sink in memory.
#[derive(Debug, Drop)]
pub struct MemSink {
    /// What was taken, and the room that is left.
    pub taken: Buffer,
    /// The most bytes that a call takes.
    pub most: usize,
    /// The numbers of the calls that are to fail, from 1.
    pub failing: Calls,
    /// The number of calls, up to 18446744073709551615.
    pub calls: u64,
    /// The number of faults, up to 18446744073709551615.
    pub faults: u64,
}

impl MemSink {
    /// A sink that has taken nothing, with room for `room` bytes, that takes at most `most` bytes a
    /// call, at least 1. No call is to fail. An `Err` is want of memory.
    pub fn make(alloc: Global, room: usize, most: usize) -> Result<MemSink, NoMemory>
        requires { 1 ≤ most }
        ensures taken { IfOk result (λ s. s.taken.bytes ≡ []) }
        ensures room { IfOk result (λ s. s.taken.room ≡ room) }
        ensures most { IfOk result (λ s. s.most ≡ most) }
        ensures failing { IfOk result (λ s. s.failing ≡ []) }
        ensures calls { IfOk result (λ s. s.calls ≡ 0) }
        ensures faults { IfOk result (λ s. s.faults ≡ 0) }
    {
        Ok(MemSink {
            taken: Buffer::make(alloc, room)?,
            most,
            failing: Calls(Vec::new(alloc)),
            calls: 0,
            faults: 0,
        })
    }
}

impl Sink for MemSink {
    ghost faults = { λ s. s.faults };

    ghost taken = { λ s. Some s.taken.bytes };

    /// Takes as many bytes as the piece has, as a call may take and as there is room for, and takes
    /// no memory. Fails exactly where the call is to fail or that is no byte.
    fn put(&mut self, piece: &[u8]) -> Result<usize, SinkFailed>
        requires { 0 < length piece.now }
        ensures most { self.new.most ≡ self.old.most }
        ensures failing { self.new.failing ≡ self.old.failing }
        ensures calls { self.new.calls ≡ next self.old.calls }
        ensures faults { self.new.faults ≡ faults_after_put self.old.faults result }
        ensures later { self.old.faults ≤ self.new.faults }
        ensures some { IfOk result (λ n. 0 < n) }
        ensures count { IfOk result (λ n. n ≡ min (length piece.now) (min self.old.most self.old.taken.room)) }
        ensures ok { IfOk result (λ n. self.new.taken.bytes ≡ self.old.taken.bytes ++ take n piece.now) }
        ensures room { IfOk result (λ n. self.new.taken.room + n ≡ self.old.taken.room) }
        ensures err { OnErr result (self.new.taken ≡ self.old.taken) }
        ensures failed { IsErr result ↔ (Contains self.old.failing self.new.calls ⊎ (min self.old.most self.old.taken.room ≡ 0)) }
    {
        self.calls = self.calls.saturating_add(1);
        let n = piece.len().min(self.most).min(self.taken.room());
        if n > 0 && !self.failing.has(self.calls) {
            self.taken.add(&piece[..n]);
            return Ok(n);
        }
        self.faults = self.faults.saturating_add(1);
        Err(SinkFailed)
    }
}
