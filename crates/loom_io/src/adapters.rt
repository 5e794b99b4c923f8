//! The files of the system and standard output.
ghost use Rattle.std.specs.Prelude.{◌≡◌, ◌≤◌, ◌<◌, ◌+◌, ◌↔◌, None, IfOk, OnOk, OnErr, IfSome, IsSome, length, take};
ghost use Rattle.std.specs.IoError.{error_kind};
ghost use Rattle.loom_io.specs.Shelf.{Untold, faults_after_read};
ghost use Rattle.loom_io.specs.Sink.{faults_after_put};

use crate::shelf::{LARGEST_LIMIT, Shelf, ShelfError};
use crate::sink::{Sink, SinkFailed};
use loom_tree::name::Name;
use std::alloc::Global;
use std::io::{ErrorKind, Print, Read, Write};
use std::rt::Files;
use std::{fs, io};

/// The files of the system, by their paths. It tells no file.
#[derive(Drop)]
pub struct DirShelf<'a, R> {
    /// What opens files.
    pub rt: &'a R,
    /// The number of faults, up to 18446744073709551615. It is the count of every name.
    pub faults: u64,
    /// What the system said at the last fault.
    pub cause: Option<io::Error>,
}

// All that the source gives, or, where that is more than `limit` bytes, the front of them that is one longer.
fn front_of<S: Read + Drop>(source: S, alloc: Global, limit: usize) -> io::Result<Name>
    requires { limit ≤ LARGEST_LIMIT }
    ensures short { IfOk result (λ bytes. length bytes ≤ limit + 1) }
    ensures whole { IfOk result (λ bytes. IfSome (S.remaining source) (λ all. bytes ≡ take (limit + 1) all)) }
{
    let mut bytes = Vec::new(alloc);
    source.take(limit as u64 + 1).read_to_end(&mut bytes)?;
    bytes.truncate(limit + 1);
    Ok(Name(bytes))
}

fn load<R: Files>(rt: &R, alloc: Global, name: &str, limit: usize) -> io::Result<Name>
    requires { limit ≤ LARGEST_LIMIT }
    ensures { IfOk result (λ bytes. length bytes ≤ limit + 1) }
{
    front_of(fs::open(rt, name)?, alloc, limit)
}

// Want of memory is no fault, and each other error is one.
fn cause_of(error: &io::Error) -> ShelfError
    ensures { (result ≡ ShelfError.NoMemory) ↔ (error_kind error.now ≡ ErrorKind.OutOfMemory) }
{
    if error.kind() == ErrorKind::OutOfMemory {
        ShelfError::NoMemory
    } else {
        ShelfError::Failed
    }
}

impl<R: Files> Shelf for DirShelf<'_, R> {
    ghost faults = { λ s _. s.faults };

    ghost told = { λ _ _. Untold };

    /// Each error of the system is a fault, but want of memory, which is `NoMemory`.
    fn read(&mut self, alloc: Global, name: &str, limit: usize) -> Result<Name, ShelfError>
        requires { limit ≤ LARGEST_LIMIT }
        ensures short { IfOk result (λ bytes. length bytes ≤ limit + 1) }
        ensures faults { self.new.faults ≡ faults_after_read self.old.faults result }
        ensures later { self.old.faults ≤ self.new.faults }
        ensures cause { result ≡ Err ShelfError.Failed → IsSome self.new.cause }
        ensures calm { OnOk result (self.new.cause ≡ self.old.cause) }
    {
        match load(self.rt, alloc, name, limit) {
            Ok(bytes) => Ok(bytes),
            Err(error) => match cause_of(&error) {
                ShelfError::NoMemory => Err(ShelfError::NoMemory),
                ShelfError::Failed => {
                    self.faults = self.faults.saturating_add(1);
                    self.cause = Some(error);
                    Err(ShelfError::Failed)
                }
            },
        }
    }
}

/// Standard output. It doesn't tell what it took.
#[derive(Drop)]
pub struct OutSink<'a, P> {
    /// What prints.
    pub rt: &'a P,
    /// The number of faults, up to 18446744073709551615.
    pub faults: u64,
    /// What the system said at the last fault.
    pub cause: Option<io::Error>,
}

// How many of the first bytes of the piece were printed: none is an error.
fn taken_of<P: Print>(rt: &P, piece: &[u8]) -> io::Result<usize>
    ensures some { IfOk result (λ n. 0 < n) }
    ensures within { IfOk result (λ n. n ≤ length piece.now) }
{
    let n = rt.write_some(piece)?;
    if n > 0 {
        Ok(n)
    } else {
        Err(io::Error::from(ErrorKind::WriteZero))
    }
}

impl<P: Print> Sink for OutSink<'_, P> {
    ghost faults = { λ s. s.faults };

    ghost taken = { λ _. None };

    /// Each error of the system is a fault, and so is taking no byte.
    fn put(&mut self, piece: &[u8]) -> Result<usize, SinkFailed>
        requires { 0 < length piece.now }
        ensures some { IfOk result (λ n. 0 < n) }
        ensures within { IfOk result (λ n. n ≤ length piece.now) }
        ensures faults { self.new.faults ≡ faults_after_put self.old.faults result }
        ensures later { self.old.faults ≤ self.new.faults }
        ensures cause { OnErr result (IsSome self.new.cause) }
        ensures calm { OnOk result (self.new.cause ≡ self.old.cause) }
    {
        match taken_of(self.rt, piece) {
            Ok(n) => Ok(n),
            Err(error) => {
                self.faults = self.faults.saturating_add(1);
                self.cause = Some(error);
                Err(SinkFailed)
            }
        }
    }
}
