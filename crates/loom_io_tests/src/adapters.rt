//! The files of the system and standard output, or an output in its place.

use loom_io::adapters::{DirShelf, OutSink};
use loom_io::shelf::{LARGEST_LIMIT, Shelf, ShelfError};
use loom_io::sink::{Sink, SinkFailed};
use std::fmt::Display;
use std::io::{ErrorKind, Print};
use std::test::Fail;
use std::{fs, io};

#[test]
fn reads_files_of_the_system(rt: HostRuntime) -> Result<(), Fail> {
    let name = "loom_io_test.lm";
    fs::write(&rt, name, "fn main() {}\n")?;
    let mut shelf = DirShelf {
        rt: &rt,
        faults: 0,
        cause: None,
    };
    let whole = shelf.read(rt.alloc(), name, 100);
    let front = shelf.read(rt.alloc(), name, 6);
    let most = shelf.read(rt.alloc(), name, LARGEST_LIMIT);
    fs::remove_file(&rt, name)?;
    assert_eq!(rt; whole?.bytes(), "fn main() {}\n".as_bytes());
    assert_eq!(rt; most?.bytes(), "fn main() {}\n".as_bytes());
    assert_eq!(rt; front?.bytes(), "fn main".as_bytes());
    assert_eq!(rt; shelf.faults, 0);
    assert!(rt; shelf.cause.is_none());
    let missing = shelf.read(rt.alloc(), name, 100).err();
    assert_eq!(rt; missing, Some(ShelfError::Failed));
    assert_eq!(rt; shelf.faults, 1);
    assert!(rt;
        shelf
            .cause
            .is_some_and(|cause| cause.kind() == ErrorKind::NotFound)
    );
    Ok(())
}

// A directory is opened, and its read fails.
#[test]
fn fails_where_a_read_fails(rt: HostRuntime) -> Result<(), Fail> {
    let mut shelf = DirShelf {
        rt: &rt,
        faults: 0,
        cause: None,
    };
    let cause = shelf.read(rt.alloc(), ".", 100).err();
    assert_eq!(rt; cause, Some(ShelfError::Failed));
    assert_eq!(rt; shelf.faults, 1);
    Ok(())
}

#[test]
fn writes_a_line(rt: HostRuntime) -> Result<(), Fail> {
    let mut sink = OutSink {
        rt: &rt,
        faults: 0,
        cause: None,
    };
    assert_eq!(rt; sink.put(b"line\n")?, 5);
    assert_eq!(rt; sink.faults, 0);
    Ok(())
}

// An output that takes at most so many bytes a call, or fails.
#[derive(Drop)]
enum Output {
    Takes(usize),
    Fails,
}

impl Print for Output {
    fn print<D: Display + Drop>(&self, _value: D) -> io::Result<()> {
        Err(io::Error::from(ErrorKind::Unsupported))
    }

    fn println<D: Display + Drop>(&self, _value: D) -> io::Result<()> {
        Err(io::Error::from(ErrorKind::Unsupported))
    }

    fn write_all(&self, _bytes: &[u8]) -> io::Result<()> {
        Err(io::Error::from(ErrorKind::Unsupported))
    }

    fn write_some(&self, bytes: &[u8]) -> io::Result<usize> {
        match self {
            Output::Takes(most) => Ok(bytes.len().min(*most)),
            Output::Fails => Err(io::Error::from(ErrorKind::BrokenPipe)),
        }
    }
}

#[test]
fn tells_what_the_output_took(rt: HostRuntime) -> Result<(), Fail> {
    let rows = [
        (Output::Takes(9), Ok(5), 0, None),
        (Output::Takes(2), Ok(2), 0, None),
        (
            Output::Takes(0),
            Err(SinkFailed),
            1,
            Some(ErrorKind::WriteZero),
        ),
        (
            Output::Fails,
            Err(SinkFailed),
            1,
            Some(ErrorKind::BrokenPipe),
        ),
    ];
    for (i, (output, told, faults, kind)) in rows.iter().enumerate() {
        let mut sink = OutSink {
            rt: output,
            faults: 0,
            cause: None,
        };
        assert_eq!(rt; sink.put(b"line\n"), *told, "in row {i}");
        assert_eq!(rt; sink.faults, *faults, "in row {i}");
        assert!(rt; sink.cause.map(|cause| cause.kind()) == *kind, "in row {i}");
    }
    Ok(())
}
