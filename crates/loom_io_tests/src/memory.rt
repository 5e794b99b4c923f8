//! Files in memory, and sinks of chosen rooms.
ghost use Rattle.std.specs.Prelude.{◌≤◌};

use loom_io::memory::{Calls, Files, MemShelf, MemSink};
use loom_io::shelf::{LARGEST_LIMIT, Shelf, ShelfError};
use loom_io::sink::Sink;
use loom_tree::name::{Name, NoMemory};
use std::alloc::Global;
use std::test::Fail;

fn shelf(alloc: Global) -> Result<MemShelf, NoMemory> {
    let mut files = Vec::new(alloc);
    for (name, bytes) in [
        ("a.lm", "fn main() {}"),
        ("b.lm", "more"),
        ("a.lm", "later"),
    ] {
        files.push((
            Name::copied(alloc, name.as_bytes())?,
            Name::copied(alloc, bytes.as_bytes())?,
        ))?;
    }
    let mut failing = Vec::new(alloc);
    failing.push(3)?;
    Ok(MemShelf {
        files: Files(files),
        failing: Calls(failing),
        calls: 0,
        faults: 0,
    })
}

#[test]
fn reads_files(rt: HostRuntime) -> Result<(), Fail> {
    let alloc = rt.alloc();
    let mut shelf = shelf(alloc)?;
    assert_eq!(rt;
        shelf.read(alloc, "a.lm", 12)?.bytes(),
        "fn main() {}".as_bytes()
    );
    assert_eq!(rt; shelf.read(alloc, "b.lm", 2)?.bytes(), "mor".as_bytes());
    assert_eq!(rt; shelf.faults, 0);
    assert_eq!(rt;
        shelf.read(alloc, "b.lm", 4).err(),
        Some(ShelfError::Failed),
        "the third call"
    );
    assert_eq!(rt; shelf.read(alloc, "b.lm", 4)?.bytes(), "more".as_bytes());
    assert_eq!(rt;
        shelf.read(alloc, "c.lm", 4).err(),
        Some(ShelfError::Failed),
        "no such file"
    );
    assert_eq!(rt; shelf.calls, 5);
    assert_eq!(rt; shelf.faults, 2);
    Ok(())
}

// A file of so many bytes, read with a limit.
fn read_of(alloc: Global, len: usize, limit: usize) -> Result<usize, ShelfError>
    requires { limit ≤ LARGEST_LIMIT }
{
    let mut files = Vec::new(alloc);
    let bytes = vec![in alloc; b' '; len].or(Err(NoMemory))?;
    let name = Name::copied(alloc, b"a.lm")?;
    if files.push((name, Name(bytes))).is_err() {
        return Err(ShelfError::NoMemory);
    }
    let mut shelf = MemShelf {
        files: Files(files),
        failing: Calls(Vec::new(alloc)),
        calls: 0,
        faults: 0,
    };
    Ok(shelf.read(alloc, "a.lm", limit)?.bytes().len())
}

// How many of 65,537 bytes a sink with so much room takes.
fn taken_of(alloc: Global, room: usize) -> Result<usize, NoMemory> {
    let piece = vec![in alloc; b' '; 65_537].or(Err(NoMemory))?;
    let mut sink = MemSink::make(alloc, room, 65_537)?;
    Ok(sink.put(piece.as_slice()).unwrap_or(0))
}

#[test]
fn has_memory_at_each_limit(rt: HostRuntime) -> Result<(), Fail> {
    let rows = [
        (0, 0, 0),
        (1, 0, 1),
        (65_536, 65_536, 65_536),
        (65_537, 65_536, 65_537),
        (67_108_865, 67_108_864, 67_108_865),
    ];
    for (len, limit, read) in rows {
        assert_eq!(rt;
            read_of(rt.alloc(), len, limit),
            Ok(read),
            "a file of {len} bytes"
        );
    }
    let rooms = [
        (0, 0),
        (1, 1),
        (4096, 4096),
        (65_536, 65_536),
        (67_108_864, 65_537),
    ];
    for (room, taken) in rooms {
        assert_eq!(rt; taken_of(rt.alloc(), room), Ok(taken), "room {room}");
    }
    Ok(())
}
