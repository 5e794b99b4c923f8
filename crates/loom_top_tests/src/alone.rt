//! The top call on shelves and sinks in memory.

use crate::rows::{ROWS, Row, SUM};
use crate::threads;
use crate::watch::Watch;
use loom_io::memory::{Calls, Files, MemShelf, MemSink};
use loom_top::alone::loom_alone;
use loom_tree::name::{Name, NoMemory};
use std::alloc::Global;
use std::process::Abort;
use std::test::Fail;

/// A shelf of one file.
pub(crate) fn shelf_of(alloc: Global, name: &[u8], bytes: &[u8]) -> Result<MemShelf, NoMemory> {
    let mut files = Vec::new(alloc);
    files.push((Name::copied(alloc, name)?, Name::copied(alloc, bytes)?))?;
    Ok(MemShelf {
        files: Files(files),
        failing: Calls(Vec::new(alloc)),
        calls: 0,
        faults: 0,
    })
}

/// What the words write where the file `p.lm` has these bytes, and the status.
pub(crate) fn answer_of(
    alloc: Global,
    bytes: &[u8],
    words: &[&str],
) -> Result<(u8, Name), NoMemory> {
    let mut shelf = shelf_of(alloc, b"p.lm", bytes)?;
    let mut sink = MemSink::make(alloc, 4096, 4096)?;
    let status = loom_alone(alloc, words, &mut shelf, &mut sink);
    Ok((status, Name::copied(alloc, sink.taken.bytes())?))
}

fn run_rows<R: Abort + AllocGlobal>(rt: &R, rows: &[Row]) -> Result<(), Fail> {
    for row in rows {
        let (status, text) = answer_of(rt.alloc(), row.program, row.words)?;
        let name = row.name;
        assert_eq!(rt; status, row.status, "in the row of {name}");
        assert_eq!(rt; text.bytes(), row.text, "in the row of {name}");
    }
    Ok(())
}

#[test]
fn runs_one_thread(rt: HostRuntime) -> Result<(), Fail> {
    run_rows(&rt, &ROWS)
}

#[test]
fn runs_several_threads(rt: HostRuntime) -> Result<(), Fail> {
    run_rows(&rt, &threads::ROWS)
}

#[test]
fn refuses_what_is_no_program(rt: HostRuntime) -> Result<(), Fail> {
    let spaces = vec![in rt.alloc(); b' '; 65536]?;
    let texts: [(&[u8], &[u8]); 9] = [
        (b"", b"program: line 1: 6 NoMain\n"),
        (&spaces, b"program: line 1: 6 NoMain\n"),
        (b"fn main() { print 1 }", b"program: line 1: 1 Syntax\n"),
        (
            b"fn main() {\nskip; print 1;\n}\n",
            b"program: line 2: 2 SecondOnLine\n",
        ),
        (
            b"fn main() {\nx = 1;\n}\n",
            b"program: line 2: 3 UnknownName\n",
        ),
        (
            b"shared x;\nshared x;\nfn main() {\n}\n",
            b"program: line 2: 4 NameTwice\n",
        ),
        (
            b"fn main() {\nlet v = 1;\nlet v = x;\n}\n",
            b"program: line 3: 3 UnknownName\n",
        ),
        (
            b"shared m;\nfn main() {\nlock m;\n}\n",
            b"program: line 3: 3 UnknownName\n",
        ),
        (
            b"fn f(a) {\n}\nfn main() {\nlet t = spawn f();\n}\n",
            b"program: line 4: 5 WrongCount\n",
        ),
    ];
    for (i, (bytes, written)) in texts.iter().enumerate() {
        let (status, text) = answer_of(rt.alloc(), *bytes, &["run", "p.lm"])?;
        assert_eq!(rt; status, 2, "in row {i}");
        assert_eq!(rt; text.bytes(), *written, "in row {i}");
    }
    Ok(())
}

#[test]
fn tells_a_long_file(rt: HostRuntime) -> Result<(), Fail> {
    let spaces = vec![in rt.alloc(); b' '; 65537]?;
    let (status, text) = answer_of(rt.alloc(), &spaces, &["run", "p.lm"])?;
    assert_eq!(rt; status, 10);
    assert_eq!(rt; text.bytes(), "too long: p.lm\n".as_bytes());
    Ok(())
}

#[test]
fn tells_other_words(rt: HostRuntime) -> Result<(), Fail> {
    let lists: [&[&str]; 19] = [
        &[],
        &["run"],
        &["run", ""],
        &["run", "-p.lm"],
        &["run", "-0"],
        &["walk", "p.lm"],
        &["walk", "p.lm", "p.lm"],
        &["run", "p.lm", ""],
        &["run", "p.lm", "-p.lm"],
        &["run", "p.lm", "p.lm", "p.lm"],
        &["run", "p.lm", "p.lm", "--steps"],
        &["run", "p.lm", "--steps", "5", "p.lm"],
        &["run", "p.lm", "p.lm", "--steps", "5", "p.lm"],
        &["run", "p.lm", "--steps"],
        &["run", "p.lm", "--step", "5"],
        &["run", "--steps", "5", "p.lm"],
        &["run", "-p.lm", "--steps", "5"],
        &["walk", "p.lm", "--steps", "5"],
        &["run", "p.lm", "--steps", "5", "--steps", "5"],
    ];
    for (i, words) in lists.iter().enumerate() {
        let (status, text) = answer_of(rt.alloc(), SUM, *words)?;
        assert_eq!(rt; status, 1, "in row {i}");
        assert_eq!(rt; text.bytes(), "usage\n".as_bytes(), "in row {i}");
    }
    Ok(())
}

#[test]
fn tells_other_limits(rt: HostRuntime) -> Result<(), Fail> {
    let limits = [
        "",
        "0",
        "01",
        "+5",
        "-5",
        "-0",
        " 5",
        "5 ",
        "5x",
        "1000001",
        "4294967301",
    ];
    for limit in limits {
        let (status, text) = answer_of(rt.alloc(), SUM, &["run", "p.lm", "--steps", limit])?;
        assert_eq!(rt; status, 1, "with {limit}");
        assert_eq!(rt; text.bytes(), "usage\n".as_bytes(), "with {limit}");
    }
    Ok(())
}

// The words are tested first: where they are an invocation, the file is missed.
#[test]
fn takes_limits(rt: HostRuntime) -> Result<(), Fail> {
    for limit in ["1", "9", "10", "100000", "999999", "1000000"] {
        let words = ["run", "other.lm", "--steps", limit];
        let (status, text) = answer_of(rt.alloc(), SUM, &words)?;
        assert_eq!(rt; status, 4, "with {limit}");
        assert_eq!(rt;
            text.bytes(),
            "read fault: other.lm\n".as_bytes(),
            "with {limit}"
        );
    }
    Ok(())
}

#[test]
fn tells_a_read_fault(rt: HostRuntime) -> Result<(), Fail> {
    let mut shelf = shelf_of(rt.alloc(), b"p.lm", SUM)?;
    let mut sink = MemSink::make(rt.alloc(), 100, 3)?;
    assert_eq!(rt;
        loom_alone(rt.alloc(), &["run", "other.lm"], &mut shelf, &mut sink),
        4
    );
    assert_eq!(rt; sink.taken.bytes(), "read fault: other.lm\n".as_bytes());
    shelf.failing.0.push(2)?;
    let mut again = MemSink::make(rt.alloc(), 100, 100)?;
    assert_eq!(rt;
        loom_alone(rt.alloc(), &["run", "p.lm"], &mut shelf, &mut again),
        4
    );
    assert_eq!(rt; again.taken.bytes(), "read fault: p.lm\n".as_bytes());
    Ok(())
}

#[test]
fn tells_a_write_fault(rt: HostRuntime) -> Result<(), Fail> {
    let spaces = vec![in rt.alloc(); b' '; 65537]?;
    let cases: [(&[u8], u64, &[u8]); 6] = [
        (SUM, 1, b""),
        (SUM, 2, b"5\n--"),
        (SUM, 3, b"5\n---\n1:"),
        (SUM, 4, b"5\n---\n1:1 be"),
        (&spaces, 3, b"too long"),
        (&spaces, 5, b"too long: p.lm"),
    ];
    for (bytes, call, front) in cases {
        let mut shelf = shelf_of(rt.alloc(), b"p.lm", bytes)?;
        let mut sink = MemSink::make(rt.alloc(), 100, 4)?;
        sink.failing.0.push(call)?;
        assert_eq!(rt;
            loom_alone(rt.alloc(), &["run", "p.lm"], &mut shelf, &mut sink),
            5
        );
        assert_eq!(rt; sink.taken.bytes(), front, "at call {call}");
    }
    Ok(())
}

// The file of the program is read once, with its limit, and so is the script, if one is named, and no
// other file; none is, where the words are no invocation.
#[test]
fn reads_the_file_alone(rt: HostRuntime) -> Result<(), Fail> {
    let rows: [(&[&str], u32, u32); 7] = [
        (&["run", "p.lm"], 1, 0),
        (&["run", "p.lm", "s.txt"], 1, 1),
        (&["run", "p.lm", "p.lm", "--steps", "3"], 2, 0),
        (&["show", "p.lm"], 1, 0),
        (&["show", "p.lm", "main()"], 1, 0),
        (&["run", "p.lm", "--steps", "3"], 1, 0),
        (&["walk", "p.lm"], 0, 0),
    ];
    for (i, (words, reads, others)) in rows.iter().enumerate() {
        let mut shelf = Watch {
            text: SUM,
            right: 0,
            other: 0,
        };
        let mut sink = MemSink::make(rt.alloc(), 100, 100)?;
        loom_alone(rt.alloc(), *words, &mut shelf, &mut sink);
        assert_eq!(rt; (shelf.right, shelf.other), (*reads, *others), "in row {i}");
    }
    Ok(())
}

// With ample memory the largest limit and the longest program make no trouble.
#[test]
fn has_memory_at_each_limit(rt: HostRuntime) -> Result<(), Fail> {
    let mut long = Vec::new(rt.alloc());
    long.extend_from_slice(SUM)?;
    long.resize(65_536, b' ')?;
    for limit in ["4", "100000", "1000000"] {
        let (status, text) = answer_of(rt.alloc(), &long, &["run", "p.lm", "--steps", limit])?;
        assert_eq!(rt; status, 0, "with {limit}");
        assert_eq!(rt; text.bytes(), ROWS[0].text, "with {limit}");
    }
    Ok(())
}
