//! What `show` writes of filters, row by row.

use crate::scripts::shelf_with;
use loom_io::memory::MemSink;
use loom_top::alone::loom_alone;
use std::process::Abort;
use std::test::Fail;

/// Two threads that add to a word.
pub(crate) const INC: &[u8] =
    b"shared x;\nfn add() {\n  x = x + 1;\n}\nfn main() {\n  let a = spawn add();\n  x = x + 1;\n  join a;\n  print x;\n}\n";

/// A loop with a call.
pub(crate) const CALL: &[u8] =
    b"shared x;\nfn step() {\n  x = x + 1;\n}\nfn main() {\n  let i = 0;\n  while (i < 3) {\n    step();\n    x = x * 2;\n    i = i + 1;\n  }\n  print x;\n}\n";

/// A function that calls itself.
pub(crate) const REC: &[u8] =
    b"fn f(n) {\nif (n > 0) {\nf(n - 1);\n}\n}\nfn main() {\nf(2);\nprint 0;\n}\n";

/// A filter, and what is written of it.
struct Row {
    filter: &'static str,
    text: &'static [u8],
}

const INC_ROWS: [Row; 12] = [
    Row {
        filter: "",
        text: b"refused 1 1\n",
    },
    Row {
        filter: "{inc.lm:3; inc.lm:3} <> *; inc.lm:4 > inc.lm:3",
        text: b"refused 3 2\n",
    },
    Row {
        filter: "other.lm:3 > inc.lm:7",
        text: b"refused 2 1\n",
    },
    Row {
        filter: "inc.lm:3 (x > 0) > inc.lm:7",
        text: b"refused 4 1\n",
    },
    Row {
        filter: "inc.lm:3 > inc.lm:7{2}",
        text: b"refused 5 1\n",
    },
    Row {
        filter: "{inc.lm:3; inc.lm:7}",
        text: b"refused 6 1\n",
    },
    Row {
        filter: "inc.lm:3 > inc.lm:7 > inc.lm:3",
        text: b"refused 9 1\n",
    },
    Row {
        filter: "g() <> *",
        text: b"refused 10 1\n",
    },
    Row {
        filter: "add(); add(); add(); add(); add(); add(); add(); add(); add()",
        text: b"refused 13 9\n",
    },
    Row {
        filter: "add();add();add();add();add();add();add();add();add();add();",
        text: b"refused 1 9\n",
    },
    Row {
        filter: "add() <> *; inc.lm:7 > inc.lm:3{2}",
        text: b"refused 5 2\n",
    },
    Row {
        filter: "add() <> *; inc.lm:7{2} > inc.lm:3",
        text: b"clauses 2\nevent 1 line 2\nevent 2 line 7\nevent 3 line 3\nunsafe 2 line 3\nunsafe 3 line 2\nunsafe 6 line 7\n",
    },
];

const CALL_ROWS: [Row; 7] = [
    Row {
        filter: "{call.lm:8; call.lm:9} <> *",
        text: b"clauses 1\nevent 1 line 8\nevent 2 line 9\nunsafe 1 line 2\nunsafe 2 line 3\nunsafe 3 line 2\nunsafe 8 line 8\nunsafe 9 line 9\n",
    },
    Row {
        filter: "step() <> *; {call.lm:8; call.lm:10} <> {call.lm:9; call.lm:9}",
        text: b"refused 8 2\n",
    },
    Row {
        filter: "{call.lm:8; call.lm:9} <> {call.lm:9; call.lm:10}",
        text: b"refused 8 1\n",
    },
    // what stands in a loop, and its back edge
    Row {
        filter: "call.lm:7 > call.lm:12",
        text: b"clauses 1\nevent 1 line 7\nevent 2 line 12\nunsafe 1 line 2\nunsafe 2 line 3\nunsafe 3 line 2\nunsafe 6 line 7\nunsafe 7 line 7\nunsafe 8 line 8\nunsafe 9 line 9\nunsafe 10 line 10\nunsafe 11 line 12\n",
    },
    // where a function is left, and not where it is entered
    Row {
        filter: "main() <> *",
        text: b"clauses 1\nevent 1 line 5\nunsafe 1 line 2\nunsafe 2 line 3\nunsafe 3 line 2\nunsafe 5 line 6\nunsafe 6 line 7\nunsafe 7 line 7\nunsafe 8 line 8\nunsafe 9 line 9\nunsafe 10 line 10\nunsafe 11 line 12\nunsafe 12 line 5\n",
    },
    // the first clause is refused for its paths, the second for its text or for what it names
    Row {
        filter: "step() <> main(); call.lm:8 > call.lm:9{2}",
        text: b"refused 5 2\n",
    },
    Row {
        filter: "step() <> main(); call.lm:8 > call.lm:4",
        text: b"refused 3 2\n",
    },
];

const REC_ROWS: [Row; 2] = [
    Row {
        filter: "f() <> *",
        text: b"refused 7 1\n",
    },
    // in a region of `main` it may call itself
    Row {
        filter: "{rec.lm:7; rec.lm:8} <> *",
        text: b"clauses 1\nevent 1 line 7\nevent 2 line 8\nunsafe 1 line 1\nunsafe 2 line 2\nunsafe 3 line 3\nunsafe 4 line 1\nunsafe 6 line 7\nunsafe 7 line 8\n",
    },
];

fn show_rows<R: Abort + AllocGlobal>(
    rt: &R,
    file: &'static str,
    program: &[u8],
    rows: &[Row],
) -> Result<(), Fail> {
    for row in rows {
        let filter = row.filter;
        let mut shelf = shelf_with(rt.alloc(), file.as_bytes(), program, b"")?;
        let mut sink = MemSink::make(rt.alloc(), 4096, 4096)?;
        let words = ["show", file, filter];
        let status = loom_alone(rt.alloc(), &words, &mut shelf, &mut sink);
        assert_eq!(rt; status, 0, "with the filter {filter}");
        assert_eq!(rt; sink.taken.bytes(), row.text, "with the filter {filter}");
    }
    Ok(())
}

// The name of a file is what stands behind the last `/` of its word.
#[test]
fn shows_filters(rt: HostRuntime) -> Result<(), Fail> {
    show_rows(&rt, "inc.lm", INC, &INC_ROWS)?;
    show_rows(&rt, "call.lm", CALL, &CALL_ROWS)?;
    show_rows(&rt, "a/b.lm/call.lm", CALL, &CALL_ROWS)?;
    show_rows(&rt, "rec.lm", REC, &REC_ROWS)
}

// A text of 65,536 bytes is the last that is a filter's.
#[test]
fn takes_long_filters(rt: HostRuntime) -> Result<(), Fail> {
    let cases: [(usize, u8, &[u8]); 2] = [(65_536, 0, b"refused 1 1\n"), (65_537, 1, b"usage\n")];
    for (length, wanted, text) in cases {
        let mut texts = Vec::new(rt.alloc());
        for part in ["show", "inc.lm"] {
            let mut word = String::new(rt.alloc());
            word.push_str(part)?;
            texts.push(word)?;
        }
        let mut filter = String::new(rt.alloc());
        for _ in 0..length {
            filter.push(' ')?;
        }
        texts.push(filter)?;
        let mut words = Vec::new(rt.alloc());
        for word in &texts {
            words.push(word.as_str())?;
        }
        let mut shelf = shelf_with(rt.alloc(), b"inc.lm", INC, b"")?;
        let mut sink = MemSink::make(rt.alloc(), 4096, 4096)?;
        let status = loom_alone(rt.alloc(), &words, &mut shelf, &mut sink);
        assert_eq!(rt; status, wanted, "with {length} bytes");
        assert_eq!(rt; sink.taken.bytes(), text, "with {length} bytes");
    }
    Ok(())
}

// All statements of the longest program are loops of `main`: each place but the entry is unsafe.
#[test]
fn shows_the_most_places(rt: HostRuntime) -> Result<(), Fail> {
    let mut program = Vec::new(rt.alloc());
    let mut wanted = Vec::new(rt.alloc());
    program.extend_from_slice(b"fn main() {\n")?;
    wanted.extend_from_slice(b"clauses 1\nevent 1 line 1\n")?;
    for line in 2u32..4098 {
        program.extend_from_slice(b"while(1){}\n")?;
        let place = 2 * (line - 1);
        let edge = place + 1;
        let text = format!(in rt.alloc();
            "unsafe {place} line {line}\nunsafe {edge} line {line}\n"
        )?;
        wanted.extend_from_slice(text.as_bytes())?;
    }
    program.extend_from_slice(b"}\n")?;
    wanted.extend_from_slice(b"unsafe 8194 line 1\n")?;
    let mut shelf = shelf_with(rt.alloc(), b"p.lm", &program, b"")?;
    let mut sink = MemSink::make(rt.alloc(), 262_144, 262_144)?;
    let words = ["show", "p.lm", "main() <> *"];
    let status = loom_alone(rt.alloc(), &words, &mut shelf, &mut sink);
    assert_eq!(rt; status, 0);
    assert_eq!(rt; sink.taken.bytes(), wanted.as_slice());
    Ok(())
}
