//! What runs with scripts write, row by row.

use crate::filters::{CALL, INC, REC};
use loom_io::memory::{Calls, Files, MemShelf, MemSink};
use loom_top::alone::loom_alone;
use loom_tree::name::{Name, NoMemory};
use std::alloc::Global;
use std::process::Abort;
use std::test::Fail;

/// A run of the program `p.lm` with the script `s.txt`.
pub(crate) struct Row {
    pub(crate) name: &'static str,
    pub(crate) program: &'static [u8],
    pub(crate) script: &'static [u8],
    pub(crate) status: u8,
    pub(crate) text: &'static [u8],
}

// A sum, printed.
const SUM: &[u8] = b"fn main() {\n  print 2 + 3;\n}\n";

const SUM_TEXT: &[u8] = b"5\n---\n1:1 begin\n1:2 print 5\n1:1 end\nfinish done\n";

// A thread locks its own mutex again.
const TWICE: &[u8] = b"mutex m;\nfn main() {\nlock m;\nlock m;\n}\n";

/// A loop with no end.
pub(crate) const LOOP: &[u8] = b"fn main() {\nwhile (1) {\nskip;\n}\n}\n";

const ROWS: [Row; 14] = [
    Row {
        name: "no command",
        program: SUM,
        script: b"",
        status: 0,
        text: SUM_TEXT,
    },
    Row {
        name: "lines that are skipped",
        program: SUM,
        script: b"# at 0 remove a\n\n \t \r\n\t#x",
        status: 0,
        text: SUM_TEXT,
    },
    Row {
        name: "no number",
        program: SUM,
        script: b"at x remove a",
        status: 3,
        text: b"script: line 1\n",
    },
    Row {
        name: "a line that is no command, behind others",
        program: SUM,
        script: b"at 0 remove a\n# c\nat 1 remove\nx",
        status: 3,
        text: b"script: line 3\n",
    },
    Row {
        name: "a stall, for now",
        program: SUM,
        script: b"\non stall remove a\n",
        status: 3,
        text: b"script: line 2\n",
    },
    Row {
        name: "a removal at once",
        program: SUM,
        script: b"at 0 remove a",
        status: 0,
        text: b"5\n---\nasked 1\nrefused 1 12 0\n1:1 begin\n1:2 print 5\n1:1 end\nfinish done\n",
    },
    Row {
        name: "a removal later, which goes before the next entry",
        program: SUM,
        script: b"at 1 remove a\r\n",
        status: 0,
        text: b"5\n---\n1:1 begin\nasked 1\nrefused 1 12 0\n1:2 print 5\n1:1 end\nfinish done\n",
    },
    Row {
        name: "a command whose number is passed already",
        program: SUM,
        script: b"at 2 remove a\nat 0 remove b\n",
        status: 0,
        text: b"5\n---\n1:1 begin\n1:2 print 5\nasked 1\nrefused 1 12 0\nasked 2\nrefused 2 12 0\n1:1 end\nfinish done\n",
    },
    Row {
        name: "a command behind the last entry",
        program: SUM,
        script: b"at 3 remove a",
        status: 0,
        text: b"5\n---\n1:1 begin\n1:2 print 5\n1:1 end\nasked 1\nrefused 1 12 0\nfinish done\n",
    },
    Row {
        name: "commands that are never due",
        program: SUM,
        script: b"at 4 remove a\nat 0 remove b",
        status: 0,
        text: b"5\n---\n1:1 begin\n1:2 print 5\n1:1 end\nunreached 1\nunreached 2\nfinish done\n",
    },
    Row {
        name: "a command where nobody can go on",
        program: TWICE,
        script: b"at 3 remove a\nat 4 remove a\n",
        status: 7,
        text: b"---\n1:2 begin\n1:3 lock 0\n1:4 blocked lock 0\nasked 1\nrefused 1 12 0\nunreached 2\nfinish stuck\n",
    },
    Row {
        name: "a region that calls can reach again",
        program: REC,
        script: b"at 0 install r f() <> *",
        status: 0,
        text: b"0\n---\nasked 1\nrefused 1 7 1\n1:6 begin\n1:8 print 0\n1:6 end\nfinish done\n",
    },
    Row {
        name: "regions that nest",
        program: CALL,
        script: b"at 1 install n {p.lm:8; p.lm:9} <> {p.lm:9; p.lm:10}",
        status: 0,
        text: b"14\n---\n1:5 begin\nasked 1\nrefused 1 8 1\n1:3 read 0 0\n1:3 write 0 1\n1:9 read 0 1\n1:9 write 0 2\n1:3 read 0 2\n1:3 write 0 3\n1:9 read 0 3\n1:9 write 0 6\n1:3 read 0 6\n1:3 write 0 7\n1:9 read 0 7\n1:9 write 0 14\n1:12 read 0 14\n1:12 print 14\n1:5 end\nfinish done\n",
    },
    Row {
        name: "a name that words of the language have",
        program: SUM,
        script: b"at 0 install while {p.lm:2; p.lm:2} <> *\nat 0 remove while\n",
        status: 0,
        text: b"5\n---\nasked 1\nrefused 1 15 1\nasked 2\nrefused 2 12 0\n1:1 begin\n1:2 print 5\n1:1 end\nfinish done\n",
    },
];

/// The same with a limit.
const LIMIT_ROWS: [(Row, &str); 4] = [
    (
        Row {
            name: "a command that is due at the limit",
            program: SUM,
            script: b"at 3 remove a\n",
            status: 8,
            text: b"5\n---\n1:1 begin\n1:2 print 5\n1:1 end\nunreached 1\nfinish limit\n",
        },
        "3",
    ),
    (
        Row {
            name: "a command before the limit",
            program: SUM,
            script: b"at 2 remove a\n",
            status: 8,
            text: b"5\n---\n1:1 begin\n1:2 print 5\nasked 1\nrefused 1 12 0\n1:1 end\nfinish limit\n",
        },
        "3",
    ),
    (
        Row {
            name: "a loop with no end",
            program: LOOP,
            script: b"at 0 install a main() <> *\nat 9 remove a",
            status: 8,
            text: b"---\nasked 1\nrefused 1 15 1\n1:1 begin\n1:2 tick 3\n1:2 tick 3\nunreached 2\nfinish limit\n",
        },
        "3",
    ),
    (
        Row {
            name: "one command, behind the limit",
            program: LOOP,
            script: b"at 9 remove a",
            status: 8,
            text: b"---\n1:1 begin\n1:2 tick 3\n1:2 tick 3\n1:2 tick 3\n1:2 tick 3\nunreached 1\nfinish limit\n",
        },
        "5",
    ),
];

/// Filters of the program with two threads, and how each is refused.
const INSTALLS: [(&str, &str); 12] = [
    ("{inc.lm:3; inc.lm:3} <> *; inc.lm:4 > inc.lm:3", "3 2"),
    ("", "1 1"),
    ("other.lm:3 > inc.lm:7", "2 1"),
    ("inc.lm:3 (x > 0) > inc.lm:7", "4 1"),
    ("inc.lm:3 > inc.lm:7{2}", "5 1"),
    ("{inc.lm:3; inc.lm:7}", "6 1"),
    ("inc.lm:3 > inc.lm:7 > inc.lm:3", "9 1"),
    ("g() <> *", "10 1"),
    (
        "add(); add(); add(); add(); add(); add(); add(); add(); add()",
        "13 9",
    ),
    (
        "add();add();add();add();add();add();add();add();add();add();",
        "1 9",
    ),
    ("inc.lm:7 > inc.lm:3", "15 1"),
    ("add() <> *; inc.lm:7{2} > inc.lm:3", "15 1"),
];

const INC_ENTRIES: &str =
    "1:5 begin\n1:6 spawn 2 0\n2:2 begin\n1:7 read 0 0\n2:3 read 0 0\n1:7 write 0 1\n2:3 write 0 1\n1:8 blocked join 2\n2:2 end\n1:8 join 2\n1:9 read 0 1\n1:9 print 1\n1:5 end\nfinish done\n";

/// A shelf of a program and a script.
pub(crate) fn shelf_with(
    alloc: Global,
    name: &[u8],
    program: &[u8],
    script: &[u8],
) -> Result<MemShelf, NoMemory> {
    let mut files = Vec::new(alloc);
    files.push((Name::copied(alloc, name)?, Name::copied(alloc, program)?))?;
    files.push((Name::copied(alloc, b"s.txt")?, Name::copied(alloc, script)?))?;
    Ok(MemShelf {
        files: Files(files),
        failing: Calls(Vec::new(alloc)),
        calls: 0,
        faults: 0,
    })
}

/// Runs the program and the script of a row.
pub(crate) fn run_row<R: Abort + AllocGlobal>(
    rt: &R,
    row: &Row,
    words: &[&str],
) -> Result<(), Fail> {
    let name = row.name;
    let mut shelf = shelf_with(rt.alloc(), b"p.lm", row.program, row.script)?;
    let mut sink = MemSink::make(rt.alloc(), 4096, 4096)?;
    let status = loom_alone(rt.alloc(), words, &mut shelf, &mut sink);
    assert_eq!(rt; status, row.status, "in the row of {name}");
    assert_eq!(rt; sink.taken.bytes(), row.text, "in the row of {name}");
    Ok(())
}

/// The same of each row.
pub(crate) fn run_rows<R: Abort + AllocGlobal>(
    rt: &R,
    rows: &[Row],
    words: &[&str],
) -> Result<(), Fail> {
    for row in rows {
        run_row(rt, row, words)?;
    }
    Ok(())
}

/// The same with the limit of each.
pub(crate) fn run_limit_rows<R: Abort + AllocGlobal>(
    rt: &R,
    rows: &[(Row, &str)],
) -> Result<(), Fail> {
    for (row, steps) in rows {
        run_row(rt, row, &["run", "p.lm", "s.txt", "--steps", *steps])?;
    }
    Ok(())
}

#[test]
fn runs_scripts(rt: HostRuntime) -> Result<(), Fail> {
    run_rows(&rt, &ROWS, &["run", "p.lm", "s.txt"])?;
    run_limit_rows(&rt, &LIMIT_ROWS)
}

// The name of a file is what stands behind the last `/` of its word.
#[test]
fn refuses_installs(rt: HostRuntime) -> Result<(), Fail> {
    for name in ["inc.lm", "a/b.lm/inc.lm"] {
        for (filter, reason) in &INSTALLS {
            let script = format!(in rt.alloc(); "at 0 install a {filter}\n")?;
            let wanted = format!(in rt.alloc();
                "1\n---\nasked 1\nrefused 1 {reason}\n{INC_ENTRIES}"
            )?;
            let mut shelf = shelf_with(rt.alloc(), name.as_bytes(), INC, script.as_bytes())?;
            let mut sink = MemSink::make(rt.alloc(), 4096, 4096)?;
            let words = ["run", name, "s.txt"];
            let status = loom_alone(rt.alloc(), &words, &mut shelf, &mut sink);
            assert_eq!(rt; status, 0, "with the filter {filter}");
            assert_eq!(rt;
                sink.taken.bytes(),
                wanted.as_bytes(),
                "with the filter {filter}"
            );
        }
    }
    Ok(())
}

// With 64 commands each is answered, and with one more the script is none.
#[test]
fn takes_many_commands(rt: HostRuntime) -> Result<(), Fail> {
    let mut script = Vec::new(rt.alloc());
    let mut wanted = Vec::new(rt.alloc());
    wanted.extend_from_slice(b"5\n---\n")?;
    for number in 1u32..65 {
        script.extend_from_slice(b"at 0 remove a\n")?;
        let text = format!(in rt.alloc(); "asked {number}\nrefused {number} 12 0\n")?;
        wanted.extend_from_slice(text.as_bytes())?;
    }
    wanted.extend_from_slice(b"1:1 begin\n1:2 print 5\n1:1 end\nfinish done\n")?;
    let words = ["run", "p.lm", "s.txt"];
    let mut shelf = shelf_with(rt.alloc(), b"p.lm", SUM, &script)?;
    let mut sink = MemSink::make(rt.alloc(), 4096, 4096)?;
    let status = loom_alone(rt.alloc(), &words, &mut shelf, &mut sink);
    assert_eq!(rt; status, 0);
    assert_eq!(rt; sink.taken.bytes(), wanted.as_slice());
    script.extend_from_slice(b"at 0 remove a\n")?;
    let mut longer = shelf_with(rt.alloc(), b"p.lm", SUM, &script)?;
    let mut other = MemSink::make(rt.alloc(), 4096, 4096)?;
    let status = loom_alone(rt.alloc(), &words, &mut longer, &mut other);
    assert_eq!(rt; status, 3);
    assert_eq!(rt; other.taken.bytes(), "script: line 65\n".as_bytes());
    Ok(())
}

// A script is looked at behind the program: where that isn't there, is too long or is none, nothing is said of the script.
#[test]
fn tells_faults_of_scripts(rt: HostRuntime) -> Result<(), Fail> {
    let most = vec![in rt.alloc(); b' '; 65536]?;
    let spaces = vec![in rt.alloc(); b' '; 65537]?;
    let rows: [(&[u8], &[u8], &[&str], u8, &[u8]); 8] = [
        (
            SUM,
            b"",
            &["run", "p.lm", "t.txt"],
            4,
            b"read fault: t.txt\n",
        ),
        (
            SUM,
            &spaces,
            &["run", "p.lm", "s.txt"],
            10,
            b"too long: s.txt\n",
        ),
        (SUM, &most, &["run", "p.lm", "s.txt"], 0, SUM_TEXT),
        (
            b"x",
            &spaces,
            &["run", "p.lm", "s.txt"],
            2,
            b"program: line 1: 1 Syntax\n",
        ),
        (
            b"x",
            b"",
            &["run", "p.lm", "t.txt"],
            2,
            b"program: line 1: 1 Syntax\n",
        ),
        (
            &spaces,
            b"x",
            &["run", "p.lm", "s.txt"],
            10,
            b"too long: p.lm\n",
        ),
        (
            SUM,
            b"x",
            &["run", "q.lm", "s.txt"],
            4,
            b"read fault: q.lm\n",
        ),
        (
            SUM,
            b"at 0 remove a\n",
            &["run", "p.lm", "-s.txt"],
            1,
            b"usage\n",
        ),
    ];
    for (i, (program, script, words, wanted, text)) in rows.iter().enumerate() {
        let mut shelf = shelf_with(rt.alloc(), b"p.lm", *program, *script)?;
        let mut sink = MemSink::make(rt.alloc(), 4096, 4096)?;
        let status = loom_alone(rt.alloc(), *words, &mut shelf, &mut sink);
        assert_eq!(rt; status, *wanted, "in row {i}");
        assert_eq!(rt; sink.taken.bytes(), *text, "in row {i}");
    }
    let mut shelf = shelf_with(rt.alloc(), b"p.lm", SUM, b"")?;
    shelf.failing.0.push(2)?;
    let mut sink = MemSink::make(rt.alloc(), 4096, 3)?;
    let status = loom_alone(rt.alloc(), &["run", "p.lm", "s.txt"], &mut shelf, &mut sink);
    assert_eq!(rt; status, 4);
    assert_eq!(rt; sink.taken.bytes(), "read fault: s.txt\n".as_bytes());
    Ok(())
}
