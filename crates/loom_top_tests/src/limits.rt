//! Programs at the limits of the language: what has the most that it may have is run, and with one
//! more it is refused.

use crate::alone::answer_of;
use loom_trace::line::Line;
use loom_trace::text::put_printed;
use loom_tree::name::NoMemory;
use std::alloc::Global;
use std::test::Fail;

/// A limit, by programs that have a number of pieces twice.
struct Row {
    /// What there is a limit of.
    what: &'static str,
    before: &'static [u8],
    /// A piece; `#` stands for its number.
    opens: &'static [u8],
    between: &'static [u8],
    /// The piece that stands behind `between` as often.
    closes: &'static [u8],
    behind: &'static [u8],
    /// How many pieces the program at the limit has.
    most: i64,
    /// What that program writes.
    text: &'static [u8],
    /// What is written where there is one piece more.
    refusal: &'static [u8],
}

const ROWS: [Row; 11] = [
    Row {
        what: "functions",
        before: b"",
        opens: b"fn f#() {\nreturn #;\n}\n",
        between: b"fn main() {\nlet r = f62();\nprint r;\n}\n",
        closes: b"",
        behind: b"",
        most: 63,
        text: b"62\n---\n1:190 begin\n1:192 print 62\n1:190 end\nfinish done\n",
        refusal: b"program: line 193: 7 TooMany\n",
    },
    Row {
        what: "parameters",
        before: b"fn f(",
        opens: b"p#, ",
        between: b"last) {\nprint last;\n}\nfn main() {\nf(",
        closes: b"#, ",
        behind: b"7);\n}\n",
        most: 3,
        text: b"7\n---\n1:4 begin\n1:2 print 7\n1:4 end\nfinish done\n",
        refusal: b"program: line 1: 7 TooMany\n",
    },
    Row {
        what: "locals",
        before: b"fn main() {\n",
        opens: b"let v# = #;\n",
        between: b"let last = 7;\nprint v30 + last;\n}\n",
        closes: b"",
        behind: b"",
        most: 31,
        text: b"37\n---\n1:1 begin\n1:34 print 37\n1:1 end\nfinish done\n",
        refusal: b"program: line 34: 7 TooMany\n",
    },
    Row {
        what: "names",
        before: b"",
        opens: b"shared w#;\n",
        between: b"shared last = 7;\nfn main() {\nprint last;\n}\n",
        closes: b"",
        behind: b"",
        most: 63,
        text: b"7\n---\n1:65 begin\n1:66 read 63 7\n1:66 print 7\n1:65 end\nfinish done\n",
        refusal: b"program: line 65: 7 TooMany\n",
    },
    Row {
        what: "mutexes",
        before: b"",
        opens: b"mutex m#;\n",
        between: b"shared last = 7;\nfn main() {\nlock m62;\nprint last;\n}\n",
        closes: b"",
        behind: b"",
        most: 63,
        text: b"7\n---\n1:65 begin\n1:66 lock 62\n1:67 read 0 7\n1:67 print 7\n1:65 end\nfinish done\n",
        refusal: b"program: line 65: 7 TooMany\n",
    },
    Row {
        what: "semaphores",
        before: b"",
        opens: b"sema s#;\n",
        between: b"fn main() {\nup s63;\ndown s63;\n}\n",
        closes: b"",
        behind: b"",
        most: 64,
        text: b"---\n1:65 begin\n1:66 up 63\n1:67 down 63\n1:65 end\nfinish done\n",
        refusal: b"program: line 65: 7 TooMany\n",
    },
    Row {
        what: "cells",
        before: b"shared a[1020];\n",
        opens: b"shared w#;\n",
        between: b"fn main() {\nw3 = 7;\nprint w3;\n}\n",
        closes: b"",
        behind: b"",
        most: 4,
        text: b"7\n---\n1:6 begin\n1:7 write 1023 7\n1:8 read 1023 7\n1:8 print 7\n1:6 end\nfinish done\n",
        refusal: b"program: line 6: 7 TooMany\n",
    },
    Row {
        what: "statements",
        before: b"fn main() {\n",
        opens: b"skip;\n",
        between: b"print 7;\n}\n",
        closes: b"",
        behind: b"",
        most: 4095,
        text: b"7\n---\n1:1 begin\n1:4097 print 7\n1:1 end\nfinish done\n",
        refusal: b"program: line 4098: 7 TooMany\n",
    },
    Row {
        what: "nodes",
        before: b"fn main() {\nprint ",
        opens: b"-",
        between: b"7;\n}\n",
        closes: b"",
        behind: b"",
        most: 127,
        text: b"-7\n---\n1:1 begin\n1:2 print -7\n1:1 end\nfinish done\n",
        refusal: b"program: line 2: 1 Syntax\n",
    },
    Row {
        what: "parentheses",
        before: b"fn main() {\nprint ",
        opens: b"(",
        between: b"7",
        closes: b")",
        behind: b";\n}\n",
        most: 128,
        text: b"7\n---\n1:1 begin\n1:2 print 7\n1:1 end\nfinish done\n",
        refusal: b"program: line 2: 1 Syntax\n",
    },
    Row {
        what: "blocks",
        before: b"fn main() {\n",
        opens: b"if (1) {\n",
        between: b"print 7;\n",
        closes: b"}\n",
        behind: b"}\n",
        most: 31,
        text: b"7\n---\n1:1 begin\n1:33 print 7\n1:1 end\nfinish done\n",
        refusal: b"program: line 33: 1 Syntax\n",
    },
];

// Appends a piece, with its number for each `#`.
fn put_piece(text: &mut Vec<u8>, piece: &[u8], number: i64) -> Result<(), NoMemory> {
    for byte in piece {
        if *byte == b'#' {
            let mut line = Line::new();
            put_printed(number, &mut line);
            text.extend_from_slice(line.bytes())?;
        } else {
            text.push(*byte)?;
        }
    }
    Ok(())
}

// The program of a row, with so many pieces.
fn program_of(alloc: Global, row: &Row, count: i64) -> Result<Vec<u8>, NoMemory> {
    let mut text = Vec::new(alloc);
    text.extend_from_slice(row.before)?;
    for number in 0..count {
        put_piece(&mut text, row.opens, number)?;
    }
    text.extend_from_slice(row.between)?;
    for number in 0..count {
        put_piece(&mut text, row.closes, number)?;
    }
    text.extend_from_slice(row.behind)?;
    Ok(text)
}

#[test]
fn runs_what_has_the_most(rt: HostRuntime) -> Result<(), Fail> {
    for row in &ROWS {
        let what = row.what;
        let program = program_of(rt.alloc(), row, row.most)?;
        let (status, text) = answer_of(rt.alloc(), &program, &["run", "p.lm"])?;
        assert_eq!(rt; status, 0, "with the most {what}");
        assert_eq!(rt; text.bytes(), row.text, "with the most {what}");
    }
    Ok(())
}

#[test]
fn refuses_one_more(rt: HostRuntime) -> Result<(), Fail> {
    for row in &ROWS {
        let what = row.what;
        let program = program_of(rt.alloc(), row, row.most.saturating_add(1))?;
        let (status, text) = answer_of(rt.alloc(), &program, &["run", "p.lm"])?;
        assert_eq!(rt; status, 2, "with more {what}");
        assert_eq!(rt; text.bytes(), row.refusal, "with more {what}");
    }
    Ok(())
}

// The frame of `main`, and one for each number from the first down to 0: 256 at most.
#[test]
fn calls_as_deep_as_it_may(rt: HostRuntime) -> Result<(), Fail> {
    let rows: [(&[u8], &[u8]); 2] = [
        (
            b"fn f(n) {\nif (n) {\nf(n - 1);\n}\n}\nfn main() {\nf(254);\nprint 7;\n}\n",
            b"7\n---\n1:6 begin\n1:8 print 7\n1:6 end\nfinish done\n",
        ),
        (
            b"fn f(n) {\nif (n) {\nf(n - 1);\n}\n}\nfn main() {\nf(255);\nprint 7;\n}\n",
            b"---\n1:6 begin\n1:3 trap 6\n1:6 end\nfinish done\n",
        ),
    ];
    for (i, (program, written)) in rows.iter().enumerate() {
        let (status, text) = answer_of(rt.alloc(), *program, &["run", "p.lm"])?;
        assert_eq!(rt; status, 0, "in row {i}");
        assert_eq!(rt; text.bytes(), *written, "in row {i}");
    }
    Ok(())
}
