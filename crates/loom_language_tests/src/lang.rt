//! Programs that are accepted, and texts that are refused, each at its line and for its reason.

mod rows;

use loom_lang::limits::FILE_LIMIT;
use loom_lang::parse::{LangError, parse_program};
use loom_lang::refusal::{LangRefusal, Reason, Which};
use loom_tree::name::NoMemory;
use rows::{REFUSED, REFUSED_FOR_NAMES};
use std::alloc::{AllocError, Global};
use std::test::Fail;

/// The refusal of a text, or `None` where it is a program. No text here is too long.
fn refusal_of(alloc: Global, bytes: &[u8]) -> Result<Option<LangRefusal>, NoMemory> {
    if bytes.len() > FILE_LIMIT {
        return Err(NoMemory);
    }
    match parse_program(alloc, bytes) {
        Ok(_) => Ok(None),
        Err(LangError::Refused(refusal)) => Ok(Some(refusal)),
        Err(LangError::NoMemory) => Err(NoMemory),
    }
}

#[test]
fn accepts(rt: HostRuntime) {
    let texts: [&[u8]; 13] = [
        b"fn main() {}",
        b"// a comment\nfn main() { skip; }",
        b"shared x = -3; shared a[8]; mutex m; sema s = 2;\nfn f(p) {\nreturn p + x;\n}\nfn main() {\nlet v = f(1);\nlet t = spawn f(a[v]);\njoin t;\nlock m;\nunlock m;\ndown s;\nup s;\na[0] = v;\nif (v) {\nskip;\n} else {\nprint x;\n}\nwhile (v < 3) {\nv = v + 1;\n}\nf(v);\n}",
        b"fn main() {\nv = 1;\nlet v = 2;\n}",
        b"fn f(v) {}\nfn main() {\nlet v = 2;\n}",
        b"shared a[0];\nfn main() {}",
        b"shared a[1024];\nfn main() {}",
        b"fn f(a, b, c, d) {}\nfn main() {}",
        b"sema s = 2147483647;\nfn main() {}",
        b"fn main() {\nprint 9223372036854775807;\n}",
        b"fn main() {}\n// the end",
        b"// \xc3\xa9\xff\nfn main() {}",
        b"fn main() {} // \x80",
    ];
    for (row, text) in texts.iter().enumerate() {
        assert_eq!(rt; refusal_of(rt.alloc(), text), Ok(None), "row {row}");
    }
}

#[test]
fn refuses(rt: HostRuntime) {
    for (i, row) in REFUSED.iter().chain(REFUSED_FOR_NAMES.iter()).enumerate() {
        let refusal = LangRefusal {
            line: row.line,
            reason: row.reason,
        };
        assert_eq!(rt;
            refusal_of(rt.alloc(), row.text),
            Ok(Some(refusal)),
            "row {i}"
        );
    }
}

/// A text with a numbered line, or with one without its number, so many times.
fn lines(
    alloc: Global,
    head: &str,
    line: &str,
    is_numbered: bool,
    tail: &str,
    count: u32,
) -> Result<String, AllocError> {
    let mut text = String::new(alloc);
    text.push_str(head)?;
    for i in 0..count {
        text.push_str(line)?;
        if is_numbered {
            text.push_str(format!(in alloc; "{i}")?.as_str())?;
        }
        text.push_str(tail)?;
    }
    Ok(text)
}

/// The refusal at a line, where a limit is passed.
fn past(is_past: bool, line: u32, reason: Reason) -> Option<LangRefusal> {
    if is_past {
        Some(LangRefusal { line, reason })
    } else {
        None
    }
}

#[test]
fn limits(rt: HostRuntime) -> Result<(), Fail> {
    let alloc = rt.alloc();
    for more in [false, true] {
        let one = if more { 1 } else { 0 };
        let text = lines(alloc, "fn main() {}\n", "mutex m", true, ";\n", 64 + one)?;
        let refusal = past(more, 66, Reason::TooMany(Which::Names));
        assert_eq!(rt; refusal_of(alloc, text.as_bytes()), Ok(refusal));
        let text = lines(alloc, "fn main() {}\n", "fn f", true, "() {}\n", 63 + one)?;
        let refusal = past(more, 65, Reason::TooMany(Which::Functions));
        assert_eq!(rt; refusal_of(alloc, text.as_bytes()), Ok(refusal));
        let mut text = lines(alloc, "fn main() {\n", "let v", true, " = 0;\n", 32 + one)?;
        text.push_str("}")?;
        let refusal = past(more, 34, Reason::TooMany(Which::Locals));
        assert_eq!(rt; refusal_of(alloc, text.as_bytes()), Ok(refusal));
        let mut text = lines(alloc, "fn main() {\n", "skip", false, ";\n", 4096 + one)?;
        text.push_str("}")?;
        let refusal = past(more, 4098, Reason::TooMany(Which::Statements));
        assert_eq!(rt; refusal_of(alloc, text.as_bytes()), Ok(refusal));
    }
    Ok(())
}

#[test]
fn limits_of_the_grammar(rt: HostRuntime) -> Result<(), Fail> {
    let alloc = rt.alloc();
    for more in [false, true] {
        let one = if more { 1 } else { 0 };
        let refusal = past(more, 2, Reason::Syntax);
        // 128 nodes: 64 numbers, 63 operators between them, and one in front
        let mut text = lines(alloc, "fn main() {\nprint ", "-", false, "", 1 + one)?;
        text.push_str(lines(alloc, "1", " + 1", false, "", 63)?.as_str())?;
        text.push_str(";\n}")?;
        assert_eq!(rt; refusal_of(alloc, text.as_bytes()), Ok(refusal));
        let mut text = lines(alloc, "fn main() {\nprint ", "(", false, "", 128 + one)?;
        text.push_str(lines(alloc, "1", ")", false, "", 128 + one)?.as_str())?;
        text.push_str(";\n}")?;
        assert_eq!(rt; refusal_of(alloc, text.as_bytes()), Ok(refusal));
        let refusal = past(more, 33, Reason::Syntax);
        let mut text = lines(alloc, "fn main() {\n", "while (1) {\n", false, "", 31 + one)?;
        text.push_str(lines(alloc, "", "}\n", false, "", 32 + one)?.as_str())?;
        assert_eq!(rt; refusal_of(alloc, text.as_bytes()), Ok(refusal));
    }
    Ok(())
}
