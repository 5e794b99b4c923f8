//! Texts of scripts, and what is told of them.

mod rows;

use crate::command::read_command;
use crate::parse::{ScriptError, ScriptRefusal, parse_script};
use crate::script::{Action, Command, Script, Trigger};
use loom_tree::name::NoMemory;
use rows::{COMMANDS, ENDS, FIRST, FORMS, NAMES, NUMBERS, Row, SKIPPED, STALLS};
use std::alloc::Global;
use std::process::Abort;
use std::test::Fail;

/// How many bytes a text has at most.
const TEXT_LIMIT: usize = 65536;

fn put(out: &mut Vec<u8>, text: &[u8]) -> Result<(), NoMemory> {
    out.extend_from_slice(text)?;
    Ok(())
}

/// The bytes as text, those above 127 as `\x` and two digits.
fn put_plain(alloc: Global, out: &mut String, bytes: &[u8]) -> Result<(), NoMemory> {
    for b in bytes {
        if *b < 128 {
            out.push(*b as char)?;
        } else {
            out.push_str(format!(in alloc; "\\x{b:02x}")?.as_str())?;
        }
    }
    Ok(())
}

fn put_command(alloc: Global, out: &mut String, command: &Command) -> Result<(), NoMemory> {
    let line = command.line;
    out.push_str(format!(in alloc; "{line}:")?.as_str())?;
    match command.trigger {
        Trigger::At(entries) => out.push_str(format!(in alloc; "{entries}")?.as_str())?,
        Trigger::Stall => out.push_str("stall")?,
    }
    match &command.action {
        Action::Install { name, text } => {
            out.push_str(" ")?;
            put_plain(alloc, out, name.bytes())?;
            out.push_str("=")?;
            put_plain(alloc, out, text.bytes())?;
        }
        Action::Remove { name } => {
            out.push_str(" -")?;
            put_plain(alloc, out, name.bytes())?;
        }
    }
    out.push_str(";")?;
    Ok(())
}

/// The script of a text; refused at line 0 where it is too long.
fn read(alloc: Global, text: &[u8]) -> Result<Script, ScriptError> {
    if text.len() > TEXT_LIMIT {
        return Err(ScriptError::Refused(ScriptRefusal { line: 0 }));
    }
    parse_script(alloc, text)
}

/// What is told of a text.
fn told(alloc: Global, text: &[u8]) -> Result<String, NoMemory> {
    let mut out = String::new(alloc);
    match read(alloc, text) {
        Ok(script) => {
            for command in &script.commands.0 {
                put_command(alloc, &mut out, command)?;
            }
        }
        Err(ScriptError::Refused(refusal)) => {
            let line = refusal.line;
            out.push_str(format!(in alloc; "line {line}")?.as_str())?;
        }
        Err(ScriptError::NoMemory) => return Err(NoMemory),
    }
    Ok(out)
}

/// Each row is told so.
fn expect(rt: &impl Abort, alloc: Global, rows: &[Row]) -> Result<(), Fail> {
    for (row, (text, wanted)) in rows.iter().enumerate() {
        let told = told(alloc, text)?;
        assert_eq!(rt; told.as_str(), *wanted, "row {row}");
    }
    Ok(())
}

#[test]
fn reads_commands(rt: HostRuntime) -> Result<(), Fail> {
    expect(&rt, rt.alloc(), &COMMANDS)
}

#[test]
fn reads_ends(rt: HostRuntime) -> Result<(), Fail> {
    expect(&rt, rt.alloc(), &ENDS)
}

#[test]
fn skips_lines(rt: HostRuntime) -> Result<(), Fail> {
    expect(&rt, rt.alloc(), &SKIPPED)
}

#[test]
fn reads_numbers(rt: HostRuntime) -> Result<(), Fail> {
    expect(&rt, rt.alloc(), &NUMBERS)
}

#[test]
fn reads_names(rt: HostRuntime) -> Result<(), Fail> {
    expect(&rt, rt.alloc(), &NAMES)
}

#[test]
fn refuses_forms(rt: HostRuntime) -> Result<(), Fail> {
    expect(&rt, rt.alloc(), &FORMS)
}

#[test]
fn refuses_the_first(rt: HostRuntime) -> Result<(), Fail> {
    expect(&rt, rt.alloc(), &FIRST)
}

/// Lines that wait for a stall are commands by themselves.
#[test]
fn reads_stalls(rt: HostRuntime) -> Result<(), Fail> {
    let alloc = rt.alloc();
    for (row, (line, wanted)) in STALLS.iter().enumerate() {
        let mut told = String::new(alloc);
        if let Some(command) = read_command(alloc, line, 7)? {
            put_command(alloc, &mut told, &command)?;
        }
        assert_eq!(rt; told.as_str(), *wanted, "row {row}");
    }
    Ok(())
}

/// `text` so many times, and then an end.
fn times(alloc: Global, n: usize, text: &[u8], end: &[u8]) -> Result<Vec<u8>, NoMemory> {
    let mut all = Vec::new(alloc);
    for _ in 0..n {
        put(&mut all, text)?;
    }
    put(&mut all, end)?;
    Ok(all)
}

/// How many commands a text has; `None` where it is refused.
fn count(alloc: Global, text: &[u8]) -> Result<Option<usize>, NoMemory> {
    match read(alloc, text) {
        Ok(script) => Ok(Some(script.commands.0.len())),
        Err(ScriptError::Refused(_)) => Ok(None),
        Err(ScriptError::NoMemory) => Err(NoMemory),
    }
}

/// At which line a text is refused; `None` where it is a script.
fn refusal(alloc: Global, text: &[u8]) -> Result<Option<u32>, NoMemory> {
    match read(alloc, text) {
        Ok(_) => Ok(None),
        Err(ScriptError::Refused(refusal)) => Ok(Some(refusal.line)),
        Err(ScriptError::NoMemory) => Err(NoMemory),
    }
}

/// 64 commands, the 65th, and what stands between and behind them.
#[test]
fn counts_commands(rt: HostRuntime) -> Result<(), Fail> {
    let alloc = rt.alloc();
    let command = b"at 1 remove f\n";
    let all = times(alloc, 64, command, b"")?;
    assert_eq!(rt; count(alloc, &all)?, Some(64), "64");
    let skipped = times(alloc, 64, command, b"#\n\n \t\r\n")?;
    assert_eq!(rt;
        count(alloc, &skipped)?,
        Some(64),
        "skipped lines behind 64"
    );
    let more = times(alloc, 64, command, command)?;
    assert_eq!(rt; refusal(alloc, &more)?, Some(65), "65");
    let later = times(alloc, 64, command, b"#\n\nat 1 install f x")?;
    assert_eq!(rt;
        refusal(alloc, &later)?,
        Some(67),
        "65 behind skipped lines"
    );
    let between = times(alloc, 64, b"\nat 1 remove f\r\n", b"\n#\nat 1 remove f")?;
    assert_eq!(rt;
        refusal(alloc, &between)?,
        Some(131),
        "skipped lines between 65"
    );
    let bad = times(alloc, 64, command, b"x\nat 1 remove f")?;
    assert_eq!(rt; refusal(alloc, &bad)?, Some(65), "a bad line behind 64");
    let stall = times(alloc, 64, command, b"on stall remove f")?;
    assert_eq!(rt; refusal(alloc, &stall)?, Some(65), "a stall behind 64");
    let first = times(alloc, 63, command, b"x\nat 1 remove f\nat 1 remove f")?;
    assert_eq!(rt; refusal(alloc, &first)?, Some(64), "a bad line behind 63");
    Ok(())
}

/// Texts of 65,536 bytes.
#[test]
fn reads_the_longest_texts(rt: HostRuntime) -> Result<(), Fail> {
    let alloc = rt.alloc();
    let lines = times(alloc, 65536, b"\n", b"")?;
    assert_eq!(rt; count(alloc, &lines)?, Some(0), "65,537 lines");
    let last = times(alloc, 65535, b"\n", b"x")?;
    assert_eq!(rt; refusal(alloc, &last)?, Some(65536), "the last line");
    let remark = times(alloc, 65535, b"x", b"#")?;
    assert_eq!(rt;
        refusal(alloc, &remark)?,
        Some(1),
        "a field of 65,536 bytes"
    );
    let blank = times(alloc, 65535, b" ", b"#")?;
    assert_eq!(rt; count(alloc, &blank)?, Some(0), "65,535 blanks");
    let zeros = times(alloc, 65524, b"0", b"1 remove f")?;
    assert_eq!(rt; refusal(alloc, &zeros)?, Some(1), "zeros");
    let name = times(alloc, 65524, b"f", b"")?;
    let mut removal = Vec::new(alloc);
    put(&mut removal, b"at 1 remove ")?;
    put(&mut removal, &name)?;
    assert_eq!(rt; refusal(alloc, &removal)?, Some(1), "a long name");
    let mut filter = Vec::new(alloc);
    put(&mut filter, b"at 1 install f ")?;
    put(&mut filter, &times(alloc, 65521, b"x", b"")?)?;
    assert_eq!(rt; count(alloc, &filter)?, Some(1), "a long filter");
    Ok(())
}
