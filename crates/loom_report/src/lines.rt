//! The lines of a file.
ghost use Rattle.std.specs.Prelude.{◌≤◌, length};

// How many bytes the first line has, with its LF.
fn line_len(bytes: &[u8]) -> usize
    ensures { result ≤ length bytes.now }
{
    match bytes.iter().position(|b| *b == b'\n') {
        Some(end) => end + 1,
        None => bytes.len(),
    }
}

/// The line of that number, from 1, with its LF.
pub fn line_of(file: &[u8], number: u32) -> &[u8] {
    let mut rest = file;
    for _ in 1..number {
        let len = line_len(rest);
        rest = &rest[len..];
    }
    let len = line_len(rest);
    &rest[..len]
}

// Whether a line of a script has a command, in a script that isn't refused.
fn is_command(line: &[u8]) -> bool {
    match line.trim_ascii() {
        [] => false,
        [first, ..] => *first != b'#',
    }
}

/// The number of the line on which a script has the command of that number, both from 1.
pub fn command_line(script: &[u8], command: u32) -> Option<u32> {
    let mut rest = script;
    let mut before = 0u32;
    for number in 1..u32::MAX {
        let len = line_len(rest);
        if len == 0 {
            return None;
        }
        if is_command(&rest[..len]) {
            before = before.saturating_add(1);
        }
        if before == command {
            return Some(number);
        }
        rest = &rest[len..];
    }
    None
}

#[cfg(test)]
mod tests {
    use super::*;
    use std::test::Fail;

    #[test]
    fn finds_lines(rt: HostRuntime) -> Result<(), Fail> {
        let file = b"shared x;\n  x = 1;\t\n\nlast";
        let rows: [(u32, &[u8]); 5] = [
            (1, b"shared x;\n"),
            (2, b"  x = 1;\t\n"),
            (3, b"\n"),
            (4, b"last"),
            (5, b""),
        ];
        for (number, line) in &rows {
            assert_eq!(rt; line_of(file, *number), *line, "at line {number}");
        }
        let script = b"# one\r\n\r\nat 0 remove a\r\n \t# two\n\tat 1 remove b";
        assert_eq!(rt; command_line(script, 1), Some(3));
        assert_eq!(rt; command_line(script, 2), Some(5));
        assert_eq!(rt; command_line(script, 3), None);
        Ok(())
    }
}
