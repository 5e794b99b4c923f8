//! The lines of a script.
ghost use Rattle.std.specs.Prelude.{◌≡◌, ◌≤◌, ◌+◌, length, drop};
ghost use Rattle.loom_lexer.specs.Scan.{run_len};
ghost use Rattle.loom_command.specs.Script.{without_return};
ghost use Rattle.loom_script.specs.Lines.{is_inside_line, line_text};

fn is_inside_line(b: u8) -> bool
    ensures { result ≡ is_inside_line b }
{
    b != b'\n'
}

/// The place of the first LF from a place on, or the end of the bytes.
pub(crate) fn line_end(bytes: &[u8], at: usize) -> usize
    requires { at ≤ length bytes.now }
    ensures value { result ≡ at + run_len is_inside_line (drop at bytes.now) }
    ensures within { result ≤ length bytes.now }
{
    let mut end = at;
    'run: while end < bytes.len() && is_inside_line(bytes[end]) {
        end += 1;
    }
    end
}

/// The bytes without one CR at their end.
fn without_return(line: &[u8]) -> &[u8]
    ensures { result.now ≡ without_return line.now }
{
    if line.is_empty() {
        return line;
    }
    let last = line.len() - 1;
    if line[last] == b'\r' {
        &line[..last]
    } else {
        line
    }
}

/// The line from a place to its end: without the CR before its LF, where it has both.
pub(crate) fn line_text(bytes: &[u8], at: usize, end: usize) -> &[u8]
    requires forward { at ≤ end }
    requires within { end ≤ length bytes.now }
    ensures { result.now ≡ line_text bytes.now at end }
{
    let line = &bytes[at..end];
    if end < bytes.len() {
        without_return(line)
    } else {
        line
    }
}
