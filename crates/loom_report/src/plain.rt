//! Bytes from outside, fit for a line of a message.

use std::fmt;

/// How many of the bytes are written at most.
const MOST_BYTES: usize = 200;

/// Bytes from outside, fit to stand in quotes. As text they are cut where they are many, and have escapes for control characters, for
/// what is no text, and for quotes, apostrophes and backslashes.
#[derive(Clone, Copy)]
pub struct Plain<'a>(pub &'a [u8]);

impl fmt::Display for Plain<'_> {
    fn fmt<W: fmt::Write>(&self, f: &mut fmt::Formatter<W>) -> fmt::Result {
        let end = self.0.len().min(MOST_BYTES);
        for chunk in self.0[..end].utf8_chunks() {
            let text = chunk.valid().escape_debug();
            let rest = chunk.invalid().escape_ascii();
            write!(f, "{text}{rest}")?;
        }
        if end < self.0.len() {
            write!(f, "...")?;
        }
        Ok(())
    }
}

/// The same for a line by itself: quotes, apostrophes and backslashes stand as they are.
#[derive(Clone, Copy)]
pub struct PlainLine<'a>(pub &'a [u8]);

// Writes a character, with an escape where it wouldn't be seen as it is.
fn put_char<W: fmt::Write>(f: &mut fmt::Formatter<W>, c: char) -> fmt::Result {
    match c {
        '"' | '\'' | '\\' => f.write_char(c),
        _ => {
            let text = c.escape_debug();
            write!(f, "{text}")
        }
    }
}

impl fmt::Display for PlainLine<'_> {
    fn fmt<W: fmt::Write>(&self, f: &mut fmt::Formatter<W>) -> fmt::Result {
        let end = self.0.len().min(MOST_BYTES);
        for chunk in self.0[..end].utf8_chunks() {
            for c in chunk.valid().chars() {
                put_char(f, c)?;
            }
            let rest = chunk.invalid().escape_ascii();
            write!(f, "{rest}")?;
        }
        if end < self.0.len() {
            write!(f, "...")?;
        }
        Ok(())
    }
}

#[cfg(test)]
mod tests {
    use super::*;
    use std::test::Fail;

    #[test]
    fn escapes_and_cuts(rt: HostRuntime) -> Result<(), Fail> {
        let rows: [(&[u8], &str, &str); 6] = [
            (b"print 2;", "print 2;", "print 2;"),
            (b"a\tb\x1b[31m", "a\\tb\\u{1b}[31m", "a\\tb\\u{1b}[31m"),
            (b"a\xffb", "a\\xffb", "a\\xffb"),
            (b"\"it's\" \\", "\\\"it\\'s\\\" \\\\", "\"it's\" \\"),
            (
                b"\xc3\xa9\xe2\x80\xae",
                "\u{e9}\\u{202e}",
                "\u{e9}\\u{202e}",
            ),
            (b"", "", ""),
        ];
        for (i, (bytes, quoted, line)) in rows.iter().enumerate() {
            let written = format!(in rt.alloc(); "{}", Plain(*bytes))?;
            assert_eq!(rt; written.as_str(), *quoted, "in row {i}");
            let written = format!(in rt.alloc(); "{}", PlainLine(*bytes))?;
            assert_eq!(rt; written.as_str(), *line, "in row {i}");
        }
        let long = vec![in rt.alloc(); b'a'; 201]?;
        let written = format!(in rt.alloc(); "{}", Plain(&long))?;
        assert_eq!(rt; written.len(), 203);
        assert!(rt; written.ends_with("a..."));
        Ok(())
    }
}
