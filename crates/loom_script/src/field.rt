//! The fields of a line: what stands between blanks.
ghost use Rattle.std.specs.Prelude.{◌≡◌, ◌≤◌, length};
ghost use Rattle.loom_lexer.specs.Scan.{run_len};
ghost use Rattle.loom_command.specs.FilterText.{is_blank};
ghost use Rattle.loom_command.specs.Script.{is_dark};
ghost use Rattle.loom_script.specs.Fields.{from_dark, first_field, behind_field, are_blanks, is_skipped};

pub(crate) fn is_blank(b: u8) -> bool
    ensures { result ≡ is_blank b }
{
    b == b' ' || b == b'\t'
}

fn is_dark(b: u8) -> bool
    ensures { result ≡ is_dark b }
{
    !is_blank(b)
}

/// How many blanks stand at the front.
pub(crate) fn blanks_len(bytes: &[u8]) -> usize
    ensures value { result ≡ run_len is_blank bytes.now }
    ensures within { result ≤ length bytes.now }
{
    let mut len = 0;
    'run: while len < bytes.len() && is_blank(bytes[len]) {
        len += 1;
    }
    len
}

/// How many bytes at the front aren't blank.
fn dark_len(bytes: &[u8]) -> usize
    ensures value { result ≡ run_len is_dark bytes.now }
    ensures within { result ≤ length bytes.now }
{
    let mut len = 0;
    'run: while len < bytes.len() && is_dark(bytes[len]) {
        len += 1;
    }
    len
}

/// The bytes from the first one on that isn't blank.
pub(crate) fn from_dark(bytes: &[u8]) -> &[u8]
    ensures { result.now ≡ from_dark bytes.now }
{
    let blanks = blanks_len(bytes);
    &bytes[blanks..]
}

/// The first field of a line; no byte where there is none.
#[tactic(auto, unfolding(crate::specs::Fields::first_field))]
pub(crate) fn first_field(line: &[u8]) -> &[u8]
    ensures { result.now ≡ first_field line.now }
{
    let dark = from_dark(line);
    let len = dark_len(dark);
    &dark[..len]
}

/// What is behind the first field of a line.
#[tactic(auto, unfolding(crate::specs::Fields::behind_field))]
pub(crate) fn behind_field(line: &[u8]) -> &[u8]
    ensures { result.now ≡ behind_field line.now }
{
    let dark = from_dark(line);
    let len = dark_len(dark);
    &dark[len..]
}

/// Whether no byte is anything but a blank.
pub(crate) fn are_blanks(bytes: &[u8]) -> bool
    ensures { result ≡ are_blanks bytes.now }
{
    blanks_len(bytes) == bytes.len()
}

/// Whether a line is skipped: it has no field, or the first one begins with `#`.
pub(crate) fn is_skipped(line: &[u8]) -> bool
    ensures { result ≡ is_skipped line.now }
{
    match first_field(line) {
        [] => true,
        [first, ..] => *first == b'#',
    }
}
