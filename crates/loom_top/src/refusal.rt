//! The lines that say why a file is no program, and where one is no script.
ghost use Rattle.std.specs.Prelude.{◌≡◌, ◌≤◌, ◌+◌, ◌++◌, length};
ghost use Rattle.loom_tree.specs.Decimal.{decimal};
ghost use Rattle.loom_top.specs.RefusalLine.{reason_words, refusal_line, script_line};

use arrayvec::ArrayVec;
use itoa::Buffer;
use loom_lang::refusal::{LangRefusal, Reason};
use loom_script::parse::ScriptRefusal;

/// How many bytes a line has at most.
const MOST_BYTES: usize = 64;

// The reason's number and its name.
fn reason_words(reason: Reason) -> &'static str
    ensures { result.now ≡ reason_words reason }
{
    match reason {
        Reason::Syntax => "1 Syntax",
        Reason::SecondOnLine => "2 SecondOnLine",
        Reason::UnknownName => "3 UnknownName",
        Reason::NameTwice => "4 NameTwice",
        Reason::WrongCount => "5 WrongCount",
        Reason::NoMain => "6 NoMain",
        Reason::TooMany(_) => "7 TooMany",
    }
}

fn add(line: &mut ArrayVec<u8, MOST_BYTES>, piece: &[u8])
    requires { length line.old.items + length piece.now ≤ 64 }
    ensures { line.new.items ≡ line.old.items ++ piece.now }
{
    let added = line.try_extend_from_slice(piece);
    prove!(added.is_ok());
}

fn add_number(line: &mut ArrayVec<u8, MOST_BYTES>, number: u32)
    requires { length line.old.items + 10 ≤ 64 }
    ensures text { line.new.items ≡ line.old.items ++ decimal number }
    ensures short { length line.new.items ≤ length line.old.items + 10 }
{
    add(line, Buffer::new().format(number).as_bytes());
}

/// The line with its LF.
pub(crate) fn refusal_line(refusal: LangRefusal) -> ArrayVec<u8, MOST_BYTES>
    ensures { result.items ≡ refusal_line refusal.line refusal.reason }
{
    let mut line = ArrayVec::new();
    add(&mut line, b"program: line ");
    add_number(&mut line, refusal.line);
    add(&mut line, b": ");
    add(&mut line, reason_words(refusal.reason).as_bytes());
    add(&mut line, b"\n");
    line
}

/// The line of a script with its LF.
pub(crate) fn script_line(refusal: ScriptRefusal) -> ArrayVec<u8, MOST_BYTES>
    ensures { result.items ≡ script_line refusal.line }
{
    let mut line = ArrayVec::new();
    add(&mut line, b"script: line ");
    add_number(&mut line, refusal.line);
    add(&mut line, b"\n");
    line
}
