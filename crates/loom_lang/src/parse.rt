//! From the bytes of a file to its program.
ghost use Rattle.std.specs.Prelude.{ℕ, ◌≡◌, ◌≤◌, List, length, slice_get, IfOk, IfErr};
ghost use Rattle.loom_tree.specs.Tree.{Source};
ghost use Rattle.loom_syntax.specs.View.{line_tokens};
ghost use Rattle.loom_lang.specs.Limits.{file_limit};
ghost use Rattle.loom_lang.specs.Program.{IsProgram};
ghost use Rattle.loom_lang.specs.Refusal.{line_at};
ghost use Rattle.loom_lang.specs.LangError.{TellsRefusal, IsReading};

use crate::diagnostics::first_fault;
use crate::gather::gather;
use crate::program::Program;
use crate::refusal::{LangRefusal, Reason};
use loom_lexer::text::{last_line, tokenize};
use loom_syntax::items::{SyntaxError, read_items};
use loom_tree::item::FileItems;
use loom_tree::name::NoMemory;
use loom_tree::token::Token;
use std::alloc::Global;

/// Why bytes were not read as a program.
#[derive(Clone, Copy, Debug, Drop, PartialEq, Eq)]
pub enum LangError {
    /// They are no program, for this reason at this line.
    Refused(LangRefusal),
    /// Memory ran out.
    NoMemory,
}

impl From<NoMemory> for LangError {
    ghost use Rattle.std.specs.Prelude.{◌≡◌};
    ghost use Rattle.loom_lang.specs.declared.parse.LangError.TheVariants.{NoMemory};

    ghost from_gives = { λ _ e. e ≡ NoMemory };

    fn from(_error: NoMemory) -> LangError {
        LangError::NoMemory
    }
}

/// The line of a token, or the last line behind the tokens.
fn line_at(tokens: &[Token], n: usize, last_line: u32) -> u32
    ensures { (bytes : List ℕ) → result ≡ line_at last_line (slice_get (line_tokens bytes tokens.now) n) }
{
    match tokens.get(n) {
        Some(token) => token.line,
        None => last_line,
    }
}

/// The items of the program that the bytes of a file are, or their refusal.
pub(crate) fn read(alloc: Global, bytes: &[u8]) -> Result<FileItems, LangError>
    requires { length bytes.now ≤ file_limit }
    ensures { IsReading bytes.now result }
{
    let tokens = tokenize(alloc, bytes)?;
    let last_line = last_line(bytes);
    match read_items(alloc, bytes, &tokens.0) {
        Ok(items) => match first_fault(alloc, &items.0, last_line)? {
            None => Ok(items),
            Some(refusal) => Err(LangError::Refused(refusal)),
        },
        Err(SyntaxError::Syntax(n)) => Err(LangError::Refused(LangRefusal {
            line: line_at(&tokens.0, n, last_line),
            reason: Reason::Syntax,
        })),
        Err(SyntaxError::NoMemory) => Err(LangError::NoMemory),
    }
}

/// The program that the bytes of a file are. `Refused` comes exactly where they are none, and memory didn't run out; it tells the line, from 1,
/// and the reason. Where they leave the grammar the reason is `Syntax`, and the line is that of the earliest token with which no program can go on;
/// the end of the bytes stands on the last line. Else it is the least line at which a rule is broken, and there the least reason.
pub fn parse_program(alloc: Global, bytes: &[u8]) -> Result<Program, LangError>
    requires { length bytes.now ≤ file_limit }
    ensures program { IfOk result (λ p. IsProgram bytes.now p) }
    ensures refused { IfErr result (λ e. TellsRefusal bytes.now e) }
    ensures none { (r : LangRefusal) → result ≡ Err (LangError.Refused r) → (p : Source) → IsProgram bytes.now p → ⊥ }
{
    let items = read(alloc, bytes)?;
    Ok(Program::new(gather(alloc, items)?))
}
