//! Reads the items of a file.
ghost use Rattle.std.specs.Prelude.{All};
ghost use Rattle.loom_tree.specs.Token.{IsSmall};
ghost use Rattle.loom_tree.specs.Token.{IsWithin};
ghost use Rattle.loom_syntax.specs.View.{line_tokens};
ghost use Rattle.loom_syntax.specs.SyntaxError.{TellsFile};

use crate::file::{FileReader, feed, finish};
use crate::token::TokenSpot;
use loom_tree::item::FileItems;
use loom_tree::name::NoMemory;
use loom_tree::token::Token;
use std::alloc::Global;

/// Why tokens were not read as a file.
#[derive(Clone, Copy, Debug, Drop, PartialEq, Eq)]
pub enum SyntaxError {
    /// No file begins with the tokens up to this one, counted from 0. The number of tokens stands for their end.
    Syntax(usize),
    /// Memory ran out.
    NoMemory,
}

impl From<NoMemory> for SyntaxError {
    ghost use Rattle.std.specs.Prelude.{◌≡◌};
    ghost use Rattle.loom_syntax.specs.declared.items.SyntaxError.TheVariants.{NoMemory};

    ghost from_gives = { λ _ e. e ≡ NoMemory };

    fn from(_error: NoMemory) -> SyntaxError {
        SyntaxError::NoMemory
    }
}

/// The items of the file that these tokens of a text are, or the first of them behind which no file can follow.
pub fn read_items(alloc: Global, bytes: &[u8], tokens: &[Token]) -> Result<FileItems, SyntaxError>
    requires small { All (λ t. IsSmall t.kind) tokens.now }
    requires within { All (IsWithin bytes.now) tokens.now }
    ensures { TellsFile (line_tokens bytes.now tokens.now) result }
{
    let mut reader = FileReader::Between(Vec::new(alloc));
    'read: for (i, token) in tokens.iter().enumerate() {
        match feed(alloc, reader, TokenSpot::new(bytes, *token))? {
            Some(next) => reader = next,
            None => return Err(SyntaxError::Syntax(i)),
        }
    }
    match finish(reader) {
        Some(items) => Ok(items),
        None => Err(SyntaxError::Syntax(tokens.len())),
    }
}
