//! A file's items, or where their reading stops.
ghost use Rattle.std.specs.Prelude.{◌≤◌, length};
ghost use Rattle.loom_lang.specs.Limits.{file_limit};

use loom_lexer::text::tokenize;
use loom_syntax::items::{SyntaxError, read_items};
use loom_tree::item::FileItems;
use loom_tree::name::NoMemory;
use loom_tree::token::Token;
use std::alloc::Global;

/// What the grammar makes of a file.
#[derive(Drop)]
pub enum Reading {
    /// Its items.
    Items(FileItems),
    /// The first token behind which no program can follow; `None` stands for the end of the file.
    Stop(Option<Token>),
}

/// What it makes of these bytes. An `Err` is want of memory.
pub fn reading_of(alloc: Global, file: &[u8]) -> Result<Reading, NoMemory>
    requires { length file.now ≤ file_limit }
{
    let tokens = tokenize(alloc, file)?;
    match read_items(alloc, file, &tokens.0) {
        Ok(items) => Ok(Reading::Items(items)),
        Err(SyntaxError::Syntax(n)) => Ok(Reading::Stop(tokens.0.get(n).copied())),
        Err(SyntaxError::NoMemory) => Err(NoMemory),
    }
}
