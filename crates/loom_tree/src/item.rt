//! The items of a program.

use crate::name::Name;
use crate::statement::Func;
use std::marker::Model;

/// A shared word, or an array of them.
#[derive(Debug, Drop)]
pub struct Word {
    /// Its name.
    pub name: Name,
    /// How many cells an array has; `None` for a plain word.
    pub cells: Option<u32>,
    /// The first value of a plain word; 0 for an array.
    pub first: i64,
}

/// A list of words.
#[derive(Debug, Drop)]
pub struct Words(pub Vec<Word>);

impl Model for Words {
    ghost use Rattle.std.specs.Prelude.{List};
    ghost use Rattle.loom_tree.specs.declared.item.Word.{Word};

    ghost Value = { List Word };

    ghost view = { λ n. n.0.items };
}

/// A list of mutexes.
#[derive(Debug, Drop)]
pub struct Mutexes(pub Vec<Name>);

impl Model for Mutexes {
    ghost use Rattle.std.specs.Prelude.{List, ℕ};

    ghost Value = { List (List ℕ) };

    ghost view = { λ n. n.0.items };
}

/// A semaphore, and its first value, from 0 to 2147483647.
#[derive(Debug, Drop)]
pub struct Sema {
    /// Its name.
    pub name: Name,
    /// Its first value.
    pub first: u32,
}

/// A list of semaphores.
#[derive(Debug, Drop)]
pub struct Semas(pub Vec<Sema>);

impl Model for Semas {
    ghost use Rattle.std.specs.Prelude.{List};
    ghost use Rattle.loom_tree.specs.declared.item.Sema.{Sema};

    ghost Value = { List Sema };

    ghost view = { λ n. n.0.items };
}

/// A list of functions.
#[derive(Debug, Drop)]
pub struct Funcs(pub Vec<Func>);

impl Model for Funcs {
    ghost use Rattle.std.specs.Prelude.{List};
    ghost use Rattle.loom_tree.specs.declared.statement.Func.{Func};
    ghost use Rattle.loom_tree.specs.contracts.statement.Stmts as s;
    ghost use Rattle.std.specs.Coded.{codes};

    ghost Value = { List Func };

    ghost coded = { Prim.hlevel (codes, s.the_row.coded) };

    ghost view = { λ n. n.0.items };
}

/// An item of a file, with the line on which it begins.
#[derive(Debug, Drop)]
pub enum FileItem {
    /// A word or an array.
    Word {
        line: u32,
        name: Name,
        /// How many cells an array has, as the file says; `None` for a plain word.
        cells: Option<u64>,
        /// The first value of a plain word; 0 for an array.
        first: i64,
    },
    /// A mutex.
    Mutex {
        line: u32,
        name: Name,
    },
    /// A semaphore, and its first value.
    Sema {
        line: u32,
        name: Name,
        first: u32,
    },
    /// A function; its line is that of its `fn`.
    Func(Func),
}

/// The items of a file, in the order of the text.
#[derive(Debug, Drop)]
pub struct FileItems(pub Vec<FileItem>);

impl Model for FileItems {
    ghost use Rattle.std.specs.Prelude.{List};
    ghost use Rattle.loom_tree.specs.declared.item.FileItem.{FileItem};
    ghost use Rattle.loom_tree.specs.contracts.item.FileItem as i;
    ghost use Rattle.std.specs.Coded.{codes};

    ghost Value = { List FileItem };

    ghost coded = { Prim.hlevel (codes, i.the_row.coded) };

    ghost view = { λ n. n.0.items };
}
