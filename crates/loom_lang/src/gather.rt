//! From the items of a file to what it declares.
ghost use Rattle.std.specs.Prelude.{◌≡◌, ◌≤◌, OnOk, IfOk, MatchOption};
ghost use Rattle.loom_tree.specs.Tree.{item_of, items_of};
ghost use Rattle.loom_lang.specs.Limits.{cell_limit};
ghost use Rattle.loom_lang.specs.Rules.{cell_count};
ghost use Rattle.loom_lang.specs.FileItems.{source_of_items, nothing, with_item, words_in};

use crate::declarations::Declarations;
use loom_tree::item::{FileItem, FileItems, Funcs, Mutexes, Sema, Semas, Word, Words};
use loom_tree::name::NoMemory;
use std::alloc::Global;

/// How many cells an array has, which aren't more than a program may have.
fn few_cells(cells: Option<u64>) -> Option<u32>
    requires { MatchOption cells (Unit {0}) (λ n. n ≤ cell_limit) }
    ensures { result ≡ cells }
{
    match cells {
        None => None,
        Some(n) => Some(n as u32),
    }
}

fn nothing(alloc: Global) -> Declarations
    ensures { result ≡ nothing }
{
    Declarations {
        words: Words(Vec::new(alloc)),
        mutexes: Mutexes(Vec::new(alloc)),
        semas: Semas(Vec::new(alloc)),
        funcs: Funcs(Vec::new(alloc)),
    }
}

/// Puts an item behind those of its kind. An `Err` is want of memory.
fn put(p: &mut Declarations, item: FileItem) -> Result<(), NoMemory>
    requires { cell_count (words_in (item_of item)) ≤ cell_limit }
    ensures { OnOk result (p.new ≡ with_item p.old (item_of item)) }
{
    match item {
        FileItem::Word {
            line: _,
            name,
            cells,
            first,
        } => {
            let cells = few_cells(cells);
            p.words.0.push(Word { name, cells, first })?;
        }
        FileItem::Mutex { line: _, name } => p.mutexes.0.push(name)?,
        FileItem::Sema {
            line: _,
            name,
            first,
        } => p.semas.0.push(Sema { name, first })?,
        FileItem::Func(f) => p.funcs.0.push(f)?,
    }
    Ok(())
}

/// What the items declare, which have no more cells than a program may have. An `Err` is want of memory.
pub fn gather(alloc: Global, items: FileItems) -> Result<Declarations, NoMemory>
    requires { cell_count (source_of_items (items_of items)).words ≤ cell_limit }
    ensures { IfOk result (λ p. p ≡ source_of_items (items_of items)) }
{
    let mut p = nothing(alloc);
    'items: for item in items.0 {
        put(&mut p, item)?;
    }
    Ok(p)
}
