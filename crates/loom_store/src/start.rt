//! What a run begins with.
ghost use Rattle.std.specs.Prelude.{◌≡◌, ◌≤◌, ◌+◌, ◌++◌, map, flat_map, length, IfOk, OnOk};
ghost use Rattle.loom_tree.specs.declared.item.Word as word;
ghost use Rattle.loom_tree.specs.declared.item.Sema as sema;
ghost use Rattle.loom_lang.specs.Limits.{cell_limit};
ghost use Rattle.loom_lang.specs.Rules.{cells_in, cell_count};
ghost use Rattle.loom_event.specs.Replay.{first_values, nobody};

use loom_lang::limits::CELL_LIMIT;
use loom_tree::item::{Sema, Word};
use loom_tree::name::{Name, NoMemory};
use std::alloc::Global;

// Appends a word's cells.
fn put_cells(values: &mut Vec<i64>, word: &Word) -> Result<(), NoMemory>
    requires few { length values.old.items + cells_in word.now ≤ cell_limit }
    ensures { OnOk result (values.new.items ≡ values.old.items ++ first_values word.now.cells word.now.first) }
{
    match word.cells {
        None => values.push(word.first)?,
        Some(count) => values.resize(values.len() + count as usize, word.first)?,
    }
    Ok(())
}

/// The cells of the words, with their values before the run. An `Err` is want of memory.
pub(crate) fn first_words(alloc: Global, words: &[Word]) -> Result<Vec<i64>, NoMemory>
    requires few { cell_count words.now ≤ cell_limit }
    ensures { IfOk result (λ v. v.items ≡ flat_map (λ (x : word.Word). first_values x.cells x.first) words.now) }
{
    let mut values = Vec::with_capacity(alloc, CELL_LIMIT as usize)?;
    'words: for word in words {
        put_cells(&mut values, word)?;
    }
    Ok(values)
}

/// Nobody holds one of the mutexes. An `Err` is want of memory.
pub(crate) fn first_holders(alloc: Global, mutexes: &[Name]) -> Result<Vec<Option<u8>>, NoMemory>
    ensures { IfOk result (λ v. v.items ≡ map nobody mutexes.now) }
{
    let mut holders = Vec::new(alloc);
    'mutexes: for _mutex in mutexes {
        holders.push(None)?;
    }
    Ok(holders)
}

/// The first values of the semaphores. An `Err` is want of memory.
pub(crate) fn first_counts(alloc: Global, semas: &[Sema]) -> Result<Vec<u32>, NoMemory>
    ensures { IfOk result (λ v. v.items ≡ map (λ (x : sema.Sema). x.first) semas.now) }
{
    let mut counts = Vec::new(alloc);
    'semas: for sema in semas {
        counts.push(sema.first)?;
    }
    Ok(counts)
}
