//! From a program to its canonical text.
ghost use Rattle.std.specs.Prelude.{◌≡◌, IfOk};
ghost use Rattle.loom_lang.specs.Canonical.{canonical_text};

use crate::item::{put_functions, put_mutexes, put_semas, put_words};
use loom_lang::program::Program;
use loom_tree::name::{Name, NoMemory};
use std::alloc::Global;

/// The canonical text of a program. An `Err` is want of memory.
#[tactic(auto, using(crate::proofs::ItemText::have_forms))]
pub fn print_program(alloc: Global, p: &Program) -> Result<Name, NoMemory>
    ensures { IfOk result (λ text. text ≡ canonical_text p.now) }
{
    let mut out = Name(Vec::new(alloc));
    put_words(&mut out, p.words())?;
    put_mutexes(&mut out, p.mutexes())?;
    put_semas(&mut out, p.semas())?;
    put_functions(&mut out, p.funcs())?;
    Ok(out)
}
