//! The names of a function's locals.
ghost use Rattle.std.specs.Prelude.{◌≡◌, ◌∷◌, [], ◌++◌, OnOk, IfOk};
ghost use Rattle.loom_tree.specs.Tree.{function_of};
ghost use Rattle.loom_lang.specs.Rules.{locals_of};
ghost use Rattle.loom_lang.specs.Fault.{names_of};

use crate::local::Local;
use crate::walk::put_locals;
use loom_tree::name::{Name, NoMemory};
use loom_tree::statement::{Func, Names};
use std::alloc::Global;

fn put(alloc: Global, names: &mut Names, x: &Name) -> Result<(), NoMemory>
    ensures { OnOk result (names.new ≡ names.old ++ x.now ∷ []) }
{
    names.0.push(Name::copied(alloc, x.bytes())?)?;
    Ok(())
}

fn put_names(alloc: Global, names: &mut Names, locals: &[Local]) -> Result<(), NoMemory>
    ensures { OnOk result (names.new ≡ names.old ++ names_of locals.now) }
{
    'copy: for local in locals {
        put(alloc, names, &local.name)?;
    }
    Ok(())
}

/// The names of a function's locals: its parameters, and those of its `let` statements. An `Err` is want of memory.
pub fn locals(alloc: Global, f: &Func) -> Result<Names, NoMemory>
    ensures { IfOk result (λ names. names ≡ locals_of (function_of f.now)) }
{
    let mut found = Vec::new(alloc);
    put_locals(alloc, &mut found, f)?;
    let mut names = Names(Vec::new(alloc));
    put_names(alloc, &mut names, &found)?;
    Ok(names)
}
