//! Programs.
ghost use Rattle.std.specs.Prelude.{◌≡◌, IfOk};
ghost use Rattle.loom_tree.specs.Tree.{functions_of};
ghost use Rattle.loom_lang.specs.Rules.{KeepsRules};

use crate::declarations::Declarations;
use loom_tree::item::{Funcs, Mutexes, Semas, Words};
use loom_tree::name::NoMemory;
use std::alloc::Global;
use std::marker::Model;

/// A program, which keeps the rules on names and the limits.
#[derive(Debug, Drop)]
pub struct Program {
    words: Words,
    mutexes: Mutexes,
    semas: Semas,
    funcs: Funcs,
}

impl Model for Program {
    ghost use Rattle.loom_tree.specs.Code.{source_code};
    ghost use Rattle.loom_tree.specs.Tree.{Source, functions_of};
    ghost use Rattle.loom_lang.specs.Rules.{KeepsRules};

    ghost Value = { Source };

    ghost coded = { source_code };

    ghost view = { λ p. record { words = p.words; mutexes = p.mutexes; semas = p.semas; funcs = functions_of p.funcs } };

    ghost invariant = { λ p. KeepsRules (record { words = p.words; mutexes = p.mutexes; semas = p.semas; funcs = functions_of p.funcs }) };
}

impl Program {
    pub(crate) fn new(p: Declarations) -> Program
        requires { KeepsRules p }
        ensures { result ≡ p }
    {
        let Declarations {
            words,
            mutexes,
            semas,
            funcs,
        } = p;
        Program {
            words,
            mutexes,
            semas,
            funcs,
        }
    }

    /// The words and arrays, in the order of the text.
    pub fn words(&self) -> &Words
        ensures words { result.now ≡ self.now.words }
        ensures rules { KeepsRules self.now }
    {
        &self.words
    }

    /// The mutexes, in the order of the text.
    pub fn mutexes(&self) -> &Mutexes
        ensures mutexes { result.now ≡ self.now.mutexes }
        ensures rules { KeepsRules self.now }
    {
        &self.mutexes
    }

    /// The semaphores, in the order of the text.
    pub fn semas(&self) -> &Semas
        ensures semas { result.now ≡ self.now.semas }
        ensures rules { KeepsRules self.now }
    {
        &self.semas
    }

    /// The functions, in the order of the text.
    pub fn funcs(&self) -> &Funcs
        ensures funcs { functions_of result.now ≡ self.now.funcs }
        ensures rules { KeepsRules self.now }
    {
        &self.funcs
    }

    /// A copy of the program. An `Err` is want of memory.
    pub fn copied(&self, alloc: Global) -> Result<Program, NoMemory>
        ensures { IfOk result (λ q. q ≡ self.now) }
    {
        Ok(Program {
            words: self.words.copied(alloc)?,
            mutexes: self.mutexes.copied(alloc)?,
            semas: self.semas.copied(alloc)?,
            funcs: self.funcs.copied(alloc)?,
        })
    }
}
