//! The numbers of what names stand for, in one function of a program.
ghost use Rattle.std.specs.Prelude.{◌≡◌, ◌<◌, ◌≤◌, Some, true, length};
ghost use Rattle.loom_lang.specs.Limits.{function_limit, local_limit};
ghost use Rattle.loom_lang.specs.Numbers.{index_of, mutex_number, sema_number, function_number};
ghost use Rattle.loom_lang.specs.Rules.{is_in, is_word, is_array, is_sema, is_function};
ghost use Rattle.loom_flow.specs.FlatCode.{array_named, word_named};

use crate::code::Array;
use loom_lang::numbers::{cells, function_number, local_number, mutex_number, sema_number};
use loom_lang::program::Program;
use loom_tree::name::Name;
use loom_tree::statement::Names;

/// A program, and the locals of one of its functions.
#[derive(Drop)]
pub struct Scope {
    /// The program.
    pub program: Program,
    /// The locals, by their numbers: 32 at most.
    pub locals: Names,
    ghost few: { length locals ≤ local_limit },
}

impl Scope {
    /// The number of a local, from 0 to 31; `None` where the name is none.
    pub fn local(&self, x: &Name) -> Option<u8>
        ensures { result ≡ index_of x.now self.now.locals }
    {
        local_number(&self.locals, x)
    }

    /// The cells of an array.
    #[tactic(auto, using(crate::proofs::Roles::in_words))]
    pub fn array(&self, x: &Name) -> Array
        requires { is_array self.now.program.words x.now ≡ true }
        ensures { result ≡ array_named self.now.program x.now }
    {
        let (first, count) = cells(&self.program.words().0, x);
        match count {
            Some(count) => Array { first, count },
            None => unreachable!(),
        }
    }

    /// The number of a word, from 0 to 1023.
    #[tactic(auto, using(crate::proofs::ProgramNumbers::word_in))]
    pub fn word(&self, x: &Name) -> u16
        requires { is_word self.now.program.words x.now ≡ true }
        ensures { result ≡ word_named self.now.program x.now }
    {
        let (first, _) = cells(&self.program.words().0, x);
        first
    }

    /// The number of a mutex, from 0 to 63.
    #[tactic(auto, using(crate::proofs::Roles::not_in))]
    pub fn mutex(&self, x: &Name) -> u8
        requires { is_in x.now self.now.program.mutexes ≡ true }
        ensures { mutex_number self.now.program x.now ≡ Some result }
    {
        match mutex_number(&self.program, x) {
            Some(number) => number,
            None => unreachable!(),
        }
    }

    /// The number of a semaphore, from 0 to 63.
    pub fn sema(&self, x: &Name) -> u8
        requires { is_sema self.now.program.semas x.now ≡ true }
        ensures { sema_number self.now.program x.now ≡ Some result }
    {
        match sema_number(&self.program, x) {
            Some(number) => number,
            None => unreachable!(),
        }
    }

    /// The number of a function, from 0 to 63.
    pub fn function(&self, x: &Name) -> u8
        requires { is_function self.now.program.funcs x.now ≡ true }
        ensures number { function_number self.now.program x.now ≡ Some result }
        ensures below { result < function_limit }
    {
        match function_number(&self.program, x) {
            Some(number) => number,
            None => unreachable!(),
        }
    }
}
