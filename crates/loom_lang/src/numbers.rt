//! The numbers of what a program declares, each counted from 0 in the order of the text.
ghost use Rattle.std.specs.Prelude.{◌≡◌, ◌<◌, ◌≤◌, List, ℕ, Some, IfSome, true, length, map, codes, slice_get};
ghost use Rattle.loom_tree.specs.declared.item.Word as word;
ghost use Rattle.loom_tree.specs.Tree.{Function};
ghost use Rattle.loom_lang.specs.Limits.{function_limit, local_limit, cell_limit};
ghost use Rattle.loom_lang.specs.Numbers.{index_of, cells_from, mutex_number, sema_number, function_number};
ghost use Rattle.loom_lang.specs.Rules.{cells_in, cell_count, is_in};

use crate::names::is_same;
use crate::program::Program;
use loom_tree::item::{Sema, Word};
use loom_tree::name::Name;
use loom_tree::statement::{Func, Names};

// What is declared under a name.
trait Declared {
    // The bytes of its name.
    ghost name: { Self → List ℕ };

    fn name(&self) -> &Name
        ensures { result.now ≡ name self.now };
}

impl Declared for Name {
    ghost name = { λ n. n };

    fn name(&self) -> &Name {
        self
    }
}

impl Declared for Sema {
    ghost name = { λ s. s.name };

    fn name(&self) -> &Name {
        &self.name
    }
}

impl Declared for Func {
    ghost name = { λ f. f.name };

    fn name(&self) -> &Name {
        &self.name
    }
}

// Where a name is declared first.
#[tactic(auto, using(crate::proofs::Lookups::from_zero))]
fn index_of<D: Declared>(items: &[D], name: &[u8]) -> Option<u8>
    requires { length items.now ≤ 256 }
    ensures number { result ≡ index_of name.now (map D.name items.now) }
    ensures within { IfSome result (λ n. n < length items.now) }
{
    'scan: for (i, item) in items.iter().enumerate() {
        if is_same(item.name(), name) {
            return Some(i as u8);
        }
    }
    None
}

/// The number of a local of a function; `None` where the name is none of its locals.
#[tactic(auto, using(crate::proofs::Lookups::names_of_names))]
pub fn local_number(locals: &Names, x: &Name) -> Option<u8>
    requires { length locals.now ≤ local_limit }
    ensures { result ≡ index_of x.now locals.now }
{
    index_of(locals.0.as_slice(), x.bytes())
}

/// The number of a mutex; `None` where the name is none of a mutex.
#[tactic(auto, using(crate::proofs::Lookups::few_mutexes, crate::proofs::Lookups::names_of_names))]
pub fn mutex_number(program: &Program, x: &Name) -> Option<u8>
    ensures { result ≡ mutex_number program.now x.now }
{
    index_of(program.mutexes().0.as_slice(), x.bytes())
}

/// The number of a semaphore; `None` where the name is none of a semaphore.
#[tactic(auto, using(crate::proofs::Lookups::few_semas))]
pub fn sema_number(program: &Program, x: &Name) -> Option<u8>
    ensures { result ≡ sema_number program.now x.now }
{
    index_of(program.semas().0.as_slice(), x.bytes())
}

/// The number of a function; `None` where the name is none of a function.
#[tactic(auto, using(crate::proofs::Lookups::few_functions))]
pub fn function_number(program: &Program, x: &Name) -> Option<u8>
    ensures number { result ≡ function_number program.now x.now }
    ensures within { IfSome result (λ n. n < function_limit) }
{
    index_of(program.funcs().0.as_slice(), x.bytes())
}

/// The number of `main`, which has no parameters.
#[tactic(auto, using(crate::proofs::Lookups::few_functions))]
pub fn main_number(program: &Program) -> u8
    ensures number { function_number program.now (codes "main") ≡ Some result }
    ensures function { (f : Function) × (slice_get program.now.funcs result ≡ Some f) × (0 ≡ length f.params) }
{
    match index_of(program.funcs().0.as_slice(), b"main".as_slice()) {
        Some(number) => number,
        None => unreachable!(),
    }
}

// How many cells a word or an array has, a plain word one.
fn cell_count(w: &Word) -> u16
    requires { cells_in w.now ≤ cell_limit }
    ensures { result ≡ cells_in w.now }
{
    match w.cells {
        None => 1,
        Some(count) => count as u16,
    }
}

// How many cells an array has; none where it is a plain word.
fn array_length(w: &Word) -> Option<u16>
    requires { cells_in w.now ≤ cell_limit }
    ensures { result ≡ w.now.cells }
{
    match w.cells {
        None => None,
        Some(count) => Some(count as u16),
    }
}

/// The cells of the word or array of a name: the number of the first, and how many there are where it is an array.
pub fn cells(words: &[Word], x: &Name) -> (u16, Option<u16>)
    requires room { cell_count words.now ≤ cell_limit }
    requires there { is_in x.now (map (λ (w : word.Word). w.name) words.now) ≡ true }
    ensures { cells_from 0 words.now x.now ≡ Some (record { first = result.0; count = result.1 }) }
{
    let mut first: u16 = 0;
    'scan: for w in words {
        if is_same(&w.name, x.bytes()) {
            return (first, array_length(w));
        }
        first += cell_count(w);
    }
    unreachable!()
}
