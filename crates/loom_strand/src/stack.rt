//! A stack, with room that is taken beforehand.
ghost use Rattle.std.specs.Prelude.{◌≡◌, ◌≤◌, ◌<◌, [], ◌∷◌, IfOk, length, drop, take, reverse};
ghost use Rattle.loom_lang.specs.Limits.{param_limit};
ghost use Rattle.loom_flow.specs.State.{top};
ghost use Rattle.loom_strand.specs.Stack.{first};

use crate::args::args_of;
use loom_trace::row::Args;
use loom_tree::name::NoMemory;
use std::alloc::Global;
use std::marker::Model;

/// A stack, with room for as many elements as there may be.
#[derive(Debug, Drop)]
pub(crate) struct Stack<T> {
    // the top last
    items: Vec<T>,
}

impl<T> Model for Stack<T> {
    ghost use Rattle.std.specs.Prelude.{reverse, vec_capacity};
    ghost use Rattle.loom_strand.specs.Stack as stack;

    ghost Value = { stack.Stack T };

    ghost view = { λ s. record { items = reverse s.items.items; most = vec_capacity s.items } };
}

impl<T: Drop> Stack<T> {
    /// An empty one, with room for so many. An `Err` is want of memory.
    pub fn make(alloc: Global, most: usize) -> Result<Stack<T>, NoMemory>
        ensures { IfOk result (λ s. s ≡ record { items = []; most = most }) }
    {
        let items = Vec::with_capacity(alloc, most)?;
        Ok(Stack { items })
    }

    /// How many there are.
    #[tactic(auto, using(crate::proofs::Stacks::length_last))]
    pub fn len(&self) -> usize
        ensures { result ≡ length self.now.items }
    {
        self.items.len()
    }

    /// Puts one on top.
    #[tactic(auto, using(crate::proofs::Stacks::put_last))]
    pub fn push(&mut self, x: T)
        requires { length self.old.items < self.old.most }
        ensures { self.new ≡ record { items = x ∷ self.old.items; most = self.old.most } }
    {
        self.items.push_reserved(x);
    }

    /// Takes off the one on top, if there is one.
    #[tactic(auto, using(crate::proofs::Stacks::first_last, crate::proofs::Stacks::drop_last))]
    pub fn pop(&mut self) -> Option<T>
        ensures top { result ≡ first self.old.items }
        ensures rest { self.new ≡ record { items = drop 1 self.old.items; most = self.old.most } }
    {
        self.items.pop()
    }

    /// Takes off so many, or all if there are no more.
    #[tactic(auto, using(crate::proofs::Stacks::rest_last))]
    pub fn drop_last(&mut self, n: usize)
        ensures { self.new ≡ record { items = drop n self.old.items; most = self.old.most } }
    {
        let kept = self.items.len().saturating_sub(n);
        self.items.truncate(kept);
    }
}

impl Stack<i64> {
    /// The value on top.
    pub fn top(&self) -> i64
        requires { 1 ≤ length self.now.items }
        ensures { result ≡ top self.now.items }
    {
        self.items[self.items.len() - 1]
    }

    /// The value below the one on top.
    pub fn second(&self) -> i64
        requires { 2 ≤ length self.now.items }
        ensures { result ≡ top (drop 1 self.now.items) }
    {
        self.items[self.items.len() - 2]
    }

    /// The last ones put on, so many, in their order.
    #[tactic(auto, using(crate::proofs::Stacks::taken_last))]
    pub fn last(&self, n: usize) -> Args
        requires few { n ≤ param_limit }
        requires there { n ≤ length self.now.items }
        ensures { result ≡ reverse (take n self.now.items) }
    {
        args_of(&self.items[self.items.len() - n..])
    }
}
