//! Copies of trees. An `Err` is want of memory throughout.
ghost use Rattle.std.specs.Prelude.{◌≡◌, IfOk};
ghost use Rattle.loom_tree.specs.Chain.{before};
ghost use Rattle.loom_tree.specs.Tree.{expression_of, expressions_of, right_of, returned_of, behind, body_of, end, function_of, functions_of};

use crate::expression::{Expr, Exprs};
use crate::item::{Funcs, Mutexes, Sema, Semas, Word, Words};
use crate::name::{Name, NoMemory};
use crate::statement::{Func, Kind, Names, Right, Stmt, Stmts};
use std::alloc::Global;

fn name(alloc: Global, x: &Name) -> Result<Name, NoMemory>
    ensures { IfOk result (λ n. n ≡ x.now) }
{
    Name::copied(alloc, x.bytes())
}

impl Names {
    /// A copy of the names. An `Err` is want of memory.
    pub fn copied(&self, alloc: Global) -> Result<Names, NoMemory>
        ensures { IfOk result (λ names. names ≡ self.now) }
    {
        let mut copies = Vec::new(alloc);
        'copy: for x in &self.0 {
            copies.push(name(alloc, x)?)?;
        }
        Ok(Names(copies))
    }
}

impl Word {
    /// A copy of the word. An `Err` is want of memory.
    pub fn copied(&self, alloc: Global) -> Result<Word, NoMemory>
        ensures { IfOk result (λ w. w ≡ self.now) }
    {
        Ok(Word {
            name: name(alloc, &self.name)?,
            cells: self.cells,
            first: self.first,
        })
    }
}

impl Sema {
    /// A copy of the semaphore. An `Err` is want of memory.
    pub fn copied(&self, alloc: Global) -> Result<Sema, NoMemory>
        ensures { IfOk result (λ s. s ≡ self.now) }
    {
        Ok(Sema {
            name: name(alloc, &self.name)?,
            first: self.first,
        })
    }
}

impl Words {
    /// A copy of the words. An `Err` is want of memory.
    pub fn copied(&self, alloc: Global) -> Result<Words, NoMemory>
        ensures { IfOk result (λ words. words ≡ self.now) }
    {
        let mut copies = Vec::new(alloc);
        'copy: for w in &self.0 {
            copies.push(w.copied(alloc)?)?;
        }
        Ok(Words(copies))
    }
}

impl Mutexes {
    /// A copy of the mutexes. An `Err` is want of memory.
    pub fn copied(&self, alloc: Global) -> Result<Mutexes, NoMemory>
        ensures { IfOk result (λ mutexes. mutexes ≡ self.now) }
    {
        let mut copies = Vec::new(alloc);
        'copy: for x in &self.0 {
            copies.push(name(alloc, x)?)?;
        }
        Ok(Mutexes(copies))
    }
}

impl Semas {
    /// A copy of the semaphores. An `Err` is want of memory.
    pub fn copied(&self, alloc: Global) -> Result<Semas, NoMemory>
        ensures { IfOk result (λ semas. semas ≡ self.now) }
    {
        let mut copies = Vec::new(alloc);
        'copy: for s in &self.0 {
            copies.push(s.copied(alloc)?)?;
        }
        Ok(Semas(copies))
    }
}

impl Expr {
    /// A copy of the expression. An `Err` is want of memory.
    pub fn copied(&self, alloc: Global) -> Result<Expr, NoMemory>
        ensures { IfOk result (λ e. expression_of e ≡ expression_of self.now) }
    {
        match self {
            Expr::Num(n) => Ok(Expr::Num(*n)),
            Expr::Var(x) => Ok(Expr::Var(name(alloc, x)?)),
            Expr::Cell(x, i) => Ok(Expr::Cell(name(alloc, x)?, Box::new(alloc, i.copied(alloc)?)?)),
            Expr::Neg(a) => Ok(Expr::Neg(Box::new(alloc, a.copied(alloc)?)?)),
            Expr::Not(a) => Ok(Expr::Not(Box::new(alloc, a.copied(alloc)?)?)),
            Expr::Bin(op, a, b) => Ok(Expr::Bin(
                *op,
                Box::new(alloc, a.copied(alloc)?)?,
                Box::new(alloc, b.copied(alloc)?)?,
            )),
        }
    }
}

impl Exprs {
    /// A copy of the expressions. An `Err` is want of memory.
    pub fn copied(&self, alloc: Global) -> Result<Exprs, NoMemory>
        ensures { IfOk result (λ es. expressions_of es ≡ expressions_of self.now) }
    {
        let mut copies = Vec::new(alloc);
        'copy: for e in &self.0 {
            copies.push(e.copied(alloc)?)?;
        }
        Ok(Exprs(copies))
    }
}

impl Right {
    /// A copy of what stands there. An `Err` is want of memory.
    pub fn copied(&self, alloc: Global) -> Result<Right, NoMemory>
        ensures { IfOk result (λ r. right_of r ≡ right_of self.now) }
    {
        match self {
            Right::Value(e) => Ok(Right::Value(e.copied(alloc)?)),
            Right::Call(f, es) => Ok(Right::Call(name(alloc, f)?, es.copied(alloc)?)),
            Right::Spawn(f, es) => Ok(Right::Spawn(name(alloc, f)?, es.copied(alloc)?)),
        }
    }
}

fn returned(alloc: Global, e: &Option<Expr>) -> Result<Option<Expr>, NoMemory>
    ensures { IfOk result (λ r. returned_of r ≡ returned_of e.now) }
{
    match e {
        None => Ok(None),
        Some(e) => Ok(Some(e.copied(alloc)?)),
    }
}

#[tactic(auto, using(crate::proofs::Copies::before_last))]
fn chained(alloc: Global, mut stmts: Vec<Stmt>) -> Result<Stmts, NoMemory>
    ensures { IfOk result (λ b. body_of b ≡ before stmts.items end) }
{
    let mut rest = Stmts::End;
    'up: while let Some(last) = stmts.pop() {
        rest = Stmts::More(Box::new(alloc, last)?, Box::new(alloc, rest)?);
    }
    Ok(rest)
}

#[cycle(copies)]
fn kind(alloc: Global, kind: &Kind) -> Result<Kind, NoMemory>
    ensures { IfOk result (λ k. behind 0 k end ≡ behind 0 kind.now end) }
{
    match kind {
        Kind::Let(x, e) => Ok(Kind::Let(name(alloc, x)?, e.copied(alloc)?)),
        Kind::Set(x, e) => Ok(Kind::Set(name(alloc, x)?, e.copied(alloc)?)),
        Kind::SetCell(x, i, e) => Ok(Kind::SetCell(
            name(alloc, x)?,
            i.copied(alloc)?,
            e.copied(alloc)?,
        )),
        Kind::If(e, a, b) => Ok(Kind::If(e.copied(alloc)?, a.copied(alloc)?, b.copied(alloc)?)),
        Kind::While(e, a) => Ok(Kind::While(e.copied(alloc)?, a.copied(alloc)?)),
        Kind::Call(f, es) => Ok(Kind::Call(name(alloc, f)?, es.copied(alloc)?)),
        Kind::Return(e) => Ok(Kind::Return(returned(alloc, e)?)),
        Kind::Lock(x) => Ok(Kind::Lock(name(alloc, x)?)),
        Kind::Unlock(x) => Ok(Kind::Unlock(name(alloc, x)?)),
        Kind::Down(x) => Ok(Kind::Down(name(alloc, x)?)),
        Kind::Up(x) => Ok(Kind::Up(name(alloc, x)?)),
        Kind::Join(e) => Ok(Kind::Join(e.copied(alloc)?)),
        Kind::Print(e) => Ok(Kind::Print(e.copied(alloc)?)),
        Kind::Skip => Ok(Kind::Skip),
    }
}

impl Stmts {
    /// A copy of the statements. An `Err` is want of memory.
    #[cycle(copies)]
    pub fn copied(&self, alloc: Global) -> Result<Stmts, NoMemory>
        ensures { IfOk result (λ b. body_of b ≡ body_of self.now) }
    {
        let mut copies = Vec::new(alloc);
        let mut at = self;
        'walk: while let Stmts::More(first, rest) = at {
            copies.push(Stmt {
                line: first.line,
                kind: kind(alloc, &first.kind)?,
            })?;
            at = rest;
        }
        chained(alloc, copies)
    }
}

impl Func {
    /// A copy of the function. An `Err` is want of memory.
    pub fn copied(&self, alloc: Global) -> Result<Func, NoMemory>
        ensures { IfOk result (λ f. function_of f ≡ function_of self.now) }
    {
        Ok(Func {
            name: name(alloc, &self.name)?,
            line: self.line,
            params: self.params.copied(alloc)?,
            body: self.body.copied(alloc)?,
        })
    }
}

impl Funcs {
    /// A copy of the functions. An `Err` is want of memory.
    pub fn copied(&self, alloc: Global) -> Result<Funcs, NoMemory>
        ensures { IfOk result (λ fs. functions_of fs ≡ functions_of self.now) }
    {
        let mut copies = Vec::new(alloc);
        'copy: for f in &self.0 {
            copies.push(f.copied(alloc)?)?;
        }
        Ok(Funcs(copies))
    }
}
