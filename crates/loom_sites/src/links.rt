//! The table of the places of a program: what stands at each, and where paths lead from there. An `Err` is want of memory throughout.
ghost use Rattle.std.specs.Prelude.{◌≡◌, ◌<◌, ◌≤◌, ◌+◌, ◌∷◌, ◌++◌, [], ℕ, OnOk, IfOk, length};
ghost use Rattle.loom_tree.specs.Tree.{Expression, body_of, function_of, functions_of, right_of, if_, while_, end};
ghost use Rattle.loom_tree.specs.Tree as tree;
ghost use Rattle.loom_trace.specs.Limits.{place_limit};
ghost use Rattle.loom_lang.specs.Limits.{function_limit};
ghost use Rattle.loom_lang.specs.Places.{places_from};
ghost use Rattle.loom_flow.specs.FlatCode.{place_count};
ghost use Rattle.loom_plan.specs.Table.{inner_places};
ghost use Rattle.loom_sites.specs.Links.{is_statement, is_entry, is_turn, is_return_kind, call_kind, right_kind, first_at, frame_row, simple_row, body_rows, functions_rows, program_rows};

use crate::node::TableNode;
use crate::size::{kind_count, place_count};
use loom_lang::numbers::function_number;
use loom_lang::program::Program;
use loom_tree::name::{Name, NoMemory};
use loom_tree::statement::{Func, Kind, Right, Stmts};
use std::alloc::Global;

/// What stands at a place.
#[derive(Clone, Copy, Debug, Drop, PartialEq, Eq)]
pub enum PlaceKind {
    /// No statement: it is place 0, or the entry place of a function.
    Entry,
    /// No statement: it is the out place of a function.
    Out,
    /// The back edge of the loop whose own place is the one before.
    Turn,
    /// A statement that neither returns nor calls.
    Plain,
    /// A `return`.
    Return,
    /// A statement that itself calls the function of this number.
    Call(u8),
}

/// A place: what stands there, and where paths lead from there.
#[derive(Clone, Copy, Debug, Drop, PartialEq, Eq)]
pub struct PlaceLinks {
    /// A node behind the start.
    pub first: TableNode,
    /// The other one, or the same.
    pub second: TableNode,
    /// The node behind the completion.
    pub behind: TableNode,
    /// The place behind all of the statement.
    pub end: u16,
    /// The number of the function; 0 at place 0.
    pub function: u8,
    /// What stands there.
    pub kind: PlaceKind,
}

/// The function to which places belong, by its number, and its out place.
#[derive(Clone, Copy, Debug, Drop)]
pub struct Owner {
    /// Its number.
    pub number: u8,
    /// Its out place.
    pub out: u16,
}

/// Whether a statement stands there.
pub fn is_statement(kind: PlaceKind) -> bool
    ensures { result ≡ is_statement kind }
{
    match kind {
        PlaceKind::Entry => false,
        PlaceKind::Out => false,
        PlaceKind::Turn => false,
        PlaceKind::Plain => true,
        PlaceKind::Return => true,
        PlaceKind::Call(_) => true,
    }
}

/// Whether it is an entry place, or place 0.
pub fn is_entry(kind: PlaceKind) -> bool
    ensures { result ≡ is_entry kind }
{
    match kind {
        PlaceKind::Entry => true,
        PlaceKind::Out => false,
        PlaceKind::Turn => false,
        PlaceKind::Plain => false,
        PlaceKind::Return => false,
        PlaceKind::Call(_) => false,
    }
}

/// Whether it is a back edge.
pub fn is_turn(kind: PlaceKind) -> bool
    ensures { result ≡ is_turn kind }
{
    match kind {
        PlaceKind::Entry => false,
        PlaceKind::Out => false,
        PlaceKind::Turn => true,
        PlaceKind::Plain => false,
        PlaceKind::Return => false,
        PlaceKind::Call(_) => false,
    }
}

/// Whether a `return` stands there.
pub fn is_return(kind: PlaceKind) -> bool
    ensures { result ≡ is_return_kind kind }
{
    match kind {
        PlaceKind::Entry => false,
        PlaceKind::Out => false,
        PlaceKind::Turn => false,
        PlaceKind::Plain => false,
        PlaceKind::Return => true,
        PlaceKind::Call(_) => false,
    }
}

fn call_kind(program: &Program, f: &Name) -> PlaceKind
    ensures { result ≡ call_kind program.now f.now }
{
    match function_number(program, f) {
        None => PlaceKind::Plain,
        Some(number) => PlaceKind::Call(number),
    }
}

fn right_kind(program: &Program, right: &Right) -> PlaceKind
    ensures { result ≡ right_kind program.now (right_of right.now) }
{
    match right {
        Right::Value(_) => PlaceKind::Plain,
        Right::Call(f, _) => call_kind(program, f),
        Right::Spawn(_, _) => PlaceKind::Plain,
    }
}

/// The first node of statements whose places begin here, or the node behind them.
fn first_at(body: &Stmts, place: u16, next: TableNode) -> TableNode
    ensures { result ≡ first_at (body_of body.now) place next }
{
    match body {
        Stmts::End => next,
        Stmts::More(_, _) => TableNode::Start(place),
    }
}

/// A place at which paths end and no statement stands.
fn frame_row(kind: PlaceKind, place: u16, function: u8) -> PlaceLinks
    ensures { result ≡ frame_row kind place function }
{
    let own = TableNode::Start(place);
    PlaceLinks {
        first: own,
        second: own,
        behind: own,
        end: place,
        function,
        kind,
    }
}

fn put_simple(
    rows: &mut Vec<PlaceLinks>,
    owner: Owner,
    kind: PlaceKind,
    next: TableNode,
) -> Result<(), NoMemory>
    requires { length rows.old.items < place_limit }
    ensures { OnOk result (rows.new.items ≡ rows.old.items ++ simple_row owner (length rows.old.items) kind next ∷ []) }
{
    let own = rows.len() as u16;
    rows.push(PlaceLinks {
        first: TableNode::Complete(own),
        second: TableNode::Complete(own),
        behind: next,
        end: own + 1,
        function: owner.number,
        kind,
    })?;
    Ok(())
}

#[cycle(tables)]
fn put_choice(
    rows: &mut Vec<PlaceLinks>,
    program: &Program,
    owner: Owner,
    a: &Stmts,
    b: &Stmts,
    next: TableNode,
) -> Result<(), NoMemory>
    requires { length rows.old.items + (1 + (place_count (body_of a.now) + place_count (body_of b.now))) ≤ place_limit }
    ensures { (l : ℕ) (e : Expression) → OnOk result (rows.new.items ≡ rows.old.items ++ body_rows program.now owner (length rows.old.items) (if_ l e (body_of a.now) (body_of b.now) end) next) }
{
    let own = rows.len() as u16;
    let done = TableNode::Complete(own);
    let other = own + 1 + place_count(a);
    rows.push(PlaceLinks {
        first: first_at(a, own + 1, done),
        second: first_at(b, other, done),
        behind: next,
        end: other + place_count(b),
        function: owner.number,
        kind: PlaceKind::Plain,
    })?;
    put_body(rows, program, owner, a, done)?;
    put_body(rows, program, owner, b, done)?;
    Ok(())
}

#[cycle(tables)]
fn put_loop(
    rows: &mut Vec<PlaceLinks>,
    program: &Program,
    owner: Owner,
    a: &Stmts,
    next: TableNode,
) -> Result<(), NoMemory>
    requires { length rows.old.items + (2 + place_count (body_of a.now)) ≤ place_limit }
    ensures { (l : ℕ) (e : Expression) → OnOk result (rows.new.items ≡ rows.old.items ++ body_rows program.now owner (length rows.old.items) (while_ l e (body_of a.now) end) next) }
{
    let own = rows.len() as u16;
    let turn = TableNode::Start(own + 1);
    let row = PlaceLinks {
        first: first_at(a, own + 2, turn),
        second: TableNode::Complete(own),
        behind: next,
        end: own + 2 + place_count(a),
        function: owner.number,
        kind: PlaceKind::Plain,
    };
    rows.push(row)?;
    rows.push(PlaceLinks {
        kind: PlaceKind::Turn,
        ..row
    })?;
    put_body(rows, program, owner, a, turn)?;
    Ok(())
}

/// The places of statements, those nested in others too.
#[cycle(tables)]
fn put_body(
    rows: &mut Vec<PlaceLinks>,
    program: &Program,
    owner: Owner,
    body: &Stmts,
    next: TableNode,
) -> Result<(), NoMemory>
    requires { length rows.old.items + place_count (body_of body.now) ≤ place_limit }
    ensures { OnOk result (rows.new.items ≡ rows.old.items ++ body_rows program.now owner (length rows.old.items) (body_of body.now) next) }
{
    let mut at = body;
    'walk: while let Stmts::More(first, rest) = at {
        let end = rows.len() as u16 + kind_count(&first.kind);
        put_statement(rows, program, owner, &first.kind, first_at(rest, end, next))?;
        at = rest;
    }
    Ok(())
}

#[cycle(tables)]
fn put_statement(
    rows: &mut Vec<PlaceLinks>,
    program: &Program,
    owner: Owner,
    kind: &Kind,
    next: TableNode,
) -> Result<(), NoMemory>
    requires { length rows.old.items + (1 + length (inner_places kind.now)) ≤ place_limit }
    ensures { OnOk result (rows.new.items ≡ rows.old.items ++ body_rows program.now owner (length rows.old.items) (tree.behind 0 kind.now end) next) }
{
    match kind {
        Kind::Let(_, right) => put_simple(rows, owner, right_kind(program, right), next),
        Kind::Set(_, right) => put_simple(rows, owner, right_kind(program, right), next),
        Kind::SetCell(_, _, _) => put_simple(rows, owner, PlaceKind::Plain, next),
        Kind::If(_, a, b) => put_choice(rows, program, owner, a, b, next),
        Kind::While(_, a) => put_loop(rows, program, owner, a, next),
        Kind::Call(f, _) => put_simple(rows, owner, call_kind(program, f), next),
        Kind::Return(_) => put_simple(rows, owner, PlaceKind::Return, TableNode::Start(owner.out)),
        Kind::Lock(_) => put_simple(rows, owner, PlaceKind::Plain, next),
        Kind::Unlock(_) => put_simple(rows, owner, PlaceKind::Plain, next),
        Kind::Down(_) => put_simple(rows, owner, PlaceKind::Plain, next),
        Kind::Up(_) => put_simple(rows, owner, PlaceKind::Plain, next),
        Kind::Join(_) => put_simple(rows, owner, PlaceKind::Plain, next),
        Kind::Print(_) => put_simple(rows, owner, PlaceKind::Plain, next),
        Kind::Skip => put_simple(rows, owner, PlaceKind::Plain, next),
    }
}

/// The places of a function.
fn put_function(
    rows: &mut Vec<PlaceLinks>,
    program: &Program,
    number: u8,
    f: &Func,
) -> Result<(), NoMemory>
    requires { length rows.old.items + (2 + place_count (body_of f.now.body)) ≤ place_limit }
    ensures { OnOk result (rows.new.items ≡ rows.old.items ++ functions_rows program.now number (length rows.old.items) (function_of f.now ∷ [])) }
{
    let entry = rows.len() as u16;
    let out = entry + 1 + place_count(&f.body);
    rows.push(frame_row(PlaceKind::Entry, entry, number))?;
    let owner = Owner { number, out };
    put_body(rows, program, owner, &f.body, TableNode::Start(out))?;
    rows.push(frame_row(PlaceKind::Out, out, number))?;
    Ok(())
}

fn put_functions(
    rows: &mut Vec<PlaceLinks>,
    program: &Program,
    funcs: &[Func],
) -> Result<(), NoMemory>
    requires few { length funcs.now ≤ function_limit }
    requires room { length rows.old.items + length (places_from 0 (functions_of funcs.now)) ≤ place_limit }
    ensures { OnOk result (rows.new.items ≡ rows.old.items ++ functions_rows program.now 0 (length rows.old.items) (functions_of funcs.now)) }
{
    'functions: for (i, f) in funcs.iter().enumerate() {
        put_function(rows, program, i as u8, f)?;
    }
    Ok(())
}

/// A row for each place of the program, by its number.
pub fn link_rows(alloc: Global, program: &Program) -> Result<Vec<PlaceLinks>, NoMemory>
    ensures { IfOk result (λ v. v.items ≡ program_rows program.now) }
{
    let mut rows = Vec::new(alloc);
    rows.push(frame_row(PlaceKind::Entry, 0, 0))?;
    put_functions(&mut rows, program, &program.funcs().0)?;
    Ok(rows)
}
