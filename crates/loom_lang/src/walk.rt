//! Walks over the statements of functions: the lines on which they begin, and the locals that they declare.
ghost use Rattle.std.specs.Prelude.{◌≡◌, ◌++◌, ◌∷◌, [], OnOk, IfOk, flat_map};
ghost use Rattle.loom_tree.specs.Tree.{Function, body_of, behind, end, function_of, item_of, items_of};
ghost use Rattle.loom_lang.specs.Rules.{statement_lines, lines_of};
ghost use Rattle.loom_lang.specs.FileItems.{funcs_in, source_of_items};
ghost use Rattle.loom_lang.specs.Refusal.{at_line, lets_at, locals_at};

use crate::local::Local;
use loom_tree::item::FileItem;
use loom_tree::name::{Name, NoMemory};
use loom_tree::statement::{Func, Kind, Stmts};
use std::alloc::Global;

#[cycle(lines)]
fn put_lines(found: &mut Vec<u32>, body: &Stmts) -> Result<(), NoMemory>
    ensures { OnOk result (found.new.items ≡ found.old.items ++ statement_lines (body_of body.now)) }
{
    let mut at = body;
    'walk: while let Stmts::More(first, rest) = at {
        put_lines_in(found, first.line, &first.kind)?;
        at = rest;
    }
    Ok(())
}

#[cycle(lines)]
fn put_lines_in(found: &mut Vec<u32>, line: u32, kind: &Kind) -> Result<(), NoMemory>
    ensures { OnOk result (found.new.items ≡ found.old.items ++ statement_lines (behind line kind.now end)) }
{
    found.push(line)?;
    match kind {
        Kind::If(_, a, b) => {
            put_lines(found, a)?;
            put_lines(found, b)
        }
        Kind::While(_, a) => put_lines(found, a),
        _ => Ok(()),
    }
}

fn put_item_lines(found: &mut Vec<u32>, item: &FileItem) -> Result<(), NoMemory>
    ensures { OnOk result (found.new.items ≡ found.old.items ++ flat_map (λ (f : Function). statement_lines f.body) (funcs_in (item_of item.now))) }
{
    match item {
        FileItem::Func(f) => put_lines(found, &f.body),
        _ => Ok(()),
    }
}

/// The lines on which statements begin. An `Err` is want of memory.
pub fn statement_lines(alloc: Global, items: &[FileItem]) -> Result<Vec<u32>, NoMemory>
    ensures { IfOk result (λ ls. ls.items ≡ lines_of (source_of_items (items_of items.now))) }
{
    let mut found = Vec::new(alloc);
    'gather: for item in items {
        put_item_lines(&mut found, item)?;
    }
    Ok(found)
}

fn put(alloc: Global, locals: &mut Vec<Local>, x: &Name, line: u32) -> Result<(), NoMemory>
    ensures { OnOk result (locals.new.items ≡ locals.old.items ++ at_line line (x.now ∷ [])) }
{
    let name = Name::copied(alloc, x.bytes())?;
    locals.push(Local { name, line })?;
    Ok(())
}

fn put_params(alloc: Global, locals: &mut Vec<Local>, f: &Func) -> Result<(), NoMemory>
    ensures { OnOk result (locals.new.items ≡ locals.old.items ++ at_line f.now.line f.now.params) }
{
    'copy: for x in &f.params.0 {
        put(alloc, locals, x, f.line)?;
    }
    Ok(())
}

#[cycle(gather)]
fn put_lets(alloc: Global, locals: &mut Vec<Local>, body: &Stmts) -> Result<(), NoMemory>
    ensures { OnOk result (locals.new.items ≡ locals.old.items ++ lets_at (body_of body.now)) }
{
    let mut at = body;
    'walk: while let Stmts::More(first, rest) = at {
        put_lets_in(alloc, locals, first.line, &first.kind)?;
        at = rest;
    }
    Ok(())
}

#[cycle(gather)]
fn put_lets_in(
    alloc: Global,
    locals: &mut Vec<Local>,
    line: u32,
    kind: &Kind,
) -> Result<(), NoMemory>
    ensures { OnOk result (locals.new.items ≡ locals.old.items ++ lets_at (behind line kind.now end)) }
{
    match kind {
        Kind::Let(x, _) => put(alloc, locals, x, line),
        Kind::If(_, a, b) => {
            put_lets(alloc, locals, a)?;
            put_lets(alloc, locals, b)
        }
        Kind::While(_, a) => put_lets(alloc, locals, a),
        _ => Ok(()),
    }
}

/// Puts the locals of a function behind those that are there. An `Err` is want of memory.
pub fn put_locals(alloc: Global, locals: &mut Vec<Local>, f: &Func) -> Result<(), NoMemory>
    ensures { OnOk result (locals.new.items ≡ locals.old.items ++ locals_at (function_of f.now)) }
{
    put_params(alloc, locals, f)?;
    put_lets(alloc, locals, &f.body)
}
