//! Names that aren't known in their role.
ghost use Rattle.std.specs.Prelude.{◌≡◌, OnOk, flat_map};
ghost use Rattle.loom_tree.specs.Tree.{Function, expression_of, expressions_of, right_of, returned_of, body_of, behind, end, item_of, items_of};
ghost use Rattle.loom_lang.specs.declared.refusal.Reason.TheVariants as reason;
ghost use Rattle.loom_lang.specs.Rules.{locals_of, knows, knows_all, knows_call, knows_right, knows_returned};
ghost use Rattle.loom_lang.specs.FileItems.{funcs_in, source_of_items};
ghost use Rattle.loom_lang.specs.Refusal.{unknown_lines, lines_of_reason};
ghost use Rattle.loom_lang.specs.Fault.{knows_head, names_of, behind_faults};

use crate::fault::note_if;
use crate::local::Local;
use crate::names;
use crate::refusal::{LangRefusal, Reason};
use crate::walk::put_locals;
use loom_tree::expression::{Expr, Exprs};
use loom_tree::item::FileItem;
use loom_tree::name::{Name, NoMemory};
use loom_tree::statement::{Kind, Right, Stmts};
use std::alloc::Global;

fn knows(items: &[FileItem], locals: &[Local], e: &Expr) -> bool
    ensures { result ≡ knows (source_of_items (items_of items.now)) (names_of locals.now) (expression_of e.now) }
{
    match e {
        Expr::Num(_) => true,
        Expr::Var(x) => names::is_local(x, locals) || names::is_word(items, x),
        Expr::Cell(x, i) => names::is_array(items, x) && knows(items, locals, i),
        Expr::Neg(a) => knows(items, locals, a),
        Expr::Not(a) => knows(items, locals, a),
        Expr::Bin(_, a, b) => knows(items, locals, a) && knows(items, locals, b),
    }
}

fn knows_all(items: &[FileItem], locals: &[Local], es: &Exprs) -> bool
    ensures { result ≡ knows_all (source_of_items (items_of items.now)) (names_of locals.now) (expressions_of es.now) }
{
    'scan: for e in &es.0 {
        if !knows(items, locals, e) {
            return false;
        }
    }
    true
}

fn knows_call(items: &[FileItem], locals: &[Local], f: &Name, es: &Exprs) -> bool
    ensures { result ≡ knows_call (source_of_items (items_of items.now)) (names_of locals.now) f.now (expressions_of es.now) }
{
    names::is_function(items, f.bytes()) && knows_all(items, locals, es)
}

fn knows_right(items: &[FileItem], locals: &[Local], x: &Name, right: &Right) -> bool
    ensures { result ≡ knows_right (source_of_items (items_of items.now)) (names_of locals.now) x.now (right_of right.now) }
{
    match right {
        Right::Value(e) => {
            (names::is_local(x, locals) || names::is_word(items, x)) && knows(items, locals, e)
        }
        Right::Call(f, es) => names::is_local(x, locals) && knows_call(items, locals, f, es),
        Right::Spawn(f, es) => names::is_local(x, locals) && knows_call(items, locals, f, es),
    }
}

fn knows_returned(items: &[FileItem], locals: &[Local], e: &Option<Expr>) -> bool
    ensures { result ≡ knows_returned (source_of_items (items_of items.now)) (names_of locals.now) (returned_of e.now) }
{
    match e {
        None => true,
        Some(e) => knows(items, locals, e),
    }
}

/// Whether the names of a statement are known in their roles, those of its blocks aside.
fn knows_head(items: &[FileItem], locals: &[Local], kind: &Kind) -> bool
    ensures { result ≡ knows_head (source_of_items (items_of items.now)) (names_of locals.now) (behind 0 kind.now end) }
{
    match kind {
        Kind::Let(x, right) => knows_right(items, locals, x, right),
        Kind::Set(x, right) => knows_right(items, locals, x, right),
        Kind::SetCell(x, i, e) => {
            names::is_array(items, x) && (knows(items, locals, i) && knows(items, locals, e))
        }
        Kind::If(e, _, _) => knows(items, locals, e),
        Kind::While(e, _) => knows(items, locals, e),
        Kind::Call(f, es) => knows_call(items, locals, f, es),
        Kind::Return(e) => knows_returned(items, locals, e),
        Kind::Lock(x) => names::is_mutex(items, x),
        Kind::Unlock(x) => names::is_mutex(items, x),
        Kind::Down(x) => names::is_sema(items, x),
        Kind::Up(x) => names::is_sema(items, x),
        Kind::Join(e) => knows(items, locals, e),
        Kind::Print(e) => knows(items, locals, e),
        Kind::Skip => true,
    }
}

#[cycle(unknown)]
fn note_body(items: &[FileItem], locals: &[Local], body: &Stmts, first: &mut Option<LangRefusal>)
    ensures { first.new ≡ behind_faults first.old reason.UnknownName (unknown_lines (source_of_items (items_of items.now)) (names_of locals.now) (body_of body.now)) }
{
    let mut at = body;
    'walk: while let Stmts::More(stmt, rest) = at {
        note_statement(items, locals, stmt.line, &stmt.kind, first);
        at = rest;
    }
}

#[cycle(unknown)]
#[tactic(auto, using(crate::proofs::Faults::noted_append))]
fn note_statement(
    items: &[FileItem],
    locals: &[Local],
    line: u32,
    kind: &Kind,
    first: &mut Option<LangRefusal>,
)
    ensures { first.new ≡ behind_faults first.old reason.UnknownName (unknown_lines (source_of_items (items_of items.now)) (names_of locals.now) (behind line kind.now end)) }
{
    note_if(
        first,
        !knows_head(items, locals, kind),
        line,
        Reason::UnknownName,
    );
    match kind {
        Kind::If(_, a, b) => {
            note_body(items, locals, a, first);
            note_body(items, locals, b, first);
        }
        Kind::While(_, a) => note_body(items, locals, a, first),
        _ => {}
    }
}

fn note_item(
    alloc: Global,
    items: &[FileItem],
    item: &FileItem,
    first: &mut Option<LangRefusal>,
) -> Result<(), NoMemory>
    ensures { OnOk result (first.new ≡ behind_faults first.old reason.UnknownName (flat_map (λ (f : Function). unknown_lines (source_of_items (items_of items.now)) (locals_of f) f.body) (funcs_in (item_of item.now)))) }
{
    if let FileItem::Func(f) = item {
        let mut locals = Vec::new(alloc);
        put_locals(alloc, &mut locals, f)?;
        note_body(items, &locals, &f.body, first);
    }
    Ok(())
}

/// Notes the names that aren't known in their role. An `Err` is want of memory.
pub fn note_unknown(
    alloc: Global,
    items: &[FileItem],
    first: &mut Option<LangRefusal>,
) -> Result<(), NoMemory>
    ensures { OnOk result (first.new ≡ behind_faults first.old reason.UnknownName (lines_of_reason (items_of items.now) 0 reason.UnknownName)) }
{
    'scan: for item in items {
        note_item(alloc, items, item, first)?;
    }
    Ok(())
}
