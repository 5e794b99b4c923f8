//! Calls and spawns with another number of arguments than their function has parameters.
ghost use Rattle.std.specs.Prelude.{◌≡◌, ◌==◌, ◌&&◌, not, flat_map, length, codes};
ghost use Rattle.std.specs.Cmp.Lexicographic.{pointwise};
ghost use Rattle.loom_tree.specs.Tree.{Function, expressions_of, right_of, body_of, behind, end, item_of, items_of};
ghost use Rattle.loom_lang.specs.declared.refusal.Reason.TheVariants as reason;
ghost use Rattle.loom_lang.specs.Rules.{counts_call, counts_right};
ghost use Rattle.loom_lang.specs.FileItems.{funcs_in, source_of_items};
ghost use Rattle.loom_lang.specs.Refusal.{line_if, main_lines, miscounted_lines, lines_of_reason};
ghost use Rattle.loom_lang.specs.Fault.{counts_head, behind_faults};

use crate::fault::note_if;
use crate::names;
use crate::refusal::{LangRefusal, Reason};
use loom_tree::expression::Exprs;
use loom_tree::item::FileItem;
use loom_tree::name::Name;
use loom_tree::statement::{Kind, Right, Stmts};

fn counts_call(items: &[FileItem], f: &Name, es: &Exprs) -> bool
    ensures { result ≡ counts_call (source_of_items (items_of items.now)) f.now (expressions_of es.now) }
{
    !names::is_function(items, f.bytes()) || names::takes(items, f.bytes(), es.0.len())
}

fn counts_right(items: &[FileItem], right: &Right) -> bool
    ensures { result ≡ counts_right (source_of_items (items_of items.now)) (right_of right.now) }
{
    match right {
        Right::Value(_) => true,
        Right::Call(f, es) => counts_call(items, f, es),
        Right::Spawn(f, es) => counts_call(items, f, es),
    }
}

/// Whether a statement, its blocks aside, has the right number of arguments.
fn counts_head(items: &[FileItem], kind: &Kind) -> bool
    ensures { result ≡ counts_head (source_of_items (items_of items.now)) (behind 0 kind.now end) }
{
    match kind {
        Kind::Let(_, right) => counts_right(items, right),
        Kind::Set(_, right) => counts_right(items, right),
        Kind::Call(f, es) => counts_call(items, f, es),
        _ => true,
    }
}

#[cycle(counts)]
fn note_body(items: &[FileItem], body: &Stmts, first: &mut Option<LangRefusal>)
    ensures { first.new ≡ behind_faults first.old reason.WrongCount (miscounted_lines (source_of_items (items_of items.now)) (body_of body.now)) }
{
    let mut at = body;
    'walk: while let Stmts::More(stmt, rest) = at {
        note_statement(items, stmt.line, &stmt.kind, first);
        at = rest;
    }
}

#[cycle(counts)]
#[tactic(auto, using(crate::proofs::Faults::noted_append))]
fn note_statement(items: &[FileItem], line: u32, kind: &Kind, first: &mut Option<LangRefusal>)
    ensures { first.new ≡ behind_faults first.old reason.WrongCount (miscounted_lines (source_of_items (items_of items.now)) (behind line kind.now end)) }
{
    note_if(first, !counts_head(items, kind), line, Reason::WrongCount);
    match kind {
        Kind::If(_, a, b) => {
            note_body(items, a, first);
            note_body(items, b, first);
        }
        Kind::While(_, a) => note_body(items, a, first),
        _ => {}
    }
}

fn note_calls_in(items: &[FileItem], item: &FileItem, first: &mut Option<LangRefusal>)
    ensures { first.new ≡ behind_faults first.old reason.WrongCount (flat_map (λ (f : Function). miscounted_lines (source_of_items (items_of items.now)) f.body) (funcs_in (item_of item.now))) }
{
    if let FileItem::Func(f) = item {
        note_body(items, &f.body, first);
    }
}

fn note_calls(items: &[FileItem], first: &mut Option<LangRefusal>)
    ensures { first.new ≡ behind_faults first.old reason.WrongCount (flat_map (λ (f : Function). miscounted_lines (source_of_items (items_of items.now)) f.body) (source_of_items (items_of items.now)).funcs) }
{
    'scan: for item in items {
        note_calls_in(items, item, first);
    }
}

/// Notes a function `main` that has parameters.
fn note_main_in(item: &FileItem, first: &mut Option<LangRefusal>)
    ensures { first.new ≡ behind_faults first.old reason.WrongCount (flat_map (λ (f : Function). line_if (pointwise ◌==◌ f.name (codes "main") && not (length f.params == 0)) f.line) (funcs_in (item_of item.now))) }
{
    if let FileItem::Func(f) = item {
        note_if(
            first,
            names::is_same(&f.name, b"main") && f.params.0.len() != 0,
            f.line,
            Reason::WrongCount,
        );
    }
}

fn note_main(items: &[FileItem], first: &mut Option<LangRefusal>)
    ensures { first.new ≡ behind_faults first.old reason.WrongCount (main_lines (source_of_items (items_of items.now))) }
{
    'scan: for item in items {
        note_main_in(item, first);
    }
}

/// Notes the wrong numbers of arguments, and each `main` with parameters.
pub fn note_counts(items: &[FileItem], first: &mut Option<LangRefusal>)
    ensures { first.new ≡ behind_faults first.old reason.WrongCount (lines_of_reason (items_of items.now) 0 reason.WrongCount) }
{
    note_main(items, first);
    note_calls(items, first);
}
