//! More functions, parameters, locals, names, cells or statements than a program may have.
ghost use Rattle.std.specs.Prelude.{◌≡◌, ◌++◌, ◌∷◌, [], nat_lt, OnOk, IfOk, flat_map, map, length};
ghost use Rattle.loom_tree.specs.Tree.{Function, function_of, item_of, items_of};
ghost use Rattle.loom_lang.specs.declared.local.Local as local;
ghost use Rattle.loom_lang.specs.declared.refusal.Reason.TheVariants as reason;
ghost use Rattle.loom_lang.specs.declared.refusal.Which.TheVariants as which;
ghost use Rattle.loom_lang.specs.Limits.{param_limit, local_limit};
ghost use Rattle.loom_lang.specs.Rules.{cell_count};
ghost use Rattle.loom_lang.specs.FileItems.{funcs_in, words_in, source_of_items};
ghost use Rattle.loom_lang.specs.Refusal.{line_if, locals_at, first_excess, shared_lines, lines_of_reason};
ghost use Rattle.loom_lang.specs.Fault.{behind_faults, noted_all};

use crate::fault::{note, note_if};
use crate::limits::{CELL_LIMIT, FUNCTION_LIMIT, LOCAL_LIMIT, NAME_LIMIT, PARAM_LIMIT};
use crate::local::Local;
use crate::names::line_of;
use crate::refusal::{LangRefusal, Reason, Which};
use crate::walk::put_locals;
use loom_tree::item::FileItem;
use loom_tree::name::NoMemory;
use std::alloc::Global;

/// Notes the first line beyond the limit.
pub fn note_over(first: &mut Option<LangRefusal>, most: usize, lines: &[u32], reason: Reason)
    ensures { first.new ≡ behind_faults first.old reason (first_excess most lines.now) }
{
    if most < lines.len() {
        note(first, lines[most], reason);
    }
}

fn put_function_line(lines: &mut Vec<u32>, item: &FileItem) -> Result<(), NoMemory>
    ensures { OnOk result (lines.new.items ≡ lines.old.items ++ map (λ (f : Function). f.line) (funcs_in (item_of item.now))) }
{
    if let FileItem::Func(f) = item {
        lines.push(f.line)?;
    }
    Ok(())
}

fn function_lines(alloc: Global, items: &[FileItem]) -> Result<Vec<u32>, NoMemory>
    ensures { IfOk result (λ ls. ls.items ≡ map (λ (f : Function). f.line) (source_of_items (items_of items.now)).funcs) }
{
    let mut lines = Vec::new(alloc);
    'gather: for item in items {
        put_function_line(&mut lines, item)?;
    }
    Ok(lines)
}

fn put_shared_line(lines: &mut Vec<u32>, item: &FileItem) -> Result<(), NoMemory>
    ensures { OnOk result (lines.new.items ≡ lines.old.items ++ shared_lines (item_of item.now ∷ [])) }
{
    match item {
        FileItem::Word { line, .. } => lines.push(*line)?,
        FileItem::Mutex { line, .. } => lines.push(*line)?,
        FileItem::Sema { line, .. } => lines.push(*line)?,
        FileItem::Func(_) => {}
    }
    Ok(())
}

fn shared_lines(alloc: Global, items: &[FileItem]) -> Result<Vec<u32>, NoMemory>
    ensures { IfOk result (λ ls. ls.items ≡ shared_lines (items_of items.now)) }
{
    let mut lines = Vec::new(alloc);
    'gather: for item in items {
        put_shared_line(&mut lines, item)?;
    }
    Ok(lines)
}

fn note_params_in(item: &FileItem, first: &mut Option<LangRefusal>)
    ensures { first.new ≡ behind_faults first.old (reason.TooMany which.Params) (flat_map (λ (f : Function). line_if (nat_lt param_limit (length f.params)) f.line) (funcs_in (item_of item.now))) }
{
    if let FileItem::Func(f) = item {
        note_if(
            first,
            PARAM_LIMIT < f.params.0.len(),
            f.line,
            Reason::TooMany(Which::Params),
        );
    }
}

fn note_params(items: &[FileItem], first: &mut Option<LangRefusal>)
    ensures { first.new ≡ behind_faults first.old (reason.TooMany which.Params) (lines_of_reason (items_of items.now) 0 (reason.TooMany which.Params)) }
{
    'scan: for item in items {
        note_params_in(item, first);
    }
}

fn note_locals_of(locals: &[Local], first: &mut Option<LangRefusal>)
    ensures { first.new ≡ behind_faults first.old (reason.TooMany which.Locals) (first_excess local_limit (map (λ (d : local.Local). d.line) locals.now)) }
{
    if LOCAL_LIMIT < locals.len() {
        note(
            first,
            locals[LOCAL_LIMIT].line,
            Reason::TooMany(Which::Locals),
        );
    }
}

fn note_locals_in(
    alloc: Global,
    item: &FileItem,
    first: &mut Option<LangRefusal>,
) -> Result<(), NoMemory>
    ensures { OnOk result (first.new ≡ behind_faults first.old (reason.TooMany which.Locals) (flat_map (λ (f : Function). first_excess local_limit (map (λ (d : local.Local). d.line) (locals_at f))) (funcs_in (item_of item.now)))) }
{
    if let FileItem::Func(f) = item {
        let mut locals = Vec::new(alloc);
        put_locals(alloc, &mut locals, f)?;
        note_locals_of(&locals, first);
    }
    Ok(())
}

fn note_locals(
    alloc: Global,
    items: &[FileItem],
    first: &mut Option<LangRefusal>,
) -> Result<(), NoMemory>
    ensures { OnOk result (first.new ≡ behind_faults first.old (reason.TooMany which.Locals) (lines_of_reason (items_of items.now) 0 (reason.TooMany which.Locals))) }
{
    'scan: for item in items {
        note_locals_in(alloc, item, first)?;
    }
    Ok(())
}

/// How many cells an item has, a plain word one.
fn cells_in(item: &FileItem) -> u64
    ensures { result ≡ cell_count (words_in (item_of item.now)) }
{
    match item {
        FileItem::Word { cells: None, .. } => 1,
        FileItem::Word {
            cells: Some(cells),
            ..
        } => *cells,
        FileItem::Mutex { .. } => 0,
        FileItem::Sema { .. } => 0,
        FileItem::Func(_) => 0,
    }
}

fn note_cells(items: &[FileItem], first: &mut Option<LangRefusal>)
    ensures { first.new ≡ behind_faults first.old (reason.TooMany which.Cells) (lines_of_reason (items_of items.now) 0 (reason.TooMany which.Cells)) }
{
    let mut left = CELL_LIMIT as u64;
    'scan: for item in items {
        let cells = cells_in(item);
        if left < cells {
            note(first, line_of(item), Reason::TooMany(Which::Cells));
            return;
        }
        left -= cells;
    }
}

/// Notes more functions, parameters, locals, names and cells than there may be. An `Err` is want of memory.
pub fn note_limits(
    alloc: Global,
    items: &[FileItem],
    first: &mut Option<LangRefusal>,
) -> Result<(), NoMemory>
    ensures { OnOk result (first.new ≡ noted_all (items_of items.now) 0 first.old (reason.TooMany which.Functions ∷ reason.TooMany which.Params ∷ reason.TooMany which.Locals ∷ reason.TooMany which.Names ∷ reason.TooMany which.Cells ∷ [])) }
{
    let functions = function_lines(alloc, items)?;
    note_over(
        first,
        FUNCTION_LIMIT,
        &functions,
        Reason::TooMany(Which::Functions),
    );
    note_params(items, first);
    note_locals(alloc, items, first)?;
    let names = shared_lines(alloc, items)?;
    note_over(first, NAME_LIMIT, &names, Reason::TooMany(Which::Names));
    note_cells(items, first);
    Ok(())
}
