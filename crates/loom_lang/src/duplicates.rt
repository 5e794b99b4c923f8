//! Names that are declared a second time.
ghost use Rattle.std.specs.Prelude.{◌≡◌, ◌∷◌, [], ◌++◌, OnOk};
ghost use Rattle.loom_tree.specs.Tree.{item_of, items_of};
ghost use Rattle.loom_lang.specs.declared.refusal.Reason.TheVariants as reason;
ghost use Rattle.loom_lang.specs.Rules.{is_in};
ghost use Rattle.loom_lang.specs.Refusal.{line_if, repeated, lines_of_reason};
ghost use Rattle.loom_lang.specs.Fault.{names_of, name_of, line_of, locals_in, behind_faults};

use crate::fault::note_if;
use crate::local::Local;
use crate::names::{is_in, is_local, line_of, name_of};
use crate::refusal::{LangRefusal, Reason};
use crate::walk::put_locals;
use loom_tree::item::FileItem;
use loom_tree::name::{Name, NoMemory};
use loom_tree::statement::Names;
use std::alloc::Global;

/// Whether it is one of these names or locals.
#[tactic(auto, using(crate::proofs::Distinct::in_append))]
fn is_taken(x: &Name, names: &[Name], locals: &[Local]) -> bool
    ensures { result ≡ is_in x.now (names.now ++ names_of locals.now) }
{
    is_in(x, names) || is_local(x, locals)
}

fn put_locals_in(alloc: Global, locals: &mut Vec<Local>, item: &FileItem) -> Result<(), NoMemory>
    ensures { OnOk result (locals.new.items ≡ locals.old.items ++ locals_in (item_of item.now)) }
{
    match item {
        FileItem::Func(f) => put_locals(alloc, locals, f),
        _ => Ok(()),
    }
}

/// Notes the locals of an item that are names, or among the locals before them.
fn note_repeated(names: &[Name], locals: &[Local], first: &mut Option<LangRefusal>)
    ensures { first.new ≡ behind_faults first.old reason.NameTwice (repeated names.now locals.now) }
{
    'scan: for (i, d) in locals.iter().enumerate() {
        note_if(
            first,
            is_taken(&d.name, names, &locals[..i]),
            d.line,
            Reason::NameTwice,
        );
    }
}

/// Notes what an item declares a second time, behind items of these names with these locals.
fn note_item(
    alloc: Global,
    names: &mut Names,
    locals: &mut Vec<Local>,
    item: &FileItem,
    first: &mut Option<LangRefusal>,
) -> Result<(), NoMemory>
    ensures names { OnOk result (names.new ≡ names.old ++ name_of (item_of item.now) ∷ []) }
    ensures locals { OnOk result (locals.new.items ≡ locals.old.items ++ locals_in (item_of item.now)) }
    ensures first { OnOk result (first.new ≡ behind_faults first.old reason.NameTwice (line_if (is_in (name_of (item_of item.now)) (names.old ++ names_of locals.old.items)) (line_of (item_of item.now)) ++ repeated names.new (locals_in (item_of item.now)))) }
{
    let name = name_of(item);
    note_if(
        first,
        is_taken(name, &names.0, locals),
        line_of(item),
        Reason::NameTwice,
    );
    names.0.push(Name::copied(alloc, name.bytes())?)?;
    let before = locals.len();
    put_locals_in(alloc, locals, item)?;
    note_repeated(&names.0, &locals[before..], first);
    Ok(())
}

/// Notes the names that are declared a second time. An `Err` is want of memory.
pub fn note_twice(
    alloc: Global,
    items: &[FileItem],
    first: &mut Option<LangRefusal>,
) -> Result<(), NoMemory>
    ensures { OnOk result (first.new ≡ behind_faults first.old reason.NameTwice (lines_of_reason (items_of items.now) 0 reason.NameTwice)) }
{
    let mut names = Names(Vec::new(alloc));
    let mut locals = Vec::new(alloc);
    'scan: for item in items {
        note_item(alloc, &mut names, &mut locals, item, first)?;
    }
    Ok(())
}
