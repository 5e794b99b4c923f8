//! The first fault of the items of a file.
ghost use Rattle.std.specs.Prelude.{◌≡◌, ◌∷◌, [], OnOk, IfOk, MatchOption};
ghost use Rattle.loom_tree.specs.Tree.{items_of};
ghost use Rattle.loom_lang.specs.declared.refusal.Reason.TheVariants as reason;
ghost use Rattle.loom_lang.specs.declared.refusal.Which.TheVariants as which;
ghost use Rattle.loom_lang.specs.Refusal.{second_lines, lines_of_reason, IsFaultless, IsFirstFault};
ghost use Rattle.loom_lang.specs.Fault.{behind_faults, noted_all, reasons};

use crate::arity::note_counts;
use crate::duplicates::note_twice;
use crate::excess::{note_limits, note_over};
use crate::fault::note_if;
use crate::limits::STATEMENT_LIMIT;
use crate::names;
use crate::refusal::{LangRefusal, Reason, Which};
use crate::resolve::note_unknown;
use crate::walk::statement_lines;
use loom_tree::item::FileItem;
use loom_tree::name::NoMemory;
use std::alloc::Global;

fn note_second(lines: &[u32], first: &mut Option<LangRefusal>)
    ensures { first.new ≡ behind_faults first.old reason.SecondOnLine (second_lines 0 lines.now) }
{
    let mut before = 0;
    'scan: for line in lines {
        note_if(first, *line <= before, *line, Reason::SecondOnLine);
        before = *line;
    }
}

/// Notes the statements that begin on a line with another one, and those that are too many. An `Err` is want of memory.
fn note_statements(
    alloc: Global,
    items: &[FileItem],
    first: &mut Option<LangRefusal>,
) -> Result<(), NoMemory>
    ensures { OnOk result (first.new ≡ noted_all (items_of items.now) 0 first.old (reason.SecondOnLine ∷ reason.TooMany which.Statements ∷ [])) }
{
    let lines = statement_lines(alloc, items)?;
    note_second(&lines, first);
    note_over(
        first,
        STATEMENT_LIMIT,
        &lines,
        Reason::TooMany(Which::Statements),
    );
    Ok(())
}

fn note_no_main(items: &[FileItem], last_line: u32, first: &mut Option<LangRefusal>)
    ensures { first.new ≡ behind_faults first.old reason.NoMain (lines_of_reason (items_of items.now) last_line reason.NoMain) }
{
    note_if(
        first,
        !names::is_function(items, b"main"),
        last_line,
        Reason::NoMain,
    );
}

fn note_all(
    alloc: Global,
    items: &[FileItem],
    last_line: u32,
    first: &mut Option<LangRefusal>,
) -> Result<(), NoMemory>
    ensures { OnOk result (first.new ≡ noted_all (items_of items.now) last_line first.old reasons) }
{
    note_statements(alloc, items, first)?;
    note_unknown(alloc, items, first)?;
    note_twice(alloc, items, first)?;
    note_counts(items, first);
    note_no_main(items, last_line, first);
    note_limits(alloc, items, first)
}

/// The first fault of the items of a file that ends on this line: the one at the least line, and there the least reason.
/// `None` where they keep the rules, an `Err` is want of memory.
pub fn first_fault(
    alloc: Global,
    items: &[FileItem],
    last_line: u32,
) -> Result<Option<LangRefusal>, NoMemory>
    ensures { IfOk result (λ o. MatchOption o (IsFaultless (items_of items.now) last_line) (λ r. IsFirstFault (items_of items.now) last_line r.line r.reason)) }
{
    let mut first = None;
    note_all(alloc, items, last_line, &mut first)?;
    Ok(first)
}
