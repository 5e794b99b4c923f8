//! The regions of a filter. An `Err` is want of memory throughout.
ghost use Rattle.std.specs.Prelude.{◌≡◌, ◌≤◌, ◌++◌, ℕ, IfOk, OnOk, length, flat_map};
ghost use Rattle.loom_command.specs.FilterFault.{most_clauses};
ghost use Rattle.loom_law.specs.Filter.{numbered_from};
ghost use Rattle.loom_plan.specs.PlanView.{span_ranges, ruling_of, rulings_of, regions_in};
ghost use Rattle.loom_plan.specs.PlanParts.{of_clause, clause_regions};

use crate::plan::{RegionRow, RegionSpan, Rule};
use loom_tree::name::NoMemory;
use std::alloc::Global;

fn put_spans(rows: &mut Vec<RegionRow>, clause: u8, spans: &[RegionSpan]) -> Result<(), NoMemory>
    ensures { OnOk result (regions_in rows.new.items ≡ regions_in rows.old.items ++ of_clause clause (span_ranges spans.now)) }
{
    'put: for span in spans {
        let span = *span;
        rows.push(RegionRow { clause, span })?;
    }
    Ok(())
}

fn put(rows: &mut Vec<RegionRow>, clause: u8, rule: &Rule) -> Result<(), NoMemory>
    ensures { OnOk result (regions_in rows.new.items ≡ regions_in rows.old.items ++ clause_regions (clause, ruling_of rule.now)) }
{
    match rule {
        Rule::Order(_) => Ok(()),
        Rule::Exclusive(spans) => put_spans(rows, clause, spans),
        Rule::Unilateral(span) => {
            let span = *span;
            rows.push(RegionRow { clause, span })?;
            Ok(())
        }
    }
}

/// The regions of these clauses, the first having number 1.
pub fn regions(alloc: Global, rules: &[Rule]) -> Result<Vec<RegionRow>, NoMemory>
    requires { length rules.now ≤ most_clauses }
    ensures { IfOk result (λ v. regions_in v.items ≡ flat_map clause_regions (numbered_from 1 (rulings_of rules.now))) }
{
    let mut rows = Vec::new(alloc);
    'put: for (i, rule) in rules.iter().enumerate() {
        put(&mut rows, i as u8 + 1, rule)?;
    }
    Ok(rows)
}
