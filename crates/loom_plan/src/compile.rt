//! From a filter to what it is in a program.
ghost use Rattle.std.specs.Prelude.{◌≡◌, ℕ, List, IfOk};
ghost use Rattle.loom_command.specs.FilterFault.{IsFilter};
ghost use Rattle.loom_law.specs.Filter.{plan_of};
ghost use Rattle.loom_filter.specs.View.{clauses_of, filter_of};
ghost use Rattle.loom_plan.specs.Counts.{IsSmallFilter};

use crate::clauses::rules;
use crate::compiled::Compiled;
use crate::events::events;
use crate::order_sets::{posting, waiting};
use crate::regions::regions;
use crate::table::rows;
use loom_filter::filter::{Clause, Filter};
use loom_flow::flow::Flow;
use loom_tree::name::NoMemory;
use std::alloc::Global;

fn compiled(alloc: Global, flow: &Flow, clauses: &[Clause]) -> Result<Compiled, NoMemory>
    requires { IsSmallFilter (clauses_of clauses.now) }
    ensures { IfOk result (λ c. (c.program ≡ flow.now.program) × (c.plan ≡ plan_of flow.now.program (clauses_of clauses.now))) }
{
    let events = events(alloc, flow.program(), clauses)?;
    let rules = rules(alloc, clauses)?;
    let regions = regions(alloc, &rules)?;
    let rows = rows(alloc, &events, flow.program())?;
    let waiting = waiting(&rules);
    let posting = posting(&rules);
    let program = flow.share()?;
    Ok(Compiled::new(program, events, rules, waiting, posting, regions, rows))
}

/// A filter in the program of the flat code. An `Err` is want of memory.
#[tactic(auto, using(crate::proofs::FewParts::small_filter))]
pub(crate) fn compile(alloc: Global, flow: &Flow, filter: &Filter) -> Result<Compiled, NoMemory>
    requires { (bytes : List ℕ) × IsFilter bytes (filter_of filter.now) }
    ensures { IfOk result (λ c. (c.program ≡ flow.now.program) × (c.plan ≡ plan_of flow.now.program (filter_of filter.now))) }
{
    compiled(alloc, flow, &filter.clauses.0)
}
