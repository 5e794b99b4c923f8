//! From a filter to what it is in a program, or to why the program has no such filter.
ghost use Rattle.std.specs.Prelude.{ℕ, List};
ghost use Rattle.loom_command.specs.FilterFault.{IsFilter};
ghost use Rattle.loom_filter.specs.View.{filter_of};
ghost use Rattle.loom_plan.specs.Resolution.{TellsCompiled};

use crate::compile::compile;
use crate::compiled::Compiled;
use crate::fault::first_fault;
use loom_filter::filter::Filter;
use loom_filter::parse::FilterError;
use loom_flow::flow::Flow;
use std::alloc::Global;

/// What the filter of a text is in the program of the flat code, whose file has this name: its events with their places, its clauses, and the
/// operations at the edges of statements and frames. `Refused` comes exactly where the filter names what the program hasn't, and memory didn't
/// run out; the least clause is told, and in it the least of these numbers: 2 where an event is of another file, 3 where no statement begins on
/// its line, 4 where a test names something else than a local (for a whole function, than a parameter), 6 where the events of a region stand in
/// different functions, 10 where there is no such function. `NoMemory` is want of memory.
pub fn resolve(
    alloc: Global,
    flow: &Flow,
    file: &[u8],
    filter: &Filter,
) -> Result<Compiled, FilterError>
    requires { (bytes : List ℕ) × IsFilter bytes (filter_of filter.now) }
    ensures { TellsCompiled flow.now.program file.now (filter_of filter.now) result }
{
    match first_fault(flow.program(), file, filter) {
        Some(refusal) => Err(FilterError::Refused(refusal)),
        None => Ok(compile(alloc, flow, filter)?),
    }
}
