//! From a filter in a program to its unsafe places, or to why it is refused for its paths.
ghost use Rattle.std.specs.Prelude.{◌≡◌};
ghost use Rattle.loom_sites.specs.UnsafePlaces.{TellsPlaces};

use crate::area::{all_calls, areas};
use crate::calls::{put_functions, reached_functions};
use crate::events::put_events;
use crate::fault::first_fault;
use crate::links::link_rows;
use loom_filter::parse::FilterError;
use loom_flow::flow::Flow;
use loom_plan::compiled::Compiled;
use loom_trace::places::Places;
use std::alloc::Global;

/// The places of the program that are unsafe for the filter: all of them, and no others. By the law `sound_places` of `loom_law` they are
/// enough: as long as the filter isn't active, a thread that is about to go on at any other place is inside none of its regions and in the midst
/// of none of its events. `Refused` comes exactly where a region is entered again within itself or two nest, and memory didn't run out; the
/// least clause is told, and in it the least of these numbers: 7 where calls inside a region reach its own function, 8 where an entry event of a
/// region of the clause can begin inside another one.
pub fn unsafe_places(alloc: Global, flow: &Flow, c: &Compiled) -> Result<Places, FilterError>
    requires { c.now.program ≡ flow.now.program }
    ensures { TellsPlaces flow.now.program c.now.plan result }
{
    let links = link_rows(alloc, flow.program())?;
    let mut places = Places::none();
    let areas = areas(alloc, flow, c, &links, &mut places)?;
    if let Some(refusal) = first_fault(&areas, c.clauses()) {
        return Err(FilterError::Refused(refusal));
    }
    let calls = put_events(&mut places, c, &links);
    let reached = reached_functions(flow, calls) | all_calls(&areas);
    put_functions(&mut places, &links, reached);
    Ok(places)
}
