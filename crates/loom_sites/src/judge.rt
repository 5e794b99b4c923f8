//! From the text of a filter to what it is for a program.
ghost use Rattle.std.specs.Prelude.{◌≡◌, ◌≤◌, length, IfOk};
ghost use Rattle.loom_filter.specs.FilterError.{text_limit};
ghost use Rattle.loom_law.specs.Control.{means, refused};
ghost use Rattle.loom_law.specs.Judgement.{IsJudged};
ghost use Rattle.loom_sites.specs.UnsafePlaces.{AreUnsafe};

use crate::unsafe_places::unsafe_places;
use loom_filter::parse::{FilterError, FilterRefusal, parse_filter};
use loom_flow::flow::Flow;
use loom_plan::compiled::Compiled;
use loom_plan::resolve::resolve;
use loom_trace::places::Places;
use std::alloc::Global;

/// A filter in a program, with the places that are unsafe for it.
#[derive(Debug, Drop)]
pub struct FilterInProgram {
    /// The filter.
    pub filter: Compiled,
    /// All of the program's places that are unsafe for it, and no others.
    pub unsafe_places: Places,
}

/// What a text of at most 65,536 bytes is for the program of the flat code, whose file has this name: a filter, with its unsafe places; or
/// `Refused`, for the text itself, else for what it names, else for its paths. `NoMemory` tells nothing of the text.
pub fn judge(
    alloc: Global,
    flow: &Flow,
    file: &[u8],
    text: &[u8],
) -> Result<FilterInProgram, FilterError>
    requires { length text.now ≤ text_limit }
    ensures judged { IfOk result (λ x. IsJudged flow.now.program file.now text.now (means x.filter.plan)) }
    ensures program { IfOk result (λ x. x.filter.program ≡ flow.now.program) }
    ensures places { IfOk result (λ x. AreUnsafe flow.now.program x.filter.plan x.unsafe_places) }
    ensures refused { (r : FilterRefusal) → result ≡ Err (FilterError.Refused r) → IsJudged flow.now.program file.now text.now (refused r.number r.clause) }
{
    let filter = parse_filter(alloc, text)?;
    let plan = resolve(alloc, flow, file, &filter)?;
    let places = unsafe_places(alloc, flow, &plan)?;
    Ok(FilterInProgram {
        filter: plan,
        unsafe_places: places,
    })
}
