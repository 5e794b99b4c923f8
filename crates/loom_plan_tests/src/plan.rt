//! Filters in programs.
ghost use Rattle.std.specs.Prelude.{◌≡◌, IfOk};

mod faults;
mod filters;
mod rows;

use loom_filter::parse::{FilterError, parse_filter};
use loom_flow::flow::Flow;
use loom_flow::lower::lower;
use loom_lang::limits::FILE_LIMIT;
use loom_lang::parse::{LangError, parse_program};
use loom_plan::compiled::Compiled;
use loom_plan::resolve::resolve;
use loom_tree::name::NoMemory;
use std::alloc::Global;

pub(crate) fn flow_of(alloc: Global, text: &str) -> Result<Flow, LangError> {
    let bytes = text.as_bytes();
    if bytes.len() > FILE_LIMIT {
        return Err(LangError::NoMemory);
    }
    Ok(lower(alloc, &parse_program(alloc, bytes)?)?)
}

/// The filter of this text in the program, in the file `p.lm`. No text here is too long.
pub(crate) fn compiled_in(alloc: Global, flow: &Flow, text: &str) -> Result<Compiled, FilterError>
    ensures { IfOk result (λ c. c.program ≡ flow.now.program) }
{
    let bytes = text.as_bytes();
    if bytes.len() > FILE_LIMIT {
        return Err(FilterError::from(NoMemory));
    }
    let filter = parse_filter(alloc, bytes)?;
    resolve(alloc, flow, b"p.lm", &filter)
}
