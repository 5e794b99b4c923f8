//! The lines of places and of functions.
ghost use Rattle.std.specs.Prelude.{◌≡◌, ◌<◌, Some, length, option_map, slice_get};
ghost use Rattle.loom_tree.specs.Tree.{functions_of};
ghost use Rattle.loom_lang.specs.Places.{places, place_at, line_of_place, line_of_function};
ghost use Rattle.loom_flow.specs.Code.{IsLowered};
ghost use Rattle.loom_law.specs.Walk.{function_line};

use loom_flow::flow::Flow;
use loom_tree::statement::Func;

/// The line of a place of the program.
pub(crate) fn place_line(flow: &Flow, place: u16) -> u32
    requires { place < length (places flow.now.program) }
    ensures line { option_map (line_of_place flow.now.program) (place_at flow.now.program place) ≡ Some result }
    ensures lowered { IsLowered flow.now }
{
    // there are as many sites as places
    let _count = flow.places();
    let _sites = flow.sites();
    flow.place_line(place)
}

fn line_in(funcs: &[Func], f: u8) -> u32
    ensures { result ≡ line_of_function (slice_get (functions_of funcs.now) f) }
{
    match funcs.get(f as usize) {
        None => 0,
        Some(f) => f.line,
    }
}

/// The line of a function: that of its `fn`.
pub(crate) fn function_line(flow: &Flow, f: u8) -> u32
    ensures { result ≡ function_line flow.now.program f }
{
    line_in(&flow.program().funcs().0, f)
}
