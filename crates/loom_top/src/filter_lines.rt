//! The lines that are written of a filter for a program.
ghost use Rattle.std.specs.Prelude.{◌≡◌, ◌++◌, [], ◌∷◌, IfOk, OnOk};
ghost use Rattle.loom_tree.specs.Lines.{ended};
ghost use Rattle.loom_lang.specs.Places.{places};
ghost use Rattle.loom_trace.specs.Places.{has_place};
ghost use Rattle.loom_top.specs.ShowText.{fault_line, clauses_line, event_line, event_lines, unsafe_line, unsafe_lines, plan_lines};

use loom_canonical::text::{put_bytes, put_number};
use loom_filter::parse::FilterRefusal;
use loom_flow::flow::Flow;
use loom_plan::compiled::Compiled;
use loom_trace::places::Places;
use loom_tree::name::{Name, NoMemory};
use std::alloc::Global;

// The line of a refusal.
pub(crate) fn fault_text(alloc: Global, refusal: FilterRefusal) -> Result<Name, NoMemory>
    ensures { IfOk result (λ out. out ≡ ended (fault_line refusal.number refusal.clause ∷ [])) }
{
    let mut out = Name(Vec::new(alloc));
    put_bytes(&mut out, b"refused ")?;
    put_number(&mut out, u32::from(refusal.number))?;
    put_bytes(&mut out, b" ")?;
    put_number(&mut out, u32::from(refusal.clause))?;
    put_bytes(&mut out, b"\n")?;
    Ok(out)
}

fn put_clauses(out: &mut Name, clauses: u32) -> Result<(), NoMemory>
    ensures { OnOk result (out.new ≡ out.old ++ ended (clauses_line clauses ∷ [])) }
{
    put_bytes(out, b"clauses ")?;
    put_number(out, clauses)?;
    put_bytes(out, b"\n")
}

fn put_event_line(out: &mut Name, event: u32, line: u32) -> Result<(), NoMemory>
    ensures { OnOk result (out.new ≡ out.old ++ ended (event_line event line ∷ [])) }
{
    put_bytes(out, b"event ")?;
    put_number(out, event)?;
    put_bytes(out, b" line ")?;
    put_number(out, line)?;
    put_bytes(out, b"\n")
}

fn put_event_lines(out: &mut Name, plan: &Compiled) -> Result<(), NoMemory>
    ensures { OnOk result (out.new ≡ out.old ++ ended (event_lines plan.now.program 1 plan.now.plan.watches)) }
{
    'events: for n in 0..plan.events() {
        put_event_line(out, u32::from(n) + 1, plan.event_line(n + 1))?;
    }
    Ok(())
}

fn put_unsafe_line(out: &mut Name, place: u32, line: u32) -> Result<(), NoMemory>
    ensures { OnOk result (out.new ≡ out.old ++ ended (unsafe_line place line ∷ [])) }
{
    put_bytes(out, b"unsafe ")?;
    put_number(out, place)?;
    put_bytes(out, b" line ")?;
    put_number(out, line)?;
    put_bytes(out, b"\n")
}

#[tactic(auto, using(loom_flow::proofs::FlowLaws::few_sites))]
fn put_unsafe_lines(out: &mut Name, flow: &Flow, set: &Places) -> Result<(), NoMemory>
    ensures { OnOk result (out.new ≡ out.old ++ ended (unsafe_lines flow.now.program (has_place set.now) 0 (places flow.now.program))) }
{
    let count = flow.sites().len() as u16;
    'numbers: for place in 0..count {
        if set.has(place) {
            put_unsafe_line(out, u32::from(place), flow.place_line(place))?;
        }
    }
    Ok(())
}

// How many clauses there are, the line of each event, and that of each of these places.
pub(crate) fn plan_text(
    alloc: Global,
    flow: &Flow,
    plan: &Compiled,
    set: &Places,
) -> Result<Name, NoMemory>
    requires { plan.now.program ≡ flow.now.program }
    ensures { IfOk result (λ out. out ≡ ended (plan_lines flow.now.program plan.now.plan (has_place set.now))) }
{
    let mut out = Name(Vec::new(alloc));
    put_clauses(&mut out, u32::from(plan.clauses()))?;
    put_event_lines(&mut out, plan)?;
    put_unsafe_lines(&mut out, flow, set)?;
    Ok(out)
}
