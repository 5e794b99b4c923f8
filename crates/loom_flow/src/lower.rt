//! From a program to its flat code.
ghost use Rattle.std.specs.Prelude.{◌≡◌, ◌<◌, ◌≤◌, ◌+◌, ◌∷◌, ◌++◌, [], true, OnOk, IfOk, length};
ghost use Rattle.loom_tree.specs.Tree.{body_of, function_of, functions_of};
ghost use Rattle.loom_lang.specs.Limits.{param_limit};
ghost use Rattle.loom_lang.specs.Rules.{KeepsRules, FunctionKeepsRules, locals_of};
ghost use Rattle.loom_flow.specs.Laws.{HasTraces, HasPlaces, HasInstructionPlaces, HasCalls};
ghost use Rattle.loom_flow.specs.FlatCode.{place_count, functions_code, functions_sites, entrances, calls_body, set_of, lowered, site_limit};

use crate::block::body;
use crate::calls::with_body;
use crate::code::{CodeStep, Control, Entrance, Instr, Site};
use crate::expression::push;
use crate::flow::Flow;
use crate::numbers::Scope;
use crate::statement::{next, put_site, spot_of};
use loom_lang::locals::locals;
use loom_lang::program::Program;
use loom_tree::name::NoMemory;
use loom_tree::statement::{Func, Names};
use std::alloc::Global;
use std::sync::Arc;

/// Where the function stands that is put next.
fn entrance(code: &[Instr], sites: &[Site], f: &Func) -> Result<Entrance, NoMemory>
    requires room { length sites.now < site_limit }
    requires params { length f.now.params ≤ param_limit }
    ensures { IfOk result (λ e. e ≡ record { start = length code.now; place = length sites.now; params = length f.now.params }) }
{
    Ok(Entrance {
        start: next(code)?,
        place: sites.len() as u16,
        params: f.params.0.len() as u8,
    })
}

/// The instructions and the places of a function.
fn put_function(
    code: &mut Vec<Instr>,
    sites: &mut Vec<Site>,
    scope: &Scope,
    f: &Func,
) -> Result<(), NoMemory>
    requires locals { scope.now.locals ≡ locals_of (function_of f.now) }
    requires lawful { FunctionKeepsRules scope.now.program (function_of f.now) }
    requires room { length sites.old.items + (2 + place_count (body_of f.now.body)) ≤ site_limit }
    ensures code { OnOk result (code.new.items ≡ code.old.items ++ functions_code scope.now.program (length code.old.items) (length sites.old.items) (function_of f.now ∷ [])) }
    ensures sites { OnOk result (sites.new.items ≡ sites.old.items ++ functions_sites scope.now.program (length code.old.items) (function_of f.now ∷ [])) }
{
    put_site(sites, f.line, None)?;
    body(code, sites, scope, &f.body)?;
    let out = spot_of(sites, f.line);
    push(code, out, CodeStep::Control(Control::Out))?;
    put_site(sites, f.line, None)?;
    Ok(())
}

/// The lists of flat code, as far as they are made.
#[derive(Drop)]
struct Parts {
    code: Vec<Instr>,
    sites: Vec<Site>,
    entrances: Vec<Entrance>,
    calls: Vec<u64>,
}

/// The next function.
fn put(alloc: Global, parts: &mut Parts, scope: &mut Scope, f: &Func) -> Result<(), NoMemory>
    requires lawful { FunctionKeepsRules scope.old.program (function_of f.now) }
    requires room { length parts.old.sites.items + (2 + place_count (body_of f.now.body)) ≤ site_limit }
    ensures program { OnOk result (scope.new.program ≡ scope.old.program) }
    ensures code { OnOk result (parts.new.code.items ≡ parts.old.code.items ++ functions_code scope.old.program (length parts.old.code.items) (length parts.old.sites.items) (function_of f.now ∷ [])) }
    ensures sites { OnOk result (parts.new.sites.items ≡ parts.old.sites.items ++ functions_sites scope.old.program (length parts.old.code.items) (function_of f.now ∷ [])) }
    ensures entrances { OnOk result (parts.new.entrances.items ≡ parts.old.entrances.items ++ entrances scope.old.program (length parts.old.code.items) (length parts.old.sites.items) (function_of f.now ∷ [])) }
    ensures calls { OnOk result (parts.new.calls.items ≡ parts.old.calls.items ++ set_of 0 (calls_body scope.old.program (body_of f.now.body)) ∷ []) }
{
    scope.locals = locals(alloc, f)?;
    parts.calls.push(with_body(scope, 0, &f.body))?;
    let entrance = entrance(&parts.code, &parts.sites, f)?;
    parts.entrances.push(entrance)?;
    put_function(&mut parts.code, &mut parts.sites, scope, f)?;
    Ok(())
}

fn put_all(alloc: Global, scope: &mut Scope, funcs: &[Func]) -> Result<Parts, NoMemory>
    requires funcs { functions_of funcs.now ≡ scope.old.program.funcs }
    requires lawful { KeepsRules scope.old.program }
    ensures program { OnOk result (scope.new.program ≡ scope.old.program) }
    ensures code { IfOk result (λ m. m.code.items ≡ (lowered scope.old.program).code) }
    ensures sites { IfOk result (λ m. m.sites.items ≡ (lowered scope.old.program).sites) }
    ensures entrances { IfOk result (λ m. m.entrances.items ≡ (lowered scope.old.program).entrances) }
    ensures calls { IfOk result (λ m. m.calls.items ≡ (lowered scope.old.program).calls) }
{
    let mut parts = Parts {
        code: Vec::new(alloc),
        sites: Vec::new(alloc),
        entrances: Vec::new(alloc),
        calls: Vec::new(alloc),
    };
    put_site(&mut parts.sites, 0, None)?;
    'put: for f in funcs {
        put(alloc, &mut parts, scope, f)?;
    }
    Ok(parts)
}

/// The flat code of a program. It has the traces of the program, its places and the calls of its functions. An `Err` is want of memory.
#[tactic(auto, using(crate::proofs::FlowLaws::places_of, crate::proofs::FlowLaws::calls_of, crate::proofs::FlowLaws::instructions_of))]
pub fn lower(alloc: Global, p: &Program) -> Result<Flow, NoMemory>
    ensures program { IfOk result (λ c. c.program ≡ p.now) }
    ensures traces { IfOk result (λ c. HasTraces c p.now) }
    ensures instructions { IfOk result (λ c. HasInstructionPlaces c p.now) }
    ensures places { IfOk result (λ c. HasPlaces c p.now) }
    ensures calls { IfOk result (λ c. HasCalls c p.now) }
{
    let mut scope = Scope {
        program: p.copied(alloc)?,
        locals: Names(Vec::new(alloc)),
    };
    let Parts {
        code,
        sites,
        entrances,
        calls,
    } = put_all(alloc, &mut scope, &p.funcs().0)?;
    let program = Arc::new(alloc, scope.program)?;
    Ok(Flow::new(program, code, sites, entrances, calls))
}
