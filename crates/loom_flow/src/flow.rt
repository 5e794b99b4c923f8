//! The flat code of a program, with its program.
ghost use Rattle.std.specs.Prelude.{ℕ, ◌+◌, ◌≡◌, ◌↔◌, ◌≤◌, ◌<◌, Some, Contains, IsBitSet, IfOk, length, option_map, slice_get};
ghost use Rattle.std.specs.Arc.{arc_value};
ghost use Rattle.loom_tree.specs.Tree.{Function};
ghost use Rattle.loom_expression.specs.Text.{node_limit};
ghost use Rattle.loom_lang.specs.Limits.{param_limit};
ghost use Rattle.loom_lang.specs.Places.{places, place_at, line_of_place};
ghost use Rattle.loom_flow.specs.Code.{IsLowered};
ghost use Rattle.loom_flow.specs.FlatCode.{calls_body};
ghost use Rattle.loom_flow.specs.Depth.{depth_before, most_values};

use crate::code::{Entrance, Instr, Site};
use crate::depth::most_before;
use loom_lang::program::Program;
use loom_tree::name::NoMemory;
use std::marker::Model;
use std::sync::Arc;

/// Flat code, and the program that it stands for.
#[derive(Debug, Drop)]
pub struct Flow {
    program: Arc<Program>,
    code: Vec<Instr>,
    sites: Vec<Site>,
    entrances: Vec<Entrance>,
    calls: Vec<u64>,
}

impl Model for Flow {
    ghost use Rattle.std.specs.Arc.{arc_value};
    ghost use Rattle.loom_flow.specs.Flow.{Flow};
    ghost use Rattle.loom_flow.specs.Code.{flat_code, IsLowered};

    ghost Value = { Flow };

    ghost coded = { flat_code };

    ghost view = { λ c. record { program = arc_value c.program; code = c.code.items; sites = c.sites.items; entrances = c.entrances.items; calls = c.calls.items } };

    ghost invariant = { λ c. IsLowered (record { program = arc_value c.program; code = c.code.items; sites = c.sites.items; entrances = c.entrances.items; calls = c.calls.items }) };
}

impl Flow {
    pub(crate) fn new(
        program: Arc<Program>,
        code: Vec<Instr>,
        sites: Vec<Site>,
        entrances: Vec<Entrance>,
        calls: Vec<u64>,
    ) -> Flow
        requires { IsLowered (record { program = arc_value program; code = code.items; sites = sites.items; entrances = entrances.items; calls = calls.items }) }
        ensures flat { result ≡ record { program = arc_value program; code = code.items; sites = sites.items; entrances = entrances.items; calls = calls.items } }
        ensures lowered { IsLowered result }
    {
        Flow {
            program,
            code,
            sites,
            entrances,
            calls,
        }
    }

    /// The program.
    pub fn program(&self) -> &Program
        ensures program { result.now ≡ self.now.program }
        ensures lowered { IsLowered self.now }
    {
        &self.program
    }

    /// The program, shared. An `Err` is want of memory.
    pub fn share(&self) -> Result<Arc<Program>, NoMemory>
        ensures program { IfOk result (λ p. arc_value p ≡ self.now.program) }
        ensures lowered { IsLowered self.now }
    {
        Ok(Arc::try_clone(&self.program)?)
    }

    /// The instructions, by their numbers.
    pub fn code(&self) -> &[Instr]
        ensures code { result.now ≡ self.now.code }
        ensures lowered { IsLowered self.now }
    {
        &self.code
    }

    /// The places, by their numbers.
    pub fn sites(&self) -> &[Site]
        ensures sites { result.now ≡ self.now.sites }
        ensures lowered { IsLowered self.now }
    {
        &self.sites
    }

    /// Where the functions begin, by their numbers.
    pub fn entrances(&self) -> &[Entrance]
        ensures entrances { result.now ≡ self.now.entrances }
        ensures lowered { IsLowered self.now }
    {
        &self.entrances
    }

    fn calls(&self) -> &[u64]
        ensures calls { result.now ≡ self.now.calls }
        ensures lowered { IsLowered self.now }
    {
        &self.calls
    }

    /// How many places there are, place 0 among them. A place is told by its number, from 0 on.
    #[tactic(auto, using(crate::proofs::FlowLaws::few_sites, crate::proofs::FlowLaws::as_many_sites))]
    pub fn places(&self) -> u16
        ensures places { result ≡ length self.now.sites }
        ensures program { result ≡ length (places self.now.program) }
    {
        self.sites().len() as u16
    }

    /// The line of a place; 0 for place 0.
    #[tactic(auto, using(crate::proofs::FlowLaws::site_line))]
    pub fn place_line(&self, place: u16) -> u32
        requires { place < length self.now.sites }
        ensures { option_map (line_of_place self.now.program) (place_at self.now.program place) ≡ Some result }
    {
        self.sites[place as usize].line
    }

    /// The functions that a function calls itself, as bits: bit `n` is 1 where its body has a call of the function of number `n`, else 0. A
    /// `spawn` is no call.
    #[tactic(auto, using(crate::proofs::FlowLaws::as_many_calls, crate::proofs::FlowLaws::calls_kept))]
    pub fn calls_of(&self, func: u8) -> u64
        requires { func < length self.now.program.funcs }
        ensures { (f : Function) (g : ℕ) → slice_get self.now.program.funcs func ≡ Some f → IsBitSet result g ↔ Contains (calls_body self.now.program f.body) g }
    {
        self.calls()[func as usize]
    }

    /// How many values wait at most before an instruction: as many as wait before one of them.
    pub fn most_values(&self) -> usize
        ensures few { result ≤ node_limit + param_limit }
        ensures is { result ≡ most_values self.now }
        ensures most { (at d : ℕ) → at < length self.now.code → depth_before self.now at ≡ Some d → d ≤ result }
        ensures reached { (at : ℕ) × (at < length self.now.code) × (depth_before self.now at ≡ Some result) }
    {
        most_before(self.code())
    }
}
