//! The machine of a thread.
ghost use Rattle.std.specs.Prelude.{slice_get, ◌≡◌, ◌<◌, ◌≤◌, ◌+◌, ◌-◌, [], ◌∷◌, IfOk, Some, length, is_some, unwrap_or, pos, replicate};
ghost use Rattle.loom_flow.specs.Flow.{Flow, resume};
ghost use Rattle.loom_flow.specs.State.{operand_value, without, given, forward, jumped, argument_values, without_arguments, local_values, at_start};
ghost use Rattle.loom_flow.specs.Position.{before, leaves, over};
ghost use Rattle.loom_flow.specs.Progress.{returns};
ghost use Rattle.loom_lang.specs.Values.{is_zero};
ghost use Rattle.loom_lang.specs.Limits.{param_limit};
ghost use Rattle.loom_flow.specs.Depth.{pops, pushes};
ghost use Rattle.loom_flow.specs.Laws.{HasLocal, HasLocalFor};
ghost use Rattle.loom_strand.specs.declared.machine.Phase.TheVariants as phase;
ghost use Rattle.loom_strand.specs.Machine.{HasNext, HasRoomBelow, HasCall, HasFirstCall, with_state, with_position, blank, frames_below, new_machine, branch_state};

use crate::frame::Frame;
use crate::stack::Stack;
use loom_flow::code::{Entrance, Operand, Site, Target};
use loom_lang::limits::LOCAL_LIMIT;
use loom_trace::row::Args;
use loom_tree::name::NoMemory;
use std::alloc::Global;
use std::marker::Model;

/// How many frames may wait below the newest one.
pub(crate) const FRAMES_BELOW: usize = 255;

/// Where a thread is in its newest frame.
#[derive(Clone, Copy, Debug, Drop)]
pub(crate) enum Phase {
    /// Before an instruction.
    Before,
    /// The frame is to end with this result: its last statement is complete.
    Leaves(i64),
    /// There is no frame: the last one has ended.
    Over,
}

/// Where a thread is, with room for its values and its frames.
#[derive(Debug, Drop)]
pub(crate) struct Machine {
    phase: Phase,
    at: usize,
    values: Stack<i64>,
    func: u8,
    locals: [i64; LOCAL_LIMIT],
    below: Stack<Frame>,
}

impl Model for Machine {
    ghost use Rattle.loom_strand.specs.Machine.{Machine};

    ghost Value = { Machine };

    ghost view = { λ m. record {
      phase = m.phase;
      state = record { at = m.at; values = m.values.items; func = m.func; locals = m.locals; below = m.below.items };
      most_values = m.values.most;
      most_frames = m.below.most;
    } };
}

impl Machine {
    /// With room for so many values. An `Err` is want of memory.
    pub fn make(alloc: Global, values: usize) -> Result<Machine, NoMemory>
        ensures { IfOk result (λ m. m ≡ new_machine values) }
    {
        let values = Stack::make(alloc, values)?;
        let below = Stack::make(alloc, FRAMES_BELOW)?;
        Ok(Machine {
            phase: Phase::Before,
            at: 0,
            values,
            func: 0,
            locals: [0; LOCAL_LIMIT],
            below,
        })
    }

    /// To the start of a function, where there is no value and no frame.
    pub fn begin(&mut self, func: u8, entrance: Entrance, args: Args)
        requires blank { self.old.state ≡ blank }
        requires phase { self.old.phase ≡ phase.Before }
        ensures { self.new ≡ with_position self.old (before (at_start func entrance args [] [])) }
    {
        self.start(func, entrance, args);
    }

    // To the start of a function, above these values and frames.
    fn start(&mut self, func: u8, entrance: Entrance, args: Args)
        ensures { self.new ≡ with_state self.old (at_start func entrance args self.old.state.values self.old.state.below) }
    {
        let locals = first_locals(entrance, args);
        self.at = entrance.start as usize;
        self.func = func;
        self.locals = locals;
    }

    /// In which phase the newest frame is.
    pub fn phase(&self) -> Phase
        ensures { result ≡ self.now.phase }
    {
        self.phase
    }

    /// Its last frame has ended.
    pub fn stop(&mut self)
        ensures { self.new ≡ with_position self.old over }
    {
        self.phase = Phase::Over;
    }

    /// The number of the next instruction.
    pub fn at(&self) -> usize
        ensures { result ≡ self.now.state.at }
    {
        self.at
    }

    /// The number of the function of the newest frame.
    pub fn func(&self) -> u8
        ensures { result ≡ self.now.state.func }
    {
        self.func
    }

    /// The locals of the newest frame.
    pub fn locals(&self) -> &[i64]
        ensures { result.now ≡ self.now.state.locals }
    {
        &self.locals
    }

    /// How many frames wait.
    pub fn waiting(&self) -> usize
        ensures { result ≡ length self.now.state.below }
    {
        self.below.len()
    }

    /// The value of an operand.
    pub fn operand(&self, a: Operand) -> i64
        requires value { pops a ≤ length self.now.state.values }
        requires local { HasLocal a }
        ensures { result ≡ operand_value self.now.state a }
    {
        match a {
            Operand::Top => self.values.top(),
            Operand::Local(x) => self.locals[x as usize],
            Operand::Number(n) => n,
        }
    }

    /// Takes off an operand that was on top of the values.
    pub fn drop_operand(&mut self, a: Operand)
        ensures { self.new ≡ with_state self.old (without self.old.state a) }
    {
        match a {
            Operand::Top => self.values.drop_last(1),
            Operand::Local(_) => {}
            Operand::Number(_) => {}
        }
    }

    /// Leaves a value where it belongs.
    #[tactic(auto, using(crate::proofs::Locals::put_set))]
    pub fn give(&mut self, target: Target, v: i64)
        requires room { length self.old.state.values + pushes target ≤ self.old.most_values }
        requires local { HasLocalFor target }
        ensures { self.new ≡ with_state self.old (given self.old.state target v) }
    {
        match target {
            Target::Push => self.values.push(v),
            Target::Local(x) => self.locals[x as usize] = v,
        }
    }

    /// To the next instruction.
    pub fn forward(&mut self)
        requires { HasNext self.old.state }
        ensures { self.new ≡ with_state self.old (forward self.old.state) }
    {
        self.at += 1;
    }

    /// To another instruction.
    pub fn jump(&mut self, to: u32)
        ensures { self.new ≡ with_state self.old (jumped self.old.state to) }
    {
        self.at = to as usize;
    }

    /// Leaves a value where it belongs, and goes to the next instruction.
    pub fn store(&mut self, target: Target, v: i64)
        requires before { HasNext self.old.state }
        requires room { length self.old.state.values + pushes target ≤ self.old.most_values }
        requires local { HasLocalFor target }
        ensures { self.new ≡ with_state self.old (forward (given self.old.state target v)) }
    {
        self.give(target, v);
        self.forward();
    }

    /// The same where an operand is taken.
    #[tactic(auto, using(crate::proofs::Soundness::without_length))]
    pub fn replace(&mut self, a: Operand, target: Target, v: i64)
        requires before { HasNext self.old.state }
        requires room { length self.old.state.values - pops a + pushes target ≤ self.old.most_values }
        requires local { HasLocalFor target }
        ensures { self.new ≡ with_state self.old (forward (given (without self.old.state a) target v)) }
    {
        self.drop_operand(a);
        self.store(target, v);
    }

    /// The same where two are, the second one first.
    #[tactic(auto, using(crate::proofs::Soundness::without_length))]
    pub fn replace_two(&mut self, a: Operand, b: Operand, target: Target, v: i64)
        requires before { HasNext self.old.state }
        requires room { length self.old.state.values - (pops a + pops b) + pushes target ≤ self.old.most_values }
        requires local { HasLocalFor target }
        ensures { self.new ≡ with_state self.old (forward (given (without (without self.old.state b) a) target v)) }
    {
        self.drop_operand(b);
        self.replace(a, target, v);
    }

    /// Takes off an operand, and goes to the next instruction.
    pub fn pass(&mut self, a: Operand)
        requires { HasNext self.old.state }
        ensures { self.new ≡ with_state self.old (forward (without self.old.state a)) }
    {
        self.drop_operand(a);
        self.forward();
    }

    /// Takes off two operands, the second one first, and goes to the next instruction.
    pub fn pass_two(&mut self, a: Operand, b: Operand)
        requires { HasNext self.old.state }
        ensures { self.new ≡ with_state self.old (forward (without (without self.old.state b) a)) }
    {
        self.drop_operand(b);
        self.pass(a);
    }

    /// Takes off an operand, and goes to an instruction if it is 0, or to the next one.
    pub fn branch(&mut self, a: Operand, to: u32)
        requires before { HasNext self.old.state }
        requires value { pops a ≤ length self.old.state.values }
        requires local { HasLocal a }
        ensures { self.new ≡ with_state self.old (branch_state (is_zero (operand_value self.old.state a)) (jumped (without self.old.state a) to) (forward (without self.old.state a))) }
    {
        if self.operand(a) == 0 {
            self.drop_operand(a);
            self.jump(to);
        } else {
            self.pass(a);
        }
    }

    /// The value of an operand where another one is taken first.
    pub fn operand_under(&self, a: Operand, over: Operand) -> i64
        requires values { pops a + pops over ≤ length self.now.state.values }
        requires local { HasLocal a }
        ensures { result ≡ operand_value (without self.now.state over) a }
    {
        match a {
            Operand::Top => match over {
                Operand::Top => self.values.second(),
                Operand::Local(_) => self.values.top(),
                Operand::Number(_) => self.values.top(),
            },
            Operand::Local(_) => self.operand(a),
            Operand::Number(_) => self.operand(a),
        }
    }

    /// The arguments that are the last ones put on the values.
    pub fn arguments(&self, n: u8) -> Args
        requires few { n ≤ param_limit }
        requires there { n ≤ length self.now.state.values }
        ensures { result ≡ argument_values self.now.state n }
    {
        self.values.last(n as usize)
    }

    /// Takes off so many arguments.
    pub fn drop_arguments(&mut self, n: u8)
        ensures { self.new ≡ with_state self.old (without_arguments self.old.state n) }
    {
        self.values.drop_last(n as usize);
    }

    /// Takes off so many arguments and gives them.
    pub fn take_arguments(&mut self, n: u8) -> Args
        requires few { n ≤ param_limit }
        requires there { n ≤ length self.old.state.values }
        ensures args { result ≡ argument_values self.old.state n }
        ensures rest { self.new ≡ with_state self.old (without_arguments self.old.state n) }
    {
        let args = self.arguments(n);
        self.drop_arguments(n);
        args
    }

    /// Into a new frame, called from this place.
    pub fn enter(&mut self, entrance: Entrance, func: u8, args: Args, place: u16)
        requires { length self.old.state.below < self.old.most_frames }
        ensures { self.new ≡ with_state self.old (at_start func entrance args self.old.state.values ((record { func = self.old.state.func; locals = self.old.state.locals; site = place }) ∷ self.old.state.below)) }
    {
        let locals = self.locals;
        self.below.push(Frame {
            func: self.func,
            locals,
            site: place,
        });
        self.start(func, entrance, args);
    }

    /// The frame is to end with the value of an operand, which is taken off.
    pub fn leave(&mut self, a: Operand)
        requires value { pops a ≤ length self.old.state.values }
        requires local { HasLocal a }
        ensures { self.new ≡ with_position self.old (leaves (without self.old.state a) (operand_value self.old.state a)) }
    {
        let v = self.operand(a);
        self.drop_operand(a);
        self.phase = Phase::Leaves(v);
    }

    /// The frame has ended with this result: back into the one below, if there is one.
    pub fn back(&mut self, sites: &[Site], v: i64)
        requires room { HasRoomBelow self.old self.old.state.below }
        requires call { HasFirstCall sites.now self.old.state.below }
        ensures { (c : Flow) → c.sites ≡ sites.now → self.new ≡ with_position self.old (returns c self.old.state.values v self.old.state.below) }
    {
        match self.below.pop() {
            Some(frame) => {
                self.values.push(v);
                self.at = return_point(sites, frame.site);
                self.func = frame.func;
                let locals = frame.locals;
                self.locals = locals;
                self.phase = Phase::Before;
            }
            None => self.phase = Phase::Over,
        }
    }
}

// The number of the instruction at which a frame goes on that waits at this place.
fn return_point(sites: &[Site], place: u16) -> usize
    requires { HasCall sites.now place }
    ensures { resume (slice_get sites.now place) ≡ Some result }
{
    match sites[place as usize].resume {
        Some(at) => at as usize,
        None => unreachable!(),
    }
}

// The locals of a new frame.
fn first_locals(entrance: Entrance, args: Args) -> [i64; LOCAL_LIMIT]
    ensures { result ≡ local_values entrance args }
{
    let given = args.as_slice();
    let count = given.len().min(entrance.params as usize);
    let mut locals = [0; LOCAL_LIMIT];
    'given: for i in 0..count {
        locals[i] = given[i];
    }
    locals
}
