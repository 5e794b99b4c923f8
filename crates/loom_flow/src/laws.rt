//! Laws of flat code.
ghost use Rattle.loom_flow.specs.Laws.{AllJumpForward, AllKeepFunctions, AllHaveOperands, AllHaveLocals, AllHaveProgramNumbers};

/// No instruction leads out of the code, and in a frame only back edges lead back.
#[tactic(auto, using(crate::proofs::Forward::lowered_forward))]
pub fn jumps_go_forward()
    ensures { AllJumpForward }
{}

/// No instruction leads out of its function.
#[tactic(auto, using(crate::proofs::Forward::lowered_keeps))]
pub fn functions_are_kept()
    ensures { AllKeepFunctions }
{}

/// No instruction finds too few values, or many more than an expression has nodes.
#[tactic(auto, using(crate::proofs::Depths::lowered_operands))]
pub fn operands_are_there()
    ensures { AllHaveOperands }
{}

/// The locals in instructions are those of a frame.
#[tactic(auto, using(crate::proofs::ProgramNumbers::lowered_locals))]
pub fn locals_are_there()
    ensures { AllHaveLocals }
{}

/// The numbers in instructions are those of the program: of words, arrays, mutexes, semaphores and functions.
#[tactic(auto, using(crate::proofs::ProgramNumbers::lowered_numbers))]
pub fn numbers_are_there()
    ensures { AllHaveProgramNumbers }
{}
