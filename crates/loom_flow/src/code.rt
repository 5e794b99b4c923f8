//! Flat code.
//!
//! The instructions of all functions stand in one list. Operands that are numbers or locals stand in the instruction that takes them; others
//! are put on a stack of values, which is empty between statements.

use loom_tree::expression::Op;

/// Where an instruction finds an operand.
#[derive(Clone, Copy, Debug, Drop, PartialEq, Eq)]
pub enum Operand {
    /// On top of the values; it is taken off.
    Top,
    /// A local of the frame, by its number.
    Local(u8),
    /// The number itself.
    Number(i64),
}

/// Where an instruction leaves its value.
#[derive(Clone, Copy, Debug, Drop, PartialEq, Eq)]
pub enum Target {
    /// On top of the values.
    Push,
    /// In a local of the frame, by its number.
    Local(u8),
}

/// The cells of an array. They have successive numbers.
#[derive(Clone, Copy, Debug, Drop, PartialEq, Eq)]
pub struct Array {
    /// The number of the first cell.
    pub first: u16,
    /// How many there are.
    pub count: u16,
}

/// What an instruction does by itself, in its own frame.
#[derive(Clone, Copy, Debug, Drop, PartialEq, Eq)]
pub enum Compute {
    /// The operand's value.
    Move(Operand, Target),
    /// Its negation.
    Negate(Operand, Target),
    /// 1 where it is 0, or else 0.
    Invert(Operand, Target),
    /// The left operand, then the right one. A division by 0 traps.
    Apply(Op, Operand, Operand, Target),
    /// The value on top is dropped.
    Discard,
}

/// What an instruction asks for. The answer is an entry of the journal.
#[derive(Clone, Copy, Debug, Drop, PartialEq, Eq)]
pub enum Ask {
    /// The value of the cell of this number.
    Read(u16, Target),
    /// The value of an array's cell. The operand is the index; one outside the array traps.
    ReadCell(Array, Operand, Target),
    /// A value for the cell of this number.
    Write(u16, Operand),
    /// A value for an array's cell: the index, then the value. An index outside the array traps.
    WriteCell(Array, Operand, Operand),
    /// The mutex of this number.
    Lock(u8),
    /// The same, given back.
    Unlock(u8),
    /// One from the semaphore of this number.
    Down(u8),
    /// One for it.
    Up(u8),
    /// The end of the thread whose number is the operand.
    Join(Operand),
    /// The operand's value, to be printed.
    Print(Operand),
    /// A thread of the function of this number, with as many arguments as are said, the last on top of the values.
    Spawn(u8, u8, Target),
}

/// Where an instruction leads, and the edges of statements and of frames.
#[derive(Clone, Copy, Debug, Drop, PartialEq, Eq)]
pub enum Control {
    /// The statement begins.
    Begin,
    /// It is complete.
    Done,
    /// The back edge of a loop, to the instruction of this number.
    Edge(u32),
    /// To the instruction of this number.
    Jump(u32),
    /// The same where the operand is 0, or else to the next instruction.
    JumpIfZero(Operand, u32),
    /// A call of the function of this number, with as many arguments as are said, the last on top of the values. The result is left there.
    Call(u8, u8),
    /// The statement is complete, and the frame is to end with the operand.
    Return(Operand),
    /// The frame is to end behind its last statement.
    Out,
}

/// What an instruction does.
#[derive(Clone, Copy, Debug, Drop, PartialEq, Eq)]
pub enum CodeStep {
    /// It computes.
    Compute(Compute),
    /// It asks for something.
    Ask(Ask),
    /// It leads to an instruction, or past an edge.
    Control(Control),
}

/// An instruction, with the line and the place at which a thread stands while it asks for what the instruction does.
#[derive(Clone, Copy, Debug, Drop, PartialEq, Eq)]
pub struct Instr {
    /// A line of the program.
    pub line: u32,
    /// The number of a place of the program.
    pub place: u16,
    /// What it does.
    pub step: CodeStep,
}

/// A place.
#[derive(Clone, Copy, Debug, Drop, PartialEq, Eq)]
pub struct Site {
    /// A line of the program; 0 at place 0.
    pub line: u32,
    /// The number of the instruction behind the call of the statement, if it has one.
    pub resume: Option<u32>,
}

/// Where a function begins.
#[derive(Clone, Copy, Debug, Drop, PartialEq, Eq)]
pub struct Entrance {
    /// The number of its first instruction.
    pub start: u32,
    /// The number of its entry place.
    pub place: u16,
    /// How many parameters it has.
    pub params: u8,
}
