use core_types::{Limits, Trap};
use sidetable::{FlatModule, OtherInstruction};
use store::{Code, Instance};

/// A waiting frame: the cell of its first local, the place of the operation after the call, and the number of its instance.
#[derive(Clone, Copy)]
pub struct Frame {
    pub base: usize,
    pub place: u32,
    pub instance: u32,
}

/// The position of a run.
///
/// It has the number of the instance whose code runs, the cell of the first local of the innermost frame, and the place of the
/// next operation. It also has the cell where the topmost operand would be, that operand, and the fuel left.
#[derive(Clone, Copy)]
pub struct Position {
    pub instance: u32,
    pub base: usize,
    pub place: usize,
    pub top: usize,
    pub operand: u64,
    pub fuel: u64,
}

/// What stays while code of one instance runs: the store's code, the instance, its module's flat code and its number. It also
/// has the address of the instance's memory, if it has one, that memory's limits, and the most frames that may be open.
#[derive(Clone, Copy)]
pub struct Surroundings<'a> {
    pub code: &'a Code,
    pub instance: &'a Instance,
    pub flat: &'a FlatModule,
    pub number: u32,
    pub address: Option<u32>,
    pub limits: Limits,
    pub bound: u64,
}

/// How a function is called: in a frame above that of the caller, or in its place.
#[derive(Clone, Copy)]
pub enum CallKind {
    Nested,
    Tail,
}

/// Why the loop stops.
#[derive(Clone, Copy)]
pub enum Stop {
    /// The outermost frame is at its end, or returns, and the step was paid for.
    Over,
    /// The next step traps, and was paid for.
    Traps(Trap),
    /// The next step costs more than the fuel left.
    NoFuel,
    /// The next step would open more frames than the bound allows.
    NoDepth,
    /// The next step opens or replaces a frame, for which there are not enough cells.
    NoRoom,
    /// The next step opens a frame, for which an allocation failed.
    NoMemory,
    /// Code of another instance is next.
    Switches,
    /// The next step calls the host function at an address. Its arguments are in the cells below this place.
    CallsHost(CallKind, u32, usize),
    /// The next operation is an instruction that the loop leaves to others.
    LeavesOther(OtherInstruction, u32),
}

/// Where the machine continues, from the position that an operation led to. That position can be in another frame.
#[derive(Clone, Copy)]
pub enum Crossing {
    /// In code of the same instance.
    Goes,
    /// In code of another instance.
    Switches,
    /// The machine stops. The reason is stored elsewhere, so that the loop does not carry it from turn to turn.
    Stops,
}
