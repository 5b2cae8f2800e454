//! The operands and the open bodies of a function (Appendix, Validation Algorithm).

use crate::faults::{Fault, Kind, Stop, TypeFault, mismatch};
use crate::types::{Signature, name_of};
use core_types::{OperandType, ValType};
use std::alloc::{AllocError, Global};

/// A body that has begun.
#[derive(Clone, Copy)]
pub struct Frame<'a> {
    pub opener: Opener,
    pub signature: Signature<'a>,
    /// The number of operands below it.
    pub height: usize,
    pub is_unreachable: bool,
}

/// What a body begins with.
#[derive(Clone, Copy, PartialEq, Eq)]
pub enum Opener {
    Block,
    Loop,
    If,
    Else,
}

// How many operands may be pushed, popped and looked at in one body. An open body counts as some.
const MOST_WORK: usize = 0x80_0000;

const WORK_OF_A_BODY: usize = 32;

/// The operands, and the open bodies from the outermost to the innermost.
#[derive(Drop)]
pub struct Stacks<'a> {
    operands: Vec<OperandType>,
    frames: Vec<Frame<'a>>,
    work: usize,
}

// Returns the name of an operand's type.
fn operand_name(operand: OperandType) -> &'static str {
    match operand {
        OperandType::Known(ty) => name_of(ty),
        OperandType::Unknown => "any type",
    }
}

impl<'a> Stacks<'a> {
    pub fn new(alloc: Global) -> Stacks<'a> {
        Stacks {
            operands: Vec::new(alloc),
            frames: Vec::new(alloc),
            work: 0,
        }
    }

    fn add_work(&mut self, work: usize) {
        self.work = self.work.saturating_add(work);
    }

    /// Returns whether the check has done so much that it gives up: the body is one that nobody writes.
    pub fn is_too_long(&self) -> bool {
        self.work > MOST_WORK
    }

    fn top(&self) -> Frame<'a> {
        match self.frames.last() {
            Some(frame) => *frame,
            None => Frame {
                opener: Opener::Block,
                signature: Signature {
                    takes: &[],
                    gives: &[],
                },
                height: 0,
                is_unreachable: true,
            },
        }
    }

    pub fn push(&mut self, ty: ValType) -> Result<(), AllocError> {
        self.add_work(1);
        self.operands.push(OperandType::Known(ty))?;
        Ok(())
    }

    pub fn push_operand(&mut self, operand: OperandType) -> Result<(), AllocError> {
        self.operands.push(operand)?;
        Ok(())
    }

    pub fn push_all(&mut self, types: &[ValType]) -> Result<(), AllocError> {
        for ty in types {
            self.push(*ty)?;
        }
        Ok(())
    }

    /// Pops the topmost operand of the innermost body. An unreachable one has any number of operands of any type.
    pub fn pop(&mut self, expected: &'static str) -> Result<OperandType, Fault> {
        let frame = self.top();
        self.add_work(1);
        if self.operands.len() > frame.height {
            if let Some(operand) = self.operands.pop() {
                return Ok(operand);
            }
        }
        if frame.is_unreachable {
            return Ok(OperandType::Unknown);
        }
        Err(mismatch(expected, "nothing"))
    }

    /// Pops an operand of a type.
    pub fn take(&mut self, ty: ValType) -> Result<(), Fault> {
        let expected = name_of(ty);
        match self.pop(expected)? {
            OperandType::Known(found) if found != ty => { Err(mismatch(expected, name_of(found))) }
            _ => Ok(()),
        }
    }

    /// Pops operands of these types, the last one first.
    pub fn take_all(&mut self, types: &[ValType]) -> Result<(), Fault> {
        for ty in types.iter().rev() {
            self.take(*ty)?;
        }
        Ok(())
    }

    // Returns the operand that many below the topmost one of the innermost body, or an unknown one if it is unreachable.
    fn operand_at(&self, depth: usize) -> Option<OperandType> {
        let frame = self.top();
        let count = self.operands.len().saturating_sub(frame.height);
        if depth < count {
            let from_top = self.operands.len().checked_sub(depth)?.checked_sub(1)?;
            return self.operands.get(from_top).copied();
        }
        frame.is_unreachable.then_some(OperandType::Unknown)
    }

    // Requires an operand of a type at a depth.
    fn need_at(&self, depth: usize, ty: ValType) -> Result<(), Fault> {
        let expected = name_of(ty);
        match self.operand_at(depth) {
            Some(OperandType::Known(found)) if found != ty => {
                Err(mismatch(expected, name_of(found)))
            }
            Some(_) => Ok(()),
            None => Err(mismatch(expected, "nothing")),
        }
    }

    /// Requires operands of these types, and leaves them.
    pub fn look_at(&mut self, types: &[ValType]) -> Result<(), Fault> {
        self.add_work(types.len());
        for (depth, ty) in types.iter().rev().enumerate() {
            self.need_at(depth, *ty)?;
        }
        Ok(())
    }

    /// Pops what a signature takes, and pushes what it gives.
    pub fn apply(&mut self, signature: Signature<'_>) -> Result<(), Stop> {
        self.take_all(signature.takes)?;
        self.push_all(signature.gives)?;
        Ok(())
    }

    /// Begins a body, after what it takes is popped.
    pub fn open(&mut self, opener: Opener, signature: Signature<'a>) -> Result<(), AllocError> {
        let height = self.operands.len();
        self.add_work(WORK_OF_A_BODY);
        self.frames.push(Frame {
            opener,
            signature,
            height,
            is_unreachable: false,
        })?;
        self.push_all(signature.takes)
    }

    /// Ends the innermost body: its results are on top, and nothing else.
    pub fn close(&mut self) -> Result<Frame<'a>, Fault> {
        let frame = self.top();
        self.take_all(frame.signature.gives)?;
        if self.operands.len() > frame.height {
            if let Some(operand) = self.operands.pop() {
                return Err(Fault::Type(TypeFault::Left(operand_name(operand))));
            }
        }
        let _ = self.frames.pop();
        Ok(frame)
    }

    /// Forgets the operands of the innermost body, of which the rest is unreachable.
    pub fn leave(&mut self) {
        let height = self.top().height;
        self.operands.truncate(height);
        if let Some(frame) = self.frames.last_mut() {
            frame.is_unreachable = true;
        }
    }

    /// Returns the types that a branch to a label takes.
    pub fn label(&self, index: u32) -> Result<&'a [ValType], Fault> {
        let count = self.frames.len();
        let from_bottom = count
            .checked_sub(1)
            .and_then(|last| last.checked_sub(index as usize));
        match from_bottom.and_then(|at| self.frames.get(at)) {
            Some(frame) => match frame.opener {
                Opener::Loop => Ok(frame.signature.takes),
                _ => Ok(frame.signature.gives),
            },
            None => Err(Fault::Unknown(Kind::Label, index, count)),
        }
    }
}
