ghost use Rattle.std.specs.Prelude.{IfNone, IfSome, None, Some, [], ◌≡◌};
ghost use Rattle.validator.specs.ControlFrames.{BecomesUnreachable, BeginsBody, IsLabelAt, label_of};

use crate::operand_stack::OperandStack;
use core_types::ValType;
use std::alloc::Global;

/// The instruction or function that the body of a control frame belongs to.
#[derive(Clone, Copy)]
pub enum FrameKind {
    Function,
    Block,
    Loop,
    If,
    Else,
}

/// A body that has begun and not ended. It has the types at its start and at its end, the number of operands below it, and
/// whether what follows in it is unreachable.
#[derive(Clone, Copy)]
pub struct ControlFrame<'a> {
    pub kind: FrameKind,
    pub start_types: &'a [ValType],
    pub end_types: &'a [ValType],
    pub height: usize,
    pub unreachable: bool,
}

/// The operand stack and the control stack. The control stack has a frame for each body that has begun and not ended.
#[derive(Drop)]
pub struct Stacks<'a> {
    pub operands: OperandStack<'a>,
    /// The innermost frame.
    pub innermost: ControlFrame<'a>,
    /// The frames around it, the innermost last.
    pub outer: Vec<ControlFrame<'a>>,
}

impl<'a> Stacks<'a> {
    // Creates stacks with no operand and only the frame of a body without results. Allocates nothing.
    pub fn new(alloc: Global) -> Stacks<'a>
        ensures { BeginsBody result [] }
    {
        Stacks {
            operands: OperandStack::new(alloc),
            innermost: ControlFrame {
                kind: FrameKind::Function,
                start_types: &[],
                end_types: &[],
                height: 0,
                unreachable: false,
            },
            outer: Vec::new(alloc),
        }
    }
}

// Removes all operands, and all frames except that of the body of a function with these results. The stacks keep their room.
pub fn begin_body<'a>(stacks: &mut Stacks<'a>, results: &'a [ValType])
    ensures { BeginsBody stacks.new results.now }
{
    stacks.operands.clear();
    stacks.outer.clear();
    stacks.innermost = ControlFrame {
        kind: FrameKind::Function,
        start_types: &[],
        end_types: results,
        height: 0,
        unreachable: false,
    };
}

fn label_types<'a>(frame: &ControlFrame<'a>) -> &'a [ValType]
    ensures { result.now ≡ label_of frame.now }
{
    match frame.kind {
        FrameKind::Loop => frame.start_types,
        FrameKind::Function | FrameKind::Block | FrameKind::If | FrameKind::Else => frame.end_types,
    }
}

// Returns the types of a label, by its index from the inside out.
pub fn find_label<'a>(
    innermost: &ControlFrame<'a>,
    outer: &[ControlFrame<'a>],
    index: u32,
) -> Option<&'a [ValType]>
    ensures some { IfSome result (λ types. IsLabelAt innermost.now outer.now index
        (Some types.now)) }
    ensures none { IfNone result (IsLabelAt innermost.now outer.now index None) }
{
    let index = index as usize;
    if index == 0 {
        return Some(label_types(innermost));
    }
    if index > outer.len() {
        return None;
    }
    Some(label_types(&outer[outer.len() - index]))
}

// Marks what follows in the innermost frame as unreachable.
pub fn set_unreachable(stacks: &mut Stacks<'_>)
    ensures { BecomesUnreachable stacks.old stacks.new }
{
    let height = stacks.innermost.height;
    stacks.operands.truncate(height);
    stacks.innermost.unreachable = true;
}
