ghost use Rattle.std.specs.Bool.{OnFalse, OnTrue};
ghost use Rattle.std.specs.Prelude.{IfErr, IfNone, IfOk, IfSome, IsTrue, [], length, take, ◌<◌, ◌↔◌, ◌∷◌, ◌≡◌, ◌≤◌};
ghost use Rattle.meaning.specs.validation.Instructions.{AllFit, Fits, known};
ghost use Rattle.validator.specs.Errors.{OnInvalid};
ghost use Rattle.validator.specs.Operands.{IsDry, Pops, PopsOne, PopsPart, Refuses, RefusesCountOf, Replaces, TakesOff};

use crate::control_frames::ControlFrame;
use crate::errors::Fault;
use crate::operand_stack::{LEAST_RUN, OperandStack};
use crate::types::are_equal;
use core_types::{OperandType, ValType};
use std::alloc::Global;

#[inline(always)]
pub fn fits(given: OperandType, wanted: OperandType) -> bool
    ensures { IsTrue result ↔ Fits given wanted }
{
    match given {
        OperandType::Unknown => true,
        OperandType::Known(_) => given == wanted,
    }
}

// Pops the topmost operand of the frame. If the frame has none and is unreachable, pops an unknown one.
#[inline(always)]
pub fn pop(operands: &mut OperandStack<'_>, frame: &ControlFrame<'_>) -> Option<OperandType>
    ensures some { IfSome result (λ t. TakesOff frame.now operands.old (t ∷ [])
        operands.new) }
    ensures none { IfNone result (IsDry frame.now.unreachable frame.now.height operands.old) }
{
    if !operands.is_above(frame.height) {
        return frame.unreachable.then_some(OperandType::Unknown);
    }
    operands.pop()
}

// Pops the topmost operand, if it fits.
#[inline(always)]
pub fn pop_fitting(
    operands: &mut OperandStack<'_>,
    frame: &ControlFrame<'_>,
    wanted: OperandType,
) -> bool
    ensures { PopsOne frame.now operands.old wanted operands.new result }
{
    match pop(operands, frame) {
        Some(given) => fits(given, wanted),
        None => false,
    }
}

// Pops an operand of the type, whatever is on top.
#[inline(never)]
fn pop_any_one(operands: &mut OperandStack<'_>, frame: &ControlFrame<'_>, wanted: ValType) -> bool
    ensures { Pops frame.now operands.old (known (wanted ∷ [])) operands.new result }
{
    pop_fitting(operands, frame, OperandType::Known(wanted))
}

// Pops an operand of the type. Mostly, that is the type of the topmost one.
#[inline(always)]
pub fn pop_one(operands: &mut OperandStack<'_>, frame: &ControlFrame<'_>, wanted: ValType) -> bool
    ensures { Pops frame.now operands.old (known (wanted ∷ [])) operands.new result }
{
    if operands.drop_top(frame.height, wanted) {
        return true;
    }
    pop_any_one(operands, frame, wanted)
}

// Pops an operand of the type on top, and then one of the type under it, whatever is on top.
#[inline(never)]
fn pop_any_two(
    operands: &mut OperandStack<'_>,
    frame: &ControlFrame<'_>,
    under: ValType,
    top: ValType,
) -> bool
    ensures { Pops frame.now operands.old (known (under ∷ top ∷ [])) operands.new result }
{
    if !pop_fitting(operands, frame, OperandType::Known(top)) {
        return false;
    }
    pop_one(operands, frame, under)
}

// Pops an operand of the type on top, and then one of the type under it. Mostly, those are the types of the two topmost ones.
#[inline(always)]
pub fn pop_two(
    operands: &mut OperandStack<'_>,
    frame: &ControlFrame<'_>,
    under: ValType,
    top: ValType,
) -> bool
    ensures { Pops frame.now operands.old (known (under ∷ top ∷ [])) operands.new result }
{
    if operands.drop_top_two(frame.height, under, top) {
        return true;
    }
    pop_any_two(operands, frame, under, top)
}

// Replaces the topmost operand of the frame with one of another type, if its type is known and is this one. Returns whether it
// is.
#[inline(always)]
pub fn replace_one(
    operands: &mut OperandStack<'_>,
    frame: &ControlFrame<'_>,
    takes: ValType,
    gives: ValType,
) -> bool
    ensures replaced { OnTrue result
        (Replaces frame.now operands.old (takes ∷ []) (gives ∷ []) operands.new) }
    ensures kept { OnFalse result (operands.new ≡ operands.old) }
{
    operands.replace_top(frame.height, takes, gives)
}

// Replaces the two topmost operands of the frame with one of another type, if their types are known and are both this one.
// Returns whether they are.
#[inline(always)]
pub fn replace_two(
    operands: &mut OperandStack<'_>,
    frame: &ControlFrame<'_>,
    takes: ValType,
    gives: ValType,
) -> bool
    ensures replaced { OnTrue result (Replaces frame.now operands.old (takes ∷ takes ∷ [])
        (gives ∷ []) operands.new) }
    ensures kept { OnFalse result (operands.new ≡ operands.old) }
{
    operands.replace_top_two(frame.height, takes, gives)
}

// Pops operands that fit the types, the last one first.
#[inline(always)]
fn pop_each(operands: &mut OperandStack<'_>, frame: &ControlFrame<'_>, wanted: &[ValType]) -> bool
    ensures { Pops frame.now operands.old (known wanted.now) operands.new result }
{
    let mut left = wanted.len();
    while left > 0 {
        left -= 1;
        if !pop_fitting(operands, frame, OperandType::Known(wanted[left])) {
            return false;
        }
    }
    true
}

// Pops operands that fit the last of the first `left` types: those of a run, one, or unknown ones for all. Returns the number of
// types that are left then.
fn pop_part(
    operands: &mut OperandStack<'_>,
    frame: &ControlFrame<'_>,
    wanted: &[ValType],
    left: usize,
) -> Option<usize>
    requires some { 0 < left }
    requires within { left ≤ length wanted.now }
    ensures popped { IfSome result (λ next. PopsPart frame.now operands.old wanted.now left next
        operands.new) }
    ensures refused { IfNone result (Refuses frame.now.unreachable frame.now.height operands.old
        (known (take left wanted.now))) }
{
    if !operands.is_above(frame.height) {
        if frame.unreachable {
            return Some(0);
        }
        return None;
    }
    let most = usize::min(left, operands.len() - frame.height);
    let Some(types) = operands.pop_run(most) else {
        if !pop_fitting(operands, frame, OperandType::Known(wanted[left - 1])) {
            return None;
        }
        return Some(left - 1);
    };
    let next = left - types.len();
    if !are_equal(types, &wanted[next..left]) {
        return None;
    }
    Some(next)
}

// Pops operands that fit many types, part by part.
#[inline(never)]
fn pop_parts(operands: &mut OperandStack<'_>, frame: &ControlFrame<'_>, wanted: &[ValType]) -> bool
    ensures { Pops frame.now operands.old (known wanted.now) operands.new result }
{
    let mut left = wanted.len();
    while left > 0 {
        let Some(next) = pop_part(operands, frame, wanted, left) else {
            return false;
        };
        left = next;
    }
    true
}

// Pops operands that fit the types, the last one first.
#[inline(always)]
pub fn pop_types(
    operands: &mut OperandStack<'_>,
    frame: &ControlFrame<'_>,
    wanted: &[ValType],
) -> bool
    ensures { Pops frame.now operands.old (known wanted.now) operands.new result }
{
    if wanted.len() < LEAST_RUN {
        pop_each(operands, frame, wanted)
    } else {
        pop_parts(operands, frame, wanted)
    }
}

// Pops a number of operands, and returns them in their order.
pub fn take_operands(
    alloc: Global,
    operands: &mut OperandStack<'_>,
    frame: &ControlFrame<'_>,
    count: usize,
) -> Result<Vec<OperandType>, Fault>
    ensures took { IfOk result (λ given. TakesOff frame.now operands.old given.items
        operands.new) }
    ensures count { IfOk result (λ given. length given.items ≡ count) }
    ensures refused { IfErr result (OnInvalid (RefusesCountOf frame.now operands.old count)) }
{
    let mut given = Vec::new(alloc);
    while given.len() < count {
        let Some(operand) = pop(operands, frame) else {
            return Err(Fault::Invalid);
        };
        given.push(operand)?;
    }
    given.reverse();
    Ok(given)
}

// Returns whether operands fit types. Each pair is compared, so that the loop compares several at once.
pub fn all_fit(given: &[OperandType], wanted: &[ValType]) -> bool
    ensures { IsTrue result ↔ AllFit given.now (known wanted.now) }
{
    if given.len() != wanted.len() {
        return false;
    }
    let mut fitting = true;
    for i in 0..given.len() {
        fitting &= fits(given[i], OperandType::Known(wanted[i]));
    }
    fitting
}
