ghost use Rattle.std.specs.Prelude.{◌≡◌, ◌≢◌, ◌+◌, ◌<◌, ◌≤◌, ℕ, List, [], ◌∷◌, ◌++◌, length, reverse, IfNone, IfOk, IfSome, OnOk, IsTrue, Some, None, false, option_map, vec_capacity, vec_len};
ghost use Rattle.core_types.specs.Expressions.{lent_op};
ghost use Rattle.core_types.specs.declared.module.Module.{Module};
ghost use Rattle.core_types.specs.declared.op.NumericOp.{NumericOp as AnyNumericOp};
ghost use Rattle.core_types.specs.declared.op.NumericOp.TheVariants.{Binary as BinaryForm};
ghost use Rattle.core_types.specs.declared.op.Op.{Op as AnyOp};
ghost use Rattle.core_types.specs.declared.op.Op.TheVariants.{Plain};
ghost use Rattle.core_types.specs.declared.op.PlainOp.TheVariants.{Numeric as NumericForm, Reference as ReferenceForm, Variable as VariableForm};
ghost use Rattle.core_types.specs.declared.op.ReferenceOp.TheVariants.{Func as FuncForm};
ghost use Rattle.core_types.specs.declared.op.VariableOp.TheVariants.{GlobalGet as GlobalGetForm};
ghost use Rattle.core_types.specs.declared.outcome.Val.{Val as AnyVal};
ghost use Rattle.meaning.specs.execution.Modules.{constant, constant_step, constant_value, only, operate as operate_of};
ghost use Rattle.meaning.specs.execution.Values.{null_of};
ghost use Rattle.store.specs.Contents.{Contents, store_with};
ghost use Rattle.instantiate.specs.Constants.{instance_with, operands_behind};

use core_types::{
    BinaryOp, Expression, LentOp, NumericOp, PlainOp, RefType, ReferenceOp, Val, VariableOp, Width,
    plain_op,
};
use intops::{binary_32, binary_64};
use std::alloc::{AllocError, Global};
use std::marker::Model;
use store::{Addresses, State, null_of};

/// Returns the reference to a function of the instance with these addresses, if it has that function.
pub fn function_reference(addresses: &Addresses, state: &State, x: u32) -> Option<Val>
    ensures { (code : Contents) (m : Module) → result ≡ constant (store_with code state.now)
        (instance_with addresses.now m) (ReferenceForm (FuncForm x)) }
{
    let _ = state;
    match addresses.functions.get(x as usize) {
        Some(address) => Some(Val::FuncRef(Some(*address))),
        None => None,
    }
}

// Returns the value of a global of the instance with these addresses, if the global exists.
fn global_value(addresses: &Addresses, state: &State, x: u32) -> Option<Val>
    ensures { (code : Contents) (m : Module) → result ≡ constant (store_with code state.now)
        (instance_with addresses.now m) (VariableForm (GlobalGetForm x)) }
{
    let address = addresses.globals.get(x as usize)?;
    match state.global(*address) {
        Some(variable) => Some(variable.value()),
        None => None,
    }
}

// Returns the value of a constant instruction, in the instance with these addresses.
fn constant(op: &PlainOp, addresses: &Addresses, state: &State) -> Option<Val>
    ensures { (code : Contents) (m : Module) → result ≡ constant (store_with code state.now)
        (instance_with addresses.now m) op.now }
{
    match op {
        PlainOp::I32Const(n) => Some(Val::I32(*n)),
        PlainOp::I64Const(n) => Some(Val::I64(*n)),
        PlainOp::Reference(ReferenceOp::Null(ty)) => Some(null_of(*ty)),
        PlainOp::Reference(ReferenceOp::Func(x)) => function_reference(addresses, state, *x),
        PlainOp::Variable(VariableOp::GlobalGet(x)) => global_value(addresses, state, *x),
        _ => None,
    }
}

// ---- operators

// Returns the result of an operator on two operands, if they are integers of its width and it does not trap.
fn operator_value(width: Width, op: BinaryOp, first: Val, second: Val) -> Option<Val>
    ensures { (rest : List AnyVal) → operate_of (BinaryForm width op) (second ∷ first ∷ rest)
        ≡ option_map (λ v. v ∷ rest) result }
{
    match (width, first, second) {
        (Width::W32, Val::I32(a), Val::I32(b)) => match binary_32(op, a, b) {
            Ok(n) => Some(Val::I32(n)),
            Err(_) => None,
        },
        (Width::W64, Val::I64(a), Val::I64(b)) => match binary_64(op, a, b) {
            Ok(n) => Some(Val::I64(n)),
            Err(_) => None,
        },
        _ => None,
    }
}

// Pushes a value on the operands, for which there must be room.
fn push(operands: &mut Vec<Val>, value: Val)
    requires room { vec_len operands.old < vec_capacity operands.old }
    ensures pushed { operands.new.items ≡ operands.old.items ++ value ∷ [] }
    ensures len { vec_len operands.new ≡ vec_len operands.old + 1 }
    ensures capacity { vec_capacity operands.old ≤ vec_capacity operands.new }
{
    let _ = operands.push(value);
}

// Replaces the two topmost operands with the result of an operator. Returns whether there is a result.
fn operate(op: NumericOp, operands: &mut Vec<Val>) -> bool
    ensures done { IsTrue result → operate_of op (reverse operands.old.items) ≡ Some
        (reverse operands.new.items) }
    ensures none { result ≡ false → operate_of op (reverse operands.old.items) ≡ None }
    ensures len { vec_len operands.new ≤ vec_len operands.old }
    ensures capacity { vec_capacity operands.old ≤ vec_capacity operands.new }
{
    let NumericOp::Binary(width, operator) = op else {
        return false;
    };
    let Some(second) = operands.pop() else {
        return false;
    };
    let Some(first) = operands.pop() else {
        return false;
    };
    match operator_value(width, operator, first, second) {
        Some(value) => {
            push(operands, value);
            true
        }
        None => false,
    }
}

// ---- expressions

// Pushes a constant on the operands, which must have room for one more. Returns whether the instruction has a value.
fn put_constant(op: &PlainOp, addresses: &Addresses, state: &State, operands: &mut Vec<Val>) -> bool
    requires no_operator { (n : AnyNumericOp) → op.now ≢ NumericForm n }
    requires room { vec_len operands.old < vec_capacity operands.old }
    ensures done { IsTrue result → (contents : Contents) (m : Module) → constant_step
        (store_with contents state.now) (instance_with addresses.now m) op.now
        (reverse operands.old.items) ≡ Some (reverse operands.new.items) }
    ensures none { result ≡ false → (contents : Contents) (m : Module) → constant_step
        (store_with contents state.now) (instance_with addresses.now m) op.now
        (reverse operands.old.items) ≡ None }
    ensures len { vec_len operands.new ≤ vec_len operands.old + 1 }
    ensures capacity { vec_capacity operands.old ≤ vec_capacity operands.new }
{
    match constant(op, addresses, state) {
        Some(value) => {
            push(operands, value);
            true
        }
        None => false,
    }
}

// Executes a constant instruction on operands, which must have room for one more. Returns whether it could be executed.
fn execute_plain(
    op: &PlainOp,
    addresses: &Addresses,
    state: &State,
    operands: &mut Vec<Val>,
) -> bool
    requires room { vec_len operands.old < vec_capacity operands.old }
    ensures done { IsTrue result → (contents : Contents) (m : Module) → constant_step
        (store_with contents state.now) (instance_with addresses.now m) op.now
        (reverse operands.old.items) ≡ Some (reverse operands.new.items) }
    ensures none { result ≡ false → (contents : Contents) (m : Module) → constant_step
        (store_with contents state.now) (instance_with addresses.now m) op.now
        (reverse operands.old.items) ≡ None }
    ensures len { vec_len operands.new ≤ vec_len operands.old + 1 }
    ensures capacity { vec_capacity operands.old ≤ vec_capacity operands.new }
{
    let PlainOp::Numeric(operator) = op else {
        return put_constant(op, addresses, state, operands);
    };
    operate(*operator, operands)
}

// Executes an operation of a constant expression on operands, which must have room for one more. Returns whether it could be
// executed.
#[tactic(auto, using(crate::proofs::lemmas::Constants::no_constant))]
fn execute(op: LentOp<'_>, addresses: &Addresses, state: &State, operands: &mut Vec<Val>) -> bool
    requires room { vec_len operands.old < vec_capacity operands.old }
    ensures done { IsTrue result → (contents : Contents) (m : Module) (ops : List AnyOp)
        → operands_behind contents state.now (instance_with addresses.now m)
        (lent_op op.entry ∷ ops) operands.old.items ≡ operands_behind contents state.now
        (instance_with addresses.now m) ops operands.new.items }
    ensures none { result ≡ false → (contents : Contents) (m : Module) (ops : List AnyOp)
        → operands_behind contents state.now (instance_with addresses.now m)
        (lent_op op.entry ∷ ops) operands.old.items ≡ None }
    ensures len { vec_len operands.new ≤ vec_len operands.old + 1 }
    ensures capacity { vec_capacity operands.old ≤ vec_capacity operands.new }
{
    let Some(plain) = plain_op(op) else {
        return false;
    };
    execute_plain(&plain, addresses, state, operands)
}

/// The operands of constant expressions. Contracts see how many they have room for. Their values between two expressions do not
/// matter.
#[derive(Drop)]
pub struct ConstantOperands {
    values: Vec<Val>,
    room: usize,
}

impl Model for ConstantOperands {
    ghost Value = { ℕ };

    ghost view = { λ o. o.room };

    ghost invariant = { λ o. o.room ≤ vec_capacity o.values };
}

// Returns the operand, if there is exactly one.
fn only_value(operands: &[Val]) -> Option<Val>
    ensures { result ≡ only (Some (reverse operands.now)) }
{
    match operands {
        [value] => Some(*value),
        _ => None,
    }
}

// Executes the instructions of a constant expression, for each of which there must be room for an operand. Returns the value if
// exactly one is left.
fn run_constant(
    code: &Expression,
    addresses: &Addresses,
    state: &State,
    operands: &mut Vec<Val>,
) -> Option<Val>
    requires room { length code.now ≤ vec_capacity operands.old }
    ensures value { (contents : Contents) (m : Module) → result ≡ constant_value
        (store_with contents state.now) (instance_with addresses.now m) code.now }
    ensures capacity { vec_capacity operands.old ≤ vec_capacity operands.new }
{
    operands.clear();
    for k in 0..code.len() {
        if !execute(code.get(k), addresses, state, operands) {
            return None;
        }
    }
    only_value(operands)
}

impl ConstantOperands {
    /// Creates operands without room. Allocates nothing.
    pub fn new(alloc: Global) -> ConstantOperands
        ensures { result ≡ 0 }
    {
        ConstantOperands {
            values: Vec::new(alloc),
            room: 0,
        }
    }

    /// Reserves room for that many operands. If memory runs out, the room is unchanged.
    pub fn reserve(&mut self, count: usize) -> Result<(), AllocError>
        ensures room { OnOk result (count ≤ self.new) }
        ensures more { self.old ≤ self.new }
    {
        if count > self.room {
            self.values.clear();
            self.values.try_reserve(count)?;
            self.room = count;
        }
        Ok(())
    }

    /// Returns the value of a constant expression, in the instance with these addresses (Execution, Modules, Instantiation). In
    /// a valid module it has one. There must be room for an operand for each instruction. Allocates nothing.
    pub fn value_of(
        &mut self,
        code: &Expression,
        addresses: &Addresses,
        state: &State,
    ) -> Option<Val>
        requires room { length code.now ≤ self.old }
        ensures value { (contents : Contents) (m : Module) → result ≡ constant_value
            (store_with contents state.now) (instance_with addresses.now m) code.now }
        ensures room { self.new ≡ self.old }
    {
        run_constant(code, addresses, state, &mut self.values)
    }

    /// Like `value_of`, but reserves the room first. Fails if an allocation fails for the operands.
    pub fn evaluate(
        &mut self,
        code: &Expression,
        addresses: &Addresses,
        state: &State,
    ) -> Result<Option<Val>, AllocError>
        ensures { IfOk result (λ value. (contents : Contents) (m : Module) → value ≡ constant_value
            (store_with contents state.now) (instance_with addresses.now m) code.now) }
    {
        self.reserve(code.len())?;
        Ok(self.value_of(code, addresses, state))
    }
}
