ghost use Rattle.std.specs.Prelude.{OnOk};
ghost use Rattle.core_types.specs.Expressions.{mark_op};
ghost use Rattle.core_types.specs.declared.module.Func.{Func as Function};
ghost use Rattle.core_types.specs.declared.op.Op.{Op as Operation};
ghost use Rattle.core_types.specs.declared.op.Op.TheVariants as flat;
ghost use Rattle.core_types.specs.declared.op.PlainOp.TheVariants as plain;
ghost use Rattle.core_types.specs.declared.op.VariableOp.TheVariants.{LocalGet};
ghost use Rattle.core_types.specs.declared.types.FuncType.{FuncType as Signature};

use core_types::{
    ControlOp, Func, FuncType, Mark, MemoryOp, NumericOp, Op, ParametricOp, VariableOp,
};
use std::alloc::AllocError;

/// A visitor of the functions of a module. It is shown each operation once the operation was found valid.
///
/// A visitor states where each of its calls can lead. `validate_with` makes them for each function and each operation, in order. A
/// call fails only if an allocation fails.
pub trait Visitor: Drop {
    /// Whether a function was begun, and its next operation can be shown.
    ghost IsReady: { Self → Type 0 };

    /// Whether the beginning of a function of a type can lead from one visitor to another.
    ghost Begins: { Self → Signature → Function → Self → Type 0 };

    /// The same for an operation.
    ghost Visits: { Self → Operation → Self → Type 0 };

    /// The same for the end of a function.
    ghost Ends: { Self → Self → Type 0 };

    /// Begins a function, which has this type.
    fn begin(&mut self, ty: &FuncType, func: &Func) -> Result<(), AllocError>
        ensures ready { OnOk result (IsReady self.new) }
        ensures begins { OnOk result (Begins self.old ty.now func.now self.new) };

    /// Visits the next operation of the function, a `local.get` with this index.
    fn local_get(&mut self, index: u32) -> Result<(), AllocError>
        requires { IsReady self.old }
        ensures ready { OnOk result (IsReady self.new) }
        ensures visits { OnOk result
            (Visits self.old (flat.Plain (plain.Variable (LocalGet index))) self.new) };

    /// The same for another instruction on a local or a global.
    fn variable(&mut self, op: VariableOp) -> Result<(), AllocError>
        requires { IsReady self.old }
        ensures ready { OnOk result (IsReady self.new) }
        ensures visits { OnOk result (Visits self.old (flat.Plain (plain.Variable op)) self.new) };

    /// The same for an instruction on the memory.
    fn memory(&mut self, op: MemoryOp) -> Result<(), AllocError>
        requires { IsReady self.old }
        ensures ready { OnOk result (IsReady self.new) }
        ensures visits { OnOk result (Visits self.old (flat.Plain (plain.Memory op)) self.new) };

    /// The same for a branch, a return or a call.
    fn control(&mut self, op: ControlOp) -> Result<(), AllocError>
        requires { IsReady self.old }
        ensures ready { OnOk result (IsReady self.new) }
        ensures visits { OnOk result (Visits self.old (flat.Plain (plain.Control op)) self.new) };

    /// The same for a numeric instruction without an immediate.
    fn numeric(&mut self, op: NumericOp) -> Result<(), AllocError>
        requires { IsReady self.old }
        ensures ready { OnOk result (IsReady self.new) }
        ensures visits { OnOk result (Visits self.old (flat.Plain (plain.Numeric op)) self.new) };

    /// The same for a parametric instruction without an immediate.
    fn parametric(&mut self, op: ParametricOp) -> Result<(), AllocError>
        requires { IsReady self.old }
        ensures ready { OnOk result (IsReady self.new) }
        ensures visits { OnOk result (Visits self.old (flat.Plain (plain.Parametric op)) self.new) };

    /// The same for a 32-bit constant.
    fn i32_const(&mut self, value: u32) -> Result<(), AllocError>
        requires { IsReady self.old }
        ensures ready { OnOk result (IsReady self.new) }
        ensures visits { OnOk result (Visits self.old (flat.Plain (plain.I32Const value)) self.new) };

    /// The same where a body begins or ends.
    fn mark(&mut self, mark: Mark) -> Result<(), AllocError>
        requires { IsReady self.old }
        ensures ready { OnOk result (IsReady self.new) }
        ensures visits { OnOk result (Visits self.old (mark_op mark) self.new) };

    /// The same for any operation.
    fn any(&mut self, op: &Op) -> Result<(), AllocError>
        requires { IsReady self.old }
        ensures ready { OnOk result (IsReady self.new) }
        ensures visits { OnOk result (Visits self.old (op.now) self.new) };

    /// Ends the function.
    fn end(&mut self) -> Result<(), AllocError>
        requires { IsReady self.old }
        ensures { OnOk result (Ends self.old self.new) };
}

/// A visitor that does nothing.
#[derive(Clone, Copy)]
pub struct NoVisitor {}

impl Visitor for NoVisitor {
    ghost IsReady = { λ _. Unit {0} };

    ghost Begins = { λ _ _ _ _. Unit {0} };

    ghost Visits = { λ _ _ _. Unit {0} };

    ghost Ends = { λ _ _. Unit {0} };

    fn begin(&mut self, _ty: &FuncType, _func: &Func) -> Result<(), AllocError> {
        Ok(())
    }

    #[inline(always)]
    fn local_get(&mut self, _index: u32) -> Result<(), AllocError> {
        Ok(())
    }

    #[inline(always)]
    fn variable(&mut self, _op: VariableOp) -> Result<(), AllocError> {
        Ok(())
    }

    #[inline(always)]
    fn memory(&mut self, _op: MemoryOp) -> Result<(), AllocError> {
        Ok(())
    }

    #[inline(always)]
    fn control(&mut self, _op: ControlOp) -> Result<(), AllocError> {
        Ok(())
    }

    #[inline(always)]
    fn numeric(&mut self, _op: NumericOp) -> Result<(), AllocError> {
        Ok(())
    }

    #[inline(always)]
    fn parametric(&mut self, _op: ParametricOp) -> Result<(), AllocError> {
        Ok(())
    }

    #[inline(always)]
    fn i32_const(&mut self, _value: u32) -> Result<(), AllocError> {
        Ok(())
    }

    #[inline(always)]
    fn mark(&mut self, _mark: Mark) -> Result<(), AllocError> {
        Ok(())
    }

    #[inline(always)]
    fn any(&mut self, _op: &Op) -> Result<(), AllocError> {
        Ok(())
    }

    fn end(&mut self) -> Result<(), AllocError> {
        Ok(())
    }
}
