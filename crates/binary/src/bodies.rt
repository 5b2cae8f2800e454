//! The operations of a body, in turn (Binary Format, Code Section).

ghost use Rattle.std.specs.Prelude.{None, Some, [], false, ◌≡◌, ◌≢◌, ◌≤◌, ◌⊎◌};
ghost use Rattle.core_types.specs.Expressions.{mark_op};
ghost use Rattle.core_types.specs.declared.op.Op.TheVariants as flat;
ghost use Rattle.core_types.specs.declared.op.PlainOp.TheVariants as plain;
ghost use Rattle.core_types.specs.declared.op.VariableOp.TheVariants.{LocalGet};
ghost use Rattle.core_types.specs.reading.Bodies.{operations_in, operations_of};
ghost use Rattle.binary.specs.Bodies.{PassesNext};
ghost use Rattle.binary.specs.Values.{first_byte};

use crate::errors::DecodeError;
use crate::instructions::{
    is_memory_op_of_data, is_of_data, read_control_op, read_i32_const_op, read_local_get_op,
    read_mark, read_memory_op, read_numeric_op, read_op, read_parametric_op, read_variable_op,
};
use crate::reader::Reader;
use core_types::{ControlOp, FuncBody, Mark, MemoryOp, NumericOp, Op, ParametricOp, VariableOp};
use std::alloc::Global;
use std::marker::Model;

/// A reader of the operations of a body, in turn. Contracts see the bytes that are left, and whether an operation that was read
/// names a data segment.
///
/// # Errors
///
/// Its calls fail as `decode` does, if the bytes encode no operation, or with `OutOfMemory`. Offsets are those in the body.
#[derive(Drop)]
pub struct BodyReader<'a> {
    alloc: Global,
    reader: Reader<'a>,
    names_data: bool,
}

impl<'a> Model for BodyReader<'a> {
    ghost use Rattle.binary.specs.Bodies.{Place};

    ghost Value = { Place };

    ghost view = { λ r. (r.reader, r.names_data) };
}

impl<'a> BodyReader<'a> {
    /// Returns a reader of all operations of a body.
    pub fn new(alloc: Global, body: &'a FuncBody) -> BodyReader<'a>
        ensures operations { operations_of result.0 ≡ body.now }
        ensures names_data { result.1 ≡ false }
    {
        BodyReader {
            alloc,
            reader: Reader::new(body.as_bytes()),
            names_data: false,
        }
    }

    /// Returns another reader of the operations that are left.
    #[inline(always)]
    pub fn fork(&self) -> BodyReader<'a>
        ensures { result ≡ self.now }
    {
        BodyReader {
            alloc: self.alloc,
            reader: self.reader.fork(),
            names_data: self.names_data,
        }
    }

    /// Returns whether an operation that was read names a data segment.
    pub fn names_data(&self) -> bool
        ensures { result ≡ self.now.1 }
    {
        self.names_data
    }

    /// Returns the opcode of the next operation, if one is left.
    #[inline(always)]
    pub fn opcode(&self) -> Option<u8>
        ensures code { result ≡ first_byte self.now.0 }
        ensures none { result ≡ None → operations_in self.now.0 ≡ Some [] }
    {
        self.reader.peek()
    }

    /// Reads the next operation, a `local.get`, and returns the index of its local.
    #[inline(always)]
    pub fn local_get(&mut self) -> Result<u32, DecodeError>
        requires { first_byte self.old.0 ≡ Some 0x20 }
        ensures { PassesNext (λ n. flat.Plain (plain.Variable (LocalGet n))) result self.old self.new }
    {
        read_local_get_op(&mut self.reader)
    }

    /// Reads the next operation, an instruction on a local or a global, which has this opcode.
    #[inline(always)]
    pub fn variable(&mut self, code: u8) -> Result<VariableOp, DecodeError>
        requires opcode { first_byte self.old.0 ≡ Some code }
        requires group { (0x20 ≤ code) × (code ≤ 0x24) }
        ensures { PassesNext (λ op. flat.Plain (plain.Variable op)) result self.old self.new }
    {
        read_variable_op(&mut self.reader, code)
    }

    /// Reads the next operation, a load or a store, which has this opcode.
    #[inline(always)]
    pub fn memory(&mut self, code: u8) -> Result<MemoryOp, DecodeError>
        requires opcode { first_byte self.old.0 ≡ Some code }
        requires group { (0x28 ≤ code) × (code ≤ 0x3E) }
        ensures { PassesNext (λ op. flat.Plain (plain.Memory op)) result self.old self.new }
    {
        let op = read_memory_op(&mut self.reader, code)?;
        self.names_data |= is_memory_op_of_data(op);
        Ok(op)
    }

    /// Reads the next operation, a branch, a return or a call, which has this opcode.
    #[inline(always)]
    pub fn control(&mut self, code: u8) -> Result<ControlOp, DecodeError>
        requires opcode { first_byte self.old.0 ≡ Some code }
        requires group { ((0x0C ≤ code) × (code ≤ 0x0D)) ⊎ ((0x0F ≤ code) × (code ≤ 0x10)) }
        ensures { PassesNext (λ op. flat.Plain (plain.Control op)) result self.old self.new }
    {
        read_control_op(&mut self.reader, code)
    }

    /// Reads the next operation, a numeric instruction without an immediate, which has this opcode.
    #[inline(always)]
    pub fn numeric(&mut self, code: u8) -> Result<NumericOp, DecodeError>
        requires opcode { first_byte self.old.0 ≡ Some code }
        requires group { (0x45 ≤ code) × (code ≤ 0xC4) }
        ensures { PassesNext (λ op. flat.Plain (plain.Numeric op)) result self.old self.new }
    {
        read_numeric_op(&mut self.reader, code)
    }

    /// Reads the next operation, a 32-bit constant.
    #[inline(always)]
    pub fn i32_const(&mut self) -> Result<u32, DecodeError>
        requires { first_byte self.old.0 ≡ Some 0x41 }
        ensures { PassesNext (λ n. flat.Plain (plain.I32Const n)) result self.old self.new }
    {
        read_i32_const_op(&mut self.reader)
    }

    /// Reads the next operation, a parametric instruction without an immediate, which has this opcode.
    #[inline(always)]
    pub fn parametric(&mut self, code: u8) -> Result<ParametricOp, DecodeError>
        requires opcode { first_byte self.old.0 ≡ Some code }
        requires group { (0x1A ≤ code) × (code ≤ 0x1B) }
        ensures { PassesNext (λ op. flat.Plain (plain.Parametric op)) result self.old self.new }
    {
        read_parametric_op(&mut self.reader, code)
    }

    /// Reads the next operation, at which a body begins or ends, and which has this opcode.
    #[inline(always)]
    pub fn mark(&mut self, code: u8) -> Result<Mark, DecodeError>
        requires opcode { first_byte self.old.0 ≡ Some code }
        requires group { ((0x02 ≤ code) × (code ≤ 0x05)) ⊎ (code ≡ 0x0B) }
        ensures { PassesNext (mark_op) result self.old self.new }
    {
        read_mark(&mut self.reader, code)
    }

    /// Reads the next operation.
    #[inline(never)]
    pub fn any(&mut self) -> Result<Op, DecodeError>
        requires { first_byte self.old.0 ≢ None }
        ensures { PassesNext (λ op. op) result self.old self.new }
    {
        let op = read_op(self.alloc, &mut self.reader)?;
        self.names_data |= is_of_data(&op);
        Ok(op)
    }
}
