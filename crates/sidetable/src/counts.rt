ghost use Rattle.std.specs.Prelude.{◌≡◌, ◌<◌, Some};
ghost use Rattle.sidetable.specs.Counts.{block_counts, control_counts as control_counts_of, counts_of_type, memory_counts as memory_counts_of, numeric_counts as numeric_counts_of, parametric_counts as parametric_counts_of, reference_counts as reference_counts_of, table_counts as table_counts_of, variable_counts as variable_counts_of, with_i32_counts};
ghost use Rattle.sidetable.specs.Signatures.{signatures_of};
ghost use Rattle.meaning.specs.validation.Modules.{type_at};
ghost use Rattle.std.specs.Prelude.{slice_get, MatchOption, None};

use core_types::{
    BlockType, ControlOp, FuncType, MemoryOp, NumericOp, ParametricOp, ReferenceOp, TableOp,
    VariableOp,
};

/// The number of operands that an instruction takes, and the number of those that it gives.
#[derive(Clone, Copy)]
pub struct Counts {
    pub takes: usize,
    pub gives: usize,
}

/// The types of a module, and the index of the type of each function, imports first.
#[derive(Clone, Copy)]
pub struct ModuleTypes<'a> {
    pub types: &'a [FuncType],
    pub functions: &'a [u32],
}

/// Returns the counts of an instruction on references.
pub fn reference_counts(op: ReferenceOp) -> Counts
    ensures { result ≡ reference_counts_of op }
{
    match op {
        ReferenceOp::Null(_) => Counts { takes: 0, gives: 1 },
        ReferenceOp::IsNull => Counts { takes: 1, gives: 1 },
        ReferenceOp::Func(_) => Counts { takes: 0, gives: 1 },
    }
}

/// Returns the counts of an instruction on operands of any type.
pub fn parametric_counts(op: ParametricOp) -> Counts
    ensures { result ≡ parametric_counts_of op }
{
    match op {
        ParametricOp::DropOperand => Counts { takes: 1, gives: 0 },
        ParametricOp::Select => Counts { takes: 3, gives: 1 },
    }
}

/// Returns the counts of an instruction on a local or a global.
pub fn variable_counts(op: VariableOp) -> Counts
    ensures { result ≡ variable_counts_of op }
{
    match op {
        VariableOp::LocalGet(_) | VariableOp::GlobalGet(_) => Counts { takes: 0, gives: 1 },
        VariableOp::LocalSet(_) | VariableOp::GlobalSet(_) => Counts { takes: 1, gives: 0 },
        VariableOp::LocalTee(_) => Counts { takes: 1, gives: 1 },
    }
}

/// Returns the counts of a numeric instruction.
pub fn numeric_counts(op: NumericOp) -> Counts
    ensures { result ≡ numeric_counts_of op }
{
    match op {
        NumericOp::Eqz(_) | NumericOp::Unary(_, _) | NumericOp::Convert(_) => Counts {
            takes: 1,
            gives: 1,
        },
        NumericOp::Compare(_, _) | NumericOp::Binary(_, _) => Counts { takes: 2, gives: 1 },
    }
}

/// Returns the counts of an instruction on a table or an element segment.
pub fn table_counts(op: TableOp) -> Counts
    ensures { result ≡ table_counts_of op }
{
    match op {
        TableOp::Get(_) => Counts { takes: 1, gives: 1 },
        TableOp::Set(_) => Counts { takes: 2, gives: 0 },
        TableOp::Size(_) => Counts { takes: 0, gives: 1 },
        TableOp::Grow(_) => Counts { takes: 2, gives: 1 },
        TableOp::Fill(_) => Counts { takes: 3, gives: 0 },
        TableOp::Copy { .. } => Counts { takes: 3, gives: 0 },
        TableOp::Init { .. } => Counts { takes: 3, gives: 0 },
        TableOp::ElemDrop(_) => Counts { takes: 0, gives: 0 },
    }
}

/// Returns the counts of an instruction on the memory or a data segment.
pub fn memory_counts(op: MemoryOp) -> Counts
    ensures { result ≡ memory_counts_of op }
{
    match op {
        MemoryOp::Load(_, _) => Counts { takes: 1, gives: 1 },
        MemoryOp::Store(_, _) => Counts { takes: 2, gives: 0 },
        MemoryOp::Size => Counts { takes: 0, gives: 1 },
        MemoryOp::Grow => Counts { takes: 1, gives: 1 },
        MemoryOp::Fill | MemoryOp::Copy | MemoryOp::Init(_) => Counts { takes: 3, gives: 0 },
        MemoryOp::DataDrop(_) => Counts { takes: 0, gives: 0 },
    }
}

// Returns the counts of a function type, or zeros if there is no such type.
fn of_type(found: Option<&FuncType>) -> Counts
    ensures some { MatchOption found.entry (result ≡ counts_of_type None)
        (λ t. result ≡ counts_of_type (Some t.now)) }
    ensures few { result.takes < 9223372036854775808 }
{
    match found {
        Some(t) => Counts {
            takes: t.params.as_slice().len(),
            gives: t.results.as_slice().len(),
        },
        None => Counts { takes: 0, gives: 0 },
    }
}

fn of_type_index(s: &ModuleTypes<'_>, index: u32) -> Counts
    ensures counts { result ≡ counts_of_type (slice_get s.now.types.now index) }
    ensures few { result.takes < 9223372036854775808 }
{
    of_type(s.types.get(index as usize))
}

fn of_function(s: &ModuleTypes<'_>, index: u32) -> Counts
    ensures { result ≡ counts_of_type (slice_get (signatures_of s.now).functions index) }
{
    match s.functions.get(index as usize) {
        Some(t) => of_type_index(s, *t),
        None => Counts { takes: 0, gives: 0 },
    }
}

// Returns the counts with one more operand, an i32 on top.
fn with_i32(c: Counts) -> Counts
    requires { c.takes < 9223372036854775808 }
    ensures { result ≡ with_i32_counts c }
{
    Counts {
        takes: c.takes + 1,
        gives: c.gives,
    }
}

/// Returns the counts of a control instruction without a body and without a list, or none if the next operation is never reached
/// from it.
pub fn control_counts(s: &ModuleTypes<'_>, op: ControlOp) -> Option<Counts>
    ensures { result ≡ control_counts_of (signatures_of s.now) op }
{
    match op {
        ControlOp::Unreachable
        | ControlOp::Br(_)
        | ControlOp::Return
        | ControlOp::ReturnCall(_)
        | ControlOp::ReturnCallIndirect { .. } => None,
        ControlOp::Nop => Some(Counts { takes: 0, gives: 0 }),
        ControlOp::BrIf(_) => Some(Counts { takes: 1, gives: 0 }),
        ControlOp::Call(index) => Some(of_function(s, index)),
        ControlOp::CallIndirect { ty, .. } => Some(with_i32(of_type_index(s, ty))),
    }
}

/// Returns the number of parameters and the number of results of a block.
pub fn counts_of_block(s: &ModuleTypes<'_>, ty: BlockType) -> Counts
    ensures { result ≡ block_counts (signatures_of s.now) ty }
{
    match ty {
        BlockType::Empty => Counts { takes: 0, gives: 0 },
        BlockType::Value(_) => Counts { takes: 0, gives: 1 },
        BlockType::Index(index) => of_type_index(s, index),
    }
}
