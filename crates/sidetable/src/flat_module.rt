ghost use Rattle.std.specs.Prelude.{◌≡◌, ◌+◌, ◌⊎◌, [], IfErr, IfOk};
ghost use Rattle.meaning.specs.validation.Modules.{IsValid};
ghost use Rattle.sidetable.specs.FlatModules.{IsFlatModule};
ghost use Rattle.sidetable.specs.Flattening.{module_of};
ghost use Rattle.validator.specs.declared.errors.ValidateError.TheVariants.{OutOfMemory};

use crate::counts::ModuleTypes;
use crate::flattening::{
    Flattening, begin_body, end_body, pass_any, pass_control, pass_i32_const, pass_local_get,
    pass_mark, pass_memory, pass_numeric, pass_parametric, pass_variable,
};
use crate::module_types::indices_of_types;
use crate::operations::PackedOp;
use crate::side_tables::{SideTables, number};
use core_types::{
    ControlOp, Func, FuncType, Mark, MemoryOp, Module, NumericOp, Op, ParametricOp, VariableOp,
};
use meaning::writing_is_read;
use std::alloc::{AllocError, Global};
use validator::{ValidModule, ValidateError, Visitor, validate_with};

/// A function of a module: the place of its first operation, the numbers of its parameters, locals and results, and the greatest
/// height in its frame. The locals include the parameters, and the height counts the locals.
#[derive(Clone, Copy)]
pub struct PackedFunction {
    pub place: u32,
    pub params: u32,
    pub locals: u32,
    pub results: u32,
    pub greatest: u64,
}

/// The flat code of a module: its functions, in their order, the operations of all, and what they name by number. The operations
/// of each function are followed by one that leaves its frame.
#[derive(Drop)]
pub struct FlatModule {
    pub functions: Vec<PackedFunction>,
    pub operations: Vec<PackedOp>,
    pub tables: SideTables,
}

// A sum. Fails if it has more bits than a size.
fn sum(a: usize, b: usize) -> Result<usize, AllocError>
    ensures { IfOk result (λ n. n ≡ a + b) }
{
    match a.checked_add(b) {
        Some(n) => Ok(n),
        None => Err(AllocError),
    }
}

/// Flattens the functions of a module, in turn.
#[derive(Drop)]
struct Flattener<'a> {
    types: ModuleTypes<'a>,
    functions: Vec<PackedFunction>,
    flattening: Flattening,
    // the function that was begun last, without its greatest height
    function: PackedFunction,
    // the number of the entry of its label
    outermost: u32,
    // the number of the branches by number before it
    first_range: usize,
}

// Creates a flattener of the functions of a module with these types. Allocates nothing.
fn new_flattener<'a>(alloc: Global, types: ModuleTypes<'a>) -> Flattener<'a>
    ensures types { result.types ≡ types.entry }
    ensures functions { result.functions.items ≡ [] }
    ensures operations { result.flattening.operations.items ≡ [] }
{
    Flattener {
        types,
        functions: Vec::new(alloc),
        flattening: Flattening::new(alloc),
        function: PackedFunction {
            place: 0,
            params: 0,
            locals: 0,
            results: 0,
            greatest: 0,
        },
        outermost: 0,
        first_range: 0,
    }
}

// Returns the functions that were flattened.
fn into_flat_module(flattener: Flattener<'_>) -> FlatModule
    ensures { result ≡ module_of flattener.entry.functions flattener.entry.flattening }
{
    FlatModule {
        functions: flattener.functions,
        operations: flattener.flattening.operations,
        tables: flattener.flattening.tables,
    }
}

impl Visitor for Flattener<'_> {
    ghost use Rattle.sidetable.specs.Functions.{BeginsFunction, EndsFunction, FlattensOperation, IsInFunction};

    ghost IsReady = { IsInFunction };

    ghost Begins = { BeginsFunction };

    ghost Visits = { FlattensOperation };

    ghost Ends = { EndsFunction };

    fn begin(&mut self, ty: &FuncType, func: &Func) -> Result<(), AllocError> {
        let params = number(ty.params.len())?;
        let results = number(ty.results.len())?;
        let locals = number(sum(ty.params.len(), func.locals.len() as usize)?)?;
        let place = number(self.flattening.operations.len())?;
        self.first_range = self.flattening.tables.branch_ranges.len();
        self.outermost = begin_body(&mut self.flattening, locals, results)?;
        self.function = PackedFunction {
            place,
            params,
            locals,
            results,
            greatest: 0,
        };
        Ok(())
    }

    #[inline(always)]
    fn local_get(&mut self, index: u32) -> Result<(), AllocError> {
        pass_local_get(&self.types, self.outermost, &mut self.flattening, index)
    }

    #[inline(always)]
    fn variable(&mut self, op: VariableOp) -> Result<(), AllocError> {
        pass_variable(&self.types, self.outermost, &mut self.flattening, op)
    }

    #[inline(always)]
    fn memory(&mut self, op: MemoryOp) -> Result<(), AllocError> {
        pass_memory(&self.types, self.outermost, &mut self.flattening, op)
    }

    #[inline(always)]
    fn control(&mut self, op: ControlOp) -> Result<(), AllocError> {
        pass_control(&self.types, self.outermost, &mut self.flattening, op)
    }

    #[inline(always)]
    fn numeric(&mut self, op: NumericOp) -> Result<(), AllocError> {
        pass_numeric(&self.types, self.outermost, &mut self.flattening, op)
    }

    #[inline(always)]
    fn parametric(&mut self, op: ParametricOp) -> Result<(), AllocError> {
        pass_parametric(&self.types, self.outermost, &mut self.flattening, op)
    }

    #[inline(always)]
    fn i32_const(&mut self, value: u32) -> Result<(), AllocError> {
        pass_i32_const(&self.types, self.outermost, &mut self.flattening, value)
    }

    #[inline(always)]
    fn mark(&mut self, mark: Mark) -> Result<(), AllocError> {
        pass_mark(&self.types, self.outermost, &mut self.flattening, mark)
    }

    #[inline(always)]
    fn any(&mut self, op: &Op) -> Result<(), AllocError> {
        pass_any(&self.types, self.outermost, &mut self.flattening, op)
    }

    fn end(&mut self) -> Result<(), AllocError> {
        let greatest = end_body(&mut self.flattening, self.outermost, self.first_range)?;
        let results = self.function.results;
        self.flattening.operations.push(PackedOp::Leave(results))?;
        number(self.flattening.operations.len())?;
        self.functions.push(PackedFunction {
            greatest,
            ..self.function
        })?;
        Ok(())
    }
}

/// Validates a module and flattens its functions, in one pass over their operations. The flat code has each function's operations, in
/// their order and without marks, what a branch, a return, an `if` and a jump need, and the greatest height of its operands.
///
/// # Errors
///
/// Fails as `validate` does, with `Invalid` and a place, or with `OutOfMemory`. It fails with `OutOfMemory`, too, if a function has more
/// than 2^32 - 1 locals, including its parameters, or results, if a height is 2^62 or more, or if all bodies together have more
/// than 2^32 - 1 operations, entries, branches by number, 64-bit constants or pairs of indices.
pub fn flatten(alloc: Global, decoded: Module) -> Result<(ValidModule, FlatModule), ValidateError>
    ensures kept { IfOk result (λ flattened. flattened.0 ≡ decoded) }
    ensures flat { IfOk result (λ flattened. IsFlatModule flattened.0 flattened.1) }
    ensures invalid { IfErr result (λ error. (error ≡ OutOfMemory) ⊎ (¬ IsValid decoded)) }
{
    writing_is_read();
    let functions = indices_of_types(alloc, &decoded)?;
    let types = ModuleTypes {
        types: decoded.types.as_slice(),
        functions: &functions,
    };
    let mut flattener = new_flattener(alloc, types);
    let (names, named) = validate_with(alloc, &decoded, &mut flattener)?;
    let flat = into_flat_module(flattener);
    Ok((ValidModule::new(decoded, names, named), flat))
}
