//! Which external types match: the types that are given, and the types that are wanted.

use Type::{Func, Global, Memory, Table};
use core_types::{
    ExternType, FuncType, GlobalType, Items, Limits, Mutability, RefType, TableType, ValType,
};
use matching::matches;
use std::alloc::{AllocError, Global as Allocator};

// An external type, in the form that the rows contain.
#[derive(Clone, Copy)]
enum Type {
    Func(&'static [ValType], &'static [ValType]),
    Table(RefType, u32, Option<u32>),
    Memory(u32, Option<u32>),
    Global(ValType, Mutability),
}

// A name, a type that is given, one that is wanted, and whether they match.
struct Row {
    name: &'static str,
    given: Type,
    wanted: Type,
    matches: bool,
}

const I32: ValType = ValType::I32;

const I64: ValType = ValType::I64;

#[rattlefmt::skip]
static ROWS: [Row; 24] = [
    Row { name: "functions of equal types", given: Func(&[I32, I64], &[I32]), wanted: Func(&[I32, I64], &[I32]), matches: true },
    Row { name: "functions of nothing", given: Func(&[], &[]), wanted: Func(&[], &[]), matches: true },
    Row { name: "other parameters", given: Func(&[I32, I64], &[I32]), wanted: Func(&[I64, I32], &[I32]), matches: false },
    Row { name: "fewer parameters", given: Func(&[I32], &[I32]), wanted: Func(&[I32, I64], &[I32]), matches: false },
    Row { name: "other results", given: Func(&[I32], &[I32]), wanted: Func(&[I32], &[I64]), matches: false },
    Row { name: "fewer results", given: Func(&[], &[]), wanted: Func(&[], &[I64]), matches: false },
    Row { name: "parameters for results", given: Func(&[I32], &[]), wanted: Func(&[], &[I32]), matches: false },
    Row { name: "a memory of 2 to 5 pages where 2 to 5 are wanted", given: Memory(2, Some(5)), wanted: Memory(2, Some(5)), matches: true },
    Row { name: "a memory of 2 to 5 pages where 3 to 5 are wanted", given: Memory(2, Some(5)), wanted: Memory(3, Some(5)), matches: false },
    Row { name: "a memory of 2 to 5 pages where 1 to 4 are wanted", given: Memory(2, Some(5)), wanted: Memory(1, Some(4)), matches: false },
    Row { name: "a memory of 2 to 5 pages where 1 to 6 are wanted", given: Memory(2, Some(5)), wanted: Memory(1, Some(6)), matches: true },
    Row { name: "no maximum where one is wanted", given: Memory(2, None), wanted: Memory(2, Some(65536)), matches: false },
    Row { name: "a maximum where none is wanted", given: Memory(2, Some(5)), wanted: Memory(0, None), matches: true },
    Row { name: "no maximum where none is wanted", given: Memory(2, None), wanted: Memory(2, None), matches: true },
    Row { name: "tables of one type", given: Table(RefType::FuncRef, 10, Some(20)), wanted: Table(RefType::FuncRef, 10, Some(20)), matches: true },
    Row { name: "a larger table", given: Table(RefType::ExternRef, 11, None), wanted: Table(RefType::ExternRef, 10, None), matches: true },
    Row { name: "a smaller table", given: Table(RefType::FuncRef, 9, None), wanted: Table(RefType::FuncRef, 10, None), matches: false },
    Row { name: "a table of other references", given: Table(RefType::ExternRef, 10, None), wanted: Table(RefType::FuncRef, 10, None), matches: false },
    Row { name: "globals of one type", given: Global(I64, Mutability::Var), wanted: Global(I64, Mutability::Var), matches: true },
    Row { name: "a constant where a variable is wanted", given: Global(I64, Mutability::Const), wanted: Global(I64, Mutability::Var), matches: false },
    Row { name: "a variable where a constant is wanted", given: Global(I64, Mutability::Var), wanted: Global(I64, Mutability::Const), matches: false },
    Row { name: "a global of another type", given: Global(I64, Mutability::Const), wanted: Global(I32, Mutability::Const), matches: false },
    Row { name: "a memory where a table is wanted", given: Memory(1, None), wanted: Table(RefType::FuncRef, 1, None), matches: false },
    Row { name: "a function where a global is wanted", given: Func(&[], &[I32]), wanted: Global(I32, Mutability::Const), matches: false },
];

fn function_type(
    alloc: Allocator,
    params: &[ValType],
    results: &[ValType],
) -> Result<FuncType, AllocError> {
    let params = Vec::from_slice(alloc, params)?;
    let results = Vec::from_slice(alloc, results)?;
    Ok(FuncType {
        params: Items::from_vec(params),
        results: Items::from_vec(results),
    })
}

fn type_of(alloc: Allocator, ty: Type) -> Result<ExternType, AllocError> {
    match ty {
        Func(params, results) => Ok(ExternType::Func(function_type(alloc, params, results)?)),
        Table(element, min, max) => Ok(ExternType::Table(TableType {
            element,
            limits: Limits { min, max },
        })),
        Memory(min, max) => Ok(ExternType::Memory(Limits { min, max })),
        Global(value, mutability) => Ok(ExternType::Global(GlobalType { value, mutability })),
    }
}

fn agrees(alloc: Allocator, row: &Row) -> Result<bool, AllocError> {
    let given = type_of(alloc, row.given)?;
    let wanted = type_of(alloc, row.wanted)?;
    Ok(matches(&given, &wanted) == row.matches)
}

#[test]
fn matches_external_types(rt: HostRuntime) {
    for row in &ROWS {
        assert!(rt; agrees(rt.alloc(), row) == Ok(true), "{}", row.name);
    }
}
