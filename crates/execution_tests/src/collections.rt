//! The lists, names, locals, boxes, stacks and expressions of `core_types`, and the size of an operation.

use core_types::{
    BlockType, Boxed, BranchTable, Expression, Items, LentOp, Locals, MemArg, MemoryOp, Name, Op,
    OpWith, PlainOp, ShortOp, Stack, StoreOp, ValType, append, is_mark, item,
};
use std::alloc::{AllocError, Global};
use std::mem::size_of;

// The number of consecutive locals of a type, in few runs.
static FEW_RUNS: [(u32, ValType); 6] = [
    (2, ValType::I32),
    (0, ValType::FuncRef),
    (1, ValType::I64),
    (0, ValType::I64),
    (3, ValType::ExternRef),
    (0, ValType::I32),
];

// The same locals in many runs.
static MANY_RUNS: [(u32, ValType); 11] = [
    (0, ValType::I64),
    (1, ValType::I32),
    (0, ValType::FuncRef),
    (1, ValType::I32),
    (0, ValType::ExternRef),
    (1, ValType::I64),
    (0, ValType::I64),
    (2, ValType::ExternRef),
    (0, ValType::I32),
    (1, ValType::ExternRef),
    (0, ValType::I32),
];

// An index, and the type of the local that it names.
#[rattlefmt::skip]
static LOCALS: [(u32, Option<ValType>); 8] = [
    (0, Some(ValType::I32)),
    (1, Some(ValType::I32)),
    (2, Some(ValType::I64)),
    (3, Some(ValType::ExternRef)),
    (4, Some(ValType::ExternRef)),
    (5, Some(ValType::ExternRef)),
    (6, None),
    (u32::MAX, None),
];

fn locals_of(alloc: Global, runs: &[(u32, ValType)]) -> Result<Locals, AllocError> {
    let mut locals = Locals::new(alloc);
    for (count, ty) in runs {
        if locals.len() < 100 && *count < 100 {
            locals.push(*count, *ty)?;
        }
    }
    Ok(locals)
}

// Returns the number of locals in the runs, and the one at an index.
fn local_at(alloc: Global, runs: &[(u32, ValType)], index: u32) -> Option<(u32, Option<ValType>)> {
    let locals = locals_of(alloc, runs).ok()?;
    Some((locals.len(), locals.get(index)))
}

#[test]
fn finds_locals_by_index(rt: HostRuntime) {
    for (index, ty) in &LOCALS {
        assert!(rt;
            local_at(rt.alloc(), &FEW_RUNS, *index) == Some((6, *ty)),
            "{index}"
        );
        assert!(rt;
            local_at(rt.alloc(), &MANY_RUNS, *index) == Some((6, *ty)),
            "{index}"
        );
    }
}

// Returns whether there are no locals at first, and the greatest number of them after one run.
fn counts_locals(alloc: Global) -> Result<bool, AllocError> {
    let mut locals = Locals::new(alloc);
    let none = locals.len() == 0 && locals.get(0).is_none();
    locals.push(u32::MAX, ValType::I64)?;
    let last = locals.get(u32::MAX - 1) == Some(ValType::I64);
    Ok(none && last && locals.get(u32::MAX).is_none())
}

#[test]
fn keeps_many_locals(rt: HostRuntime) {
    assert!(rt; counts_locals(rt.alloc()) == Ok(true));
}

// Returns a list of three elements.
fn three_items(alloc: Global) -> Result<Items<u32>, AllocError> {
    let elements = vec![in alloc; 1u32, 2, 3]?;
    Ok(Items::from_vec(elements))
}

// Returns whether a list has these three elements.
fn has_three(items: &Items<u32>) -> bool {
    let is_read = items.len() == 3 && !items.is_empty() && items.as_slice() == [1, 2, 3].as_slice();
    is_read && item(items.as_slice(), 2) == Some(&3) && item(items.as_slice(), 3).is_none()
}

fn keeps_elements(alloc: Global) -> Result<bool, AllocError> {
    let items = three_items(alloc)?;
    let same = three_items(alloc)?;
    let is_right = has_three(&items) && items == same;
    Ok(is_right && items.into_vec().as_slice() == [1, 2, 3].as_slice())
}

#[test]
fn keeps_items(rt: HostRuntime) {
    let none: Items<u32> = Items::from_vec(Vec::new(rt.alloc()));
    assert!(rt; none.is_empty() && keeps_elements(rt.alloc()) == Ok(true));
}

fn keeps_text(alloc: Global) -> Result<bool, AllocError> {
    let name = Name::from_string(String::from_str(alloc, "add")?);
    Ok(name.as_str() == "add")
}

fn keeps_value(alloc: Global) -> Result<bool, AllocError> {
    let boxed = Boxed::new(alloc, 7u32)?;
    Ok(*boxed.get() == 7)
}

#[test]
fn keeps_names_and_boxes(rt: HostRuntime) {
    assert!(rt; keeps_text(rt.alloc()) == Ok(true));
    assert!(rt; keeps_value(rt.alloc()) == Ok(true));
}

// Returns whether elements are in the order in which they were pushed.
fn keeps_order(alloc: Global) -> Result<bool, AllocError> {
    let mut items = Vec::new(alloc);
    append(&mut items, 1u32)?;
    append(&mut items, 2)?;
    Ok(items.as_slice() == [1, 2].as_slice())
}

#[test]
fn appends_elements(rt: HostRuntime) {
    assert!(rt; keeps_order(rt.alloc()) == Ok(true));
}

// A call of a stack, and its result if it has one.
#[derive(Clone, Copy)]
enum Step {
    Push(u32),
    Pop(Option<u32>),
    Top(Option<u32>),
    Get(usize, Option<u32>),
    Len(usize),
    Clear,
}

use Step::{Clear, Get, Len, Pop, Push, Top};

#[rattlefmt::skip]
static STEPS: [Step; 16] = [
    Pop(None), Push(1), Push(2), Push(3), Top(Some(3)), Get(0, Some(3)), Get(2, Some(1)), Get(3, None),
    Pop(Some(3)), Len(2), Clear, Len(0), Pop(None), Push(5), Push(6), Len(2),
];

// Returns whether a stack has the result of a step.
fn takes(stack: &mut Stack<u32>, step: Step) -> bool {
    match step {
        Push(x) => stack.push(x).is_ok(),
        Pop(x) => stack.pop() == x,
        Top(x) => stack.top() == x,
        Get(index, x) => stack.get(index) == x,
        Len(count) => stack.len() == count,
        Clear => {
            stack.clear();
            true
        }
    }
}

// Returns whether a stack has the results of all steps.
fn takes_all(alloc: Global) -> bool {
    let mut stack = Stack::new(alloc);
    let mut all = true;
    for step in &STEPS {
        all &= takes(&mut stack, *step);
    }
    all && stack.get(0) == Some(6) && stack.get(1) == Some(5)
}

#[test]
fn keeps_stacks(rt: HostRuntime) {
    assert!(rt; takes_all(rt.alloc()));
}

// Returns a branch by number to two labels, or else to a third one.
fn branch_by_number(alloc: Global) -> Result<Op, AllocError> {
    let labels = Items::from_vec(vec![in alloc; 1u32, 2]?);
    let table = BranchTable { labels, default: 3 };
    Ok(Op::Plain(PlainOp::BrTable(Boxed::new(alloc, table)?)))
}

fn typed_select(alloc: Global) -> Result<Op, AllocError> {
    let types = Items::from_vec(vec![in alloc; ValType::I64]?);
    Ok(Op::Plain(PlainOp::SelectTyped(Boxed::new(alloc, types)?)))
}

// Appends operations that take eight bytes and others that take more, in turn.
fn push_operations(alloc: Global, expression: &mut Expression) -> Result<(), AllocError> {
    let argument = MemArg {
        align: 256,
        offset: 9,
    };
    expression.push(Op::Plain(PlainOp::I64Const(7)))?;
    expression.push(branch_by_number(alloc)?)?;
    expression.push(Op::Plain(PlainOp::I64Const(u64::MAX)))?;
    expression.push(typed_select(alloc)?)?;
    expression.push(Op::Else)?;
    expression.push(Op::Block(BlockType::Index(4)))?;
    expression.push(Op::Loop(BlockType::Value(ValType::I32)))?;
    expression.push(Op::Plain(PlainOp::Memory(MemoryOp::Store(StoreOp::Bits32, argument))))
}

// Returns an expression of these operations.
fn expression_of(alloc: Global) -> Result<Expression, AllocError> {
    let mut expression = Expression::new(alloc);
    push_operations(alloc, &mut expression)?;
    expression.shrink();
    Ok(expression)
}

// Returns whether an operation that takes more than eight bytes is the one of that index.
fn is_other(index: usize, op: &Op) -> bool {
    match (index, op) {
        (1, Op::Plain(PlainOp::BrTable(table))) => {
            let table = table.get();
            table.labels.as_slice() == [1, 2].as_slice() && table.default == 3
        }
        (2, Op::Plain(PlainOp::I64Const(n))) => *n == u64::MAX,
        (3, Op::Plain(PlainOp::SelectTyped(types))) => {
            types.get().as_slice() == [ValType::I64].as_slice()
        }
        (5, Op::Block(BlockType::Index(ty))) => *ty == 4,
        (7, Op::Plain(PlainOp::Memory(MemoryOp::Store(StoreOp::Bits32, argument)))) => {
            argument.align == 256 && argument.offset == 9
        }
        _ => false,
    }
}

// Returns whether an operation is the one of that index.
fn is_operation(index: usize, op: LentOp<'_>) -> bool {
    match (index, op) {
        (0, OpWith::I64Const(n)) => n == 7 && !is_mark(op),
        (4, OpWith::Else) => is_mark(op),
        (6, OpWith::Loop(Some(ty))) => ty == ValType::I32 && is_mark(op),
        (_, OpWith::Other(other)) => is_other(index, other) && is_mark(op) == (index == 5),
        _ => false,
    }
}

// Returns whether an expression has its eight operations.
fn keeps_operations(alloc: Global) -> Result<bool, AllocError> {
    let expression = expression_of(alloc)?;
    let mut all = expression.len() == 8;
    for index in 0..expression.len() {
        all &= is_operation(index, expression.get(index));
    }
    Ok(all)
}

#[test]
fn keeps_expressions(rt: HostRuntime) {
    assert!(rt; keeps_operations(rt.alloc()) == Ok(true));
}

#[test]
fn operations_are_small(rt: HostRuntime) {
    assert!(rt; size_of::<ShortOp>() == 8);
}
