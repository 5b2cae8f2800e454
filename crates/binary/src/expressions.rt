//! Expressions: operations up to the end of the outermost body (Binary Format, Expressions).

ghost use Rattle.std.specs.Prelude.{◌≡◌, IfOk, Some, ◌||◌};
ghost use Rattle.core_types.specs.declared.op.Op.TheVariants.{Else, End};
ghost use Rattle.std.specs.List.{list_any};
ghost use Rattle.core_types.specs.Expressions.{mark_op};
ghost use Rattle.meaning.specs.binary.Modules.{names_data};
ghost use Rattle.binary.specs.Conventions.{Gives};
ghost use Rattle.binary.specs.Expressions.{SkipsExpression, SkipsOperation, expression_at, next_bodies};
ghost use Rattle.binary.specs.Values.{first_byte};

use crate::errors::DecodeError;
use crate::instructions::{
    is_memory_op_of_data, is_of_data, read_control_op, read_i32_const_op, read_mark,
    read_memory_op, read_numeric_op, read_op, read_variable_op,
};
use crate::reader::Reader;
use crate::values::Readable;
use core_types::{Expression, FuncBody, Mark, Op, Stack};
use std::alloc::{AllocError, Global};

// A body that the decoder has begun and not ended.
#[derive(Clone, Copy)]
pub enum OpenBody {
    // a body that ends at an end
    InBlock,
    // the first body of an if, which may end at an else
    InIf,
}

// The effect of an operation on an expression.
#[derive(Clone, Copy)]
pub enum Flow {
    // the expression continues
    Continues,
    // the expression ends
    Ended,
    // no open body can end at this mark
    Misplaced,
}

// Ends the first body of an if, and begins the second.
fn follow_else(bodies: &mut Stack<OpenBody>) -> Result<Flow, AllocError>
    ensures { IfOk result (λ flow. next_bodies bodies.old Else ≡ (flow, bodies.new)) }
{
    match bodies.pop() {
        Some(OpenBody::InIf) => {
            bodies.push(OpenBody::InBlock)?;
            Ok(Flow::Continues)
        }
        _ => Ok(Flow::Misplaced),
    }
}

// Ends a body, or the expression if no body is open.
#[inline(always)]
fn follow_end(bodies: &mut Stack<OpenBody>) -> Flow
    ensures { next_bodies bodies.old End ≡ (result, bodies.new) }
{
    match bodies.pop() {
        Some(_) => Flow::Continues,
        None => Flow::Ended,
    }
}

// Begins and ends bodies as a mark does.
#[inline(always)]
fn follow_mark(bodies: &mut Stack<OpenBody>, mark: Mark) -> Result<Flow, AllocError>
    ensures { IfOk result (λ flow. next_bodies bodies.old (mark_op mark) ≡ (flow, bodies.new)) }
{
    match mark {
        Mark::Block(_) | Mark::Loop(_) => bodies.push(OpenBody::InBlock)?,
        Mark::If(_) => bodies.push(OpenBody::InIf)?,
        Mark::Else => return follow_else(bodies),
        Mark::End => return Ok(follow_end(bodies)),
    }
    Ok(Flow::Continues)
}

// Begins and ends bodies as an operation does.
fn follow(bodies: &mut Stack<OpenBody>, op: &Op) -> Result<Flow, AllocError>
    ensures { IfOk result (λ flow. next_bodies bodies.old op.now ≡ (flow, bodies.new)) }
{
    match op {
        Op::Plain(_) => Ok(Flow::Continues),
        Op::Block(ty) => follow_mark(bodies, Mark::Block(*ty)),
        Op::Loop(ty) => follow_mark(bodies, Mark::Loop(*ty)),
        Op::If(ty) => follow_mark(bodies, Mark::If(*ty)),
        Op::Else => follow_mark(bodies, Mark::Else),
        Op::End => follow_mark(bodies, Mark::End),
    }
}

// Skips any operation. Notes if it names a data segment.
#[inline(never)]
fn skip_any(
    alloc: Global,
    reader: &mut Reader<'_>,
    bodies: &mut Stack<OpenBody>,
    data_named: &mut bool,
) -> Result<Flow, DecodeError>
    ensures { SkipsOperation result reader.old reader.new bodies.old bodies.new data_named.old
        data_named.new }
{
    let op = read_op(alloc, reader)?;
    *data_named |= is_of_data(&op);
    Ok(follow(bodies, &op)?)
}

// Like `skip_any`. Only a copy of the reader is in memory.
#[inline(always)]
fn skip_infrequent(
    alloc: Global,
    reader: &mut Reader<'_>,
    bodies: &mut Stack<OpenBody>,
    data_named: &mut bool,
) -> Result<Flow, DecodeError>
    ensures { SkipsOperation result reader.old reader.new bodies.old bodies.new data_named.old
        data_named.new }
{
    let mut copy = reader.fork();
    let result = skip_any(alloc, &mut copy, bodies, data_named);
    *reader = copy;
    result
}

// Skips an operation with this opcode, and begins and ends bodies as it does. Notes if it names a data segment.
#[inline(always)]
fn skip_operation(
    alloc: Global,
    reader: &mut Reader<'_>,
    bodies: &mut Stack<OpenBody>,
    data_named: &mut bool,
    code: u8,
) -> Result<Flow, DecodeError>
    requires { first_byte reader.old ≡ Some code }
    ensures { SkipsOperation result reader.old reader.new bodies.old bodies.new data_named.old
        data_named.new }
{
    match code {
        0x20..=0x24 => {
            read_variable_op(reader, code)?;
            Ok(Flow::Continues)
        }
        0x41 => {
            read_i32_const_op(reader)?;
            Ok(Flow::Continues)
        }
        0x45..=0xC4 => {
            read_numeric_op(reader, code)?;
            Ok(Flow::Continues)
        }
        0x28..=0x3E => {
            let op = read_memory_op(reader, code)?;
            *data_named |= is_memory_op_of_data(op);
            Ok(Flow::Continues)
        }
        0x0C | 0x0D | 0x0F | 0x10 => {
            read_control_op(reader, code)?;
            Ok(Flow::Continues)
        }
        0x02..=0x05 | 0x0B => {
            let mark = read_mark(reader, code)?;
            Ok(follow_mark(bodies, mark)?)
        }
        _ => skip_infrequent(alloc, reader, bodies, data_named),
    }
}

// Skips the operations up to the end of the outermost body. Reuses the room of a stack. Notes if one of them names a data segment.
#[inline(never)]
fn skip_expression(
    alloc: Global,
    reader: &mut Reader<'_>,
    bodies: &mut Stack<OpenBody>,
    data_named: &mut bool,
) -> Result<(), DecodeError>
    ensures { SkipsExpression result reader.old reader.new data_named.old data_named.new }
{
    bodies.clear();
    let mut here = reader.fork();
    loop {
        let offset = here.offset();
        let Some(code) = here.peek() else {
            return Err(DecodeError::Malformed(offset));
        };
        match skip_operation(alloc, &mut here, bodies, data_named, code)? {
            Flow::Continues => {}
            Flow::Ended => break,
            Flow::Misplaced => return Err(DecodeError::Malformed(offset)),
        }
    }
    *reader = here;
    Ok(())
}

// Reads the body of a function. Reuses the room of a stack. Notes if an operation names a data segment.
pub fn read_body(
    alloc: Global,
    reader: &mut Reader<'_>,
    bodies: &mut Stack<OpenBody>,
    data_named: &mut bool,
) -> Result<FuncBody, DecodeError>
    ensures reads { Gives result reader.new (expression_at reader.old) }
    ensures data { IfOk result (λ ops. data_named.new ≡ (data_named.old || list_any names_data ops)) }
{
    let whole = reader.rest();
    skip_expression(alloc, reader, bodies, data_named)?;
    let end = whole.len() - reader.rest().len() - 1;
    Ok(FuncBody::from_bytes(Vec::from_slice(alloc, &whole[..end])?))
}

// Reads a constant expression.
pub fn read_expression(alloc: Global, reader: &mut Reader<'_>) -> Result<Expression, DecodeError>
    ensures { Gives result reader.new (expression_at reader.old) }
{
    let mut bodies = Stack::new(alloc);
    let mut ops = Expression::new(alloc);
    loop {
        let offset = reader.offset();
        let op = read_op(alloc, reader)?;
        match follow(&mut bodies, &op)? {
            Flow::Continues => ops.push(op)?,
            Flow::Ended => break,
            Flow::Misplaced => return Err(DecodeError::Malformed(offset)),
        }
    }
    ops.shrink();
    Ok(ops)
}

impl Readable for Expression {
    ghost use Rattle.binary.specs.Expressions.{expression_at};

    ghost reads = { expression_at };

    fn read(alloc: Global, reader: &mut Reader<'_>) -> Result<Expression, DecodeError> {
        read_expression(alloc, reader)
    }
}
