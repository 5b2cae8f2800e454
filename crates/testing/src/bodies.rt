use crate::function_types::FunctionTypes;
use crate::header::read_header;
use crate::instructions::{Immediates, Instruction, instruction_named};
use crate::reader::Reader;
use crate::writer::Writer;
use std::alloc::Global;

/// Writes the next numbers.
pub fn write_numbers(reader: &mut Reader<'_>, writer: &mut Writer) {
    for _ in 0..u64::MAX {
        match reader.next_number() {
            Some(number) => writer.write_number(number),
            None => return,
        }
    }
}

// Writes the number of labels before the default one, and all labels.
fn write_labels(reader: &mut Reader<'_>, writer: &mut Writer) {
    match reader.count_numbers() {
        0 => reader.fail(),
        count => writer.write_number(count - 1),
    }
    write_numbers(reader, writer);
}

// Writes the alignment and the offset of an access with this natural alignment.
fn write_access(natural: u64, reader: &mut Reader<'_>, writer: &mut Writer) {
    let offset = reader.argument("offset=", 0);
    let alignment = reader.argument("align=", natural);
    if !alignment.is_power_of_two() {
        reader.fail();
    }
    writer.write_number(u64::from(alignment.trailing_zeros()));
    writer.write_number(offset);
}

fn write_block_type(
    alloc: Global,
    types: &mut FunctionTypes,
    reader: &mut Reader<'_>,
    writer: &mut Writer,
) {
    let header = read_header(alloc, reader);
    let is_short = header.type_index.is_none() && header.params.as_slice().is_empty();
    match header.results.as_slice() {
        [] if is_short => writer.write_byte(0x40),
        [ty] if is_short => writer.write_byte(*ty),
        _ => writer.write_signed(types.index_of(&header)),
    }
}

// Writes the type of the called function, and the table.
fn write_indirect(
    alloc: Global,
    types: &mut FunctionTypes,
    reader: &mut Reader<'_>,
    writer: &mut Writer,
) {
    let table = reader.next_number().unwrap_or(0);
    let header = read_header(alloc, reader);
    writer.write_number(types.index_of(&header));
    writer.write_number(table);
}

// Writes an element segment, and the table before it.
fn write_table_init(reader: &mut Reader<'_>, writer: &mut Writer) {
    let first = reader.number();
    match reader.next_number() {
        Some(segment) => {
            writer.write_number(segment);
            writer.write_number(first);
        }
        None => {
            writer.write_number(first);
            writer.write_number(0);
        }
    }
}

// Writes what follows an instruction's name, if it has no lists.
fn write_words(immediates: Immediates, reader: &mut Reader<'_>, writer: &mut Writer) {
    match immediates {
        Immediates::Index => writer.write_number(reader.number()),
        Immediates::Labels => write_labels(reader, writer),
        Immediates::Table => writer.write_number(reader.next_number().unwrap_or(0)),
        Immediates::TableCopy => {
            writer.write_number(reader.next_number().unwrap_or(0));
            writer.write_number(reader.next_number().unwrap_or(0));
        }
        Immediates::TableInit => write_table_init(reader, writer),
        Immediates::Memory => writer.write_byte(0x00),
        Immediates::MemoryCopy => writer.write_bytes(&[0x00, 0x00]),
        Immediates::MemoryInit => {
            writer.write_number(reader.number());
            writer.write_byte(0x00);
        }
        Immediates::Access(natural) => write_access(natural, reader, writer),
        Immediates::Reference => writer.write_byte(reader.value_type()),
        Immediates::Constant32 => writer.write_signed(reader.integer(1 << 31)),
        Immediates::Constant64 => writer.write_signed(reader.integer(1 << 63)),
        _ => {}
    }
}

// Writes a selection, whose opcode states whether it has types.
fn write_selection(alloc: Global, reader: &mut Reader<'_>, writer: &mut Writer) {
    if reader.is_at_list() {
        writer.write_byte(0x1C);
        writer.append_counted(&read_header(alloc, reader).results);
    } else {
        writer.write_byte(0x1B);
    }
}

fn write_opcode(opcode: u16, writer: &mut Writer) {
    let [prefix, last] = opcode.to_be_bytes();
    if prefix != 0 {
        writer.write_byte(prefix);
    }
    writer.write_byte(last);
}

// Writes an instruction, whose name was read.
fn write_instruction(
    alloc: Global,
    types: &mut FunctionTypes,
    instruction: Instruction,
    reader: &mut Reader<'_>,
    writer: &mut Writer,
) {
    if matches!(instruction.immediates, Immediates::Selection) {
        write_selection(alloc, reader, writer);
        return;
    }
    write_opcode(instruction.opcode, writer);
    match instruction.immediates {
        Immediates::Block => write_block_type(alloc, types, reader, writer),
        Immediates::Indirect => write_indirect(alloc, types, reader, writer),
        immediates => write_words(immediates, reader, writer),
    }
}

/// Writes the next instructions, followed by the end.
pub fn write_expression(
    alloc: Global,
    types: &mut FunctionTypes,
    reader: &mut Reader<'_>,
    writer: &mut Writer,
) {
    for _ in 0..u64::MAX {
        let Some(name) = reader.next_word() else {
            break;
        };
        match instruction_named(name) {
            Some(instruction) => write_instruction(alloc, types, instruction, reader, writer),
            None => reader.fail(),
        }
    }
    writer.write_byte(0x0B);
}

/// Writes the code of a function with these locals.
pub fn write_code(
    alloc: Global,
    types: &mut FunctionTypes,
    locals: &[u8],
    reader: &mut Reader<'_>,
    writer: &mut Writer,
) {
    let mut body = Writer::new(alloc);
    body.write_number(locals.len() as u64);
    for ty in locals {
        body.write_bytes(&[0x01, *ty]);
    }
    write_expression(alloc, types, reader, &mut body);
    writer.append_counted(&body);
}
