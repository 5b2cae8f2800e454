//! The parts of a module (Binary Format).

use crate::features::{unsupported_instruction, unsupported_prefixed, unsupported_type};
use crate::malformations::{Malformation, Misreading};
use crate::reader::Reader;
use std::str::from_utf8;

// Reads a value type.
fn read_val_type(reader: &mut Reader<'_>) -> Result<(), Misreading> {
    let offset = reader.offset();
    let cause = match reader.byte()? {
        0x7E | 0x7F | 0x6F | 0x70 => return Ok(()),
        byte @ 0x7B..=0x7D => Malformation::Unsupported(unsupported_type(byte)),
        byte => Malformation::Byte("a value type", byte),
    };
    Err(Misreading { offset, cause })
}

fn read_val_types(reader: &mut Reader<'_>) -> Result<(), Misreading> {
    for _ in 0..reader.number()? {
        read_val_type(reader)?;
    }
    Ok(())
}

fn read_ref_type(reader: &mut Reader<'_>) -> Result<(), Misreading> {
    let offset = reader.offset();
    match reader.byte()? {
        0x6F | 0x70 => Ok(()),
        byte => Err(Misreading {
            offset,
            cause: Malformation::Byte("a reference type", byte),
        }),
    }
}

// Reads this byte.
fn read_expected(
    reader: &mut Reader<'_>,
    wanted: u8,
    expected: &'static str,
) -> Result<(), Misreading> {
    let offset = reader.offset();
    let byte = reader.byte()?;
    if byte != wanted {
        let cause = Malformation::Byte(expected, byte);
        return Err(Misreading { offset, cause });
    }
    Ok(())
}

fn read_func_type(reader: &mut Reader<'_>) -> Result<(), Misreading> {
    read_expected(reader, 0x60, "a function type (0x60)")?;
    read_val_types(reader)?;
    read_val_types(reader)
}

fn read_limits(reader: &mut Reader<'_>) -> Result<(), Misreading> {
    let flag = reader.byte_below(2, "the flag of limits (0x0 or 0x1)")?;
    reader.numbers(u32::from(flag).saturating_add(1))
}

fn read_table_type(reader: &mut Reader<'_>) -> Result<(), Misreading> {
    read_ref_type(reader)?;
    read_limits(reader)
}

fn read_global_type(reader: &mut Reader<'_>) -> Result<(), Misreading> {
    read_val_type(reader)?;
    let _ = reader.byte_below(2, "a mutability (0x0 or 0x1)")?;
    Ok(())
}

// Reads the type of a block.
fn read_block_type(reader: &mut Reader<'_>) -> Result<(), Misreading> {
    match reader.rest() {
        [0x40, ..] => {
            let _ = reader.byte()?;
            Ok(())
        }
        [0x41..=0x7F, ..] => read_val_type(reader),
        _ => reader.nonnegative_33(),
    }
}

/// Reads a name.
pub fn read_name(reader: &mut Reader<'_>) -> Result<(), Misreading> {
    let part = reader.part("section")?;
    match from_utf8(part.rest()) {
        Ok(_) => Ok(()),
        Err(_) => Err(Misreading {
            offset: part.offset(),
            cause: Malformation::NotUtf8,
        }),
    }
}

// Reads bytes that are zero, of which there are that many.
fn read_zeros(reader: &mut Reader<'_>, count: u32) -> Result<(), Misreading> {
    for _ in 0..count {
        read_expected(reader, 0x00, "the byte 0x0")?;
    }
    Ok(())
}

// Reads an instruction after the prefix, which is at an offset.
fn read_prefixed(reader: &mut Reader<'_>, offset: usize) -> Result<(), Misreading> {
    match reader.number()? {
        8 => {
            let _ = reader.number()?;
            read_zeros(reader, 1)
        }
        9 | 13 | 15 | 16 | 17 => reader.numbers(1),
        10 => read_zeros(reader, 2),
        11 => read_zeros(reader, 1),
        12 | 14 => reader.numbers(2),
        number => Err(Misreading {
            offset,
            cause: Malformation::Unsupported(unsupported_prefixed(number)),
        }),
    }
}

// Reads the labels of a branch by number, and the default.
fn read_labels(reader: &mut Reader<'_>) -> Result<(), Misreading> {
    let count = reader.number()?;
    reader.numbers(count)?;
    reader.numbers(1)
}

// Reads the immediates of an instruction, whose opcode is at an offset.
fn read_immediates(reader: &mut Reader<'_>, opcode: u8, offset: usize) -> Result<(), Misreading> {
    match opcode {
        0x00 | 0x01 | 0x05 | 0x0B | 0x0F | 0x1A | 0x1B | 0xD1 => Ok(()),
        0x45..=0x5A | 0x67..=0x8A | 0xA7 | 0xAC | 0xAD | 0xC0..=0xC4 => Ok(()),
        0x02..=0x04 => read_block_type(reader),
        0x0C | 0x0D | 0x10 | 0x12 | 0x20..=0x26 | 0xD2 => reader.numbers(1),
        0x11 | 0x13 | 0x28 | 0x29 | 0x2C..=0x37 | 0x3A..=0x3E => reader.numbers(2),
        0x0E => read_labels(reader),
        0x1C => read_val_types(reader),
        0x3F | 0x40 => read_zeros(reader, 1),
        0x41 => reader.signed_32(),
        0x42 => reader.signed_64(),
        0xD0 => read_ref_type(reader),
        0xFC => read_prefixed(reader, offset),
        _ => Err(Misreading {
            offset,
            cause: Malformation::Unsupported(unsupported_instruction(opcode)),
        }),
    }
}

// Reads an instruction, and returns its opcode.
fn read_instruction(reader: &mut Reader<'_>) -> Result<u8, Misreading> {
    let offset = reader.offset();
    let opcode = reader.byte()?;
    if opcode == 0x05 && reader.is_fault(offset) {
        let cause = Malformation::Else;
        return Err(Misreading { offset, cause });
    }
    read_immediates(reader, opcode, offset)?;
    Ok(opcode)
}

// Reads instructions up to the end of the outermost body.
fn read_expression(reader: &mut Reader<'_>) -> Result<(), Misreading> {
    let mut open = 1_usize;
    for _ in 0..reader.rest().len() {
        match read_instruction(reader)? {
            0x02..=0x04 => open = open.saturating_add(1),
            0x0B => open = open.saturating_sub(1),
            _ => {}
        }
        if open == 0 {
            return Ok(());
        }
    }
    Err(reader.ended())
}

fn read_expressions(reader: &mut Reader<'_>) -> Result<(), Misreading> {
    for _ in 0..reader.number()? {
        read_expression(reader)?;
    }
    Ok(())
}

fn read_import(reader: &mut Reader<'_>) -> Result<(), Misreading> {
    read_name(reader)?;
    read_name(reader)?;
    match reader.byte_below(4, "a kind of import (0x0 to 0x3)")? {
        0 => reader.numbers(1),
        1 => read_table_type(reader),
        2 => read_limits(reader),
        _ => read_global_type(reader),
    }
}

fn read_global(reader: &mut Reader<'_>) -> Result<(), Misreading> {
    read_global_type(reader)?;
    read_expression(reader)
}

fn read_export(reader: &mut Reader<'_>) -> Result<(), Misreading> {
    read_name(reader)?;
    let _ = reader.byte_below(4, "a kind of export (0x0 to 0x3)")?;
    reader.numbers(1)
}

// Reads the number of a form that is below a bound.
fn read_form(
    reader: &mut Reader<'_>,
    bound: u32,
    expected: &'static str,
) -> Result<u32, Misreading> {
    let offset = reader.offset();
    let form = reader.number()?;
    if form >= bound {
        let cause = Malformation::Form(expected, form);
        return Err(Misreading { offset, cause });
    }
    Ok(form)
}

// Reads where an active segment of this form goes: an index, unless it is 0, and an offset.
fn read_target(reader: &mut Reader<'_>, has_index: bool) -> Result<(), Misreading> {
    reader.numbers(u32::from(has_index))?;
    read_expression(reader)
}

// Reads a list of functions by their indices.
fn read_indices(reader: &mut Reader<'_>) -> Result<(), Misreading> {
    let count = reader.number()?;
    reader.numbers(count)
}

// Reads the references of an element segment of this form, and their type.
fn read_references(reader: &mut Reader<'_>, form: u32) -> Result<(), Misreading> {
    match form {
        0 => read_indices(reader),
        4 => read_expressions(reader),
        1..=3 => {
            read_expected(reader, 0x00, "the element kind 0x0")?;
            read_indices(reader)
        }
        _ => {
            read_ref_type(reader)?;
            read_expressions(reader)
        }
    }
}

fn read_element(reader: &mut Reader<'_>) -> Result<(), Misreading> {
    let form = read_form(reader, 8, "a form from 0 to 7")?;
    match form {
        0 | 4 => read_target(reader, false)?,
        2 | 6 => read_target(reader, true)?,
        _ => {}
    }
    read_references(reader, form)
}

fn read_data(reader: &mut Reader<'_>) -> Result<(), Misreading> {
    match read_form(reader, 3, "a form from 0 to 2")? {
        0 => read_target(reader, false)?,
        2 => read_target(reader, true)?,
        _ => {}
    }
    let _ = reader.part("section")?;
    Ok(())
}

// Reads the groups of locals at the start of a body.
fn read_locals(reader: &mut Reader<'_>) -> Result<(), Misreading> {
    let mut locals = 0_u32;
    for _ in 0..reader.number()? {
        let offset = reader.offset();
        let count = reader.number()?;
        read_val_type(reader)?;
        let Some(sum) = locals.checked_add(count) else {
            let cause = Malformation::Locals;
            return Err(Misreading { offset, cause });
        };
        locals = sum;
    }
    Ok(())
}

// Reads the body of a function.
fn read_body(reader: &mut Reader<'_>) -> Result<(), Misreading> {
    let mut content = reader.part("section")?;
    read_locals(&mut content)?;
    read_expression(&mut content)?;
    content.finish()
}

/// Reads an item of the section of this id.
pub fn read_item(reader: &mut Reader<'_>, id: u8) -> Result<(), Misreading> {
    match id {
        1 => read_func_type(reader),
        2 => read_import(reader),
        3 => reader.numbers(1),
        4 => read_table_type(reader),
        5 => read_limits(reader),
        6 => read_global(reader),
        7 => read_export(reader),
        9 => read_element(reader),
        10 => read_body(reader),
        _ => read_data(reader),
    }
}
