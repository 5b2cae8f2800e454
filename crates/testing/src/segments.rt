ghost use Rattle.std.specs.Prelude.{◌≤◌};

use crate::bodies::{write_expression, write_numbers};
use crate::function_types::FunctionTypes;
use crate::quoted::write_texts;
use crate::reader::Reader;
use crate::section::Section;
use crate::writer::Writer;
use std::alloc::Global;

// The code of the type of references to functions. An active segment in table 0 need not name it.
const FUNC_REF: u8 = 0x70;

// The target of a segment: the index of a table or a memory, and the expression of the offset. Without an offset the segment is
// passive or declarative.
#[derive(Drop)]
struct Target {
    index: u64,
    offset: Option<Writer>,
    is_declared: bool,
}

impl Target {
    fn read_list(&mut self, alloc: Global, types: &mut FunctionTypes, reader: &mut Reader<'_>) {
        match reader.word() {
            "table" | "memory" => self.index = reader.number(),
            "offset" => {
                let mut offset = Writer::new(alloc);
                write_expression(alloc, types, reader, &mut offset);
                self.offset = Some(offset);
            }
            _ => reader.fail(),
        }
        reader.close();
    }

    // Returns the number of the form of a segment with indices or bytes.
    fn form(&self) -> u8
        ensures { result ≤ 3 }
    {
        match &self.offset {
            Some(_) if self.index == 0 => 0,
            Some(_) => 2,
            None if self.is_declared => 3,
            None => 1,
        }
    }

    // Writes the number of a form, and the target.
    fn write(&self, form: u8, writer: &mut Writer) {
        writer.write_byte(form);
        if let Some(offset) = &self.offset {
            if form == 2 || form == 6 {
                writer.write_number(self.index);
            }
            writer.append(offset);
        }
    }
}

// Reads the next word and the next lists.
fn read_target(alloc: Global, types: &mut FunctionTypes, reader: &mut Reader<'_>) -> Target {
    let mut target = Target {
        index: 0,
        offset: None,
        is_declared: reader.accepts("declare"),
    };
    for _ in 0..u64::MAX {
        if !reader.opens() {
            break;
        }
        target.read_list(alloc, types, reader);
    }
    target
}

// Writes the number of the next items, and then their expressions.
fn write_items(
    alloc: Global,
    types: &mut FunctionTypes,
    reader: &mut Reader<'_>,
    writer: &mut Writer,
) {
    let mut items = Section::new(alloc);
    for _ in 0..u64::MAX {
        if !reader.opens() {
            break;
        }
        reader.keyword("item");
        write_expression(alloc, types, reader, items.begin());
        reader.close();
    }
    items.write(writer);
}

// Writes an element segment with the indices of functions.
fn write_indices(target: &Target, reader: &mut Reader<'_>, writer: &mut Writer) {
    let form = target.form();
    target.write(form, writer);
    if form != 0 {
        writer.write_byte(0x00);
    }
    writer.write_number(reader.count_numbers());
    write_numbers(reader, writer);
}

fn write_expressions(
    alloc: Global,
    types: &mut FunctionTypes,
    target: &Target,
    reader: &mut Reader<'_>,
    writer: &mut Writer,
) {
    let ty = reader.value_type();
    let form = match target.form() {
        0 if ty != FUNC_REF => 2,
        form => form,
    };
    target.write(form + 4, writer);
    if form != 0 {
        writer.write_byte(ty);
    }
    write_items(alloc, types, reader, writer);
}

/// Writes an element segment. Without a table it is one of functions.
pub fn write_elements(
    alloc: Global,
    types: &mut FunctionTypes,
    reader: &mut Reader<'_>,
    writer: &mut Writer,
) {
    let target = read_target(alloc, types, reader);
    if reader.accepts("func") {
        write_indices(&target, reader, writer);
    } else {
        write_expressions(alloc, types, &target, reader, writer);
    }
}

/// Writes a data segment.
pub fn write_data(
    alloc: Global,
    types: &mut FunctionTypes,
    reader: &mut Reader<'_>,
    writer: &mut Writer,
) {
    let target = read_target(alloc, types, reader);
    target.write(target.form(), writer);
    write_texts(alloc, reader, writer);
}
