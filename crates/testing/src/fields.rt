use crate::bodies::{write_code, write_expression};
use crate::header::read_header;
use crate::reader::Reader;
use crate::sections::Sections;
use crate::segments::{write_data, write_elements};
use crate::writer::Writer;
use std::alloc::Global;

// Writes a least size, and a greatest one if there is one.
fn write_limits(least: u64, greatest: Option<u64>, writer: &mut Writer) {
    match greatest {
        Some(greatest) => {
            writer.write_byte(0x01);
            writer.write_number(least);
            writer.write_number(greatest);
        }
        None => {
            writer.write_byte(0x00);
            writer.write_number(least);
        }
    }
}

fn write_table_type(reader: &mut Reader<'_>, writer: &mut Writer) {
    let least = reader.number();
    let greatest = reader.next_number();
    writer.write_byte(reader.value_type());
    write_limits(least, greatest, writer);
}

fn write_memory_type(reader: &mut Reader<'_>, writer: &mut Writer) {
    let least = reader.number();
    let greatest = reader.next_number();
    write_limits(least, greatest, writer);
}

fn write_global_type(reader: &mut Reader<'_>, writer: &mut Writer) {
    if reader.opens() {
        reader.keyword("mut");
        writer.write_byte(reader.value_type());
        writer.write_byte(0x01);
        reader.close();
    } else {
        writer.write_byte(reader.value_type());
        writer.write_byte(0x00);
    }
}

// Returns the byte of a kind of exports.
fn read_kind(reader: &mut Reader<'_>) -> u8 {
    match reader.word() {
        "func" => 0x00,
        "table" => 0x01,
        "memory" => 0x02,
        "global" => 0x03,
        _ => {
            reader.fail();
            0
        }
    }
}

impl Sections {
    fn read_type(&mut self, reader: &mut Reader<'_>) {
        reader.open();
        reader.keyword("func");
        let header = read_header(self.alloc, reader);
        self.types.add(&header);
        reader.close();
    }

    fn read_description(&mut self, reader: &mut Reader<'_>, import: &mut Writer) {
        match reader.word() {
            "func" => {
                let header = read_header(self.alloc, reader);
                import.write_byte(0x00);
                import.write_number(self.types.index_of(&header));
                self.function_count = self.function_count.saturating_add(1);
            }
            "table" => {
                import.write_byte(0x01);
                write_table_type(reader, import);
            }
            "memory" => {
                import.write_byte(0x02);
                write_memory_type(reader, import);
            }
            "global" => {
                import.write_byte(0x03);
                write_global_type(reader, import);
            }
            _ => reader.fail(),
        }
    }

    fn read_import(&mut self, reader: &mut Reader<'_>) {
        let mut import = Writer::new(self.alloc);
        import.write_counted(reader.quoted());
        import.write_counted(reader.quoted());
        reader.open();
        self.read_description(reader, &mut import);
        reader.close();
        self.imports.begin().append(&import);
    }

    fn add_export(&mut self, name: &[u8], kind: u8, index: u64) {
        let export = self.exports.begin();
        export.write_counted(name);
        export.write_byte(kind);
        export.write_number(index);
    }

    fn read_export(&mut self, reader: &mut Reader<'_>) {
        let name = reader.quoted();
        reader.open();
        let kind = read_kind(reader);
        let index = reader.number();
        reader.close();
        self.add_export(name, kind, index);
    }

    fn read_function(&mut self, reader: &mut Reader<'_>) {
        let header = read_header(self.alloc, reader);
        if let Some(name) = header.export {
            self.add_export(name, 0x00, self.function_count);
        }
        self.function_count = self.function_count.saturating_add(1);
        let ty = self.types.index_of(&header);
        self.functions.begin().write_number(ty);
        let locals = header.locals.as_slice();
        write_code(
            self.alloc,
            &mut self.types,
            locals,
            reader,
            self.codes.begin(),
        );
    }

    fn read_global(&mut self, reader: &mut Reader<'_>) {
        let global = self.globals.begin();
        write_global_type(reader, global);
        write_expression(self.alloc, &mut self.types, reader, global);
    }

    fn read_data(&mut self, reader: &mut Reader<'_>) {
        self.has_passive_data |= !reader.is_at_list();
        write_data(self.alloc, &mut self.types, reader, self.datas.begin());
    }

    fn read_elements(&mut self, reader: &mut Reader<'_>) {
        write_elements(self.alloc, &mut self.types, reader, self.elements.begin());
    }

    fn read_field(&mut self, reader: &mut Reader<'_>) {
        match reader.word() {
            "type" => self.read_type(reader),
            "import" => self.read_import(reader),
            "func" => self.read_function(reader),
            "table" => write_table_type(reader, self.tables.begin()),
            "memory" => write_memory_type(reader, self.memories.begin()),
            "global" => self.read_global(reader),
            "export" => self.read_export(reader),
            "start" => self.start = Some(reader.number()),
            "elem" => self.read_elements(reader),
            "data" => self.read_data(reader),
            _ => reader.fail(),
        }
    }
}

/// Reads the fields of a module.
pub fn read_fields(alloc: Global, reader: &mut Reader<'_>) -> Sections {
    let mut sections = Sections::new(alloc);
    for _ in 0..u64::MAX {
        if !reader.opens() {
            break;
        }
        sections.read_field(reader);
        reader.close();
    }
    sections
}
