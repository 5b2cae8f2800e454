use crate::error::AssembleError;
use crate::function_types::FunctionTypes;
use crate::section::Section;
use crate::writer::Writer;
use std::alloc::Global;

const HEADER: [u8; 8] = [0x00, 0x61, 0x73, 0x6D, 0x01, 0x00, 0x00, 0x00];

/// The contents of a module's sections.
#[derive(Drop)]
pub struct Sections {
    pub alloc: Global,
    pub types: FunctionTypes,
    pub imports: Section,
    pub functions: Section,
    pub tables: Section,
    pub memories: Section,
    pub globals: Section,
    pub exports: Section,
    pub start: Option<u64>,
    pub elements: Section,
    pub codes: Section,
    pub datas: Section,
    /// The number of functions, including imported ones.
    pub function_count: u64,
    pub has_passive_data: bool,
}

// Writes a section of items, if it has any.
fn write_section(alloc: Global, id: u8, section: &Section, bytes: &mut Writer) {
    if section.count() > 0 {
        let mut content = Writer::new(alloc);
        section.write(&mut content);
        bytes.write_byte(id);
        bytes.append_counted(&content);
    }
}

fn write_number_section(alloc: Global, id: u8, number: Option<u64>, bytes: &mut Writer) {
    if let Some(number) = number {
        let mut content = Writer::new(alloc);
        content.write_number(number);
        bytes.write_byte(id);
        bytes.append_counted(&content);
    }
}

impl Sections {
    /// Creates sections without items. Allocates nothing.
    pub fn new(alloc: Global) -> Sections {
        Sections {
            alloc,
            types: FunctionTypes::new(alloc),
            imports: Section::new(alloc),
            functions: Section::new(alloc),
            tables: Section::new(alloc),
            memories: Section::new(alloc),
            globals: Section::new(alloc),
            exports: Section::new(alloc),
            start: None,
            elements: Section::new(alloc),
            codes: Section::new(alloc),
            datas: Section::new(alloc),
            function_count: 0,
            has_passive_data: false,
        }
    }

    /// Returns the bytes of the module.
    pub fn to_bytes(&self) -> Result<Vec<u8>, AssembleError> {
        let alloc = self.alloc;
        let mut bytes = Writer::new(alloc);
        bytes.write_bytes(&HEADER);
        write_section(alloc, 1, &self.types.section(), &mut bytes);
        write_section(alloc, 2, &self.imports, &mut bytes);
        write_section(alloc, 3, &self.functions, &mut bytes);
        write_section(alloc, 4, &self.tables, &mut bytes);
        write_section(alloc, 5, &self.memories, &mut bytes);
        write_section(alloc, 6, &self.globals, &mut bytes);
        write_section(alloc, 7, &self.exports, &mut bytes);
        write_number_section(alloc, 8, self.start, &mut bytes);
        write_section(alloc, 9, &self.elements, &mut bytes);
        let data_count = self.has_passive_data.then_some(self.datas.count());
        write_number_section(alloc, 12, data_count, &mut bytes);
        write_section(alloc, 10, &self.codes, &mut bytes);
        write_section(alloc, 11, &self.datas, &mut bytes);
        bytes.finish()
    }
}
