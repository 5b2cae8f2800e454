use crate::reader::Reader;
use crate::writer::Writer;
use std::alloc::Global;

/// The lists before a function's instructions, or after an instruction's name. A type is a byte.
#[derive(Drop)]
pub struct Header<'a> {
    pub export: Option<&'a [u8]>,
    pub type_index: Option<u64>,
    pub params: Writer,
    pub results: Writer,
    pub locals: Writer,
}

// Reads types of values.
fn read_types(reader: &mut Reader<'_>, types: &mut Writer) {
    for _ in 0..u64::MAX {
        match reader.next_type() {
            Some(ty) => types.write_byte(ty),
            None => return,
        }
    }
}

impl<'a> Header<'a> {
    fn read_list(&mut self, reader: &mut Reader<'a>) {
        match reader.word() {
            "export" => self.export = Some(reader.quoted()),
            "type" => self.type_index = Some(reader.number()),
            "param" => read_types(reader, &mut self.params),
            "result" => read_types(reader, &mut self.results),
            "local" => read_types(reader, &mut self.locals),
            _ => reader.fail(),
        }
        reader.close();
    }
}

/// Reads the next lists.
pub fn read_header<'a>(alloc: Global, reader: &mut Reader<'a>) -> Header<'a> {
    let mut header = Header {
        export: None,
        type_index: None,
        params: Writer::new(alloc),
        results: Writer::new(alloc),
        locals: Writer::new(alloc),
    };
    for _ in 0..u64::MAX {
        if !reader.opens() {
            break;
        }
        header.read_list(reader);
    }
    header
}
