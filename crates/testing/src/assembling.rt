use crate::error::AssembleError;
use crate::fields::read_fields;
use crate::reader::Reader;
use std::alloc::Global;

/// Assembles a module in the binary format from its fields in the text format, in a row.
///
/// This subset of the text format is supported: fields in any order, indices as numbers, and instructions on integers and
/// references in a row, each with its immediates. A function may begin with an export. Its type is given by `(type 0)`, or by
/// its parameters and results, which stand for the first equal type or else a new one. Escapes in quoted text have two
/// hexadecimal digits. The data count section is written if a data segment is passive.
pub fn assemble(alloc: Global, text: &str) -> Result<Vec<u8>, AssembleError> {
    let mut reader = Reader::new(text.as_bytes());
    let sections = read_fields(alloc, &mut reader);
    if !reader.is_done() {
        return Err(AssembleError::Unreadable);
    }
    sections.to_bytes()
}
