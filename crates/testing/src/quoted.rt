use crate::hexadecimal::digit;
use crate::reader::Reader;
use crate::writer::Writer;
use std::alloc::Global;

// Writes the bytes of a quoted text, in which a backslash and two digits represent one byte. Returns whether it is a quoted
// text.
fn write_quoted(quoted: &[u8], writer: &mut Writer) -> bool {
    let mut codes = quoted.iter();
    while let Some(code) = codes.next() {
        if *code != b'\\' {
            writer.write_byte(*code);
            continue;
        }
        let (Some(high), Some(low)) = (codes.next(), codes.next()) else {
            return false;
        };
        let (Some(high), Some(low)) = (digit(*high), digit(*low)) else {
            return false;
        };
        writer.write_byte(high * 16 + low);
    }
    true
}

/// Writes the number of bytes of the next quoted texts, and then the texts in a row.
pub fn write_texts(alloc: Global, reader: &mut Reader<'_>, writer: &mut Writer) {
    let mut bytes = Writer::new(alloc);
    for _ in 0..u64::MAX {
        let Some(quoted) = reader.next_quoted() else {
            break;
        };
        if !write_quoted(quoted, &mut bytes) {
            reader.fail();
        }
    }
    writer.append_counted(&bytes);
}
