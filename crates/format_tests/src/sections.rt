//! Sections, their parts, and bytes that are none: the result, and what is decoded.

use crate::decoding::{Answer, Row, agrees, answer_to, answers_so, join, with_header};
use crate::printing::text_of;
use binary::decode;
use std::alloc::{AllocError, Global};
use testing::bytes_of;

#[rattlefmt::skip]
static ROWS: [Row; 39] = [
    Row { name: "a table", sections: "04050170010304", answer: Answer::Decoded },
    Row { name: "a table of i32", sections: "0404017F0003", answer: Answer::Malformed },
    Row { name: "a memory", sections: "0503010001", answer: Answer::Decoded },
    Row { name: "limits of another form", sections: "0503010201", answer: Answer::Malformed },
    Row { name: "a global", sections: "0606017F0141010B", answer: Answer::Decoded },
    Row { name: "a global of f32", sections: "0606017D0041010B", answer: Answer::Unsupported },
    Row { name: "another mutability", sections: "0606017F0241010B", answer: Answer::Malformed },
    Row { name: "a start", sections: "080105", answer: Answer::Decoded },
    Row { name: "two starts", sections: "08020505", answer: Answer::Malformed },
    Row { name: "an element kind", sections: "09050101010100", answer: Answer::Malformed },
    Row { name: "an element form", sections: "090401080000", answer: Answer::Malformed },
    Row { name: "a data form", sections: "0B0401030100", answer: Answer::Malformed },
    Row { name: "an export kind", sections: "07050101610400", answer: Answer::Malformed },
    Row { name: "an import kind", sections: "020701016101620400", answer: Answer::Malformed },
    Row { name: "a right data count", sections: "0C0101 0B03010100", answer: Answer::Decoded },
    Row { name: "a wrong data count", sections: "0C0102 0B03010100", answer: Answer::Malformed },
    Row { name: "a data count without data", sections: "0C0101", answer: Answer::Malformed },
    Row { name: "a data count of none", sections: "0C0100", answer: Answer::Decoded },
    Row { name: "no data count", sections: "0B03010100", answer: Answer::Decoded },
    Row { name: "memory.init with a data count", sections: "010401600000 03020100 0C0101 0A08010600FC0800000B 0B03010100", answer: Answer::Decoded },
    Row { name: "memory.init without one", sections: "010401600000 03020100 0A08010600FC0800000B 0B03010100", answer: Answer::Malformed },
    Row { name: "data.drop without one", sections: "010401600000 03020100 0A07010500FC09000B 0B03010100", answer: Answer::Malformed },
    Row { name: "a data count behind the code", sections: "010401600000 03020100 0A05010300010B 0C0101 0B03010100", answer: Answer::Malformed },
    Row { name: "another memory index", sections: "010401600000 03020100 0A060104003F010B", answer: Answer::Malformed },
    Row { name: "another memory index to fill", sections: "010401600000 03020100 0A07010500FC0B010B", answer: Answer::Malformed },
    Row { name: "another memory index to copy to", sections: "010401600000 03020100 0A08010600FC0A00010B", answer: Answer::Malformed },
    Row { name: "another memory index to init", sections: "010401600000 03020100 0C0101 0A08010600FC0800010B 0B03010100", answer: Answer::Malformed },
    Row { name: "nested blocks", sections: "010401600000 03020100 0A0E010C00024003400440050B0B0B0B", answer: Answer::Decoded },
    Row { name: "an else without if", sections: "010401600000 03020100 0A080106000240050B0B", answer: Answer::Malformed },
    Row { name: "two elses", sections: "010401600000 03020100 0A09010700044005050B0B", answer: Answer::Malformed },
    Row { name: "an else outside", sections: "010401600000 03020100 0A05010300050B", answer: Answer::Malformed },
    Row { name: "a block without end", sections: "010401600000 03020100 0A0601040002400B", answer: Answer::Malformed },
    Row { name: "an end too many", sections: "010401600000 03020100 0A050103000B0B", answer: Answer::Malformed },
    Row { name: "a negative block type", sections: "010401600000 03020100 0A0801060002FF7F0B0B", answer: Answer::Malformed },
    Row { name: "a block type of f32", sections: "010401600000 03020100 0A07010500027D0B0B", answer: Answer::Unsupported },
    Row { name: "a block type past 32 bits", sections: "010401600000 03020100 0A0B01090002FFFFFFFF1F0B0B", answer: Answer::Malformed },
    Row { name: "a constant past 32 bits", sections: "010401600000 03020100 0A0A01080041FFFFFFFF0F0B", answer: Answer::Malformed },
    Row { name: "an expression without end", sections: "0605017F004101", answer: Answer::Malformed },
    Row { name: "an import after a function", sections: "030100 020100", answer: Answer::Malformed },
];

#[test]
fn answers_sections(rt: HostRuntime) {
    for row in &ROWS {
        assert!(rt; agrees(rt.alloc(), row) == Ok(true), "{}", row.name);
    }
}

// The only item of a section with this id, and its text.
pub struct Item {
    pub id: u8,
    pub bytes: &'static str,
    pub text: &'static str,
}

#[rattlefmt::skip]
pub static ITEMS: [Item; 21] = [
    Item { id: 2, bytes: "0161 0162 0005", text: "(import \"a\" \"b\" (func (type 5)))" },
    Item { id: 2, bytes: "0161 0162 01700003", text: "(import \"a\" \"b\" (table 3 funcref))" },
    Item { id: 2, bytes: "0161 0162 016F010304", text: "(import \"a\" \"b\" (table 3 4 externref))" },
    Item { id: 2, bytes: "0161 0162 02010102", text: "(import \"a\" \"b\" (memory 1 2))" },
    Item { id: 2, bytes: "0161 0162 037F00", text: "(import \"a\" \"b\" (global i32))" },
    Item { id: 2, bytes: "0161 0162 037E01", text: "(import \"a\" \"b\" (global (mut i64)))" },
    Item { id: 7, bytes: "0161 0005", text: "(export \"a\" (func 5))" },
    Item { id: 7, bytes: "0161 0105", text: "(export \"a\" (table 5))" },
    Item { id: 7, bytes: "0161 0205", text: "(export \"a\" (memory 5))" },
    Item { id: 7, bytes: "0161 0305", text: "(export \"a\" (global 5))" },
    Item { id: 9, bytes: "00 41010B 020203", text: "(elem (table 0) (offset i32.const 1) func 2 3)" },
    Item { id: 9, bytes: "01 00 020203", text: "(elem func 2 3)" },
    Item { id: 9, bytes: "02 04 41010B 00 020203", text: "(elem (table 4) (offset i32.const 1) func 2 3)" },
    Item { id: 9, bytes: "03 00 020203", text: "(elem declare func 2 3)" },
    Item { id: 9, bytes: "04 41010B 02 D2020B D0700B", text: "(elem (table 0) (offset i32.const 1) funcref (item ref.func 2) (item ref.null func))" },
    Item { id: 9, bytes: "05 6F 01 D06F0B", text: "(elem externref (item ref.null extern))" },
    Item { id: 9, bytes: "06 04 41010B 70 02 D2020B D0700B", text: "(elem (table 4) (offset i32.const 1) funcref (item ref.func 2) (item ref.null func))" },
    Item { id: 9, bytes: "07 6F 01 D06F0B", text: "(elem declare externref (item ref.null extern))" },
    Item { id: 11, bytes: "00 41010B 020506", text: "(data (memory 0) (offset i32.const 1) \"\\05\\06\")" },
    Item { id: 11, bytes: "01 020506", text: "(data \"\\05\\06\")" },
    Item { id: 11, bytes: "02 04 41010B 020506", text: "(data (memory 4) (offset i32.const 1) \"\\05\\06\")" },
];

/// Returns a section whose content is a vector of one item.
pub fn section_of(alloc: Global, item: &Item) -> Result<Vec<u8>, AllocError> {
    let content = bytes_of(alloc, item.bytes)?;
    let size = content.len().min(100) as u8;
    join(alloc, &[&[item.id, size + 1, 0x01], &content])
}

// Returns the text of the module that these bytes encode, or an empty text if they encode none.
fn text_behind(alloc: Global, bytes: &[u8]) -> Result<String, AllocError> {
    match decode(alloc, bytes) {
        Ok(decoded) => text_of(alloc, &decoded),
        Err(_) => Ok(String::new(alloc)),
    }
}

// Returns whether the bytes of an item are decoded to its text.
fn decodes_to_text(alloc: Global, item: &Item) -> Result<bool, AllocError> {
    let bytes = with_header(alloc, &section_of(alloc, item)?)?;
    Ok(text_behind(alloc, &bytes)?.as_str().trim() == item.text)
}

#[test]
fn decodes_items(rt: HostRuntime) {
    for item in &ITEMS {
        assert!(rt;
            decodes_to_text(rt.alloc(), item) == Ok(true),
            "{} {}",
            item.id,
            item.bytes
        );
    }
}

// A function of two parameters under an exported name, and no section at all: bytes and text.
#[rattlefmt::skip]
static MODULES: [(&str, &str); 2] = [
    (
        "010701 60027F7F017F 03020100 070701 036164640000 0A0901 0700200020016A0B",
        "(type (func (param i32 i32) (result i32))) (func (type 0) local.get 0 local.get 1 i32.add) (export \"add\" (func 0))",
    ),
    ("", ""),
];

// Returns whether sections are decoded to a module of this text.
fn decodes_whole(alloc: Global, sections: &str, text: &str) -> Result<bool, AllocError> {
    let bytes = with_header(alloc, &bytes_of(alloc, sections)?)?;
    Ok(
        answer_to(alloc, &bytes) == Answer::Decoded
            && text_behind(alloc, &bytes)?.as_str().trim() == text,
    )
}

#[test]
fn decodes_modules(rt: HostRuntime) {
    for (sections, text) in &MODULES {
        assert!(rt;
            decodes_whole(rt.alloc(), sections, text) == Ok(true),
            "{text}"
        );
    }
}

// A section of one type.
static TYPES: [u8; 9] = [0x01, 0x07, 0x01, 0x60, 0x02, 0x7F, 0x7F, 0x01, 0x7F];

// Returns whether a section with this id, which no section has, is refused after the types.
fn refuses_id(alloc: Global, id: u8) -> Result<bool, AllocError> {
    let sections = join(alloc, &[&TYPES, &[id, 0x01, 0x00]])?;
    answers_so(alloc, &sections, Answer::Malformed)
}

#[test]
fn refuses_other_sections(rt: HostRuntime) {
    for id in 13..=255 {
        assert!(rt; refuses_id(rt.alloc(), id) == Ok(true), "section {id}");
    }
}

// Returns whether a parameter of the type with this code has the result that the format requires.
fn knows_type(alloc: Global, code: u8) -> Result<bool, AllocError> {
    let answer = match code {
        0x6F | 0x70 | 0x7E | 0x7F => Answer::Decoded,
        0x7B..=0x7D => Answer::Unsupported,
        _ => Answer::Malformed,
    };
    answers_so(alloc, &[0x01, 0x05, 0x01, 0x60, 0x01, code, 0x00], answer)
}

#[test]
fn refuses_other_types(rt: HostRuntime) {
    for code in 0..=255 {
        assert!(rt;
            knows_type(rt.alloc(), code) == Ok(true),
            "value type {code}"
        );
    }
}
