//! Modules that are loaded in one reading, and bytes that are left to the decoder and the validator.

use loading::load;
use std::alloc::{AllocError, Global};
use testing::bytes_of;

// The magic number, the version, a type from nothing to nothing, and a function of it.
const FRONT: &str = "0061736d 01000000 01 04 01 60 00 00 03 02 01 00";

// Each row has a name, the other sections in hexadecimal, and whether the module is loaded in one reading.
const ROWS: &str = "\
an empty body | 0a 04 01 02 00 0b | loaded
a body without an end | 0a 04 01 02 00 01 | left
a body without bytes | 0a 03 01 01 00 | left
an opcode that is none | 0a 05 01 03 00 06 0b | left
an unsupported opcode | 0a 06 01 04 00 43 00 0b | left
an operation without its immediate | 0a 05 01 03 00 20 0b | left
an else without an if | 0a 05 01 03 00 05 0b | left
a body that ends twice | 0a 05 01 03 00 0b 0b | left
a block without an end | 0a 06 01 04 00 02 40 0b | left
an operand that is not there | 0a 05 01 03 00 1a 0b | left
no body |  | left
two bodies | 0a 07 02 02 00 0b 02 00 0b | left
50,000 locals | 0a 08 01 06 01 d0 86 03 7f 0b | loaded
50,001 locals | 0a 08 01 06 01 d1 86 03 7f 0b | left
a data segment without a data count | 0a 04 01 02 00 0b 0b 03 01 01 00 | loaded
a data segment named without a data count | 0a 07 01 05 00 fc 09 00 0b 0b 03 01 01 00 | left
a data segment named with a data count | 0c 01 01 0a 07 01 05 00 fc 09 00 0b 0b 03 01 01 00 | loaded
a data count of two for one segment | 0c 01 02 0a 04 01 02 00 0b 0b 03 01 01 00 | left
a byte behind the last section | 0a 04 01 02 00 0b ff | left
a custom section behind the code | 0a 04 01 02 00 0b 00 02 01 61 | loaded";

// Returns whether a module with these other sections is loaded in one reading.
fn is_loaded(alloc: Global, sections: &str) -> Result<bool, AllocError> {
    let mut bytes = bytes_of(alloc, FRONT)?;
    bytes.extend_from_slice(bytes_of(alloc, sections)?.as_slice())?;
    Ok(load(alloc, &bytes)?.is_some())
}

// Returns whether a row's word states how its module is loaded.
fn agrees(alloc: Global, row: &str) -> bool {
    let (sections, word) = row.rsplit_once(" | ").unwrap_or((row, ""));
    is_loaded(alloc, sections) == Ok(word == "loaded")
}

#[test]
fn modules_are_loaded_or_left(rt: HostRuntime) {
    assert!(rt; ROWS.lines().count() == 20, "20 rows");
    for row in ROWS.lines() {
        let (name, others) = row.split_once(" | ").unwrap_or((row, ""));
        assert!(rt; agrees(rt.alloc(), others), "{name}");
    }
}
