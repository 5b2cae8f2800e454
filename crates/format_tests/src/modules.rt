//! A module that is cut short, and put together differently.

use crate::decoding::{Answer, Row, agrees, answer_to};

// One function, which adds its two parameters and is exported under the name `add`.
static ADDER: [u8; 41] = [
    0x00, 0x61, 0x73, 0x6D, 0x01, 0x00, 0x00, 0x00, 0x01, 0x07, 0x01, 0x60, 0x02, 0x7F, 0x7F, 0x01,
    0x7F, 0x03, 0x02, 0x01, 0x00, 0x07, 0x07, 0x01, 0x03, 0x61, 0x64, 0x64, 0x00, 0x00, 0x0A, 0x09,
    0x01, 0x07, 0x00, 0x20, 0x00, 0x20, 0x01, 0x6A, 0x0B,
];

#[test]
fn answers_each_front(rt: HostRuntime) {
    for size in 0..=ADDER.len() {
        let answer = match size {
            8 | 17 | 41 => Answer::Decoded,
            _ => Answer::Malformed,
        };
        assert!(rt;
            answer_to(rt.alloc(), &ADDER[..size]) == answer,
            "{size} bytes"
        );
    }
}

// The sections of that module, which the rows combine: its types, functions, exports and code are `0107 01 60027F7F017F`,
// `0302 01 00`, `0707 01 036164640000` and `0A09 01 0700200020016A0B`.
#[rattlefmt::skip]
static ROWS: [Row; 16] = [
    Row {
        name: "a custom section before all others",
        sections: "00020161 01070160027F7F017F 03020100 070701036164640000 0A09010700200020016A0B",
        answer: Answer::Decoded,
    },
    Row {
        name: "custom sections between others",
        sections: "01070160027F7F017F 00020161 00020161 03020100 070701036164640000 0A09010700200020016A0B",
        answer: Answer::Decoded,
    },
    Row {
        name: "a custom section at the end",
        sections: "01070160027F7F017F 03020100 070701036164640000 0A09010700200020016A0B 00020161",
        answer: Answer::Decoded,
    },
    Row { name: "a custom section whose name is no text", sections: "01070160027F7F017F 000201FF", answer: Answer::Malformed },
    Row { name: "a size of two bytes", sections: "018700 0160027F7F017F", answer: Answer::Decoded },
    Row { name: "a size of six bytes", sections: "01878080808000 0160027F7F017F", answer: Answer::Malformed },
    Row { name: "a size of more than 32 bits", sections: "018780808010 0160027F7F017F", answer: Answer::Malformed },
    Row { name: "a size that is too large for the types", sections: "0108 0160027F7F017F 00", answer: Answer::Malformed },
    Row {
        name: "a size that is too small for the code",
        sections: "01070160027F7F017F 03020100 070701036164640000 0A08 010700200020016A0B",
        answer: Answer::Malformed,
    },
    Row { name: "a count past the section", sections: "0105FFFFFFFF0F", answer: Answer::Malformed },
    Row { name: "functions before types", sections: "03020100 01070160027F7F017F 070701036164640000 0A09010700200020016A0B", answer: Answer::Malformed },
    Row {
        name: "types twice",
        sections: "01070160027F7F017F 01070160027F7F017F 03020100 070701036164640000 0A09010700200020016A0B",
        answer: Answer::Malformed,
    },
    Row { name: "an export name that is no text", sections: "01070160027F7F017F 03020100 07050101FF0000 0A09010700200020016A0B", answer: Answer::Malformed },
    Row { name: "two functions and one body", sections: "01070160027F7F017F 0303020000 070701036164640000 0A09010700200020016A0B", answer: Answer::Malformed },
    Row { name: "a function without a body", sections: "01070160027F7F017F 03020100", answer: Answer::Malformed },
    Row { name: "a body without a function", sections: "01070160027F7F017F 0A09010700200020016A0B", answer: Answer::Malformed },
];

#[test]
fn answers_modules(rt: HostRuntime) {
    for row in &ROWS {
        assert!(rt; agrees(rt.alloc(), row) == Ok(true), "{}", row.name);
    }
}
