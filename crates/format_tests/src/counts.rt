//! Vectors that declare 2^32 - 1 items and contain none.

use crate::decoding::{Answer, Row, agrees};

#[rattlefmt::skip]
static SECTIONS: [Row; 12] = [
    Row { name: "types", sections: "0105FFFFFFFF0F", answer: Answer::Malformed },
    Row { name: "imports", sections: "0205FFFFFFFF0F", answer: Answer::Malformed },
    Row { name: "functions", sections: "0305FFFFFFFF0F", answer: Answer::Malformed },
    Row { name: "tables", sections: "0405FFFFFFFF0F", answer: Answer::Malformed },
    Row { name: "memories", sections: "0505FFFFFFFF0F", answer: Answer::Malformed },
    Row { name: "globals", sections: "0605FFFFFFFF0F", answer: Answer::Malformed },
    Row { name: "exports", sections: "0705FFFFFFFF0F", answer: Answer::Malformed },
    Row { name: "element segments", sections: "0905FFFFFFFF0F", answer: Answer::Malformed },
    Row { name: "data count", sections: "0C05FFFFFFFF0F", answer: Answer::Malformed },
    Row { name: "code", sections: "0A05FFFFFFFF0F", answer: Answer::Malformed },
    Row { name: "data segments", sections: "0B05FFFFFFFF0F", answer: Answer::Malformed },
    Row { name: "bytes of a custom section's name", sections: "0005FFFFFFFF0F", answer: Answer::Malformed },
];

#[test]
fn refuses_counts_of_sections(rt: HostRuntime) {
    for row in &SECTIONS {
        assert!(rt; agrees(rt.alloc(), row) == Ok(true), "{}", row.name);
    }
}

#[rattlefmt::skip]
static VECTORS: [Row; 16] = [
    Row { name: "parameters", sections: "01070160FFFFFFFF0F", answer: Answer::Malformed },
    Row { name: "results", sections: "0108016000FFFFFFFF0F", answer: Answer::Malformed },
    Row { name: "bytes of an import's module name", sections: "020601FFFFFFFF0F", answer: Answer::Malformed },
    Row { name: "bytes of an import's name", sections: "0208010161FFFFFFFF0F", answer: Answer::Malformed },
    Row { name: "bytes of an export's name", sections: "070601FFFFFFFF0F", answer: Answer::Malformed },
    Row { name: "functions of an active segment", sections: "090A010041000BFFFFFFFF0F", answer: Answer::Malformed },
    Row { name: "functions of a passive segment", sections: "0908010100FFFFFFFF0F", answer: Answer::Malformed },
    Row { name: "functions of a segment with a table", sections: "090C01020041000B00FFFFFFFF0F", answer: Answer::Malformed },
    Row { name: "functions of a declarative segment", sections: "0908010300FFFFFFFF0F", answer: Answer::Malformed },
    Row { name: "expressions of an active segment", sections: "090A010441000BFFFFFFFF0F", answer: Answer::Malformed },
    Row { name: "expressions of a passive segment", sections: "0908010570FFFFFFFF0F", answer: Answer::Malformed },
    Row { name: "groups of locals", sections: "010401600000 03020100 0A070105FFFFFFFF0F", answer: Answer::Malformed },
    Row { name: "labels", sections: "010401600000 03020100 0A090107000EFFFFFFFF0F", answer: Answer::Malformed },
    Row { name: "types of a select", sections: "010401600000 03020100 0A090107001CFFFFFFFF0F", answer: Answer::Malformed },
    Row { name: "bytes of an active segment", sections: "0B0A010041000BFFFFFFFF0F", answer: Answer::Malformed },
    Row { name: "bytes of a passive segment", sections: "0B070101FFFFFFFF0F", answer: Answer::Malformed },
];

#[test]
fn refuses_counts_in_sections(rt: HostRuntime) {
    for row in &VECTORS {
        assert!(rt; agrees(rt.alloc(), row) == Ok(true), "{}", row.name);
    }
}
