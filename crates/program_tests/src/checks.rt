//! Checks of modules, including deeply nested ones and ones at a limit.

use crate::runs::{Ending, ends_so_on};
use std::alloc::{AllocError, Global};

const VALID: Ending<'static> = Ending::Out("valid\n", 0);

const INVALID: Ending<'static> = Ending::Err("refused 4 Invalid\n", 5);

const MALFORMED: Ending<'static> = Ending::Err("refused 1 Malformed\n", 5);

const LIMIT: Ending<'static> = Ending::Err("refused 3 Limit\n", 5);

// A name, the sections of a module, and what a check of it prints.
struct Check {
    name: &'static str,
    sections: &'static str,
    ending: Ending<'static>,
}

#[rattlefmt::skip]
static CHECKS: [Check; 14] = [
    Check {
        name: "unknown_operand_of_i32.add",
        sections: "010401600000 03020100 0A07010500006A1A0B",
        ending: VALID,
    },
    Check {
        name: "i64_operand_of_i32.add_after_unreachable",
        sections: "010401600000 03020100 0A090107000042006A1A0B",
        ending: INVALID,
    },
    Check {
        name: "i32.const_gives_no_i64",
        sections: "010401600000 03020100 0A080106004100501A0B",
        ending: INVALID,
    },
    Check {
        name: "imported_tables_come_first",
        sections: "01090260000060017F017E 020901016D0169016F0001 03020100 040401700001 0A0901070041001100010B",
        ending: VALID,
    },
    Check {
        name: "elem.drop_of_a_segment",
        sections: "010401600000 03020100 09050101000100 0A07010500FC0D000B",
        ending: VALID,
    },
    Check {
        name: "data.drop_of_a_segment",
        sections: "010401600000 03020100 0C0101 0A07010500FC09000B 0B03010100",
        ending: VALID,
    },
    Check {
        name: "result_of_a_loop_is_dropped",
        sections: "010401600000 03020100 0A0B010900037F0C000B1A010B",
        ending: VALID,
    },
    Check {
        name: "undeclared_ref.func",
        sections: "010401600000 03020100 0A07010500D2001A0B",
        ending: INVALID,
    },
    Check {
        name: "ref.func_that_a_declarative_segment_names",
        sections: "010401600000 03020100 09050103000100 0A07010500D2001A0B",
        ending: VALID,
    },
    Check {
        name: "size_in_two_bytes",
        sections: "0187000160027F7F017F 03020100 070701036164640000 0A09010700200020016A0B",
        ending: VALID,
    },
    Check {
        name: "size_in_six_bytes",
        sections: "018780808080000160027F7F017F 03020100 070701036164640000 0A09010700200020016A0B",
        ending: MALFORMED,
    },
    Check {
        name: "size_with_unused_bits",
        sections: "0187808080100160027F7F017F 03020100 070701036164640000 0A09010700200020016A0B",
        ending: MALFORMED,
    },
    Check {
        name: "two_exports_named_a",
        sections: "010401600000 03020100 0709020161000001610000 0A040102000B",
        ending: INVALID,
    },
    Check {
        name: "exports_of_the_empty_name_and_of_another",
        sections: "010401600000 03020100 07080200000001610000 0A040102000B",
        ending: VALID,
    },
];

fn agrees(alloc: Global, check: &Check) -> Result<bool, AllocError> {
    ends_so_on(alloc, "check module.wasm", check.sections, check.ending)
}

#[test]
fn checks_end_with_an_answer(rt: HostRuntime) {
    for check in &CHECKS {
        assert!(rt; agrees(rt.alloc(), check) == Ok(true), "{}", check.name);
    }
}

// Returns the sections of a module with one function, which has 1,000 nested blocks.
fn deep_blocks(alloc: Global) -> Result<String, AllocError> {
    let blocks = "0240".repeat(alloc, 1000)?;
    let ends = "0B".repeat(alloc, 1001)?;
    format!(in alloc; "010401600000 03020100 0ABD1701BA1700 {blocks} {ends}")
}

fn deep_blocks_are_valid(alloc: Global) -> Result<bool, AllocError> {
    let sections = deep_blocks(alloc)?;
    ends_so_on(alloc, "check module.wasm", sections.as_str(), VALID)
}

#[test]
fn nested_blocks_are_valid(rt: HostRuntime) {
    assert!(rt; deep_blocks_are_valid(rt.alloc()) == Ok(true));
}

// The start of a section with one function type, the number of the type's parameters, and what a check prints.
struct Parameters {
    front: &'static str,
    count: usize,
    ending: Ending<'static>,
}

#[rattlefmt::skip]
static PARAMETERS: [Parameters; 2] = [
    Parameters { front: "01ED07 01 60 E807", count: 1000, ending: VALID },
    Parameters { front: "01EE07 01 60 E907", count: 1001, ending: LIMIT },
];

// Returns the section of a type with `count` parameters of type i32, after this start.
fn type_section(alloc: Global, front: &str, count: usize) -> Result<String, AllocError> {
    let params = "7F".repeat(alloc, count)?;
    format!(in alloc; "{front} {params} 00")
}

fn is_limited(alloc: Global, parameters: &Parameters) -> Result<bool, AllocError> {
    let sections = type_section(alloc, parameters.front, parameters.count)?;
    ends_so_on(
        alloc,
        "check module.wasm",
        sections.as_str(),
        parameters.ending,
    )
}

#[test]
fn types_of_too_many_parameters_pass_a_limit(rt: HostRuntime) {
    for parameters in &PARAMETERS {
        let count = parameters.count;
        assert!(rt;
            is_limited(rt.alloc(), parameters) == Ok(true),
            "{count} parameters"
        );
    }
}
