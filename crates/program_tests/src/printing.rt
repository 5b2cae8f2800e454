//! The lines of each outcome and each refusal.

use core_types::{Exhaustion, Items, Trap, Val};
use embed::{Outcome, Place, Refusal};
use program::{Output, print_end, print_fault};
use std::alloc::{AllocError, Global};
use subcommands::{CallEnd, Fault};

// An outcome, with its values in a form that a table of rows can contain.
#[derive(Clone, Copy)]
enum Ending {
    Values(&'static [Val]),
    Trap(Trap),
    Exhausted(Exhaustion),
}

// How a call ends with 5 units of fuel left, the lines that are printed, and the exit status.
struct Row {
    ending: Ending,
    lines: &'static str,
    status: u8,
}

#[rattlefmt::skip]
static OUTCOMES: [Row; 14] = [
    Row { ending: Ending::Values(&[]), lines: "fuel left 5\n", status: 0 },
    Row {
        ending: Ending::Values(&[
            Val::I64(7),
            Val::FuncRef(None),
            Val::FuncRef(Some(4)),
            Val::ExternRef(None),
            Val::ExternRef(Some(0)),
        ]),
        lines: "i64 7\nfuncref null\nfuncref 4\nexternref null\nexternref 0\nfuel left 5\n",
        status: 0,
    },
    Row { ending: Ending::Trap(Trap::Unreachable), lines: "trap: unreachable\nfuel left 5\n", status: 1 },
    Row {
        ending: Ending::Trap(Trap::DivideByZero),
        lines: "trap: integer divide by zero\nfuel left 5\n",
        status: 1,
    },
    Row { ending: Ending::Trap(Trap::IntegerOverflow), lines: "trap: integer overflow\nfuel left 5\n", status: 1 },
    Row {
        ending: Ending::Trap(Trap::MemoryBounds),
        lines: "trap: out of bounds memory access\nfuel left 5\n",
        status: 1,
    },
    Row {
        ending: Ending::Trap(Trap::TableBounds),
        lines: "trap: out of bounds table access\nfuel left 5\n",
        status: 1,
    },
    Row { ending: Ending::Trap(Trap::UndefinedElement), lines: "trap: undefined element\nfuel left 5\n", status: 1 },
    Row {
        ending: Ending::Trap(Trap::UninitializedElement),
        lines: "trap: uninitialized element\nfuel left 5\n",
        status: 1,
    },
    Row {
        ending: Ending::Trap(Trap::IndirectType),
        lines: "trap: indirect call type mismatch\nfuel left 5\n",
        status: 1,
    },
    Row { ending: Ending::Trap(Trap::Host(3)), lines: "trap: host trap\nfuel left 5\n", status: 1 },
    Row { ending: Ending::Exhausted(Exhaustion::Fuel), lines: "exhausted: fuel\nfuel left 5\n", status: 6 },
    Row { ending: Ending::Exhausted(Exhaustion::Depth), lines: "exhausted: depth\nfuel left 5\n", status: 6 },
    Row { ending: Ending::Exhausted(Exhaustion::Memory), lines: "exhausted: memory\nfuel left 5\n", status: 6 },
];

fn outcome_of(alloc: Global, ending: Ending) -> Result<Outcome, AllocError> {
    match ending {
        Ending::Values(values) => Ok(Outcome::Values(Items::from_vec(Vec::from_slice(
            alloc, values,
        )?))),
        Ending::Trap(trap) => Ok(Outcome::Trap(trap)),
        Ending::Exhausted(exhaustion) => Ok(Outcome::Exhausted(exhaustion)),
    }
}

fn is_printed(alloc: Global, row: &Row) -> Result<bool, AllocError> {
    let end = CallEnd {
        outcome: outcome_of(alloc, row.ending)?,
        fuel_left: 5,
    };
    let mut out = Output::new(Vec::new(alloc));
    let status = print_end(&mut out, &end);
    Ok(status == row.status && out.writer().as_slice() == row.lines.as_bytes())
}

#[test]
fn each_outcome_has_its_lines(rt: HostRuntime) {
    for row in &OUTCOMES {
        assert!(rt; is_printed(rt.alloc(), row) == Ok(true), "{:?}", row.lines);
    }
}

// A refusal, its line, and the exit status.
struct RefusalRow {
    refusal: Refusal,
    line: &'static str,
    status: u8,
}

#[rattlefmt::skip]
static REFUSALS: [RefusalRow; 13] = [
    RefusalRow { refusal: Refusal::Malformed(7), line: "refused 1 Malformed\n", status: 5 },
    RefusalRow { refusal: Refusal::Unsupported(39), line: "refused 2 Unsupported\n", status: 5 },
    RefusalRow { refusal: Refusal::Limit, line: "refused 3 Limit\n", status: 5 },
    RefusalRow { refusal: Refusal::Invalid(Place::Func(0)), line: "refused 4 Invalid\n", status: 5 },
    RefusalRow { refusal: Refusal::UnknownModule, line: "refused 5 UnknownModule\n", status: 5 },
    RefusalRow { refusal: Refusal::UnknownImport(0), line: "refused 6 UnknownImport\n", status: 5 },
    RefusalRow { refusal: Refusal::IncompatibleImport(1), line: "refused 7 IncompatibleImport\n", status: 5 },
    RefusalRow { refusal: Refusal::UnknownInstance, line: "refused 8 UnknownInstance\n", status: 5 },
    RefusalRow { refusal: Refusal::UnknownExport, line: "refused 9 UnknownExport\n", status: 2 },
    RefusalRow { refusal: Refusal::WrongKind, line: "refused 10 WrongKind\n", status: 2 },
    RefusalRow { refusal: Refusal::BadArguments, line: "refused 11 BadArguments\n", status: 2 },
    RefusalRow { refusal: Refusal::NameTaken, line: "refused 12 NameTaken\n", status: 5 },
    RefusalRow { refusal: Refusal::OutOfMemory, line: "refused 13 OutOfMemory\n", status: 6 },
];

fn is_told(alloc: Global, row: &RefusalRow) -> bool {
    let mut err = Output::new(Vec::new(alloc));
    let status = print_fault(&mut err, &Fault::Refused(row.refusal));
    status == row.status && err.writer().as_slice() == row.line.as_bytes()
}

#[test]
fn refusals_have_their_numbers(rt: HostRuntime) {
    for row in &REFUSALS {
        assert!(rt; is_told(rt.alloc(), row), "{:?}", row.line);
    }
}
