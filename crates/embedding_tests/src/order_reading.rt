//! Orders, and the messages that encode them.

use core_types::{FuncType, Val, ValType};
use messages::ReadFault;
use orders::{Order, read_order};
use std::alloc::{AllocError, Global};
use testing::bytes_of;

// The expected result of reading fields.
enum Expected {
    End,
    Load(&'static [u8]),
    Link(u64),
    Register(u64, &'static str),
    Call(u64, &'static str, &'static [Val]),
    GetGlobal(u64, &'static str),
    NamedExport(u64, &'static str),
    SetFuel(u64),
    FuelLeft,
    Exports(u64),
    File(&'static str, &'static [u8]),
    RunScript(&'static [u8]),
    Define(&'static str, &'static str, &'static [ValType], &'static [ValType]),
    Begin(u64, u64, u64, u64),
    Quota(u64),
    QuotaLeft,
    ModuleImports(u64),
    ModuleExports(u64),
    Explain,
    NotSpelt,
}

// The kind of a message, its fields as hexadecimal numbers, and the expected result of reading them.
struct Row {
    name: &'static str,
    kind: u64,
    fields: &'static str,
    expected: Expected,
}

#[rattlefmt::skip]
static ROWS: [Row; 55] = [
    Row { name: "end", kind: 0, fields: "", expected: Expected::End },
    Row { name: "end with a field", kind: 0, fields: "00", expected: Expected::NotSpelt },
    Row { name: "load", kind: 1, fields: "00 61 73 6D", expected: Expected::Load(&[0, 0x61, 0x73, 0x6D]) },
    Row { name: "load of nothing", kind: 1, fields: "", expected: Expected::Load(&[]) },
    Row { name: "link", kind: 2, fields: "0201000000000000", expected: Expected::Link(258) },
    Row { name: "link of the greatest number", kind: 2, fields: "FFFFFFFFFFFFFFFF", expected: Expected::Link(0xFFFF_FFFF_FFFF_FFFF) },
    Row { name: "link of seven bytes", kind: 2, fields: "02010000000000", expected: Expected::NotSpelt },
    Row { name: "link of nine bytes", kind: 2, fields: "020100000000000000", expected: Expected::NotSpelt },
    Row { name: "register", kind: 3, fields: "0100000000000000 656E76", expected: Expected::Register(1, "env") },
    Row { name: "register under no name", kind: 3, fields: "0100000000000000", expected: Expected::Register(1, "") },
    Row { name: "register under what is no UTF-8", kind: 3, fields: "0100000000000000 FF", expected: Expected::NotSpelt },
    Row { name: "register with a short number", kind: 3, fields: "010000", expected: Expected::NotSpelt },
    Row { name: "call without arguments", kind: 4, fields: "0000000000000000 0100000000000000 66", expected: Expected::Call(0, "f", &[]) },
    Row {
        name: "call with an i32",
        kind: 4,
        fields: "0000000000000000 0100000000000000 66 7F00000000000000 FFFFFFFF00000000",
        expected: Expected::Call(0, "f", &[Val::I32(0xFFFF_FFFF)]),
    },
    Row {
        name: "call with an i32 of 33 bits",
        kind: 4,
        fields: "0000000000000000 0100000000000000 66 7F00000000000000 0000000001000000",
        expected: Expected::NotSpelt,
    },
    Row {
        name: "call with an i64",
        kind: 4,
        fields: "0000000000000000 0100000000000000 66 7E00000000000000 FFFFFFFFFFFFFFFF",
        expected: Expected::Call(0, "f", &[Val::I64(0xFFFF_FFFF_FFFF_FFFF)]),
    },
    Row {
        name: "call with null references",
        kind: 4,
        fields: "0000000000000000 0000000000000000 7000000000000000 0000000000000000 6F00000000000000 0000000000000000",
        expected: Expected::Call(0, "", &[Val::FuncRef(None), Val::ExternRef(None)]),
    },
    Row {
        name: "call with references",
        kind: 4,
        fields: "0000000000000000 0000000000000000 7000000000000000 0100000000000000 6F00000000000000 0000000001000000",
        expected: Expected::Call(0, "", &[Val::FuncRef(Some(0)), Val::ExternRef(Some(0xFFFF_FFFF))]),
    },
    Row {
        name: "call with a reference of 33 bits",
        kind: 4,
        fields: "0000000000000000 0000000000000000 6F00000000000000 0100000001000000",
        expected: Expected::NotSpelt,
    },
    Row {
        name: "call with a value of no type",
        kind: 4,
        fields: "0000000000000000 0000000000000000 7D00000000000000 0000000000000000",
        expected: Expected::NotSpelt,
    },
    Row { name: "call with half a value", kind: 4, fields: "0000000000000000 0000000000000000 7F00000000000000", expected: Expected::NotSpelt },
    Row { name: "call of a name that is too long", kind: 4, fields: "0000000000000000 0200000000000000 66", expected: Expected::NotSpelt },
    Row { name: "call of a name whose length is huge", kind: 4, fields: "0000000000000000 FFFFFFFFFFFFFFFF 66", expected: Expected::NotSpelt },
    Row { name: "get a global", kind: 5, fields: "0300000000000000 67", expected: Expected::GetGlobal(3, "g") },
    Row { name: "set the fuel", kind: 6, fields: "E803000000000000", expected: Expected::SetFuel(1000) },
    Row { name: "fuel left", kind: 7, fields: "", expected: Expected::FuelLeft },
    Row { name: "fuel left with a field", kind: 7, fields: "0000000000000000", expected: Expected::NotSpelt },
    Row { name: "exports", kind: 8, fields: "0000000000000000", expected: Expected::Exports(0) },
    Row { name: "file", kind: 9, fields: "0200000000000000 612E 0001", expected: Expected::File("a.", &[0, 1]) },
    Row { name: "file under half a character", kind: 9, fields: "0100000000000000 C3 A9", expected: Expected::NotSpelt },
    Row { name: "script", kind: 10, fields: "7B7D", expected: Expected::RunScript(b"{}") },
    Row {
        name: "define without types",
        kind: 11,
        fields: "0100000000000000 6D 0100000000000000 66 0000000000000000 0000000000000000",
        expected: Expected::Define("m", "f", &[], &[]),
    },
    Row {
        name: "define",
        kind: 11,
        fields: "0000000000000000 0000000000000000 0200000000000000 7F00000000000000 7E00000000000000 0100000000000000 6F00000000000000",
        expected: Expected::Define("", "", &[ValType::I32, ValType::I64], &[ValType::ExternRef]),
    },
    Row {
        name: "define with a funcref",
        kind: 11,
        fields: "0000000000000000 0000000000000000 0000000000000000 0100000000000000 7000000000000000",
        expected: Expected::Define("", "", &[], &[ValType::FuncRef]),
    },
    Row {
        name: "define with a type too few",
        kind: 11,
        fields: "0000000000000000 0000000000000000 0000000000000000 0200000000000000 7000000000000000",
        expected: Expected::NotSpelt,
    },
    Row {
        name: "define with more types than there are bytes",
        kind: 11,
        fields: "0000000000000000 0000000000000000 FFFFFFFFFFFFFFFF 7000000000000000",
        expected: Expected::NotSpelt,
    },
    Row {
        name: "define with a type too many",
        kind: 11,
        fields: "0000000000000000 0000000000000000 0000000000000000 0000000000000000 7000000000000000",
        expected: Expected::NotSpelt,
    },
    Row {
        name: "define with no type",
        kind: 11,
        fields: "0000000000000000 0000000000000000 0100000000000000 7B00000000000000 0000000000000000",
        expected: Expected::NotSpelt,
    },
    Row {
        name: "begin",
        kind: 12,
        fields: "E803000000000000 6400000000000000 1000000000000000 0A00000000000000",
        expected: Expected::Begin(1000, 100, 16, 10),
    },
    Row { name: "begin with a number too few", kind: 12, fields: "E803000000000000 6400000000000000 1000000000000000", expected: Expected::NotSpelt },
    Row {
        name: "begin with a number too many",
        kind: 12,
        fields: "E803000000000000 6400000000000000 1000000000000000 0A00000000000000 0000000000000000",
        expected: Expected::NotSpelt,
    },
    Row { name: "named export", kind: 13, fields: "0100000000000000 66", expected: Expected::NamedExport(1, "f") },
    Row { name: "named export with a short number", kind: 13, fields: "01000000", expected: Expected::NotSpelt },
    Row { name: "named export under what is no UTF-8", kind: 13, fields: "0100000000000000 FF", expected: Expected::NotSpelt },
    Row { name: "quota", kind: 14, fields: "0000010000000000", expected: Expected::Quota(65_536) },
    Row { name: "quota without a number", kind: 14, fields: "", expected: Expected::NotSpelt },
    Row { name: "quota left", kind: 15, fields: "", expected: Expected::QuotaLeft },
    Row { name: "quota left with a field", kind: 15, fields: "0000000000000000", expected: Expected::NotSpelt },
    Row { name: "imports of a module", kind: 16, fields: "0300000000000000", expected: Expected::ModuleImports(3) },
    Row { name: "imports of a module without a number", kind: 16, fields: "", expected: Expected::NotSpelt },
    Row { name: "exports of a module", kind: 17, fields: "0300000000000000", expected: Expected::ModuleExports(3) },
    Row { name: "explain", kind: 18, fields: "", expected: Expected::Explain },
    Row { name: "explain with a field", kind: 18, fields: "00", expected: Expected::NotSpelt },
    Row { name: "the first kind that is none", kind: 19, fields: "", expected: Expected::NotSpelt },
    Row { name: "the greatest kind", kind: 0xFFFF_FFFF_FFFF_FFFF, fields: "", expected: Expected::NotSpelt },
];

fn has_types(ty: &FuncType, params: &[ValType], results: &[ValType]) -> bool {
    ty.params.as_slice() == params && ty.results.as_slice() == results
}

fn is_expected(order: &Order<'_>, expected: &Expected) -> bool {
    match (order, expected) {
        (Order::End, Expected::End)
        | (Order::FuelLeft, Expected::FuelLeft)
        | (Order::QuotaLeft, Expected::QuotaLeft)
        | (Order::Explain, Expected::Explain) => true,
        (Order::Load(bytes), Expected::Load(wanted))
        | (Order::RunScript(bytes), Expected::RunScript(wanted)) => bytes == wanted,
        (Order::Link(number), Expected::Link(wanted))
        | (Order::SetFuel(number), Expected::SetFuel(wanted))
        | (Order::Quota(number), Expected::Quota(wanted))
        | (Order::Exports(number), Expected::Exports(wanted))
        | (Order::ModuleImports(number), Expected::ModuleImports(wanted))
        | (Order::ModuleExports(number), Expected::ModuleExports(wanted)) => number == wanted,
        (Order::Register(number, name), Expected::Register(instance, wanted))
        | (Order::GetGlobal(number, name), Expected::GetGlobal(instance, wanted))
        | (Order::NamedExport(number, name), Expected::NamedExport(instance, wanted)) => {
            number == instance && name == wanted
        }
        (Order::Call(number, name, args), Expected::Call(instance, wanted, values)) => {
            number == instance && name == wanted && args.as_slice() == *values
        }
        (Order::File(name, bytes), Expected::File(wanted, contents)) => {
            name == wanted && bytes == contents
        }
        (Order::Define(first, second, ty), Expected::Define(module, name, params, results)) => {
            first == module && second == name && has_types(ty, params, results)
        }
        (Order::Begin(a, b, c, d), Expected::Begin(fuel, depth, pages, entries)) => {
            a == fuel && b == depth && c == pages && d == entries
        }
        _ => false,
    }
}

// Returns whether a row's fields are read as expected.
fn is_read(alloc: Global, row: &Row) -> Result<bool, AllocError> {
    let fields = bytes_of(alloc, row.fields)?;
    Ok(match read_order(alloc, row.kind, fields.as_slice()) {
        Ok(order) => is_expected(&order, &row.expected),
        Err(ReadFault::NotSpelt) => matches!(row.expected, Expected::NotSpelt),
        Err(ReadFault::OutOfMemory) => false,
    })
}

#[test]
fn orders_are_read(rt: HostRuntime) {
    for row in &ROWS {
        assert!(rt; is_read(rt.alloc(), row) == Ok(true), "{}", row.name);
    }
}
