//! Answers, and the messages that encode them.

use answers::{Answer, Cause, push_answer};
use core_types::{
    Exhaustion, ExternType, GlobalType, Limits, Mutability, RefType, TableType, Trap, Val, ValType,
};
use embed::{ExportType, Exports, ImportType, Imports, NewFault, Place, Refusal, Reply, func_type};
use scripts::{Report, ScriptFault};
use std::alloc::{AllocError, Global};
use testing::bytes_of;

// An answer, before memory is allocated for it.
enum Said {
    Done,
    Loaded(u64),
    Linked(u64),
    Values(&'static [Val]),
    Trap(Trap),
    Exhausted(Exhaustion),
    Refused(Refusal),
    SetDone,
    Global(Val),
    FuelLeft(u64),
    QuotaLeft(u64),
    NameTaken,
    HostFuncRef,
    BadCommand(u64),
    MissingFile(u64),
    NotJson,
    Setup,
    Ran(u64, u64, u64, &'static [u64]),
    NotSpelt,
    NotNow,
    Text(&'static str),
}

// An answer, and its message as hexadecimal numbers.
struct Row {
    name: &'static str,
    said: Said,
    message: &'static str,
}

#[rattlefmt::skip]
static ROWS: [Row; 40] = [
    Row { name: "done", said: Said::Done, message: "0000000000000000 0000000000000000" },
    Row { name: "done by a command", said: Said::SetDone, message: "0000000000000000 0000000000000000" },
    Row { name: "loaded", said: Said::Loaded(258), message: "0800000000000000 0100000000000000 0201000000000000" },
    Row { name: "linked", said: Said::Linked(3), message: "0800000000000000 0100000000000000 0300000000000000" },
    Row { name: "quota left", said: Said::QuotaLeft(1), message: "0800000000000000 0100000000000000 0100000000000000" },
    Row { name: "fuel left", said: Said::FuelLeft(0xFFFF_FFFF_FFFF_FFFF), message: "0800000000000000 0100000000000000 FFFFFFFFFFFFFFFF" },
    Row { name: "no values", said: Said::Values(&[]), message: "0000000000000000 0200000000000000" },
    Row {
        name: "values",
        said: Said::Values(&[Val::I32(5), Val::I64(6), Val::FuncRef(None), Val::ExternRef(Some(7))]),
        message: "4000000000000000 0200000000000000 7F00000000000000 0500000000000000 7E00000000000000 0600000000000000 7000000000000000 \
            0000000000000000 6F00000000000000 0800000000000000",
    },
    Row { name: "a global", said: Said::Global(Val::I32(666)), message: "1000000000000000 0200000000000000 7F00000000000000 9A02000000000000" },
    Row { name: "unreachable", said: Said::Trap(Trap::Unreachable), message: "1000000000000000 0300000000000000 0100000000000000 0000000000000000" },
    Row { name: "division by zero", said: Said::Trap(Trap::DivideByZero), message: "1000000000000000 0300000000000000 0200000000000000 0000000000000000" },
    Row { name: "integer overflow", said: Said::Trap(Trap::IntegerOverflow), message: "1000000000000000 0300000000000000 0300000000000000 0000000000000000" },
    Row { name: "memory bounds", said: Said::Trap(Trap::MemoryBounds), message: "1000000000000000 0300000000000000 0400000000000000 0000000000000000" },
    Row { name: "table bounds", said: Said::Trap(Trap::TableBounds), message: "1000000000000000 0300000000000000 0500000000000000 0000000000000000" },
    Row { name: "undefined element", said: Said::Trap(Trap::UndefinedElement), message: "1000000000000000 0300000000000000 0600000000000000 0000000000000000" },
    Row {
        name: "uninitialized element",
        said: Said::Trap(Trap::UninitializedElement),
        message: "1000000000000000 0300000000000000 0700000000000000 0000000000000000",
    },
    Row {
        name: "type of an indirect call",
        said: Said::Trap(Trap::IndirectType),
        message: "1000000000000000 0300000000000000 0800000000000000 0000000000000000",
    },
    Row {
        name: "a host function's trap",
        said: Said::Trap(Trap::Host(0xFFFF_FFFF)),
        message: "1000000000000000 0300000000000000 0900000000000000 FFFFFFFF00000000",
    },
    Row { name: "out of fuel", said: Said::Exhausted(Exhaustion::Fuel), message: "0800000000000000 0400000000000000 0100000000000000" },
    Row { name: "out of depth", said: Said::Exhausted(Exhaustion::Depth), message: "0800000000000000 0400000000000000 0200000000000000" },
    Row { name: "out of memory in a call", said: Said::Exhausted(Exhaustion::Memory), message: "0800000000000000 0400000000000000 0300000000000000" },
    Row {
        name: "malformed",
        said: Said::Refused(Refusal::Malformed(11)),
        message: "3300000000000000 0500000000000000 0100000000000000 0100000000000000 0B00000000000000 \
            6D616C666F726D6564206D6F64756C652061742062797465203131",
    },
    Row {
        name: "unsupported",
        said: Said::Refused(Refusal::Unsupported(13)),
        message: "3600000000000000 0500000000000000 0200000000000000 0100000000000000 0D00000000000000 \
            756E737570706F727465642066656174757265206174206279746520 3133",
    },
    Row {
        name: "a limit",
        said: Said::Refused(Refusal::Limit),
        message: "2900000000000000 0500000000000000 0300000000000000 0000000000000000 0000000000000000 61206C696D697420697320706173736564",
    },
    Row {
        name: "invalid function",
        said: Said::Refused(Refusal::Invalid(Place::Func(1))),
        message: "3400000000000000 0500000000000000 0400000000000000 0400000000000000 0100000000000000 \
            696E76616C6964206D6F64756C6520696E2066756E6374696F6E2031",
    },
    Row {
        name: "invalid section",
        said: Said::Refused(Refusal::Invalid(Place::Section(6))),
        message: "3300000000000000 0500000000000000 0400000000000000 0300000000000000 0600000000000000 \
            696E76616C6964206D6F64756C6520696E2073656374696F6E2036",
    },
    Row {
        name: "unknown import",
        said: Said::Refused(Refusal::UnknownImport(1)),
        message: "2B00000000000000 0500000000000000 0600000000000000 0200000000000000 0100000000000000 \
            696D706F7274203120697320756E6B6E6F776E",
    },
    Row {
        name: "incompatible import",
        said: Said::Refused(Refusal::IncompatibleImport(1)),
        message: "3300000000000000 0500000000000000 0700000000000000 0200000000000000 0100000000000000 \
            696D706F72742031206973206F6620616E6F746865722074797065",
    },
    Row {
        name: "out of memory",
        said: Said::Refused(Refusal::OutOfMemory),
        message: "2500000000000000 0500000000000000 0D00000000000000 0000000000000000 0000000000000000 6F7574206F66206D656D6F7279",
    },
    Row {
        name: "two host functions of one name",
        said: Said::NameTaken,
        message: "3E00000000000000 0500000000000000 0C00000000000000 0000000000000000 0000000000000000 \
            74776F20686F73742066756E6374696F6E732068617665207468652073616D65206E616D6573",
    },
    Row {
        name: "a host function with a funcref",
        said: Said::HostFuncRef,
        message: "3C00000000000000 0500000000000000 0E00000000000000 0000000000000000 0000000000000000 \
            6120686F73742066756E6374696F6E206861732061206675 6E6372656620726573756C74",
    },
    Row {
        name: "no JSON",
        said: Said::NotJson,
        message: "4500000000000000 0500000000000000 0F00000000000000 0000000000000000 0000000000000000 \
            6E6F74204A534F4E2C206F72206E6573746564206D6F7265207468616E20313237206C6576656C732064656570",
    },
    Row {
        name: "a command without its form",
        said: Said::BadCommand(2),
        message: "3200000000000000 0500000000000000 1000000000000000 0500000000000000 0200000000000000 \
            636F6D6D616E64203220686173206E6F742069747320666F726D",
    },
    Row {
        name: "a missing file",
        said: Said::MissingFile(0),
        message: "3800000000000000 0500000000000000 1100000000000000 0500000000000000 0000000000000000 \
            7468652066696C65206F6620636F6D6D616E642030206973206D697373696E67",
    },
    Row {
        name: "a setup out of its range",
        said: Said::Setup,
        message: "4100000000000000 0500000000000000 4000000000000000 0000000000000000 0000000000000000 \
            61206E756D626572206F6620746865207365747570206973206F7574206F66206974732072616E6765",
    },
    Row {
        name: "a report",
        said: Said::Ran(31, 2, 1, &[5, 258]),
        message: "2800000000000000 0700000000000000 1F00000000000000 0200000000000000 0100000000000000 0500000000000000 0201000000000000",
    },
    Row {
        name: "a report without failures",
        said: Said::Ran(1, 0, 0, &[]),
        message: "1800000000000000 0700000000000000 0100000000000000 0000000000000000 0000000000000000",
    },
    Row { name: "not spelt", said: Said::NotSpelt, message: "0000000000000000 0800000000000000" },
    Row { name: "a text", said: Said::Text("no export"), message: "0900000000000000 0D00000000000000 6E6F206578706F7274" },
    Row { name: "not now", said: Said::NotNow, message: "0000000000000000 0900000000000000" },
];

// Returns the answer of a row.
fn make_answer(alloc: Global, said: &Said) -> Result<Answer, AllocError> {
    Ok(match said {
        Said::Done => Answer::Done,
        Said::Loaded(number) => Answer::Applied(Reply::Loaded(*number)),
        Said::Linked(number) => Answer::Applied(Reply::Linked(*number)),
        Said::Values(values) => Answer::Applied(Reply::Values(Vec::from_slice(alloc, values)?)),
        Said::Trap(trap) => Answer::Applied(Reply::Trap(*trap)),
        Said::Exhausted(what) => Answer::Applied(Reply::Exhausted(*what)),
        Said::Refused(refusal) => Answer::Applied(Reply::Refused(*refusal)),
        Said::SetDone => Answer::Applied(Reply::Done),
        Said::Global(value) => Answer::Global(*value),
        Said::FuelLeft(fuel) => Answer::FuelLeft(*fuel),
        Said::QuotaLeft(bytes) => Answer::QuotaLeft(*bytes),
        Said::NameTaken => Answer::Refused(Cause::Creation(NewFault::NameTaken)),
        Said::HostFuncRef => Answer::Refused(Cause::Creation(NewFault::HostFuncRef)),
        Said::BadCommand(index) => Answer::Refused(Cause::Script(ScriptFault::BadCommand(*index))),
        Said::MissingFile(index) => {
            Answer::Refused(Cause::Script(ScriptFault::MissingFile(*index)))
        }
        Said::NotJson => Answer::Refused(Cause::Script(ScriptFault::NotJson)),
        Said::Setup => Answer::Refused(Cause::Setup),
        Said::Ran(passed, failed, skipped, lines) => Answer::Ran(Report {
            passed: *passed,
            failed: *failed,
            skipped: *skipped,
            failures: Vec::from_slice(alloc, lines)?,
        }),
        Said::NotSpelt => Answer::NotSpelt,
        Said::NotNow => Answer::NotNow,
        Said::Text(text) => Answer::Text(String::from_str(alloc, text)?),
    })
}

fn has_message(alloc: Global, answer: &Answer, message: &str) -> Result<bool, AllocError> {
    let (mut fields, mut out) = (Vec::new(alloc), Vec::new(alloc));
    push_answer(alloc, &mut fields, &mut out, answer)?;
    Ok(out.as_slice() == bytes_of(alloc, message)?.as_slice())
}

// Returns whether the answer of a row has its message.
fn is_spelt(alloc: Global, row: &Row) -> Result<bool, AllocError> {
    has_message(alloc, &make_answer(alloc, &row.said)?, row.message)
}

#[test]
fn answers_are_spelt(rt: HostRuntime) {
    for row in &ROWS {
        assert!(rt; is_spelt(rt.alloc(), row) == Ok(true), "{}", row.name);
    }
}

// A type of an export, before memory is allocated for it.
enum Exported {
    Func,
    Other(ExternTypeParts),
}

// The types of exports that need no allocation.
#[derive(Clone, Copy)]
enum ExternTypeParts {
    Table(TableType),
    Memory(Limits),
    Global(GlobalType),
}

#[rattlefmt::skip]
static EXPORTS: [(&str, Exported, &str); 6] = [
    ("f", Exported::Func, "0000000000000000 0200000000000000 7F00000000000000 7E00000000000000 0100000000000000 6F00000000000000"),
    (
        "t",
        Exported::Other(ExternTypeParts::Table(TableType { element: RefType::FuncRef, limits: Limits { min: 1, max: Some(2) } })),
        "0100000000000000 7000000000000000 0100000000000000 0100000000000000 0200000000000000",
    ),
    (
        "e",
        Exported::Other(ExternTypeParts::Table(TableType { element: RefType::ExternRef, limits: Limits { min: 0, max: None } })),
        "0100000000000000 6F00000000000000 0000000000000000 0000000000000000 0000000000000000",
    ),
    ("m", Exported::Other(ExternTypeParts::Memory(Limits { min: 1, max: None })), "0200000000000000 0100000000000000 0000000000000000 0000000000000000"),
    ("g", Exported::Other(ExternTypeParts::Global(GlobalType { value: ValType::I64, mutability: Mutability::Var })), "0300000000000000 7E00000000000000 0100000000000000"),
    ("c", Exported::Other(ExternTypeParts::Global(GlobalType { value: ValType::I32, mutability: Mutability::Const })), "0300000000000000 7F00000000000000 0000000000000000"),
];

fn make_type(alloc: Global, exported: &Exported) -> Result<ExternType, AllocError> {
    Ok(match exported {
        Exported::Func => ExternType::Func(func_type(
            alloc,
            &[ValType::I32, ValType::I64],
            &[ValType::ExternRef],
        )?),
        Exported::Other(ExternTypeParts::Table(ty)) => ExternType::Table(*ty),
        Exported::Other(ExternTypeParts::Memory(limits)) => ExternType::Memory(*limits),
        Exported::Other(ExternTypeParts::Global(ty)) => ExternType::Global(*ty),
    })
}

// Returns a list of two exports, "" and "f", which share a type.
fn make_exports(alloc: Global, exported: &Exported) -> Result<Exports, AllocError> {
    let mut types = Vec::new(alloc);
    types.push(make_type(alloc, exported)?)?;
    let mut exports = Vec::new(alloc);
    for name in ["", "f"] {
        let name = String::from_str(alloc, name)?;
        exports.push(ExportType { name, ty: 0 })?;
    }
    Ok(Exports { types, exports })
}

// Returns whether these two exports of a type are encoded as one type, and two names with it.
fn are_spelt(alloc: Global, exported: &Exported, ty: &str) -> Result<bool, AllocError> {
    let exports = make_exports(alloc, exported)?;
    let size = 8 + bytes_of(alloc, ty)?.len() + 16 + 17;
    let message = format!(in alloc;
        "{size:02X}00000000000000 0600000000000000 0100000000000000 {ty} 0000000000000000 0000000000000000 0100000000000000 66 0000000000000000"
    )?;
    has_message(alloc, &Answer::Exports(exports), message.as_str())
}

#[test]
fn exports_are_spelt(rt: HostRuntime) {
    for (name, exported, ty) in &EXPORTS {
        assert!(rt; are_spelt(rt.alloc(), exported, ty) == Ok(true), "{name}");
    }
}

fn make_import(
    alloc: Global,
    module_name: &str,
    name: &str,
    ty: usize,
) -> Result<ImportType, AllocError> {
    Ok(ImportType {
        module_name: String::from_str(alloc, module_name)?,
        name: String::from_str(alloc, name)?,
        ty,
    })
}

// Returns a list of two imports: "env" "f", a function, and "" "t", a memory.
fn make_imports(alloc: Global) -> Result<Imports, AllocError> {
    let mut types = Vec::new(alloc);
    types.push(ExternType::Func(func_type(alloc, &[], &[])?))?;
    types.push(ExternType::Memory(Limits { min: 1, max: None }))?;
    let mut imports = Vec::new(alloc);
    imports.push(make_import(alloc, "env", "f", 0)?)?;
    imports.push(make_import(alloc, "", "t", 1)?)?;
    Ok(Imports { types, imports })
}

const IMPORTS: &str =
    "7500000000000000 0C00000000000000 0200000000000000 0000000000000000 0000000000000000 0000000000000000 0200000000000000 \
    0100000000000000 0000000000000000 0000000000000000 0300000000000000 656E76 0100000000000000 66 0000000000000000 0000000000000000 \
    0100000000000000 74 0100000000000000";

// Returns whether these imports are encoded as two types, and two pairs of names with them.
fn imports_are_encoded(alloc: Global) -> Result<bool, AllocError> {
    let imports = make_imports(alloc)?;
    has_message(alloc, &Answer::Imports(imports), IMPORTS)
}

#[test]
fn imports_are_spelt(rt: HostRuntime) {
    assert!(rt; imports_are_encoded(rt.alloc()) == Ok(true));
}
