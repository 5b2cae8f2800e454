//! Reading texts as scripts.

use scripts::{Script, ScriptFault, read_script};
use std::alloc::Global;

// The expected result of reading a text.
#[derive(Clone, Copy)]
enum Outcome {
    // A script that needs these files.
    Files(&'static [&'static str]),
    NotJson,
    BadCommand(u64),
}

use Outcome::{BadCommand, Files, NotJson};

struct Row {
    name: &'static str,
    bytes: &'static [u8],
    outcome: Outcome,
}

const DEEP: [u8; 200] = [b'['; 200];

#[rattlefmt::skip]
static ROWS: [Row; 47] = [
    Row { name: "no commands", bytes: br#"{"commands":[]}"#, outcome: Files(&[]) },
    Row { name: "other fields", bytes: br#"{"source_filename":"a.wast","commands":[]}"#, outcome: Files(&[]) },
    Row { name: "a number in place of the array", bytes: br#"{"commands":3}"#, outcome: BadCommand(0) },
    Row { name: "no array of commands", bytes: b"{}", outcome: BadCommand(0) },
    Row { name: "an array in place of the object", bytes: b"[]", outcome: BadCommand(0) },
    Row { name: "a text without its last brace", bytes: b"{\"commands\":[]", outcome: NotJson },
    Row { name: "two hundred brackets", bytes: &DEEP, outcome: NotJson },
    Row {
        name: "127 levels",
        bytes: b"[[[[[[[[[[[[[[[[[[[[[[[[[[[[[[[[[[[[[[[[[[[[[[[[[[[[[[[[[[[[[[[[[[[[[[[[[[[[[[[[[[[[[[[[[[[[[[[[[[[[[[[[[[[[[[[[[[[[[[\
            [[[[[[[[[\
            ]]]]]]]]]]]]]]]]]]]]]]]]]]]]]]]]]]]]]]]]]]]]]]]]]]]]]]]]]]]]]]]]]]]]]]]]]]]]]]]]]]]]]]]]]]]]]]]]]]]]]]]]]]]]]]]]]]]]]]]]]]]]]]]",
        outcome: BadCommand(0),
    },
    Row {
        name: "128 levels",
        bytes: b"[[[[[[[[[[[[[[[[[[[[[[[[[[[[[[[[[[[[[[[[[[[[[[[[[[[[[[[[[[[[[[[[[[[[[[[[[[[[[[[[[[[[[[[[[[[[[[[[[[[[[[[[[[[[[[[[[[[[[[\
            [[[[[[[[[[\
            ]]]]]]]]]]]]]]]]]]]]]]]]]]]]]]]]]]]]]]]]]]]]]]]]]]]]]]]]]]]]]]]]]]]]]]]]]]]]]]]]]]]]]]]]]]]]]]]]]]]]]]]]]]]]]]]]]]]]]]]]]]]]]]]]",
        outcome: NotJson,
    },
    Row { name: "bytes that are no text", bytes: b"\xFF\xFE", outcome: NotJson },
    Row { name: "no bytes", bytes: b"", outcome: NotJson },
    Row { name: "a command that is no object", bytes: br#"{"commands":[7]}"#, outcome: BadCommand(0) },
    Row { name: "a module", bytes: br#"{"commands":[{"type":"module","line":1,"filename":"a"}]}"#, outcome: Files(&["a"]) },
    Row {
        name: "the largest line",
        bytes: br#"{"commands":[{"type":"module","line":4294967295,"filename":"a"}]}"#,
        outcome: Files(&["a"]),
    },
    Row { name: "the line 0", bytes: br#"{"commands":[{"type":"module","line":0,"filename":"a"}]}"#, outcome: Files(&["a"]) },
    Row {
        name: "a line that is too large",
        bytes: br#"{"commands":[{"type":"module","line":4294967296,"filename":"a"}]}"#,
        outcome: BadCommand(0),
    },
    Row { name: "a line below 0", bytes: br#"{"commands":[{"type":"module","line":-1,"filename":"a"}]}"#, outcome: BadCommand(0) },
    Row {
        name: "a line with a point",
        bytes: br#"{"commands":[{"type":"module","line":1.0,"filename":"a"}]}"#,
        outcome: BadCommand(0),
    },
    Row {
        name: "a line with an exponent",
        bytes: br#"{"commands":[{"type":"module","line":1e0,"filename":"a"}]}"#,
        outcome: BadCommand(0),
    },
    Row {
        name: "a line that is a text",
        bytes: br#"{"commands":[{"type":"module","line":"1","filename":"a"}]}"#,
        outcome: BadCommand(0),
    },
    Row { name: "no line", bytes: br#"{"commands":[{"type":"module","filename":"a"}]}"#, outcome: BadCommand(0) },
    Row { name: "no file name", bytes: br#"{"commands":[{"type":"module","line":1}]}"#, outcome: BadCommand(0) },
    Row {
        name: "a name that is a number",
        bytes: br#"{"commands":[{"type":"module","line":1,"filename":"a","name":3}]}"#,
        outcome: BadCommand(0),
    },
    Row {
        name: "a name that is null",
        bytes: br#"{"commands":[{"type":"module","line":1,"filename":"a","name":null}]}"#,
        outcome: BadCommand(0),
    },
    Row {
        name: "another type behind a module",
        bytes: br#"{"commands":[{"type":"module","line":1,"filename":"a"},
            {"type":"assert_exception","line":2}]}"#,
        outcome: BadCommand(1),
    },
    Row {
        name: "a module in text",
        bytes: br#"{"commands":[{"type":"module","line":1,"filename":"a","module_type":"text"}]}"#,
        outcome: Files(&[]),
    },
    Row {
        name: "a module in bytes",
        bytes: br#"{"commands":[{"type":"assert_malformed","line":1,"filename":"a","module_type":"binary"}]}"#,
        outcome: Files(&["a"]),
    },
    Row {
        name: "a skipped command without other fields",
        bytes: br#"{"commands":[{"type":"register","line":1,"module_type":"text"}]}"#,
        outcome: Files(&[]),
    },
    Row {
        name: "a skipped command without a line",
        bytes: br#"{"commands":[{"type":"module","module_type":"text"}]}"#,
        outcome: BadCommand(0),
    },
    Row {
        name: "a skipped command of another type",
        bytes: br#"{"commands":[{"type":"assert_exception","line":1,"module_type":"text"}]}"#,
        outcome: BadCommand(0),
    },
    Row {
        name: "files in their order, each as often as it is needed",
        bytes: br#"{"commands":[{"type":"module","line":1,"filename":"b"},
            {"type":"assert_invalid","line":2,"filename":"a"},
            {"type":"assert_unlinkable","line":3,"filename":"b"},
            {"type":"assert_uninstantiable","line":4,"filename":"c","text":""}]}"#,
        outcome: Files(&["b", "a", "b", "c"]),
    },
    Row { name: "a registration", bytes: br#"{"commands":[{"type":"register","line":1,"as":"m"}]}"#, outcome: Files(&[]) },
    Row { name: "a registration under no name", bytes: br#"{"commands":[{"type":"register","line":1}]}"#, outcome: BadCommand(0) },
    Row { name: "no action", bytes: br#"{"commands":[{"type":"action","line":1}]}"#, outcome: BadCommand(0) },
    Row {
        name: "an action of another type",
        bytes: br#"{"commands":[{"type":"action","line":1,"action":{"type":"set","field":"g"}}]}"#,
        outcome: BadCommand(0),
    },
    Row {
        name: "the reading of a global",
        bytes: br#"{"commands":[{"type":"action","line":1,"action":{"type":"get","field":"g"}}]}"#,
        outcome: Files(&[]),
    },
    Row {
        name: "a call without arguments",
        bytes: br#"{"commands":[{"type":"action","line":1,"action":{"type":"invoke","field":"f"}}]}"#,
        outcome: BadCommand(0),
    },
    Row {
        name: "an i32 that is too large",
        bytes: br#"{"commands":[{"type":"action","line":1,
            "action":{"type":"invoke","field":"f","args":[{"type":"i32","value":"4294967296"}]}}]}"#,
        outcome: BadCommand(0),
    },
    Row {
        name: "an i32 below 0",
        bytes: br#"{"commands":[{"type":"action","line":1,"action":{"type":"invoke","field":"f","args":[{"type":"i32","value":"-1"}]}}]}"#,
        outcome: BadCommand(0),
    },
    Row {
        name: "an i32 without digits",
        bytes: br#"{"commands":[{"type":"action","line":1,"action":{"type":"invoke","field":"f","args":[{"type":"i32","value":""}]}}]}"#,
        outcome: BadCommand(0),
    },
    Row {
        name: "an i32 with a sign",
        bytes: br#"{"commands":[{"type":"action","line":1,"action":{"type":"invoke","field":"f","args":[{"type":"i32","value":"+1"}]}}]}"#,
        outcome: BadCommand(0),
    },
    Row {
        name: "an i64 that is too large",
        bytes: br#"{"commands":[{"type":"action","line":1,
            "action":{"type":"invoke","field":"f","args":[{"type":"i64","value":"18446744073709551616"}]}}]}"#,
        outcome: BadCommand(0),
    },
    Row {
        name: "the largest values",
        bytes: br#"{"commands":[{"type":"action","line":1,
            "action":{"type":"invoke","field":"f","args":[{"type":"i32","value":"4294967295"},{"type":"i64",
            "value":"18446744073709551615"},{"type":"externref","value":"4294967295"},{"type":"externref","value":"null"},
            {"type":"funcref","value":"null"}]}}]}"#,
        outcome: Files(&[]),
    },
    Row {
        name: "a funcref that is a number",
        bytes: br#"{"commands":[{"type":"action","line":1,
            "action":{"type":"invoke","field":"f","args":[{"type":"funcref","value":"0"}]}}]}"#,
        outcome: BadCommand(0),
    },
    Row {
        name: "an expected value of a float, in an action",
        bytes: br#"{"commands":[{"type":"action","line":1,"action":{"type":"invoke","field":"f","args":[{"type":"i32","value":"x"}]},
            "expected":[{"type":"f32"}]}]}"#,
        outcome: BadCommand(0),
    },
    Row {
        name: "an expected value of a float",
        bytes: br#"{"commands":[{"type":"assert_return","line":1,"action":7,"expected":[{"type":"f32"}]}]}"#,
        outcome: Files(&[]),
    },
    Row {
        name: "an argument of a vector",
        bytes: br#"{"commands":[{"type":"assert_trap","line":1,"action":{"args":[{"type":"v128"}]}}]}"#,
        outcome: Files(&[]),
    },
];

fn rows() -> &'static [Row] {
    &ROWS
}

fn needs(script: &Script, files: &[&str]) -> bool {
    let names = script.filenames();
    names.len() == files.len()
        && names
            .iter()
            .zip(files)
            .all(|(name, file)| name.as_str() == *file)
}

// Returns whether the result of reading is that of a row.
fn is_outcome(read: Result<Script, ScriptFault>, row: &Row) -> bool {
    match (read, row.outcome) {
        (Ok(script), Files(files)) => needs(&script, files),
        (Err(ScriptFault::NotJson), NotJson) => true,
        (Err(ScriptFault::BadCommand(index)), BadCommand(wanted)) => index == wanted,
        _ => false,
    }
}

// Returns whether a text is read as its row states.
fn is_read(alloc: Global, row: &Row) -> bool {
    is_outcome(read_script(alloc, row.bytes), row)
}

#[test]
fn texts_are_read(rt: HostRuntime) {
    for row in rows() {
        assert!(rt; is_read(rt.alloc(), row), "{}", row.name);
    }
}

// Returns whether refusals have their numbers.
fn has_its_numbers() -> bool {
    ScriptFault::NotJson.number() == 15
        && ScriptFault::BadCommand(1).number() == 16
        && ScriptFault::MissingFile(1).number() == 17
        && ScriptFault::OutOfMemory.number() == 13
}

#[test]
fn refusals_have_numbers(rt: HostRuntime) {
    assert!(rt; has_its_numbers());
}

#[test]
fn call_always_out_of_memory(rt: HostRuntime) {
    for row in rows() {
        assert!(rt;
            !is_outcome(Err(ScriptFault::OutOfMemory), row),
            "{}",
            row.name
        );
    }
}
