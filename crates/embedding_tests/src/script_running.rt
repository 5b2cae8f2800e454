//! The reports of scripts.

use crate::script_modules::module_text;
use embed::{Config, Embedding};
use scripts::{Report, Script, ScriptFault, read_script, run_script};
use std::alloc::Global;
use testing::assemble;

/// The expected end of a run.
#[derive(Clone, Copy)]
pub enum End {
    // The numbers of commands that passed, failed and were skipped, and the lines of those that failed.
    Counts(u64, u64, u64, &'static [u64]),
    Missing(u64),
}

use End::{Counts, Missing};

/// The commands of a script, and its files: words, each with a name and the name of its module.
pub struct Row {
    pub name: &'static str,
    pub commands: &'static str,
    pub files: &'static str,
    pub end: End,
}

#[rattlefmt::skip]
static ROWS: [Row; 22] = [
    Row { name: "nothing", commands: "", files: "", end: Counts(0, 0, 0, &[]) },
    Row {
        name: "a module in text",
        commands: r#"{"type":"module","line":1,"filename":"a.wat","module_type":"text"}"#,
        files: "",
        end: Counts(0, 0, 1, &[]),
    },
    Row {
        name: "an action without an instance",
        commands: r#"{"type":"action","line":2,"action":{"type":"invoke","field":"add","args":[]}}"#,
        files: "",
        end: Counts(0, 1, 0, &[2]),
    },
    Row {
        name: "a file that is missing",
        commands: r#"{"type":"module","line":1,"filename":"a"},
            {"type":"module","line":2,"filename":"b"}"#,
        files: "a=add",
        end: Missing(1),
    },
    Row {
        name: "a file that is missing behind a skipped command",
        commands: r#"{"type":"module","line":1,"filename":"a","module_type":"text"},
            {"type":"module","line":2,"filename":"b"}"#,
        files: "",
        end: Missing(1),
    },
    Row {
        name: "a right and a wrong sum",
        commands: r#"{"type":"module","line":1,"filename":"a.0.wasm"},
            {"type":"assert_return","line":5,"action":{"type":"invoke","field":"add","args":[{"type":"i32","value":"1"},{"type":"i32",
            "value":"2"}]},"expected":[{"type":"i32","value":"3"}]},
            {"type":"assert_return","line":6,"action":{"type":"invoke","field":"add","args":[{"type":"i32","value":"1"},{"type":"i32",
            "value":"2"}]},"expected":[{"type":"i32","value":"4"}]}"#,
        files: "a.0.wasm=add",
        end: Counts(2, 1, 0, &[6]),
    },
    Row {
        name: "zeros in front of a number",
        commands: r#"{"type":"module","line":1,"filename":"a"},
            {"type":"assert_return","line":2,"action":{"type":"invoke","field":"add","args":[{"type":"i32","value":"007"},{"type":"i32",
            "value":"0"}]},"expected":[{"type":"i32","value":"7"}]}"#,
        files: "a=add",
        end: Counts(2, 0, 0, &[]),
    },
    Row {
        name: "module, register, assert_return, assert_unlinkable and assert_trap",
        commands: r#"{"type":"module","line":1,"filename":"a"},
            {"type":"register","line":2,"as":"M"},
            {"type":"assert_return","line":3,"action":{"type":"invoke","field":"add","args":[{"type":"i32","value":"1"},{"type":"i32",
            "value":"2"}]},"expected":[{"type":"i32","value":"3"}]},
            {"type":"assert_unlinkable","line":4,"filename":"b","text":"unknown import"},
            {"type":"assert_trap","line":5,"action":{"type":"invoke","field":"call","args":[{"type":"i32","value":"0"}]},
            "text":"uninitialized element 2"}"#,
        files: "a=add_and_call b=missing",
        end: Counts(5, 0, 0, &[]),
    },
    Row {
        name: "a trap of another text",
        commands: r#"{"type":"module","line":1,"filename":"a"},
            {"type":"assert_trap","line":2,"action":{"type":"invoke","field":"call","args":[{"type":"i32","value":"0"}]},
            "text":"uninitialized"}"#,
        files: "a=add_and_call",
        end: Counts(1, 1, 0, &[2]),
    },
    Row {
        name: "a name that is registered twice",
        commands: r#"{"type":"module","line":1,"filename":"1"},
            {"type":"register","line":2,"as":"M"},
            {"type":"module","line":3,"filename":"2"},
            {"type":"register","line":4,"as":"M"},
            {"type":"module","line":5,"filename":"g"},
            {"type":"assert_return","line":6,"action":{"type":"invoke","field":"g","args":[]},"expected":[{"type":"i32","value":"2"}]}"#,
        files: "1=one 2=two g=calls_f",
        end: Counts(6, 0, 0, &[]),
    },
    Row {
        name: "names of the script",
        commands: r#"{"type":"module","line":1,"filename":"1","name":"$a"},
            {"type":"module","line":2,"filename":"2"},
            {"type":"assert_return","line":3,"action":{"type":"invoke","field":"f","args":[]},"expected":[{"type":"i32","value":"2"}]},
            {"type":"assert_return","line":4,"action":{"type":"invoke","module":"$a","field":"f","args":[]},
            "expected":[{"type":"i32","value":"1"}]},
            {"type":"register","line":5,"as":"M","name":"$a"},
            {"type":"action","line":6,"action":{"type":"invoke","module":"$b","field":"f","args":[]}}"#,
        files: "1=one 2=two",
        end: Counts(5, 1, 0, &[6]),
    },
    Row {
        name: "a module that fails",
        commands: r#"{"type":"module","line":1,"filename":"1","name":"$a"},
            {"type":"module","line":2,"filename":"x","name":"$a"},
            {"type":"action","line":3,"action":{"type":"invoke","field":"f","args":[]}},
            {"type":"action","line":4,"action":{"type":"invoke","module":"$a","field":"f","args":[]}}"#,
        files: "1=one x=invalid",
        end: Counts(1, 3, 0, &[2, 3, 4]),
    },
    Row {
        name: "asserted modules are not current",
        commands: r#"{"type":"module","line":1,"filename":"1"},
            {"type":"assert_invalid","line":2,"filename":"x"},
            {"type":"assert_unlinkable","line":3,"filename":"2"},
            {"type":"assert_return","line":4,"action":{"type":"invoke","field":"f","args":[]},"expected":[{"type":"i32","value":"1"}]}"#,
        files: "1=one 2=two x=invalid",
        end: Counts(3, 1, 0, &[3]),
    },
    Row {
        name: "exhaustion of fuel and depth",
        commands: r#"{"type":"module","line":1,"filename":"e"},
            {"type":"assert_exhaustion","line":2,"action":{"type":"invoke","field":"loop","args":[]}},
            {"type":"assert_exhaustion","line":3,"action":{"type":"invoke","field":"deep","args":[]}},
            {"type":"action","line":4,"action":{"type":"invoke","field":"loop","args":[]}}"#,
        files: "e=endless",
        end: Counts(3, 1, 0, &[4]),
    },
    Row {
        name: "a start function that traps",
        commands: r#"{"type":"assert_uninstantiable","line":1,"filename":"t","text":"unreachable executed"},
            {"type":"assert_uninstantiable","line":2,"filename":"t","text":"integer overflow"},
            {"type":"module","line":3,"filename":"t"}"#,
        files: "t=traps_at_start",
        end: Counts(1, 2, 0, &[2, 3]),
    },
    Row {
        name: "invalid and malformed",
        commands: r#"{"type":"assert_invalid","line":1,"filename":"x"},
            {"type":"assert_malformed","line":2,"filename":"x"},
            {"type":"assert_malformed","line":3,"filename":"bytes"},
            {"type":"assert_invalid","line":4,"filename":"bytes"}"#,
        files: "x=invalid bytes=none",
        end: Counts(2, 2, 0, &[2, 4]),
    },
    Row {
        name: "a global",
        commands: r#"{"type":"module","line":1,"filename":"a"},
            {"type":"assert_return","line":2,"action":{"type":"get","field":"g"},"expected":[{"type":"i32","value":"666"}]},
            {"type":"action","line":3,"action":{"type":"get","field":"add"}}"#,
        files: "a=add_and_call",
        end: Counts(2, 1, 0, &[3]),
    },
    Row {
        name: "results in their order",
        commands: r#"{"type":"module","line":1,"filename":"s"},
            {"type":"assert_return","line":2,"action":{"type":"invoke","field":"swap","args":[{"type":"i32","value":"1"},{"type":"i64",
            "value":"2"}]},"expected":[{"type":"i64","value":"2"},{"type":"i32","value":"1"}]},
            {"type":"assert_return","line":3,"action":{"type":"invoke","field":"swap","args":[{"type":"i32","value":"1"},{"type":"i64",
            "value":"2"}]},"expected":[{"type":"i64","value":"2"}]}"#,
        files: "s=returns_both",
        end: Counts(2, 1, 0, &[3]),
    },
    Row {
        name: "references",
        commands: r#"{"type":"module","line":1,"filename":"r"},
            {"type":"assert_return","line":2,"action":{"type":"invoke","field":"same","args":[{"type":"externref","value":"5"}]},
            "expected":[{"type":"externref","value":"5"}]},
            {"type":"assert_return","line":3,"action":{"type":"invoke","field":"same","args":[{"type":"externref","value":"5"}]},
            "expected":[{"type":"externref","value":"null"}]},
            {"type":"assert_return","line":4,"action":{"type":"invoke","field":"null","args":[]},
            "expected":[{"type":"funcref","value":"null"}]}"#,
        files: "r=references",
        end: Counts(3, 1, 0, &[3]),
    },
    Row {
        name: "values that are left out",
        commands: r#"{"type":"module","line":1,"filename":"a"},
            {"type":"assert_return","line":2,"action":{"type":"invoke","field":"add","args":[{"type":"f32","value":"1"}]},"expected":[]},
            {"type":"assert_return","line":3,"action":{"type":"invoke","field":"add","args":[]},
            "expected":[{"type":"f64","value":"nan:canonical"}]}"#,
        files: "a=add",
        end: Counts(1, 0, 2, &[]),
    },
    Row {
        name: "two files of one name",
        commands: r#"{"type":"module","line":1,"filename":"a"},
            {"type":"assert_return","line":2,"action":{"type":"invoke","field":"f","args":[]},"expected":[{"type":"i32","value":"1"}]}"#,
        files: "a=one a=two",
        end: Counts(2, 0, 0, &[]),
    },
    Row {
        name: "a wrong number of arguments",
        commands: r#"{"type":"module","line":1,"filename":"a"},
            {"type":"assert_trap","line":2,"action":{"type":"invoke","field":"add","args":[]},"text":""}"#,
        files: "a=add",
        end: Counts(1, 1, 0, &[2]),
    },
];

fn rows() -> &'static [Row] {
    &ROWS
}

fn script_bytes(alloc: Global, commands: &str) -> Option<String> {
    let mut text = String::from_str(alloc, "{\"source_filename\":\"a.wast\",\"commands\":[").ok()?;
    text.push_str(commands).ok()?;
    text.push_str("]}").ok()?;
    Some(text)
}

// Returns the bytes of the module of a text. The text of no module represents bytes that encode none.
fn module_bytes(alloc: Global, text: &str) -> Option<Vec<u8>> {
    if text.is_empty() {
        return Vec::from_slice(alloc, &[0x00, 0x61, 0x73]).ok();
    }
    assemble(alloc, text).ok()
}

// Returns the files of these words, each with a name and the name of its module.
fn read_files(alloc: Global, words: &str) -> Option<Vec<(String, Vec<u8>)>> {
    let mut list = Vec::new(alloc);
    for word in words.split_whitespace() {
        let (name, module) = word.split_once('=').unwrap_or((word, ""));
        let bytes = module_bytes(alloc, module_text(module))?;
        list.push((String::from_str(alloc, name).ok()?, bytes))
            .ok()?;
    }
    Some(list)
}

fn counts(report: &Report, (passed, failed, skipped): (u64, u64, u64), lines: &[u64]) -> bool {
    report.passed == passed
        && report.failed == failed
        && report.skipped == skipped
        && report.failures.as_slice() == lines
}

fn is_end(run: Result<Report, ScriptFault>, end: End) -> bool {
    match (run, end) {
        (Ok(report), Counts(passed, failed, skipped, lines)) => {
            counts(&report, (passed, failed, skipped), lines)
        }
        (Err(ScriptFault::MissingFile(index)), Missing(wanted)) => index == wanted,
        _ => false,
    }
}

fn script_of(alloc: Global, commands: &str) -> Option<Script> {
    let text = script_bytes(alloc, commands)?;
    read_script(alloc, text.as_bytes()).ok()
}

// Returns a fresh embedding without host functions.
fn fresh_embedding(alloc: Global) -> Option<Embedding> {
    Embedding::new(alloc, Config::new(1000, 100, 10, 10)?, Vec::new(alloc)).ok()
}

// Returns whether a script with these files has this end in a fresh embedding.
fn ends_so(alloc: Global, script: &Script, files: &[(String, Vec<u8>)], end: End) -> bool {
    match fresh_embedding(alloc) {
        Some(mut embedding) => is_end(run_script(alloc, script, files, &mut embedding), end),
        None => false,
    }
}

/// Returns whether a script ends as its row states.
pub fn is_run(alloc: Global, row: &Row) -> bool {
    match (script_of(alloc, row.commands), read_files(alloc, row.files)) {
        (Some(script), Some(files)) => ends_so(alloc, &script, &files, row.end),
        _ => false,
    }
}

#[test]
fn scripts_are_run(rt: HostRuntime) {
    for row in rows() {
        assert!(rt; is_run(rt.alloc(), row), "{}", row.name);
    }
}

#[test]
fn call_always_out_of_memory(rt: HostRuntime) {
    for row in rows() {
        assert!(rt;
            !is_end(Err(ScriptFault::OutOfMemory), row.end),
            "{}",
            row.name
        );
    }
}
