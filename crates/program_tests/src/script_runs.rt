//! Runs of scripts, with files in memory.

use crate::runs::{Ending, ends_so, words_of};
use Ending::{Err as Refuses, Out as Prints};
use std::alloc::{AllocError, Global};
use subcommands::{Files, ReadFault};
use testing::assemble;

// A script in a file, and the paths and the texts of the modules beside it.
struct Folder {
    path: &'static str,
    script: &'static [u8],
    modules: &'static [(&'static str, &'static str)],
}

// A folder that files are read from, and the number of reads so far.
#[derive(Drop)]
struct Reader {
    alloc: Global,
    folder: &'static Folder,
    reads: u64,
}

// Returns the text of the module at a path, if there is one.
fn module_at(folder: &Folder, path: &str) -> Option<&'static str> {
    for (name, text) in folder.modules {
        if *name == path {
            return Some(text);
        }
    }
    None
}

impl Files for Reader {
    fn read(&mut self, path: &str) -> Result<Vec<u8>, ReadFault> {
        self.reads = self.reads.wrapping_add(1);
        if path == self.folder.path {
            return Vec::from_slice(self.alloc, self.folder.script).map_err(|_| ReadFault::Memory);
        }
        let Some(text) = module_at(self.folder, path) else {
            return Err(ReadFault::Failed);
        };
        assemble(self.alloc, text).map_err(|_| ReadFault::Memory)
    }
}

// A name, the arguments of a run, the folder of its script, and how it ends.
struct Row {
    name: &'static str,
    words: &'static str,
    folder: Folder,
    ending: Ending<'static>,
}

const ADD: &str =
    "(func (param i32 i32) (result i32) local.get 0 local.get 1 i32.add) (export \"add\" (func 0))";

// Adds, and calls an entry of a table whose entries are null.
const ADD_AND_CALL: &str =
    "(type (func (param i32 i32) (result i32))) (type (func (param i32) (result i32))) (type (func (result i32))) (table 1 funcref) \
    (func (type 0) local.get 0 local.get 1 i32.add) (func (type 1) local.get 0 call_indirect (type 2)) (export \"add\" (func 0)) \
    (export \"call\" (func 1))";

const MISSING: &str = "(import \"M\" \"missing\" (func))";

// A loop without end, and a function that calls only itself.
const ENDLESS: &str =
    "(func loop br 0 end) (func call 1) (export \"loop\" (func 0)) (export \"deep\" (func 1))";

// Prints its argument, and returns a global of the stored module.
const PRINTS: &str =
    "(import \"spectest\" \"print_i32\" (func (param i32))) (import \"spectest\" \"global_i32\" (global i32)) \
    (func (param i32) (result i32) local.get 0 call 0 global.get 0) (export \"f\" (func 1))";

const EXAMPLE: &[u8] = b"{\"source_filename\":\"a.wast\",\"commands\":[
{\"type\":\"module\",\"line\":1,\"filename\":\"a.0.wasm\"},
{\"type\":\"assert_return\",\"line\":5,\"action\":{\"type\":\"invoke\",\"field\":\"add\",
 \"args\":[{\"type\":\"i32\",\"value\":\"1\"},{\"type\":\"i32\",\"value\":\"2\"}]},
 \"expected\":[{\"type\":\"i32\",\"value\":\"3\"}]},
{\"type\":\"assert_return\",\"line\":6,\"action\":{\"type\":\"invoke\",\"field\":\"add\",
 \"args\":[{\"type\":\"i32\",\"value\":\"1\"},{\"type\":\"i32\",\"value\":\"2\"}]},
 \"expected\":[{\"type\":\"i32\",\"value\":\"4\"}]}]}";

const FIVE: &[u8] = br#"{"commands":[{"type":"module","line":1,"filename":"a"},
        {"type":"register","line":2,"as":"M"},
        {"type":"assert_return","line":3,"action":{"type":"invoke","field":"add","args":[{"type":"i32","value":"1"},{"type":"i32",
        "value":"2"}]},"expected":[{"type":"i32","value":"3"}]},
        {"type":"assert_unlinkable","line":4,"filename":"b","text":"unknown import"},
        {"type":"assert_trap","line":5,"action":{"type":"invoke","field":"call","args":[{"type":"i32","value":"0"}]},
        "text":"uninitialized element 2"}]}"#;

const EXHAUSTS: &[u8] = br#"{"commands":[{"type":"module","line":1,"filename":"e"},
        {"type":"assert_exhaustion","line":2,"action":{"type":"invoke","field":"loop","args":[]}},
        {"type":"assert_exhaustion","line":3,"action":{"type":"invoke","field":"deep","args":[]}}]}"#;

const CALLS_PRINTS: &[u8] = br#"{"commands":[{"type":"module","line":1,"filename":"p"},
        {"type":"assert_return","line":2,"action":{"type":"invoke","field":"f","args":[{"type":"i32","value":"5"}]},
        "expected":[{"type":"i32","value":"666"}]}]}"#;

const ACTS_ALONE: &[u8] =
    br#"{"commands":[{"type":"action","line":2,"action":{"type":"invoke","field":"add","args":[]}}]}"#;

const TEXT_ALONE: &[u8] =
    br#"{"commands":[{"type":"module","line":1,"filename":"a.wat","module_type":"text"}]}"#;

const UNKNOWN_SECOND: &[u8] = br#"{"commands":[{"type":"module","line":1,"filename":"a"},
        {"type":"assert_exception","line":2}]}"#;

const FLOAT_LINE: &[u8] = br#"{"commands":[{"type":"module","line":1.0,"filename":"a"}]}"#;

const TOO_LARGE: &[u8] =
    br#"{"commands":[{"type":"action","line":1,"action":{"type":"invoke","field":"f","args":[{"type":"i32","value":"4294967296"}]}}]}"#;

const ONE_MODULE: &[u8] = br#"{"commands":[{"type":"module","line":1,"filename":"a"}]}"#;

const BELOW: &[u8] = br#"{"commands":[{"type":"module","line":1,"filename":"it/a"}]}"#;

const ABOVE: &[u8] = br#"{"commands":[{"type":"module","line":1,"filename":"../a"}]}"#;

const AROUND: &[u8] = br#"{"commands":[{"type":"module","line":1,"filename":"it/../a"}]}"#;

const ROOTED: &[u8] = br#"{"commands":[{"type":"module","line":1,"filename":"/a"}]}"#;

const TWO_MODULES: &[u8] = br#"{"commands":[{"type":"module","line":1,"filename":"a"},
        {"type":"module","line":2,"filename":"b"}]}"#;

const OFTEN: &[u8] = br#"{"commands":[{"type":"module","line":1,"filename":"a"},
        {"type":"module","line":2,"filename":"a"},
        {"type":"module","line":3,"filename":"b"},
        {"type":"module","line":4,"filename":"a"}]}"#;

const BRACKETS: [u8; 200] = [b'['; 200];

#[rattlefmt::skip]
static ROWS: [Row; 22] = [
    Row {
        name: "no commands",
        words: "script s",
        folder: Folder { path: "s", script: br#"{"commands":[]}"#, modules: &[] },
        ending: Prints("passed 0 failed 0 skipped 0\n", 0),
    },
    Row {
        name: "a module in text",
        words: "script s",
        folder: Folder { path: "s", script: TEXT_ALONE, modules: &[] },
        ending: Prints("passed 0 failed 0 skipped 1\n", 0),
    },
    Row {
        name: "an action without an instance",
        words: "script s",
        folder: Folder { path: "s", script: ACTS_ALONE, modules: &[] },
        ending: Prints("line 2: failed\npassed 0 failed 1 skipped 0\n", 1),
    },
    Row {
        name: "a number in place of the array",
        words: "script s",
        folder: Folder { path: "s", script: br#"{"commands":3}"#, modules: &[] },
        ending: Refuses("refused 16 BadCommand(0)\n", 4),
    },
    Row {
        name: "a type of command that is none",
        words: "script s",
        folder: Folder { path: "s", script: UNKNOWN_SECOND, modules: &[("a", ADD)] },
        ending: Refuses("refused 16 BadCommand(1)\n", 4),
    },
    Row {
        name: "a line that is no whole number",
        words: "script s",
        folder: Folder { path: "s", script: FLOAT_LINE, modules: &[("a", ADD)] },
        ending: Refuses("refused 16 BadCommand(0)\n", 4),
    },
    Row {
        name: "an i32 that is too large",
        words: "script s",
        folder: Folder { path: "s", script: TOO_LARGE, modules: &[] },
        ending: Refuses("refused 16 BadCommand(0)\n", 4),
    },
    Row {
        name: "a script that is not there",
        words: "script t",
        folder: Folder { path: "s", script: ONE_MODULE, modules: &[("a", ADD)] },
        ending: Refuses("cannot read t\n", 3),
    },
    Row {
        name: "a named file that is not there",
        words: "script s",
        folder: Folder { path: "s", script: TWO_MODULES, modules: &[("a", ADD)] },
        ending: Refuses("cannot read b\n", 3),
    },
    Row {
        name: "a named file in the folder of the script",
        words: "script in/it/s",
        folder: Folder { path: "in/it/s", script: ONE_MODULE, modules: &[("in/it/a", ADD)] },
        ending: Prints("passed 1 failed 0 skipped 0\n", 0),
    },
    Row {
        name: "a named file that is not in the folder of the script",
        words: "script in/s",
        folder: Folder { path: "in/s", script: ONE_MODULE, modules: &[("a", ADD)] },
        ending: Refuses("cannot read in/a\n", 3),
    },
    Row {
        name: "a named file below the folder of the script",
        words: "script in/s",
        folder: Folder { path: "in/s", script: BELOW, modules: &[("in/it/a", ADD)] },
        ending: Prints("passed 1 failed 0 skipped 0\n", 0),
    },
    Row {
        name: "a named file above the folder of the script",
        words: "script in/s",
        folder: Folder { path: "in/s", script: ABOVE, modules: &[("in/../a", ADD)] },
        ending: Refuses("cannot read in/../a\n", 3),
    },
    Row {
        name: "a named file whose path goes up",
        words: "script in/s",
        folder: Folder { path: "in/s", script: AROUND, modules: &[("in/it/../a", ADD)] },
        ending: Refuses("cannot read in/it/../a\n", 3),
    },
    Row {
        name: "a named file from the root",
        words: "script in/s",
        folder: Folder { path: "in/s", script: ROOTED, modules: &[("in//a", ADD), ("/a", ADD)] },
        ending: Refuses("cannot read in//a\n", 3),
    },
    Row {
        name: "a named file beside a script in the root",
        words: "script /s",
        folder: Folder { path: "/s", script: ONE_MODULE, modules: &[("/a", ADD)] },
        ending: Prints("passed 1 failed 0 skipped 0\n", 0),
    },
    Row {
        name: "module, register, assert_return, assert_unlinkable and assert_trap",
        words: "script s",
        folder: Folder { path: "s", script: FIVE, modules: &[("a", ADD_AND_CALL), ("b", MISSING)] },
        ending: Prints("passed 5 failed 0 skipped 0\n", 0),
    },
    Row {
        name: "a right and a wrong sum",
        words: "script a.json",
        folder: Folder { path: "a.json", script: EXAMPLE, modules: &[("a.0.wasm", ADD)] },
        ending: Prints("line 6: failed\npassed 2 failed 1 skipped 0\n", 1),
    },
    Row {
        name: "two hundred brackets",
        words: "script s",
        folder: Folder { path: "s", script: &BRACKETS, modules: &[] },
        ending: Refuses("refused 15 NotJson\n", 4),
    },
    Row {
        name: "bytes that are no text",
        words: "script s",
        folder: Folder { path: "s", script: b"\xFF\xFE", modules: &[] },
        ending: Refuses("refused 15 NotJson\n", 4),
    },
    Row {
        name: "exhaustion of little fuel",
        words: "script s --fuel 1000",
        folder: Folder { path: "s", script: EXHAUSTS, modules: &[("e", ENDLESS)] },
        ending: Prints("passed 3 failed 0 skipped 0\n", 0),
    },
    Row {
        name: "imports of the stored module",
        words: "script --depth 2 s",
        folder: Folder { path: "s", script: CALLS_PRINTS, modules: &[("p", PRINTS)] },
        ending: Prints("passed 2 failed 0 skipped 0\n", 0),
    },
];

// Returns whether the run of a row ends as the row states.
fn agrees(alloc: Global, row: &'static Row) -> Result<bool, AllocError> {
    let words = words_of(alloc, row.words)?;
    let mut files = Reader {
        alloc,
        folder: &row.folder,
        reads: 0,
    };
    Ok(ends_so(alloc, words.as_slice(), &mut files, row.ending))
}

#[test]
fn scripts_are_run(rt: HostRuntime) {
    for row in &ROWS {
        assert!(rt; matches!(agrees(rt.alloc(), row), Ok(true)), "{}", row.name);
    }
}

// The first `count` bytes of the example, at each path.
#[derive(Drop)]
struct CutExample {
    alloc: Global,
    count: usize,
}

impl Files for CutExample {
    fn read(&mut self, _path: &str) -> Result<Vec<u8>, ReadFault> {
        let count = self.count.min(EXAMPLE.len());
        Vec::from_slice(self.alloc, &EXAMPLE[..count]).map_err(|_| ReadFault::Memory)
    }
}

// Returns whether the first `count` bytes of the example are refused.
fn is_refused(alloc: Global, count: usize) -> Result<bool, AllocError> {
    let words = words_of(alloc, "script a.json")?;
    let mut files = CutExample { alloc, count };
    Ok(ends_so(
        alloc,
        words.as_slice(),
        &mut files,
        Refuses("refused 15 NotJson\n", 4),
    ))
}

#[test]
fn a_script_without_its_last_brace_is_refused(rt: HostRuntime) {
    for count in 0..EXAMPLE.len() {
        assert!(rt; is_refused(rt.alloc(), count) == Ok(true), "{count} bytes");
    }
}

static NAMES_ONE_OFTEN: Folder = Folder {
    path: "s",
    script: OFTEN,
    modules: &[("a", ADD), ("b", ADD)],
};

// Returns how many files are read, including the script, if a script names one of two files three times.
fn files_read(alloc: Global) -> Result<u64, AllocError> {
    let words = words_of(alloc, "script s")?;
    let mut files = Reader {
        alloc,
        folder: &NAMES_ONE_OFTEN,
        reads: 0,
    };
    let all_pass = Prints("passed 4 failed 0 skipped 0\n", 0);
    if ends_so(alloc, words.as_slice(), &mut files, all_pass) {
        return Ok(files.reads);
    }
    Ok(0)
}

#[test]
fn each_named_file_is_read_once(rt: HostRuntime) {
    assert!(rt; files_read(rt.alloc()) == Ok(3));
}
