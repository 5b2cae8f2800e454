//! The reports of scripts for modules with tail calls.

use crate::script_running::{End, Row, is_run};
use End::Counts;

#[rattlefmt::skip]
static ROWS: [Row; 2] = [
    Row {
        name: "tail calls",
        commands: r#"{"type":"module","line":1,"filename":"a"},
            {"type":"assert_return","line":2,"action":{"type":"invoke","field":"even","args":[{"type":"i32","value":"140"}]},
            "expected":[{"type":"i32","value":"1"}]},
            {"type":"assert_return","line":3,"action":{"type":"invoke","field":"odd","args":[{"type":"i32","value":"140"}]},
            "expected":[{"type":"i32","value":"0"}]},
            {"type":"assert_return","line":4,"action":{"type":"invoke","field":"through","args":[{"type":"i32","value":"7"},{"type":"i32",
            "value":"0"}]},"expected":[{"type":"i32","value":"0"}]},
            {"type":"assert_trap","line":5,"action":{"type":"invoke","field":"through","args":[{"type":"i32","value":"7"},{"type":"i32",
            "value":"1"}]},"text":"uninitialized element 1"},
            {"type":"assert_trap","line":6,"action":{"type":"invoke","field":"through","args":[{"type":"i32","value":"7"},{"type":"i32",
            "value":"2"}]},"text":"undefined element"},
            {"type":"assert_exhaustion","line":7,"action":{"type":"invoke","field":"even","args":[{"type":"i32","value":"143"}]}},
            {"type":"assert_exhaustion","line":8,"action":{"type":"invoke","field":"last","args":[]}}"#,
        files: "a=even_and_odd",
        end: Counts(8, 0, 0, &[]),
    },
    Row {
        name: "a tail call of a registered function, and one with another result",
        commands: r#"{"type":"module","line":1,"filename":"1"},
            {"type":"register","line":2,"as":"M"},
            {"type":"module","line":3,"filename":"g"},
            {"type":"assert_return","line":4,"action":{"type":"invoke","field":"g","args":[]},"expected":[{"type":"i32","value":"1"}]},
            {"type":"assert_return","line":5,"action":{"type":"invoke","field":"g","args":[]},"expected":[{"type":"i32","value":"2"}]},
            {"type":"assert_exhaustion","line":6,"action":{"type":"invoke","field":"g","args":[]}},
            {"type":"assert_invalid","line":7,"filename":"x"}"#,
        files: "1=one g=calls_f_last x=other_result",
        end: Counts(5, 2, 0, &[5, 6]),
    },
];

#[test]
fn tail_calls_are_run(rt: HostRuntime) {
    for row in &ROWS {
        assert!(rt; is_run(rt.alloc(), row), "{}", row.name);
    }
}
