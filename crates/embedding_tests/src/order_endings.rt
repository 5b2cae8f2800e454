//! The endings of a server, as exit statuses.

use serve::Ending;

#[rattlefmt::skip]
static STATUSES: [(&str, Ending, u8); 5] = [
    ("told to", Ending::Told, 0),
    ("input over", Ending::InputOver, 1),
    ("cut short", Ending::CutShort, 2),
    ("not written", Ending::NotWritten, 3),
    ("out of memory", Ending::OutOfMemory, 4),
];

#[test]
fn endings_have_statuses(rt: HostRuntime) {
    for (name, ending, status) in &STATUSES {
        assert!(rt; ending.status() == *status, "{name}");
    }
}
