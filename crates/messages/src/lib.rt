//! Messages: numbers, texts, types and values as bytes, and messages over descriptors.
#![tactic(auto)]

mod faults;
mod numbers;
mod streams;
mod types;
mod values;

pub use faults::ReadFault;
pub use numbers::{push_number, push_text, split_number, split_text};
pub use streams::{
    FieldsFault, Head, StreamEnd, push_message, read_fields, read_head, read_number, skip,
    write_message,
};
pub use types::{push_type, push_types, split_types};
pub use values::{push_value, push_values, read_values, split_value};
