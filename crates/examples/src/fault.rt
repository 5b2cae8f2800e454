//! Why a host stops.

use embed::{NewFault, Refusal};
use std::io;
use thiserror::Error;

/// Why a host makes no more calls.
#[derive(Debug, Drop, Error)]
pub enum Fault {
    #[error("{0}")]
    Io(#[from] io::Error),
    #[error("{0}")]
    New(#[from] NewFault),
    #[error("{0}")]
    Refused(#[from] Refusal),
    #[error("a module does not start")]
    Start,
}
