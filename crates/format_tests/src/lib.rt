//! Tests of the binary format: of `leb` and `binary`, and of the assembler in `testing`.
#![tactic(auto)]

#[cfg(test)]
mod assembling;
#[cfg(test)]
mod counts;
#[cfg(test)]
mod decoding;
#[cfg(test)]
mod integers;
#[cfg(test)]
mod limits;
#[cfg(test)]
mod mnemonics;
#[cfg(test)]
mod modules;
#[cfg(test)]
mod operations;
#[cfg(test)]
mod printing;
#[cfg(test)]
mod refusals;
#[cfg(test)]
mod sections;
