//! Tests of the validator, with modules in the text format, of import matching, and of descriptions of modules.
#![tactic(auto)]

#[cfg(test)]
mod answers;
#[cfg(test)]
mod blocks;
#[cfg(test)]
mod control;
#[cfg(test)]
mod descriptions;
#[cfg(test)]
mod import_matching;
#[cfg(test)]
mod long_types;
#[cfg(test)]
mod memories;
#[cfg(test)]
mod mixed;
#[cfg(test)]
mod modules;
#[cfg(test)]
mod numeric;
#[cfg(test)]
mod operands;
#[cfg(test)]
mod reasons;
#[cfg(test)]
mod refusals;
#[cfg(test)]
mod spellings;
#[cfg(test)]
mod tables;
