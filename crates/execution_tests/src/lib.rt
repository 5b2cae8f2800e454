//! Tests of execution: of `core_types`, `cells`, `intops`, `fuel`, `sidetable`, `store`, `bulkops`, `effects`, `exec`,
//! `instantiate` and `linker`.
#![tactic(auto)]

#[cfg(test)]
mod accesses;
#[cfg(test)]
mod collections;
#[cfg(test)]
mod copies;
#[cfg(test)]
mod flattening;
#[cfg(test)]
mod host_calls;
#[cfg(test)]
mod hosts;
#[cfg(test)]
mod linked_tail_calls;
#[cfg(test)]
mod links;
#[cfg(test)]
mod listing;
#[cfg(test)]
mod memories;
#[cfg(test)]
mod metering;
#[cfg(test)]
mod modules;
#[cfg(test)]
mod names;
#[cfg(test)]
mod numeric_cells;
#[cfg(test)]
mod numeric_rows;
#[cfg(test)]
mod numerics;
#[cfg(test)]
mod object_runs;
#[cfg(test)]
mod one_reading;
#[cfg(test)]
mod runs;
#[cfg(test)]
mod stores;
#[cfg(test)]
mod tables;
#[cfg(test)]
mod tail_calls;
#[cfg(test)]
mod values;
