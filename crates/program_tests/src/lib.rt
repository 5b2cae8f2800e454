//! Tests of the program, with arguments, files and writers in memory.
#![tactic(auto)]

#[cfg(test)]
mod arguments;
#[cfg(test)]
mod calls;
#[cfg(test)]
mod checks;
#[cfg(test)]
mod compiled;
#[cfg(test)]
mod depths;
#[cfg(test)]
mod engine_script;
#[cfg(test)]
mod files;
#[cfg(test)]
mod large_modules;
#[cfg(test)]
mod lines;
#[cfg(test)]
mod memories;
#[cfg(test)]
mod outputs;
#[cfg(test)]
mod printing;
#[cfg(test)]
mod runs;
#[cfg(test)]
mod script_runs;
#[cfg(test)]
mod tables;
#[cfg(test)]
mod usage;
#[cfg(test)]
mod writers;
