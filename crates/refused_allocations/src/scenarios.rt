//! The scenarios, by name.

use crate::attempts::{hold, judge};
use crate::calls::{Calling, Rounds};
use crate::conversations::{prepare_all, prepare_growth, prepare_link, prepare_start};
use crate::embeddings::{
    judge_created, prepare_export_type, prepare_exports, prepare_global, prepare_load,
    prepare_named_export, prepare_register,
};
use crate::hosts::{Parts, judge_push};
use crate::linking::{Defining, Describing, Instantiating, Registering};
use crate::list::judge_list;
use crate::modules::{Decoding, Flattening, Loading, OneReading, Validating};
use crate::script_runs::{Reading, Running};
use crate::stores::{GrowingMemory, GrowingTable, Reserving};
use crate::verdicts::Verdict;
use std::alloc::Global;

/// A call that allocates, or a list of such calls.
#[derive(Clone, Copy)]
pub enum Scenario {
    Decode,
    Validate,
    Flatten,
    LoadedModule,
    OneReading,
    Instantiate,
    Invoke,
    OneRound,
    ManyRounds,
    DefineHost,
    RegisterName,
    ExternType,
    ReserveAll,
    GrowMemory,
    GrowTable,
    PushHost,
    NewEmbedding,
    Load,
    Link,
    FailedStart,
    Register,
    GetGlobal,
    GrowthInCall,
    ApplyAll,
    ExportType,
    Exports,
    NamedExport,
    HostParts,
    ReadScript,
    RunScript,
    List,
}

/// All scenarios.
pub static SCENARIOS: [Scenario; 31] = [
    Scenario::Decode,
    Scenario::Validate,
    Scenario::Flatten,
    Scenario::LoadedModule,
    Scenario::OneReading,
    Scenario::Instantiate,
    Scenario::Invoke,
    Scenario::OneRound,
    Scenario::ManyRounds,
    Scenario::DefineHost,
    Scenario::RegisterName,
    Scenario::ExternType,
    Scenario::ReserveAll,
    Scenario::GrowMemory,
    Scenario::GrowTable,
    Scenario::PushHost,
    Scenario::NewEmbedding,
    Scenario::Load,
    Scenario::Link,
    Scenario::FailedStart,
    Scenario::Register,
    Scenario::GetGlobal,
    Scenario::GrowthInCall,
    Scenario::ApplyAll,
    Scenario::ExportType,
    Scenario::Exports,
    Scenario::NamedExport,
    Scenario::HostParts,
    Scenario::ReadScript,
    Scenario::RunScript,
    Scenario::List,
];

impl Scenario {
    /// Returns the name by which the scenario is requested.
    pub fn name(self) -> &'static str {
        match self {
            Scenario::Decode => "decode",
            Scenario::Validate => "validate",
            Scenario::Flatten => "flatten",
            Scenario::LoadedModule => "loaded-module",
            Scenario::OneReading => "one-reading",
            Scenario::Instantiate => "instantiate",
            Scenario::Invoke => "invoke",
            Scenario::OneRound => "one-round",
            Scenario::ManyRounds => "many-rounds",
            Scenario::DefineHost => "define-host",
            Scenario::RegisterName => "register-name",
            Scenario::ExternType => "extern-type",
            Scenario::ReserveAll => "reserve-all",
            Scenario::GrowMemory => "grow-memory",
            Scenario::GrowTable => "grow-table",
            Scenario::PushHost => "push-host",
            Scenario::NewEmbedding => "new-embedding",
            Scenario::Load => "load",
            Scenario::Link => "link",
            Scenario::FailedStart => "failed-start",
            Scenario::Register => "register",
            Scenario::GetGlobal => "get-global",
            Scenario::GrowthInCall => "growth-in-call",
            Scenario::ApplyAll => "apply-all",
            Scenario::ExportType => "export-type",
            Scenario::Exports => "exports",
            Scenario::NamedExport => "named-export",
            Scenario::HostParts => "host-parts",
            Scenario::ReadScript => "read-script",
            Scenario::RunScript => "run-script",
            Scenario::List => "list",
        }
    }
}

/// Returns the scenario with this name, if there is one.
pub fn scenario_of(name: &str) -> Option<Scenario> {
    for scenario in &SCENARIOS {
        if scenario.name() == name {
            return Some(*scenario);
        }
    }
    None
}

/// Runs a scenario, with `before` unused allocations before its first call. Returns the verdict.
pub fn run_scenario(alloc: Global, scenario: Scenario, before: usize) -> Verdict {
    match scenario {
        Scenario::Decode => judge(Decoding::prepare(alloc), alloc, before, "decode"),
        Scenario::Validate => judge(Validating::prepare(alloc), alloc, before, "validate"),
        Scenario::Flatten => judge(Flattening::prepare(alloc), alloc, before, "flatten"),
        Scenario::LoadedModule => judge(
            Loading::prepare(alloc),
            alloc,
            before,
            "LoadedModule::new",
        ),
        Scenario::OneReading => judge(OneReading::prepare(alloc), alloc, before, "loading::load"),
        Scenario::Instantiate => judge(Instantiating::prepare(alloc), alloc, before, "instantiate"),
        Scenario::Invoke => judge(Calling::prepare(alloc), alloc, before, "invoke"),
        Scenario::OneRound => judge(Rounds::prepare(alloc, 1), alloc, before, "invoke"),
        Scenario::ManyRounds => judge(Rounds::prepare(alloc, 10_000), alloc, before, "invoke"),
        Scenario::DefineHost => judge(Defining::prepare(alloc), alloc, before, "define_host"),
        Scenario::RegisterName => judge(Registering::prepare(alloc), alloc, before, "register"),
        Scenario::ExternType => judge(Describing::prepare(alloc), alloc, before, "extern_type"),
        Scenario::ReserveAll => judge(Reserving::prepare(alloc), alloc, before, "reserve_all"),
        Scenario::GrowMemory => judge(GrowingMemory::prepare(alloc), alloc, before, "mem_grow"),
        Scenario::GrowTable => judge(GrowingTable::prepare(alloc), alloc, before, "table_grow"),
        Scenario::PushHost => judge_push(alloc, before),
        Scenario::NewEmbedding => judge_created(alloc, before),
        Scenario::Load => judge(prepare_load(alloc), alloc, before, "Load"),
        Scenario::Link => hold(prepare_link(alloc), alloc, before),
        Scenario::FailedStart => hold(prepare_start(alloc), alloc, before),
        Scenario::Register => judge(prepare_register(alloc), alloc, before, "Register"),
        Scenario::GetGlobal => judge(prepare_global(alloc), alloc, before, "GetGlobal"),
        Scenario::GrowthInCall => hold(prepare_growth(alloc), alloc, before),
        Scenario::ApplyAll => hold(prepare_all(alloc), alloc, before),
        Scenario::ExportType => judge(prepare_export_type(alloc), alloc, before, "export_type"),
        Scenario::Exports => judge(prepare_exports(alloc), alloc, before, "exports"),
        Scenario::NamedExport => {
            judge(prepare_named_export(alloc), alloc, before, "export_named")
        }
        Scenario::HostParts => judge(Parts::prepare(alloc), alloc, before, "host parts"),
        Scenario::ReadScript => judge(Reading::prepare(alloc), alloc, before, "read_script"),
        Scenario::RunScript => judge(Running::prepare(alloc), alloc, before, "run_script"),
        Scenario::List => judge_list(alloc, before),
    }
}
