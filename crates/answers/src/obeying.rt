ghost use Rattle.std.specs.Prelude.{◌≡◌, ◌++◌, ◌∷◌, [], IfOk, OnOk, OnErr};
ghost use Rattle.embed.specs.Contents.{embedding_of};
ghost use Rattle.hostfunc.specs.Boxes.{HostStep};
ghost use Rattle.orders.specs.Orders.{QuotaLeft as QuotaOrder};
ghost use Rattle.orders.specs.Readings.{order_of};
ghost use Rattle.quota.specs.Counting.{left_of};
ghost use Rattle.scripts.specs.Runs.{files_view};
ghost use Rattle.answers.specs.Obeying.{GivesExport, LeavesFiles, ListsExports, ListsModuleExports, ListsModuleImports, Obeys, RunsText};

use crate::answer::Answer;
use crate::causes::Cause;
use embed::{Embedding, HostFn, InstanceNumber, ModuleNumber, Refusal, Reply};
use orders::Order;
use scripts::{Report, ScriptFault, read_script, run_script};
use std::alloc::{AllocError, Global};

// Returns the answer that memory ran out and nothing has changed.
fn no_memory() -> Answer
    ensures { result ≡ Answer.Refused (Cause.Command Refusal.OutOfMemory) }
{
    Answer::Refused(Cause::Command(Refusal::OutOfMemory))
}

// Appends a file to those of the next script.
fn add_file(
    alloc: Global,
    name: &str,
    bytes: &[u8],
    files: &mut Vec<(String, Vec<u8>)>,
) -> Result<(), AllocError>
    ensures kept { OnOk result (files_view files.new.items ≡ files_view files.old.items
        ++ (name.now, bytes.now) ∷ []) }
    ensures unchanged { OnErr result (files.new.items ≡ files.old.items) }
{
    let name = String::from_str(alloc, name)?;
    let bytes = Vec::from_slice(alloc, bytes)?;
    files.push((name, bytes))?;
    Ok(())
}

// Runs the script of a text with files.
fn run_text(
    alloc: Global,
    embedding: &mut Embedding,
    text: &[u8],
    files: &[(String, Vec<u8>)],
) -> Answer
    requires nothing { Unit {0} }
    ensures { RunsText ⟦<dyn HostFn as HostFn>⟧ files.now text.now (embedding_of embedding.old)
        result (embedding_of embedding.new) }
{
    match read_script(alloc, text) {
        Ok(script) => match run_script(alloc, &script, files, embedding) {
            Ok(report) => Answer::Ran(report),
            Err(fault) => Answer::Refused(Cause::Script(fault)),
        },
        Err(fault) => Answer::Refused(Cause::Script(fault)),
    }
}

// Lists what an instance exports.
fn list_exports(embedding: &Embedding, instance: u64) -> Answer
    requires nothing { Unit {0} }
    ensures { ListsExports ⟦<dyn HostFn as HostFn>⟧ (embedding_of embedding.now) instance result }
{
    match embedding.exports(InstanceNumber(instance)) {
        Ok(exports) => Answer::Exports(exports),
        Err(refusal) => Answer::Refused(Cause::Command(refusal)),
    }
}

// Returns the type of what an instance exports under a name.
fn give_export(embedding: &Embedding, instance: u64, name: &str) -> Answer
    requires nothing { Unit {0} }
    ensures { GivesExport ⟦<dyn HostFn as HostFn>⟧ (embedding_of embedding.now) instance name.now
        result }
{
    match embedding.export_named(InstanceNumber(instance), name) {
        Ok(exports) => Answer::Exports(exports),
        Err(refusal) => Answer::Refused(Cause::Command(refusal)),
    }
}

// Lists what a module imports.
fn list_module_imports(embedding: &Embedding, number: u64) -> Answer
    requires nothing { Unit {0} }
    ensures { ListsModuleImports ⟦<dyn HostFn as HostFn>⟧ (embedding_of embedding.now) number
        result }
{
    match embedding.module_imports(ModuleNumber(number)) {
        Ok(imports) => Answer::Imports(imports),
        Err(refusal) => Answer::Refused(Cause::Command(refusal)),
    }
}

// Lists what a module exports.
fn list_module_exports(embedding: &Embedding, number: u64) -> Answer
    requires nothing { Unit {0} }
    ensures { ListsModuleExports ⟦<dyn HostFn as HostFn>⟧ (embedding_of embedding.now) number
        result }
{
    match embedding.module_exports(ModuleNumber(number)) {
        Ok(exports) => Answer::Exports(exports),
        Err(refusal) => Answer::Refused(Cause::Command(refusal)),
    }
}

/// Obeys an order, and returns the answer. `files` are those of the next script, which takes them all. An order to explain the one
/// before is answered by `explain`, and not here.
pub fn obey(
    alloc: Global,
    embedding: &mut Embedding,
    order: &Order<'_>,
    files: &mut Vec<(String, Vec<u8>)>,
) -> Answer
    requires nothing { Unit {0} }
    ensures files { LeavesFiles files.old.items (order_of order.now) result files.new.items }
    ensures quota_left { order_of order.now ≡ QuotaOrder → result ≡ Answer.QuotaLeft
        (left_of embedding.old.quota) }
    ensures obeyed { Obeys ⟦<dyn HostFn as HostFn>⟧ files.old.items (embedding_of embedding.old)
        (order_of order.now) result (embedding_of embedding.new) }
{
    match order {
        Order::End => Answer::Done,
        Order::Load(bytes) => Answer::Applied(Reply::from(embedding.load(bytes))),
        Order::Link(number) => Answer::Applied(Reply::from(embedding.link(ModuleNumber(*number)))),
        Order::Register(number, name) => {
            Answer::Applied(Reply::from(embedding.register(InstanceNumber(*number), name)))
        }
        Order::Call(number, name, args) => Answer::Applied(Reply::from(embedding.call(
            InstanceNumber(*number),
            name,
            args.as_slice(),
        ))),
        Order::GetGlobal(number, name) => {
            match embedding.get_global(InstanceNumber(*number), name) {
                Ok(value) => Answer::Global(value),
                Err(refusal) => Answer::Applied(Reply::Refused(refusal)),
            }
        }
        Order::SetFuel(fuel) => {
            embedding.set_fuel(*fuel);
            Answer::Applied(Reply::Done)
        }
        Order::FuelLeft => Answer::FuelLeft(embedding.fuel_left()),
        Order::Exports(number) => list_exports(embedding, *number),
        Order::NamedExport(number, name) => give_export(embedding, *number, name),
        Order::File(name, bytes) => match add_file(alloc, name, bytes, files) {
            Ok(()) => Answer::Done,
            Err(_) => no_memory(),
        },
        Order::RunScript(text) => {
            let answer = run_text(alloc, embedding, text, files.as_slice());
            files.clear();
            answer
        }
        Order::QuotaLeft => Answer::QuotaLeft(embedding.quota_left()),
        Order::ModuleImports(number) => list_module_imports(embedding, *number),
        Order::ModuleExports(number) => list_module_exports(embedding, *number),
        Order::Define(..) | Order::Begin(..) | Order::Quota(_) | Order::Explain => Answer::NotNow,
    }
}
