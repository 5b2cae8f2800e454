ghost use Rattle.std.specs.Prelude.{◌+◌, ◌<◌, ◌^◌, IfOk, IfErr, OnOk, length, map};
ghost use Rattle.hostfunc.specs.Boxes.{HaveHosts};
ghost use Rattle.hostfunc.specs.Tables.{hosts_in};
ghost use Rattle.store.specs.Contents.{store_of};
ghost use Rattle.embed.specs.Definitions.{AreTakenIn, IsAtFault, IsFirstFault, IsNamed, TakesIn, definition_of};

use crate::config::Config;
use crate::host_definitions::HostDef;
use crate::new_fault::NewFault;
use hostfunc::{HostFn, HostTable, has_funcref, object_type};
use linker::Names;
use std::alloc::Global;
use store::Store;

/// The names, functions and objects of the host functions that are defined.
#[derive(Drop)]
pub struct Defined {
    pub names: Names,
    pub store: Store,
    pub hosts: HostTable,
}

// Names a host function as the next one, and adds its type.
fn name_host(
    alloc: Global,
    definition: &HostDef,
    names: &mut Names,
    store: &mut Store,
) -> Result<(), NewFault>
    requires functions { length (store_of store.old).functions + 1 < 2 ^ 32 }
    requires hosts { length store.old.code.hosts + 1 < 2 ^ 32 }
    ensures named { OnOk result (IsNamed (definition_of ⟦<dyn HostFn as HostFn>⟧ definition.now)
        names.old names.new store.old store.new) }
    ensures refused { IfErr result
        (λ fault. IsAtFault ⟦<dyn HostFn as HostFn>⟧ fault names.old definition.now) }
{
    let ty = object_type(&definition.func);
    if has_funcref(ty.results.as_slice()) {
        return Err(NewFault::HostFuncRef);
    }
    let address = store.code().function_count() as u32;
    names.define_host(
        definition.module.as_str(),
        definition.name.as_str(),
        address,
    )?;
    store.append_host(ty.copy(alloc)?)?;
    Ok(())
}

fn define_host(alloc: Global, definition: HostDef, defined: &mut Defined) -> Result<(), NewFault>
    requires functions { length (store_of defined.old.store).functions + 1 < 2 ^ 32 }
    requires hosts { length defined.old.store.code.hosts + 1 < 2 ^ 32 }
    requires objects { length (hosts_in defined.old.hosts) + 1 < 2 ^ 32 }
    ensures defined { OnOk result (TakesIn defined.old
        (definition_of ⟦<dyn HostFn as HostFn>⟧ definition) defined.new) }
    ensures refused { IfErr result
        (λ fault. IsAtFault ⟦<dyn HostFn as HostFn>⟧ fault defined.old.names definition) }
{
    name_host(alloc, &definition, &mut defined.names, &mut defined.store)?;
    defined.hosts.push(definition.func)?;
    Ok(())
}

/// Defines host functions, in order. Refuses the first one at fault.
pub fn define_hosts(
    alloc: Global,
    config: &Config,
    definitions: Vec<HostDef>,
) -> Result<Defined, NewFault>
    requires { length definitions.items < 2 ^ 32 }
    ensures defined { IfOk result (AreTakenIn config.now.pages config.now.entries
        (map (definition_of ⟦<dyn HostFn as HostFn>⟧) definitions.items)) }
    ensures typed { IfOk result (λ defined. HaveHosts (store_of defined.store)
        (hosts_in defined.hosts)) }
    ensures refused { IfErr result
        (λ fault. IsFirstFault ⟦<dyn HostFn as HostFn>⟧ fault definitions.items) }
{
    let mut defined = Defined {
        names: Names::new(alloc),
        store: Store::new(alloc, config.pages(), config.entries()),
        hosts: HostTable::new(alloc),
    };
    for definition in definitions {
        define_host(alloc, definition, &mut defined)?;
    }
    Ok(defined)
}
