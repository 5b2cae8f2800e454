ghost use Rattle.std.specs.Prelude.{◌≡◌, [], ◌∷◌, ◌++◌, ◌+◌, ◌<◌, ◌^◌, length, map, slice_get, option_copied, IfOk, IfSome, OnOk, OnErr, IsSome, MatchOption, Some, None};
ghost use Rattle.meaning.specs.execution.Store.{instance_of};
ghost use Rattle.store.specs.Contents.{AddsFunctions, callee_function, code_store, contents_of, functions_in, functions_with, function_of, host_function, HasContextTypes, HasDeclaredBody, HasFlatCode, HasModuleTypes, instance_function, instances_in, IsCalleeAt, module_instance_of};
ghost use Rattle.store.specs.declared.instances.Callee.TheVariants.{InModule as InModuleForm};

use crate::entries::push_entries;
use crate::loaded_modules::LoadedModule;
use core_types::{Func, FuncType, item};
use sidetable::PackedFunction;
use std::alloc::{AllocError, Global};
use std::marker::Model;
use std::rc::Rc;

/// A function of the store (Execution, Runtime Structure, Function Instances).
#[derive(Clone, Copy)]
pub enum FunctionInstance {
    /// A function of a module: the number of its instance, and its index in the instance's module.
    InModule { instance: u32, index: u32 },
    /// A host function, by its number.
    InHost(u32),
}

/// The addresses of what an instance has, by kind and index.
#[derive(Drop)]
pub struct Addresses {
    pub functions: Vec<u32>,
    pub tables: Vec<u32>,
    pub memories: Vec<u32>,
    pub globals: Vec<u32>,
    pub elements: Vec<u32>,
    pub datas: Vec<u32>,
}

/// An instance of a module: the module, which other instances share, the addresses of what it has, and the number of its
/// imported functions. The functions of its module follow the imported ones.
#[derive(Drop)]
pub struct Instance {
    pub loaded: Rc<LoadedModule>,
    pub addresses: Addresses,
    pub imported: usize,
}

/// A borrowed function of a module: its type, its code, its flat code, and the number of its instance.
#[derive(Clone, Copy)]
pub struct ModuleFunction<'a> {
    pub ty: &'a FuncType,
    pub func: &'a Func,
    pub flat: &'a PackedFunction,
    pub instance: u32,
}

/// A borrowed host function: its type and its number.
#[derive(Clone, Copy)]
pub struct HostFunction<'a> {
    pub ty: &'a FuncType,
    pub number: u32,
}

/// A borrowed function of the store.
#[derive(Clone, Copy)]
pub enum Callee<'a> {
    InModule(ModuleFunction<'a>),
    InHost(HostFunction<'a>),
}

impl<'a> Callee<'a> {
    /// Returns the type of the function.
    pub fn ty(&self) -> &'a FuncType
        ensures { result.now ≡ (callee_function self.now).ty }
    {
        match self {
            Callee::InModule(function) => function.ty,
            Callee::InHost(function) => function.ty,
        }
    }
}

/// The part of the store that a run does not change: functions and module instances by address (Execution, Runtime Structure,
/// Store).
#[derive(Drop)]
pub struct Code {
    functions: Vec<FunctionInstance>,
    instances: Vec<Instance>,
    hosts: Vec<FuncType>,
}

impl Model for Code {
    ghost use Rattle.store.specs.Contents.{Contents, IsSound, contents_of};

    ghost Value = { Contents };

    ghost view = { λ s. contents_of s.functions.items s.instances.items s.hosts.items };

    ghost invariant = { λ s. IsSound
        (contents_of s.functions.items s.instances.items s.hosts.items) };
}

// Appends an instance. If memory runs out, the list is unchanged.
fn push_instance(instances: &mut Vec<Instance>, instance: Instance) -> Result<(), AllocError>
    ensures pushed { OnOk result (instances.new.items ≡ instances.old.items ++ instance ∷ []) }
    ensures unchanged { OnErr result (instances.new.items ≡ instances.old.items) }
{
    instances.push(instance)?;
    Ok(())
}

impl Code {
    /// Creates code without functions and instances. Allocates nothing.
    pub fn new(alloc: Global) -> Code
        ensures { result ≡ contents_of ([]) ([]) ([]) }
    {
        Code {
            functions: Vec::new(alloc),
            instances: Vec::new(alloc),
            hosts: Vec::new(alloc),
        }
    }

    /// Returns the number of functions.
    pub fn function_count(&self) -> usize
        ensures { result ≡ length self.now.functions }
    {
        self.functions.len()
    }

    /// Returns the number of instances.
    pub fn instance_count(&self) -> usize
        ensures { result ≡ length self.now.instances }
    {
        self.instances.len()
    }

    /// Returns the instance of a number, if there is one.
    pub fn instance(&self, number: u32) -> Option<&Instance>
        ensures { option_copied result ≡ slice_get self.now.instances number }
    {
        item(&self.instances, number)
    }

    /// Returns the type that an instance has under an index, if there is one (Execution, Runtime Structure, Module Instances).
    pub fn type_at(&self, instance: u32, x: u32) -> Option<&FuncType>
        ensures { option_copied result ≡ slice_get
            (instance_of (code_store self.now) (Some instance)).types x }
    {
        let found = item(&self.instances, instance)?;
        item(found.loaded.as_ref().module().types.as_slice(), x)
    }

    /// Returns the address of the function that an instance has under an index, if there is one (Execution, Runtime Structure,
    /// Module Instances).
    pub fn function_address(&self, instance: u32, x: u32) -> Option<u32>
        ensures { result ≡ slice_get (instance_of (code_store self.now) (Some instance)).functions
            x }
    {
        let found = item(&self.instances, instance)?;
        item(&found.addresses.functions, x).copied()
    }

    /// Returns the address of the table that an instance has under an index, if there is one.
    pub fn table_address(&self, instance: u32, x: u32) -> Option<u32>
        ensures { result ≡ slice_get (instance_of (code_store self.now) (Some instance)).tables x }
    {
        let found = item(&self.instances, instance)?;
        item(&found.addresses.tables, x).copied()
    }

    /// Returns the address of the memory that an instance has under an index, if there is one.
    pub fn memory_address(&self, instance: u32, x: u32) -> Option<u32>
        ensures { result ≡ slice_get (instance_of (code_store self.now) (Some instance)).memories
            x }
    {
        let found = item(&self.instances, instance)?;
        item(&found.addresses.memories, x).copied()
    }

    /// Returns the address of the global that an instance has under an index, if there is one.
    pub fn global_address(&self, instance: u32, x: u32) -> Option<u32>
        ensures { result ≡ slice_get (instance_of (code_store self.now) (Some instance)).globals x }
    {
        let found = item(&self.instances, instance)?;
        item(&found.addresses.globals, x).copied()
    }

    /// Returns the address of the element segment that an instance has under an index, if there is one.
    pub fn element_address(&self, instance: u32, x: u32) -> Option<u32>
        ensures { result ≡ slice_get (instance_of (code_store self.now) (Some instance)).elements
            x }
    {
        let found = item(&self.instances, instance)?;
        item(&found.addresses.elements, x).copied()
    }

    /// Returns the address of the data segment that an instance has under an index, if there is one.
    pub fn data_address(&self, instance: u32, x: u32) -> Option<u32>
        ensures { result ≡ slice_get (instance_of (code_store self.now) (Some instance)).datas x }
    {
        let found = item(&self.instances, instance)?;
        item(&found.addresses.datas, x).copied()
    }

    // Returns the function of a module that an instance has under an index.
    #[inline(always)]
    fn module_function(&self, instance: u32, index: u32) -> ModuleFunction<'_>
        requires { IsSome (instance_function instance index
            (slice_get self.now.instances instance)) }
        ensures found { instance_function instance index (slice_get self.now.instances instance) ≡
            Some (function_of result.ty.now result.instance result.func.now) }
        ensures instance { result.instance ≡ instance }
        ensures flat { HasFlatCode self.now (InModuleForm result) }
        ensures declared { HasDeclaredBody self.now.instances (InModuleForm result) }
        ensures types { HasContextTypes self.now (InModuleForm result) }
    {
        let found = self.instances[instance as usize]
            .loaded
            .as_ref()
            .function(index);
        ModuleFunction {
            ty: found.ty,
            func: found.func,
            flat: found.flat,
            instance,
        }
    }

    /// Returns the function at an address.
    #[inline(always)]
    pub fn callee(&self, address: u32) -> Callee<'_>
        requires { address < length self.now.functions }
        ensures { IsCalleeAt self.now address result }
    {
        match self.functions[address as usize] {
            FunctionInstance::InModule { instance, index } => {
                Callee::InModule(self.module_function(instance, index))
            }
            FunctionInstance::InHost(number) => Callee::InHost(HostFunction {
                ty: &self.hosts[number as usize],
                number,
            }),
        }
    }

    /// Returns the function at an address, if there is one.
    pub fn function(&self, address: u32) -> Option<Callee<'_>>
        ensures found { MatchOption result (slice_get (functions_in self.now) address ≡ None)
            (λ callee. slice_get (functions_in self.now) address ≡ Some (callee_function callee)) }
        ensures callee { IfSome result (IsCalleeAt self.now address) }
    {
        if (address as usize) < self.functions.len() {
            Some(self.callee(address))
        } else {
            None
        }
    }

    /// Appends a host function of a type, and returns its number. If memory runs out, nothing has changed.
    pub(crate) fn append_host(&mut self, ty: FuncType) -> Result<u32, AllocError>
        requires functions { length self.old.functions + 1 < 2 ^ 32 }
        requires hosts { length self.old.hosts + 1 < 2 ^ 32 }
        ensures number { IfOk result (λ number. number ≡ length self.old.hosts) }
        ensures functions { OnOk result
            (functions_in self.new ≡ functions_in self.old ++
            host_function (length self.old.hosts) ty
            ∷ []) }
        ensures instances { OnOk result (instances_in self.new ≡ instances_in self.old) }
        ensures hosts { OnOk result (self.new.hosts ≡ self.old.hosts ++ ty ∷ []) }
        ensures unchanged { OnErr result (self.new ≡ self.old) }
    {
        let number = self.hosts.len() as u32;
        self.functions.try_reserve(1)?;
        self.hosts.push(ty)?;
        self.functions
            .push(FunctionInstance::InHost(number))
            .unwrap();
        Ok(number)
    }

    /// Appends the functions of a module, and an instance of it with these addresses. If memory runs out, nothing has changed.
    pub(crate) fn append_instance(&mut self, instance: Instance) -> Result<(), AllocError>
        requires functions { length self.old.functions
            + length instance.loaded.value.source.funcs < 2 ^ 32 }
        requires instances { length self.old.instances + 1 < 2 ^ 32 }
        requires types { HasModuleTypes (functions_with self.old instance) instance }
        requires own { AddsFunctions (length self.old.functions) instance }
        ensures functions { OnOk result
            (functions_in self.new ≡ functions_with self.old instance) }
        ensures instances { OnOk result
            (instances_in self.new ≡ instances_in self.old ++ module_instance_of instance ∷ []) }
        ensures unchanged { OnErr result (self.new ≡ self.old) }
    {
        let number = self.instances.len() as u32;
        let first = self.functions.len();
        let count = instance.loaded.as_ref().module().funcs.len() as u32;
        push_entries(&mut self.functions, number, count)?;
        match push_instance(&mut self.instances, instance) {
            Ok(()) => Ok(()),
            Err(error) => {
                self.functions.truncate(first);
                Err(error)
            }
        }
    }
}
