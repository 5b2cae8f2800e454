//! Decoding, validating, flattening and loading modules.

use crate::attempts::Attempt;
use crate::texts::WHOLE;
use crate::verdicts::Answer;
use binary::{DecodeError, decode};
use core_types::Module;
use loading::load;
use sidetable::flatten;
use std::alloc::Global;
use std::rc::Rc;
use store::LoadedModule;
use testing::assemble;
use validator::{ValidateError, validate};

/// Returns the module of a text, or none if the text represents none.
fn decoded_module(alloc: Global, text: &str) -> Option<Module> {
    let Ok(bytes) = assemble(alloc, text) else {
        return None;
    };
    decode(alloc, &bytes).ok()
}

// Returns two modules that are alike.
fn two_modules(alloc: Global) -> Option<Vec<Module>> {
    let mut modules = Vec::new(alloc);
    for _ in 0..2 {
        modules.push(decoded_module(alloc, WHOLE)?).ok()?;
    }
    Some(modules)
}

/// Returns the loaded module of a text, or none if the text represents none or an invalid one.
pub fn loaded_module(alloc: Global, text: &str) -> Option<Rc<LoadedModule>> {
    let Ok(loaded) = LoadedModule::new(alloc, decoded_module(alloc, text)?) else {
        return None;
    };
    Rc::new(alloc, loaded).ok()
}

// Returns whether a module has what the text states: functions, imports, segments and exports.
fn is_whole(module: &Module) -> bool {
    module.types.len() == 3
        && module.imports.len() == 3
        && module.funcs.len() == 3
        && module.elements.len() == 2
        && module.datas.len() == 2
        && module.exports.len() == 2
        && module.start == Some(3)
}

/// The decoding of a module.
#[derive(Drop)]
pub struct Decoding {
    alloc: Global,
    bytes: Vec<u8>,
}

impl Decoding {
    /// Prepares everything that the call needs. Returns none if that fails.
    pub fn prepare(alloc: Global) -> Option<Decoding> {
        let bytes = assemble(alloc, WHOLE).ok()?;
        Some(Decoding { alloc, bytes })
    }
}

impl Attempt for Decoding {
    fn attempt(&mut self) -> Answer {
        match decode(self.alloc, &self.bytes) {
            Ok(module) => Answer::with_memory(is_whole(&module)),
            Err(DecodeError::OutOfMemory) => Answer::Wanting,
            Err(_) => Answer::Wrong,
        }
    }
}

/// The loading of a module in one reading.
#[derive(Drop)]
pub struct OneReading {
    alloc: Global,
    bytes: Vec<u8>,
}

impl OneReading {
    /// Prepares everything that the call needs. Returns none if that fails.
    pub fn prepare(alloc: Global) -> Option<OneReading> {
        let bytes = assemble(alloc, WHOLE).ok()?;
        Some(OneReading { alloc, bytes })
    }
}

impl Attempt for OneReading {
    fn attempt(&mut self) -> Answer {
        match load(self.alloc, &self.bytes) {
            Ok(Some(loaded)) => Answer::with_memory(is_whole(loaded.module())),
            Ok(None) => Answer::Wrong,
            Err(_) => Answer::Wanting,
        }
    }
}

/// The validation of a module. Each attempt takes a module, so there are two that are alike.
#[derive(Drop)]
pub struct Validating {
    alloc: Global,
    modules: Vec<Module>,
}

impl Validating {
    /// Prepares everything that the call needs. Returns none if that fails.
    pub fn prepare(alloc: Global) -> Option<Validating> {
        let modules = two_modules(alloc)?;
        Some(Validating { alloc, modules })
    }
}

impl Attempt for Validating {
    fn attempt(&mut self) -> Answer {
        let Some(module) = self.modules.pop() else {
            return Answer::Wrong;
        };
        match validate(self.alloc, module) {
            Ok(_) => Answer::Ample,
            Err(ValidateError::OutOfMemory) => Answer::Wanting,
            Err(_) => Answer::Wrong,
        }
    }
}

/// The flattening of a module. Each attempt takes a module, so there are two that are alike.
#[derive(Drop)]
pub struct Flattening {
    alloc: Global,
    modules: Vec<Module>,
}

impl Flattening {
    /// Prepares everything that the call needs. Returns none if that fails.
    pub fn prepare(alloc: Global) -> Option<Flattening> {
        let modules = two_modules(alloc)?;
        Some(Flattening { alloc, modules })
    }
}

impl Attempt for Flattening {
    fn attempt(&mut self) -> Answer {
        let Some(module) = self.modules.pop() else {
            return Answer::Wrong;
        };
        match flatten(self.alloc, module) {
            Ok((_, flat)) => Answer::with_memory(flat.functions.len() == 3),
            Err(ValidateError::OutOfMemory) => Answer::Wanting,
            Err(_) => Answer::Wrong,
        }
    }
}

/// The loading of a module. Each attempt takes a module, so there are two that are alike.
#[derive(Drop)]
pub struct Loading {
    alloc: Global,
    modules: Vec<Module>,
}

impl Loading {
    /// Prepares everything that the call needs. Returns none if that fails.
    pub fn prepare(alloc: Global) -> Option<Loading> {
        let modules = two_modules(alloc)?;
        Some(Loading { alloc, modules })
    }
}

impl Attempt for Loading {
    fn attempt(&mut self) -> Answer {
        let Some(module) = self.modules.pop() else {
            return Answer::Wrong;
        };
        match LoadedModule::new(self.alloc, module) {
            Ok(loaded) => Answer::with_memory(is_whole(loaded.module())),
            Err(ValidateError::OutOfMemory) => Answer::Wanting,
            Err(_) => Answer::Wrong,
        }
    }
}
