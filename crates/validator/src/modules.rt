ghost use Rattle.std.specs.Prelude.{IfErr, IfOk, IsTrue, OnErr, OnOk, false, ◌≡◌, ◌⊎◌};
ghost use Rattle.index_spaces.specs.IndexSpaces.{AreIndexSpaces};
ghost use Rattle.meaning.specs.validation.Modules.{IsValid};
ghost use Rattle.binary.specs.Sections.{name_data};
ghost use Rattle.export_names.specs.Order.{IsNameOrder};
ghost use Rattle.validator.specs.Constants.{IsConstantContext};
ghost use Rattle.validator.specs.Modules.{HasValidDeclarations, HasValidParts};
ghost use Rattle.validator.specs.References.{HasMarks};
ghost use Rattle.validator.specs.Visiting.{InTurn, IsShownFunction};
ghost use Rattle.validator.specs.declared.errors.Place.TheVariants.{Section};
ghost use Rattle.validator.specs.declared.errors.ValidateError.TheVariants.{Invalid, OutOfMemory};

use crate::constants::ConstantContext;
use crate::context::references::mark_references;
use crate::data_segments::are_valid_datas;
use crate::elements::are_valid_elements;
use crate::errors::{Place, ValidateError};
use crate::exports::all_exist;
use crate::functions::{are_typed, validate_functions};
use crate::globals::are_valid_globals;
use crate::imports::are_valid_imports;
use crate::memories::{are_valid_memories, is_at_most_one};
use crate::start::is_valid_start;
use crate::tables::are_valid_tables;
use crate::valid_module::ValidModule;
use crate::visitor::{NoVisitor, Visitor};
use core_types::Module;
use export_names::NameOrder;
use index_spaces::IndexSpaces;
use std::alloc::Global;

// Refuses the section of this id, unless its rule holds.
fn require(holds: bool, id: u8) -> Result<(), ValidateError>
    ensures valid { OnOk result (IsTrue holds) }
    ensures invalid { IfErr result (λ error. (holds ≡ false) × (error ≡ Invalid (Section id))) }
{
    if holds {
        Ok(())
    } else {
        Err(ValidateError::Invalid(Place::Section(id)))
    }
}

// Checks what a module imports and declares, each item alone.
fn validate_declarations(decoded: &Module) -> Result<(), ValidateError>
    ensures valid { OnOk result (HasValidDeclarations decoded.now) }
    ensures invalid { OnErr result (¬ HasValidDeclarations decoded.now) }
{
    let types = decoded.types.len();
    require(are_valid_imports(types, decoded.imports.as_slice()), 2)?;
    require(are_typed(types, decoded.funcs.as_slice()), 3)?;
    require(are_valid_tables(decoded.tables.as_slice()), 4)?;
    require(are_valid_memories(decoded.memories.as_slice()), 5)
}

fn constant_context<'a>(
    decoded: &Module,
    spaces: &'a IndexSpaces,
    declared: &'a [bool],
) -> ConstantContext<'a>
    requires { AreIndexSpaces decoded.now spaces.now }
    ensures { IsConstantContext decoded.now declared.now result }
{
    let imported = spaces.globals.len() - decoded.globals.len();
    ConstantContext {
        globals: &spaces.globals[..imported],
        declared,
    }
}

// Checks the parts of a module outside of its functions, by its index spaces and the order of its exports' names.
fn validate_parts(
    decoded: &Module,
    spaces: &IndexSpaces,
    declared: &[bool],
    names: &NameOrder,
) -> Result<(), ValidateError>
    requires spaces { AreIndexSpaces decoded.now spaces.now }
    requires names { IsNameOrder decoded.now.exports names.now }
    requires marks { HasMarks decoded.now declared.now }
    requires declarations { HasValidDeclarations decoded.now }
    ensures valid { OnOk result (HasValidParts decoded.now) }
    ensures invalid { OnErr result (¬ HasValidParts decoded.now) }
{
    let exports = decoded.exports.as_slice();
    let context = constant_context(decoded, spaces, declared);
    require(is_at_most_one(&spaces.memories), 5)?;
    require(are_valid_globals(&context, decoded.globals.as_slice()), 6)?;
    require(all_exist(spaces, exports), 7)?;
    require(names.names_differ(exports), 7)?;
    require(
        is_valid_start(decoded.types.as_slice(), spaces, decoded.start),
        8,
    )?;
    require(
        are_valid_elements(spaces, &context, decoded.elements.as_slice()),
        9,
    )?;
    require(
        are_valid_datas(spaces, &context, decoded.datas.as_slice()),
        11,
    )
}

// Checks a module by each rule, given the order of its exports' names, and shows its functions to the visitor. Returns whether its code
// names a data segment.
fn validate_module<V: Visitor>(
    alloc: Global,
    decoded: &Module,
    names: &NameOrder,
    visitor: &mut V,
) -> Result<bool, ValidateError>
    requires { IsNameOrder decoded.now.exports names.now }
    ensures valid { OnOk result (IsValid decoded.now) }
    ensures invalid { IfErr result (λ error. (error ≡ OutOfMemory) ⊎ (¬ IsValid decoded.now)) }
    ensures shown { OnOk result (InTurn (IsShownFunction V.Begins V.Visits V.Ends decoded.now.types)
        visitor.old decoded.now.funcs visitor.new) }
    ensures named { IfOk result (λ named. named ≡ name_data decoded.now.funcs) }
{
    validate_declarations(decoded)?;
    let spaces = IndexSpaces::new(alloc, decoded)?;
    let declared = mark_references(alloc, decoded, spaces.functions.len())?;
    validate_parts(decoded, &spaces, &declared, names)?;
    validate_functions(alloc, decoded, &spaces, &declared, visitor)
}

/// Checks a module in one pass over its operations, without recursion, and shows them to a visitor. Returns the order of the names of
/// its exports, and whether its code names a data segment (Validation, Modules).
///
/// # Errors
///
/// Fails with `Invalid`, and the place that no typing accepts, or with `OutOfMemory`, also if the visitor fails.
pub fn validate_with<V: Visitor>(
    alloc: Global,
    decoded: &Module,
    visitor: &mut V,
) -> Result<(NameOrder, bool), ValidateError>
    ensures names { IfOk result (λ found. IsNameOrder decoded.now.exports found.0) }
    ensures named { IfOk result (λ found. found.1 ≡ name_data decoded.now.funcs) }
    ensures valid { OnOk result (IsValid decoded.now) }
    ensures invalid { IfErr result (λ error. (error ≡ OutOfMemory) ⊎ (¬ IsValid decoded.now)) }
    ensures shown { OnOk result (InTurn (IsShownFunction V.Begins V.Visits V.Ends decoded.now.types)
        visitor.old decoded.now.funcs visitor.new) }
{
    let names = NameOrder::new(alloc, decoded.exports.as_slice())?;
    let named = validate_module(alloc, decoded, &names, visitor)?;
    Ok((names, named))
}

/// Checks a module in one pass over its operations, without recursion (Validation, Modules).
///
/// # Errors
///
/// Fails with `Invalid`, and the place that no typing accepts, or with `OutOfMemory`. Both drop the module.
pub fn validate(alloc: Global, decoded: Module) -> Result<ValidModule, ValidateError>
    ensures kept { IfOk result (λ valid. valid ≡ decoded) }
    ensures valid { OnOk result (IsValid decoded) }
    ensures invalid { IfErr result (λ error. (error ≡ OutOfMemory) ⊎ (¬ IsValid decoded)) }
{
    let (names, named) = validate_with(alloc, &decoded, &mut NoVisitor {})?;
    Ok(ValidModule::new(decoded, names, named))
}
