ghost use Rattle.std.specs.List.{list_any};
ghost use Rattle.std.specs.Prelude.{All, IfErr, IfOk, IsTrue, OnOk, Some, ℕ, ◌<◌, ◌↔◌, ◌≡◌, ◌≢◌, ◌⊎◌};
ghost use Rattle.core_types.specs.declared.module.Func.{Func as Function};
ghost use Rattle.binary.specs.Sections.{name_data};
ghost use Rattle.index_spaces.specs.IndexSpaces.{AreIndexSpaces};
ghost use Rattle.meaning.specs.binary.Modules.{names_data};
ghost use Rattle.meaning.specs.validation.Modules.{IsValidFunction};
ghost use Rattle.validator.specs.Completeness.{IsUntyped};
ghost use Rattle.validator.specs.Errors.{OnInvalid};
ghost use Rattle.validator.specs.References.{HasMarks};
ghost use Rattle.validator.specs.Soundness.{IsTyped};
ghost use Rattle.validator.specs.Visiting.{InTurn, IsShownFunction};
ghost use Rattle.validator.specs.declared.errors.Place.TheVariants.{Section};
ghost use Rattle.validator.specs.declared.errors.ValidateError.TheVariants.{Invalid, OutOfMemory};
ghost use Rattle.validator.specs.Modules.{HasValidBodies};

use crate::context::BodyContext;
use crate::control_frames::{Stacks, begin_body};
use crate::errors::{Fault, Place, ValidateError};
use crate::instructions::control::blocks::finish_body;
use crate::local_types::LocalTypes;
use crate::operations::check_next;
use crate::visitor::Visitor;
use binary::BodyReader;
use core_types::{Func, FuncBody, Module, item};
use index_spaces::IndexSpaces;
use std::alloc::Global;

// Returns whether the type of each function exists, in a module with this number of types (Validation, Functions).
pub fn are_typed(types: usize, funcs: &[Func]) -> bool
    ensures { IsTrue result ↔ All (λ (func : Function). func.ty < types) funcs.now }
{
    funcs.iter().all(|func| (func.ty as usize) < types)
}

// Checks the body of a function, and shows its operations. Reuses the room of the stacks. Returns whether one of them names a data
// segment.
#[inline(never)]
pub fn validate_body<'a, V: Visitor>(
    alloc: Global,
    context: &BodyContext<'a>,
    stacks: &mut Stacks<'a>,
    visitor: &mut V,
    body: &FuncBody,
) -> Result<bool, Fault>
    requires ready { V.IsReady visitor.old }
    ensures typed { OnOk result (IsTyped context.now body.now) }
    ensures untyped { IfErr result (OnInvalid (IsUntyped context.now body.now)) }
    ensures ready { OnOk result (V.IsReady visitor.new) }
    ensures shown { OnOk result (InTurn V.Visits visitor.old body.now visitor.new) }
    ensures names { IfOk result (λ named. named ≡ list_any names_data body.now) }
{
    begin_body(stacks, context.results);
    let mut reader = BodyReader::new(alloc, body);
    // The opcode is read at the end of the loop, so that the arms of `check_next` lead there without a test of their result.
    let mut next = reader.opcode();
    while let Some(code) = next {
        check_next(alloc, context, stacks, visitor, &mut reader, code)?;
        next = reader.opcode();
    }
    if !stacks.outer.is_empty() {
        return Err(Fault::Invalid);
    }
    finish_body(stacks)?;
    Ok(reader.names_data())
}

// Checks a function of a module, and shows it to the visitor (Validation, Functions). Returns whether it names a data segment.
fn validate_function<'a, V: Visitor>(
    alloc: Global,
    decoded: &'a Module,
    spaces: &'a IndexSpaces,
    declared: &'a [bool],
    stacks: &mut Stacks<'a>,
    visitor: &mut V,
    func: &'a Func,
) -> Result<bool, Fault>
    requires spaces { AreIndexSpaces decoded.now spaces.now }
    requires marks { HasMarks decoded.now declared.now }
    ensures valid { OnOk result (IsValidFunction decoded.now func.now) }
    ensures invalid { IfErr result (OnInvalid (¬ IsValidFunction decoded.now func.now)) }
    ensures shown { OnOk result (IsShownFunction V.Begins V.Visits V.Ends decoded.now.types
        visitor.old func.now visitor.new) }
    ensures names { IfOk result (λ named. named ≡ list_any names_data func.now.body) }
{
    let types = decoded.types.as_slice();
    let Some(ty) = item(types, func.ty) else {
        return Err(Fault::Invalid);
    };
    let locals = LocalTypes::new(ty.params.as_slice(), &func.locals);
    let context = BodyContext {
        types,
        elements: decoded.elements.as_slice(),
        datas: decoded.datas.len(),
        spaces,
        declared,
        locals,
        results: ty.results.as_slice(),
    };
    visitor.begin(ty, func)?;
    let named = validate_body(alloc, &context, stacks, visitor, &func.body)?;
    visitor.end()?;
    Ok(named)
}

// Checks the functions of a module, and shows them to the visitor. Returns whether their code names a data segment.
pub fn validate_functions<V: Visitor>(
    alloc: Global,
    decoded: &Module,
    spaces: &IndexSpaces,
    declared: &[bool],
    visitor: &mut V,
) -> Result<bool, ValidateError>
    requires spaces { AreIndexSpaces decoded.now spaces.now }
    requires marks { HasMarks decoded.now declared.now }
    ensures valid { OnOk result (HasValidBodies decoded.now) }
    ensures shown { OnOk result (InTurn (IsShownFunction V.Begins V.Visits V.Ends decoded.now.types)
        visitor.old decoded.now.funcs visitor.new) }
    ensures invalid { IfErr result
        (λ error. (error ≡ OutOfMemory) ⊎ (¬ HasValidBodies decoded.now)) }
    ensures names { IfOk result (λ named. named ≡ name_data decoded.now.funcs) }
    ensures no_section { IfErr result (λ error. (id : ℕ) → error ≢ Invalid (Section id)) }
{
    let mut stacks = Stacks::new(alloc);
    let mut named = false;
    for (index, func) in decoded.funcs.as_slice().iter().enumerate() {
        match validate_function(alloc, decoded, spaces, declared, &mut stacks, visitor, func) {
            Ok(names) => named |= names,
            Err(Fault::Invalid) => return Err(ValidateError::Invalid(Place::Func(index))),
            Err(Fault::OutOfMemory) => return Err(ValidateError::OutOfMemory),
        }
    }
    Ok(named)
}
