ghost use Rattle.std.specs.Prelude.{◌≡◌, ◌++◌, ◌∷◌, [], IfOk, OnOk, map};
ghost use Rattle.core_types.specs.declared.module.Func.{Func as AnyFunc};
ghost use Rattle.meaning.specs.validation.Modules.{function_indices, imported_functions};

use core_types::{Func, Import, ImportDesc, Module};
use std::alloc::{AllocError, Global};

// Appends the type index of an imported function, if the import is one.
fn push_imported(functions: &mut Vec<u32>, import: &Import) -> Result<(), AllocError>
    ensures { OnOk result (functions.new.items ≡ functions.old.items
        ++ imported_functions (import.now ∷ [])) }
{
    match import.desc {
        ImportDesc::Func(ty) => functions.push(ty)?,
        _ => {}
    }
    Ok(())
}

// Returns the type index of each imported function.
fn imported(alloc: Global, imports: &[Import]) -> Result<Vec<u32>, AllocError>
    ensures { IfOk result (λ functions. functions.items ≡ imported_functions imports.now) }
{
    let mut functions = Vec::new(alloc);
    for import in imports {
        push_imported(&mut functions, import)?;
    }
    Ok(functions)
}

// Appends the type index of each function.
fn push_declared(functions: &mut Vec<u32>, funcs: &[Func]) -> Result<(), AllocError>
    ensures { OnOk result (functions.new.items ≡ functions.old.items
        ++ map (λ (f : AnyFunc). f.ty) funcs.now) }
{
    for func in funcs {
        functions.push(func.ty)?;
    }
    Ok(())
}

/// Returns the type index of each function of a module, imports first.
pub fn indices_of_types(alloc: Global, m: &Module) -> Result<Vec<u32>, AllocError>
    ensures { IfOk result (λ functions. functions.items ≡ function_indices m.now) }
{
    let mut functions = imported(alloc, m.imports.as_slice())?;
    push_declared(&mut functions, m.funcs.as_slice())?;
    Ok(functions)
}
