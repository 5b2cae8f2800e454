ghost use Rattle.std.specs.Prelude.{IfOk, List, false, length, replicate, slice_set, true, ◌∷◌, ◌≡◌};
ghost use Rattle.core_types.specs.Expressions.{lent_op};
ghost use Rattle.core_types.specs.declared.op.Op.{Op as Operation};
ghost use Rattle.meaning.specs.validation.Modules.{function_indices, named_by, named_by_each, named_by_elements, named_by_exports, named_by_globals, named_by_items, named_functions};
ghost use Rattle.validator.specs.References.{HasMarks, set_marks};

use core_types::{
    ElementItems, ElementSegment, Export, ExportDesc, Expression, Global as ModuleGlobal, LentOp,
    Module, PlainOp, ReferenceOp, plain_op,
};
use std::alloc::{AllocError, Global};

// Marks a function, if it exists.
fn mark_function(marks: &mut [bool], index: u32)
    ensures { marks.new ≡ slice_set marks.old index true }
{
    let index = index as usize;
    if index < marks.len() {
        marks[index] = true;
    }
}

fn mark_functions(marks: &mut [bool], indices: &[u32])
    ensures { marks.new ≡ set_marks marks.old indices.now }
{
    for index in indices {
        mark_function(marks, *index);
    }
}

// Marks the function that an operation names, if it names one.
fn mark_operation(marks: &mut [bool], op: LentOp<'_>)
    ensures { (ops : List Operation) → set_marks marks.new (named_by ops)
        ≡ set_marks marks.old (named_by (lent_op op.entry ∷ ops)) }
{
    let Some(plain) = plain_op(op) else {
        return;
    };
    let PlainOp::Reference(reference) = plain else {
        return;
    };
    let ReferenceOp::Func(index) = reference else {
        return;
    };
    mark_function(marks, index);
}

// Marks the functions that an expression names.
fn mark_expression(marks: &mut [bool], ops: &Expression)
    ensures { marks.new ≡ set_marks marks.old (named_by ops.now) }
{
    for k in 0..ops.len() {
        mark_operation(marks, ops.get(k));
    }
}

// Marks the functions that the expressions name.
fn mark_expressions(marks: &mut [bool], expressions: &[Expression])
    ensures { marks.new ≡ set_marks marks.old (named_by_each expressions.now) }
{
    for ops in expressions {
        mark_expression(marks, ops);
    }
}

// Marks the functions that the first values of globals name.
fn mark_globals(marks: &mut [bool], globals: &[ModuleGlobal])
    ensures { marks.new ≡ set_marks marks.old (named_by_globals globals.now) }
{
    for global in globals {
        mark_expression(marks, &global.init);
    }
}

// Marks the functions that the references of a segment name.
fn mark_items(marks: &mut [bool], items: &ElementItems)
    ensures { marks.new ≡ set_marks marks.old (named_by_items items.now) }
{
    match items {
        ElementItems::Functions(indices) => mark_functions(marks, indices.as_slice()),
        ElementItems::Expressions(expressions) => mark_expressions(marks, expressions.as_slice()),
    }
}

fn mark_elements(marks: &mut [bool], elements: &[ElementSegment])
    ensures { marks.new ≡ set_marks marks.old (named_by_elements elements.now) }
{
    for element in elements {
        mark_items(marks, &element.items);
    }
}

fn mark_exports(marks: &mut [bool], exports: &[Export])
    ensures { marks.new ≡ set_marks marks.old (named_by_exports exports.now) }
{
    for export in exports {
        if let ExportDesc::Func(index) = export.desc {
            mark_function(marks, index);
        }
    }
}

// Marks the functions that a module names outside of bodies and the start.
#[tactic(auto, using(crate::proofs::References::marked_append))]
fn mark_module(marks: &mut [bool], decoded: &Module)
    ensures { marks.new ≡ set_marks marks.old (named_functions decoded.now) }
{
    mark_globals(marks, decoded.globals.as_slice());
    mark_elements(marks, decoded.elements.as_slice());
    mark_exports(marks, decoded.exports.as_slice());
}

// Returns this number of marks, after those of the functions that a module names are set.
fn marks_of(alloc: Global, decoded: &Module, count: usize) -> Result<Vec<bool>, AllocError>
    ensures { IfOk result (λ marks. marks.items
        ≡ set_marks (replicate count false) (named_functions decoded.now)) }
{
    let mut marks = vec![in alloc; false; count]?;
    mark_module(&mut marks, decoded);
    Ok(marks)
}

// Returns for each function of a module with so many whether it is named outside of bodies and the start.
pub fn mark_references(
    alloc: Global,
    decoded: &Module,
    count: usize,
) -> Result<Vec<bool>, AllocError>
    requires { count ≡ length (function_indices decoded.now) }
    ensures { IfOk result (λ marks. HasMarks decoded.now marks.items) }
{
    marks_of(alloc, decoded, count)
}
