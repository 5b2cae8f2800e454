//! Laws of the loop over cells.

ghost use Rattle.interpreter.specs.Running.{OperandsFit};
ghost use Rattle.interpreter.specs.Operations.{OperationsExecute};

/// Law: an operation is where the machine is, has what it needs, and leads to what the definitions state of it.
pub fn operations_execute()
    ensures { OperationsExecute }
{}

/// Law: where the machine runs, its frame has no more operands than the greatest height of its code.
pub fn operands_fit()
    ensures { OperandsFit }
{}
