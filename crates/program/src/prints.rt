//! The print functions, which are host functions.

ghost use Rattle.std.specs.Prelude.{◌≡◌, [], IfOk, length};
ghost use Rattle.std.proofs.Props.{props};

use core_types::{FuncType, Items, Val, ValType};
use embed::HostDef;
use hostfunc::{HostFault, HostFn};
use std::alloc::{AllocError, Global};
use std::io::{self, Write};

/// The parameter of a print function.
#[derive(Clone, Copy)]
pub enum Printed {
    Nothing,
    I32,
    I64,
}

impl Printed {
    /// Returns the name under which modules import the print function.
    pub fn name(self) -> &'static str {
        match self {
            Printed::Nothing => "print",
            Printed::I32 => "print_i32",
            Printed::I64 => "print_i64",
        }
    }

    // Returns the type of the parameter, if there is one.
    fn parameter(self) -> Option<ValType> {
        match self {
            Printed::Nothing => None,
            Printed::I32 => Some(ValType::I32),
            Printed::I64 => Some(ValType::I64),
        }
    }
}

/// A host function that prints a line to its own writer: its name, and the argument after a blank.
#[derive(Drop)]
pub struct Print<W> {
    alloc: Global,
    printed: Printed,
    out: W,
    ty: FuncType,
    ghost no_results: { ty.results ≡ [] } by { Prim.hlevel props },
}

// Prints an argument after a blank, as an unsigned decimal number. A reference is printed as its number or as `null`.
fn print_argument<W: Write>(out: &mut W, value: Val) -> io::Result<()> {
    match value {
        Val::I32(number) => write!(out, " {number}"),
        Val::I64(number) => write!(out, " {number}"),
        Val::FuncRef(Some(number)) | Val::ExternRef(Some(number)) => write!(out, " {number}"),
        Val::FuncRef(None) | Val::ExternRef(None) => write!(out, " null"),
    }
}

// Prints the line of a call.
fn print_call<W: Write>(out: &mut W, name: &str, args: &[Val]) -> io::Result<()> {
    write!(out, "{name}")?;
    for value in args {
        print_argument(out, *value)?;
    }
    writeln!(out)?;
    out.flush()
}

impl<W: Write + Drop> Print<W> {
    /// Creates the print function of this kind, which prints to `out`. Fails if an allocation fails.
    pub fn new(alloc: Global, printed: Printed, out: W) -> Result<Print<W>, AllocError> {
        let mut params = Vec::new(alloc);
        if let Some(ty) = printed.parameter() {
            params.push(ty)?;
        }
        let ty = FuncType {
            params: Items::from_vec(params),
            results: Items::from_vec(Vec::new(alloc)),
        };
        Ok(Print {
            alloc,
            printed,
            out,
            ty,
        })
    }
}

impl<W: Write + Drop> HostFn for Print<W> {
    ghost use Rattle.std.specs.Prelude.{◌≡◌};
    ghost use Rattle.program.specs.Prints.{IsPrinted};

    ghost declared = { λ p. p.ty };

    ghost Answers = { λ p arguments bytes answer then p'.
        IsPrinted answer × (then ≡ bytes) × (p'.ty ≡ p.ty) };

    fn ty(&self) -> &FuncType {
        &self.ty
    }

    fn call(&mut self, args: &[Val], memory: &mut [u8]) -> Result<Vec<Val>, HostFault> {
        let _ = memory;
        match print_call(&mut self.out, self.printed.name(), args) {
            Ok(()) => Ok(Vec::new(self.alloc)),
            Err(_) => Err(HostFault::Trap(1)),
        }
    }
}

// Defines a print function under the module name `host`.
fn define_print(
    alloc: Global,
    printed: Printed,
    func: Box<dyn HostFn>,
) -> Result<HostDef, AllocError> {
    Ok(HostDef {
        module: String::from_str(alloc, "host")?,
        name: String::from_str(alloc, printed.name())?,
        func,
    })
}

/// Defines the three print functions: without a parameter, with an i32, and with an i64. Fails if an allocation fails.
pub fn define_prints(
    alloc: Global,
    nothing: Box<dyn HostFn>,
    short: Box<dyn HostFn>,
    long: Box<dyn HostFn>,
) -> Result<Vec<HostDef>, AllocError>
    ensures { IfOk result (λ hosts. length hosts.items ≡ 3) }
{
    let mut hosts = Vec::new(alloc);
    hosts.push(define_print(alloc, Printed::Nothing, nothing)?)?;
    hosts.push(define_print(alloc, Printed::I32, short)?)?;
    hosts.push(define_print(alloc, Printed::I64, long)?)?;
    Ok(hosts)
}
