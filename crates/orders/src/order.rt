use core_types::{FuncType, Val};

/// A request of a client to a server. Modules and instances are named by their numbers. Bytes and names are borrowed from the
/// message.
#[derive(Drop)]
pub enum Order<'a> {
    /// End.
    End,
    /// Load the module that the bytes encode.
    Load(&'a [u8]),
    /// Link a module.
    Link(u64),
    /// Register an instance under a name.
    Register(u64, &'a str),
    /// Call what an instance exports under a name, with arguments.
    Call(u64, &'a str, Vec<Val>),
    /// Read the global that an instance exports under a name.
    GetGlobal(u64, &'a str),
    /// Set the fuel left.
    SetFuel(u64),
    /// Return the fuel left.
    FuelLeft,
    /// List what an instance exports.
    Exports(u64),
    /// Add a file with a name to those of the next script.
    File(&'a str, &'a [u8]),
    /// Run a script.
    RunScript(&'a [u8]),
    /// Define a host function of a type, under the name of a module and a name in it.
    Define(&'a str, &'a str, FuncType),
    /// Create the embedding: fuel, depth, pages and entries.
    Begin(u64, u64, u64, u64),
    /// Return the type of what an instance exports under a name.
    NamedExport(u64, &'a str),
    /// Give the embedding that is created next a quota of that many bytes.
    Quota(u64),
    /// Return how many bytes of the quota are left.
    QuotaLeft,
    /// List what a module imports.
    ModuleImports(u64),
    /// List what a module exports.
    ModuleExports(u64),
    /// Explain why the order before was refused.
    Explain,
}
