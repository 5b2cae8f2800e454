//! The source of the files that the program reads.

ghost use Rattle.std.specs.Prelude.{◌≡◌, ℕ, List, IfOk, None, Option};
ghost use Rattle.subcommands.specs.Files.{AreBytesOf};

use std::path::PathBuf;
use std::rt::Files as SystemFiles;
use std::{fs, io};

/// Why the bytes of a file were not read.
#[derive(Clone, Copy)]
pub enum ReadFault {
    /// The file cannot be read, or cannot be read to its end.
    Failed,
    /// An allocation for the bytes failed.
    Memory,
}

// The most bytes that a file named by a script may have. This is the size of the largest module.
const MAX_NAMED_SIZE: u64 = 67_108_864;

/// A source of files.
///
/// It states what is known about the bytes of the file at each path. Reading a file does not change that.
pub trait Files {
    // The bytes of the file at a path, if they are known.
    ghost contents: { Self → List ℕ → Option (List ℕ) } = { λ _ _. None };

    /// Returns all bytes of the file at a path.
    fn read(&mut self, path: &str) -> Result<Vec<u8>, ReadFault>
        ensures read { IfOk result (λ bytes. AreBytesOf (contents self.old) path.now bytes.items) }
        ensures kept { contents self.new ≡ contents self.old };

    /// Returns all bytes of a file that a script names, at a path in the script's folder or below it. Reads the file at the
    /// path, unless an implementation restricts which files these may be.
    fn read_named(&mut self, _folder: &str, path: &str) -> Result<Vec<u8>, ReadFault>
        ensures read { IfOk result (λ bytes. AreBytesOf (contents self.old) path.now bytes.items) }
        ensures kept { contents self.new ≡ contents self.old }
    {
        self.read(path)
    }
}

/// The files of the system.
#[derive(Drop)]
pub struct System<R> {
    rt: R,
}

impl<R> System<R> {
    /// Creates a source of the files that this runtime reaches.
    pub fn new(rt: R) -> System<R> {
        System { rt }
    }
}

// Returns the fault for an error: `Memory` if an allocation failed, and `Failed` otherwise.
fn fault_of(error: &io::Error) -> ReadFault {
    if error.kind() == io::ErrorKind::OutOfMemory {
        ReadFault::Memory
    } else {
        ReadFault::Failed
    }
}

// Returns whether a path is below a folder. Both must start at the root, and neither must contain a link.
fn is_below(path: &str, folder: &str) -> bool {
    match path.strip_prefix(folder) {
        Some(rest) => folder.ends_with('/') || rest.starts_with('/'),
        None => false,
    }
}

impl<R: SystemFiles + AllocGlobal> System<R> {
    // Follows the links of a path to a regular file of at most 64 MiB in a folder or below it. Returns none if the path leads
    // to any other file.
    fn resolve(&self, folder: &str, path: &str) -> io::Result<Option<PathBuf>> {
        let folder = fs::canonicalize(&self.rt, folder)?;
        let path = fs::canonicalize(&self.rt, path)?;
        let found = fs::metadata(&self.rt, path.to_string_lossy())?;
        let is_allowed = found.is_file()
            && found.len() <= MAX_NAMED_SIZE
            && is_below(path.to_string_lossy(), folder.to_string_lossy());
        Ok(is_allowed.then_some(path))
    }
}

impl<R: SystemFiles + AllocGlobal> Files for System<R> {
    fn read(&mut self, path: &str) -> Result<Vec<u8>, ReadFault> {
        match fs::read(&self.rt, path) {
            Ok(bytes) => Ok(bytes),
            Err(error) => Err(fault_of(&error)),
        }
    }

    fn read_named(&mut self, folder: &str, path: &str) -> Result<Vec<u8>, ReadFault> {
        match self.resolve(folder, path) {
            Ok(Some(resolved)) => self.read(resolved.to_string_lossy()),
            Ok(None) => Err(ReadFault::Failed),
            Err(error) => Err(fault_of(&error)),
        }
    }
}
