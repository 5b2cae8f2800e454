//! The files that a script names.

ghost use Rattle.std.specs.Prelude.{◌≡◌, ◌++◌, ◌∷◌, [], ℕ, List, IfOk, OnOk, string_bytes};
ghost use Rattle.std.specs.List.{All};
ghost use Rattle.scripts.specs.Runs.{files_view};
ghost use Rattle.subcommands.specs.Files.{AreBytesOf, IsBeside, IsNamedFile};

use crate::faults::Fault;
use crate::inputs::{Files, ReadFault};
use embed::Refusal;
use std::alloc::{AllocError, Global};
use std::collections::BTreeSet;

// Returns the path of a file that the script at a path names: the folder of the script, followed by the name.
fn path_beside(alloc: Global, path: &str, filename: &str) -> Result<String, AllocError>
    ensures { IfOk result (λ beside. IsBeside path.now filename.now (string_bytes beside)) }
{
    match path.rsplit_once('/') {
        Some((folder, _)) => format!(in alloc; "{folder}/{filename}"),
        None => String::from_str(alloc, filename),
    }
}

// Returns the folder of the script at a path.
fn folder_of(path: &str) -> &str {
    match path.rsplit_once('/') {
        Some(("", _)) => "/",
        Some((folder, _)) => folder,
        None => ".",
    }
}

// Returns whether a name leads out of a folder: it starts at the root, or has a part `..`.
fn leads_out(filename: &str) -> bool {
    filename.starts_with('/') || filename.split('/').any(|part| part == "..")
}

// Returns the bytes of a file that the script at a path names.
fn read_beside<'a, F: Files>(
    alloc: Global,
    files: &mut F,
    path: &str,
    filename: &str,
) -> Result<Vec<u8>, Fault<'a>>
    ensures read { IfOk result (λ bytes. IsNamedFile (F.contents files.old) path.now
        (filename.now, bytes.items)) }
    ensures kept { F.contents files.new ≡ F.contents files.old }
{
    let beside = path_beside(alloc, path, filename)?;
    if leads_out(filename) {
        return Err(Fault::CannotReadNamed(beside));
    }
    match files.read_named(folder_of(path), beside.as_str()) {
        Ok(bytes) => Ok(bytes),
        Err(ReadFault::Failed) => Err(Fault::CannotReadNamed(beside)),
        Err(ReadFault::Memory) => Err(Fault::Refused(Refusal::OutOfMemory)),
    }
}

// Reads a file that the script at a path names, and appends it.
fn add_beside<'a, F: Files>(
    alloc: Global,
    files: &mut F,
    path: &str,
    filename: &str,
    read: &mut Vec<(String, Vec<u8>)>,
) -> Result<(), Fault<'a>>
    ensures read { OnOk result (All (IsNamedFile (F.contents files.old) path.now)
        (files_view read.old.items) → All (IsNamedFile (F.contents files.old) path.now)
        (files_view read.new.items)) }
    ensures kept { F.contents files.new ≡ F.contents files.old }
{
    let bytes = read_beside(alloc, files, path, filename)?;
    let name = String::from_str(alloc, filename)?;
    read.push((name, bytes))?;
    Ok(())
}

// Returns the names of files, each once, in the order of their first occurrences.
fn distinct_names(alloc: Global, filenames: &[String]) -> Result<Vec<&str>, AllocError> {
    let mut seen = BTreeSet::new(alloc);
    let mut names = Vec::new(alloc);
    for filename in filenames {
        let name = filename.as_str();
        if seen.insert(name)? {
            names.push(name)?;
        }
    }
    Ok(names)
}

// Reads the files with these names, in order.
fn read_all<'a, F: Files>(
    alloc: Global,
    files: &mut F,
    path: &str,
    names: &[&str],
) -> Result<Vec<(String, Vec<u8>)>, Fault<'a>>
    ensures read { IfOk result (λ read. All (IsNamedFile (F.contents files.old) path.now)
        (files_view read.items)) }
    ensures kept { F.contents files.new ≡ F.contents files.old }
{
    let mut read = Vec::new(alloc);
    for name in names {
        add_beside(alloc, files, path, name, &mut read)?;
    }
    Ok(read)
}

/// Reads the files that the script at a path names, from its folder or below it. Each file is read once, regardless of how
/// often it is named.
pub fn read_named<'a, F: Files>(
    alloc: Global,
    files: &mut F,
    path: &str,
    filenames: &[String],
) -> Result<Vec<(String, Vec<u8>)>, Fault<'a>>
    ensures read { IfOk result (λ read. All (IsNamedFile (F.contents files.old) path.now)
        (files_view read.items)) }
    ensures kept { F.contents files.new ≡ F.contents files.old }
{
    let names = distinct_names(alloc, filenames)?;
    read_all(alloc, files, path, names.as_slice())
}
