ghost use Rattle.std.specs.Prelude.{◌≡◌, IfOk, OnOk, is_some, map};
ghost use Rattle.meaning.specs.scripts.Commands.{command_file, contents as contents_of, files_in, is_there, missing_from};
ghost use Rattle.scripts.specs.FileMaps.{files_kept, with_file};
ghost use Rattle.scripts.specs.Runs.{files_view};
ghost use Rattle.scripts.specs.Views.{command_view};

use crate::script::ScriptCommand;
use indexmap::IndexMap;
use std::alloc::{AllocError, Global};

// Appends a file.
fn add_file<'a>(
    kept: &mut IndexMap<&'a str, &'a [u8]>,
    name: &'a str,
    bytes: &'a [u8],
) -> Result<(), AllocError>
    ensures { OnOk result (files_kept kept.new ≡ with_file (files_kept kept.old) name.now
        bytes.now) }
{
    if kept.contains_key(&name) {
        return Ok(());
    }
    kept.insert(name, bytes)?;
    Ok(())
}

// Returns the files by name. Of two files with one name, the first counts.
pub fn files_by_name<'a>(
    alloc: Global,
    files: &'a [(String, Vec<u8>)],
) -> Result<IndexMap<&'a str, &'a [u8]>, AllocError>
    ensures { IfOk result (λ kept. files_kept kept ≡ files_in (files_view files.now)) }
{
    let mut kept = IndexMap::new(alloc);
    for k in 0..files.len() {
        let (name, bytes) = &files[k];
        add_file(&mut kept, name.as_str(), bytes.as_slice())?;
    }
    Ok(kept)
}

// Returns the contents of the file of a name, or none if there is no such file.
pub fn contents<'a>(files: &IndexMap<&'a str, &'a [u8]>, filename: &str) -> &'a [u8]
    ensures { result.now ≡ contents_of (files_kept files.now) filename.now }
{
    match files.get(&filename) {
        Some(bytes) => bytes,
        None => &[],
    }
}

// Returns whether there is a file of a name.
fn has_file<'a>(files: &IndexMap<&'a str, &'a [u8]>, filename: &str) -> bool
    ensures { result ≡ is_some (files_kept files.now filename.now) }
{
    files.get(&filename).is_some()
}

// Returns whether the file that a command needs, if it needs one, is there.
fn has_its_file<'a>(files: &IndexMap<&'a str, &'a [u8]>, command: &ScriptCommand) -> bool
    ensures { result ≡ is_there (files_kept files.now) (command_file (command_view command.now)) }
{
    match command.filename() {
        Some(filename) => has_file(files, filename),
        None => true,
    }
}

// Returns the index of the first command whose file is missing, if one is.
pub fn missing<'a>(files: &IndexMap<&'a str, &'a [u8]>, commands: &[ScriptCommand]) -> Option<u64>
    ensures { result ≡ missing_from (files_kept files.now) 0 (map command_view commands.now) }
{
    for k in 0..commands.len() {
        if !has_its_file(files, &commands[k]) {
            return Some(k as u64);
        }
    }
    None
}
