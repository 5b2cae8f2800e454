ghost use Rattle.std.specs.Prelude.{[], ◌<◌, ◌≡◌, ◌↔◌, IfOk, IsTrue, bytes_eq, length, option_map, slice_index_or};
ghost use Rattle.std.specs.List.{Contains, find};
ghost use Rattle.core_types.specs.declared.module.Export.{Export as Exported};
ghost use Rattle.meaning.specs.validation.Modules.{NamesDiffer};
ghost use Rattle.export_names.specs.Order.{AreNumbered, IsNameOrder, indices_of, names_at};

use core_types::{Export, ExportDesc, Items};
use std::alloc::{AllocError, Global};
use std::cmp::Ordering;
use std::marker::Model;

/// The indices of a module's exports, in the order of their names.
#[derive(Drop)]
pub struct NameOrder {
    indices: Items<usize>,
}

impl Model for NameOrder {
    ghost use Rattle.std.specs.Prelude.{List, ℕ};

    ghost Value = { List ℕ };

    ghost view = { λ order. order.indices };
}

// Returns the name of each export with its index.
fn numbered(alloc: Global, exports: &[Export]) -> Result<Vec<(&str, usize)>, AllocError>
    ensures { IfOk result (λ found. AreNumbered exports.now found.items) }
{
    let mut found = Vec::with_capacity(alloc, exports.len())?;
    for index in 0..exports.len() {
        found.push((exports[index].name.as_str(), index))?;
    }
    Ok(found)
}

// Returns the name of each export with its index, in the order of the names.
fn sorted(alloc: Global, exports: &[Export]) -> Result<Vec<(&str, usize)>, AllocError>
    ensures { IfOk result (λ found. IsNameOrder exports.now (indices_of found.items)) }
{
    let mut found = numbered(alloc, exports)?;
    found.sort_unstable();
    Ok(found)
}

impl NameOrder {
    /// Creates the order of the names of exports.
    pub fn new(alloc: Global, exports: &[Export]) -> Result<NameOrder, AllocError>
        ensures { IfOk result (λ order. IsNameOrder exports.now order) }
    {
        let found = sorted(alloc, exports)?;
        let mut indices = Vec::with_capacity(alloc, found.len())?;
        for (_, index) in &found {
            indices.push(*index)?;
        }
        Ok(NameOrder {
            indices: Items::from_vec(indices),
        })
    }

    fn export_at<'a>(&self, exports: &'a [Export], place: usize) -> &'a Export
        requires order { IsNameOrder exports.now self.now }
        requires within { place < length self.now }
        ensures named { result.now.name ≡ slice_index_or (names_at exports.now self.now) place [] }
        ensures contained { Contains exports.now result.now }
    {
        let index = self.indices.as_slice()[place];
        &exports[index]
    }

    /// Returns whether all names of exports are different.
    pub fn names_differ(&self, exports: &[Export]) -> bool
        requires { IsNameOrder exports.now self.now }
        ensures { IsTrue result ↔ NamesDiffer exports.now }
    {
        for place in 1..self.indices.len() {
            let before = self.export_at(exports, place - 1);
            let here = self.export_at(exports, place);
            if before.name.as_str() == here.name.as_str() {
                return false;
            }
        }
        true
    }

    /// Returns the index that the export of a name refers to, if there is one.
    pub fn find(&self, exports: &[Export], name: &str) -> Option<ExportDesc>
        requires order { IsNameOrder exports.now self.now }
        requires differ { NamesDiffer exports.now }
        ensures { result ≡ option_map (λ (e : Exported). e.desc)
            (find (λ (e : Exported). bytes_eq e.name name.now) exports.now) }
    {
        let (mut low, mut high) = (0, self.indices.len());
        while low < high {
            let middle = low + (high - low) / 2;
            let export = self.export_at(exports, middle);
            match export.name.as_str().cmp(name) {
                Ordering::Less => low = middle + 1,
                Ordering::Equal => return Some(export.desc),
                Ordering::Greater => high = middle,
            }
        }
        None
    }
}
