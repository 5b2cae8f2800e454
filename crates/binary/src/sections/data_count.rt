//! The data count (Binary Format, Data Count Section).

ghost use Rattle.std.specs.Prelude.{◌≡◌, ◌↔◌, false, IsTrue, None};
ghost use Rattle.binary.specs.Sections.{name_data};
ghost use Rattle.meaning.specs.binary.Modules.{IsDataCount};

use core_types::Module;

// Returns whether the data count is the number of data segments. If it is absent, no code may name a data segment.
pub fn fits_count(count: Option<u32>, decoded: &Module, data_named: bool) -> bool
    requires { data_named ≡ name_data decoded.now.funcs }
    ensures { IsTrue result ↔ IsDataCount decoded.now count }
{
    match count {
        Some(count) => count as usize == decoded.datas.len(),
        None => !data_named,
    }
}

// Like `fits_count`, if it is not known yet whether code names a data segment.
pub fn may_fit_count(count: Option<u32>, decoded: &Module) -> bool
    ensures { IsTrue result → (count ≡ None → name_data decoded.now.funcs ≡ false)
        → IsDataCount decoded.now count }
{
    match count {
        Some(count) => count as usize == decoded.datas.len(),
        None => true,
    }
}
