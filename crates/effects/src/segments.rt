ghost use Rattle.std.specs.Prelude.{◌<◌, [], length};
ghost use Rattle.meaning.specs.execution.Store.{with_data, with_elements};
ghost use Rattle.simulation.specs.Outcomes.{made};
ghost use Rattle.store.specs.Contents.{Contents, store_with};
ghost use Rattle.store.specs.State.{elements_of};
ghost use Rattle.effects.specs.Outcomes.{Gives};

use crate::payment::{Fault, Paid, pay};
use bulkops::{data_drop, elem_drop};
use store::State;

/// Removes the references of an element segment, for one unit of fuel (Execution, Table Instructions, elem.drop).
pub fn drop_elements(state: &mut State, segment: u32, fuel: u64) -> Result<Paid, Fault>
    requires { segment < length state.old.contents.elements }
    ensures { (code : Contents) → Gives
        (made 1 (with_elements (store_with code state.old) segment
        (record { ty = (elements_of state.old segment).ty; references = [] })) [])
        (store_with code state.old) (store_with code state.new) fuel result }
{
    let left = pay(fuel, 1)?;
    elem_drop(state, segment);
    Ok(Paid {
        fuel: left,
        result: None,
    })
}

/// Removes the bytes of a data segment, for one unit of fuel (Execution, Memory Instructions, data.drop).
pub fn drop_data(state: &mut State, segment: u32, fuel: u64) -> Result<Paid, Fault>
    requires { segment < length state.old.contents.datas }
    ensures { (code : Contents) → Gives
        (made 1 (with_data (store_with code state.old) segment (record { bytes = [] })) [])
        (store_with code state.old) (store_with code state.new) fuel result }
{
    let left = pay(fuel, 1)?;
    data_drop(state, segment);
    Ok(Paid {
        fuel: left,
        result: None,
    })
}
