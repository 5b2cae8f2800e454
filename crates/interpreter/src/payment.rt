ghost use Rattle.std.specs.Prelude.{◌≡◌, ◌-◌, ◌≤◌, IfNone, IfSome};
ghost use Rattle.interpreter.specs.declared.machine.Stop.TheVariants as stop;

use crate::machine::Stop;

/// Returns the fuel left after a unit is paid. If there is no unit, sets `why` to `NoFuel` and returns none.
#[inline(always)]
pub fn pay(fuel: u64, why: &mut Stop) -> Option<u64>
    ensures some { IfSome result (λ left. (1 ≤ fuel) × (left ≡ fuel - 1)) }
    ensures none { IfNone result ((why.new ≡ stop.NoFuel) × (fuel ≡ 0)) }
{
    if fuel == 0 {
        *why = Stop::NoFuel;
        return None;
    }
    Some(fuel - 1)
}
