//! Fuel and open frames.

use fuel::Meter;

// A call of a meter, and its result if it has one.
#[derive(Clone, Copy)]
enum Step {
    Spend(u64, bool),
    Left(u64),
    Set(u64),
    Enter(bool),
    Bound(u32),
}

use Step::{Bound, Enter, Left, Set, Spend};

// Fuel, a depth bound, and steps.
#[rattlefmt::skip]
static CASES: [(&str, u64, u32, &[Step]); 3] = [
    ("fuel", 5, 2, &[Spend(5, true), Spend(1, false), Spend(0, true), Left(0), Set(7), Left(7), Spend(8, false), Left(7)]),
    ("frames", 0, 2, &[Enter(true), Enter(true), Enter(false), Bound(2)]),
    ("no frame", 1, 0, &[Enter(false), Bound(0)]),
];

// Returns whether a meter has the result of a step.
fn takes(meter: &mut Meter, step: Step) -> bool {
    match step {
        Spend(cost, spent) => meter.try_spend(cost) == spent,
        Left(fuel) => meter.left() == fuel,
        Set(fuel) => {
            meter.set(fuel);
            true
        }
        Enter(entered) => meter.enter() == entered,
        Bound(frames) => meter.bound() == frames,
    }
}

// Returns whether a meter has the results of all steps.
fn takes_all(fuel: u64, depth_bound: u32, steps: &[Step]) -> bool {
    let mut meter = Meter::new(fuel, depth_bound);
    let mut all = true;
    for step in steps {
        all &= takes(&mut meter, *step);
    }
    all
}

#[test]
fn counts_fuel_and_frames(rt: HostRuntime) {
    for (name, fuel, depth_bound, steps) in &CASES {
        assert!(rt; takes_all(*fuel, *depth_bound, steps), "{name}");
    }
}

// Returns whether a frame can be opened after one was left.
fn reopens() -> bool {
    let mut meter = Meter::new(0, 2);
    if !meter.enter() || !meter.enter() || meter.enter() {
        return false;
    }
    meter.leave();
    meter.enter() && !meter.enter()
}

#[test]
fn leaves_one_frame(rt: HostRuntime) {
    assert!(rt; reopens());
}
