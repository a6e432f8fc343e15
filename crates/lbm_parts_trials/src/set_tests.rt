// Velocity sets in space: a fluid at rest, and what a force gives it.
use lbm_cell::{Force, MAX_Q, Moment, Rates, UNIT, bounce, collide, first_pops, in_limits, moment};
use lbm_sets::{D3Q15, D3Q27};
use lbm_space::VelocitySet;

// The momentum that a force of 1 along x gives a cell of the unit density.
fn pushed(jx: i64) -> Moment {
    Moment {
        rho: UNIT,
        jx,
        jy: 0,
        jz: 0,
    }
}

// What differs where a fluid at rest is to have these populations, and a force of 1 along x gives it this momentum.
fn differing<V: VelocitySet>(shares: &[i64; MAX_Q], gained: i64) -> Option<&'static str> {
    let (Some(rates), Some(force)) = (Rates::new(1, 1), Force::new(1, 0, 0)) else {
        return Some("what is in range");
    };
    let first = first_pops::<V>(UNIT, [0, 0, 0]);
    if first.f != *shares {
        return Some("the populations");
    }
    if bounce::<V>(&first) != first {
        return Some("the bounced ones");
    }
    if !in_limits::<V>(&first) {
        return Some("the limits");
    }
    let once = collide::<V>(&first, rates, force);
    if moment::<V>(&once) != pushed(gained) {
        return Some("the momentum");
    }
    None
}

// 884736 times 16, 8 and 1 over 72.
const FIFTEEN: [i64; MAX_Q] = [
    196608, 98304, 98304, 98304, 98304, 98304, 98304, 12288, 12288, 12288, 12288, 12288, 12288,
    12288, 12288, 0, 0, 0, 0, 0, 0, 0, 0, 0, 0, 0, 0,
];

// 884736 times 64, 16, 4 and 1 over 216, where 884736 / 216 is 4096.
const TWENTY_SEVEN: [i64; MAX_Q] = [
    262144, 65536, 65536, 65536, 65536, 65536, 65536, 16384, 16384, 16384, 16384, 16384, 16384,
    16384, 16384, 16384, 16384, 16384, 16384, 4096, 4096, 4096, 4096, 4096, 4096, 4096, 4096,
];

// At its equilibrium nothing is rounded, and a force gives 72 / 3.
#[test]
fn a_fluid_rests_in_fifteen_directions(rt: HostRuntime) {
    assert_eq!(rt; differing::<D3Q15>(&FIFTEEN, 24), None);
}

// A force gives 216 / 3.
#[test]
fn a_fluid_rests_in_twenty_seven_directions(rt: HostRuntime) {
    assert_eq!(rt; differing::<D3Q27>(&TWENTY_SEVEN, 72), None);
}
