// Blocks of eight cells in step, by hand.

ghost use Rattle.std.specs.Prelude.{◌<◌, ℕ, FitsSigned, pos, slice_index_or};
ghost use Rattle.std.specs.Int.{w32};
ghost use Rattle.lbm_space.specs.Limits.{most_directions};
ghost use Rattle.lbm_walk.specs.Blocks.{lane};

use lbm_cell::{Force, MAX_Q, Rates};
use lbm_lanes::{Block, Rule, collide_block};
use lbm_space::{D2Q9, D3Q19};
use std::test::Fail;

// A fluid at rest.
const REST: [i32; 9] = [
    393216, 98304, 98304, 98304, 98304, 24576, 24576, 24576, 24576,
];
// That fluid after one collision at rate 1 under the force (1, 0, 0), and after two.
const PUSHED: [i32; 9] = [
    393216, 98308, 98304, 98300, 98304, 24577, 24575, 24575, 24577,
];

const PUSHED_TWICE: [i32; 9] = [
    393218, 98312, 98303, 98296, 98303, 24578, 24574, 24574, 24578,
];

// Eight numbers of 32 bits as numbers of 64 bits.
fn wide(lanes: &[i32; 8]) -> [i64; 8]
    ensures { (j : ℕ) → j < 8 → FitsSigned w32 (slice_index_or result j (pos 0)) }
{
    let mut all = [0; 8];
    for j in 0..8 {
        all[j] = lanes[j] as i64;
    }
    all
}

// The block of these rows.
fn block_of(rows: &[[i32; 8]; MAX_Q]) -> Block
    ensures { (i j : ℕ) → i < most_directions → j < 8 → FitsSigned w32 (lane result.rows j i) }
{
    let mut block = Block::zero();
    for i in 0..MAX_Q {
        block.fill(i as u32, wide(&rows[i]));
    }
    block
}

// Puts nine populations in lane `j`.
fn put(rows: &mut [[i32; 8]; MAX_Q], j: usize, cell: [i32; 9])
    requires { j < 8 }
{
    for i in 0..9 {
        rows[i][j] = cell[i];
    }
}

// The first nine populations of lane `j`.
fn cell(block: &Block, j: usize) -> [i32; 9]
    requires { j < 8 }
{
    let mut cell = [0; 9];
    for i in 0..9 {
        cell[i] = block.lanes(i as u32)[j].try_into().unwrap_or(-1);
    }
    cell
}

#[test]
fn each_lane_follows_its_own_rule(rt: HostRuntime) -> Result<(), Fail> {
    let rates = Rates::new(1, 1).ok_or("in range")?;
    let force = Force::new(1, 0, 0).ok_or("in range")?;
    let rule = Rule::<D2Q9>::new(rates, force);
    let numbers = [-9, 10, -20, 30, -40, 50, -60, 70, -80];
    let mut rows = [[0; 8]; MAX_Q];
    put(&mut rows, 0, REST);
    put(&mut rows, 1, numbers);
    put(&mut rows, 2, PUSHED);
    put(&mut rows, 3, PUSHED);
    put(&mut rows, 4, PUSHED);
    put(&mut rows, 6, numbers);
    put(&mut rows, 7, REST);
    rows[9] = [1, 2, 3, 4, 5, 6, 7, 8];
    let mut block = block_of(&rows);
    // Lane 3 is a solid cell, lanes 0, 2 and 7 are fluid cells in limits, and no mask has the others.
    let answer = collide_block::<D2Q9>(&mut block, &rule, 0b1000_0101, 0b0000_1010);
    assert_eq!(rt; answer, None);
    assert_eq!(rt; cell(&block, 0), PUSHED);
    assert_eq!(rt; cell(&block, 1), [-9, 30, -40, 10, -20, 70, -80, 50, -60]);
    assert_eq!(rt; cell(&block, 2), PUSHED_TWICE);
    let turned = [
        393216, 98300, 98304, 98308, 98304, 24575, 24577, 24577, 24575,
    ];
    assert_eq!(rt; cell(&block, 3), turned);
    assert_eq!(rt; cell(&block, 4), PUSHED);
    assert_eq!(rt; cell(&block, 5), [0; 9]);
    assert_eq!(rt; cell(&block, 6), numbers);
    assert_eq!(rt; cell(&block, 7), PUSHED);
    assert_eq!(rt; block.lanes(9), [1, 2, 3, 4, 5, 6, 7, 8]);
    Ok(())
}

// Nineteen populations that are far from an equilibrium, and what two relaxation times 5 / 4 and 3 / 4 and the
// force (3, -2, 1) make of them, by the formula in exact fractions.
const MIXED: [i32; 19] = [
    294912, 50000, 48000, 49152, 49000, 47000, 51000, 24576, 24000, 25000, 24576, 23000, 24576,
    24576, 26000, 24576, 22222, 24576, 24576,
];

const MIXED_AFTER: [i32; 19] = [
    293446, 49696, 48202, 49012, 48838, 47527, 50400, 24883, 24174, 24235, 24568, 24027, 25289,
    24313, 24240, 25781, 23759, 24966, 23962,
];
// And turned back.
const MIXED_TURNED: [i32; 19] = [
    294912, 48000, 50000, 49000, 49152, 51000, 47000, 24000, 24576, 24576, 25000, 24576, 23000,
    26000, 24576, 22222, 24576, 24576, 24576,
];

#[test]
fn two_rates_act_in_space_and_the_least_lane_out_of_limits_is_told(
    rt: HostRuntime,
) -> Result<(), Fail> {
    let rates = Rates::trt(5, 3, 4).ok_or("in range")?;
    let force = Force::new(3, -2, 1).ok_or("in range")?;
    let rule = Rule::<D3Q19>::new(rates, force);
    let mut rows = [[0; 8]; MAX_Q];
    // Lanes 1, 4 and 7 are the mixed cell, lane 2 is empty, and lane 5 has one population below zero.
    for i in 0..19 {
        let x = MIXED[i];
        rows[i] = [x, x, 0, x, x, x, x, x];
    }
    rows[18] = [24576, 24576, 0, 24576, 24576, -1, 24576, 24576];
    let mut block = block_of(&rows);
    let before = block;
    let answer = collide_block::<D3Q19>(&mut block, &rule, 0b1011_0110, 0b0000_1000);
    assert_eq!(rt; answer, Some(2));
    for i in 0..19 {
        let old = before.lanes(i as u32);
        let new = block.lanes(i as u32);
        let after = MIXED_AFTER[i] as i64;
        assert_eq!(rt;
            new,
            [
                old[0],
                after,
                0,
                MIXED_TURNED[i] as i64,
                after,
                old[5],
                old[6],
                after
            ]
        );
    }
    Ok(())
}

#[test]
fn without_masks_nothing_changes(rt: HostRuntime) -> Result<(), Fail> {
    let rates = Rates::new(1, 1).ok_or("in range")?;
    let force = Force::new(1, 0, 0).ok_or("in range")?;
    let rule = Rule::<D2Q9>::new(rates, force);
    let mut rows = [[0; 8]; MAX_Q];
    rows[0] = [-2147483648, 2147483647, 0, 1, 2, 3, 4, 5];
    let mut block = block_of(&rows);
    let before = block;
    assert_eq!(rt; collide_block::<D2Q9>(&mut block, &rule, 0, 0), None);
    assert_eq!(rt; block, before);
    assert_eq!(rt;
        collide_block::<D2Q9>(&mut block, &rule, 0b1111_0000, 0),
        Some(4)
    );
    assert_eq!(rt; block, before);
    Ok(())
}
