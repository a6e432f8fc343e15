// The rule of a case over blocks of eight cells, against the rule of one cell, for each mix of fluid, walls and moving walls.

ghost use Rattle.std.specs.Prelude.{◌≡◌, ◌<◌, ◌≤◌, ◌+◌, ◌^◌, ℕ, pos, slice_index_or, unsigned_abs};
ghost use Rattle.lbm_space.specs.Limits.{most_directions};
ghost use Rattle.lbm_space.specs.Torus.{cells};
ghost use Rattle.lbm_cell.specs.Limits.{greatest_population};
ghost use Rattle.lbm_cell.specs.Moments.{populations};
ghost use Rattle.lbm_walk.specs.Blocks.{lane};

use lbm_case::read_case;
use lbm_cell::{MAX_Q, Pops};
use lbm_model::{Case, at_set, post, sound};
use lbm_rule::CellRule;
use lbm_space::VelocitySet;
use lbm_walk::{Block, Kernel};
use std::alloc::Global;
use std::test::Fail;

// A population of a cell. In limits all of them are 50000 to 65000, so that the density is in limits in each set. Out of limits
// one is below zero, or the density is too small or too large.
fn population(cell: u32, dir: u32, in_limits: bool) -> i64
    ensures { unsigned_abs result ≤ greatest_population }
{
    let mixed = (u64::from(cell) * 40503 + u64::from(dir) * 10007) % 14983;
    match cell / 64 % 3 {
        _ if in_limits => 50000 + mixed as i64,
        0 if dir == cell % 9 => -1,
        0 => 50000 + mixed as i64,
        1 => 0,
        _ => 200000,
    }
}

// A population of each of eight cells, of which those of the mask are out of limits.
fn lanes(cell: u32, dir: u32, out: u8) -> [i64; 8]
    requires { cell + 8 ≤ 2 ^ 31 }
    ensures { (j : ℕ) → j < 8 → unsigned_abs (slice_index_or result j (pos 0)) ≤ greatest_population }
{
    let mut all = [0; 8];
    for j in 0..8u32 {
        all[j as usize] = population(cell + j, dir, (out >> j) & 1 == 0);
    }
    all
}

// The block of these cells. It has numbers past the directions of a set, too.
fn block_of(cell: u32, out: u8) -> Block
    requires { cell + 8 ≤ 2 ^ 31 }
    ensures { (i j : ℕ) → i < most_directions → j < 8 → unsigned_abs (lane result.rows j i) ≤ greatest_population }
{
    let mut block = Block::zero();
    for dir in 0..MAX_Q {
        block.fill(dir as u32, lanes(cell, dir as u32, out));
    }
    block
}

// The populations of lane `j`.
fn pops_in(block: &Block, j: usize) -> Pops
    requires lane { j < 8 }
    requires small { (i k : ℕ) → i < most_directions → k < 8 → unsigned_abs (lane block.now.rows k i) ≤ greatest_population }
    ensures { (i : ℕ) → i < most_directions → unsigned_abs (populations result.f i) ≤ greatest_population }
{
    let mut pops = Pops::zero();
    for i in 0..MAX_Q {
        pops.f[i] = block.rows[i][j];
    }
    pops
}

// Whether lane `j` of the block has what the cell sends, by the rule of one cell.
fn is_sent<V: VelocitySet>(case: &Case, cell: u32, pops: &Pops, after: &Block, j: usize) -> bool
    requires set { case.now.stencil ≡ V.stencil }
    requires cell { cell < cells case.now.torus }
    requires lane { j < 8 }
    requires small { (i : ℕ) → i < most_directions → unsigned_abs (populations pops.now.f i) ≤ greatest_population }
{
    if !sound::<V>(case, cell, pops) {
        return false;
    }
    let sent = post::<V>(case, cell, pops);
    for i in 0..V::Q {
        if after.rows[i][j] != sent.f[i] {
            return false;
        }
    }
    true
}

// Whether the second block is what the cells make of the first one.
fn all_sent<V: VelocitySet>(case: &Case, cell: u32, before: &Block, after: &Block) -> bool
    requires set { case.now.stencil ≡ V.stencil }
    requires cells { cell + 8 ≤ cells case.now.torus }
    requires small { (i j : ℕ) → i < most_directions → j < 8 → unsigned_abs (lane before.now.rows j i) ≤ greatest_population }
{
    let _ = case.space().cells();
    for j in 0..8u32 {
        let pops = pops_in(before, j as usize);
        if !is_sent::<V>(case, cell + j, &pops, after, j as usize) {
            return false;
        }
    }
    before.rows[V::Q..] == after.rows[V::Q..]
}

// The first lane out of limits, by the rule of one cell.
fn first_unsound<V: VelocitySet>(case: &Case, cell: u32, block: &Block) -> Option<u32>
    requires set { case.now.stencil ≡ V.stencil }
    requires cells { cell + 8 ≤ cells case.now.torus }
    requires small { (i j : ℕ) → i < most_directions → j < 8 → unsigned_abs (lane block.now.rows j i) ≤ greatest_population }
{
    let _ = case.space().cells();
    for j in 0..8u32 {
        let pops = pops_in(block, j as usize);
        if !sound::<V>(case, cell + j, &pops) {
            return Some(j);
        }
    }
    None
}

// Whether the rule over eight cells answers and leaves what the rule of one cell does.
fn agrees<V: VelocitySet>(case: &Case, rule: &CellRule<'_, V>, cell: u32, before: &Block) -> bool
    requires set { case.now.stencil ≡ V.stencil }
    requires rule { rule.now ≡ case.now }
    requires cells { cell + 8 ≤ cells case.now.torus }
    requires small { (i j : ℕ) → i < most_directions → j < 8 → unsigned_abs (lane before.now.rows j i) ≤ greatest_population }
{
    let first = first_unsound::<V>(case, cell, before);
    let mut after = *before;
    if rule.check(cell, before) != first || rule.collide(cell, &mut after) != first {
        return false;
    }
    match first {
        Some(_) => after == *before,
        None => all_sent::<V>(case, cell, before, &after),
    }
}

// No lane out of limits, one at each place, and more of them.
const OUT: [u8; 12] = [0, 1, 2, 4, 8, 16, 32, 64, 128, 82, 172, 255];

// The first block of a case that does not follow the rule of one cell.
fn first_apart<V: VelocitySet>(case: &Case) -> Option<(u32, u8)>
    requires { case.now.stencil ≡ V.stencil }
{
    let rule = CellRule::<V>::of(case);
    for number in 0..case.space().cells() / 8 {
        let cell = 8 * number;
        for k in 0..12 {
            let out = OUT[k];
            if !agrees::<V>(case, &rule, cell, &block_of(cell, out)) {
                return Some((cell, out));
            }
        }
    }
    None
}

// All mixes of eight cells, three in a row: a cell is fluid, a wall or a moving wall by its digit in base three.
fn map_of_mixes(alloc: Global) -> Result<String, Fail> {
    let mut text = String::from_str(alloc, "map = [")?;
    for row in 0..2187u32 {
        text.push('"')?;
        for part in 0..3u32 {
            let mut digits = 3 * row + part;
            for _ in 0..8 {
                text.push(['.', '#', '='][(digits % 3) as usize])?;
                digits /= 3;
            }
        }
        text.push_str("\",")?;
    }
    text.push_str("]\n")?;
    Ok(text)
}

// The case of these settings with all mixes.
fn case_of_mixes(alloc: Global, settings: &str) -> Result<Case, Fail> {
    let mut text = map_of_mixes(alloc)?;
    text.push_str(settings)?;
    let bytes = text.as_bytes();
    if bytes.len() > 1000000 {
        return Err("the text is short".into());
    }
    let Ok(case) = read_case(alloc, bytes) else {
        return Err("the text spells a case".into());
    };
    Ok(case)
}

// The first block of these settings that does not follow the rule of one cell.
fn first_apart_in(alloc: Global, settings: &str) -> Result<Option<(u32, u8)>, Fail> {
    let case = case_of_mixes(alloc, settings)?;
    Ok(at_set!(case.set(), first_apart(&case)))
}

#[test]
fn each_mix_of_eight_cells_follows_the_rule_of_one(rt: HostRuntime) -> Result<(), Fail> {
    for settings in [
        "set = \"D2Q9\"\nomega = [5, 4]\nomega_minus = 3\nforce = [3, -2, 0]\nwall = [64, -48, 0]\n",
        "set = \"D2Q9\"\nomega = [1, 1]\nforce = [-1, 7, 0]\nwall = [-7, 1000, 0]\n",
        "set = \"D3Q19\"\nlayers = 3\nomega = [5, 4]\nomega_minus = 3\nforce = [3, -2, 1]\nwall = [64, -48, 32]\n",
        "set = \"D3Q19\"\nlayers = 3\nomega = [1, 1]\nforce = [-1, 7, 5]\nwall = [-7, 1000, -3]\n",
        "set = \"D3Q15\"\nlayers = 3\nomega = [5, 4]\nomega_minus = 3\nforce = [3, -2, 1]\nwall = [64, -48, 32]\n",
        "set = \"D3Q27\"\nlayers = 3\nomega = [5, 4]\nomega_minus = 3\nforce = [3, -2, 1]\nwall = [64, -48, 32]\n",
    ] {
        assert_eq!(rt; first_apart_in(rt.alloc(), settings)?, None, "{settings}");
    }
    Ok(())
}
