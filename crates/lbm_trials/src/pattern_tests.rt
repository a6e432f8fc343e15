// Runs of patterns, one of which is none of the project's.
ghost use Rattle.std.specs.Prelude.{◌≡◌, ◌≤◌, IsNone};
ghost use Rattle.lbm_model.specs.Limits.{most_steps};

use crate::watch::Watch;
use lbm_aa::Aa;
use lbm_case::read_case;
use lbm_flow::{RunEnd, run_pattern, state_of};
use lbm_grid::Grid;
use lbm_lattice::Pattern;
use lbm_model::{Case, State, at_set};
use lbm_plain::{Plain, first_of};
use lbm_rows::{Tiles, tile_rows};
use lbm_space::{Cutting, VelocitySet};
use lbm_swap::Swap;
use lbm_two::Two;
use std::alloc::Global;
use std::marker::Sync;
use std::test::Fail;
use std::thread::Threads;

// Which pattern runs a case.
#[derive(Clone, Copy, Debug)]
enum Kind {
    Plain,
    Two,
    Swap,
    Grid,
    Aa,
    Tiles,
}

// The state that a pattern reaches, or how its run ends before.
fn reached<R: Threads + Sync, P: Pattern<Watch> + Drop>(
    rt: &R,
    alloc: Global,
    mut pattern: P,
    steps: u64,
) -> Result<Result<State, RunEnd>, Fail>
    requires unspent { IsNone (P.standing pattern).spent }
    requires begins { (P.standing pattern).time ≤ steps }
    requires few { steps ≤ most_steps }
{
    match run_pattern(rt, &mut pattern, steps, &Watch::open()) {
        Ok(()) => Ok(Ok(state_of(alloc, &pattern)?)),
        Err(end) => Ok(Err(end)),
    }
}

// The same from the first state of a case, over three slabs, or tiles of a row each that three turns take.
fn reached_in<V: VelocitySet + Sync, R: Threads + Sync>(
    rt: &R,
    alloc: Global,
    kind: Kind,
    case: Case,
    steps: u64,
) -> Result<Result<State, RunEnd>, Fail>
    requires set { case.stencil ≡ V.stencil }
    requires few { steps ≤ most_steps }
{
    let cut = Cutting::even(alloc, case.space(), 3)?;
    let state = first_of::<V>(alloc, &case)?;
    match kind {
        Kind::Plain => reached(rt, alloc, Plain::<V>::start(alloc, case, state), steps),
        Kind::Two => reached(
            rt,
            alloc,
            Two::<V, Global>::start(alloc, case, &state, 0, cut)?,
            steps,
        ),
        Kind::Swap => reached(
            rt,
            alloc,
            Swap::<V, Global>::start(alloc, case, &state, 0, cut)?,
            steps,
        ),
        Kind::Grid => reached(
            rt,
            alloc,
            Grid::<V, Global>::start(alloc, case, &state, 0, cut)?,
            steps,
        ),
        Kind::Aa => reached(
            rt,
            alloc,
            Aa::<V, Global>::start(alloc, case, &state, 0, cut)?,
            steps,
        ),
        Kind::Tiles => {
            let per_tile = tile_rows(case.space(), 1);
            let tiles = Tiles::<V>::start(alloc, case, &state, 0, per_tile, 3)?;
            reached(rt, alloc, tiles, steps)
        }
    }
}

// The same of the case that a text spells.
fn reached_of<R: Threads + Sync>(
    rt: &R,
    alloc: Global,
    kind: Kind,
    text: &str,
    steps: u64,
) -> Result<Result<State, RunEnd>, Fail>
    requires few { steps ≤ most_steps }
{
    let bytes = text.as_bytes();
    if bytes.len() > 1000 {
        return Err("the text is short".into());
    }
    let Ok(case) = read_case(alloc, bytes) else {
        return Err("the text spells a case".into());
    };
    at_set!(case.set(), reached_in::<R>(rt, alloc, kind, case, steps))
}

// A force, walls that move, and a cell that is denser than the others.
#[test]
fn each_pattern_reaches_the_state_of_the_plain_one(rt: HostRuntime) -> Result<(), Fail> {
    let alloc = rt.alloc();
    for set in ["D2Q9", "D3Q15", "D3Q19", "D3Q27"] {
        let text = format!(in alloc;
            "set = \"{set}\"\nomega = [5, 4]\nforce = [1, 2, 0]\nwall = [64, 0, 0]\ndigit = 1024\nmap = [\"=====\", \"1.#..\", \".....\", \"..3..\"]\n"
        )?;
        let plain = reached_of(&rt, alloc, Kind::Plain, &text, 7)?;
        let Ok(plain) = plain else {
            return Err("the plain pattern stays in limits".into());
        };
        for kind in [Kind::Two, Kind::Swap, Kind::Grid, Kind::Aa, Kind::Tiles] {
            match reached_of(&rt, alloc, kind, &text, 7)? {
                Ok(state) => assert_eq!(rt; state.pops(), plain.pops(), "{set} {kind:?}"),
                Err(end) => assert!(rt; false, "{set} {kind:?} {end:?}"),
            }
        }
    }
    Ok(())
}

// The force adds 12 * 1024 of 884736 to the momentum, so k steps make the velocity u = k/72. In the next step the population along
// y is 98304 * (1 - 3/2 u * u), which is below 0 where u is above 0.8165: 58/72 = 0.8056 is not, and 59/72 = 0.8194 is.
#[test]
fn each_pattern_leaves_the_limits_at_step_60(rt: HostRuntime) -> Result<(), Fail> {
    let alloc = rt.alloc();
    let text =
        "set = \"D2Q9\"\nomega = [1, 1]\nforce = [1024, 0, 0]\nmap = [\"..\", \"..\", \"..\"]\n";
    for kind in [
        Kind::Plain,
        Kind::Two,
        Kind::Swap,
        Kind::Grid,
        Kind::Aa,
        Kind::Tiles,
    ] {
        for steps in [60, 61] {
            match reached_of(&rt, alloc, kind, text, steps)? {
                Ok(_) => assert!(rt; false, "{kind:?}"),
                Err(end) => assert_eq!(rt; end, RunEnd::Range { step: 60, cell: 0 }, "{kind:?}"),
            }
        }
    }
    Ok(())
}
