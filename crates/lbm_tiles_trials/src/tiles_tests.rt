// Two callers that serve one board of tiles, from two threads, and a step of tiles without memory.
ghost use Rattle.std.specs.Prelude.{◌≡◌, ◌<◌, ◌≤◌, IfOk, IsNone};
ghost use Rattle.lbm_space.specs.Tables.{d3q19};
ghost use Rattle.lbm_board.specs.Models.{IsTurnOf};
ghost use Rattle.lbm_model.specs.Limits.{most_steps};
ghost use Rattle.lbm_rows.specs.Serving.{CanServe};

use lbm_board::{Board, Turn};
use lbm_case::read_case;
use lbm_lattice::Pattern;
use lbm_model::{Case, Lattice, NoGate, SetKind, State, StepEnd};
use lbm_plain::{Plain, first_of};
use lbm_rows::{Division, Tile, Tiles, deal, make_rows, serve, tile_rows};
use lbm_space::{D3Q19, VelocitySet};
use std::alloc::{AllocError, Global};
use std::marker::Sync;
use std::process::Abort;
use std::snapshot::Snapshot;
use std::sync::Wait;
use std::test::Fail;
use std::thread;
use std::thread::{Promise, Threads};

// Nine rows of three cells in space, of which the middle one is solid, with a force.
const BOX: &str = "set = \"D3Q19\"\nomega = [5, 4]\nforce = [3, -2, 1]\nlayers = 3\nmap = [
    \"...\", \"...\", \"...\",
    \"...\", \".#.\", \"...\",
    \"...\", \"...\", \"...\",
]\n";

// The tiles of a step from a time of a case, at a board.
#[derive(Drop)]
struct Service {
    board: Board<Tile>,
    case: Case,
    time: u64,
}

fn served(service: &Service, mut turn: Turn<Tile>) -> Turn<Tile>
    requires set { service.now.case.stencil ≡ d3q19 }
    requires able { CanServe service.now.case service.now.time service.now.board turn }
    ensures { IsTurnOf service.now.board result }
{
    serve::<D3Q19, NoGate>(
        &service.board,
        &mut turn,
        &service.case,
        service.time,
        &NoGate,
    );
    turn
}

// A turn that a thread gives back is of the service's board.
#[derive(Drop)]
struct IsOfService(Snapshot<Service>);

impl Promise<Turn<Tile>> for IsOfService {
    ghost kept_by = { λ p turn. IsTurnOf p.0.value.board turn };
}

fn served_in_two_threads<R: Threads + Wait>(
    rt: &R,
    service: &Service,
    first: Turn<Tile>,
    second: Turn<Tile>,
) -> (Turn<Tile>, Turn<Tile>)
    requires set { service.now.case.stencil ≡ d3q19 }
    requires first { CanServe service.now.case service.now.time service.now.board first }
    requires second { CanServe service.now.case service.now.time service.now.board second }
    ensures first { IsTurnOf service.now.board result.0 }
    ensures second { IsTurnOf service.now.board result.1 }
{
    thread::scope(
        thread::scope_env(),
        rt,
        |scope| -> (Turn<Tile>, Turn<Tile>)
            requires { (service.now.case.stencil ≡ d3q19) × CanServe service.now.case service.now.time service.now.board first × CanServe service.now.case service.now.time service.now.board second }
            ensures { IsTurnOf service.entry.now.board result.0 × IsTurnOf service.entry.now.board result.1 }
        {
            let one = scope.spawn_with(
                IsOfService(Snapshot::of(service)),
                move || -> Turn<Tile>
                    requires { (service.now.case.stencil ≡ d3q19) × CanServe service.now.case service.now.time service.now.board first }
                    ensures { IsTurnOf service.entry.now.board result }
                { served(service, first) },
            );
            let two = scope.spawn_with(
                IsOfService(Snapshot::of(service)),
                move || -> Turn<Tile>
                    requires { (service.now.case.stencil ≡ d3q19) × CanServe service.now.case service.now.time service.now.board second }
                    ensures { IsTurnOf service.entry.now.board result }
                { served(service, second) },
            );
            let first = match one {
                Ok(child) => child.join(rt),
                Err(refused) => (refused.value)(),
            };
            let second = match two {
                Ok(child) => child.join(rt),
                Err(refused) => (refused.value)(),
            };
            (first, second)
        },
    )
}

// Population i of a cell.
fn population(state: &State, cell: u32, i: usize) -> Option<i64> {
    let first = (cell as usize).wrapping_mul(state.q() as usize);
    let pops = state.pops().get(first.wrapping_add(i))?;
    Some(i64::from(*pops))
}

// What stands in the slot of a cell in array k at time `t`: at even times the cell has its own population k there, at odd ones
// the cell behind has sent the opposite one.
fn expected<V: VelocitySet>(case: &Case, state: &State, t: u64, k: usize, cell: u32) -> Option<i64>
    requires { k < V.stencil.directions }
{
    if t % 2 == 0 {
        return population(state, cell, k);
    }
    if cell >= case.space().cells() {
        return None;
    }
    population(state, case.space().back::<V>(cell, k), V::opp(k))
}

// The row of cells whose kept row of array k a step from time `t` lends for a row.
fn lent_row<V: VelocitySet>(case: &Case, t: u64, k: usize, row: u32) -> u32
    requires { k < V.stencil.directions }
{
    let space = case.space();
    let width = space.sides()[0];
    let first = row.wrapping_mul(width);
    if t % 2 == 0 || first >= space.cells() {
        return row;
    }
    space.back::<V>(first, V::opp(k)) / width
}

// How many slots of a tile of one row have what they are to have at the next time.
fn right_slots<V: VelocitySet>(case: &Case, next: &State, t: u64, row: u32, tile: &Tile) -> usize
    requires { t ≤ most_steps }
{
    let width = case.space().sides()[0];
    let mut right = 0usize;
    for k in 0..V::Q {
        let Some(kept) = tile.kept_rows().get(k) else {
            continue;
        };
        let first = lent_row::<V>(case, t, k, row).wrapping_mul(width);
        for x in 0..width {
            let cell = first.wrapping_add(x);
            let slot = kept.slots().get(x as usize + 1).copied();
            if slot.is_some() && slot == expected::<V>(case, next, t + 1, k, cell) {
                right = right.wrapping_add(1);
            }
        }
    }
    right
}

// The same of tiles of a row each, all of them.
fn right_in_all<V: VelocitySet>(case: &Case, next: &State, t: u64, pieces: &[Option<Tile>]) -> usize
    requires { t ≤ most_steps }
{
    let mut right = 0usize;
    let mut row = 0u32;
    for piece in pieces {
        if let Some(tile) = piece {
            right = right.wrapping_add(right_slots::<V>(case, next, t, row, tile));
        }
        row = row.wrapping_add(1);
    }
    right
}

// How many slots have what they are to have once two threads have served the tiles of a step from time `t`.
fn right_after_serving<R: Threads + Wait>(
    rt: &R,
    alloc: Global,
    case: Case,
    next: &State,
    t: u64,
) -> Result<usize, Fail>
    requires set { case.stencil ≡ d3q19 }
    requires time { t ≤ most_steps }
{
    let state = first_of::<D3Q19>(alloc, &case)?;
    let mut kept = make_rows::<D3Q19>(alloc, &case, &state, t)?;
    let division = Division {
        per_tile: tile_rows(case.space(), 1),
        workers: 2,
    };
    let rows = kept.as_mut_slice();
    let (board, mut turns) = deal::<D3Q19>(rows, &case, t, division, alloc)?;
    let service = Service {
        board,
        case,
        time: t,
    };
    let Some(second) = turns.pop() else {
        return Err("there are two turns".into());
    };
    let Some(first) = turns.pop() else {
        return Err("there are two turns".into());
    };
    let (first, second) = served_in_two_threads::<R>(rt, &service, first, second);
    turns.push(first)?;
    turns.push(second)?;
    let Service { board, case, .. } = service;
    let closed = board.close(turns);
    Ok(right_in_all::<D3Q19>(&case, next, t, closed.pieces.as_slice()))
}

// The case of the box.
fn box_case(alloc: Global) -> Result<Case, Fail>
    ensures { IfOk result (λ case. case.stencil ≡ d3q19) }
{
    let Ok(case) = read_case(alloc, BOX.as_bytes()) else {
        return Err("the text spells a case".into());
    };
    match case.set() {
        SetKind::D3Q19 => Ok(case),
        _ => Err("the case is in D3Q19".into()),
    }
}

// The state that the plain definition reaches after a step.
fn next_of<R: Threads + Sync>(rt: &R, alloc: Global) -> Result<State, Fail> {
    let case = box_case(alloc)?;
    let state = first_of::<D3Q19>(alloc, &case)?;
    let mut plain = Plain::<D3Q19>::start(alloc, case, state);
    match plain.step(rt, &NoGate) {
        Ok(()) => Ok(plain.state(alloc)?),
        Err(_) => Err("the box stays in limits".into()),
    }
}

// Nine tiles of a row of three cells, each with 19 kept rows: 513 slots, at either parity.
#[test]
fn two_threads_serve_one_board_of_tiles(rt: HostRuntime) -> Result<(), Fail> {
    let alloc = rt.alloc();
    let next = next_of(&rt, alloc)?;
    for t in [0, 1] {
        let case = box_case(alloc)?;
        let right = right_after_serving::<HostRuntime>(&rt, alloc, case, &next, t)?;
        assert_eq!(rt; right, 513);
    }
    Ok(())
}

// Adds the slots of the kept rows of array k.
fn add_rows<V: VelocitySet>(
    slots: &mut Vec<i64>,
    tiles: &Tiles<V>,
    k: u32,
) -> Result<(), AllocError>
    requires { k < tiles.now.case.stencil.directions }
{
    for row in 0..tiles.case().space().rows() {
        slots.extend_from_slice(tiles.row(k, row))?;
    }
    Ok(())
}

// All slots of the kept rows, array after array.
fn kept_slots<V: VelocitySet>(alloc: Global, tiles: &Tiles<V>) -> Result<Vec<i64>, AllocError> {
    let mut slots = Vec::new(alloc);
    for k in 0..tiles.case().set().directions() {
        add_rows(&mut slots, tiles, k)?;
    }
    Ok(slots)
}

// One step, in which an allocation may fail, as `rt try --test --fail-alloc N` makes it: where memory is wanted all rows and the
// time are as before, and the step made again goes on.
fn step_at_last<V: VelocitySet + Sync, R: Threads + Sync + Abort>(
    rt: &R,
    alloc: Global,
    tiles: &mut Tiles<V>,
) -> Result<(), Fail>
    requires unspent { IsNone tiles.old.spent }
    requires time { tiles.old.time < most_steps }
    ensures { IfOk result (λ u. IsNone tiles.new.spent) }
{
    let time = tiles.time();
    let before = kept_slots::<V>(alloc, tiles)?;
    match tiles.step(rt, &NoGate) {
        Ok(()) => return Ok(()),
        Err(StepEnd::Range(_)) => return Err("all cells are in limits".into()),
        Err(StepEnd::Memory) => {}
    }
    assert_eq!(rt; tiles.time(), time);
    assert_eq!(rt; kept_slots::<V>(alloc, tiles)?, before);
    match tiles.step(rt, &NoGate) {
        Ok(()) => Ok(()),
        Err(_) => Err("the step made again goes on".into()),
    }
}

// The state that one step from time `t` of the first state of a case reaches, by tiles of one row that two turns take.
fn reached_by_tiles<V: VelocitySet + Sync, R: Threads + Sync + Abort>(
    rt: &R,
    alloc: Global,
    case: Case,
    t: u64,
) -> Result<State, Fail>
    requires set { case.stencil ≡ V.stencil }
    requires time { t < most_steps }
{
    let state = first_of::<V>(alloc, &case)?;
    let per_tile = tile_rows(case.space(), 1);
    let mut tiles = Tiles::<V>::start(alloc, case, &state, t, per_tile, 2)?;
    step_at_last::<V, R>(rt, alloc, &mut tiles)?;
    assert_eq!(rt; tiles.time(), t + 1);
    Ok(tiles.state(alloc)?)
}

// The box over nine tiles, from an even time and from an odd one.
#[test]
fn a_step_without_memory_can_be_made_again(rt: HostRuntime) -> Result<(), Fail> {
    let alloc = rt.alloc();
    let next = next_of(&rt, alloc)?;
    for t in [0, 1] {
        let case = box_case(alloc)?;
        let reached = reached_by_tiles::<D3Q19, HostRuntime>(&rt, alloc, case, t)?;
        assert_eq!(rt; reached.pops(), next.pops());
    }
    Ok(())
}
