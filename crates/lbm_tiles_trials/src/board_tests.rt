// Boards: that a call has memory, that one turn is told of another's report, and that two threads end.
ghost use Rattle.std.specs.Prelude.{◌≡◌, IfOk, vec_len};
ghost use Rattle.lbm_board.specs.Models.{IsTurnOf};

use lbm_board::{Board, Turn};
use lbm_space::Memory;
use std::alloc::{AllocError, Global};
use std::cell::Cell;
use std::snapshot::Snapshot;
use std::sync::Wait;
use std::test::Fail;
use std::thread;
use std::thread::{Promise, Threads};

#[test]
fn two_turns_share_three_pieces(rt: HostRuntime) -> Result<(), Fail> {
    let pieces = vec![in rt.alloc(); 10u64, 20, 30]?;
    let (board, mut turns) = Board::start(rt.alloc(), pieces, 2)?;
    let mut b = turns.pop().expect(&rt, "turn 1");
    let mut a = turns.pop().expect(&rt, "turn 0");
    let (first, piece) = board.claim(&mut a).expect(&rt, "piece 0");
    assert_eq!(rt; (first, piece), (0, 10));
    let (second, piece) = board.claim(&mut b).expect(&rt, "piece 1");
    assert_eq!(rt; (second, piece), (1, 20));
    board.show_apart(&mut a, &mut b);
    assert_eq!(rt; board.finish(&mut a, first, 11, 7), 7);
    let (third, piece) = board.claim(&mut a).expect(&rt, "piece 2");
    assert_eq!(rt; (third, piece), (2, 30));
    assert_eq!(rt; board.finish(&mut b, second, 21, u64::MAX), 7);
    assert_eq!(rt; board.finish(&mut a, third, 31, 4), 4);
    assert!(rt; board.claim(&mut a).is_none());
    assert!(rt; board.claim(&mut b).is_none());
    assert_eq!(rt; board.look(&mut b), 4);
    turns.push(a)?;
    turns.push(b)?;
    let closed = board.close(turns);
    assert_eq!(rt;
        closed.pieces.as_slice(),
        [Some(11), Some(21), Some(31)].as_slice()
    );
    assert_eq!(rt;
        closed.drawn.as_slice(),
        [Some(0), Some(1), Some(0)].as_slice()
    );
    assert_eq!(rt; closed.least, 4);
    Ok(())
}

#[test]
fn pieces_come_back_without_memory(rt: HostRuntime) -> Result<(), Fail> {
    let pieces = vec![in rt.alloc(); 10u64, 20, 30]?;
    match Board::start(rt.alloc(), pieces, 2) {
        Ok((board, turns)) => {
            assert_eq!(rt; turns.len(), 2);
            drop(turns);
            drop(board);
        }
        Err((pieces, Memory)) => assert_eq!(rt; pieces.as_slice(), [10, 20, 30].as_slice()),
    }
    Ok(())
}

// Work on a piece, which threads may move and need not share.
trait Work: Send {
    fn work(&self);
}

// A piece that counts how often it was worked on.
#[derive(Debug, Drop)]
struct Piece {
    worked_on: Cell<u32>,
}

impl Work for Piece {
    fn work(&self) {
        self.worked_on.set(self.worked_on.get().wrapping_add(1));
    }
}

fn thousand_pieces(alloc: Global) -> Result<Vec<Piece>, AllocError>
    ensures { IfOk result (λ v. vec_len v ≡ 1000) }
{
    let mut pieces = Vec::with_capacity(alloc, 1000)?;
    for _ in 0..1000u32 {
        pieces.push(Piece {
            worked_on: Cell::new(0),
        })?;
    }
    Ok(pieces)
}

// A turn that a thread gives back is of this board.
#[derive(Drop)]
struct IsOfBoard<T>(Snapshot<Board<T>>);

impl<T> Promise<Turn<T>> for IsOfBoard<T> {
    ghost kept_by = { λ p turn. IsTurnOf p.0.value turn };
}

fn work_off<T: Work>(board: &Board<T>, mut turn: Turn<T>) -> Turn<T>
    requires { IsTurnOf board.now turn }
    ensures { IsTurnOf board.now result }
{
    while let Some((number, piece)) = board.claim(&mut turn) {
        piece.work();
        board.finish(&mut turn, number, piece, u64::from(number) + 5);
    }
    turn
}

fn work_off_in_two_threads<T: Work + Drop, R: Threads + Wait>(
    rt: &R,
    board: &Board<T>,
    first: Turn<T>,
    second: Turn<T>,
) -> (Turn<T>, Turn<T>)
    requires first { IsTurnOf board.now first }
    requires second { IsTurnOf board.now second }
    ensures first { IsTurnOf board.now result.0 }
    ensures second { IsTurnOf board.now result.1 }
{
    thread::scope(
        thread::scope_env(),
        rt,
        |scope| -> (Turn<T>, Turn<T>)
            requires { IsTurnOf board.now first × IsTurnOf board.now second }
            ensures { IsTurnOf board.entry.now result.0 × IsTurnOf board.entry.now result.1 }
        {
            let one = scope.spawn_with(
                IsOfBoard(Snapshot::of(board)),
                move || -> Turn<T>
                    requires { IsTurnOf board.now first }
                    ensures { IsTurnOf board.entry.now result }
                { work_off(board, first) },
            );
            let two = scope.spawn_with(
                IsOfBoard(Snapshot::of(board)),
                move || -> Turn<T>
                    requires { IsTurnOf board.now second }
                    ensures { IsTurnOf board.entry.now result }
                { work_off(board, second) },
            );
            let first = match one {
                Ok(child) => child.join(rt),
                Err(refused) => (refused.value)(),
            };
            let second = match two {
                Ok(child) => child.join(rt),
                Err(refused) => (refused.value)(),
            };
            (first, second)
        },
    )
}

#[test]
fn two_threads_finish_each_piece_once(rt: HostRuntime) -> Result<(), Fail> {
    let pieces = thousand_pieces(rt.alloc())?;
    let (board, mut turns) = Board::start(rt.alloc(), pieces, 2)?;
    let second = turns.pop().expect(&rt, "turn 1");
    let first = turns.pop().expect(&rt, "turn 0");
    let (first, second) = work_off_in_two_threads(&rt, &board, first, second);
    turns.push(first)?;
    turns.push(second)?;
    let closed = board.close(turns);
    for piece in &closed.pieces {
        let piece = piece.as_ref().expect(&rt, "each piece is finished");
        assert_eq!(rt; piece.worked_on.get(), 1);
    }
    assert!(rt; closed.drawn.iter().all(|turn| matches!(turn, Some(0 | 1))));
    assert_eq!(rt; closed.least, 5);
    Ok(())
}
