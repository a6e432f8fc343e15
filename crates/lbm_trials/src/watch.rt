// A gate that can wait for what a division of the work has to bring, and counts who comes. It is the gate of all tests, since for each
// type of gate the compiler builds the run of every pattern in every velocity set anew.
use lbm_model::Gate;
use std::sync::atomic::{AtomicU32, Ordering};

const MOST_TURNS: u32 = 100_000_000;

// How long each piece but piece 0 stays where the others are to be waited for.
pub(crate) const STAY_TURNS: u32 = 100_000;

// Keeps piece 0 until so many other pieces have entered for each time that it has, or at most for so many turns, and each of the
// others for a while. It counts how many callers are in it at once.
#[derive(Drop)]
pub(crate) struct Watch {
    // How many others piece 0 waits for.
    waits_for: u32,
    stays: u32,
    zeros: AtomicU32,
    others: AtomicU32,
    // The numbers of the pieces, each counted from 1.
    pub(crate) sum: AtomicU32,
    // How often the turns ran out.
    late: AtomicU32,
    inside: AtomicU32,
    pub(crate) most_inside: AtomicU32,
}

impl Watch {
    // It keeps nobody.
    pub(crate) fn open() -> Watch {
        Watch::new(0, 0)
    }

    pub(crate) fn new(waits_for: u32, stays: u32) -> Watch {
        Watch {
            waits_for,
            stays,
            zeros: AtomicU32::new(0),
            others: AtomicU32::new(0),
            sum: AtomicU32::new(0),
            late: AtomicU32::new(0),
            inside: AtomicU32::new(0),
            most_inside: AtomicU32::new(0),
        }
    }

    fn keep_zero(&self) {
        let times = self.zeros.fetch_add(1, Ordering::SeqCst).wrapping_add(1);
        let wanted = self.waits_for.wrapping_mul(times);
        for _ in 0..MOST_TURNS {
            if self.others.load(Ordering::SeqCst) >= wanted {
                return;
            }
        }
        self.late.fetch_add(1, Ordering::SeqCst);
    }

    fn keep_other(&self) {
        self.others.fetch_add(1, Ordering::SeqCst);
        for _ in 0..self.stays {
            self.most_inside.load(Ordering::SeqCst);
        }
    }

    // How often piece 0 came, how often others did, and how often the turns ran out.
    pub(crate) fn counts(&self) -> (u32, u32, u32) {
        (
            self.zeros.load(Ordering::SeqCst),
            self.others.load(Ordering::SeqCst),
            self.late.load(Ordering::SeqCst),
        )
    }
}

impl Gate for Watch {
    fn enter(&self, piece: u32) {
        let inside = self.inside.fetch_add(1, Ordering::SeqCst).wrapping_add(1);
        self.most_inside.fetch_max(inside, Ordering::SeqCst);
        self.sum
            .fetch_add(piece.saturating_add(1), Ordering::SeqCst);
        if piece == 0 {
            self.keep_zero();
        } else {
            self.keep_other();
        }
        self.inside.fetch_sub(1, Ordering::SeqCst);
    }
}
