//! Which way a sweep goes.

ghost use Rattle.std.specs.Prelude.{◌≡◌, ◌<◌, ◌≤◌, ◌+◌, ◌^◌, Bool, true, false};
ghost use Rattle.lbm_grid.specs.Near.{read_place};

/// Which way a sweep of the cells goes.
pub trait Way {
    ghost RISES: { Bool };

    /// Whether it rises, from the first cell to the last one.
    fn rises() -> bool
        ensures { result ≡ RISES };

    /// The place of the range that the cell of a place reads, `far` places behind it.
    fn place_behind(place: u32, far: u32) -> u32
        requires low { RISES ≡ false → far ≤ place }
        requires high { read_place RISES far place < 2 ^ 32 }
        ensures { result ≡ read_place RISES far place };
}

/// From the first cell up.
pub struct Rising;

/// From the last cell down.
pub struct Falling;

impl Way for Rising {
    ghost RISES = { true };

    #[inline(always)]
    fn rises() -> bool
        ensures { result ≡ true }
    {
        true
    }

    #[inline(always)]
    fn place_behind(place: u32, far: u32) -> u32 {
        place + far
    }
}

impl Way for Falling {
    ghost RISES = { false };

    #[inline(always)]
    fn rises() -> bool
        ensures { result ≡ false }
    {
        false
    }

    #[inline(always)]
    fn place_behind(place: u32, far: u32) -> u32 {
        place - far
    }
}
