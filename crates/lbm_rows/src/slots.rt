//! Runs of slots, and the pads of a row.

ghost use Rattle.std.specs.Prelude.{◌≡◌, ◌+◌, ◌≤◌, length, take};
ghost use Rattle.lbm_arrays.specs.Ranges.{over};
ghost use Rattle.lbm_rows.specs.TileRows.{with_pads, without_pads};

/// Writes eight lanes to the slots from `first` on.
#[inline]
pub(crate) fn store_block(slots: &mut [i64], first: usize, lanes: [i64; 8])
    requires { first + 8 ≤ length slots.old }
    ensures { slots.new ≡ over slots.old first (take 8 lanes) }
{
    let _ = slots.len(); // It fits a machine word.
    slots[first..first + 8].copy_from_slice(&lanes);
}

/// Writes the first `n` lanes, 1 to 8, to the slots from `first` on.
#[inline]
pub(crate) fn store(slots: &mut [i64], first: usize, n: u32, lanes: [i64; 8])
    requires some { 1 ≤ n }
    requires few { n ≤ 8 }
    requires inside { first + n ≤ length slots.old }
    ensures { slots.new ≡ over slots.old first (take n lanes) }
{
    let _ = slots.len(); // It fits a machine word.
    let n = n as usize;
    slots[first..first + n].copy_from_slice(&lanes[..n]);
}

/// Sets the pads of a row of `width` cells.
pub(crate) fn load_pads(slots: &mut [i64], width: usize)
    requires some { 1 ≤ width }
    requires long { length slots.old ≡ width + 2 }
    ensures { slots.new ≡ with_pads width slots.old }
{
    let (first, last) = (slots[1], slots[width]);
    slots[0] = last;
    slots[width + 1] = first;
}

/// Puts what stands in a pad of a row of `width` cells where it belongs, where the first cell has slot `start`.
pub(crate) fn store_pads(slots: &mut [i64], width: usize, start: usize)
    requires some { 1 ≤ width }
    requires long { length slots.old ≡ width + 2 }
    requires start { start ≤ 2 }
    ensures { slots.new ≡ without_pads width start slots.old }
{
    match start {
        0 => slots[width] = slots[0],
        1 => {}
        _ => slots[1] = slots[width + 1],
    }
}
