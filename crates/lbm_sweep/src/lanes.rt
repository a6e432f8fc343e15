//! Runs of numbers as lanes.

ghost use Rattle.std.specs.Prelude.{◌≡◌, ◌+◌, ◌<◌, ◌≤◌, ℕ, pos, length, slice_index_or};

/// The `n` numbers, at most 8, from number `first` on. The other lanes are 0.
pub fn lanes_at(numbers: &[i64], first: usize, n: u32) -> [i64; 8]
    requires few { n ≤ 8 }
    requires inside { first + n ≤ length numbers.now }
    ensures numbers { (j : ℕ) → j < n → slice_index_or result j (pos 0) ≡ slice_index_or numbers.now (first + j) (pos 0) }
    ensures past { (j : ℕ) → n ≤ j → slice_index_or result j (pos 0) ≡ pos 0 }
{
    let _ = numbers.len(); // It fits a machine word.
    lanes_of(&numbers[first..first + n as usize])
}

// The numbers of a run of at most eight. The other lanes are 0.
fn lanes_of(run: &[i64]) -> [i64; 8]
    requires { length run.now ≤ 8 }
    ensures numbers { (j : ℕ) → j < length run.now → slice_index_or result j (pos 0) ≡ slice_index_or run.now j (pos 0) }
    ensures past { (j : ℕ) → length run.now ≤ j → slice_index_or result j (pos 0) ≡ pos 0 }
{
    let mut lanes = [0; 8];
    for (j, number) in run.iter().enumerate() {
        lanes[j] = *number;
    }
    lanes
}

/// The eight numbers from number `first` on.
#[inline(always)]
pub fn eight_at(numbers: &[i64], first: usize) -> [i64; 8]
    requires { first + 8 ≤ length numbers.now }
    ensures { (j : ℕ) → j < 8 → slice_index_or result j (pos 0) ≡ slice_index_or numbers.now (first + j) (pos 0) }
{
    let _ = numbers.len(); // It fits a machine word.
    eight_of(&numbers[first..first + 8])
}

// The numbers of a run of eight.
#[inline(always)]
fn eight_of(run: &[i64]) -> [i64; 8]
    requires { length run.now ≡ 8 }
    ensures { (j : ℕ) → j < 8 → slice_index_or result j (pos 0) ≡ slice_index_or run.now j (pos 0) }
{
    [
        run[0], run[1], run[2], run[3], run[4], run[5], run[6], run[7],
    ]
}
