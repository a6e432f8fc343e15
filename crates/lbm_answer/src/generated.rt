// The generated case.
ghost use Rattle.std.specs.Prelude.{◌≡◌, ◌≤◌, ◌<◌, ◌*◌, ◌++◌, IfOk};
ghost use Rattle.lbm_answer.specs.Gen.{gen, gen_cell, gen_height, gen_row, is_in_block, is_wall};

use lbm_space::Memory;
use std::alloc::Global;

const WIDTH: u32 = 128;

/// The text of the generated case of size `n`, which is 1 to 128: a plane channel of 128 by 32 n cells, with walls in its
/// first and last row, a force along it, and 16 n blocks of two by two solid cells. Want of memory is the only refusal.
pub fn gen_case(alloc: Global, n: u32) -> Result<Vec<u8>, Memory>
    requires some { 1 ≤ n }
    requires few { n ≤ 128 }
    ensures { IfOk result (λ text. text.items ≡ gen n) }
{
    let mut text = Vec::new(alloc);
    text.extend_from_slice(b"set = \"D2Q9\"\nomega = [1, 1]\nforce = [1, 0, 0]\nmap = [\n")?;
    for y in 0..32 * n {
        put_row(&mut text, n, y)?;
    }
    text.extend_from_slice(b"]\n")?;
    Ok(text)
}

// A row of the map, in quotes and with a comma.
fn put_row(text: &mut Vec<u8>, n: u32, y: u32) -> Result<(), Memory>
    requires few { n ≤ 128 }
    requires known { y < gen_height n }
    ensures { IfOk result (λ _. text.new.items ≡ text.old.items ++ gen_row n y) }
{
    text.push(b'"')?;
    for x in 0..WIDTH {
        text.push(cell(n, x, y))?;
    }
    text.extend_from_slice(b"\",\n")?;
    Ok(())
}

// The character of a cell.
fn cell(n: u32, x: u32, y: u32) -> u8
    requires few { n ≤ 128 }
    requires column { x < 128 }
    requires row { y < gen_height n }
    ensures { result ≡ gen_cell n x y }
{
    if y == 0 || y == 32 * n - 1 || is_in_block(n, x, y) {
        b'#'
    } else {
        b'.'
    }
}

// Each square of 16 by 16 cells has one block of two by two, 4 cells and some more behind the square's corner.
fn is_in_block(n: u32, x: u32, y: u32) -> bool
    requires few { n ≤ 128 }
    requires column { x < 128 }
    requires row { y < gen_height n }
    ensures { result ≡ is_in_block n x y }
{
    let (a, b) = (x / 16, y / 16);
    let left = 16 * a + 4 + (5 * a + 3 * b + n) % 8;
    let low = 16 * b + 4 + (3 * a + 7 * b + n * n) % 8;
    (x == left || x == left + 1) && (y == low || y == low + 1)
}
