//! The cells of a drawing.

ghost use Rattle.std.specs.Prelude.{◌≡◌, ◌+◌, ◌*◌, ◌^◌, ◌<◌, ◌==◌, [], ◌∷◌, ◌++◌, length, map, if◌then◌else◌, IfOk, OnOk};
ghost use Rattle.std.specs.Str.{chars};
ghost use Rattle.lbm_case.specs.Views.{drawing_view};
ghost use Rattle.lbm_case.specs.Drawing.{equals, cells_of, density_of, moving_in};

use crate::rows::text_of;
use std::alloc::{AllocError, Global};
use toml::Value;

/// The first density of the cell that a character stands for, which is 0 in a wall.
fn density_of(density: u32, digit: u32, c: char) -> u32
    requires { density + 9 * digit < 2 ^ 32 }
    ensures { result ≡ density_of density digit c }
{
    match c {
        '.' => density,
        '0'..='9' => density + (u32::from(c) - u32::from('0')) * digit,
        _ => 0,
    }
}

/// Adds the first densities of the cells of a row.
fn push_densities(
    densities: &mut Vec<u32>,
    density: u32,
    digit: u32,
    text: &str,
) -> Result<(), AllocError>
    requires { density + 9 * digit < 2 ^ 32 }
    ensures { OnOk result (densities.new.items ≡ densities.old.items ++ map (density_of density digit) (chars text.now)) }
{
    for c in text.chars() {
        densities.push(density_of(density, digit, c))?;
    }
    Ok(())
}

/// The first densities of the cells, in order of their numbers, of which there are `count`.
pub(crate) fn densities_of(
    alloc: Global,
    count: usize,
    density: u32,
    digit: u32,
    rows: &[Value],
) -> Result<Vec<u32>, AllocError>
    requires { density + 9 * digit < 2 ^ 32 }
    ensures { IfOk result (λ densities. densities.items ≡ map (density_of density digit) (cells_of (drawing_view rows.now))) }
{
    let mut densities = Vec::with_capacity(alloc, count)?;
    for row in rows {
        push_densities(&mut densities, density, digit, text_of(row))?;
    }
    Ok(densities)
}

/// Adds the number of a cell that moves.
fn push_if_moving(moving: &mut Vec<u32>, number: u32, c: char) -> Result<(), AllocError>
    ensures { OnOk result (moving.new.items ≡ moving.old.items ++ (if c == equals then number ∷ [] else [])) }
{
    if c == '=' {
        moving.push(number)?;
    }
    Ok(())
}

/// Adds the numbers of the cells of a row that move, where `first` is the number of its first cell, and gives the number
/// after its last.
fn push_moving(moving: &mut Vec<u32>, first: u32, text: &str) -> Result<u32, AllocError>
    requires { first + length (chars text.now) < 2 ^ 32 }
    ensures items { OnOk result (moving.new.items ≡ moving.old.items ++ map (λ x. first + x) (moving_in (chars text.now))) }
    ensures next { IfOk result (λ next. next ≡ first + length (chars text.now)) }
{
    let mut number = first;
    for c in text.chars() {
        push_if_moving(moving, number, c)?;
        number += 1;
    }
    Ok(number)
}

/// The numbers of the cells that move, in order.
pub(crate) fn moving_in(alloc: Global, rows: &[Value]) -> Result<Vec<u32>, AllocError>
    requires { length (cells_of (drawing_view rows.now)) < 2 ^ 32 }
    ensures { IfOk result (λ moving. moving.items ≡ moving_in (cells_of (drawing_view rows.now))) }
{
    let mut moving = Vec::new(alloc);
    let mut first = 0;
    for row in rows {
        first = push_moving(&mut moving, first, text_of(row))?;
    }
    Ok(moving)
}
