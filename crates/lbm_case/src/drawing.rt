//! The case that a file draws.

ghost use Rattle.std.specs.Prelude.{◌≡◌, ◌⊎◌, ◌<◌, ◌≤◌, List, ℕ, ℤ, pos, Some, None, All, IfOk, SomeIff, unsigned_abs};
ghost use Rattle.lbm_space.specs.Stencil.{part};
ghost use Rattle.lbm_space.specs.Torus.{IsSpace, torus};
ghost use Rattle.lbm_cell.specs.Limits.{least_density, greatest_density, greatest_force};
ghost use Rattle.lbm_cell.specs.Collision.{rates};
ghost use Rattle.lbm_case.specs.Limits.{greatest_digit};
ghost use Rattle.lbm_case.specs.Views.{settings_view};
ghost use Rattle.lbm_case.specs.Numbers.{bad_number};
ghost use Rattle.lbm_case.specs.Drawing.{ragged};
ghost use Rattle.lbm_case.specs.CaseOf.{drawing_of, space_drawn, case_drawn, IsFirstDensity};

use crate::cells::{densities_of, moving_in};
use crate::numbers::layers;
use crate::rows::width;
use crate::settings::Settings;
use lbm_cell::{Force, Rates};
use lbm_model::{Case, MovingWalls, SetKind};
use lbm_space::Space;
use std::alloc::{AllocError, Global};

/// A box with these sides, or `None` where it is not allowed.
fn space_of(dim: usize, nx: usize, ny: usize, nz: usize) -> Option<Space>
    requires { (dim ≡ 2) ⊎ (dim ≡ 3) }
    ensures { let t = torus dim nx ny nz in SomeIff result (IsSpace t) t }
{
    let nx = u32::try_from(nx).ok()?;
    let ny = u32::try_from(ny).ok()?;
    let nz = u32::try_from(nz).ok()?;
    Space::new(dim, nx, ny, nz)
}

/// The box that the rows fill, or `None` where it is not allowed.
pub(crate) fn space_drawn(set: SetKind, settings: &Settings) -> Option<Space>
    requires { bad_number (settings_view settings.now) ≡ None }
    ensures { result ≡ space_drawn set (settings_view settings.now) }
{
    let layers = layers(settings);
    let rows = settings.rows;
    space_of(set.dimension(), width(rows), rows.len() / layers, layers)
}

/// The rates of the file.
fn rates_of(settings: &Settings) -> Rates
    requires { bad_number (settings_view settings.now) ≡ None }
    ensures { result ≡ rates (part settings.now.rate 0) settings.now.rate_minus (part settings.now.rate 1) }
{
    let [p, q] = settings.rate;
    Rates::trt(p, settings.rate_minus, q).unwrap()
}

/// The force, or the velocity of a wall, with these parts.
fn force_of(parts: [i64; 3]) -> Force
    requires { (a : ℕ) → unsigned_abs (part parts a) ≤ greatest_force }
    ensures { result ≡ parts }
{
    let [x, y, z] = parts;
    Force::new(x, y, z).unwrap()
}

/// The first density of a plain fluid cell.
fn density_of(settings: &Settings) -> u32
    requires { bad_number (settings_view settings.now) ≡ None }
    ensures value { result ≡ unsigned_abs settings.now.density }
    ensures least { least_density ≤ result }
    ensures greatest { result ≤ greatest_density }
{
    settings.density as u32
}

/// What each step of a digit adds to it.
fn digit_of(settings: &Settings) -> u32
    requires { bad_number (settings_view settings.now) ≡ None }
    ensures value { result ≡ unsigned_abs settings.now.digit }
    ensures greatest { result ≤ greatest_digit }
{
    settings.digit as u32
}

/// The case in this box.
pub(crate) fn case_drawn(
    alloc: Global,
    set: SetKind,
    space: Space,
    settings: &Settings,
) -> Result<Case, AllocError>
    requires ranged { bad_number (settings_view settings.now) ≡ None }
    requires set { settings.now.set ≡ Some set }
    requires even { ragged (unsigned_abs settings.now.layers) (drawing_of (settings_view settings.now)) ≡ None }
    requires space { space_drawn set (settings_view settings.now) ≡ Some space }
    ensures value { IfOk result (λ case. case ≡ case_drawn set space (settings_view settings.now)) }
    ensures densities { IfOk result (λ case. All IsFirstDensity case.densities) }
{
    let rates = rates_of(settings);
    let force = force_of(settings.force);
    let velocity = force_of(settings.wall);
    let density = density_of(settings);
    let digit = digit_of(settings);
    let count = space.cells() as usize;
    let densities = densities_of(alloc, count, density, digit, settings.rows)?;
    let cells = moving_in(alloc, settings.rows)?;
    let walls = MovingWalls { cells, velocity };
    let momentum = settings.momentum;
    Ok(Case::with_wall(set, space, densities, rates, force, momentum, walls))
}
