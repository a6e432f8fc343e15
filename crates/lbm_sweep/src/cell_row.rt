//! Rows of cells, and where their populations stand.

ghost use Rattle.std.specs.Prelude.{◌≡◌, ◌+◌, ◌*◌, ◌%◌, ◌<◌, ◌≤◌, ℕ, slice_index};
ghost use Rattle.lbm_space.specs.Torus.{cells, padded, rows};
ghost use Rattle.lbm_model.specs.Layout.{array_of, place_of};
ghost use Rattle.lbm_sweep.specs.CellRows.{cell_at, IsRow};

use lbm_cell::MAX_Q;
use lbm_model::{Case, Layout};
use lbm_space::VelocitySet;

/// A row of cells. Along it the places of population i follow each other round: the cell at x has its own
/// `(x + aheads[i]) % width` places behind `firsts[i]`.
#[derive(Drop)]
pub(crate) struct CellRow<'a> {
    pub(crate) case: &'a Case,
    pub(crate) layout: Layout,
    pub(crate) number: u32,
    pub(crate) width: u32,
    firsts: [u32; MAX_Q],
    aheads: [u32; MAX_Q],
}

impl<'a> CellRow<'a> {
    /// A row by its number.
    pub(crate) fn of<V: VelocitySet>(case: &'a Case, layout: Layout, number: u32) -> CellRow<'a>
        requires set { case.now.stencil ≡ V.stencil }
        requires base { layout.base ≤ layout.margin }
        requires margin { layout.margin ≤ padded case.now.torus }
        requires known { number < rows case.now.torus }
        ensures row { IsRow V.stencil result }
        ensures case { result.case.now ≡ case.now }
        ensures layout { result.layout ≡ layout }
        ensures number { result.number ≡ number }
    {
        let (mut firsts, mut aheads) = ([0; MAX_Q], [0; MAX_Q]);
        for i in 0..V::Q {
            let (first, ahead) = layout.row::<V>(case, number, i as u32);
            firsts[i] = first;
            aheads[i] = ahead;
        }
        CellRow {
            case,
            layout,
            number,
            width: case.space().sides()[0],
            firsts,
            aheads,
        }
    }

    /// The number of the cell at x.
    pub(crate) fn cell<V: VelocitySet>(&self, x: u32) -> u32
        requires row { IsRow V.stencil self.now }
        requires x { x < self.now.width }
        ensures cell { result ≡ cell_at self.now x }
        ensures known { result < cells self.now.case.now.torus }
    {
        self.number * self.width + x
    }

    /// The array in which population `dir` of the cell at x stands, and its slot there.
    #[inline(always)]
    pub(crate) fn slot<V: VelocitySet>(&self, x: u32, dir: usize) -> (u32, u32)
        requires row { IsRow V.stencil self.now }
        requires x { x < self.now.width }
        requires direction { dir < V.stencil.directions }
        ensures array { result.0 ≡ array_of V.stencil self.now.layout dir }
        ensures place { result.1 ≡ place_of self.now.case.now self.now.layout (cell_at self.now x) dir }
        ensures known { result.0 < V.stencil.directions }
        ensures inside { result.1 < self.now.layout.margin + padded self.now.case.now.torus }
    {
        let _ = self.case.space(); // Its type keeps the sides in range.
        let ahead = self.aheads[dir];
        let place = self.firsts[dir] + round(x, ahead, self.width);
        (self.layout.array::<V>(dir as u32), place)
    }
}

// The place that lies `ahead` places behind place x, where the last of `width` places is followed by the first.
#[inline(always)]
fn round(x: u32, ahead: u32, width: u32) -> u32
    requires x { x < width }
    requires ahead { ahead < width }
    requires few { width ≤ 4096 }
    ensures value { result ≡ (x + ahead) % width }
    ensures known { result < width }
{
    let place = x + ahead;
    if place < width { place } else { place - width }
}
