//! Where the populations of a lattice stand in its arrays.

ghost use Rattle.std.specs.Prelude.{◌≡◌, ◌+◌, ◌<◌, ◌≤◌};
ghost use Rattle.lbm_space.specs.Torus.{cells, padded, rows};
ghost use Rattle.lbm_model.specs.Case.{FlowCase};
ghost use Rattle.lbm_model.specs.Layout.{array_of, place_of, stands_at, IsRound};

use crate::case::Case;
use lbm_space::VelocitySet;

/// A rule by which a pattern keeps the populations in arrays, one for each direction, of `margin` slots more than the
/// space has padded places.
#[derive(Clone, Copy, Debug, PartialEq, Eq)]
pub struct Layout {
    /// How many slots an array has beside the padded places.
    pub margin: u32,
    /// The slot of padded place 0.
    pub base: u32,
    /// Whether a population stands in the array of the opposite direction.
    pub turned: bool,
    /// Whether it stands at the cell behind its own, from which it comes.
    pub behind: bool,
}

impl Layout {
    /// The array in which population `dir` of each cell stands.
    pub fn array<V: VelocitySet>(self, dir: u32) -> u32
        requires { dir < V.stencil.directions }
        ensures array { result ≡ array_of V.stencil self dir }
        ensures known { result < V.stencil.directions }
    {
        if self.turned {
            V::opp(dir as usize) as u32
        } else {
            dir
        }
    }

    // The cell at whose place population `dir` of the cell stands.
    fn stands_at<V: VelocitySet>(self, case: &Case, cell: u32, dir: u32) -> u32
        requires set { case.now.stencil ≡ V.stencil }
        requires cell { cell < cells case.now.torus }
        requires direction { dir < V.stencil.directions }
        ensures cell { result ≡ stands_at case.now self cell dir }
        ensures known { result < cells case.now.torus }
    {
        let space = case.space();
        if self.behind {
            space.back::<V>(cell, dir as usize)
        } else {
            cell
        }
    }

    /// The array in which population `dir` of the cell stands, and its slot there.
    pub fn slot<V: VelocitySet>(self, case: &Case, cell: u32, dir: u32) -> (u32, u32)
        requires set { case.now.stencil ≡ V.stencil }
        requires base { self.base ≤ self.margin }
        requires margin { self.margin ≤ padded case.now.torus }
        requires cell { cell < cells case.now.torus }
        requires direction { dir < V.stencil.directions }
        ensures array { result.0 ≡ array_of V.stencil self dir }
        ensures place { result.1 ≡ place_of case.now self cell dir }
        ensures known { result.0 < V.stencil.directions }
        ensures inside { result.1 < self.margin + padded case.now.torus }
    {
        let at = self.stands_at::<V>(case, cell, dir);
        let place = case.space().padded_index(at);
        (self.array::<V>(dir), self.base + place)
    }

    /// The slots of population `dir` along a row, in its array. They follow each other, and the last of them is followed by the
    /// first: that is the first part of the answer, and the second is how many slots farther the row's first cell has its own.
    pub fn row<V: VelocitySet>(self, case: &Case, row: u32, dir: u32) -> (u32, u32)
        requires set { case.now.stencil ≡ V.stencil }
        requires base { self.base ≤ self.margin }
        requires margin { self.margin ≤ padded case.now.torus }
        requires row { row < rows case.now.torus }
        requires direction { dir < V.stencil.directions }
        ensures { IsRound case.now self row dir result }
    {
        let space = case.space();
        let width = space.sides()[0];
        let at = self.stands_at::<V>(case, row * width, dir);
        (self.base + space.row_start(at / width) + 1, at % width)
    }
}
