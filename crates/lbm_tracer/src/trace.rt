//! The file of a tracer.

ghost use Rattle.std.specs.Prelude.{◌≡◌, length};
ghost use Rattle.lbm_space.specs.Torus.{cells};
ghost use Rattle.lbm_store.specs.Outside.{Writes};
ghost use Rattle.lbm_tracer.specs.Trace.{trace};

use lbm_space::Space;
use lbm_store::{IoEnd, Sink};
use lbm_vtk::{Heading, write_scalars};

/// Writes the amount of each cell at a step as a file in the legacy VTK format, in ASCII, whose table is named `tracer`.
/// `amounts` has one for each cell of the space, in the order of the cells' numbers.
///
/// After an error the sink has got a front of the file. It takes no memory of its own.
pub fn write_trace<K: Sink>(
    out: &mut K,
    space: &Space,
    step: u64,
    amounts: &[i64],
) -> Result<(), IoEnd>
    requires { length amounts.now ≡ cells space.now }
    ensures { Writes (K.state out.old) (K.state out.new) result (trace space.now step amounts.now) }
{
    let heading = Heading {
        title: b"lattice Boltzmann tracer step ",
        step,
        field: b"tracer",
    };
    write_scalars(out, space, &heading, amounts)
}
