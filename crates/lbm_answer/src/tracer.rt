// What a run with a tracer does beside the run itself.
ghost use Rattle.std.specs.Prelude.{◌≡◌};
ghost use Rattle.lbm_store.specs.Sinks.{WritesFile};
ghost use Rattle.lbm_tracer.specs.Trace.{trace};
ghost use Rattle.lbm_answer.specs.declared.answer.File.TheVariants as File;
ghost use Rattle.lbm_answer.specs.declared.report.Report.TheVariants as Report;
ghost use Rattle.lbm_answer.specs.Jobs.{SavesFile};
ghost use Rattle.lbm_answer.specs.Tracers.{IsTraced, Places, SavesTraced, trace_end, traced_files_of, traced_report};

use crate::save::save_moments;
use crate::{End, File, Left, TracerReport};
use lbm_model::Case;
use lbm_store::{IoEnd, Named, Store};
use lbm_tracer::{TraceEnd, write_trace};
use lbm_vtk::Format;

/// What the last states of a flow and of its tracer leave to be written and reported.
#[derive(Drop)]
pub struct Traced {
    /// What that of the flow leaves.
    pub flow: Left,
    /// The amount of the tracer in each cell in order; a solid cell's is 0.
    pub amounts: Vec<i64>,
    /// The sum of all amounts of the tracer, walls included.
    pub total: i64,
}

impl From<TraceEnd> for End {
    ghost from_gives = { λ why e. e ≡ trace_end why };

    fn from(why: TraceEnd) -> Self {
        match why {
            TraceEnd::Range { step, cell } => End::Range { step, cell },
            TraceEnd::TracerRange { step, cell } => End::TracerRange { step, cell },
            TraceEnd::Memory => End::Memory,
        }
    }
}

/// Whether a tracer may begin in a cell: `Spot` where it is no cell, or a solid one.
pub fn place_tracer(case: &Case, cell: u32) -> Result<(), End>
    ensures { Places case.now cell result }
{
    if cell < case.space().cells() && !case.is_solid(cell) {
        Ok(())
    } else {
        Err(End::Spot(cell))
    }
}

impl Traced {
    /// What is told of the run.
    pub fn report(&self) -> TracerReport
        ensures { Report.Tracer result ≡ traced_report self.now }
    {
        TracerReport {
            step: self.flow.report.step,
            mass: self.flow.report.mass,
            tracer: self.total,
        }
    }
}

/// Writes the densities and momenta of the flow, and the amounts of the tracer behind them. After an error the files before
/// the one that it names are whole, and that one holds its old bytes or a front of its new ones.
pub fn save_traced<T: Store>(
    store: &mut T,
    out: &str,
    format: Format,
    trace: &str,
    left: &Traced,
) -> Result<(), End>
    requires { IsTraced left.now }
    ensures saved { SavesTraced (traced_files_of out.now format trace.now left.now) (T.state store.old) (T.state store.new) result }
    ensures read_faults { (T.state store.new).read_faults ≡ (T.state store.old).read_faults }
{
    save_moments(store, out, &left.flow, format)?;
    save_amounts(store, trace, left)
}

// The file of amounts.
fn save_amounts<T: Store>(store: &mut T, name: &str, left: &Traced) -> Result<(), End>
    requires { IsTraced left.now }
    ensures saved { SavesFile File.Trace (record { name = name.now; bytes = trace left.now.flow.space left.now.flow.report.step left.now.amounts.items }) (T.state store.old) (T.state store.new) result }
    ensures read_faults { (T.state store.new).read_faults ≡ (T.state store.old).read_faults }
{
    match write_amounts(store, name, left) {
        Ok(()) => Ok(()),
        Err(IoEnd::Failed) => Err(End::StoreFault(File::Trace)),
        Err(IoEnd::Memory) => Err(End::Memory),
    }
}

fn write_amounts<T: Store>(store: &mut T, name: &str, left: &Traced) -> Result<(), IoEnd>
    requires { IsTraced left.now }
    ensures { WritesFile (T.state store.old) (T.state store.new) result name.now (trace left.now.flow.space left.now.flow.report.step left.now.amounts.items) }
{
    store.create(name)?;
    let mut file = Named::new(store, name);
    write_trace(
        &mut file,
        &left.flow.space,
        left.flow.report.step,
        &left.amounts,
    )
}
