// The check of a case.
ghost use Rattle.std.specs.Prelude.{◌≡◌, ◌≤◌, IfOk};
ghost use Rattle.lbm_words.specs.Request.{check, check_view};
ghost use Rattle.lbm_space.specs.Torus.{cells};
ghost use Rattle.lbm_answer.specs.Answer.{DecidesFor, asked_of};
ghost use Rattle.lbm_answer.specs.Reports.{check_report, solid_below};
ghost use Rattle.lbm_answer.specs.declared.report.Report.TheVariants as Report;

use crate::beginning::first_of;
use crate::files::read_case_file;
use crate::sums::mass;
use crate::{CheckReport, End, Report};
use lbm_model::Case;
use lbm_space::Memory;
use lbm_store::Store;
use lbm_words::Check;
use std::alloc::Global;

/// What is to be told of a case file: its velocity set, its sides, its fluid and its solid cells, and the mass of its first
/// state; or why it is refused.
pub fn decide_check<T: Store>(
    alloc: Global,
    request: Check<'_>,
    store: &mut T,
) -> Result<Report, End>
    ensures { DecidesFor (asked_of (check (check_view request.entry))) (T.state store.old) (T.state store.new) result }
{
    let (_, case) = read_case_file(alloc, store, request.case)?;
    Ok(Report::Check(report_of(alloc, &case)?))
}

// What a check tells of a case.
fn report_of(alloc: Global, case: &Case) -> Result<CheckReport, Memory>
    ensures { IfOk result (λ report. Report.Check report ≡ check_report case.now) }
{
    let first = first_of(alloc, case)?;
    let solid = solid_cells(case);
    let space = case.space();
    Ok(CheckReport {
        dimension: space.dim() as u32,
        directions: case.set().directions(),
        sides: space.sides(),
        fluid: space.cells() - solid,
        solid,
        mass: mass(&first),
    })
}

// How many cells are solid.
fn solid_cells(case: &Case) -> u32
    ensures count { result ≡ solid_below case.now (cells case.now.torus) }
    ensures few { result ≤ cells case.now.torus }
{
    let mut count = 0;
    for cell in 0..case.space().cells() {
        if case.is_solid(cell) {
            count += 1;
        }
    }
    count
}
