// The exit status of an answer.
ghost use Rattle.std.specs.Prelude.{◌≡◌};
ghost use Rattle.std.specs.Process.{exit_status};
ghost use Rattle.lbm_answer.specs.Lines.{status_of};

use lbm_answer::End;
use std::process::ExitCode;

/// The status with which a program ends that has answered this.
pub fn status_of(end: &End) -> ExitCode
    ensures { exit_status result ≡ status_of end.now }
{
    ExitCode::from(end.status())
}
