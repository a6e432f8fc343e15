// The lines that are told, made without memory.
ghost use Rattle.std.specs.Prelude.{◌≡◌, ◌+◌, ◌≤◌, ◌++◌, length};
ghost use Rattle.arrayvec.specs.ArrayString.{array_string_len};
ghost use Rattle.lbm_answer.specs.declared.report.Report.TheVariants as Report;
ghost use Rattle.lbm_answer.specs.Lines.{checkpoint_fault_of, file_word, line_of, report_line};

use crate::refusals::{case_line, voxel_line};
use crate::{CheckReport, End, File, Report, RunReport, TracerReport};
use arrayvec::ArrayString;
use itoa::{Buffer, Integer};
use lbm_ckpt::CkptFault;

/// A line of at most 128 bytes.
pub(crate) type Line = ArrayString<128>;

/// The line of a report.
pub(crate) fn report_line(report: &Report) -> Line
    ensures { result.bytes ≡ report_line report.now }
{
    match report {
        Report::Run(report) => run_line(report),
        Report::Check(report) => check_line(report),
        Report::Tracer(report) => tracer_line(report),
    }
}

fn run_line(report: &RunReport) -> Line
    ensures { result.bytes ≡ report_line (Report.Run report.now) }
{
    let mut line = Line::new();
    put_number(&mut line, "step ", report.step);
    put_number(&mut line, " mass ", report.mass);
    put_number(&mut line, " momentum ", report.momentum[0]);
    put_number(&mut line, " ", report.momentum[1]);
    put_number(&mut line, " ", report.momentum[2]);
    line.push_str("\n");
    line
}

fn check_line(report: &CheckReport) -> Line
    ensures { result.bytes ≡ report_line (Report.Check report.now) }
{
    let mut line = Line::new();
    put_number(&mut line, "D", report.dimension);
    put_number(&mut line, "Q", report.directions);
    put_number(&mut line, " ", report.sides[0]);
    put_number(&mut line, " ", report.sides[1]);
    put_number(&mut line, " ", report.sides[2]);
    put_number(&mut line, " fluid ", report.fluid);
    put_number(&mut line, " solid ", report.solid);
    put_number(&mut line, " mass ", report.mass);
    line.push_str("\n");
    line
}

fn tracer_line(report: &TracerReport) -> Line
    ensures { result.bytes ≡ report_line (Report.Tracer report.now) }
{
    let mut line = Line::new();
    put_number(&mut line, "step ", report.step);
    put_number(&mut line, " mass ", report.mass);
    put_number(&mut line, " tracer ", report.tracer);
    line.push_str("\n");
    line
}

/// The line of an answer that is no report.
pub(crate) fn line_of(end: &End) -> Line
    ensures { result.bytes ≡ line_of end.now }
{
    match end {
        End::Done | End::SinkFault => line_with(""),
        End::Usage => line_with("refused: usage\n"),
        End::Case(fault) => case_line(fault),
        End::TooLong(file) => line_of_three("refused: ", word_of(*file), " too long\n"),
        End::Voxel(fault) => voxel_line(*fault),
        End::Cut(k) => cut_line(*k),
        End::Spot(cell) => spot_line(*cell),
        End::Checkpoint(fault) => {
            line_of_three("refused: checkpoint ", checkpoint_word(*fault), "\n")
        }
        End::Past { at, to } => past_line(*at, *to),
        End::Range { step, cell } => range_line(*step, *cell),
        End::TracerRange { step, cell } => tracer_range_line(*step, *cell),
        End::StoreFault(file) => line_of_three("fault: ", word_of(*file), "\n"),
        End::Memory => line_with("out of memory\n"),
    }
}

// What a line calls a file.
fn word_of(file: File) -> &'static str
    ensures word { result.now ≡ file_word file }
    ensures short { length result.now ≤ 10 }
{
    match file {
        File::CaseFile => "case",
        File::Voxel => "voxel",
        File::Checkpoint => "checkpoint",
        File::Out => "out",
        File::Save => "save",
        File::Trace => "trace",
    }
}

// What the line of a refused checkpoint says.
fn checkpoint_word(fault: CkptFault) -> &'static str
    ensures word { result.now ≡ checkpoint_fault_of fault }
    ensures short { length result.now ≤ 10 }
{
    match fault {
        CkptFault::Short => "short",
        CkptFault::Magic => "magic",
        CkptFault::OtherCase => "other case",
        CkptFault::Size => "size",
        CkptFault::Step => "step",
        CkptFault::Digest => "digest",
        CkptFault::Wide => "wide",
    }
}

fn line_of_three(first: &str, second: &str, third: &str) -> Line
    requires { length first.now + length second.now + length third.now ≤ 128 }
    ensures { result.bytes ≡ first.now ++ second.now ++ third.now }
{
    let mut line = Line::new();
    line.push_str(first);
    line.push_str(second);
    line.push_str(third);
    line
}

fn cut_line(k: u32) -> Line
    ensures { result.bytes ≡ line_of (End.Cut k) }
{
    let mut line = Line::new();
    put_number(&mut line, "refused: cut ", k);
    line.push_str("\n");
    line
}

fn spot_line(cell: u32) -> Line
    ensures { result.bytes ≡ line_of (End.Spot cell) }
{
    let mut line = Line::new();
    put_number(&mut line, "refused: spot ", cell);
    line.push_str("\n");
    line
}

fn past_line(at: u64, to: u64) -> Line
    ensures { result.bytes ≡ line_of (End.Past at to) }
{
    let mut line = Line::new();
    put_number(&mut line, "refused: checkpoint step ", at);
    put_number(&mut line, " is past ", to);
    line.push_str("\n");
    line
}

fn range_line(step: u64, cell: u32) -> Line
    ensures { result.bytes ≡ line_of (End.Range step cell) }
{
    let mut line = Line::new();
    put_number(&mut line, "range: step ", step);
    put_number(&mut line, " cell ", cell);
    line.push_str("\n");
    line
}

fn tracer_range_line(step: u64, cell: u32) -> Line
    ensures { result.bytes ≡ line_of (End.TracerRange step cell) }
{
    let mut line = Line::new();
    put_number(&mut line, "range: tracer step ", step);
    put_number(&mut line, " cell ", cell);
    line.push_str("\n");
    line
}

fn line_with(text: &str) -> Line
    requires { length text.now ≤ 128 }
    ensures { result.bytes ≡ text.now }
{
    let mut line = Line::new();
    line.push_str(text);
    line
}

/// Puts a word and a number at the end of the line.
pub(crate) fn put_number<I: Integer>(line: &mut Line, word: &str, number: I)
    requires { array_string_len line.old + length word.now + I.MAX_STR_LEN ≤ 128 }
    ensures text { line.new.bytes ≡ line.old.bytes ++ word.now ++ I.text number }
    ensures len { array_string_len line.new ≤ array_string_len line.old + length word.now + I.MAX_STR_LEN }
{
    line.push_str(word);
    let mut buffer = Buffer::new();
    line.push_str(buffer.format(number));
}
