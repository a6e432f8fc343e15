// The telling of an answer.
ghost use Rattle.std.specs.Prelude.{◌≡◌};
ghost use Rattle.lbm_answer.specs.declared.answer.End.TheVariants as ends;
ghost use Rattle.lbm_answer.specs.Lines.{line_of, report_line};
ghost use Rattle.lbm_answer.specs.Answer.{Tells, TellsLine, TellsMemory};

use crate::lines::{line_of, report_line};
use crate::{End, Report};
use lbm_store::{IoEnd, Sink};

/// Tells the sink what was decided, and gives the answer. A line is one write. Where that wants memory the answer is
/// `Memory`, and its own line is tried once behind it.
pub fn tell<K: Sink>(out: &mut K, decision: Result<Report, End>) -> End
    ensures told { Tells (K.state out.old) (K.state out.new) decision result }
    ensures rest { (K.state out.new).rest ≡ (K.state out.old).rest }
{
    match decision {
        Ok(report) => tell_report(out, &report),
        Err(End::Memory) => tell_memory(out),
        Err(end) => tell_answer(out, end),
    }
}

fn tell_report<K: Sink>(out: &mut K, report: &Report) -> End
    ensures told { TellsLine (K.state out.old) (K.state out.new) (report_line report.now) ends.Done ends.SinkFault result }
    ensures rest { (K.state out.new).rest ≡ (K.state out.old).rest }
{
    match out.write(report_line(report).as_str().as_bytes()) {
        Ok(()) => End::Done,
        Err(IoEnd::Failed) => End::SinkFault,
        Err(IoEnd::Memory) => tell_memory(out),
    }
}

fn tell_answer<K: Sink>(out: &mut K, end: End) -> End
    ensures told { TellsLine (K.state out.old) (K.state out.new) (line_of end) end end result }
    ensures rest { (K.state out.new).rest ≡ (K.state out.old).rest }
{
    match out.write(line_of(&end).as_str().as_bytes()) {
        Ok(()) => end,
        Err(IoEnd::Failed) => end,
        Err(IoEnd::Memory) => tell_memory(out),
    }
}

fn tell_memory<K: Sink>(out: &mut K) -> End
    ensures told { TellsMemory (K.state out.old) (K.state out.new) result }
    ensures rest { (K.state out.new).rest ≡ (K.state out.old).rest }
{
    let _ = out.write(line_of(&End::Memory).as_str().as_bytes());
    End::Memory
}
