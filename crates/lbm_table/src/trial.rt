//! A trial of the table.

use crate::choice::Choice;
use crate::line::obey;
use crate::setting::Setting;
use crate::stop::Stop;
use std::alloc::{AllocError, Global};
use std::io;
use std::marker::Sync;
use std::rt::Files;
use std::thread::Threads;

/// A name, the choices that the trial is run for, and its lines.
#[derive(Drop)]
pub struct Trial {
    name: String,
    choices: Vec<Choice>,
    lines: Vec<String>,
}

impl Trial {
    /// A trial without lines.
    pub fn new(alloc: Global, name: &str) -> Result<Trial, AllocError> {
        Ok(Trial {
            name: String::from_str(alloc, name)?,
            choices: Vec::new(alloc),
            lines: Vec::new(alloc),
        })
    }

    /// One line more. A line with nothing on it, or one that begins with `#`, says nothing.
    pub fn add(&mut self, alloc: Global, line: String) -> Result<(), AllocError> {
        if line.is_empty() || line.starts_with('#') {
            return Ok(());
        }
        if let Some(header) = line.strip_prefix("for ") {
            self.choices.push(Choice::new(alloc, header)?)?;
            return Ok(());
        }
        match (line.strip_prefix("- "), self.choices.last_mut()) {
            (Some(row), Some(choice)) => choice.add_row(alloc, row)?,
            _ => self.lines.push(line)?,
        }
        Ok(())
    }

    /// Whether each line holds, in the runs of all choices. It prints the line of the trial.
    pub fn holds<R: Files + Print + Threads + Sync + AllocGlobal>(
        &self,
        rt: &R,
    ) -> io::Result<bool> {
        let mut runs = 1usize;
        for choice in self.choices.iter() {
            runs = runs.saturating_mul(choice.runs().max(1));
        }
        for run in 0..runs {
            if !self.holds_in(rt, run)? {
                return Ok(false);
            }
        }
        let name = &self.name;
        println!(rt; "ok {name}")?;
        Ok(true)
    }

    // The same in one run, where only a line that does not hold is printed.
    fn holds_in<R: Files + Print + Threads + Sync + AllocGlobal>(
        &self,
        rt: &R,
        run: usize,
    ) -> io::Result<bool> {
        let alloc = rt.alloc();
        let name = &self.name;
        let mut setting = Setting::new(alloc);
        for line in self.lines.iter() {
            let line = self.line_in(alloc, line, run)?;
            match obey(rt, &mut setting, &line) {
                Ok(()) => {}
                Err(Stop::Differs) => {
                    print!(rt; "differs {name}: {line}")?;
                    print_answer(rt, &setting)?;
                    return Ok(false);
                }
                Err(Stop::Unread) => {
                    println!(rt; "no meaning {name}: {line}")?;
                    return Ok(false);
                }
                Err(Stop::Memory) => return Err(AllocError.into()),
            }
        }
        Ok(true)
    }

    // A line with the texts of one run in place of the names.
    fn line_in(&self, alloc: Global, line: &str, run: usize) -> Result<String, AllocError> {
        let mut line = String::from_str(alloc, line)?;
        let mut run = run;
        for choice in self.choices.iter() {
            let runs = choice.runs().max(1);
            line = choice.put_in(alloc, run % runs, line)?;
            run /= runs;
        }
        Ok(line)
    }
}

// Ends a line with the last answer, if there was one: its status and what it told.
fn print_answer<R: Print>(rt: &R, setting: &Setting) -> io::Result<()> {
    let Some(status) = setting.status else {
        return println!(rt);
    };
    let told = str::from_utf8(setting.told()).unwrap_or("no text");
    println!(rt; ", answered {status} {told:?}")
}
