//! The choices that a trial is run for.

use std::alloc::{AllocError, Global};

/// Names, and rows of texts that stand for them, each row in a run of its own.
#[derive(Drop)]
pub struct Choice {
    names: Vec<String>,
    rows: Vec<Vec<String>>,
}

impl Choice {
    /// The choice of a line `for NAME in TEXT TEXT ..`, or `for NAME / NAME ..` whose rows follow.
    pub fn new(alloc: Global, header: &str) -> Result<Choice, AllocError> {
        let (names, texts) = match header.split_once(" in ") {
            Some((name, texts)) => (name, parts(alloc, texts, " ")?),
            None => (header, Vec::new(alloc)),
        };
        let mut choice = Choice {
            names: parts(alloc, names, " / ")?,
            rows: Vec::new(alloc),
        };
        for text in texts.iter() {
            choice.add_row(alloc, text)?;
        }
        Ok(choice)
    }

    /// One row more, as `TEXT / TEXT ..`.
    pub fn add_row(&mut self, alloc: Global, row: &str) -> Result<(), AllocError> {
        self.rows.push(parts(alloc, row, " / ")?)?;
        Ok(())
    }

    /// How many runs the choice asks for.
    pub fn runs(&self) -> usize {
        self.rows.len()
    }

    /// A line with the texts of one row in place of the names.
    pub fn put_in(&self, alloc: Global, row: usize, line: String) -> Result<String, AllocError> {
        let mut line = line;
        if let Some(texts) = self.rows.get(row) {
            for (name, text) in self.names.iter().zip(texts.iter()) {
                line = line.replace(alloc, name.as_str(), text)?;
            }
        }
        Ok(line)
    }
}

/// The parts of a text between these separators.
pub fn parts(alloc: Global, text: &str, separator: &str) -> Result<Vec<String>, AllocError> {
    let mut parts = Vec::new(alloc);
    for part in text.split(separator) {
        parts.push(String::from_str(alloc, part)?)?;
    }
    Ok(parts)
}
