//! The bytes that a line of the table adds to a file.

use crate::choice::parts;
use crate::stop::Stop;
use lbm_flow::gen_case;
use std::alloc::Global;

/// A number, and what stands behind it and a space.
pub fn number_and_rest(text: &str) -> Result<(usize, &str), Stop> {
    let (number, rest) = text.split_once(' ').ok_or(Stop::Unread)?;
    Ok((number_of(number)?, rest))
}

/// A number.
pub fn number_of(text: &str) -> Result<usize, Stop> {
    text.parse::<usize>().ok().ok_or(Stop::Unread)
}

/// The bytes that a line adds.
pub fn added(alloc: Global, word: &str, rest: &str) -> Result<Vec<u8>, Stop> {
    match word {
        "|" => repeated(alloc, 1, rest, b"\n"),
        "lines" => {
            let (count, text) = number_and_rest(rest)?;
            repeated(alloc, count, text, b"\n")
        }
        "fill" => {
            let (count, text) = number_and_rest(rest)?;
            repeated(alloc, count, text, b"")
        }
        "rows" => rows(alloc, rest),
        "hex" => from_hex(alloc, rest),
        "generated" => generated(alloc, rest),
        _ => Err(Stop::Unread),
    }
}

// A text and what ends it, so many times.
fn repeated(alloc: Global, count: usize, text: &str, end: &[u8]) -> Result<Vec<u8>, Stop> {
    let mut all = Vec::new(alloc);
    for _ in 0..count {
        all.extend_from_slice(text.as_bytes())?;
        all.extend_from_slice(end)?;
    }
    Ok(all)
}

// So many rows of a map, each with so many times the text, in quotes and with a comma.
fn rows(alloc: Global, rest: &str) -> Result<Vec<u8>, Stop> {
    let (count, row) = number_and_rest(rest)?;
    let (width, text) = number_and_rest(row)?;
    let mut row = String::new(alloc);
    row.push('"')?;
    for _ in 0..width {
        row.push_str(text)?;
    }
    row.push_str("\",")?;
    repeated(alloc, count, &row, b"\n")
}

/// The bytes of words in hexadecimal.
pub fn from_hex(alloc: Global, words: &str) -> Result<Vec<u8>, Stop> {
    let mut all = Vec::new(alloc);
    for word in parts(alloc, words, " ")?.iter() {
        let part = hex::decode(alloc, word).ok().ok_or(Stop::Unread)?;
        all.extend_from_slice(&part)?;
    }
    Ok(all)
}

// The text of the generated case of this number.
fn generated(alloc: Global, text: &str) -> Result<Vec<u8>, Stop> {
    let n = text.parse::<u32>().ok().ok_or(Stop::Unread)?;
    if n == 0 || n > 128 {
        return Err(Stop::Unread);
    }
    Ok(gen_case(alloc, n)?)
}
