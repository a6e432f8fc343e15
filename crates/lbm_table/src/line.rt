//! The lines of a trial.

use crate::bytes::{added, from_hex, number_and_rest, number_of};
use crate::setting::Setting;
use crate::stop::Stop;
use std::fs;
use std::marker::Sync;
use std::rt::Files;
use std::thread::Threads;

/// Does what a line says, or compares what it says with what was found.
pub fn obey<R: Files + Threads + Sync + AllocGlobal>(
    rt: &R,
    setting: &mut Setting,
    line: &str,
) -> Result<(), Stop> {
    let (word, rest) = line.split_once(' ').unwrap_or((line, ""));
    match word {
        "do" => setting.ask(rt, rest),
        "same" => same(setting, rest),
        "absent" => hold(setting.store.bytes(rest).is_none()),
        "file" => setting.begin(rest, b""),
        "given" => given(rt, setting, rest),
        "copy" => copy(setting, rest),
        "cut" => cut(setting, rest),
        "put" => put(setting, rest),
        "store-fails" => setting.fail_store(number_of(rest)?),
        "sink-fails" => {
            setting.fail_sink(number_of(rest)?);
            Ok(())
        }
        "heap" => {
            setting.limit_heap(number_of(rest)?);
            Ok(())
        }
        _ => {
            let more = added(setting.alloc, word, rest)?;
            setting.add(&more)
        }
    }
}

/// Holds where the condition does.
pub fn hold(condition: bool) -> Result<(), Stop> {
    if condition {
        Ok(())
    } else {
        Err(Stop::Differs)
    }
}

// `same FILE FILE`: both are there, and have the same bytes.
fn same(setting: &Setting, rest: &str) -> Result<(), Stop> {
    let (one, other) = rest.split_once(' ').ok_or(Stop::Unread)?;
    let one = setting.store.bytes(one);
    hold(one.is_some() && one == setting.store.bytes(other))
}

// `given FILE` makes a file of what the file of this name in the program's folder holds, and lines are added to it from here on.
fn given<R: Files + AllocGlobal>(rt: &R, setting: &mut Setting, name: &str) -> Result<(), Stop> {
    let bytes = fs::read(rt, name).ok().ok_or(Stop::Unread)?;
    setting.begin(name, &bytes)
}

// `copy FROM TO` makes a file hold the bytes of another, and lines are added to it from here on.
fn copy(setting: &mut Setting, rest: &str) -> Result<(), Stop> {
    let (from, to) = rest.split_once(' ').ok_or(Stop::Unread)?;
    let bytes = setting.copied(from)?;
    setting.begin(to, &bytes)
}

// `cut FILE COUNT` keeps the first bytes of a file.
fn cut(setting: &mut Setting, rest: &str) -> Result<(), Stop> {
    let (name, count) = rest.split_once(' ').ok_or(Stop::Unread)?;
    let whole = setting.copied(name)?;
    let front = whole.get(..number_of(count)?).ok_or(Stop::Unread)?;
    setting.begin(name, front)
}

// `put FILE PLACE DIGITS ..` writes bytes over those of a file from a place on.
fn put(setting: &mut Setting, rest: &str) -> Result<(), Stop> {
    let (name, rest) = rest.split_once(' ').ok_or(Stop::Unread)?;
    let (place, digits) = number_and_rest(rest)?;
    let new = from_hex(setting.alloc, digits)?;
    let old = setting.copied(name)?;
    let (front, rest) = old.split_at_checked(place).ok_or(Stop::Unread)?;
    let back = rest.get(new.len()..).ok_or(Stop::Unread)?;
    setting.begin(name, front)?;
    setting.add(&new)?;
    setting.add(back)
}
