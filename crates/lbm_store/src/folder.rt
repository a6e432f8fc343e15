//! The files of the current folder.
ghost use Rattle.std.specs.Prelude.{◌≡◌, ◌≤◌, None, IfOk, length};
ghost use Rattle.lbm_store.specs.Outside.{no_faults, untold_store};
ghost use Rattle.lbm_store.specs.Maps.{counts_of};

use crate::counts::FaultCounts;
use crate::{IoEnd, Store};
use std::alloc::Global;
use std::fs::OpenOptions;
use std::io::{Read, Seek, SeekFrom, Write};
use std::rt::Files;
use std::{fs, io};

/// The files of the current folder. It tells no bytes.
///
/// Each call opens its file, so nothing is kept between two calls but the counts.
#[derive(Drop)]
pub struct FolderStore<'a, R: Files> {
    rt: &'a R,
    read_faults: FaultCounts,
    write_faults: FaultCounts,
}

impl<'a, R: Files> FolderStore<'a, R> {
    /// The current folder, with no failure counted.
    pub fn new(rt: &'a R, alloc: Global) -> FolderStore<'a, R>
        ensures { ⟦<FolderStore<'a, R> as Store>⟧.state result ≡ untold_store no_faults no_faults }
    {
        FolderStore {
            rt,
            read_faults: FaultCounts::new(alloc),
            write_faults: FaultCounts::new(alloc),
        }
    }
}

impl<'a, R: Files> Store for FolderStore<'a, R> {
    ghost state = { λ s. untold_store (counts_of s.read_faults) (counts_of s.write_faults) };

    fn read(&mut self, name: &str, at: u64, buf: &mut [u8]) -> Result<usize, IoEnd> {
        self.read_faults.make_room(name)?;
        let came_to = read_at(self.rt, name, at, buf);
        self.read_faults.counted(name, came_to)
    }

    fn create(&mut self, name: &str) -> Result<(), IoEnd> {
        self.write_faults.make_room(name)?;
        let came_to = empty(self.rt, name);
        self.write_faults.counted(name, came_to)
    }

    fn append(&mut self, name: &str, bytes: &[u8]) -> Result<(), IoEnd> {
        self.write_faults.make_room(name)?;
        let came_to = append_to(self.rt, name, bytes);
        self.write_faults.counted(name, came_to)
    }
}

fn read_at<R: Files>(rt: &R, name: &str, at: u64, buf: &mut [u8]) -> io::Result<usize>
    ensures { IfOk result (λ n. n ≤ length buf.old) }
{
    let mut file = fs::open(rt, name)?;
    file.seek(SeekFrom::Start(at))?;
    file.read(buf)
}

fn empty<R: Files>(rt: &R, name: &str) -> io::Result<()> {
    let _ = fs::create(rt, name)?;
    Ok(())
}

fn append_to<R: Files>(rt: &R, name: &str, bytes: &[u8]) -> io::Result<()> {
    let mut file = OpenOptions::new().append(true).create(true).open(rt, name)?;
    file.write_all(bytes)
}
