// The adapter over one file of the system. It tells contracts its count of faults alone.
ghost use Rattle.std.specs.Prelude.{◌≡◌, ◌≤◌, length, IfOk};
ghost use Rattle.ws_model.specs.Cause.{HasCause};
ghost use Rattle.ws_disk.specs.Memory.{file_faults};

use crate::{Disk, DiskFailed};
use std::fs::{File, OpenOptions};
use std::io;
use std::os::unix::fs::FileExt;
use std::path::Path;

// A path, and its file once it is open.
#[derive(Drop)]
struct Opening {
    rt: HostRuntime,
    path: &'static str,
    file: Option<File>,
}

impl Opening {
    fn file(&mut self) -> io::Result<&File> {
        if self.file.is_none() {
            self.file = Some(open_or_make(&self.rt, self.path)?);
        }
        match &self.file {
            Some(file) => Ok(file),
            None => Err(io::ErrorKind::NotFound.into()),
        }
    }

    fn size(&mut self) -> io::Result<u64> {
        Ok(self.file()?.metadata()?.len())
    }

    fn read_at(&mut self, at: u64, into: &mut [u8]) -> io::Result<usize>
        ensures { IfOk result (λ n. n ≤ length into.old) }
    {
        read_full(self.file()?, at, into)
    }

    fn write_at(&mut self, at: u64, bytes: &[u8]) -> io::Result<()> {
        self.file()?.write_all_at(bytes, at)
    }

    fn cut(&mut self, size: u64) -> io::Result<()> {
        self.file()?.set_len(size)
    }

    fn sync(&mut self) -> io::Result<()> {
        self.file()?.sync_data()
    }
}

/// One file of the system, whose path stands in the folder that the program runs in, unless it is
/// absolute. It is opened at the first call, and made empty where it is missing.
///
/// That a real file keeps the crash model is trusted, and not proved: that it does what its calls are
/// asked, that `sync_data` confirms all that was written, and that nobody else writes it.
#[derive(Drop)]
pub struct FileDisk {
    opening: Opening,
    faults: u64,
}

impl FileDisk {
    /// The file at this path. It touches no file yet, and takes no memory.
    pub fn made(rt: HostRuntime, path: &'static str) -> FileDisk
        ensures { file_faults result ≡ 0 }
    {
        FileDisk {
            opening: Opening {
                rt,
                path,
                file: None,
            },
            faults: 0,
        }
    }

    /// How many calls failed.
    pub fn faults(&self) -> u64
        ensures { result ≡ file_faults self.now }
    {
        self.faults
    }
}

// Opens the file, and confirms its name in its folder, so that a file that was made outlives a crash.
fn open_or_make(rt: &HostRuntime, path: &str) -> io::Result<File> {
    let file = OpenOptions::new()
        .read(true)
        .write(true)
        .create(true)
        .open(rt, path)?;
    let folder = match Path::new(path).parent() {
        Some(folder) if !folder.as_str().is_empty() => folder,
        _ => Path::new("."),
    };
    File::open(rt, folder)?.sync_all()?;
    Ok(file)
}

// Reads until the slice is full or the file ends.
fn read_full(file: &File, at: u64, into: &mut [u8]) -> io::Result<usize>
    ensures { IfOk result (λ n. n ≤ length into.old) }
{
    let mut done = 0;
    'pieces: for _ in 0..u64::MAX {
        if done >= into.len() {
            return Ok(done);
        }
        match file.read_at(&mut into[done..], at.saturating_add(done as u64)) {
            Ok(0) => return Ok(done),
            Ok(count) => done += count,
            Err(error) if error.kind() == io::ErrorKind::Interrupted => {}
            Err(error) => return Err(error),
        }
    }
    Err(io::ErrorKind::Interrupted.into())
}

// Counts a failure as a fault.
fn counted<T>(faults: &mut u64, outcome: io::Result<T>) -> Result<T, DiskFailed>
    ensures cause { HasCause faults.old faults.new result }
    ensures value { IfOk result (λ x. outcome ≡ Ok x) }
{
    match outcome {
        Ok(value) => Ok(value),
        Err(_) => {
            *faults = faults.saturating_add(1);
            Err(DiskFailed)
        }
    }
}

impl Disk for FileDisk {
    ghost use Rattle.std.specs.Prelude.{[]};

    ghost seen = { λ _. [] };

    ghost faults = { file_faults };

    ghost moment = { λ _. 0 };

    ghost images = { λ _ _ _. ⊥ };

    ghost honest = { λ _. ⊥ };

    ghost seen_is_image = { λ _ no. no };

    ghost images_grow = { λ _ _ _ _ no. absurd no };

    fn size(&mut self) -> Result<u64, DiskFailed> {
        let outcome = self.opening.size();
        counted(&mut self.faults, outcome)
    }

    fn read_at(&mut self, at: u64, into: &mut [u8]) -> Result<usize, DiskFailed> {
        let outcome = self.opening.read_at(at, into);
        counted(&mut self.faults, outcome)
    }

    fn write_at(&mut self, at: u64, bytes: &[u8]) -> Result<(), DiskFailed> {
        let outcome = self.opening.write_at(at, bytes);
        counted(&mut self.faults, outcome)
    }

    fn cut(&mut self, size: u64) -> Result<(), DiskFailed> {
        let outcome = self.opening.cut(size);
        counted(&mut self.faults, outcome)
    }

    fn sync(&mut self) -> Result<(), DiskFailed> {
        let outcome = self.opening.sync();
        counted(&mut self.faults, outcome)
    }
}
