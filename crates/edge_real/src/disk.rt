//! A disk in a file.
ghost use Rattle.std.specs.Prelude.{◌≡◌, ◌<◌, None};
ghost use Rattle.edge.specs.Faults.{HasCause};

use edge::{BLOCKS, Disk, Failed};
use eu_base::Bytes;
use std::fs::{OpenFile, OpenOptions};
use std::io::{ErrorKind, Read, Seek, SeekFrom, Write};
use std::rt::Files;
use std::{io, str};

/// A disk in a file, of which it tells nothing. The file is opened and synced at the first call. A file that isn't there
/// reads as zeros, and is made by the first write; bytes past its end read as zeros. Every other failure of
/// the system counts as a fault, and so does a write that it cuts short.
#[derive(Drop)]
pub struct FileDisk<'a, R: Files> {
    rt: &'a R,
    path: Bytes,
    file: Option<R::File>,
    faults: u64,
}

impl<'a, R: Files> FileDisk<'a, R> {
    /// The disk in the file of that path. It has not failed yet.
    pub fn new(rt: &'a R, path: Bytes) -> FileDisk<'a, R>
        ensures { result.faults ≡ 0 }
    {
        FileDisk {
            rt,
            path,
            file: None,
            faults: 0,
        }
    }

    // Opens the file where that has not been done, and makes it where asked. What an earlier program left
    // unsynced in it is synced, so that what is read now stays.
    fn open(&mut self, makes: bool) -> io::Result<()>
        ensures { self.new.faults ≡ self.old.faults }
    {
        if self.file.is_some() {
            return Ok(());
        }
        let Ok(path) = str::from_utf8(self.path.as_slice()) else {
            return Err(ErrorKind::InvalidInput.into());
        };
        let opened = OpenOptions::new()
            .read(true)
            .write(true)
            .create(makes)
            .open(self.rt, path);
        match opened {
            Ok(file) => {
                file.sync_all()?;
                self.file = Some(file);
                Ok(())
            }
            Err(error) if error.kind() == ErrorKind::NotFound && !makes => Ok(()),
            Err(error) => Err(error),
        }
    }

    fn read_block(&mut self, at: u32, into: &mut [u8; 512]) -> io::Result<()>
        requires { at < BLOCKS }
        ensures { self.new.faults ≡ self.old.faults }
    {
        self.open(false)?;
        *into = [0; 512];
        match &mut self.file {
            Some(file) => {
                file.seek(SeekFrom::Start(512 * u64::from(at)))?;
                fill(file, into)
            }
            None => Ok(()),
        }
    }

    fn write_block(&mut self, at: u32, from: &[u8; 512]) -> io::Result<()>
        requires { at < BLOCKS }
        ensures { self.new.faults ≡ self.old.faults }
    {
        self.open(true)?;
        match &mut self.file {
            Some(file) => {
                file.seek(SeekFrom::Start(512 * u64::from(at)))?;
                if file.write(from)? == 512 {
                    Ok(())
                } else {
                    Err(ErrorKind::WriteZero.into())
                }
            }
            None => Err(ErrorKind::NotFound.into()),
        }
    }

    fn sync_file(&mut self) -> io::Result<()>
        ensures { self.new.faults ≡ self.old.faults }
    {
        self.open(false)?;
        match &self.file {
            Some(file) => file.sync_all(),
            None => Ok(()),
        }
    }

    // The answer of a call, with each failure counted.
    fn counted(&mut self, done: io::Result<()>) -> Result<(), Failed>
        ensures cause { HasCause self.old.faults self.new.faults result }
    {
        match done {
            Ok(()) => Ok(()),
            Err(_) => {
                self.faults = self.faults.saturating_add(1);
                Err(Failed)
            }
        }
    }
}

// Reads up to the end of the block or of the file, in as many pieces as the system gives.
fn fill<F: Read>(file: &mut F, into: &mut [u8; 512]) -> io::Result<()> {
    let mut filled = 0;
    'filled: while filled < 512 {
        let count = file.read(&mut into[filled..])?;
        if count == 0 {
            return Ok(());
        }
        filled += count;
    }
    Ok(())
}

impl<R: Files> Disk for FileDisk<'_, R> {
    ghost use Rattle.std.specs.Prelude.{Option};

    ghost state = { λ _. None };

    ghost faults = { λ disk. disk.faults };

    ghost moment = { λ _. 0 };

    ghost left_since = { λ _ _ _. Unit };

    ghost counts_now = { λ _ _ _ _ _. tt };

    ghost only_now = { λ _ _ _. tt };

    fn read(&mut self, at: u32, into: &mut [u8; 512]) -> Result<(), Failed> {
        let done = self.read_block(at, into);
        self.counted(done)
    }

    fn write(&mut self, at: u32, from: &[u8; 512]) -> Result<(), Failed> {
        let done = self.write_block(at, from);
        self.counted(done)
    }

    fn sync(&mut self) -> Result<(), Failed> {
        let done = self.sync_file();
        self.counted(done)
    }
}
