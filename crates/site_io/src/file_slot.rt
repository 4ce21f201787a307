//! A slot of a site that is a file.

ghost use Rattle.std.specs.Prelude.{◌+◌, ◌^◌, ◌≤◌, length, IfOk, OnOk};

use std::fs::{File, Files, OpenFile, OpenOptions};
use std::io;
use std::io::{ErrorKind, Read, Seek, SeekFrom, Write};
use std::os::fd::AsRawFd;
use std::os::unix::fs::{MetadataExt, OpenOptionsExt};

const LONGEST: u64 = 1 << 63;

// Its owner alone may read and write it, since a store holds digests of passwords.
const MODE: u32 = 0o600;

// The numbers of the standard streams are those below this one.
const FIRST_FREE: i32 = 3;

/// An open file that can be kept from other processes.
pub trait Hold {
    /// Takes the file for this process alone, until it is closed.
    ///
    /// # Errors
    ///
    /// Where another one has it, the system can't tell, or the file is a standard stream of this process.
    fn hold(&self) -> io::Result<()>;

    /// Takes the file together with all others that share it, until it is closed.
    ///
    /// # Errors
    ///
    /// Where another one has it alone, the system can't tell, or the file is a standard stream of this process.
    fn share(&self) -> io::Result<()>;
}

// By advisory locks, which the system drops where the process ends.
impl Hold for File {
    fn hold(&self) -> io::Result<()> {
        stand_apart(self)?;
        Ok(self.try_lock()?)
    }

    fn share(&self) -> io::Result<()> {
        stand_apart(self)?;
        Ok(self.try_lock_shared()?)
    }
}

// Fails where the file got the number of a standard stream that was closed: whatever is written there would go into
// it.
fn stand_apart(file: &File) -> io::Result<()> {
    if file.as_raw_fd() < FIRST_FREE {
        return Err(io::Error::other("a standard stream is closed"));
    }
    Ok(())
}

// What a slot may do to its file.
#[derive(Clone, Copy, PartialEq, Eq)]
pub(crate) enum Access {
    Whole,
    Looking,
}

// What is known of a slot's file. One that was found missing is only made new.
#[derive(Drop)]
enum Known<F: Drop> {
    Unseen,
    Missing,
    Open(F),
}

// The file is opened once, at the first call that finds it or the first write that makes it, and is then kept open
// and locked.
#[derive(Drop)]
pub(crate) struct FileSlot<R: Files> {
    path: String,
    access: Access,
    file: Known<R::File>,
    // Whether a write made the file.
    is_made: bool,
    // Whether the folder was synced since: only then the file's name is durable.
    is_named: bool,
    // Whether a sync failed. The system may then have dropped what was written, and no later sync would tell.
    is_lost: bool,
}

// Opens the file at a path, and locks it. What is no regular file isn't opened, since that may wait for another
// process.
fn opened<R: Files>(files: &R, path: &str, access: Access) -> io::Result<R::File>
where
    R::File: Hold,
{
    let there = files.metadata(path)?;
    if there.is_dir() {
        return Err(io::Error::from(ErrorKind::IsADirectory));
    }
    if !there.is_file() {
        return Err(io::Error::new(ErrorKind::InvalidInput, "not a regular file"));
    }
    match access {
        Access::Whole => {
            let file = OpenOptions::new().read(true).write(true).open(files, path)?;
            file.hold()?;
            Ok(file)
        }
        Access::Looking => {
            let file = OpenOptions::new().read(true).open(files, path)?;
            file.share()?;
            Ok(file)
        }
    }
}

impl<R: Files> FileSlot<R>
where
    R::File: Hold,
{
    pub fn new(path: String, access: Access) -> Self {
        FileSlot {
            path,
            access,
            file: Known::Unseen,
            is_made: false,
            is_named: false,
            is_lost: false,
        }
    }

    pub fn is_missing(&self) -> bool {
        matches!(self.file, Known::Missing)
    }

    // Opens the file at the first call, where it is there.
    fn look(&mut self, files: &R) -> io::Result<()> {
        if let Known::Unseen = self.file {
            match opened(files, self.path.as_str(), self.access) {
                Ok(file) => self.file = Known::Open(file),
                Err(e) => {
                    if e.kind() != ErrorKind::NotFound {
                        return Err(e);
                    }
                    self.file = Known::Missing;
                }
            }
        }
        Ok(())
    }

    // Makes the file where it is missing. One that another process made since is not taken.
    fn make(&mut self, files: &R) -> io::Result<()> {
        self.look(files)?;
        if let Known::Missing = self.file {
            let file = OpenOptions::new()
                .read(true)
                .write(true)
                .create_new(true)
                .mode(MODE)
                .open(files, self.path.as_str())?;
            file.hold()?;
            self.file = Known::Open(file);
            self.is_made = true;
        }
        Ok(())
    }

    // Removes the file where this slot made it, and its path still leads to it.
    pub fn remove_made(&mut self, files: &R) -> io::Result<()> {
        if !self.is_made {
            return Ok(());
        }
        let Known::Open(file) = &self.file else {
            return Ok(());
        };
        let made = file.metadata()?;
        let there = files.metadata(self.path.as_str())?;
        if made.dev() == there.dev() && made.ino() == there.ino() {
            files.remove_file(self.path.as_str())?;
        }
        self.is_made = false;
        Ok(())
    }

    pub fn length(&mut self, files: &R) -> io::Result<u64>
        ensures { IfOk result (λ n. n ≤ 2 ^ 63) }
    {
        self.look(files)?;
        let Known::Open(file) = &self.file else {
            return Ok(0);
        };
        let length = file.metadata()?.len();
        if length > LONGEST {
            return Err(io::Error::from(ErrorKind::FileTooLarge));
        }
        Ok(length)
    }

    pub fn read_at(&mut self, files: &R, at: u64, into: &mut [u8]) -> io::Result<usize>
        ensures { IfOk result (λ n. n ≤ length into.new) }
    {
        self.look(files)?;
        let Known::Open(file) = &mut self.file else {
            return Ok(0);
        };
        file.seek(SeekFrom::Start(at))?;
        for _ in 0..u64::MAX {
            match file.read(into) {
                Ok(n) => return Ok(n),
                Err(e) => {
                    if e.kind() != ErrorKind::Interrupted {
                        return Err(e);
                    }
                }
            }
        }
        Err(io::Error::from(ErrorKind::Interrupted))
    }

    pub fn write_at(&mut self, files: &R, at: u64, bytes: &[u8]) -> io::Result<()>
        ensures { OnOk result (at + length bytes.now ≤ 2 ^ 63) }
    {
        if at > LONGEST || bytes.len() as u64 > LONGEST - at {
            return Err(io::Error::from(ErrorKind::FileTooLarge));
        }
        if self.access == Access::Looking {
            return Err(io::Error::from(ErrorKind::Unsupported));
        }
        self.make(files)?;
        let Known::Open(file) = &mut self.file else {
            return Err(io::Error::from(ErrorKind::NotFound));
        };
        file.seek(SeekFrom::Start(at))?;
        file.write_all(bytes)?;
        file.flush()
    }

    // The file, and at its first sync the folder too. After one that failed each later one fails.
    pub fn sync(&mut self, files: &R) -> io::Result<()> {
        self.look(files)?;
        if self.is_lost {
            return Err(io::Error::from(ErrorKind::Other));
        }
        self.is_lost = true;
        if let Known::Open(file) = &self.file {
            file.sync_all()?;
            if !self.is_named {
                sync_folder(files, &self.path)?;
                self.is_named = true;
            }
        }
        self.is_lost = false;
        Ok(())
    }
}

// Makes the names in the folder of a path last.
fn sync_folder<R: Files>(files: &R, path: &str) -> io::Result<()> {
    let folder = match path.rfind('/') {
        None => ".",
        Some(0) => "/",
        Some(end) => &path[..end],
    };
    OpenOptions::new()
        .read(true)
        .open(files, folder)?
        .sync_all()
}
