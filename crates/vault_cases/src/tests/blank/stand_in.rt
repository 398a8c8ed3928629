//! A file system that has something happen before each of its calls.
use std::alloc::{Allocator, Global};
use std::fs::{Files, Metadata, OpenFile, OpenOptions, Permissions};
use std::io;
use std::io::{Read, Seek, SeekFrom, Write};
use vault_blank::lock::Lock;

/// What a call is for.
#[derive(Clone, Copy, Debug, PartialEq, Eq)]
pub enum Call {
    /// What has a name.
    Look,
    Open,
    Hold,
    /// The mode, the length and the bytes.
    Fill,
    /// That the disk keeps them.
    Keep,
    Link,
    Remove,
}

/// What happens before a call, which is not made after an error.
pub trait Before {
    fn before(&self, call: Call) -> io::Result<()>;
}

/// The file system.
#[derive(Drop)]
pub struct StandIn<'a, R, B> {
    pub rt: &'a R,
    pub happens: &'a B,
}

/// A file of it.
#[derive(Drop)]
pub struct StandInFile<'a, F, B> {
    file: F,
    happens: &'a B,
}

impl<'a, R: Alloc<A = Global>, B> Alloc for StandIn<'a, R, B> {
    type A = Global;

    fn alloc(&self) -> Global {
        self.rt.alloc()
    }
}

impl<'a, F: Read, B: Before> Read for StandInFile<'a, F, B> {
    fn read(&mut self, buf: &mut [u8]) -> io::Result<usize> {
        self.file.read(buf)
    }
}

/// At most 600 bytes are written at once, so that a stop can come between two parts of the page.
impl<'a, F: Write, B: Before> Write for StandInFile<'a, F, B> {
    fn write(&mut self, buf: &[u8]) -> io::Result<usize> {
        self.happens.before(Call::Fill)?;
        self.file.write(&buf[..buf.len().min(600)])
    }

    fn flush(&mut self) -> io::Result<()> {
        self.file.flush()
    }
}

impl<'a, F: Seek, B: Before> Seek for StandInFile<'a, F, B> {
    fn seek(&mut self, to: SeekFrom) -> io::Result<u64> {
        self.file.seek(to)
    }
}

impl<'a, F: OpenFile, B: Before> OpenFile for StandInFile<'a, F, B> {
    fn metadata(&self) -> io::Result<Metadata> {
        self.happens.before(Call::Look)?;
        self.file.metadata()
    }

    fn set_len(&self, size: u64) -> io::Result<()> {
        self.happens.before(Call::Fill)?;
        self.file.set_len(size)
    }

    fn sync_all(&self) -> io::Result<()> {
        self.happens.before(Call::Keep)?;
        self.file.sync_all()
    }

    fn sync_data(&self) -> io::Result<()> {
        self.happens.before(Call::Keep)?;
        self.file.sync_data()
    }

    fn set_permissions(&self, perm: Permissions) -> io::Result<()> {
        self.happens.before(Call::Fill)?;
        self.file.set_permissions(perm)
    }
}

impl<'a, F: Lock, B: Before> Lock for StandInFile<'a, F, B> {
    fn hold(&self) -> io::Result<()> {
        self.happens.before(Call::Hold)?;
        self.file.hold()
    }
}

impl<'a, R: Files, B: Before> Files for StandIn<'a, R, B> {
    type File = StandInFile<'a, R::File, B>;

    type Dir = R::Dir;

    fn open_file(&self, how: &OpenOptions, path: &str) -> io::Result<StandInFile<'a, R::File, B>> {
        self.happens.before(Call::Open)?;
        Ok(StandInFile {
            file: self.rt.open_file(how, path)?,
            happens: self.happens,
        })
    }

    fn open_dir(&self, path: &str) -> io::Result<R::Dir> {
        self.rt.open_dir(path)
    }

    fn metadata(&self, path: &str) -> io::Result<Metadata> {
        self.happens.before(Call::Look)?;
        self.rt.metadata(path)
    }

    fn symlink_metadata(&self, path: &str) -> io::Result<Metadata> {
        self.happens.before(Call::Look)?;
        self.rt.symlink_metadata(path)
    }

    fn copy(&self, from: &str, to: &str) -> io::Result<u64> {
        self.rt.copy(from, to)
    }

    fn rename(&self, from: &str, to: &str) -> io::Result<()> {
        self.rt.rename(from, to)
    }

    fn remove_file(&self, path: &str) -> io::Result<()> {
        self.happens.before(Call::Remove)?;
        self.rt.remove_file(path)
    }

    fn create_dir(&self, path: &str) -> io::Result<()> {
        self.rt.create_dir(path)
    }

    fn remove_dir(&self, path: &str) -> io::Result<()> {
        self.rt.remove_dir(path)
    }

    fn remove_dir_all<A: Allocator>(&self, alloc: A, path: &str) -> io::Result<()> {
        self.rt.remove_dir_all(alloc, path)
    }

    fn hard_link(&self, original: &str, link: &str) -> io::Result<()> {
        self.happens.before(Call::Link)?;
        self.rt.hard_link(original, link)
    }
}
