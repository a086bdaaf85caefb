//! Files and streams whose calls are interrupted, as by signals that come in the midst of them.
use std::alloc::Allocator;
use std::fs::{Files, Metadata, OpenFile, OpenOptions};
use std::io;
use std::io::{ErrorKind, Read, Seek, SeekFrom, Write};

/// A file or a stream, each of whose reads and writes is interrupted `times` times before it is made.
#[derive(Drop)]
pub(crate) struct Interrupted<F> {
    inner: F,
    times: u32,
    remaining: u32,
    pub calls: u64,
}

impl<F> Interrupted<F> {
    /// That file or stream, before its first call.
    pub fn new(inner: F, times: u32) -> Self {
        Interrupted {
            inner,
            times,
            remaining: times,
            calls: 0,
        }
    }

    /// Counts a call, which is interrupted or is made.
    fn interrupt(&mut self) -> io::Result<()> {
        self.calls = self.calls.wrapping_add(1);
        if self.remaining == 0 {
            self.remaining = self.times;
            return Ok(());
        }
        self.remaining = self.remaining.wrapping_sub(1);
        Err(io::Error::from(ErrorKind::Interrupted))
    }
}

impl<F: Read> Read for Interrupted<F> {
    fn read(&mut self, buf: &mut [u8]) -> io::Result<usize> {
        self.interrupt()?;
        self.inner.read(buf)
    }
}

impl<F: Write> Write for Interrupted<F> {
    fn write(&mut self, buf: &[u8]) -> io::Result<usize> {
        self.interrupt()?;
        self.inner.write(buf)
    }

    fn flush(&mut self) -> io::Result<()> {
        self.inner.flush()
    }
}

impl<F: Seek> Seek for Interrupted<F> {
    fn seek(&mut self, to: SeekFrom) -> io::Result<u64> {
        self.inner.seek(to)
    }
}

impl<F: OpenFile> OpenFile for Interrupted<F> {
    fn metadata(&self) -> io::Result<Metadata> {
        self.inner.metadata()
    }

    fn set_len(&self, size: u64) -> io::Result<()> {
        self.inner.set_len(size)
    }

    fn sync_all(&self) -> io::Result<()> {
        self.inner.sync_all()
    }

    fn sync_data(&self) -> io::Result<()> {
        self.inner.sync_data()
    }
}

/// The files of a runtime, each of whose reads and writes is interrupted `times` times first.
#[derive(Drop)]
pub(crate) struct Interrupting<'a, R> {
    rt: &'a R,
    times: u32,
}

impl<'a, R> Interrupting<'a, R> {
    /// The files of that runtime.
    pub fn new(rt: &'a R, times: u32) -> Self {
        Interrupting { rt, times }
    }
}

impl<R: Files> Files for Interrupting<'_, R> {
    type File = Interrupted<R::File>;

    type Dir = R::Dir;

    fn open_file(&self, how: &OpenOptions, path: &str) -> io::Result<Self::File> {
        let file = self.rt.open_file(how, path)?;
        Ok(Interrupted::new(file, self.times))
    }

    fn open_dir(&self, path: &str) -> io::Result<Self::Dir> {
        self.rt.open_dir(path)
    }

    fn metadata(&self, path: &str) -> io::Result<Metadata> {
        self.rt.metadata(path)
    }

    fn symlink_metadata(&self, path: &str) -> io::Result<Metadata> {
        self.rt.symlink_metadata(path)
    }

    fn copy(&self, from: &str, to: &str) -> io::Result<u64> {
        self.rt.copy(from, to)
    }

    fn rename(&self, from: &str, to: &str) -> io::Result<()> {
        self.rt.rename(from, to)
    }

    fn remove_file(&self, path: &str) -> io::Result<()> {
        self.rt.remove_file(path)
    }

    fn create_dir(&self, path: &str) -> io::Result<()> {
        self.rt.create_dir(path)
    }

    fn remove_dir(&self, path: &str) -> io::Result<()> {
        self.rt.remove_dir(path)
    }

    fn remove_dir_all<B: Allocator>(&self, alloc: B, path: &str) -> io::Result<()> {
        self.rt.remove_dir_all(alloc, path)
    }
}
