//! A reader and a writer that fail at a chosen call, a writer that notes its flushes, and a reader that watches
//! one.

use std::alloc::Global;
use std::cell::Cell;
use std::io::{Error, ErrorKind, Read, Result, Write};

/// Gives its bytes in chunks, and fails once it was read from so many times.
#[derive(Drop)]
pub struct FailingReader<'a> {
    bytes: &'a [u8],
    given: usize,
    most: usize,
    reads: usize,
}

impl<'a> FailingReader<'a> {
    pub fn new(bytes: &'a [u8], most: usize, reads: usize) -> FailingReader<'a> {
        FailingReader {
            bytes,
            given: 0,
            most,
            reads,
        }
    }

    /// The bytes that were read.
    pub fn given(&self) -> &'a [u8] {
        self.bytes.get(..self.given).unwrap_or(&[])
    }
}

impl Read for FailingReader<'_> {
    fn read(&mut self, buf: &mut [u8]) -> Result<usize> {
        if self.reads == 0 {
            return Err(Error::from(ErrorKind::ConnectionReset));
        }
        self.reads -= 1;
        let rest = self.bytes.get(self.given..).unwrap_or(&[]);
        let n = buf.len().min(rest.len()).min(self.most);
        buf[..n].copy_from_slice(&rest[..n]);
        self.given = self.given.saturating_add(n);
        Ok(n)
    }
}

/// Takes so many bytes a call, and fails once so many writes or flushes were made.
#[derive(Drop)]
pub struct FailingWriter {
    written: Vec<u8>,
    most: usize,
    writes: usize,
    flushes: usize,
}

impl FailingWriter {
    pub fn new(alloc: Global, most: usize, writes: usize, flushes: usize) -> FailingWriter {
        FailingWriter {
            written: Vec::new(alloc),
            most,
            writes,
            flushes,
        }
    }

    /// The bytes that were taken.
    pub fn written(&self) -> &[u8] {
        self.written.as_slice()
    }
}

impl Write for FailingWriter {
    fn write(&mut self, buf: &[u8]) -> Result<usize> {
        if self.writes == 0 {
            return Err(Error::from(ErrorKind::BrokenPipe));
        }
        self.writes -= 1;
        let n = buf.len().min(self.most);
        if self.written.extend_from_slice(&buf[..n]).is_err() {
            return Err(Error::from(ErrorKind::OutOfMemory));
        }
        Ok(n)
    }

    fn flush(&mut self) -> Result<()> {
        if self.flushes == 0 {
            return Err(Error::from(ErrorKind::BrokenPipe));
        }
        self.flushes -= 1;
        Ok(())
    }
}

/// Takes all bytes, and notes how many it had at each flush.
#[derive(Drop)]
pub struct NotingWriter {
    written: Vec<u8>,
    flushed: Vec<usize>,
}

impl NotingWriter {
    pub fn new(alloc: Global) -> NotingWriter {
        NotingWriter {
            written: Vec::new(alloc),
            flushed: Vec::new(alloc),
        }
    }

    /// The bytes that were taken.
    pub fn written(&self) -> &[u8] {
        self.written.as_slice()
    }

    /// How many bytes had been taken at each flush.
    pub fn flushed(&self) -> &[usize] {
        self.flushed.as_slice()
    }
}

impl Write for NotingWriter {
    fn write(&mut self, buf: &[u8]) -> Result<usize> {
        match self.written.extend_from_slice(buf) {
            Ok(()) => Ok(buf.len()),
            Err(_) => Err(Error::from(ErrorKind::OutOfMemory)),
        }
    }

    fn flush(&mut self) -> Result<()> {
        match self.flushed.push(self.written.len()) {
            Ok(()) => Ok(()),
            Err(_) => Err(Error::from(ErrorKind::OutOfMemory)),
        }
    }
}

/// How many bytes were written and flushed so far, as a reader may look at it.
#[derive(Drop)]
pub struct Watch {
    written: Cell<usize>,
    flushed: Cell<usize>,
}

impl Watch {
    pub fn new() -> Watch {
        Watch {
            written: Cell::new(0),
            flushed: Cell::new(0),
        }
    }
}

/// Takes all bytes, and reports to the watch how many.
#[derive(Drop)]
pub struct WatchedWriter<'a> {
    watch: &'a Watch,
}

impl<'a> WatchedWriter<'a> {
    pub fn new(watch: &'a Watch) -> WatchedWriter<'a> {
        WatchedWriter { watch }
    }
}

impl Write for WatchedWriter<'_> {
    fn write(&mut self, buf: &[u8]) -> Result<usize> {
        let written = self.watch.written.get();
        self.watch.written.set(written.saturating_add(buf.len()));
        Ok(buf.len())
    }

    fn flush(&mut self) -> Result<()> {
        self.watch.flushed.set(self.watch.written.get());
        Ok(())
    }
}

/// Gives one chunk a read, and fails where the answers to the chunks before it, of so many bytes each,
/// are not flushed.
#[derive(Drop)]
pub struct WatchingReader<'a> {
    watch: &'a Watch,
    chunks: &'a [(&'static str, usize)],
    next: usize,
    owed: usize,
}

impl<'a> WatchingReader<'a> {
    pub fn new(watch: &'a Watch, chunks: &'a [(&'static str, usize)]) -> WatchingReader<'a> {
        WatchingReader {
            watch,
            chunks,
            next: 0,
            owed: 0,
        }
    }
}

impl Read for WatchingReader<'_> {
    fn read(&mut self, buf: &mut [u8]) -> Result<usize> {
        if self.watch.flushed.get() != self.owed {
            return Err(Error::from(ErrorKind::TimedOut));
        }
        let Some((chunk, answer)) = self.chunks.get(self.next) else {
            return Ok(0);
        };
        let bytes = chunk.as_bytes();
        let n = buf.len().min(bytes.len());
        buf[..n].copy_from_slice(&bytes[..n]);
        self.owed = self.owed.saturating_add(*answer);
        self.next = self.next.saturating_add(1);
        Ok(n)
    }
}
