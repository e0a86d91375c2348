//! A reader and a writer that are slow and fail, and a runtime whose files are such readers.
use std::alloc::Allocator;
use std::fs::{Metadata, OpenFile, OpenOptions};
use std::io::{self, ErrorKind, Read, Seek, SeekFrom, Write};
use std::rt::Files;

fn no_such_call<T>() -> io::Result<T> {
    Err(io::Error::from(ErrorKind::Unsupported))
}

/// A reader that is interrupted at every second call, returns at most three bytes, and fails after a number of bytes.
#[derive(Drop)]
pub struct SlowReader {
    room: usize,
    is_interrupted: bool,
}

impl Read for SlowReader {
    fn read(&mut self, buf: &mut [u8]) -> io::Result<usize> {
        self.is_interrupted = !self.is_interrupted;
        if self.is_interrupted {
            return Err(io::Error::from(ErrorKind::Interrupted));
        }
        if self.room == 0 {
            return Err(io::Error::from(ErrorKind::TimedOut));
        }
        let count = buf.len().min(3).min(self.room);
        self.room -= count;
        buf[..count].fill(b'x');
        Ok(count)
    }
}

impl Write for SlowReader {
    fn write(&mut self, _buf: &[u8]) -> io::Result<usize> {
        Err(io::Error::from(ErrorKind::Unsupported))
    }

    fn flush(&mut self) -> io::Result<()> {
        no_such_call()
    }
}

impl Seek for SlowReader {
    fn seek(&mut self, _pos: SeekFrom) -> io::Result<u64> {
        no_such_call()
    }
}

impl OpenFile for SlowReader {
    fn metadata(&self) -> io::Result<Metadata> {
        no_such_call()
    }

    fn set_len(&self, _size: u64) -> io::Result<()> {
        no_such_call()
    }

    fn sync_all(&self) -> io::Result<()> {
        no_such_call()
    }

    fn sync_data(&self) -> io::Result<()> {
        no_such_call()
    }
}

/// A runtime whose files all return a number of bytes, slowly, and then fail. Nothing else can be done with them.
#[derive(Drop)]
pub struct SlowFiles {
    pub room: usize,
}

impl Files for SlowFiles {
    type File = SlowReader;

    type Dir = SlowReader;

    fn open_file(&self, _how: &OpenOptions, _path: &str) -> io::Result<SlowReader> {
        Ok(SlowReader {
            room: self.room,
            is_interrupted: false,
        })
    }

    fn open_dir(&self, _path: &str) -> io::Result<SlowReader> {
        no_such_call()
    }

    fn metadata(&self, _path: &str) -> io::Result<Metadata> {
        no_such_call()
    }

    fn symlink_metadata(&self, _path: &str) -> io::Result<Metadata> {
        no_such_call()
    }

    fn copy(&self, _from: &str, _to: &str) -> io::Result<u64> {
        no_such_call()
    }

    fn rename(&self, _from: &str, _to: &str) -> io::Result<()> {
        no_such_call()
    }

    fn remove_file(&self, _path: &str) -> io::Result<()> {
        no_such_call()
    }

    fn create_dir(&self, _path: &str) -> io::Result<()> {
        no_such_call()
    }

    fn remove_dir(&self, _path: &str) -> io::Result<()> {
        no_such_call()
    }

    fn remove_dir_all<B: Allocator>(&self, _alloc: B, _path: &str) -> io::Result<()> {
        no_such_call()
    }
}

/// A writer with little room, which takes two bytes at a time and is interrupted at every second call.
#[derive(Drop)]
pub struct SlowWriter {
    pub held: Vec<u8>,
    pub room: usize,
    pub is_interrupted: bool,
}

impl Write for SlowWriter {
    fn write(&mut self, buf: &[u8]) -> io::Result<usize> {
        self.is_interrupted = !self.is_interrupted;
        if self.is_interrupted {
            return Err(io::Error::from(ErrorKind::Interrupted));
        }
        if self.room == 0 {
            return Err(io::Error::from(ErrorKind::StorageFull));
        }
        let count = buf.len().min(2).min(self.room);
        self.room -= count;
        self.held.extend_from_slice(&buf[..count])?;
        Ok(count)
    }

    fn flush(&mut self) -> io::Result<()> {
        Ok(())
    }
}
