//! What files answer: those in memory, those that are opened, and those of the operating system.

use ffm_model::List;
use outside_io::{
    Counted, FileError, Files, HostFiles, MemoryFiles, OpenedFiles, Opening, SteadyFiles, whole_of,
};
use std::alloc::Global;
use std::io::{ErrorKind, Read};
use std::process::Abort;
use std::sync::atomic::{AtomicU32, Ordering};
use std::test::Fail;
use std::{fs, io};

// The answer of a read, with the bytes lent.
fn lent(answer: &Result<Vec<u8>, FileError>) -> Result<&[u8], FileError> {
    match answer {
        Ok(bytes) => Ok(bytes.as_slice()),
        Err(e) => Err(*e),
    }
}

// A read of a name up to a limit, and what it gives.
type Reading<'a> = (&'a str, u32, Result<&'a [u8], FileError>);

// These reads, one after the other.
fn assert_reads(rt: &impl Abort, alloc: Global, files: &mut impl Files, reads: &[Reading]) {
    for (name, limit, want) in reads {
        let answer = files.read(alloc, name, *limit);
        assert!(rt; lent(&answer) == *want, "{name} up to {limit}");
    }
}

// Files of which the second read and the fourth fail.
fn failing_files(alloc: Global) -> Result<MemoryFiles, Fail> {
    let mut files = MemoryFiles::new(alloc);
    files.add(alloc, "six", b"fedcba")?;
    files.add(alloc, "six", b"abcdef")?;
    files.fail_at(List::of(vec![in alloc; 2u32, 4]?));
    Ok(files)
}

#[test]
fn files_in_memory(rt: HostRuntime) -> Result<(), Fail> {
    let mut files = failing_files(rt.alloc())?;
    let reads = [
        ("six", 6, Ok(b"abcdef".as_slice())),
        ("six", 6, Err(FileError::Failed)),
        ("six", 5, Err(FileError::TooLong)),
        ("six", 5, Err(FileError::Failed)),
        ("other", 9, Err(FileError::Failed)),
        ("six", 7, Ok(b"abcdef".as_slice())),
    ];
    assert_reads(&rt, rt.alloc(), &mut files, &reads);
    // Failed reads and too long files are told too.
    assert!(rt; files.reads().len() == 6);
    Ok(())
}

// The listed calls don't fail, and a name that isn't held reads as an empty file. Each read is told.
#[test]
fn steady_files(rt: HostRuntime) -> Result<(), Fail> {
    let mut files = SteadyFiles::new(failing_files(rt.alloc())?);
    let reads = [
        ("six", 6, Ok(b"abcdef".as_slice())),
        ("six", 5, Err(FileError::TooLong)),
        ("other", 0, Ok(b"".as_slice())),
        ("six", 6, Ok(b"abcdef".as_slice())),
    ];
    assert_reads(&rt, rt.alloc(), &mut files, &reads);
    assert!(rt; files.reads().len() == 4);
    Ok(())
}

/// A reader that gives its bytes in pairs, and fails behind them, if so it is told. Each second read is interrupted.
#[derive(Drop)]
struct Pairs<'a> {
    left: &'a [u8],
    failure: Option<ErrorKind>,
    interrupted: bool,
}

impl<'a> Pairs<'a> {
    // Nothing of the bytes was read yet.
    fn of(bytes: &'a [u8], failure: Option<ErrorKind>) -> Self {
        Pairs {
            left: bytes,
            failure,
            interrupted: false,
        }
    }
}

impl Read for Pairs<'_> {
    fn read(&mut self, buf: &mut [u8]) -> io::Result<usize> {
        self.interrupted = !self.interrupted;
        if self.interrupted {
            return Err(io::Error::from(ErrorKind::Interrupted));
        }
        let count = self.left.len().min(buf.len()).min(2);
        let (pair, left) = self.left.split_at(count);
        buf[..count].copy_from_slice(pair);
        self.left = left;
        match self.failure {
            Some(kind) if count == 0 => Err(io::Error::from(kind)),
            _ => Ok(count),
        }
    }
}

// What a reader of five bytes gives up to a limit, where it fails so behind them.
#[test]
fn readers(rt: HostRuntime) {
    let rows = [
        (None, 5, Ok(b"abcde".as_slice())),
        (None, u32::MAX, Ok(b"abcde".as_slice())),
        (None, 4, Err(FileError::TooLong)),
        (None, 0, Err(FileError::TooLong)),
        (Some(ErrorKind::Other), 5, Err(FileError::Failed)),
        (Some(ErrorKind::OutOfMemory), 5, Err(FileError::Memory)),
        (Some(ErrorKind::Other), 4, Err(FileError::TooLong)),
    ];
    for (failure, limit, want) in rows {
        let mut reader = Counted::of(Pairs::of(b"abcde", failure));
        let answer = whole_of(rt.alloc(), &mut reader, limit);
        assert!(rt; lent(&answer) == want, "up to {limit}");
    }
}

/// A file that can be opened, or fails so; and how often that was asked.
#[derive(Drop)]
struct Held<'a> {
    name: &'a str,
    opens: Result<&'a [u8], ErrorKind>,
    failure: Option<ErrorKind>,
    opened: AtomicU32,
}

impl<'a> Held<'a> {
    fn of(name: &'a str, opens: Result<&'a [u8], ErrorKind>, failure: Option<ErrorKind>) -> Self {
        Held {
            name,
            opens,
            failure,
            opened: AtomicU32::new(0),
        }
    }
}

/// An opening in memory.
#[derive(Drop)]
struct Shelf<'a> {
    files: &'a [Held<'a>],
}

impl<'a> Opening for Shelf<'a> {
    type Reader = Pairs<'a>;

    ghost use Rattle.std.specs.Prelude.{None};

    ghost holds = { λ _. None };

    ghost opened = { λ _. None };

    fn open(&mut self, name: &str) -> io::Result<Pairs<'a>> {
        let Some(file) = self.files.iter().find(|file| file.name == name) else {
            return Err(io::Error::from(ErrorKind::NotFound));
        };
        file.opened.fetch_add(1, Ordering::SeqCst);
        match file.opens {
            Ok(bytes) => Ok(Pairs::of(bytes, file.failure)),
            Err(kind) => Err(io::Error::from(kind)),
        }
    }
}

// The named file was opened once since the last look, and no other.
fn assert_opened(rt: &impl Abort, shelf: &[Held], name: &str) {
    for file in shelf {
        let times = file.opened.swap(0, Ordering::SeqCst);
        assert!(rt;
            times == u32::from(file.name == name),
            "{} for {name}",
            file.name
        );
    }
}

// A read opens its file once, whatever comes of it, and no other, and reads it up to the limit of this read.
#[test]
fn opened_files(rt: HostRuntime) {
    let shelf = [
        Held::of("six", Ok(b"abcdef"), None),
        Held::of("twelve", Ok(b"abcdefghijkl"), None),
        Held::of("broken", Ok(b"abc"), Some(ErrorKind::Other)),
        Held::of("large", Ok(b"abc"), Some(ErrorKind::OutOfMemory)),
        Held::of("locked", Err(ErrorKind::PermissionDenied), None),
        Held::of("full", Err(ErrorKind::OutOfMemory), None),
    ];
    let reads: [Reading; 10] = [
        ("six", 6, Ok(b"abcdef")),
        ("six", 5, Err(FileError::TooLong)),
        ("six", 6, Ok(b"abcdef")),
        ("twelve", 100, Ok(b"abcdefghijkl")),
        ("twelve", 11, Err(FileError::TooLong)),
        ("broken", 6, Err(FileError::Failed)),
        ("large", 6, Err(FileError::Memory)),
        ("locked", 6, Err(FileError::Failed)),
        ("full", 6, Err(FileError::Memory)),
        ("missing", 6, Err(FileError::Failed)),
    ];
    let mut files = OpenedFiles::of(Shelf { files: &shelf });
    for reading in reads {
        assert_reads(&rt, rt.alloc(), &mut files, &[reading]);
        assert_opened(&rt, &shelf, reading.0);
    }
}

#[test]
fn files_of_the_host(rt: HostRuntime) -> Result<(), Fail> {
    fs::write(&rt, "six", b"abcdef")?;
    fs::write(&rt, "none", b"")?;
    let reads = [
        ("six", 6, Ok(b"abcdef".as_slice())),
        ("six", 5, Err(FileError::TooLong)),
        ("six", u32::MAX, Ok(b"abcdef".as_slice())),
        ("six", 0, Err(FileError::TooLong)),
        ("none", 0, Ok(b"".as_slice())),
        ("missing", 6, Err(FileError::Failed)),
        (".", 6, Err(FileError::Failed)),
    ];
    assert_reads(&rt, rt.alloc(), &mut HostFiles::new(&rt), &reads);
    fs::remove_file(&rt, "six")?;
    fs::remove_file(&rt, "none")?;
    Ok(())
}
