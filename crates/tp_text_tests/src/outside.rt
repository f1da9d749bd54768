//! Worked rows, with ample memory.
ghost use Rattle.std.specs.Prelude.{◌<◌};

use std::alloc::{AllocError, Global};
use std::fmt::Display;
use std::io::{self, ErrorKind, Print};
use std::test::Fail;
use std::{env, fs, process};
use tp_outside::*;

/// A shelf that holds these bytes under `m`, and `2` under `two`.
fn shelf_of(alloc: Global, text: &[u8], piece: usize, fails: &[u64]) -> Result<MemShelf, AllocError>
    requires { 0 < piece }
{
    let m = (String::from_str(alloc, "m")?, text.to_vec(alloc)?);
    let two = (String::from_str(alloc, "two")?, b"2".to_vec(alloc)?);
    Ok(MemShelf::new(vec![in alloc; m, two]?, piece, fails.to_vec(alloc)?))
}

/// The name, the most bytes of a piece, the number of the call that fails, and the text: none is a
/// fault.
const TEXTS: [(&str, usize, u64, Option<&[u8]>); 10] = [
    ("m", 1, 0, Some(b"p(1). p(2).")),
    ("m", 2, 0, Some(b"p(1). p(2).")),
    ("m", 7, 0, Some(b"p(1). p(2).")),
    ("m", 9, 4, Some(b"p(1). p(2).")),
    ("two", 9, 0, Some(b"2")),
    ("x", 9, 0, None),
    ("x", 9, 1, None),
    ("m", 9, 1, None),
    ("m", 9, 3, None),
    ("m", 1, 12, None),
];

/// The room, the most bytes of a piece, the number of the call that fails, and what of `hello` was
/// taken.
const WRITES: [(usize, usize, u64, &str); 5] = [
    (100, 3, 2, "hel"),
    (4, 3, 0, "hell"),
    (100, 3, 3, "hello"),
    (5, 1, 0, "hello"),
    (0, 1, 0, ""),
];

/// The first row of `TEXTS` that reads otherwise.
fn other_text(alloc: Global) -> Result<Option<usize>, AllocError> {
    for (at, (name, piece, failing, want)) in TEXTS.iter().enumerate() {
        let mut shelf = shelf_of(alloc, b"p(1). p(2).", (*piece).max(1), &[*failing])?;
        let as_wanted = match (read_all(alloc, &mut shelf, name), want) {
            (Ok(bytes), Some(text)) => bytes.as_slice() == *text && shelf.faults() == 0,
            (Err(ReadError::Fault), None) => shelf.faults() == u64::from(*name == "m"),
            _ => false,
        };
        if !as_wanted {
            return Ok(Some(at));
        }
    }
    Ok(None)
}

/// The first row of `WRITES` that writes otherwise.
fn other_write(alloc: Global) -> Result<Option<usize>, AllocError> {
    for (at, (room, piece, failing, want)) in WRITES.iter().enumerate() {
        let fails = vec![in alloc; *failing]?;
        let Ok(mut sink) = MemSink::new(alloc, *room, (*piece).max(1), fails) else {
            return Err(AllocError);
        };
        let is_whole = write_all(&mut sink, b"hello") == Ok(());
        let faults = u64::from(!is_whole);
        if is_whole != (*want == "hello")
            || sink.taken() != want.as_bytes()
            || sink.faults() != faults
        {
            return Ok(Some(at));
        }
    }
    Ok(None)
}

/// What the longest text reads as, with so many bytes more: its length, or 0 where it is too long.
fn long_text(alloc: Global, more: usize) -> Result<usize, AllocError> {
    let mut text = vec![in alloc; b' '; LONGEST_TEXT]?;
    for _ in 0..more {
        text.push(b' ')?;
    }
    let mut shelf = shelf_of(alloc, text.as_slice(), usize::MAX, &[])?;
    match read_all(alloc, &mut shelf, "m") {
        Ok(bytes) => Ok(bytes.len()),
        Err(ReadError::TooLong) => Ok(0),
        Err(_) => Err(AllocError),
    }
}

/// An output that takes no byte, or is closed.
#[derive(Drop)]
enum Outlet {
    Full,
    Closed,
}

impl Print for Outlet {
    fn print<D: Display + Drop>(&self, _value: D) -> io::Result<()> {
        Err(io::Error::from(ErrorKind::BrokenPipe))
    }

    fn println<D: Display + Drop>(&self, _value: D) -> io::Result<()> {
        Err(io::Error::from(ErrorKind::BrokenPipe))
    }

    fn write_all(&self, _bytes: &[u8]) -> io::Result<()> {
        Err(io::Error::from(ErrorKind::BrokenPipe))
    }

    fn write_some(&self, _bytes: &[u8]) -> io::Result<usize> {
        match self {
            Outlet::Full => Ok(0),
            Outlet::Closed => Err(io::Error::from(ErrorKind::BrokenPipe)),
        }
    }
}

#[test]
fn worked_rows(rt: HostRuntime) -> Result<(), Fail> {
    assert_eq!(rt; other_text(rt.alloc())?, None);
    assert_eq!(rt; long_text(rt.alloc(), 0)?, LONGEST_TEXT);
    assert_eq!(rt; long_text(rt.alloc(), 1)?, 0);
    assert_eq!(rt; other_write(rt.alloc())?, None);
    assert_eq!(rt; write_all(&mut OutSink::new(&rt), b"hello\n"), Ok(()));
    for outlet in [Outlet::Full, Outlet::Closed] {
        let written = write_all(&mut OutSink::new(&outlet), b"hello");
        assert_eq!(rt; written, Err(WriteFault));
    }
    Ok(())
}

/// The text of a file of three pieces.
fn three_pieces(alloc: Global) -> Result<Vec<u8>, AllocError> {
    let mut text = vec![in alloc; b'a'; 39_998]?;
    text.extend_from_slice(b"bc")?;
    Ok(text)
}

#[test]
fn a_file_is_read_whole_and_in_its_middle(rt: HostRuntime) -> Result<(), Fail> {
    let text = three_pieces(rt.alloc())?;
    let name = format!(in rt.alloc(); "tp_outside-{}", process::id(rt.process()))?;
    let path = env::temp_dir(&rt)?.join(rt.alloc(), name.as_str())?;
    fs::write(&rt, path.as_path(), text.as_slice())?;
    let mut shelf = FileShelf::new(&rt);
    let whole = read_all(rt.alloc(), &mut shelf, path.as_str());
    let mut buf = [0; 4];
    let middle = shelf.read(path.as_str(), 39_998, &mut buf);
    fs::remove_file(&rt, path.as_path())?;
    let gone = read_all(rt.alloc(), &mut shelf, path.as_str());
    let is_read = match (whole, gone) {
        (Ok(whole), Err(ReadError::Fault)) => whole.as_slice() == text.as_slice(),
        _ => false,
    };
    assert!(rt; is_read && middle == Ok(2) && buf.as_slice().starts_with(b"bc"));
    Ok(())
}
