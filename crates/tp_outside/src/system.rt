//! Thin adapters over files and standard output. They tell no bytes.

ghost use Rattle.std.specs.Prelude.{◌≡◌, ◌<◌, ◌≤◌, IfOk, OnErr, OnOk, length};
ghost use Rattle.tp_outside.specs.Count.{Rose, given_more};
ghost use Rattle.tp_outside.specs.System.{after_read, after_write};

use crate::reading::{Failed, Shelf};
use crate::writing::Sink;
use std::fs;
use std::io::{self, Print, Read, Seek, SeekFrom};
use std::marker::Model;
use std::rt::Files;

/// A file as the last read left it.
#[derive(Drop)]
struct Opened<F> {
    /// The name that it was opened for.
    name: String,
    file: F,
    /// The number of the byte that the file's next read gives first.
    next: u64,
}

impl<F> Opened<F> {
    /// Whether a read of this name from this byte on goes on where the last one ended.
    fn stands_at(&self, name: &str, at: u64) -> bool {
        self.next == at && self.name.as_str() == name
    }
}

/// The files that a runtime reaches. A name is a path. The file stays open from one piece to the
/// next, so that a pipe can be read: a read that goes on where the last one ended reads on, and
/// each other one opens the file anew. Every error is a fault, also that a file isn't there or that
/// memory is refused, and then no file stays open.
#[derive(Drop)]
pub struct FileShelf<'a, R: Files> {
    rt: &'a R,
    opened: Option<Opened<R::File>>,
    faults: u64,
    given: u64,
}

impl<'a, R: Files> Model for FileShelf<'a, R> {
    ghost use Rattle.tp_outside.specs.System.{ReadCounts};

    ghost Value = { ReadCounts };

    ghost view = { λ s. record { faults = s.faults; given = s.given } };
}

impl<'a, R: Files> FileShelf<'a, R> {
    /// A shelf whose counts are 0.
    pub fn new(rt: &'a R) -> FileShelf<'a, R>
        ensures { result ≡ record { faults = 0; given = 0 } }
    {
        FileShelf {
            rt,
            opened: None,
            faults: 0,
            given: 0,
        }
    }
}

impl<R: Files + AllocGlobal> FileShelf<'_, R> {
    /// Reads some bytes of a file from a place on. The file stays open where nothing failed.
    fn read_at(&mut self, name: &str, at: u64, buf: &mut [u8]) -> io::Result<usize>
        ensures bound { IfOk result (λ n. n ≤ length buf.new) }
        ensures counts { self.new ≡ self.old }
    {
        let mut opened = match self.opened.take() {
            Some(opened) if opened.stands_at(name, at) => opened,
            _ => open_at(self.rt, name, at)?,
        };
        let count = read_on(&mut opened, buf)?;
        self.opened = Some(opened);
        Ok(count)
    }
}

/// Opens a file at a place. One that has no places, as a pipe, is opened at its first byte alone.
fn open_at<R: Files + AllocGlobal>(rt: &R, name: &str, at: u64) -> io::Result<Opened<R::File>> {
    let mut file = fs::open(rt, name)?;
    if at > 0 {
        file.seek(SeekFrom::Start(at))?;
    }
    Ok(Opened {
        name: String::from_str(rt.alloc(), name)?,
        file,
        next: at,
    })
}

/// Reads some bytes of the file from its next one on.
fn read_on<F: Read>(opened: &mut Opened<F>, buf: &mut [u8]) -> io::Result<usize>
    ensures { IfOk result (λ n. n ≤ length buf.new) }
{
    let count = opened.file.read(buf)?;
    opened.next = opened.next.saturating_add(count as u64);
    Ok(count)
}

impl<R: Files + AllocGlobal> Shelf for FileShelf<'_, R> {
    ghost use Rattle.std.specs.Prelude.{None};

    ghost held = { λ _. None };

    ghost faults = { λ s. s.faults };

    ghost given = { λ s. s.given };

    fn read(&mut self, name: &str, at: u64, buf: &mut [u8]) -> Result<usize, Failed>
        requires { 0 < length buf.old }
        ensures never_falls { self.old.faults ≤ self.new.faults }
        ensures bound { IfOk result (λ n. n ≤ length buf.new) }
        ensures no_fault { OnOk result (self.new.faults ≡ self.old.faults) }
        ensures given { IfOk result (λ n. self.new.given ≡ given_more self.old.given n) }
        ensures rose { OnErr result (Rose self.old.faults self.new.faults) }
        ensures none_given { OnErr result (self.new.given ≡ self.old.given) }
        ensures exact { self.new ≡ after_read self.old result }
    {
        match self.read_at(name, at, buf) {
            Ok(count) => {
                self.given = self.given.saturating_add(count as u64);
                Ok(count)
            }
            Err(_) => {
                self.faults = self.faults.saturating_add(1);
                Err(Failed)
            }
        }
    }
}

/// The standard output that a runtime reaches. Every error is a fault, and so is a write of 0
/// bytes.
#[derive(Drop)]
pub struct OutSink<'a, R> {
    rt: &'a R,
    faults: u64,
}

impl<'a, R> Model for OutSink<'a, R> {
    ghost use Rattle.std.specs.Prelude.{ℕ};

    ghost Value = { ℕ };

    ghost view = { λ s. s.faults };
}

impl<'a, R> OutSink<'a, R> {
    /// A sink whose count of faults is 0.
    pub fn new(rt: &'a R) -> OutSink<'a, R>
        ensures { result ≡ 0 }
    {
        OutSink { rt, faults: 0 }
    }
}

impl<R: Print> Sink for OutSink<'_, R> {
    ghost use Rattle.std.specs.Prelude.{None};

    ghost taken = { λ _. None };

    ghost faults = { λ s. s };

    /// The host's `write_some` is one call of `write` on the descriptor, with no buffer between:
    /// the bytes that this says were taken are out, and nothing is left to flush when the program
    /// ends.
    fn write(&mut self, piece: &[u8]) -> Result<usize, Failed>
        requires { 0 < length piece.now }
        ensures never_falls { self.old ≤ self.new }
        ensures some { IfOk result (λ n. 0 < n) }
        ensures bound { IfOk result (λ n. n ≤ length piece.now) }
        ensures no_fault { OnOk result (self.new ≡ self.old) }
        ensures rose { OnErr result (Rose self.old self.new) }
        ensures exact { self.new ≡ after_write self.old result }
    {
        match self.rt.write_some(piece) {
            Ok(count) if count > 0 => Ok(count),
            _ => {
                self.faults = self.faults.saturating_add(1);
                Err(Failed)
            }
        }
    }
}
