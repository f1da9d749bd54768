//! A shelf and a sink in memory, which fail at chosen calls.

ghost use Rattle.std.specs.Prelude.{◌≡◌, ◌-◌, ◌<◌, ◌≤◌, ◌++◌, IfOk, IsTrue, OnErr, OnOk, drop};
ghost use Rattle.std.specs.Prelude.{length, min, take};
ghost use Rattle.std.specs.Option.{option_copied};
ghost use Rattle.std.specs.Result.{result_ok};
ghost use Rattle.tp_outside.specs.Count.{Rose, given_more};
ghost use Rattle.tp_outside.specs.Files.{ReadFails, ReadGives, has_distinct_names, held_under};
ghost use Rattle.tp_outside.specs.Memory.{empty_sink, files_of, read_of, unread, write_of};
ghost use Rattle.tp_outside.specs.Taken.{added};

use crate::reading::{Failed, Shelf};
use crate::writing::Sink;
use std::alloc::Global;
use std::marker::Model;

/// Files in memory, which the shelf tells.
#[derive(Drop)]
pub struct MemShelf {
    files: Vec<(String, Vec<u8>)>,
    piece: usize,
    fails: Vec<u64>,
    calls: u64,
    faults: u64,
    given: u64,
}

impl Model for MemShelf {
    ghost use Rattle.std.specs.Prelude.{◌<◌};
    ghost use Rattle.tp_outside.specs.Memory.{ShelfState, files_of};

    ghost Value = { ShelfState };

    ghost view = { λ s. record {
      files = files_of s.files.items;
      piece = s.piece;
      fails = s.fails.items;
      calls = s.calls;
      faults = s.faults;
      given = s.given;
    } };

    ghost invariant = { λ s. 0 < s.piece };
}

impl MemShelf {
    /// A shelf with these files, whose names are distinct. A read gives at most `piece` bytes. The
    /// calls of `read` are numbered from 1, those for names that aren't held too, and the number
    /// stays at 18446744073709551615. A call for a held name is a fault exactly where its number
    /// stands in `fails`.
    pub fn new(files: Vec<(String, Vec<u8>)>, piece: usize, fails: Vec<u64>) -> MemShelf
        requires some { 0 < piece }
        requires distinct { IsTrue (has_distinct_names (files_of files.items)) }
        ensures { result ≡ unread (files_of files.items) piece fails.items }
    {
        MemShelf {
            files,
            piece,
            fails,
            calls: 0,
            faults: 0,
            given: 0,
        }
    }

    /// How many faults there were.
    pub fn faults(&self) -> u64
        ensures { result ≡ self.now.faults }
    {
        self.faults
    }
}

/// The bytes that are held under a name.
fn find<'a>(files: &'a [(String, Vec<u8>)], name: &str) -> Option<&'a [u8]>
    ensures { option_copied result ≡ held_under (files_of files.now) name.now }
{
    for file in files {
        if file.0.as_str() == name {
            return Some(file.1.as_slice());
        }
    }
    None
}

/// Copies bytes from a place on into the front of a buffer, at most `piece`, and says how many.
fn copy_piece(bytes: &[u8], at: u64, piece: usize, buf: &mut [u8]) -> usize
    ensures count { result ≡ min (min piece (length buf.old)) (length bytes.now - at) }
    ensures copied { take result buf.new ≡ take result (drop at bytes.now) }
{
    if at >= bytes.len() as u64 {
        return 0;
    }
    let rest = &bytes[at as usize..];
    let count = piece.min(buf.len()).min(rest.len());
    buf[..count].copy_from_slice(&rest[..count]);
    count
}

impl Shelf for MemShelf {
    ghost use Rattle.std.specs.Prelude.{Some};

    ghost held = { λ s. Some s.files };

    ghost faults = { λ s. s.faults };

    ghost given = { λ s. s.given };

    fn read(&mut self, name: &str, at: u64, buf: &mut [u8]) -> Result<usize, Failed>
        requires { 0 < length buf.old }
        ensures held_stays { self.new.files ≡ self.old.files }
        ensures never_falls { self.old.faults ≤ self.new.faults }
        ensures bound { IfOk result (λ n. n ≤ length buf.new) }
        ensures gives { IfOk result (λ n. ReadGives (Some self.old.files) name.now at n buf.new) }
        ensures no_fault { OnOk result (self.new.faults ≡ self.old.faults) }
        ensures given { IfOk result (λ n. self.new.given ≡ given_more self.old.given n) }
        ensures fails { OnErr result
            (ReadFails (Some self.old.files) name.now self.old.faults self.new.faults) }
        ensures none_given { OnErr result (self.new.given ≡ self.old.given) }
        ensures exact { (result_ok result, self.new)
            ≡ read_of self.old name.now at (length buf.old) }
    {
        self.calls = self.calls.saturating_add(1);
        let Some(bytes) = find(self.files.as_slice(), name) else {
            return Err(Failed);
        };
        if self.fails.as_slice().contains(&self.calls) {
            self.faults = self.faults.saturating_add(1);
            return Err(Failed);
        }
        let count = copy_piece(bytes, at, self.piece, buf);
        self.given = self.given.saturating_add(count as u64);
        Ok(count)
    }
}

/// No memory was found for the room of a sink.
#[derive(Clone, Copy, Debug, PartialEq, Eq)]
pub struct SinkMemory;

/// Bytes taken into memory, which the sink tells.
#[derive(Drop)]
pub struct MemSink {
    taken: Vec<u8>,
    room: usize,
    piece: usize,
    fails: Vec<u64>,
    calls: u64,
    faults: u64,
}

impl Model for MemSink {
    ghost use Rattle.std.specs.Prelude.{◌<◌, ◌≤◌, vec_capacity, vec_len};
    ghost use Rattle.tp_outside.specs.Memory.{SinkState};

    ghost Value = { SinkState };

    ghost view = { λ s. record {
      taken = s.taken.items;
      room = s.room;
      piece = s.piece;
      fails = s.fails.items;
      calls = s.calls;
      faults = s.faults;
    } };

    ghost invariant = { λ s.
        (0 < s.piece) × (s.room ≤ vec_capacity s.taken) × (vec_len s.taken ≤ s.room) };
}

impl MemSink {
    /// A sink with memory for `room` bytes, of which one write takes at most `piece`. Writes take
    /// no memory. The calls of `write` are numbered from 1, and the number stays at
    /// 18446744073709551615. A call is a fault exactly where its number stands in `fails` or `room`
    /// bytes were taken already.
    pub fn new(
        alloc: Global,
        room: usize,
        piece: usize,
        fails: Vec<u64>,
    ) -> Result<MemSink, SinkMemory>
        requires { 0 < piece }
        ensures { IfOk result (λ sink. sink ≡ empty_sink room piece fails.items) }
    {
        let Ok(taken) = Vec::with_capacity(alloc, room) else {
            return Err(SinkMemory);
        };
        Ok(MemSink {
            taken,
            room,
            piece,
            fails,
            calls: 0,
            faults: 0,
        })
    }

    /// The bytes that were taken.
    pub fn taken(&self) -> &[u8]
        ensures { result.now ≡ self.now.taken }
    {
        self.taken.as_slice()
    }

    /// How many faults there were.
    pub fn faults(&self) -> u64
        ensures { result ≡ self.now.faults }
    {
        self.faults
    }
}

impl Sink for MemSink {
    ghost use Rattle.std.specs.Prelude.{Some};

    ghost taken = { λ s. Some s.taken };

    ghost faults = { λ s. s.faults };

    fn write(&mut self, piece: &[u8]) -> Result<usize, Failed>
        requires { 0 < length piece.now }
        ensures never_falls { self.old.faults ≤ self.new.faults }
        ensures some { IfOk result (λ n. 0 < n) }
        ensures bound { IfOk result (λ n. n ≤ length piece.now) }
        ensures added { IfOk result (λ n. self.new.taken ≡ self.old.taken ++ take n piece.now) }
        ensures no_fault { OnOk result (self.new.faults ≡ self.old.faults) }
        ensures rose { OnErr result (Rose self.old.faults self.new.faults) }
        ensures none_added { OnErr result (self.new.taken ≡ self.old.taken) }
        ensures exact { (result_ok result, self.new) ≡ write_of self.old piece.now }
    {
        self.calls = self.calls.saturating_add(1);
        if self.fails.as_slice().contains(&self.calls) || self.taken.len() >= self.room {
            self.faults = self.faults.saturating_add(1);
            return Err(Failed);
        }
        let count = self
            .piece
            .min(piece.len())
            .min(self.room - self.taken.len());
        // `new` reserved the room, so this takes no memory and can't fail.
        self.taken.extend_from_slice(&piece[..count]).unwrap();
        Ok(count)
    }
}
