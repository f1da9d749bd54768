//! A whole text over a shelf or a sink.

ghost use Rattle.std.specs.Prelude.{◌≡◌, ◌+◌, ◌≤◌, length, IfOk, OnOk, OnErr, IsErrOf};
ghost use Rattle.tp_outside.specs.Count.{Rose, given_more};
ghost use Rattle.tp_outside.specs.Files.{HoldsName, ReadFails};
ghost use Rattle.tp_outside.specs.Taken.{HasPrefix, added};
ghost use Rattle.tp_outside.specs.Text.{HoldsMore, ReadsAll};

use crate::reading::Shelf;
use crate::writing::Sink;
use std::alloc::Global;
use thiserror::Error;

/// The most bytes that a text may have which [`read_all`] reads.
pub const LONGEST_TEXT: usize = 16_777_216;

/// The most bytes that [`read_all`] asks for in one read.
const PIECE: usize = 16_384;

/// Why a text wasn't read.
#[derive(Debug, Drop, Error)]
pub enum ReadError {
    /// A read failed: the shelf counted a fault, or the name isn't held.
    #[error("the text could not be read")]
    Fault,
    /// There are more than [`LONGEST_TEXT`] bytes.
    #[error("the text has more than {most} bytes", most = LONGEST_TEXT)]
    TooLong,
    /// No memory was found for the bytes.
    #[error("no memory for the text")]
    NoMemory,
}

/// A write failed before all bytes were taken.
#[derive(Clone, Copy, Debug, PartialEq, Eq)]
pub struct WriteFault;

/// Reads all the bytes that are held under a name, at most [`LONGEST_TEXT`].
///
/// # Errors
/// `Fault` at the first read that fails. `TooLong` where one byte more was read, for which no
/// memory is taken, and no further one is read. `NoMemory` where memory for the bytes was refused.
pub fn read_all<S: Shelf>(alloc: Global, shelf: &mut S, name: &str) -> Result<Vec<u8>, ReadError>
    ensures held_stays { S.held shelf.new ≡ S.held shelf.old }
    ensures never_falls { S.faults shelf.old ≤ S.faults shelf.new }

    ensures all { IfOk result (λ bytes. ReadsAll (S.held shelf.old) name.now bytes.items) }
    ensures short { IfOk result (λ bytes. length bytes.items ≤ LONGEST_TEXT) }
    ensures no_fault { OnOk result (S.faults shelf.new ≡ S.faults shelf.old) }
    ensures given { IfOk result (λ bytes.
        S.given shelf.new ≡ given_more (S.given shelf.old) (length bytes.items)) }

    ensures too_long { IsErrOf result ReadError.TooLong →
        HoldsMore (S.held shelf.old) name.now LONGEST_TEXT }
    ensures too_long_no_fault { IsErrOf result ReadError.TooLong →
        S.faults shelf.new ≡ S.faults shelf.old }
    ensures too_long_given { IsErrOf result ReadError.TooLong →
        S.given shelf.new ≡ given_more (S.given shelf.old) (LONGEST_TEXT + 1) }

    ensures fault { IsErrOf result ReadError.Fault →
        ReadFails (S.held shelf.old) name.now (S.faults shelf.old) (S.faults shelf.new) }
    ensures fault_given { IsErrOf result ReadError.Fault →
        S.given shelf.new ≤ S.given shelf.old + LONGEST_TEXT }

    // Want of memory comes only behind bytes that were given, of a held name, without a fault.
    ensures no_memory { IsErrOf result ReadError.NoMemory →
        HoldsMore (S.held shelf.old) name.now 0 }
    ensures no_memory_no_fault { IsErrOf result ReadError.NoMemory →
        S.faults shelf.new ≡ S.faults shelf.old }
    ensures no_memory_behind { IsErrOf result ReadError.NoMemory →
        Rose (S.given shelf.old) (S.given shelf.new) }
    ensures no_memory_given { IsErrOf result ReadError.NoMemory →
        S.given shelf.new ≤ S.given shelf.old + LONGEST_TEXT }

    // Where the name is held and no fault came, the answer is `Ok`, `TooLong` or `NoMemory`.
    ensures complete { HoldsName (S.held shelf.old) name.now →
        ¬ Rose (S.faults shelf.old) (S.faults shelf.new) → ¬ IsErrOf result ReadError.Fault }

    // Never more than one byte above the longest text is read.
    ensures no_further { S.given shelf.new ≤ S.given shelf.old + (LONGEST_TEXT + 1) }
{
    let mut bytes = Vec::new(alloc);
    let mut buffer = [0; PIECE];
    'pieces: loop {
        let left = LONGEST_TEXT - bytes.len();
        let piece = &mut buffer[..PIECE.min(left + 1)];
        let Ok(count) = shelf.read(name, bytes.len() as u64, piece) else {
            return Err(ReadError::Fault);
        };
        if count == 0 {
            return Ok(bytes);
        }
        if count > left {
            return Err(ReadError::TooLong);
        }
        if bytes.extend_from_slice(&piece[..count]).is_err() {
            return Err(ReadError::NoMemory);
        }
    }
}

/// Writes all the bytes. The first write that fails ends the call, and a prefix was taken.
pub fn write_all<W: Sink>(sink: &mut W, bytes: &[u8]) -> Result<(), WriteFault>
    ensures never_falls { W.faults sink.old ≤ W.faults sink.new }

    ensures all { OnOk result (W.taken sink.new ≡ added (W.taken sink.old) bytes.now) }
    ensures no_fault { OnOk result (W.faults sink.new ≡ W.faults sink.old) }

    ensures rose { OnErr result (Rose (W.faults sink.old) (W.faults sink.new)) }
    ensures prefix { OnErr result (HasPrefix (W.taken sink.old) (W.taken sink.new) bytes.now) }
{
    let mut done = 0;
    while done < bytes.len() {
        match sink.write(&bytes[done..]) {
            Ok(count) => done += count,
            Err(_) => return Err(WriteFault),
        }
    }
    Ok(())
}
