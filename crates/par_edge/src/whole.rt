ghost use Rattle.std.specs.Prelude.{◌≡◌, ◌≤◌, ◌+◌, IfOk, IfErr, OnOk, OnErr};
ghost use Rattle.par_edge.specs.Count.{raised};
ghost use Rattle.par_edge.specs.Shelves.{IsLaterShelf, GivesWhole, StopsBecause};
ghost use Rattle.par_edge.specs.Sinks.{Appends, AppendsPart};

use crate::{Failed, Shelf, Sink};
use std::alloc::{AllocError, Global};
use std::error::Error;
use std::fmt;

/// How many bytes a whole read asks for at most at a time.
const PIECE: usize = 65_536;

/// Why a whole read stopped.
#[derive(Clone, Copy, Debug, PartialEq, Eq)]
pub enum ReadStop {
    /// A read failed.
    Failed,
    /// The file has more bytes than the limit.
    TooLong,
    /// Want of memory.
    Memory,
}

impl fmt::Display for ReadStop {
    ghost use Rattle.std.specs.Prelude.{Some};
    ghost use Rattle.par_edge.specs.Stops.{stop_text};

    ghost output = { λ stop. Some (stop_text stop) };

    fn fmt<W: fmt::Write>(&self, f: &mut fmt::Formatter<W>) -> fmt::Result {
        match self {
            ReadStop::Failed => write!(f, "read failed"),
            ReadStop::TooLong => write!(f, "file too long"),
            ReadStop::Memory => write!(f, "out of memory"),
        }
    }
}

impl Error for ReadStop {}

impl From<Failed> for ReadStop {
    ghost use Rattle.par_edge.specs.declared.whole.ReadStop.TheVariants.{Failed};

    ghost from_gives = { λ _ stop. stop ≡ Failed };

    fn from(_fault: Failed) -> ReadStop {
        ReadStop::Failed
    }
}

impl From<AllocError> for ReadStop {
    ghost use Rattle.par_edge.specs.declared.whole.ReadStop.TheVariants.{Memory};

    ghost from_gives = { λ _ stop. stop ≡ Memory };

    fn from(_refused: AllocError) -> ReadStop {
        ReadStop::Memory
    }
}

/// The bytes of the named file, if there are at most `limit`.
///
/// Asks for at most 65,536 bytes at a time, until a call gives none, and for `limit + 1` bytes in all.
/// Linear in the bytes read.
pub fn read_whole<H: Shelf>(
    alloc: Global,
    shelf: &mut H,
    name: &str,
    limit: u64,
) -> Result<Vec<u8>, ReadStop>
    ensures later { IsLaterShelf (H.state shelf.old) (H.state shelf.new) }
    ensures gives { IfOk result (λ v. GivesWhole (H.state shelf.old) (H.state shelf.new) name.now limit v.items) }
    ensures at_most { (H.state shelf.new).given ≤ raised (H.state shelf.old).given (limit + 1) }
    ensures stops { IfErr result (StopsBecause (H.state shelf.old) (H.state shelf.new) name.now limit) }
{
    let mut bytes = Vec::new(alloc);
    let mut buffer = [0u8; PIECE];
    while bytes.len() as u64 <= limit {
        let left = limit - bytes.len() as u64;
        let most = left.min(PIECE as u64 - 1) as usize + 1;
        let count = shelf.read(name, bytes.len() as u64, &mut buffer[..most])?;
        if count == 0 {
            return Ok(bytes);
        }
        bytes.extend_from_slice(&buffer[..count])?;
    }
    Err(ReadStop::TooLong)
}

/// Writes all of the bytes, in as many calls as the sink needs. Takes no memory.
///
/// Fails only where the sink's count of faults rose. The first of the bytes were appended then.
#[tactic(auto, using(crate::proofs::Writing::begun, crate::proofs::Writing::ends))]
pub fn write_whole<K: Sink>(sink: &mut K, bytes: &[u8]) -> Result<(), Failed>
    ensures all { OnOk result (Appends (K.state sink.old) (K.state sink.new) bytes.now) }
    ensures part { OnErr result (AppendsPart (K.state sink.old) (K.state sink.new) bytes.now) }
{
    let mut rest = bytes;
    while !rest.is_empty() {
        let count = sink.write(rest)?;
        rest = &rest[count..];
    }
    Ok(())
}
