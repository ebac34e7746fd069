ghost use Rattle.std.specs.Prelude.{◌≡◌, ◌≤◌, ◌-◌, ◌↔◌, IfOk, IfSome, IsErr, OnErr, length, map, min, take, drop, option_copied, encode_utf8_all};
ghost use Rattle.par_edge.specs.Files.{file_of};
ghost use Rattle.par_edge.specs.Memory.{ReadFails, given_size, after_read, shelf_state};
ghost use Rattle.par_edge.specs.Shelves.{Gives, FailsToRead, IsLaterShelf};

use crate::calls::fails_next;
use crate::{Failed, Shelf};
use par_laws::Words;
use std::marker::Model;

/// A file in memory.
#[derive(Debug, Drop)]
pub struct Named {
    pub name: Words,
    pub bytes: Vec<u8>,
}

/// Files in memory, of which chosen reads fail.
///
/// It holds the first of the entries with one name, and gives at most `piece` bytes a call.
/// Call i, from 1, fails exactly where i is in the list or the name is not held.
#[derive(Drop)]
pub struct MemoryShelf {
    files: Vec<Named>,
    piece: u32,
    failing: Vec<u64>,
    calls: u64,
    faults: u64,
    given: u64,
}

impl Model for MemoryShelf {
    ghost use Rattle.std.specs.Prelude.{◌≤◌, map, encode_utf8_all};
    ghost use Rattle.par_edge.specs.Memory.{FilesInMemory};

    ghost Value = { FilesInMemory };

    ghost view = { λ s. record {
      files = map (λ f. record { name = encode_utf8_all f.name; bytes = f.bytes.items }) s.files.items;
      piece = s.piece;
      failing = s.failing.items;
      calls = s.calls;
      faults = s.faults;
      given = s.given;
    } };

    ghost invariant = { λ s. 1 ≤ s.piece };
}

impl MemoryShelf {
    /// A shelf that was not read yet. Takes no memory.
    pub fn new(files: Vec<Named>, piece: u32, failing: Vec<u64>) -> MemoryShelf
        requires { 1 ≤ piece }
        ensures { result ≡ record {
          files = map (λ f. record { name = encode_utf8_all f.name; bytes = f.bytes.items }) files.items;
          piece = piece;
          failing = failing.items;
          calls = 0;
          faults = 0;
          given = 0;
        } }
    {
        MemoryShelf {
            files,
            piece,
            failing,
            calls: 0,
            faults: 0,
            given: 0,
        }
    }
}

impl Shelf for MemoryShelf {
    ghost use Rattle.par_edge.specs.Memory.{shelf_state};

    ghost state = { shelf_state };

    fn read(&mut self, name: &str, from: u64, buf: &mut [u8]) -> Result<usize, Failed>
        ensures later { IsLaterShelf (shelf_state self.old) (shelf_state self.new) }
        ensures gives { IfOk result (λ count. Gives (shelf_state self.old) (shelf_state self.new) name.now from count buf.new) }
        ensures fails { OnErr result (FailsToRead (shelf_state self.old) (shelf_state self.new)) }

        // Of a shelf in memory more is known: when a read fails, how much it gives, and what it counts.
        ensures exactly { IsErr result ↔ ReadFails self.old name.now }
        ensures size { IfOk result (λ count. IfSome (file_of self.old.files name.now) (λ file. count ≡ given_size self.old file from (length buf.old))) }
        ensures after { self.new ≡ after_read self.old result }
    {
        let failing = fails_next(&self.failing, self.calls);
        self.calls = self.calls.saturating_add(1);
        match find(&self.files, name) {
            Some(file) if !failing => {
                let count = copy_part(file, from, self.piece as usize, buf);
                self.given = self.given.saturating_add(count as u64);
                Ok(count)
            }
            _ => {
                self.faults = self.faults.saturating_add(1);
                Err(Failed)
            }
        }
    }
}

/// The bytes of the first file with this name.
#[tactic(auto, unfolding(crate::specs::Files::file_of))]
fn find<'a>(files: &'a [Named], name: &str) -> Option<&'a [u8]>
    ensures { option_copied result ≡ file_of (map (λ f. record { name = encode_utf8_all f.name; bytes = f.bytes.items }) files.now) name.now }
{
    for file in files {
        if file.name.as_str() == name {
            return Some(&file.bytes);
        }
    }
    None
}

/// Copies the part of the file from byte `from` on to the front of `buf`, at most `most` bytes, and
/// answers how many.
fn copy_part(file: &[u8], from: u64, most: usize, buf: &mut [u8]) -> usize
    ensures size { result ≡ min (length file.now - from) (min (length buf.old) most) }
    ensures bytes { take result buf.new ≡ take result (drop from file.now) }
{
    let start = from.min(file.len() as u64) as usize;
    let rest = &file[start..];
    let count = rest.len().min(buf.len()).min(most);
    buf[..count].copy_from_slice(&rest[..count]);
    count
}
