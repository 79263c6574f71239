// The bytes that were read and not yet taken.
ghost use Rattle.std.specs.Prelude.{◌≡◌, ◌+◌, ◌<◌, ◌≤◌, [], length, drop, IfOk, vec_len};
ghost use Rattle.feed.specs.Windows.{Extended};

use std::alloc::{AllocError, Global};
use std::io;
use std::io::Read;
use std::marker::Model;
use wire::packet::LOOKAHEAD;

// How many bytes are asked of the input at a time.
const CHUNK: usize = 8192;

// They are the bytes from `start` on; those before it were taken. Never more than 1,473 + 8,192 are held. An offset, since
// to take bytes from a vector's front at once moves all that follow, for every packet.
#[derive(Drop)]
pub(crate) struct Pending {
    bytes: Vec<u8>,
    start: usize,
}

impl Model for Pending {
    ghost use Rattle.std.specs.Prelude.{ℕ, ◌≤◌, List, drop, vec_len};

    ghost Value = { List ℕ };

    ghost view = { λ p. drop p.start p.bytes.items };

    ghost invariant = { λ p. (p.start ≤ vec_len p.bytes) × (vec_len p.bytes ≤ 9665) };
}

impl Pending {
    pub(crate) fn new(heap: Global) -> Result<Pending, AllocError>
        ensures { IfOk result (λ p. p ≡ []) }
    {
        Ok(Pending {
            bytes: Vec::with_capacity(heap, LOOKAHEAD + CHUNK)?,
            start: 0,
        })
    }

    pub(crate) fn bytes(&self) -> &[u8]
        ensures value { result.now ≡ self.now }
        ensures few { length result.now ≤ 9665 }
    {
        &self.bytes[self.start..]
    }

    // Takes n bytes from the front, or all where there are fewer.
    pub(crate) fn advance(&mut self, n: usize)
        ensures { self.new ≡ drop n self.old }
    {
        self.start += self.bytes().len().min(n);
    }

    // Adds what one call of the input gives, and answers how many bytes that were: 0 at its end.
    pub(crate) fn read_more<R: Read>(&mut self, input: &mut R) -> io::Result<usize>
        requires { length self.old < 1474 }
        ensures kept { Extended self.old self.new }
        ensures more { IfOk result (λ n. length self.new ≡ length self.old + n) }
        ensures few { length self.new ≤ 9665 }
    {
        drop_first(&mut self.bytes, self.start);
        self.start = 0;
        // No call of std makes one read into a vector's spare room, so the bytes come by way of an array.
        let mut chunk = [0; CHUNK];
        let n = input.read(&mut chunk)?;
        self.bytes.extend_from_slice(&chunk[..n])?;
        Ok(n)
    }
}

// Takes n bytes from the front. `drain` would first turn the whole buffer round. For 0 nothing is moved: an input that gives
// little at a time comes here often.
fn drop_first(bytes: &mut Vec<u8>, n: usize)
    requires { n ≤ vec_len bytes.old }
    ensures { bytes.new.items ≡ drop n bytes.old.items }
{
    if n > 0 {
        let left = bytes.len() - n;
        bytes.copy_within(n.., 0);
        bytes.truncate(left);
    }
}
