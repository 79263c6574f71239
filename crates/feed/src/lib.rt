// A window on a stream of packets: it holds the bytes that were read and not yet taken, never the whole stream.
#![tactic(auto)]

ghost use Rattle.std.specs.Prelude.{◌≡◌, ◌<◌, ◌≤◌, true, false, [], length, drop, IfOk, MatchResult};

use fault::Fault;
use pending::Pending;
use std::alloc::{AllocError, Global};
use std::io;
use std::io::Read;
use wire::packet::{LOOKAHEAD, Packet, needs_more};

mod pending;

// Never more than 1,473 + 8,192 bytes are pending: the type says so. `ended` is set once the input has said that it ends.
#[derive(Drop)]
pub struct Window {
    pending: Pending,
    ended: bool,
    ghost few: { length pending ≤ 9665 },
}

// What stands at the front of a stream, where it is not refused.
#[derive(Clone, Copy)]
pub enum Front<'a> {
    // a packet, and how many bytes it has
    Whole { packet: Packet<'a>, size: usize },
    // too few bytes to tell
    Wanting,
    // nothing, and nothing follows
    Ended,
}

impl Window {
    ghost use Rattle.feed.specs.Windows.{pending_in, ended_in, Extended, seen, sight_of, Right};

    pub fn new(heap: Global) -> Result<Window, AllocError>
        ensures { IfOk result (λ w. (pending_in w ≡ []) × (ended_in w ≡ false)) }
    {
        Ok(Window {
            pending: Pending::new(heap)?,
            ended: false,
        })
    }

    // The bytes that were read and not yet taken.
    pub fn pending(&self) -> &[u8]
        ensures value { result.now ≡ pending_in self.now }
        ensures few { length result.now ≤ 9665 }
    {
        self.pending.bytes()
    }

    // What stands at the front of the stream. A fault is that of bytes that are no packet, whatever follows.
    pub fn front(&self) -> Result<Front<'_>, Fault>
        ensures answer { seen result ≡ sight_of (ended_in self.now) (pending_in self.now) }
        ensures right { Right (ended_in self.now) (pending_in self.now) (seen result) }
    {
        let pending = self.pending();
        if self.ended && pending.is_empty() {
            return Ok(Front::Ended);
        }
        match Packet::read(pending) {
            Ok((packet, rest)) => Ok(Front::Whole {
                packet,
                size: pending.len() - rest.len(),
            }),
            Err(fault) if needs_more(fault) && !self.ended => Ok(Front::Wanting),
            Err(fault) => Err(fault),
        }
    }

    // Takes n bytes from the front, or all where there are fewer.
    pub fn advance(&mut self, n: usize)
        ensures rest { pending_in self.new ≡ drop n (pending_in self.old) }
        ensures same { ended_in self.new ≡ ended_in self.old }
    {
        self.pending.advance(n);
    }

    // Reads what one call of the input gives, unless 1,474 bytes are pending or the input has ended. What was pending
    // stays in front.
    pub fn fill<R: Read>(&mut self, input: &mut R) -> io::Result<()>
        ensures kept { Extended (pending_in self.old) (pending_in self.new) }
        ensures more { MatchResult result (λ _. (ended_in self.new ≡ false → length (pending_in self.old) < 1474 → length (pending_in self.old) < length (pending_in self.new))) (λ _. ended_in self.new ≡ ended_in self.old) }
        ensures over { ended_in self.old ≡ true → ended_in self.new ≡ true }
        ensures ends { ended_in self.new ≡ true → pending_in self.new ≡ pending_in self.old }
        ensures full { 1474 ≤ length (pending_in self.old) → (ended_in self.new ≡ ended_in self.old) × (pending_in self.new ≡ pending_in self.old) }
    {
        if self.ended || self.pending().len() >= LOOKAHEAD {
            return Ok(());
        }
        let added = self.pending.read_more(input)?;
        self.ended = added == 0;
        Ok(())
    }
}
