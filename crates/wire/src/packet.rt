// Packets, and the blocks in them.
ghost use Rattle.std.specs.Prelude.{◌≡◌, ℕ, ◌+◌, ◌-◌, ◌≤◌, length, IfOk, Some as Just, None as Nothing, MatchResult};
ghost use Rattle.wire.specs.Bytes.{value};
ghost use Rattle.wire.specs.Packets.{carried, first_of, blocks_of, block_at, block_fault, first_fault, packet_fault, packet_of, followed_by, curable, Lasts};
ghost use Rattle.std.specs.Iterator.{at_most};

use crate::bytes::bytes_at;
use fault::Fault;

// The bytes of a packet before its blocks.
const HEADER: usize = 20;

// No block ends past this offset.
const LIMIT: usize = 1472;

// With so many bytes at hand, what is read at their front does not change with the bytes that follow: a block's length
// field begins at the limit at the latest.
pub const LOOKAHEAD: usize = LIMIT + 2;

// The count that ends a session; it carries no blocks.
const END_OF_SESSION: u16 = 65_535;

// What a packet is sent for, told by its count.
#[derive(Clone, Copy, PartialEq, Eq, Debug)]
pub enum Purpose {
    // to show that the sender is there
    Heartbeat,
    // to bring messages
    Messages,
    // to tell that no more messages come
    EndOfSession,
}

// A message in a packet, with its number.
#[derive(Clone, Copy, PartialEq, Eq, Debug)]
pub struct Block<'a> {
    pub number: u64,
    pub bytes: &'a [u8],
}

// One packet, at the front of the bytes. Nothing is wrong with it.
#[derive(Clone, Copy)]
pub struct Packet<'a> {
    bytes: &'a [u8],
    ghost whole: { packet_fault bytes.now ≡ Nothing },
}

// A walk over the blocks of a packet: the next one is at the offset `at` and has the number `number`, if any is left. An
// offset and no shorter slice, since offsets count from the packet's front, as in `block_at`.
#[derive(Drop)]
pub struct Blocks<'a> {
    packet: Packet<'a>,
    at: usize,
    number: u64,
    left: u16,
    ghost few: { left ≤ blocks_of packet.bytes.now },
    ghost here: { at ≡ block_at packet.bytes.now (blocks_of packet.bytes.now - left) },
    ghost counted: { number ≡ first_of packet.bytes.now + (blocks_of packet.bytes.now - left) },
}

// Whether the bytes that follow may cure the fault of a packet.
pub fn needs_more(fault: Fault) -> bool
    ensures { result ≡ curable fault }
{
    matches!(
        fault,
        Fault::ShortPacket { .. } | Fault::BlockPastEnd { .. }
    )
}

// How many blocks a count stands for.
fn blocks_carried(count: u16) -> u16
    ensures { result ≡ carried count }
{
    match count {
        END_OF_SESSION => 0,
        n => n,
    }
}

// Where the block ends whose length field is at `at`. The faults and the limit count from the packet's front, so an offset
// goes with the bytes. It may be any number, so the sums may pass 64 bits.
fn block_end(bytes: &[u8], at: usize) -> Result<usize, Fault>
    ensures { MatchResult result (λ e. (block_fault bytes.now at ≡ Nothing) × (e ≡ at + 2 + value at 2 bytes.now) × (e ≤ 1472) × (e ≤ length bytes.now)) (λ f. block_fault bytes.now at ≡ Just f) }
{
    let body = match at.checked_add(2) {
        Some(body) if body <= bytes.len() => body,
        _ => return Err(Fault::BlockPastEnd { offset: at }),
    };
    let end = body.saturating_add(usize::from(u16::from_be_bytes(bytes_at(bytes, at))));
    if end > LIMIT {
        return Err(Fault::BlockPastLimit { offset: at });
    }
    if end > bytes.len() {
        return Err(Fault::BlockPastEnd { offset: at });
    }
    Ok(end)
}

// Where the first n blocks end.
fn blocks_end(bytes: &[u8], n: u16) -> Result<usize, Fault>
    ensures { MatchResult result (λ e. (first_fault bytes.now n ≡ Nothing) × (e ≡ block_at bytes.now n) × (20 ≤ length bytes.now → e ≤ length bytes.now)) (λ f. first_fault bytes.now n ≡ Just f) }
{
    let mut at = HEADER;
    for _i in 0..n {
        at = block_end(bytes, at)?;
    }
    Ok(at)
}

impl<'a> Iterator for Blocks<'a> {
    ghost use Rattle.wire.specs.Blocks.{Step};

    type Item = Block<'a>;

    ghost next_gives = { Step };

    ghost remaining = { λ w. at_most w.left };

    #[tactic(auto, using(crate::proofs::Walks::next_within))]
    fn next(&mut self) -> Option<Block<'a>> {
        if self.left == 0 {
            return None;
        }
        let Blocks {
            packet,
            at,
            number,
            left,
        } = *self;
        let start = at + 2;
        let end = start + usize::from(u16::from_be_bytes(bytes_at(packet.bytes, at)));
        *self = Blocks {
            packet,
            at: end,
            number: number + 1,
            left: left - 1,
        };
        Some(Block {
            number,
            bytes: &packet.bytes[start..end],
        })
    }
}

impl<'a> Packet<'a> {
    ghost use Rattle.std.specs.Prelude.{List, ◌++◌};
    ghost use Rattle.wire.specs.Blocks.{contents, taken, to_come, purpose_of, block_of, found};
    ghost use Rattle.wire.specs.Written.{Exactly};

    // The packet at the front of the bytes, and the rest.
    fn front(bytes: &'a [u8]) -> Result<(Packet<'a>, &'a [u8]), Fault>
        ensures answer { taken contents (λ rest. rest.now) result ≡ packet_of bytes.now }
        ensures shorter { IfOk result (λ t. length t.1.now + 20 ≤ length bytes.now) }
    {
        if bytes.len() < HEADER {
            return Err(Fault::ShortPacket {
                length: bytes.len(),
            });
        }
        let first = u64::from_be_bytes(bytes_at(bytes, 10));
        let blocks = blocks_carried(u16::from_be_bytes(bytes_at(bytes, 18)));
        if first > u64::MAX - u64::from(blocks) {
            return Err(Fault::NumberTooLarge { first });
        }
        let end = blocks_end(bytes, blocks)?;
        Ok((Packet { bytes }, &bytes[end..]))
    }

    // Takes one packet from the front of the bytes, and hands back the rest.
    pub fn read(bytes: &'a [u8]) -> Result<(Packet<'a>, &'a [u8]), Fault>
        ensures answer { taken contents (λ rest. rest.now) result ≡ packet_of bytes.now }
        ensures lasting { (more : List ℕ) → Lasts (packet_of bytes.now) → packet_of (bytes.now ++ more) ≡ followed_by more (packet_of bytes.now) }
        ensures enough { 1474 ≤ length bytes.now → Lasts (packet_of bytes.now) }
        ensures exactly { Exactly bytes.now (taken contents (λ rest. rest.now) result) }
        ensures shorter { IfOk result (λ t. length t.1.now + 20 ≤ length bytes.now) }
    {
        Packet::front(bytes)
    }

    pub fn session(&self) -> &'a [u8]
        ensures { result.now ≡ (contents self.now).session }
    {
        &self.bytes[0..10]
    }

    // The number of the first message.
    pub fn first(&self) -> u64
        ensures { result ≡ (contents self.now).first }
    {
        u64::from_be_bytes(bytes_at(self.bytes, 10))
    }

    // The count as it stands in the packet.
    pub fn count(&self) -> u16
        ensures { result ≡ (contents self.now).count }
    {
        u16::from_be_bytes(bytes_at(self.bytes, 18))
    }

    pub fn purpose(&self) -> Purpose
        ensures { result ≡ purpose_of (contents self.now).count }
    {
        match self.count() {
            0 => Purpose::Heartbeat,
            END_OF_SESSION => Purpose::EndOfSession,
            _ => Purpose::Messages,
        }
    }

    // The messages in order, in one pass.
    pub fn blocks(&self) -> Blocks<'a>
        ensures { to_come result ≡ (contents self.now).messages }
    {
        Blocks {
            packet: *self,
            at: HEADER,
            number: self.first(),
            left: blocks_carried(self.count()),
        }
    }

    // The message in block k, from 0.
    pub fn block(&self, k: u16) -> Result<Block<'a>, Fault>
        ensures { found result ≡ block_of (contents self.now).messages k }
    {
        let blocks = blocks_carried(self.count());
        self.blocks()
            .nth(usize::from(k))
            .ok_or(Fault::NoSuchBlock { blocks })
    }
}
