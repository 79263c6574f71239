// Blocks asked for by their place, orders read at the edges of their fields, and letters of states.
use fault::Fault;
use std::test::Fail;
use wire::message::{Message, NotAllowed, State, Terms};
use wire::packet::{Block, Packet};

// session "SESSION001", first number 7, two blocks: one of one byte, an empty one
const TWO_BLOCKS: [u8; 25] = *b"SESSION001\0\0\0\0\0\0\0\x07\0\x02\0\x01T\0\0";

#[test]
fn blocks_by_place(rt: HostRuntime) -> Result<(), Fail> {
    let (packet, rest) = Packet::read(&TWO_BLOCKS)?;
    assert_eq!(rt; rest.len(), 0);
    let first = packet.block(0)?;
    assert_eq!(rt; first.number, 7);
    assert_eq!(rt; first.bytes, b"T".as_slice());
    let second = packet.block(1)?;
    assert_eq!(rt; second.number, 8);
    assert_eq!(rt; second.bytes.len(), 0);
    assert_eq!(rt;
        packet.block(2).err(),
        Some(Fault::NoSuchBlock { blocks: 2 })
    );
    Ok(())
}

// The terms of the order of 1 unit on that side at that price, or the refusal.
fn terms(side: u8, price: u32) -> Result<Terms, Fault> {
    let mut order = *b"OTOKEN-00000001?\0\0\0\x01EVIX    ????\0\0\0\0BRKA.........";
    order[15] = side;
    order[28..32].copy_from_slice(&price.to_be_bytes());
    let block = Block {
        number: 5,
        bytes: &order,
    };
    match block.message()? {
        Message::Order(o) => Ok(o.terms),
        _ => Err(Fault::Malformed { number: 0 }),
    }
}

#[test]
fn terms_at_the_edges(rt: HostRuntime) -> Result<(), Fail> {
    let refused = Fault::FieldNotAllowed { offset: 28 };
    assert_eq!(rt; terms(b'B', 100)?, Terms::Bid { limit: 1 });
    assert_eq!(rt;
        terms(b'B', 1_999_999_900)?,
        Terms::Bid { limit: 19_999_999 }
    );
    assert_eq!(rt; terms(b'S', 0x7FFF_FFFF)?, Terms::Sale { limit: None });
    assert_eq!(rt; terms(b'S', 115_000)?, Terms::Sale { limit: Some(1150) });
    assert_eq!(rt; terms(b'B', 0x7FFF_FFFF).err(), Some(refused));
    assert_eq!(rt; terms(b'B', 2_000_000_000).err(), Some(refused));
    assert_eq!(rt; terms(b'S', 101).err(), Some(refused));
    assert_eq!(rt;
        terms(b'b', 0).err(),
        Some(Fault::FieldNotAllowed { offset: 15 })
    );
    Ok(())
}

#[test]
fn letters_of_states(rt: HostRuntime) -> Result<(), Fail> {
    for letter in [b'H', b'P', b'Q'] {
        assert_eq!(rt; State::try_from(letter), Ok(State::Halted));
    }
    assert_eq!(rt; State::try_from(b'T'), Ok(State::Trading));
    assert_eq!(rt; State::try_from(b't'), Err(NotAllowed));
    let text = format!(in rt.alloc(); "{NotAllowed}")?;
    assert_eq!(rt; text.as_str(), "a value that the field may not have");
    Ok(())
}
