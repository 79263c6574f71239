// Every cause, with its number, its layer and what stands beside it; and how a fault is shown.
use fault::{Fault, Layer};
use std::test::Fail;

#[test]
fn numbered_from_1_to_24(rt: HostRuntime) {
    let faults = [
        Fault::ShortPacket { length: 1 },
        Fault::BlockPastEnd { offset: 2 },
        Fault::BlockPastLimit { offset: 3 },
        Fault::NumberTooLarge { first: 4 },
        Fault::NoSuchBlock { blocks: 5 },
        Fault::NotRunning { stage: 6 },
        Fault::NotNext { next: 7 },
        Fault::Malformed { number: 8 },
        Fault::FieldNotAllowed { offset: 9 },
        Fault::OtherStock { number: 10 },
        Fault::WrongSecond { clock: 11 },
        Fault::OutsideHours { clock: 12 },
        Fault::TokenInUse { number: 13 },
        Fault::NotTheIssuer { number: 14 },
        Fault::SaleStands { number: 15 },
        Fault::AboveTop { top: 16 },
        Fault::BookFull { capacity: 17 },
        Fault::NotAboveLast { last: 18 },
        Fault::NotFound { number: 19 },
        Fault::NotReduced { number: 20 },
        Fault::ValueOutOfRange { value: 21 },
        Fault::BookUnfit { count: 22 },
        Fault::WrongStage { stage: 23 },
        Fault::TooFewPlaces { live: 24 },
    ];
    assert_eq!(rt; faults.len(), 24);
    for (fault, place) in faults.into_iter().zip(1..25) {
        assert_eq!(rt; fault.number(), place);
        assert_eq!(rt; fault.beside(), u64::from(place));
        let layer = match place {
            1..=5 => Layer::Packet,
            8 | 9 => Layer::Message,
            16..=19 => Layer::Book,
            _ => Layer::Day,
        };
        assert_eq!(rt; fault.layer(), layer);
    }
}

#[test]
fn shown_on_one_line(rt: HostRuntime) -> Result<(), Fail> {
    let fault = Fault::BookFull { capacity: 1024 };
    let text = format!(in rt.alloc(); "{fault}")?;
    assert_eq!(rt; text.as_str(), "17 book 1024: book full");
    Ok(())
}
