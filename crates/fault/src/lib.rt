// Why something is sent back: a cause for each refusal of the box, with its number, its layer and what stands beside it.
#![tactic(auto)]

ghost use Rattle.std.specs.Prelude.{◌≡◌};
ghost use Rattle.fault.specs.Causes.{cause_of, name_of, words_of};

use std::error::Error;
use std::fmt;

// Where a refusal arose.
#[derive(Clone, Copy, PartialEq, Eq, Debug)]
pub enum Layer {
    Packet,
    Message,
    Book,
    Day,
}

impl Layer {
    pub fn name(self) -> &'static str
        ensures { result.now ≡ name_of self }
    {
        match self {
            Layer::Packet => "packet",
            Layer::Message => "message",
            Layer::Book => "book",
            Layer::Day => "day",
        }
    }
}

impl fmt::Display for Layer {
    ghost use Rattle.std.specs.Prelude.{Some};

    ghost output = { λ l. Some (name_of l) };

    fn fmt<W: fmt::Write>(&self, f: &mut fmt::Formatter<W>) -> fmt::Result {
        f.write_str(self.name())
    }
}

// A refusal, carrying what stands beside its cause. `number` is the message's number unless a comment says otherwise.
#[derive(Clone, Copy, PartialEq, Eq, Debug)]
pub enum Fault {
    ShortPacket { length: usize },
    // offset of the block's length field
    BlockPastEnd { offset: usize },
    // offset of the block's length field
    BlockPastLimit { offset: usize },
    NumberTooLarge { first: u64 },
    NoSuchBlock { blocks: u16 },
    // the stage's number, 0 to 3. The stages are those of the day, above this crate; an enum would take fewer values
    NotRunning { stage: u8 },
    NotNext { next: u64 },
    Malformed { number: u64 },
    // offset of the first field that is not allowed
    FieldNotAllowed { offset: usize },
    OtherStock { number: u64 },
    WrongSecond { clock: u32 },
    OutsideHours { clock: u32 },
    TokenInUse { number: u64 },
    NotTheIssuer { number: u64 },
    SaleStands { number: u64 },
    AboveTop { top: u32 },
    BookFull { capacity: usize },
    NotAboveLast { last: u64 },
    // the message's number, or the number asked for
    NotFound { number: u64 },
    NotReduced { number: u64 },
    ValueOutOfRange { value: u64 },
    BookUnfit { count: usize },
    // the stage's number, as above
    WrongStage { stage: u8 },
    TooFewPlaces { live: usize },
}

impl Fault {
    // The number of the cause, 1 to 24.
    pub fn number(self) -> u8
        ensures { result ≡ (cause_of self).number }
    {
        match self {
            Fault::ShortPacket { .. } => 1,
            Fault::BlockPastEnd { .. } => 2,
            Fault::BlockPastLimit { .. } => 3,
            Fault::NumberTooLarge { .. } => 4,
            Fault::NoSuchBlock { .. } => 5,
            Fault::NotRunning { .. } => 6,
            Fault::NotNext { .. } => 7,
            Fault::Malformed { .. } => 8,
            Fault::FieldNotAllowed { .. } => 9,
            Fault::OtherStock { .. } => 10,
            Fault::WrongSecond { .. } => 11,
            Fault::OutsideHours { .. } => 12,
            Fault::TokenInUse { .. } => 13,
            Fault::NotTheIssuer { .. } => 14,
            Fault::SaleStands { .. } => 15,
            Fault::AboveTop { .. } => 16,
            Fault::BookFull { .. } => 17,
            Fault::NotAboveLast { .. } => 18,
            Fault::NotFound { .. } => 19,
            Fault::NotReduced { .. } => 20,
            Fault::ValueOutOfRange { .. } => 21,
            Fault::BookUnfit { .. } => 22,
            Fault::WrongStage { .. } => 23,
            Fault::TooFewPlaces { .. } => 24,
        }
    }

    pub fn layer(self) -> Layer
        ensures { result ≡ (cause_of self).layer }
    {
        match self {
            Fault::ShortPacket { .. }
            | Fault::BlockPastEnd { .. }
            | Fault::BlockPastLimit { .. }
            | Fault::NumberTooLarge { .. }
            | Fault::NoSuchBlock { .. } => Layer::Packet,
            Fault::Malformed { .. } | Fault::FieldNotAllowed { .. } => Layer::Message,
            Fault::AboveTop { .. }
            | Fault::BookFull { .. }
            | Fault::NotAboveLast { .. }
            | Fault::NotFound { .. } => Layer::Book,
            _ => Layer::Day,
        }
    }

    // What stands beside the cause.
    pub fn beside(self) -> u64
        ensures { result ≡ (cause_of self).beside }
    {
        match self {
            Fault::ShortPacket { length: n }
            | Fault::BlockPastEnd { offset: n }
            | Fault::BlockPastLimit { offset: n }
            | Fault::FieldNotAllowed { offset: n }
            | Fault::BookFull { capacity: n }
            | Fault::BookUnfit { count: n }
            | Fault::TooFewPlaces { live: n } => n as u64,
            Fault::NoSuchBlock { blocks } => u64::from(blocks),
            Fault::NotRunning { stage } | Fault::WrongStage { stage } => u64::from(stage),
            Fault::WrongSecond { clock: n }
            | Fault::OutsideHours { clock: n }
            | Fault::AboveTop { top: n } => u64::from(n),
            Fault::NumberTooLarge { first: n }
            | Fault::NotNext { next: n }
            | Fault::Malformed { number: n }
            | Fault::OtherStock { number: n }
            | Fault::TokenInUse { number: n }
            | Fault::NotTheIssuer { number: n }
            | Fault::SaleStands { number: n }
            | Fault::NotAboveLast { last: n }
            | Fault::NotFound { number: n }
            | Fault::NotReduced { number: n }
            | Fault::ValueOutOfRange { value: n } => n,
        }
    }

    // The cause in words.
    pub fn words(self) -> &'static str
        ensures { result.now ≡ words_of self }
    {
        match self {
            Fault::ShortPacket { .. } => "packet under 20 bytes",
            Fault::BlockPastEnd { .. } => "block passes the end of the bytes",
            Fault::BlockPastLimit { .. } => "block ends past byte 1472",
            Fault::NumberTooLarge { .. } => "first number plus blocks above 2^64 - 1",
            Fault::NoSuchBlock { .. } => "no such block",
            Fault::NotRunning { .. } => "day not running",
            Fault::NotNext { .. } => "number not the next, or 2^64 - 1",
            Fault::Malformed { .. } => "unknown kind or wrong length",
            Fault::FieldNotAllowed { .. } => "side, units, price or state not allowed",
            Fault::OtherStock { .. } => "other stock",
            Fault::WrongSecond { .. } => "second not the clock's plus 1",
            Fault::OutsideHours { .. } => "outside its hours",
            Fault::TokenInUse { .. } => "token of a live bid or the sale",
            Fault::NotTheIssuer { .. } => "sale not from the issuer's firm",
            Fault::SaleStands { .. } => "a sale stands",
            Fault::AboveTop { .. } => "limit above the top",
            Fault::BookFull { .. } => "book full",
            Fault::NotAboveLast { .. } => "number not above the book's last",
            Fault::NotFound { .. } => "no such token or number",
            Fault::NotReduced { .. } => "cancel above 0 on a bid, or sale not made smaller",
            Fault::ValueOutOfRange { .. } => "value 0 or above 20000000000000",
            Fault::BookUnfit { .. } => "book not empty, capacity 0 or above 4096, or top 0",
            Fault::WrongStage { .. } => "dealing when not due, or calling off when not called off",
            Fault::TooFewPlaces { .. } => "fewer places for fills than live bids",
        }
    }
}

// The cause's number, its layer, what stands beside it, and the cause in words.
impl fmt::Display for Fault {
    ghost use Rattle.std.specs.Prelude.{Some};
    ghost use Rattle.fault.specs.Causes.{text_of};

    ghost output = { λ f. Some (text_of f) };

    fn fmt<W: fmt::Write>(&self, f: &mut fmt::Formatter<W>) -> fmt::Result {
        let number = self.number();
        let layer = self.layer();
        let beside = self.beside();
        let words = self.words();
        write!(f, "{number} {layer} {beside}: {words}")
    }
}

impl Error for Fault {}
