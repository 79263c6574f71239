// The four kinds of message, and what their fields may hold. Kinds, sides and states are told by letters, and matched as
// letters: a rule of the project.
ghost use Rattle.std.specs.Prelude.{◌≡◌};
ghost use Rattle.fault.specs.declared.Fault.TheVariants.{FieldNotAllowed};
ghost use Rattle.wire.specs.Fields.{or_not_allowed, side_of, state_of, units_of, cents_of, terms_of};

use fault::Fault;
use std::error::Error;
use std::fmt;

// T: a second of the day begins.
#[derive(Clone, Copy, PartialEq, Eq, Debug)]
pub struct Second {
    pub second: u32,
}

#[derive(Clone, Copy, PartialEq, Eq, Debug)]
pub enum State {
    Halted,
    Trading,
}

// H: the trading state of a stock.
#[derive(Clone, Copy, PartialEq, Eq, Debug)]
pub struct TradingAction<'a> {
    pub stock: &'a [u8],
    pub state: State,
}

#[derive(Clone, Copy)]
pub(crate) enum Side {
    Buy,
    Sell,
}

// What an order is, with its price in whole cents.
#[derive(Clone, Copy, PartialEq, Eq, Debug)]
pub enum Terms {
    // pays its limit or less
    Bid { limit: u32 },
    // takes its limit or more; without one, any price
    Sale { limit: Option<u32> },
}

// O: a bid, or the issuer's sale.
#[derive(Clone, Copy, PartialEq, Eq, Debug)]
pub struct Order<'a> {
    pub token: &'a [u8],
    pub terms: Terms,
    pub units: u32,
    pub stock: &'a [u8],
    pub firm: &'a [u8],
}

// X: takes back the order with the token, or reduces the sale to the units wanted.
#[derive(Clone, Copy, PartialEq, Eq, Debug)]
pub struct Cancel<'a> {
    pub token: &'a [u8],
    pub units: u32,
}

// A message read: its token, stock and firm are parts of the bytes that it was read from.
#[derive(Clone, Copy, PartialEq, Eq, Debug)]
pub enum Message<'a> {
    Second(Second),
    TradingAction(TradingAction<'a>),
    Order(Order<'a>),
    Cancel(Cancel<'a>),
}

// A value that a field may not have.
#[derive(Clone, Copy, PartialEq, Eq, Debug)]
pub struct NotAllowed;

impl NotAllowed {
    // The refusal of a field at that offset.
    pub(crate) fn at(self, offset: usize) -> Fault
        ensures { result ≡ FieldNotAllowed offset }
    {
        Fault::FieldNotAllowed { offset }
    }
}

impl fmt::Display for NotAllowed {
    ghost use Rattle.std.specs.Prelude.{Some, codes};

    ghost output = { λ _. Some (codes "a value that the field may not have") };

    fn fmt<W: fmt::Write>(&self, f: &mut fmt::Formatter<W>) -> fmt::Result {
        f.write_str("a value that the field may not have")
    }
}

impl Error for NotAllowed {}

// The price field of a sale that has no limit.
const NO_LIMIT: u32 = 0x7FFF_FFFF;

impl TryFrom<u8> for State {
    type Error = NotAllowed;

    ghost try_from_gives = { λ byte r. r ≡ or_not_allowed (state_of byte) };

    fn try_from(byte: u8) -> Result<State, NotAllowed> {
        match char::from(byte) {
            'H' | 'P' | 'Q' => Ok(State::Halted),
            'T' => Ok(State::Trading),
            _ => Err(NotAllowed),
        }
    }
}

impl TryFrom<u8> for Side {
    type Error = NotAllowed;

    ghost try_from_gives = { λ byte r. r ≡ or_not_allowed (side_of byte) };

    fn try_from(byte: u8) -> Result<Side, NotAllowed> {
        match char::from(byte) {
            'B' => Ok(Side::Buy),
            'S' => Ok(Side::Sell),
            _ => Err(NotAllowed),
        }
    }
}

// The units of an order. Units are a plain number, so this is a check and no conversion.
pub(crate) fn allowed_units(field: u32) -> Result<u32, NotAllowed>
    ensures { result ≡ or_not_allowed (units_of field) }
{
    match field {
        1..=999_999 => Ok(field),
        _ => Err(NotAllowed),
    }
}

// A price field in whole cents. Both are plain numbers, so there is no type to convert to.
fn cents(field: u32) -> Result<u32, NotAllowed>
    ensures { result ≡ or_not_allowed (cents_of field) }
{
    match field {
        100..=1_999_999_900 if field % 100 == 0 => Ok(field / 100),
        _ => Err(NotAllowed),
    }
}

impl Terms {
    // By the side and the price field. Two values, so no conversion of one.
    pub(crate) fn read(side: Side, field: u32) -> Result<Terms, NotAllowed>
        ensures { result ≡ or_not_allowed (terms_of side field) }
    {
        match (side, field) {
            (Side::Sell, NO_LIMIT) => Ok(Terms::Sale { limit: None }),
            (Side::Sell, _) => Ok(Terms::Sale {
                limit: Some(cents(field)?),
            }),
            (Side::Buy, _) => Ok(Terms::Bid {
                limit: cents(field)?,
            }),
        }
    }
}
