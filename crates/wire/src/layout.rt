// The layouts of the four kinds of message.
ghost use Rattle.std.specs.Prelude.{◌≡◌, ℕ, ◌+◌, ◌<◌, ◌≤◌, List, length, Result as Answer};
ghost use Rattle.fault.specs.declared.Fault.{Fault as Refusal};
ghost use Rattle.std.proofs.Common.{rules};
ghost use Rattle.wire.specs.Messages.{Meaning, meant, of_kind, second_of, action_of, order_of, cancel_of, by_second, by_action, by_order, by_cancel};

use crate::bytes::bytes_at;
use crate::message::{Cancel, Order, Second, Side, State, Terms, TradingAction, allowed_units};
use crate::packet::Block;
use fault::Fault;

// The kind letter and the length of a layout.
pub(crate) trait Shape {
    ghost KIND: { ℕ };

    const KIND: char;

    ghost LENGTH: { ℕ };

    const LENGTH: usize;
}

// A layout has a kind letter and a length of its own, and a view of the fields that borrows the bytes. The constants stand
// in a trait of their own: beside a view that names a lifetime the check does not take them.
pub(crate) trait Layout<'a>: Shape {
    type View;

    ghost meaning: { List ℕ → Answer Meaning Refusal };

    ghost means: { Self.View → Meaning };

    fn view(bytes: &'a [u8]) -> Result<Self::View, Fault>
        requires { length bytes.now ≡ Self.LENGTH }
        ensures { meant means result ≡ meaning bytes.now };

    // A message has a first byte.
    ghost some: { 0 < Self.LENGTH };
}

pub(crate) struct SecondLayout;

impl Shape for SecondLayout {
    ghost KIND = { 84 };

    const KIND: char = 'T';

    ghost LENGTH = { 5 };

    const LENGTH: usize = 5;
}

impl<'a> Layout<'a> for SecondLayout {
    type View = Second;

    ghost meaning = { second_of };

    ghost means = { by_second };

    ghost some = { Prim.search rules };

    fn view(bytes: &'a [u8]) -> Result<Second, Fault> {
        Ok(Second {
            second: u32::from_be_bytes(bytes_at(bytes, 1)),
        })
    }
}

pub(crate) struct ActionLayout;

impl Shape for ActionLayout {
    ghost KIND = { 72 };

    const KIND: char = 'H';

    ghost LENGTH = { 19 };

    const LENGTH: usize = 19;
}

impl<'a> Layout<'a> for ActionLayout {
    type View = TradingAction<'a>;

    ghost meaning = { action_of };

    ghost means = { by_action };

    ghost some = { Prim.search rules };

    fn view(bytes: &'a [u8]) -> Result<TradingAction<'a>, Fault> {
        Ok(TradingAction {
            stock: &bytes[5..13],
            state: State::try_from(bytes[13]).map_err(|refused| refused.at(13))?,
        })
    }
}

pub(crate) struct OrderLayout;

impl Shape for OrderLayout {
    ghost KIND = { 79 };

    const KIND: char = 'O';

    ghost LENGTH = { 49 };

    const LENGTH: usize = 49;
}

impl<'a> Layout<'a> for OrderLayout {
    type View = Order<'a>;

    ghost meaning = { order_of };

    ghost means = { by_order };

    ghost some = { Prim.search rules };

    fn view(bytes: &'a [u8]) -> Result<Order<'a>, Fault> {
        let side = Side::try_from(bytes[15]).map_err(|refused| refused.at(15))?;
        let units = allowed_units(u32::from_be_bytes(bytes_at(bytes, 16))).map_err(
            |refused| refused.at(16),
        )?;
        let terms = Terms::read(side, u32::from_be_bytes(bytes_at(bytes, 28))).map_err(
            |refused| refused.at(28),
        )?;
        Ok(Order {
            token: &bytes[1..15],
            terms,
            units,
            stock: &bytes[20..28],
            firm: &bytes[36..40],
        })
    }
}

pub(crate) struct CancelLayout;

impl Shape for CancelLayout {
    ghost KIND = { 88 };

    const KIND: char = 'X';

    ghost LENGTH = { 19 };

    const LENGTH: usize = 19;
}

impl<'a> Layout<'a> for CancelLayout {
    type View = Cancel<'a>;

    ghost meaning = { cancel_of };

    ghost means = { by_cancel };

    ghost some = { Prim.search rules };

    fn view(bytes: &'a [u8]) -> Result<Cancel<'a>, Fault> {
        Ok(Cancel {
            token: &bytes[1..15],
            units: u32::from_be_bytes(bytes_at(bytes, 15)),
        })
    }
}

// One check of kind and length for every layout.
pub(crate) fn checked<'a, L: Layout<'a>>(block: &Block<'a>) -> Result<L::View, Fault>
    ensures { meant L.Layout.means result ≡ of_kind L.KIND L.LENGTH L.Layout.meaning block.now.number block.now.bytes.now }
{
    let malformed = Fault::Malformed {
        number: block.number,
    };
    let [kind, fields @ ..] = block.bytes else {
        return Err(malformed);
    };
    if char::from(*kind) != L::KIND || fields.len() + 1 != L::LENGTH {
        return Err(malformed);
    }
    L::view(block.bytes)
}
