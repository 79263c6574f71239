// The lines of the listing.
use crate::text::{Quoted, TimeOfDay};
use std::fmt;
use wire::message::{Message, Order, State, Terms};
use wire::packet::{Block, Packet, Purpose};

// A packet's own line.
#[derive(Clone, Copy)]
pub(crate) struct PacketLine<'a>(pub Packet<'a>);

impl fmt::Display for PacketLine<'_> {
    fn fmt<W: fmt::Write>(&self, f: &mut fmt::Formatter<W>) -> fmt::Result {
        let session = Quoted(self.0.session());
        let first = self.0.first();
        let count = self.0.count();
        let note = match self.0.purpose() {
            Purpose::Heartbeat => " (heartbeat)",
            Purpose::Messages => "",
            Purpose::EndOfSession => " (end of session)",
        };
        write!(
            f,
            "PACKET session {session} first {first} count {count}{note}"
        )
    }
}

// A block's line: its number, and the message or why it is refused.
#[derive(Clone, Copy)]
pub(crate) struct BlockLine<'a>(pub Block<'a>);

impl fmt::Display for BlockLine<'_> {
    fn fmt<W: fmt::Write>(&self, f: &mut fmt::Formatter<W>) -> fmt::Result {
        let number = self.0.number;
        match self.0.message() {
            Ok(message) => {
                let text = MessageText(message);
                write!(f, "{number} {text}")
            }
            Err(fault) => write!(f, "{number} REFUSED {fault}"),
        }
    }
}

// A message: its kind letter, and its fields by their names.
#[derive(Clone, Copy)]
struct MessageText<'a>(Message<'a>);

impl fmt::Display for MessageText<'_> {
    fn fmt<W: fmt::Write>(&self, f: &mut fmt::Formatter<W>) -> fmt::Result {
        match self.0 {
            Message::Second(t) => {
                let second = t.second;
                let time = TimeOfDay(second);
                write!(f, "T second {second} ({time})")
            }
            Message::TradingAction(h) => {
                let stock = Quoted(h.stock);
                let state = match h.state {
                    State::Halted => "halted",
                    State::Trading => "trading",
                };
                write!(f, "H stock {stock} {state}")
            }
            Message::Order(o) => {
                let order = OrderText(o);
                write!(f, "O {order}")
            }
            Message::Cancel(x) => {
                let token = Quoted(x.token);
                let units = x.units;
                write!(f, "X token {token} units {units}")
            }
        }
    }
}

// The fields of an order.
#[derive(Clone, Copy)]
struct OrderText<'a>(Order<'a>);

impl fmt::Display for OrderText<'_> {
    fn fmt<W: fmt::Write>(&self, f: &mut fmt::Formatter<W>) -> fmt::Result {
        let side = match self.0.terms {
            Terms::Bid { .. } => "buy",
            Terms::Sale { .. } => "sell",
        };
        let token = Quoted(self.0.token);
        let units = self.0.units;
        let stock = Quoted(self.0.stock);
        let firm = Quoted(self.0.firm);
        write!(f, "{side} token {token} units {units} stock {stock} ")?;
        match self.0.terms {
            Terms::Bid { limit } | Terms::Sale { limit: Some(limit) } => write!(
                f,
                "limit {limit}"
            )?,
            Terms::Sale { limit: None } => write!(f, "no limit")?,
        }
        write!(f, " firm {firm}")
    }
}
