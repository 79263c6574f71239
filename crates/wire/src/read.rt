// Reads one message.
use crate::layout::{ActionLayout, CancelLayout, OrderLayout, SecondLayout, checked};
use crate::message::Message;
use crate::packet::Block;
use fault::Fault;

impl<'a> Block<'a> {
    ghost use Rattle.std.specs.Prelude.{◌≡◌};
    ghost use Rattle.wire.specs.Messages.{meant, by_message, message_of};

    // The message in the block: its bytes, exactly. The kinds are matched as letters: a rule of the project.
    pub fn message(&self) -> Result<Message<'a>, Fault>
        ensures { meant by_message result ≡ message_of self.now.number self.now.bytes.now }
    {
        let [kind, ..] = self.bytes else {
            return Err(Fault::Malformed {
                number: self.number,
            });
        };
        match char::from(*kind) {
            'T' => Ok(Message::Second(checked::<SecondLayout>(self)?)),
            'H' => Ok(Message::TradingAction(checked::<ActionLayout>(self)?)),
            'O' => Ok(Message::Order(checked::<OrderLayout>(self)?)),
            'X' => Ok(Message::Cancel(checked::<CancelLayout>(self)?)),
            _ => Err(Fault::Malformed {
                number: self.number,
            }),
        }
    }
}
