// Reads packets and the messages in them. A message read borrows its token, stock and firm from the packet's bytes.
#![tactic(auto)]

mod bytes;
mod layout;
pub mod message;
pub mod packet;
mod read;
