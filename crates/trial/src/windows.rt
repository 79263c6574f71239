// A window fed by an input that gives one byte at a time.
ghost use Rattle.std.specs.Prelude.{◌≤◌, length};
ghost use Rattle.feed.specs.Windows.{pending_in};

use fault::Fault;
use feed::{Front, Window};
use std::io;
use std::io::Read;
use std::test::Fail;

// A heartbeat of 20 bytes, then five zeros.
const HEARTBEAT_AND_FIVE: [u8; 25] = *b"SESSION001\0\0\0\0\0\0\0\0\0\0\0\0\0\0\0";

// Gives one byte at a time.
#[derive(Drop)]
struct Dribble<'a> {
    rest: &'a [u8],
}

impl Read for Dribble<'_> {
    fn read(&mut self, buf: &mut [u8]) -> io::Result<usize> {
        match (self.rest, buf) {
            ([first, rest @ ..], [place, ..]) => {
                *place = *first;
                self.rest = rest;
                Ok(1)
            }
            _ => Ok(0),
        }
    }
}

// Fills until the front can be told. Whoever has a window knows its bound, whatever was called.
fn settle(window: &mut Window, input: &mut Dribble<'_>) -> io::Result<()>
    ensures { length (pending_in window.new) ≤ 9665 }
{
    for _ in 0..2000 {
        if let Ok(Front::Wanting) = window.front() {
            window.fill(input)?;
        }
    }
    Ok(())
}

#[test]
fn told_as_soon_as_it_is_there(rt: HostRuntime) -> Result<(), Fail> {
    let mut input = Dribble {
        rest: &HEARTBEAT_AND_FIVE,
    };
    let mut window = Window::new(rt.alloc())?;
    settle(&mut window, &mut input)?;
    assert_eq!(rt; window.pending().len(), 20);
    match window.front() {
        Ok(Front::Whole { packet, size }) => {
            assert_eq!(rt; packet.session(), b"SESSION001".as_slice());
            assert_eq!(rt; size, 20);
        }
        _ => return Err(Fail::new("the heartbeat is there")),
    }
    window.advance(20);
    settle(&mut window, &mut input)?;
    assert_eq!(rt;
        window.front().err(),
        Some(Fault::ShortPacket { length: 5 })
    );
    window.advance(5);
    assert!(rt; matches!(window.front(), Ok(Front::Ended)));
    Ok(())
}
