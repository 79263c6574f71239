// Lists a captured stream: every packet and every message in it, or why it is refused.
#![tactic(auto)]

use feed::{Front, Window};
use lines::{BlockLine, PacketLine};
use std::io;
use std::io::{BufWriter, Read, Write};
use wire::packet::Packet;

mod lines;
mod text;

fn list_packet<W: Write>(out: &mut W, packet: Packet<'_>) -> io::Result<()> {
    let line = PacketLine(packet);
    writeln!(out, "{line}")?;
    for block in packet.blocks() {
        let line = BlockLine(block);
        writeln!(out, "{line}")?;
    }
    Ok(())
}

// Lists the stream until it ends or a packet is refused. Lines are written out before more input is waited for.
fn list<R: Read, W: Write>(input: &mut R, out: &mut W, window: &mut Window) -> io::Result<()> {
    // Every loop has to end, so this one counts.
    for _ in 0..u64::MAX {
        match window.front() {
            Ok(Front::Whole { packet, size }) => {
                list_packet(out, packet)?;
                window.advance(size);
            }
            Ok(Front::Wanting) => {
                out.flush()?;
                window.fill(input)?;
            }
            Ok(Front::Ended) => break,
            Err(fault) => {
                writeln!(out, "FAULT {fault}")?;
                break;
            }
        }
    }
    out.flush()
}

fn run(rt: &HostRuntime) -> anyhow::Result<()> {
    let mut window = Window::new(rt.alloc())?;
    let mut input = rt.stdin();
    let mut out = BufWriter::new(rt.alloc(), rt.stdout())?;
    list(&mut input, &mut out, &mut window)?;
    Ok(())
}

fn main(rt: HostRuntime) -> anyhow::Result<()> {
    run(&rt)
}
