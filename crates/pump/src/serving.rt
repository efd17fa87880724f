//! The device: executes the commands that it receives on standard input, and replies on standard output, until its input ends.
use crate::device::Device;
use crate::{AskedCommand, FRAME, Said};
use calls::{Checked, Numbering, Server, Service};
use line_io::{Reads, Writes};
use link::{End, OfType, Ordinary, Receiver, Sender};
use std::io;

// Serves all of its input. Returns how reading ended, and whether a reply wasn't sent whole.
fn work(rt: &HostRuntime) -> (Option<End>, bool) {
    let mut reader = Reads::new(rt.stdin());
    let mut receiver = Receiver::<FRAME>::new();
    let sender = Sender::<_, FRAME>::new(Writes::new(rt.stdout()));
    let mut service = Checked {
        hearer: Service {
            application: Numbering {
                application: Device::new(),
            },
            server: Server::<_, AskedCommand, Said, FRAME>::new(sender),
            unsent: false,
        },
    };
    let end = receiver.receive_each_with::<(u64, AskedCommand), _, _, _>(
        rt.alloc(),
        &Ordinary(OfType),
        &mut reader,
        &mut service,
    );
    (end, service.hearer.unsent)
}

/// Serves, and writes what failed. Returns the status.
pub fn serve(rt: &HostRuntime) -> io::Result<u8> {
    let (end, unsent) = work(rt);
    if unsent {
        eprintln!(rt; "pump: standard output: a reply wasn't sent")?;
    }
    let Some(End::Ended) = end else {
        eprintln!(rt; "pump: standard input: read failed")?;
        return Ok(3);
    };
    Ok(if unsent { 3 } else { 0 })
}
