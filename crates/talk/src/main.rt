// What a newcomer copies: a client and a server in one process, two sessions, rows both ways, and an orderly close of both sessions. A packet goes
// from the buffer of the end that emits it to `take` of the other end; between two machines a transport stands there.
#![tactic(auto)]

mod party;
mod say;

use party::Party;
use say::{Refused, Streams};
use smp::Role;

// Each step needs the one before it, so the first call that is refused ends the talk.
fn talk(to: Streams, client: &mut Party, server: &mut Party) -> Result<(), Refused> {
    // A session for each wagon: SIDs 0 and 1, the smallest that aren't held.
    client.open(to, server)?;
    client.open(to, server)?;
    // Both rows are sent before one is read.
    client.send(server, 0, b"wagon 7")?;
    client.send(server, 1, b"wagon 12")?;
    // The server reads what waits, in the order that it likes, and sends marks.
    server.read(to, client, 1)?;
    server.read(to, client, 0)?;
    server.send(client, 1, b"mark 85")?;
    server.send(client, 0, b"mark 92")?;
    // The client reads the marks, sends a last row, and ends both sessions.
    client.read(to, server, 0)?;
    client.read(to, server, 1)?;
    client.send(server, 0, b"coupler 7")?;
    client.close(to, server, 0)?;
    client.close(to, server, 1)?;
    // The server reads until it is told that the writer has ended, and closes too: the sessions are gone at both ends.
    server.read(to, client, 0)?;
    server.read(to, client, 0)?;
    server.close(to, client, 0)?;
    server.read(to, client, 1)?;
    server.close(to, client, 1)
}

fn main(rt: HostRuntime) {
    let to = Streams {
        output: rt.stdout(),
        error: rt.stderr(),
    };
    let mut client = Party::start(Role::Client);
    let mut server = Party::start(Role::Server);
    if let Err(refused) = talk(to, &mut client, &mut server) {
        to.refused(refused);
    }
}
