// An end on standard input: a call a line, and an answer line for each. Another program can converse with it through pipes.
#![tactic(auto)]

mod command;
mod library;
mod lines;
mod own;
mod shown;
mod world;

use lines::{Conversation, Streams};

fn main(rt: HostRuntime) {
    let streams = Streams {
        input: rt.stdin(),
        output: rt.stdout(),
        error: rt.stderr(),
    };
    Conversation::new(streams).converse();
}
