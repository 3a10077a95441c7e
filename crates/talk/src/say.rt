// Lines on standard output.
use smp::{Role, Stop};
use std::fmt;
use std::io::{Result, Stderr, Stdout, Write};

// Where lines go: standard output, and standard error for what went wrong.
#[derive(Clone, Copy)]
pub struct Streams {
    pub output: Stdout,
    pub error: Stderr,
}

// A call that stopped: whose it was, which one, and why.
#[derive(Clone, Copy, Debug, PartialEq, Eq)]
pub struct Refused {
    pub role: Role,
    pub call: &'static str,
    pub stop: Stop,
}

impl Refused {
    pub(crate) fn new(role: Role, call: &'static str, stop: Stop) -> Refused {
        Refused { role, call, stop }
    }
}

impl Streams {
    // Where standard output takes no more, standard error is told.
    fn told(mut self, went: Result<()>) {
        if went.is_err() {
            let _ = self
                .error
                .write_all(b"talk: standard output took no more\n");
        }
    }

    // A part of a line. Where standard output doesn't take it standard error is told, and the parts behind it are tried all the same.
    fn text(mut self, part: &[u8]) {
        let went = self.output.write_all(part);
        self.told(went);
    }

    fn shown<T: fmt::Display + Copy>(mut self, part: T) {
        let went = write!(self.output, "{part}");
        self.told(went);
    }

    // What an end did with a session.
    pub(crate) fn session(self, role: Role, did: &[u8], sid: u16) {
        self.shown(role);
        self.text(did);
        self.shown(sid);
        self.text(b"\n");
    }

    // A row that an end read, as its bytes are.
    pub(crate) fn row(self, role: Role, row: &[u8], sid: u16) {
        self.shown(role);
        self.text(b" read ");
        self.text(row);
        self.text(b" from session ");
        self.shown(sid);
        self.text(b"\n");
    }

    // A call that stopped.
    pub(crate) fn refused(self, refused: Refused) {
        self.shown(refused.role);
        self.text(b": ");
        self.shown(refused.call);
        self.text(b" answered ");
        self.shown(u8::from(refused.stop));
        self.text(b"\n");
    }
}
