// Every change of a record: what the calls send, read and close make of it, and what a packet does.
ghost use Rattle.std.specs.Prelude.{◌≡◌};
ghost use Rattle.session.specs.Changes.{sent_on, last_on, read_on, fin_on, closed_on, stored_on, granted_on};
ghost use Rattle.session.specs.Notice.{due, new_g};

use crate::counter;
use crate::record::{Session, State};

impl Session {
    // The record after a send: S grows by 1, modulo 2^32, and L becomes G, which the DATA said; all else stays.
    pub fn sent(self) -> Session
        ensures { result ≡ sent_on self }
    {
        Session {
            s: counter::plus(self.s, 1),
            l: self.g,
            ..self
        }
    }

    // G after a read.
    fn new_g(self) -> u32
        ensures { result ≡ new_g self }
    {
        counter::plus(self.g, 1)
    }

    // Whether a read emits an ACK: in ESTABLISHED, where the new G is 2 or more past L, modulo 2^32.
    #[tactic(auto, unfolding(crate::specs::Notice::due))]
    pub fn due(self) -> bool
        ensures { result ≡ due self }
    {
        self.state == State::Established && 2 <= counter::minus(self.new_g(), self.l)
    }

    // L after a read: the new G where an ACK goes out, and in FIN RECEIVED; else as it was.
    fn last(self) -> u32
        ensures { result ≡ last_on self }
    {
        if self.due() || self.state == State::FinReceived {
            self.new_g()
        } else {
            self.l
        }
    }

    // The record after a read: G grows by 1, modulo 2^32; L becomes the new G where an ACK goes out, and in FIN RECEIVED. All else stays, lengths too.
    pub fn read(self) -> Session
        ensures { result ≡ read_on self }
    {
        Session {
            g: self.new_g(),
            l: self.last(),
            ..self
        }
    }

    // The record whose FIN goes out: FIN SENT, and L becomes G, which the FIN said; the other counters and the lengths stay.
    fn finished(self) -> Session
        ensures { result ≡ fin_on self }
    {
        Session { l: self.g, ..self }.with_state(State::FinSent)
    }

    // The record after a close: from ESTABLISHED to FIN SENT with L at G and all else kept, from FIN RECEIVED a free slot; else as it was.
    pub fn closed(self) -> Session
        ensures { result ≡ closed_on self }
    {
        match self.state {
            State::Established => self.finished(),
            State::FinReceived => Session::free(),
            State::FinSent | State::Closed => self,
        }
    }

    // The record after DATA: R becomes SEQNUM, H becomes WNDW, and the payload's length n stands at the place of SEQNUM; all else stays.
    pub fn stored(self, seqnum: u32, wndw: u32, n: u16) -> Session
        ensures { result ≡ stored_on seqnum wndw n self }
    {
        let mut lens = self.lens;
        lens[(seqnum % 4) as usize] = n;
        Session {
            h: wndw,
            r: seqnum,
            lens,
            ..self
        }
    }

    // The record after an ACK, and a new one after its SYN: H becomes WNDW, and all else stays.
    pub fn granted(self, wndw: u32) -> Session
        ensures { result ≡ granted_on wndw self }
    {
        Session { h: wndw, ..self }
    }
}
