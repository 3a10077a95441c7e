// One side of the talk: an end with its storage, and each call with the packet that it emits.
//
// To cut a packet out of its buffer, `&packet[..n]`, a program needs one fact: so many bytes are there. The calls promise it, so no function here
// needs a proof file. The end of a range is a local (`let n = opened.length;`), since a field isn't taken there.
use crate::say::{Refused, Streams};
use smp::{End, Refusal, Role};

// A packet is a header and, for a row, its payload.
const HEADER: usize = 16;

const ROW: usize = 512;

const PACKET: usize = HEADER + ROW;

// The end, and where the payloads lie that wait to be read at it.
#[derive(Drop)]
pub struct Party {
    end: End,
    storage: [u8; smp::STORAGE],
}

impl Party {
    pub(crate) fn start(role: Role) -> Party {
        Party {
            end: smp::start(role),
            storage: [0; smp::STORAGE],
        }
    }

    // A packet arrives. Where nothing was emitted, nothing arrives. A transport may give more than a packet or less: then `used` bytes are dropped and
    // the rest is kept, and `Stop::MoreBytes` is answered until a whole packet is there.
    fn arrive(&mut self, packet: &[u8]) -> Result<(), Refused> {
        if packet.is_empty() {
            return Ok(());
        }
        let role = self.end.role;
        smp::take(&mut self.end, packet, &mut self.storage).map_err(|stop| Refused::new(
            role, "take", stop,
        ))?;
        Ok(())
    }

    // A new session: its SYN goes out, and its SID is in the answer.
    pub(crate) fn open(&mut self, to: Streams, other: &mut Party) -> Result<(), Refused> {
        let role = self.end.role;
        let mut packet = [0; HEADER];
        let opened = smp::open(&mut self.end, &mut packet).map_err(|r| Refused::new(
            role,
            "open",
            r.into(),
        ))?;
        to.session(role, b" opened session ", opened.sid);
        let n = opened.length;
        other.arrive(&packet[..n])
    }

    // A row goes out in a DATA packet. `Refusal::WindowClosed` would say that the other end has announced no more room yet.
    pub(crate) fn send(&mut self, other: &mut Party, sid: u16, row: &[u8]) -> Result<(), Refused> {
        let role = self.end.role;
        let mut packet = [0; PACKET];
        let n = smp::send(&mut self.end, sid, row, &mut packet).map_err(|r| Refused::new(
            role,
            "send",
            r.into(),
        ))?;
        other.arrive(&packet[..n])
    }

    // The oldest row that waits is handed over. An ACK goes out, so that the writer may send on, where two rows were read since this end last sent
    // something; none does after the writer's FIN.
    pub(crate) fn read(&mut self, to: Streams, other: &mut Party, sid: u16) -> Result<(), Refused> {
        let role = self.end.role;
        let mut row = [0; ROW];
        let mut ack = [0; HEADER];
        let went = smp::read(&mut self.end, sid, &self.storage, &mut row, &mut ack);
        if let Err(Refusal::WriterEnded) = went {
            to.session(role, b" read all of session ", sid);
            return Ok(());
        }
        let got = went.map_err(|r| Refused::new(role, "read", r.into()))?;
        let n = got.payload_length;
        let m = got.ack_length;
        to.row(role, &row[..n], sid);
        other.arrive(&ack[..m])
    }

    // No more is sent in this session. It is gone once both ends have closed it.
    pub(crate) fn close(
        &mut self,
        to: Streams,
        other: &mut Party,
        sid: u16,
    ) -> Result<(), Refused> {
        let role = self.end.role;
        let mut packet = [0; HEADER];
        let n = smp::close(&mut self.end, sid, &mut packet).map_err(|r| Refused::new(
            role,
            "close",
            r.into(),
        ))?;
        to.session(role, b" closed session ", sid);
        other.arrive(&packet[..n])
    }
}
