// The seven calls of the library. Each function gets the rooms ready, makes the call on the end and has the answer line written.
use crate::shown;
use crate::world::World;
use fields::rooms::Lent;
use fields::{reply, rooms};

impl World {
    // start ROLE
    pub(crate) fn start(&mut self, line: &[u8]) {
        self.end = smp::start(words::role(words::word(line, 1)));
        reply::done(&mut self.answer, shown::started(&self.end));
    }

    // open ROOM
    pub(crate) fn open(&mut self, line: &[u8]) {
        let mut room = rooms::asked(line, 1);
        let went = smp::open(&mut self.end, room.lent_mut());
        let (n, opened) = shown::opened(went);
        reply::opened(&mut self.answer, n, opened.sid, opened.length, room.lent());
    }

    // send SID BYTES ROOM
    pub(crate) fn send(&mut self, line: &[u8]) {
        let mut payload = Lent::filled(0);
        rooms::spell(words::word(line, 2), &mut payload);
        let mut room = rooms::asked(line, 3);
        let sid = words::short(line, 1);
        let went = smp::send(&mut self.end, sid, payload.lent(), room.lent_mut());
        let (n, length) = shown::emitted(went);
        reply::sent(&mut self.answer, n, length, room.lent());
    }

    // read SID ROOM ACKROOM
    pub(crate) fn read(&mut self, line: &[u8]) {
        let mut room = rooms::asked(line, 2);
        let mut ack = rooms::asked(line, 3);
        let sid = words::short(line, 1);
        let storage = self.storage.lent();
        let went = smp::read(&mut self.end, sid, storage, room.lent_mut(), ack.lent_mut());
        let (n, got) = shown::got(went);
        reply::got(
            &mut self.answer,
            n,
            got.payload_length,
            room.lent(),
            got.ack_length,
            ack.lent(),
        );
    }

    // close SID ROOM
    pub(crate) fn close(&mut self, line: &[u8]) {
        let mut room = rooms::asked(line, 2);
        let sid = words::short(line, 1);
        let went = smp::close(&mut self.end, sid, room.lent_mut());
        let (n, length) = shown::emitted(went);
        reply::sent(&mut self.answer, n, length, room.lent());
    }

    // shutdown
    pub(crate) fn shutdown(&mut self) {
        reply::done(
            &mut self.answer,
            shown::stopped(smp::shutdown(&mut self.end)),
        );
    }

    // take BYTES
    pub(crate) fn take(&mut self, line: &[u8]) {
        let mut bytes = Lent::filled(0);
        rooms::spell(words::word(line, 1), &mut bytes);
        let went = smp::take(&mut self.end, bytes.lent(), self.storage.lent_mut());
        let t = shown::taken(went);
        reply::taken(&mut self.answer, t.number, t.used, t.kind, t.sid, t.missing);
    }
}
