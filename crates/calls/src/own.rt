// The program's own lines: what a caller may do with the end and the storage that it holds. A word that says nothing counts as 0.
use crate::world::World;
use fields::reply;
use words::{limits, stated};

impl World {
    // lend N: how much of the storage calls are lent from here on.
    pub(crate) fn lend(&mut self, line: &[u8]) {
        self.storage
            .lend(words::value(line, 1, limits::STORAGE) as usize);
        reply::ok(&mut self.answer);
    }

    // record SLOT STATE SID S H R G L L0 L1 L2 L3: a slot of the end from here on.
    pub(crate) fn record(&mut self, line: &[u8]) {
        self.end.put(stated::slot(line), stated::session(line));
        reply::ok(&mut self.answer);
    }

    // end ROLE UP: role and state of the end from here on.
    pub(crate) fn end(&mut self, line: &[u8]) {
        let role = words::role(words::word(line, 1));
        self.end = self
            .end
            .with_role(role, words::number_at(line, 2) == Some(1));
        reply::ok(&mut self.answer);
    }
}
