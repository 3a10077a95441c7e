// Sessions in turn.
ghost use Rattle.std.specs.Prelude.{◌≡◌, Some};
ghost use Rattle.steady.specs.Steady.{after_turn};

// The SID whose turn it is, then `step` more each time, and after `last` 0 again, without an end.
#[derive(Clone, Copy)]
pub struct Turns {
    pub sid: u16,
    pub last: u16,
    pub step: u16,
}

impl Iterator for Turns {
    type Item = u16;

    ghost next_gives = { λ s r t. (r ≡ Some s.sid) × (t ≡ after_turn s) };

    fn next(&mut self) -> Option<u16> {
        let sid = self.sid;
        self.sid = if sid == self.last {
            0
        } else {
            sid.wrapping_add(self.step)
        };
        Some(sid)
    }
}
