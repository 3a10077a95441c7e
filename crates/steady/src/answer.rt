// What comes back of one call or more.
ghost use Rattle.std.specs.Prelude.{◌≡◌, slice_index};
ghost use Rattle.send.specs.Send.{send_says};
ghost use Rattle.read.specs.Read.{read_says};
ghost use Rattle.take.specs.Take.{take_says};
ghost use Rattle.steady.specs.Steady.{none_of, answer_of, tally_of, sent_answer, got_answer, taken_answer};

use cases::refusal::Refusal;
use judge::stop::Stop;
use read::Got;
use table::end::End;
use take::Taken;

// The number and the values of the last answer, in its order; the sum of all numbers and lengths; the record.
#[derive(Clone, Copy)]
pub struct Answer {
    pub number: u8,
    pub values: [u64; 4],
    pub sum: u64,
    pub end: End,
}

impl Answer {
    // That of no call.
    pub fn none(end: End) -> Answer
        ensures { result ≡ none_of end }
    {
        Answer {
            number: 0,
            values: [0; 4],
            sum: 0,
            end,
        }
    }

    // With one call more. Its length, the first of its values, goes to the sum with its number, so that no call can be left out.
    fn add(&mut self, number: u8, values: [u64; 4])
        ensures { self.new ≡ answer_of number values (tally_of self.old.sum number (slice_index values 0)) self.old.end }
    {
        self.number = number;
        self.values = values;
        self.sum = self
            .sum
            .wrapping_add(u64::from(number))
            .wrapping_add(values[0]);
    }

    // With one send more.
    pub(crate) fn sent(&mut self, r: Result<usize, Refusal>)
        ensures { self.new ≡ sent_answer self.old.sum (send_says r self.old.end) }
    {
        match r {
            Ok(n) => self.add(0, [n as u64, 0, 0, 0]),
            Err(r) => self.add(r.into(), [0; 4]),
        }
    }

    // With one read more.
    pub(crate) fn got(&mut self, r: Result<Got, Refusal>)
        ensures { self.new ≡ got_answer self.old.sum (read_says r self.old.end) }
    {
        match r {
            Ok(g) => self.add(0, [g.payload_length as u64, g.ack_length as u64, 0, 0]),
            Err(r) => self.add(r.into(), [0; 4]),
        }
    }

    // With one take more.
    pub(crate) fn taken(&mut self, r: Result<Taken, Stop>)
        ensures { self.new ≡ taken_answer self.old.sum (take_says r self.old.end) }
    {
        match r {
            Ok(t) => self.add(0, [t.used as u64, t.kind as u64, u64::from(t.sid), 0]),
            Err(s @ Stop::MoreBytes(n)) => self.add(s.into(), [0, 0, 0, n as u64]),
            Err(s) => self.add(s.into(), [0; 4]),
        }
    }
}
