// Standard input, a line at a time: each line is answered as soon as it was read.
use crate::world::World;
use std::io;
use std::io::{Read, Stderr, Stdin, Stdout, Write};
use text::line::LF;
use words::held::Held;

// What one read gives at most.
const READ: usize = 4096;

// The budget: a proved loop has to end, so the program stops after 2^63 reads. In a conversation, where each read gives a line, these are 2^63 lines.
// Each read gives one byte or more, so they are at least 562 million million lines of the longest.
const READS: u64 = 1 << 63;

// The program's three streams.
#[derive(Clone, Copy)]
pub struct Streams {
    pub input: Stdin,
    pub output: Stdout,
    pub error: Stderr,
}

// The streams, the line that isn't ended yet, and what the lines before it left.
#[derive(Drop)]
pub struct Conversation {
    streams: Streams,
    held: Held,
    world: World,
}

impl Conversation {
    pub(crate) fn new(streams: Streams) -> Conversation {
        Conversation {
            streams,
            held: Held::new(),
            world: World::first(),
        }
    }

    // The line that is held is answered. The answer line goes out in one write.
    fn ended(&mut self) -> io::Result<()> {
        self.world.obey(self.held.line());
        self.held.clear();
        self.world.answer.byte(LF);
        self.streams.output.write_all(self.world.answer.line())
    }

    // What one read gave: each line that ends in it is answered, and the rest is held.
    fn chunk(&mut self, bytes: &[u8]) -> io::Result<()> {
        for part in bytes.split_inclusive(|c| *c == LF) {
            match part.strip_suffix(&[LF]) {
                Some(rest) => {
                    self.held.join(rest);
                    self.ended()?;
                }
                None => self.held.join(part),
            }
        }
        Ok(())
    }

    // The input ended: a last line without LF counts if not empty.
    fn last(&mut self) -> io::Result<()> {
        if self.held.is_empty() {
            return Ok(());
        }
        self.ended()
    }

    // Read after read, until the input ends or can't be read, or the output takes no more.
    fn read(&mut self) -> io::Result<()> {
        let mut bytes = [0; READ];
        for _ in 0..READS {
            let n = self.streams.input.read(&mut bytes).unwrap_or(0);
            if n == 0 {
                return self.last();
            }
            self.chunk(&bytes[..n])?;
        }
        Ok(())
    }

    // The whole conversation. Where an answer can't be written, standard error is told.
    pub(crate) fn converse(&mut self) {
        if self.read().is_err() {
            let _ = self.streams.error.write_all(
                b"calls: standard output took no more; an answer is lost\n",
            );
        }
    }
}
