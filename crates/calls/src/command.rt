// Which line it is: its form says so.
use crate::world::World;
use fields::{reply, show};
use words::forms;
use words::forms::Form;

impl World {
    // Does what a line asks, and makes the answer line. The words of each line are as the comment at its function says.
    pub(crate) fn obey(&mut self, line: &[u8]) {
        self.answer.clear();
        match forms::form_of(line) {
            Some(Form::Start) => self.start(line),
            Some(Form::Open) => self.open(line),
            Some(Form::Send) => self.send(line),
            Some(Form::Read) => self.read(line),
            Some(Form::Close) => self.close(line),
            Some(Form::Shutdown) => self.shutdown(),
            Some(Form::Take) => self.take(line),
            Some(Form::Lend) => self.lend(line),
            Some(Form::Record) => self.record(line),
            Some(Form::End) => self.end(line),
            Some(Form::Show) => show::end(&mut self.answer, self.end),
            Some(Form::Peek) => reply::peeked(&mut self.answer, line, self.storage.whole()),
            None => reply::bad(&mut self.answer),
        }
    }
}
