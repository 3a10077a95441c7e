// What the program holds from one line to the next.
use fields::answer::Answer;
use fields::rooms::Lent;
use table::end::{End, Role};
use table::storage;

// The end, the storage of which its calls get what is lent, and the answer to the last line.
#[derive(Drop)]
pub struct World {
    pub end: End,
    pub storage: Lent<{ storage::LENGTH }>,
    pub answer: Answer,
}

impl World {
    // Before the first start: a client that is down, and the whole storage.
    pub(crate) fn first() -> World {
        World {
            end: End::start(Role::Client).down(),
            storage: Lent::filled(0),
            answer: Answer::new(),
        }
    }
}
