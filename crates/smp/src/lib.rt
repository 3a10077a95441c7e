// One end of an SMP connection, client or server: the name under which users find every call, what it answers, and why it may not. The crates behind
// it have a call each.
//
// An end (`End`) is a value: its role, whether it is up, and sixteen slots for sessions. `start` makes one. Every other call is lent the end, and
// changes it in place where its work is done. It answers with a `Result`: what it gives, or why it stops. A `Refusal` leaves the end, and every
// buffer, as it was. `take` alone has more to say, by `Stop`: so many bytes are missing yet, or the peer broke the protocol, a `Fault`, and the
// end is down. `u8::from` gives the number of each.
//
// Packets and payloads go into the front of buffers that the caller lends, and the answer has their lengths. What a call emits goes to the
// transport whole, and what comes from the transport goes to `take`, which says how many bytes it used. Payloads that wait to be read lie in a
// storage of STORAGE bytes that the caller keeps and lends to `take` and `read`.
#![tactic(auto)]

pub use cases::fault::Fault;
pub use cases::refusal::Refusal;
pub use close::close;
pub use judge::stop::Stop;
pub use open::{Opened, open};
pub use read::{Got, read};
pub use send::send;
pub use shutdown::shutdown;
pub use start::start;
pub use table::end::{End, Role};
pub use table::storage::LENGTH as STORAGE;
pub use take::{Taken, take};
pub use wire::kind::Kind;
