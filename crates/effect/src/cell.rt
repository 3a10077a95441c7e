// The table, a row for each state and a column for each kind, and what each of its cells makes of a record.
ghost use Rattle.std.specs.Prelude.{◌≡◌};
ghost use Rattle.effect.specs.Taken.{cell_of, ended_on, becomes};

use session::record::{Session, State};
use wire::kind::Kind;

// A cell of the table.
#[derive(Clone, Copy, Debug, PartialEq, Eq)]
pub enum Cell {
    Store,
    Grant,
    End,
    Ignore,
    Free,
    Fault,
}

// What document 01's table says for a packet of that kind in that state; a fault where the table has no cell.
pub fn cell_of(st: State, k: Kind) -> Cell
    ensures { result ≡ cell_of st k }
{
    match (st, k) {
        (State::Established, Kind::Data) => Cell::Store,
        (State::Established, Kind::Ack) => Cell::Grant,
        (State::Established, Kind::Fin) => Cell::End,
        (State::FinSent, Kind::Data | Kind::Ack) => Cell::Ignore,
        (State::FinSent, Kind::Fin) => Cell::Free,
        (State::FinReceived | State::Closed, _) | (_, Kind::Syn) => Cell::Fault,
    }
}

// H becomes WNDW, to FIN RECEIVED.
fn ended(x: Session, wndw: u32) -> Session
    ensures { result ≡ ended_on wndw x }
{
    x.granted(wndw).with_state(State::FinReceived)
}

// What a cell of the table makes of the record x, for a packet with that SEQNUM, WNDW and payload length. The payload itself is stored by take.
pub fn becomes(x: Session, c: Cell, seqnum: u32, wndw: u32, n: u16) -> Session
    ensures { result ≡ becomes c seqnum wndw n x }
{
    match c {
        Cell::Store => x.stored(seqnum, wndw, n),
        Cell::Grant => x.granted(wndw),
        Cell::End => ended(x, wndw),
        Cell::Ignore | Cell::Fault => x,
        Cell::Free => Session::free(),
    }
}
