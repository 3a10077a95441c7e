// WNDW in range for a SYN; WNDW and SEQNUM in range for a session that a packet names.
ghost use Rattle.std.specs.Prelude.{◌≡◌};
ghost use Rattle.effect.specs.Taken.{window_in_range, grant_in_range, seqnum_in_range};

use session::counter;
use session::record::{Session, State};
use wire::kind::Kind;

// Whether a packet's WNDW is in range for the record: H - S <= WNDW - S <= most, so that the window never shrinks and never passes the highest.
#[tactic(auto, unfolding(crate::specs::Taken::window_in_range))]
pub fn window_in_range(x: Session, most: u32, wndw: u32) -> bool
    ensures { result ≡ window_in_range most x wndw }
{
    let a = counter::minus(x.h, x.s);
    let b = counter::minus(wndw, x.s);
    a <= b && b <= most
}

// Whether a SYN's WNDW is in range: the least or more, and not past the highest.
pub fn grant_in_range(most: u32, wndw: u32) -> bool
    ensures { result ≡ grant_in_range most wndw }
{
    Session::LEAST <= wndw && wndw <= most
}

// Whether a packet's SEQNUM is in range for the record: DATA in ESTABLISHED is the next packet, R + 1, and there is room for it; all else lies in the
// window, SEQNUM - R <= G - R.
#[tactic(auto, unfolding(crate::specs::Taken::seqnum_in_range))]
pub fn seqnum_in_range(x: Session, k: Kind, seqnum: u32) -> bool
    ensures { result ≡ seqnum_in_range x k seqnum }
{
    if k == Kind::Data && x.state == State::Established {
        seqnum == counter::plus(x.r, 1) && x.r != x.g
    } else {
        counter::minus(seqnum, x.r) <= counter::minus(x.g, x.r)
    }
}
