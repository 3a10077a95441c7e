// Why a call ends without its work done, by name and by number: refusals and faults. The order of a call's numbers is in specs/, its laws in proofs/.
#![tactic(auto)]

pub mod fault;
pub mod refusal;
