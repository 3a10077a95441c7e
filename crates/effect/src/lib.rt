// What a packet makes of a session: the two ranges, the table, and the change of each of its cells. Nothing here knows of slots or bytes.
#![tactic(auto)]

pub mod cell;
pub mod range;
