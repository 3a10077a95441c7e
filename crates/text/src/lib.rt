// Text: lower-case hexadecimal, decimal numbers, lines. Nothing here knows of packets or sessions.
#![tactic(auto)]

pub mod decimal;
pub mod digit;
pub mod hex;
pub mod line;
pub mod writer;
