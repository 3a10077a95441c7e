// The fields of an answer line of the program `calls`, and the rooms whose bytes they show.
#![tactic(auto)]

pub mod answer;
pub mod reply;
pub mod rooms;
pub mod show;
