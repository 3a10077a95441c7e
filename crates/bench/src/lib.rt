// The calls as a C program reaches them, for bench/ alone: an end crosses as words in a slice (crate crossing), and lives in one local while it is
// here. What comes back, and every word and byte that was lent, is promised by the definitions that the calls' own contracts cite (specs/Call.antt).
#![tactic(auto)]

mod call;
