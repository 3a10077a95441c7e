// The largest numbers that words may spell.
use table::end::End;
use table::storage;

// A SID or a length, and a counter.
pub const SHORT: u64 = 65535;

pub const COUNTER: u64 = 4294967295;

// A room, as a length and as a limit.
pub const ROOM_LENGTH: usize = 8192;

pub const ROOM: u64 = ROOM_LENGTH as u64;

// A part of the storage, and the most of it that one line shows.
pub const STORAGE: u64 = storage::LENGTH as u64;

pub const PEEK: u64 = 4096;

// The last slot and the last state.
pub const SLOT: u64 = End::SLOTS as u64 - 1;

pub const STATE: u64 = 3;
