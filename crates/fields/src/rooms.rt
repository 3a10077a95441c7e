// The rooms that calls get for packets and payloads: filled before the call, looked at after it.
ghost use Rattle.std.specs.Prelude.{◌≡◌, ℕ, ◌≤◌, min, length, take, drop, replicate};
ghost use Rattle.buffer.specs.Onto.{onto, Front};
ghost use Rattle.words.specs.Words.{value_of, room_length};
ghost use Rattle.fields.specs.Rooms.{Part, lent_of, fill, bytes_of, is_filled, is_touched};

use std::marker::Model;
use text::hex;
use words::limits;

// The byte that rooms are filled with.
pub const FILL: u8 = 0xa5;

// A room by itself.
pub type Room = [u8; limits::ROOM_LENGTH];

// An array of which calls are lent the first `count` bytes.
#[derive(Drop)]
pub struct Lent<const N: usize> {
    bytes: [u8; N],
    count: usize,
}

pub type LentRoom = Lent<{ limits::ROOM_LENGTH }>;

// A contract sees the fields. (A ghost field would say as much, but then no part of `bytes` could be lent.)
impl<const N: usize> Model for Lent<N> {
    ghost Value = { Part };

    ghost view = { λ a. record { bytes = a.bytes; count = a.count } };

    ghost invariant = { λ a. a.count ≤ N };
}

impl<const N: usize> Lent<N> {
    // An array of that byte, all of it lent.
    pub fn filled(byte: u8) -> Self
        ensures bytes { result.bytes ≡ replicate N byte }
        ensures count { result.count ≡ N }
    {
        Lent {
            bytes: [byte; N],
            count: N,
        }
    }

    // From here on the first n bytes are lent, or all where there are fewer; no byte changes.
    pub fn lend(&mut self, n: usize)
        ensures bytes { self.new.bytes ≡ self.old.bytes }
        ensures count { self.new.count ≡ min n N }
    {
        self.count = n.min(N);
    }

    // All bytes, lent or not.
    pub fn whole(&self) -> &[u8]
        ensures { result.now ≡ self.now.bytes }
    {
        &self.bytes
    }

    // The bytes that are lent.
    pub fn lent(&self) -> &[u8]
        ensures { result.now ≡ lent_of self.now }
    {
        &self.bytes[..self.count]
    }
}

impl<const N: usize> Lent<N> {
    ghost use Rattle.std.specs.Prelude.{◌≡◌};
    ghost use Rattle.std.specs.Borrow.{sem};
    ghost use Rattle.fields.specs.Rooms.{lent_of};
    ghost use Rattle.fields.specs.Lending.{LendsFront};

    // The bytes that are lent, for a call to write into.
    pub fn lent_mut(&mut self) -> &mut [u8]
        ensures* writes_back { sem 𝓛 (LendsFront N self.entry result) }
        ensures value { result.now ≡ lent_of self.old }
    {
        &mut self.bytes[..self.count]
    }
}

// The first `length` bytes of a room, or all where it has fewer. A length that a call answers goes through here before it is the end of a range.
pub fn front(room: &[u8], length: usize) -> &[u8]
    ensures { result.now ≡ take length room.now }
{
    &room[..length.min(room.len())]
}

// Whether a call that answered n wrote into a room where it mustn't: behind the first `front` bytes if n is 0, anywhere if it refused. What shows it is
// a byte other than FILL there.
pub fn touched(n: u8, front: usize, room: &[u8]) -> bool
    ensures { result ≡ is_touched n front room.now }
{
    if n == 0 {
        return !is_filled(room, front);
    }
    !is_filled(room, 0)
}

// Whether each byte from a place on is what rooms are filled with.
fn is_filled(room: &[u8], from: usize) -> bool
    ensures { result ≡ is_filled (drop from room.now) }
{
    room.iter().skip(from).all(|b| *b == FILL)
}

// The room that word k of the line asks for, filled. A word that is no number up to 8,192 asks for no byte.
pub fn asked(line: &[u8], k: usize) -> LentRoom
    ensures bytes { result.bytes ≡ replicate room_length fill }
    ensures count { result.count ≡ value_of line.now k room_length }
{
    let count = words::value(line, k, limits::ROOM) as usize;
    Lent {
        bytes: [FILL; limits::ROOM_LENGTH],
        count,
    }
}

// Puts the bytes that a word spells in hexadecimal at the front of a room, and lends those; later bytes stay. A word that is no hexadecimal, or spells more
// bytes than a room has, spells none. (A room that is answered by value is copied twice.)
pub fn spell(chars: &[u8], room: &mut LentRoom)
    ensures bytes { room.new.bytes ≡ onto (bytes_of chars.now) room.old.bytes }
    ensures count { room.new.count ≡ length (bytes_of chars.now) }
{
    room.count = bytes(chars, &mut room.bytes);
}

// A room of zeros with the bytes that a word spells at its front, and those lent.
pub fn spelled(chars: &[u8]) -> LentRoom
    ensures bytes { result.bytes ≡ onto (bytes_of chars.now) (replicate room_length 0) }
    ensures count { result.count ≡ length (bytes_of chars.now) }
{
    let mut room = Lent::filled(0);
    spell(chars, &mut room);
    room
}

// Writes the bytes that a word spells in hexadecimal at the front of an array, and answers how many; later bytes stay. A word that is no hexadecimal, or
// spells more bytes than a room has, spells none.
pub fn bytes(chars: &[u8], out: &mut Room) -> usize
    ensures front { Front result out.new }
    ensures value { result ≡ length (bytes_of chars.now) }
    ensures out_after { out.new ≡ onto (bytes_of chars.now) out.old }
{
    if hex::is_hex(chars) && chars.len() <= 2 * limits::ROOM_LENGTH {
        return hex::decode(chars, out);
    }
    0
}
