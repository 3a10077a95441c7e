// A capture of frames, line by line, fed to one fresh server: from the input's bytes to the report's bytes. No input and no output here.
#![tactic(auto)]

ghost use Rattle.std.specs.Prelude.{◌≡◌, ◌-◌, ◌≤◌, length};
ghost use Rattle.buffer.specs.Onto.{onto};
ghost use Rattle.table.specs.declared.end.Role as role';
ghost use Rattle.table.specs.End.{start_of};
ghost use Rattle.text.specs.Lines.{lines};
ghost use Rattle.capture.specs.Feed.{input_limit, report, feed_text};

use table::end::{End, Role};
use table::storage;
use text::line::Lines;
use text::writer::Writer;

// At most 65,536 bytes of the input (more is dropped).
pub const INPUT: usize = 65536;

// Room for any report: at most 65,536 lines, one to a byte of the input, none over 26 bytes, and the last line, which needs room for 20.
// (26 is 5 + 1 + 3 + 1 + 4 + 1 + 10 + 1, with any number of 32 bits for the unread packets. The longest report that there is, that of 65,536
// empty lines, has 1,037,479 bytes.)
pub const REPORT: usize = 1703956;

// Puts the report on some lines at the front of `out`, and answers its length; later bytes are untouched.
fn feed_lines(text: &[u8], out: &mut [u8; REPORT]) -> usize
    requires { length text.now ≤ input_limit }
    ensures out_after { out.new ≡ onto (report 1 (start_of role'.Role.Server) (lines text.now)) out.old }
    ensures value { result ≡ length (report 1 (start_of role'.Role.Server) (lines text.now)) }
{
    let mut storage = [0; storage::LENGTH];
    let mut e = End::start(Role::Server);
    let mut w = Writer::from(out, 0);
    for (i, line) in Lines::of(text).enumerate() {
        let l = fed::one_line(&mut e, line, &mut storage);
        report::line_row(&mut w, i as u32 + 1, l);
    }
    report::last_row(&mut w, e.up, e.held());
    w.place()
}

// Feeds a capture, at most its first 65,536 bytes, to a fresh server line by line, and puts the report at the front of the buffer. The answer is
// the report's length; later bytes are untouched.
#[tactic(auto, using(crate::proofs::Reports::counted))]
pub fn feed(input: &[u8], out: &mut [u8; REPORT]) -> usize
    ensures out_after { out.new ≡ onto (feed_text input.now) out.old }
    ensures value { result ≡ length (feed_text input.now) }
{
    let n = input.len().min(INPUT);
    feed_lines(&input[..n], out)
}
