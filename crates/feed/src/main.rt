// The line program: standard input's frames to a fresh server, and a report of each on standard output. The work is `capture::feed`.
#![tactic(auto)]

ghost use Rattle.std.specs.Prelude.{◌≤◌, length};

use std::io::{Read, Stderr, Stdin, Write};

// Room for the report. Its contract says nothing, so that no proof looks at so many zeros.
fn room() -> [u8; capture::REPORT] {
    [0; capture::REPORT]
}

fn lost(mut to: Stderr) {
    let _ = to.write_all(b"feed: standard output took no more; the report is not whole\n");
}

// Standard input into the buffer, until either ends. A read that fails ends it too.
fn read_full(mut from: Stdin, input: &mut [u8]) -> usize
    ensures { result ≤ length input.new }
{
    let mut n = 0;
    while n < input.len() {
        let k = from.read(&mut input[n..]).unwrap_or(0);
        if k == 0 {
            break;
        }
        n += k;
    }
    n
}

fn main(rt: HostRuntime) {
    let mut input = [0u8; capture::INPUT];
    let n = read_full(rt.stdin(), &mut input);
    let mut out = room();
    let k = capture::feed(&input[..n], &mut out);
    if rt.stdout().write_all(&out[..k]).is_err() {
        lost(rt.stderr());
    }
}
