// Bytes in a lent buffer: copied to a place, or filled in from the front. Nothing here knows what the bytes mean.
#![tactic(auto)]

ghost use Rattle.std.specs.Prelude.{◌≡◌, ◌+◌, ◌≤◌, length};
ghost use Rattle.std.proofs.Math.Seq.{paste};

// Copies all of src into dst from index `at` on, which must have room for it. No other byte of dst changes. (`copy_from_slice` would have the archive for
// C ask for `memmove`, which it doesn't need.)
pub fn copy_in(dst: &mut [u8], at: usize, src: &[u8])
    requires { at + length src.now ≤ length dst.old }
    ensures { dst.new ≡ paste dst.old at src.now (length src.now) }
{
    for (i, x) in src.iter().enumerate() {
        dst[at + i] = *x;
    }
}
