// A slice copied into another by a loop of our own: what the library's copy becomes is a call of the machine's `memmove`, and the archive for C asks
// of its surroundings for `memcpy` and `memset` alone.
ghost use Rattle.std.specs.Prelude.{◌≡◌, length};

// Asked for: slices of one length.
pub fn copy<T: Copy>(from: &[T], to: &mut [T])
    requires { length from.now ≡ length to.old }
    ensures { to.new ≡ from.now }
{
    for i in 0..from.len() {
        to[i] = from[i];
    }
}
