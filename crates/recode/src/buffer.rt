ghost use Rattle.std.specs.Prelude.{◌≡◌, ◌++◌, reverse, ◌-◌, ◌≤◌, length, replicate};

// Copies the scalar's bytes into places that hold 0, the least significant first. By index: over two iterators `returns` stays open.
pub fn copy_into(scalar: &[u8], bytes: &mut [u8])
    requires { (length scalar.now ≤ length bytes.old) × (bytes.old ≡ replicate (length bytes.old) 0) }
    ensures { bytes.new ≡ reverse scalar.now ++ replicate (length bytes.old - length scalar.now) 0 }
{
    let n = scalar.len();
    for i in 0..n {
        bytes[i] = scalar[n - 1 - i];
    }
}
