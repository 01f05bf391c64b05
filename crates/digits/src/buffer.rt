ghost use Rattle.std.specs.Prelude.{◌≡◌, length, replicate};

// All places 0.
pub fn clear(buffer: &mut [u8])
    ensures { buffer.new ≡ replicate (length buffer.old) 0 }
{
    buffer.fill(0);
}
