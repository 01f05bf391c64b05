ghost use Rattle.std.specs.Prelude.{◌≡◌, true, ◌≤◌, length};
ghost use Rattle.digits.specs.Two.{P, Q};
ghost use Rattle.packing.specs.Packing.{packed_columns, unpacked_row};
ghost use Rattle.packing.specs.Call.{packable};

// Fills the buffer with the bytes of the first columns of two rows. Each of their digits is -1, 0 or 1.
pub fn pack_all(k_digits: &[u8], l_digits: &[u8], packed: &mut [u8])
    requires room { (length packed.old ≤ length k_digits.now) × (length packed.old ≤ length l_digits.now) }
    requires packable { packable (length packed.old) k_digits.now l_digits.now ≡ true }
    ensures { packed.new ≡ packed_columns (length packed.old) k_digits.now l_digits.now }
{
    // By the index, and not by `zip`: after an adapter of `iter_mut` a proof knows nothing of what was written.
    for (i, byte) in packed.iter_mut().enumerate() {
        *byte = crate::column::byte_of(k_digits[i], l_digits[i]);
    }
}

// Fills two rows with the digits of so many bytes' columns.
pub fn unpack_all(packed: &[u8], k_digits: &mut [u8], l_digits: &mut [u8])
    requires { (length k_digits.old ≡ length packed.now) × (length l_digits.old ≡ length packed.now) }
    ensures first { k_digits.new ≡ unpacked_row P (length packed.now) packed.now }
    ensures second { l_digits.new ≡ unpacked_row Q (length packed.now) packed.now }
{
    // By the index, as above.
    for (i, &byte) in packed.iter().enumerate() {
        k_digits[i] = crate::column::first_of(byte);
        l_digits[i] = crate::column::second_of(byte);
    }
}
