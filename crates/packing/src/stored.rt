ghost use Rattle.std.specs.Prelude.{◌≡◌, ℕ, ◌<◌, Bool};
ghost use Rattle.std.specs.List.{list_all};
ghost use Rattle.packing.specs.Packing.{stores_digit, stores_column};

// Whether a byte stores a digit -1, 0 or 1, in two's complement.
fn stores_digit(byte: u8) -> bool
    ensures { result ≡ stores_digit byte }
{
    byte < 2 || byte > 254
}

// Whether a byte stores a column of two such digits.
fn stores_column(byte: u8) -> bool
    ensures { result ≡ stores_column byte }
{
    byte <= 8
}

// Whether each byte stores what is asked for.
fn all_store<F: Fn(u8) -> bool>(bytes: &[u8], stores: F) -> bool
    requires { F.IsAlwaysCallable stores }
    ensures { (p : ℕ → Bool) → ((b : ℕ) (r : Bool) → b < 256 → F.post stores b r → r ≡ p b) → result ≡ list_all p bytes.now }
{
    // Not `all`, which stops at the first other byte: without that branch the compiler asks 32 bytes at a time.
    let mut good = true;
    for &byte in bytes {
        good &= stores(byte);
    }
    good
}

// Whether each byte stores a digit.
pub fn all_store_digits(bytes: &[u8]) -> bool
    ensures { result ≡ list_all stores_digit bytes.now }
{
    all_store(bytes, stores_digit)
}

// Whether each byte stores a column.
pub fn all_store_columns(bytes: &[u8]) -> bool
    ensures { result ≡ list_all stores_column bytes.now }
{
    all_store(bytes, stores_column)
}
