//! How deep trees may stand in one another.
ghost use Rattle.std.specs.Prelude.{◌≡◌};

/// The greatest height of a tree that is read: a bound of this parser's (C99 5.2.4.1).
pub fn most_height() -> u32
    ensures { result ≡ 256 }
{
    256
}
