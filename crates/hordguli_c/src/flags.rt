//! Booleans as numbers.
ghost use Rattle.std.specs.Prelude.{◌≡◌};
ghost use Rattle.hordguli_c.specs.Flags.{flag};

/// Returns 1 for true, and 0 for false.
pub fn flag(is: bool) -> u32
    ensures { result ≡ flag is }
{
    if is { 1 } else { 0 }
}
