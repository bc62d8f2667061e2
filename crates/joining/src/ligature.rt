//! The ligatures of lam and alef.
ghost use Rattle.std.specs.Prelude.{◌≡◌, ◌+◌, ◌≤◌};
ghost use Rattle.joining.specs.Ligatures.{lam_alef, of_alef};

// Returns the ligature of an alef's final form with a form of lam: the initial one if `place` is 0, the
// medial one if it is 1.
fn of_alef(place: u32, alef: u32) -> Option<u32>
    requires { place ≤ 1 }
    ensures { result ≡ of_alef place alef }
{
    match alef {
        0xFE82 => Some(0xFEF5 + place),
        0xFE84 => Some(0xFEF7 + place),
        0xFE88 => Some(0xFEF9 + place),
        0xFE8E => Some(0xFEFB + place),
        _ => None,
    }
}

/// Returns the code point of the ligature of a lam and an alef that it joins, given those of their
/// presentation forms, or `None` if the two form no ligature.
pub fn lam_alef(lam: u32, alef: u32) -> Option<u32>
    ensures { result ≡ lam_alef lam alef }
{
    match lam {
        0xFEDF => of_alef(0, alef),
        0xFEE0 => of_alef(1, alef),
        _ => None,
    }
}
