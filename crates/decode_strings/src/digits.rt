// Two upper-case hex digits.
ghost use Rattle.std.specs.Prelude.{◌≡◌};
ghost use Rattle.decode_strings.specs.Hex.{pair_of};

// Returns the value of two upper-case hex digits, None if one of the bytes is none.
#[tactic(auto, unfolding(crate::specs::Hex::pair_of))]
pub fn pair(a: u8, b: u8) -> Option<u8>
    ensures { result ≡ pair_of a b }
{
    let high = base::upper_digit_value(a)?;
    let low = base::upper_digit_value(b)?;
    Some(16 * high + low)
}
