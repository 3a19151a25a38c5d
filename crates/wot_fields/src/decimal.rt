//! Decimal numbers without leading zeros, up to a bound. It uses `specs/Decimal.antt`. Times, amounts and counts
//! in lines are read through it; `itoa` prints them.
ghost use Rattle.std.specs.Prelude.{◌≡◌, ◌≤◌, IfSome};
ghost use Rattle.wot_fields.specs.Decimal.{decimal_up_to, digits_up_to, positive_up_to};

/// The number that digits spell after those of `value`, if it is at most `most`. Each step makes the number ten times
/// as large, unless it is 0, so the recursion ends early on a long text.
fn read_digits(most: u32, value: u32, digits: &[u8]) -> Option<u32>
    requires { value ≤ most }
    ensures read { result ≡ digits_up_to most value digits.now }
    ensures small { IfSome result (λ number. number ≤ most) }
{
    match digits {
        [] => Some(value),
        [digit, others @ ..] => {
            if !digit.is_ascii_digit() {
                return None;
            }
            let more = u64::from(value) * 10 + u64::from(*digit - b'0');
            if more > u64::from(most) {
                return None;
            }
            read_digits(most, more as u32, others)
        }
    }
}

/// Reads a decimal without leading zeros, of at most `most`.
#[tactic(auto, unfolding(crate::specs::Decimal::decimal_up_to))]
pub fn read_decimal(most: u32, text: &[u8]) -> Option<u32>
    ensures read { result ≡ decimal_up_to most text.now }
    ensures small { IfSome result (λ number. number ≤ most) }
{
    match text {
        [] => None,
        [b'0', _, ..] => None,
        _ => read_digits(most, 0, text),
    }
}

/// Reads a decimal from 1 to `most`, without leading zeros.
#[tactic(auto, unfolding(crate::specs::Decimal::decimal_up_to, crate::specs::Decimal::positive_up_to))]
pub fn read_positive(most: u32, text: &[u8]) -> Option<u32>
    ensures read { result ≡ positive_up_to most text.now }
    ensures small { IfSome result (λ number. number ≤ most) }
{
    match read_decimal(most, text) {
        Some(0) | None => None,
        Some(number) => Some(number),
    }
}
