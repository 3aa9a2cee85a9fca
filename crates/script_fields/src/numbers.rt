//! Numbers as a script spells them.

ghost use Rattle.std.specs.Prelude.{◌≡◌, ◌<◌, ◌≤◌, ◌≤ℤ◌, min, IfSome, option_map, option_and_then};
ghost use Rattle.script_fields.specs.Numbers.{read_on, natural_of, negative, integer_kept, natural_within, integer_within, number_said};

/// The number from `low` to `high` that a field spells without a sign.
pub fn natural_within(field: &[u8], low: u64, high: u64) -> Option<u64>
    requires { high < u64.MAX }
    ensures value { result ≡ natural_within low high field.now }
    ensures within { IfSome result (λ n. (low ≤ n) × (n ≤ high)) }
{
    let value = capped_natural(field)?;
    if low <= value && value <= high {
        Some(value)
    } else {
        None
    }
}

// The number from `low` to `high` that a field spells, behind a minus where it is negative.
fn integer_within(field: &[u8], low: i64, high: i64) -> Option<i64>
    ensures value { result ≡ integer_within low high field.now }
    ensures within { IfSome result (λ z. (low ≤ℤ z) × (z ≤ℤ high)) }
{
    match field {
        [b'-', digits @ ..] => negative_within(digits, low, high),
        _ => {
            let size = natural_within(field, 0, (1 << 63) - 1)?;
            kept_within(i128::from(size), low, high)
        }
    }
}

/// The number of 64 bits that a field spells.
pub fn number_said(field: &[u8]) -> Option<i64>
    ensures { result ≡ number_said field.now }
{
    integer_within(field, i64::MIN, i64::MAX)
}

fn negative_within(digits: &[u8], low: i64, high: i64) -> Option<i64>
    ensures value { result ≡ option_and_then (integer_kept low high) (option_and_then negative (natural_of digits.now)) }
    ensures within { IfSome result (λ z. (low ≤ℤ z) × (z ≤ℤ high)) }
{
    let size = natural_within(digits, 1, 1 << 63)?;
    kept_within(-i128::from(size), low, high)
}

fn kept_within(value: i128, low: i64, high: i64) -> Option<i64>
    ensures value { result ≡ integer_kept low high value }
    ensures within { IfSome result (λ z. (low ≤ℤ z) × (z ≤ℤ high)) }
{
    if i128::from(low) <= value && value <= i128::from(high) {
        Some(value as i64)
    } else {
        None
    }
}

// The number that digits spell, lowered to the largest `u64` where it is greater.
fn capped_natural(digits: &[u8]) -> Option<u64>
    ensures { result ≡ option_map (min u64.MAX) (natural_of digits.now) }
{
    match digits {
        [] => None,
        [b'0', _, ..] => None,
        _ => capped_digits(digits),
    }
}

fn capped_digits(digits: &[u8]) -> Option<u64>
    ensures { result ≡ option_map (min u64.MAX) (read_on 0 digits.now) }
{
    let mut value = 0u64;
    for digit in digits {
        if !digit.is_ascii_digit() {
            return None;
        }
        value = value
            .saturating_mul(10)
            .saturating_add(u64::from(*digit - b'0'));
    }
    Some(value)
}
