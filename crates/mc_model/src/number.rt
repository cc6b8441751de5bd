//! Decimal numbers in a line.
ghost use Rattle.std.specs.Option.{SomeIff};
ghost use Rattle.std.specs.Prelude.{◌≡◌, ◌^◌, ◌<◌, ◌≤◌};
ghost use Rattle.std.specs.Str.Parse.{AllDigits, IsNumeral, digits_value};
ghost use Rattle.mc_model.specs.Number.{number_up_to};

/// Parses one or more decimal digits. Returns `None` if the bytes are anything else, or if the
/// number is above `limit`.
pub fn read_number(bytes: &[u8], limit: u64) -> Option<u64>
    ensures number { result ≡ number_up_to limit bytes.now }

    // The same in terms of std's `parse`, which would also accept a leading plus.
    ensures numeral { SomeIff result (IsNumeral 10 bytes.now × (digits_value 10 bytes.now ≤ limit))
        (digits_value 10 bytes.now) }
{
    if bytes.is_empty() {
        return None;
    }
    let value = value_of_digits(bytes)?;
    if value <= limit { Some(value) } else { None }
}

/// Returns the value of the digits, or `None` if a byte isn't a digit or the value doesn't fit.
fn value_of_digits(bytes: &[u8]) -> Option<u64>
    ensures { SomeIff result (AllDigits 10 bytes.now × (digits_value 10 bytes.now < 2 ^ 64))
        (digits_value 10 bytes.now) }
{
    let mut value: u64 = 0;
    for byte in bytes {
        if !byte.is_ascii_digit() {
            return None;
        }
        let digit = u64::from(*byte - b'0');
        value = value.checked_mul(10)?.checked_add(digit)?;
    }
    Some(value)
}
