//! Numbers in decimal digits.

ghost use Rattle.std.specs.Prelude.{◌≡◌, Some, fold};
ghost use Rattle.px_script.specs.Words.{number_of, small_of, with_digit};

fn read_digits(digits: &[u8]) -> Option<u64>
    ensures { result ≡ fold with_digit (Some 0) digits.now }
{
    let mut number: u64 = 0;
    for digit in digits {
        if !digit.is_ascii_digit() {
            return None;
        }
        let tens = number.checked_mul(10)?;
        number = tens.checked_add(u64::from(*digit - b'0'))?;
    }
    Some(number)
}

/// A number below 2^64 with no sign and no leading zero.
pub fn read_number(word: &[u8]) -> Option<u64>
    ensures { result ≡ number_of word.now }
{
    match word {
        [] | [b'0', _, ..] => None,
        _ => read_digits(word),
    }
}

/// A number below 2^32 with no sign and no leading zero.
pub fn read_small(word: &[u8]) -> Option<u32>
    ensures { result ≡ small_of word.now }
{
    u32::try_from(read_number(word)?).ok()
}
