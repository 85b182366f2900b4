// Decimal numbers, read.
ghost use Rattle.std.specs.Prelude.{◌≡◌, ℕ, ◌+◌, ◌-◌, ◌*◌, ◌≤◌, ◌&&◌, if◌then◌else◌, Some, None, nat_le};
ghost use Rattle.std.specs.Char.{is_ascii_digit};
ghost use Rattle.text.specs.Numbers.{number, plain, value_after, WrittenAs};
ghost use Rattle.std.specs.Str.{all_ascii_digits};

// The number that a text is, if it is at most `most`: digits without a needless leading zero.
pub fn read_number(text: &[u8], most: u32) -> Option<u32>
    ensures number { result ≡ number most text.now }
    ensures law { WrittenAs most text.now result }
{
    number_in(text, most)
}

// The same by its definition alone.
fn number_in(text: &[u8], most: u32) -> Option<u32>
    ensures { result ≡ number most text.now }
{
    if !is_plain(text) {
        return None;
    }
    digits_after(0, text, most)
}

// The number that digits write after those of `first`, if it is at most `most`.
fn digits_after(first: u32, text: &[u8], most: u32) -> Option<u32>
    ensures { first ≤ most → result ≡ (if all_ascii_digits text.now && nat_le (value_after first text.now) most then Some (value_after first text.now) else None) }
{
    text.iter()
        .try_fold(first, |value, b| with_digit(value, *b, most))
}

// Whether a text has a byte, and no needless zero in front.
fn is_plain(text: &[u8]) -> bool
    ensures { result ≡ plain text.now }
{
    match text {
        [] => false,
        [b'0', _, ..] => false,
        _ => true,
    }
}

// The number with one digit more, if it is at most `most`.
fn with_digit(value: u32, digit: u8, most: u32) -> Option<u32>
    ensures { result ≡ (if is_ascii_digit digit && nat_le (value * 10 + (digit - 48)) most then Some (value * 10 + (digit - 48)) else None) }
{
    if !digit.is_ascii_digit() {
        return None;
    }
    let longer = u64::from(value) * 10 + u64::from(digit - b'0');
    if longer <= u64::from(most) {
        Some(longer as u32)
    } else {
        None
    }
}
