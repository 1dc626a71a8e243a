// Numbers as they are written.
ghost use Rattle.std.specs.Prelude.{◌≡◌, ◌≤◌, length};
ghost use Rattle.texts.specs.Numbers.{sized, digits, number, Decimal};

// Whether the field is one digit, or two to ten with no zero in front, if it is of digits.
fn is_sized(field: &[u8]) -> bool
    ensures { result ≡ sized field.now }
{
    match field {
        [] => false,
        [_] => true,
        [first, ..] => *first != b'0' && field.len() <= 10,
    }
}

// The number that the digits write. A `for`: `try_fold` would be no plainer with a test and a return in its closure.
fn read_digits(field: &[u8]) -> Option<u64>
    requires { length field.now ≤ 10 }
    ensures { result ≡ digits 0 field.now }
{
    let mut value: u64 = 0;
    for b in field {
        if !b.is_ascii_digit() {
            return None;
        }
        value = value * 10 + u64::from(*b - b'0');
    }
    Some(value)
}

// The number that the bytes write: 0, or up to ten digits with no zero in front, below 2^32.
pub fn read_number(field: &[u8]) -> Option<u32>
    ensures value { result ≡ number field.now }
    ensures law { Decimal field.now result }
{
    if !is_sized(field) {
        return None;
    }
    u32::try_from(read_digits(field)?).ok()
}
