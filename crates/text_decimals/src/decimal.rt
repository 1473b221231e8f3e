// Plain decimals read and written.
ghost use Rattle.std.specs.Prelude.{◌≡◌, ◌≤◌, length, drop};
ghost use Rattle.text.specs.Put.{written, past};
ghost use Rattle.text_decimals.specs.Decimal.{number_of, digit_on, decimal_of};

use text::put::put;

// The number that the text says, of any length of digits; none where it isn't plain or is above the top value.
pub fn decimal(text: &[u8], top: u64) -> Option<u64>
    ensures { result ≡ number_of text.now top }
{
    if text.len() == 0 {
        return None;
    }
    if 1 < text.len() && text[0] == b'0' {
        return None;
    }
    let mut value = 0;
    for octet in text {
        value = with_digit(value, *octet, top)?;
    }
    Some(value)
}

// The number with one digit more behind it, if it stays within the top value.
fn with_digit(value: u64, octet: u8, top: u64) -> Option<u64>
    ensures { result ≡ digit_on value octet top }
{
    if octet < b'0' || b'9' < octet {
        return None;
    }
    let digit = (octet - b'0') as u64;
    if top < digit {
        return None;
    }
    if (top - digit) / 10 < value {
        return None;
    }
    Some(value * 10 + digit)
}

// Writes the plain decimal of a number, as `put` does.
pub fn put_decimal(out: &mut [u8], at: usize, value: u64) -> usize
    ensures value { result ≡ past out.old at (decimal_of value) }
    ensures out_after { out.new ≡ written out.old at (decimal_of value) }
{
    let mut digits = [0u8; 20];
    let first = spell(value, &mut digits);
    put(out, at, &digits[first..])
}

// The digits of a number at the end of the twenty places, and the place of the first.
fn spell(value: u64, digits: &mut [u8; 20]) -> usize
    requires { length digits.old ≡ 20 }
    ensures digits_len { length digits.new ≡ 20 }
    ensures upper_bound { result ≤ 20 }
    ensures digits_after { drop result digits.new ≡ decimal_of value }
{
    let mut at = 19;
    let mut rest = value;
    while 9 < rest {
        digits[at] = b'0' + (rest % 10) as u8;
        rest /= 10;
        at -= 1;
    }
    digits[at] = b'0' + rest as u8;
    at
}
