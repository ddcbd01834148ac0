// Decimal and hexadecimal digits, as bytes of text.
ghost use Rattle.std.specs.Prelude.{◌≡◌, ◌+◌, ◌*◌, ◌<◌, if◌then◌else◌, Some, None, [], ◌∷◌, nat_le};
ghost use Rattle.entries.specs.Digits.{Decimal, decimal_value, hex_digit, spelled};

// The number with one more digit behind it, where that is a record number.
pub(crate) fn with_digit(number: u16, digit: u8) -> Option<u16>
    requires { Decimal digit }
    ensures { result ≡ (if nat_le (number * 10 + decimal_value digit) 65535 then Some (number * 10 + decimal_value digit) else None) }
{
    number.checked_mul(10)?.checked_add(u16::from(digit - b'0'))
}

// The digit that is worth `n`, a capital from ten on.
// By hand: `hex` fills a slice with small letters alone, and turning them to capitals behind it is no plainer.
fn hex_digit(n: u8) -> u8
    requires { n < 16 }
    ensures { result ≡ hex_digit n }
{
    if n < 10 { b'0' + n } else { b'A' + (n - 10) }
}

// The two digits of a byte, the more significant one first.
pub(crate) fn digits_of(byte: u8) -> [u8; 2]
    ensures { result ≡ spelled (byte ∷ []) }
{
    [hex_digit(byte / 16), hex_digit(byte % 16)]
}
