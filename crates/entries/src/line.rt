// The parts of a line: its record number, and the digits of its body.
ghost use Rattle.std.specs.Prelude.{◌≡◌, if◌then◌else◌, Some, None, nat_le, MatchResult, IfOk};
ghost use Rattle.std.specs.List.{AllByRecursion, prefix_len};
ghost use Rattle.entries.specs.Digits.{is_decimal, Decimal, number as number_in, pair_values};
ghost use Rattle.entries.specs.Entries.{without_return as trimmed, leading, following, all_hexadecimal, unless, record_of, body_of};

use super::BadLine;
use super::digit::with_digit;
use hex::FromHex;

// The line, less the one carriage return that it may end in.
pub(crate) fn without_return(line: &[u8]) -> &[u8]
    ensures { result.now ≡ trimmed line.now }
{
    match line {
        [text @ .., b'\r'] => text,
        _ => line,
    }
}

// How many decimal digits the text begins with.
fn count_digits(text: &[u8]) -> usize
    ensures { result ≡ prefix_len is_decimal text.now }
{
    text.iter().take_while(|c| c.is_ascii_digit()).count()
}

// The number that decimal digits write, where it is a record number.
// Digit by digit: `parse` wants text, and with the test that they are text a line takes a third longer.
fn number_of(digits: &[u8]) -> Option<u16>
    requires { AllByRecursion Decimal digits.now }
    ensures { result ≡ (if nat_le (number_in digits.now) 65535 then Some (number_in digits.now) else None) }
{
    let mut number = 0;
    for digit in digits {
        number = with_digit(number, *digit)?;
    }
    Some(number)
}

// The record number that the text begins with, and what follows its digits.
#[tactic(auto, using(crate::proofs::Leads::leads))]
pub(crate) fn read_record(text: &[u8]) -> Result<(u16, &[u8]), BadLine>
    ensures number { MatchResult result (λ read. Ok read.0 ≡ record_of (leading text.now)) (λ bad. Err bad ≡ record_of (leading text.now)) }
    ensures rest { IfOk result (λ read. read.1.now ≡ following text.now) }
{
    let (digits, rest) = text.split_at(count_digits(text));
    if digits.is_empty() {
        return Err(BadLine::NoRecord);
    }
    let record = number_of(digits).ok_or(BadLine::RecordTooLarge)?;
    Ok((record, rest))
}

// The sixteen bytes that 32 hexadecimal digits write.
fn bytes_of(digits: &[u8; 32]) -> Result<[u8; 16], BadLine>
    ensures { result ≡ unless (all_hexadecimal digits.now) BadLine.NotHexadecimal (Ok (pair_values digits.now)) }
{
    <[u8; 16]>::from_hex(digits).map_err(|_| BadLine::NotHexadecimal)
}

// The body that follows the record number.
#[tactic(auto, using(crate::proofs::Hexes::body_of_digits, crate::proofs::Hexes::counted_each))]
pub(crate) fn read_body(rest: &[u8]) -> Result<[u8; 16], BadLine>
    ensures { result ≡ body_of rest.now }
{
    let Some((b' ', digits)) = rest.split_first() else {
        return Err(BadLine::NoBlank);
    };
    let digits = digits.as_array().ok_or(BadLine::WrongLength)?;
    bytes_of(digits)
}
