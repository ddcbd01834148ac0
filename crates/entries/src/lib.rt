// Lines of a loading list: a record number and the sixteen bytes of its body.
#![tactic(auto)]

ghost use Rattle.std.specs.Prelude.{◌≡◌, Some};
ghost use Rattle.entries.specs.Digits.{spelled};
ghost use Rattle.entries.specs.Entries.{entry_of};
ghost use Rattle.entries.specs.Messages.{message};
ghost use Rattle.entries.specs.Spelling.{line_of, ReadsExactly, ShownReadsBack};

use digit::digits_of;
use line::{read_body, read_record, without_return};
use std::fmt;
use std::str::from_utf8;

mod digit;
mod line;
#[cfg(test)]
mod tests;

// What one line loads.
#[derive(Clone, Copy, PartialEq, Eq, Debug)]
pub struct Entry {
    pub record: u16,
    pub body: [u8; 16],
}

// The line that gives the entry.
impl fmt::Display for Entry {
    ghost output = { λ e. Some (line_of e) };

    fn fmt<W: fmt::Write>(&self, f: &mut fmt::Formatter<W>) -> fmt::Result {
        let body = spell_body(&self.body);
        let digits = from_utf8(&body).map_err(|_| fmt::Error)?;
        write!(f, "{} {digits}", self.record)
    }
}

// Why a line gives no entry. Of several reasons the first is told.
#[derive(Clone, Copy, PartialEq, Eq, Debug)]
pub enum BadLine {
    // The line does not begin with a decimal digit.
    NoRecord,
    // The record number is above 65,535.
    RecordTooLarge,
    // No blank follows the record number.
    NoBlank,
    // Not exactly 32 bytes follow the blank.
    WrongLength,
    // One of the 32 is no hexadecimal digit.
    NotHexadecimal,
}

impl fmt::Display for BadLine {
    ghost output = { λ bad. Some (message bad) };

    fn fmt<W: fmt::Write>(&self, f: &mut fmt::Formatter<W>) -> fmt::Result {
        f.write_str(match self {
            BadLine::NoRecord => "no record number at the start of the line",
            BadLine::RecordTooLarge => "record number above 65535",
            BadLine::NoBlank => "no blank after the record number",
            BadLine::WrongLength => "not exactly 32 digits after the blank",
            BadLine::NotHexadecimal => "not a hexadecimal digit among the 32",
        })
    }
}

// The entry that a line gives, as `7 00112233445566778899AABBCCDDEEFF`.
#[tactic(auto, using(crate::proofs::Exactly::reads_exactly))]
pub fn read_entry(line: &[u8]) -> Result<Entry, BadLine>
    ensures said { result ≡ entry_of line.now }
    ensures exactly { ReadsExactly line.now result }
{
    let (record, rest) = read_record(without_return(line))?;
    let body = read_body(rest)?;
    Ok(Entry { record, body })
}

// The 32 digits of a body, with capital letters.
pub fn spell_body(body: &[u8; 16]) -> [u8; 32]
    ensures { result ≡ spelled body.now }
{
    let mut text = [0; 32];
    // By place: an array's `map`, flattened, takes some six times as long.
    for (k, byte) in body.iter().enumerate() {
        let [high, low] = digits_of(*byte);
        text[2 * k] = high;
        text[2 * k + 1] = low;
    }
    text
}

// The line that is shown of an entry gives that entry.
#[tactic(auto, using(crate::proofs::ReadsBack::shown_reads_back))]
pub fn shown_reads_back()
    ensures { ShownReadsBack }
{}
