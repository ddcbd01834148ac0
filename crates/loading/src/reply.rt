// What became of a line.
ghost use Rattle.std.specs.Prelude.{Some};
ghost use Rattle.loading.specs.Messages.{reply_words};

use entries::BadLine;
use interfaces::fault::Fault;
use std::fmt;

#[derive(Clone, Copy, PartialEq, Debug)]
pub enum Reply {
    // The line gives no entry. Nothing is changed.
    Bad(BadLine),
    // The record has the body of the line, and was read back the same.
    Written { record: u16 },
    // The home refused the write of the record. Nothing is changed.
    Refused { record: u16, fault: Fault },
    // The home took the write and gives something else back: no home that keeps its rules does.
    Differs { record: u16 },
}

impl fmt::Display for Reply {
    ghost output = { λ reply. Some (reply_words reply) };

    fn fmt<W: fmt::Write>(&self, f: &mut fmt::Formatter<W>) -> fmt::Result {
        match self {
            Reply::Bad(bad) => write!(f, "bad line: {bad}"),
            Reply::Written { record } => write!(f, "record {record} written and read back"),
            Reply::Refused { record, fault } => write!(f, "record {record} refused: {fault}"),
            Reply::Differs { record } => write!(f, "record {record} differs from what was written"),
        }
    }
}
