// The content of a record.

#[derive(Clone, Copy, PartialEq, Eq, Debug)]
pub enum Mark {
    Present,
    // the record was taken back; its bytes are 00
    Cleared,
}

// Bytes and mark stand apart, as the definitions under the laws have them.
#[derive(Clone, Copy, PartialEq, Eq, Debug)]
pub struct Body {
    pub bytes: [u8; 16],
    pub mark: Mark,
}
