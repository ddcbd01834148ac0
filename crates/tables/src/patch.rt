// Bytes that are put into a body from an offset on.
ghost use Rattle.std.specs.Prelude.{◌≡◌};
ghost use Rattle.tables.specs.View.{written_within};

use model::body::{Body, Mark};

#[derive(Clone, Copy)]
pub struct Patch<'a> {
    pub offset: u8,
    pub bytes: &'a [u8],
}

impl Patch<'_> {
    // The body with the bytes, and present; as it was where they do not fit.
    pub(crate) fn applied_to(self, body: Body) -> Body
        ensures { result ≡ written_within self.entry.offset self.entry.bytes.now body }
    {
        let start = usize::from(self.offset);
        let end = start + self.bytes.len();
        // by index: of a write through `get_mut` a proof knows only that the length stays
        if end > body.bytes.len() {
            return body;
        }
        let mut bytes = body.bytes;
        bytes[start..end].copy_from_slice(self.bytes);
        Body {
            bytes,
            mark: Mark::Present,
        }
    }
}
