// The first bytes of one line, in fixed memory.
ghost use Rattle.std.specs.Prelude.{◌≡◌, ◌≤◌, take};

// How many bytes of a line are kept.
pub(crate) const KEPT: usize = 129;

// At most 129 bytes: enough to see that a line is longer than the 128 that a request may have.
// A buffer and its length, since a `Line` is `Copy` and the kit's `ArrayVec` is not.
#[derive(Clone, Copy)]
pub struct Line {
    pub(crate) bytes: [u8; 129],
    pub(crate) len: usize,
    ghost within: { len ≤ 129 },
}

impl Line {
    ghost use Rattle.std.specs.Prelude.{[], ◌++◌};
    ghost use Rattle.lines.specs.Lines.{kept, keeping};

    pub(crate) fn new() -> Line
        ensures { kept result ≡ [] }
    {
        Line {
            bytes: [0; 129],
            len: 0,
        }
    }

    pub fn as_slice(&self) -> &[u8]
        ensures { result.now ≡ take self.now.len self.now.bytes }
    {
        &self.bytes[..self.len]
    }

    // More bytes of the line; what is past the first 129 is let go.
    pub(crate) fn keep(&mut self, bytes: &[u8])
        ensures { kept self.new ≡ keeping (kept self.old ++ bytes.now) }
    {
        // Saturating, so that another `KEPT` is refused by what is promised and not by the difference.
        let count = bytes.len().min(KEPT.saturating_sub(self.len));
        let end = self.len + count;
        self.bytes[self.len..end].copy_from_slice(&bytes[..count]);
        self.len = end;
    }
}
