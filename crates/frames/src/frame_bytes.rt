// The bytes of one frame, check byte included, in fixed memory.
ghost use Rattle.std.specs.Prelude.{◌≡◌, ◌≤◌, take};

// At most 64 bytes, as many as the longest line spells.
// A buffer and its length, since a `FrameBytes` is `Copy` and the kit's `ArrayVec` is not. `Line` of the crate `lines` has this shape too, but
// grows: a type for both would have `as_slice` alone.
#[derive(Clone, Copy)]
pub struct FrameBytes {
    pub(crate) bytes: [u8; 64],
    pub(crate) len: usize,
    ghost within: { len ≤ 64 },
}

impl FrameBytes {
    pub fn as_slice(&self) -> &[u8]
        ensures { result.now ≡ take self.now.len self.now.bytes }
    {
        &self.bytes[..self.len]
    }
}
