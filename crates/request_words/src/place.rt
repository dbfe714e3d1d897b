// Texts and numbers put into a lent buffer, one behind another; every other byte stays.
ghost use Rattle.std.specs.Prelude.{◌+◌, ◌≤◌, ◌↔◌, length, IsTrue};

use itoa::{Buffer, Integer};

// How many bytes a line has in words at most: 20 for its number, 2, 65 for an arm request, and the
// line feed. The summary has fewer.
pub const LONGEST: usize = 88;

// Whether there is room for the longest line at a place of a buffer.
pub(crate) fn has_room(out: &[u8], at: usize) -> bool
    ensures { IsTrue result ↔ (at + 88 ≤ length out.now) }
{
    out.len().saturating_sub(at) >= LONGEST
}

// A lent buffer, and the place behind what is put into it.
#[derive(Drop)]
pub(crate) struct Sheet<'a> {
    pub(crate) out: &'a mut [u8],
    pub(crate) at: usize,
    ghost within: { at ≤ length out.now },
}

impl Sheet<'_> {
    ghost use Rattle.request_words.specs.Sheets.{room, Puts};

    pub(crate) fn put(&mut self, text: &[u8])
        requires { length text.now ≤ room self.old }
        ensures { Puts text.now self.old self.new }
    {
        let end = self.at + text.len();
        self.out[self.at..end].copy_from_slice(text);
        self.at = end;
    }

    // A number in decimal.
    pub(crate) fn put_number<I: Integer>(&mut self, number: I)
        requires { I.MAX_STR_LEN ≤ room self.old }
        ensures puts { Puts (I.text number) self.old self.new }
        ensures short { self.new.at ≤ self.old.at + I.MAX_STR_LEN }
    {
        self.put(Buffer::new().format(number).as_bytes());
    }
}
