// A line that begins and ends in one piece of the input.
ghost use Rattle.std.specs.Prelude.{◌≡◌, ◌<◌, length, is_some, IfSome, unwrap_or};
ghost use Rattle.lines.specs.Lines.{feeds, before_feed};

// How many of its bytes are kept, from the start of the piece, and how many bytes of the piece it
// takes with its line feed.
#[derive(Clone, Copy)]
pub struct Whole {
    pub len: usize,
    pub used: usize,
}

// The place of the first line feed.
pub fn first_feed(piece: &[u8]) -> Option<usize>
    ensures place { unwrap_or result (length piece.now) ≡ length (before_feed piece.now) }
    ensures found { feeds piece.now ≡ is_some result }
    ensures within { IfSome result (λ at. at < length piece.now) }
{
    piece.iter().position(|&byte| byte == 10)
}
