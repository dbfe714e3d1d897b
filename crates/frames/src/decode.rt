// From the characters of a line to the checked bytes of a frame.

ghost use Rattle.std.specs.Prelude.{◌≡◌, ◌%◌, ◌<◌, ◌≤◌, length};
ghost use Rattle.std.specs.Option.{ok_or};
ghost use Rattle.frames.specs.Check.{checked};
ghost use Rattle.frames.specs.Hex.{value, pair, spelled};
ghost use Rattle.frames.specs.declared.faults.LineFault.TheVariants.{NotHex};
ghost use Rattle.frames.specs.Line.{line_bytes, held_in};

use crate::check::check_byte;
use crate::faults::LineFault;
use crate::frame_bytes::FrameBytes;
use crate::hex::digit;

// How many characters a line of a frame has, at most and at least.
const LONGEST: usize = 128;

const SHORTEST: usize = 4;

// The byte that two characters spell.
fn byte(high: u8, low: u8) -> Result<u8, LineFault>
    ensures { result ≡ ok_or (pair (value high) (value low)) NotHex }
{
    Ok(digit(high)? * 16 + digit(low)?)
}

// The bytes that an even number of characters spells.
fn unhex(line: &[u8]) -> Result<FrameBytes, LineFault>
    requires short { length line.now ≤ 128 }
    requires even { length line.now % 2 ≡ 0 }
    ensures { held_in result ≡ ok_or (spelled line.now) NotHex }
{
    let (pairs, _) = line.as_chunks::<2>();
    let mut bytes = [0; 64];
    // By place: of what a `zip` over `iter_mut` writes, a proof knows nothing after the loop.
    for (i, [high, low]) in pairs.iter().enumerate() {
        bytes[i] = byte(*high, *low)?;
    }
    Ok(FrameBytes {
        bytes,
        len: pairs.len(),
    })
}

// Whether the last byte is the check byte of those before it.
fn ends_in_check(bytes: &[u8]) -> bool
    requires { 0 < length bytes.now }
    ensures { result ≡ checked bytes.now }
{
    bytes
        .split_last()
        .is_some_and(|(last, payload)| *last == check_byte(payload))
}

// The bytes of the frame that a line spells.
pub fn decode(line: &[u8]) -> Result<FrameBytes, LineFault>
    ensures { held_in result ≡ line_bytes line.now }
{
    if line.len() > LONGEST {
        return Err(LineFault::TooLong);
    }
    if line.len() < SHORTEST || line.len() % 2 == 1 {
        return Err(LineFault::BadCount);
    }
    let frame = unhex(line)?;
    if !ends_in_check(frame.as_slice()) {
        return Err(LineFault::BadCheck);
    }
    Ok(frame)
}
