// Bytes as capital hexadecimal.
ghost use Rattle.std.specs.Prelude.{◌≡◌, [], ◌∷◌, Some};
ghost use Rattle.std.specs.Fmt.{WritesOnOk};
ghost use Rattle.frames.specs.Hex.{hex};
ghost use Rattle.frames.specs.Reading.{big_endian};

use frames::write::{hex_byte, hex_time};
use std::fmt;
use std::str::from_utf8;

// Bytes as two characters each.
#[derive(Clone, Copy)]
pub struct Hex<const N: usize>(pub [u8; N]);

// A byte.
impl From<u8> for Hex<1> {
    ghost from_gives = { λ byte r. r.0 ≡ byte ∷ [] };

    fn from(byte: u8) -> Hex<1> {
        Hex([byte])
    }
}

// A time field, the highest byte first.
impl From<u64> for Hex<8> {
    ghost from_gives = { λ time r. r.0 ≡ big_endian 8 time };

    fn from(time: u64) -> Hex<8> {
        Hex(time.to_be_bytes())
    }
}

// Characters that are text, which every hexadecimal digit is.
fn put_text<W: fmt::Write>(characters: &[u8], f: &mut fmt::Formatter<W>) -> fmt::Result
    ensures { WritesOnOk W.Write.write_str_gives f.old result characters.now f.new }
{
    match from_utf8(characters) {
        Ok(text) => f.write_str(text),
        Err(_) => Err(fmt::Error),
    }
}

// One byte goes out as one text, and so do the eight of a time field; other bytes go out one by one.
impl<const N: usize> fmt::Display for Hex<N> {
    ghost output = { λ x. Some (hex x.0) };

    fn fmt<W: fmt::Write>(&self, f: &mut fmt::Formatter<W>) -> fmt::Result {
        if let &[b0, b1, b2, b3, b4, b5, b6, b7] = self.0.as_slice() {
            let time = u64::from_be_bytes([b0, b1, b2, b3, b4, b5, b6, b7]);
            return put_text(&hex_time(time), f);
        }
        for byte in &self.0 {
            put_text(&hex_byte(*byte), f)?;
        }
        Ok(())
    }
}
