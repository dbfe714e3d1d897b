// The check byte, for reading and writing alike.
ghost use Rattle.std.specs.Prelude.{◌≡◌};
ghost use Rattle.frames.specs.Check.{check};

// The sum of the bytes modulo 256.
pub fn check_byte(bytes: &[u8]) -> u8
    ensures { result ≡ check bytes.now }
{
    let mut sum: u8 = 0;
    for byte in bytes {
        sum = sum.wrapping_add(*byte);
    }
    sum
}
