// One hexadecimal digit: the number of a character, and the character of a number.
ghost use Rattle.std.specs.Prelude.{◌≡◌, ◌%◌, ◌<◌, IfOk};
ghost use Rattle.frames.specs.Hex.{character, value};
ghost use Rattle.frames.specs.declared.faults.LineFault.TheVariants.{NotHex};
ghost use Rattle.std.specs.Option.{ok_or};

use crate::faults::LineFault;

// The number that a character stands for.
pub fn digit(sign: u8) -> Result<u8, LineFault>
    ensures answer { result ≡ ok_or (value sign) NotHex }
    ensures small { IfOk result (λ d. d < 16) }
{
    match sign as char {
        '0'..='9' => Ok(sign - b'0'),
        'A'..='F' => Ok(sign - b'A' + 10),
        _ => Err(LineFault::NotHex),
    }
}

// The character of the last digit of a number.
pub fn sign(number: u8) -> u8
    ensures { result ≡ character (number % 16) }
{
    // By hand: `char::from_digit` has small letters for the digits above nine.
    let digit = number % 16;
    if digit < 10 {
        b'0' + digit
    } else {
        b'A' - 10 + digit
    }
}
