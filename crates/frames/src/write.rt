// A request, or any bytes, written as a line of hexadecimal at the start of a lent buffer.
ghost use Rattle.std.specs.Prelude.{◌≡◌, ◌+◌, ◌*◌, ◌<◌, ◌≤◌, [], ◌∷◌, ◌++◌, length, drop};
ghost use Rattle.frames.specs.Hex.{hex};
ghost use Rattle.frames.specs.declared.request.Request.TheVariants.{Open, Arm, Cancel, Advance, Close, ArmByPurpose};
ghost use Rattle.frames.specs.Reading.{big_endian, with_check};
ghost use Rattle.frames.specs.Writing.{Wrote, Written, hexed};

use crate::check::check_byte;
use crate::faults::WriteFault;
use crate::hex::sign;
use crate::request::Request;

// Writes the two characters of a byte.
fn put(buffer: &mut [u8], at: usize, byte: u8)
    requires { at + 1 < length buffer.old }
    ensures { buffer.new ≡ hexed buffer.old at byte }
{
    buffer[at] = sign(byte / 16);
    buffer[at + 1] = sign(byte);
}

// Writes the characters of bytes from the start of the buffer on.
fn put_all(buffer: &mut [u8], bytes: &[u8])
    requires { 2 * length bytes.now ≤ length buffer.old }
    ensures { buffer.new ≡ hex bytes.now ++ drop (2 * length bytes.now) buffer.old }
{
    // By place: of what a `zip` over `iter_mut` writes, a proof knows nothing after the loop.
    for (i, byte) in bytes.iter().enumerate() {
        put(buffer, 2 * i, *byte);
    }
}

// Writes a kind byte and its payload, and then their check byte.
pub fn write_frame(payload: &[u8], buffer: &mut [u8]) -> Result<usize, WriteFault>
    ensures { Wrote (hex (with_check payload.now)) buffer.old buffer.new result }
{
    let last = payload.len();
    if buffer.len() / 2 <= last {
        return Err(WriteFault::ShortBuffer);
    }
    put_all(buffer, payload);
    put(buffer, 2 * last, check_byte(payload));
    Ok(2 * last + 2)
}

// The characters of bytes that fill N of them.
fn hex_text<const N: usize>(bytes: &[u8]) -> [u8; N]
    requires { N ≡ 2 * length bytes.now }
    ensures { result ≡ hex bytes.now }
{
    let mut text = [0; N];
    put_all(&mut text, bytes);
    text
}

// The two characters of a byte.
pub fn hex_byte(byte: u8) -> [u8; 2]
    ensures { result ≡ hex (byte ∷ []) }
{
    hex_text(&[byte])
}

// The sixteen characters of a time field.
pub fn hex_time(time: u64) -> [u8; 16]
    ensures { result ≡ hex (big_endian 8 time) }
{
    hex_text(&time.to_be_bytes())
}

// A function for each kind: the fields differ, and no array's length can be computed from theirs.
fn write_open(time_kind: u8, device: u8, start: u64, buffer: &mut [u8]) -> Result<usize, WriteFault>
    ensures { Written (Open time_kind device start) buffer.old buffer.new result }
{
    let [a, b, c, d, e, f, g, h] = start.to_be_bytes();
    write_frame(&[1, time_kind, device, a, b, c, d, e, f, g, h], buffer)
}

fn write_arm(number: u32, soft: u64, hard: u64, buffer: &mut [u8]) -> Result<usize, WriteFault>
    ensures { Written (Arm number soft hard) buffer.old buffer.new result }
{
    let [n0, n1, n2, n3] = number.to_be_bytes();
    let [s0, s1, s2, s3, s4, s5, s6, s7] = soft.to_be_bytes();
    let [h0, h1, h2, h3, h4, h5, h6, h7] = hard.to_be_bytes();
    let payload = [
        2, n0, n1, n2, n3, s0, s1, s2, s3, s4, s5, s6, s7, h0, h1, h2, h3, h4, h5, h6, h7,
    ];
    write_frame(&payload, buffer)
}

fn write_cancel(number: u32, buffer: &mut [u8]) -> Result<usize, WriteFault>
    ensures { Written (Cancel number) buffer.old buffer.new result }
{
    let [a, b, c, d] = number.to_be_bytes();
    write_frame(&[3, a, b, c, d], buffer)
}

fn write_advance(to: u64, buffer: &mut [u8]) -> Result<usize, WriteFault>
    ensures { Written (Advance to) buffer.old buffer.new result }
{
    let [a, b, c, d, e, f, g, h] = to.to_be_bytes();
    write_frame(&[4, a, b, c, d, e, f, g, h], buffer)
}

fn write_purpose(number: u32, purpose: u8, buffer: &mut [u8]) -> Result<usize, WriteFault>
    ensures { Written (ArmByPurpose number purpose) buffer.old buffer.new result }
{
    let [a, b, c, d] = number.to_be_bytes();
    write_frame(&[6, a, b, c, d, purpose], buffer)
}

fn write_close(buffer: &mut [u8]) -> Result<usize, WriteFault>
    ensures { Written Close buffer.old buffer.new result }
{
    write_frame(&[5], buffer)
}

// Writes the line of a request, without a line feed.
pub fn write(request: &Request, buffer: &mut [u8]) -> Result<usize, WriteFault>
    ensures { Written request.now buffer.old buffer.new result }
{
    match *request {
        Request::Open {
            time_kind,
            device,
            start,
        } => write_open(time_kind, device, start, buffer),
        Request::Arm { number, soft, hard } => write_arm(number, soft, hard, buffer),
        Request::Cancel { number } => write_cancel(number, buffer),
        Request::Advance { to } => write_advance(to, buffer),
        Request::Close => write_close(buffer),
        Request::ArmByPurpose { number, purpose } => write_purpose(number, purpose, buffer),
    }
}
