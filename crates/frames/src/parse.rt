// From the bytes of a checked frame to the request: first the kind, then the fields of its payload.
// `rest` is what follows the kind byte: the payload and the check byte.
ghost use Rattle.std.specs.Prelude.{◌≡◌, ◌∷◌};
ghost use Rattle.frames.specs.Frame.{asked_as, open_kind, arm_kind, cancel_kind, advance_kind, purpose_kind, close_kind, frame_request};
ghost use Rattle.frames.specs.Line.{held};

use crate::faults::FrameFault;
use crate::frame_bytes::FrameBytes;
use crate::request::Request;

// A function for each kind: the fields differ, and a slice pattern has each by its name.
fn open(rest: &[u8]) -> Result<Request, FrameFault>
    ensures { result ≡ asked_as open_kind (1 ∷ rest.now) }
{
    let &[time_kind, device, a, b, c, d, e, f, g, h, _] = rest else {
        return Err(FrameFault::WrongLength);
    };
    let start = u64::from_be_bytes([a, b, c, d, e, f, g, h]);
    Ok(Request::Open {
        time_kind,
        device,
        start,
    })
}

fn arm(rest: &[u8]) -> Result<Request, FrameFault>
    ensures { result ≡ asked_as arm_kind (2 ∷ rest.now) }
{
    let &[
        n0,
        n1,
        n2,
        n3,
        s0,
        s1,
        s2,
        s3,
        s4,
        s5,
        s6,
        s7,
        h0,
        h1,
        h2,
        h3,
        h4,
        h5,
        h6,
        h7,
        _,
    ] = rest
    else {
        return Err(FrameFault::WrongLength);
    };
    let number = u32::from_be_bytes([n0, n1, n2, n3]);
    let soft = u64::from_be_bytes([s0, s1, s2, s3, s4, s5, s6, s7]);
    let hard = u64::from_be_bytes([h0, h1, h2, h3, h4, h5, h6, h7]);
    Ok(Request::Arm { number, soft, hard })
}

fn cancel(rest: &[u8]) -> Result<Request, FrameFault>
    ensures { result ≡ asked_as cancel_kind (3 ∷ rest.now) }
{
    let &[a, b, c, d, _] = rest else {
        return Err(FrameFault::WrongLength);
    };
    let number = u32::from_be_bytes([a, b, c, d]);
    Ok(Request::Cancel { number })
}

fn advance(rest: &[u8]) -> Result<Request, FrameFault>
    ensures { result ≡ asked_as advance_kind (4 ∷ rest.now) }
{
    let &[a, b, c, d, e, f, g, h, _] = rest else {
        return Err(FrameFault::WrongLength);
    };
    let to = u64::from_be_bytes([a, b, c, d, e, f, g, h]);
    Ok(Request::Advance { to })
}

fn close(rest: &[u8]) -> Result<Request, FrameFault>
    ensures { result ≡ asked_as close_kind (5 ∷ rest.now) }
{
    let &[_] = rest else {
        return Err(FrameFault::WrongLength);
    };
    Ok(Request::Close)
}

fn arm_by_purpose(rest: &[u8]) -> Result<Request, FrameFault>
    ensures { result ≡ asked_as purpose_kind (6 ∷ rest.now) }
{
    let &[a, b, c, d, purpose, _] = rest else {
        return Err(FrameFault::WrongLength);
    };
    let number = u32::from_be_bytes([a, b, c, d]);
    Ok(Request::ArmByPurpose { number, purpose })
}

fn request_of(frame: &[u8]) -> Result<Request, FrameFault>
    ensures { result ≡ frame_request frame.now }
{
    match frame {
        [1, rest @ ..] => open(rest),
        [2, rest @ ..] => arm(rest),
        [3, rest @ ..] => cancel(rest),
        [4, rest @ ..] => advance(rest),
        [5, rest @ ..] => close(rest),
        [6, rest @ ..] => arm_by_purpose(rest),
        _ => Err(FrameFault::UnknownKind),
    }
}

// What a checked frame asks for.
pub fn parse(frame: &FrameBytes) -> Result<Request, FrameFault>
    ensures { result ≡ frame_request (held frame.now) }
{
    request_of(frame.as_slice())
}
