// A line read as a request.
ghost use Rattle.std.specs.Prelude.{◌≡◌, IfOk};
ghost use Rattle.frames.specs.Reading.{read_line, line_of};

use crate::decode::decode;
use crate::faults::ReadFault;
use crate::parse::parse;
use crate::request::Request;

// What a line asks for, or the first thing that is wrong with it. A request has one line only.
pub fn read(line: &[u8]) -> Result<Request, ReadFault>
    ensures answer { result ≡ read_line line.now }
    ensures only { IfOk result (λ request. line.now ≡ line_of request) }
{
    let frame = decode(line)?;
    let request = parse(&frame)?;
    Ok(request)
}
