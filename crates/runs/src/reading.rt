// A line read as a request to a run.
ghost use Rattle.std.specs.Prelude.{◌≡◌};
ghost use Rattle.runs.specs.Hearing.{request_of};

use crate::faults::RunFault;
use frames::decode::decode;
use frames::parse::parse;
use frames::request::Request;

// What a line asks for; a fault of the line or of the frame is carried up unaltered. The same two steps as a request's own reading, but each
// fault goes into the run's without one that joins them.
pub(crate) fn read_request(line: &[u8]) -> Result<Request, RunFault>
    ensures { result ≡ request_of line.now }
{
    let frame = decode(line)?;
    let request = parse(&frame)?;
    Ok(request)
}
