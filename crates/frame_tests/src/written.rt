// Lines that are written, in buffers of every length around the edge.
use frames::read::read;
use frames::request::Request;
use frames::write::write;
use std::process::Abort;
use std::test::Fail;

// 44 characters are enough for every kind.
fn back(rt: &impl Abort, request: Request) -> Result<(), Fail> {
    let mut buffer = [0; 44];
    let n = write(&request, &mut buffer)?;
    assert!(rt; n <= 44);
    assert_eq!(rt; read(&buffer[..n])?, request);
    Ok(())
}

// A request of each kind is read as it was written, values at both ends.
#[test]
fn every_kind(rt: HostRuntime) -> Result<(), Fail> {
    let requests = [
        Request::Open {
            time_kind: 0,
            device: 255,
            start: u64::MAX,
        },
        Request::Arm {
            number: u32::MAX,
            soft: 0,
            hard: 0x0123_4567_89AB_CDEF,
        },
        Request::Cancel { number: 1 },
        Request::Advance { to: 60 },
        Request::Close,
        Request::ArmByPurpose {
            number: 7,
            purpose: 11,
        },
    ];
    for request in requests {
        back(&rt, request)?;
    }
    Ok(())
}

// The worked line of an arm frame, and the byte behind it.
#[test]
fn worked_line(rt: HostRuntime) -> Result<(), Fail> {
    let mut buffer = [9; 45];
    let request = Request::Arm {
        number: 1,
        soft: 10,
        hard: 30,
    };
    assert_eq!(rt; write(&request, &mut buffer)?, 44);
    assert!(rt; &buffer[..44] == b"0200000001000000000000000A000000000000001E2B".as_slice());
    assert_eq!(rt; buffer[44], 9);
    Ok(())
}

// One character too few: refused with 45, and nothing is written.
#[test]
fn short_buffer(rt: HostRuntime) {
    let mut buffer = [9; 3];
    let fault = write(&Request::Close, &mut buffer).expect_err(&rt, "written");
    assert_eq!(rt; fault.number(), 0x45);
    assert!(rt; buffer == [9; 3]);
}
