// Lines to a waiting run.
use runs::waiting::WaitingRun;

// The number of the refusal, or none where the line is carried out.
fn refusal(run: &mut WaitingRun, line: &[u8]) -> Option<u8> {
    let mut buffer = [0; 23];
    let refused = run.line(line, &mut buffer).answer.err()?;
    Some(refused.fault.number())
}

// Of an open frame the device comes before the time, and after an accepted one nothing is heard.
#[test]
fn opening(rt: HostRuntime) {
    let mut run = WaitingRun::new();
    assert_eq!(rt; refusal(&mut run, b"0505"), Some(0x41), "a close frame");
    assert_eq!(rt;
        refusal(&mut run, b"010200000000000000000003"),
        Some(0x24),
        "time kind 02"
    );
    assert_eq!(rt;
        refusal(&mut run, b"010003400000000000000044"),
        Some(0x24),
        "device 03, and no such tick"
    );
    assert_eq!(rt;
        refusal(&mut run, b"010000400000000000000041"),
        Some(0x23),
        "no such tick"
    );
    assert!(rt; run.accepted().is_none());
    assert_eq!(rt;
        refusal(&mut run, b"010001000000000000000002"),
        None,
        "an open frame"
    );
    assert!(rt; run.accepted().is_some());
    assert_eq!(rt; refusal(&mut run, b""), Some(0x43), "before it is opened");
}

// A refused line is answered and counted, and one without room is neither.
#[test]
fn answers(rt: HostRuntime) {
    let mut run = WaitingRun::new();
    let mut short = [7; 22];
    assert_eq!(rt; run.line(b"0505", &mut short).written, 0);
    assert!(rt; short == [7; 22]);
    let mut buffer = [7; 25];
    assert_eq!(rt; run.line(b"0505", &mut buffer).written, 23);
    assert!(rt; buffer == *b"90000000014100000000D2\n\x07\x07");
    assert_eq!(rt;
        run.line(b"010001000000000000000002", &mut buffer).written,
        23
    );
    assert!(rt; buffer == *b"9000000002000000000092\n\x07\x07");
}
