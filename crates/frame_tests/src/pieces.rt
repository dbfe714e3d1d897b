// Lines cut out of pieces.
use lines::line::Line;
use lines::splitter::LineSplitter;
use std::process::Abort;
use std::test::Fail;

fn same(rt: &impl Abort, line: Option<Line>, text: &[u8]) -> Result<(), Fail> {
    let line = line.ok_or("no line ended")?;
    assert!(rt; line.as_slice() == text);
    Ok(())
}

// A line over three pieces, an empty line, a carriage return, and a rest.
#[test]
fn over_pieces(rt: HostRuntime) -> Result<(), Fail> {
    let mut splitter = LineSplitter::new();
    assert!(rt; splitter.feed(b"05").line.is_none());
    assert!(rt; splitter.feed(b"").line.is_none());
    let taken = splitter.feed(b"05\n\nrest");
    assert_eq!(rt; taken.used, 3);
    same(&rt, taken.line, b"0505")?;
    let taken = splitter.feed(b"\nrest");
    assert_eq!(rt; taken.used, 1);
    same(&rt, taken.line, b"")?;
    same(&rt, splitter.feed(b"0505\r\n").line, b"0505\r")?;
    assert!(rt; splitter.feed(b"rest").line.is_none());
    same(&rt, splitter.finish(), b"rest")
}

// An input that ends in a line feed has no rest.
#[test]
fn no_rest(rt: HostRuntime) -> Result<(), Fail> {
    let mut splitter = LineSplitter::new();
    same(&rt, splitter.feed(b"0505\n").line, b"0505")?;
    assert!(rt; splitter.finish().is_none());
    Ok(())
}

// A line of 200 bytes is kept to 129, and is still seen to be too long.
#[test]
fn long_line(rt: HostRuntime) -> Result<(), Fail> {
    let mut splitter = LineSplitter::new();
    assert!(rt; splitter.feed(&[48; 200]).line.is_none());
    same(&rt, splitter.feed(b"\n").line, &[48; 129])
}
