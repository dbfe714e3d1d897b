// Each refusal exactly at its edge.
use frames::read::read;

// The number that a line is refused by, if it is.
fn refusal(line: &[u8]) -> Option<u8> {
    read(line).err().map(|fault| fault.number())
}

// How many characters there are.
#[test]
fn lengths(rt: HostRuntime) {
    assert_eq!(rt; refusal(b"050"), Some(0x11), "3 characters");
    assert_eq!(rt; refusal(b"0505"), None, "4 characters");
    assert_eq!(rt; refusal(b"05050"), Some(0x11), "5 characters");
    assert_eq!(rt; refusal(b""), Some(0x11), "no character");
    assert_eq!(rt; refusal(&[b'0'; 128]), Some(0x21), "128 characters");
    assert_eq!(rt; refusal(&[b'0'; 129]), Some(0x10), "129 characters");
    assert_eq!(rt; refusal(&[b'0'; 130]), Some(0x10), "130 characters");
}

// Which characters are digits.
#[test]
fn digits(rt: HostRuntime) {
    assert_eq!(rt;
        refusal(b"0200000001000000000000000a000000000000001e2b"),
        Some(0x12),
        "lower case"
    );
    assert_eq!(rt; refusal(b":505"), Some(0x12), "a colon, after 9");
    assert_eq!(rt; refusal(b"/505"), Some(0x12), "a slash, before 0");
    assert_eq!(rt; refusal(b"G505"), Some(0x12), "a G, after F");
    assert_eq!(rt; refusal(b"@505"), Some(0x12), "an at sign, before A");
}

// Check bytes, kinds and lengths.
#[test]
fn frames(rt: HostRuntime) {
    assert_eq!(rt; refusal(b"010001000000000000000002"), None, "an open frame");
    assert_eq!(rt;
        refusal(b"0200000001000000000000000A000000000000001E2B"),
        None,
        "an arm frame"
    );
    assert_eq!(rt; refusal(b"04000000000000003C40"), None, "an advance frame");
    assert_eq!(rt;
        refusal(b"0200000001000000000000000A000000000000000D"),
        Some(0x22),
        "one byte short"
    );
    assert_eq!(rt;
        refusal(b"0200000001000000000000000A000000000000001E002B"),
        Some(0x22),
        "one byte long"
    );
    assert_eq!(rt;
        refusal(b"0200000001000000000000000A000000000000001E2C"),
        Some(0x13),
        "check byte one more"
    );
    assert_eq!(rt;
        refusal(b"0200000001000000000000000A000000000000001E2A"),
        Some(0x13),
        "check byte one less"
    );
    assert_eq!(rt; refusal(b"0000"), Some(0x21), "kind 00");
    assert_eq!(rt; refusal(b"0707"), Some(0x21), "kind 07");
    assert_eq!(rt;
        refusal(b"070000000000000000000007"),
        Some(0x21),
        "kind 07 of a known length"
    );
}

// Of two faults the first is told.
#[test]
fn order(rt: HostRuntime) {
    assert_eq!(rt;
        refusal(b"0506G0"),
        Some(0x12),
        "bad digit before a bad check"
    );
    assert_eq!(rt;
        refusal(b"0708"),
        Some(0x13),
        "bad check before an unknown kind"
    );
}
