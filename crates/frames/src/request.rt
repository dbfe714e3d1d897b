// What a request frame asks for. Values are kept as they stand: which times, devices and purposes
// exist is judged by whoever carries the request out.

#[derive(Clone, Copy, PartialEq, Eq, Debug)]
pub enum Request {
    Open {
        time_kind: u8,
        device: u8,
        start: u64,
    },
    Arm {
        number: u32,
        soft: u64,
        hard: u64,
    },
    Cancel {
        number: u32,
    },
    Advance {
        to: u64,
    },
    Close,
    ArmByPurpose {
        number: u32,
        purpose: u8,
    },
}
