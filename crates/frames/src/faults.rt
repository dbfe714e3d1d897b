// Why a line is no request, and why a frame cannot be written, each with its number.
ghost use Rattle.std.specs.Prelude.{◌≡◌};
ghost use Rattle.frames.specs.declared.faults.ReadFault.TheVariants.{Line, Frame};
ghost use Rattle.frames.specs.Numbers.{line_number, frame_number, read_number, write_number};

// The line does not spell a checked frame.
#[derive(Clone, Copy, PartialEq, Eq, Debug)]
pub enum LineFault {
    TooLong = 0x10,
    BadCount = 0x11,
    NotHex = 0x12,
    BadCheck = 0x13,
}

// The frame is checked, and is none of the six kinds.
#[derive(Clone, Copy, PartialEq, Eq, Debug)]
pub enum FrameFault {
    UnknownKind = 0x21,
    WrongLength = 0x22,
}

// Why a line does not read as a request: the line's fault or the frame's, unaltered.
#[derive(Clone, Copy, PartialEq, Eq, Debug)]
pub enum ReadFault {
    Line(LineFault),
    Frame(FrameFault),
}

// Why a frame is not written.
#[derive(Clone, Copy, PartialEq, Eq, Debug)]
pub enum WriteFault {
    ShortBuffer = 0x45,
}

// One body for each: a cast has to name the enum.
impl LineFault {
    pub fn number(self) -> u8
        ensures { result ≡ line_number self }
    {
        self as u8
    }
}

impl FrameFault {
    pub fn number(self) -> u8
        ensures { result ≡ frame_number self }
    {
        self as u8
    }
}

impl ReadFault {
    pub fn number(self) -> u8
        ensures { result ≡ read_number self }
    {
        match self {
            // a case that holds a fault can have no number of its own
            ReadFault::Line(fault) => fault.number(),
            ReadFault::Frame(fault) => fault.number(),
        }
    }
}

impl WriteFault {
    pub fn number(self) -> u8
        ensures { result ≡ write_number self }
    {
        self as u8
    }
}

// By hand, since a derived `From` promises nothing of the case that it makes.
impl From<LineFault> for ReadFault {
    ghost from_gives = { λ fault r. r ≡ Line fault };

    fn from(fault: LineFault) -> ReadFault {
        ReadFault::Line(fault)
    }
}

impl From<FrameFault> for ReadFault {
    ghost from_gives = { λ fault r. r ≡ Frame fault };

    fn from(fault: FrameFault) -> ReadFault {
        ReadFault::Frame(fault)
    }
}
