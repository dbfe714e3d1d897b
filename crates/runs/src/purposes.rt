// Twelve purposes, each with a soft and a hard time so many ticks ahead of the clock.
ghost use Rattle.std.specs.Prelude.{◌≡◌, ◌<◌, ◌≤◌, MatchResult, slice_index_or};
ghost use Rattle.runs.specs.Purposes.{offsets_of, Windowed};

// Soft and hard time, in ticks of 10 ms.
const OFFSETS: [(u32, u32); 12] = [
    (10, 50),
    (1500, 3000),
    (6000, 6500),
    (6000, 6500),
    (6000, 6600),
    (6000, 6700),
    (200, 260),
    (30, 30),
    (12000, 18000),
    (400, 500),
    (3000, 9000),
    (60000, 90000),
];

// A purpose is a row of the table: no other number is one.
#[derive(Clone, Copy, PartialEq, Eq, Debug)]
pub struct Purpose {
    row: u8,
    ghost within: { row < 12 },
}

fn row_at(row: u8) -> (u32, u32)
    requires { row < 12 }
    ensures { result ≡ slice_index_or offsets_of row (0, 0) }
{
    OFFSETS[usize::from(row)]
}

// A number that is no purpose.
#[derive(Clone, Copy, PartialEq, Eq, Debug)]
pub struct NoSuchPurpose(pub u8);

impl TryFrom<u8> for Purpose {
    type Error = NoSuchPurpose;

    ghost try_from_gives = { λ row r. MatchResult r (λ p. p.row ≡ row) (λ e. (e.0 ≡ row) × (12 ≤ row)) };

    fn try_from(row: u8) -> Result<Purpose, NoSuchPurpose> {
        if row < 12 {
            Ok(Purpose { row })
        } else {
            Err(NoSuchPurpose(row))
        }
    }
}

impl Purpose {
    // How far ahead of the clock its soft and its hard time lie.
    pub fn offsets(self) -> (u32, u32)
        ensures row { result ≡ slice_index_or offsets_of self.row (0, 0) }
        ensures window { Windowed result }
    {
        row_at(self.row)
    }
}
