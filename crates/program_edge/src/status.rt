//! How a run ends.
ghost use Rattle.std.specs.Prelude.{◌≡◌, Some};
ghost use Rattle.program_edge.specs.Statuses.{exit_number, status_line, why_name};

use scene_model::SceneBad;
use std::fmt;

/// Why a line isn't in the grammar of its command.
#[derive(Clone, Copy, Drop)]
pub enum LineWhy {
    /// `serde_json` refuses the line.
    Json,
    /// A JSON value of the wrong kind or length, or a key is missing.
    Shape,
    /// A word or a key that isn't known.
    Name,
    /// A text that isn't hexadecimal.
    Hex,
    /// A number outside its range, a text with U+0000, or a value that isn't sound.
    Range,
    /// The scene was read, and isn't valid.
    Scene(SceneBad),
    /// The line is of a kind that isn't built yet.
    NotBuilt,
}

/// The reason's name alone.
impl fmt::Display for LineWhy {
    ghost output = { λ why. Some (why_name why) };

    fn fmt<W: fmt::Write>(&self, f: &mut fmt::Formatter<W>) -> fmt::Result {
        match self {
            LineWhy::Json => write!(f, "Json"),
            LineWhy::Shape => write!(f, "Shape"),
            LineWhy::Name => write!(f, "Name"),
            LineWhy::Hex => write!(f, "Hex"),
            LineWhy::Range => write!(f, "Range"),
            LineWhy::Scene(_) => write!(f, "Scene"),
            LineWhy::NotBuilt => write!(f, "NotBuilt"),
        }
    }
}

/// How a run ended. Lines are counted from 1.
#[derive(Clone, Copy, Drop)]
pub enum Status {
    /// The input was read to its end, and all lines were written.
    Done,
    /// The words of the command line are none that the program knows.
    Usage,
    BadLine { n: u64, why: LineWhy },
    LineLong { n: u64 },
    InputLong,
    PoolFull { n: u64 },
    ReadFault,
    WriteFault,
    OutOfMemory,
    ListenFault,
    DialFault,
    SpawnFault,
    BadGreeting,
    LinkFault,
    JournalFull,
}

impl Status {
    /// The program's exit status.
    pub fn exit_code(self) -> u8
        ensures { result ≡ exit_number self }
    {
        match self {
            Status::Done => 0,
            Status::Usage => 2,
            Status::BadLine { .. } => 3,
            Status::LineLong { .. } => 4,
            Status::InputLong => 5,
            Status::PoolFull { .. } => 6,
            Status::ReadFault => 7,
            Status::WriteFault => 8,
            Status::OutOfMemory => 9,
            Status::ListenFault => 10,
            Status::DialFault => 11,
            Status::SpawnFault => 12,
            Status::BadGreeting => 13,
            Status::LinkFault => 14,
            Status::JournalFull => 15,
        }
    }
}

/// The line for standard error, without its line feed.
impl fmt::Display for Status {
    ghost output = { λ status. Some (status_line status) };

    fn fmt<W: fmt::Write>(&self, f: &mut fmt::Formatter<W>) -> fmt::Result {
        match self {
            Status::Done => write!(f, "Done"),
            Status::Usage => write!(
                f,
                "usage: godot_mp_cli replay, show, rerun, gen N, host --listen ADDR, join --dial ADDR"
            ),
            Status::BadLine { n, why } => write!(f, "line {n}: {why}"),
            Status::LineLong { n } => write!(f, "line {n}: too long"),
            Status::InputLong => write!(f, "InputLong"),
            Status::PoolFull { n } => write!(f, "line {n}: too many packets"),
            Status::ReadFault => write!(f, "ReadFault"),
            Status::WriteFault => write!(f, "WriteFault"),
            Status::OutOfMemory => write!(f, "OutOfMemory"),
            Status::ListenFault => write!(f, "ListenFault"),
            Status::DialFault => write!(f, "DialFault"),
            Status::SpawnFault => write!(f, "SpawnFault"),
            Status::BadGreeting => write!(f, "BadGreeting"),
            Status::LinkFault => write!(f, "LinkFault"),
            Status::JournalFull => write!(f, "JournalFull"),
        }
    }
}
