//! How a run ends.

ghost use Rattle.std.specs.Prelude.{◌≡◌};
ghost use Rattle.edit_session.specs.Numbers.{number_of};

use map_report::MapFault;

/// How many bytes a map file may have, and a script.
pub const LIMIT: usize = 67_108_864;

/// Which of the two inputs is too long.
#[derive(Clone, Copy, Debug, PartialEq, Eq, Drop)]
pub enum Which {
    /// The map file.
    Map,
    /// The script.
    Script,
}

/// How a run ended. Each has its number, which the program ends with.
#[derive(Clone, Copy, Debug, PartialEq, Eq, Drop)]
pub enum Status {
    /// 0: for `edit`, the script was read to its end, and the last map was kept; for `check`, the summary was given; for
    /// `export`, the text was kept, and the summary given.
    Ended,
    /// 1: the words are of no form; nothing was read or written.
    Usage,
    /// 2: the map or the script couldn't be read, or there is no such map.
    ReadFault,
    /// 3: a line couldn't be given, or the last map or the text couldn't be kept.
    WriteFault,
    /// 4: the map was read and refused, for this, and its one line was given. Want of memory is no such cause.
    MapRefused(MapFault),
    /// 5: there was no memory, before the first line of the opening, after the last line of the script, or to write the text.
    Memory,
    /// 6: the map file or the script has more than 64 MiB.
    TooLong(Which),
}

impl Status {
    /// The number that the program ends with.
    pub fn number(self) -> u8
        ensures { result ≡ number_of self }
    {
        match self {
            Status::Ended => 0,
            Status::Usage => 1,
            Status::ReadFault => 2,
            Status::WriteFault => 3,
            Status::MapRefused(_) => 4,
            Status::Memory => 5,
            Status::TooLong(_) => 6,
        }
    }
}
