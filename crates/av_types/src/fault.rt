//! The faults of input files, tables, edits and words, each with its number.
use crate::position::ChunkPos;
use std::alloc::{AllocError, AllocFailed};
use std::error::Error;
use std::fmt;

/// Why a call refused what it was given. Prints as `fault NN: NAME` and its values.
/// docs/FORMATS.md, "Faults", gives the cause of each.
#[derive(Debug, Drop, PartialEq, Eq)]
pub enum Fault {
    /// 01: a growth was refused.
    OutOfMemory,
    /// 02: a region coordinate outside -60,000..60,000.
    RegionRange,
    /// 03: a region twice.
    RepeatedRegion,
    /// 04: a region file of 1 to 8,191 bytes.
    ShortHeader,
    /// 05: a chunk's location with an offset below 2 or a count of 0.
    BadLocation,
    /// 06: a chunk's length field or data pass the file's end.
    TruncatedChunk,
    /// 07: a chunk's length is 0, or too large for its sectors.
    BadLength,
    /// 08: a chunk's data lie in an external file.
    ExternalChunk,
    /// 09: a chunk is compressed, with its compression type.
    Compression(u8),
    /// 10: a payload spells no root Compound within the limits.
    BadNbt,
    /// 11: a layout from before 1.18.
    OldLayout,
    /// 12: a tag that every chunk has is missing or of another kind, as a section's `Y` too, or a `Y` comes twice.
    BadChunk,
    /// 13: a chunk tells another chunk's position.
    WrongPlace,
    /// 14: a section's palette has another shape.
    BadPalette,
    /// 15: a section's packed indices do not fit its palette.
    BadPacked,
    /// 16: a fluid tick without a fluid, or a water entry out of its chunk or of the height.
    BadTick,
    /// 17: water with a level that is not 0 to 15.
    BadWaterLevel,
    /// 18: more than 65,535 block states.
    TooManyStates,
    /// 19: a block table that is refused.
    BadTable,
    /// 20: an edit of another form, with its line.
    BadEdit(u64),
    /// 21: an edit's tick is outside the run, with its line.
    EditTick(u64),
    /// 22: an edit's position is not loaded, with its line.
    EditOutside(u64),
    /// 23: workers not 1 to 8, ticks over 1,000,000 or files over 1,024.
    BadCount,
    /// 24: a written chunk has more than 255 sectors, with its chunk coordinates.
    ChunkTooLarge(ChunkPos),
    /// 25: a folder or a file failed, with its name.
    Device(String),
    /// 26: an earlier tick ran out of memory.
    Broken,
}

impl Fault {
    ghost use Rattle.std.specs.Prelude.{◌≡◌};
    ghost use Rattle.av_types.specs.Faults.{fault_number};

    /// The fault's number, from 1 to 26. Of several faults of one thing the one with the least number is answered.
    pub fn number(&self) -> u8
        ensures { result ≡ fault_number self.now }
    {
        match self {
            Fault::OutOfMemory => 1,
            Fault::RegionRange => 2,
            Fault::RepeatedRegion => 3,
            Fault::ShortHeader => 4,
            Fault::BadLocation => 5,
            Fault::TruncatedChunk => 6,
            Fault::BadLength => 7,
            Fault::ExternalChunk => 8,
            Fault::Compression(_) => 9,
            Fault::BadNbt => 10,
            Fault::OldLayout => 11,
            Fault::BadChunk => 12,
            Fault::WrongPlace => 13,
            Fault::BadPalette => 14,
            Fault::BadPacked => 15,
            Fault::BadTick => 16,
            Fault::BadWaterLevel => 17,
            Fault::TooManyStates => 18,
            Fault::BadTable => 19,
            Fault::BadEdit(_) => 20,
            Fault::EditTick(_) => 21,
            Fault::EditOutside(_) => 22,
            Fault::BadCount => 23,
            Fault::ChunkTooLarge(_) => 24,
            Fault::Device(_) => 25,
            Fault::Broken => 26,
        }
    }
}

impl fmt::Display for Fault {
    ghost use Rattle.std.specs.Prelude.{Some};
    ghost use Rattle.av_types.specs.Faults.{fault_text};

    ghost output = { λ e. Some (fault_text e) };

    fn fmt<W: fmt::Write>(&self, f: &mut fmt::Formatter<W>) -> fmt::Result {
        match self {
            Fault::OutOfMemory => write!(f, "fault 01: OutOfMemory"),
            Fault::RegionRange => write!(f, "fault 02: RegionRange"),
            Fault::RepeatedRegion => write!(f, "fault 03: RepeatedRegion"),
            Fault::ShortHeader => write!(f, "fault 04: ShortHeader"),
            Fault::BadLocation => write!(f, "fault 05: BadLocation"),
            Fault::TruncatedChunk => write!(f, "fault 06: TruncatedChunk"),
            Fault::BadLength => write!(f, "fault 07: BadLength"),
            Fault::ExternalChunk => write!(f, "fault 08: ExternalChunk"),
            Fault::Compression(kind) => write!(f, "fault 09: Compression {kind}"),
            Fault::BadNbt => write!(f, "fault 10: BadNbt"),
            Fault::OldLayout => write!(f, "fault 11: OldLayout"),
            Fault::BadChunk => write!(f, "fault 12: BadChunk"),
            Fault::WrongPlace => write!(f, "fault 13: WrongPlace"),
            Fault::BadPalette => write!(f, "fault 14: BadPalette"),
            Fault::BadPacked => write!(f, "fault 15: BadPacked"),
            Fault::BadTick => write!(f, "fault 16: BadTick"),
            Fault::BadWaterLevel => write!(f, "fault 17: BadWaterLevel"),
            Fault::TooManyStates => write!(f, "fault 18: TooManyStates"),
            Fault::BadTable => write!(f, "fault 19: BadTable"),
            Fault::BadEdit(line) => write!(f, "fault 20: BadEdit {line}"),
            Fault::EditTick(line) => write!(f, "fault 21: EditTick {line}"),
            Fault::EditOutside(line) => write!(f, "fault 22: EditOutside {line}"),
            Fault::BadCount => write!(f, "fault 23: BadCount"),
            Fault::ChunkTooLarge(ChunkPos { x, z }) => write!(f, "fault 24: ChunkTooLarge {x} {z}"),
            Fault::Device(name) => write!(f, "fault 25: Device {name}"),
            Fault::Broken => write!(f, "fault 26: Broken"),
        }
    }
}

impl Error for Fault {}

impl From<AllocError> for Fault {
    ghost use Rattle.std.specs.Prelude.{◌≡◌};
    ghost use Rattle.av_types.specs.declared.fault.Fault.TheVariants.{OutOfMemory};

    ghost from_gives = { λ _ e. e ≡ OutOfMemory };

    fn from(_: AllocError) -> Fault {
        Fault::OutOfMemory
    }
}

impl<T: Drop> From<AllocFailed<T>> for Fault {
    ghost use Rattle.std.specs.Prelude.{◌≡◌};
    ghost use Rattle.av_types.specs.declared.fault.Fault.TheVariants.{OutOfMemory};

    ghost from_gives = { λ _ e. e ≡ OutOfMemory };

    fn from(_: AllocFailed<T>) -> Fault {
        Fault::OutOfMemory
    }
}
