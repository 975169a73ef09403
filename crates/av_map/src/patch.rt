//! What a chunk shows.
ghost use Rattle.std.specs.Prelude.{◌≡◌};

use crate::sight::Sight;

/// What a chunk shows from above.
#[derive(Drop)]
pub(crate) enum Patch {
    /// Nothing: there is no chunk, or one that is not fully generated.
    Clear,
    /// Nothing: the chunk has a fault.
    Unread,
    /// Its 256 columns, row by row from the north, each row from the west.
    Shown(Vec<Option<Sight>>),
}

impl Patch {
    ghost use Rattle.av_map.specs.Pixels.{column_of, unread_in};

    /// What a column shows.
    pub(crate) fn column(&self, index: usize) -> Option<Sight>
        ensures { result ≡ column_of self.now index }
    {
        match self {
            Patch::Clear | Patch::Unread => None,
            Patch::Shown(sights) => match sights.get(index) {
                Some(sight) => *sight,
                None => None,
            },
        }
    }

    /// 1 of a chunk with a fault, and 0 of any other.
    pub(crate) fn unread(&self) -> usize
        ensures { result ≡ unread_in self.now }
    {
        match self {
            Patch::Unread => 1,
            Patch::Clear | Patch::Shown(_) => 0,
        }
    }
}
