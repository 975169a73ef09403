//! How many workers a crew has.
ghost use Rattle.std.specs.Prelude.{◌≡◌, ◌<◌, ◌≤◌, true, false, OnOk, IfOk, IfErr};
ghost use Rattle.av_types.specs.declared.fault.Fault.TheVariants.{BadCount};
ghost use Rattle.av_crew.specs.Counts.{is_count_of_workers};

use av_types::{Fault, MOST_WORKERS};

/// How many workers there are: 1 to 8.
#[derive(Clone, Copy, Debug, PartialEq, Eq)]
pub struct Workers {
    pub count: usize,
    ghost some: { 0 < count },
    ghost few: { count ≤ 8 },
}

impl Workers {
    /// So many workers.
    ///
    /// # Errors
    /// `BadCount` where they are not 1 to 8.
    pub fn new(count: u32) -> Result<Self, Fault>
        ensures ok { IfOk result (λ workers. workers.count ≡ count) }
        ensures few { OnOk result (is_count_of_workers count ≡ true) }
        ensures err { IfErr result (λ e. e ≡ BadCount) }
        ensures bad { IfErr result (λ _. is_count_of_workers count ≡ false) }
    {
        if 1 <= count && count <= MOST_WORKERS {
            Ok(Workers {
                count: count as usize,
            })
        } else {
            Err(Fault::BadCount)
        }
    }
}
