//! Reaches whose chunks the open group touches already.
ghost use Rattle.std.specs.Prelude.{◌≡◌, ◌<◌, true, All, None, Some};

use crate::corners::Reach;

/// The reaches that were noted, by the x and z modulo 2 of their chunks: the nine of one chunk's blocks have each another slot.
pub(crate) type Noted = [Option<Reach>; 16];

/// None is noted.
pub(crate) fn none_noted() -> Noted
    ensures { All (λ o. o ≡ None) result }
{
    [None; 16]
}

/// A number's remainder by 2.
fn half(number: i32) -> usize
    ensures { result < 2 }
{
    number.rem_euclid(2) as usize
}

/// A reach's slot among those that are noted.
pub(crate) fn slot_of(reach: Reach) -> usize
    ensures { result < 16 }
{
    let x = 2 * half(reach.north_west.x) + half(reach.south_east.x);
    let z = 2 * half(reach.north_west.z) + half(reach.south_east.z);
    x + 4 * z
}

/// Whether a reach is the one that was noted.
pub(crate) fn is_noted(noted: Option<Reach>, reach: Reach) -> bool
    ensures { result ≡ true → noted ≡ Some reach }
{
    match noted {
        Some(one) => one.north_west == reach.north_west && one.south_east == reach.south_east,
        None => false,
    }
}
