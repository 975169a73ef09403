//! One entry turned in the parcel of its part.
ghost use Rattle.std.specs.Prelude.{◌≡◌, OnOk, OnErr};
ghost use Rattle.av_rules.specs.Kinds.{kind_count};
ghost use Rattle.av_cells.specs.Kinds.{kinds_of};
ghost use Rattle.av_inter.specs.Out.{out_of, out_in};
ghost use Rattle.av_inter.specs.Turned.{CanTurn, CanTurnIn, Turns, TurnsIn};

use arrayvec::ArrayVec;
use av_play::{DueEntry, turn_one};
use av_rules::Kinds;
use av_types::Made;
use av_world::Parcel;
use std::alloc::AllocError;

/// Turns an entry in a parcel, and puts aside what that makes.
fn turn_parcel(
    parcel: &mut Parcel,
    kinds: &Kinds,
    now: u32,
    next: DueEntry,
    made: &mut Vec<Made>,
) -> Result<(), AllocError>
    requires { CanTurn (kind_count kinds.now) next (out_of parcel.old) }
    ensures turned { OnOk result (Turns (kinds_of kinds.now) now (kind_count kinds.now) next
        (out_of parcel.old) (out_of parcel.new) made.old.items made.new.items) }
    ensures same_parcel { OnErr result (out_of parcel.new ≡ out_of parcel.old) }
    ensures same_made { OnErr result (made.new.items ≡ made.old.items) }
{
    let mut added = ArrayVec::new();
    match turn_one(parcel, kinds, now, next, &mut added, made) {
        Err(_) => Err(AllocError),
        Ok(()) => Ok(()),
    }
}

/// Turns an entry in a parcel that is out.
pub(crate) fn turn_in(
    slot: &mut Option<Parcel>,
    kinds: &Kinds,
    now: u32,
    next: DueEntry,
    made: &mut Vec<Made>,
) -> Result<(), AllocError>
    requires { CanTurnIn (kind_count kinds.now) next (out_in slot.old) }
    ensures turned { OnOk result (TurnsIn (kinds_of kinds.now) now (kind_count kinds.now) next
        (out_in slot.old) (out_in slot.new) made.old.items made.new.items) }
    ensures same_slot { OnErr result (out_in slot.new ≡ out_in slot.old) }
    ensures same_made { OnErr result (made.new.items ≡ made.old.items) }
{
    match slot {
        None => Ok(()),
        Some(parcel) => turn_parcel(parcel, kinds, now, next, made),
    }
}
