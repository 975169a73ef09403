//! One entry of a tick, turned, and what that makes put aside.
ghost use Rattle.std.specs.Prelude.{◌≡◌, ◌≤◌, ◌+◌, ◌++◌, IsTrue, OnOk, OnErr, length, vec_len, vec_capacity};
ghost use Rattle.av_rules.specs.Kinds.{kind_count};
ghost use Rattle.av_cells.specs.Kinds.{kinds_of};
ghost use Rattle.av_cells.specs.Rule.{HasKinds};
ghost use Rattle.av_cells.specs.World.{listed_all};
ghost use Rattle.av_play.specs.Play.{turn_of, made_by, labelled};

use crate::event::DueEntry;
use arrayvec::ArrayVec;
use av_cells::Cells;
use av_rules::Kinds;
use av_types::{Entry, Made};
use av_water::turn_onto;
use std::alloc::AllocError;

/// Puts what a turn made, with its maker's index and numbered from 0, behind what was put aside before.
#[tactic(auto, using(crate::proofs::Labelling::labelled_push))]
fn put_aside(made: &mut Vec<Made>, maker: u64, entries: &[Entry])
    requires few { length entries.now ≤ 42 }
    requires room { vec_len made.old + 42 ≤ vec_capacity made.old }
    ensures { made.new.items ≡ made.old.items ++ labelled maker 0 entries.now }
{
    let mut number: u8 = 0;
    for entry in entries {
        made.push_reserved(Made {
            maker,
            number,
            entry: *entry,
        });
        number += 1;
    }
}

/// Turns a loaded entry in tick `now`, and puts what that makes behind `made`, with the entry's index and numbered from 0. `added` is
/// room for it that can be used again: what it has is forgotten.
///
/// # Errors
/// Want of memory: then nothing is turned.
pub fn turn_one<C: Cells>(
    cells: &mut C,
    kinds: &Kinds,
    now: u32,
    entry: DueEntry,
    added: &mut ArrayVec<Entry, 42>,
    made: &mut Vec<Made>,
) -> Result<(), AllocError>
    requires kinds { HasKinds (kind_count kinds.now) (C.world cells.old) }
    requires loaded { IsTrue ((C.world cells.old).loaded entry.entry.pos) }
    ensures world { OnOk result (C.world cells.new
        ≡ (turn_of (kinds_of kinds.now) now entry (C.world cells.old)).world) }
    ensures made { OnOk result (made.new.items ≡ made.old.items
        ++ made_by (kinds_of kinds.now) now entry (C.world cells.old)) }
    ensures listed { OnOk result (C.lists cells.new
        ≡ listed_all (C.lists cells.old) (turn_of (kinds_of kinds.now) now entry
        (C.world cells.old)).made) }
    ensures same_world { OnErr result (C.world cells.new ≡ C.world cells.old) }
    ensures same_lists { OnErr result (C.lists cells.new ≡ C.lists cells.old) }
    ensures same_made { OnErr result (made.new.items ≡ made.old.items) }
    ensures kinds { HasKinds (kind_count kinds.now) (C.world cells.new) }
    ensures loaded { (C.world cells.new).loaded ≡ (C.world cells.old).loaded }
{
    made.reserve(42)?;
    if cells.prepare(entry.entry.pos).is_err() {
        return Err(AllocError);
    }
    added.clear();
    turn_onto(cells, kinds, now, entry.entry.pos, added);
    put_aside(made, entry.index, added.as_slice());
    Ok(())
}
