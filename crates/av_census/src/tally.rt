//! How many blocks have each state, by the order of the states.
ghost use Rattle.std.specs.Prelude.{◌≡◌, List, ◌+◌, ◌<◌, ◌^◌, true, false, None, length, IfOk, OnOk, Some, if◌then◌else◌};
ghost use Rattle.std.specs.BTreeMap.{get, is_at};
ghost use Rattle.av_state.specs.BlockState.{BlockState};
ghost use Rattle.av_state.specs.StateList.{same_state};
ghost use Rattle.av_state.specs.States.{state_of};
ghost use Rattle.av_state.specs.Table.{states};
ghost use Rattle.av_state.specs.declared.state.State.{State};
ghost use Rattle.av_census.specs.Census.{AreCounts, most_first, state_order, times};
ghost use Rattle.av_census.specs.Counting.{HasNoZero, Tallies, tallied, weighed};
ghost use Rattle.av_types.specs.Order.{ordered};

use crate::counts::StateCount;
use av_state::{State, StateTable};
use std::alloc::{AllocError, Global};
use std::collections::BTreeMap;

/// How many blocks have each state. A look-up halves the states, so no states that a file brings make it long.
pub(crate) type Tally = BTreeMap<State, u64>;

/// Counts more blocks of a state that is there. Answers whether it is.
fn raise(tally: &mut Tally, state: &State, more: u64) -> bool
    requires room { tallied tally.old state.now + more < 2 ^ 64 }
    ensures here { result ≡ true → get state_order tally.new state.now
        ≡ Some (tallied tally.old state.now + more) }
    ensures others { result ≡ true → (s : State) → is_at (state_order state.now) s ≡ false
        → get state_order tally.new s ≡ get state_order tally.old s }
    ensures absent { result ≡ false → get state_order tally.old state.now ≡ None }
    ensures same { result ≡ false → tally.new.entries ≡ tally.old.entries }
{
    let Some(blocks) = tally.get_mut(state) else {
        return false;
    };
    *blocks += more;
    true
}

/// Puts in a state that is not there, with its blocks.
fn add_state(tally: &mut Tally, state: State, blocks: u64) -> Result<(), AllocError>
    requires absent { get state_order tally.old state ≡ None }
    ensures here { OnOk result (get state_order tally.new state ≡ Some blocks) }
    ensures others { OnOk result ((s : State) → is_at (state_order state) s ≡ false
        → get state_order tally.new s ≡ get state_order tally.old s) }
{
    tally.insert(state, blocks)?;
    Ok(())
}

/// Counts more blocks of a state.
fn add(tally: &mut Tally, state: &State, more: u64) -> Result<(), AllocError>
    requires some { 0 < more }
    requires room { tallied tally.old state.now + more < 2 ^ 64 }
    ensures { OnOk result (Tallies tally.old tally.new
        (λ s. if same_state s (state_of state.now) then more else 0)) }
{
    if raise(tally, state, more) {
        return Ok(());
    }
    let key = state.clone()?;
    add_state(tally, key, more)?;
    Ok(())
}

/// Counts more blocks of a state, of which there may be none.
fn add_some(tally: &mut Tally, state: &State, more: u64) -> Result<(), AllocError>
    requires room { tallied tally.old state.now + more < 2 ^ 64 }
    ensures { OnOk result (Tallies tally.old tally.new
        (λ s. if same_state s (state_of state.now) then more else 0)) }
{
    if more == 0 {
        return Ok(());
    }
    add(tally, state, more)?;
    Ok(())
}

/// Counts blocks by the counts of their numbers, which are those of a table.
pub(crate) fn add_all(
    tally: &mut Tally,
    table: &StateTable,
    counts: &[u64],
) -> Result<(), AllocError>
    requires long { length counts.now ≡ length (states table.now) }
    requires room { (s : State) → tallied tally.old s + weighed (state_of s)
        (states table.now) counts.now < 2 ^ 64 }
    ensures { OnOk result (Tallies tally.old tally.new
        (λ s. weighed s (states table.now) counts.now)) }
{
    for number in 0..counts.len() {
        add_some(tally, table.state(number as u16), counts[number])?;
    }
    Ok(())
}

/// The counts of a tally, in the order of the states.
pub(crate) fn listed(alloc: Global, tally: Tally) -> Result<Vec<StateCount>, AllocError>
    ensures { IfOk result (λ counts. (blocks : List BlockState) → HasNoZero tally
        → ((s : State) → tallied tally s ≡ times (state_of s) blocks)
        → AreCounts blocks counts.items) }
{
    let mut counts = Vec::new(alloc);
    for (state, blocks) in tally {
        counts.push(StateCount { state, blocks })?;
    }
    Ok(counts)
}

/// The counts with the most blocks first. Equal ones stay in their order.
pub(crate) fn sorted(counts: Vec<StateCount>) -> Result<Vec<StateCount>, AllocError>
    ensures { IfOk result (λ new. new.items ≡ ordered most_first counts.items) }
{
    let mut counts = counts;
    counts.sort_by(|a, b| b.blocks.cmp(&a.blocks))?;
    Ok(counts)
}
