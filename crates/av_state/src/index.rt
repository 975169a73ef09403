//! How a table finds its states.
ghost use Rattle.std.specs.Prelude.{◌≡◌, ◌≢◌, ◌<◌, ◌≤◌, ◌++◌, ◌∷◌, [], length, map, Some, None, true, false, OnOk, OnErr, IfOk, IfSome, IfNone, MatchResult, slice_get};
ghost use Rattle.av_state.specs.States.{state_of};
ghost use Rattle.av_state.specs.BlockState.{BlockState};
ghost use Rattle.av_state.specs.StateList.{number_in, same_state, with_state};
ghost use Rattle.av_state.specs.Order.{hash_of, fingerprint_of, texts_cmp};
ghost use Rattle.av_state.specs.Index.{compared, FindsStates, IsIndex, IsRankFor, HasRank};

use crate::slots::{FREE, Slots};
use crate::state::State;
use std::alloc::{AllocError, Global};
use std::cmp::Ordering;
use std::hash::{FoldHasher, Hash, Hasher};

/// What a table is asked for: a state, or texts of one that stand elsewhere.
pub(crate) trait Sought {
    ghost sought: { Self → BlockState };

    /// A hash of its texts.
    fn fingerprint(&self) -> u64
        ensures { result ≡ fingerprint_of (sought self.now) };

    /// Whether a stored state is it. This is faster than to see that neither is below the other.
    fn is(&self, stored: &State) -> bool
        ensures { result ≡ same_state (sought self.now) (state_of stored.now) };

    /// How a stored state stands to it, by their texts.
    fn order_of(&self, stored: &State) -> Ordering
        ensures { result ≡ texts_cmp (state_of stored.now) (sought self.now) };
}

impl Sought for State {
    ghost sought = { state_of };

    fn fingerprint(&self) -> u64 {
        fingerprint(self)
    }

    fn is(&self, stored: &State) -> bool {
        self == stored
    }

    fn order_of(&self, stored: &State) -> Ordering {
        stored.cmp(self)
    }
}

/// A hash of texts. Its seed is fixed: who writes a file can make states of one fingerprint.
pub(crate) fn fingerprint<T: Hash>(texts: &T) -> u64
    ensures { result ≡ hash_of (T.hash_input texts.now) }
{
    let mut hasher = FoldHasher::default();
    texts.hash(&mut hasher);
    hasher.finish()
}

/// How states are found: a slot tells the first number of the fingerprints that fall there, and an order has the others.
///
/// Most states are found at once, and most that are not there too, since a free slot tells it. The order is by
/// fingerprints, and by the texts where these are equal; a search halves it, so no names that a file brings make it long.
#[derive(Drop)]
pub(crate) struct Index {
    /// The fingerprints by number.
    pub(crate) fingerprints: Vec<u64>,
    pub(crate) slots: Slots,
    /// The numbers that no slot tells, by rising states.
    pub(crate) order: Vec<u16>,
}

impl Index {
    /// The index of no states, with room for some.
    pub(crate) fn with_room(alloc: Global, states: usize) -> Result<Index, AllocError>
        ensures { IfOk result (λ index. IsIndex [] index) }
    {
        Ok(Index {
            fingerprints: Vec::with_capacity(alloc, states)?,
            slots: Slots::new(alloc),
            order: Vec::new(alloc),
        })
    }

    /// The number of a state.
    pub(crate) fn find<T: Sought>(&self, states: &[State], sought: &T) -> Option<u16>
        requires index { IsIndex (map state_of states.now) self.now }
        requires few { length states.now ≤ 65535 }
        ensures there { IfSome result (λ n. slice_get (map state_of states.now) n
            ≡ Some (T.sought sought.now)) }
        ensures absent { IfNone result (number_in (map state_of states.now) (T.sought sought.now)
            ≡ None) }
    {
        let fingerprint = sought.fingerprint();
        let first = self.slots.told(fingerprint);
        if first == FREE {
            return None;
        }
        if has_number(states, first, sought) {
            return Some(first);
        }
        match self.rank(states, fingerprint, sought) {
            Ok(rank) => Some(self.order[rank]),
            Err(_) => None,
        }
    }

    /// The rank of a state in the order, or the one that it would have.
    fn rank<T: Sought>(
        &self,
        states: &[State],
        fingerprint: u64,
        sought: &T,
    ) -> Result<usize, usize>
        requires index { IsIndex (map state_of states.now) self.now }
        requires fingerprint { fingerprint ≡ fingerprint_of (T.sought sought.now) }
        ensures { MatchResult result (HasRank (map state_of states.now)
            (T.sought sought.now) self.now.order.items) (IsRankFor (map state_of states.now)
            (T.sought sought.now) self.now.order.items) }
    {
        self.order.as_slice().binary_search_by(|number| {
            self.stands(states, *number, fingerprint, sought)
        })
    }

    /// How a number's state stands to another.
    fn stands<T: Sought>(
        &self,
        states: &[State],
        number: u16,
        fingerprint: u64,
        sought: &T,
    ) -> Ordering
        ensures { result ≡ compared self.now.fingerprints.items
            (map state_of states.now) fingerprint (T.sought sought.now) number }
    {
        let rank = number as usize;
        match (self.fingerprints.get(rank), states.get(rank)) {
            (Some(known), Some(state)) => {
                if *known == fingerprint {
                    sought.order_of(state)
                } else {
                    known.cmp(&fingerprint)
                }
            }
            (_, _) => Ordering::Less,
        }
    }

    /// Puts a new state at the end of states. Nothing changes where memory is refused.
    pub(crate) fn put(&mut self, state: State, states: &mut Vec<State>) -> Result<(), AllocError>
        requires index { IsIndex (map state_of states.old.items) self.old }
        requires is_new { number_in (map state_of states.old.items) (state_of state) ≡ None }
        requires room { length states.old.items < 65535 }
        ensures index { IsIndex (map state_of states.new.items) self.new }
        ensures ok { OnOk result (map state_of states.new.items
            ≡ map state_of states.old.items ++ state_of state ∷ []) }
        ensures unchanged { OnErr result (map state_of states.new.items
            ≡ map state_of states.old.items) }
    {
        let fingerprint = state.fingerprint();
        states.reserve(1)?;
        self.fingerprints.reserve(1)?;
        self.slots.reserve(self.fingerprints.as_slice())?;
        self.seat(states.as_slice(), &state, fingerprint)?;
        self.fingerprints.push_reserved(fingerprint);
        states.push_reserved(state);
        Ok(())
    }

    /// Lets a slot tell the number of a new state, or puts it at its rank of the order.
    fn seat(&mut self, states: &[State], state: &State, fingerprint: u64) -> Result<(), AllocError>
        requires index { IsIndex (map state_of states.now) self.old }
        requires fingerprint { fingerprint ≡ fingerprint_of (state_of state.now) }
        requires is_new { number_in (map state_of states.now) (state_of state.now) ≡ None }
        requires room { length states.now < 65535 }
        ensures ok { OnOk result (FindsStates (map state_of states.now ++ state_of state.now ∷ [])
            (self.new.fingerprints.items ++ fingerprint ∷ []) self.new.slots self.new.order.items) }
        ensures unchanged { OnErr result (IsIndex (map state_of states.now) self.new) }
        ensures fingerprints { self.new.fingerprints ≡ self.old.fingerprints }
    {
        let number = states.len() as u16;
        if self.slots.take(fingerprint, number) {
            return Ok(());
        }
        match self.rank(states, fingerprint, state) {
            Ok(_) => Ok(()),
            Err(rank) => Ok(self.order.insert(rank, number)?),
        }
    }

    /// Puts a state at the end of states where it is not there yet.
    pub(crate) fn append(&mut self, states: &mut Vec<State>, state: State) -> Result<(), AllocError>
        requires index { IsIndex (map state_of states.old.items) self.old }
        requires room { length states.old.items < 65535 }
        ensures index { IsIndex (map state_of states.new.items) self.new }
        ensures ok { OnOk result (map state_of states.new.items
            ≡ with_state (map state_of states.old.items) (state_of state)) }
    {
        match self.find(states.as_slice(), &state) {
            Some(_) => Ok(()),
            None => self.put(state, states),
        }
    }
}

/// Whether a number is that of a state.
fn has_number<T: Sought>(states: &[State], number: u16, sought: &T) -> bool
    ensures yes { result ≡ true → slice_get (map state_of states.now) number
        ≡ Some (T.sought sought.now) }
    ensures no { result ≡ false → slice_get (map state_of states.now) number
        ≢ Some (T.sought sought.now) }
{
    match states.get(number as usize) {
        Some(state) => sought.is(state),
        None => false,
    }
}
