//! Numbers for block states.
ghost use Rattle.std.specs.Prelude.{◌≡◌, map};
ghost use Rattle.av_state.specs.Index.{IsIndex};
ghost use Rattle.av_state.specs.StateList.{IsStateList};
ghost use Rattle.av_state.specs.States.{state_of};
ghost use Rattle.std.proofs.Props.{props};

use crate::index::{Index, Sought};
use crate::state::{Form, State};
use crate::text::{PropertyText, StateText};
use av_types::{Fault, Wet};
use std::alloc::Global;

/// The most states that a table has.
const MOST_STATES: usize = 65535;

/// For how many states a table has room at once.
const ROOM: usize = 32;

/// Block states with their numbers, in the order in which they were first seen.
///
/// Number 0 is air and 1 to 9 are the water levels 0 to 8. A table has no state twice, at most 65,535 states, and
/// water and air in the form that they take when they are read.
#[derive(Drop)]
pub struct StateTable {
    states: Vec<State>,
    index: Index,
    pub ghost numbered: { IsStateList (map state_of states.items) } by { Prim.hlevel props },
    ghost indexed: { IsIndex (map state_of states.items) index } by { Prim.hlevel props },
}

impl StateTable {
    ghost use Rattle.std.specs.Prelude.{◌<◌, ◌↔◌, ◌≢◌, length, IfOk, IfErr, IfSome, OnErr, slice_get, option_and_then, Some, None, false};
    ghost use Rattle.av_types.specs.declared.fault.Fault.TheVariants.{OutOfMemory, BadWaterLevel, TooManyStates};
    ghost use Rattle.av_state.specs.BlockState.{meant, storable, wet_of};
    ghost use Rattle.av_state.specs.StateList.{first_states, most_states, number_in, Numbers, IsNew, IsOneTooMany};
    ghost use Rattle.av_state.specs.Table.{states};
    ghost use Rattle.av_state.specs.Texts.{properties_told, state_told, form_of};

    /// The table of the ten first states: air, and water of the levels 0 to 8. Refuses with `OutOfMemory` alone.
    pub fn new(alloc: Global) -> Result<Self, Fault>
        ensures ok { IfOk result (λ t. states t ≡ first_states) }
        ensures memory { IfErr result (λ e. e ≡ OutOfMemory) }
    {
        let mut states = Vec::with_capacity(alloc, ROOM)?;
        let mut index = Index::with_room(alloc, ROOM)?;
        index.append(&mut states, State::air(alloc)?)?;
        for level in 0..9 {
            index.append(&mut states, State::water(alloc, level)?)?;
        }
        Ok(StateTable { states, index })
    }

    /// How many states there are, from 10 to 65,535.
    pub fn len(&self) -> usize
        ensures { result ≡ length (states self.now) }
    {
        self.states.len()
    }

    /// Whether there is no state, which is never so.
    pub fn is_empty(&self) -> bool
        ensures { result ≡ false }
    {
        false
    }

    /// The state of a number.
    pub fn state(&self, number: u16) -> &State
        requires { number < length (states self.now) }
        ensures there { slice_get (states self.now) number ≡ Some (state_of result.now) }
        // and of no other number
        ensures only { number_in (states self.now) (state_of result.now) ≡ Some number }
    {
        &self.states[number as usize]
    }

    /// The number of a state in the form that it takes when it is read, where it has such a form and that is there.
    pub fn number_of(&self, state: &State) -> Option<u16>
        ensures value { result ≡ option_and_then (number_in (states self.now))
            (meant (state_of state.now)) }
        ensures there { IfSome result (λ n. slice_get (states self.now) n
            ≡ meant (state_of state.now)) }
    {
        match state.form() {
            Form::Fixed(number) => Some(number),
            Form::NoLevel => None,
            Form::Same => self.find(state),
        }
    }

    /// The number of the state of a name and properties in any order, in the form that it takes when it is read, where
    /// there is such a state, a file can hold it, and it is there. The properties are put in order. Refuses with
    /// `OutOfMemory` alone.
    pub fn number_of_texts(
        &self,
        name: &[u8],
        properties: &mut Vec<PropertyText<'_>>,
    ) -> Result<Option<u16>, Fault>
        ensures value { IfOk result (λ n. n ≡ option_and_then (number_in (states self.now)) (form_of (record {
          name = name.now;
          properties = properties_told properties.old.items;
        }))) }
        ensures memory { IfErr result (λ e. e ≡ OutOfMemory) }
    {
        properties.sort_by(|p, q| p.key.cmp(q.key))?;
        let state = StateText {
            name,
            properties: properties.as_slice(),
        };
        Ok(self.number_of_text(state))
    }

    /// The number of a state whose texts stand elsewhere, as `number_of_texts` answers it.
    fn number_of_text(&self, state: StateText<'_>) -> Option<u16>
        ensures { result ≡ option_and_then (number_in (states self.now))
            (option_and_then meant (storable (state_told state.entry))) }
    {
        if !state.is_storable() {
            return None;
        }
        match state.form() {
            Form::Same => self.find(&state),
            Form::Fixed(known) => Some(known),
            Form::NoLevel => None,
        }
    }

    /// The number of a state as it is.
    fn find<T: Sought>(&self, sought: &T) -> Option<u16>
        ensures { result ≡ number_in (states self.now) (T.sought sought.now) }
    {
        self.index.find(self.states.as_slice(), sought)
    }

    /// How wet the state of a number is by its name: water by its level, and all else is dry.
    pub fn wet(&self, number: u16) -> Wet
        requires { number < length (states self.now) }
        ensures { slice_get (map wet_of (states self.now)) number ≡ Some result }
    {
        self.state(number).wet()
    }

    /// Gives a state its number: that of the form that it takes when it is read. A new one comes last.
    ///
    /// Refuses water whose level is not 0 to 15 with `BadWaterLevel`, a new state beside 65,535 others with
    /// `TooManyStates`, and a growth that was refused with `OutOfMemory`. After a refusal the table is as it was.
    pub fn intern(&mut self, state: &State) -> Result<u16, Fault>
        ensures ok { IfOk result (Numbers (states self.old) (state_of state.now)
            (states self.new)) }
        ensures no_level { (result ≡ Err BadWaterLevel) ↔ (meant (state_of state.now) ≡ None) }
        ensures too_many { (result ≡ Err TooManyStates)
            ↔ IsOneTooMany (states self.old) (state_of state.now) }
        ensures memory { IfErr result (λ e. e ≢ BadWaterLevel → e ≢ TooManyStates
            → e ≡ OutOfMemory) }
        ensures of_new { IfErr result (λ e. e ≡ OutOfMemory
            → IsNew (states self.old) (state_of state.now)) }
        ensures unchanged { OnErr result (states self.new ≡ states self.old) }
    {
        match state.form() {
            Form::Fixed(number) => Ok(number),
            Form::NoLevel => Err(Fault::BadWaterLevel),
            Form::Same => match self.index.find(self.states.as_slice(), state) {
                Some(number) => Ok(number),
                None => self.add(state),
            },
        }
    }

    /// Gives a new state the next number.
    fn add(&mut self, state: &State) -> Result<u16, Fault>
        requires same { meant (state_of state.now) ≡ Some (state_of state.now) }
        requires is_new { number_in (states self.old) (state_of state.now) ≡ None }
        ensures ok { IfOk result (Numbers (states self.old) (state_of state.now)
            (states self.new)) }
        ensures too_many { (result ≡ Err TooManyStates) ↔ (length (states self.old) ≡ most_states) }
        ensures memory { IfErr result (λ e. e ≢ TooManyStates → e ≡ OutOfMemory) }
        ensures unchanged { OnErr result (states self.new ≡ states self.old) }
    {
        let number = self.states.len();
        if number >= MOST_STATES {
            return Err(Fault::TooManyStates);
        }
        self.index.put(state.clone()?, &mut self.states)?;
        Ok(number as u16)
    }
}
