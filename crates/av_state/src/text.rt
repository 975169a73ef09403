//! Names and properties whose texts stand elsewhere, as in a file's tags: a table is asked by them without a copy.
ghost use Rattle.std.specs.Prelude.{◌≡◌, option_map, true};
ghost use Rattle.std.specs.List.{list_all};
ghost use Rattle.std.specs.Cmp.Lexicographic.{pointwise, slice_cmp};
ghost use Rattle.av_state.specs.BlockState.{is_short_property, starts_above, keys_rise, is_storable, value_of};
ghost use Rattle.av_state.specs.Order.{property_cmp};
ghost use Rattle.av_state.specs.StateList.{same_property};
ghost use Rattle.av_state.specs.Texts.{property_told, properties_told, state_told};
ghost use Rattle.av_state.specs.Views.{property_of, properties_of};

use crate::index::{Sought, fingerprint};
use crate::state::{AIR, Form, LEVEL, Property, State, WATER, is_short, level_of_text};
use std::cmp::Ordering;
use std::hash::{Hash, Hasher};

/// A property whose texts stand elsewhere.
#[derive(Debug, Clone, Copy, PartialEq, Eq)]
pub struct PropertyText<'a> {
    /// The property's name.
    pub key: &'a [u8],
    /// Its value, as text.
    pub value: &'a [u8],
}

impl Hash for PropertyText<'_> {
    ghost use Rattle.av_state.specs.Hashing.{told_texts, told_texts-equal};

    ghost hash_input = { told_texts };

    ghost respects_eq = { told_texts-equal };

    fn hash<H: Hasher>(&self, state: &mut H) {
        state.write(self.key);
        state.write(self.value);
    }
}

/// A name and properties whose texts stand elsewhere.
#[derive(Debug, Clone, Copy, PartialEq, Eq)]
pub(crate) struct StateText<'a> {
    pub(crate) name: &'a [u8],
    pub(crate) properties: &'a [PropertyText<'a>],
}

impl Hash for StateText<'_> {
    ghost use Rattle.std.specs.Prelude.{◌∷◌};
    ghost use Rattle.av_state.specs.Hashing.{all_told_texts, told_state-equal};

    ghost hash_input = { λ s. s.name.now ∷ all_told_texts s.properties.now };

    ghost respects_eq = { λ s t. told_state-equal s.name.now t.name.now s.properties.now t.properties.now };

    fn hash<H: Hasher>(&self, state: &mut H) {
        state.write(self.name);
        for property in self.properties {
            property.hash(state);
        }
    }
}

/// Whether the texts are those of a property.
fn tells(text: PropertyText<'_>, property: &Property) -> bool
    ensures { result ≡ same_property (property_told text.entry) (property_of property.now) }
{
    text.key == property.key.as_slice() && text.value == property.value.as_slice()
}

/// Whether the texts are those of properties, one by one.
fn all_tell(texts: &[PropertyText<'_>], properties: &[Property]) -> bool
    ensures { result ≡ pointwise same_property (properties_told texts.now)
        (properties_of properties.now) }
{
    if texts.len() != properties.len() {
        return false;
    }
    for index in 0..texts.len() {
        if !tells(texts[index], &properties[index]) {
            return false;
        }
    }
    true
}

/// How a property stands to one whose texts stand elsewhere.
fn order_of_property(stored: &Property, sought: PropertyText<'_>) -> Ordering
    ensures { result ≡ property_cmp (property_of stored.now) (property_told sought.entry) }
{
    match stored.key.as_slice().cmp(sought.key) {
        Ordering::Equal => stored.value.as_slice().cmp(sought.value),
        apart => apart,
    }
}

/// How properties stand to those whose texts stand elsewhere.
fn order_of_properties(stored: &[Property], sought: &[PropertyText<'_>]) -> Ordering
    ensures { result ≡ slice_cmp property_cmp (properties_of stored.now)
        (properties_told sought.now) }
{
    for index in 0..stored.len() {
        if index == sought.len() {
            return Ordering::Greater;
        }
        let order = order_of_property(&stored[index], sought[index]);
        if order.is_ne() {
            return order;
        }
    }
    stored.len().cmp(&sought.len())
}

impl Sought for StateText<'_> {
    ghost sought = { state_told };

    fn fingerprint(&self) -> u64 {
        fingerprint(self)
    }

    fn is(&self, stored: &State) -> bool {
        self.name == stored.name.as_slice()
            && all_tell(self.properties, stored.properties.as_slice())
    }

    fn order_of(&self, stored: &State) -> Ordering {
        match stored.name.as_slice().cmp(self.name) {
            Ordering::Equal => order_of_properties(stored.properties.as_slice(), self.properties),
            apart => apart,
        }
    }
}

/// The value of a key.
fn value_in<'a>(key: &[u8], properties: &[PropertyText<'a>]) -> Option<&'a [u8]>
    ensures { option_map (λ v. v.now) result ≡ value_of key.now (properties_told properties.now) }
{
    for property in properties {
        if key == property.key {
            return Some(property.value);
        }
    }
    None
}

/// Whether each text is short.
fn are_short(properties: &[PropertyText<'_>]) -> bool
    ensures { result ≡ list_all is_short_property (properties_told properties.now) }
{
    for property in properties {
        if !is_short(property.key) || !is_short(property.value) {
            return false;
        }
    }
    true
}

/// Whether the first key is above this one.
fn starts_above(key: &[u8], properties: &[PropertyText<'_>]) -> bool
    ensures { result ≡ starts_above key.now (properties_told properties.now) }
{
    match properties.first() {
        None => true,
        Some(first) => key.cmp(first.key).is_lt(),
    }
}

/// Whether each key is above the one before it.
fn keys_rise(properties: &[PropertyText<'_>]) -> bool
    ensures { result ≡ keys_rise (properties_told properties.now) }
{
    for index in 0..properties.len() {
        if !starts_above(properties[index].key, &properties[index + 1..]) {
            return false;
        }
    }
    true
}

impl StateText<'_> {
    ghost use Rattle.av_state.specs.Form.{IsForm};

    /// Whether a file can hold the state.
    pub(crate) fn is_storable(self) -> bool
        ensures { result ≡ is_storable (state_told self.entry) }
    {
        is_short(self.name) && are_short(self.properties) && keys_rise(self.properties)
    }

    /// Which of the three forms the state takes.
    pub(crate) fn form(self) -> Form
        ensures { IsForm (state_told self.entry) result }
    {
        if self.name == AIR {
            return Form::Fixed(0);
        }
        if self.name != WATER {
            return Form::Same;
        }
        match level_of_text(value_in(LEVEL, self.properties)) {
            Some(level) => Form::Fixed(level + 1),
            None => Form::NoLevel,
        }
    }
}
