//! Block states: a name and properties (<https://minecraft.wiki/w/Block_states>).
//!
//! Texts are kept as bytes, since those of a file need not be UTF-8.
ghost use Rattle.std.specs.Prelude.{◌≡◌, ◌≢◌, ◌↔◌, ◌<◌, ◌≤◌, IsTrue, IfOk, IfErr, IfSome, OnOk, ◌++◌, ◌&&◌, option_map, is_some, map, Some, None};
ghost use Rattle.std.specs.List.{list_all};
ghost use Rattle.av_types.specs.declared.fault.Fault.TheVariants.{OutOfMemory, BadWaterLevel};
ghost use Rattle.av_state.specs.BlockState.{is_short, is_short_property, starts_above, keys_rise, is_storable, storable, in_order, value_of, air_name, water_name, index_in, capped_level, water_level, air, water};
ghost use Rattle.av_state.specs.Views.{property_of, properties_of};
ghost use Rattle.av_state.specs.Words.{property_text, more_text};

use av_types::{Fault, Wet};
use std::alloc::{AllocError, Global};
use std::hash::{Hash, Hasher};

/// One property of a state, as `lit` = `true`.
#[derive(Debug, Drop, PartialEq, Eq, PartialOrd, Ord)]
pub struct Property {
    /// The property's name.
    pub key: Vec<u8>,
    /// Its value, as text.
    pub value: Vec<u8>,
}

impl Hash for Property {
    ghost use Rattle.av_state.specs.Hashing.{property_texts, property_texts-equal};

    ghost hash_input = { property_texts };

    ghost respects_eq = { property_texts-equal };

    fn hash<H: Hasher>(&self, state: &mut H) {
        state.write(self.key.as_slice());
        state.write(self.value.as_slice());
    }
}

impl Clone for Property {
    ghost is_clone = { λ p q. property_of q ≡ property_of p };

    fn clone(&self) -> Result<Self, AllocError> {
        Ok(Property {
            key: self.key.clone()?,
            value: self.value.clone()?,
        })
    }
}

/// A block state: a name, and properties in the byte order of their keys, none of them twice. Each text is of at most
/// 65,535 bytes, as those of a file are.
#[derive(Debug, Drop, PartialEq, Eq, PartialOrd, Ord)]
pub struct State {
    /// The block's name, as `minecraft:stone`.
    pub name: Vec<u8>,
    /// The properties, by rising keys.
    pub properties: Vec<Property>,
    pub ghost storable: { IsTrue (is_short name.items && list_all is_short_property (properties_of properties.items) && keys_rise (properties_of properties.items)) },
}

pub(crate) const AIR: &[u8] = b"minecraft:air";

pub(crate) const WATER: &[u8] = b"minecraft:water";

pub(crate) const LEVEL: &[u8] = b"level";

/// The texts of water's levels.
const LEVEL_TEXTS: [&[u8]; 16] = [
    b"0", b"1", b"2", b"3", b"4", b"5", b"6", b"7", b"8", b"9", b"10", b"11", b"12", b"13", b"14",
    b"15",
];

/// The longest text of a state, in bytes: a file has two bytes for a text's length.
const LONGEST_TEXT: usize = 65535;

/// What the form that a state takes when it is read is.
#[derive(Clone, Copy)]
pub(crate) enum Form {
    /// Air, or water of a level: one of the first ten states, with its number.
    Fixed(u16),
    /// Water with a level that is not 0 to 15.
    NoLevel,
    /// The state as it is.
    Same,
}

impl State {
    ghost use Rattle.av_state.specs.States.{state_of};
    ghost use Rattle.av_state.specs.BlockState.{level_of, meant, wet_of};
    ghost use Rattle.av_state.specs.Words.{state_text};
    ghost use Rattle.av_state.specs.Form.{IsForm};
    ghost use Rattle.std.specs.Str.{bytes_eq};

    /// The state of a name and properties in any order. None where a text is longer than 65,535 bytes or a key is there
    /// twice, as in no file. Refuses with `OutOfMemory` alone.
    pub fn new(name: Vec<u8>, mut properties: Vec<Property>) -> Result<Option<State>, Fault>
        ensures ok { IfOk result (λ s. option_map state_of s ≡ storable (record {
          name = name.items;
          properties = in_order (properties_of properties.items);
        })) }
        ensures memory { IfErr result (λ e. e ≡ OutOfMemory) }
    {
        properties.sort_by(|p, q| p.key.cmp(&q.key))?;
        if !is_storable(name.as_slice(), properties.as_slice()) {
            return Ok(None);
        }
        Ok(Some(State { name, properties }))
    }

    /// The value of a property, or `None` where the state does not have it.
    pub fn value(&self, key: &[u8]) -> Option<&[u8]>
        ensures { option_map (λ v. v.now) result ≡ value_of key.now (state_of self.now).properties }
    {
        for property in &self.properties {
            if key == property.key.as_slice() {
                return Some(property.value.as_slice());
            }
        }
        None
    }

    /// Whether it is air by its name.
    pub fn is_air(&self) -> bool
        ensures { result ≡ bytes_eq (state_of self.now).name air_name }
    {
        self.name.as_slice() == AIR
    }

    /// Whether it is water by its name.
    pub fn is_water(&self) -> bool
        ensures { result ≡ bytes_eq (state_of self.now).name water_name }
    {
        self.name.as_slice() == WATER
    }

    /// The form that the state takes when it is read (docs/FORMATS.md, "Water and air as states"): air has no properties,
    /// and water the one property `level` with 0 to 8, where a missing one is 0 and 9 to 15 are 8. Any other level is
    /// refused with `BadWaterLevel`, and a growth that was refused with `OutOfMemory`.
    pub fn meant(&self, alloc: Global) -> Result<State, Fault>
        ensures ok { IfOk result (λ s. meant (state_of self.now) ≡ Some (state_of s)) }
        ensures no_level { (result ≡ Err BadWaterLevel) ↔ (meant (state_of self.now) ≡ None) }
        ensures memory { IfErr result (λ e. e ≢ BadWaterLevel → e ≡ OutOfMemory) }
    {
        match self.form() {
            Form::Fixed(0) => Ok(State::air(alloc)?),
            Form::Fixed(number) => Ok(State::water(alloc, number as usize - 1)?),
            Form::NoLevel => Err(Fault::BadWaterLevel),
            Form::Same => Ok(self.clone()?),
        }
    }

    /// Which of the three forms the state takes.
    pub(crate) fn form(&self) -> Form
        ensures { IsForm (state_of self.now) result }
    {
        if self.is_air() {
            return Form::Fixed(0);
        }
        if !self.is_water() {
            return Form::Same;
        }
        match self.level() {
            Some(level) => Form::Fixed(level + 1),
            None => Form::NoLevel,
        }
    }

    /// The level of water, from 0 to 8.
    fn level(&self) -> Option<u16>
        ensures value { result ≡ level_of (state_of self.now) }
        ensures bound { IfSome result (λ n. n ≤ 8) }
    {
        level_of_text(self.value(LEVEL))
    }

    /// Whether there is a form that the state takes when it is read: there is none for water whose level is not 0 to 15.
    pub fn has_form(&self) -> bool
        ensures { result ≡ is_some (meant (state_of self.now)) }
    {
        match self.form() {
            Form::NoLevel => false,
            Form::Fixed(_) | Form::Same => true,
        }
    }

    /// How wet the state is by its name: water by its level, and all else is dry, water without a form too.
    pub fn wet(&self) -> Wet
        ensures { result ≡ wet_of (state_of self.now) }
    {
        if !self.is_water() {
            return Wet::Dry;
        }
        match self.level() {
            None => Wet::Dry,
            Some(0) => Wet::Source,
            Some(level) if level < 8 => Wet::Flow(8 - level as u8),
            Some(_) => Wet::Falling,
        }
    }

    /// Air.
    pub(crate) fn air(alloc: Global) -> Result<State, AllocError>
        ensures { IfOk result (λ s. state_of s ≡ air) }
    {
        Ok(State {
            name: Vec::from_slice(alloc, AIR)?,
            properties: Vec::new(alloc),
        })
    }

    /// Water of a level from 0 to 8.
    pub(crate) fn water(alloc: Global, level: usize) -> Result<State, AllocError>
        requires { level < 9 }
        ensures { IfOk result (λ s. state_of s ≡ water level) }
    {
        let property = Property {
            key: Vec::from_slice(alloc, LEVEL)?,
            value: Vec::from_slice(alloc, LEVEL_TEXTS[level])?,
        };
        let mut properties = Vec::new(alloc);
        properties.push(property)?;
        Ok(State {
            name: Vec::from_slice(alloc, WATER)?,
            properties,
        })
    }

    /// The state as text, as `minecraft:furnace[facing=north,lit=true]`, its bytes as they are.
    /// Refuses with `OutOfMemory` alone.
    pub fn text(&self, alloc: Global) -> Result<Vec<u8>, Fault>
        ensures ok { IfOk result (λ v. v.items ≡ state_text (state_of self.now)) }
        ensures memory { IfErr result (λ e. e ≡ OutOfMemory) }
    {
        let mut text = Vec::from_slice(alloc, self.name.as_slice())?;
        if let Some((first, more)) = self.properties.as_slice().split_first() {
            write_property(&mut text, b"[", first)?;
            write_more(&mut text, more)?;
            text.push(b']')?;
        }
        Ok(text)
    }
}

impl Hash for State {
    ghost use Rattle.std.specs.Prelude.{◌∷◌};
    ghost use Rattle.av_state.specs.Hashing.{properties_texts, state_texts-equal};

    ghost hash_input = { λ s. s.name.items ∷ properties_texts s.properties.items };

    ghost respects_eq = { λ s t. state_texts-equal s.name.items t.name.items s.properties.items t.properties.items };

    fn hash<H: Hasher>(&self, state: &mut H) {
        state.write(self.name.as_slice());
        for property in &self.properties {
            property.hash(state);
        }
    }
}

impl Clone for State {
    ghost use Rattle.av_state.specs.States.{state_of};

    ghost is_clone = { λ s t. state_of t ≡ state_of s };

    fn clone(&self) -> Result<Self, AllocError> {
        Ok(State {
            name: self.name.clone()?,
            properties: self.properties.clone()?,
        })
    }
}

/// Whether a file has room for a text's length.
pub(crate) fn is_short(text: &[u8]) -> bool
    ensures { result ≡ is_short text.now }
{
    text.len() <= LONGEST_TEXT
}

/// Whether each text is short.
fn are_short(properties: &[Property]) -> bool
    ensures { result ≡ list_all is_short_property (properties_of properties.now) }
{
    for property in properties {
        if !is_short(property.key.as_slice()) || !is_short(property.value.as_slice()) {
            return false;
        }
    }
    true
}

/// Whether the first key is above this one.
fn starts_above(key: &[u8], properties: &[Property]) -> bool
    ensures { result ≡ starts_above key.now (properties_of properties.now) }
{
    match properties.first() {
        None => true,
        Some(first) => key.cmp(first.key.as_slice()).is_lt(),
    }
}

/// Whether each key is above the one before it.
fn keys_rise(properties: &[Property]) -> bool
    ensures { result ≡ keys_rise (properties_of properties.now) }
{
    let mut rest = properties;
    while let Some((first, more)) = rest.split_first() {
        if !starts_above(first.key.as_slice(), more) {
            return false;
        }
        rest = more;
    }
    true
}

/// Whether a name and properties in order are a state that a file can hold.
fn is_storable(name: &[u8], properties: &[Property]) -> bool
    ensures { result ≡ is_storable (record {
      name = name.now;
      properties = properties_of properties.now;
    }) }
{
    is_short(name) && are_short(properties) && keys_rise(properties)
}

/// The index of a text among texts.
fn index_in(text: &[u8], texts: &[&[u8]]) -> Option<usize>
    ensures { result ≡ index_in text.now (map (λ t. t.now) texts.now) }
{
    texts.iter().position(|known| text == *known)
}

/// The level of water that a text spells, and 0 where there is none.
pub(crate) fn level_of_text(text: Option<&[u8]>) -> Option<u16>
    ensures value { result ≡ water_level (option_map (λ t. t.now) text.entry) }
    ensures bound { IfSome result (λ n. n ≤ 8) }
{
    match text {
        None => Some(0),
        Some(text) => capped_level(index_in(text, LEVEL_TEXTS.as_slice())),
    }
}

/// The level of an index of `LEVEL_TEXTS`: 8 and above is falling water.
fn capped_level(index: Option<usize>) -> Option<u16>
    ensures value { result ≡ option_map capped_level index }
    ensures bound { IfSome result (λ n. n ≤ 8) }
{
    match index {
        None => None,
        Some(i) if i < 8 => Some(i as u16),
        Some(_) => Some(8),
    }
}

/// Appends a property as text, after the bytes that stand before it.
fn write_property(text: &mut Vec<u8>, before: &[u8], property: &Property) -> Result<(), AllocError>
    ensures { OnOk result (text.new.items ≡ text.old.items
        ++ (before.now ++ property_text (property_of property.now))) }
{
    text.extend_from_slice(before)?;
    text.extend_from_slice(property.key.as_slice())?;
    text.extend_from_slice(b"=")?;
    text.extend_from_slice(property.value.as_slice())
}

/// Appends further properties, each after a comma.
fn write_more(text: &mut Vec<u8>, properties: &[Property]) -> Result<(), AllocError>
    ensures { OnOk result (text.new.items ≡ text.old.items
        ++ more_text (properties_of properties.now)) }
{
    for property in properties {
        write_property(text, b",", property)?;
    }
    Ok(())
}
