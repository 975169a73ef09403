//! What water and light ask of a block state.
ghost use Rattle.std.specs.Prelude.{◌≡◌, ◌≤◌, ◌&&◌};
ghost use Rattle.av_state.specs.Views.{properties_of};
ghost use Rattle.av_state.specs.States.{state_of};
ghost use Rattle.av_rules.specs.Rows.{has_property, has_properties};

use av_state::{Property, State};

/// What a table says of a block state.
#[derive(Clone, Copy, Debug, PartialEq, Eq)]
pub struct Row {
    /// Whether water may replace it.
    pub opens: bool,
    /// Whether water stands on it: two sources make a third above it.
    pub floor: bool,
    /// How much light it stops, from 0 to 15.
    pub opacity: u8,
    /// How much light it gives, from 0 to 15.
    pub emission: u8,
    /// Whether it is soaked, and so a source of water.
    pub wet: bool,
}

/// A row of a table: the states that it is for, by their name and some properties, and what it says of them.
#[derive(Drop)]
pub(crate) struct TableRow {
    pub(crate) name: Vec<u8>,
    pub(crate) properties: Vec<Property>,
    pub(crate) row: Row,
    ghost opacity: { row.opacity ≤ 15 },
    ghost emission: { row.emission ≤ 15 },
}

impl Row {
    /// Air is built in.
    pub(crate) const AIR: Row = Row {
        opens: true,
        floor: false,
        opacity: 0,
        emission: 0,
        wet: false,
    };

    /// Water is built in.
    pub(crate) const WATER: Row = Row {
        opens: false,
        floor: false,
        opacity: 1,
        emission: 0,
        wet: false,
    };

    /// A state that no row is for is shut.
    pub(crate) const SHUT: Row = Row {
        opens: false,
        floor: true,
        opacity: 15,
        emission: 0,
        wet: false,
    };
}

/// Whether a state has the property with that value.
pub(crate) fn has_property(state: &State, key: &[u8], value: &[u8]) -> bool
    ensures { result ≡ has_property (state_of state.now).properties
        (record { key = key.now; value = value.now }) }
{
    match state.value(key) {
        None => false,
        Some(found) => value == found,
    }
}

/// Whether a state has each of the properties with its value.
fn has_properties(state: &State, properties: &[Property]) -> bool
    ensures { result ≡ has_properties (state_of state.now).properties
        (properties_of properties.now) }
{
    for property in properties {
        if !has_property(state, property.key.as_slice(), property.value.as_slice()) {
            return false;
        }
    }
    true
}

impl TableRow {
    ghost use Rattle.av_rules.specs.Rows.{is_for};
    ghost use Rattle.av_rules.specs.Views.{table_row_of};

    /// Whether the row is for a state.
    pub(crate) fn is_for(&self, state: &State) -> bool
        ensures { result ≡ is_for (table_row_of self.now) (state_of state.now) }
    {
        self.name.as_slice() == state.name.as_slice()
            && has_properties(state, self.properties.as_slice())
    }
}
