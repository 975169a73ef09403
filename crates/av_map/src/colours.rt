//! The colours of blocks, by their names.
ghost use Rattle.std.specs.Prelude.{◌≡◌, ◌≢◌, ◌<◌, ◌^◌, IfOk, IfErr, IsUtf8, Some, None, [], ◌+◌, ◌%◌, map, option_and_then};
ghost use Rattle.av_types.specs.declared.fault.Fault.TheVariants.{OutOfMemory, BadTable};
ghost use Rattle.av_state.specs.States.{state_of};
ghost use Rattle.av_state.specs.Table.{states};
ghost use Rattle.toml.specs.Data.{as_str};
ghost use Rattle.toml.specs.View.{view, table_view};
ghost use Rattle.av_map.specs.Colours.{block_colour, colour_named, colour_of_bytes, colour_spelled, colours_in, colours_spelled, letters_colour, letters_number, water_colour};
ghost use Rattle.av_map.specs.Looks.{look_of};
ghost use Rattle.av_map.specs.Sections.{Reads};
ghost use Rattle.av_map.specs.Views.{all_named, colours_of, named_of};
ghost use Rattle.hex.specs.Hex.{decode_sized};

use crate::colour::Colour;
use crate::look::{Look, is_air, is_water};
use av_state::{State, StateTable};
use av_types::Fault;
use hex::FromHex;
use std::alloc::{AllocError, Global};
use toml::value::{Table, Value};

/// A name and its colour.
#[derive(Drop)]
pub(crate) struct ColourRow {
    name: Vec<u8>,
    colour: Colour,
}

/// Names of blocks with their colours.
#[derive(Drop)]
pub struct Colours {
    rows: Vec<ColourRow>,
}

/// The colour of water where the table has none.
const WATER: Colour = Colour {
    red: 64,
    green: 112,
    blue: 208,
};

const WATER_NAME: &[u8] = b"minecraft:water";

/// The colour of six digits.
fn colour_of_digits(digits: &[u8]) -> Option<Colour>
    ensures { result ≡ colour_of_bytes (decode_sized digits.now 3) }
{
    match <[u8; 3] as FromHex>::from_hex(digits) {
        Ok(rgb) => Some(Colour {
            red: rgb[0],
            green: rgb[1],
            blue: rgb[2],
        }),
        Err(_) => None,
    }
}

/// The colour of `#` and six digits.
fn colour_of_text(text: &[u8]) -> Option<Colour>
    ensures { result ≡ colour_spelled text.now }
{
    match text.split_first() {
        Some((b'#', digits)) => colour_of_digits(digits),
        _ => None,
    }
}

/// The colour that a value is.
fn colour_in(value: &Value) -> Option<Colour>
    ensures { result ≡ option_and_then colour_spelled (as_str (view value.now)) }
{
    match value.as_str() {
        Some(text) => colour_of_text(text.as_bytes()),
        None => None,
    }
}

/// A row of a name.
fn row(alloc: Global, name: &str, colour: Colour) -> Result<ColourRow, AllocError>
    ensures { IfOk result (λ r. named_of r ≡ record { name = name.now; colour = colour }) }
{
    Ok(ColourRow {
        name: Vec::from_slice(alloc, name.as_bytes())?,
        colour,
    })
}

/// The rows of a document.
fn rows_in(alloc: Global, table: &Table) -> Result<Vec<ColourRow>, Fault>
    ensures { Reads (λ rows. all_named rows.items) (colours_in (table_view table.now)) result }
{
    let mut rows = Vec::new(alloc);
    for (key, value) in table {
        let Some(colour) = colour_in(value) else {
            return Err(Fault::BadTable);
        };
        rows.push(row(alloc, key.as_str(), colour)?)?;
    }
    Ok(rows)
}

/// The colours of a document.
fn colours_of(alloc: Global, table: &Table) -> Result<Colours, Fault>
    ensures { Reads colours_of (colours_in (table_view table.now)) result }
{
    let rows = rows_in(alloc, table)?;
    Ok(Colours { rows })
}

/// The colour of the first row of a name. Names of other lengths, which most are, take one comparison.
fn named(rows: &[ColourRow], name: &[u8]) -> Option<Colour>
    ensures { result ≡ colour_named name.now (all_named rows.now) }
{
    for row in rows {
        if row.name.as_slice() == name {
            return Some(row.colour);
        }
    }
    None
}

/// The number that a name's letters make.
fn letters_number(name: &[u8]) -> u32
    ensures value { result ≡ letters_number name.now }
    ensures bound { result < 2 ^ 24 }
{
    let mut number = 0u32;
    for letter in name {
        number = (31 * number + u32::from(*letter)) % 16_777_216;
    }
    number
}

/// A part of the colour of a name that has none, from a byte of its number.
fn letters_part(byte: u32) -> u8
    requires { byte < 256 }
    ensures { result ≡ 64 + byte % 128 }
{
    64 + (byte % 128) as u8
}

/// The colour of a name that has none.
fn letters_colour(name: &[u8]) -> Colour
    ensures { result ≡ letters_colour name.now }
{
    let number = letters_number(name);
    Colour {
        red: letters_part(number / 65_536),
        green: letters_part(number / 256 % 256),
        blue: letters_part(number % 256),
    }
}

impl Colours {
    /// No names at all.
    pub fn none(alloc: Global) -> Colours
        ensures { colours_of result ≡ [] }
    {
        Colours {
            rows: Vec::new(alloc),
        }
    }

    /// Reads colours from a TOML document in UTF-8, each as `"minecraft:stone" = "#7d7d7d"`, with hexadecimal digits in either
    /// case. Anything else is refused with `BadTable`, and `OutOfMemory` is answered where a growth was refused.
    pub fn read(alloc: Global, text: &[u8]) -> Result<Colours, Fault>
        ensures utf8 { IfOk result (λ _. IsUtf8 text.now) }
        ensures ok { IfOk result (λ c. colours_spelled text.now ≡ Some (colours_of c)) }
        ensures refused { IfErr result (λ e. e ≡ BadTable → IsUtf8 text.now
            → colours_spelled text.now ≡ None) }
        ensures memory { IfErr result (λ e. e ≢ BadTable → e ≡ OutOfMemory) }
    {
        match toml::table_from_slice(alloc, text) {
            Ok(table) => colours_of(alloc, &table),
            Err(e) => {
                if e.is_memory() {
                    Err(Fault::OutOfMemory)
                } else {
                    Err(Fault::BadTable)
                }
            }
        }
    }

    /// The colour of a block that is no water.
    fn block_colour(&self, name: &[u8]) -> Colour
        ensures { result ≡ block_colour (colours_of self.now) name.now }
    {
        match named(self.rows.as_slice(), name) {
            Some(colour) => colour,
            None => letters_colour(name),
        }
    }

    /// The colour of water.
    fn water_colour(&self) -> Colour
        ensures { result ≡ water_colour (colours_of self.now) }
    {
        match named(self.rows.as_slice(), WATER_NAME) {
            Some(colour) => colour,
            None => WATER,
        }
    }

    /// What a block shows from above.
    fn look(&self, state: &State) -> Look
        ensures { result ≡ look_of (colours_of self.now) (state_of state.now) }
    {
        let name = state.name.as_slice();
        let is_water = is_water(name);
        let colour = if is_water {
            self.water_colour()
        } else {
            self.block_colour(name)
        };
        Look {
            is_air: is_air(name),
            is_water,
            colour,
        }
    }

    /// What the blocks of each number show.
    pub(crate) fn looks(&self, alloc: Global, table: &StateTable) -> Result<Vec<Look>, AllocError>
        ensures { IfOk result (λ looks. looks.items
            ≡ map (look_of (colours_of self.now)) (states table.now)) }
    {
        let mut looks = Vec::with_capacity(alloc, table.len())?;
        for number in 0..table.len() {
            looks.push(self.look(table.state(number as u16)))?;
        }
        Ok(looks)
    }
}
