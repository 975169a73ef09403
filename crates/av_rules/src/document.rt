//! Reading a table from a TOML document.
ghost use Rattle.std.specs.Prelude.{◌≡◌, ◌≤◌, Some, None, IfSome, IfOk, option_and_then, option_map, map, codes};
ghost use Rattle.av_state.specs.Views.{property_of, properties_of};
ghost use Rattle.av_rules.specs.Document.{text_at, flag_at, whole_at, level_at, half_byte, flag_or_false, texts_of, properties_or_none, is_among, has_only, version_of, soaks_in, document_keys, row_keys, row_in, is_built_in, name_in, table_row_in, table_rows_in, blocks_or_none, span_of, span_in, table_in_version, table_in};
ghost use Rattle.av_rules.specs.Reads.{Reads, span_view};
ghost use Rattle.av_rules.specs.Views.{table_row_of, table_rows_of};
ghost use Rattle.av_rules.specs.Tables.{table_of};
ghost use Rattle.toml.specs.Data.{get_member, as_table};
ghost use Rattle.toml.specs.View.{view, array_view, table_view};

use crate::first_rows::first_rows;
use crate::row::{Row, TableRow};
use crate::rules::Rules;
use av_state::Property;
use av_types::{Fault, Height};
use std::alloc::{AllocError, Global};
use toml::value::{Array, Table, Value};

/// The version of a table.
#[derive(Clone, Copy)]
pub(crate) enum Version {
    One,
    /// States may be soaked.
    Two,
    /// And the table has the height of the world.
    Three,
}

const TABLE_KEYS: [&str; 2] = ["version", "block"];

const HIGH_TABLE_KEYS: [&str; 4] = ["version", "block", "min_section", "sections"];

const ROW_KEYS: [&str; 6] = ["name", "open", "floor", "opacity", "emission", "properties"];

const WET_ROW_KEYS: [&str; 7] = [
    "name",
    "open",
    "floor",
    "opacity",
    "emission",
    "properties",
    "wet",
];

/// The value at a key.
fn value_at<'a>(table: &'a Table, key: &str) -> Option<&'a Value>
    ensures { option_map (λ v. view v.now) result ≡ get_member key.now (table_view table.now) }
{
    table.get(key)
}

/// The text at a key.
fn text_at<'a>(table: &'a Table, key: &str) -> Option<&'a str>
    ensures { option_map (λ s. s.now) result ≡ text_at key.now (table_view table.now) }
{
    match value_at(table, key) {
        Some(value) => value.as_str(),
        None => None,
    }
}

/// Whether it is true or false at a key.
fn flag_at(table: &Table, key: &str) -> Option<bool>
    ensures { result ≡ flag_at key.now (table_view table.now) }
{
    match value_at(table, key) {
        Some(value) => value.as_bool(),
        None => None,
    }
}

/// The same, where an absent one is false.
fn flag_or_false(table: &Table, key: &str) -> Option<bool>
    ensures { result ≡ flag_or_false (get_member key.now (table_view table.now)) }
{
    match value_at(table, key) {
        Some(value) => value.as_bool(),
        None => Some(false),
    }
}

/// The whole number at a key.
fn whole_at(table: &Table, key: &str) -> Option<i64>
    ensures { result ≡ whole_at key.now (table_view table.now) }
{
    match value_at(table, key) {
        Some(value) => value.as_integer(),
        None => None,
    }
}

/// A number from 0 to 15.
fn half_byte(number: i64) -> Option<u8>
    ensures value { result ≡ half_byte number }
    ensures bound { IfSome result (λ n. n ≤ 15) }
{
    if 0 <= number && number < 16 {
        Some(number as u8)
    } else {
        None
    }
}

/// The number from 0 to 15 at a key.
fn level_at(table: &Table, key: &str) -> Option<u8>
    ensures value { result ≡ level_at key.now (table_view table.now) }
    ensures bound { IfSome result (λ n. n ≤ 15) }
{
    match whole_at(table, key) {
        Some(number) => half_byte(number),
        None => None,
    }
}

/// Whether a key is one of these.
fn is_among(key: &str, keys: &[&str]) -> bool
    ensures { result ≡ is_among key.now (map (λ k. k.now) keys.now) }
{
    keys.iter().any(|known| *known == key)
}

/// Whether each key of a table is one of these.
fn has_only(table: &Table, keys: &[&str]) -> bool
    ensures { result ≡ has_only (map (λ k. k.now) keys.now) (table_view table.now) }
{
    for (key, _) in table {
        if !is_among(key.as_str(), keys) {
            return false;
        }
    }
    true
}

/// The keys that a table may have.
fn document_keys(version: Version) -> &'static [&'static str]
    ensures { map (λ k. k.now) result.now ≡ document_keys version }
{
    match version {
        Version::One | Version::Two => &TABLE_KEYS,
        Version::Three => &HIGH_TABLE_KEYS,
    }
}

/// The keys that a row may have.
fn row_keys(version: Version) -> &'static [&'static str]
    ensures { map (λ k. k.now) result.now ≡ row_keys version }
{
    match version {
        Version::One => &ROW_KEYS,
        Version::Two | Version::Three => &WET_ROW_KEYS,
    }
}

/// The version of a number.
fn version_of(number: i64) -> Option<Version>
    ensures { result ≡ version_of number }
{
    match number {
        1 => Some(Version::One),
        2 => Some(Version::Two),
        3 => Some(Version::Three),
        _ => None,
    }
}

/// A property of a key and a text.
fn property(alloc: Global, key: &str, text: &str) -> Result<Property, AllocError>
    ensures { IfOk result (λ p. property_of p ≡ record { key = key.now; value = text.now }) }
{
    Ok(Property {
        key: Vec::from_slice(alloc, key.as_bytes())?,
        value: Vec::from_slice(alloc, text.as_bytes())?,
    })
}

/// A table of texts, as properties.
fn texts(alloc: Global, table: &Table) -> Result<Vec<Property>, Fault>
    ensures { Reads (λ v. properties_of v.items) (texts_of (table_view table.now)) result }
{
    let mut properties = Vec::new(alloc);
    for (key, value) in table {
        let Some(text) = value.as_str() else {
            return Err(Fault::BadTable);
        };
        properties.push(property(alloc, key.as_str(), text)?)?;
    }
    Ok(properties)
}

/// The properties that a row asks for.
fn properties_at(alloc: Global, table: &Table, key: &str) -> Result<Vec<Property>, Fault>
    ensures { Reads (λ v. properties_of v.items)
        (properties_or_none (get_member key.now (table_view table.now))) result }
{
    let Some(value) = value_at(table, key) else {
        return Ok(Vec::new(alloc));
    };
    match value.as_table() {
        Some(table) => texts(alloc, table),
        None => Err(Fault::BadTable),
    }
}

/// Whether a name is that of air or of water.
fn is_built_in(name: &str) -> bool
    ensures { result ≡ is_built_in name.now }
{
    name == "minecraft:air" || name == "minecraft:water"
}

/// The name of a row, which is not air or water.
#[tactic(auto, unfolding(crate::specs::Document::name_in))]
fn name_in<'a>(table: &'a Table) -> Option<&'a str>
    ensures { option_map (λ s. s.now) result ≡ name_in (table_view table.now) }
{
    match text_at(table, "name") {
        Some(name) if !is_built_in(name) => Some(name),
        _ => None,
    }
}

/// What a row says of its states.
#[tactic(auto, unfolding(crate::specs::Document::row_in))]
fn row_in(table: &Table) -> Option<Row>
    ensures value { result ≡ row_in (table_view table.now) }
    ensures opacity { IfSome result (λ r. r.opacity ≤ 15) }
    ensures emission { IfSome result (λ r. r.emission ≤ 15) }
{
    let opens = flag_at(table, "open")?;
    let floor = flag_at(table, "floor")?;
    let opacity = level_at(table, "opacity")?;
    let emission = level_at(table, "emission")?;
    let wet = flag_or_false(table, "wet")?;
    Some(Row {
        opens,
        floor,
        opacity,
        emission,
        wet,
    })
}

/// A row.
#[tactic(auto, unfolding(crate::specs::Document::table_row_in))]
fn table_row_in(alloc: Global, version: Version, table: &Table) -> Result<TableRow, Fault>
    ensures { Reads table_row_of (table_row_in version (table_view table.now)) result }
{
    if !has_only(table, row_keys(version)) {
        return Err(Fault::BadTable);
    }
    let Some(name) = name_in(table) else {
        return Err(Fault::BadTable);
    };
    let properties = properties_at(alloc, table, "properties")?;
    let Some(row) = row_in(table) else {
        return Err(Fault::BadTable);
    };
    Ok(TableRow {
        name: Vec::from_slice(alloc, name.as_bytes())?,
        properties,
        row,
    })
}

/// A value as a row.
fn row_of_value(alloc: Global, version: Version, value: &Value) -> Result<TableRow, Fault>
    ensures { Reads table_row_of (option_and_then (table_row_in version)
        (as_table (view value.now))) result }
{
    match value.as_table() {
        Some(table) => table_row_in(alloc, version, table),
        None => Err(Fault::BadTable),
    }
}

/// The rows, in order.
fn table_rows_in(alloc: Global, version: Version, blocks: &Array) -> Result<Vec<TableRow>, Fault>
    ensures { Reads (λ v. table_rows_of v.items) (table_rows_in version (array_view blocks.now))
        result }
{
    let mut rows = Vec::new(alloc);
    for value in blocks {
        rows.push(row_of_value(alloc, version, value)?)?;
    }
    Ok(rows)
}

/// The rows of a document.
fn blocks_in(alloc: Global, version: Version, table: &Table) -> Result<Vec<TableRow>, Fault>
    ensures { Reads (λ v. table_rows_of v.items)
        (blocks_or_none version (get_member (codes "block") (table_view table.now))) result }
{
    let Some(value) = value_at(table, "block") else {
        return Ok(Vec::new(alloc));
    };
    match value.as_array() {
        Some(blocks) => table_rows_in(alloc, version, blocks),
        None => Err(Fault::BadTable),
    }
}

/// The height with that lowest section and so many of them.
fn height_of(low: i64, count: i64) -> Option<Height>
    ensures { option_map span_view result ≡ span_of low count }
{
    if low < -64 || 63 < low || count < 1 || 64 < count || 64 < low + count {
        return None;
    }
    Some(Height {
        min_section: low as i32,
        sections: count as u32,
    })
}

/// The height of a document.
#[tactic(auto, unfolding(crate::specs::Document::span_in))]
fn height_in(version: Version, table: &Table) -> Option<Height>
    ensures { option_map span_view result ≡ span_in version (table_view table.now) }
{
    match version {
        Version::One | Version::Two => Some(Height::game()),
        Version::Three => {
            let low = whole_at(table, "min_section")?;
            let count = whole_at(table, "sections")?;
            height_of(low, count)
        }
    }
}

/// Whether states may be soaked.
fn soaks_in(version: Version) -> bool
    ensures { result ≡ soaks_in version }
{
    match version {
        Version::One => false,
        Version::Two | Version::Three => true,
    }
}

/// A table of a version.
#[tactic(auto, unfolding(crate::specs::Document::table_in_version))]
fn read_version(alloc: Global, version: Version, table: &Table) -> Result<Rules, Fault>
    ensures { Reads table_of (table_in_version (table_view table.now) version) result }
{
    if !has_only(table, document_keys(version)) {
        return Err(Fault::BadTable);
    }
    let Some(height) = height_in(version, table) else {
        return Err(Fault::BadTable);
    };
    let rows = blocks_in(alloc, version, table)?;
    let first = first_rows(alloc, rows.as_slice())?;
    Ok(Rules {
        soaks: soaks_in(version),
        rows,
        height,
        first,
    })
}

/// The version of a document.
fn version_in(table: &Table) -> Option<Version>
    ensures { result ≡ option_and_then version_of (whole_at (codes "version")
        (table_view table.now)) }
{
    match whole_at(table, "version") {
        Some(number) => version_of(number),
        None => None,
    }
}

/// Reads a table from a document.
#[tactic(auto, unfolding(crate::specs::Document::table_in))]
pub(crate) fn read_table(alloc: Global, table: &Table) -> Result<Rules, Fault>
    ensures { Reads table_of (table_in (table_view table.now)) result }
{
    match version_in(table) {
        Some(version) => read_version(alloc, version, table),
        None => Err(Fault::BadTable),
    }
}
