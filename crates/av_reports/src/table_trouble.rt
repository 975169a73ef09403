//! What is wrong with a table that is refused, looked for in its text.
use std::alloc::{AllocError, Global};
use toml::value::{Array, Table, Value};

/// The keys of a table, and those of one that has a height.
const TABLE_KEYS: [&str; 2] = ["version", "block"];

const HIGH_TABLE_KEYS: [&str; 4] = ["version", "block", "min_section", "sections"];

/// The keys of a row of version 1, and those from version 2 on.
const ROW_KEYS: [&str; 6] = ["name", "open", "floor", "opacity", "emission", "properties"];

const WET_ROW_KEYS: [&str; 7] = [
    "name",
    "open",
    "floor",
    "opacity",
    "emission",
    "properties",
    "wet",
];

/// What is wrong, and in which line, where that is known.
#[derive(Debug, Drop)]
pub struct Trouble {
    pub line: Option<usize>,
    pub text: String,
}

/// The line of a byte, from 1.
fn line_of(text: &[u8], at: usize) -> usize {
    let mut line = 1usize;
    for byte in text.iter().take(at) {
        if *byte == b'\n' {
            line = line.saturating_add(1);
        }
    }
    line
}

/// Whether it is true or false at a key.
fn is_flag(row: &Table, key: &str) -> bool {
    match row.get(key) {
        Some(value) => value.as_bool().is_some(),
        None => false,
    }
}

/// Whether a whole number from 0 to 15 is at a key.
fn is_level(row: &Table, key: &str) -> bool {
    match row.get(key) {
        Some(value) => value
            .as_integer()
            .is_some_and(|number| 0 <= number && number <= 15),
        None => false,
    }
}

/// Whether a value is a table of texts.
fn are_texts(value: &Value) -> bool {
    let Some(table) = value.as_table() else {
        return false;
    };
    for (_, text) in table {
        if text.as_str().is_none() {
            return false;
        }
    }
    true
}

/// Whether each key of a table is one of these.
fn has_only(table: &Table, keys: &[&str]) -> bool {
    for (key, _) in table {
        if !keys.iter().any(|known| *known == key.as_str()) {
            return false;
        }
    }
    true
}

fn table_keys(version: i64) -> &'static [&'static str] {
    if version == 3 {
        &HIGH_TABLE_KEYS
    } else {
        &TABLE_KEYS
    }
}

fn row_keys(version: i64) -> &'static [&'static str] {
    if version == 1 {
        &ROW_KEYS
    } else {
        &WET_ROW_KEYS
    }
}

/// What is wrong with the keys of a row that it may lack, and with those that it has.
fn other_keys_trouble(version: i64, row: &Table) -> Option<&'static str> {
    if !has_only(row, row_keys(version)) {
        return Some("it has a key that no row of this version has");
    }
    if row.get("wet").is_some() && !is_flag(row, "wet") {
        return Some("wet has to be true or false");
    }
    match row.get("properties") {
        Some(value) if !are_texts(value) => Some("properties has to be a table of texts"),
        _ => None,
    }
}

/// The name of a row, where it has one.
fn name_of(row: &Table) -> Option<&str> {
    row.get("name")?.as_str()
}

/// What is wrong with a row.
fn row_trouble(version: i64, row: &Table) -> Option<&'static str> {
    let Some(name) = name_of(row) else {
        return Some("name has to be a text");
    };
    if name == "minecraft:air" || name == "minecraft:water" {
        return Some("air and water are built in");
    }
    if !is_flag(row, "open") || !is_flag(row, "floor") {
        return Some("open and floor have to be true or false");
    }
    if !is_level(row, "opacity") || !is_level(row, "emission") {
        return Some("opacity and emission have to be whole numbers from 0 to 15");
    }
    other_keys_trouble(version, row)
}

/// What is wrong with the first bad row.
fn rows_trouble(alloc: Global, version: i64, rows: &Array) -> Result<Option<String>, AllocError> {
    let mut number = 0usize;
    for value in rows {
        number = number.saturating_add(1);
        let Some(row) = value.as_table() else {
            return Ok(Some(format!(in alloc; "row {number} is no table")?));
        };
        if let Some(trouble) = row_trouble(version, row) {
            let name = name_of(row).unwrap_or("without a name");
            return Ok(Some(format!(in alloc; "row {number}, {name}: {trouble}")?));
        }
    }
    Ok(None)
}

/// What is wrong with a document that is TOML.
fn document_trouble(alloc: Global, table: &Table) -> Result<String, AllocError> {
    let version = match table.get("version") {
        Some(value) => value.as_integer().unwrap_or(0),
        None => 0,
    };
    if version < 1 || 3 < version {
        return String::from_str(alloc, "version has to be 1, 2 or 3");
    }
    if !has_only(table, table_keys(version)) {
        return String::from_str(alloc, "it has a key that no table of its version has");
    }
    if let Some(value) = table.get("block") {
        let Some(rows) = value.as_array() else {
            return String::from_str(alloc, "block has to be an array of tables");
        };
        if let Some(trouble) = rows_trouble(alloc, version, rows)? {
            return Ok(trouble);
        }
    }
    String::from_str(
        alloc,
        "min_section and sections have to be whole numbers that give sections within -64 to 63",
    )
}

/// What is wrong with a block table that is refused. None where memory runs out for the document.
pub fn table_trouble(alloc: Global, text: &[u8]) -> Result<Option<Trouble>, AllocError> {
    let error = match toml::table_from_slice(alloc, text) {
        Ok(table) => {
            let text = document_trouble(alloc, &table)?;
            return Ok(Some(Trouble { line: None, text }));
        }
        Err(error) => error,
    };
    let Some(span) = error.span() else {
        return Ok(None);
    };
    Ok(Some(Trouble {
        line: Some(line_of(text, span.start)),
        text: String::from_str(alloc, error.message())?,
    }))
}
