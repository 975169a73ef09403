//! Block tables.
ghost use Rattle.std.specs.Prelude.{◌≡◌, ◌≢◌, ◌≤◌, Some, None, IfOk, IfErr, IsUtf8, length, drop};
ghost use Rattle.std.specs.List.{list_any};
ghost use Rattle.av_types.specs.declared.fault.Fault.TheVariants.{OutOfMemory, BadTable};
ghost use Rattle.av_state.specs.States.{state_of};
ghost use Rattle.av_rules.specs.FirstRows.{AreFirstRows};
ghost use Rattle.av_rules.specs.Rows.{first_row, is_for};
ghost use Rattle.av_rules.specs.Views.{table_rows_of};
ghost use Rattle.std.proofs.Props.{props};

use crate::document::read_table;
use crate::first_rows::FirstRows;
use crate::row::{Row, TableRow, has_property};
use av_state::State;
use av_types::{Fault, Height};
use std::alloc::Global;

/// A block table: rows in order, of which the first that is for a state counts, and the height of the world.
#[derive(Drop)]
pub struct Rules {
    pub(crate) soaks: bool,
    pub(crate) rows: Vec<TableRow>,
    pub(crate) height: Height,
    pub(crate) first: FirstRows,
    ghost firsts: { AreFirstRows (table_rows_of rows.items) first.heads.items } by { Prim.hlevel props },
}

const WATERLOGGED: &[u8] = b"waterlogged";

const TRUE: &[u8] = b"true";

/// The first of rows that is for a state.
fn first_row(rows: &[TableRow], state: &State) -> Row
    ensures { result ≡ first_row (table_rows_of rows.now) (state_of state.now) }
{
    for table_row in rows {
        if table_row.is_for(state) {
            return table_row.row;
        }
    }
    Row::SHUT
}

/// Whether one of rows is for a state.
fn is_among(rows: &[TableRow], state: &State) -> bool
    ensures { result ≡ list_any (λ t. is_for t (state_of state.now)) (table_rows_of rows.now) }
{
    for row in rows {
        if row.is_for(state) {
            return true;
        }
    }
    false
}

impl Rules {
    ghost use Rattle.av_rules.specs.Rows.{has_row, row_of};
    ghost use Rattle.av_rules.specs.Tables.{table_of};
    ghost use Rattle.av_rules.specs.Document.{table_spelled};

    /// Reads a table of version 1, 2 or 3 from a TOML document in UTF-8 (docs/FORMATS.md, "Block tables"). Anything else
    /// is refused with `BadTable`, and `OutOfMemory` is answered where a growth was refused.
    pub fn read(alloc: Global, text: &[u8]) -> Result<Rules, Fault>
        ensures utf8 { IfOk result (λ _. IsUtf8 text.now) }
        ensures ok { IfOk result (λ r. table_spelled text.now ≡ Some (table_of r)) }
        ensures refused { IfErr result (λ e. e ≡ BadTable → IsUtf8 text.now
            → table_spelled text.now ≡ None) }
        ensures memory { IfErr result (λ e. e ≢ BadTable → e ≡ OutOfMemory) }
    {
        match toml::table_from_slice(alloc, text) {
            Ok(table) => read_table(alloc, &table),
            Err(e) => {
                if e.is_memory() {
                    Err(Fault::OutOfMemory)
                } else {
                    Err(Fault::BadTable)
                }
            }
        }
    }

    /// What the table says of a state. Air and water are built in; of any other the first row that is for it counts, and
    /// one that no row is for is shut, a floor, and stops all light. Where the table lets states be soaked, one is so by
    /// its row or by its property `waterlogged`.
    pub fn row(&self, state: &State) -> Row
        ensures { result ≡ row_of (table_of self.now) (state_of state.now) }
    {
        if state.is_air() {
            return Row::AIR;
        }
        if state.is_water() {
            return Row::WATER;
        }
        let mut row = self.first_row(state);
        row.wet = self.soaks && (row.wet || has_property(state, WATERLOGGED, TRUE));
        row
    }

    /// Whether the table has a row for a state. Those of air and water are built in.
    pub fn has_row(&self, state: &State) -> bool
        ensures { result ≡ has_row (table_of self.now) (state_of state.now) }
    {
        state.is_air() || state.is_water() || self.is_covered(state)
    }

    /// Where the search for a state's row begins: no row before is for the state.
    fn head(&self, state: &State) -> usize
        ensures within { result ≤ length self.now.rows.items }
        ensures skipped { first_row (drop result (table_of self.now).rows) (state_of state.now)
            ≡ first_row (table_of self.now).rows (state_of state.now) }
        ensures others { list_any (λ t. is_for t (state_of state.now))
            (drop result (table_of self.now).rows) ≡ list_any (λ t. is_for t (state_of state.now))
            (table_of self.now).rows }
    {
        self.first.head(state.name.as_slice())
    }

    /// The first row that is for a state.
    fn first_row(&self, state: &State) -> Row
        ensures { result ≡ first_row (table_of self.now).rows (state_of state.now) }
    {
        let head = self.head(state);
        first_row(&self.rows[head..], state)
    }

    /// Whether a row is for a state.
    fn is_covered(&self, state: &State) -> bool
        ensures { result ≡ list_any (λ t. is_for t (state_of state.now)) (table_of self.now).rows }
    {
        let head = self.head(state);
        is_among(&self.rows[head..], state)
    }

    /// The height of the world: the table's, or the game's where the table is of version 1 or 2.
    pub fn height(&self) -> Height
        ensures lowest { result.min_section ≡ (table_of self.now).min_section }
        ensures sections { result.sections ≡ (table_of self.now).sections }
    {
        self.height
    }
}
