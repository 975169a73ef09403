//! The row and the wetness of each number of a table of states.
ghost use Rattle.std.specs.Prelude.{◌≡◌, length, map};
ghost use Rattle.av_state.specs.States.{state_of};
ghost use Rattle.av_state.specs.Table.{states};
ghost use Rattle.av_rules.specs.KindLists.{IsKindList};
ghost use Rattle.av_rules.specs.Rows.{wet_by};
ghost use Rattle.std.proofs.Props.{props};

use crate::row::Row;
use crate::rules::Rules;
use av_state::{State, StateTable};
use av_types::{Fault, Wet};
use std::alloc::Global;

/// A table of states with the row and the wetness of each number, looked up by index.
#[derive(Drop)]
pub struct Kinds {
    table: StateTable,
    rows: Vec<Row>,
    wets: Vec<Wet>,
    pub ghost listed: { IsKindList (length (states table)) rows.items wets.items } by { Prim.hlevel props },
}

impl Kinds {
    ghost use Rattle.std.specs.Prelude.{◌<◌, IfOk, IfErr};
    ghost use Rattle.av_types.specs.declared.fault.Fault.TheVariants.{OutOfMemory};
    ghost use Rattle.av_types.specs.Water.{IsProper};
    ghost use Rattle.av_rules.specs.Rows.{row_of, wet_in};
    ghost use Rattle.av_rules.specs.Tables.{table_of};
    ghost use Rattle.av_rules.specs.Kinds.{kind_count, row_at, wet_at, table_in, rows_in, wets_in};

    /// Fixes a row and a wetness for each state of a table. Refuses with `OutOfMemory` alone.
    pub fn new(alloc: Global, table: StateTable, rules: &Rules) -> Result<Kinds, Fault>
        ensures table { IfOk result (λ k. states (table_in k) ≡ states table) }
        ensures rows { IfOk result (λ k. rows_in k
            ≡ map (row_of (table_of rules.now)) (states table)) }
        ensures wets { IfOk result (λ k. wets_in k
            ≡ map (wet_in (table_of rules.now)) (states table)) }
        ensures memory { IfErr result (λ e. e ≡ OutOfMemory) }
    {
        let mut rows = Vec::with_capacity(alloc, table.len())?;
        let mut wets = Vec::with_capacity(alloc, table.len())?;
        for number in 0..table.len() {
            let state = table.state(number as u16);
            let row = rules.row(state);
            rows.push(row)?;
            wets.push(wet_by(row, state))?;
        }
        Ok(Kinds { table, rows, wets })
    }

    /// How many numbers there are: as many as the table has states.
    pub fn count(&self) -> usize
        ensures { result ≡ kind_count self.now }
    {
        self.rows.len()
    }

    /// What the rules say of a number's state.
    pub fn row(&self, number: u16) -> Row
        requires { number < kind_count self.now }
        ensures { result ≡ row_at self.now number }
    {
        self.rows[number as usize]
    }

    /// How wet the state of a number is: a soaked one is a source, water is so by its level, and all else is dry.
    pub fn wet(&self, number: u16) -> Wet
        requires { number < kind_count self.now }
        ensures value { result ≡ wet_at self.now number }
        ensures proper { IsProper result }
    {
        self.wets[number as usize]
    }

    /// The table of states.
    pub fn table(&self) -> &StateTable
        ensures { result.now ≡ table_in self.now }
    {
        &self.table
    }
}

/// How wet a state is by its row and its name.
fn wet_by(row: Row, state: &State) -> Wet
    ensures { result ≡ wet_by row (state_of state.now) }
{
    if row.wet { Wet::Source } else { state.wet() }
}
