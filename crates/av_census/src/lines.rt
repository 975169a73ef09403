//! Counts of states, as lines.
ghost use Rattle.std.specs.Prelude.{◌≡◌, ◌++◌, IfOk, IfErr, OnOk, option_map, string_bytes};
ghost use Rattle.std.specs.Option.{option_copied};
ghost use Rattle.av_types.specs.declared.fault.Fault.TheVariants.{OutOfMemory};
ghost use Rattle.av_state.specs.States.{state_of};
ghost use Rattle.av_rules.specs.Tables.{table_of};
ghost use Rattle.av_census.specs.Listing.{count_line, flag_text, listing, row_text, table_text};

use crate::counts::StateCount;
use av_rules::{Row, Rules};
use av_state::State;
use av_types::Fault;
use std::alloc::{AllocError, Global};

/// `true` or `false`.
fn flag_text(flag: bool) -> &'static str
    ensures { result.now ≡ flag_text flag }
{
    if flag { "true" } else { "false" }
}

/// The values of a row, each by its key in the table.
fn row_text(alloc: Global, row: Row) -> Result<String, AllocError>
    ensures { IfOk result (λ text. string_bytes text ≡ row_text row) }
{
    let opens = flag_text(row.opens);
    let floor = flag_text(row.floor);
    let opacity = row.opacity;
    let emission = row.emission;
    let wet = flag_text(row.wet);
    format!(in alloc; " open={opens} floor={floor} opacity={opacity} emission={emission} wet={wet}")
}

/// What a table has for a state, and nothing where there is no table.
fn table_text(alloc: Global, state: &State, rules: Option<&Rules>) -> Result<String, AllocError>
    ensures { IfOk result (λ text. string_bytes text
        ≡ table_text (option_map table_of (option_copied rules.entry)) (state_of state.now)) }
{
    let Some(rules) = rules else {
        return Ok(String::new(alloc));
    };
    if !rules.has_row(state) {
        return String::from_str(alloc, " no row");
    }
    row_text(alloc, rules.row(state))
}

/// Appends the line of a state.
fn push_line(
    alloc: Global,
    text: &mut Vec<u8>,
    count: &StateCount,
    rules: Option<&Rules>,
) -> Result<(), AllocError>
    ensures { OnOk result (text.new.items ≡ text.old.items
        ++ count_line (option_map table_of (option_copied rules.entry)) count.now) }
{
    let blocks = count.blocks;
    let head = format!(in alloc; "{blocks} ")?;
    let state = count.state.text(alloc).map_err(|_| AllocError)?;
    let row = table_text(alloc, &count.state, rules)?;
    text.extend_from_slice(head.as_bytes())?;
    text.extend_from_slice(state.as_slice())?;
    text.extend_from_slice(row.as_bytes())?;
    text.push(b'\n')?;
    Ok(())
}

/// A line for each count, in their order (docs/FORMATS.md, "Lists of states"): how many blocks, the state, and what a block
/// table has for it, where there is one: the values of its row, or `no row`. Refuses with `OutOfMemory` alone.
pub fn listing(
    alloc: Global,
    counts: &[StateCount],
    rules: Option<&Rules>,
) -> Result<Vec<u8>, Fault>
    ensures ok { IfOk result (λ text. text.items ≡ listing
        (option_map table_of (option_copied rules.entry)) counts.now) }
    ensures memory { IfErr result (λ e. e ≡ OutOfMemory) }
{
    let mut text = Vec::new(alloc);
    for count in counts {
        push_line(alloc, &mut text, count, rules)?;
    }
    Ok(text)
}
