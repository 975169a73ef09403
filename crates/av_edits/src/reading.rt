//! The edits of a text.
ghost use Rattle.std.specs.Prelude.{slice_get, ◌≡◌, ◌≢◌, ◌++◌, ◌+◌, ◌<◌, ◌&&◌, IfOk, OnOk, IfErr, Some, None, true, false, nat_lt, map, length};
ghost use Rattle.std.specs.Str.Lines.{strip_carriage_return};
ghost use Rattle.std.specs.List.{flat_map};
ghost use Rattle.av_types.specs.declared.fault.Fault.TheVariants.{OutOfMemory, TooManyStates};
ghost use Rattle.av_state.specs.BlockState.{meant};
ghost use Rattle.av_state.specs.States.{state_of};
ghost use Rattle.av_state.specs.StateList.{with_state, most_states};
ghost use Rattle.av_state.specs.Table.{states};
ghost use Rattle.av_edits.specs.Statements.{set_of};
ghost use Rattle.av_edits.specs.Edits.{is_skipped, edit_fault, fault_of, table_of, edits_in, first_in_lines, first_in_edits, table_after_lines, lines_of, edits_of, edit_lines, lines_of_edits, stated_in, option_list, Grows};

use crate::edit::Edit;
use crate::words::{Statement, line_edit, parts};
use av_cells::Cells;
use av_state::{State, StateTable};
use av_types::Fault;
use std::alloc::{AllocError, Global};

/// A line without one carriage return at its end.
fn without_return(line: &[u8]) -> &[u8]
    ensures { result.now ≡ strip_carriage_return line.now }
{
    let length = line.len();
    if 0 < length && line[length - 1] == b'\r' {
        &line[..length - 1]
    } else {
        line
    }
}

/// Whether a line is empty or begins with `#`.
fn is_skipped(line: &[u8]) -> bool
    ensures { result ≡ is_skipped line.now }
{
    line.len() == 0 || line[0] == b'#'
}

/// The number of a state in its form.
fn number(state: &State, table: &mut StateTable) -> Result<u16, Fault>
    requires form { meant (state_of state.now) ≡ Some (state_of state.now) }
    ensures ok { IfOk result (λ n. slice_get (states table.new) n ≡ Some (state_of state.now)) }
    ensures after { OnOk result (states table.new ≡ with_state (states table.old)
        (state_of state.now)) }
    ensures few { OnOk result (nat_lt most_states (length
        (with_state (states table.old) (state_of state.now))) ≡ false) }
    ensures err { IfErr result (λ e. e ≢ OutOfMemory
        → (e ≡ TooManyStates) × (nat_lt most_states (length
        (with_state (states table.old) (state_of state.now))) ≡ true)) }
    ensures grows { Grows (states table.old) (states table.new) }
{
    match table.intern(state) {
        Ok(number) => Ok(number),
        Err(Fault::TooManyStates) => Err(Fault::TooManyStates),
        Err(_) => Err(Fault::OutOfMemory),
    }
}

/// The edit of a line of the form, by its number, if its tick is one of the run and its block is loaded.
fn judge<C: Cells>(
    statement: &Statement,
    line: u64,
    ticks: u32,
    cells: &C,
    table: &mut StateTable,
) -> Result<Edit, Fault>
    requires form { meant (state_of statement.now.state) ≡ Some (state_of statement.now.state) }
    ensures ok { IfOk result (λ e. stated_in (states table.new) e ≡ Some (set_of statement.now)) }
    ensures line { IfOk result (λ e. e.line ≡ line) }
    ensures after { OnOk result (states table.new ≡ with_state (states table.old)
        (state_of statement.now.state)) }
    ensures none { OnOk result (edit_fault (C.world cells.now).loaded ticks (states table.old) line
        (set_of statement.now) ≡ None) }
    ensures err { IfErr result (λ e. e ≢ OutOfMemory
        → edit_fault (C.world cells.now).loaded ticks (states table.old) line (set_of statement.now)
        ≡ Some e) }
    ensures grows { Grows (states table.old) (states table.new) }
{
    if 1 <= statement.tick && statement.tick <= u64::from(ticks) {
        if cells.loaded(statement.pos) {
            let number = number(&statement.state, table)?;
            Ok(Edit {
                line,
                tick: statement.tick as u32,
                pos: statement.pos,
                number,
            })
        } else {
            Err(Fault::EditOutside(line))
        }
    } else {
        Err(Fault::EditTick(line))
    }
}

/// The edit of a line, unless that is skipped.
fn read_line<C: Cells>(
    alloc: Global,
    line: &[u8],
    number: u64,
    ticks: u32,
    cells: &C,
    table: &mut StateTable,
) -> Result<Option<Edit>, Fault>
    ensures ok { IfOk result (λ e. map (stated_in (states table.new)) (option_list e)
        ≡ map Some (edits_in line.now)) }
    ensures lines { IfOk result (λ e. map (λ e. e.line) (option_list e)
        ≡ map (λ e. number) (edits_in line.now)) }
    ensures after { OnOk result (states table.new ≡ table_of (states table.old) line.now) }
    ensures none { OnOk result (fault_of (C.world cells.now).loaded ticks
        (states table.old) number line.now ≡ None) }
    ensures err { IfErr result (λ e. e ≢ OutOfMemory
        → fault_of (C.world cells.now).loaded ticks (states table.old) number line.now ≡ Some e) }
    ensures grows { Grows (states table.old) (states table.new) }
{
    if is_skipped(line) {
        return Ok(None);
    }
    match line_edit(alloc, line)? {
        None => Err(Fault::BadEdit(number)),
        Some(statement) => Ok(Some(judge(&statement, number, ticks, cells, table)?)),
    }
}

/// One edit more, if there is one.
fn push_some(edits: &mut Vec<Edit>, edit: Option<Edit>) -> Result<(), AllocError>
    ensures { OnOk result (edits.new.items ≡ edits.old.items ++ option_list edit) }
{
    if let Some(edit) = edit {
        edits.push(edit)?;
    }
    Ok(())
}

/// The edits of some lines.
fn read_lines<C: Cells>(
    alloc: Global,
    lines: &[&[u8]],
    ticks: u32,
    cells: &C,
    table: &mut StateTable,
) -> Result<Vec<Edit>, Fault>
    ensures ok { IfOk result (λ es. map (stated_in (states table.new)) es.items
        ≡ map Some (flat_map edits_in (map strip_carriage_return (map (λ x. x.now) lines.now)))) }
    ensures lines { IfOk result (λ es. map (λ e. e.line) es.items
        ≡ edit_lines 1 (map strip_carriage_return (map (λ x. x.now) lines.now))) }
    ensures after { OnOk result (states table.new ≡ table_after_lines (states table.old)
        (map strip_carriage_return (map (λ x. x.now) lines.now))) }
    ensures none { OnOk result (first_in_lines (C.world cells.now).loaded ticks (states table.old) 1
        (map strip_carriage_return (map (λ x. x.now) lines.now)) ≡ None) }
    ensures err { IfErr result (λ e. e ≢ OutOfMemory
        → first_in_lines (C.world cells.now).loaded ticks (states table.old) 1
        (map strip_carriage_return (map (λ x. x.now) lines.now)) ≡ Some e) }
    ensures grows { Grows (states table.old) (states table.new) }
{
    let mut edits = Vec::new(alloc);
    for (index, line) in lines.iter().enumerate() {
        let edit = read_line(
            alloc,
            without_return(line),
            index as u64 + 1,
            ticks,
            cells,
            table,
        )?;
        push_some(&mut edits, edit)?;
    }
    Ok(edits)
}

/// The edits that a text states, in the order of its lines, for a run of so many ticks. Each line is `T X Y Z STATE`: in
/// tick T the block is set to the state. Empty lines and lines that begin with `#` state nothing, and are counted. Each
/// edit has the number of its line, from 1 on. The states are numbered by `table`, new ones at its end, also before a
/// refusal; older numbers keep their states.
///
/// # Errors
/// The fault of the first line that has one, and of that line the first of these: `BadEdit` where it is of another form
/// or its water has no such level, `EditTick` where T is not 1 to `ticks`, `EditOutside` where the block is not loaded,
/// `TooManyStates` where the table is full. The first three name the line, and the last one names none. `OutOfMemory`
/// may stand in place of any.
pub fn read<C: Cells>(
    alloc: Global,
    text: &[u8],
    ticks: u32,
    cells: &C,
    table: &mut StateTable,
) -> Result<Vec<Edit>, Fault>
    ensures ok { IfOk result (λ es. map (stated_in (states table.new)) es.items
        ≡ map Some (edits_of text.now)) }
    ensures lines { IfOk result (λ es. map (λ e. e.line) es.items ≡ lines_of_edits text.now) }
    ensures after { OnOk result (states table.new ≡ table_after_lines (states table.old)
        (lines_of text.now)) }
    ensures none { OnOk result (first_in_edits (C.world cells.now).loaded ticks
        (states table.old) text.now ≡ None) }
    ensures err { IfErr result (λ e. e ≢ OutOfMemory
        → first_in_edits (C.world cells.now).loaded ticks (states table.old) text.now ≡ Some e) }
    ensures grows { Grows (states table.old) (states table.new) }
{
    let lines = parts(alloc, text, b'\n')?;
    read_lines(alloc, lines.as_slice(), ticks, cells, table)
}
