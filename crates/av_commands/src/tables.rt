//! The block table that a command names, and the height that it gives the world.
ghost use Rattle.std.specs.Prelude.{◌≡◌, IfErr, IfOk, None, option_map};
ghost use Rattle.av_rules.specs.Tables.{table_of};
ghost use Rattle.av_commands.specs.Shipped.{shipped_table};
ghost use Rattle.av_commands.specs.Texts.{IsUnreadText};
ghost use Rattle.av_commands.specs.Tables.{IsHeightBy, IsTableBy, IsUnreadTable, IsWorldHeight};

use crate::shipped::SHIPPED_TABLE;
use crate::texts::{read_text, read_text_or};
use av_reports::failure::Failure;
use av_rules::Rules;
use av_types::Height;
use std::io::Input;
use std::rt::Files;

/// The block table, where one is named.
pub fn read_rules<R: Files + Input + AllocGlobal>(
    rt: &R,
    table: Option<&str>,
) -> Result<Option<Rules>, Failure>
    ensures table { IfOk result (λ rules. IsTableBy (option_map (λ t. t.now) table.entry)
        (option_map table_of rules)) }
    ensures unread { IfErr result (λ e. IsUnreadTable
        (option_map (λ t. t.now) table.entry) e.fault) }
{
    let Some(name) = table else {
        return Ok(None);
    };
    let text = read_text(rt, name)?;
    match Rules::read(rt.alloc(), text.as_slice()) {
        Ok(rules) => Ok(Some(rules)),
        Err(fault) => Err(Failure::of_table(rt.alloc(), fault, name, text.as_slice())),
    }
}

/// The world's height: that of a block table, or the game's where there is none.
pub fn world_height(rules: &Option<Rules>) -> Height
    ensures { IsWorldHeight (option_map table_of rules.now) result }
{
    match rules {
        Some(rules) => rules.height(),
        None => Height::game(),
    }
}

/// The world's height, by the block table that is named, or the game's.
pub fn read_height<R: Files + Input + AllocGlobal>(
    rt: &R,
    table: Option<&str>,
) -> Result<Height, Failure>
    ensures height { IfOk result (IsHeightBy (option_map (λ t. t.now) table.entry)) }
    ensures unread { IfErr result (λ e. IsUnreadTable
        (option_map (λ t. t.now) table.entry) e.fault) }
{
    let rules = read_rules(rt, table)?;
    Ok(world_height(&rules))
}

/// The bytes of the block table of a run, which is the shipped one where none is named.
pub fn read_table<R: Files + Input + AllocGlobal>(
    rt: &R,
    table: Option<&str>,
) -> Result<Vec<u8>, Failure>
    ensures left_out { IfOk result (λ text. option_map (λ t. t.now) table.entry ≡ None
        → text.items ≡ shipped_table) }
    ensures unread { IfErr result (λ e. IsUnreadText
        (option_map (λ t. t.now) table.entry) e.fault) }
{
    read_text_or(rt, table, SHIPPED_TABLE)
}
