//! What a run begins with: its world, the rest, the kinds of states, and its edits.
ghost use Rattle.std.specs.Prelude.{◌≡◌, ◌≢◌, ℕ, List, IfOk, IfErr, Some, map};
ghost use Rattle.av_types.specs.declared.fault.Fault.TheVariants.{OutOfMemory, BadTable};
ghost use Rattle.av_state.specs.Table.{states};
ghost use Rattle.av_rules.specs.Tables.{table_of};
ghost use Rattle.av_land.specs.Land.{is_loaded};
ghost use Rattle.av_edits.specs.Edits.{first_in_edits, lines_of_edits};
ghost use Rattle.av_edits.specs.Numbered.{number_sets};
ghost use Rattle.av_world.specs.Lands.{land_of, IsUncarved};
ghost use Rattle.av_files.specs.Files.{File};
ghost use Rattle.av_files.specs.FirstFault.{IsTable, IsBadTable, IsFilesFault};
ghost use Rattle.av_files.specs.Layers.{AreEdits};
ghost use Rattle.av_image.specs.Views.{file_in};
ghost use Rattle.av_run.specs.Input.{IsLoadedFrom, IsInput, IsInputFault};

use av_edits::Edit;
use av_image::{Rest, load};
use av_region_files::RegionFile;
use av_rules::{Kinds, Rules};
use av_state::StateTable;
use av_types::Fault;
use av_world::World;
use std::alloc::Global;
use std::thread::Threads;

/// What a run begins with.
#[derive(Drop)]
pub struct Input {
    pub world: World,
    pub rest: Rest,
    /// The kinds of the states of the world and of the edits.
    pub kinds: Kinds,
    /// The edits, by line.
    pub edits: Vec<Edit>,
}

/// What files say, and the states that they name.
#[derive(Drop)]
pub(crate) struct Loaded {
    pub(crate) table: StateTable,
    world: World,
    rest: Rest,
}

/// The block table that a text spells.
pub(crate) fn read_rules(alloc: Global, text: &[u8]) -> Result<Rules, Fault>
    ensures ok { IfOk result (λ r. IsTable text.now (table_of r) r.height) }
    ensures err { IfErr result (λ e. e ≢ OutOfMemory → (e ≡ BadTable) × IsBadTable text.now) }
{
    Rules::read(alloc, text)
}

/// What files say, read by several threads, by a new table of states.
pub(crate) fn load_new(
    rt: &(impl Threads + Sync),
    alloc: Global,
    files: Vec<RegionFile>,
    rules: &Rules,
) -> Result<Loaded, Fault>
    ensures ok { IfOk result (IsLoadedFrom rules.now.height (map file_in files.items)) }
    ensures err { IfErr result (λ e. e ≢ OutOfMemory
        → IsFilesFault rules.now.height (map file_in files.items) e) }
{
    let mut table = StateTable::new(alloc)?;
    let (world, rest) = load(rt, alloc, files, rules, &mut table)?;
    Ok(Loaded { table, world, rest })
}

/// The edits that a text states.
fn read_edits(
    alloc: Global,
    text: &[u8],
    ticks: u32,
    world: &World,
    table: &mut StateTable,
) -> Result<Vec<Edit>, Fault>
    requires { IsUncarved world.now }
    ensures ok { IfOk result (λ es. AreEdits (is_loaded (land_of world.now)) ticks text.now
        (states table.old) (states table.new) (number_sets es.items)) }
    ensures lines { IfOk result (λ es. map (λ e. e.line) es.items ≡ lines_of_edits text.now) }
    ensures err { IfErr result (λ e. e ≢ OutOfMemory
        → first_in_edits (is_loaded (land_of world.now)) ticks (states table.old) text.now
        ≡ Some e) }
{
    av_edits::read(alloc, text, ticks, world, table)
}

/// What a run begins with, where its files and its block table are read.
pub(crate) fn with_edits(
    alloc: Global,
    loaded: Loaded,
    rules: &Rules,
    edits: &[u8],
    ticks: u32,
) -> Result<Input, Fault>
    requires { IsUncarved loaded.world }
    ensures ok { IfOk result (λ input. (files : List File) → (table : List ℕ)
        → IsTable table (table_of rules.now) rules.now.height
        → IsLoadedFrom rules.now.height files loaded → IsInput files table edits.now ticks input) }
    ensures err { IfErr result (λ e. e ≢ OutOfMemory → (files : List File) → (table : List ℕ)
        → IsTable table (table_of rules.now) rules.now.height
        → IsLoadedFrom rules.now.height files loaded → IsInputFault files table edits.now ticks e) }
{
    let world = loaded.world;
    let rest = loaded.rest;
    let mut states = loaded.table;
    let edits = read_edits(alloc, edits, ticks, &world, &mut states)?;
    let kinds = Kinds::new(alloc, states, rules)?;
    Ok(Input {
        world,
        rest,
        kinds,
        edits,
    })
}
