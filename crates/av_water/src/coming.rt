//! What comes into a block.
ghost use Rattle.std.specs.Prelude.{◌≡◌, ◌<◌, ◌+◌, ◌-◌, ◌≤◌, ◌||◌, IsTrue, max, nat_le, if◌then◌else◌};
ghost use Rattle.av_rules.specs.Kinds.{kind_count};
ghost use Rattle.av_types.specs.Water.{IsProper, amount_of, is_source};
ghost use Rattle.av_types.specs.declared.water.Wet.TheVariants.{Dry, Source, Flow, Falling};
ghost use Rattle.av_cells.specs.Kinds.{kinds_of};
ghost use Rattle.av_cells.specs.Positions.{below, IsInner};
ghost use Rattle.av_cells.specs.Rule.{wet_at, floor_at, one_if, sources_beside, incoming_at, HasKinds};
ghost use Rattle.av_water.specs.Sides.{ForSides, IsWetSide};

use av_cells::{Cells, above, below, kind_at, step};
use av_rules::Kinds;
use av_types::{Direction, Pos, Wet};

/// How wet the four sides of a block are.
#[derive(Clone, Copy)]
struct Sides {
    north: Wet,
    south: Wet,
    west: Wet,
    east: Wet,
}

/// One of a source, none of another block.
fn one_if(is_source: bool) -> u8
    ensures value { result ≡ one_if is_source }
    ensures bound { result ≤ 1 }
{
    u8::from(is_source)
}

impl Sides {
    /// How many are sources.
    fn sources(self) -> u8
        ensures { result ≡ one_if (is_source self.north) + one_if (is_source self.south)
            + one_if (is_source self.west) + one_if (is_source self.east) }
    {
        one_if(self.north.is_source())
            + one_if(self.south.is_source())
            + one_if(self.west.is_source())
            + one_if(self.east.is_source())
    }

    /// The greatest amount.
    fn most(self) -> u8
        ensures { result ≡ max (max (amount_of self.north) (amount_of self.south))
            (max (amount_of self.west) (amount_of self.east)) }
    {
        let along_z = self.north.amount().max(self.south.amount());
        let along_x = self.west.amount().max(self.east.amount());
        along_z.max(along_x)
    }
}

/// How wet the block in one direction is.
fn wet_beside<C: Cells>(cells: &C, kinds: &Kinds, pos: Pos, direction: Direction) -> Wet
    requires inner { IsInner pos }
    requires kinds { HasKinds (kind_count kinds.now) (C.world cells.now) }
    ensures { IsWetSide (kinds_of kinds.now) (C.world cells.now) pos direction result }
{
    kind_at(cells, kinds, step(pos, direction)).wet
}

/// How wet the four sides of a block are.
fn sides_of<C: Cells>(cells: &C, kinds: &Kinds, pos: Pos) -> Sides
    requires inner { IsInner pos }
    requires kinds { HasKinds (kind_count kinds.now) (C.world cells.now) }
    ensures { ForSides (IsWetSide (kinds_of kinds.now) (C.world cells.now) pos)
        result.north result.south result.west result.east }
{
    Sides {
        north: wet_beside(cells, kinds, pos, Direction::North),
        south: wet_beside(cells, kinds, pos, Direction::South),
        west: wet_beside(cells, kinds, pos, Direction::West),
        east: wet_beside(cells, kinds, pos, Direction::East),
    }
}

/// How many of the four sides of a loaded block are sources.
#[tactic(auto, unfolding(av_cells::specs::Rule::sources_beside))]
pub(crate) fn sources_beside<C: Cells>(cells: &C, kinds: &Kinds, pos: Pos) -> u8
    requires loaded { IsTrue ((C.world cells.now).loaded pos) }
    requires kinds { HasKinds (kind_count kinds.now) (C.world cells.now) }
    ensures { result ≡ sources_beside (kinds_of kinds.now) (C.world cells.now) pos }
{
    sides_of(cells, kinds, pos).sources()
}

/// What comes into a block that is no source by its neighbours: falling water under water, else one less than the
/// greatest amount beside it, where that is at least 2.
fn flow(is_under_water: bool, most: u8) -> Wet
    requires { most ≤ 8 }
    ensures is { result ≡ (if is_under_water then Falling
        else (if nat_le 2 most then Flow (most - 1) else Dry)) }
    ensures proper { IsProper result }
{
    if is_under_water {
        Wet::Falling
    } else if most >= 2 {
        Wet::Flow(most - 1)
    } else {
        Wet::Dry
    }
}

/// Whether a source can form in a block: over a floor or a source.
fn stands<C: Cells>(cells: &C, kinds: &Kinds, pos: Pos) -> bool
    requires inner { IsInner pos }
    requires kinds { HasKinds (kind_count kinds.now) (C.world cells.now) }
    ensures { result ≡ (floor_at (kinds_of kinds.now) (C.world cells.now) (below pos)
        || is_source (wet_at (kinds_of kinds.now) (C.world cells.now) (below pos))) }
{
    let under = kind_at(cells, kinds, below(pos));
    under.floor || under.wet.is_source()
}

/// What comes into a loaded block: a source between two sources over a floor or a source, else falling water under
/// water, else one less than the greatest amount beside it, where that is at least 2, else nothing. Takes no memory.
#[tactic(auto, unfolding(av_cells::specs::Rule::incoming_at, av_cells::specs::Rule::sources_beside, av_cells::specs::Rule::most_beside))]
pub fn incoming<C: Cells>(cells: &C, kinds: &Kinds, pos: Pos) -> Wet
    requires loaded { IsTrue ((C.world cells.now).loaded pos) }
    requires kinds { HasKinds (kind_count kinds.now) (C.world cells.now) }
    ensures is { result ≡ incoming_at (kinds_of kinds.now) (C.world cells.now) pos }
    ensures proper { IsProper result }
{
    let sides = sides_of(cells, kinds, pos);
    if sides.sources() >= 2 && stands(cells, kinds, pos) {
        return Wet::Source;
    }
    let is_under_water = kind_at(cells, kinds, above(pos)).wet.is_wet();
    flow(is_under_water, sides.most())
}
