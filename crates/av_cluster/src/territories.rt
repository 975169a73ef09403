//! The sections that a turn may read or change.
ghost use Rattle.std.specs.Prelude.{◌≡◌, ◌<◌, ◌≤◌, ◌+◌, ◌++◌, ◌&&◌, ◌↔◌, IsTrue, true, if◌then◌else◌, pos, ◌+ℤ◌, ◌-ℤ◌};
ghost use Rattle.std.specs.List.{Contains};
ghost use Rattle.arrayvec.specs.ArrayVec.{array_vec_len};
ghost use Rattle.av_types.specs.declared.position.Pos.{Pos};
ghost use Rattle.av_types.specs.declared.position.SectionPos.{SectionPos};
ghost use Rattle.av_cells.specs.Positions.{IsNearOrigin};
ghost use Rattle.av_world.specs.Views.{blocks, grid};
ghost use Rattle.av_play.specs.Parts.{InTerritory};
ghost use Rattle.av_play.specs.Corners.{corner};
ghost use Rattle.av_types.specs.Positions.{section_of};
ghost use Rattle.av_cells.specs.Grid.{is_here};
ghost use Rattle.av_cluster.specs.Territory.{is_new, one_if, corner_if, column_if, side_if, corner_list, AreRising, MeetSameSections};

use arrayvec::ArrayVec;
use av_cells::Cells;
use av_types::{Pos, SectionPos};
use av_world::World;

/// The coordinate five blocks to the east or west.
fn along_x(at: Pos, east: bool) -> i32
    requires { IsNearOrigin at }
    ensures { result ≡ (if east then at.x +ℤ pos 5 else at.x -ℤ pos 5) }
{
    if east { at.x + 5 } else { at.x - 5 }
}

/// The coordinate one block up or two down.
fn along_y(at: Pos, high: bool) -> i32
    requires { IsNearOrigin at }
    ensures { result ≡ (if high then at.y +ℤ pos 1 else at.y -ℤ pos 2) }
{
    if high { at.y + 1 } else { at.y - 2 }
}

/// The coordinate five blocks to the south or north.
fn along_z(at: Pos, south: bool) -> i32
    requires { IsNearOrigin at }
    ensures { result ≡ (if south then at.z +ℤ pos 5 else at.z -ℤ pos 5) }
{
    if south { at.z + 5 } else { at.z - 5 }
}

/// A corner of a block's reach.
fn corner_of(at: Pos, east: bool, high: bool, south: bool) -> Pos
    requires { IsNearOrigin at }
    ensures { result ≡ corner at east high south }
{
    Pos {
        x: along_x(at, east),
        y: along_y(at, high),
        z: along_z(at, south),
    }
}

/// Whether the end of a line is in another section than its start, where the end is meant.
fn is_new(end: bool, low: i32, high: i32) -> bool
    ensures { result ≡ is_new end low high }
{
    !(end && low >> 4 == high >> 4)
}

/// Whether an end to the east is in another section, where it is meant.
fn is_new_x(at: Pos, east: bool) -> bool
    requires { IsNearOrigin at }
    ensures { result ≡ is_new east (at.x -ℤ pos 5) (at.x +ℤ pos 5) }
{
    is_new(east, along_x(at, false), along_x(at, true))
}

/// Whether an end above is in another section, where it is meant.
fn is_new_y(at: Pos, high: bool) -> bool
    requires { IsNearOrigin at }
    ensures { result ≡ is_new high (at.y -ℤ pos 2) (at.y +ℤ pos 1) }
{
    is_new(high, along_y(at, false), along_y(at, true))
}

/// Whether an end to the south is in another section, where it is meant.
fn is_new_z(at: Pos, south: bool) -> bool
    requires { IsNearOrigin at }
    ensures { result ≡ is_new south (at.z -ℤ pos 5) (at.z +ℤ pos 5) }
{
    is_new(south, along_z(at, false), along_z(at, true))
}

/// Appends a corner, unless one before lies in the same section.
fn add_corner(at: Pos, east: bool, south: bool, high: bool, corners: &mut ArrayVec<Pos, 8>)
    requires near { IsNearOrigin at }
    requires room { array_vec_len corners.old < 8 }
    ensures items { corners.new.items ≡ corners.old.items ++ corner_if at east south high }
    ensures len { array_vec_len corners.new ≤ array_vec_len corners.old + 1 }
{
    if is_new_y(at, high) {
        corners.push(corner_of(at, east, high, south));
    }
}

/// Appends two corners above each other, unless others before lie in the same sections.
fn add_column(at: Pos, east: bool, south: bool, corners: &mut ArrayVec<Pos, 8>)
    requires near { IsNearOrigin at }
    requires room { array_vec_len corners.old ≤ 6 }
    ensures items { corners.new.items ≡ corners.old.items ++ column_if at east south }
    ensures len { array_vec_len corners.new ≤ array_vec_len corners.old + 2 }
{
    if !is_new_x(at, east) {
        return;
    }
    add_corner(at, east, south, false, corners);
    add_corner(at, east, south, true, corners);
}

/// Appends the four corners of a side, unless others before lie in the same sections.
fn add_side(at: Pos, south: bool, corners: &mut ArrayVec<Pos, 8>)
    requires near { IsNearOrigin at }
    requires room { array_vec_len corners.old ≤ 4 }
    ensures items { corners.new.items ≡ corners.old.items ++ side_if at south }
    ensures len { array_vec_len corners.new ≤ array_vec_len corners.old + 4 }
{
    if !is_new_z(at, south) {
        return;
    }
    add_column(at, false, south, corners);
    add_column(at, true, south, corners);
}

/// The corners of a block's reach, one in each section, by z, then by x, then by y.
pub(crate) fn corners(at: Pos) -> ArrayVec<Pos, 8>
    requires { IsNearOrigin at }
    ensures { result.items ≡ corner_list at }
{
    let mut corners = ArrayVec::new();
    add_side(at, false, &mut corners);
    add_side(at, true, &mut corners);
    corners
}

/// Whether two blocks lie in one section.
fn share_section(a: Pos, b: Pos) -> bool
    ensures { result ≡ true → section_of a ≡ section_of b }
{
    a.section() == b.section()
}

/// Whether the reaches of two blocks meet the same sections: their lowest corners lie in one, and their highest.
pub(crate) fn meet_same_sections(a: Pos, b: Pos) -> bool
    requires a { IsNearOrigin a }
    requires b { IsNearOrigin b }
    ensures { result ≡ true → MeetSameSections a b }
{
    share_section(
        corner_of(a, false, false, false),
        corner_of(b, false, false, false),
    ) && share_section(
        corner_of(a, true, true, true),
        corner_of(b, true, true, true),
    )
}

/// A number's remainder by 4.
pub(crate) fn fourth(number: i32) -> usize
    ensures { result < 4 }
{
    number.rem_euclid(4) as usize
}

/// Blocks whose reaches meet the same sections have the same of these, and most others near have another.
pub(crate) fn reach_index(at: Pos) -> usize
    requires { IsNearOrigin at }
    ensures { result < 256 }
{
    let low = corner_of(at, false, false, false).section();
    let high = corner_of(at, true, true, true).section();
    fourth(low.x) + 4 * fourth(low.z) + 16 * fourth(high.x) + 64 * fourth(high.z)
}

/// Appends the section of a block, where that is loaded.
fn add_loaded(world: &World, block: Pos, found: &mut ArrayVec<SectionPos, 8>)
    requires { array_vec_len found.old < 8 }
    ensures items { found.new.items ≡ found.old.items
        ++ one_if (is_here (grid world.now (section_of block))) (section_of block) }
    ensures len { array_vec_len found.new ≤ array_vec_len found.old + 1 }
{
    if world.loaded(block) {
        found.push(block.section());
    }
}

/// The territory of a loaded block: the loaded sections that a turn of it may read or change, by z, then by x, then
/// by y. Takes no memory.
pub fn territory(world: &World, at: Pos) -> ArrayVec<SectionPos, 8>
    requires { IsTrue ((blocks world.now).loaded at) }
    ensures exact { (s : SectionPos) → Contains result.items s
        ↔ InTerritory (blocks world.now) at s }
    ensures order { AreRising result.items }
{
    let corners = corners(at);
    let mut found = ArrayVec::new();
    for corner in corners.as_slice() {
        add_loaded(world, *corner, &mut found);
    }
    found
}
