//! A set of positions that is kept in an order, so that a look-up takes no more steps than the logarithm of what is there,
//! whatever the positions are.
ghost use Rattle.std.specs.Prelude.{ℕ, ◌≡◌, ◌==◌, ◌&&◌, ◌||◌, not, false, true, None, OnOk, OnErr};
ghost use Rattle.std.specs.BTreeMap.{get, is_at};
ghost use Rattle.av_types.specs.declared.position.Pos.{Pos};
ghost use Rattle.av_types.specs.Positions.{same_pos};
ghost use Rattle.av_ticks.specs.declared.positions.SectionKey.{SectionKey};
ghost use Rattle.av_ticks.specs.Marked.{key_of, key_cmp, marked_in};
ghost use Rattle.av_ticks.specs.Held.{holds};

use av_pack::PlaceSet;
use av_types::{Place, Pos};
use std::alloc::{AllocError, Global};
use std::collections::BTreeMap;

/// The position of a section, by what tells the sections of a chunk apart first.
#[derive(Clone, Copy, PartialEq, Eq, PartialOrd, Ord)]
struct SectionKey {
    y: i32,
    x: i32,
    z: i32,
}

/// Sets of places by their sections.
type Sections = BTreeMap<SectionKey, PlaceSet>;

/// Some positions.
#[derive(Drop)]
pub(crate) struct Positions {
    /// The places of each section. A chunk has few sections, so a look-up takes few steps. One whose places are all gone stays.
    sections: Sections,
}

/// The key of the section that a block lies in.
fn own_key(pos: Pos) -> SectionKey
    ensures { result ≡ key_of pos }
{
    let section = pos.section();
    SectionKey {
        y: section.y,
        x: section.x,
        z: section.z,
    }
}

/// Marks a place of a section that is there. Answers whether it is.
fn mark(sections: &mut Sections, key: SectionKey, place: Place) -> bool
    ensures here { result ≡ true → (i : ℕ) → marked_in sections.new key i
        ≡ (i == place.index || marked_in sections.old key i) }
    ensures others { result ≡ true → (q : SectionKey) → is_at (key_cmp key) q ≡ false
        → get key_cmp sections.new q ≡ get key_cmp sections.old q }
    ensures absent { result ≡ false → get key_cmp sections.old key ≡ None }
    ensures same { result ≡ false → sections.new.entries ≡ sections.old.entries }
{
    let Some(places) = sections.get_mut(&key) else {
        return false;
    };
    places.insert(place);
    true
}

/// Takes the mark of a place of a section away.
fn unmark(sections: &mut Sections, key: SectionKey, place: Place)
    ensures here { (i : ℕ) → marked_in sections.new key i
        ≡ (marked_in sections.old key i && not (i == place.index)) }
    ensures others { (q : SectionKey) → is_at (key_cmp key) q ≡ false
        → get key_cmp sections.new q ≡ get key_cmp sections.old q }
{
    if let Some(places) = sections.get_mut(&key) {
        places.remove(place);
    }
}

/// Puts in a section that is not there, with one place.
fn add_section(sections: &mut Sections, key: SectionKey, place: Place) -> Result<(), AllocError>
    requires absent { get key_cmp sections.old key ≡ None }
    ensures here { OnOk result ((i : ℕ) → marked_in sections.new key i
        ≡ (i == place.index || marked_in sections.old key i)) }
    ensures others { OnOk result ((q : SectionKey) → is_at (key_cmp key) q ≡ false
        → get key_cmp sections.new q ≡ get key_cmp sections.old q) }
    ensures err { OnErr result (sections.new.entries ≡ sections.old.entries) }
{
    let mut first = PlaceSet::new();
    first.insert(place);
    sections.insert(key, first)?;
    Ok(())
}

impl Positions {
    /// No positions.
    pub(crate) fn new(alloc: Global) -> Positions
        ensures { (q : Pos) → holds result q ≡ false }
    {
        Positions {
            sections: BTreeMap::new(alloc),
        }
    }

    /// Whether a position is there.
    pub(crate) fn has(&self, pos: Pos) -> bool
        ensures { result ≡ holds self.now pos }
    {
        match self.sections.get(&own_key(pos)) {
            Some(places) => places.contains(pos.place()),
            None => false,
        }
    }

    /// Puts a position in. After a refusal all is as it was.
    pub(crate) fn put(&mut self, pos: Pos) -> Result<(), AllocError>
        ensures ok { OnOk result ((q : Pos) → holds self.new q
            ≡ (same_pos q pos || holds self.old q)) }
        ensures err { OnErr result ((q : Pos) → holds self.new q ≡ holds self.old q) }
    {
        let key = own_key(pos);
        if mark(&mut self.sections, key, pos.place()) {
            return Ok(());
        }
        add_section(&mut self.sections, key, pos.place())?;
        Ok(())
    }

    /// Takes a position out.
    pub(crate) fn take_out(&mut self, pos: Pos)
        ensures { (q : Pos) → holds self.new q ≡ (holds self.old q && not (same_pos q pos)) }
    {
        unmark(&mut self.sections, own_key(pos), pos.place());
    }
}
