//! The sections of a chunk, taken apart in the order of the file.
ghost use Rattle.std.specs.Prelude.{◌≡◌, IfOk, IfErr, OnOk, IsSome, ◌<◌, ◌≢◌, length, true, false, option_map};
ghost use Rattle.av_types.specs.declared.fault.Fault.TheVariants.{OutOfMemory};
ghost use Rattle.av_types.specs.Positions.{is_section_of};
ghost use Rattle.av_tags.specs.ByName.{tag_of, emptied, blank};
ghost use Rattle.av_tags.specs.Shape.{compound_of};
ghost use Rattle.av_tags.specs.View.{view, views, named_view, named_views};
ghost use Rattle.av_state.specs.Table.{states};
ghost use Rattle.av_section.specs.Reading.{OnlyGrows};
ghost use Rattle.av_document.specs.Chunk.{is_other, share_a_number};
ghost use Rattle.av_codec.specs.SectionsRead.{AreStates, AreStatesRefused, IsSectionRead, IsSectionRefused, AreMissing, IsSplitAdded, IsJudged, FitsHeight, SlotFilled, AreFilled, AreFound, AreSectionsRead, AreRefusedBy};
ghost use Rattle.av_chunk.specs.Rest.{opened};
ghost use Rattle.av_codec.specs.Working.{checked_number, compound_in, tags_in, has_bad_number};

use crate::index::section_index;
use crate::reading::faults::lesser;
use crate::reading::tags::byte_at;
use av_chunk::{OutsideSection, SectionTags};
use av_section::{Numbering, Section};
use av_tags::{Named, Tag, exchange, find, remove};
use av_types::{Fault, Height};
use std::alloc::{AllocError, Global};

/// A section taken apart.
#[derive(Drop)]
pub(crate) enum SplitSection {
    /// One in the height.
    Inside {
        y: i8,
        section: Section,
        kept: SectionTags,
    },
    /// One out of the height.
    Outside(OutsideSection),
}

/// An empty tag of a name.
fn blank(alloc: Global, name: &[u8]) -> Result<Named, AllocError>
    ensures { IfOk result (λ m. named_view m ≡ record { name = name.now; tag = blank }) }
{
    Ok(Named::new(Vec::from_slice(alloc, name)?, Tag::byte(0)))
}

/// Leaves an empty tag where the tag of a name stood, or last, and hands out the tag.
pub(crate) fn emptied(
    alloc: Global,
    tags: &mut Vec<Named>,
    name: &[u8],
) -> Result<Option<Tag>, AllocError>
    ensures left { OnOk result (named_views tags.new.items
        ≡ emptied name.now (named_views tags.old.items)) }
    ensures taken { IfOk result (λ t. option_map view t
        ≡ tag_of name.now (named_views tags.old.items)) }
{
    exchange(tags, blank(alloc, name)?).map_err(|_| AllocError)
}

/// The section of its `block_states`, one of air where there are none, and the tags that are kept of them.
fn read_states<N: Numbering>(
    alloc: Global,
    block_states: Option<Tag>,
    numbering: &mut N,
) -> Result<(Section, Vec<Named>), Fault>
    requires { is_other compound_of (option_map view block_states) ≡ false }
    ensures ok { IfOk result (λ read. AreStates (compound_in (option_map view block_states))
        (states (N.table numbering.old)) (states (N.table numbering.new)) read.0 (named_views read.1.items)) }
    ensures err { IfErr result (λ e. N.takes ≡ true → AreStatesRefused
        (compound_in (option_map view block_states)) (states (N.table numbering.old)) e) }
    ensures table { OnlyGrows (states (N.table numbering.old)) (states (N.table numbering.new)) }
    ensures same { N.takes ≡ false
        → states (N.table numbering.new) ≡ states (N.table numbering.old) }
{
    let Some(block_states) = block_states else {
        return Ok((Section::filled(alloc, 0)?, Vec::new(alloc)));
    };
    let mut others = block_states.into_members().unwrap();
    let palette = find(&others, b"palette");
    let section = Section::read(alloc, palette, find(&others, b"data"), numbering)?;
    let _ = remove(&mut others, b"palette");
    let _ = remove(&mut others, b"data");
    Ok((section, others))
}

/// Whether a section of that number is in the height.
pub(crate) fn is_inside(height: Height, y: i8) -> bool
    ensures { result ≡ is_section_of height y }
{
    height.has_section(i32::from(y))
}

/// A section taken apart. Its number and its `block_states` are of the right kind.
fn read_section<N: Numbering>(
    alloc: Global,
    section: Tag,
    height: Height,
    numbering: &mut N,
) -> Result<SplitSection, Fault>
    requires { IsSome (checked_number height (compound_of (view section))) }
    ensures ok { IfOk result (IsSectionRead height (tags_in (view section)) (states (N.table numbering.old))
        (states (N.table numbering.new))) }
    ensures err { IfErr result (λ e. N.takes ≡ true → IsSectionRefused height (tags_in (view section))
        (states (N.table numbering.old)) e) }
    ensures table { OnlyGrows (states (N.table numbering.old)) (states (N.table numbering.new)) }
    ensures same { N.takes ≡ false
        → states (N.table numbering.new) ≡ states (N.table numbering.old) }
{
    let mut tags = section.into_members().unwrap();
    let y = byte_at(&tags, b"Y").unwrap();
    if !is_inside(height, y) {
        return Ok(SplitSection::Outside(OutsideSection { y, tags }));
    }
    let block_states = emptied(alloc, &mut tags, b"block_states")?;
    let _ = emptied(alloc, &mut tags, b"BlockLight")?;
    let (section, states) = read_states(alloc, block_states, numbering)?;
    Ok(SplitSection::Inside {
        y,
        section,
        kept: SectionTags { tags, states },
    })
}

/// The sections of a chunk: those of the height by their indices, with what they keep, and all others.
#[derive(Drop)]
pub(crate) struct Sections {
    pub(crate) sections: Vec<Option<Section>>,
    pub(crate) kept: Vec<Option<SectionTags>>,
    pub(crate) outside: Vec<OutsideSection>,
}

impl Sections {
    /// All sections missing.
    pub(crate) fn missing(alloc: Global, height: Height) -> Result<Self, AllocError>
        ensures { IfOk result (AreMissing height) }
    {
        let mut sections = Vec::new(alloc);
        let mut kept = Vec::new(alloc);
        for _ in 0..height.sections {
            sections.push(None)?;
            kept.push(None)?;
        }
        Ok(Sections {
            sections,
            kept,
            outside: Vec::new(alloc),
        })
    }

    /// Puts a section where it belongs.
    fn add(&mut self, split: SplitSection, height: Height) -> Result<(), AllocError>
        requires fits { FitsHeight height split }
        requires count { length self.old.sections.items ≡ height.sections }
        requires count_kept { length self.old.kept.items ≡ height.sections }
        ensures { OnOk result (IsSplitAdded height split self.old self.new) }
    {
        match split {
            SplitSection::Inside { y, section, kept } => {
                let index = section_index(height, i32::from(y));
                self.sections[index] = Some(section);
                self.kept[index] = Some(kept);
            }
            SplitSection::Outside(section) => self.outside.push(section)?,
        }
        Ok(())
    }

    /// Puts a section that was read where it belongs. Answers the first fault so far, that of this one among them.
    fn judge(
        &mut self,
        read: Result<SplitSection, Fault>,
        refused: Option<Fault>,
        height: Height,
    ) -> Result<Option<Fault>, AllocError>
        requires fits { IfOk read (FitsHeight height) }
        requires count { length self.old.sections.items ≡ height.sections }
        requires count_kept { length self.old.kept.items ≡ height.sections }
        ensures { IfOk result (IsJudged height read refused self.old self.new) }
    {
        match read {
            Ok(split) => {
                self.add(split, height)?;
                Ok(refused)
            }
            Err(fault) => Ok(Some(lesser(refused, fault))),
        }
    }
}

/// Puts a section of air where there is none.
fn fill(alloc: Global, slot: &mut Option<Section>) -> Result<(), AllocError>
    ensures { OnOk result (SlotFilled slot.old slot.new) }
{
    if slot.is_none() {
        *slot = Some(Section::filled(alloc, 0).map_err(|_| AllocError)?);
    }
    Ok(())
}

/// Puts a section of air wherever there is none.
pub(crate) fn fill_all(alloc: Global, sections: &mut Vec<Option<Section>>) -> Result<(), AllocError>
    ensures { OnOk result (AreFilled sections.old.items sections.new.items) }
{
    for index in 0..sections.len() {
        fill(alloc, &mut sections[index])?;
    }
    Ok(())
}

/// The sections that a chunk has. Of several faults the first is answered; want of memory comes before all others.
fn find_sections<N: Numbering>(
    alloc: Global,
    sections: Vec<Tag>,
    height: Height,
    numbering: &mut N,
) -> Result<Sections, Fault>
    requires numbers { has_bad_number height (views sections.items) ≡ false }
    requires apart { share_a_number (opened (views sections.items)) ≡ false }
    ensures ok { IfOk result (AreFound height (opened (views sections.items)) (states (N.table numbering.old))
        (states (N.table numbering.new))) }
    ensures err { IfErr result (λ e. N.takes ≡ true → e ≢ OutOfMemory
        → AreRefusedBy height (opened (views sections.items)) (states (N.table numbering.old)) e) }
    ensures table { OnlyGrows (states (N.table numbering.old)) (states (N.table numbering.new)) }
    ensures same { N.takes ≡ false
        → states (N.table numbering.new) ≡ states (N.table numbering.old) }
{
    let mut read = Sections::missing(alloc, height)?;
    let mut refused = None;
    for section in sections {
        let split = read_section(alloc, section, height, numbering);
        refused = read.judge(split, refused, height)?;
    }
    match refused {
        None => Ok(read),
        Some(fault) => Err(fault),
    }
}

/// The sections of a chunk, with air for those that it does not have. Of several faults the first is answered; want of
/// memory comes before all others.
pub(crate) fn read_sections<N: Numbering>(
    alloc: Global,
    sections: Vec<Tag>,
    height: Height,
    numbering: &mut N,
) -> Result<Sections, Fault>
    requires numbers { has_bad_number height (views sections.items) ≡ false }
    requires apart { share_a_number (opened (views sections.items)) ≡ false }
    ensures ok { IfOk result (AreSectionsRead height (opened (views sections.items))
        (states (N.table numbering.old)) (states (N.table numbering.new))) }
    ensures err { IfErr result (λ e. N.takes ≡ true → e ≢ OutOfMemory
        → AreRefusedBy height (opened (views sections.items)) (states (N.table numbering.old)) e) }
    ensures table { OnlyGrows (states (N.table numbering.old)) (states (N.table numbering.new)) }
    ensures same { N.takes ≡ false
        → states (N.table numbering.new) ≡ states (N.table numbering.old) }
{
    let mut read = find_sections(alloc, sections, height, numbering)?;
    fill_all(alloc, &mut read.sections)?;
    Ok(read)
}
