//! What a chunk's document denotes, and the document that it is written as
//! (<https://minecraft.wiki/w/Chunk_format>): definitions, and the law that ties them.
#![tactic(auto)]

ghost use Rattle.av_document.specs.Entries.{StoredEntriesAreStates};
ghost use Rattle.av_document.specs.Law.{WrittenDenotes, WrittenIsWellFormed, WrittenComesBack, ReadThenWritten, DenotesOne, LooksInside};

/// A law of the definitions: what is written of a chunk denotes the same cells and rest, and the
/// same water entries, sooner by the ticks that were run. The rest was read from a well-formed document, and the cells
/// and entries are some that a loaded chunk can have. There is nothing to do.
pub fn written_denotes()
    ensures { WrittenDenotes }
{}

/// A law of the definitions: what is written for a rest that was read from a document of at most
/// 1,044,475 bytes has a spelling, so that it can be encoded. The cells and entries are some that a loaded chunk can
/// have, the entries' numbers fit an Int with those ticks run, and each section has 2,048 bytes of light. There is
/// nothing to do.
pub fn written_is_well_formed()
    ensures { WrittenIsWellFormed }
{}

/// A law of the definitions, from bytes to values and back: the bytes that are written for a chunk
/// whose rest was read from bytes spell the same rest, with the chunk's cells, and its water entries
/// sooner by the ticks that were run. Its conditions are those of `written_is_well_formed`. There is nothing to do.
pub fn written_comes_back()
    ensures { WrittenComesBack }
{}

/// A law of the definitions: the bytes of a loaded chunk, at most 1,044,475, read and written with no ticks run, spell
/// the same cells, water entries and rest, whatever light of 2,048 bytes a section. There is nothing to do.
pub fn read_then_written()
    ensures { ReadThenWritten }
{}

/// A law of the definitions: a document denotes one chunk at most. There is nothing to do.
pub fn denotes_one()
    ensures { DenotesOne }
{}

/// A law of the definitions: what is written of a chunk goes by its own blocks, its entries and the light of the height's
/// sections alone. There is nothing to do.
pub fn layout_looks_inside()
    ensures { LooksInside }
{}

/// A law of the definitions: what the tags of a palette entry describe is a state, wherever bytes spell them. So no palette
/// of a file is refused for the length of a text, or for a key that is there twice. There is nothing to do.
pub fn stored_entries_are_states()
    ensures { StoredEntriesAreStates }
{}
