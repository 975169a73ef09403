//! The commands.
ghost use Rattle.std.specs.Prelude.{◌≡◌, option_map};
ghost use Rattle.av_words.specs.CommandLine.{is_input};

use av_types::Pos;

/// What stands for standard input where a text is named.
pub const STANDARD_INPUT: &str = "-";

/// Whether a text that may be left out is standard input.
fn is_input(name: Option<&str>) -> bool
    ensures { result ≡ is_input (option_map (λ t. t.now) name.entry) }
{
    name == Some(STANDARD_INPUT)
}

/// The values of `run`.
#[derive(Drop)]
pub struct RunWords<'a> {
    /// The folder whose region files are read.
    pub input: &'a str,
    /// The folder that they are written to.
    pub output: &'a str,
    /// The block table. Without one it is the program's own.
    pub table: Option<&'a str>,
    /// The edits. Without a file there are none.
    pub edits: Option<&'a str>,
    pub ticks: u32,
    /// How many workers there are. Without a number there is one for each processor, and 8 at most.
    pub workers: Option<u32>,
    /// The names of region files that count as not there.
    pub skip: Vec<&'a str>,
    /// Whether nothing is run where a state of the world has no row in the table.
    pub strict: bool,
    /// Whether to say what would change, and write nothing.
    pub dry_run: bool,
    /// Whether to run also where an earlier run that was cut off is finished first.
    pub again: bool,
    /// Whether to run although the game has the world open.
    pub in_use: bool,
    /// Whether to say how far it is.
    pub progress: bool,
    /// Whether to say why it failed.
    pub explain: bool,
}

/// A command with its values.
#[derive(Drop)]
pub enum Words<'a> {
    /// Prints the block state at a position of a region file.
    Block {
        /// The region file.
        file: &'a str,
        pos: Pos,
        /// A block table, whose height the world has. Without one it has the game's.
        table: Option<&'a str>,
        /// Whether to say why it failed.
        explain: bool,
    },
    /// Lists what is wrong with the region files of a folder.
    Check {
        /// The folder.
        input: &'a str,
        /// A block table, whose height the world has. Without one it has the game's.
        table: Option<&'a str>,
        /// Whether to say how far it is.
        progress: bool,
        /// Whether to say why it failed.
        explain: bool,
    },
    /// Runs edits, water and light over the region files of a folder, and writes them.
    Run(RunWords<'a>),
    /// Draws the region files of a folder from above.
    Map {
        /// The folder.
        input: &'a str,
        /// The picture that is written.
        picture: &'a str,
        /// A block table, whose height the world has. Without one it has the game's.
        table: Option<&'a str>,
        /// The colours of blocks by name. Without them each name has one of its letters.
        colours: Option<&'a str>,
        /// Whether the block light is drawn in place of the colours.
        light: bool,
        /// Whether to say why it failed.
        explain: bool,
    },
    /// Lists the block states of the region files of a folder, with how many blocks have each.
    States {
        /// The folder.
        input: &'a str,
        /// A block table, whose height the world has, and whose row for each state is listed. Without one the world has the
        /// game's height, and no row is listed.
        table: Option<&'a str>,
        /// Whether to say why it failed.
        explain: bool,
    },
}

impl<'a> Words<'a> {
    ghost use Rattle.av_words.specs.CommandLine.{asks_twice, explain_of, progress_of};

    /// Whether it is to say how far it is, where it has a word for that.
    pub fn wants_progress(&self) -> bool
        ensures { result ≡ progress_of self.now }
    {
        match self {
            Words::Check { progress, .. } => *progress,
            Words::Run(run) => run.progress,
            Words::Block { .. } => false,
            Words::Map { .. } => false,
            Words::States { .. } => false,
        }
    }

    /// Whether it is to say why it failed.
    pub fn wants_reasons(&self) -> bool
        ensures { result ≡ explain_of self.now }
    {
        match self {
            Words::Block { explain, .. } => *explain,
            Words::Check { explain, .. } => *explain,
            Words::Run(run) => run.explain,
            Words::Map { explain, .. } => *explain,
            Words::States { explain, .. } => *explain,
        }
    }
    /// Whether two of its texts are to be read from standard input, which can be read once.
    pub fn asks_twice(&self) -> bool
        ensures { result ≡ asks_twice self.now }
    {
        match self {
            Words::Run(run) => is_input(run.table) && is_input(run.edits),
            Words::Map { table, colours, .. } => is_input(*table) && is_input(*colours),
            Words::Block { .. } => false,
            Words::Check { .. } => false,
            Words::States { .. } => false,
        }
    }
}
