//! How a command speaks on standard error.
ghost use Rattle.std.specs.Prelude.{◌≡◌, ◌||◌};

/// How a command says how far it is.
#[derive(Clone, Copy, Debug, PartialEq, Eq)]
pub enum Progress {
    /// Not at all.
    Silent,
    /// By a line for each step.
    Lines,
    /// By one line, which each step writes anew.
    OneLine,
}

/// How a command speaks on standard error beside faults.
#[derive(Clone, Copy, Debug)]
pub struct Manner {
    pub progress: Progress,
    /// Whether what is known of a failure follows its fault's line.
    pub explains: bool,
}

impl Manner {
    /// On a terminal a command says how far it is and why it failed, and elsewhere where that is asked for.
    pub fn new(is_terminal: bool, wants_progress: bool, wants_reasons: bool) -> Manner
        ensures { result.explains ≡ (is_terminal || wants_reasons) }
    {
        let progress = if is_terminal {
            Progress::OneLine
        } else if wants_progress {
            Progress::Lines
        } else {
            Progress::Silent
        };
        Manner {
            progress,
            explains: is_terminal || wants_reasons,
        }
    }
}
