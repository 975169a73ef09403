//! How far long work is.
use av_reports::manner::Progress;
use std::fmt::Display;
use std::io::Write;

/// What takes a terminal's line away: the carriage's return, and what a terminal clears to the line's end.
const CLEAR: &str = "\r\x1b[K";

/// Says which step comes next, as well as it can be written.
pub fn note_step<E: Write>(err: &mut E, progress: Progress, step: &str) {
    let _ = match progress {
        Progress::Silent => Ok(()),
        Progress::Lines => writeln!(err, "{step}"),
        Progress::OneLine => write!(err, "{CLEAR}{step}"),
    };
}

/// Says how many of some files were read, as well as it can be written.
pub fn note_read<E: Write>(err: &mut E, progress: Progress, done: usize, all: usize) {
    let _ = match progress {
        Progress::Silent => Ok(()),
        Progress::Lines => writeln!(err, "{done} of {all} files read"),
        Progress::OneLine => write!(err, "{CLEAR}{done} of {all} files read"),
    };
}

/// Takes the line that steps write anew away, before anything else is written.
pub fn end_steps<E: Write>(err: &mut E, progress: Progress) {
    if progress == Progress::OneLine {
        let _ = write!(err, "{CLEAR}");
    }
}

/// Says which step is done or comes next, as well as it can be written, where a runtime prints on standard error.
pub fn tell_step<R: Eprint, D: Display + Drop>(rt: &R, progress: Progress, step: D) {
    let _ = match progress {
        Progress::Silent => Ok(()),
        Progress::Lines => rt.eprintln(step),
        Progress::OneLine => eprint!(rt; "{CLEAR}{step}"),
    };
}
