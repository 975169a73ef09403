//! The lines on changes.
ghost use Rattle.std.specs.Prelude.{OnOk};
ghost use Rattle.std.specs.Io.KnownBytes.{Appends};
ghost use Rattle.av_changes.specs.Changes.{change_line, change_lines};

use crate::change::Change;
use std::io::{self, Write};

/// What is said of files that a run would write.
pub const WOULD_CHANGE: &str = "would change";

/// What is said of files that a run has written.
pub const CHANGED: &str = "changed";

fn write_change<O: Write>(out: &mut O, change: &Change, verb: &str) -> io::Result<()>
    ensures { OnOk result (Appends (O.contents out.old) (O.contents out.new)
        (change_line verb.now change.now)) }
{
    let Change { name, chunks } = change;
    writeln!(out, "{name}: {chunks} chunks {verb}")
}

/// Writes a line for each change, in their order: `r.X.Z.mca: N chunks would change`, or have changed.
pub fn write_changes<O: Write>(out: &mut O, changes: &[Change], verb: &str) -> io::Result<()>
    ensures { OnOk result (Appends (O.contents out.old) (O.contents out.new)
        (change_lines verb.now changes.now)) }
{
    for change in changes {
        write_change(out, change, verb)?;
    }
    Ok(())
}
