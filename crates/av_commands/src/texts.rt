//! The texts that a command names.
ghost use Rattle.std.specs.Prelude.{◌≡◌, ◌⊎◌, IfErr, IfOk, None, option_map};
ghost use Rattle.av_types.specs.declared.fault.Fault.TheVariants.{OutOfMemory};
ghost use Rattle.av_sink.specs.Account.{IsDevice};
ghost use Rattle.av_commands.specs.Texts.{IsUnreadText};

use av_reports::device::read_file;
use av_reports::failure::Failure;
use av_words::STANDARD_INPUT;
use std::io::{Input, Read};
use std::rt::Files;

/// The bytes of a text: those of a file, or where it is named `-`, of standard input. One that can't be read is `Device` with its
/// name as it was given.
pub fn read_text<R: Files + Input + AllocGlobal>(rt: &R, name: &str) -> Result<Vec<u8>, Failure>
    ensures { IfErr result (λ e. (e.fault ≡ OutOfMemory) ⊎ IsDevice name.now e.fault) }
{
    if name != STANDARD_INPUT {
        return read_file(rt, name);
    }
    let mut bytes = Vec::new(rt.alloc());
    match rt.reader().read_to_end(&mut bytes) {
        Ok(_) => Ok(bytes),
        Err(error) => Err(Failure::of_device(rt.alloc(), error, name, "standard input")),
    }
}

/// The bytes of a text, or where none is named, of the one that stands for it.
pub fn read_text_or<R: Files + Input + AllocGlobal>(
    rt: &R,
    name: Option<&str>,
    otherwise: &str,
) -> Result<Vec<u8>, Failure>
    ensures left_out { IfOk result (λ text. option_map (λ t. t.now) name.entry ≡ None
        → text.items ≡ otherwise.now) }
    ensures unread { IfErr result (λ e. IsUnreadText (option_map (λ t. t.now) name.entry) e.fault) }
{
    match name {
        Some(name) => read_text(rt, name),
        None => Ok(Vec::from_slice(rt.alloc(), otherwise.as_bytes())?),
    }
}
