//! The values of arguments, as `clap` read them.
ghost use Rattle.std.specs.Prelude.{IfNone, IfOk, IfSome, List, Option, ℕ, ℤ};
ghost use Rattle.std.specs.Borrow.{Bor};
ghost use Rattle.clap.specs.Words.{found_of, rows_of};
ghost use Rattle.av_words.specs.CommandLine.{HasCount, HasFlag, HasNumber, HasText, HasTexts, MayHaveCount, MayHaveText};

use clap::ArgMatches;
use std::alloc::{AllocError, Global};

/// The number of an argument.
pub(crate) fn number(matches: &ArgMatches<'_>, name: &str) -> Option<i32>
    ensures value { IfSome result (HasNumber (rows_of (found_of matches.now)) name.now) }
    ensures none { IfNone result ((n : ℤ) → HasNumber (rows_of (found_of matches.now)) name.now n
        → ⊥) }
{
    matches.get_one::<i32>(name)
}

/// The number of an argument that has no sign.
pub(crate) fn count_of(matches: &ArgMatches<'_>, name: &str) -> Option<u32>
    ensures value { IfSome result (HasCount (rows_of (found_of matches.now)) name.now) }
    ensures none { IfNone result ((n : ℕ) → HasCount (rows_of (found_of matches.now)) name.now n
        → ⊥) }
{
    matches.get_one::<u32>(name)
}

/// The same of an argument that may be left out. None where it is given and is no such number.
pub(crate) fn count_if_given(matches: &ArgMatches<'_>, name: &str) -> Option<Option<u32>>
    ensures value { IfSome result (MayHaveCount (rows_of (found_of matches.now)) name.now) }
    ensures none { IfNone result ((n : Option ℕ) → MayHaveCount
        (rows_of (found_of matches.now)) name.now n → ⊥) }
{
    match text_of(matches, name) {
        Some(_) => Some(Some(count_of(matches, name)?)),
        None => Some(None),
    }
}

/// The texts of an argument, in their order.
pub(crate) fn texts_of<'a>(
    alloc: Global,
    matches: &ArgMatches<'a>,
    name: &str,
) -> Result<Vec<&'a str>, AllocError>
    ensures { IfOk result (λ texts. HasTexts (rows_of (found_of matches.now)) name.now
        texts.items) }
{
    match matches.get_strs(name) {
        Some(texts) => Vec::from_slice(alloc, texts),
        None => Ok(Vec::new(alloc)),
    }
}

/// The text of an argument.
pub(crate) fn text_of<'a>(matches: &ArgMatches<'a>, name: &str) -> Option<&'a str>
    ensures value { IfSome result (HasText (rows_of (found_of matches.now)) name.now) }
    ensures none { IfNone result ((t : Bor (List ℕ))
        → HasText (rows_of (found_of matches.now)) name.now t → ⊥) }
    ensures either { MayHaveText (rows_of (found_of matches.now)) name.now result }
{
    matches.get_str(name)
}

/// Whether a flag was given.
pub(crate) fn is_given(matches: &ArgMatches<'_>, name: &str) -> bool
    ensures { HasFlag (rows_of (found_of matches.now)) name.now result }
{
    matches.get_flag(name)
}
