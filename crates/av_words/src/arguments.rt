//! The arguments of commands, as `clap` is told of them.
ghost use Rattle.std.specs.Prelude.{◌≡◌, codes, false};
ghost use Rattle.clap.specs.declared.builder.command.Command.TheViews.{out-Command};
ghost use Rattle.clap.specs.Words.{app_of, new_app, rule_of};
ghost use Rattle.av_words.specs.CommandLine.{count_rule, file_rule, flag_rule, number_rule, option_rule, repeated_rule};

use clap::{Arg, ArgAction, Command, value_parser};
use std::alloc::Global;

/// A file that has to be named.
pub(crate) fn file<'a>(alloc: Global, name: &'a str, help: &'a str) -> Arg<'a>
    ensures rule { rule_of result ≡ file_rule name.entry.now }
    ensures local { result.global ≡ false }
{
    Arg::new(alloc, name).required(true).help(help)
}

/// A coordinate, a number of 32 bits.
pub(crate) fn coordinate<'a>(alloc: Global, name: &'a str, help: &'a str) -> Arg<'a>
    ensures rule { rule_of result ≡ number_rule name.entry.now }
    ensures local { result.global ≡ false }
{
    Arg::new(alloc, name)
        .required(true)
        .value_parser(value_parser!(i32))
        .help(help)
}

/// `--NAME VALUE`, which has to be given or may be left out.
pub(crate) fn named<'a>(
    alloc: Global,
    name: &'a str,
    value: &'a str,
    required: bool,
    help: &'a str,
) -> Arg<'a>
    ensures rule { rule_of result ≡ option_rule name.entry.now required }
    ensures local { result.global ≡ false }
{
    Arg::new(alloc, name)
        .long(name)
        .value_name(value)
        .required(required)
        .help(help)
}

/// `--NAME N`, a number of 32 bits without a sign, which has to be given or may be left out.
pub(crate) fn counted<'a>(alloc: Global, name: &'a str, required: bool, help: &'a str) -> Arg<'a>
    ensures rule { rule_of result ≡ count_rule name.entry.now required }
    ensures local { result.global ≡ false }
{
    named(alloc, name, "N", required, help).value_parser(value_parser!(u32))
}

/// `--NAME VALUE`, which may be given many times.
pub(crate) fn repeated<'a>(alloc: Global, name: &'a str, value: &'a str, help: &'a str) -> Arg<'a>
    ensures rule { rule_of result ≡ repeated_rule name.entry.now }
    ensures local { result.global ≡ false }
{
    named(alloc, name, value, false, help).action(ArgAction::Append)
}

/// `--table FILE`, which may be left out.
pub(crate) fn height_table<'a>(alloc: Global) -> Arg<'a>
    ensures rule { rule_of result ≡ option_rule (codes "table") false }
    ensures local { result.global ≡ false }
{
    let help = "A block table, whose height the world has; without one it has the game's";
    named(alloc, "table", "FILE", false, help)
}

/// `--NAME`.
pub(crate) fn flag<'a>(alloc: Global, name: &'a str, help: &'a str) -> Arg<'a>
    ensures rule { rule_of result ≡ flag_rule name.entry.now }
    ensures local { result.global ≡ false }
{
    Arg::new(alloc, name)
        .long(name)
        .action(ArgAction::SetTrue)
        .help(help)
}

/// `--progress`.
pub(crate) fn progress_flag<'a>(alloc: Global) -> Arg<'a>
    ensures rule { rule_of result ≡ flag_rule (codes "progress") }
    ensures local { result.global ≡ false }
{
    let help = "Says on standard error how far it is, as it does on a terminal";
    flag(alloc, "progress", help)
}

/// `--explain`.
pub(crate) fn explain_flag<'a>(alloc: Global) -> Arg<'a>
    ensures rule { rule_of result ≡ flag_rule (codes "explain") }
    ensures local { result.global ≡ false }
{
    let help =
        "Says on standard error why it failed and what can be done, as it does on a terminal";
    flag(alloc, "explain", help)
}

/// A command without arguments yet.
pub(crate) fn command<'a>(
    alloc: Global,
    name: &'a str,
    about: &'a str,
    usage: &'a str,
) -> Command<'a>
    ensures app { app_of result ≡ new_app name.entry.now }
    ensures local { (out-Command result).has_globals ≡ false }
{
    Command::new(alloc, name).about(about).override_usage(usage)
}
