//! The program `anvilwater`: reads blocks of Minecraft's region files, says what is wrong with them, and runs them.
#![tactic(auto)]

use av_folders::FolderSink;
use std::io::IsTerminal;
use std::process::ExitCode;

fn main(rt: HostRuntime) -> ExitCode {
    let is_terminal = rt.stderr().is_terminal();
    let mut folder = FolderSink::new(&rt);
    let status = av_program::run(
        &rt,
        is_terminal,
        &mut folder,
        &mut rt.stdout(),
        &mut rt.stderr(),
    );
    ExitCode::from(status)
}
