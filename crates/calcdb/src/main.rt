//! The program `calcdb`: it runs scripts of calls and checkpoints on an engine's core, loads pairs as
//! images, merges images, recovers tables from images and logs, and prints both.
//!
//! The definitions are in `specs/`: the text of a script (`Lines`, `LineByLine`, `Values`,
//! `Instructions`, `Preambles`, `Commands`, `ThreadCommands`, `Scripts`), the text of answers (`Output`,
//! `Reasons`), what commands do to a core (`Runs`), how a run ends (`Outcomes`), what a journal has of it
//! (`Journals`), its folder that is kept up (`LiveRuns`), the image of a text of pairs (`Pairs`), what files of images say, merged and recovered
//! with a log (`ImageFiles`, `Merging`, `Recovering`, `OwnFiles`), what a file prints (`Showing`), how
//! these commands end (`Refusing`), the files that a run leaves (`RunFiles`), the statuses and the fixed
//! lines of standard error (`Failures`), and the command line (`CommandLines`).
#![tactic(auto)]

mod command_line;
mod command_queue;
mod commands;
mod core_audits;
mod digesting;
mod engine;
mod faults;
mod files;
mod help_notes;
mod instructions;
mod journals;
mod laws;
mod line_by_line;
mod lines;
mod live_files;
mod live_runs;
mod looking;
mod merge_files;
mod names;
mod new_files;
mod other_images;
mod output;
mod pairs;
mod plans;
mod preambles;
mod program;
mod progress;
mod recover_files;
mod run;
mod run_folder;
mod run_task;
mod scripts;
mod show;
mod sinks;
mod tasks;
mod thread_commands;
mod thread_journals;
mod thread_output;
mod threads;
mod values;

use std::process::ExitCode;

fn main(rt: HostRuntime) -> ExitCode {
    let mut stdin = rt.stdin();
    let mut err = rt.stderr();
    ExitCode::from(program::start(
        rt.alloc(),
        &rt,
        &rt,
        &rt,
        &rt,
        &mut stdin,
        rt.stdout(),
        &mut err,
    ))
}
