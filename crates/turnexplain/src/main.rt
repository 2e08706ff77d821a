//! turnexplain explains a verdict of turnaudit.
#![tactic(auto)]

mod files;

use audit_finder::WalkAndPasses;
use explain_program::run;
use files::{HostFiles, HostPage};
use host::{arguments, hold_stream, refuse_arguments, refuse_seed};
use host_progress::{Progress, WatchedStream};
use std::hash::RandomState;
use std::process::ExitCode;

/// The name that its reports begin with.
const PROGRAM: &str = "turnexplain";

fn main(rt: HostRuntime) -> ExitCode {
    let _streams = (hold_stream(&rt), hold_stream(&rt), hold_stream(&rt));
    let alloc = rt.alloc();
    let progress = Progress::new(&rt, alloc, PROGRAM);
    let mut out = WatchedStream::new(rt.stdout(), &progress);
    let mut err = WatchedStream::new(rt.stderr(), &progress);
    let status = match arguments(&rt) {
        Ok(words) => match RandomState::new(&rt) {
            Ok(seed) => {
                let mut pages = HostPage::new(&rt, alloc);
                run(
                    &rt,
                    alloc,
                    &WalkAndPasses::new(seed),
                    &words,
                    HostFiles::new(&rt, &progress),
                    &mut pages,
                    &mut out,
                    &mut err,
                )
            }
            Err(_) => refuse_seed(PROGRAM, &mut err),
        },
        Err(error) => refuse_arguments(PROGRAM, &error, &mut err),
    };
    progress.clear();
    ExitCode::from(status)
}
