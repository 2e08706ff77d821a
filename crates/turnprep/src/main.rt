//! turnprep makes captures and a policy ready for turnaudit.
#![tactic(auto)]

mod files;
mod folders;

use files::{HostFiles, HostMaker};
use folders::HostFolders;
use host::{arguments, hold_stream, refuse_arguments};
use host_progress::{Progress, WatchedStream};
use prep_program::run;
use std::process::ExitCode;

/// The name that its reports begin with.
const PROGRAM: &str = "turnprep";

fn main(rt: HostRuntime) -> ExitCode {
    let _streams = (hold_stream(&rt), hold_stream(&rt), hold_stream(&rt));
    let alloc = rt.alloc();
    let progress = Progress::new(&rt, alloc, PROGRAM);
    let mut out = WatchedStream::new(rt.stdout(), &progress);
    let mut err = WatchedStream::new(rt.stderr(), &progress);
    let status = match arguments(&rt) {
        Ok(words) => run(
            &rt,
            &words,
            &mut HostFiles::new(&rt, alloc, &progress),
            &mut HostMaker::new(&rt, alloc),
            &mut HostFolders::new(&rt, alloc),
            &mut out,
            &mut err,
        ),
        Err(error) => refuse_arguments(PROGRAM, &error, &mut err),
    };
    progress.clear();
    ExitCode::from(status)
}
