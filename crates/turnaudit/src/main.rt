//! turnaudit judges captures of a TURN server.
#![tactic(auto)]

mod files;

use audit_finder::WalkAndPasses;
use audit_program::run;
use files::HostFiles;
use host::{HostStream, arguments, hold_stream, refuse_arguments, refuse_memory, refuse_seed};
use std::hash::RandomState;
use std::process::ExitCode;

/// The name that its reports begin with.
const PROGRAM: &str = "turnaudit";

fn main(rt: HostRuntime) -> ExitCode {
    let _streams = (hold_stream(&rt), hold_stream(&rt), hold_stream(&rt));
    let alloc = rt.alloc();
    let mut out = HostStream::new(rt.stdout());
    let mut err = HostStream::new(rt.stderr());
    let status = match arguments(&rt) {
        Ok(words) => match (HostFiles::new(&rt), RandomState::new(&rt)) {
            (Ok(mut files), Ok(seed)) => run(
                &rt,
                alloc,
                &WalkAndPasses::new(seed),
                &words,
                &mut files,
                &mut out,
                &mut err,
            ),
            (Err(_), _) => refuse_memory(PROGRAM, &mut err),
            (_, Err(_)) => refuse_seed(PROGRAM, &mut err),
        },
        Err(error) => refuse_arguments(PROGRAM, &error, &mut err),
    };
    ExitCode::from(status)
}
