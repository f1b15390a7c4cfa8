//! `bulkhead`: a command service in groups, each with slots and workers of its own, and a circuit breaker for each command.
#![tactic(auto)]

use bh_arguments::run_program;
use bh_commands::StandIns;
use std::process::ExitCode;
use std::{env, io};

/// Does what the arguments say, and ends with its exit status. Standard streams that are closed are opened first.
fn main(rt: HostRuntime) -> ExitCode {
    let streams = StandIns::open(&rt);
    let status = run_program(&rt, &rt, arguments(&rt));
    drop(streams);
    ExitCode::from(status)
}

/// The arguments of the program, its name first.
fn arguments(rt: &HostRuntime) -> io::Result<Vec<String>> {
    let arguments: Vec<String> = env::args(rt)?.collect(rt.alloc())?;
    Ok(arguments)
}
