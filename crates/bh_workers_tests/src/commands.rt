//! Groups of several commands: who runs each of them, and what runs and fallbacks are told.

ghost use Rattle.bh_base.specs.Ranges.{IsInRange};

use crate::driving::{Still, assert_drive, assert_end, assert_number, service};
use crate::samples::props_with_two;
use bh_base::{Cause, FallbackEnd, GroupId, GroupProps, RunEnd, Text};
use bh_scripts::samples::{command, command_by_callers, text};
use bh_services::services::{A, B};
use bh_workers::Dependency;
use std::process::Abort;

/// A group whose own command its callers run, and a further one its workers.
fn further_by_workers<R: Abort + AllocGlobal>(rt: &R) -> GroupProps
    ensures { IsInRange result }
{
    props_with_two(rt, command_by_callers(), command())
}

#[test]
fn a_group_has_workers_where_any_of_its_commands_wants_them(rt: HostRuntime) {
    let none = props_with_two(&rt, command_by_callers(), command_by_callers());
    let shared = service(&rt, further_by_workers(&rt), none, 10);
    assert_number(&rt, shared.workers(&rt, A), 10);
    assert_number(&rt, shared.workers(&rt, B), 0);
}

/// Answers with the name of the command that was run, by its fallback where the argument is `fail`.
#[derive(Drop)]
struct NamesCommand;

/// What stands for the command in an answer.
fn name_of(command: u8) -> Text<256> {
    match command {
        0 => text("own"),
        1 => text("further"),
        _ => text("unknown"),
    }
}

impl Dependency for NamesCommand {
    ghost ends = { λ group command arg end. Unit {0} };

    ghost fallback_ends = { λ group command cause arg end. Unit {0} };

    fn run(&self, _group: GroupId, command: u8, arg: &Text<64>) -> RunEnd {
        match arg.as_str() {
            "fail" => RunEnd::Failure,
            _ => RunEnd::Success(name_of(command)),
        }
    }

    fn fallback(
        &self,
        _group: GroupId,
        command: u8,
        _cause: Cause,
        _arg: &Text<64>,
    ) -> FallbackEnd {
        FallbackEnd::Success(name_of(command))
    }
}

const ASKED: &str = "0 x x@1 x@2 fail@1 fail
1 x x@1 x@2 fail@1 fail";

const ANSWERED: &str = "own further Err(NoCommand) Failure:further Failure:own
own further Err(NoCommand) Failure:further Failure:own
";

#[test]
fn runs_and_fallbacks_are_told_their_command(rt: HostRuntime) {
    let further_by_callers = props_with_two(&rt, command(), command_by_callers());
    let shared = service(&rt, further_by_callers, further_by_workers(&rt), 100);
    let passes = assert_drive(&rt, &shared, &NamesCommand, &Still, 100, ASKED, ANSWERED);
    // A run by a worker is four steps, or six with a fallback, and one by its caller a step less.
    assert_end(
        &rt,
        shared,
        passes,
        "18 of 100 changed, 18 of 100 changed, stopped",
    );
}
