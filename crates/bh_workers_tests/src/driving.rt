//! Services that are driven: what is asked of them, their dependencies and clocks, and what is asserted of their answers
//! and accounts.

ghost use Rattle.std.specs.Prelude.{◌≡◌, ◌≤◌, ◌^◌, length};
ghost use Rattle.bh_base.specs.Ranges.{IsInRange};

use crate::accounts::end_text;
use crate::gates::Gate;
use bh_audit::{AuditReport, Clock, Pass, Shared};
use bh_base::{
    Answer, CallError, Cause, FallbackEnd, GroupId, GroupProps, Moment, Request, RunEnd, Text,
};
use bh_scripts::samples::{own_request, text};
use bh_scripts::words::{number, split_word};
use bh_services::services::service_of_two;
use bh_workers::{Dependency, Driven, Pace, RequestList, call, drive};
use std::alloc::{AllocError, Global};
use std::process::Abort;
use std::sync::Wait;
use std::thread::Threads;
use std::{rt, thread};

/// An audited service of two groups.
pub(crate) fn service<R: Abort + AllocGlobal>(
    rt: &R,
    first: GroupProps,
    second: GroupProps,
    steps: u64,
) -> Shared
    requires first { IsInRange first }
    requires second { IsInRange second }
    requires some { 1 ≤ steps }
    requires few { steps ≤ 2 ^ 40 }
{
    service_of_two(rt.alloc(), first, second, steps).expect(rt, "memory")
}

/// A request that is not cached.
pub(crate) fn request(arg: &str) -> Request
    requires fits { length arg.now ≤ 64 }
{
    own_request(None, text(arg))
}

/// The argument of the word, and the number behind `@` that may name a further command.
fn parts_of(word: &str) -> Option<(&str, u8)> {
    let (arg, command) = word.split_once('@').unwrap_or((word, "0"));
    Some((arg, command.parse::<u8>().ok()?))
}

/// The requests of these words to the group.
pub(crate) fn requests(alloc: Global, words: &str) -> Option<Vec<Request>> {
    let mut requests = Vec::new(alloc);
    for word in words.split_whitespace() {
        let (arg, command) = parts_of(word)?;
        let arg = Text::new(arg).ok()?;
        let request = Request {
            command,
            cache: None,
            arg,
        };
        requests.push(request).ok()?;
    }
    Some(requests)
}

/// For each line a list of requests: the number of the group, and their words.
pub(crate) fn lists(alloc: Global, lines: &str) -> Option<Vec<RequestList>> {
    let mut lists = Vec::new(alloc);
    for line in lines.lines() {
        let (group, words) = split_word(line);
        let requests = requests(alloc, words)?;
        let group = GroupId(number(group));
        lists.push(RequestList { group, requests }).ok()?;
    }
    Some(lists)
}

pub(crate) fn answer_text(
    alloc: Global,
    answer: &Result<Answer, CallError>,
) -> Result<String, AllocError> {
    match answer {
        Ok(Answer::Value(body)) => format!(in alloc; "{}", body.as_str()),
        Ok(Answer::FallbackValue { cause, body }) => format!(in alloc;
            "{cause:?}:{}",
            body.as_str()
        ),
        other => format!(in alloc; "{other:?}"),
    }
}

/// The answers of one list, with a blank between them.
fn list_text(alloc: Global, answers: &[Result<Answer, CallError>]) -> Result<String, AllocError> {
    let mut text = String::new(alloc);
    for (i, answer) in answers.iter().enumerate() {
        text.push_str(if i == 0 { "" } else { " " })?;
        text.push_str(answer_text(alloc, answer)?.as_str())?;
    }
    Ok(text)
}

/// Asserts that the text was made, and is the other.
pub(crate) fn assert_text<R: Abort>(
    rt: &R,
    told: Result<String, AllocError>,
    want: &str,
    at: &str,
) {
    let told = told.expect(rt, "memory");
    assert_eq!(rt; told.as_str(), want, "at {at}");
}

/// Asserts that the numbers are the same.
pub(crate) fn assert_number<R: Abort>(rt: &R, told: u64, want: u64) {
    assert_eq!(rt; told, want);
}

/// Asserts what the end of the service says with these passes.
pub(crate) fn assert_end<R: Abort + AllocGlobal>(
    rt: &R,
    shared: Shared,
    passes: Vec<Pass>,
    want: &str,
) {
    let finished = shared.finish(rt.alloc(), passes);
    assert_text(rt, end_text(rt.alloc(), &finished), want, "the end");
}

/// The answers of all lists, each on a line of its own.
fn answers_text(alloc: Global, driven: &Driven) -> Result<String, AllocError> {
    let mut text = String::new(alloc);
    for own in driven.answers.iter() {
        text.push_str(list_text(alloc, own.as_slice())?.as_str())?;
        text.push_str("\n")?;
    }
    Ok(text)
}

/// For each group and number a list of so many equal requests.
pub(crate) fn same_lists(alloc: Global, wanted: &[(GroupId, u64)]) -> Option<Vec<RequestList>> {
    let mut lists = Vec::new(alloc);
    for (group, number) in wanted {
        let group = *group;
        let requests = same_requests(alloc, *number)?;
        lists.push(RequestList { group, requests }).ok()?;
    }
    Some(lists)
}

fn same_requests(alloc: Global, number: u64) -> Option<Vec<Request>> {
    let mut requests = Vec::new(alloc);
    for _ in 0..number {
        let arg = Text::new("x").ok()?;
        requests.push(own_request(None, arg)).ok()?;
    }
    Some(requests)
}

/// Drives the lists, with room for so many receipts in each pass.
pub(crate) fn drive_lists<
    R: Threads + Wait + Sync + Abort + AllocGlobal,
    D: Dependency + Sync,
    C: Clock + Sync,
>(rt: &R, shared: &Shared, dependency: &D, clock: &C, lists: &[RequestList], room: u64) -> Driven {
    let driven = drive(
        rt,
        rt.alloc(),
        shared,
        dependency,
        clock,
        Steady,
        lists,
        room,
    );
    driven.expect(rt, "a drive")
}

/// Drives the lists with room for so many receipts in each pass, asserts their answers, and hands out the passes.
pub(crate) fn assert_drive<
    R: Threads + Wait + Sync + Abort + AllocGlobal,
    D: Dependency + Sync,
    C: Clock + Sync,
>(
    rt: &R,
    shared: &Shared,
    dependency: &D,
    clock: &C,
    room: u64,
    asked: &str,
    want: &str,
) -> Vec<Pass> {
    let lists = lists(rt.alloc(), asked).expect(rt, "memory");
    let driven = drive_lists(rt, shared, dependency, clock, lists.as_slice(), room);
    assert_text(rt, answers_text(rt.alloc(), &driven), want, asked);
    driven.passes
}

/// The service's account, which has to agree with the passes.
pub(crate) fn report_of<R: Abort + AllocGlobal>(
    rt: &R,
    shared: Shared,
    passes: Vec<Pass>,
) -> AuditReport {
    let report = shared.finish(rt.alloc(), passes).ok();
    report.expect(rt, "the passes agree")
}

/// Asserts that the service's account agrees with the passes.
pub(crate) fn assert_agreed<R: Abort + AllocGlobal>(rt: &R, shared: Shared, passes: Vec<Pass>) {
    assert!(rt; shared.finish(rt.alloc(), passes).is_ok());
}

/// Asserts what a call with the argument x is answered.
pub(crate) fn assert_call<R: Wait + Abort + AllocGlobal, D: Dependency>(
    rt: &R,
    shared: &Shared,
    pass: &mut Pass,
    dependency: &D,
    want: &str,
) {
    let answer = call(rt, shared, pass, dependency, &Still, request("x"));
    assert_text(rt, answer_text(rt.alloc(), &answer), want, "the call");
}

/// Always says 0.
#[derive(Drop)]
pub(crate) struct Still;

impl Clock for Still {
    ghost moments = { λ moment. moment ≡ 0 };

    fn now(&self) -> Moment {
        0
    }
}

/// Goes on as long as it is asked, and lets other threads run.
#[derive(Drop)]
pub(crate) struct Steady;

impl Pace for Steady {
    fn go_on(&mut self) -> bool {
        thread::yield_now();
        true
    }
}

/// Success, with the argument.
pub(crate) fn success(arg: &Text<64>) -> RunEnd {
    match Text::new(arg.as_str()) {
        Ok(body) => RunEnd::Success(body),
        Err(_) => RunEnd::Failure,
    }
}

/// Answers each run with its argument.
#[derive(Drop)]
pub(crate) struct Echo;

impl Dependency for Echo {
    ghost ends = { λ group command arg end. Unit {0} };

    ghost fallback_ends = { λ group command cause arg end. Unit {0} };

    fn run(&self, _group: GroupId, _command: u8, arg: &Text<64>) -> RunEnd {
        success(arg)
    }

    fn fallback(
        &self,
        _group: GroupId,
        _command: u8,
        _cause: Cause,
        _arg: &Text<64>,
    ) -> FallbackEnd {
        FallbackEnd::Missing
    }
}

/// Success with the argument, once so many have come to the gate. A failure where it gave up.
pub(crate) fn success_after<R: rt::Clock>(
    gate: &Gate<'_, R>,
    least: u64,
    arg: &Text<64>,
) -> RunEnd {
    if gate.wait(least) {
        success(arg)
    } else {
        RunEnd::Failure
    }
}

/// Asserts that nobody gave up at the gate.
pub(crate) fn assert_passed<R: rt::Clock + Abort>(rt: &R, gate: &Gate<'_, R>) {
    assert!(rt;
        gate.given_up() == 0,
        "gave up waiting, {} have come: {}",
        gate.count(),
        gate.name()
    );
}
