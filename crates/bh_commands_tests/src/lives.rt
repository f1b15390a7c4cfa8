//! Scripts in which groups come and go.

use crate::runs::{assert_bytes, assert_end};
use crate::scripts::assert_scripts;
use bh_commands::run_file;
use std::process::Abort;

const LIVES: &str = r#"a group goes when nobody uses it, and its slot is there for another
service.groups = ["a"]
service.slots.a = 1

{"op":"submit","group":"a","now":0,"arg":"x","context":1,"key":"k"} -> {"reply":"queued","ticket":1}
{"op":"retire","group":"a"} -> {"reply":"held"}
{"op":"start","group":"a","now":0} -> {"arg":"x","reply":"assigned","ticket":1}
{"op":"retire","group":"a"} -> {"reply":"held"}
{"op":"finish","group":"a","now":0,"ticket":1,"body":"r"} -> {"reply":"done"}
{"op":"retire","group":"a"} -> {"reply":"held"}
{"op":"collect","group":"a","now":0,"ticket":1} -> {"body":"r","reply":"value"}
{"op":"retire","group":"a"} -> {"reply":"retired"}
{"op":"submit","group":"a","now":1,"arg":"y"} -> {"error":"group"}
{"op":"retire","group":"a"} -> {"error":"group"}
{"op":"register","group":"c","like":"a"} -> {"group":"c","reply":"registered"}
{"op":"submit","group":"c","now":0,"arg":"x","context":1,"key":"k"} -> {"reply":"queued","ticket":1}
{"op":"read","group":"c","now":0} -> {"busy":0,"circuit":"closed","errors":0,"events":{},"free":0,"percent":0,"queued":1,"reply":"metrics","total":0}
{"op":"register","group":"a","like":"a"} -> {"group":"a","reply":"registered"}
{"op":"submit","group":"a","now":0,"arg":"y"} -> {"reply":"queued","ticket":1}
{"op":"submit","group":"a","now":0,"arg":"y"} -> {"reply":"group-full"}


a group that comes has the commands of the other, and its own by its own name
service.groups = ["a", "b"]
service.command.r.group = "a"
hystrix.command.r.execution.isolation.strategy = "SEMAPHORE"

{"op":"register","group":"c","like":"a"} -> {"group":"c","reply":"registered"}
{"op":"submit","group":"c","command":"c","now":0,"arg":"x"} -> {"reply":"queued","ticket":1}
{"op":"submit","group":"c","command":"r","now":0,"arg":"y"} -> {"reply":"inline","ticket":2}
{"op":"submit","group":"c","command":"a","now":0,"arg":"z"} -> {"error":"command"}
{"op":"submit","group":"a","command":"c","now":0,"arg":"z"} -> {"error":"command"}
{"op":"submit","group":"a","command":"a","now":0,"arg":"z"} -> {"reply":"queued","ticket":1}
{"op":"start","group":"c","now":0} -> {"arg":"x","reply":"assigned","ticket":1}
{"op":"register","group":"d","like":"b"} -> {"group":"d","reply":"registered"}
{"op":"read","group":"d","command":"r","now":0} -> {"error":"command"}
{"op":"retire","group":"a"} -> {"reply":"held"}


a further command that waits is told by its name in each group that has it
service.groups = ["a"]
service.command.r.group = "a"

{"op":"register","group":"c","like":"a"} -> {"group":"c","reply":"registered"}
{"op":"submit","group":"c","command":"r","now":0,"arg":"x"} -> {"reply":"queued","ticket":1}
{"op":"submit","group":"a","command":"r","now":0,"arg":"y"} -> {"reply":"queued","ticket":1}
{"op":"start","group":"c","now":0} -> {"arg":"x","command":"r","reply":"assigned","ticket":1}
{"op":"start","group":"a","now":0} -> {"arg":"y","command":"r","reply":"assigned","ticket":1}


what is no name, is there, or is a command's is no name for a new group
service.groups = ["a", "b"]
service.command.r.group = "a"

{"op":"register","group":"","like":"a"} -> {"error":"name"}
{"op":"register","group":"default","like":"a"} -> {"error":"name"}
{"op":"register","group":"c d","like":"z"} -> {"error":"name"}
{"op":"register","group":"b","like":"a"} -> {"error":"name"}
{"op":"register","group":"r","like":"a"} -> {"error":"name"}
{"op":"register","group":"aaaaaaaaaabbbbbbbbbbccccccccccddd","like":"a"} -> {"error":"name"}
{"op":"register","group":"aaaaaaaaaabbbbbbbbbbccccccccccdd","like":"a"} -> {"group":"aaaaaaaaaabbbbbbbbbbccccccccccdd","reply":"registered"}
{"op":"register","group":"aaaaaaaaaabbbbbbbbbbccccccccccdd","like":"a"} -> {"error":"name"}
{"op":"retire","group":"aaaaaaaaaabbbbbbbbbbccccccccccddd"} -> {"error":"group"}


a new group is like one of the settings, which may be retired, and like no other
service.groups = ["a", "b"]
service.command.r.group = "a"

{"op":"register","group":"c","like":"a"} -> {"group":"c","reply":"registered"}
{"op":"register","group":"d","like":"c"} -> {"error":"like"}
{"op":"register","group":"d","like":"r"} -> {"error":"like"}
{"op":"register","group":"d","like":""} -> {"error":"like"}
{"op":"register","group":"d","like":"aaaaaaaaaabbbbbbbbbbccccccccccddd"} -> {"error":"like"}
{"op":"start","group":"d","now":0} -> {"error":"group"}
{"op":"retire","group":"b"} -> {"reply":"retired"}
{"op":"start","group":"b","now":0} -> {"error":"group"}
{"op":"register","group":"d","like":"b"} -> {"group":"d","reply":"registered"}
{"op":"start","group":"d","now":0} -> {"reply":"idle"}


a line lacks nothing that it needs
service.groups = ["a"]

{"op":"register","group":"c"} -> {"error":"field"}
{"op":"register","like":"a"} -> {"error":"field"}
{"op":"register","group":1,"like":"a"} -> {"error":"field"}
{"op":"register","group":"a","like":true} -> {"error":"field"}
{"op":"retire"} -> {"error":"field"}
{"op":"retire","group":["a"]} -> {"error":"field"}
{"op":"retired","group":"a"} -> {"error":"op"}
{"op":"retire","group":"a","now":"soon","like":1} -> {"reply":"retired"}
{"op":"register","group":"a","like":"a","now":-1} -> {"group":"a","reply":"registered"}


a group that comes begins anew, with all its steps
service.groups = ["a"]
service.auditSteps = 1

{"op":"start","group":"a","now":1000} -> {"reply":"idle"}
{"op":"start","group":"a","now":1000} -> {"reply":"worn"}
{"op":"retire","group":"a"} -> {"reply":"retired"}
{"op":"register","group":"a","like":"a"} -> {"group":"a","reply":"registered"}
{"op":"start","group":"a","now":0} -> {"reply":"idle"}
{"op":"start","group":"a","now":0} -> {"reply":"worn"}


a run that has timed out is still used, a run of examples/come-and-go
service.groups = ["catalog", "tenant"]
hystrix.threadpool.tenant.coreSize = 1
hystrix.command.tenant.fallback.enabled = false

{"op":"register","group":"tenant-7","like":"tenant"} -> {"group":"tenant-7","reply":"registered"}
{"op":"submit","group":"tenant-7","now":0,"arg":"order 1"} -> {"reply":"queued","ticket":1}
{"op":"retire","group":"tenant-7"} -> {"reply":"held"}
{"op":"start","group":"tenant-7","now":1} -> {"arg":"order 1","reply":"assigned","ticket":1}
{"op":"expire","group":"tenant-7","now":1000} -> {"count":1,"reply":"expired"}
{"op":"collect","group":"tenant-7","now":1000,"ticket":1} -> {"cause":"timeout","fallback":"disabled","reply":"error"}
{"op":"retire","group":"tenant-7"} -> {"reply":"held"}
{"op":"finish","group":"tenant-7","now":1400,"ticket":1,"body":"late"} -> {"reply":"late"}
{"op":"retire","group":"tenant-7"} -> {"reply":"retired"}
{"op":"submit","group":"tenant-7","now":1500,"arg":"order 2"} -> {"error":"group"}
{"op":"submit","group":"catalog","now":1500,"arg":"item 5"} -> {"reply":"queued","ticket":1}
{"op":"register","group":"tenant-7","like":"tenant"} -> {"group":"tenant-7","reply":"registered"}
{"op":"read","group":"tenant-7","now":1600} -> {"busy":0,"circuit":"closed","errors":0,"events":{},"free":64,"percent":0,"queued":0,"reply":"metrics","total":0}
{"op":"register","group":"tenant-8","like":"customer"} -> {"error":"like"}"#;

#[test]
fn groups_come_and_go(rt: HostRuntime) {
    assert_scripts(&rt, LIVES);
}

/// The settings of a service of the one group a.
const ONE_GROUP: &str = "service.groups = [\"a\"]\n";

const COMES_AND_IS_USED: &str = "{\"op\":\"register\",\"group\":\"c\",\"like\":\"a\"}
{\"op\":\"submit\",\"group\":\"c\",\"now\":0,\"arg\":\"x\"}
{\"op\":\"start\",\"group\":\"a\",\"now\":0}
";

const CAME_AND_WAS_USED: &str = "{\"group\":\"c\",\"reply\":\"registered\"}
{\"reply\":\"queued\",\"ticket\":1}
{\"reply\":\"idle\"}
";

const COMES_AND_GOES: &str = "{\"op\":\"register\",\"group\":\"c\",\"like\":\"a\"}
{\"op\":\"retire\",\"group\":\"c\"}
";

const CAME_AND_WENT: &str = "{\"group\":\"c\",\"reply\":\"registered\"}\n{\"reply\":\"retired\"}\n";

/// The text so many times, and the end.
fn times<R: Abort + AllocGlobal>(rt: &R, count: u64, text: &str, end: &str) -> String {
    let mut all = String::new(rt.alloc());
    for _ in 0..count {
        all.push_str(text).expect(rt, "memory");
    }
    all.push_str(end).expect(rt, "memory");
    all
}

#[test]
fn more_groups_come_and_go_than_there_is_room_for_at_a_time(rt: HostRuntime) {
    let input = times(&rt, 70_000, COMES_AND_GOES, COMES_AND_IS_USED);
    let output = times(&rt, 70_000, CAME_AND_WENT, CAME_AND_WAS_USED);
    let mut reader: &[u8] = input.as_str().as_bytes();
    let (mut written, mut reported) = (Vec::new(rt.alloc()), Vec::new(rt.alloc()));
    let status = run_file(
        rt.alloc(),
        ONE_GROUP.as_bytes(),
        &mut reader,
        &mut written,
        &mut reported,
    );
    assert_end(&rt, status, 0);
    assert_bytes(&rt, &written, output.as_str(), "the output");
}
