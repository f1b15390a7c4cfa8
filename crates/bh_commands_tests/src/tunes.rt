//! Scripts in which properties change while a group runs, and the numbers of all events are asked for.

use crate::scripts::assert_scripts;

/// What is under way when a property changes.
const TUNES: &str = r#"a circuit is held open by hand and let go
service.groups = ["a"]
service.command.c.group = "a"

{"op":"submit","group":"a","now":0,"arg":"x"} -> {"reply":"queued","ticket":1}
{"op":"tune","group":"a","now":1,"property":"circuitBreaker.forceOpen","value":true} -> {"reply":"tuned"}
{"op":"submit","group":"a","now":1,"arg":"y"} -> {"cause":"short-circuited","reply":"fallback-due","ticket":2}
{"op":"submit","group":"a","now":1,"arg":"y","command":"c"} -> {"reply":"queued","ticket":3}
{"op":"start","group":"a","now":2} -> {"arg":"x","reply":"assigned","ticket":1}
{"op":"finish","group":"a","now":2,"ticket":1,"body":"r"} -> {"reply":"done"}
{"op":"tune","group":"a","now":3,"command":"a","property":"circuitBreaker.forceOpen","value":false} -> {"reply":"tuned"}
{"op":"submit","group":"a","now":3,"arg":"z"} -> {"reply":"queued","ticket":4}
{"op":"read","group":"a","now":3} -> {"busy":0,"circuit":"closed","errors":0,"events":{"SHORT_CIRCUITED":1,"SUCCESS":1},"free":60,"percent":0,"queued":1,"reply":"metrics","total":1}


a timeout is shortened for the runs under way
service.groups = ["a"]

{"op":"submit","group":"a","now":0,"arg":"x"} -> {"reply":"queued","ticket":1}
{"op":"start","group":"a","now":0} -> {"arg":"x","reply":"assigned","ticket":1}
{"op":"tune","group":"a","now":100,"property":"execution.isolation.thread.timeoutInMilliseconds","value":100} -> {"reply":"tuned"}
{"op":"expire","group":"a","now":100} -> {"count":1,"reply":"expired"}
{"op":"tune","group":"a","now":100,"property":"execution.timeout.enabled","value":false} -> {"reply":"tuned"}
{"op":"submit","group":"a","now":100,"arg":"y"} -> {"reply":"queued","ticket":2}
{"op":"expire","group":"a","now":999999} -> {"count":0,"reply":"expired"}


a pool gets a worker more
service.groups = ["a", "b"]
hystrix.threadpool.default.coreSize = 1

{"op":"submit","group":"a","now":0,"arg":"x"} -> {"reply":"queued","ticket":1}
{"op":"submit","group":"a","now":0,"arg":"y"} -> {"cause":"thread-pool-rejected","reply":"fallback-due","ticket":2}
{"op":"tune","group":"a","now":0,"property":"coreSize","value":2} -> {"reply":"tuned"}
{"op":"submit","group":"a","now":0,"arg":"y"} -> {"reply":"queued","ticket":3}
{"op":"submit","group":"b","now":0,"arg":"x"} -> {"reply":"queued","ticket":1}
{"op":"submit","group":"b","now":0,"arg":"y"} -> {"cause":"thread-pool-rejected","reply":"fallback-due","ticket":2}


a tune of a further command
service.groups = ["a"]
service.command.c.group = "a"
hystrix.command.c.execution.isolation.strategy = "SEMAPHORE"

{"op":"tune","group":"a","now":0,"command":"c","property":"execution.isolation.semaphore.maxConcurrentRequests","value":1} -> {"reply":"tuned"}
{"op":"submit","group":"a","now":0,"command":"c","arg":"x"} -> {"reply":"inline","ticket":1}
{"op":"submit","group":"a","now":0,"command":"c","arg":"x"} -> {"cause":"semaphore-rejected","reply":"fallback-due","ticket":2}
{"op":"tune","group":"a","now":0,"command":"c","property":"fallback.enabled","value":false} -> {"reply":"tuned"}
{"op":"collect","group":"a","now":0,"ticket":2} -> {"cause":"semaphore-rejected","fallback":"disabled","reply":"error"}


each tune is a step
service.groups = ["a"]
service.auditSteps = 1

{"op":"tune","group":"a","now":0,"property":"requestCache.enabled","value":false} -> {"reply":"tuned"}
{"op":"tune","group":"a","now":0,"property":"requestCache.enabled","value":true} -> {"reply":"worn"}


a tenant has the settings of the group that it is like, whatever was changed since
service.groups = ["a"]

{"op":"tune","group":"a","now":0,"property":"circuitBreaker.forceOpen","value":true} -> {"reply":"tuned"}
{"op":"register","group":"t","like":"a"} -> {"group":"t","reply":"registered"}
{"op":"submit","group":"t","now":0,"arg":"x"} -> {"reply":"queued","ticket":1}
{"op":"submit","group":"a","now":0,"arg":"x"} -> {"cause":"short-circuited","reply":"fallback-due","ticket":1}"#;

/// Numbers of all events since the registration.
const TOTALS: &str = r#"totals stay when the window has passed
service.groups = ["a", "b"]
service.command.c.group = "a"

{"op":"totals","group":"a","now":0} -> {"events":{},"reply":"totals"}
{"op":"submit","group":"a","now":0,"arg":"x"} -> {"reply":"queued","ticket":1}
{"op":"submit","group":"a","now":0,"arg":"y","command":"c"} -> {"reply":"queued","ticket":2}
{"op":"expire","group":"a","now":2000} -> {"count":2,"reply":"expired"}
{"op":"submit","group":"a","now":90000,"arg":"z"} -> {"reply":"queued","ticket":3}
{"op":"expire","group":"a","now":99000} -> {"count":1,"reply":"expired"}
{"op":"read","group":"a","now":500000} -> {"busy":0,"circuit":"closed","errors":0,"events":{},"free":61,"percent":0,"queued":0,"reply":"metrics","total":0}
{"op":"totals","group":"a","now":500000} -> {"events":{"TIMEOUT":2},"reply":"totals"}
{"op":"totals","group":"a","now":500000,"command":"c"} -> {"events":{"TIMEOUT":1},"reply":"totals"}
{"op":"totals","group":"b","now":0} -> {"events":{},"reply":"totals"}


a group that comes again counts from 0
service.groups = ["a"]

{"op":"register","group":"t","like":"a"} -> {"group":"t","reply":"registered"}
{"op":"submit","group":"t","now":0,"arg":"x"} -> {"reply":"queued","ticket":1}
{"op":"expire","group":"t","now":1000} -> {"count":1,"reply":"expired"}
{"op":"collect","group":"t","now":1000,"ticket":1} -> {"cause":"timeout","reply":"run-fallback"}
{"op":"fallback","group":"t","now":1000,"ticket":1,"end":"missing"} -> {"reply":"done"}
{"op":"collect","group":"t","now":1000,"ticket":1} -> {"cause":"timeout","fallback":"missing","reply":"error"}
{"op":"totals","group":"t","now":1000} -> {"events":{"EXCEPTION_THROWN":1,"FALLBACK_MISSING":1,"TIMEOUT":1},"reply":"totals"}
{"op":"retire","group":"t"} -> {"reply":"retired"}
{"op":"register","group":"t","like":"a"} -> {"group":"t","reply":"registered"}
{"op":"totals","group":"t","now":1000} -> {"events":{},"reply":"totals"}"#;

#[test]
fn properties_change_while_a_group_runs(rt: HostRuntime) {
    assert_scripts(&rt, TUNES);
}

#[test]
fn totals_count_from_the_registration_on(rt: HostRuntime) {
    assert_scripts(&rt, TOTALS);
}
