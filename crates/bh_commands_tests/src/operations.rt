//! Scripts of all operations, each under properties of its own.

use crate::scripts::assert_scripts;

/// Groups have tickets, slots, clocks and steps of their own.
const GROUPS: &str = r#"an empty input
service.groups = ["a"]


two groups, one ticket each
service.groups = ["a", "b"]

{"op":"submit","group":"a","now":0,"arg":"x"} -> {"reply":"queued","ticket":1}
{"op":"submit","group":"b","now":0,"arg":"y"} -> {"reply":"queued","ticket":1}
{"op":"start","group":"a","now":1} -> {"arg":"x","reply":"assigned","ticket":1}
{"op":"start","group":"b","now":1} -> {"arg":"y","reply":"assigned","ticket":1}
{"op":"finish","group":"a","now":2,"ticket":1,"body":"one"} -> {"reply":"done"}
{"op":"finish","group":"b","now":2,"ticket":1,"body":"two"} -> {"reply":"done"}
{"op":"collect","group":"a","now":3,"ticket":1} -> {"body":"one","reply":"value"}
{"op":"collect","group":"b","now":3,"ticket":1} -> {"body":"two","reply":"value"}


each group has its own clock, which never turns back
service.groups = ["a", "b"]

{"op":"submit","group":"a","now":5000,"arg":"x"} -> {"reply":"queued","ticket":1}
{"op":"submit","group":"b","now":100,"arg":"y"} -> {"reply":"queued","ticket":1}
{"op":"submit","group":"a","now":4000,"arg":"z"} -> {"reply":"queued","ticket":2}
{"op":"expire","group":"a","now":5999} -> {"count":0,"reply":"expired"}
{"op":"expire","group":"a","now":6000} -> {"count":2,"reply":"expired"}
{"op":"expire","group":"b","now":1099} -> {"count":0,"reply":"expired"}
{"op":"expire","group":"b","now":1100} -> {"count":1,"reply":"expired"}


a group of one slot
service.groups = ["a", "b"]
service.slots.a = 1

{"op":"submit","group":"a","now":0,"arg":"x","context":1,"key":"k"} -> {"reply":"queued","ticket":1}
{"op":"submit","group":"a","now":0,"arg":"y"} -> {"reply":"group-full"}
{"op":"submit","group":"b","now":0,"arg":"y"} -> {"reply":"queued","ticket":1}
{"op":"start","group":"a","now":0} -> {"arg":"x","reply":"assigned","ticket":1}
{"op":"finish","group":"a","now":1,"ticket":1,"body":"r"} -> {"reply":"done"}
{"op":"collect","group":"a","now":1,"ticket":1} -> {"body":"r","reply":"value"}
{"op":"submit","group":"a","now":2,"arg":"y"} -> {"reply":"group-full"}
{"op":"submit","group":"a","now":2,"arg":"x","context":1,"key":"k"} -> {"reply":"joined","ticket":1}
{"op":"collect","group":"a","now":2,"ticket":1} -> {"body":"r","reply":"value"}
{"op":"close","group":"a","now":3,"context":1} -> {"released":1,"reply":"closed"}
{"op":"submit","group":"a","now":3,"arg":"y"} -> {"reply":"queued","ticket":2}


a group is worn after its audited steps
service.groups = ["a", "b"]
service.auditSteps = 3

{"op":"submit","group":"a","now":0,"arg":"x"} -> {"reply":"queued","ticket":1}
{"op":"start","group":"a","now":0} -> {"arg":"x","reply":"assigned","ticket":1}
{"op":"finish","group":"a","now":0,"ticket":1,"body":"r"} -> {"reply":"done"}
{"op":"collect","group":"a","now":0,"ticket":1} -> {"reply":"worn"}
{"op":"submit","group":"b","now":0,"arg":"y"} -> {"reply":"queued","ticket":1}


the greatest moment
service.groups = ["a"]

{"op":"submit","group":"a","now":18446744073709551615,"arg":"x"} -> {"reply":"queued","ticket":1}
{"op":"expire","group":"a","now":18446744073709551615} -> {"count":0,"reply":"expired"}
{"op":"submit","group":"a","now":5,"arg":"y"} -> {"reply":"queued","ticket":2}
{"op":"read","group":"a","now":18446744073709551615} -> {"busy":0,"circuit":"closed","errors":0,"events":{},"free":62,"percent":0,"queued":2,"reply":"metrics","total":0}"#;

/// Requests are taken on or fall back.
const ADMISSION: &str = r#"a refused request is answered by its fallback
service.groups = ["a"]
hystrix.threadpool.default.coreSize = 1

{"op":"submit","group":"a","now":0,"arg":"x"} -> {"reply":"queued","ticket":1}
{"op":"submit","group":"a","now":0,"arg":"y"} -> {"cause":"thread-pool-rejected","reply":"fallback-due","ticket":2}
{"op":"collect","group":"a","now":1,"ticket":2} -> {"cause":"thread-pool-rejected","reply":"run-fallback"}
{"op":"fallback","group":"a","now":1,"ticket":2,"end":"success","body":"z"} -> {"reply":"done"}
{"op":"collect","group":"a","now":2,"ticket":2} -> {"body":"z","cause":"thread-pool-rejected","reply":"fallback-value"}
{"op":"collect","group":"a","now":2,"ticket":2} -> {"reply":"no-ticket"}
{"op":"read","group":"a","now":2} -> {"busy":0,"circuit":"closed","errors":1,"events":{"FALLBACK_SUCCESS":1,"THREAD_POOL_REJECTED":1},"free":63,"percent":100,"queued":1,"reply":"metrics","total":1}


a queue takes so many, and the pool refuses more
service.groups = ["a"]
hystrix.threadpool.default.coreSize = 1
hystrix.threadpool.default.maxQueueSize = 5
hystrix.threadpool.default.queueSizeRejectionThreshold = 1

{"op":"submit","group":"a","now":0,"arg":"x"} -> {"reply":"queued","ticket":1}
{"op":"submit","group":"a","now":0,"arg":"y"} -> {"reply":"queued","ticket":2}
{"op":"submit","group":"a","now":0,"arg":"z"} -> {"cause":"thread-pool-rejected","reply":"fallback-due","ticket":3}
{"op":"start","group":"a","now":1} -> {"arg":"x","reply":"assigned","ticket":1}
{"op":"start","group":"a","now":1} -> {"reply":"idle"}
{"op":"finish","group":"a","now":2,"ticket":1,"body":"r"} -> {"reply":"done"}
{"op":"start","group":"a","now":3} -> {"arg":"y","reply":"assigned","ticket":2}
{"op":"submit","group":"a","now":3,"arg":"w"} -> {"reply":"queued","ticket":4}


a group without fallbacks, and one with a single permit
service.groups = ["a", "b"]
hystrix.command.default.fallback.enabled = false
hystrix.command.b.execution.isolation.strategy = "SEMAPHORE"
hystrix.command.b.execution.isolation.semaphore.maxConcurrentRequests = 1

{"op":"submit","group":"a","now":0,"arg":"x"} -> {"reply":"queued","ticket":1}
{"op":"start","group":"a","now":0} -> {"arg":"x","reply":"assigned","ticket":1}
{"op":"fail","group":"a","now":1,"ticket":1,"bad":false} -> {"reply":"done"}
{"op":"collect","group":"a","now":2,"ticket":1} -> {"cause":"failure","fallback":"disabled","reply":"error"}
{"op":"read","group":"a","now":2} -> {"busy":0,"circuit":"closed","errors":1,"events":{"EXCEPTION_THROWN":1,"FAILURE":1},"free":64,"percent":100,"queued":0,"reply":"metrics","total":1}
{"op":"submit","group":"b","now":0,"arg":"x"} -> {"reply":"inline","ticket":1}
{"op":"submit","group":"b","now":0,"arg":"y"} -> {"cause":"semaphore-rejected","reply":"fallback-due","ticket":2}
{"op":"finish","group":"b","now":1,"ticket":1,"body":"r"} -> {"reply":"done"}
{"op":"submit","group":"b","now":1,"arg":"z"} -> {"reply":"inline","ticket":3}


a fallback needs a permit and may be missing
service.groups = ["a"]
hystrix.command.default.fallback.isolation.semaphore.maxConcurrentRequests = 1

{"op":"submit","group":"a","now":0,"arg":"x"} -> {"reply":"queued","ticket":1}
{"op":"submit","group":"a","now":0,"arg":"y"} -> {"reply":"queued","ticket":2}
{"op":"start","group":"a","now":0} -> {"arg":"x","reply":"assigned","ticket":1}
{"op":"start","group":"a","now":0} -> {"arg":"y","reply":"assigned","ticket":2}
{"op":"fail","group":"a","now":1,"ticket":1,"bad":false} -> {"reply":"done"}
{"op":"fail","group":"a","now":1,"ticket":2,"bad":false} -> {"reply":"done"}
{"op":"collect","group":"a","now":2,"ticket":1} -> {"cause":"failure","reply":"run-fallback"}
{"op":"collect","group":"a","now":2,"ticket":2} -> {"cause":"failure","fallback":"rejected","reply":"error"}
{"op":"collect","group":"a","now":2,"ticket":1} -> {"reply":"pending"}
{"op":"read","group":"a","now":2} -> {"busy":0,"circuit":"closed","errors":2,"events":{"EXCEPTION_THROWN":1,"FAILURE":2,"FALLBACK_REJECTION":1},"free":63,"percent":100,"queued":0,"reply":"metrics","total":2}
{"op":"fallback","group":"a","now":3,"ticket":1,"end":"missing"} -> {"reply":"done"}
{"op":"collect","group":"a","now":3,"ticket":1} -> {"cause":"failure","fallback":"missing","reply":"error"}
{"op":"fallback","group":"a","now":3,"ticket":1,"end":"missing"} -> {"reply":"not-in-fallback"}


a body beside a failed fallback is not read
service.groups = ["a"]

{"op":"submit","group":"a","now":0,"arg":"x"} -> {"reply":"queued","ticket":1}
{"op":"start","group":"a","now":0} -> {"arg":"x","reply":"assigned","ticket":1}
{"op":"fail","group":"a","now":1,"ticket":1,"bad":false} -> {"reply":"done"}
{"op":"collect","group":"a","now":2,"ticket":1} -> {"cause":"failure","reply":"run-fallback"}
{"op":"fallback","group":"a","now":3,"ticket":1,"end":"failure","body":7} -> {"reply":"done"}
{"op":"collect","group":"a","now":4,"ticket":1} -> {"cause":"failure","fallback":"failed","reply":"error"}"#;

/// Circuits open and close.
const CIRCUITS: &str = r#"half of two runs fail and open the circuit of their command
service.groups = ["a", "b"]
hystrix.command.default.circuitBreaker.requestVolumeThreshold = 2
hystrix.command.default.circuitBreaker.errorThresholdPercentage = 50
hystrix.command.default.metrics.healthSnapshot.intervalInMilliseconds = 0

{"op":"submit","group":"a","now":0,"arg":"p"} -> {"reply":"queued","ticket":1}
{"op":"submit","group":"a","now":0,"arg":"q"} -> {"reply":"queued","ticket":2}
{"op":"start","group":"a","now":1} -> {"arg":"p","reply":"assigned","ticket":1}
{"op":"start","group":"a","now":1} -> {"arg":"q","reply":"assigned","ticket":2}
{"op":"finish","group":"a","now":2,"ticket":1,"body":"r"} -> {"reply":"done"}
{"op":"fail","group":"a","now":2,"ticket":2,"bad":false} -> {"reply":"done"}
{"op":"submit","group":"a","now":3,"arg":"s"} -> {"cause":"short-circuited","reply":"fallback-due","ticket":3}
{"op":"read","group":"a","now":3} -> {"busy":0,"circuit":"open","errors":1,"events":{"FAILURE":1,"SHORT_CIRCUITED":1,"SUCCESS":1},"free":61,"percent":50,"queued":0,"reply":"metrics","total":2}
{"op":"submit","group":"b","now":0,"arg":"p"} -> {"reply":"queued","ticket":1}
{"op":"start","group":"b","now":1} -> {"arg":"p","reply":"assigned","ticket":1}
{"op":"fail","group":"b","now":2,"ticket":1,"bad":false} -> {"reply":"done"}
{"op":"submit","group":"b","now":3,"arg":"q"} -> {"reply":"queued","ticket":2}


an open circuit takes one run after its sleep window
service.groups = ["a"]
hystrix.command.default.circuitBreaker.requestVolumeThreshold = 1
hystrix.command.default.metrics.healthSnapshot.intervalInMilliseconds = 0

{"op":"submit","group":"a","now":0,"arg":"p"} -> {"reply":"queued","ticket":1}
{"op":"start","group":"a","now":50} -> {"arg":"p","reply":"assigned","ticket":1}
{"op":"fail","group":"a","now":50,"ticket":1,"bad":false} -> {"reply":"done"}
{"op":"submit","group":"a","now":100,"arg":"q"} -> {"cause":"short-circuited","reply":"fallback-due","ticket":2}
{"op":"submit","group":"a","now":5099,"arg":"r"} -> {"cause":"short-circuited","reply":"fallback-due","ticket":3}
{"op":"submit","group":"a","now":5100,"arg":"s"} -> {"reply":"queued","ticket":4}
{"op":"submit","group":"a","now":5100,"arg":"u"} -> {"cause":"short-circuited","reply":"fallback-due","ticket":5}
{"op":"read","group":"a","now":5100} -> {"busy":0,"circuit":"half-open","errors":1,"events":{"FAILURE":1,"SHORT_CIRCUITED":3},"free":59,"percent":100,"queued":1,"reply":"metrics","total":1}
{"op":"start","group":"a","now":5101} -> {"arg":"s","reply":"assigned","ticket":4}
{"op":"finish","group":"a","now":5102,"ticket":4,"body":"ok"} -> {"reply":"done"}
{"op":"read","group":"a","now":5103} -> {"busy":0,"circuit":"closed","errors":0,"events":{"FAILURE":1,"SHORT_CIRCUITED":3,"SUCCESS":1},"free":59,"percent":0,"queued":0,"reply":"metrics","total":0}
{"op":"submit","group":"a","now":5104,"arg":"v"} -> {"reply":"queued","ticket":6}


a bad request and a timeout of the test call
service.groups = ["a", "b"]
hystrix.command.default.circuitBreaker.requestVolumeThreshold = 1
hystrix.command.default.metrics.healthSnapshot.intervalInMilliseconds = 0
hystrix.command.b.execution.isolation.strategy = "SEMAPHORE"
hystrix.command.b.execution.isolation.semaphore.maxConcurrentRequests = 1

{"op":"submit","group":"a","now":0,"arg":"p"} -> {"reply":"queued","ticket":1}
{"op":"start","group":"a","now":0} -> {"arg":"p","reply":"assigned","ticket":1}
{"op":"fail","group":"a","now":0,"ticket":1,"bad":false} -> {"reply":"done"}
{"op":"submit","group":"a","now":100,"arg":"q"} -> {"cause":"short-circuited","reply":"fallback-due","ticket":2}
{"op":"submit","group":"a","now":5100,"arg":"r"} -> {"reply":"queued","ticket":3}
{"op":"start","group":"a","now":5100} -> {"arg":"r","reply":"assigned","ticket":3}
{"op":"fail","group":"a","now":5200,"ticket":3,"bad":true} -> {"reply":"done"}
{"op":"collect","group":"a","now":5200,"ticket":3} -> {"reply":"bad-request"}
{"op":"submit","group":"a","now":5200,"arg":"s"} -> {"reply":"queued","ticket":4}
{"op":"submit","group":"b","now":0,"arg":"p"} -> {"reply":"inline","ticket":1}
{"op":"expire","group":"b","now":1000} -> {"count":1,"reply":"expired"}
{"op":"submit","group":"b","now":1000,"arg":"q"} -> {"cause":"short-circuited","reply":"fallback-due","ticket":2}
{"op":"submit","group":"b","now":6000,"arg":"r"} -> {"cause":"semaphore-rejected","reply":"fallback-due","ticket":3}
{"op":"finish","group":"b","now":6001,"ticket":1,"body":"z"} -> {"reply":"late"}
{"op":"submit","group":"b","now":10999,"arg":"s"} -> {"cause":"short-circuited","reply":"fallback-due","ticket":4}
{"op":"submit","group":"b","now":11000,"arg":"u"} -> {"reply":"inline","ticket":5}


the test call times out in the queue
service.groups = ["a"]
hystrix.command.default.circuitBreaker.requestVolumeThreshold = 1
hystrix.command.default.metrics.healthSnapshot.intervalInMilliseconds = 0

{"op":"submit","group":"a","now":0,"arg":"p"} -> {"reply":"queued","ticket":1}
{"op":"start","group":"a","now":0} -> {"arg":"p","reply":"assigned","ticket":1}
{"op":"fail","group":"a","now":0,"ticket":1,"bad":false} -> {"reply":"done"}
{"op":"submit","group":"a","now":1,"arg":"q"} -> {"cause":"short-circuited","reply":"fallback-due","ticket":2}
{"op":"submit","group":"a","now":5001,"arg":"r"} -> {"reply":"queued","ticket":3}
{"op":"expire","group":"a","now":6001} -> {"count":1,"reply":"expired"}
{"op":"start","group":"a","now":6001} -> {"reply":"idle"}
{"op":"submit","group":"a","now":11000,"arg":"s"} -> {"cause":"short-circuited","reply":"fallback-due","ticket":4}
{"op":"submit","group":"a","now":11001,"arg":"u"} -> {"reply":"queued","ticket":5}


a circuit that is forced open
service.groups = ["a"]
hystrix.command.default.circuitBreaker.forceOpen = true
hystrix.command.default.fallback.enabled = false

{"op":"submit","group":"a","now":0,"arg":"x"} -> {"cause":"short-circuited","reply":"fallback-due","ticket":1}
{"op":"collect","group":"a","now":0,"ticket":1} -> {"cause":"short-circuited","fallback":"disabled","reply":"error"}
{"op":"read","group":"a","now":0} -> {"busy":0,"circuit":"closed","errors":0,"events":{"EXCEPTION_THROWN":1,"SHORT_CIRCUITED":1},"free":64,"percent":0,"queued":0,"reply":"metrics","total":0}


health is looked at once in an interval
service.groups = ["a"]
hystrix.command.default.circuitBreaker.requestVolumeThreshold = 1

{"op":"submit","group":"a","now":0,"arg":"p"} -> {"reply":"queued","ticket":1}
{"op":"start","group":"a","now":0} -> {"arg":"p","reply":"assigned","ticket":1}
{"op":"fail","group":"a","now":1,"ticket":1,"bad":false} -> {"reply":"done"}
{"op":"submit","group":"a","now":499,"arg":"q"} -> {"reply":"queued","ticket":2}
{"op":"submit","group":"a","now":500,"arg":"r"} -> {"cause":"short-circuited","reply":"fallback-due","ticket":3}"#;

/// Tickets time out, and events leave the window.
const TIMES: &str = r#"a run that timed out keeps its worker until it ends
service.groups = ["a"]
hystrix.threadpool.default.coreSize = 1

{"op":"submit","group":"a","now":0,"arg":"x"} -> {"reply":"queued","ticket":1}
{"op":"start","group":"a","now":0} -> {"arg":"x","reply":"assigned","ticket":1}
{"op":"expire","group":"a","now":999} -> {"count":0,"reply":"expired"}
{"op":"expire","group":"a","now":1000} -> {"count":1,"reply":"expired"}
{"op":"submit","group":"a","now":1001,"arg":"y"} -> {"cause":"thread-pool-rejected","reply":"fallback-due","ticket":2}
{"op":"finish","group":"a","now":1002,"ticket":1,"body":"r"} -> {"reply":"late"}
{"op":"submit","group":"a","now":1003,"arg":"z"} -> {"reply":"queued","ticket":3}
{"op":"collect","group":"a","now":1003,"ticket":1} -> {"cause":"timeout","reply":"run-fallback"}
{"op":"finish","group":"a","now":1004,"ticket":1,"body":"r"} -> {"reply":"not-running"}
{"op":"read","group":"a","now":1004} -> {"busy":0,"circuit":"closed","errors":2,"events":{"THREAD_POOL_REJECTED":1,"TIMEOUT":1},"free":61,"percent":100,"queued":1,"reply":"metrics","total":2}


queued tickets time out, each in its time
service.groups = ["a"]
hystrix.threadpool.default.coreSize = 1
hystrix.threadpool.default.maxQueueSize = 5

{"op":"submit","group":"a","now":0,"arg":"x"} -> {"reply":"queued","ticket":1}
{"op":"submit","group":"a","now":500,"arg":"y"} -> {"reply":"queued","ticket":2}
{"op":"submit","group":"a","now":600,"arg":"z"} -> {"reply":"queued","ticket":3}
{"op":"expire","group":"a","now":1000} -> {"count":1,"reply":"expired"}
{"op":"start","group":"a","now":1001} -> {"arg":"y","reply":"assigned","ticket":2}
{"op":"finish","group":"a","now":1002,"ticket":2,"body":"r"} -> {"reply":"done"}
{"op":"expire","group":"a","now":1600} -> {"count":1,"reply":"expired"}
{"op":"start","group":"a","now":1601} -> {"reply":"idle"}
{"op":"collect","group":"a","now":1601,"ticket":1} -> {"cause":"timeout","reply":"run-fallback"}
{"op":"fallback","group":"a","now":1602,"ticket":1,"end":"failure"} -> {"reply":"done"}
{"op":"collect","group":"a","now":1602,"ticket":1} -> {"cause":"timeout","fallback":"failed","reply":"error"}
{"op":"read","group":"a","now":1602} -> {"busy":0,"circuit":"closed","errors":2,"events":{"EXCEPTION_THROWN":1,"FALLBACK_FAILURE":1,"SUCCESS":1,"TIMEOUT":2},"free":62,"percent":66,"queued":0,"reply":"metrics","total":3}


events leave the rolling window
service.groups = ["a"]

{"op":"submit","group":"a","now":0,"arg":"x"} -> {"reply":"queued","ticket":1}
{"op":"submit","group":"a","now":0,"arg":"y"} -> {"reply":"queued","ticket":2}
{"op":"submit","group":"a","now":0,"arg":"z"} -> {"reply":"queued","ticket":3}
{"op":"start","group":"a","now":0} -> {"arg":"x","reply":"assigned","ticket":1}
{"op":"start","group":"a","now":0} -> {"arg":"y","reply":"assigned","ticket":2}
{"op":"start","group":"a","now":0} -> {"arg":"z","reply":"assigned","ticket":3}
{"op":"finish","group":"a","now":0,"ticket":1,"body":"r"} -> {"reply":"done"}
{"op":"finish","group":"a","now":999,"ticket":2,"body":"r"} -> {"reply":"done"}
{"op":"finish","group":"a","now":5500,"ticket":3,"body":"r"} -> {"reply":"done"}
{"op":"read","group":"a","now":9999} -> {"busy":0,"circuit":"closed","errors":0,"events":{"SUCCESS":3},"free":61,"percent":0,"queued":0,"reply":"metrics","total":3}
{"op":"read","group":"a","now":10000} -> {"busy":0,"circuit":"closed","errors":0,"events":{"SUCCESS":1},"free":61,"percent":0,"queued":0,"reply":"metrics","total":1}
{"op":"read","group":"a","now":1010000} -> {"busy":0,"circuit":"closed","errors":0,"events":{},"free":61,"percent":0,"queued":0,"reply":"metrics","total":0}


a window of one millisecond
service.groups = ["a"]
hystrix.command.default.metrics.rollingStats.timeInMilliseconds = 1
hystrix.command.default.metrics.rollingStats.numBuckets = 1

{"op":"submit","group":"a","now":0,"arg":"x"} -> {"reply":"queued","ticket":1}
{"op":"start","group":"a","now":0} -> {"arg":"x","reply":"assigned","ticket":1}
{"op":"finish","group":"a","now":0,"ticket":1,"body":"r"} -> {"reply":"done"}
{"op":"read","group":"a","now":0} -> {"busy":0,"circuit":"closed","errors":0,"events":{"SUCCESS":1},"free":63,"percent":0,"queued":0,"reply":"metrics","total":1}
{"op":"read","group":"a","now":1} -> {"busy":0,"circuit":"closed","errors":0,"events":{},"free":63,"percent":0,"queued":0,"reply":"metrics","total":0}"#;

/// Requests of one key share a ticket.
pub(crate) const CACHE: &str = r#"requests of one key share a ticket until the context is closed
service.groups = ["a"]

{"op":"submit","group":"a","now":0,"arg":"x","context":7,"key":"k"} -> {"reply":"queued","ticket":1}
{"op":"submit","group":"a","now":0,"arg":"x","context":7,"key":"k"} -> {"reply":"joined","ticket":1}
{"op":"submit","group":"a","now":0,"arg":"x","context":8,"key":"k"} -> {"reply":"queued","ticket":2}
{"op":"start","group":"a","now":1} -> {"arg":"x","reply":"assigned","ticket":1}
{"op":"finish","group":"a","now":2,"ticket":1,"body":"r"} -> {"reply":"done"}
{"op":"collect","group":"a","now":3,"ticket":1} -> {"body":"r","reply":"value"}
{"op":"collect","group":"a","now":3,"ticket":1} -> {"body":"r","reply":"value"}
{"op":"collect","group":"a","now":3,"ticket":1} -> {"reply":"no-ticket"}
{"op":"submit","group":"a","now":4,"arg":"x","context":7,"key":"k"} -> {"reply":"joined","ticket":1}
{"op":"collect","group":"a","now":4,"ticket":1} -> {"body":"r","reply":"value"}
{"op":"close","group":"a","now":5,"context":7} -> {"released":1,"reply":"closed"}
{"op":"close","group":"a","now":5,"context":7} -> {"released":0,"reply":"closed"}
{"op":"submit","group":"a","now":6,"arg":"x","context":7,"key":"k"} -> {"reply":"queued","ticket":3}
{"op":"read","group":"a","now":6} -> {"busy":0,"circuit":"closed","errors":0,"events":{"RESPONSE_FROM_CACHE":2,"SUCCESS":1},"free":62,"percent":0,"queued":2,"reply":"metrics","total":1}"#;

/// Commands of a group, each with its own circuit and permits, over the one pool and the one cache.
const COMMANDS: &str = r#"a failure opens the circuit of its own command
service.groups = ["a"]
service.command.c.group = "a"
service.command.d.group = "a"
hystrix.command.default.circuitBreaker.requestVolumeThreshold = 1
hystrix.command.default.metrics.healthSnapshot.intervalInMilliseconds = 0
hystrix.threadpool.default.coreSize = 1

{"op":"submit","group":"a","now":0,"arg":"p","command":"c"} -> {"reply":"queued","ticket":1}
{"op":"start","group":"a","now":0} -> {"arg":"p","command":"c","reply":"assigned","ticket":1}
{"op":"fail","group":"a","now":1,"ticket":1,"bad":false} -> {"reply":"done"}
{"op":"submit","group":"a","now":2,"arg":"r","command":"c"} -> {"cause":"short-circuited","reply":"fallback-due","ticket":2}
{"op":"submit","group":"a","now":2,"arg":"q"} -> {"reply":"queued","ticket":3}
{"op":"submit","group":"a","now":2,"arg":"s","command":"d"} -> {"cause":"thread-pool-rejected","reply":"fallback-due","ticket":4}
{"op":"read","group":"a","now":3,"command":"c"} -> {"busy":0,"circuit":"open","errors":1,"events":{"FAILURE":1,"SHORT_CIRCUITED":1},"free":60,"percent":100,"queued":0,"reply":"metrics","total":1}
{"op":"read","group":"a","now":3} -> {"busy":0,"circuit":"closed","errors":0,"events":{},"free":60,"percent":0,"queued":1,"reply":"metrics","total":0}
{"op":"submit","group":"a","now":3,"arg":"t","command":"e"} -> {"error":"command"}


runs by callers take no worker, and a name is that of one command
service.groups = ["a"]
service.command.c.group = "a"
hystrix.command.c.execution.isolation.strategy = "SEMAPHORE"
hystrix.command.c.execution.isolation.semaphore.maxConcurrentRequests = 1
hystrix.threadpool.default.coreSize = 1

{"op":"submit","group":"a","now":0,"arg":"p","command":"c"} -> {"reply":"inline","ticket":1}
{"op":"submit","group":"a","now":0,"arg":"q"} -> {"reply":"queued","ticket":2}
{"op":"start","group":"a","now":0} -> {"arg":"q","reply":"assigned","ticket":2}
{"op":"submit","group":"a","now":0,"arg":"r","command":"c"} -> {"cause":"semaphore-rejected","reply":"fallback-due","ticket":3}
{"op":"submit","group":"a","now":1,"arg":"x","context":7,"key":"k"} -> {"cause":"thread-pool-rejected","reply":"fallback-due","ticket":4}
{"op":"submit","group":"a","now":1,"arg":"x","context":7,"key":"k","command":"c"} -> {"cause":"semaphore-rejected","reply":"fallback-due","ticket":5}
{"op":"submit","group":"a","now":1,"arg":"x","context":7,"key":"k","command":"c"} -> {"reply":"joined","ticket":5}
{"op":"close","group":"a","now":2,"context":7} -> {"released":2,"reply":"closed"}


a command is that of its name and its group, in lines of any shape
service.groups = ["a", "b"]
service.command.d.group = "a"
service.command.c.group = "b"
service.command.b2.group = "a"

{"op":"submit","group":"a","now":0,"arg":"p","command":"d"} -> {"reply":"queued","ticket":1}
{"op":"submit","group":"a","now":0,"arg":"q","command":"b2"} -> {"reply":"queued","ticket":2}
{"op":"submit","group":"a","now":0,"arg":"r","command":"a"} -> {"reply":"queued","ticket":3}
{"op":"submit","group":"a","now":0,"arg":"s","command":"c"} -> {"error":"command"}
{"op":"submit","group":"a","now":0,"arg":"s","command":"b"} -> {"error":"command"}
{"op":"submit","group":"b","now":0,"arg":"s","command":"x","command":"c","n":{"m":[]}} -> {"reply":"queued","ticket":1}
{"op":"start","group":"a","now":1,"command":1} -> {"arg":"p","command":"d","reply":"assigned","ticket":1}
{"op":"start","group":"a","now":1,"command":"c"} -> {"arg":"q","command":"b2","reply":"assigned","ticket":2}
{"op":"start","group":"a","now":1} -> {"arg":"r","reply":"assigned","ticket":3}
{"op":"start","group":"b","now":1} -> {"arg":"s","command":"c","reply":"assigned","ticket":1}


a command times out by its own settings
service.groups = ["a"]
service.command.c.group = "a"
hystrix.command.c.execution.isolation.thread.timeoutInMilliseconds = 500

{"op":"submit","group":"a","now":0,"arg":"x"} -> {"reply":"queued","ticket":1}
{"op":"submit","group":"a","now":0,"arg":"y","command":"c"} -> {"reply":"queued","ticket":2}
{"op":"expire","group":"a","now":499} -> {"count":0,"reply":"expired"}
{"op":"expire","group":"a","now":500} -> {"count":1,"reply":"expired"}
{"op":"start","group":"a","now":501} -> {"arg":"x","reply":"assigned","ticket":1}
{"op":"start","group":"a","now":501} -> {"reply":"idle"}


the one worker of a group is shared with a command that trips, a run of examples/shared-pool
service.groups = ["catalog"]
service.command.report.group = "catalog"
hystrix.threadpool.catalog.coreSize = 1
hystrix.command.report.circuitBreaker.requestVolumeThreshold = 1
hystrix.command.report.metrics.healthSnapshot.intervalInMilliseconds = 0

{"op":"submit","group":"catalog","command":"report","now":0,"arg":"monday"} -> {"reply":"queued","ticket":1}
{"op":"submit","group":"catalog","now":1,"arg":"item 5"} -> {"cause":"thread-pool-rejected","reply":"fallback-due","ticket":2}
{"op":"start","group":"catalog","now":2} -> {"arg":"monday","command":"report","reply":"assigned","ticket":1}
{"op":"start","group":"catalog","now":3} -> {"reply":"idle"}
{"op":"fail","group":"catalog","now":4,"ticket":1,"bad":false} -> {"reply":"done"}
{"op":"submit","group":"catalog","command":"report","now":5,"arg":"tuesday"} -> {"cause":"short-circuited","reply":"fallback-due","ticket":3}
{"op":"submit","group":"catalog","command":"catalog","now":6,"arg":"item 7"} -> {"reply":"queued","ticket":4}
{"op":"start","group":"catalog","now":7} -> {"arg":"item 7","reply":"assigned","ticket":4}
{"op":"finish","group":"catalog","now":8,"ticket":4,"body":"seven"} -> {"reply":"done"}
{"op":"collect","group":"catalog","now":9,"ticket":4} -> {"body":"seven","reply":"value"}
{"op":"read","group":"catalog","command":"report","now":10} -> {"busy":0,"circuit":"open","errors":1,"events":{"FAILURE":1,"SHORT_CIRCUITED":1},"free":61,"percent":100,"queued":0,"reply":"metrics","total":1}
{"op":"read","group":"catalog","now":11} -> {"busy":0,"circuit":"closed","errors":1,"events":{"SUCCESS":1,"THREAD_POOL_REJECTED":1},"free":61,"percent":50,"queued":0,"reply":"metrics","total":2}
{"op":"submit","group":"catalog","command":"invoice","now":12,"arg":"order 3"} -> {"error":"command"}"#;

/// The same name twice, a nested member, many members, numbers of other forms, and escapes.
const SHAPES: &str = r#"members in any shape
service.groups = ["a"]

{"op":"submit","group":"a","now":0,"arg":"one","arg":"two"} -> {"reply":"queued","ticket":1}
{"more":[{"op":"read"}],"op":"start","group":"a","now":1} -> {"arg":"two","reply":"assigned","ticket":1}
{"p":1,"q":2,"r":3,"s":4,"t":5,"op":"submit","group":"a","now":2,"arg":"three"} -> {"reply":"queued","ticket":2}
{"n":-1.5e3,"op":"start","group":"a","now":3} -> {"arg":"three","reply":"assigned","ticket":2}
{ "op" : "st\u0061rt", "group" : "\u0061", "now" : 4, "n" : null, "m" : true } -> {"reply":"idle"}
{"op":"submit","arg":"four","now":18446744073709551615,"now":5,"group":"b","group":"a","m":{}} -> {"reply":"queued","ticket":3}"#;

#[test]
fn each_line_is_answered_as_its_operation_says(rt: HostRuntime) {
    for scripts in [GROUPS, ADMISSION, CIRCUITS, TIMES, CACHE, COMMANDS, SHAPES] {
        assert_scripts(&rt, scripts);
    }
}
