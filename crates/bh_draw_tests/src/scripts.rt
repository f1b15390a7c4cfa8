//! Scripts that are drawn.

/// Two groups, one of them with a further command. A single failure opens the circuit of the first, and the second has one
/// worker.
pub(crate) const SETTINGS: &str = "service.groups = [\"a\", \"b\"]
service.command.refund.group = \"b\"
hystrix.command.a.circuitBreaker.requestVolumeThreshold = 1
hystrix.threadpool.b.coreSize = 1
";

/// The first group fails, is short-circuited, and recovers with its test call.
pub(crate) const FIRST: &str = r#"{"op":"submit","group":"a","now":0,"arg":"x"}
{"op":"start","group":"a","now":10}
{"op":"fail","group":"a","now":30,"ticket":1,"bad":false}
{"op":"collect","group":"a","now":40,"ticket":1}
{"op":"fallback","group":"a","now":60,"ticket":1,"end":"success","body":"y"}
{"op":"collect","group":"a","now":70,"ticket":1}
{"op":"submit","group":"a","now":600,"arg":"x"}
{"op":"collect","group":"a","now":610,"ticket":2}
{"op":"fallback","group":"a","now":620,"ticket":2,"end":"missing"}
{"op":"collect","group":"a","now":650,"ticket":2}
{"op":"submit","group":"a","now":5600,"arg":"x"}
{"op":"start","group":"a","now":5610}
{"op":"finish","group":"a","now":5700,"ticket":3,"body":"z"}
{"op":"collect","group":"a","now":5700,"ticket":3}
{"op":"read","group":"a","now":6000}
"#;

/// In the second one run times out, one is rejected, and two share a third.
pub(crate) const SECOND: &str = r#"{"op":"submit","group":"b","now":0,"arg":"x"}
{"op":"start","group":"b","now":0}
{"op":"submit","group":"b","command":"refund","now":10,"arg":"x"}
{"op":"collect","group":"b","now":20,"ticket":2}
{"op":"fallback","group":"b","now":30,"ticket":2,"end":"success","body":"y"}
{"op":"collect","group":"b","now":30,"ticket":2}
{"op":"expire","group":"b","now":1000}
{"op":"finish","group":"b","now":1200,"ticket":1,"body":"z"}
{"op":"collect","group":"b","now":1200,"ticket":1}
{"op":"fallback","group":"b","now":1300,"ticket":1,"end":"failure"}
{"op":"collect","group":"b","now":1000,"ticket":1}
{"op":"submit","group":"b","command":"refund","now":2000,"arg":"x","context":1,"key":"k"}
{"op":"submit","group":"b","command":"refund","now":2001,"arg":"x","context":1,"key":"k"}
{"op":"start","group":"b","now":2002}
{"op":"fail","group":"b","now":2050,"ticket":3,"bad":true}
{"op":"collect","group":"b","now":2060,"ticket":3}
{"op":"collect","group":"b","now":2070,"ticket":3}
no line
"#;
