//! Replies, each printed as a line of compact JSON with its members in the order of their names.

ghost use Rattle.std.specs.Prelude.{◌≡◌, ◌+◌, ◌*◌, ◌≤◌, ◌++◌, ◌∷◌, [], ℕ, false, map, length, take, codes, decimal, Some, None, option_copied, IfOk, IsOk, OnErr, OnOk, string_bytes};
ghost use Rattle.serde_json.specs.Data.{depth};
ghost use Rattle.serde_json.specs.Read.{max_depth, read};
ghost use Rattle.serde_json.specs.View.{view};
ghost use Rattle.serde_json.specs.Written.{comma_if, has_float, compact_text};
ghost use Rattle.json.specs.Print.{escape, quoted};
ghost use Rattle.bh_replies.specs.ReplyLine.{cause_word, fallback_word, circuit_word, events_data, fallback_due_data, assigned_data, expired_data, run_fallback_data, closed_data, value_data, fallback_value_data, error_answer_data, metrics_data, totals_data, answer_data, reply_data, reply_line, json_line};
ghost use Rattle.bh_replies.specs.FaultLine.{error_data};
ghost use Rattle.bh_replies.specs.Puts.{Puts, PutsObject, count_text, counts_text, counts_most};

use crate::pieces::{
    is_plain, put_around_number, put_around_string, put_text, put_with_number, put_with_string,
};
use crate::writing::{Member, write_object};
use bh_base::{Answer, Cause, CircuitState, Counts, FallbackFault, Metrics, Reply, Text};
use serde_json::Value;
use std::alloc::{AllocError, Global};

/// Puts the line that says why nothing was done, with its line feed, behind the bytes: an object whose one member `error`
/// is the text. It fails only for want of memory, and leaves the bytes as they were then.
pub fn put_error(alloc: Global, bytes: &mut Vec<u8>, why: &str) -> Result<(), AllocError>
    ensures ok { OnOk result (bytes.new.items ≡ bytes.old.items ++ json_line (error_data why.now)) }
    ensures err { OnErr result (bytes.new.items ≡ bytes.old.items) }
{
    let start = bytes.len();
    let put = put_error_object(bytes, why);
    end_line(bytes, start, put)
}

/// The object that says why nothing was done.
fn put_error_object(bytes: &mut Vec<u8>, why: &str) -> Result<(), AllocError>
    ensures { PutsObject result bytes.old bytes.new (compact_text (error_data why.now)) (100 + 6 * length why.now) }
{
    if !is_plain(why) {
        return write_object(bytes, &[Member::Text("error", why)]);
    }
    put_around_string(bytes, r#"{"error":""#, why, r#""}"#)
}

/// Puts the line of a reply, with its line feed, behind the bytes. It fails only for want of memory, and leaves the bytes
/// as they were then.
///
/// `command` is the name of the further command whose run is assigned: it stands in the line of `Assigned`, and in no
/// other.
pub fn put_reply(
    alloc: Global,
    bytes: &mut Vec<u8>,
    reply: &Reply,
    command: Option<&Text<32>>,
) -> Result<(), AllocError>
    ensures ok { OnOk result (bytes.new.items ≡ bytes.old.items ++ reply_line (option_copied command.entry) reply.now) }
    ensures err { OnErr result (bytes.new.items ≡ bytes.old.items) }
{
    let start = bytes.len();
    let put = put_reply_object(bytes, reply, command);
    end_line(bytes, start, put)
}

/// Puts a line feed behind the bytes where the line was put, and takes what was put of it off them where not.
pub(crate) fn end_line(
    bytes: &mut Vec<u8>,
    start: usize,
    put: Result<(), AllocError>,
) -> Result<(), AllocError>
    requires { start ≤ length bytes.old.items }
    ensures ok { OnOk result (bytes.new.items ≡ bytes.old.items ++ 10 ∷ []) }
    ensures put { OnOk result (IsOk put) }
    ensures err { OnErr result (bytes.new.items ≡ take start bytes.old.items) }
{
    let ended = match put {
        Ok(()) => bytes.push(b'\n').map_err(AllocError::from),
        Err(error) => Err(error),
    };
    if ended.is_err() {
        bytes.truncate(start);
    }
    ended
}

/// The compact text of a value with no float, and a line feed. The text, read, is the value, where it holds others no deeper
/// than is read. It fails only for want of memory.
pub fn json_line(alloc: Global, value: &Value) -> Result<String, AllocError>
    requires { has_float (view value.now) ≡ false }
    ensures line { IfOk result (λ s. string_bytes s ≡ json_line (view value.now)) }
    ensures reads { OnOk result (depth (view value.now) ≤ max_depth → read (compact_text (view value.now)) ≡ Some (view value.now)) }
{
    let mut line = value.to_string(alloc)?;
    line.push('\n')?;
    Ok(line)
}

/// The object of a reply, with the name of the further command that an `Assigned` is of.
#[tactic(auto, unfolding(json::specs::Print::escape_byte))]
pub(crate) fn put_reply_object(
    bytes: &mut Vec<u8>,
    reply: &Reply,
    command: Option<&Text<32>>,
) -> Result<(), AllocError>
    ensures { PutsObject result bytes.old bytes.new (compact_text (reply_data (option_copied command.entry) reply.now)) 2047 }
{
    match reply {
        Reply::Queued(serial) => put_numbered(bytes, r#"{"reply":"queued","ticket":"#, *serial),
        Reply::Inline(serial) => put_numbered(bytes, r#"{"reply":"inline","ticket":"#, *serial),
        Reply::FallbackDue { serial, cause } => put_fallback_due(bytes, *serial, *cause),
        Reply::Joined(serial) => put_numbered(bytes, r#"{"reply":"joined","ticket":"#, *serial),
        Reply::GroupFull => put_text(bytes, r#"{"reply":"group-full"}"#),
        Reply::Assigned { serial, arg, .. } => put_assigned(bytes, *serial, command, arg),
        Reply::Idle => put_text(bytes, r#"{"reply":"idle"}"#),
        Reply::Done => put_text(bytes, r#"{"reply":"done"}"#),
        Reply::Late => put_text(bytes, r#"{"reply":"late"}"#),
        Reply::NotRunning => put_text(bytes, r#"{"reply":"not-running"}"#),
        Reply::Expired(count) => put_expired(bytes, *count),
        Reply::Pending => put_text(bytes, r#"{"reply":"pending"}"#),
        Reply::RunFallback(cause) => put_text(bytes, run_fallback_text(*cause)),
        Reply::Answered(answer) => put_answer(bytes, answer),
        Reply::NoTicket => put_text(bytes, r#"{"reply":"no-ticket"}"#),
        Reply::NotInFallback => put_text(bytes, r#"{"reply":"not-in-fallback"}"#),
        Reply::Closed(count) => put_closed(bytes, *count),
        Reply::Metrics(metrics) => put_metrics(bytes, metrics),
        Reply::Totals(counts) => put_totals(bytes, counts),
        Reply::Tuned => put_text(bytes, r#"{"reply":"tuned"}"#),
        Reply::OutOfRange => put_text(bytes, r#"{"reply":"out-of-range"}"#),
        Reply::Worn => put_text(bytes, r#"{"reply":"worn"}"#),
        Reply::NoCommand => put_text(bytes, r#"{"reply":"no-command"}"#),
        Reply::NoGroup => put_text(bytes, r#"{"reply":"no-group"}"#),
    }
}

/// A reply that ends with a number.
#[inline(always)]
fn put_numbered(bytes: &mut Vec<u8>, front: &str, n: u64) -> Result<(), AllocError>
    ensures { Puts result bytes.old bytes.new ((front.now ++ decimal n) ++ codes "}") (length front.now + 21) }
{
    put_around_number(bytes, front, n, "}")
}

/// A ticket that needs a fallback.
fn put_fallback_due(bytes: &mut Vec<u8>, ticket: u64, cause: Cause) -> Result<(), AllocError>
    ensures { Puts result bytes.old bytes.new (compact_text (fallback_due_data ticket cause)) 100 }
{
    put_numbered(bytes, fallback_due_front(cause), ticket)
}

/// How many tickets timed out.
#[tactic(auto, unfolding(json::specs::Print::escape_byte))]
fn put_expired(bytes: &mut Vec<u8>, count: u64) -> Result<(), AllocError>
    ensures { Puts result bytes.old bytes.new (compact_text (expired_data count)) 100 }
{
    put_around_number(bytes, r#"{"count":"#, count, r#","reply":"expired"}"#)
}

/// How many tickets are cached no longer.
#[tactic(auto, unfolding(json::specs::Print::escape_byte))]
fn put_closed(bytes: &mut Vec<u8>, count: u64) -> Result<(), AllocError>
    ensures { Puts result bytes.old bytes.new (compact_text (closed_data count)) 100 }
{
    put_around_number(bytes, r#"{"released":"#, count, r#","reply":"closed"}"#)
}

/// A run that a worker is to do, of the group's own command or of the further one of the name.
fn put_assigned(
    bytes: &mut Vec<u8>,
    ticket: u64,
    command: Option<&Text<32>>,
    arg: &Text<64>,
) -> Result<(), AllocError>
    ensures { PutsObject result bytes.old bytes.new (compact_text (assigned_data ticket (option_copied command.entry) arg.now)) 1000 }
{
    match command {
        None => put_own_run(bytes, ticket, arg.as_str()),
        Some(name) => put_run(bytes, ticket, name.as_str(), arg.as_str()),
    }
}

/// A run of the group's own command, whose name does not stand in it.
fn put_own_run(bytes: &mut Vec<u8>, ticket: u64, arg: &str) -> Result<(), AllocError>
    ensures { PutsObject result bytes.old bytes.new (compact_text (assigned_data ticket None arg.now)) (100 + 6 * length arg.now) }
{
    if !is_plain(arg) {
        return write_own_run(bytes, ticket, arg);
    }
    put_with_string(bytes, r#"{"arg":""#, arg)?;
    put_numbered(bytes, r#"","reply":"assigned","ticket":"#, ticket)
}

/// A run of the further command of the name.
fn put_run(bytes: &mut Vec<u8>, ticket: u64, name: &str, arg: &str) -> Result<(), AllocError>
    ensures { PutsObject result bytes.old bytes.new (compact_text (assigned_data ticket (Some name.now) arg.now)) (100 + 6 * length arg.now + 6 * length name.now) }
{
    if !(is_plain(arg) && is_plain(name)) {
        return write_run(bytes, ticket, name, arg);
    }
    put_with_string(bytes, r#"{"arg":""#, arg)?;
    put_with_string(bytes, r#"","command":""#, name)?;
    put_numbered(bytes, r#"","reply":"assigned","ticket":"#, ticket)
}

/// The same, where the argument needs an escape.
#[cold]
#[inline(never)]
fn write_own_run(bytes: &mut Vec<u8>, ticket: u64, arg: &str) -> Result<(), AllocError>
    ensures { PutsObject result bytes.old bytes.new (compact_text (assigned_data ticket None arg.now)) (100 + 6 * length arg.now) }
{
    let members = [
        Member::Text("arg", arg),
        Member::Text("reply", "assigned"),
        Member::Number("ticket", ticket),
    ];
    write_object(bytes, &members)
}

/// The same of a further command, where the argument or the name needs one.
#[cold]
#[inline(never)]
fn write_run<'a>(
    bytes: &mut Vec<u8>,
    ticket: u64,
    name: &'a str,
    arg: &'a str,
) -> Result<(), AllocError>
    ensures { PutsObject result bytes.old bytes.new (compact_text (assigned_data ticket (Some name.now) arg.now)) (100 + 6 * length arg.now + 6 * length name.now) }
{
    let members = [
        Member::Text("arg", arg),
        Member::Text("command", name),
        Member::Text("reply", "assigned"),
        Member::Number("ticket", ticket),
    ];
    write_object(bytes, &members)
}

/// The answer to a request.
#[tactic(auto, unfolding(json::specs::Print::escape_byte))]
fn put_answer(bytes: &mut Vec<u8>, answer: &Answer) -> Result<(), AllocError>
    ensures { PutsObject result bytes.old bytes.new (compact_text (answer_data answer.now)) 2000 }
{
    match answer {
        Answer::Value(body) => put_value(bytes, body.as_str()),
        Answer::FallbackValue { cause, body } => put_fallback_value(bytes, *cause, body.as_str()),
        Answer::Error { cause, fallback } => put_no_value(bytes, *cause, *fallback),
        Answer::BadRequest => put_text(bytes, r#"{"reply":"bad-request"}"#),
    }
}

/// The value of a run.
fn put_value(bytes: &mut Vec<u8>, body: &str) -> Result<(), AllocError>
    ensures { PutsObject result bytes.old bytes.new (compact_text (value_data body.now)) (100 + 6 * length body.now) }
{
    if !is_plain(body) {
        return write_value(bytes, body);
    }
    put_around_string(bytes, r#"{"body":""#, body, r#"","reply":"value"}"#)
}

/// The same, where the value needs an escape.
#[cold]
#[inline(never)]
fn write_value(bytes: &mut Vec<u8>, body: &str) -> Result<(), AllocError>
    ensures { PutsObject result bytes.old bytes.new (compact_text (value_data body.now)) (100 + 6 * length body.now) }
{
    let members = [Member::Text("body", body), Member::Text("reply", "value")];
    write_object(bytes, &members)
}

/// The value of a fallback.
fn put_fallback_value(bytes: &mut Vec<u8>, cause: Cause, body: &str) -> Result<(), AllocError>
    ensures { PutsObject result bytes.old bytes.new (compact_text (fallback_value_data cause body.now)) (200 + 6 * length body.now) }
{
    if !is_plain(body) {
        return write_fallback_value(bytes, cause, body);
    }
    put_around_string(bytes, r#"{"body":""#, body, fallback_value_back(cause))
}

/// The same, where the value needs an escape.
#[cold]
#[inline(never)]
fn write_fallback_value(bytes: &mut Vec<u8>, cause: Cause, body: &str) -> Result<(), AllocError>
    ensures { PutsObject result bytes.old bytes.new (compact_text (fallback_value_data cause body.now)) (200 + 6 * length body.now) }
{
    let members = [
        Member::Text("body", body),
        Member::Text("cause", cause_word(cause)),
        Member::Text("reply", "fallback-value"),
    ];
    write_object(bytes, &members)
}

/// The word of a cause of a fallback.
fn cause_word(cause: Cause) -> &'static str
    ensures { result.now ≡ cause_word cause }
{
    match cause {
        Cause::ShortCircuited => "short-circuited",
        Cause::PoolRejected => "thread-pool-rejected",
        Cause::SemaphoreRejected => "semaphore-rejected",
        Cause::Failure => "failure",
        Cause::Timeout => "timeout",
    }
}

/// A request with no value.
fn put_no_value(
    bytes: &mut Vec<u8>,
    cause: Cause,
    fallback: FallbackFault,
) -> Result<(), AllocError>
    ensures { Puts result bytes.old bytes.new (compact_text (error_answer_data cause fallback)) 100 }
{
    put_text(bytes, error_front(cause))?;
    put_text(bytes, error_back(fallback))
}

/// The metrics of a group.
fn put_metrics(bytes: &mut Vec<u8>, metrics: &Metrics) -> Result<(), AllocError>
    ensures { Puts result bytes.old bytes.new (compact_text (metrics_data metrics.now)) 1000 }
{
    put_with_number(bytes, r#"{"busy":"#, metrics.busy)?;
    put_with_number(bytes, circuit_front(metrics.circuit), metrics.errors)?;
    put_text(bytes, r#","events":"#)?;
    put_events(bytes, &metrics.counts)?;
    put_with_number(bytes, r#","free":"#, metrics.free)?;
    put_with_number(bytes, r#","percent":"#, metrics.percent)?;
    put_with_number(bytes, r#","queued":"#, metrics.queued)?;
    put_numbered(bytes, r#","reply":"metrics","total":"#, metrics.total)
}

/// How many events of each kind there were in all.
fn put_totals(bytes: &mut Vec<u8>, counts: &Counts) -> Result<(), AllocError>
    ensures { Puts result bytes.old bytes.new (compact_text (totals_data counts.now)) 700 }
{
    put_text(bytes, r#"{"events":"#)?;
    put_events(bytes, counts)?;
    put_text(bytes, r#","reply":"totals"}"#)
}

/// The names of the kinds of events, in their order, each as it stands before its count.
const KIND_FRONTS: [&str; 13] = [
    r#""BAD_REQUEST":"#,
    r#""EXCEPTION_THROWN":"#,
    r#""FAILURE":"#,
    r#""FALLBACK_FAILURE":"#,
    r#""FALLBACK_MISSING":"#,
    r#""FALLBACK_REJECTION":"#,
    r#""FALLBACK_SUCCESS":"#,
    r#""RESPONSE_FROM_CACHE":"#,
    r#""SEMAPHORE_REJECTED":"#,
    r#""SHORT_CIRCUITED":"#,
    r#""SUCCESS":"#,
    r#""THREAD_POOL_REJECTED":"#,
    r#""TIMEOUT":"#,
];

/// The object of each kind of event that there was, and how often.
fn put_events(bytes: &mut Vec<u8>, counts: &Counts) -> Result<(), AllocError>
    ensures { Puts result bytes.old bytes.new (compact_text (events_data counts.now)) 600 }
{
    let listed = [
        counts.bad_request,
        counts.exception_thrown,
        counts.failure,
        counts.fallback_failure,
        counts.fallback_missing,
        counts.fallback_rejection,
        counts.fallback_success,
        counts.response_from_cache,
        counts.semaphore_rejected,
        counts.short_circuited,
        counts.success,
        counts.thread_pool_rejected,
        counts.timeout,
    ];
    put_text(bytes, "{")?;
    put_counts(bytes, &KIND_FRONTS, &listed)?;
    put_text(bytes, "}")
}

/// Each count that is not 0 behind its front, with commas between.
fn put_counts(bytes: &mut Vec<u8>, fronts: &[&str], counts: &[u64]) -> Result<(), AllocError>
    ensures { Puts result bytes.old bytes.new (counts_text false (map (λ front. front.now) fronts.now) counts.now) (counts_most (map (λ front. front.now) fronts.now)) }
{
    let mut later = false;
    for (front, count) in fronts.iter().zip(counts) {
        put_count(bytes, later, front, *count)?;
        later |= *count != 0;
    }
    Ok(())
}

/// The count behind its front, unless it is 0.
fn put_count(bytes: &mut Vec<u8>, later: bool, front: &str, count: u64) -> Result<(), AllocError>
    ensures { Puts result bytes.old bytes.new (count_text later front.now count) (1 + (length front.now + 20)) }
{
    if count == 0 {
        return Ok(());
    }
    put_text(bytes, comma_if(later))?;
    put_with_number(bytes, front, count)
}

/// A comma, where something stands before.
fn comma_if(later: bool) -> &'static str
    ensures { result.now ≡ comma_if later }
{
    if later { "," } else { "" }
}

/// What stands before the ticket that needs a fallback for the cause.
#[tactic(auto, unfolding(json::specs::Print::escape_byte))]
fn fallback_due_front(cause: Cause) -> &'static str
    ensures text { (ticket : ℕ) → (result.now ++ decimal ticket) ++ codes "}" ≡ compact_text (fallback_due_data ticket cause) }
    ensures short { length result.now ≤ 70 }
{
    match cause {
        Cause::ShortCircuited => r#"{"cause":"short-circuited","reply":"fallback-due","ticket":"#,
        Cause::PoolRejected =>
            r#"{"cause":"thread-pool-rejected","reply":"fallback-due","ticket":"#,
        Cause::SemaphoreRejected =>
            r#"{"cause":"semaphore-rejected","reply":"fallback-due","ticket":"#,
        Cause::Failure => r#"{"cause":"failure","reply":"fallback-due","ticket":"#,
        Cause::Timeout => r#"{"cause":"timeout","reply":"fallback-due","ticket":"#,
    }
}

/// The object of a fallback that the holder is to run.
#[tactic(auto, unfolding(json::specs::Print::escape_byte))]
fn run_fallback_text(cause: Cause) -> &'static str
    ensures text { result.now ≡ compact_text (run_fallback_data cause) }
    ensures short { length result.now ≤ 60 }
{
    match cause {
        Cause::ShortCircuited => r#"{"cause":"short-circuited","reply":"run-fallback"}"#,
        Cause::PoolRejected => r#"{"cause":"thread-pool-rejected","reply":"run-fallback"}"#,
        Cause::SemaphoreRejected => r#"{"cause":"semaphore-rejected","reply":"run-fallback"}"#,
        Cause::Failure => r#"{"cause":"failure","reply":"run-fallback"}"#,
        Cause::Timeout => r#"{"cause":"timeout","reply":"run-fallback"}"#,
    }
}

/// What stands behind the body of a fallback for the cause.
fn fallback_value_back(cause: Cause) -> &'static str
    ensures text { result.now ≡ codes "\",\"cause\":" ++ (quoted (cause_word cause) ++ codes ",\"reply\":\"fallback-value\"}") }
    ensures short { length result.now ≤ 60 }
{
    match cause {
        Cause::ShortCircuited => r#"","cause":"short-circuited","reply":"fallback-value"}"#,
        Cause::PoolRejected => r#"","cause":"thread-pool-rejected","reply":"fallback-value"}"#,
        Cause::SemaphoreRejected => r#"","cause":"semaphore-rejected","reply":"fallback-value"}"#,
        Cause::Failure => r#"","cause":"failure","reply":"fallback-value"}"#,
        Cause::Timeout => r#"","cause":"timeout","reply":"fallback-value"}"#,
    }
}

/// The front of a request with no value, up to the reason why no fallback gave one.
#[tactic(auto, unfolding(json::specs::Print::escape_byte))]
fn error_front(cause: Cause) -> &'static str
    ensures text { result.now ≡ codes "{\"cause\":" ++ (quoted (cause_word cause) ++ codes ",\"fallback\":") }
    ensures short { length result.now ≤ 50 }
{
    match cause {
        Cause::ShortCircuited => r#"{"cause":"short-circuited","fallback":"#,
        Cause::PoolRejected => r#"{"cause":"thread-pool-rejected","fallback":"#,
        Cause::SemaphoreRejected => r#"{"cause":"semaphore-rejected","fallback":"#,
        Cause::Failure => r#"{"cause":"failure","fallback":"#,
        Cause::Timeout => r#"{"cause":"timeout","fallback":"#,
    }
}

/// The reason why no fallback gave a value, and what stands behind it.
#[tactic(auto, unfolding(json::specs::Print::escape_byte))]
fn error_back(fault: FallbackFault) -> &'static str
    ensures text { result.now ≡ quoted (fallback_word fault) ++ codes ",\"reply\":\"error\"}" }
    ensures short { length result.now ≤ 30 }
{
    match fault {
        FallbackFault::Failed => r#""failed","reply":"error"}"#,
        FallbackFault::Rejected => r#""rejected","reply":"error"}"#,
        FallbackFault::Missing => r#""missing","reply":"error"}"#,
        FallbackFault::Disabled => r#""disabled","reply":"error"}"#,
    }
}

/// What stands between the busy runs and the errors, for the state of a circuit.
#[tactic(auto, unfolding(json::specs::Print::escape_byte))]
fn circuit_front(circuit: CircuitState) -> &'static str
    ensures text { result.now ≡ codes ",\"circuit\":" ++ (quoted (circuit_word circuit) ++ codes ",\"errors\":") }
    ensures short { length result.now ≤ 40 }
{
    match circuit {
        CircuitState::Closed => r#","circuit":"closed","errors":"#,
        CircuitState::Open(_) => r#","circuit":"open","errors":"#,
        CircuitState::HalfOpen(_, _) => r#","circuit":"half-open","errors":"#,
    }
}
