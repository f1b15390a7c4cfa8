//! A lender with one group, and steps of connections.

ghost use Rattle.std.specs.Prelude.{◌≤◌, length};
ghost use Rattle.bh_base.specs.Ranges.{IsCommandInRange};

use bh_audit::Book;
use bh_base::{CommandProps, GroupId, Metrics, Moment, Op, Reply, Request, Text};
use bh_core::Core;
use bh_lease::{Leases, Refusal};
use bh_lender::Lender;
use bh_scripts::samples::{own_request, props_of, step, text};
use std::process::Abort;

/// The one group.
pub(crate) const GROUP: GroupId = GroupId(0);

/// A lender with one group of one command.
pub(crate) fn lender_of<R: Abort + AllocGlobal>(rt: &R, command: CommandProps) -> Lender
    requires { IsCommandInRange command }
{
    let commands = vec![in rt.alloc(); command].expect(rt, "memory");
    let mut core = Core::new(rt.alloc(), 64);
    let told = core.register(&props_of(commands), 1_000_000);
    assert!(rt; told == Ok(GROUP), "{told:?}");
    let book = Book::new(rt.alloc(), core, None).ok().expect(rt, "memory");
    Lender::new(rt.alloc(), book, None)
}

/// The leases of a connection that may have so many, be within two contexts, and change no property.
pub(crate) fn leases_of<R: Abort + AllocGlobal>(rt: &R, limit: u32) -> Leases {
    Leases::new(rt.alloc(), limit, 2, false).expect(rt, "memory")
}

/// The leases of a connection that may change properties.
pub(crate) fn operator_of<R: Abort + AllocGlobal>(rt: &R) -> Leases {
    Leases::new(rt.alloc(), 2, 2, true).expect(rt, "memory")
}

/// A request that shares its answer in the context.
pub(crate) fn shared_submit(key: &str) -> Op
    requires { length key.now ≤ 32 }
{
    let request: Request = own_request(Some((1, text(key))), text("x"));
    Op::Submit(request)
}

/// The body of an answer.
pub(crate) fn body(of: &str) -> Text<256>
    requires { length of.now ≤ 256 }
{
    text(of)
}

/// Asserts what a step of the connection is answered.
pub(crate) fn assert_step<R: Abort>(
    rt: &R,
    lender: &mut Lender,
    leases: &mut Leases,
    now: Moment,
    op: &Op,
    want: Reply,
) {
    let mut reply = Reply::Idle;
    let made = lender.step(leases, &step(GROUP.0, now, op), &mut reply);
    assert!(rt; made == Ok(()), "{op:?}: {made:?}");
    assert!(rt; reply == want, "{op:?}: {reply:?}");
}

/// Asserts why an operation of the connection makes no step.
pub(crate) fn assert_refused<R: Abort>(
    rt: &R,
    lender: &mut Lender,
    leases: &mut Leases,
    op: &Op,
    want: Refusal,
) {
    let mut reply = Reply::Idle;
    let made = lender.step(leases, &step(GROUP.0, 0, op), &mut reply);
    assert!(rt; made == Err(want), "{op:?}: {made:?}");
}

/// The metrics of the group at the moment.
pub(crate) fn metrics<R: Abort + AllocGlobal>(rt: &R, lender: &mut Lender, now: Moment) -> Metrics {
    let mut nobody = leases_of(rt, 1);
    let mut reply = Reply::Idle;
    let read = Op::Read { command: 0 };
    let made = lender.step(&mut nobody, &step(GROUP.0, now, &read), &mut reply);
    assert!(rt; made == Ok(()), "{made:?}");
    match reply {
        Reply::Metrics(metrics) => metrics,
        _ => panic!(rt; "{reply:?}"),
    }
}
