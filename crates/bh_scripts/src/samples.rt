//! Settings, steps and requests as most tests want them.

ghost use Rattle.std.specs.Prelude.{◌≡◌, ◌≤◌, length, None, true};
ghost use Rattle.std.specs.List.{AllByRecursion};
ghost use Rattle.bh_base.specs.Ranges.{IsCommandInRange, IsInRange};
ghost use Rattle.bh_base.specs.declared.props.Strategy.TheVariants as strategies;
ghost use Rattle.bh_base.specs.declared.step.Op.TheVariants as operations;

use bh_base::{CommandProps, Counts, GroupId, GroupProps, Op, Request, Step, Strategy, Text};

/// The settings of a command that are built in.
pub fn command() -> CommandProps
    ensures { IsCommandInRange result }
{
    CommandProps {
        strategy: Strategy::Thread,
        timeout_ms: 1000,
        timeout_on: true,
        semaphore: 10,
        fallback_permits: 10,
        fallback_on: true,
        circuit_on: true,
        volume: 20,
        sleep_ms: 5000,
        percent: 50,
        force_open: false,
        force_closed: false,
        window_ms: 10_000,
        buckets: 10,
        health_ms: 500,
        cache_on: true,
    }
}

/// The same, save that callers run their requests themselves.
pub fn command_by_callers() -> CommandProps
    ensures in_range { IsCommandInRange result }
    ensures by_callers { result.strategy ≡ strategies.Semaphore }
{
    CommandProps {
        strategy: Strategy::Semaphore,
        ..command()
    }
}

/// The settings of a group that are built in, with those of its commands.
pub fn props_of(commands: Vec<CommandProps>) -> GroupProps
    requires some { 1 ≤ length commands.items }
    requires few { length commands.items ≤ 16 }
    requires commands { AllByRecursion IsCommandInRange commands.items }
    ensures in_range { IsInRange result }
    ensures commands { result.commands ≡ commands.items }
{
    GroupProps {
        slots: 64,
        core: 10,
        max_queue: None,
        queue_threshold: 5,
        commands,
    }
}

/// No event of any kind.
pub const NO_EVENTS: Counts = Counts {
    bad_request: 0,
    exception_thrown: 0,
    failure: 0,
    fallback_failure: 0,
    fallback_missing: 0,
    fallback_rejection: 0,
    fallback_success: 0,
    response_from_cache: 0,
    semaphore_rejected: 0,
    short_circuited: 0,
    success: 0,
    thread_pool_rejected: 0,
    timeout: 0,
};

/// Whether the settings are those that are built in, with these commands.
pub fn are_built_in(props: &GroupProps, commands: &[CommandProps]) -> bool
    ensures slots { result ≡ true → props.now.slots ≡ 64 }
    ensures core { result ≡ true → props.now.core ≡ 10 }
    ensures queue { result ≡ true → props.now.max_queue ≡ None }
    ensures threshold { result ≡ true → props.now.queue_threshold ≡ 5 }
{
    let numbers = (
        props.slots,
        props.core,
        props.max_queue,
        props.queue_threshold,
    );
    numbers == (64, 10, None, 5) && props.commands.as_slice() == commands
}

/// A step of the group at the moment.
pub fn step(group: u64, now: u64, op: &Op) -> Step
    ensures { result ≡ record { group = record { 0 = group }; now = now; op = op.now } }
{
    Step {
        group: GroupId(group),
        now,
        op: *op,
    }
}

/// The text, which has to fit.
pub fn text<const N: usize>(of: &str) -> Text<N>
    requires fits { length of.now ≤ N }
    ensures { result ≡ of.now }
{
    Text::new(of).unwrap()
}

/// A request of the group's own command.
pub fn own_request(cache: Option<(u64, Text<32>)>, arg: Text<64>) -> Request
    ensures { result ≡ record { command = 0; cache = cache; arg = arg } }
{
    Request {
        command: 0,
        cache,
        arg,
    }
}

/// Asks for a run that is not cached.
pub fn submit(arg: &str) -> Op
    requires fits { length arg.now ≤ 64 }
    ensures { result ≡ operations.Submit (record { command = 0; cache = None; arg = arg.now }) }
{
    Op::Submit(own_request(None, text(arg)))
}
