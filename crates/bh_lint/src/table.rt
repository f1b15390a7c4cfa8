//! The tables of a settings file that are looked into.

ghost use Rattle.std.specs.Prelude.{◌≡◌, map, option_map};
ghost use Rattle.bh_props.specs.Tree.{keys_of, look_up};
ghost use Rattle.bh_props.specs.Found.{seen};
ghost use Rattle.toml.specs.View.{view};
ghost use Rattle.bh_lint.specs.Table.{part_name, part_keys, part_children, children, table_path};
ghost use Rattle.bh_lint.specs.Findings.{file_tables, tables_of};

use bh_props::{Scope, value_at};
use toml::Value;

/// A table that is looked into.
#[derive(Clone, Copy)]
pub enum Table {
    /// The whole file.
    Root,
    /// `service`
    Service,
    /// `hystrix`
    Hystrix,
    /// `hystrix.command`
    Commands,
    /// `hystrix.threadpool`
    Pools,
    /// `hystrix.command`, then the name of a group or a further command or `default`, then the part.
    Command(Part),
    /// `hystrix.threadpool`, then the name of a group or `default`.
    Pool,
}

/// A front of the dotted names of a command's properties, or nothing.
#[derive(Clone, Copy)]
pub enum Part {
    /// Nothing.
    Whole,
    /// `execution`
    Execution,
    /// `execution.isolation`
    Isolation,
    /// `execution.isolation.thread`
    Thread,
    /// `execution.isolation.semaphore`
    Semaphore,
    /// `execution.timeout`
    Timeout,
    /// `fallback`
    Fallback,
    /// `fallback.isolation`
    FallbackIsolation,
    /// `fallback.isolation.semaphore`
    FallbackSemaphore,
    /// `circuitBreaker`
    Circuit,
    /// `metrics`
    Metrics,
    /// `metrics.rollingStats`
    Rolling,
    /// `metrics.healthSnapshot`
    Health,
    /// `requestCache`
    Cache,
}

impl Part {
    /// The dotted name; none of the whole.
    pub fn name(self) -> Option<&'static str>
        ensures { option_map (λ s. s.now) result ≡ part_name self }
    {
        match self {
            Part::Whole => None,
            Part::Execution => Some("execution"),
            Part::Isolation => Some("execution.isolation"),
            Part::Thread => Some("execution.isolation.thread"),
            Part::Semaphore => Some("execution.isolation.semaphore"),
            Part::Timeout => Some("execution.timeout"),
            Part::Fallback => Some("fallback"),
            Part::FallbackIsolation => Some("fallback.isolation"),
            Part::FallbackSemaphore => Some("fallback.isolation.semaphore"),
            Part::Circuit => Some("circuitBreaker"),
            Part::Metrics => Some("metrics"),
            Part::Rolling => Some("metrics.rollingStats"),
            Part::Health => Some("metrics.healthSnapshot"),
            Part::Cache => Some("requestCache"),
        }
    }

    /// The names in it that are looked up.
    pub fn children(self) -> &'static [&'static str]
        ensures { map (λ s. s.now) result.now ≡ part_children self }
    {
        match self {
            Part::Whole => &[
                "execution",
                "fallback",
                "circuitBreaker",
                "metrics",
                "requestCache",
            ],
            Part::Execution => &["isolation", "timeout"],
            Part::Isolation => &["strategy", "thread", "semaphore"],
            Part::Thread => &["timeoutInMilliseconds"],
            Part::Semaphore => &["maxConcurrentRequests"],
            Part::Timeout => &["enabled"],
            Part::Fallback => &["isolation", "enabled"],
            Part::FallbackIsolation => &["semaphore"],
            Part::FallbackSemaphore => &["maxConcurrentRequests"],
            Part::Circuit => &[
                "enabled",
                "requestVolumeThreshold",
                "sleepWindowInMilliseconds",
                "errorThresholdPercentage",
                "forceOpen",
                "forceClosed",
            ],
            Part::Metrics => &["rollingStats", "healthSnapshot"],
            Part::Rolling => &["timeInMilliseconds", "numBuckets"],
            Part::Health => &["intervalInMilliseconds"],
            Part::Cache => &["enabled"],
        }
    }
}

impl Table {
    /// The tables of a group or `default`; a further command has all but the last.
    const OF_GROUP: [Table; 15] = [
        Table::Command(Part::Whole),
        Table::Command(Part::Execution),
        Table::Command(Part::Isolation),
        Table::Command(Part::Thread),
        Table::Command(Part::Semaphore),
        Table::Command(Part::Timeout),
        Table::Command(Part::Fallback),
        Table::Command(Part::FallbackIsolation),
        Table::Command(Part::FallbackSemaphore),
        Table::Command(Part::Circuit),
        Table::Command(Part::Metrics),
        Table::Command(Part::Rolling),
        Table::Command(Part::Health),
        Table::Command(Part::Cache),
        Table::Pool,
    ];

    /// The tables of the file itself, beside `service`.
    const OF_FILE: [Table; 4] = [Table::Root, Table::Hystrix, Table::Commands, Table::Pools];

    /// The tables of the file itself, beside `service`.
    #[tactic(auto, unfolding(crate::specs::Findings::file_tables))]
    pub(crate) fn of_file() -> &'static [Table]
        ensures { result.now ≡ file_tables }
    {
        &Table::OF_FILE
    }

    /// Those of a group, or of a further command.
    pub(crate) fn of_scope(scope: Scope) -> &'static [Table]
        ensures { result.now ≡ tables_of scope }
    {
        match scope {
            Scope::Group => &Table::OF_GROUP,
            Scope::Command => &Table::OF_GROUP[..14],
        }
    }

    /// The names in it that are looked up, beside those of groups and further commands.
    pub fn children(self) -> &'static [&'static str]
        ensures { map (λ s. s.now) result.now ≡ children self }
    {
        match self {
            Table::Root => &["service", "hystrix"],
            Table::Service => &["groups", "auditSteps", "slots", "command"],
            Table::Hystrix => &["command", "threadpool"],
            Table::Commands | Table::Pools => &["default"],
            Table::Command(part) => part.children(),
            Table::Pool => &["coreSize", "maxQueueSize", "queueSizeRejectionThreshold"],
        }
    }

    /// What stands at the table's place in a file, for the name where it is of one.
    pub(crate) fn value_in<'a>(self, root: &'a Value, name: &str) -> Option<&'a Value>
        ensures { seen result ≡ look_up (table_path self name.now) (view root.now) }
    {
        match self {
            Table::Root => Some(root),
            Table::Service => value_at(root, "service"),
            Table::Hystrix => value_at(root, "hystrix"),
            Table::Commands => value_at(root, "hystrix.command"),
            Table::Pools => value_at(root, "hystrix.threadpool"),
            Table::Command(part) => { part_in(value_at(root, "hystrix.command")?.get(name)?, part) }
            Table::Pool => value_at(root, "hystrix.threadpool")?.get(name),
        }
    }
}

/// What stands at the part of a command's table.
fn part_in(command: &Value, part: Part) -> Option<&Value>
    ensures { seen result ≡ look_up (part_keys part) (view command.now) }
{
    match part.name() {
        Some(name) => value_at(command, name),
        None => Some(command),
    }
}
