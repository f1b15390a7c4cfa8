//! The properties of a group and of its commands (Hystrix wiki, "Configuration").

ghost use Rattle.std.specs.Prelude.{◌≡◌, ◌<◌, IfOk};
ghost use Rattle.bh_base.specs.Commands.{command_count, props_of};
ghost use Rattle.bh_base.specs.Tunings.{command_tuned, group_tuned, is_within};

use std::alloc::AllocError;
use std::marker::Model;

/// Who runs the dependency (`execution.isolation.strategy`).
#[derive(Clone, Copy, Debug, PartialEq, Eq)]
pub enum Strategy {
    /// A worker of the group's thread pool.
    Thread,
    /// The caller, under one of the command's permits.
    Semaphore,
}

/// The properties of a command. The range of a number without one of its own is 0 to 4,294,967,295.
#[derive(Clone, Copy, Debug, PartialEq, Eq)]
pub struct CommandProps {
    /// `execution.isolation.strategy`.
    pub strategy: Strategy,
    /// `execution.isolation.thread.timeoutInMilliseconds`: from its submit until a ticket is due.
    pub timeout_ms: u64,
    /// `execution.timeout.enabled`: whether runs time out.
    pub timeout_on: bool,
    /// `execution.isolation.semaphore.maxConcurrentRequests`: permits for runs by the caller.
    pub semaphore: u64,
    /// `fallback.isolation.semaphore.maxConcurrentRequests`: permits for fallbacks.
    pub fallback_permits: u64,
    /// `fallback.enabled`.
    pub fallback_on: bool,
    /// `circuitBreaker.enabled`.
    pub circuit_on: bool,
    /// `circuitBreaker.requestVolumeThreshold`: with fewer runs in the window the circuit stays closed.
    pub volume: u64,
    /// `circuitBreaker.sleepWindowInMilliseconds`: from opening until a test call may pass.
    pub sleep_ms: u64,
    /// `circuitBreaker.errorThresholdPercentage`.
    pub percent: u64,
    /// `circuitBreaker.forceOpen`.
    pub force_open: bool,
    /// `circuitBreaker.forceClosed`.
    pub force_closed: bool,
    /// `metrics.rollingStats.timeInMilliseconds`: 1 to 3,600,000, a multiple of the buckets.
    pub window_ms: u64,
    /// `metrics.rollingStats.numBuckets`: 1 to 60.
    pub buckets: u64,
    /// `metrics.healthSnapshot.intervalInMilliseconds`.
    pub health_ms: u64,
    /// `requestCache.enabled`.
    pub cache_on: bool,
}

/// A property that may change while a group runs, with the value that it gets: one of a command, or of the group's thread
/// pool. Each value has the range of its property; slots, strategy, window, buckets and the queue's size never change, since
/// what tickets and counts rest on was reserved by them.
#[derive(Clone, Copy, Debug, PartialEq, Eq)]
pub enum Tuning {
    /// `CommandProps::timeout_ms`.
    Timeout(u64),
    /// `CommandProps::timeout_on`.
    TimeoutOn(bool),
    /// `CommandProps::semaphore`.
    Semaphore(u64),
    /// `CommandProps::fallback_permits`.
    FallbackPermits(u64),
    /// `CommandProps::fallback_on`.
    FallbackOn(bool),
    /// `CommandProps::circuit_on`.
    CircuitOn(bool),
    /// `CommandProps::volume`.
    Volume(u64),
    /// `CommandProps::sleep_ms`.
    SleepWindow(u64),
    /// `CommandProps::percent`.
    ErrorPercent(u64),
    /// `CommandProps::force_open`.
    ForceOpen(bool),
    /// `CommandProps::force_closed`.
    ForceClosed(bool),
    /// `CommandProps::health_ms`.
    HealthInterval(u64),
    /// `CommandProps::cache_on`.
    CacheOn(bool),
    /// `GroupProps::core`, of whichever command it is said.
    CoreSize(u64),
    /// `GroupProps::queue_threshold`, of whichever command it is said.
    QueueThreshold(u64),
}

/// The properties of a group: its slots and its thread pool, which its commands share, and those of each command. The
/// range of a number without one of its own is 0 to 4,294,967,295.
#[derive(Clone, Debug, Drop)]
pub struct GroupProps {
    /// Tickets at a time, 1 to 4,096 (this service's own).
    pub slots: u64,
    /// `coreSize`: workers, 1 to 64.
    pub core: u64,
    /// `maxQueueSize`: above 0, or None, which stands for -1, no queue.
    pub max_queue: Option<u64>,
    /// `queueSizeRejectionThreshold`: as many may wait, if the queue is longer.
    pub queue_threshold: u64,
    /// 1 to 16 commands by their numbers; number 0 is the group's own.
    pub commands: Vec<CommandProps>,
}

/// The greatest value of a number that has no range of its own.
const MOST: u64 = 4_294_967_295;

impl Tuning {
    /// Whether the value is within the range of its property.
    pub fn is_within(&self) -> bool
        ensures { result ≡ is_within self.now }
    {
        match self {
            Tuning::Timeout(number) => *number <= MOST,
            Tuning::Semaphore(number) => *number <= MOST,
            Tuning::FallbackPermits(number) => *number <= MOST,
            Tuning::Volume(number) => *number <= MOST,
            Tuning::SleepWindow(number) => *number <= MOST,
            Tuning::ErrorPercent(number) => *number <= MOST,
            Tuning::HealthInterval(number) => *number <= MOST,
            Tuning::QueueThreshold(number) => *number <= MOST,
            Tuning::CoreSize(number) => *number >= 1 && *number <= 64,
            _ => true,
        }
    }
}

impl CommandProps {
    /// The property gets the value, where it is one of a command.
    pub fn tune(&mut self, tuning: &Tuning)
        ensures { self.new ≡ command_tuned tuning.now self.old }
    {
        match tuning {
            Tuning::Timeout(number) => self.timeout_ms = *number,
            Tuning::TimeoutOn(truth) => self.timeout_on = *truth,
            Tuning::Semaphore(number) => self.semaphore = *number,
            Tuning::FallbackPermits(number) => self.fallback_permits = *number,
            Tuning::FallbackOn(truth) => self.fallback_on = *truth,
            Tuning::CircuitOn(truth) => self.circuit_on = *truth,
            Tuning::Volume(number) => self.volume = *number,
            Tuning::SleepWindow(number) => self.sleep_ms = *number,
            Tuning::ErrorPercent(number) => self.percent = *number,
            Tuning::ForceOpen(truth) => self.force_open = *truth,
            Tuning::ForceClosed(truth) => self.force_closed = *truth,
            Tuning::HealthInterval(number) => self.health_ms = *number,
            Tuning::CacheOn(truth) => self.cache_on = *truth,
            Tuning::CoreSize(_) => {}
            Tuning::QueueThreshold(_) => {}
        }
    }
}

impl Model for GroupProps {
    ghost use Rattle.bh_base.specs.Props.{GroupProps as GroupPropsValue};

    ghost Value = { GroupPropsValue };

    ghost view = { λ p. record { slots = p.slots; core = p.core; max_queue = p.max_queue; queue_threshold = p.queue_threshold; commands = p.commands.items } };
}

impl GroupProps {
    /// The properties of the command of the number.
    pub fn command(&self, number: u8) -> &CommandProps
        requires { number < command_count self.now }
        ensures { result.now ≡ props_of number self.now }
    {
        &self.commands[number as usize]
    }

    /// The property of the pool, or of the command of the number, gets the value.
    pub fn tune(&mut self, command: u8, tuning: &Tuning)
        requires { command < command_count self.old }
        ensures { self.new ≡ group_tuned tuning.now command self.old }
    {
        match tuning {
            Tuning::CoreSize(number) => self.core = *number,
            Tuning::QueueThreshold(number) => self.queue_threshold = *number,
            _ => self.commands[command as usize].tune(tuning),
        }
    }

    /// Equal properties, where there is memory for them.
    pub fn copied(&self) -> Result<Self, AllocError>
        ensures { IfOk result (λ made. made ≡ self.now) }
    {
        self.clone()
    }
}
