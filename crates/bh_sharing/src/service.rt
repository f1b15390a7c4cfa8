//! What a service that connections share stands on, as a trait, and the groups that it is opened with.

ghost use Rattle.std.specs.Prelude.{◌≡◌, true};
ghost use Rattle.bh_sharing.specs.Service.{Facts};

use bh_base::Moment;

/// What a service that connections share stands on: the clock that each turn of its lock reads, and whether it was stopped.
///
/// No contract can name what lies under a lock, so the type names what contracts say of it. Code that does not know the type
/// can show these facts of the service that it was handed alone: it can't make groups, a moment or a stop of its own.
pub trait Service {
    /// With which groups such a service may be opened, which moments its clock may answer, and what is so once it was stopped.
    ghost facts: { Facts };

    /// The moment at hand, in milliseconds. It may go back: no turn of the service does.
    fn now(&self) -> Moment
        ensures { facts.moments result };

    /// Whether the service was stopped: then nobody waits any more. Once it was, it stays so.
    fn is_stopped(&self) -> bool
        ensures { result ≡ true → facts.stopped };
}
