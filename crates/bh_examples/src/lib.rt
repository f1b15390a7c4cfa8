//! Worked examples of the one-group machine: scripts of steps, each with the reply that the definitions give to it.
//!
//! Each function carries the examples of one part as its contract, and does nothing when it runs. An example is a clause
//! by its name: the machine, newly opened with the settings, answers a group's own steps as the lines say
//! (`specs/Words.antt`). The group is `a` or `b`, as the last letter of the name says; where a script has steps of both,
//! each group has a clause.
#![tactic(auto)]

ghost use Rattle.bh_examples.specs.Admission.{TwoGroupsOneTicketEachA, TwoGroupsOneTicketEachB, FirstPathA, PoolWithoutQueueRejectsA, ThresholdBoundsTheQueueA, PermitsAndDisabledFallbackA, PermitsAndDisabledFallbackB, FullGroupLeavesAnotherAloneA, FullGroupLeavesAnotherAloneB, FullIsAStepA, FullMovesTimeA, QueueLengthsA, QueueLengthsB, WornAtTheStepLimitA, WornAtTheStepLimitB};
ghost use Rattle.bh_examples.specs.Cache.{CachedNameSharesARunA, JoinedFallbackA, CacheOffA, JoinedWhileQueuedA, OtherKeyA, ClosedWhileHeldA};
ghost use Rattle.bh_examples.specs.Circuit.{FailuresOpenOneCircuitA, FailuresOpenOneCircuitB, SleepWindowAdmitsOneTestA, BadTestKeepsItsOpeningA, RejectedTestOpensAnewA, RejectedTestOpensAnewB, ForcedOpenWithoutFallbackA, SnapshotLastsItsIntervalA, EmptyHealthOpensA, EmptyHealthOpensB, TestRejectedA, FullAsksNothingA, ClosingDropsSnapshotA, ForcedA, ForcedB, ForcedClosedA};
ghost use Rattle.bh_examples.specs.Commands.{CircuitsAreTheCommandsA, PoolIsOfTheThreadCommandsA, TimeoutsAreTheCommandsA, UnknownCommandsTakeNoStepA};
ghost use Rattle.bh_examples.specs.Fallback.{FallbackPermitsRejectA, DisabledOnceA, NoPermitsA, PermitsOfTheirOwnA, MissingThrowsA};
ghost use Rattle.bh_examples.specs.Health.{CountsLeaveWithTheirBucketA, PercentFloorA, PercentFloorB, BadIsNoHealthA, SemaphoreHealthA, LatestMomentStaysA, EachGroupHasItsMomentsA, EachGroupHasItsMomentsB};
ghost use Rattle.bh_examples.specs.Timeouts.{TimedOutRunStaysBusyA, QueuedTicketsTimeOutA, TimedOutTestOpensAnewA, LateTestA, BusyAloneKeepsA};
ghost use Rattle.bh_examples.specs.Totals.{CountedBeyondTheWindowA, CountedOverAClosingA, TotalsAreTheCommandsA};
ghost use Rattle.bh_examples.specs.Tuning.{ForcedOpenAndBackA, FewerPermitsThanTakenA, TimeoutOfRunsUnderWayA, SmallerPoolAndBackA, OutOfItsRangeA, TunesAreTheCommandsA, OpenCircuitOffAndOnA, CacheOffAndOnA};

/// Slots, pools, queues and permits: who is let in, and what is told to the others.
pub fn admission()
    ensures two_groups_one_ticket_each_a { TwoGroupsOneTicketEachA }
    ensures two_groups_one_ticket_each_b { TwoGroupsOneTicketEachB }
    ensures first_path_a { FirstPathA }
    ensures pool_without_queue_rejects_a { PoolWithoutQueueRejectsA }
    ensures threshold_bounds_the_queue_a { ThresholdBoundsTheQueueA }
    ensures permits_and_disabled_fallback_a { PermitsAndDisabledFallbackA }
    ensures permits_and_disabled_fallback_b { PermitsAndDisabledFallbackB }
    ensures full_group_leaves_another_alone_a { FullGroupLeavesAnotherAloneA }
    ensures full_group_leaves_another_alone_b { FullGroupLeavesAnotherAloneB }
    ensures full_is_a_step_a { FullIsAStepA }
    ensures full_moves_time_a { FullMovesTimeA }
    ensures queue_lengths_a { QueueLengthsA }
    ensures queue_lengths_b { QueueLengthsB }
    ensures worn_at_the_step_limit_a { WornAtTheStepLimitA }
    ensures worn_at_the_step_limit_b { WornAtTheStepLimitB }
{}

/// The request cache: which requests share a run, and until when.
pub fn cache()
    ensures cached_name_shares_a_run_a { CachedNameSharesARunA }
    ensures joined_fallback_a { JoinedFallbackA }
    ensures cache_off_a { CacheOffA }
    ensures joined_while_queued_a { JoinedWhileQueuedA }
    ensures other_key_a { OtherKeyA }
    ensures closed_while_held_a { ClosedWhileHeldA }
{}

/// The circuit breaker: when it opens, tests and closes, and what forces it.
pub fn circuit()
    ensures failures_open_one_circuit_a { FailuresOpenOneCircuitA }
    ensures failures_open_one_circuit_b { FailuresOpenOneCircuitB }
    ensures sleep_window_admits_one_test_a { SleepWindowAdmitsOneTestA }
    ensures bad_test_keeps_its_opening_a { BadTestKeepsItsOpeningA }
    ensures rejected_test_opens_anew_a { RejectedTestOpensAnewA }
    ensures rejected_test_opens_anew_b { RejectedTestOpensAnewB }
    ensures forced_open_without_fallback_a { ForcedOpenWithoutFallbackA }
    ensures snapshot_lasts_its_interval_a { SnapshotLastsItsIntervalA }
    ensures empty_health_opens_a { EmptyHealthOpensA }
    ensures empty_health_opens_b { EmptyHealthOpensB }
    ensures test_rejected_a { TestRejectedA }
    ensures full_asks_nothing_a { FullAsksNothingA }
    ensures closing_drops_snapshot_a { ClosingDropsSnapshotA }
    ensures forced_a { ForcedA }
    ensures forced_b { ForcedB }
    ensures forced_closed_a { ForcedClosedA }
{}

/// Groups of several commands, and steps of a command that the group lacks.
pub fn commands()
    ensures circuits_are_the_commands_a { CircuitsAreTheCommandsA }
    ensures pool_is_of_the_thread_commands_a { PoolIsOfTheThreadCommandsA }
    ensures timeouts_are_the_commands_a { TimeoutsAreTheCommandsA }
    ensures unknown_commands_take_no_step_a { UnknownCommandsTakeNoStepA }
{}

/// Fallbacks: their permits, and what is answered where there is none.
pub fn fallback()
    ensures fallback_permits_reject_a { FallbackPermitsRejectA }
    ensures disabled_once_a { DisabledOnceA }
    ensures no_permits_a { NoPermitsA }
    ensures permits_of_their_own_a { PermitsOfTheirOwnA }
    ensures missing_throws_a { MissingThrowsA }
{}

/// Rolling counts and health: what is counted, and when it leaves the window.
pub fn health()
    ensures counts_leave_with_their_bucket_a { CountsLeaveWithTheirBucketA }
    ensures percent_floor_a { PercentFloorA }
    ensures percent_floor_b { PercentFloorB }
    ensures bad_is_no_health_a { BadIsNoHealthA }
    ensures semaphore_health_a { SemaphoreHealthA }
    ensures latest_moment_stays_a { LatestMomentStaysA }
    ensures each_group_has_its_moments_a { EachGroupHasItsMomentsA }
    ensures each_group_has_its_moments_b { EachGroupHasItsMomentsB }
{}

/// Timeouts, and runs that end late.
pub fn timeouts()
    ensures timed_out_run_stays_busy_a { TimedOutRunStaysBusyA }
    ensures queued_tickets_time_out_a { QueuedTicketsTimeOutA }
    ensures timed_out_test_opens_anew_a { TimedOutTestOpensAnewA }
    ensures late_test_a { LateTestA }
    ensures busy_alone_keeps_a { BusyAloneKeepsA }
{}

/// The numbers of all events since a group was registered.
pub fn totals()
    ensures counted_beyond_the_window_a { CountedBeyondTheWindowA }
    ensures counted_over_a_closing_a { CountedOverAClosingA }
    ensures totals_are_the_commands_a { TotalsAreTheCommandsA }
{}

/// Properties that change while a group runs.
pub fn tuning()
    ensures forced_open_and_back_a { ForcedOpenAndBackA }
    ensures fewer_permits_than_taken_a { FewerPermitsThanTakenA }
    ensures timeout_of_runs_under_way_a { TimeoutOfRunsUnderWayA }
    ensures smaller_pool_and_back_a { SmallerPoolAndBackA }
    ensures out_of_its_range_a { OutOfItsRangeA }
    ensures tunes_are_the_commands_a { TunesAreTheCommandsA }
    ensures open_circuit_off_and_on_a { OpenCircuitOffAndOnA }
    ensures cache_off_and_on_a { CacheOffAndOnA }
{}
