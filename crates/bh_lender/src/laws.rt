//! What a log and an account have of the steps that were made. The functions here do nothing: their contracts are the laws.

ghost use Rattle.bh_lender.specs.Laws.{AreInAccount, AreLogged, AreOneList, IsFront};

/// Steps that were made one after another stand in the log, where one is kept: each of them, once, and in their order.
pub fn steps_are_logged()
    ensures { AreLogged }
{}

/// Steps that were made one after another stand in the account, where one is kept: behind what it had, the journal of each
/// group has exactly those of them that were of this group and were no refusal, with the replies that they got, each once and
/// in their order. Each of those has a journal to stand in, and each journal is still a run of its group's machine that agrees
/// with what the group shows. Where no account is kept, the journals stay as they were.
///
/// A lender makes no step but these: by `turns_are_steps` those of a turn are one such list. So each step that a connection
/// asked for, that a timer made, or by which something was given back or collected for a connection that is gone, is in the
/// account exactly once, with its true reply. That the journals agree with the groups to begin with is what
/// `Book::journals_agree` says, and `Lender::journals_agree` of any time after.
pub fn the_account_has_each_step()
    ensures { AreInAccount }
{}

/// The steps of a turn are one list.
pub fn turns_are_steps()
    ensures { AreOneList }
{}

/// What a log has is a front of what was put into it, and once it has lost a step it takes no more.
pub fn a_log_is_a_front()
    ensures { IsFront }
{}
