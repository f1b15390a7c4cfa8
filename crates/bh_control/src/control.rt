//! The service that control lines are asked of, as a trait.

ghost use Rattle.std.specs.Prelude.{◌≡◌, ◌<◌, ℕ, length, Option, Result, Ok, Err, IfSome, MatchResult, option_map};
ghost use Rattle.bh_base.specs.declared.props.Tuning.{Tuning};
ghost use Rattle.bh_base.specs.declared.step.GroupId.{GroupId};
ghost use Rattle.bh_base.specs.declared.step.Request.{Request};
ghost use Rattle.bh_base.specs.declared.reply.Reply.{Reply};
ghost use Rattle.bh_base.specs.declared.reply.Reply.TheVariants as replies;
ghost use Rattle.bh_base.specs.declared.reply.Answer.{Answer};
ghost use Rattle.bh_base.specs.declared.reply.CallError.{CallError};
ghost use Rattle.bh_in_force.specs.declared.properties.InForce.{InForce};
ghost use Rattle.bh_lines.specs.Names.{Names, command_number};
ghost use Rattle.bh_lines.specs.StepLine.{group_number};

use bh_base::{Answer, CallError, GroupId, Reply, Request, Text, Tuning};
use bh_in_force::InForce;

/// A service that control lines are asked of. A group is meant by its place in `groups`, and a command by its number in its
/// group, 0 for the group's own. No call changes the names of either.
///
/// The type of the control names, whatever its value, what each call may answer for its arguments. A control whose
/// calls wait keeps the runtime that they wait by.
pub trait Control {
    // The names of the groups and of their commands.
    ghost names: { Self → Names };

    // The replies of a group that is asked for the metrics of its command of a number.
    ghost may_show: { GroupId → ℕ → Reply → Type 0 };

    // The answers to a request to a group.
    ghost may_answer: { GroupId → Request → Result Answer CallError → Type 0 };

    // The replies of a group in which a context ends.
    ghost may_close: { GroupId → ℕ → Reply → Type 0 };

    // The replies of a group that is asked for the totals of its command of a number.
    ghost may_total: { GroupId → ℕ → Reply → Type 0 };

    // The replies of a group of which a property changes, in its command of a number.
    ghost may_tune: { GroupId → ℕ → Tuning → Reply → Type 0 };

    // What may be in force of a group's command of a number.
    ghost may_force: { GroupId → ℕ → Option InForce → Type 0 };

    /// The names of the groups, in the order of their numbers.
    fn groups(&self) -> &[Text<32>]
        ensures { result.now ≡ (names self.now).groups };

    /// The number of the group's command of the name, if it has one: 0 for the name of the group.
    fn command(&self, group: GroupId, name: &str) -> Option<u8>
        ensures { result ≡ command_number (names self.now) group.0 name.now };

    /// The metrics of the group's command of the number, or why there are none, as `Worn`.
    fn metrics(&mut self, group: GroupId, command: u8) -> Reply
        requires { group.0 < length (names self.old).groups }
        ensures reply { may_show group command result }
        ensures groups { names self.new ≡ names self.old };

    /// The answer to a request to the group, or why there is none.
    fn call(&mut self, group: GroupId, request: Request) -> Result<Answer, CallError>
        requires { group.0 < length (names self.old).groups }
        ensures answer { may_answer group request result }
        ensures groups { names self.new ≡ names self.old };

    /// Asks as `call` does. An answer is written where the caller keeps it, as the reply that tells it: it is too long to be
    /// copied at each return. Where there is an error, what lies there means nothing.
    ///
    /// This copies the answer of `call`; a control that can write it there gives a body of its own.
    fn call_to(
        &mut self,
        group: GroupId,
        request: &Request,
        reply: &mut Reply,
    ) -> Result<(), CallError>
        requires { group.0 < length (names self.old).groups }
        ensures answer { MatchResult result (λ done. (answer : Answer) × (reply.new ≡ replies.Answered answer) × may_answer group request.now (Ok answer)) (λ error. may_answer group request.now (Err error)) }
        ensures groups { names self.new ≡ names self.old }
    {
        let answer = self.call(group, *request)?;
        *reply = Reply::Answered(answer);
        Ok(())
    }

    /// Ends the request context in the group: how many tickets are cached no longer, or `Worn`.
    fn close(&mut self, group: GroupId, context: u64) -> Reply
        requires { group.0 < length (names self.old).groups }
        ensures reply { may_close group context result }
        ensures groups { names self.new ≡ names self.old };

    /// How many events of each kind the group's command of the number has had in all, or why that is not told, as `Worn`.
    fn totals(&mut self, group: GroupId, command: u8) -> Reply
        requires { group.0 < length (names self.old).groups }
        ensures reply { may_total group command result }
        ensures groups { names self.new ≡ names self.old };

    /// Changes the property of the group's command of the number, or of its thread pool: `Tuned`, or why it stays as it was,
    /// as `Worn`.
    fn tune(&mut self, group: GroupId, command: u8, tuning: Tuning) -> Reply
        requires { group.0 < length (names self.old).groups }
        ensures reply { may_tune group command tuning result }
        ensures groups { names self.new ≡ names self.old };

    /// The properties that are in force of the group's command of the number, for which no step is made; None where the group
    /// is not registered any more.
    fn in_force(&self, group: GroupId, command: u8) -> Option<InForce>
        requires { group.0 < length (names self.now).groups }
        ensures { may_force group command result };

    /// The group of the name, if there is one: the first that has it.
    ///
    /// This goes through the names; a control with an index of them gives a body of its own.
    fn group(&self, name: &str) -> Option<GroupId>
        ensures number { option_map (λ group. group.0) result ≡ group_number (names self.now).groups name.now }
        ensures within { IfSome result (λ group. group.0 < length (names self.now).groups) }
    {
        group_at(self.groups(), name)
    }
}

/// The group of the name, by its place in the list.
fn group_at(names: &[Text<32>], name: &str) -> Option<GroupId>
    ensures number { option_map (λ group. group.0) result ≡ group_number names.now name.now }
    ensures within { IfSome result (λ group. group.0 < length names.now) }
{
    for (i, other) in names.iter().enumerate() {
        if other.as_str() == name {
            return Some(GroupId(i as u64));
        }
    }
    None
}
