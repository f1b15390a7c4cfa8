//! What the JSON of a line of a script asks for.

ghost use Rattle.std.specs.Prelude.{◌≡◌};
ghost use Rattle.bh_lines.specs.Flat.{members_data};
ghost use Rattle.bh_lines.specs.ScriptLine.{line_word, asked_at, asked_by, found_asked};

use crate::members::Members;
use crate::step_line::{OpWord, StepLine, op_word, step_said};
use bh_faults::Fault;

/// What a line can ask for by the word that it names: a step, or a group that comes or goes.
#[derive(Clone, Copy, Debug, PartialEq, Eq)]
pub enum LineWord {
    Step(OpWord),
    Register,
    Retire,
}

/// What a line asks for, with its texts where they stand, of any length.
#[derive(Clone, Copy, Debug)]
pub enum ScriptLine<'a> {
    Step(StepLine<'a>),
    /// A group of the name is to come, with the properties and the further commands of the group `like` of the settings.
    Register { group: &'a str, like: &'a str },
    /// The group of the name is to go.
    Retire { group: &'a str },
}

/// What the members ask for, whatever groups and commands there are. `Field` comes where there is no object or a member
/// is missing or of another type, and `Op` where nothing has the name that `op` says.
#[inline(always)]
pub fn asked_at(members: Members<'_>) -> Result<ScriptLine<'_>, Fault>
    ensures { found_asked result ≡ asked_at (members_data members.entry) }
{
    let name = members.text("op").ok_or(Fault::Field)?;
    let word = line_word(name).ok_or(Fault::Op)?;
    asked_by(word, members)
}

/// What a line asks for by this word.
fn line_word(name: &str) -> Option<LineWord>
    ensures { result ≡ line_word name.now }
{
    match name {
        "register" => Some(LineWord::Register),
        "retire" => Some(LineWord::Retire),
        _ => {
            let word = op_word(name)?;
            Some(LineWord::Step(word))
        }
    }
}

/// What the members ask for by the word, or `Field` where one is missing or of another type.
#[inline(always)]
fn asked_by(word: LineWord, members: Members<'_>) -> Result<ScriptLine<'_>, Fault>
    ensures { found_asked result ≡ asked_by word (members_data members.entry) }
{
    Ok(match word {
        LineWord::Step(word) => ScriptLine::Step(step_said(word, members)?),
        LineWord::Register => ScriptLine::Register {
            group: members.text("group").ok_or(Fault::Field)?,
            like: members.text("like").ok_or(Fault::Field)?,
        },
        LineWord::Retire => ScriptLine::Retire {
            group: members.text("group").ok_or(Fault::Field)?,
        },
    })
}
