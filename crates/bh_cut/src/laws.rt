//! What follows for scripts of which some groups were cut out. The functions here do nothing: their contracts are the laws.

ghost use Rattle.std.specs.Prelude.{ℕ, List};
ghost use Rattle.bh_props.specs.SettingsView.{SettingsView};
ghost use Rattle.bh_cut.specs.Alike.{IsAnsweredAlike, TextIsAnswers};

/// The lines that are kept of a script are answered as they were in the whole, whatever the settings, the groups and the
/// lines.
pub fn cut_lines_are_answered_alike()
    ensures { (service : SettingsView) (names : List (List ℕ)) (input : List ℕ) → IsAnsweredAlike service names input }
{}

/// The text that a script writes is that of the answers to its lines, one behind the other.
pub fn a_text_is_its_answers()
    ensures { TextIsAnswers }
{}
