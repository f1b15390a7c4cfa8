//! The commands that are told of, each with all that groups of its name came to.

ghost use Rattle.std.specs.Prelude.{◌≡◌, ℕ, ◌+◌, ◌^◌, ◌<◌, ◌++◌, List, length, map, unwrap_or, IfOk, OnOk};
ghost use Rattle.bh_props.specs.SettingsView.{SettingsView};
ghost use Rattle.bh_props.specs.Shown.{settings_view};
ghost use Rattle.bh_look.specs.Rows.{AreNamesIn, ArePlaces, name_kept, new_row, row_said, rows_of, tallies_in, with_row, with_tallies, with_tally};
ghost use Rattle.bh_look.specs.Times.{AreTimes};

use crate::lane::Lane;
use crate::tally::Tally;
use crate::times::Times;
use crate::watch::Watch;
use bh_base::Text;
use bh_port::groups::Entry;
use bh_props::Settings;
use indexmap::IndexMap;
use std::alloc::{AllocError, Global};

/// A command of the groups that had a name, one behind the other.
#[derive(Drop)]
pub struct Row {
    pub group: Text<32>,
    /// Its name: that of the group for the group's own.
    pub command: Text<32>,
    pub tally: Tally,
    pub times: Times,
}

/// The names of the further commands, by the places of their groups in the settings and their numbers there.
pub type FurtherNames = IndexMap<(u64, u64), Text<32>>;

/// The places of the rows, by the names of their groups and commands.
type Places = IndexMap<(Text<32>, Text<32>), usize>;

impl Row {
    /// A row of the names, with nothing in it.
    fn new(alloc: Global, group: Text<32>, command: Text<32>) -> Row
        ensures { row_said result ≡ new_row group command }
    {
        Row {
            group,
            command,
            tally: Tally::new(),
            times: Times::new(alloc),
        }
    }

    /// Adds what a command of the names came to.
    fn add(&mut self, lane: &Lane) -> Result<(), AllocError>
        ensures tally { OnOk result (row_said self.new ≡ with_tally lane.now.tally (row_said self.old)) }
        ensures times { OnOk result ((ts us : List ℕ) → AreTimes ts self.old.times → AreTimes us lane.now.times → length us + length ts < 2 ^ 64 → AreTimes (us ++ ts) self.new.times) }
    {
        self.tally.add(&lane.tally);
        self.times.add_all(&lane.times)
    }
}

/// The commands of all groups so far, in the order in which their groups were registered first, and within a group in that
/// of their numbers. It fails only for want of memory.
pub fn rows(alloc: Global, settings: &Settings, watch: &Watch) -> Result<Vec<Row>, AllocError>
    ensures { IfOk result (λ rows. map row_said rows.items ≡ rows_of (settings_view settings.now) watch.now.groups.entries (tallies_in watch.now.lanes.items)) }
{
    let names = further_names(alloc, settings)?;
    let mut rows = Vec::new(alloc);
    let mut places = IndexMap::new(alloc);
    for (entry, lanes) in watch.groups.entries().iter().zip(watch.lanes.iter()) {
        add_group(alloc, &names, entry, lanes, &mut rows, &mut places)?;
    }
    Ok(rows)
}

/// The names of the further commands of the settings. It fails only for want of memory.
pub fn further_names(alloc: Global, settings: &Settings) -> Result<FurtherNames, AllocError>
    ensures { IfOk result (AreNamesIn (settings_view settings.now)) }
{
    let mut names = IndexMap::new(alloc);
    for (name, (place, number)) in settings.commands.iter() {
        let key = (u64::from(*place), u64::from(*number));
        if !names.contains_key(&key) {
            names.insert(key, *name)?;
        }
    }
    Ok(names)
}

/// The name of the command of the number in a group of the name, like that at the place in the settings: the own one has
/// the group's.
pub fn command_name(names: &FurtherNames, group: Text<32>, like: u64, number: u64) -> Text<32>
    ensures { result ≡ unwrap_or (name_kept names.now like number) group }
{
    if number == 0 {
        return group;
    }
    names.get(&(like, number)).copied().unwrap_or(group)
}

/// Adds what the commands of a group came to, each to the row of its name.
fn add_group(
    alloc: Global,
    names: &FurtherNames,
    entry: &Entry,
    lanes: &[Lane],
    rows: &mut Vec<Row>,
    places: &mut Places,
) -> Result<(), AllocError>
    requires { ArePlaces (map row_said rows.old.items) places.old }
    ensures places { OnOk result (ArePlaces (map row_said rows.new.items) places.new) }
    ensures rows { OnOk result ((service : SettingsView) → AreNamesIn service names.now →
        map row_said rows.new.items ≡ with_tallies service entry.now 0 (map (λ lane. lane.tally) lanes.now) (map row_said rows.old.items)) }
{
    for (number, lane) in lanes.iter().enumerate() {
        let command = command_name(names, entry.name, entry.like, number as u64);
        add_lane(alloc, entry.name, command, lane, rows, places)?;
    }
    Ok(())
}

/// Adds what a command of the names came to, to their row, or to a new one where there was none.
fn add_lane(
    alloc: Global,
    group: Text<32>,
    command: Text<32>,
    lane: &Lane,
    rows: &mut Vec<Row>,
    places: &mut Places,
) -> Result<(), AllocError>
    requires { ArePlaces (map row_said rows.old.items) places.old }
    ensures places { OnOk result (ArePlaces (map row_said rows.new.items) places.new) }
    ensures rows { OnOk result (map row_said rows.new.items ≡ with_row group command lane.now.tally (map row_said rows.old.items)) }
{
    if let Some(place) = places.get(&(group, command)) {
        return rows[*place].add(lane);
    }
    let mut row = Row::new(alloc, group, command);
    row.add(lane)?;
    places.insert((group, command), rows.len())?;
    rows.push(row)?;
    Ok(())
}
