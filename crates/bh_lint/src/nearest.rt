//! The name that is nearest to one that nothing looks up.

use crate::finding::shown;
use crate::table::Table;
use bh_base::Text;
use bh_props::{Commands, Names};
use std::alloc::{AllocError, Global};
use strsim::osa_distance;

/// The most groups and further commands among which a nearest name is sought: beyond, it would take longer than the
/// reading of the file.
const MOST_SOUGHT: usize = 256;

/// The nearest name so far.
#[derive(Drop)]
struct Closest<'a> {
    /// The name that is not looked up.
    key: &'a str,
    /// How many letters it has.
    letters: usize,
    /// How many edits lead from it to the nearest, or one more than may.
    distance: usize,
    /// The nearest; empty where none is near.
    name: Text<64>,
}

impl<'a> Closest<'a> {
    /// None yet. At most a third of the letters may differ, and one always.
    fn new(key: &'a str) -> Closest<'a> {
        let letters = key.chars().count();
        Closest {
            key,
            letters,
            distance: 2usize.max(letters / 3 + 1),
            name: shown(""),
        }
    }

    /// Takes the name, of letters of one byte each, where it is nearer.
    fn offer(&mut self, alloc: Global, name: &str) -> Result<(), AllocError> {
        if name == self.key || name.len().abs_diff(self.letters) >= self.distance {
            return Ok(());
        }
        let distance = osa_distance(alloc, self.key, name)?;
        if distance < self.distance {
            self.distance = distance;
            self.name = shown(name);
        }
        Ok(())
    }
}

/// The name of the table that is looked up and is nearest to the key; empty where none is near.
pub(crate) fn nearest(
    alloc: Global,
    table: Table,
    names: &Names,
    commands: &Commands,
    key: &str,
) -> Result<Text<64>, AllocError> {
    let mut nearest = Closest::new(key);
    for name in table.children() {
        nearest.offer(alloc, *name)?;
    }
    if matches!(table, Table::Commands | Table::Pools) && names.texts.len() <= MOST_SOUGHT {
        for name in names.texts.iter() {
            nearest.offer(alloc, name.as_str())?;
        }
    }
    if matches!(table, Table::Commands) && commands.len() <= MOST_SOUGHT {
        for (name, _) in commands.iter() {
            nearest.offer(alloc, name.as_str())?;
        }
    }
    Ok(nearest.name)
}
