//! The further commands, in a list for each group.

ghost use Rattle.std.specs.Prelude.{◌≡◌, ◌<◌, [], length, IfOk};
ghost use Rattle.bh_props.specs.ByGroup.{AreByGroup};

use crate::commands::Commands;
use bh_base::Text;
use std::alloc::{AllocError, Global};

/// A further command's name, with its group's place and its number there.
pub type Further = (Text<32>, (u32, u8));

/// The further commands of each of so many groups, by the groups' places; each group's in their order.
pub fn by_group(
    alloc: Global,
    groups: usize,
    commands: &Commands,
) -> Result<Vec<Vec<Further>>, AllocError>
    ensures groups { IfOk result (λ lists. length lists.items ≡ groups) }
    ensures further { IfOk result (λ lists. AreByGroup commands.now.entries lists.items) }
{
    let mut lists = no_lists(alloc, groups)?;
    for (name, command) in commands.iter() {
        let place = command.0 as usize;
        if place < groups {
            lists[place].push((*name, *command))?;
        }
    }
    Ok(lists)
}

/// So many empty lists.
fn no_lists(alloc: Global, groups: usize) -> Result<Vec<Vec<Further>>, AllocError>
    ensures groups { IfOk result (λ lists. length lists.items ≡ groups) }
    ensures empty { IfOk result (λ lists. AreByGroup [] lists.items) }
{
    let mut lists = Vec::with_capacity(alloc, groups)?;
    for _ in 0..groups {
        lists.push(Vec::new(alloc))?;
    }
    Ok(lists)
}
