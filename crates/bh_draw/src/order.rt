//! Which commands are drawn, and in which order they are told of.

ghost use Rattle.std.specs.Prelude.{◌≡◌, ◌==◌, ◌&&◌, take, IfOk, ◌-◌, ◌^◌};
ghost use Rattle.std.specs.List.{list_any};
ghost use Rattle.std.specs.List.Sorted.{IsNonDecreasingBy};
ghost use Rattle.bh_draw.specs.Bars.{without_value};

use bh_columns::chart::{Chart, Lane, Panel};
use std::alloc::{AllocError, Global};

/// So many commands are drawn at most.
pub(crate) const MOST_DRAWN: usize = 20;

/// A command by its place, in the order of what was no value: the greatest number first, and of equal ones that of the
/// fewest requests.
#[derive(Clone, Copy, PartialEq, Eq, PartialOrd, Ord)]
pub(crate) struct Ranked {
    /// 2^64 - 1 less the requests without a value.
    pub rank: u64,
    pub requests: u64,
    /// The place of its panel, and its place there.
    pub panel: usize,
    pub lane: usize,
}

/// How many requests of the command were answered by no value.
pub(crate) fn without_value(lane: &Lane) -> u64
    ensures { result ≡ without_value lane.now.total.tally }
{
    let tally = &lane.total.tally;
    tally.requests().saturating_sub(tally.values)
}

/// All commands of groups that made a step, those with most that was no value first. It fails only for want of memory.
pub(crate) fn ranking(alloc: Global, chart: &Chart) -> Result<Vec<Ranked>, AllocError>
    ensures { IfOk result (λ ranking. IsNonDecreasingBy (λ ranked. ranked.rank) ranking.items) }
{
    let mut ranking = Vec::new(alloc);
    for (panel, found) in chart.panels.iter().enumerate() {
        if !found.lives.is_empty() {
            rank_panel(&mut ranking, panel, found)?;
        }
    }
    ranking.sort()?;
    Ok(ranking)
}

/// Adds the commands of a panel.
fn rank_panel(ranking: &mut Vec<Ranked>, panel: usize, found: &Panel) -> Result<(), AllocError> {
    for (lane, command) in found.lanes.iter().enumerate() {
        ranking.push(rank_command(panel, lane, command))?;
    }
    Ok(())
}

/// The command at the place, as it is ranked.
fn rank_command(panel: usize, lane: usize, command: &Lane) -> Ranked
    ensures rank { result.rank ≡ 2 ^ 64 - 1 - without_value command.now.total.tally }
    ensures place { (result.panel ≡ panel) × (result.lane ≡ lane) }
{
    Ranked {
        rank: u64::MAX - without_value(command),
        requests: command.total.tally.requests(),
        panel,
        lane,
    }
}

/// The commands that are drawn.
#[derive(Clone, Copy)]
pub(crate) struct Drawn<'a> {
    pub ranking: &'a [Ranked],
}

impl<'a> Drawn<'a> {
    /// The first of the ranking.
    pub(crate) fn of(ranking: &'a [Ranked]) -> Drawn<'a>
        ensures { result.ranking.now ≡ take MOST_DRAWN ranking.now }
    {
        Drawn {
            ranking: ranking.get(..MOST_DRAWN).unwrap_or(ranking),
        }
    }

    /// Whether the command at the place in the panel at the place is one of them.
    pub(crate) fn has(self, panel: usize, lane: usize) -> bool
        ensures { result ≡ list_any (λ ranked. ranked.panel == panel && ranked.lane == lane) self.entry.ranking.now }
    {
        self.ranking
            .iter()
            .any(|ranked| ranked.panel == panel && ranked.lane == lane)
    }

    /// Whether a command of the panel at the place is.
    pub(crate) fn has_panel(self, panel: usize) -> bool
        ensures { result ≡ list_any (λ ranked. ranked.panel == panel) self.entry.ranking.now }
    {
        self.ranking.iter().any(|ranked| ranked.panel == panel)
    }
}

/// The command of the ranking.
pub(crate) fn lane_of(chart: &Chart, ranked: Ranked) -> Option<(&Panel, &Lane)> {
    let panel = chart.panels.get(ranked.panel)?;
    let lane = panel.lanes.get(ranked.lane)?;
    Some((panel, lane))
}
