//! What the account of a service says, as a text.

use bh_audit::{AuditError, AuditReport};
use bh_base::{GroupId, GroupProps, Reply, Step};
use bh_scripts::samples::{are_built_in, command};
use std::alloc::{AllocError, Global};

/// The steps that the group did of those that it may do.
fn group_text(
    alloc: Global,
    journal: &[(Step, Reply)],
    shown: &GroupProps,
    limit: u64,
) -> Result<String, AllocError> {
    let settings = if are_built_in(shown, &[command()]) {
        ""
    } else {
        " changed"
    };
    format!(in alloc; "{} of {limit}{settings}, ", journal.len())
}

/// The steps of each group, and whether the service was stopped.
fn report_text(alloc: Global, report: &AuditReport) -> Result<String, AllocError> {
    let mut text = String::new(alloc);
    for (journal, (shown, limit)) in report.journals.iter().zip(report.groups.iter()) {
        text.push_str(group_text(alloc, journal.as_slice(), shown, *limit)?.as_str())?;
    }
    text.push_str(if report.stopped { "stopped" } else { "running" })?;
    Ok(text)
}

/// What the end of a service says: `3 of 10, 0 of 10 changed, stopped` where two groups did 3 and no steps of 10, the
/// settings of the second are not those that are built in, and the service was stopped. In front of it stands where the
/// passes differ, if they do: `missing at 0 1: ` or `mismatch at 0 1: `, with the group and the place.
pub(crate) fn end_text(
    alloc: Global,
    finished: &Result<AuditReport, AuditError>,
) -> Result<String, AllocError> {
    match finished {
        Ok(report) => report_text(alloc, report),
        Err(AuditError::NotAudited) => format!(in alloc; "not audited"),
        Err(AuditError::Memory) => format!(in alloc; "no memory"),
        Err(
            AuditError::PassMissing {
                group,
                place,
                report,
            },
        ) => fault_text(alloc, "missing", *group, *place, report),
        Err(
            AuditError::Mismatch {
                group,
                place,
                report,
            },
        ) => fault_text(alloc, "mismatch", *group, *place, report),
    }
}

fn fault_text(
    alloc: Global,
    fault: &str,
    group: GroupId,
    place: u64,
    report: &AuditReport,
) -> Result<String, AllocError> {
    let report = report_text(alloc, report)?;
    format!(in alloc; "{fault} at {} {place}: {report}", group.0)
}
