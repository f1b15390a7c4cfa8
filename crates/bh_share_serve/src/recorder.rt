//! The thread that writes a record: each step that is made, as a line of a script.

use crate::names::Names;
use bh_lender::StepLog;
use bh_serve::Reports;
use bh_serve::report::{RecordEnd, Report};
use bh_sharing::{Service, SharedGroups, StepLineError, put_end, put_step};
use std::alloc::Global;
use std::io::Write;
use std::rt::Clock;
use std::sync::Wait;
use std::thread;
use std::time::Duration;

/// So many steps at most wait to be written.
pub const MOST_STEPS: u32 = 16_384;

/// Once so many bytes of lines are held, they are written.
const MOST_HELD: usize = 65_536;

/// Between two looks whether steps were made, in milliseconds.
const PAUSE: u64 = 5;

/// What a recorder has at hand.
#[derive(Drop)]
pub struct Recorder<'e, R, S: Service> {
    pub rt: &'e R,
    pub alloc: Global,
    pub shared: &'e SharedGroups<S>,
    pub names: &'e Names<'e>,
    pub reports: &'e Reports,
}

impl<R: Wait + Clock, S: Service> Recorder<'_, R, S> {
    /// Writes the steps that are put into the log of the service, until that has ended. The log is one of as much room, with
    /// no steps.
    ///
    /// Where the record ends before, a text says why, and the log of the service takes no more steps. A record that does not
    /// ends with a line that says so.
    pub fn write_to<W: Write>(&self, log: StepLog, writer: &mut W) {
        let mut out = Vec::new(self.alloc);
        if let Err(end) = self.write_all(log, &mut out, writer) {
            self.reports.put(self.rt, Report::Record(end));
        }
        self.shared.end_record(self.rt);
    }

    /// Writes all steps and the end, by way of an empty buffer.
    fn write_all<W: Write>(
        &self,
        log: StepLog,
        out: &mut Vec<u8>,
        writer: &mut W,
    ) -> Result<(), RecordEnd> {
        let mut log = log;
        let mut latest = 0;
        for _ in self.rt.forever() {
            let ended = self.shared.has_ended(self.rt);
            log = self.shared.swap_log(self.rt, log);
            if let Some(step) = log.as_slice().last() {
                latest = step.now;
            } else if !ended {
                thread::sleep(self.rt, Duration::from_millis(PAUSE));
            }
            self.write_steps(&log, out, writer)?;
            if log.has_lost() {
                return Err(RecordEnd::Full);
            }
            if ended {
                break;
            }
            log.clear();
        }
        put_end(self.alloc, self.names, out, latest)?;
        write_out(out, writer)
    }

    /// Writes the steps of the log, or those before the first whose line could not be put. Nothing is held then.
    fn write_steps<W: Write>(
        &self,
        log: &StepLog,
        out: &mut Vec<u8>,
        writer: &mut W,
    ) -> Result<(), RecordEnd> {
        for step in log.as_slice() {
            if let Err(error) = put_step(self.alloc, self.names, out, step) {
                write_out(out, writer)?;
                return Err(ended_by(error));
            }
            if out.len() >= MOST_HELD {
                write_out(out, writer)?;
            }
        }
        write_out(out, writer)
    }
}

/// Why a record ends where a step's line is not put.
fn ended_by(error: StepLineError) -> RecordEnd {
    match error {
        StepLineError::Memory => RecordEnd::Memory,
        StepLineError::Long => RecordEnd::Long,
        StepLineError::Range => RecordEnd::Range,
    }
}

/// Writes what is held, and holds nothing then.
fn write_out<W: Write>(out: &mut Vec<u8>, writer: &mut W) -> Result<(), RecordEnd> {
    if writer.write_all(out.as_slice()).is_err() {
        return Err(RecordEnd::Write);
    }
    out.clear();
    Ok(())
}
