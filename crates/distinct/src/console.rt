//! Remarks and reports of progress on standard error.

use distinct_messages::{Console, Remark};
use keys_groups::GroupWatch;
use keys_reports::estimate_so_far;
use keys_sketches::Watch;
use keys_sums::SumWatch;
use std::alloc::Allocator;
use std::io::IsTerminal;
use std::time::{Duration, Instant};
use theta_sketches::ThetaSketch;

/// The seconds between two reports.
const PAUSE: u64 = 1;

/// Prints remarks, unless it is quiet, and about once a second reports what was read, if that is enabled.
#[derive(Drop)]
pub struct StderrConsole<'a> {
    rt: &'a HostRuntime,
    enabled: bool,
    quiet: bool,
    last_report: Option<Instant>,
    lines: u64,
    bytes: u64,
}

impl<'a> StderrConsole<'a> {
    /// Reports nothing yet, and nothing at all unless it is enabled. If it is quiet, it prints no remark.
    pub fn new(rt: &'a HostRuntime, enabled: bool, quiet: bool) -> StderrConsole<'a> {
        StderrConsole {
            rt,
            enabled,
            quiet,
            last_report: None,
            lines: 0,
            bytes: 0,
        }
    }

    /// Whether a report is due. The first call begins the first pause.
    fn is_time(&mut self) -> bool {
        let Ok(now) = Instant::now(self.rt) else {
            return false;
        };
        match self.last_report {
            None => {
                self.last_report = Some(now);
                false
            }
            Some(last) => {
                let is_time = now.duration_since(last) >= Duration::from_secs(PAUSE);
                if is_time {
                    self.last_report = Some(now);
                }
                is_time
            }
        }
    }

    /// Counts so many bytes and lines more, and returns whether they are to be reported now.
    fn is_due(&mut self, bytes: u64, lines: u64) -> bool {
        if !self.enabled {
            return false;
        }
        self.lines = self.lines.saturating_add(lines);
        self.bytes = self.bytes.saturating_add(bytes);
        self.is_time()
    }
}

impl<'a> Watch for StderrConsole<'a> {
    fn on_read<A: Allocator>(&mut self, bytes: usize, lines: u64, sketch: &ThetaSketch<A>) {
        if self.is_due(bytes as u64, lines) {
            let (lines, bytes) = (self.lines, self.bytes);
            let count = estimate_so_far(sketch);
            let _ = eprintln!(self.rt;
                "distinct: {lines} lines, {bytes} bytes, about {count} distinct"
            );
        }
    }
}

impl<'a> GroupWatch for StderrConsole<'a> {
    fn on_line(&mut self, bytes: usize, groups: usize) {
        if self.is_due((bytes as u64).saturating_add(1), 1) {
            let (lines, bytes) = (self.lines, self.bytes);
            let _ = eprintln!(self.rt; "distinct: {lines} lines, {bytes} bytes, {groups} groups");
        }
    }
}

impl<'a> SumWatch for StderrConsole<'a> {
    fn on_lines(&mut self, bytes: usize, lines: u64) {
        if self.is_due(bytes as u64, lines) {
            let (lines, bytes) = (self.lines, self.bytes);
            let _ = eprintln!(self.rt; "distinct: {lines} lines, {bytes} bytes");
        }
    }
}

impl<'a> Console for StderrConsole<'a> {
    /// Prints a remark. How rough a number is, it says on a terminal alone: scripts read the number.
    fn remark(&mut self, remark: Remark<'_>) {
        let is_shown = match remark {
            Remark::Rough(_) => self.rt.stderr().is_terminal(),
            _ => true,
        };
        if is_shown && !self.quiet {
            let _ = eprintln!(self.rt; "distinct: {remark}");
        }
    }
}
