//! How far a long run is, on a terminal.

use crate::terminal::has_terminal;
use mds_migrate::{CURRENT, StepObserver};

/// A line on standard error that is written over, if that is a terminal.
#[derive(Clone, Copy)]
pub(crate) struct Progress {
    is_shown: bool,
}

impl Progress {
    /// Nothing is written yet.
    pub(crate) fn new(rt: &HostRuntime) -> Progress {
        Progress {
            is_shown: has_terminal(rt),
        }
    }

    /// Shows which file of how many is next. What a terminal shows of standard output follows on the same line.
    pub(crate) fn show(self, rt: &HostRuntime, file: usize, files: usize) {
        if self.is_shown {
            let _ = eprint!(rt; "\r{file} of {files} ");
        }
    }

    /// Shows to which schema a step of a migration leads.
    pub(crate) fn show_step(self, rt: &HostRuntime, schema: u8) {
        if self.is_shown {
            let _ = eprint!(rt; "\rstep to schema {schema} of {CURRENT} ");
        }
    }

    /// Clears the line.
    pub(crate) fn clear(self, rt: &HostRuntime) {
        if self.is_shown {
            let _ = eprint!(rt; "\r                        \r");
        }
    }
}

/// Shows the steps of a migration on that line.
#[derive(Clone, Copy)]
pub(crate) struct ShownSteps<'a> {
    rt: &'a HostRuntime,
    progress: Progress,
}

impl<'a> ShownSteps<'a> {
    /// No step is shown yet.
    pub(crate) fn new(rt: &'a HostRuntime) -> ShownSteps<'a> {
        ShownSteps {
            rt,
            progress: Progress::new(rt),
        }
    }

    /// Clears the line.
    pub(crate) fn clear(self) {
        self.progress.clear(self.rt);
    }
}

impl<'a> StepObserver for ShownSteps<'a> {
    fn begin(&mut self, schema: u8) {
        self.progress.show_step(self.rt, schema);
    }
}
