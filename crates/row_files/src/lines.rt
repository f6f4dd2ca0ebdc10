// Lines that are put together.
use std::alloc::{AllocError, Global};
use std::fmt::Display;

/// Lines that are put together. That memory ran short is kept until they are taken, so none of those that add to them can fail.
#[derive(Drop)]
pub struct Lines {
    text: String,
    is_short: bool,
}

impl Lines {
    /// No lines.
    pub fn new(alloc: Global) -> Self {
        Lines {
            text: String::new(alloc),
            is_short: false,
        }
    }

    /// Adds a text.
    pub fn add(&mut self, part: &str) {
        if self.text.push_str(part).is_err() {
            self.is_short = true;
        }
    }

    /// What `write!` calls.
    pub fn write_fmt<D: Display + Drop>(&mut self, part: D) {
        if self.text.write_fmt(part).is_err() {
            self.is_short = true;
        }
    }

    /// Memory ran short for what was to be told.
    pub fn run_short(&mut self) {
        self.is_short = true;
    }

    /// All lines, if memory sufficed for each.
    pub fn whole(self) -> Result<String, AllocError> {
        if self.is_short {
            return Err(AllocError);
        }
        Ok(self.text)
    }
}
