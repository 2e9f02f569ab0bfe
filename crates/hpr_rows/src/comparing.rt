//! What rows come to, beside what they are to come to.
use crate::printing::{Out, put, put_count};
use std::alloc::Global;

// Puts what a row came to, and what it was to come to.
fn put_differing(out: &mut Out, title: &str, told: &str, wanted: &str) {
    put(out, &[title, "\n-- came:\n", told, "-- wanted:\n", wanted]);
}

/// Rows, each compared with its answer once it has ended.
#[derive(Drop)]
pub struct Sheet {
    title: String,
    told: Out,
    wanted: Out,
    differing: Out,
    rows: u64,
}

impl Sheet {
    /// No rows yet.
    pub fn new(alloc: Global) -> Sheet {
        Sheet {
            title: String::new(alloc),
            told: Out::new(alloc),
            wanted: Out::new(alloc),
            differing: Out::new(alloc),
            rows: 0,
        }
    }

    /// Where the calls of the row put what they answer.
    pub fn told(&mut self) -> &mut Out {
        &mut self.told
    }

    /// Takes a line that the row is to come to, and whether it is one.
    pub fn takes(&mut self, line: &str) -> bool {
        let wanted = if line == "=" {
            Some("")
        } else {
            line.strip_prefix("= ")
        };
        if let Some(wanted) = wanted {
            put(&mut self.wanted, &[wanted, "\n"]);
        }
        wanted.is_some()
    }

    /// Notes a line that is none of a row.
    pub fn refuse(&mut self, line: &str) {
        put(&mut self.differing, &["not read: ", line, "\n"]);
    }

    /// Ends the row before, and begins one with this title.
    pub fn begin(&mut self, alloc: Global, title: &str) {
        self.end_row(alloc);
        match String::from_str(alloc, title) {
            Ok(title) => {
                self.title = title;
            }
            Err(_) => self.differing.cut(),
        }
    }

    // Compares the row, if there is one, with what it is to come to.
    fn end_row(&mut self, alloc: Global) {
        if self.title.is_empty() {
            return;
        }
        self.rows = self.rows.saturating_add(1);
        if self.told.text() != self.wanted.text() {
            put_differing(
                &mut self.differing,
                self.title.as_str(),
                self.told.text(),
                self.wanted.text(),
            );
        }
        if self.told.is_cut() || self.wanted.is_cut() {
            self.differing.cut();
        }
        self.told = Out::new(alloc);
        self.wanted = Out::new(alloc);
    }

    /// Ends the last row. What it answers are the rows that differ, each with what came and what was wanted, and how many
    /// rows there are.
    pub fn end(&mut self, alloc: Global) -> &str {
        self.end_row(alloc);
        if self.differing.is_cut() {
            put(&mut self.differing, &["memory ran out\n"]);
        }
        put_count(&mut self.differing, "rows ", self.rows);
        self.differing.text()
    }
}
