//! A case: the files of a call, and where its shelf and its sinks fail.
use crate::text::{numbers, push_repeated, unescaped, word};
use std::alloc::Global;

/// What a sink takes, and which of its calls fail.
#[derive(Drop)]
pub struct Plan {
    pub step: usize,
    pub room: usize,
    pub failing: Vec<u64>,
}

/// What a call is made over: a shelf and sinks that may fail, such a shelf that notes each fetch, such an `err` whose
/// count of failures stands at its last value, a shelf that never fails, or such sinks too.
#[derive(Clone, Copy)]
pub enum Over {
    Memory,
    NotingShelf,
    LastCount,
    SteadyShelf,
    SteadySinks,
}

#[derive(Drop)]
pub struct Case {
    pub files: Vec<(String, Vec<u8>)>,
    pub failing: Vec<u64>,
    pub out: Plan,
    pub err: Plan,
    pub over: Over,
    has_line: bool,
}

impl Case {
    /// A case without files, where nothing fails.
    pub(crate) fn new(alloc: Global) -> Case {
        Case {
            files: Vec::new(alloc),
            failing: Vec::new(alloc),
            out: plan_of(4096, 65536, Vec::new(alloc)),
            err: plan_of(64, 4096, Vec::new(alloc)),
            over: Over::Memory,
            has_line: false,
        }
    }

    /// Takes a line that makes no call.
    pub(crate) fn take_line(&mut self, alloc: Global, line: &str) -> Option<()> {
        match line.as_bytes().first() {
            Some(b'@') => self.begin_file(alloc, line.strip_prefix("@ ")?),
            Some(b'+') => self.go_on(alloc, line.strip_prefix("+ ")?),
            Some(b'*') => self.repeat(alloc, line.strip_prefix("* ")?),
            Some(b'!') => self.set(alloc, line.strip_prefix("! ")?),
            _ => self.add_line(alloc, line),
        }
    }

    fn begin_file(&mut self, alloc: Global, name: &str) -> Option<()> {
        self.has_line = false;
        let name = word(alloc, name)?;
        self.files.push((name, Vec::new(alloc))).ok()
    }

    fn go_on(&mut self, alloc: Global, text: &str) -> Option<()> {
        let bytes = unescaped(alloc, text).ok()?;
        let (_, file) = self.files.last_mut()?;
        file.extend_from_slice(bytes.as_slice()).ok()
    }

    fn add_line(&mut self, alloc: Global, line: &str) -> Option<()> {
        if self.has_line {
            let (_, file) = self.files.last_mut()?;
            file.push(b'\n').ok()?;
        }
        self.has_line = true;
        self.go_on(alloc, line)
    }

    fn repeat(&mut self, alloc: Global, line: &str) -> Option<()> {
        let (first, rest) = line.split_once(' ')?;
        let (last, text) = rest.split_once(' ')?;
        let first = first.parse::<u64>().ok()?;
        let last = last.parse::<u64>().ok()?;
        self.push_all(alloc, text, first, last)
    }

    fn push_all(&mut self, alloc: Global, text: &str, first: u64, last: u64) -> Option<()> {
        let bytes = unescaped(alloc, text).ok()?;
        let (_, file) = self.files.last_mut()?;
        push_repeated(alloc, file, bytes.as_slice(), first, last).ok()
    }

    fn set(&mut self, alloc: Global, line: &str) -> Option<()> {
        if line == "noting shelf" {
            self.over = Over::NotingShelf;
        } else if line == "last count" {
            self.over = Over::LastCount;
        } else if line == "steady shelf" {
            self.over = Over::SteadyShelf;
        } else if line == "steady sinks" {
            self.over = Over::SteadySinks;
        } else if let Some(calls) = line.strip_prefix("shelf ") {
            self.failing = numbers(alloc, calls)?;
        } else if let Some(sink) = line.strip_prefix("out ") {
            self.out = read_plan(alloc, sink)?;
        } else {
            self.err = read_plan(alloc, line.strip_prefix("err ")?)?;
        }
        Some(())
    }
}

fn plan_of(step: usize, room: usize, failing: Vec<u64>) -> Plan {
    Plan {
        step,
        room,
        failing,
    }
}

// The step, the room and the failing calls that a line names.
fn read_plan(alloc: Global, line: &str) -> Option<Plan> {
    let (step, rest) = line.split_once(' ')?;
    let (room, calls) = rest.split_once(' ').unwrap_or((rest, ""));
    let step = step.parse::<usize>().ok()?;
    let room = room.parse::<usize>().ok()?;
    Some(plan_of(step, room, numbers(alloc, calls)?))
}
