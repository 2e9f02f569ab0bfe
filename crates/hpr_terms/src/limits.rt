//! The limits of the language and of the tool. Each stands here alone: code, contracts, definitions and
//! messages cite it. Reps and Yang (1988) and Horwitz, Prins and Reps (1989) have no such limits.

/// How many variants of a program are integrated at most. Horwitz, Prins and Reps (1989) have two.
pub const MAX_VARIANTS: usize = 16;

/// How many bytes a file has at most.
pub const MAX_FILE: usize = 4_194_304;

/// How many bytes a name has at most.
pub const MAX_NAME: usize = 64;

/// How many numbers there are for authors, and for the serials of each: an author or a serial is below this.
pub const TAG_NUMBERS: u64 = 4_294_967_296;

/// The greatest author, and the greatest serial.
pub const MAX_TAG_NUMBER: u32 = (TAG_NUMBERS - 1) as u32;

/// How many parts a program has at most.
pub const MAX_PARTS: usize = 4000;

/// The greatest level of a part of a program; a part of its top block has level 1.
pub const MAX_LEVELS: usize = 64;

/// How many operators an expression of a program has at most.
pub const MAX_OPERATORS: usize = 256;

/// How many brackets of an expression stand in one another at most, where it is read.
pub const MAX_BRACKETS: usize = 256;

/// How many elements an array has, from the index 0 on.
pub const ELEMENTS: usize = 65_536;

/// How many edges the graph of a program has at most, where it is integrated or shown.
pub const MAX_EDGES: usize = 1_000_000;

/// How many arrangements a search tries at most, whatever is asked for.
pub const MAX_TRIES: u32 = 1_000_000_000;

/// How many arrangements a search tries where nothing is said.
pub const DEFAULT_TRIES: u64 = 10_000;

/// How many steps a run has at most, whatever is asked for.
pub const MAX_STEPS: u32 = 1_000_000_000;

/// How many numbers a run writes at most.
pub const MAX_WRITTEN: usize = 1_000_000;

/// How many steps a run has where nothing is said.
pub const DEFAULT_STEPS: u64 = 1_000_000;
