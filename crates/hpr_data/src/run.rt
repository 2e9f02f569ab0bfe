//! The command `run`.
ghost use Rattle.std.specs.Prelude.{map};
ghost use Rattle.hpr_io.specs.Files.{files_in};
ghost use Rattle.hpr_data.specs.Findings.{Runs};
ghost use Rattle.hpr_data.specs.Private.Comes.{Comes, ComesToState};

use crate::found::{Found, Stop};
use crate::texts::program_named;
use hpr_inputs::read_state;
use hpr_run::{State, run};
use std::alloc::Global;

/// How the program of a text runs from the state that the words tell, for at most so many steps. The words are judged
/// before the text.
pub(crate) fn run_named<'a>(
    alloc: Global,
    files: &[(String, Vec<u8>)],
    file: &'a str,
    words: &[&str],
    steps: u64,
) -> Result<Found, Stop<'a>>
    ensures { Comes (Runs (files_in files.now) file.now (map (λ w. w.now) words.now) steps) result }
{
    let state = state_told(alloc, words)?;
    let program = program_named(alloc, files, file)?;
    let outcome = run(alloc, &program, &state, steps)?;
    Ok(Found::Ran(outcome))
}

/// The state that the words tell.
fn state_told<'a>(alloc: Global, words: &[&str]) -> Result<State, Stop<'a>>
    ensures { ComesToState (map (λ w. w.now) words.now) result }
{
    match read_state(alloc, words) {
        Ok(state) => Ok(state),
        Err(hpr_inputs::Stop::Refused(message)) => Err(Stop::Word(message)),
        Err(hpr_inputs::Stop::ReadFault(_message)) => unreachable!(),
        Err(hpr_inputs::Stop::Memory) => Err(Stop::Memory),
    }
}
