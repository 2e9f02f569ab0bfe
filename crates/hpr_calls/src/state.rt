//! States that words tell.
use hpr_rows::{Row, array_of};
use hpr_run::State;
use hpr_terms::Name;
use std::alloc::Global;

// Gives the name of a word `name=value` its value, or the element of a word `name[index]=value`.
fn set(alloc: Global, state: &mut State, word: &str) -> Option<()> {
    let (target, value) = word.split_once('=')?;
    let value = value.parse().ok()?;
    match target.split_once('[') {
        Some((base, rest)) => store(alloc, state, base, rest, value),
        None => state.set(Name::new(alloc, target).ok()?, value).ok(),
    }
}

// Gives the element its value whose index and `]` are given.
fn store(alloc: Global, state: &mut State, base: &str, rest: &str, value: i64) -> Option<()> {
    let at = rest.strip_suffix("]")?.parse().ok()?;
    let array = array_of(alloc, base)?;
    state.store(alloc, &array, at, value).ok()
}

/// The state that the words from this place on tell, each as `name=value` or `name[index]=value`.
pub(crate) fn read_state(row: Row<'_>, at: usize) -> Option<State> {
    let mut state = State::new(row.alloc);
    for word in row.rest(at) {
        set(row.alloc, &mut state, word.as_str())?;
    }
    Some(state)
}
