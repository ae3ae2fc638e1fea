//! A state whose registered names are as many as there may be.
use super::effects::{Made, numbered};
use super::rows::assert_no_row_differs;
use std::alloc::Global;
use tmem_effect::Effect;
use tmem_fault::Fault;
use tmem_state::{NameSet, State};

/// A state with 64 names.
fn full_state(alloc: Global) -> Result<State, Fault> {
    let mut names = NameSet::new(alloc)?;
    for n in 0..64 {
        if !names.push(&numbered(n)?) {
            return Err(Fault::Full);
        }
    }
    Ok(State::of(5, names, Vec::new(alloc)))
}

/// An effect that checks the first names and then retires the others, if it may have as many.
fn effect_of(checks: &[u8], retires: &[u8]) -> Option<Made> {
    let mut made = Made::new();
    let mut is_so = true;
    for n in checks {
        is_so = made.is_checked(numbered(*n)) && is_so;
    }
    for n in retires {
        is_so = made.is_retired(numbered(*n)) && is_so;
    }
    if is_so { Some(made) } else { None }
}

/// Commits an effect where there is room for its names, and answers whether there is.
fn is_committed(state: &mut State, effect: &Effect) -> bool {
    let is_room = state.has_room_for(effect);
    if is_room && effect.writes.as_slice().is_empty() && state.count() < u64::MAX {
        state.commit(effect);
    }
    is_room
}

/// What a full state is after an effect with these checks and retirements: its count, how many names it has, and which of the names
/// 0, 1, 63 and 64 are registered. Nothing where there is no room.
fn after(
    alloc: Global,
    checks: &[u8],
    retires: &[u8],
) -> Result<Option<(u64, usize, [bool; 4])>, Fault> {
    let mut state = full_state(alloc)?;
    let Some(made) = effect_of(checks, retires) else {
        return Err(Fault::Full);
    };
    if !is_committed(&mut state, &made.effect) {
        return Ok(None);
    }
    let has = edges_of(&state)?;
    Ok(Some((state.count(), state.names().len(), has)))
}

/// Which of the names 0, 1, 63 and 64 are registered.
fn edges_of(state: &State) -> Result<[bool; 4], Fault> {
    Ok([
        is_registered(state, 0)?,
        is_registered(state, 1)?,
        is_registered(state, 63)?,
        is_registered(state, 64)?,
    ])
}

fn is_registered(state: &State, n: u8) -> Result<bool, Fault> {
    Ok(state.has(&numbered(n)?))
}

/// The numbers of the names that are checked and of those that are retired, and what a full state is after them.
static EFFECTS: &[(
    &'static [u8],
    &'static [u8],
    Option<(u64, usize, [bool; 4])>,
)] = &[
    (&[], &[], Some((6, 64, [true, true, true, false]))),
    // one that is registered, and one that is not
    (&[63], &[], Some((6, 64, [true, true, true, false]))),
    (&[64], &[], None),
    (&[], &[63], Some((6, 63, [true, true, false, false]))),
    (&[], &[64], Some((6, 64, [true, true, true, false]))),
    // one in place of another
    (&[64], &[0], Some((6, 64, [false, true, true, true]))),
    (&[64], &[63], Some((6, 64, [true, true, false, true]))),
    (&[64, 65], &[0], None),
    (
        &[64, 65],
        &[0, 1],
        Some((6, 64, [false, false, true, true])),
    ),
    // in place of one that is not registered
    (&[64], &[65], None),
    // as many as one effect may have
    (
        &[64, 65, 66, 67, 68, 69, 70, 71],
        &[0, 1, 2, 3, 4, 5, 6, 7],
        Some((6, 64, [false, false, true, true])),
    ),
    (
        &[],
        &[0, 1, 58, 59, 60, 61, 62, 63],
        Some((6, 56, [false, false, false, false])),
    ),
];

fn differing_effect(alloc: Global) -> Option<usize> {
    for (row, (checks, retires, wanted)) in EFFECTS.iter().enumerate() {
        match after(alloc, checks, retires) {
            Ok(had) if had == *wanted => {}
            _ => return Some(row),
        }
    }
    None
}

#[test]
fn a_full_state_takes_a_name_in_place_of_another(rt: HostRuntime) {
    assert_no_row_differs(&rt, differing_effect(rt.alloc()));
}
