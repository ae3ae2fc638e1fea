//! What is answered otherwise is seen: the last of the names.
use super::names::{has_all, has_none};
use super::worlds::Played;
use std::test::Fail;
use tmem_fault::{Fault, Name};
use tmem_world::{Event, Reply};

/// A world in which the last name is registered exactly where the others are not.
#[derive(Drop)]
struct AllButLast {
    are_registered: bool,
}

impl Played for AllButLast {
    fn step(&mut self, _event: Event) -> Reply {
        Reply::Idle
    }

    fn play_list(&mut self, _events: Vec<Event>) -> Result<Vec<Reply>, Fault> {
        Err(Fault::Closed)
    }

    fn knows(&self, name: &Name) -> Option<bool> {
        // 2 * 26 + 11 is 63
        let is_last = name.as_str() == "cl";
        Some(is_last != self.are_registered)
    }
}

#[test]
fn the_last_name_is_asked_for_too(rt: HostRuntime) -> Result<(), Fail> {
    let others = AllButLast {
        are_registered: true,
    };
    assert!(&rt; !has_all(&others)?);
    let last = AllButLast {
        are_registered: false,
    };
    assert!(&rt; !has_none(&last)?);
    Ok(())
}
