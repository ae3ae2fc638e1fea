//! The calls of the spine: each once, what no clause says, and threads.
ghost use Rattle.std.specs.Prelude.{◌≡◌, ◌+◌, ◌<◌, ◌≤◌, ◌^◌, [], length};
ghost use Rattle.tmem_spine.specs.History.{count};
ghost use Rattle.tmem_spine.specs.Views.{new_core, new_journal};

use std::marker::Brand;
use std::test::Fail;
use std::thread::{Threads, join};
use tmem_effect::Effect;
use tmem_spine::{CoreSide, JournalSide, Naming, Opened, PassSide, Spine};

const START: u64 = 5;

const TURNS: u64 = 200;

/// What the passes are told of one effect: two looks with its number between them, a look once it is durable, and what the
/// writer saw.
type Told = (u64, u64, u64, u64, u64);

// One effect is committed, aimed at and durable, and two passes look.
fn told<N: Naming>(
    spine: &Spine<N>,
    core: &mut CoreSide<N>,
    journal: &mut JournalSide<N>,
    writer: &mut PassSide<N>,
    reader: &mut PassSide<N>,
) -> Told
    requires start { N.name.start ≡ 5 }
    requires core { core.old.committed ≡ [] }
    requires journal { journal.old.durable ≡ [] }
{
    let before = spine.look(reader);
    spine.trim(core, writer);
    let number = spine.accept(core, writer, &Effect::new());
    let committed = spine.look(reader);
    let from = spine.trim_beside(core, journal);
    spine.aim(core, journal, from + 1);
    spine.harden(journal, 1);
    spine.meet_journal(journal, reader);
    let durable = spine.look(reader);
    (before, number, committed, durable, writer.seen())
}

// The same by new passes.
fn told_by_two<N: Naming>(
    spine: &Spine<N>,
    core: &mut CoreSide<N>,
    journal: &mut JournalSide<N>,
) -> Option<Told>
    requires start { N.name.start ≡ 5 }
    requires core { core.old.committed ≡ [] }
    requires journal { journal.old.durable ≡ [] }
{
    let (mut writer, mut reader) = two_passes(spine, core)?;
    Some(told(spine, core, journal, &mut writer, &mut reader))
}

// The same on a new spine.
fn one_effect<N: Naming>(opened: Opened) -> Option<Told>
    requires name { opened ≡ N.name }
    requires start { N.name.start ≡ 5 }
{
    let (spine, mut core, mut journal) = opened.named::<N>();
    told_by_two(&spine, &mut core, &mut journal)
}

#[test]
fn a_look_is_fresh(rt: HostRuntime) -> Result<(), Fail> {
    let opened = Opened::new(rt.alloc(), START)?;
    assert!(rt; one_effect::<Brand>(opened) == Some((5, 5, 5, 6, 5)));
    Ok(())
}

// So many passes are given out, each dropped at once.
fn passes<N: Naming>(opened: Opened) -> (u64, u64)
    requires { opened ≡ N.name }
{
    let (spine, mut core, _journal) = opened.named::<N>();
    let mut given = 0;
    for turn in 0..40u64 {
        if spine.pass(&mut core).is_some() {
            given += 1;
        }
    }
    (given, core.given())
}

#[test]
fn a_dropped_pass_is_not_given_out_again(rt: HostRuntime) -> Result<(), Fail> {
    let opened = Opened::new(rt.alloc(), 0)?;
    assert!(rt; passes::<Brand>(opened) == (32, 32));
    Ok(())
}

// In each turn one effect is committed and made durable. Answers the last number.
fn writes<N: Naming>(
    spine: &Spine<N>,
    mut core: CoreSide<N>,
    mut journal: JournalSide<N>,
    mut pass: PassSide<N>,
) -> u64
    requires start { N.name.start ≡ 5 }
    requires core { core.committed ≡ [] }
    requires journal { journal.durable ≡ [] }
{
    let mut last = 0;
    for turn in 0..TURNS {
        spine.trim(&mut core, &mut pass);
        last = spine.accept(&mut core, &mut pass, &Effect::new());
        let from = spine.trim_beside(&mut core, &mut journal);
        spine.aim(&mut core, &mut journal, from + 1);
        spine.harden(&mut journal, 1);
    }
    last
}

// Looks again and again. True where no answer was less than the one before.
fn looks<N: Naming>(spine: &Spine<N>, mut pass: PassSide<N>) -> (bool, PassSide<N>) {
    let mut ascends = true;
    for _ in 0..TURNS {
        let before = pass.seen();
        let found = spine.look(&mut pass);
        ascends = ascends && before <= found;
    }
    (ascends, pass)
}

// Two passes. What is committed stays.
fn two_passes<N: Naming>(
    spine: &Spine<N>,
    core: &mut CoreSide<N>,
) -> Option<(PassSide<N>, PassSide<N>)>
    ensures { core.new.committed ≡ core.old.committed }
{
    let writer = spine.pass(core)?;
    let reader = spine.pass(core)?;
    Some((writer, reader))
}

// A thread writes while another one looks.
fn at_once<N: Naming + Send + Sync, R: Threads + Sync>(
    rt: &R,
    spine: &Spine<N>,
    core: CoreSide<N>,
    journal: JournalSide<N>,
    writer: PassSide<N>,
    reader: PassSide<N>,
) -> (u64, bool, u64)
    requires start { N.name.start ≡ 5 }
    requires core { core.committed ≡ [] }
    requires journal { journal.durable ≡ [] }
{
    let (last, (ascends, mut reader)) = join(
        rt,
        || -> u64
            requires { (N.name.start ≡ 5) × (core.committed ≡ []) × (journal.durable ≡ []) }
        { writes(spine, core, journal, writer) },
        || looks(spine, reader),
    );
    (last, ascends, spine.look(&mut reader))
}

// The same on a new spine.
fn together<N: Naming + Send + Sync, R: Threads + Sync>(
    rt: &R,
    opened: Opened,
) -> Option<(u64, bool, u64)>
    requires name { opened ≡ N.name }
    requires start { N.name.start ≡ 5 }
{
    let (spine, mut core, journal) = opened.named::<N>();
    let (writer, reader) = two_passes(&spine, &mut core)?;
    Some(at_once(rt, &spine, core, journal, writer, reader))
}

#[test]
fn passes_look_while_effects_become_durable(rt: HostRuntime) -> Result<(), Fail> {
    let opened = Opened::new(rt.alloc(), START)?;
    assert!(rt; together::<Brand, _>(&rt, opened) == Some((204, true, 205)));
    Ok(())
}
