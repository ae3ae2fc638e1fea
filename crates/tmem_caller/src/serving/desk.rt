//! Serves the store by a desk.
ghost use Rattle.std.specs.Prelude.{◌≡◌, [], length};
ghost use Rattle.tmem_front.specs.Held.{front_found, spine_of, front_steps, front_table};
ghost use Rattle.tmem_caller.specs.Serving.{solvent};

use crate::serving::output::Output;
use crate::serving::row::{ServedBy, ServedRow};
use crate::serving::store::{SLOTS, ServingEnd, VARS};
use std::alloc::Global;
use std::marker::Brand;
use std::sync::Wait;
use tmem_builtins::{BuiltinSteps, stored_steps};
use tmem_desk::{Desk, DeskFailure, ServedNaming, ServedStore};
use tmem_disk::SimDisk;
use tmem_fault::Name;
use tmem_front::{OpenedFront, Pass};
use tmem_invariants::Invariants;
use tmem_lines::Lines;
use tmem_serve::Service;
use tmem_tree::StoredSteps;

/// Opens a device, and serves the pieces of a row by a desk.
pub(crate) fn serve_by_desk<T: Invariants + Drop, R: Wait>(
    rt: &R,
    alloc: Global,
    row: &ServedRow,
    disk: SimDisk,
    names: &[Name],
    table: T,
    out: &mut Output,
) -> ServingEnd
    requires vars { T.vars table ≡ VARS }
    requires named { names.now ≡ solvent.names }
    requires names { T.names table ≡ solvent.names }
    requires tests { T.is_stated table solvent.tests }
{
    match OpenedFront::open(alloc, disk, VARS, SLOTS, table, stored_steps()) {
        Ok(opened) => serve_opened::<Brand, T, R>(rt, alloc, row, opened, names, out),
        Err((fault, _disk)) => Err(DeskFailure::Fault(fault)),
    }
}

// Gives the store its name in the types, and serves it.
fn serve_opened<N: ServedNaming, T: Invariants + Drop, R: Wait>(
    rt: &R,
    alloc: Global,
    row: &ServedRow,
    opened: OpenedFront<SimDisk, T, BuiltinSteps>,
    names: &[Name],
    out: &mut Output,
) -> ServingEnd
    requires spine { spine_of opened ≡ N.name }
    requires opening { front_found opened ≡ N.opening }
    requires program { N.program ≡ solvent }
    requires values { length (front_found opened).values ≡ VARS }
    requires named { names.now ≡ solvent.names }
    requires names { T.names (front_table opened) ≡ solvent.names }
    requires stated { T.is_stated (front_table opened) solvent.tests }
    requires steps { ⟦<BuiltinSteps as StoredSteps>⟧.is_stated (front_steps opened) solvent.steps }
    requires arities { ⟦<BuiltinSteps as StoredSteps>⟧.arities (front_steps opened) ≡ N.arities }
    requires always { N.always ≡ [] }
{
    let front = opened.named::<N>();
    let service = Service::new(rt, alloc, &front, VARS, names, &[]);
    if let ServedBy::SecondDesk = row.by {
        commit_by_desk(alloc, &service, front.pass(rt)?);
    }
    serve_pieces(alloc, &service, front.pass(rt)?, row, out)
}

// Commits a transaction by a desk of its own, which flushes it unless the device fails.
fn commit_by_desk<N: ServedNaming, V: ServedStore<N>>(alloc: Global, service: &V, pass: Pass<N>) {
    let mut desk = Desk::new(alloc, pass);
    let mut lines = Lines::new(alloc);
    let text = "{\"id\":1,\"do\":{\"seq\":[{\"put\":[0,5]},{\"write\":[2,0]}]}}\n";
    let _ = desk.serve(service, &mut lines, text.as_bytes(), &mut Vec::new(alloc));
}

// Serves the pieces, and then the end of the input.
fn serve_pieces<N: ServedNaming, V: ServedStore<N>>(
    alloc: Global,
    service: &V,
    pass: Pass<N>,
    row: &ServedRow,
    out: &mut Output,
) -> ServingEnd {
    let mut desk = Desk::new(alloc, pass);
    let mut lines = Lines::new(alloc);
    for piece in &row.pieces {
        desk.serve(service, &mut lines, piece, out)?;
    }
    desk.end(service, &mut lines, out)
}
