//! From the opening of a store to the end of the input.
ghost use Rattle.std.specs.Prelude.{◌≡◌, ◌≤◌, [], length, take, option_map, OnOk, OnErr, IfOk, IfErr};
ghost use Rattle.std.specs.Io.KnownBytes.{Appends, Consumes, IsAtEnd, Keeps};
ghost use Rattle.tmem_core.specs.Program.{Program, IsProgramOf};
ghost use Rattle.tmem_desk.specs.Asking.{store};
ghost use Rattle.tmem_desk.specs.Held.{desk_view};
ghost use Rattle.tmem_desk.specs.declared.failure.DeskFailure.TheVariants as failure;
ghost use Rattle.tmem_front.specs.Held.{front_found, spine_of, front_steps, front_table};
ghost use Rattle.tmem_serve.specs.Turns.{ServesInput, StopsInput};
ghost use Rattle.tmem_serve.specs.Stores.{IsWhyEnded, IsWhyStopped, OpensAndServes, ServesStore, first_line, first_unregistered};

use crate::error::ServeError;
use crate::service::Service;
use std::alloc::Global;
use std::io::{ErrorKind, Read, Write};
use std::marker::Brand;
use std::sync::Wait;
use tmem_answers::OpenedLine;
use tmem_desk::{Desk, DeskFailure, ServedNaming, ServedStore};
use tmem_disk::Disk;
use tmem_fault::{Fault, Name};
use tmem_front::{Front, OpenedFront};
use tmem_invariants::Invariants;
use tmem_lines::Lines;
use tmem_tree::StoredSteps;

// So many bytes are read at once at most.
const PIECE_BYTES: usize = 65536;

/// What a store is served with, beside its table of invariants.
#[derive(Clone, Copy)]
pub struct Served<'a> {
    pub vars: u16,
    pub slots: u16,
    /// The names of variables, which the first line tells.
    pub variables: &'a [(String, u16)],
    /// The names of all invariants, in the order of the table.
    pub names: &'a [Name],
    /// The names of those that always hold, which no request may retire.
    pub always: &'a [Name],
}

/// How the input of a served store ended.
#[derive(Clone, Copy)]
pub enum InputEnd {
    /// All of it was read.
    Reached,
    /// A read of it failed.
    Failed,
}

/// Opens a store, and serves it until the end of the input, or until a read of that fails: then all that was read is answered as at the
/// end. Refused as an opening is, and with the first invariant that should always hold and is not registered, before anything is read or
/// printed; with the fault that a call of the device or want of memory ended it by, once each request of that piece of input was told as
/// `Desk::serve` says; and with `Output` where the output failed.
pub fn serve_store<
    R: Wait,
    D: Disk + Drop,
    T: Invariants + Drop,
    S: StoredSteps + Drop,
    I: Read,
    W: Write,
>(
    rt: &R,
    alloc: Global,
    disk: D,
    served: Served,
    table: T,
    steps: S,
    input: &mut I,
    out: &mut W,
) -> Result<InputEnd, ServeError>
    ghost program: { Program }
    requires vars { T.vars table ≡ served.vars }
    requires names { T.names table ≡ program.names }
    requires told { served.names.now ≡ program.names }
    requires tests { T.is_stated table program.tests }
    requires steps { S.is_stated steps program.steps }

    // The store that the opening finds is served: each byte that is read, once and in order, as the desk answers it. And no byte is left
    // where all was read.
    ensures served { OnOk result (OpensAndServes D.view program (S.arities steps) served.entry.always.now served.entry.vars served.entry.slots served.entry.variables.now disk (I.remaining input.old) (I.remaining input.new) (W.contents out.old) (W.contents out.new)) }
    ensures whole { IfOk result (λ end. end ≡ InputEnd.Reached → IsAtEnd (I.remaining input.new)) }
    ensures ended { IfErr result (IsWhyEnded D.view (IsProgramOf T.Invariants table) program (S.arities steps) served.entry.always.now served.entry.vars served.entry.slots served.entry.variables.now disk (I.remaining input.old) (I.remaining input.new) (W.contents out.old) (W.contents out.new)) }
{
    match OpenedFront::open(alloc, disk, served.vars, served.slots, table, steps) {
        Ok(opened) => match unregistered(&opened, served.always) {
            Some(name) => Err(ServeError::Unregistered(*name)),
            None => match serve_opened::<Brand, R, D, T, S, I, W>(
                rt, alloc, opened, served, input, out,
            ) {
                Ok(end) => Ok(end),
                Err(failure) => Err(ServeError::Ended(failure)),
            },
        },
        Err((fault, _disk)) => Err(ServeError::Ended(DeskFailure::Fault(fault))),
    }
}

// The first of these names that is not registered in a store that was opened.
fn unregistered<'a, D: Disk + Drop, T: Invariants + Drop, S: StoredSteps + Drop>(
    opened: &OpenedFront<D, T, S>,
    names: &'a [Name],
) -> Option<&'a Name>
    ensures { option_map (λ name. name.now) result ≡ first_unregistered (front_found opened.now).names names.now }
{
    names.iter().find(|name| !opened.has(name))
}

// Gives the store its name in the types, and serves it.
fn serve_opened<
    N: ServedNaming,
    R: Wait,
    D: Disk + Drop,
    T: Invariants + Drop,
    S: StoredSteps + Drop,
    I: Read,
    W: Write,
>(
    rt: &R,
    alloc: Global,
    opened: OpenedFront<D, T, S>,
    served: Served,
    input: &mut I,
    out: &mut W,
) -> Result<InputEnd, DeskFailure>
    requires spine { spine_of opened ≡ N.name }
    requires opening { front_found opened ≡ N.opening }
    requires names { T.names (front_table opened) ≡ N.program.names }
    requires stated { T.is_stated (front_table opened) N.program.tests }
    requires steps { S.is_stated (front_steps opened) N.program.steps }
    requires arities { S.arities (front_steps opened) ≡ N.arities }
    requires vars { served.vars ≡ length N.opening.values }
    requires told { served.names.now ≡ N.program.names }
    requires always { served.always.now ≡ N.always }
    ensures served { OnOk result (ServesStore (store N.name.start N.opening N.program N.arities N.always) served.entry.vars served.entry.variables.now (I.remaining input.old) (I.remaining input.new) (W.contents out.old) (W.contents out.new)) }
    ensures whole { IfOk result (λ end. end ≡ InputEnd.Reached → IsAtEnd (I.remaining input.new)) }
    ensures stopped { IfErr result (IsWhyStopped (store N.name.start N.opening N.program N.arities N.always) served.entry.vars served.entry.variables.now (I.remaining input.old) (I.remaining input.new) (W.contents out.old) (W.contents out.new)) }
{
    let front = opened.named::<N>();
    serve_front(rt, alloc, &front, served, input, out)
}

// Serves a store that has its name.
fn serve_front<
    N: ServedNaming,
    R: Wait,
    D: Disk + Drop,
    T: Invariants + Drop,
    S: StoredSteps + Drop,
    I: Read,
    W: Write,
>(
    rt: &R,
    alloc: Global,
    front: &Front<D, N, T, S>,
    served: Served,
    input: &mut I,
    out: &mut W,
) -> Result<InputEnd, DeskFailure>
    requires arities { S.arities front.now.steps ≡ N.arities }
    requires vars { served.vars ≡ length N.opening.values }
    requires told { served.names.now ≡ N.program.names }
    requires always { served.always.now ≡ N.always }
    ensures served { OnOk result (ServesStore (store N.name.start N.opening N.program N.arities N.always) served.entry.vars served.entry.variables.now (I.remaining input.old) (I.remaining input.new) (W.contents out.old) (W.contents out.new)) }
    ensures whole { IfOk result (λ end. end ≡ InputEnd.Reached → IsAtEnd (I.remaining input.new)) }
    ensures stopped { IfErr result (IsWhyStopped (store N.name.start N.opening N.program N.arities N.always) served.entry.vars served.entry.variables.now (I.remaining input.old) (I.remaining input.new) (W.contents out.old) (W.contents out.new)) }
{
    let service = Service::new(rt, alloc, front, served.vars, served.names, served.always);
    let pass = front.pass(rt)?;
    print_first(out, pass.seen(), served.vars, served.variables)?;
    let mut desk = Desk::new(alloc, pass);
    serve_lines(rt, alloc, &service, &mut desk, input, out)
}

// Prints the first line.
fn print_first<W: Write>(
    out: &mut W,
    opened: u64,
    vars: u16,
    names: &[(String, u16)],
) -> Result<(), DeskFailure>
    ensures printed { OnOk result (Appends (W.contents out.old) (W.contents out.new) (first_line opened vars names.now)) }
    ensures failed { IfErr result (λ f. f ≡ failure.Output) }
{
    let first = OpenedLine {
        opened,
        vars,
        names,
    };
    writeln!(out, "{first}")?;
    flush(out)
}

// Flushes what was printed.
fn flush<W: Write>(out: &mut W) -> Result<(), DeskFailure>
    ensures kept { Keeps (W.contents out.old) (W.contents out.new) }
    ensures failed { IfErr result (λ f. f ≡ failure.Output) }
{
    Ok(out.flush()?)
}

// Answers the lines of an input, piece by piece.
fn serve_lines<N: ServedNaming, R: Wait, V: ServedStore<N>, I: Read, W: Write>(
    rt: &R,
    alloc: Global,
    service: &V,
    desk: &mut Desk<N>,
    input: &mut I,
    out: &mut W,
) -> Result<InputEnd, DeskFailure>
    ensures served { OnOk result (ServesInput (store N.name.start N.opening N.program N.arities N.always) (desk_view desk.old) (I.remaining input.old) (I.remaining input.new) (W.contents out.old) (W.contents out.new)) }
    ensures whole { IfOk result (λ end. end ≡ InputEnd.Reached → IsAtEnd (I.remaining input.new)) }
    ensures stopped { IfErr result (StopsInput (store N.name.start N.opening N.program N.arities N.always) (desk_view desk.old) (I.remaining input.old) (I.remaining input.new) (W.contents out.old) (W.contents out.new)) }
{
    let mut lines = Lines::new(alloc);
    let mut piece = room_for_piece(alloc)?;
    for _ in rt.forever() {
        match read_some(rt, input, &mut piece) {
            Ok(count) => {
                desk.serve(service, &mut lines, first_of(&piece, count), out)?;
                flush(out)?;
            }
            Err(end) => {
                desk.end(service, &mut lines, out)?;
                flush(out)?;
                return Ok(end);
            }
        }
    }
    unreachable!()
}

// The room for a piece.
fn room_for_piece(alloc: Global) -> Result<Vec<u8>, DeskFailure>
    ensures room { IfOk result (λ piece. 1 ≤ length piece.items) }
    ensures refused { IfErr result (λ f. f ≡ failure.Fault Fault.Memory) }
{
    match vec![in alloc; 0; PIECE_BYTES] {
        Ok(piece) => Ok(piece),
        Err(_) => Err(DeskFailure::Fault(Fault::Memory)),
    }
}

// So many bytes of a piece.
fn first_of(piece: &[u8], count: usize) -> &[u8]
    requires { count ≤ length piece.now }
    ensures { result.now ≡ take count piece.now }
{
    &piece[..count]
}

// Reads what is there, into a piece, and answers how many bytes; or how the input ended. Where a signal comes between, it reads once
// more.
fn read_some<R: Wait, I: Read>(rt: &R, input: &mut I, piece: &mut [u8]) -> Result<usize, InputEnd>
    requires { 1 ≤ length piece.old }
    ensures within { IfOk result (λ count. count ≤ length piece.new) }
    ensures bytes { IfOk result (λ count. Consumes (I.remaining input.old) (I.remaining input.new) (take count piece.new)) }
    ensures none { OnErr result (Consumes (I.remaining input.old) (I.remaining input.new) []) }
    ensures ended { IfErr result (λ end. end ≡ InputEnd.Reached → IsAtEnd (I.remaining input.new)) }
{
    for _ in rt.forever() {
        match input.read(piece) {
            Ok(0) => return Err(InputEnd::Reached),
            Ok(count) => return Ok(count),
            Err(error) if error.kind() == ErrorKind::Interrupted => {}
            Err(_) => return Err(InputEnd::Failed),
        }
    }
    unreachable!()
}
