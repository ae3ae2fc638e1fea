//! Why a request cannot be made of a store.
ghost use Rattle.std.specs.Prelude.{◌≡◌, ℕ, ℤ, [], List, map, IsOk, IfErr};
ghost use Rattle.serde_json.specs.Data.{Data, string};
ghost use Rattle.tmem_forms.specs.TxForms.{array_of, natural, tx_form};
ghost use Rattle.tmem_requests.specs.Forms.{pair_form};
ghost use Rattle.tmem_requests.specs.Requests.{IsRequest, IsSettle};
ghost use Rattle.tmem_requests.specs.Wrong.{IsTrueOf, TellsTruth, store};

use crate::explain::wrong::{WrongValue, inside};
use crate::limits::has_name;
use crate::place::PointerStep;
use crate::proposal::Proposal;
use crate::refusal::NoRequest;
use crate::request::RequestBody;
use crate::why::RequestFlaw;
use std::alloc::Global;
use tmem_fault::Name;
use tmem_tree::Tx;

/// Why what is asked for cannot be asked of a store: of so many variables, with invariants of these names, of which some always hold.
#[cold]
pub(crate) fn explained_misfit(
    alloc: Global,
    ask: &RequestBody,
    vars: u16,
    names: &[Name],
    always: &[Name],
) -> NoRequest
    ensures { (id : ℤ) (d : Data) → IsRequest id ask.now d → TellsTruth (store vars names.now always.now) d result }
{
    match find_misfit(alloc, ask, vars, names, always) {
        Ok(()) => WrongValue::here(alloc, RequestFlaw::NotRequest).into_refusal(),
        Err(wrong) => wrong.into_refusal(),
    }
}

fn find_misfit(
    alloc: Global,
    ask: &RequestBody,
    vars: u16,
    names: &[Name],
    always: &[Name],
) -> Result<(), WrongValue>
    ensures { (id : ℤ) (d : Data) → IsRequest id ask.now d → IfErr result (λ w. IsTrueOf (store vars names.now always.now) d w) }
{
    match ask {
        RequestBody::Do(tx) => inside(PointerStep::Key("do"), find_retired(alloc, tx, always)),
        RequestBody::Try(tx) => inside(PointerStep::Key("try"), find_retired(alloc, tx, always)),
        RequestBody::Keep(_, tx) => {
            let found = inside(PointerStep::Item(1), find_retired(alloc, tx, always));
            inside(PointerStep::Key("keep"), found)
        }
        RequestBody::Get(all) => inside(PointerStep::Key("get"), find_beyond(alloc, all, vars)),
        RequestBody::Changed(reads) => inside(
            PointerStep::Key("changed"),
            find_pair_beyond(alloc, reads, vars),
        ),
        RequestBody::Settle(proposal) => {
            let found = find_in_proposal(alloc, proposal, vars, names, always);
            inside(PointerStep::Key("settle"), found)
        }
        _ => Ok(()),
    }
}

// What does not fit of a proposal.
fn find_in_proposal(
    alloc: Global,
    proposal: &Proposal,
    vars: u16,
    names: &[Name],
    always: &[Name],
) -> Result<(), WrongValue>
    ensures { (d : Data) → IsSettle proposal.now d → IfErr result (λ w. IsTrueOf (store vars names.now always.now) d w) }
{
    let reads = find_pair_beyond(alloc, &proposal.reads, vars);
    inside(PointerStep::Key("reads"), reads)?;
    let writes = find_pair_beyond(alloc, &proposal.writes, vars);
    inside(PointerStep::Key("writes"), writes)?;
    let checks = find_unknown(alloc, &proposal.checks, names);
    inside(PointerStep::Key("check"), checks)?;
    let retires = find_not_retired(alloc, &proposal.retires, names, always);
    inside(PointerStep::Key("retire"), retires)
}

// The first of these variables that is not there.
fn find_beyond(alloc: Global, all: &[u16], vars: u16) -> Result<(), WrongValue>
    ensures { (names always : List (List ℕ)) → IfErr result (λ w. IsTrueOf (store vars names always) (array_of (map natural all.now)) w) }
{
    for (i, var) in all.iter().enumerate() {
        inside(
            PointerStep::Item(i as u64),
            find_in_variable(alloc, *var, vars),
        )?;
    }
    Ok(())
}

// The same of variables that have values.
fn find_pair_beyond(alloc: Global, pairs: &[(u16, i64)], vars: u16) -> Result<(), WrongValue>
    ensures found { (names always : List (List ℕ)) → IfErr result (λ w. IsTrueOf (store vars names always) (array_of (map pair_form pairs.now)) w) }
    ensures none { pairs.now ≡ [] → IsOk result }
{
    for (i, pair) in pairs.iter().enumerate() {
        let found = inside(PointerStep::Item(0), find_in_variable(alloc, pair.0, vars));
        inside(PointerStep::Item(i as u64), found)?;
    }
    Ok(())
}

// The first of these names that is none of the store's.
fn find_unknown(alloc: Global, all: &[Name], names: &[Name]) -> Result<(), WrongValue>
    ensures found { (vars : ℕ) (always : List (List ℕ)) → IfErr result (λ w. IsTrueOf (store vars names.now always) (array_of (map string all.now)) w) }
    ensures none { all.now ≡ [] → IsOk result }
{
    for (i, name) in all.iter().enumerate() {
        inside(
            PointerStep::Item(i as u64),
            find_in_name(alloc, name, names),
        )?;
    }
    Ok(())
}

// The first of these names that cannot be retired.
fn find_not_retired(
    alloc: Global,
    all: &[Name],
    names: &[Name],
    always: &[Name],
) -> Result<(), WrongValue>
    ensures found { (vars : ℕ) → IfErr result (λ w. IsTrueOf (store vars names.now always.now) (array_of (map string all.now)) w) }
    ensures none { all.now ≡ [] → IsOk result }
{
    for (i, name) in all.iter().enumerate() {
        let found = find_in_retired(alloc, name, names, always);
        inside(PointerStep::Item(i as u64), found)?;
    }
    Ok(())
}

fn find_in_variable(alloc: Global, var: u16, vars: u16) -> Result<(), WrongValue>
    ensures { (names always : List (List ℕ)) → IfErr result (λ w. IsTrueOf (store vars names always) (natural var) w) }
{
    if var < vars {
        return Ok(());
    }
    Err(WrongValue::here(alloc, RequestFlaw::NoSuchVariable))
}

fn find_in_name(alloc: Global, name: &Name, names: &[Name]) -> Result<(), WrongValue>
    ensures { (vars : ℕ) (always : List (List ℕ)) → IfErr result (λ w. IsTrueOf (store vars names.now always) (string name.now) w) }
{
    if has_name(names, name) {
        return Ok(());
    }
    Err(WrongValue::here(alloc, RequestFlaw::NoSuchName))
}

fn find_in_retired(
    alloc: Global,
    name: &Name,
    names: &[Name],
    always: &[Name],
) -> Result<(), WrongValue>
    ensures { (vars : ℕ) → IfErr result (λ w. IsTrueOf (store vars names.now always.now) (string name.now) w) }
{
    find_in_name(alloc, name, names)?;
    find_always(alloc, name, always)
}

fn find_always(alloc: Global, name: &Name, always: &[Name]) -> Result<(), WrongValue>
    ensures { (vars : ℕ) (names : List (List ℕ)) → IfErr result (λ w. IsTrueOf (store vars names always.now) (string name.now) w) }
{
    if has_name(always, name) {
        return Err(WrongValue::here(alloc, RequestFlaw::AlwaysHolds));
    }
    Ok(())
}

// The first node that retires one of these names.
#[cycle(retired)]
fn find_retired(alloc: Global, tx: &Tx, always: &[Name]) -> Result<(), WrongValue>
    ensures { (vars : ℕ) (names : List (List ℕ)) → IfErr result (λ w. IsTrueOf (store vars names always.now) (tx_form tx.now) w) }
{
    match tx {
        Tx::Retire { name } => inside(PointerStep::Key("retire"), find_always(alloc, name, always)),
        Tx::Seq(txs) => inside(PointerStep::Key("seq"), find_retired_in(alloc, txs, always)),
        Tx::When { then, other, .. } => {
            let first = inside(PointerStep::Item(1), find_retired(alloc, then, always));
            inside(PointerStep::Key("when"), first)?;
            let second = inside(PointerStep::Item(2), find_retired(alloc, other, always));
            inside(PointerStep::Key("when"), second)
        }
        Tx::OrElse(first, second) => {
            let first = inside(PointerStep::Item(0), find_retired(alloc, first, always));
            inside(PointerStep::Key("orelse"), first)?;
            let second = inside(PointerStep::Item(1), find_retired(alloc, second, always));
            inside(PointerStep::Key("orelse"), second)
        }
        _ => Ok(()),
    }
}

#[cycle(retired)]
fn find_retired_in(alloc: Global, txs: &[Tx], always: &[Name]) -> Result<(), WrongValue>
    ensures { (vars : ℕ) (names : List (List ℕ)) → IfErr result (λ w. IsTrueOf (store vars names always.now) (array_of (map tx_form txs.now)) w) }
{
    for (i, tx) in txs.iter().enumerate() {
        inside(PointerStep::Item(i as u64), find_retired(alloc, tx, always))?;
    }
    Ok(())
}
