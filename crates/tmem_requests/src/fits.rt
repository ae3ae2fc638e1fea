//! Whether a request can be made of a store.
ghost use Rattle.std.specs.Prelude.{◌≡◌, ◌<◌, ◌↔◌, true, All, IsTrue};
ghost use Rattle.std.specs.Map.{keys_of};
ghost use Rattle.tmem_requests.specs.Fits.{AreNamed, AreThere, FitsStore, ProposalFits, RetiresNone};

use crate::limits::{are_apart, has_name};
use crate::proposal::Proposal;
use crate::request::RequestBody;
use tmem_fault::Name;
use tmem_tree::Tx;

/// Whether what is asked for can be asked of a store: of so many variables, with invariants of these names, of which some always hold.
pub(crate) fn fits_store(ask: &RequestBody, vars: u16, names: &[Name], always: &[Name]) -> bool
    ensures { IsTrue result ↔ FitsStore vars names.now always.now ask.now }
{
    match ask {
        RequestBody::Do(tx) | RequestBody::Try(tx) | RequestBody::Keep(_, tx) => retires_none(
            tx, always,
        ),
        RequestBody::Get(all) => are_there(all, vars),
        RequestBody::Changed(reads) => are_pairs_there(reads, vars),
        RequestBody::Settle(proposal) => proposal_fits(proposal, vars, names, always),
        RequestBody::Cancel(_)
        | RequestBody::Run(_, _)
        | RequestBody::Look
        | RequestBody::State
        | RequestBody::Checkpoint
        | RequestBody::Stats => { true }
    }
}

/// Whether no node of a transaction retires one of these names.
pub(crate) fn retires_none(tx: &Tx, always: &[Name]) -> bool
    ensures { IsTrue result ↔ RetiresNone always.now tx.now }
{
    match tx {
        Tx::Retire { name } => !has_name(always, name),
        Tx::Seq(txs) => {
            for t in txs {
                if !retires_none(t, always) {
                    return false;
                }
            }
            true
        }
        Tx::When { then, other, .. } => retires_none(then, always) && retires_none(other, always),
        Tx::OrElse(first, second) => retires_none(first, always) && retires_none(second, always),
        _ => true,
    }
}

// Whether a proposal fits.
fn proposal_fits(proposal: &Proposal, vars: u16, names: &[Name], always: &[Name]) -> bool
    ensures { IsTrue result ↔ ProposalFits vars names.now always.now proposal.now }
{
    are_pairs_there(&proposal.reads, vars)
        && are_pairs_there(&proposal.writes, vars)
        && are_named(&proposal.checks, names)
        && are_named(&proposal.retires, names)
        && are_apart(&proposal.retires, always)
}

// Whether each of these is below the number of variables.
fn are_there(all: &[u16], vars: u16) -> bool
    ensures { IsTrue result ↔ AreThere vars all.now }
{
    all.iter().all(|var| *var < vars)
}

// The same of variables that have values.
fn are_pairs_there(all: &[(u16, i64)], vars: u16) -> bool
    ensures { IsTrue result ↔ AreThere vars (keys_of all.now) }
{
    all.iter().all(|pair| pair.0 < vars)
}

// Whether each of these names is one of the store's.
fn are_named(all: &[Name], names: &[Name]) -> bool
    ensures { IsTrue result ↔ AreNamed names.now all.now }
{
    for name in all {
        if !has_name(names, name) {
            return false;
        }
    }
    true
}
