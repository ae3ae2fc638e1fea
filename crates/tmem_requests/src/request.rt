//! Requests, from their lines.
ghost use Rattle.std.specs.Prelude.{◌≡◌, ◌↔◌, ℤ, codes, IsOk, IfOk, IfErr, IsUtf8, Some};
ghost use Rattle.serde_json.specs.Data.{Data};
ghost use Rattle.serde_json.specs.Read.{read};
ghost use Rattle.serde_json.specs.View.{view};
ghost use Rattle.tmem_forms.specs.Errors.{Refuses};
ghost use Rattle.tmem_requests.specs.Errors.{IsNoRequest, IsNotJson};
ghost use Rattle.tmem_requests.specs.Fits.{FitsStore};
ghost use Rattle.tmem_requests.specs.Forms.{HasMember, IsInteger};
ghost use Rattle.tmem_requests.specs.Reasons.{IsNoJson};
ghost use Rattle.tmem_requests.specs.Requests.{IsRequest, IsRequestText};
ghost use Rattle.tmem_requests.specs.Wrong.{TellsTruth, TellsTruthOf, store};
ghost use Rattle.tmem_requests.specs.declared.request.RequestBody.{RequestBody};

use crate::ask::ask_of;
use crate::buffer::ReadBuffer;
use crate::explain::{explained, explained_misfit};
use crate::fits::fits_store;
use crate::keys::{asked_in, has_keys_by};
use crate::proposal::Proposal;
use crate::refusal::{NoRequest, RequestError};
use serde_json::Value;
use std::alloc::Global;
use tmem_fault::Name;
use tmem_forms::{FormError, integer_of};
use tmem_tree::Tx;

/// What a line asks for, and the number that its answer has.
#[derive(Drop)]
pub struct Request {
    pub id: i64,
    pub ask: RequestBody,
}

/// What is asked for.
#[derive(Drop)]
pub enum RequestBody {
    /// To run a transaction, and where it retries, to wait until it does not.
    Do(Tx),
    /// To run it once.
    Try(Tx),
    /// The values of variables at one moment.
    Get(Vec<u16>),
    /// To settle an attempt that was made elsewhere.
    Settle(Proposal),
    /// To wait until one of these variables has another value.
    Changed(Vec<(u16, i64)>),
    /// That the request of this id, if it waits, waits no more.
    Cancel(i64),
    /// To keep a transaction under a word.
    Keep(Name, Tx),
    /// To run what was kept under a word. The numbers stand, in order, for those of the `Put`s that it begins with.
    Run(Name, Vec<i64>),
    /// How many transactions are durable.
    Look,
    /// How many there are, the registered names and all values, at one moment.
    State,
    /// To write the durable state as a whole.
    Checkpoint,
    /// What was counted so far.
    Stats,
}

impl Request {
    /// Reads a line, without its line break: an object with an id and with what is asked for, in any order of its keys. Of a key that
    /// stands twice the last value counts. Refused with `NoRequest`, which says what is wrong and where, and with `Memory`.
    pub fn read(
        alloc: Global,
        buffer: &mut ReadBuffer,
        line: &[u8],
    ) -> Result<Request, RequestError>
        ensures request { IfOk result (λ request. IsRequestText request.id request.ask line.now) }
        ensures no_request { IfErr result (λ e. IsNoRequest e → (id : ℤ) (ask : RequestBody) → ¬ IsRequestText id ask line.now) }
        ensures told { IfErr result (λ e. (value : Data) → IsNoRequest e → IsUtf8 line.now → read line.now ≡ Some value → TellsTruthOf value e) }
        ensures no_json { IfErr result (λ e. IsNoJson line.now → IsNoRequest e → IsNotJson e) }
    {
        let value = buffer.read(alloc, line)?;
        match Request::from_value(alloc, &value) {
            Ok(request) => Ok(request),
            Err(FormError::Memory(error)) => Err(RequestError::Memory(error)),
            Err(FormError::NoForm) => Err(RequestError::NoRequest(explained(alloc, &value))),
        }
    }

    /// Whether it can be made of a store: of so many variables, with invariants of these names, of which some always hold and are
    /// never retired. Where not, it is answered as what is no request.
    pub fn fits(
        &self,
        alloc: Global,
        vars: u16,
        names: &[Name],
        always: &[Name],
    ) -> Result<(), NoRequest>
        ensures fits { IsOk result ↔ FitsStore vars names.now always.now self.now.ask }
        ensures told { IfErr result (λ refusal. (id : ℤ) (d : Data) → IsRequest id self.now.ask d → TellsTruth (store vars names.now always.now) d refusal) }
    {
        if !fits_store(&self.ask, vars, names, always) {
            return Err(explained_misfit(alloc, &self.ask, vars, names, always));
        }
        Ok(())
    }

    // The request that a value is.
    fn from_value(alloc: Global, value: &Value) -> Result<Request, FormError>
        ensures ok { IfOk result (λ request. IsRequest request.id request.ask (view value.now)) }
        ensures refused { IfErr result (λ e. Refuses e ((id : ℤ) (ask : RequestBody) → ¬ IsRequest id ask (view value.now))) }
    {
        let id = id_in(value)?;
        let Some((key, body)) = asked_in(value) else {
            return Err(FormError::NoForm);
        };
        if !has_keys_by(value, key) {
            return Err(FormError::NoForm);
        }
        let ask = ask_of(alloc, value, key, body)?;
        Ok(Request { id, ask })
    }
}

// The number at the key `id`.
fn id_in(value: &Value) -> Result<i64, FormError>
    ensures ok { IfOk result (λ id. HasMember (codes "id") (IsInteger id) (view value.now)) }
    ensures refused { IfErr result (λ e. Refuses e ((id : ℤ) → ¬ HasMember (codes "id") (IsInteger id) (view value.now))) }
{
    match value.get("id") {
        Some(number) => integer_of(number),
        None => Err(FormError::NoForm),
    }
}
