//! What is told of texts that end too soon.
ghost use Rattle.std.specs.Prelude.{IsTrue};
ghost use Rattle.tmem_requests.specs.Reasons.{IsNoJson};

use serde_json::Value;
use std::alloc::Global;

/// What is wrong with a text that ends too soon.
pub const CUT_OFF: &str =
    "the text ends before its JSON does: a bracket or a quotation mark is left open";

/// Whether a text ends before its JSON does. One that is JSON does not, nor is it told where memory does not suffice.
pub fn is_cut_off(alloc: Global, text: &[u8]) -> bool
    ensures { IsTrue result → IsNoJson text.now }
{
    match Value::from_slice(alloc, text) {
        Ok(_) => false,
        Err(error) => error.is_eof(),
    }
}
