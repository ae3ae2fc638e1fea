//! Calls that may be refused memory, each made once more then, and calls that ask for none. `.ci/want-of-memory` refuses them each of
//! their requests, and counts those between two lines.
//!
//! First there are calls that ask for no memory, with a line behind each. Then a front is opened on a device that holds one
//! transaction, and transactions are settled there by each call that makes an attempt. A line with the transaction stands before it is
//! planned, and one with the call before that is made; then come its answer and the state. A call that is refused memory is told by
//! a line, with the state behind it, and made once more.

mod fronts;
mod opening;
mod printing;
mod store;
mod tasks;
mod without;

use opening::open_once;
use std::alloc::Global;
use std::rt::Clock;
use std::sync::Wait;
use store::store;
use tmem_fault::Fault;
use without::call_each;

/// Makes all of them.
pub(crate) fn make_calls<R: Clock + Print + Wait>(rt: &R, alloc: Global) -> Result<(), Fault> {
    call_each(rt, alloc)?;
    if let Some(disk) = open_once(rt, alloc, store(alloc)?)? {
        let _ = open_once(rt, alloc, disk)?;
    }
    Ok(())
}
