//! Serves a store over standard input and output.
ghost use Rattle.std.specs.Prelude.{◌≡◌, OnOk};
ghost use Rattle.std.specs.Io.KnownBytes.{IsAtEnd};
ghost use Rattle.tmem_file.specs.FileView.{file_view};
ghost use Rattle.tmem_serve.specs.Stores.{OpensAndServes};
ghost use Rattle.tmem_run.specs.Builtin.{builtin_arities};
ghost use Rattle.tmem.specs.Made.{always_in};
ghost use Rattle.tmem.specs.Shaped.{ServesShape, ServesAnyShape, program_of, store_failure_of};

use crate::init::text_in;
use std::fs::{File, Files};
use std::io::{Read, Write};
use std::sync::Wait;
use tmem_advice::StoreFailure;
use tmem_args::Serving;
use tmem_builtins::stored_steps;
use tmem_desk::DeskFailure;
use tmem_file::FileDisk;
use tmem_record::Layout;
use tmem_serve::{InputEnd, ServeError, Served, serve_store};
use tmem_shape::StoreShape;
use tmem_tables::LinearTable;

/// Opens a store with its shape, and answers the requests of the input until it ends. `Input` where a read of it failed.
pub(crate) fn serve<I: Read, W: Write>(
    rt: &(impl Files<File = File> + AllocGlobal + Wait),
    serving: Serving,
    input: &mut I,
    out: &mut W,
) -> Result<(), StoreFailure>
    ensures { OnOk result (ServesAnyShape (I.remaining input.old) (I.remaining input.new) (W.contents out.old) (W.contents out.new)) }
{
    let text = shape_text(rt, serving)?;
    serve_text(rt, serving.store.unwrap_or(""), &text, input, out)
}

// The text of the shape that a store is served with.
fn shape_text(
    rt: &(impl Files<File = File> + AllocGlobal),
    serving: Serving,
) -> Result<Vec<u8>, StoreFailure> {
    match serving.shape {
        Some(path) => text_in(rt, path),
        None => {
            let beside = format!(in rt.alloc(); "{}.json", serving.store.unwrap_or(""))?;
            text_in(rt, beside.as_str())
        }
    }
}

// Opens a store with the shape of a text, which is checked before the file is touched.
fn serve_text<I: Read, W: Write>(
    rt: &(impl Files<File = File> + AllocGlobal + Wait),
    store: &str,
    text: &[u8],
    input: &mut I,
    out: &mut W,
) -> Result<(), StoreFailure>
    ensures { OnOk result (ServesShape text.now (I.remaining input.old) (I.remaining input.new) (W.contents out.old) (W.contents out.new)) }
{
    let shape = StoreShape::from_slice(rt.alloc(), text)?;
    let layout = Layout::new(shape.vars, shape.slots)?;
    let disk = FileDisk::open(rt, store, layout.end())?;
    serve_on(rt, shape, disk, input, out)
}

// The same on the device of its file.
fn serve_on<I: Read, W: Write>(
    rt: &(impl AllocGlobal + Wait),
    shape: StoreShape,
    disk: FileDisk,
    input: &mut I,
    out: &mut W,
) -> Result<(), StoreFailure>
    ensures served { OnOk result (OpensAndServes file_view (program_of shape.invariants.items) builtin_arities (always_in shape.invariants.items) shape.vars shape.slots shape.names.items disk (I.remaining input.old) (I.remaining input.new) (W.contents out.old) (W.contents out.new)) }
    ensures whole { OnOk result (IsAtEnd (I.remaining input.new)) }
{
    let alloc = rt.alloc();
    let names = shape.invariant_names(alloc)?;
    let always = shape.always_names(alloc)?;
    let StoreShape {
        vars,
        slots,
        invariants,
        names: variables,
    } = shape;
    let table = LinearTable::of(alloc, invariants, vars)?;
    let served = Served {
        vars,
        slots,
        variables: &variables,
        names: &names,
        always: &always,
    };
    match serve_store(rt, alloc, disk, served, table, stored_steps(), input, out) {
        Ok(InputEnd::Reached) => Ok(()),
        Ok(InputEnd::Failed) => Err(StoreFailure::Input),
        Err(error) => Err(store_failure(&error)),
    }
}

// What the user is told of a store that was not served to the end of its input.
fn store_failure(error: &ServeError) -> StoreFailure
    ensures { result ≡ store_failure_of error.now }
{
    match error {
        ServeError::Unregistered(name) => StoreFailure::Unregistered(*name),
        ServeError::Ended(DeskFailure::Fault(fault)) => StoreFailure::Ended(*fault),
        ServeError::Ended(DeskFailure::Output) => StoreFailure::Output,
    }
}
