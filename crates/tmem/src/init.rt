//! Makes a store of the shape that a file has.
ghost use Rattle.std.specs.Prelude.{OnOk, IfOk};
ghost use Rattle.tmem_file.specs.FileView.{file_view};
ghost use Rattle.tmem.specs.Made.{IsStoreOf, MakesStore};

use std::fs::{self, File, Files};
use tmem_advice::StoreFailure;
use tmem_args::Making;
use tmem_builtins::stored_steps;
use tmem_fault::Fault;
use tmem_file::FileDisk;
use tmem_init::{make_in_place, make_store};
use tmem_record::Layout;
use tmem_shape::StoreShape;
use tmem_tables::LinearTable;

/// Makes a store of the shape that a file has: a new one, with the shape beside it, or one on what is there. Refused by `Device` where
/// the store's path is empty: the shape would get the path `.json`.
pub(crate) fn init_store(
    rt: &(impl Files<File = File> + AllocGlobal),
    making: Making,
) -> Result<(), StoreFailure>
    ensures { OnOk result MakesStore }
{
    let text = text_in(rt, making.file.unwrap_or(""))?;
    let store = making.store.unwrap_or("");
    if store.is_empty() {
        return Err(StoreFailure::Refused(Fault::Device));
    }
    let _made = make_of(rt, store, &text, making.is_in_place)?;
    Ok(())
}

// Makes a store of the shape of a text.
fn make_of(
    rt: &(impl Files<File = File> + AllocGlobal),
    store: &str,
    text: &[u8],
    is_in_place: bool,
) -> Result<FileDisk, StoreFailure>
    ensures { IfOk result (λ disk. IsStoreOf text.now (file_view disk)) }
{
    let shape = StoreShape::from_slice(rt.alloc(), text)?;
    shape.check_bounds()?;
    let always = shape.always_names(rt.alloc())?;
    let StoreShape {
        vars,
        slots,
        invariants,
        names: _names,
    } = shape;
    let layout = Layout::new(vars, slots)?;
    let table = LinearTable::of(rt.alloc(), invariants, vars)?;
    let made = if is_in_place {
        make_in_place(rt, store, layout, table, stored_steps(), &always)?
    } else {
        make_store(rt, store, text, layout, table, stored_steps(), &always)?
    };
    Ok(made)
}

/// The text of a shape, which a file has.
pub(crate) fn text_in(
    rt: &(impl Files<File = File> + AllocGlobal),
    path: &str,
) -> Result<Vec<u8>, StoreFailure> {
    Ok(fs::read(rt, path)?)
}
