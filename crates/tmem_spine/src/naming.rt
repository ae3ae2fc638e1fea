// The name of a spine.
use std::marker::Brand;

/// Which spine it is, in the types of all that belongs to it. A program makes its calls at `Brand`, and says in a proof
/// file which spine that is.
pub trait Naming {
    ghost use Rattle.tmem_spine.specs.Views.{SpineName};

    ghost name: { SpineName };
}

impl Naming for Brand {
    ghost use Rattle.tmem_spine.specs.Notes.{no_name};

    ghost name = { no_name };
}
