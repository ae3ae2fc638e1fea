// What holds of every serial order.
ghost use Rattle.tmem_core.specs.Following.{NamesOnlyGrow};

/// Where no transaction retires a name, names only grow: each one that was registered still is. It does nothing: a caller's proof
/// takes the law from its contract.
pub fn names_only_grow()
    ensures { NamesOnlyGrow }
{}
