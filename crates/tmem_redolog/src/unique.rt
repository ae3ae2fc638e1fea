// What holds of every content.
ghost use Rattle.tmem_redolog.specs.Laws.{OneLog};

/// A content holds one log at the most over an image of one version and generation. It does nothing: a caller's proof takes
/// the law from its contract.
pub fn one_log()
    ensures { OneLog }
{}
