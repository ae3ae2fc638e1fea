// What holds of every content.
ghost use Rattle.tmem_journal.specs.Laws.{RepresentsOne, RefusedRepresentsNone, SpentIsAtLast};

/// A content represents one state at the most. It does nothing: a caller's proof takes the law from its contract.
pub fn represents_one()
    ensures { RepresentsOne }
{}

/// A content that is refused by anything but `Spent` represents no state. It does nothing either.
pub fn refused_represents_none()
    ensures { RefusedRepresentsNone }
{}

/// A content that is refused by `Spent` represents its state by an image of version 1 and of the last generation. It does nothing
/// either.
pub fn spent_is_at_last()
    ensures { SpentIsAtLast }
{}
