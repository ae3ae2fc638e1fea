// What holds of every content.
ghost use Rattle.tmem_image.specs.Laws.{OneImage, OneChoice};

/// A copy holds one image at the most. It does nothing: a caller's proof takes the law from its contract.
pub fn one_image()
    ensures { OneImage }
{}

/// A content chooses one copy at the most. It does nothing: a caller's proof takes the law from its contract.
pub fn one_choice()
    ensures { OneChoice }
{}
