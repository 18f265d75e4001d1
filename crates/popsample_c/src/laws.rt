//! Laws of calls. Each function's contract is the law.
ghost use Rattle.popsample_c.specs.Fits.{FitsThen};

/// Suppose that the arguments have one answer, and that a call with too little room returned a
/// length. Then each answer has this length. So a call with this much room has room for it.
pub fn fits_then()
    ensures { FitsThen }
{}
