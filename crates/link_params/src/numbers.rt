//! What the laws say of sizes.
ghost use Rattle.link_params.specs.Sizes.{LegalSizes};

/// The limits within which legal parameters lie.
pub fn sizes()
    ensures { LegalSizes }
{}
