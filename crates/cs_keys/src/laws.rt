//! Laws of keys.
ghost use Rattle.cs_keys.specs.Laws.{KeysAreExact, TermsHaveValues};

/// The keys of two states are equal exactly if the live parts of the states are.
pub fn keys_are_exact()
    ensures { KeysAreExact }
{}

/// Terms that are the same in a live part have the same values.
pub fn terms_have_values()
    ensures { TermsHaveValues }
{}
