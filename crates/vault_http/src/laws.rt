//! Laws of the definitions.
ghost use Rattle.vault_http.specs.Laws.{NumbersAreCounted};

/// A merchant's count has each of its numbers that were given, whatever was asked after them.
pub fn numbers_are_counted()
    ensures { NumbersAreCounted }
{}
