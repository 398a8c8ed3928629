//! Laws of the definitions.
ghost use Rattle.vault_batch.specs.Laws.{RowsHaveLines};

/// Each row that asks is replied to by a token or by the number of a refusal, which its line shows.
pub fn rows_have_lines()
    ensures { RowsHaveLines }
{}
