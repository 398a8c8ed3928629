//! Laws of the definitions.
ghost use Rattle.vault_migrate.specs.Laws.{RowsStandForOne};

/// In each version, the rows of a database stand for one vault at most.
pub fn rows_stand_for_one()
    ensures { RowsStandForOne }
{}
