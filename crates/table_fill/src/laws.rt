//! The law of filled tables, over the definitions alone. It runs no code.

ghost use Rattle.table_fill.specs.Laws.{FilledTablesDecide};

/// Whatever the groups are, the filled table answers for each key and category as the rules do.
pub fn filled_tables_decide()
    ensures { FilledTablesDecide }
{}
