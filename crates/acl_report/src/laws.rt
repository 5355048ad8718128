//! A law of the counts, over their definitions alone. It runs no code.

ghost use Rattle.acl_report.specs.Laws.{CountsGrowByOne};

/// To count the records of a longer list is to count its last record after all the others.
pub fn counts_grow_by_one()
    ensures { CountsGrowByOne }
{}
