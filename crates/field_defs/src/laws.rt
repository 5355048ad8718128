//! Laws of field values, over their definitions alone. They run no code.

ghost use Rattle.field_defs.specs.Laws.{WildValuesMatchEveryNumber, LawfulLayoutsHaveLawfulSizes};
ghost use Rattle.field_defs.specs.Laws.{LawfulLayoutsHaveShortKeys, LawfulLayoutsFillTheirGroups};

/// A value is wild by its numbers exactly where every number of the size matches it.
pub fn wild_values_match_every_number()
    ensures { WildValuesMatchEveryNumber }
{}

/// Each field of a lawful layout has a size that a field may have.
pub fn lawful_layouts_have_lawful_sizes()
    ensures { LawfulLayoutsHaveLawfulSizes }
{}

/// A key of a lawful layout has at least one byte and at most 505.
pub fn lawful_layouts_have_short_keys()
    ensures { LawfulLayoutsHaveShortKeys }
{}

/// A key of a lawful layout has one byte for the first field and four for each group that some
/// field fills. An 8-byte field fills its own group and the next.
pub fn lawful_layouts_fill_their_groups()
    ensures { LawfulLayoutsFillTheirGroups }
{}
