//! A law over the definitions. Its function does nothing when it is run, and takes no memory.

ghost use Rattle.nft_reader.specs.Counted.{CountingSuffices};

/// An object that has a member of each of some different names, and as many members as there are
/// names, has no other members, and none twice. So nothing in an object is passed over that is
/// asked for its members by their names, and for how many it has.
pub fn counted_members_are_all()
    ensures { CountingSuffices }
{}
