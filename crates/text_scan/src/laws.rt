//! Laws over the definitions of the texts. Their functions do nothing when they are run, and take
//! no memory.

ghost use Rattle.std.specs.Prelude.{◌≡◌, ◌+◌, ◌-◌, ◌^◌, ◌≤◌, ◌++◌, IsTrue, codes, length};
ghost use Rattle.std.specs.Fmt.{decimal};
ghost use Rattle.text_scan.specs.Numeral.{whole_number};
ghost use Rattle.text_scan.specs.Ip4.{ip4_of};
ghost use Rattle.text_scan.specs.Ip4Text.{ip4_spelling};
ghost use Rattle.text_scan.specs.Ip6.{are_groups, are_last_groups, filled_pieces, groups_of};
ghost use Rattle.text_scan.specs.Ip6.{ip6_of, joined, pieces_of_all};
ghost use Rattle.text_scan.specs.Ip6Text.{ip6_spelling};

/// Groups, `::` and groups are an address, if they are few enough: RFC 4291, section 2.2, form 2,
/// with form 3 at the end.
///
/// The definition cuts a text at its first `::`. This says that it matters not where: a text that
/// can be cut anywhere into such groups is an address, and that one.
pub fn ip6_is_cut_anywhere(before: &[u8], after: &[u8])
    requires before { IsTrue (are_groups (groups_of before.now)) }
    requires after { IsTrue (are_last_groups (groups_of after.now)) }
    requires few { length (pieces_of_all (groups_of before.now))
        + length (pieces_of_all (groups_of after.now)) ≤ 7 }
    ensures { let pieces = filled_pieces
        (pieces_of_all (groups_of before.now)) (pieces_of_all (groups_of after.now)) in
        ip6_of (before.now ++ codes "::" ++ after.now) ≡ Some (joined pieces) }
{}

/// The text of an IPv4 address, read as a text, is the address. So `ip4_text` gives back what
/// `put_ip4` printed.
pub fn ip4_reads_back(value: u32)
    ensures { ip4_of (ip4_spelling value) ≡ Some value }
{}

/// The text of an IPv6 address, read as a text, is the address. So `ip6_text` gives back what
/// `put_ip6` printed.
pub fn ip6_reads_back(value: u128)
    ensures { ip6_of (ip6_spelling value) ≡ Some value }
{}

/// The text of a number in decimal, read as a text, is the number.
pub fn number_reads_back(value: u64)
    ensures { whole_number (2 ^ 64 - 1) (decimal value) ≡ Some value }
{}
