//! What is printed of a capture, and the tables that answer for its packets.

ghost use Rattle.std.specs.Prelude.{◌≡◌, ◌≤◌, length};
ghost use Rattle.table_sizes.specs.Groups.{ip4_key_len, ip6_key_len};
ghost use Rattle.capture_report.specs.Classifier.{ByTables, key_len_of_family};
ghost use Rattle.capture_report.specs.ReportForm.{form_by};
ghost use Rattle.capture_report.specs.Batch.{table_of};
ghost use Rattle.table_sizes.specs.Sizes.{max_tries};

use acl_report::MAX_VERDICTS;
use field_defs::Family;
use flat_table::{Table, Walk};
use rule_set::Categories;
use std::marker::Model;
use table_sizes::MAX_TRIES;

/// What is printed of a capture.
#[derive(Clone, Copy)]
pub struct PrintOptions {
    /// How many categories are shown of each packet, from category 0 on.
    pub cats: Categories,
    /// Which walk answers the keys. It changes no printed byte.
    pub walk: Walk,
    /// Whether the sizes of the tables and the transitions are told after a whole capture.
    pub stats: bool,
    /// Whether a dash marks where no rule matches. Otherwise the digit 0 stands there.
    pub marks: bool,
}

/// The tables of both families, and how their answers are printed.
///
/// Contracts see the form of a report by the tables.
#[derive(Drop)]
pub struct FormByTables<'a> {
    ip4: &'a Table,
    ip6: &'a Table,
    options: PrintOptions,
}

impl<'a> Model for FormByTables<'a> {
    ghost use Rattle.std.specs.Prelude.{◌≡◌, ◌≤◌, length};
    ghost use Rattle.capture_report.specs.Classifier.{ByTables};
    ghost use Rattle.capture_report.specs.ReportForm.{ReportForm, form_by};
    ghost use Rattle.capture_report.specs.Batch.{IsFormByTables};

    ghost Value = { ReportForm };

    ghost view = { λ p. form_by (ByTables (record { ip4 = p.ip4.now; ip6 = p.ip6.now }))
        (record { ip4 = p.ip4.now; ip6 = p.ip6.now }) p.options };

    ghost invariant = { λ p. IsFormByTables (record { ip4 = p.ip4.now; ip6 = p.ip6.now })
        p.options.cats.count };
}

impl<'a> FormByTables<'a> {
    /// What prints by these tables, whose keys have 13 and 37 bytes. It takes no memory.
    pub fn new(ip4: &'a Table, ip6: &'a Table, options: PrintOptions) -> FormByTables<'a>
        requires ip4 { ip4.now.key_len ≡ ip4_key_len }
        requires ip6 { ip6.now.key_len ≡ ip6_key_len }
        ensures { result ≡ form_by (ByTables (record { ip4 = ip4.now; ip6 = ip6.now }))
            (record { ip4 = ip4.now; ip6 = ip6.now }) options }
    {
        prove!(ip4.tries() <= MAX_TRIES);
        prove!(ip6.tries() <= MAX_TRIES);
        prove!(options.cats.count() <= MAX_VERDICTS);
        FormByTables { ip4, ip6, options }
    }

    /// The table of a family.
    pub fn table(&self, family: Family) -> &Table
        ensures table { result.now ≡ table_of family self.now.tables }
        ensures key_len { result.now.key_len ≡ key_len_of_family family }
        ensures tries { length result.now.roots ≤ max_tries }
    {
        match family {
            Family::Ip4 => self.ip4,
            Family::Ip6 => self.ip6,
        }
    }

    /// How many categories are shown of each packet.
    pub fn categories(&self) -> Categories
        ensures count { result.count ≡ self.now.categories }
        ensures by_tables { self.now.classifier ≡ ByTables self.now.tables }
    {
        self.options.cats
    }

    /// Which walk answers the keys.
    pub fn walk(&self) -> Walk {
        self.options.walk
    }

    /// Whether the sizes of the tables and the transitions are told.
    pub fn has_stats(&self) -> bool
        ensures { result ≡ self.now.stats }
    {
        self.options.stats
    }

    /// Whether a dash marks where no rule matches.
    #[inline]
    pub fn has_marks(&self) -> bool
        ensures { result ≡ self.now.marks }
    {
        self.options.marks
    }
}
