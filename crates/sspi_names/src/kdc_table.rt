//! Which KDC serves which realm.

ghost use Rattle.std.specs.Prelude.{◌≡◌, ◌∷◌, ◌++◌, [], OnOk, OnErr, IfOk, IfErr, option_copied};
ghost use Rattle.sspi_names.specs.Kdcs.{first_entry};

use crate::folding::is_same;
use sspi_types::{Error, Text};
use std::alloc::{AllocError, Global};
use std::marker::Model;

/// Which KDC serves which realm: entries in the order in which they were pushed.
#[derive(Drop)]
pub struct KdcTable {
    entries: Vec<KdcEntry>,
}

/// A realm and the URL of its KDC.
#[derive(Drop)]
struct KdcEntry {
    realm: Text,
    url: Text,
}

impl Model for KdcTable {
    ghost use Rattle.std.specs.Prelude.{List};
    ghost use Rattle.sspi_names.specs.declared.kdc_table.KdcEntry.{KdcEntry};

    ghost Value = { List KdcEntry };

    ghost view = { λ table. table.entries.items };
}

impl PartialEq for KdcEntry {
    ghost use Rattle.std.specs.Cmp.{partial_equiv_from_equiv};
    ghost use Rattle.sspi_names.specs.Kdcs.{same_entry};
    ghost use Rattle.sspi_names.specs.Same.{same_entry-equiv};

    ghost eq = { same_entry };

    ghost laws = { partial_equiv_from_equiv same_entry-equiv };

    fn eq(&self, other: &KdcEntry) -> bool {
        self.realm == other.realm && self.url == other.url
    }
}

impl PartialEq for KdcTable {
    ghost use Rattle.std.specs.Cmp.{partial_equiv_from_equiv};
    ghost use Rattle.sspi_names.specs.Kdcs.{same_table};
    ghost use Rattle.sspi_names.specs.Same.{same_table-equiv};

    ghost eq = { same_table };

    ghost laws = { partial_equiv_from_equiv same_table-equiv };

    fn eq(&self, other: &KdcTable) -> bool {
        self.entries == other.entries
    }
}

impl Eq for KdcTable {
    ghost use Rattle.sspi_names.specs.Same.{same_table-equiv};

    ghost laws = { same_table-equiv };
}

impl KdcTable {
    ghost use Rattle.sspi_types.specs.Errors.{memory_error};
    ghost use Rattle.sspi_names.specs.Kdcs.{url_of};

    /// A table without entries.
    pub fn new(alloc: Global) -> KdcTable
        ensures { result ≡ [] }
    {
        KdcTable {
            entries: Vec::new(alloc),
        }
    }

    /// Adds an entry after the others. If memory runs out, the table stays as it was.
    pub fn push(&mut self, realm: &str, url: &str) -> Result<(), Error>
        ensures ok { OnOk result (self.new ≡ self.old ++
            record { realm = realm.now; url = url.now } ∷ []) }
        ensures err { OnErr result (self.new ≡ self.old) }
        ensures cause { IfErr result (λ e. e ≡ memory_error) }
    {
        let alloc = *self.entries.allocator();
        let realm = Text::from_text(alloc, realm)?;
        let url = Text::from_text(alloc, url)?;
        self.entries.push(KdcEntry { realm, url })?;
        Ok(())
    }

    /// The URL of the first entry whose realm equals this one, ignoring the case of ASCII letters.
    /// An empty realm has none.
    #[tactic(auto, unfolding(crate::specs::Kdcs::url_of))]
    pub fn find(&self, realm: &str) -> Option<&str>
        ensures { option_copied result ≡ url_of self.now realm.now }
    {
        if realm.is_empty() {
            return None;
        }
        match first_of_realm(&self.entries, realm) {
            Some(entry) => Some(entry.url.as_str()),
            None => None,
        }
    }

    /// A copy in memory of its own, equal to this table.
    pub fn clone(&self, alloc: Global) -> Result<KdcTable, AllocError>
        ensures { IfOk result (λ table. table ≡ self.now) }
    {
        let mut entries = Vec::with_capacity(alloc, self.entries.len())?;
        for entry in &self.entries {
            let realm = entry.realm.clone(alloc)?;
            let url = entry.url.clone(alloc)?;
            entries.push(KdcEntry { realm, url })?;
        }
        Ok(KdcTable { entries })
    }
}

/// The first entry whose realm equals this one, ignoring the case of ASCII letters.
fn first_of_realm<'a>(entries: &'a [KdcEntry], realm: &str) -> Option<&'a KdcEntry>
    ensures { option_copied result ≡ first_entry entries.now realm.now }
{
    entries
        .iter()
        .find(|entry| is_same(entry.realm.as_str(), realm))
}
