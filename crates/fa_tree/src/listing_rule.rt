//! The rule of listings.

ghost use Rattle.std.specs.Prelude.{◌≡◌, ◌↔◌, All, IsTrue, IfOk};
ghost use Rattle.fa_bodies.specs.Dirents.{dirent_shown};
ghost use Rattle.fa_bodies.specs.Listing.{entries_left};
ghost use Rattle.fa_ledger.specs.SoFar.{listing_so_far};
ghost use Rattle.fa_tree.specs.Directories.{judged, WasThere, IsTypedAsStayed, IsThereIfLookedUp, IsListed};
ghost use Rattle.fa_tree.specs.parts.ListingParts.{IsTypedAs, IsAllowed};
ghost use Rattle.fa_tree.specs.parts.OpenParts.{open_of};
ghost use Rattle.fa_tree.specs.parts.TallyParts.{ListsAt};

use crate::entries::is_judged;
use crate::id::FileId;
use crate::open_names::OpenNames;
use crate::orderly::is_orderly;
use crate::replay::Replay;
use crate::stored::Stored;
use fa_bodies::{Dirent, Entries};
use fa_ledger::Listing;
use std::alloc::AllocError;

impl Stored {
    /// Whether the type of an entry is that of the file which stayed under its name, if one did.
    fn is_typed_as(&self, stayed: Option<FileId>, dirent: &Dirent<'_>) -> bool
        ensures { IsTrue result ↔ IsTypedAs self.now.store stayed (dirent_shown dirent.now) }
    {
        match stayed {
            Some(file) => self.is_type_of(file, dirent),
            None => true,
        }
    }

    /// Whether an entry is what the rule of listings allows, whatever the others are.
    fn is_allowed(&self, names: &OpenNames<'_>, dirent: &Dirent<'_>) -> bool
        ensures { IsTrue result ↔ IsAllowed self.now.store (open_of names.now) (dirent_shown dirent.now) }
    {
        let (had, stayed) = names.since(dirent.name);
        had && self.is_typed_as(stayed, dirent)
            && self.is_there_if_looked_up(names.directory(), dirent)
    }

    /// Whether each entry that is judged is what the rule of listings allows, whatever the others are.
    fn all_allowed(&self, names: &OpenNames<'_>, mut entries: Entries<'_>) -> bool
        ensures { IsTrue result ↔ (All (WasThere (open_of names.now)) (judged (entries_left entries.entry)) × All (IsTypedAsStayed self.now.store (open_of names.now)) (judged (entries_left entries.entry)) × All (IsThereIfLookedUp self.now.store (open_of names.now).directory) (judged (entries_left entries.entry))) }
    {
        entries.all(|dirent| !is_judged(&dirent) || self.is_allowed(names, &dirent))
    }

    /// Whether the entries, which answer the call at this place, are what the rule of listings allows. An error says that memory was
    /// refused.
    ///
    /// Expected time in the entries; for a listing that began at the start, without gaps, on a handle of its own, also as
    /// [`is_orderly`].
    pub(crate) fn is_listed<'c>(
        &self,
        names: &OpenNames<'_>,
        replay: &mut Replay<'c>,
        k: usize,
        listing: &Listing,
        entries: Entries<'c>,
        size: u32,
    ) -> Result<bool, AllocError>
        requires { ListsAt replay.old.list k (entries_left entries) }
        ensures listed { IfOk result (λ is. IsTrue is ↔ IsListed self.now.store (open_of names.now) listing.now size (listing_so_far replay.old.list k) (entries_left entries.entry)) }
        ensures same { replay.new ≡ replay.old }
    {
        if !self.all_allowed(names, entries) {
            return Ok(false);
        }
        if listing.adrift || listing.shared {
            return Ok(true);
        }
        is_orderly(names, replay, k, entries, size)
    }
}
