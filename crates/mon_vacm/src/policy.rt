ghost use Rattle.std.specs.Prelude.{◌≡◌, ◌↔◌, ◌++◌, ◌∷◌, [], List, All, IsTrue, IsOk, IfOk};
ghost use Rattle.mon_vacm.specs.declared.family.ViewTreeFamily.{ViewTreeFamily as AnyFamily};
ghost use Rattle.mon_vacm.specs.Access.{access_of};
ghost use Rattle.mon_vacm.specs.Borrowed.{granted, view_of};
ghost use Rattle.mon_vacm.specs.Decision.{IsRight};
ghost use Rattle.mon_vacm.specs.Runs.{AreOfOneView, AreRuns};
ghost use Rattle.mon_vacm.specs.Tables.{lists_of, IsPolicy, AreCommunitiesDistinct, AreFamiliesDistinct, NamesViews};
ghost use Rattle.mon_vacm.specs.View.{IsInView, IsBest};

use crate::access::Access;
use crate::decision::Decision;
use crate::denied::Denied;
use crate::family::ViewTreeFamily;
use crate::fault::PolicyFault;
use crate::names::is_named;
use crate::runs::runs_of;
use crate::tables::Tables;
use crate::view_type::ViewType;
use mon_oid::Oid;
use std::marker::Model;

/// Tables that give no community and no subtree of a view twice, and name no view that has no
/// family. Contracts see the tables as lists.
pub struct Policy {
    tables: Tables,
    /// How many families each run of neighbours of one view has.
    runs: Vec<usize>,
}

// By hand: where one is let go, a proof has one call and not a drop of each field.
impl Drop for Policy {
    fn drop(self) {
        let Policy { tables: _, runs: _ } = self;
    }
}

impl Model for Policy {
    ghost use Rattle.mon_vacm.specs.Runs.{AreRuns};
    ghost use Rattle.mon_vacm.specs.Tables.{PolicyTables, IsPolicy, lists_of};

    ghost Value = { PolicyTables };

    ghost view = { λ p. lists_of p.tables };

    ghost invariant = { λ p. IsPolicy (lists_of p.tables) × AreRuns p.runs.items
        p.tables.families.items };
}

impl Policy {
    /// The policy of these tables, or the first of their faults: `DuplicateCommunity` where a
    /// community is given twice, `UnknownView` where an access entry names a view without a family,
    /// `DuplicateFamily` where a view has a subtree twice.
    pub fn new(tables: Tables) -> Result<Self, PolicyFault>
        ensures kept { IfOk result (λ policy. (policy ≡ lists_of tables) × IsPolicy policy) }
        ensures accepted { IsPolicy (lists_of tables) → IsOk result }

        // The first fault of the tables.
        ensures duplicate_community { (result ≡ Err PolicyFault.DuplicateCommunity)
            ↔ ¬ (AreCommunitiesDistinct tables.communities.items) }
        ensures unknown_view { (result ≡ Err PolicyFault.UnknownView)
            ↔ (AreCommunitiesDistinct tables.communities.items
            × ¬ (All (NamesViews tables.families.items) tables.accesses.items)) }
        ensures duplicate_family { (result ≡ Err PolicyFault.DuplicateFamily)
            ↔ (AreCommunitiesDistinct tables.communities.items
            × All (NamesViews tables.families.items) tables.accesses.items
            × ¬ (AreFamiliesDistinct tables.families.items)) }
    {
        if !tables.are_communities_distinct() {
            return Err(PolicyFault::DuplicateCommunity);
        }
        if !tables.are_views_known() {
            return Err(PolicyFault::UnknownView);
        }
        if !tables.are_families_distinct() {
            return Err(PolicyFault::DuplicateFamily);
        }
        let runs = runs_of(*tables.families.allocator(), tables.families.as_slice());
        Ok(Policy { tables, runs })
    }

    /// The view that a community is granted for a need: by its security name, that name's first
    /// group, and the group's first access entry with model 2, else with any model (RFC 3415
    /// section 3.2).
    pub fn access(&self, community: &[u8], need: ViewType) -> Result<Access<'_>, Denied>
        ensures { granted result ≡ access_of self.now community.now need }
    {
        let security = self.tables.security_of(community)?;
        let group = self.tables.group_of(security)?;
        self.tables.entry_of(group)?.view_for(need)
    }

    /// Returns `true` if a name is in the granted view: of the view's families that match the name,
    /// the one with the longest and then greatest subtree is an included one (RFC 3415 section 4,
    /// vacmViewTreeFamilyTable).
    pub fn sees(&self, access: Access<'_>, name: &Oid) -> bool
        ensures { IsTrue result ↔ IsInView self.now.families (view_of access.entry) name.now }
    {
        let families = self.tables.families.as_slice();
        match deciding(families, self.runs.as_slice(), access.view, name) {
            Some(family) => family.included,
            None => false,
        }
    }

    /// Returns `true` if a community may do what it needs with a name: `access`, and then `sees`.
    pub fn judge(&self, community: &[u8], need: ViewType, name: &Oid) -> Decision
        ensures { IsRight self.now community.now need name.now result }
    {
        match self.access(community, need) {
            Ok(access) if self.sees(access, name) => Decision::Allowed,
            Ok(_) => Decision::NotInView,
            Err(why) => Decision::Denied(why),
        }
    }
}

/// The family that decides on a name in a view.
fn deciding<'a>(
    families: &'a [ViewTreeFamily],
    runs: &[usize],
    view: &[u8],
    name: &Oid,
) -> Option<&'a ViewTreeFamily>
    requires { AreRuns runs.now families.now }
    ensures { IsBest families.now view.now name.now result }
{
    let mut best: Option<&ViewTreeFamily> = None;
    let mut rest = families;
    for run in runs {
        let (own, others) = rest.split_at(*run);
        best = strongest_of_view(best, own, view, name);
        rest = others;
    }
    strongest(best, rest, view, name)
}

/// The family that decides, when these of one view are looked at too.
fn strongest_of_view<'a>(
    best: Option<&'a ViewTreeFamily>,
    own: &'a [ViewTreeFamily],
    view: &[u8],
    name: &Oid,
) -> Option<&'a ViewTreeFamily>
    requires { AreOfOneView own.now }
    ensures { (families : List AnyFamily) → IsBest families view.now name.now best.entry
        → IsBest (families ++ own.now) view.now name.now result }
{
    if own.is_empty() {
        return best;
    }
    if !is_named(&own[0].view_name, view) {
        return best;
    }
    strongest(best, own, view, name)
}

/// The family that decides, when these are looked at too.
fn strongest<'a>(
    best: Option<&'a ViewTreeFamily>,
    families: &'a [ViewTreeFamily],
    view: &[u8],
    name: &Oid,
) -> Option<&'a ViewTreeFamily>
    ensures { (others : List AnyFamily) → IsBest others view.now name.now best.entry
        → IsBest (others ++ families.now) view.now name.now result }
{
    let mut found = best;
    for family in families {
        found = stronger(found, family, view, name);
    }
    found
}

/// The family that decides, when one more is looked at.
fn stronger<'a>(
    best: Option<&'a ViewTreeFamily>,
    family: &'a ViewTreeFamily,
    view: &[u8],
    name: &Oid,
) -> Option<&'a ViewTreeFamily>
    ensures { (families : List AnyFamily) → IsBest families view.now name.now best.entry
        → IsBest (families ++ family.now ∷ []) view.now name.now result }
{
    if !family.applies(view, name) {
        return best;
    }
    match best {
        Some(other) if other.compare(family).is_ge() => best,
        _ => Some(family),
    }
}
