ghost use Rattle.std.specs.Prelude.{◌≡◌, ◌↔◌, IsTrue, Any, All, IfSome, find};
ghost use Rattle.std.specs.Str.{bytes_eq};
ghost use Rattle.mon_vacm.specs.Access.{security_of, group_of, entry_of, entry_for};
ghost use Rattle.mon_vacm.specs.Borrowed.{now_of, entry_now};
ghost use Rattle.std.specs.Option.{option_copied};
ghost use Rattle.mon_vacm.specs.Tables.{AreCommunitiesDistinct, AreFamiliesDistinct, NamesViews, HasView};

use crate::access_entry::AccessEntry;
use crate::community::Community;
use crate::denied::Denied;
use crate::family::ViewTreeFamily;
use crate::group::Group;
use crate::model::SecurityModel;
use crate::names::is_named;
use mon_ber::Octets;
use mon_oid::Oid;

/// The tables that make a policy, each in the order of its entries (RFC 3415 section 4).
pub struct Tables {
    pub communities: Vec<Community>,
    pub groups: Vec<Group>,
    pub accesses: Vec<AccessEntry>,
    pub families: Vec<ViewTreeFamily>,
}

// By hand: where one is let go, a proof has one call and not a drop of each field.
impl Drop for Tables {
    fn drop(self) {
        let Tables {
            communities: _,
            groups: _,
            accesses: _,
            families: _,
        } = self;
    }
}

impl Tables {
    /// The security name of a community.
    pub(crate) fn security_of(&self, community: &[u8]) -> Result<&[u8], Denied>
        ensures { now_of result ≡ security_of self.now.communities.items community.now }
    {
        match self.community(community) {
            Some(entry) => Ok(entry.security_name.as_slice()),
            None => Err(Denied::NoCommunity),
        }
    }

    /// The first group of a security name.
    pub(crate) fn group_of(&self, security: &[u8]) -> Result<&[u8], Denied>
        ensures { now_of result ≡ group_of self.now.groups.items security.now }
    {
        match self.group(security) {
            Some(entry) => Ok(entry.group_name.as_slice()),
            None => Err(Denied::NoGroupName),
        }
    }

    /// The first access entry of a group with model 2, else the first with model 0.
    pub(crate) fn entry_of(&self, group: &[u8]) -> Result<&AccessEntry, Denied>
        ensures { entry_now result ≡ entry_of self.now.accesses.items group.now }
    {
        let exact = self.entry_for(group, SecurityModel::V2c);
        match exact.or(self.entry_for(group, SecurityModel::Any)) {
            Some(entry) => Ok(entry),
            None => Err(Denied::NoAccessEntry),
        }
    }

    fn community(&self, community: &[u8]) -> Option<&Community>
        ensures { option_copied result ≡ find (λ c. bytes_eq c.name community.now)
            self.now.communities.items }
    {
        self.communities
            .iter()
            .find(|c| is_named(&c.name, community))
    }

    fn group(&self, security: &[u8]) -> Option<&Group>
        ensures { option_copied result ≡ find (λ g. bytes_eq g.security_name security.now)
            self.now.groups.items }
    {
        self.groups
            .iter()
            .find(|g| is_named(&g.security_name, security))
    }

    fn entry_for(&self, group: &[u8], model: SecurityModel) -> Option<&AccessEntry>
        ensures { option_copied result ≡ entry_for self.now.accesses.items group.now model }
    {
        self.accesses.iter().find(|a| a.is_of(group, model))
    }

    /// Returns `true` if no community is given twice.
    pub(crate) fn are_communities_distinct(&self) -> bool
        ensures { IsTrue result ↔ AreCommunitiesDistinct self.now.communities.items }
    {
        let communities = self.communities.as_slice();
        for (i, own) in communities.iter().enumerate() {
            if has_community(&communities[..i], own.name.as_slice()) {
                return false;
            }
        }
        true
    }

    /// Returns `true` if each view that an access entry names has a family.
    pub(crate) fn are_views_known(&self) -> bool
        ensures { IsTrue result ↔ All (NamesViews self.now.families.items) self.now.accesses.items }
    {
        let families = self.families.as_slice();
        for entry in &self.accesses {
            if !names_views(families, entry) {
                return false;
            }
        }
        true
    }

    /// Returns `true` if no view has a subtree twice.
    pub(crate) fn are_families_distinct(&self) -> bool
        ensures { IsTrue result ↔ AreFamiliesDistinct self.now.families.items }
    {
        let families = self.families.as_slice();
        for (i, own) in families.iter().enumerate() {
            if has_family(&families[..i], own.view_name.as_slice(), &own.subtree) {
                return false;
            }
        }
        true
    }
}

fn has_community(communities: &[Community], community: &[u8]) -> bool
    ensures { IsTrue result ↔ Any (λ c. c.name ≡ community.now) communities.now }
{
    communities.iter().any(|c| is_named(&c.name, community))
}

fn has_family(families: &[ViewTreeFamily], view: &[u8], subtree: &Oid) -> bool
    ensures { IsTrue result ↔ Any (λ f. (f.view_name ≡ view.now) × (f.subtree ≡ subtree.now))
        families.now }
{
    families.iter().any(|f| f.is_of(view, subtree))
}

fn has_view(families: &[ViewTreeFamily], view: &[u8]) -> bool
    ensures { IsTrue result ↔ HasView families.now view.now }
{
    families.iter().any(|f| is_named(&f.view_name, view))
}

fn names_views(families: &[ViewTreeFamily], entry: &AccessEntry) -> bool
    ensures { IsTrue result ↔ NamesViews families.now entry.now }
{
    is_known(families, &entry.read_view) && is_known(families, &entry.write_view)
}

/// Returns `true` if a view, if there is one, has a family.
fn is_known(families: &[ViewTreeFamily], view: &Option<Octets>) -> bool
    ensures { IsTrue result ↔ IfSome view.now (HasView families.now) }
{
    match view {
        Some(view) => has_view(families, view.as_slice()),
        None => true,
    }
}
