ghost use Rattle.std.specs.Prelude.{◌≡◌, ◌↔◌, ◌<◌, length, IsTrue};
ghost use Rattle.mon_vacm.specs.View.{MustAgree, IsMatch, Applies, subtree_cmp};

use crate::names::is_named;
use mon_ber::Octets;
use mon_oid::Oid;
use std::cmp::Ordering;

/// Names that a view includes or excludes: those at or below a subtree, where a mask may let
/// sub-identifiers differ (vacmViewTreeFamilyTable, RFC 3415 section 4).
pub struct ViewTreeFamily {
    pub view_name: Octets,
    pub subtree: Oid,
    /// Bit i, counted from the highest of the first octet, is 0 where sub-identifier i may differ;
    /// after the end all are 1.
    pub mask: Octets,
    /// `true` if the names are in the view, where this family decides.
    pub included: bool,
}

// By hand: where one is let go, a proof has one call and not a drop of each field.
impl Drop for ViewTreeFamily {
    fn drop(self) {
        let ViewTreeFamily {
            view_name: _,
            subtree: _,
            mask: _,
            included: _,
        } = self;
    }
}

impl ViewTreeFamily {
    /// Returns `true` if the family is of the view and the name matches it.
    pub(crate) fn applies(&self, view: &[u8], name: &Oid) -> bool
        ensures { IsTrue result ↔ Applies view.now name.now self.now }
    {
        self.matches(name) && is_named(&self.view_name, view)
    }

    /// Returns `true` if the name is as long as the subtree and agrees with it wherever it must.
    pub(crate) fn matches(&self, name: &Oid) -> bool
        ensures { IsTrue result ↔ IsMatch self.now name.now }
    {
        let subtree = self.subtree.parts();
        let mask = self.mask.as_slice();
        let parts = name.parts();
        if parts.len() < subtree.len() {
            return false;
        }
        for (i, part) in subtree.iter().enumerate() {
            if parts[i] != *part && must_agree(mask, i) {
                return false;
            }
        }
        true
    }

    /// Returns `true` if the family is of the view and has the subtree.
    pub(crate) fn is_of(&self, view: &[u8], subtree: &Oid) -> bool
        ensures { IsTrue result ↔ ((self.now.view_name ≡ view.now)
            × (self.now.subtree ≡ subtree.now)) }
    {
        is_named(&self.view_name, view) && self.subtree == *subtree
    }

    /// Which of two families decides where both apply: the greater.
    #[tactic(auto, unfolding(crate::specs::View::subtree_cmp))]
    pub(crate) fn compare(&self, other: &ViewTreeFamily) -> Ordering
        ensures { result ≡ subtree_cmp self.now.subtree other.now.subtree }
    {
        let own = self.subtree.parts().len();
        let others = other.subtree.parts().len();
        own.cmp(&others).then(self.subtree.compare(&other.subtree))
    }
}

/// Returns `true` if the mask has a one at a place. After its end it goes on with ones.
fn must_agree(mask: &[u8], i: usize) -> bool
    ensures { IsTrue result ↔ MustAgree mask.now i }
{
    match mask.get(i / 8) {
        Some(octet) => octet & (1 << (7 - i % 8)) != 0,
        None => true,
    }
}
