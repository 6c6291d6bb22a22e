//! A search for variables by their names, in one view at one time.

ghost use Rattle.std.specs.Prelude.{◌≡◌, ◌↔◌, ◌++◌, ◌∷◌, [], ◌⊎◌, Contains, IfOk, IfSome, IsTrue};
ghost use Rattle.std.specs.Option.{option_map};
ghost use Rattle.mon_vacm.specs.Borrowed.{view_of};
ghost use Rattle.mon_mib.specs.declared.got.Got.TheVariants.{NoObject};
ghost use Rattle.mon_mib.specs.Gaps.{IsLeastInView};
ghost use Rattle.mon_mib.specs.Held.{IsLeastOf};
ghost use Rattle.mon_mib.specs.Known.{instances, variable};
ghost use Rattle.mon_mib.specs.Next.{IsGot, IsNext};
ghost use Rattle.mon_mib.specs.Objects.{objects, prefix_of};
ghost use Rattle.mon_mib.specs.Order.{IsFrom};
ghost use Rattle.mon_mib.specs.Shown.{IsNextShown, got_of};
ghost use Rattle.mon_mib.specs.Search.{Sought, IsSeenIn, known_in};

use crate::device::Device;
use crate::gaps::Gap;
use crate::got::Got;
use crate::mib::{Mib, find_place};
use crate::moment::Moment;
use crate::object::{Object, all_objects};
use crate::settings::Settings;
use crate::shown::Shown;
use crate::start::{Start, find_start};
use mon_oid::Oid;
use mon_pdu::Binding;
use mon_vacm::{Access, Policy};
use std::alloc::{AllocError, Global};
use std::marker::Model;

/// A search in a map at a time, within a granted view. It keeps the gaps that it has found, so
/// that of all variables that the view hides each is tried once.
#[derive(Drop)]
pub struct Search<'a, D: Device + Drop> {
    mib: &'a Mib<D>,
    policy: &'a Policy,
    access: Access<'a>,
    moment: Moment,
    gaps: Vec<Gap>,
}

impl<'a, D: Device + Drop> Model for Search<'a, D> {
    ghost use Rattle.mon_vacm.specs.Borrowed.{view_of};
    ghost use Rattle.mon_vacm.specs.View.{IsInView};
    ghost use Rattle.mon_mib.specs.Gaps.{AreGaps};
    ghost use Rattle.mon_mib.specs.Search.{Sought};

    ghost Value = { Sought D };

    ghost view = { λ s. record {
      map = s.mib.now;
      families = s.policy.now.families;
      view = view_of
          s.access;
      moment = s.moment;
    } };

    ghost invariant = { λ s. AreGaps (D.held s.mib.now.device)
        (IsInView s.policy.now.families (view_of s.access)) s.gaps.items };
}

impl<'a, D: Device + Drop> Search<'a, D> {
    /// A search that has found no gaps yet.
    pub fn new(
        alloc: Global,
        mib: &'a Mib<D>,
        policy: &'a Policy,
        access: Access<'a>,
        moment: Moment,
    ) -> Self
        ensures { let sought : Sought D = record {
          map = mib.now;
          families = policy.now.families;
          view = view_of access.entry;
          moment = moment;
        } in
            result ≡ sought }
    {
        Search {
            mib,
            policy,
            access,
            moment,
            gaps: Vec::new(alloc),
        }
    }

    /// Returns what is served as it was given at the start.
    pub fn settings(&self) -> &Settings
        ensures { result.now ≡ self.now.map.settings }
    {
        self.mib.settings()
    }

    /// Returns what is at a name, as `Mib::get` does; under a name that the view hides there is no
    /// object.
    pub fn get(&self, alloc: Global, name: &Oid) -> Result<Got, AllocError>
        ensures { let sees = IsSeenIn self.now in
            IfOk result (λ got. (¬ (sees name.now) × (got ≡ NoObject))
            ⊎ (sees name.now × IsGot (known_in D.held self.now) name.now got)) }
    {
        if !self.policy.sees(self.access, name) {
            return Ok(Got::NoObject);
        }
        self.mib.get(alloc, name, self.moment)
    }

    /// Returns what `get` does, with octets lent where the agent keeps them.
    pub fn show(&self, alloc: Global, name: &Oid) -> Result<Shown<'_>, AllocError>
        ensures { let sees = IsSeenIn self.now in
            IfOk result (λ shown. (¬ (sees name.now) × (got_of shown ≡ NoObject))
            ⊎ (sees name.now × IsGot (known_in D.held self.now) name.now (got_of shown))) }
    {
        if !self.policy.sees(self.access, name) {
            return Ok(Shown::Other(Got::NoObject));
        }
        self.mib.show(alloc, name, self.moment)
    }

    /// Returns the least variable in view that exceeds a name, as `Mib::next` does.
    pub fn next(&mut self, alloc: Global, name: &Oid) -> Result<Option<Binding>, AllocError>
        ensures next { IfOk result (IsNext objects (known_in D.held self.old) (IsSeenIn self.old)
            name.now) }
        ensures stays { self.new ≡ self.old }
    {
        let mut own = name.try_clone(alloc)?;
        let Some(shown) = self.step(alloc, &mut own)? else {
            return Ok(None);
        };
        match shown.into_got(alloc)? {
            Got::Found(value) => Ok(Some(Binding { name: own, value })),
            _ => unreachable!(),
        }
    }

    /// Puts the name of the least variable in view that exceeds a name in its place, and returns
    /// its value, with octets lent where the agent keeps them. If there is none, the name stays.
    pub fn step(&mut self, alloc: Global, name: &mut Oid) -> Result<Option<Shown<'a>>, AllocError>
        ensures next { IfOk result (IsNextShown (known_in D.held self.old) (IsSeenIn self.old)
            name.old name.new) }
        ensures stays { self.new ≡ self.old }
    {
        let Some((object, instance)) = self.find(alloc, name)? else {
            return Ok(None);
        };
        *name = object.name(alloc, instance)?;
        let mib = self.mib;
        Ok(Some(mib.show_variable(alloc, object, instance, self.moment)?))
    }

    /// The object and instance of the least variable in view that exceeds a name.
    fn find(&mut self, alloc: Global, name: &Oid) -> Result<Option<(Object, u32)>, AllocError>
        ensures next { IfOk result (λ found. IsNext objects (known_in D.held self.old)
            (IsSeenIn self.old) name.now
            (option_map (λ p. variable (known_in D.held self.old) p.0 p.1) found)) }
        ensures there { IfOk result (λ found. IfSome found (λ p. Contains
            (instances (D.held self.old.map.device) p.0) p.1)) }
        ensures stays { self.new ≡ self.old }
    {
        let place = find_place(name.parts());
        for object in &all_objects()[place..] {
            let found = self.find_of(alloc, *object, name)?;
            if let Some(instance) = found {
                return Ok(Some((*object, instance)));
            }
        }
        Ok(None)
    }

    /// The instance of the least variable of an object in view that exceeds a name.
    fn find_of(
        &mut self,
        alloc: Global,
        object: Object,
        name: &Oid,
    ) -> Result<Option<u32>, AllocError>
        ensures next { IfOk result (λ found. IsNext (object ∷ []) (known_in D.held self.old)
            (IsSeenIn self.old) name.now
            (option_map (variable (known_in D.held self.old) object) found)) }
        ensures there { IfOk result (λ found. IfSome found (λ i. Contains
            (instances (D.held self.old.map.device) object) i)) }
        ensures stays { self.new ≡ self.old }
    {
        let start = find_start(object.prefix(), name.parts());
        self.least_in_view(alloc, object, start)
    }

    /// The least instance of an object in view from a start on. Where the view hides some before
    /// it, that is one more gap.
    fn least_in_view(
        &mut self,
        alloc: Global,
        object: Object,
        start: Start,
    ) -> Result<Option<u32>, AllocError>
        ensures least { IfOk result (IsLeastInView (D.held self.old.map.device) (IsSeenIn self.old)
            object start) }
        ensures stays { self.new ≡ self.old }
    {
        if let Some(gap) = self.find_gap(object, start) {
            return Ok(gap.least);
        }
        let (least, hides) = self.search(alloc, object, start)?;
        if hides {
            self.gaps.push(Gap {
                object,
                start,
                least,
            })?;
        }
        Ok(least)
    }

    /// The least instance of an object in view from a start on, by trying one after the other up to
    /// a gap, and whether the view hides one before it.
    fn search(
        &self,
        alloc: Global,
        object: Object,
        start: Start,
    ) -> Result<(Option<u32>, bool), AllocError>
        ensures { IfOk result (λ found. IsLeastInView (D.held self.now.map.device)
            (IsSeenIn self.now) object start found.0) }
    {
        let mut hides = false;
        let mut rest = start;
        while let Some(instance) = self.next_instance(object, rest) {
            if self.sees(alloc, object, instance)? {
                return Ok((Some(instance), hides));
            }
            hides = true;
            rest = Start::Above(instance);
            if let Some(gap) = self.find_gap(object, rest) {
                return Ok((gap.least, hides));
            }
        }
        Ok((None, hides))
    }

    /// The least instance of an object from a start on.
    fn next_instance(&self, object: Object, start: Start) -> Option<u32>
        ensures { IsLeastOf (instances (D.held self.now.map.device) object) (IsFrom start) result }
    {
        self.mib.next_instance(object, start)
    }

    /// Returns `true` if an object's variable of an instance is in view.
    fn sees(&self, alloc: Global, object: Object, instance: u32) -> Result<bool, AllocError>
        ensures { IfOk result (λ seen. IsTrue seen ↔ IsSeenIn self.now
            (prefix_of object ++ instance ∷ [])) }
    {
        let own = object.name(alloc, instance)?;
        Ok(self.policy.sees(self.access, &own))
    }

    /// A gap in which an object's instances from a start on begin, if one is known.
    fn find_gap(&self, object: Object, start: Start) -> Option<Gap>
        ensures { IfSome result (λ gap. IsLeastInView (D.held self.now.map.device)
            (IsSeenIn self.now) object start gap.least) }
    {
        for gap in &self.gaps {
            if gap.covers(object, start) {
                return Some(*gap);
            }
        }
        None
    }
}
