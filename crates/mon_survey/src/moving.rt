//! Where the interfaces are now that settings poll, and what settings say of them there.

ghost use Rattle.std.specs.Prelude.{◌≡◌, ◌++◌, Some, IfOk, OnOk, option_copied, option_map, option_and_then};
ghost use Rattle.std.specs.List.{find, flat_map};
ghost use Rattle.std.specs.Option.{option_to_list};
ghost use Rattle.mon_survey.specs.Answers.{octets_of};
ghost use Rattle.mon_survey.specs.Column.{cell_name, spot_of};
ghost use Rattle.mon_survey.specs.Moved.{at_of, has_name, index_named, index_now, instance_now, is_named, mark_now, name_before, name_now, object_now, objects_now, same_index, spot_now, target_now, targets_now, watch_now, watched_now, with_objects};

use crate::answers::{Answers, Cell};
use crate::column::{Column, Spot};
use mon_ber::{Octets, Value};
use mon_board::{Instance, Watched};
use mon_oid::Oid;
use mon_poller::{Object, Objects, Target};
use std::alloc::{AllocError, AllocFailed, Global};

/// The name that an interface had.
pub struct Known {
    /// Its ifIndex then.
    pub index: u32,
    /// Its ifName then.
    pub name: Octets,
}

// By hand: where one is let go, a proof has one call and not a drop of each field.
impl Drop for Known {
    fn drop(self) {
        let Known { index: _, name: _ } = self;
    }
}

/// The name that the interface of an index had, if one is known.
pub(crate) fn name_before(known: &[Known], index: u32) -> Option<&[u8]>
    ensures { option_copied result ≡ name_before known.now index }
{
    match known.iter().find(|one| one.index == index) {
        Some(one) => Some(one.name.as_slice()),
        None => None,
    }
}

/// Returns `true` if the cell is this ifName.
fn is_named(name: &[u8], cell: &Cell) -> bool
    ensures { result ≡ is_named name.now cell.now }
{
    cell.column == Column::IfX(1) && octets_in(&cell.value) == name
}

/// The octets of a value; none where it has none.
fn octets_in(value: &Value) -> &[u8]
    ensures { result.now ≡ octets_of (Some value.now) }
{
    match value {
        Value::Octets(octets) => octets.as_slice(),
        _ => &[],
    }
}

/// The first of the cells that is this ifName.
fn find_named<'a>(cells: &'a [Cell], name: &[u8]) -> Option<&'a Cell>
    ensures { option_copied result ≡ find (is_named name.now) cells.now }
{
    cells.iter().find(|cell| is_named(name, cell))
}

/// Adds a value, if there is one.
pub(crate) fn add<T: Drop>(all: &mut Vec<T>, one: Option<T>) -> Result<(), AllocFailed<T>>
    ensures { OnOk result (all.new.items ≡ all.old.items ++ option_to_list one) }
{
    match one {
        Some(one) => all.push(one),
        None => Ok(()),
    }
}

/// An agent by its engine id, the names that its interfaces had, and what it answers now.
#[derive(Clone, Copy)]
pub(crate) struct Places<'a> {
    pub(crate) engine: &'a [u8],
    pub(crate) known: &'a [Known],
    pub(crate) answers: &'a Answers,
}

impl Places<'_> {
    /// Returns the index that an interface of the agent has now; `None` if it is gone. If its name
    /// is known, that is this index if it has the name, else the first that has it.
    pub(crate) fn index_now(&self, index: u32) -> Option<u32>
        ensures { result ≡ index_now (at_of self.now) index }
    {
        match name_before(self.known, index) {
            Some(name) if self.answers.octets(Column::IfX(1), index) == name => Some(index),
            Some(name) => match find_named(self.answers.cells(), name) {
                Some(cell) => Some(cell.index),
                None => None,
            },
            None if self.answers.value(Column::If(2), index).is_some() => Some(index),
            None => None,
        }
    }

    /// What a name of this engine is now; `None` if it is that of an interface which is gone.
    fn name_now(&self, alloc: Global, engine: &[u8], name: &Oid) -> Result<Option<Oid>, AllocError>
        ensures { IfOk result (λ q. q ≡ name_now (at_of self.now) engine.now name.now) }
    {
        if engine != self.engine {
            return copy_name(alloc, name);
        }
        let Spot::Cell(column, index) = Spot::of(name) else {
            return copy_name(alloc, name);
        };
        let Some(now) = self.index_now(index) else {
            return Ok(None);
        };
        match column.cell(alloc, now) {
            Ok(name) => Ok(Some(name)),
            Err(_) => Err(AllocError),
        }
    }

    /// What a mark is now, which an object may have.
    fn mark_now(
        &self,
        alloc: Global,
        engine: &[u8],
        mark: &Option<Oid>,
    ) -> Result<Option<Oid>, AllocError>
        ensures { IfOk result (λ m. m ≡ mark_now (at_of self.now) engine.now mark.now) }
    {
        match mark {
            Some(name) => self.name_now(alloc, engine, name),
            None => Ok(None),
        }
    }

    /// What an object of this engine is now; `None` if its interface is gone.
    fn object_now(
        &self,
        alloc: Global,
        engine: &[u8],
        object: &Object,
    ) -> Result<Option<Object>, AllocError>
        ensures { IfOk result (λ o. o ≡ object_now (at_of self.now) engine.now object.now) }
    {
        let discontinuity = self.mark_now(alloc, engine, &object.discontinuity)?;
        match self.name_now(alloc, engine, &object.name)? {
            Some(name) => Ok(Some(Object {
                instance: object.instance,
                name,
                discontinuity,
            })),
            None => Ok(None),
        }
    }

    /// The objects of a target that are left.
    fn objects_now(&self, alloc: Global, target: &Target) -> Result<Vec<Object>, AllocError>
        ensures { IfOk result (λ v. v.items ≡ objects_now (at_of self.now) target.now.engine
            target.now.objects) }
    {
        let mut all = Vec::new(alloc);
        for object in target.objects.as_slice() {
            add(
                &mut all,
                self.object_now(alloc, target.engine.as_slice(), object)?,
            )?;
        }
        Ok(all)
    }

    /// A target with the objects that are left of it; `None` if none are.
    fn target_now(&self, alloc: Global, target: &Target) -> Result<Option<Target>, AllocError>
        ensures { IfOk result (λ t. t ≡ target_now (at_of self.now) target.now) }
    {
        let objects = self.objects_now(alloc, target)?;
        if objects.is_empty() {
            return Ok(None);
        }
        Ok(Some(Target {
            address: target.address,
            community: target.community.try_clone(alloc)?,
            engine: target.engine.try_clone(alloc)?,
            tries: target.tries,
            objects: Objects::new(objects),
        }))
    }

    /// The targets that are left.
    pub(crate) fn targets_now(
        &self,
        alloc: Global,
        targets: &[Target],
    ) -> Result<Vec<Target>, AllocError>
        ensures { IfOk result (λ v. v.items ≡ targets_now (at_of self.now) targets.now) }
    {
        let mut all = Vec::new(alloc);
        for target in targets {
            add(&mut all, self.target_now(alloc, target)?)?;
        }
        Ok(all)
    }

    /// What an instance is now; `None` if its interface is gone.
    pub(crate) fn instance_now(
        &self,
        alloc: Global,
        instance: &Instance,
    ) -> Result<Option<Instance>, AllocError>
        ensures { IfOk result (λ i. i ≡ instance_now (at_of self.now) instance.now) }
    {
        let engine = instance.engine.as_slice();
        match self.name_now(alloc, engine, &instance.name)? {
            Some(name) => Ok(Some(Instance {
                engine: instance.engine.try_clone(alloc)?,
                name,
            })),
            None => Ok(None),
        }
    }

    /// What is watched of an instance now, by a window of the same size.
    fn watched_now(&self, alloc: Global, watched: &Watched) -> Result<Option<Watched>, AllocError>
        ensures { IfOk result (λ w. w ≡ watched_now (at_of self.now) watched.now) }
    {
        let engine = watched.instance.engine.as_slice();
        let discontinuity = self.mark_now(alloc, engine, &watched.discontinuity)?;
        match self.instance_now(alloc, &watched.instance)? {
            Some(instance) => Ok(Some(Watched {
                instance,
                discontinuity,
                window: watched.window,
                epoch: watched.epoch,
            })),
            None => Ok(None),
        }
    }

    /// What is watched of all instances that are left.
    pub(crate) fn watch_now(
        &self,
        alloc: Global,
        instances: &[Watched],
    ) -> Result<Vec<Watched>, AllocError>
        ensures { IfOk result (λ v. v.items ≡ watch_now (at_of self.now) instances.now) }
    {
        let mut all = Vec::new(alloc);
        for watched in instances {
            add(&mut all, self.watched_now(alloc, watched)?)?;
        }
        Ok(all)
    }
}

/// A copy of a name.
fn copy_name(alloc: Global, name: &Oid) -> Result<Option<Oid>, AllocError>
    ensures { IfOk result (λ q. q ≡ Some name.now) }
{
    Ok(Some(name.try_clone(alloc)?))
}
