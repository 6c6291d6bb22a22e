//! The windows that are held, one for each instance.

ghost use Rattle.std.specs.Prelude.{◌≡◌, ◌≤◌, ◌<◌, ◌++◌, ◌∷◌, [], List, IfOk, IfErr, OnOk, IsTrue, ◌↔◌, length, map, ℕ};
ghost use Rattle.std.specs.Ordering.{eq_by_cmp};
ghost use Rattle.std.specs.Cmp.Lexicographic.{slice_cmp};
ghost use Rattle.std.specs.Ordering.{nat_cmp};
ghost use Rattle.std.specs.List.{list_any};
ghost use Rattle.std.specs.FinSet.{len, contains};
ghost use Rattle.std.specs.Prelude.{not, ◌||◌};
ghost use Rattle.std.specs.List.Sorted.{IsStrictlySortedBy};
ghost use Rattle.mon_app.specs.Offer.{Offer};
ghost use Rattle.mon_board.specs.Instance.{instance_cmp, named};
ghost use Rattle.mon_app.specs.Reading.{offers_of};
ghost use Rattle.mon_app.specs.Response.{stamp_in, offered_by};
ghost use Rattle.mon_app.specs.Windows.{instances, rows_of, first_window};
ghost use Rattle.mon_app.specs.Find.{StandsAt, instances_of};

use crate::response::Response;
use mon_ber::Octets;
use mon_board::Instance;
use mon_oid::Oid;
use mon_sample::Sample;
use mon_window::Window;
use std::alloc::{AllocError, Global};

/// The greatest number of instances that are held.
const LIMIT: usize = 256;

/// An instance and its window.
pub(crate) struct Row {
    pub(crate) instance: Instance,
    pub(crate) window: Window,
}

// By hand: where one is let go, a proof has one call and not a drop of each field.
impl Drop for Row {
    fn drop(self) {
        let Row {
            instance: _,
            window: _,
        } = self;
    }
}

/// Windows of one size, by instance.
#[derive(Drop)]
pub(crate) struct Table {
    size: usize,
    rows: Vec<Row>,
    ghost positive: { 1 ≤ size },
    ghost small: { size ≤ 64 },
}

impl Table {
    /// A table with no window yet, for windows of `size` samples.
    pub(crate) fn new(alloc: Global, size: usize) -> Self
        requires positive { 1 ≤ size }
        requires small { size ≤ 64 }
        ensures size { result.size ≡ size }
        ensures rows { result.rows.items ≡ [] }
    {
        Table {
            size,
            rows: Vec::new(alloc),
        }
    }

    /// The instances with their windows, each instance below the next.
    pub(crate) fn rows(&self) -> &[Row]
        ensures { result.now ≡ self.now.rows.items }
    {
        self.rows.as_slice()
    }

    /// Returns `true` if no more instances than allowed would be held with those of the response.
    pub(crate) fn has_room(
        &self,
        alloc: Global,
        response: &Response<'_>,
    ) -> Result<bool, AllocError>
        ensures { IfOk result (λ room. (taken : List Offer) → self.now.rows.items
            ≡ rows_of self.now.size taken
            → (IsTrue room ↔ (len (instances (taken ++ offers_of (stamp_in response.now)
            response.now.bindings.now)) ≤ 256))) }
    {
        if self.rows.len() + response.bindings.len() <= LIMIT {
            return Ok(true);
        }
        let mut fresh: Vec<&Oid> = Vec::new(alloc);
        for binding in response.bindings {
            let Some(_) = response.sample(binding) else {
                continue;
            };
            if is_new(
                self.rows(),
                response.stamp.engine,
                fresh.as_slice(),
                &binding.name,
            ) {
                fresh.push(&binding.name)?;
                if self.rows.len() + fresh.len() > LIMIT {
                    return Ok(false);
                }
            }
        }
        Ok(self.rows.len() + fresh.len() <= LIMIT)
    }

    /// Takes the samples of the response in.
    pub(crate) fn take(&mut self, alloc: Global, response: &Response<'_>) -> Result<(), AllocError>
        ensures size { self.new.size ≡ self.old.size }
        ensures rows { OnOk result ((taken : List Offer) → self.old.rows.items
            ≡ rows_of self.old.size taken
            → self.new.rows.items ≡ rows_of self.old.size (taken
            ++ offers_of (stamp_in response.now) response.now.bindings.now)) }
    {
        for binding in response.bindings {
            if let Some(sample) = response.sample(binding) {
                self.take_sample(alloc, response.stamp.engine, &binding.name, sample)?;
            }
        }
        Ok(())
    }

    /// Takes a sample of the object of this name at this engine in.
    fn take_sample(
        &mut self,
        alloc: Global,
        engine: &Octets,
        name: &Oid,
        sample: Sample,
    ) -> Result<(), AllocError>
        ensures size { self.new.size ≡ self.old.size }
        ensures rows { OnOk result ((taken : List Offer) → self.old.rows.items
            ≡ rows_of self.old.size taken
            → self.new.rows.items ≡ rows_of self.old.size (taken
            ++ record { instance = named engine.now name.now; sample = sample } ∷ [])) }
    {
        match find(self.rows.as_slice(), engine, name) {
            Ok(at) => {
                let row = &mut self.rows[at];
                row.window.insert(sample);
            }
            Err(at) => {
                let row = first_row(alloc, self.size, engine, name, sample)?;
                self.rows.insert(at, row)?;
            }
        }
        Ok(())
    }
}

/// A new row with one sample.
fn first_row(
    alloc: Global,
    size: usize,
    engine: &Octets,
    name: &Oid,
    sample: Sample,
) -> Result<Row, AllocError>
    requires positive { 1 ≤ size }
    requires small { size ≤ 64 }
    ensures instance { IfOk result (λ row. row.instance ≡ named engine.now name.now) }
    ensures window { IfOk result (λ row. row.window ≡ first_window size sample) }
{
    let mut window = Window::new(alloc, size, size)?;
    window.insert(sample);
    let instance = Instance {
        engine: engine.try_clone(alloc)?,
        name: name.try_clone(alloc)?,
    };
    Ok(Row { instance, window })
}

/// Returns where the object of this name at this engine is among rising ones, or belongs.
fn find(rows: &[Row], engine: &Octets, name: &Oid) -> Result<usize, usize>
    ensures within { IfOk result (λ at. at < length rows.now) }
    ensures below { IfErr result (λ at. at ≤ length rows.now) }
    ensures found { IsStrictlySortedBy instance_cmp (instances_of rows.now)
        → StandsAt (instances_of rows.now) (named engine.now name.now) result }
{
    rows.binary_search_by(|row| row.instance.compare(engine.as_slice(), name))
}

/// Returns `true` if neither a row nor one of the fresh names at the engine is of this name.
fn is_new(rows: &[Row], engine: &Octets, fresh: &[&Oid], name: &Oid) -> bool
    ensures { (n : ℕ) (taken : List Offer) → rows.now ≡ rows_of n taken
        → result ≡ not (contains (instances taken) (named engine.now name.now)
        || list_any (λ f. eq_by_cmp (slice_cmp nat_cmp) name.now f.now) fresh.now) }
{
    find(rows, engine, name).is_err() && !is_among(fresh, name)
}

fn is_among(names: &[&Oid], name: &Oid) -> bool
    ensures { result ≡ list_any (λ other. eq_by_cmp (slice_cmp nat_cmp) name.now other.now)
        names.now }
{
    names
        .iter()
        .any(|other| name.parts().cmp(&other.parts()).is_eq())
}
