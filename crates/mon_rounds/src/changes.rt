//! What is wrong with targets, peers and instances, and what changed in that, each change said
//! once.

ghost use Rattle.std.specs.Prelude.{◌≡◌, ◌++◌, IfOk, None, OnErr, OnOk, [], false, get_or, length, map, option_map};
ghost use Rattle.mon_rounds.specs.Changes.{change_at, changes_between, changes_from, engine_change, engine_changes, is_lost, is_silent, is_stale, no_troubles, offers_often, other_at, others_of, told_by, troubles_after};
ghost use Rattle.mon_rounds.specs.Freshness.{is_late};

use crate::freshness::{Freshness, InstanceAge, PeerAge, TargetAge};
use mon_ber::Octets;
use mon_poller::ResponseFault;
use mon_reasons::NewestDatagrams;
use mon_station::StationFault;
use std::alloc::{AllocError, Global};

/// After how many times between two rounds, one after another, it is said that a peer offers more
/// often than once in each.
const IN_A_ROW: u32 = 3;

/// What may be wrong.
#[derive(Clone, Copy, Debug, PartialEq, Eq)]
pub enum Trouble {
    /// A target did not answer in the last round.
    SilentTarget,
    /// A target's last response was of another engine, which is known; it begins again with each
    /// other one.
    OtherEngine,
    /// Late datagrams came from a target's address in each of the last three rounds, or in the time
    /// after it.
    LateTarget,
    /// Nothing came from a peer for some rounds.
    SilentPeer,
    /// A peer offered more often than once in each of the last three times between two rounds.
    OffersOften,
    /// An instance had no new sample for some rounds, though the target that is polled for it
    /// answers.
    StaleInstance,
}

/// A trouble that begins or ends.
#[derive(Clone, Copy, Debug, PartialEq, Eq)]
pub struct Change {
    pub trouble: Trouble,
    /// The number of the target, of the peer's slot or of the instance, from 0.
    pub number: usize,
    /// `true` if it begins, `false` if it ends.
    pub begins: bool,
}

/// What is wrong with each target, peer and instance, as far as it was said.
pub struct Troubles {
    silent_targets: Vec<bool>,
    /// Of each target the engine that answers in its place, if one does.
    other_engines: Vec<Option<Octets>>,
    late_targets: Vec<bool>,
    silent_peers: Vec<bool>,
    often_peers: Vec<bool>,
    stale_instances: Vec<bool>,
}

// By hand: where one is let go, a proof has one call and not a drop of each field.
impl Drop for Troubles {
    fn drop(self) {
        let Troubles {
            silent_targets: _,
            other_engines: _,
            late_targets: _,
            silent_peers: _,
            often_peers: _,
            stale_instances: _,
        } = self;
    }
}

impl Troubles {
    /// Nothing was said yet.
    pub fn new(alloc: Global) -> Self
        ensures { told_by result ≡ no_troubles }
    {
        Troubles {
            silent_targets: Vec::new(alloc),
            other_engines: Vec::new(alloc),
            late_targets: Vec::new(alloc),
            silent_peers: Vec::new(alloc),
            often_peers: Vec::new(alloc),
            stale_instances: Vec::new(alloc),
        }
    }

    /// Returns what changed since the last call. A peer is silent, and an instance stale, after
    /// this many rounds without a datagram or a new sample. The engines that answer in place of
    /// others are given, as `other_engines` returns them.
    ///
    /// # Errors
    /// `AllocError`: then the next call returns these changes too.
    pub fn take_changes(
        &mut self,
        alloc: Global,
        freshness: &Freshness,
        others: Vec<Option<Octets>>,
        limit: u32,
    ) -> Result<Vec<Change>, AllocError>
        ensures changes { IfOk result (λ v. v.items ≡ changes_between (told_by self.old)
            (troubles_after limit (told_by self.old) others.items freshness.now)) }
        ensures troubles { OnOk result (told_by self.new ≡ troubles_after limit (told_by self.old)
            others.items freshness.now) }
        ensures kept { OnErr result (told_by self.new ≡ told_by self.old) }
    {
        let (targets, peers) = (freshness.targets(), freshness.peers());
        let said = self.stale_instances.as_slice();
        let now = Troubles {
            silent_targets: silent_targets(alloc, targets)?,
            other_engines: others,
            late_targets: late_targets(alloc, targets)?,
            silent_peers: silent_peers(alloc, peers, limit)?,
            often_peers: often_peers(alloc, peers)?,
            stale_instances: stale_instances(alloc, freshness, said, limit)?,
        };
        let changes = self.changes_to(alloc, &now)?;
        *self = now;
        Ok(changes)
    }

    /// Returns what changed from this to what is wrong now.
    fn changes_to(&self, alloc: Global, now: &Troubles) -> Result<Vec<Change>, AllocError>
        ensures { IfOk result (λ v. v.items
            ≡ changes_between (told_by self.now) (told_by now.now)) }
    {
        let mut changes = Vec::new(alloc);
        let (was, is) = (
            self.silent_targets.as_slice(),
            now.silent_targets.as_slice(),
        );
        put_changes(&mut changes, Trouble::SilentTarget, was, is)?;
        let (was, is) = (self.other_engines.as_slice(), now.other_engines.as_slice());
        put_engine_changes(&mut changes, was, is)?;
        let (was, is) = (self.late_targets.as_slice(), now.late_targets.as_slice());
        put_changes(&mut changes, Trouble::LateTarget, was, is)?;
        let (was, is) = (self.silent_peers.as_slice(), now.silent_peers.as_slice());
        put_changes(&mut changes, Trouble::SilentPeer, was, is)?;
        let (was, is) = (self.often_peers.as_slice(), now.often_peers.as_slice());
        put_changes(&mut changes, Trouble::OffersOften, was, is)?;
        let (was, is) = (
            self.stale_instances.as_slice(),
            now.stale_instances.as_slice(),
        );
        put_changes(&mut changes, Trouble::StaleInstance, was, is)?;
        Ok(changes)
    }
}

/// Adds the changes of a trouble from what was said to what is.
fn put_changes(
    changes: &mut Vec<Change>,
    trouble: Trouble,
    said: &[bool],
    is: &[bool],
) -> Result<(), AllocError>
    ensures { OnOk result (changes.new.items ≡ changes.old.items
        ++ changes_from trouble 0 said.now is.now) }
{
    for number in 0..is.len() {
        put_change(changes, trouble, number, is_said(said, number), is[number])?;
    }
    Ok(())
}

/// Adds the change of the trouble of this number, if there is one.
fn put_change(
    changes: &mut Vec<Change>,
    trouble: Trouble,
    number: usize,
    was: bool,
    is: bool,
) -> Result<(), AllocError>
    ensures { OnOk result (changes.new.items
        ≡ changes.old.items ++ change_at trouble number was is) }
{
    if was != is {
        changes.push(Change {
            trouble,
            number,
            begins: is,
        })?;
    }
    Ok(())
}

/// Adds the changes of the engines that answer in place of others, from what was said to what is.
fn put_engine_changes(
    changes: &mut Vec<Change>,
    said: &[Option<Octets>],
    is: &[Option<Octets>],
) -> Result<(), AllocError>
    ensures { OnOk result (changes.new.items ≡ changes.old.items
        ++ engine_changes 0 said.now is.now) }
{
    for number in 0..is.len() {
        put_engine_change(
            changes,
            number,
            engine_at(said, number),
            engine_at(is, number),
        )?;
    }
    Ok(())
}

/// Returns the engine that answers in place of that of the target of this number, if one does.
fn engine_at(engines: &[Option<Octets>], number: usize) -> Option<&Octets>
    ensures { option_map (λ e. e.now) result ≡ get_or engines.now number None }
{
    match engines.get(number) {
        Some(Some(engine)) => Some(engine),
        _ => None,
    }
}

/// Adds that another engine answers in place of a target's than before, or none any more.
fn put_engine_change(
    changes: &mut Vec<Change>,
    number: usize,
    was: Option<&Octets>,
    is: Option<&Octets>,
) -> Result<(), AllocError>
    ensures { OnOk result (changes.new.items ≡ changes.old.items
        ++ engine_change number (option_map (λ e. e.now) was.entry) (option_map (λ e. e.now) is.entry)) }
{
    let begins = match (was, is) {
        (None, None) => return Ok(()),
        (Some(was), Some(is)) if was.as_slice() == is.as_slice() => return Ok(()),
        (_, is) => is.is_some(),
    };
    changes.push(Change {
        trouble: Trouble::OtherEngine,
        number,
        begins,
    })?;
    Ok(())
}

/// Returns `true` if it was said of the one of this number.
fn is_said(said: &[bool], number: usize) -> bool
    ensures { result ≡ get_or said.now number false }
{
    match said.get(number) {
        Some(was) => *was,
        None => false,
    }
}

/// Of each target, whether it is silent.
fn silent_targets(alloc: Global, targets: &[TargetAge]) -> Result<Vec<bool>, AllocError>
    ensures { IfOk result (λ v. v.items ≡ map is_silent targets.now) }
{
    let mut silent = Vec::with_capacity(alloc, targets.len())?;
    for target in targets {
        silent.push(target.rounds > 0)?;
    }
    Ok(silent)
}

/// Returns of each target the engine that answers in place of its own, if one does: that of its
/// newest message, if its last response was refused since it was of another engine. `engines` are
/// the targets' own, in their order.
///
/// # Errors
/// `AllocError` if memory is refused.
pub fn other_engines(
    alloc: Global,
    latest: &NewestDatagrams,
    targets: &[TargetAge],
    engines: &[Vec<u8>],
) -> Result<Vec<Option<Octets>>, AllocError>
    ensures { IfOk result (λ v. v.items ≡ others_of latest.now.datagrams.items targets.now
        engines.now (length targets.now)) }
{
    let mut others = Vec::with_capacity(alloc, targets.len())?;
    for place in 0..targets.len() {
        others.push(other_at(alloc, latest, targets.get(place), engines.get(place))?)?;
    }
    Ok(others)
}

/// Returns the engine that answers in place of a target's, if its last response was of another.
fn other_at(
    alloc: Global,
    latest: &NewestDatagrams,
    target: Option<&TargetAge>,
    engine: Option<&Vec<u8>>,
) -> Result<Option<Octets>, AllocError>
    ensures { IfOk result (λ other. other ≡ other_at latest.now.datagrams.items
        (option_map (λ t. t.now) target.entry) (option_map (λ e. e.now) engine.entry)) }
{
    let (Some(target), Some(engine)) = (target, engine) else {
        return Ok(None);
    };
    match target.refusal {
        Some(StationFault::Response(ResponseFault::OtherEngine)) => {
            latest.other_engine(alloc, target.address, engine.as_slice())
        }
        _ => Ok(None),
    }
}

/// Of each target, whether it is late.
fn late_targets(alloc: Global, targets: &[TargetAge]) -> Result<Vec<bool>, AllocError>
    ensures { IfOk result (λ v. v.items ≡ map is_late targets.now) }
{
    let mut late = Vec::with_capacity(alloc, targets.len())?;
    for target in targets {
        late.push(target.is_late())?;
    }
    Ok(late)
}

/// Of each peer, whether it is silent.
fn silent_peers(alloc: Global, peers: &[PeerAge], limit: u32) -> Result<Vec<bool>, AllocError>
    ensures { IfOk result (λ v. v.items ≡ map (is_lost limit) peers.now) }
{
    let mut silent = Vec::with_capacity(alloc, peers.len())?;
    for peer in peers {
        silent.push(peer.rounds >= limit)?;
    }
    Ok(silent)
}

/// Of each peer, whether it offers more often than once an interval.
fn often_peers(alloc: Global, peers: &[PeerAge]) -> Result<Vec<bool>, AllocError>
    ensures { IfOk result (λ v. v.items ≡ map offers_often peers.now) }
{
    let mut often = Vec::with_capacity(alloc, peers.len())?;
    for peer in peers {
        often.push(peer.often >= IN_A_ROW)?;
    }
    Ok(often)
}

/// Of each instance, whether it is stale, where this was said of them before.
fn stale_instances(
    alloc: Global,
    freshness: &Freshness,
    said: &[bool],
    limit: u32,
) -> Result<Vec<bool>, AllocError>
    ensures { IfOk result (λ v. v.items ≡ map (is_stale limit said.now freshness.now.targets.items)
        freshness.now.instances.items) }
{
    let (targets, instances) = (freshness.targets(), freshness.instances());
    let mut stale = Vec::with_capacity(alloc, instances.len())?;
    for instance in instances {
        stale.push(is_stale(instance, targets, said, limit))?;
    }
    Ok(stale)
}

/// Returns `true` if an instance is stale, where this was said of instances before: else it is from
/// when its target answers.
fn is_stale(instance: &InstanceAge, targets: &[TargetAge], said: &[bool], limit: u32) -> bool
    ensures { result ≡ is_stale limit said.now targets.now instance.now }
{
    if instance.rounds < limit {
        return false;
    }
    if is_said(said, usize::from(instance.number)) {
        return true;
    }
    let Some(number) = instance.target else {
        return false;
    };
    match targets.get(usize::from(number)) {
        Some(target) => target.rounds == 0,
        None => false,
    }
}
