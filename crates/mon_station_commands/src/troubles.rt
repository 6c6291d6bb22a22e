//! What a running station says of troubles that begin or end.

ghost use Rattle.std.specs.Prelude.{◌≡◌, ◌<◌, IfOk, OnOk, length, map, option_map, slice_get, string_bytes};
ghost use Rattle.std.specs.List.{list_any};
ghost use Rattle.mon_host.specs.Log.{GoesOnBy};
ghost use Rattle.mon_file_commands.specs.Line.{AreNoted};
ghost use Rattle.mon_station_commands.specs.Telling.{text_lines};
ghost use Rattle.mon_station_commands.specs.Troubles.{AreTroublesSaid, BeginsWith, IsText, count_alike, engine_at, engine_text, joins, key_in, key_of, key_text, late_at, late_text, level_of, many_text, offers_at, other_text, own_text, peer_at, silent_at, silent_text, stale_many, stale_one, target_at, target_of, target_text, text_at, words_of};

use crate::telling::plural;
use mon_board::Board;
use mon_console::SharedPrinting;
use mon_host::{Host, Level};
use mon_reasons::NewestDatagrams;
use mon_rounds::{Change, Freshness, InstanceAge, TargetAge, Trouble, explain_stale};
use mon_station::StationFault;
use std::alloc::{AllocError, Global};

/// What is known when troubles are said.
#[derive(Clone, Copy)]
pub(crate) struct Facts<'a> {
    pub(crate) freshness: &'a Freshness,
    /// The engine ids of targets, in their order.
    pub(crate) engines: &'a [Vec<u8>],
    pub(crate) latest: &'a NewestDatagrams,
    pub(crate) board: &'a Board,
    pub(crate) printing: &'a SharedPrinting,
}

/// A change, and by what others are said in one line with it.
#[derive(Drop)]
pub(crate) struct Key {
    pub(crate) change: Change,
    /// The target that is polled for the instance of a stale instance, from 0.
    pub(crate) target: Option<u16>,
    /// Why an instance becomes stale, as the line has it after `no new sample`; else empty.
    pub(crate) words: String,
}

/// Prints the troubles that begin or end, a line each; of the stale instances of a target for one
/// reason one line.
pub(crate) fn tell_troubles<H: Host>(
    alloc: Global,
    host: &mut H,
    facts: Facts<'_>,
    round: u32,
    changes: &[Change],
) -> Result<(), AllocError>
    ensures { GoesOnBy (λ log. AreTroublesSaid facts.entry round changes.now log result)
        (H.log host.old) (H.log host.new) }
{
    let keys = keys_of(alloc, facts, changes)?;
    for place in 0..keys.len() {
        let text = text_at(alloc, facts, keys.as_slice(), place)?;
        tell_text(host, level_at(keys.as_slice(), place), round, &text);
    }
    Ok(())
}

/// Returns how grave the change at a place is: a trouble that begins, or one that ends.
fn level_at(keys: &[Key], place: usize) -> Level
    requires { place < length keys.now }
    ensures { result ≡ level_of (slice_get (map key_in keys.now) place) }
{
    if keys[place].change.begins {
        Level::Warning
    } else {
        Level::Notice
    }
}

/// Prints a text about a round, if it isn't empty.
fn tell_text<H: Host>(host: &mut H, level: Level, round: u32, text: &str)
    ensures { GoesOnBy (AreNoted (text_lines level round text.now))
        (H.log host.old) (H.log host.new) }
{
    if !text.is_empty() {
        host.note(level, format_args!("snmpmon: round {round}: {text}\n"));
    }
}

/// Returns the key of each change.
fn keys_of(alloc: Global, facts: Facts<'_>, changes: &[Change]) -> Result<Vec<Key>, AllocError>
    ensures { IfOk result (λ v. map key_in v.items ≡ map (key_of facts.entry) changes.now) }
{
    let mut keys = Vec::with_capacity(alloc, changes.len())?;
    for change in changes {
        keys.push(key_of(alloc, facts, *change)?)?;
    }
    Ok(keys)
}

/// Returns the key of a change.
fn key_of(alloc: Global, facts: Facts<'_>, change: Change) -> Result<Key, AllocError>
    ensures { IfOk result (λ key. key_in key ≡ key_of facts.entry change) }
{
    Ok(Key {
        change,
        target: target_of(facts.freshness.instances(), change),
        words: words_of(alloc, facts, change)?,
    })
}

/// Returns the target that is polled for an instance that is or was stale.
fn target_of(instances: &[InstanceAge], change: Change) -> Option<u16>
    ensures { result ≡ target_of instances.now change }
{
    if change.trouble != Trouble::StaleInstance {
        return None;
    }
    instances.get(change.number)?.target
}

/// Returns why an instance becomes stale, as the line has it after `no new sample`; else nothing.
fn words_of(alloc: Global, facts: Facts<'_>, change: Change) -> Result<String, AllocError>
    ensures { IfOk result (λ words. string_bytes words ≡ words_of facts.entry change) }
{
    if change.trouble != Trouble::StaleInstance || !change.begins {
        return Ok(String::new(alloc));
    }
    let reason = explain_stale(
        alloc,
        facts.latest,
        facts.freshness,
        facts.board,
        change.number,
    )?;
    match reason {
        Some(reason) => format!(in alloc; ": {reason}"),
        None => String::from_str(alloc, ", though its target answers"),
    }
}

/// Returns the text of the change at a place; an empty one if nothing is said of it, or if it is
/// said with one before it.
fn text_at(
    alloc: Global,
    facts: Facts<'_>,
    keys: &[Key],
    place: usize,
) -> Result<String, AllocError>
    requires { place < length keys.now }
    ensures { IfOk result (λ text. IsText (text_at facts.entry (map key_in keys.now) place)
        (string_bytes text)) }
{
    let key = &keys[place];
    if is_said_in(&keys[..place], key) {
        return Ok(String::new(alloc));
    }
    key_text(alloc, facts, key, count_alike(keys, key))
}

/// Returns `true` if a change is said in one line with one of these.
fn is_said_in(keys: &[Key], key: &Key) -> bool
    ensures { result ≡ list_any (λ other. joins (key_in other) (key_in key.now)) keys.now }
{
    keys.iter().any(|other| joins(other, key))
}

/// Returns `true` if two changes are said in one line: instances of one target that become stale
/// for one reason, or that have new samples again.
fn joins(one: &Key, other: &Key) -> bool
    ensures { result ≡ joins (key_in one.now) (key_in other.now) }
{
    match (one.target, other.target) {
        (Some(target), Some(another)) => {
            target == another && one.words.as_str() == other.words.as_str()
        }
        _ => false,
    }
}

/// Returns how many changes are said in one line with this one; at most 2^32 - 1.
fn count_alike(keys: &[Key], key: &Key) -> u32
    ensures { result ≡ count_alike (map key_in keys.now) (key_in key.now) }
{
    let [first, others @ ..] = keys else {
        return 0;
    };
    let more = count_alike(others, key);
    if joins(first, key) {
        return more.saturating_add(1);
    }
    more
}

/// Returns what is said of a change, or of as many instances as become stale with it.
fn key_text(alloc: Global, facts: Facts<'_>, key: &Key, alike: u32) -> Result<String, AllocError>
    ensures { IfOk result (λ text. IsText (key_text facts.entry (key_in key.now) alike)
        (string_bytes text)) }
{
    let change = key.change;
    match change.trouble {
        Trouble::SilentTarget => silent_at(alloc, facts, change),
        Trouble::OtherEngine => engine_at(alloc, facts, change),
        Trouble::LateTarget => late_at(alloc, facts, change),
        Trouble::SilentPeer => peer_at(alloc, facts, change),
        Trouble::OffersOften => offers_at(alloc, facts, change),
        Trouble::StaleInstance if alike > 1 => stale_many(alloc, facts, key, alike),
        Trouble::StaleInstance => stale_one(alloc, facts, key),
    }
}

/// Returns which target it is, by its number from 1, and its address.
fn target_text(alloc: Global, target: &TargetAge) -> Result<String, AllocError>
    ensures { IfOk result (λ text. string_bytes text ≡ target_text target.now) }
{
    let (number, at) = (u32::from(target.number) + 1, target.address);
    format!(in alloc; "target {number} at {at}")
}

/// Says of the target of a change that it does not answer, or answers again.
fn silent_at(alloc: Global, facts: Facts<'_>, change: Change) -> Result<String, AllocError>
    ensures { IfOk result (λ text. IsText (silent_at facts.entry change) (string_bytes text)) }
{
    match facts.freshness.targets().get(change.number) {
        Some(target) => silent_text(alloc, target, change.begins),
        None => Ok(String::new(alloc)),
    }
}

/// Says that a target does not answer, or answers again.
pub(crate) fn silent_text(
    alloc: Global,
    target: &TargetAge,
    begins: bool,
) -> Result<String, AllocError>
    ensures { IfOk result (λ text. IsText (silent_text begins target.now) (string_bytes text)) }
{
    let mut text = target_text(alloc, target)?;
    if !begins {
        text.push_str(" answers")?;
        return Ok(text);
    }
    match target.refusal {
        None => text.push_str(" gave up")?,
        Some(fault) => put_refusal(alloc, &mut text, fault)?,
    }
    Ok(text)
}

/// Adds that a target's response was refused, and why.
fn put_refusal(alloc: Global, text: &mut String, fault: StationFault) -> Result<(), AllocError>
    ensures { OnOk result (BeginsWith (string_bytes text.old) (string_bytes text.new)) }
{
    let words: String = format!(in alloc; "{fault}")?;
    text.push_str(" has no valid response: ")?;
    text.push_str(&words)
}

/// Says of the target of a change which engine answers in its place, or that its own answers again.
fn engine_at(alloc: Global, facts: Facts<'_>, change: Change) -> Result<String, AllocError>
    ensures { IfOk result (λ text. IsText (engine_at facts.entry change) (string_bytes text)) }
{
    let targets = facts.freshness.targets();
    match (targets.get(change.number), facts.engines.get(change.number)) {
        (Some(target), Some(engine)) => {
            engine_text(
                alloc,
                facts.latest,
                target,
                engine.as_slice(),
                change.begins,
            )
        }
        _ => Ok(String::new(alloc)),
    }
}

/// Says which engine answers in place of a target's, or that its own answers again. It says nothing
/// if no other one is known.
fn engine_text(
    alloc: Global,
    latest: &NewestDatagrams,
    target: &TargetAge,
    engine: &[u8],
    begins: bool,
) -> Result<String, AllocError>
    ensures { IfOk result (λ text. IsText (engine_text latest.now.datagrams.items target.now
        engine.now begins) (string_bytes text)) }
{
    let text = target_text(alloc, target)?;
    let own = hex::encode(alloc, engine)?;
    if !begins {
        return own_text(alloc, &text, &own);
    }
    match latest.other_engine(alloc, target.address, engine)? {
        Some(other) => other_text(alloc, &text, other.as_slice(), &own),
        // The refused response was that of another target at this address.
        None => Ok(String::new(alloc)),
    }
}

/// Says that a target's own engine answers again.
fn own_text(alloc: Global, target: &str, own: &str) -> Result<String, AllocError>
    ensures { IfOk result (λ text. string_bytes text ≡ own_text target.now own.now) }
{
    format!(in alloc; "{target} is engine {own} again")
}

/// Says which engine answers in place of this one.
fn other_text(alloc: Global, target: &str, other: &[u8], own: &str) -> Result<String, AllocError>
    ensures { IfOk result (λ text. string_bytes text ≡ other_text target.now other.now own.now) }
{
    let other = hex::encode(alloc, other)?;
    format!(in alloc; "{target} is engine {other}, not {own}")
}

/// Says of the target of a change that it answers late, or in time again.
fn late_at(alloc: Global, facts: Facts<'_>, change: Change) -> Result<String, AllocError>
    ensures { IfOk result (λ text. IsText (late_at facts.entry change) (string_bytes text)) }
{
    match facts.freshness.targets().get(change.number) {
        Some(target) => late_text(alloc, target, change.begins),
        None => Ok(String::new(alloc)),
    }
}

/// Says that a target answers late, or in time again.
fn late_text(alloc: Global, target: &TargetAge, begins: bool) -> Result<String, AllocError>
    ensures { IfOk result (λ text. string_bytes text ≡ late_text begins target.now) }
{
    let text = target_text(alloc, target)?;
    let (datagrams, rounds) = (target.late.datagrams, target.late.rounds);
    if begins {
        let (d, r) = (plural(u64::from(datagrams)), plural(u64::from(rounds)));
        format!(in alloc;
            "{text} answers late ({datagrams} datagram{d} in {rounds} round{r}): raise wait_ms"
        )
    } else {
        format!(in alloc; "{text} answers in time again")
    }
}

/// Says of the peer of a change that nothing comes from it, or that something does again.
fn peer_at(alloc: Global, facts: Facts<'_>, change: Change) -> Result<String, AllocError>
    ensures { IfOk result (λ text. IsText (peer_at facts.entry change) (string_bytes text)) }
{
    let Some(peer) = facts.freshness.peers().get(change.number) else {
        return Ok(String::new(alloc));
    };
    let (station, rounds) = (peer.station, peer.rounds);
    if change.begins {
        let end = plural(u64::from(rounds));
        format!(in alloc; "nothing came from station {station} for {rounds} round{end}")
    } else {
        format!(in alloc; "station {station} sends again")
    }
}

/// Says of the peer of a change that it offers more often than once an interval, or no longer does.
fn offers_at(alloc: Global, facts: Facts<'_>, change: Change) -> Result<String, AllocError>
    ensures { IfOk result (λ text. IsText (offers_at facts.entry change) (string_bytes text)) }
{
    let Some(peer) = facts.freshness.peers().get(change.number) else {
        return Ok(String::new(alloc));
    };
    let station = peer.station;
    if change.begins {
        format!(in alloc; "station {station} offers more often than once an interval")
    } else {
        format!(in alloc; "station {station} offers once an interval again")
    }
}

/// Says that an instance has no new sample, and why, or that it has one again.
fn stale_one(alloc: Global, facts: Facts<'_>, key: &Key) -> Result<String, AllocError>
    ensures { IfOk result (λ text. IsText (stale_one facts.entry (key_in key.now))
        (string_bytes text)) }
{
    let watch = facts.board.watch();
    let Some(watched) = watch.instances().get(key.change.number) else {
        return Ok(String::new(alloc));
    };
    let mut text = facts.printing.instance_text(alloc, &watched.instance)?;
    if !key.change.begins {
        text.push_str(" has a new sample again")?;
        return Ok(text);
    }
    text.push_str(" has no new sample")?;
    text.push_str(&key.words)?;
    Ok(text)
}

/// Says how many instances of a target have no new sample, and why, or that they have new ones
/// again.
fn stale_many(alloc: Global, facts: Facts<'_>, key: &Key, alike: u32) -> Result<String, AllocError>
    ensures { IfOk result (λ text. IsText (stale_many facts.entry (key_in key.now) alike)
        (string_bytes text)) }
{
    match target_at(facts.freshness.targets(), key.target) {
        Some(target) => many_text(alloc, target, key, alike),
        None => Ok(String::new(alloc)),
    }
}

/// Returns the target of this number, if there is one.
fn target_at(targets: &[TargetAge], number: Option<u16>) -> Option<&TargetAge>
    ensures { option_map (λ t. t.now) result ≡ target_at targets.now number }
{
    targets.get(usize::from(number?))
}

/// Says how many instances of this target have no new sample, and why, or that they have new ones
/// again.
fn many_text(alloc: Global, target: &TargetAge, key: &Key, alike: u32) -> Result<String, AllocError>
    ensures { IfOk result (λ text. string_bytes text
        ≡ many_text target.now (key_in key.now) alike) }
{
    let mut text = target_text(alloc, target)?;
    let count: String = format!(in alloc; ": {alike} instances have ")?;
    text.push_str(&count)?;
    if !key.change.begins {
        text.push_str("new samples again")?;
        return Ok(text);
    }
    text.push_str("no new sample")?;
    text.push_str(&key.words)?;
    Ok(text)
}
