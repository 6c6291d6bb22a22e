//! What the options of `settings` say.

ghost use Rattle.std.specs.Prelude.{◌≡◌, ◌≢◌, ◌+◌, ◌++◌, ◌∷◌, ◌<◌, ◌≤◌, ◌^◌, ◌⊎◌, ℕ, List, [], All, IfErr, IfNone, IfOk, IfSome, None, OnOk, Some, codes, false, map, option_copied, string_bytes, true};
ghost use Rattle.mon_console.specs.Failure.{IsMemory, IsOfText};
ghost use Rattle.mon_settings_commands.specs.Kinds.{AreKinds, IsFirstNoKind, kind_word, kind_words, with_kind, words_in};
ghost use Rattle.mon_settings_commands.specs.Named.{IsFirstNoPeer, IsNoPeer, NamesPeer, NamesSome, file_name, given_or};
ghost use Rattle.mon_settings_commands.specs.Percent.{GivesPercentage, IsNoPercentage, IsPercentage, MeansPercentage};
ghost use Rattle.mon_survey.specs.declared.counter.Kind.{Kind};
ghost use Rattle.mon_settings_commands.specs.Texts.{ArePeers, IsOfOptions, IsPeer, IsUncounted, IsUntakenPeer, moved_up};
ghost use Rattle.mon_udp.specs.Addr.{addr_of, addr_text};

use mon_console::Failure;
use mon_survey::{Kinds, Peer};
use mon_udp::Addr;
use std::alloc::{AllocError, Global};

/// Appends the address that a text writes, with its port counted up. What writes none is appended
/// as it is, and the settings are refused for it.
pub(crate) fn put_address(
    alloc: Global,
    place: &mut String,
    text: &str,
    up: u32,
) -> Result<(), Failure>
    ensures kept { addr_of text.now ≡ None → OnOk result (string_bytes place.new
        ≡ string_bytes place.old ++ text.now) }
    ensures moved { (a : Addr) → addr_of text.now ≡ Some a → OnOk result
        ((a.port + up < 65536) × (string_bytes place.new ≡ string_bytes place.old
        ++ addr_text (moved_up up a))) }
    ensures refused { IfErr result IsOfOptions }
    ensures cause { IfErr result (λ failure. IsMemory failure ⊎ IsUncounted up text.now failure) }
{
    match Addr::parse(text) {
        None => Ok(place.push_str(text)?),
        Some(address) => match moved_up(address, up) {
            Some(moved) => Ok(write!(place, "{moved}")?),
            None => Err(Failure::text(alloc, text, "an address whose port can be counted up")),
        },
    }
}

/// Returns an address with its port counted up, if there is such a port.
fn moved_up(address: Addr, up: u32) -> Option<Addr>
    ensures moved { IfSome result (λ moved. (address.port + up < 65536)
        × (moved ≡ moved_up up address)) }
    ensures none { IfNone result (65536 ≤ address.port + up) }
{
    let Addr { octets, port } = address;
    match u16::try_from(u32::from(port).saturating_add(up)) {
        Ok(port) => Some(Addr { octets, port }),
        Err(_) => None,
    }
}

/// Appends the name of a file, with its number from the second on.
#[tactic(auto, unfolding(crate::specs::Named::file_name))]
pub(crate) fn put_file(place: &mut String, file: &str, up: u32) -> Result<(), AllocError>
    ensures { up + 1 < 2 ^ 32 → OnOk result (string_bytes place.new
        ≡ string_bytes place.old ++ file_name file.now up) }
{
    if up == 0 {
        return place.push_str(file);
    }
    let number = up.saturating_add(1);
    write!(place, "{file}-{number}")
}

/// Returns what an option gives, or another text if it is left out.
pub(crate) fn given_or<'a>(given: Option<&'a str>, other: &'a str) -> &'a str
    ensures { result.now ≡ given_or other.now (option_copied given.entry) }
{
    match given {
        Some(text) => text,
        None => other,
    }
}

/// The kinds of counters that an option names; octets and errors if it is left out.
pub(crate) fn kinds_of(alloc: Global, only: Option<&str>) -> Result<Kinds, Failure>
    ensures kinds { IfOk result (AreKinds (kind_words (option_copied only.entry))) }
    ensures refused { IfErr result (IsFirstNoKind (kind_words (option_copied only.entry))) }
{
    kinds_in(alloc, given_or(only, "octets,errors"))
}

/// The kinds of counters that a text names, with commas between them.
fn kinds_in(alloc: Global, text: &str) -> Result<Kinds, Failure>
    ensures kinds { IfOk result (AreKinds (words_in text.now)) }
    ensures refused { IfErr result (IsFirstNoKind (words_in text.now)) }
{
    let mut kinds = Kinds {
        octets: false,
        packets: false,
        errors: false,
        discards: false,
    };
    for word in text.split(',') {
        if !add_kind(&mut kinds, word) {
            return Err(Failure::text(alloc, word, "octets, packets, errors or discards"));
        }
    }
    Ok(kinds)
}

/// Adds the kind of counters that a word names. Returns `false` if it names none.
fn add_kind(kinds: &mut Kinds, word: &str) -> bool
    ensures named { result ≡ true → (kind : Kind) × (word.now ≡ kind_word kind)
        × (kinds.new ≡ with_kind kind kinds.old) }
    ensures unknown { result ≡ false → (kind : Kind) → word.now ≢ kind_word kind }
{
    match word {
        "octets" => kinds.octets = true,
        "packets" => kinds.packets = true,
        "errors" => kinds.errors = true,
        "discards" => kinds.discards = true,
        _ => return false,
    }
    true
}

/// Returns the percentage that an option gives, with a percent sign or without; 0 if it is left
/// out.
pub(crate) fn percent_of(alloc: Global, text: Option<&str>) -> Result<u8, Failure>
    ensures given { IfOk result (GivesPercentage (option_copied text.entry)) }
    ensures refused { IfErr result (IsNoPercentage (option_copied text.entry)) }
{
    let Some(text) = text else {
        return Ok(0);
    };
    match percentage(text) {
        Some(percent) => Ok(percent),
        None => Err(Failure::text(alloc, text, "a percentage, 1 to 100,")),
    }
}

/// Returns the percentage that a text means, with a percent sign at its end or without.
fn percentage(text: &str) -> Option<u8>
    ensures found { IfSome result (MeansPercentage text.now) }
    ensures none { IfNone result ((n : ℕ) → ¬ (MeansPercentage text.now n)) }
{
    match text.strip_suffix('%') {
        Some(front) => number_to_100(front),
        None => number_to_100(text),
    }
}

/// Returns the number from 1 to 100 that a text spells.
fn number_to_100(text: &str) -> Option<u8>
    ensures found { IfSome result (IsPercentage text.now) }
    ensures none { IfNone result ((n : ℕ) → ¬ (IsPercentage text.now n)) }
{
    let Ok(number) = text.parse::<u8>() else {
        return None;
    };
    if number < 1 {
        return None;
    }
    if number > 100 {
        return None;
    }
    Some(number)
}

/// Requires that each text names a peer.
pub(crate) fn require_peers(alloc: Global, words: &[&str]) -> Result<(), Failure>
    ensures named { IfOk result (λ _. All NamesSome (map (λ text. text.now) words.now)) }
    ensures refused { IfErr result (IsFirstNoPeer (map (λ text. text.now) words.now)) }
{
    for word in words {
        peer_at(alloc, word)?;
    }
    Ok(())
}

/// Appends the peers that texts name, with their ports counted up.
pub(crate) fn put_peers(
    alloc: Global,
    peers: &mut Vec<Peer>,
    words: &[&str],
    up: u32,
) -> Result<(), Failure>
    ensures put { OnOk result ((more : List Peer) × (peers.new.items ≡ peers.old.items ++ more)
        × ArePeers up (map (λ text. text.now) words.now) more) }
    ensures refused { IfErr result IsOfOptions }
{
    for word in words {
        put_peer(alloc, peers, word, up)?;
    }
    Ok(())
}

/// Appends the peer that a text names, with its port counted up.
fn put_peer(alloc: Global, peers: &mut Vec<Peer>, word: &str, up: u32) -> Result<(), Failure>
    ensures put { OnOk result ((peer : Peer) × (peers.new.items ≡ peers.old.items ++ peer ∷ [])
        × IsPeer up word.now peer) }
    ensures refused { IfErr result IsOfOptions }
    ensures cause { IfErr result (λ failure. IsMemory failure ⊎ IsUntakenPeer up word.now failure) }
{
    let (station, text) = peer_at(alloc, word)?;
    let mut address = String::new(alloc);
    put_address(alloc, &mut address, text, up)?;
    Ok(peers.push(Peer { station, address })?)
}

/// Returns the number and the address of the peer that a text names, as `2=10.0.0.2:16101`.
fn peer_at<'a>(alloc: Global, word: &'a str) -> Result<(u32, &'a str), Failure>
    ensures named { IfOk result (λ peer. NamesPeer word.now peer.0 peer.1.now) }
    ensures refused { IfErr result (IsNoPeer word.now) }
{
    let Some((number, address)) = word.split_once('=') else {
        return Err(peer_failure(alloc, word));
    };
    match number.parse::<u32>() {
        Ok(station) => Ok((station, address)),
        Err(_) => Err(peer_failure(alloc, word)),
    }
}

fn peer_failure(alloc: Global, word: &str) -> Failure
    ensures { IsOfText word.now (codes "a station's number and address, N=a.b.c.d:port,") result }
{
    Failure::text(
        alloc,
        word,
        "a station's number and address, N=a.b.c.d:port,",
    )
}
