//! The settings of a station of a network, by the machine that it is placed on.

ghost use Rattle.std.specs.Prelude.{◌≡◌, ◌++◌, ◌+◌, ◌<◌, IfOk, OnOk, map, string_bytes};
ghost use Rattle.mon_placing.specs.Network.{IsSeat};
ghost use Rattle.mon_settings_commands.specs.Seats.{AreSeatTexts, IsSeatSettings, other_at, others_of, peer_at};
ghost use Rattle.mon_settings_commands.specs.Source.{source_in};
ghost use Rattle.mon_udp.specs.Addr.{addr_text};

use crate::failing::survey_failure;
use crate::settings::{FILE, Input, Texts, lend, options_of};
use crate::words::given_or;
use mon_cli::SettingsArgs;
use mon_console::Failure;
use mon_placing::{Seat, put_file};
use mon_survey::{Drafted, Options, Peer, TargetSize, settings};
use mon_udp::Addr;
use std::alloc::{AllocError, Global};

/// The settings of a station of a network that polls the counters of its group, by targets of this
/// size.
pub(crate) fn seat_settings(
    alloc: Global,
    input: &Input<'_, '_>,
    seat: Seat<'_>,
    size: TargetSize,
) -> Result<Drafted, Failure>
    requires { IsSeat seat }
    ensures { IsSeatSettings (source_in input.now) seat.entry size result }
{
    let texts = seat_texts(alloc, input.words, seat)?;
    let words = input.words;
    let lent = lend(words.address, words.community, words.modules, &texts, size);
    let options = Options {
        station: seat.station + 1,
        ..options_of(words, input.asked.percent, lent)
    };
    let choice = input.choice(Some(seat.part));
    match settings(alloc, input.names, &input.agent(), &options, &choice) {
        Ok(drafted) => Ok(drafted),
        Err(fault) => Err(survey_failure(alloc, input.asked.agent.word, fault)),
    }
}

/// Returns where a station of a network listens, its file, and its peers.
fn seat_texts(
    alloc: Global,
    words: &SettingsArgs<'_, '_>,
    seat: Seat<'_>,
) -> Result<Texts, AllocError>
    requires { IsSeat seat }
    ensures { IfOk result (AreSeatTexts words.now seat.entry) }
{
    let mut texts = Texts::new(alloc);
    put_address(&mut texts.listen, seat.listens())?;
    put_file(&mut texts.file, given_or(words.file, FILE), seat)?;
    put_others(alloc, &mut texts.peers, seat)?;
    Ok(texts)
}

/// Appends an address.
fn put_address(text: &mut String, address: Addr) -> Result<(), AllocError>
    ensures { OnOk result (string_bytes text.new ≡ string_bytes text.old ++ addr_text address) }
{
    write!(text, "{address}")
}

/// Appends the other stations of a station's group as its peers.
fn put_others(alloc: Global, peers: &mut Vec<Peer>, seat: Seat<'_>) -> Result<(), AllocError>
    requires { IsSeat seat }
    ensures { OnOk result (map peer_at peers.new.items ≡ map peer_at peers.old.items
        ++ others_of seat.entry seat.entry.network.stations) }
{
    for station in 0..seat.network.stations {
        put_other(alloc, peers, seat, station)?;
    }
    Ok(())
}

/// Appends a station of a station's group as its peer, unless it is the station itself.
fn put_other(
    alloc: Global,
    peers: &mut Vec<Peer>,
    seat: Seat<'_>,
    station: u32,
) -> Result<(), AllocError>
    requires placed { IsSeat seat }
    requires inside { station < seat.network.stations }
    ensures { OnOk result (map peer_at peers.new.items ≡ map peer_at peers.old.items
        ++ other_at seat.entry station) }
{
    if station == seat.station {
        return Ok(());
    }
    let other = Seat { station, ..seat };
    let mut address = String::new(alloc);
    put_address(&mut address, other.listens())?;
    Ok(peers.push(Peer {
        station: station + 1,
        address,
    })?)
}
