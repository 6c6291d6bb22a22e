//! What a station's settings have besides its targets' objects.

ghost use Rattle.std.specs.Prelude.{◌≡◌};
ghost use Rattle.std.specs.List.{list_all};
ghost use Rattle.mon_survey.specs.Text.{are_plain, is_plain, is_plain_octet, is_plain_peer};

use crate::size::TargetSize;

/// Another station that shares with this one.
#[derive(Drop)]
pub struct Peer {
    /// Its number, from 1.
    pub station: u32,
    /// Where it listens, `a.b.c.d:port`.
    pub address: String,
}

/// What a station's settings have besides its targets' objects.
#[derive(Clone, Copy)]
pub struct Options<'a> {
    /// The station's number, from 1.
    pub station: u32,
    /// Where it listens, `a.b.c.d:port`.
    pub listen: &'a str,
    /// The path of its saved file.
    pub file: &'a str,
    /// How many samples a window holds, 1 to 64.
    pub window: u32,
    /// How long nothing has to come before a round goes on, in milliseconds.
    pub wait_ms: u32,
    /// The files of the modules by which names are given; none for names in numbers.
    pub modules: &'a [&'a str],
    /// The other stations.
    pub peers: &'a [Peer],
    /// Where the agent listens, `a.b.c.d:port`.
    pub address: &'a str,
    /// The community of polls.
    pub community: &'a str,
    /// How often a poll is sent in all, 1 to 8.
    pub tries: u8,
    /// How many objects a target has at most.
    pub size: TargetSize,
    /// Which part of an interface's speed raises an alarm, in percent to 100; 0 for no alarms.
    pub percent: u8,
}

/// Returns `true` if a text in quotes may have the octet: 20 to 7E, but no quote and no backslash.
fn is_plain_octet(octet: u8) -> bool
    ensures { result ≡ is_plain_octet octet }
{
    32 <= octet && octet <= 126 && octet != 34 && octet != 92
}

/// Returns `true` if a text may be put in quotes as it is.
fn is_plain(text: &str) -> bool
    ensures { result ≡ is_plain text.now }
{
    text.as_bytes().iter().all(|octet| is_plain_octet(*octet))
}

fn are_plain_peers(peers: &[Peer]) -> bool
    ensures { result ≡ list_all is_plain_peer peers.now }
{
    peers.iter().all(|peer| is_plain(peer.address.as_str()))
}

fn are_plain_paths(paths: &[&str]) -> bool
    ensures { result ≡ list_all (λ m. is_plain m.now) paths.now }
{
    paths.iter().all(|path| is_plain(path))
}

impl Options<'_> {
    /// Returns `true` if the texts may be put in quotes as they are.
    pub(crate) fn are_plain(&self) -> bool
        ensures { result ≡ are_plain self.now }
    {
        is_plain(self.listen)
            && is_plain(self.file)
            && is_plain(self.address)
            && is_plain(self.community)
            && are_plain_peers(self.peers)
            && are_plain_paths(self.modules)
    }
}
