//! A station's trial of itself: it polls an agent in memory three times, saves and finds again what
//! it took.

ghost use Rattle.std.specs.Prelude.{◌≡◌, ◌≢◌, ◌++◌, ◌∷◌, [], IfErr, IfOk, OnOk, length};
ghost use Rattle.mon_board.specs.Board.{window_of};
ghost use Rattle.mon_disk.specs.Disk.{Leaves};
ghost use Rattle.mon_disk.specs.Kept.{device_of};
ghost use Rattle.mon_disk.specs.Memory.{memory_leaves};
ghost use Rattle.mon_report.specs.Report.{report};
ghost use Rattle.mon_rehearsal.specs.Trial.{IsJudged, IsTakenReply, innermost_of, name_of, number_of, settings_refusal, station_refusal, trial_report, trial_text};
ghost use Rattle.mon_rehearsal.specs.declared.trial.TrialFault.TheVariants as trial;
ghost use Rattle.mon_station.specs.Saved.{FindsState};
ghost use Rattle.mon_station.specs.State.{state_of};

use mon_agent::{Agent, AgentFault, Reply};
use mon_board::{Board, Watch};
use mon_disk::{Disk, MemoryDisk};
use mon_mib::{Device, Moment, SimDevice};
use mon_report::write_report;
use mon_settings::{SettingsFault, StationSettings, read_agent, read_station};
use mon_smi::Names;
use mon_station::{Event, Innermost, Outgoing, Station, StationFault, saved_board};
use mon_udp::Addr;
use std::alloc::{AllocError, Global};
use thiserror::Error;

/// The settings of the agent, whose first interface counts 1000 octets a second.
const AGENT: &str = "listen = \"127.0.0.1:16100\"
limit = 484
engine = \"8000000001\"
descr = \"lab\"
object_id = \"1.3.6.1.4.1.32473.1\"
contact = \"\"
name = \"r1\"
location = \"\"
services = 4
community = [{ community = \"public\", security = \"ro\" }, { community = \"private\", security = \"rw\" }]
group = [{ security = \"ro\", group = \"g1\" }, { security = \"rw\", group = \"g2\" }]
access = [
    { group = \"g1\", model = 2, read = \"all\" },
    { group = \"g2\", model = 0, read = \"all\", write = \"mib\" },
]
view = [
    { view = \"all\", subtree = \"1.3.6.1\", included = true },
    { view = \"all\", subtree = \"1.3.6.1.2.1.2.2.1.6\", included = false },
    { view = \"mib\", subtree = \"1.3.6.1.2.1\", included = true },
]

[[interface]]
index = 1
descr = \"e1\"
type = 6
mtu = 1500
speed = 1000000000
phys = \"\"
name = \"e1\"
alias = \"\"
in_octets = { start = 0, rate = 1000 }
in_packets = { start = 0, rate = 0 }
out_octets = { start = 0, rate = 0 }
out_packets = { start = 0, rate = 0 }

[[interface]]
index = 2
descr = \"e2\"
type = 6
mtu = 1500
speed = 1000000000
phys = \"\"
name = \"e2\"
alias = \"\"
in_octets = { start = 0, rate = 0 }
in_packets = { start = 0, rate = 0 }
out_octets = { start = 0, rate = 0 }
out_packets = { start = 0, rate = 0 }
";

/// The settings of the station, which polls that counter.
const STATION: &str = "station = 1
listen = \"127.0.0.1:16101\"
file = \"a.mon\"
window = 8
wait_ms = 200

[[target]]
address = \"127.0.0.1:16100\"
community = \"public\"
engine = \"8000000001\"
tries = 2
objects = [{ name = \"1.3.6.1.2.1.31.1.1.1.6.1\" }]
";

/// When the agent is polled, in hundredths of a second of its life.
const MOMENTS: [u64; 3] = [10_000, 11_000, 12_000];

/// What the station has to report: 20000 octets in 20 seconds.
const REPORT: &str =
    "8000000001 1.3.6.1.2.1.31.1.1.1.6.1 n=3 1:100..1:120 Counter64=120000 delta=20000 span=20 rate=1000.000
end 1 instances 3 samples
";

/// The line after it.
const DONE: &str = "selftest: ok\n";

/// Why a trial has no good end.
#[derive(Clone, Copy, Debug, Error)]
pub enum TrialFault {
    /// Memory was refused.
    #[error("out of memory")]
    OutOfMemory,
    /// Something else was answered than expected.
    #[error("something else was answered than what had to be")]
    Unexpected,
    /// The station refused a step, or was not opened.
    #[error("the station refused: {0}")]
    Refused(StationFault),
}

impl From<AllocError> for TrialFault {
    ghost from_gives = { λ _ fault. fault ≡ trial.OutOfMemory };

    fn from(_e: AllocError) -> TrialFault {
        TrialFault::OutOfMemory
    }
}

/// No settings may be refused here.
impl From<SettingsFault> for TrialFault {
    ghost from_gives = { λ part fault. fault ≡ settings_refusal part };

    fn from(fault: SettingsFault) -> TrialFault {
        match fault {
            SettingsFault::OutOfMemory => TrialFault::OutOfMemory,
            _ => TrialFault::Unexpected,
        }
    }
}

/// A station's lack of memory is the trial's own.
impl From<StationFault> for TrialFault {
    ghost from_gives = { λ part fault. fault ≡ station_refusal part };

    fn from(fault: StationFault) -> TrialFault {
        match fault {
            StationFault::OutOfMemory => TrialFault::OutOfMemory,
            other => TrialFault::Refused(other),
        }
    }
}

impl TrialFault {
    /// The number of the fault, 1 to 3.
    pub fn number(self) -> u8
        ensures { result ≡ number_of self }
    {
        match self {
            TrialFault::OutOfMemory => 1,
            TrialFault::Unexpected => 2,
            TrialFault::Refused(_) => 3,
        }
    }

    /// The name of the fault, as a printed line gives it.
    pub fn name(self) -> &'static str
        ensures { result.now ≡ name_of self }
    {
        match self {
            TrialFault::OutOfMemory => "OutOfMemory",
            TrialFault::Unexpected => "Unexpected",
            TrialFault::Refused(_) => "Refused",
        }
    }

    /// The innermost fault: the station's, where the station refused.
    pub fn innermost(self) -> Innermost
        ensures part { result.part.now ≡ (innermost_of self).part }
        ensures number { result.number ≡ (innermost_of self).number }
        ensures name { result.name.now ≡ (innermost_of self).name }
    {
        match self {
            TrialFault::Refused(fault) => fault.innermost(),
            TrialFault::OutOfMemory | TrialFault::Unexpected => {
                Innermost::new("mon_rounds", self.number(), self.name())
            }
        }
    }
}

/// Where the agent's datagrams come from.
fn agent_address() -> Addr {
    Addr {
        octets: [127, 0, 0, 1],
        port: 16100,
    }
}

/// A trial with a good end.
pub struct Trial {
    /// The station's report and `selftest: ok`.
    pub text: Vec<u8>,
    /// The station that was tried, with what it took.
    pub station: Station<MemoryDisk>,
}

// By hand: where one is let go, a proof has one call and not a drop of each field.
impl Drop for Trial {
    fn drop(self) {
        let Trial {
            text: _,
            station: _,
        } = self;
    }
}

/// Tries a station on a disk in memory. It polls an agent in memory, which counts 1000 octets a
/// second, 100, 110 and 120 seconds after the agent's start, and saves. The trial has a good end
/// where its report, and that of what its disk then holds, are what they must be.
///
/// # Errors
/// `OutOfMemory`; `Refused` if the station refused, also if its disk in memory found no memory;
/// `Unexpected` if anything else was answered.
pub fn run_trial(alloc: Global) -> Result<Trial, TrialFault>
    // The text is one text, and it is the report of the station that was tried.
    ensures text { IfOk result (λ trial. trial.text.items ≡ trial_text) }
    ensures report { IfOk result (λ trial. report (state_of trial.station.life).board.watch
        (window_of (state_of trial.station.life).board) ≡ trial_report) }
    // The station has saved what it reports.
    ensures saved { IfOk result (λ trial. Leaves (memory_leaves (device_of trial.station.keeper))
        (FindsState (state_of trial.station.life))) }
{
    let settings = station_settings(alloc, STATION)?;
    let station = try_station(alloc, &settings)?;
    let text = find_again(alloc, settings.core.watch(), &station)?;
    let text = judge(text, REPORT.as_bytes(), DONE.as_bytes())?;
    Ok(Trial { text, station })
}

/// Returns a text, with a last line after it, if it is as expected.
fn judge(text: Vec<u8>, wanted: &[u8], last: &[u8]) -> Result<Vec<u8>, TrialFault>
    ensures all { IfOk result (λ all. all.items ≡ wanted.now ++ last.now) }
    ensures wanted { OnOk result (text.items ≡ wanted.now) }
    ensures fault { IfErr result (IsJudged text.items wanted.now) }
{
    if text.as_slice() != wanted {
        return Err(TrialFault::Unexpected);
    }
    let mut text = text;
    text.extend_from_slice(last)?;
    Ok(text)
}

/// A station of these settings that polled the agent and saved.
fn try_station(alloc: Global, settings: &StationSettings) -> Result<Station<MemoryDisk>, TrialFault>
    ensures saved { IfOk result (λ station. Leaves (memory_leaves (device_of station.keeper))
        (FindsState (state_of station.life))) }
{
    let core = settings.core.try_clone(alloc)?;
    let disk = MemoryDisk::new(alloc, &[])?;
    let mut station = match Station::open(alloc, core, disk) {
        Ok(station) => station,
        Err((fault, _)) => return Err(TrialFault::from(fault)),
    };
    poll_agent(alloc, &mut station, AGENT)?;
    save(alloc, &mut station)?;
    Ok(station)
}

/// Saves.
fn save(alloc: Global, station: &mut Station<MemoryDisk>) -> Result<(), TrialFault>
    ensures { OnOk result (Leaves (memory_leaves (device_of station.new.keeper))
        (FindsState (state_of station.new.life))) }
{
    station.step(alloc, Event::Save)?;
    Ok(())
}

/// Polls an agent of these settings at each of these times.
fn poll_agent<D: Disk + Drop>(
    alloc: Global,
    station: &mut Station<D>,
    text: &str,
) -> Result<(), TrialFault> {
    let told = read_agent(alloc, text)?;
    let Ok(device) = SimDevice::new(told.interfaces, told.texts) else {
        return Err(TrialFault::Unexpected);
    };
    let mut agent = Agent::new(told.policy, told.settings, device);
    poll_at(alloc, station, &mut agent, &MOMENTS)
}

/// Polls the agent at each of these times of its life.
fn poll_at<D: Disk + Drop, E: Device + Drop>(
    alloc: Global,
    station: &mut Station<D>,
    agent: &mut Agent<E>,
    moments: &[u64],
) -> Result<(), TrialFault> {
    for at in moments {
        let Some(moment) = Moment::new(*at) else {
            return Err(TrialFault::Unexpected);
        };
        poll_once(alloc, station, agent, moment)?;
    }
    Ok(())
}

/// The station's report, where that of what an opening of a copy of its disk finds is the same.
fn find_again(
    alloc: Global,
    watch: &Watch,
    station: &Station<MemoryDisk>,
) -> Result<Vec<u8>, TrialFault>
    ensures { IfOk result (λ text. text.items ≡ report (state_of station.now.life).board.watch
        (window_of (state_of station.now.life).board)) }
{
    let text = write_board(alloc, station.board())?;
    let copy = station.disk().try_clone()?;
    match saved_board(alloc, watch, copy) {
        Ok((board, _)) => same(write_board(alloc, &board)?, text),
        Err((fault, _)) => Err(TrialFault::from(fault)),
    }
}

/// The report of a board, as a text.
fn write_board(alloc: Global, board: &Board) -> Result<Vec<u8>, StationFault>
    ensures text { IfOk result (λ text. text.items ≡ report board.now.watch (window_of board.now)) }
    ensures fault { IfErr result (λ f. f ≡ StationFault.OutOfMemory) }
{
    let mut text = Vec::new(alloc);
    match write_report(board, &mut text) {
        Ok(()) => Ok(text),
        Err(_) => Err(StationFault::OutOfMemory),
    }
}

/// The second text, where the first is the same.
fn same(saved: Vec<u8>, text: Vec<u8>) -> Result<Vec<u8>, TrialFault>
    ensures text { IfOk result (λ one. one.items ≡ text.items) }
    ensures same { OnOk result (saved.items ≡ text.items) }
    ensures fault { IfErr result (λ fault. (fault ≡ trial.Unexpected)
        × (saved.items ≢ text.items)) }
{
    if saved.as_slice() == text.as_slice() {
        Ok(text)
    } else {
        Err(TrialFault::Unexpected)
    }
}

fn station_settings(alloc: Global, text: &str) -> Result<StationSettings, TrialFault> {
    let names = Names::new(alloc)?;
    Ok(read_station(alloc, text, &names)?)
}

/// Polls the agent at a time of its life, and passes its response to the station.
fn poll_once<D: Disk + Drop, E: Device + Drop>(
    alloc: Global,
    station: &mut Station<D>,
    agent: &mut Agent<E>,
    at: Moment,
) -> Result<(), TrialFault> {
    let told = station.step(alloc, Event::StartPoll(0))?;
    let request = only_send(told.sends.as_slice())?;
    let octets = sent_octets(agent.answer(alloc, request.octets.as_slice(), at))?;
    let response = Event::FromAgent(agent_address(), octets.as_slice());
    station.step(alloc, response)?;
    Ok(())
}

/// Returns the one datagram that a station sends.
fn only_send(sends: &[Outgoing]) -> Result<&Outgoing, TrialFault>
    ensures one { IfOk result (λ request. sends.now ≡ request.now ∷ []) }
    ensures fault { IfErr result (λ fault. (fault ≡ trial.Unexpected) × (length sends.now ≢ 1)) }
{
    match sends {
        [request] => Ok(request),
        _ => Err(TrialFault::Unexpected),
    }
}

/// Returns the octets that an agent sends, which is not to be silent here.
fn sent_octets(answer: Result<Reply, AgentFault>) -> Result<Vec<u8>, TrialFault>
    ensures { IsTakenReply answer result }
{
    match answer {
        Ok(Reply::Send(octets)) => Ok(octets),
        Ok(Reply::Silent(_)) => Err(TrialFault::Unexpected),
        Err(AgentFault::OutOfMemory) => Err(TrialFault::OutOfMemory),
    }
}
