//! What the arguments ask for.

ghost use Rattle.std.specs.Prelude.{◌↔◌, IsTrue};
ghost use Rattle.mon_cli.specs.Invocation.{LacksColumns, LacksInterval, LacksMachines, LacksNumber, LacksRounds, LacksSource, LacksSplit, SortsNoTable};

use mon_formats::{Format, Sort};

/// Modules whose names are known, and whether names are printed by them.
#[derive(Clone, Copy)]
pub struct Named<'m, 'a> {
    /// The files of the modules, in the order of the command line.
    pub modules: &'m [&'a str],
    pub shown: bool,
}

/// How a report is printed.
#[derive(Clone, Copy)]
pub struct Printed<'m, 'a> {
    pub format: Format,
    /// `true` if the arguments name the format.
    pub chosen: bool,
    /// The order of the rows of a table, if the arguments say so.
    pub sort: Option<Sort>,
    /// `true` if each series of an instance has the station's number as its label `station` in
    /// Prometheus' text; `false` for a command without such a flag.
    pub station_label: bool,
    pub named: Named<'m, 'a>,
}

impl Printed<'_, '_> {
    /// Returns `true` if the arguments sort rows and the report is no table.
    fn sorts_no_table(&self) -> bool
        ensures { IsTrue result ↔ SortsNoTable self.now }
    {
        self.sort.is_some() && self.format != Format::Columns
    }
}

/// Which agent is asked about which variables.
#[derive(Clone, Copy)]
pub struct Request<'m, 'a> {
    pub address: &'a str,
    pub community: &'a str,
    /// The names of the variables, in the order of the command line.
    pub names: &'m [&'a str],
    pub named: Named<'m, 'a>,
}

/// How an agent without a socket gets its datagrams.
#[derive(Clone, Copy)]
pub struct Scene {
    /// The time of its clock, in hundredths of a second after its start.
    pub at: u64,
    /// Bit k is 1 where the device fails its change number k, from 0.
    pub fuses: u64,
    /// How many times each datagram comes.
    pub times: u32,
}

/// When a station's rounds are run, and where its reports go.
#[derive(Clone, Copy)]
pub struct Timing {
    /// How many rounds are run; 0 if the arguments do not say.
    pub rounds: u32,
    /// How many seconds lie between the beginnings of two rounds, at least; 0 for none.
    pub interval: u32,
    /// How many seconds after whole intervals of the wall clock a round begins, if the arguments
    /// say so.
    pub phase: Option<u32>,
    /// After how many rounds each the report is printed; 0 for never.
    pub report_every: u32,
    /// After how many rounds each all is saved, besides the last one; 1 if the arguments do not
    /// say.
    pub save_every: u32,
}

/// What `replay` is to print of recorded responses.
#[derive(Clone, Copy)]
pub struct ReplayArgs<'m, 'a> {
    /// How many samples a window keeps.
    pub size: u32,
    /// `true` if the report is printed, and not the windows.
    pub reports: bool,
    pub printed: Printed<'m, 'a>,
}

/// What `bulk` asks for.
#[derive(Clone, Copy)]
pub struct BulkArgs<'m, 'a> {
    pub request: Request<'m, 'a>,
    pub non_repeaters: i32,
    pub max_repetitions: i32,
}

/// What `walk` goes through.
#[derive(Clone, Copy)]
pub struct WalkArgs<'m, 'a> {
    pub request: Request<'m, 'a>,
    /// For how many variables a GetBulk asks; 0 if GetNext asks for one.
    pub bulk: u32,
}

/// What `set` assigns to which variable.
#[derive(Clone, Copy)]
pub struct SetArgs<'m, 'a> {
    pub request: Request<'m, 'a>,
    pub kind: &'a str,
    pub value: &'a str,
}

/// The station whose settings `settings` prints, and what of an agent it polls.
#[derive(Clone, Copy)]
pub struct SettingsArgs<'m, 'a> {
    pub address: &'a str,
    pub community: &'a str,
    /// The station's number.
    pub station: u32,
    /// Where it listens, if the arguments say so.
    pub listen: Option<&'a str>,
    /// Its file, if the arguments say so.
    pub file: Option<&'a str>,
    /// How many samples a window keeps.
    pub window: u32,
    /// After how long without a datagram a round goes on, in milliseconds.
    pub wait_ms: u32,
    /// How often a poll is sent in all.
    pub tries: u32,
    /// The peers, each as N=ADDRESS.
    pub peers: &'m [&'a str],
    /// The kinds of counters, if the arguments say so.
    pub only: Option<&'a str>,
    /// `true` if only interfaces that are up are taken.
    pub up: bool,
    /// What names or aliases contain; empty for any.
    pub part: &'a str,
    /// At which percentage of its speed an interface raises an alarm, if the arguments say so.
    pub thresholds: Option<&'a str>,
    /// The folder of several files of settings, if the arguments say so.
    pub split: Option<&'a str>,
    /// The file of the machines that the stations of a network are placed on, if the arguments say
    /// so.
    pub machines: Option<&'a str>,
    /// How many stations of a network poll each group of counters, 1 to 3.
    pub stations: u32,
    /// The number of a network's first group of counters, 1 to 49435.
    pub first_group: u32,
    /// `true` if the arguments say how many stations a group has, or the number of the first group.
    pub numbered: bool,
    /// The file of the settings whose targets come first, if the arguments say so.
    pub append: Option<&'a str>,
    /// The file of the settings whose targets of the agent are brought up to date, if the arguments
    /// say so.
    pub update: Option<&'a str>,
    /// The file of the interfaces' texts, if one is written.
    pub labels: Option<&'a str>,
    /// The files of the modules that give names, in the order of the command line.
    pub modules: &'m [&'a str],
}

/// The agent that `agent` serves.
#[derive(Clone, Copy)]
pub struct AgentArgs<'a> {
    /// The file of its settings.
    pub settings: &'a str,
    pub boots: Option<i32>,
    /// How many datagrams are served.
    pub count: u32,
}

/// The agent that `answer` hands recorded datagrams.
#[derive(Clone, Copy)]
pub struct AnswerArgs<'m, 'a> {
    /// The file of its settings.
    pub settings: &'a str,
    pub boots: Option<i32>,
    pub scene: Scene,
    pub named: Named<'m, 'a>,
}

/// The module whose names `mib` prints.
#[derive(Clone, Copy)]
pub struct MibArgs<'m, 'a> {
    /// The file of the module.
    pub file: &'a str,
    /// The files of the modules whose names it uses, in the order of the command line.
    pub modules: &'m [&'a str],
}

/// The station that `station` runs.
#[derive(Clone, Copy)]
pub struct StationArgs<'m, 'a> {
    /// The file of its settings.
    pub settings: &'a str,
    /// `true` if only its limits are printed.
    pub checks: bool,
    /// `true` if it ends once its settings changed.
    pub follows: bool,
    pub timing: Timing,
    /// From how many rounds without a new sample on Prometheus' format leaves an instance out.
    pub stale_after: u32,
    /// At the ends of how many rounds a change of an alarm must have held before it is announced;
    /// with 1 each change is announced at once.
    pub alarm_after: u32,
    /// `true` if each line on standard error has its level before it.
    pub log_levels: bool,
    /// The file that each round's report is written to.
    pub out: Option<&'a str>,
    /// The address at which its report is served over HTTP.
    pub http: Option<&'a str>,
    /// The names by which that is reached, in the order of the command line.
    pub http_hosts: &'m [&'a str],
    /// The URL that changes of alarms and devices are sent to, if the arguments say so.
    pub notify: Option<&'a str>,
    /// The file of labels of interfaces, if the arguments say so.
    pub labels: Option<&'a str>,
    pub printed: Printed<'m, 'a>,
}

/// The station whose windows `report` prints.
#[derive(Clone, Copy)]
pub struct ReportArgs<'m, 'a> {
    /// The file of its settings, if the arguments say so.
    pub settings: Option<&'a str>,
    /// Its file, whose settings are lost, if the arguments say so.
    pub file: Option<&'a str>,
    /// The file of labels of interfaces, if the arguments say so.
    pub labels: Option<&'a str>,
    pub printed: Printed<'m, 'a>,
}

/// The stations between which `carry` carries windows.
#[derive(Clone, Copy)]
pub struct CarryArgs<'m, 'a> {
    /// The file of the old settings.
    pub old: &'a str,
    /// The file of the new settings.
    pub new: &'a str,
    /// The engine ids whose windows are not carried, each in hex digits.
    pub dropped: &'m [&'a str],
    /// `true` if nothing is written.
    pub dry_run: bool,
    /// `true` if the new station's file is replaced, to which the old settings belong.
    pub previous: bool,
}

/// The station that `healthz` asks.
#[derive(Clone, Copy)]
pub struct HealthzArgs<'a> {
    /// Where it serves HTTP.
    pub address: &'a str,
}

/// The stations that `rehearse` makes.
#[derive(Clone, Copy)]
pub struct RehearseArgs<'a> {
    /// The file of their settings.
    pub settings: &'a str,
    /// How many they are.
    pub stations: u32,
}

/// What the arguments ask for, by their command.
#[derive(Clone, Copy)]
pub enum Invocation<'m, 'a> {
    /// The program's name and version.
    Version,
    Replay(ReplayArgs<'m, 'a>),
    Get(Request<'m, 'a>),
    Next(Request<'m, 'a>),
    Bulk(BulkArgs<'m, 'a>),
    Walk(WalkArgs<'m, 'a>),
    Set(SetArgs<'m, 'a>),
    Settings(SettingsArgs<'m, 'a>),
    Agent(AgentArgs<'a>),
    Answer(AnswerArgs<'m, 'a>),
    Mib(MibArgs<'m, 'a>),
    Station(StationArgs<'m, 'a>),
    Report(ReportArgs<'m, 'a>),
    Carry(CarryArgs<'m, 'a>),
    Healthz(HealthzArgs<'a>),
    SelfTest,
    Rehearse(RehearseArgs<'a>),
}

impl Invocation<'_, '_> {
    /// Returns `true` if a station is to run and the arguments do not say for how many rounds.
    pub fn lacks_rounds(&self) -> bool
        ensures { IsTrue result ↔ LacksRounds self.now }
    {
        match self {
            Invocation::Station(words) => !words.checks && words.timing.rounds == 0,
            _ => false,
        }
    }

    /// Returns `true` if a station is given a phase, and no interval that it would be in.
    pub fn lacks_interval(&self) -> bool
        ensures { IsTrue result ↔ LacksInterval self.now }
    {
        match self {
            Invocation::Station(words) => words.timing.phase.is_some()
                && words.timing.interval == 0,
            _ => false,
        }
    }

    /// Returns `true` if `report` is given neither settings nor a file, or both.
    pub fn lacks_source(&self) -> bool
        ensures { IsTrue result ↔ LacksSource self.now }
    {
        match self {
            Invocation::Report(words) => words.settings.is_some() == words.file.is_some(),
            _ => false,
        }
    }

    /// Returns `true` if `report` must label series by the station's number, and is given no
    /// settings, which have the number.
    pub fn lacks_number(&self) -> bool
        ensures { IsTrue result ↔ LacksNumber self.now }
    {
        match self {
            Invocation::Report(words) => words.printed.station_label && words.settings.is_none(),
            _ => false,
        }
    }

    /// Returns `true` if machines are given for stations, and no folder is named for their
    /// settings.
    pub fn lacks_split(&self) -> bool
        ensures { IsTrue result ↔ LacksSplit self.now }
    {
        match self {
            Invocation::Settings(words) => words.machines.is_some() && words.split.is_none(),
            _ => false,
        }
    }

    /// Returns `true` if the arguments say how many stations a group has, or the number of the
    /// first group, and name no machines that they would be on.
    pub fn lacks_machines(&self) -> bool
        ensures { IsTrue result ↔ LacksMachines self.now }
    {
        match self {
            Invocation::Settings(words) => words.numbered && words.machines.is_none(),
            _ => false,
        }
    }

    /// Returns `true` if the arguments sort the rows of a report that is no table.
    pub fn lacks_columns(&self) -> bool
        ensures { IsTrue result ↔ LacksColumns self.now }
    {
        match self {
            Invocation::Station(words) => words.printed.sorts_no_table(),
            Invocation::Report(words) => words.printed.sorts_no_table(),
            _ => false,
        }
    }
}
