//! The arguments of the command lines.

ghost use Rattle.std.specs.Prelude.{◌≡◌, map};
ghost use Rattle.mon_cli.specs.Line.{argument_of};
ghost use Rattle.mon_cli.specs.Table.{arguments};

use crate::choice::Choice;
use crate::survey_lines::SURVEY;

/// What a value must be.
#[derive(Clone, Copy)]
pub(crate) enum Value {
    /// Any text.
    Text,
    /// The name of a format.
    Format,
    /// The word for a kind of value.
    Kind,
    /// The word for an order of rows.
    Sort,
    /// A decimal number, from the first to the second.
    Number(i64, i64),
    /// A number without a sign, of up to 64 bits.
    Natural(u64, u64),
}

/// How many values an argument takes.
#[derive(Clone, Copy)]
pub(crate) enum Takes {
    /// None: it is given or not.
    Nothing,
    /// One.
    One(Value),
    /// One each time that it is given, any number of times.
    Each(Value),
    /// One or more in a row.
    Many(Value),
}

/// How an argument is given.
#[derive(Clone, Copy)]
pub(crate) enum Form {
    /// By its place on the command line.
    Place,
    /// As `--id`.
    Long,
    /// By a letter, as `-c`.
    Short(char),
    /// As `--id`, or by a letter.
    Both(char),
}

/// An option or a word of a command, with its help.
#[derive(Clone, Copy)]
pub(crate) struct Line {
    pub(crate) id: &'static str,
    pub(crate) form: Form,
    pub(crate) takes: Takes,
    pub(crate) needed: bool,
    /// What help calls its value.
    pub(crate) shown: &'static str,
    pub(crate) help: &'static str,
}

const VERSION: Line = Line {
    id: "version",
    form: Form::Long,
    takes: Takes::Nothing,
    needed: false,
    shown: "",
    help: "Prints the version",
};

const SIZE: Line = Line {
    id: "N",
    form: Form::Place,
    takes: Takes::One(Value::Number(1, 64)),
    needed: true,
    shown: "N",
    help: "How many samples a window keeps, 1 to 64",
};

const REPORT: Line = Line {
    id: "report",
    form: Form::Long,
    takes: Takes::Nothing,
    needed: false,
    shown: "",
    help: "Prints a line for each instance, with deltas,
seconds and rates, in place of its samples, as
--format text does",
};

const FORMAT: Line = Line {
    id: "format",
    form: Form::Long,
    takes: Takes::One(Value::Format),
    needed: false,
    shown: "FORMAT",
    help: "The format of the report; text if not given",
};

const COLUMNS: Line = Line {
    id: "columns",
    form: Form::Long,
    takes: Takes::Nothing,
    needed: false,
    shown: "",
    help: "Prints the report as a table for people, as
--format columns does",
};

const SORT: Line = Line {
    id: "sort",
    form: Form::Long,
    takes: Takes::One(Value::Sort),
    needed: false,
    shown: "ORDER",
    help: "The order of the rows of each device with
--columns; by name if not given",
};

pub(crate) const MODULE: Line = Line {
    id: "module",
    form: Form::Both('m'),
    takes: Takes::Each(Value::Text),
    needed: false,
    shown: "FILE",
    help: "A file with an SMIv2 module, whose names are known
then; may be repeated, first the modules whose
names others use",
};

const LONG_MODULE: Line = Line {
    id: "module",
    form: Form::Long,
    takes: Takes::Each(Value::Text),
    needed: false,
    shown: "FILE",
    help: "A file with an SMIv2 module, whose names are known
then; may be repeated, first the modules whose
names others use",
};

const NAMES: Line = Line {
    id: "names",
    form: Form::Long,
    takes: Takes::Nothing,
    needed: false,
    shown: "",
    help: "Prints names as ifInOctets.1 where the modules
give them, in place of numbers",
};

pub(crate) const ADDRESS: Line = Line {
    id: "ADDRESS",
    form: Form::Place,
    takes: Takes::One(Value::Text),
    needed: true,
    shown: "ADDRESS",
    help: "The agent's address, a.b.c.d:port",
};

pub(crate) const COMMUNITY: Line = Line {
    id: "COMMUNITY",
    form: Form::Place,
    takes: Takes::One(Value::Text),
    needed: true,
    shown: "COMMUNITY",
    help: "The community, 1 to 512 octets",
};

const NAME: Line = Line {
    id: "NAME",
    form: Form::Place,
    takes: Takes::One(Value::Text),
    needed: true,
    shown: "NAME",
    help: "A name, in numbers as 1.3.6.1.2.1.1.5.0, or after
a built-in name or one of a module as mib-2.1.5.0",
};

const ALL_NAMES: Line = Line {
    id: "NAME",
    form: Form::Place,
    takes: Takes::Many(Value::Text),
    needed: true,
    shown: "NAME",
    help: "A name, in numbers as 1.3.6.1.2.1.1.5.0, or after
a built-in name or one of a module as mib-2.1.5.0",
};

const NON_REPEATERS: Line = Line {
    id: "non-repeaters",
    form: Form::Short('n'),
    takes: Takes::One(Value::Number(0, 2_147_483_647)),
    needed: true,
    shown: "N",
    help: "How many of the names are asked for once",
};

const MAX_REPETITIONS: Line = Line {
    id: "max-repetitions",
    form: Form::Short('m'),
    takes: Takes::One(Value::Number(0, 2_147_483_647)),
    needed: true,
    shown: "M",
    help: "How many rounds of the others are asked for",
};

const AT_ONCE: Line = Line {
    id: "bulk",
    form: Form::Long,
    takes: Takes::One(Value::Number(1, 1000)),
    needed: false,
    shown: "N",
    help: "Asks by GetBulk for N variables at once, 1 to
1000; by GetNext for one if not given",
};

const KIND: Line = Line {
    id: "KIND",
    form: Form::Place,
    takes: Takes::One(Value::Kind),
    needed: true,
    shown: "KIND",
    help: "How VALUE is read",
};

const VALUE: Line = Line {
    id: "VALUE",
    form: Form::Place,
    takes: Takes::One(Value::Text),
    needed: true,
    shown: "VALUE",
    help: "The value, a text that KIND can read",
};

const AGENT_SETTINGS: Line = Line {
    id: "SETTINGS",
    form: Form::Place,
    takes: Takes::One(Value::Text),
    needed: true,
    shown: "SETTINGS",
    help: "The settings of the agent, a TOML file",
};

const BOOTS: Line = Line {
    id: "boots",
    form: Form::Long,
    takes: Takes::One(Value::Number(1, 2_147_483_647)),
    needed: false,
    shown: "BOOTS",
    help: "snmpEngineBoots, 1 to 2147483647, in place of the
settings'",
};

const COUNT: Line = Line {
    id: "count",
    form: Form::Long,
    takes: Takes::One(Value::Number(1, 4_294_967_295)),
    needed: true,
    shown: "DATAGRAMS",
    help: "How many datagrams are served, 1 to 4294967295",
};

const AT: Line = Line {
    id: "at",
    form: Form::Long,
    takes: Takes::One(Value::Natural(0, 214_748_364_799)),
    needed: false,
    shown: "HUNDREDTHS",
    help: "Where the clock stands, in hundredths of a second
after the start, 0 to 214748364799; 0 if not given",
};

const FUSES: Line = Line {
    id: "fuses",
    form: Form::Long,
    takes: Takes::One(Value::Natural(0, 18_446_744_073_709_551_615)),
    needed: false,
    shown: "BITS",
    help: "The device fails its change number k, from 0,
where bit k of BITS is 1; 0 if not given",
};

const TIMES: Line = Line {
    id: "times",
    form: Form::Long,
    takes: Takes::One(Value::Number(1, 4_294_967_295)),
    needed: false,
    shown: "TIMES",
    help: "How many times each datagram comes, 1 to
4294967295; its last reply is printed; 1 if not
given",
};

const FILE: Line = Line {
    id: "FILE",
    form: Form::Place,
    takes: Takes::One(Value::Text),
    needed: true,
    shown: "FILE",
    help: "A text file with one SMIv2 module",
};

const SETTINGS: Line = Line {
    id: "SETTINGS",
    form: Form::Place,
    takes: Takes::One(Value::Text),
    needed: true,
    shown: "SETTINGS",
    help: "The settings of the station, a TOML file",
};

const ROUNDS: Line = Line {
    id: "rounds",
    form: Form::Long,
    takes: Takes::One(Value::Number(1, 1_000_000)),
    needed: false,
    shown: "ROUNDS",
    help: "How many rounds are run, 1 to 1000000; must be
given unless --check is",
};

const CHECK: Line = Line {
    id: "check",
    form: Form::Long,
    takes: Takes::Nothing,
    needed: false,
    shown: "",
    help: "Prints how long a round of these settings may take
and what else limits the station, and starts
nothing",
};

const FOLLOW_SETTINGS: Line = Line {
    id: "follow-settings",
    form: Form::Long,
    takes: Takes::Nothing,
    needed: false,
    shown: "",
    help: "Ends with status 4 after a save once SETTINGS
changed, so that the station is started anew",
};

const INTERVAL: Line = Line {
    id: "interval",
    form: Form::Long,
    takes: Takes::One(Value::Number(1, 86_400)),
    needed: false,
    shown: "SECONDS",
    help: "A round begins every SECONDS, 1 to 86400; at once
after the last one if not given",
};

const PHASE: Line = Line {
    id: "phase",
    form: Form::Long,
    takes: Takes::One(Value::Number(0, 86_399)),
    needed: false,
    shown: "SECONDS",
    help: "Rounds begin SECONDS after whole intervals of the
wall clock, 0 to 86399; by the station's number
among its peers if not given",
};

const REPORT_EVERY: Line = Line {
    id: "report-every",
    form: Form::Long,
    takes: Takes::One(Value::Number(1, 1_000_000)),
    needed: false,
    shown: "ROUNDS",
    help: "Prints the report after every ROUNDS rounds too, 1
to 1000000",
};

const SAVE_EVERY: Line = Line {
    id: "save-every",
    form: Form::Long,
    takes: Takes::One(Value::Number(1, 1_000_000)),
    needed: false,
    shown: "ROUNDS",
    help: "Saves at the end of every ROUNDS rounds and of the
last one, 1 to 1000000; of each round if not given",
};

const STALE_AFTER: Line = Line {
    id: "stale-after",
    form: Form::Long,
    takes: Takes::One(Value::Number(1, 1_000_000)),
    needed: false,
    shown: "ROUNDS",
    help: "After ROUNDS rounds without news a peer or an
instance is reported, and Prometheus' text has no
value, rate and alarm of the instance, 1 to
1000000; 3 if not given",
};

const ALARM_AFTER: Line = Line {
    id: "alarm-after",
    form: Form::Long,
    takes: Takes::One(Value::Number(1, 1_000_000)),
    needed: false,
    shown: "ROUNDS",
    help: "A change of an alarm is announced once it has held
at the end of ROUNDS rounds with no other change
between, 1 to 1000000; each change at once if not
given",
};

const LOG_LEVELS: Line = Line {
    id: "log-levels",
    form: Form::Long,
    takes: Takes::Nothing,
    needed: false,
    shown: "",
    help: "Puts <3> to <6> before each line on standard error,
for systemd's journal",
};

const OUT: Line = Line {
    id: "out",
    form: Form::Long,
    takes: Takes::One(Value::Text),
    needed: false,
    shown: "FILE",
    help: "Each round's report is written to FILE too, which
is replaced whole",
};

const HTTP: Line = Line {
    id: "http",
    form: Form::Long,
    takes: Takes::One(Value::Text),
    needed: false,
    shown: "ADDRESS",
    help: "Serves /metrics, /report.json, / and /healthz over
HTTP at ADDRESS, a.b.c.d:port, without
authentication",
};

const HTTP_HOST: Line = Line {
    id: "http-host",
    form: Form::Long,
    takes: Takes::Each(Value::Text),
    needed: false,
    shown: "NAME",
    help: "A name by which --http is reached; may be repeated.
localhost and addresses are always served, and a
request for another name gets 421",
};

const NOTIFY: Line = Line {
    id: "notify",
    form: Form::Long,
    takes: Takes::One(Value::Text),
    needed: false,
    shown: "URL",
    help: "Sends each announced change of an alarm, and each
device that goes down or comes up, to this URL
(http://ADDRESS:PORT/PATH) as a JSON object in the
form of Alertmanager's webhook",
};

const LABELS: Line = Line {
    id: "labels",
    form: Form::Long,
    takes: Takes::One(Value::Text),
    needed: false,
    shown: "FILE",
    help: "A TOML file of ifName and ifAlias by engine id and
ifIndex, for Prometheus' text, the page, the table,
and a station's lines of alarms",
};

const STATION_LABEL: Line = Line {
    id: "station-label",
    form: Form::Long,
    takes: Takes::Nothing,
    needed: false,
    shown: "",
    help: "Gives each series of an instance the label station,
this station's number, in Prometheus' text; for
files of several stations in one folder of
node_exporter",
};

const SAVED_SETTINGS: Line = Line {
    id: "SETTINGS",
    form: Form::Place,
    takes: Takes::One(Value::Text),
    needed: false,
    shown: "SETTINGS",
    help: "The settings of the station, a TOML file",
};

const LOST_FILE: Line = Line {
    id: "file",
    form: Form::Long,
    takes: Takes::One(Value::Text),
    needed: false,
    shown: "FILE",
    help: "Prints what is saved in FILE, whose settings are
lost, without alarms; in place of SETTINGS",
};

const STATION_ADDRESS: Line = Line {
    id: "ADDRESS",
    form: Form::Place,
    takes: Takes::One(Value::Text),
    needed: true,
    shown: "ADDRESS",
    help: "Where the station serves HTTP, a.b.c.d:port",
};

const OLD_SETTINGS: Line = Line {
    id: "OLD",
    form: Form::Place,
    takes: Takes::One(Value::Text),
    needed: true,
    shown: "OLD",
    help: "The settings whose station's file is read",
};

const NEW_SETTINGS: Line = Line {
    id: "NEW",
    form: Form::Place,
    takes: Takes::One(Value::Text),
    needed: true,
    shown: "NEW",
    help: "The settings whose station's file is written",
};

const DROP: Line = Line {
    id: "drop",
    form: Form::Long,
    takes: Takes::Each(Value::Text),
    needed: false,
    shown: "ENGINE",
    help: "Carries no window of the agent of this engine id,
in hex digits; may be repeated",
};

const DRY_RUN: Line = Line {
    id: "dry-run",
    form: Form::Long,
    takes: Takes::Nothing,
    needed: false,
    shown: "",
    help: "Prints what would be carried, and writes nothing",
};

const PREVIOUS: Line = Line {
    id: "previous",
    form: Form::Long,
    takes: Takes::Nothing,
    needed: false,
    shown: "",
    help: "OLD belongs to the file of NEW, which is replaced
and kept as FILE.previous; where nothing is to be
carried, nothing is done",
};

const STATIONS: Line = Line {
    id: "K",
    form: Form::Place,
    takes: Takes::One(Value::Number(1, 16)),
    needed: true,
    shown: "K",
    help: "How many stations, 1 to 16",
};

/// The arguments before any command.
pub(crate) static FIRST: [Line; 1] = [VERSION];

static REPLAY: [Line; 6] = [SIZE, REPORT, FORMAT, COLUMNS, MODULE, NAMES];

static ASKING: [Line; 5] = [ADDRESS, COMMUNITY, ALL_NAMES, MODULE, NAMES];

static BULK: [Line; 7] = [
    ADDRESS,
    COMMUNITY,
    ALL_NAMES,
    LONG_MODULE,
    NAMES,
    NON_REPEATERS,
    MAX_REPETITIONS,
];

static WALK: [Line; 6] = [ADDRESS, COMMUNITY, NAME, AT_ONCE, MODULE, NAMES];

static SET: [Line; 7] = [ADDRESS, COMMUNITY, NAME, KIND, VALUE, MODULE, NAMES];

static AGENT: [Line; 3] = [AGENT_SETTINGS, BOOTS, COUNT];

static ANSWER: [Line; 7] = [AGENT_SETTINGS, BOOTS, AT, FUSES, TIMES, MODULE, NAMES];

static MIB: [Line; 2] = [FILE, MODULE];

static STATION: [Line; 22] = [
    SETTINGS,
    ROUNDS,
    CHECK,
    FOLLOW_SETTINGS,
    INTERVAL,
    PHASE,
    REPORT_EVERY,
    SAVE_EVERY,
    STALE_AFTER,
    ALARM_AFTER,
    LOG_LEVELS,
    OUT,
    HTTP,
    HTTP_HOST,
    NOTIFY,
    LABELS,
    STATION_LABEL,
    FORMAT,
    COLUMNS,
    SORT,
    MODULE,
    NAMES,
];

static SAVED: [Line; 9] = [
    SAVED_SETTINGS,
    LOST_FILE,
    LABELS,
    STATION_LABEL,
    FORMAT,
    COLUMNS,
    SORT,
    MODULE,
    NAMES,
];

static CARRY: [Line; 5] = [OLD_SETTINGS, NEW_SETTINGS, DROP, DRY_RUN, PREVIOUS];

static HEALTHZ: [Line; 1] = [STATION_ADDRESS];

static REHEARSE: [Line; 2] = [SETTINGS, STATIONS];

/// The options and operands of a command, in the order in which help has them.
pub(crate) fn lines_of(choice: Choice) -> &'static [Line]
    ensures { map argument_of result.now ≡ arguments choice }
{
    match choice {
        Choice::Replay => REPLAY.as_slice(),
        Choice::Get | Choice::Next => ASKING.as_slice(),
        Choice::Bulk => BULK.as_slice(),
        Choice::Walk => WALK.as_slice(),
        Choice::Set => SET.as_slice(),
        Choice::Settings => SURVEY.as_slice(),
        Choice::Agent => AGENT.as_slice(),
        Choice::Answer => ANSWER.as_slice(),
        Choice::Mib => MIB.as_slice(),
        Choice::Station => STATION.as_slice(),
        Choice::Report => SAVED.as_slice(),
        Choice::Carry => CARRY.as_slice(),
        Choice::Healthz => HEALTHZ.as_slice(),
        Choice::SelfTest => &[],
        Choice::Rehearse => REHEARSE.as_slice(),
    }
}
