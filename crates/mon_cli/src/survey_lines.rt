//! The arguments of `settings`.

use crate::lines::{ADDRESS, COMMUNITY, Form, Line, MODULE, Takes, Value};

const OWN_NUMBER: Line = Line {
    id: "station",
    form: Form::Long,
    takes: Takes::One(Value::Number(1, 4_294_967_295)),
    needed: false,
    shown: "NUMBER",
    help: "The station's number, 1 to 4294967295; 1 if not
given",
};

const LISTEN: Line = Line {
    id: "listen",
    form: Form::Long,
    takes: Takes::One(Value::Text),
    needed: false,
    shown: "ADDRESS",
    help: "Where the station listens, a.b.c.d:port;
0.0.0.0:16101 if not given",
};

const SAVED_FILE: Line = Line {
    id: "file",
    form: Form::Long,
    takes: Takes::One(Value::Text),
    needed: false,
    shown: "FILE",
    help: "The station's file; station.mon if not given",
};

const WINDOW: Line = Line {
    id: "window",
    form: Form::Long,
    takes: Takes::One(Value::Number(1, 64)),
    needed: false,
    shown: "SAMPLES",
    help: "How many samples a window keeps, 1 to 64; 32 if
not given",
};

const WAIT_MS: Line = Line {
    id: "wait-ms",
    form: Form::Long,
    takes: Takes::One(Value::Number(1, 60_000)),
    needed: false,
    shown: "MILLISECONDS",
    help: "A round goes on after so many milliseconds without
a datagram, 1 to 60000; 1000 if not given",
};

const TRIES: Line = Line {
    id: "tries",
    form: Form::Long,
    takes: Takes::One(Value::Number(1, 8)),
    needed: false,
    shown: "TRIES",
    help: "How often a poll is sent in all, 1 to 8; 3 if not
given",
};

const PEER: Line = Line {
    id: "peer",
    form: Form::Long,
    takes: Takes::Each(Value::Text),
    needed: false,
    shown: "N=ADDRESS",
    help: "Another station that shares with this one: its
number, and where it listens; given as often as
wanted",
};

const ONLY: Line = Line {
    id: "only",
    form: Form::Long,
    takes: Takes::One(Value::Text),
    needed: false,
    shown: "KINDS",
    help: "The kinds of counters, with commas between them:
octets, packets, errors, discards; octets,errors
if not given",
};

const UP: Line = Line {
    id: "up",
    form: Form::Long,
    takes: Takes::Nothing,
    needed: false,
    shown: "",
    help: "Takes only interfaces that are up",
};

const MATCH: Line = Line {
    id: "match",
    form: Form::Long,
    takes: Takes::One(Value::Text),
    needed: false,
    shown: "TEXT",
    help: "Takes only interfaces whose name or alias
contains TEXT",
};

const THRESHOLDS: Line = Line {
    id: "thresholds",
    form: Form::Long,
    takes: Takes::One(Value::Text),
    needed: false,
    shown: "PERCENT",
    help: "Writes an alarm on each counter of octets, raised
at this percentage of the interface's speed: 1 to
100, as 80 or 80%",
};

const SPLIT: Line = Line {
    id: "split",
    form: Form::Long,
    takes: Takes::One(Value::Text),
    needed: false,
    shown: "FOLDER",
    help: "Writes a file of settings into FOLDER for each 256
counters, with ports and files counted up, and
prints their names",
};

const MACHINES: Line = Line {
    id: "machines",
    form: Form::Long,
    takes: Takes::One(Value::Text),
    needed: false,
    shown: "FILE",
    help: "With --split: places the stations of a network on
the machines in FILE, a line each with its name and
its IPv4 address, and writes Prometheus' targets",
};

const GROUP_STATIONS: Line = Line {
    id: "stations",
    form: Form::Long,
    takes: Takes::One(Value::Number(1, 3)),
    needed: false,
    shown: "K",
    help: "With --machines: how many stations poll each 256
counters, each on another machine, 1 to 3; 1 if not
given",
};

const FIRST_GROUP: Line = Line {
    id: "first-group",
    form: Form::Long,
    takes: Takes::One(Value::Number(1, 49_435)),
    needed: false,
    shown: "N",
    help: "With --machines: the number of the first 256
counters, from which names, ports and places are
counted up, 1 to 49435; 1 if not given",
};

const APPEND: Line = Line {
    id: "append",
    form: Form::Long,
    takes: Takes::One(Value::Text),
    needed: false,
    shown: "FILE",
    help: "Prints the settings in FILE with the agent's
targets at their end; names are shown as there",
};

const UPDATE: Line = Line {
    id: "update",
    form: Form::Long,
    takes: Takes::One(Value::Text),
    needed: false,
    shown: "FILE",
    help: "Prints the settings in FILE with the agent's
targets as they are now, and what changed on
standard error",
};

const WRITTEN_LABELS: Line = Line {
    id: "labels",
    form: Form::Long,
    takes: Takes::One(Value::Text),
    needed: false,
    shown: "FILE",
    help: "Writes the interfaces' names and aliases to FILE,
for Prometheus' labels; with --append they go to
the end of FILE, with --update they replace the
agent's tables in FILE at once",
};

/// The options and operands of `settings`.
pub(crate) static SURVEY: [Line; 21] = [
    ADDRESS,
    COMMUNITY,
    OWN_NUMBER,
    LISTEN,
    SAVED_FILE,
    WINDOW,
    WAIT_MS,
    TRIES,
    PEER,
    ONLY,
    UP,
    MATCH,
    THRESHOLDS,
    SPLIT,
    MACHINES,
    GROUP_STATIONS,
    FIRST_GROUP,
    APPEND,
    UPDATE,
    WRITTEN_LABELS,
    MODULE,
];
