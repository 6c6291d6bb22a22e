//! The help texts of the commands.

use crate::choice::Choice;

/// What the program is for.
pub(crate) const ABOUT: &str =
    "Proved SNMPv2c monitoring: polls agents, and prints what was measured";

/// What follows the list of the commands.
pub(crate) const MORE: &str = "With no command it does `replay 8`.

A fault ends a command with status 1 and the line `snmpmon: CRATE NUMBER NAME`
on standard error; mostly a second line says what was wrong and where. Arguments
that cannot be read end it with status 2 and a line that says why.";

const REPLAY_MORE: &str =
    "Reads SNMPv2c responses from standard input, one datagram a line, in hex digits,
and prints for each instance (an agent's engine id and an object's name) its N
newest samples.

A line counts if it is a Response-PDU without an error whose first three
variable bindings are snmpEngineID.0, snmpEngineBoots.0 and snmpEngineTime.0;
each further binding with an INTEGER, Counter32, Gauge32, TimeTicks or Counter64
is a sample. Empty lines are passed over. Any other line is named with its
number and the reason, and changes nothing:

  2 BadHex            not pairs of hex digits
  3 BadMessage        no SNMPv2c message
  4 NotAResponse      a message, and no response
  5 AgentError        a response with an error status
  6 BadStamp          no engine id, boots and time at the front
  7 TooManyInstances  more than 256 instances in all

A sample is printed as BOOTS TIME MARK KIND VALUE, the oldest first.

With --report each instance has one line instead: ENGINE NAME n=COUNT, the
stamps BOOTS:TIME of its oldest and its newest sample, the newest value, and for
a counter what it counted from each sample to the next (delta), in how many
seconds (span), and delta / span, a second (rate). A gap across a restart of the
agent counts nothing.

  8000000001 1.3.6.1.2.1.2.2.1.10.1 n=3 3:100..3:110 Counter32=9 delta=2 span=10 rate=0.200

--format prints such a report in another format: json, prometheus, openmetrics,
columns, a table for people, or html, a page for a browser; then refused lines
are named on standard error. With --names names stand as ifInOctets.1, by the
modules that -m gives.

Examples: snmpmon replay 8 < examples/three-responses.hex
          snmpmon replay 8 --report < examples/three-responses.hex
          snmpmon replay 8 --columns --names -m examples/served.mib < examples/three-responses.hex";

const GET_MORE: &str =
    "Sends a GetRequest for the NAMEs to the agent at ADDRESS, and prints a line for
each: NAME = KIND: VALUE.

A name that the agent does not serve is printed as noSuchObject or
noSuchInstance. The request is sent at most three times, two seconds apart; no
reply ends the command with 2 Timeout, an error status with 6 AgentStatus.

With --module the names of an SMIv2 module (RFC 2578) are known too, and with
--names what is answered is printed by name.

Examples: snmpmon get 127.0.0.1:16100 public 1.3.6.1.2.1.1.5.0
          snmpmon get --module examples/served.mib --names 127.0.0.1:16100 public sysName.0";

const NEXT_MORE: &str =
    "Sends a GetNextRequest for the NAMEs to the agent at ADDRESS, and prints for
each the first variable after it, as `get` does. After the agent's last variable
that is endOfMibView.

Example: snmpmon next 127.0.0.1:16100 public 1.3";

const BULK_MORE: &str =
    "Sends a GetBulkRequest for the NAMEs to the agent at ADDRESS, and prints what it
answers as `get` does: one variable after each of the first N names, then M
rounds of the variables after the others, as many as fit the agent's limit.

Example: snmpmon bulk -n 0 -m 10 127.0.0.1:16100 public mib-2.2.2.1.10";

const WALK_MORE: &str =
    "Asks the agent at ADDRESS for the variable after NAME, then for the one after
that, and so on, and prints each as `get` does. It ends at the first variable
that is not under NAME, at the agent's last one, or after 65536 requests. With
--bulk each request is a GetBulkRequest, which the agent answers with as many
variables as fit, so that there are fewer requests.

An agent whose names do not increase ends it with 5 NotIncreasing, after what
was printed so far.

Examples: snmpmon walk 127.0.0.1:16100 public mib-2.2
          snmpmon walk --bulk 20 127.0.0.1:16100 public mib-2
          snmpmon walk -m examples/served.mib --names 127.0.0.1:16100 public ifTable";

const SET_MORE: &str =
    "Sends a SetRequest to the agent at ADDRESS that assigns VALUE to the variable of
NAME, and prints what it answers as `get` does. The community has to be one that
may write; an agent that refuses ends the command with 6 AgentStatus, and
nothing is printed.

KIND says how VALUE is read:

  integer                        a decimal number, -2147483648 to 2147483647
  string                         the text's own octets
  hex                            pairs of hex digits, in either case
  oid                            numbers with dots between them, as 1.3.6.1.4.1
  ip                             a.b.c.d
  counter32, gauge32, timeticks  a decimal number, 0 to 4294967295
  counter64                      a decimal number, 0 to 18446744073709551615

A decimal number is digits only, leading zeros allowed, for an integer also
with - before them. Any other text ends the command with 8 BadText before
anything is sent. A VALUE that begins with - must follow --.

Examples: snmpmon set 127.0.0.1:16100 private mib-2.1.5.0 string r2
          snmpmon set 127.0.0.1:16100 private mib-2.2.2.1.7.1 integer 2";

const SETTINGS_MORE: &str =
    "Asks the agent at ADDRESS for its engine and walks its tables of interfaces
(GetBulkRequests), and prints the settings of a station that polls the counters
that are chosen, as `station` reads them: 64-bit counters where the agent has
them, each with its discontinuity mark where there is one, in targets of 16.
Packets are those of unicast, and of multicast and broadcast where ifXTable
counts them. The text is read back before it is printed, and nothing is printed
if anything fails. With -m names are shown as ifHCInOctets.1. Where ifNumber is
not the number of ifTable's interfaces, a line on standard error says so, and
another for how many interfaces --thresholds finds no speed.

An agent whose snmpEngine group is absent or hidden from this community ends it
with mon_survey 2 NoEngine, since a station stamps each sample by it; no counter
to poll, also where a view hides the interfaces, with 5 NoCounter, more than 256
with 6 TooMany, an option that no settings can have with 8 Refused.

With --split there may be more: FOLDER/station-1.toml has the first 256,
station-2.toml the next, and so on, each the settings of a station of its own.
From the second on the ports of --listen and --peer are counted up, and the
number follows the name of its file. If one of the files is there, nothing is
written.

With --split and --machines they are those of a network: group 1 is the first
256 counters, group 2 the next, and so on from --first-group. FOLDER has a file
group-G-station-K.toml for each station of a group, which listens at port 16100
+ G of its machine and has the other stations of its group as peers, targets.json
for Prometheus, with their HTTP at port 9700 + G, and units.txt, a line for each
station with its machine. The stations of a group are on different machines.

With --append the settings in FILE come first, octet by octet, and then the
targets of this agent and their alarms; options of the station are FILE's own.
An engine id that FILE has ends it with 10 SameEngine, more than 64 targets in
all with 11 TooManyTargets.

With --update the settings in FILE are brought up to date with the agent. The
objects and alarms of an interface that is gone are taken out, an interface whose
index changed is polled at the new index, and new interfaces get targets, and
alarms with --thresholds, at the end. All else stays, octet by octet, also
windows, thresholds and labels that were set by hand. Each change is a line on
standard error: `+ gi0/7` is new, `- gi0/3` is gone, and `gi0/2: index 2 is 5 now`
got another number. `carry` then takes the windows over.

Examples: snmpmon settings 127.0.0.1:16100 public > station.toml
          snmpmon settings 127.0.0.1:16100 public --up --only octets,packets --thresholds 80% > station.toml
          snmpmon settings 127.0.0.1:16100 public --split network --machines machines.txt --stations 2
          snmpmon settings 127.0.0.1:16110 public --append station.toml > both.toml
          snmpmon settings 127.0.0.1:16100 public --update station.toml > new.toml";

const AGENT_MORE: &str =
    "Reads SETTINGS, a TOML file (examples/agent.toml explains each key), listens at
the address in it, says on standard error where, and answers as many datagrams
as --count says: Get, GetNext, GetBulk and Set requests of the communities in
the settings.

A fault in SETTINGS ends the command before it listens, with the line `snmpmon:
mon_settings 4 BadValue`, say, and a second one that names SETTINGS, the key and
what is wanted there: `agent.toml: access[2].model: 0 or 2 is wanted`. Of what is
not TOML it has the line and the column. A datagram for which memory runs out is
not answered and changes nothing: the line `snmpmon: mon_app 1 OutOfMemory` says
so, and the agent goes on.

Example: snmpmon agent examples/agent.toml --count 1000";

const ANSWER_MORE: &str =
    "Reads SETTINGS as `agent` does, and datagrams from standard input, one a line,
in hex digits. A new agent gets them in turn, and a line is printed for each;
lines that are empty or begin with # are passed over:

  its reply in hex digits   the octets that the agent would send
  silent 1 BadMessage       the octets begin with no message
  silent 2 BadVersion       a message of another version than SNMPv2c
  silent 3 BadCommunity     the community is unknown
  silent 4 NotARequest      a message, and no request
  silent 5 TooBigTwice      neither the reply nor tooBig is within the limit
  refused BadHex            not pairs of hex digits; the agent gets nothing

With --names a reply is printed in other lines, by the names that modules give
(-m): `reply`, its error-status and index, and then its variable bindings as
`get` prints them.

The agent's clock does not run. With --fuses its device fails some of the
changes that Sets ask of it, so that one sees what the agent answers then and
what it undoes.

Examples: snmpmon answer examples/agent.toml < examples/requests.hex
          snmpmon answer -m examples/served.mib --names examples/agent.toml < examples/requests.hex";

const MIB_MORE: &str =
    "Reads one SMIv2 module (RFC 2578) from FILE and prints NAME IDENTIFIER for each
value name that it defines, by identifier. The built-in names, as enterprises
and mib-2, are known, and those of the modules of -m, which are not printed.

A text that is no module ends it with 2 Unclosed, 3 Unexpected or 4 Duplicate; a
name that cannot be resolved with 5 Unknown, 6 Cycle, 7 TooDeep or 8
BadIdentifier, and then nothing is printed.

Examples: snmpmon mib examples/EX-MIB.txt
          snmpmon mib examples/EX-PORT-MIB.txt -m examples/EX-MIB.txt";

const STATION_MORE: &str =
    "Reads SETTINGS, a TOML file (examples/station.toml explains each key), reads the
file in it or makes it, listens at its address and runs rounds. In a round the
station polls each target, offers each peer the samples that it is owed, answers
its peers and saves. At the end it prints the report of its windows, as `report`
does, and at a terminal as a table if no format is given; --out writes it to a
file after each round, where Prometheus finds it (docs/OPERATING.md). --http
serves it to Prometheus and browsers while the station runs.

With --interval rounds begin at fixed times, and stations with peers poll one
after another by the wall clock; --phase sets when. A report that cannot be
written and a last save that failed end the command with status 1 once all
rounds are done. A signal ends it at once, without a save: with --save-every a
station without a peer then lacks what it took since the last one. --check
prints how long a round may take and the limits of these settings, and starts
nothing. When SETTINGS changes while the station runs, a line says so; with
--follow-settings it then ends with status 4 after a save.

Standard error says where it listens and by which incarnation, which alarms are
raised at the start, which are raised or cleared later, and for each round which
targets gave up or were refused and why. An alarm has its device, its interface
if --labels FILE lists it, the value that was observed and the limit:

  snmpmon: round 7: ALARM raised: 192.0.2.1 gi0/1 ifHCInOctets 10.0 Gbit/s (limit 8.00 Gbit/s), sample 1:35

What is refused ends no round; docs/OPERATING.md says what each line means.

A damaged file ends it with mon_disk 5 Damaged, one of other instances with
mon_saved 4 OtherWatch, one that another station has open with mon_disk 7 InUse,
and none is touched. A file that is shorter than a station's, or in which no
save was ever finished, counts as new.

Examples: snmpmon station examples/station.toml --rounds 6 --interval 10
          snmpmon station examples/station.toml --rounds 6 --interval 10 --format prometheus --out snmpmon.prom
          snmpmon station examples/station.toml --rounds 1000000 --interval 10 --http 127.0.0.1:9732
          snmpmon station examples/station.toml --rounds 1000000 --interval 10 --notify http://127.0.0.1:9094/alerts
          snmpmon station examples/station.toml --check";

const REPORT_FILE_MORE: &str =
    "Reads SETTINGS as `station` does, and prints for each instance a line of what is
saved in the station's file, as `replay --report` does, with the alarms at its
end. The station is not started: its incarnation stays. --file prints a file
whose settings are lost by what it holds itself, without alarms. --station-label
needs SETTINGS, which have the station's number.

--format json prints an object, --format prometheus the text that Prometheus
reads, --format openmetrics the same in OpenMetrics 1.0, --format html a page for
a browser, --columns a table for people, whose rows --sort puts in an order: by
name, or the greatest rate, raised alarms or the greatest age first. With --names
names stand as ifInOctets.1, by the modules of the settings and those that -m
gives. With --labels FILE Prometheus' text, OpenMetrics, the page and the table
have ifName and ifAlias of each interface that FILE lists.

Examples: snmpmon report examples/station.toml
          snmpmon report examples/station.toml --columns --sort rate
          snmpmon report examples/station.toml --columns --names -m examples/served.mib
          snmpmon report examples/station.toml --format html > page.html
          snmpmon report --file station.mon";

const CARRY_MORE: &str =
    "Reads the settings OLD and NEW as `station` does, and the file of OLD, which is
only read. Writes the file of NEW, which must not be there, or hold no save: for
each instance that both watch (engine id and name) what NEW keeps of its window,
and an empty window for each other one. The incarnation is one more. If it is
killed, the file of NEW holds nothing or all of it. It prints what was carried:

  carried 240 of 256 instances, 15,360 samples; 16 new, 4 gone

--drop leaves out an agent, say one that was restarted and did not raise its
snmpEngineBoots. With --dry-run nothing is written.

With --previous OLD and NEW may name one file, and OLD are the settings that it
belongs to. It is replaced by what is carried, and kept as FILE.previous. Nothing
is done if OLD or FILE is not there, or if both watch the same.

A file of NEW that holds a save ends it with a fault, and so does a file of OLD
that is damaged or of other instances; both files stay as they were.

Examples: snmpmon carry old.toml new.toml --dry-run
          snmpmon carry old.toml new.toml
          snmpmon carry --previous station.toml.previous station.toml";

const HEALTHZ_MORE: &str =
    "Asks the station that serves HTTP at ADDRESS (station --http) for /healthz, and
prints `healthy` if it answers with status 200: rounds end in time. Else it ends
with status 1 and says why: mon_health_commands 2 Unhealthy for another status,
mon_app 2 Timeout if nothing comes within two seconds. It is the health check of
a container that has no shell.

Example: snmpmon healthz 127.0.0.1:9732";

const SELFTEST_MORE: &str =
    "Polls an agent in memory three times, saves what was taken, finds it again, and
prints the report and `selftest: ok`. It opens no file and no socket.

Example: snmpmon selftest";

const REHEARSE_MORE: &str =
    "Reads SETTINGS as `station` does, and steps from standard input, one a line, and
makes them with K stations in memory that have the watch and the targets of the
settings and are all peers of each other. It prints what each step answered, and
then for each station its incarnation, how many samples it owes each of the
others, and its report. It opens no socket and no file but SETTINGS and its
modules.

  poll S T         station S polls target T; both count from 1
  agent S T HEX    these octets come to station S from target T
  timeout S ID     the poll of station S with this request-id was not answered
                   in time
  share S P        station S offers station P what it owes it
  deliver D        datagram D, counted from 1, comes to its addressee; as often
                   as it is asked
  save S           station S saves
  restart S        station S is started again from what it saved
  stop S N keep    station S saves, is stopped after N calls of its disk, 0 to
                   6, and started again; with lose in place of keep, what was
                   written and not synced is lost
  forge S HEX      these octets come to station S as from a peer

A line that is no step ends it with mon_app 7 BadScript before the first step;
docs/OPERATING.md explains a script.

Example: snmpmon rehearse examples/rehearsal.toml 2 < examples/exchange.script";

/// What a command does, in a line.
pub(crate) fn about<'a>(choice: Choice) -> &'a str {
    match choice {
        Choice::Replay => "Prints the newest samples of each instance in recorded responses",
        Choice::Get => "Asks an agent for variables by their names (GetRequest)",
        Choice::Next => "Asks an agent for the variables after names (GetNextRequest)",
        Choice::Bulk => "Asks an agent for many variables after names (GetBulkRequest)",
        Choice::Walk => "Asks an agent for all variables under a name",
        Choice::Set => "Has an agent assign a value to a variable (SetRequest)",
        Choice::Settings => "Prints the settings of a station that polls an agent's interfaces",
        Choice::Agent => "Serves an agent over a simulated device",
        Choice::Answer => "Prints what an agent answers to recorded datagrams, without a socket",
        Choice::Mib => "Prints the names that a module defines",
        Choice::Station => "Polls agents, and keeps, shares and saves what they answer",
        Choice::Report => "Prints the report of what a station has saved",
        Choice::Carry => "Carries saved windows over to changed settings",
        Choice::Healthz => "Asks a running station whether its rounds end in time",
        Choice::SelfTest => "Tries a station in memory on an agent in memory",
        Choice::Rehearse => "Makes the steps of a script with stations in memory",
    }
}

/// What a command does, at length.
pub(crate) fn more<'a>(choice: Choice) -> &'a str {
    match choice {
        Choice::Replay => REPLAY_MORE,
        Choice::Get => GET_MORE,
        Choice::Next => NEXT_MORE,
        Choice::Bulk => BULK_MORE,
        Choice::Walk => WALK_MORE,
        Choice::Set => SET_MORE,
        Choice::Settings => SETTINGS_MORE,
        Choice::Agent => AGENT_MORE,
        Choice::Answer => ANSWER_MORE,
        Choice::Mib => MIB_MORE,
        Choice::Station => STATION_MORE,
        Choice::Report => REPORT_FILE_MORE,
        Choice::Carry => CARRY_MORE,
        Choice::Healthz => HEALTHZ_MORE,
        Choice::SelfTest => SELFTEST_MORE,
        Choice::Rehearse => REHEARSE_MORE,
    }
}
