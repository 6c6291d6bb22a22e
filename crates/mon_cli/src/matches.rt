//! What the arguments ask for, by the matches that clap makes of them.

ghost use Rattle.std.specs.Prelude.{◌≡◌, ◌≢◌, IfNone, IfSome, codes, option_map};
ghost use Rattle.clap.specs.Words.{first_of, found_of, one_of, rows_of, subcommand_rows_of};
ghost use Rattle.clap.specs.Walk.{texts};
ghost use Rattle.mon_cli.specs.Invocation.{AreAllowed, AreThere, AsksFor, IsAgent, IsAnswer, IsFormat, IsInteger, IsNamed, IsNumber, IsNumberOr, IsCarry, IsPrinted, IsRequest, IsSaved, IsScene, IsSort, IsStation, IsSurvey, IsTiming, IsTimingIn, IsWithin, Says, all_in, is_on, names_format, numbers_groups, text_in, wants_report};
ghost use Rattle.mon_cli.specs.Program.{IsParse};
ghost use Rattle.mon_cli.specs.SortWord.{sort_word};
ghost use Rattle.mon_cli.specs.Table.{arguments};
ghost use Rattle.mon_cli.specs.declared.choice.Choice.TheVariants as commands;
ghost use Rattle.mon_cli.specs.declared.meaning.Invocation.TheVariants as asked;

use crate::choice::Choice;
use crate::meaning::{
    AgentArgs, AnswerArgs, BulkArgs, CarryArgs, HealthzArgs, Invocation, MibArgs, Named, Printed,
    RehearseArgs, ReplayArgs, ReportArgs, Request, Scene, SetArgs, SettingsArgs, StationArgs,
    Timing, WalkArgs,
};
use clap::ArgMatches;
use mon_formats::{Format, Sort};

/// How many samples a window keeps if the arguments do not say.
const USUAL_SIZE: u32 = 8;

/// After how many rounds without a new sample an instance is stale if the arguments do not say.
const USUAL_ROUNDS: u32 = 3;

/// How many samples the window of a station keeps if the arguments do not say.
const USUAL_WINDOW: u32 = 32;

/// How many milliseconds a station waits if the arguments do not say.
const USUAL_WAIT: u32 = 1000;

/// How often a station sends a poll if the arguments do not say.
const USUAL_TRIES: u32 = 3;

/// The text of an argument, if it has one.
fn find_value<'a>(matches: &ArgMatches<'a>, id: &str) -> Option<&'a str>
    ensures { option_map (λ t. t.now) result ≡ first_of id.now (rows_of (found_of matches.now)) }
{
    matches.get_str(id)
}

/// The text of an argument, empty where it has none.
fn text<'a>(matches: &ArgMatches<'a>, id: &str) -> &'a str
    ensures { result.now ≡ text_in id.now (rows_of (found_of matches.now)) }
{
    find_value(matches, id).unwrap_or_default()
}

/// Returns all values of an argument, in the order of the command line.
fn all<'m, 'a>(matches: &'m ArgMatches<'a>, id: &str) -> &'m [&'a str]
    ensures { texts result.now ≡ all_in id.now (rows_of (found_of matches.now)) }
{
    matches.get_raw(id).unwrap_or_default()
}

/// Returns `true` if a flag was given: its value is then the text `true`.
fn is_on(matches: &ArgMatches<'_>, id: &str) -> bool
    ensures { result ≡ is_on id.now (rows_of (found_of matches.now)) }
{
    match find_value(matches, id) {
        Some(text) => text == "true",
        None => false,
    }
}

/// The number of an argument, up to 4294967295.
fn number(matches: &ArgMatches<'_>, id: &str) -> Option<u32>
    ensures { IsNumber 32 (one_of id.now (rows_of (found_of matches.now))) result }
{
    matches.get_one::<u32>(id)
}

/// Returns the number that an argument has, or this one if it has none.
fn number_or(matches: &ArgMatches<'_>, id: &str, other: u32) -> u32
    ensures { IsNumberOr 32 other (one_of id.now (rows_of (found_of matches.now))) result }
{
    number(matches, id).unwrap_or(other)
}

/// The number of an argument, up to 18446744073709551615, or 0.
fn wide_number(matches: &ArgMatches<'_>, id: &str) -> u64
    ensures { IsNumberOr 64 0 (one_of id.now (rows_of (found_of matches.now))) result }
{
    matches.get_one::<u64>(id).unwrap_or(0)
}

/// The number of an argument, up to 2147483647.
fn small_number(matches: &ArgMatches<'_>, id: &str) -> Option<i32>
    ensures { IsInteger (one_of id.now (rows_of (found_of matches.now))) result }
{
    matches.get_one::<i32>(id)
}

/// Reads the modules that the arguments give, and whether names are shown.
fn read_named<'m, 'a>(matches: &'m ArgMatches<'a>) -> Named<'m, 'a>
    ensures { IsNamed (rows_of (found_of matches.now)) result }
{
    Named {
        modules: all(matches, "module"),
        shown: is_on(matches, "names"),
    }
}

/// Returns the format that the arguments give.
fn format(matches: &ArgMatches<'_>) -> Format
    ensures { IsFormat (is_on (codes "columns") (rows_of (found_of matches.now)))
        (text_in (codes "format") (rows_of (found_of matches.now))) result }
{
    if is_on(matches, "columns") {
        return Format::Columns;
    }
    Format::from_word(text(matches, "format")).unwrap_or(Format::Text)
}

/// Returns `true` if the arguments name a format.
fn names_format(matches: &ArgMatches<'_>) -> bool
    ensures { result ≡ names_format (rows_of (found_of matches.now)) }
{
    is_on(matches, "columns") || find_value(matches, "format").is_some()
}

/// Returns the order of rows that this word names.
fn sort_from(word: &str) -> Option<Sort>
    ensures found { IfSome result (λ sort. word.now ≡ sort_word sort) }
    ensures none { IfNone result ((sort : Sort) → word.now ≢ sort_word sort) }
{
    match word {
        "name" => Some(Sort::Name),
        "rate" => Some(Sort::Rate),
        "alarm" => Some(Sort::Alarm),
        "age" => Some(Sort::Age),
        _ => None,
    }
}

/// Returns the order of rows that the arguments give.
fn sort(matches: &ArgMatches<'_>) -> Option<Sort>
    ensures { IsSort (first_of (codes "sort") (rows_of (found_of matches.now))) result }
{
    match find_value(matches, "sort") {
        Some(word) => sort_from(word),
        None => None,
    }
}

/// Returns how a report is printed.
fn read_printed<'m, 'a>(matches: &'m ArgMatches<'a>) -> Printed<'m, 'a>
    ensures { IsPrinted (rows_of (found_of matches.now)) result }
{
    Printed {
        format: format(matches),
        chosen: names_format(matches),
        sort: sort(matches),
        station_label: is_on(matches, "station-label"),
        named: read_named(matches),
    }
}

/// Returns `true` if the report of a replay is asked for.
fn reports(matches: &ArgMatches<'_>) -> bool
    ensures { result ≡ wants_report (rows_of (found_of matches.now)) }
{
    is_on(matches, "report") || names_format(matches)
}

/// Returns whom a client command asks about which variables.
fn request<'m, 'a>(matches: &'m ArgMatches<'a>) -> Request<'m, 'a>
    ensures { IsRequest (rows_of (found_of matches.now)) result }
{
    Request {
        address: text(matches, "ADDRESS"),
        community: text(matches, "COMMUNITY"),
        names: all(matches, "NAME"),
        named: read_named(matches),
    }
}

/// Returns when rounds are run.
fn timing(matches: &ArgMatches<'_>) -> Timing
    requires { AreAllowed (arguments commands.Station) (rows_of (found_of matches.now)) }
    ensures says { IsTiming (rows_of (found_of matches.now)) result }
    ensures within { IsTimingIn result }
{
    Timing {
        rounds: number_or(matches, "rounds", 0),
        interval: number_or(matches, "interval", 0),
        phase: number(matches, "phase"),
        report_every: number_or(matches, "report-every", 0),
        save_every: number_or(matches, "save-every", 1),
    }
}

/// Returns how datagrams come to an agent without a socket.
fn scene(matches: &ArgMatches<'_>) -> Scene
    ensures { IsScene (rows_of (found_of matches.now)) result }
{
    Scene {
        at: wide_number(matches, "at"),
        fuses: wide_number(matches, "fuses"),
        times: number_or(matches, "times", 1),
    }
}

/// Returns the agent to serve.
fn agent<'a>(matches: &ArgMatches<'a>) -> AgentArgs<'a>
    ensures { IsAgent (rows_of (found_of matches.now)) result }
{
    AgentArgs {
        settings: text(matches, "SETTINGS"),
        boots: small_number(matches, "boots"),
        count: number_or(matches, "count", 0),
    }
}

/// Returns the agent that answers recorded datagrams.
fn answer<'m, 'a>(matches: &'m ArgMatches<'a>) -> AnswerArgs<'m, 'a>
    ensures { IsAnswer (rows_of (found_of matches.now)) result }
{
    AnswerArgs {
        settings: text(matches, "SETTINGS"),
        boots: small_number(matches, "boots"),
        scene: scene(matches),
        named: read_named(matches),
    }
}

/// Returns the station to run.
fn station<'m, 'a>(matches: &'m ArgMatches<'a>) -> StationArgs<'m, 'a>
    requires { AreAllowed (arguments commands.Station) (rows_of (found_of matches.now)) }
    ensures says { IsStation (rows_of (found_of matches.now)) result }
    ensures within { IsWithin (asked.Station result) }
{
    StationArgs {
        settings: text(matches, "SETTINGS"),
        checks: is_on(matches, "check"),
        follows: is_on(matches, "follow-settings"),
        timing: timing(matches),
        stale_after: number_or(matches, "stale-after", USUAL_ROUNDS),
        alarm_after: number_or(matches, "alarm-after", 1),
        log_levels: is_on(matches, "log-levels"),
        out: find_value(matches, "out"),
        http: find_value(matches, "http"),
        http_hosts: all(matches, "http-host"),
        notify: find_value(matches, "notify"),
        labels: find_value(matches, "labels"),
        printed: read_printed(matches),
    }
}

/// Returns `true` if the arguments say how many stations a group has, or the number of the first
/// group.
fn numbers_groups(matches: &ArgMatches<'_>) -> bool
    ensures { result ≡ numbers_groups (rows_of (found_of matches.now)) }
{
    find_value(matches, "stations").is_some() || find_value(matches, "first-group").is_some()
}

/// Returns the station whose settings are printed.
fn survey<'m, 'a>(matches: &'m ArgMatches<'a>) -> SettingsArgs<'m, 'a>
    requires { AreAllowed (arguments commands.Settings) (rows_of (found_of matches.now)) }
    ensures says { IsSurvey (rows_of (found_of matches.now)) result }
    ensures within { IsWithin (asked.Settings result) }
{
    SettingsArgs {
        address: text(matches, "ADDRESS"),
        community: text(matches, "COMMUNITY"),
        station: number_or(matches, "station", 1),
        listen: find_value(matches, "listen"),
        file: find_value(matches, "file"),
        window: number_or(matches, "window", USUAL_WINDOW),
        wait_ms: number_or(matches, "wait-ms", USUAL_WAIT),
        tries: number_or(matches, "tries", USUAL_TRIES),
        peers: all(matches, "peer"),
        only: find_value(matches, "only"),
        up: is_on(matches, "up"),
        part: text(matches, "match"),
        thresholds: find_value(matches, "thresholds"),
        split: find_value(matches, "split"),
        machines: find_value(matches, "machines"),
        stations: number_or(matches, "stations", 1),
        first_group: number_or(matches, "first-group", 1),
        numbered: numbers_groups(matches),
        append: find_value(matches, "append"),
        update: find_value(matches, "update"),
        labels: find_value(matches, "labels"),
        modules: all(matches, "module"),
    }
}

/// Returns the station whose saved windows are reported.
fn saved<'m, 'a>(matches: &'m ArgMatches<'a>) -> ReportArgs<'m, 'a>
    ensures { IsSaved (rows_of (found_of matches.now)) result }
{
    ReportArgs {
        settings: find_value(matches, "SETTINGS"),
        file: find_value(matches, "file"),
        labels: find_value(matches, "labels"),
        printed: read_printed(matches),
    }
}

/// Returns the stations between which windows are carried.
fn carry<'m, 'a>(matches: &'m ArgMatches<'a>) -> CarryArgs<'m, 'a>
    ensures { IsCarry (rows_of (found_of matches.now)) result }
{
    CarryArgs {
        old: text(matches, "OLD"),
        new: text(matches, "NEW"),
        dropped: all(matches, "drop"),
        dry_run: is_on(matches, "dry-run"),
        previous: is_on(matches, "previous"),
    }
}

/// Returns what is printed of recorded responses.
fn replay<'m, 'a>(matches: &'m ArgMatches<'a>) -> ReplayArgs<'m, 'a>
    requires { AreAllowed (arguments commands.Replay) (rows_of (found_of matches.now)) }
    ensures says { Says commands.Replay (rows_of (found_of matches.now)) (asked.Replay result) }
    ensures within { IsWithin (asked.Replay result) }
{
    ReplayArgs {
        size: number_or(matches, "N", USUAL_SIZE),
        reports: reports(matches),
        printed: read_printed(matches),
    }
}

/// Returns what a walk goes through.
fn walk<'m, 'a>(matches: &'m ArgMatches<'a>) -> WalkArgs<'m, 'a>
    requires { AreAllowed (arguments commands.Walk) (rows_of (found_of matches.now)) }
    ensures says { Says commands.Walk (rows_of (found_of matches.now)) (asked.Walk result) }
    ensures within { IsWithin (asked.Walk result) }
{
    WalkArgs {
        request: request(matches),
        bulk: number_or(matches, "bulk", 0),
    }
}

/// Returns what the arguments of a command ask for.
fn asked_by<'m, 'a>(choice: Choice, matches: &'m ArgMatches<'a>) -> Invocation<'m, 'a>
    requires allowed { AreAllowed (arguments choice) (rows_of (found_of matches.now)) }
    requires there { AreThere (arguments choice) (rows_of (found_of matches.now)) }
    ensures says { Says choice (rows_of (found_of matches.now)) result }
    ensures within { IsWithin result }
{
    match choice {
        Choice::Replay => Invocation::Replay(replay(matches)),
        Choice::Get => Invocation::Get(request(matches)),
        Choice::Next => Invocation::Next(request(matches)),
        Choice::Bulk => Invocation::Bulk(BulkArgs {
            request: request(matches),
            non_repeaters: small_number(matches, "non-repeaters").unwrap_or(0),
            max_repetitions: small_number(matches, "max-repetitions").unwrap_or(0),
        }),
        Choice::Walk => Invocation::Walk(walk(matches)),
        Choice::Set => Invocation::Set(SetArgs {
            request: request(matches),
            kind: text(matches, "KIND"),
            value: text(matches, "VALUE"),
        }),
        Choice::Settings => Invocation::Settings(survey(matches)),
        Choice::Mib => Invocation::Mib(MibArgs {
            file: text(matches, "FILE"),
            modules: all(matches, "module"),
        }),
        Choice::SelfTest => Invocation::SelfTest,
        Choice::Agent => Invocation::Agent(agent(matches)),
        Choice::Answer => Invocation::Answer(answer(matches)),
        Choice::Station => Invocation::Station(station(matches)),
        Choice::Report => Invocation::Report(saved(matches)),
        Choice::Carry => Invocation::Carry(carry(matches)),
        Choice::Healthz => Invocation::Healthz(HealthzArgs {
            address: text(matches, "ADDRESS"),
        }),
        Choice::Rehearse => Invocation::Rehearse(RehearseArgs {
            settings: text(matches, "SETTINGS"),
            stations: number_or(matches, "K", 1),
        }),
    }
}

/// Returns what the arguments ask for. Without a command they ask for a replay, all of whose
/// arguments are left out.
pub fn read_command<'m, 'a>(matches: &'m ArgMatches<'a>) -> Invocation<'m, 'a>
    requires { IsParse matches.now }
    ensures says { AsksFor (is_on (codes "version") (rows_of (found_of matches.now)))
        (rows_of (found_of matches.now)) (subcommand_rows_of matches.now) result }
    ensures within { IsWithin result }
{
    if is_on(matches, "version") {
        return Invocation::Version;
    }
    match matches.subcommand() {
        Some((name, below)) => match Choice::from_word(name) {
            Some(choice) => asked_by(choice, below),
            // The command line knows no other commands.
            None => unreachable!(),
        },
        None => Invocation::Replay(replay(matches)),
    }
}
