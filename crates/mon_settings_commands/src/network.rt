//! The settings of a network: a file for each station, and the lists of their addresses.

ghost use Rattle.std.specs.Prelude.{◌≡◌, ◌≤◌, ◌<◌, ◌⊎◌, ◌+◌, ◌*◌, ◌^◌, ◌++◌, ◌∷◌, [], ℕ, Err, IfErr, IfOk, OnOk, Some, codes, length, nat_le, option_copied, option_map, string_bytes};
ghost use Rattle.mon_client.specs.Network.{agents_by};
ghost use Rattle.mon_console.specs.Failure.{IsMemory};
ghost use Rattle.mon_host.specs.Log.{GoesOnBy};
ghost use Rattle.mon_placing.specs.Network.{ArePlaced, IsSeat, seat_at, targets_text, units_text};
ghost use Rattle.mon_settings_commands.specs.Command.{AreNetworkSettings, split_paths_in};
ghost use Rattle.mon_settings_commands.specs.Fitting.{AreFitting};
ghost use Rattle.mon_settings_commands.specs.Network.{AreFilesOf, AreNumbers, AreSeatFiles, Each, IsFileWritten, IsFree, IsList, IsNetwork, IsNetworkOf, IsNetworkPut, IsNoted, IsPathPrinted, IsSeatFile, IsUnported, list_path, targets_path, units_path};
ghost use Rattle.mon_settings_commands.specs.Parts.{HasGroups, HasNoPlan};
ghost use Rattle.mon_settings_commands.specs.Seats.{IsSeatSettings};
ghost use Rattle.mon_settings_commands.specs.Source.{OrMemory, source_in};
ghost use Rattle.mon_settings_commands.specs.declared.network.Output.{Output as AnyOutput};

use crate::asking::ask_agent;
use crate::failing::unported_failure;
use crate::labelling::write_labels;
use crate::machines::machines_at;
use crate::noting::{note_speeds, print_noted};
use crate::parts::{groups_of, require_nothing_at};
use crate::settings::{AgentOptions, Input};
use crate::trying::{Wish, fit};
use mon_cli::SettingsArgs;
use mon_client::Opens;
use mon_console::{Failure, names_of, print, write_file};
use mon_host::Host;
use mon_placing::{Machine, Network, laws, seat_path, targets_text, units_text};
use mon_survey::{Drafted, LongestRound, TargetSize};
use std::alloc::{AllocError, Global};

/// The port at which the stations of a network's group 1 listen.
const PORT: u16 = 16_101;

/// The highest sum of a network's first port, its first group and how many groups it has.
const MAX_SUM: u64 = 65_537;

/// Where the settings of a network go, and the file that lists its machines.
#[derive(Clone, Copy)]
pub(crate) struct SplitPaths<'a> {
    folder: &'a str,
    machines: &'a str,
}

/// Returns where the settings of a network go, if a folder and machines are given.
pub(crate) fn split_paths_of<'a>(words: &SettingsArgs<'_, 'a>) -> Option<SplitPaths<'a>>
    ensures { option_map (λ s. (s.folder.now, s.machines.now)) result
        ≡ split_paths_in (option_copied words.now.split) (option_copied words.now.machines) }
{
    let Some(folder) = words.split else {
        return None;
    };
    match words.machines {
        Some(machines) => Some(SplitPaths { folder, machines }),
        None => None,
    }
}

/// What the arguments say of a network.
#[derive(Clone, Copy)]
pub(crate) struct Layout<'m, 'a> {
    pub(crate) words: &'m SettingsArgs<'m, 'a>,
    pub(crate) paths: SplitPaths<'a>,
}

/// Writes the settings of a network: reads the machines, asks the agent, and places the stations of
/// each group on the machines.
pub(crate) fn print_network<N: Opens, H: Host>(
    alloc: Global,
    host: &mut H,
    net: &N,
    layout: Layout<'_, '_>,
    asked: AgentOptions<'_>,
) -> Result<(), Failure>
    requires { AreNumbers layout.words.now }
    ensures { GoesOnBy (λ log. AreNetworkSettings (agents_by (N.has_opened net.now)
        (N.has_failed net.now) N.Wire.log) layout.entry.words.now asked.entry
        (layout.entry.paths.folder.now, layout.entry.paths.machines.now) log result)
        (H.log host.old) (H.log host.new) }
{
    let Layout { words, paths } = layout;
    let names = names_of(alloc, host, words.modules)?;
    let machines = machines_at(alloc, host, paths.machines, words.stations)?;
    let survey = ask_agent(alloc, host, net, asked)?;
    let input = Input {
        words,
        asked,
        names: &names,
        survey: &survey,
    };
    let files = files_of(paths.folder, words, machines.as_slice());
    write_noted(alloc, host, net, &input, files)
}

/// The files of a network: their folder, and where its stations run.
#[derive(Clone, Copy)]
struct Files<'n> {
    folder: &'n str,
    network: Network<'n>,
}

/// Returns the files of the network that the arguments give over these machines.
fn files_of<'n>(folder: &'n str, words: &SettingsArgs<'_, '_>, machines: &'n [Machine]) -> Files<'n>
    requires numbers { AreNumbers words.now }
    requires some { 1 ≤ length machines.now }
    requires few { length machines.now ≤ 1024 }
    ensures folder { result.folder.now ≡ folder.now }
    ensures network { IsNetworkOf words.now machines.now result.network }
    ensures sound { IsNetwork result.network }
{
    let network = Network {
        machines,
        stations: words.stations,
        first: words.first_group,
        port: PORT,
    };
    Files { folder, network }
}

/// Writes the settings of a network, and says for how many interfaces there is no threshold.
fn write_noted<N: Opens, H: Host>(
    alloc: Global,
    host: &mut H,
    net: &N,
    input: &Input<'_, '_>,
    files: Files<'_>,
) -> Result<(), Failure>
    requires { IsNetwork files.network }
    ensures { GoesOnBy (λ log. IsNoted (agents_by (N.has_opened net.now) (N.has_failed net.now)
        N.Wire.log) (source_in input.now) files.entry.folder.now files.entry.network log result)
        (H.log host.old) (H.log host.new) }
{
    write_network(alloc, host, net, input, files)?;
    note_speeds(host, input);
    Ok(())
}

/// Writes the files of a network, prints their paths, and says of each settings how long a round
/// takes at most. Nothing is written if one of the files is there, or if the agent does not answer
/// a poll of a target.
fn write_network<N: Opens, H: Host>(
    alloc: Global,
    host: &mut H,
    net: &N,
    input: &Input<'_, '_>,
    files: Files<'_>,
) -> Result<(), Failure>
    requires { IsNetwork files.network }
    ensures { GoesOnBy (λ log. IsNetworkPut (agents_by (N.has_opened net.now)
        (N.has_failed net.now) N.Wire.log) (source_in input.now) files.entry.folder.now
        files.entry.network log result)
        (H.log host.old) (H.log host.new) }
{
    let outputs = outputs_of(alloc, net, input, files)?;
    require_free(alloc, host, outputs.as_slice())?;
    write_labels(alloc, host, input, "")?;
    write_outputs(alloc, host, outputs.as_slice())
}

/// A file that is written: its path, its text, and how long a round of its settings takes at most,
/// if it has some.
pub(crate) struct Output {
    path: String,
    text: String,
    longest: Option<LongestRound>,
}

// By hand: where one is let go, a proof has one call and not a drop of each field.
impl Drop for Output {
    fn drop(self) {
        let Output {
            path: _,
            text: _,
            longest: _,
        } = self;
    }
}

/// Requires that nothing is at the path of any of these files.
fn require_free<H: Host>(alloc: Global, host: &mut H, outputs: &[Output]) -> Result<(), Failure>
    ensures { GoesOnBy (λ log. Each IsFree outputs.now log result) (H.log host.old)
        (H.log host.new) }
{
    for place in 0..outputs.len() {
        require_output_free(alloc, host, &outputs[place])?;
    }
    Ok(())
}

/// Requires that nothing is at the path of a file.
fn require_output_free<H: Host>(alloc: Global, host: &mut H, output: &Output) -> Result<(), Failure>
    ensures { GoesOnBy (λ log. IsFree output.now log result) (H.log host.old) (H.log host.new) }
{
    require_nothing_at(alloc, host, output.path.as_str())
}

/// Writes these files in order, prints their paths, and says of each settings how long a round
/// takes at most.
fn write_outputs<H: Host>(alloc: Global, host: &mut H, outputs: &[Output]) -> Result<(), Failure>
    ensures { GoesOnBy (λ log. Each IsFileWritten outputs.now log result) (H.log host.old)
        (H.log host.new) }
{
    for place in 0..outputs.len() {
        write_output(alloc, host, &outputs[place])?;
    }
    Ok(())
}

/// Writes a file, prints its path, and says how long a round of its settings takes at most.
fn write_output<H: Host>(alloc: Global, host: &mut H, output: &Output) -> Result<(), Failure>
    ensures { GoesOnBy (λ log. IsFileWritten output.now log result) (H.log host.old)
        (H.log host.new) }
{
    write_file(alloc, host, output.path.as_str(), output.text.as_bytes())?;
    print_path(alloc, host, output.path.as_str(), output.longest)
}

/// Prints a path, and says how long a round of its settings takes at most, if it has some.
fn print_path<H: Host>(
    alloc: Global,
    host: &mut H,
    path: &str,
    longest: Option<LongestRound>,
) -> Result<(), Failure>
    ensures { GoesOnBy (λ log. OrMemory (IsPathPrinted path.now longest) log result)
        (H.log host.old) (H.log host.new) }
{
    let line = format!(in alloc; "{path}\n")?;
    print_line(alloc, host, path, line.as_bytes(), longest)
}

/// Prints a line of a path, and says how long a round of its settings takes at most, if it has
/// some.
fn print_line<H: Host>(
    alloc: Global,
    host: &mut H,
    path: &str,
    line: &[u8],
    longest: Option<LongestRound>,
) -> Result<(), Failure>
    requires { line.now ≡ path.now ++ 10 ∷ [] }
    ensures { GoesOnBy (λ log. IsPathPrinted path.now longest log result) (H.log host.old)
        (H.log host.new) }
{
    match longest {
        Some(longest) => print_noted(alloc, host, line, path, longest),
        None => print(alloc, host, line),
    }
}

/// Returns the files of a network. The agent answered each poll of their settings.
fn outputs_of<N: Opens>(
    alloc: Global,
    net: &N,
    input: &Input<'_, '_>,
    files: Files<'_>,
) -> Result<Vec<Output>, Failure>
    requires { IsNetwork files.network }
    ensures { AreFilesOf (agents_by (N.has_opened net.now) (N.has_failed net.now) N.Wire.log)
        (source_in input.now) files.entry.folder.now files.entry.network result }
{
    let groups = placed_groups(alloc, input, files.network)?;
    let mut outputs = seats_of(alloc, net, input, files, groups)?;
    add_lists(alloc, &mut outputs, files, groups)?;
    Ok(outputs)
}

/// Returns how many groups of counters there are, all of which have ports.
fn placed_groups(alloc: Global, input: &Input<'_, '_>, network: Network<'_>) -> Result<u32, Failure>
    requires { IsNetwork network }
    ensures last { IfOk result (HasGroups (source_in input.now)) }
    ensures placed { IfOk result (ArePlaced network.entry) }
    ensures refused { IfErr result (λ failure. HasNoPlan (source_in input.now) failure
        ⊎ ((groups : ℕ) × HasGroups (source_in input.now) groups
        × IsUnported network.entry groups failure)) }
{
    let groups = groups_of(alloc, input)?;
    if !have_ports(network, groups) {
        return Err(unported_failure(alloc, network.first, groups));
    }
    Ok(groups)
}

/// Returns `true` if this many groups of a network have ports to listen at.
fn have_ports(network: Network<'_>, groups: u32) -> bool
    ensures { result ≡ nat_le (network.entry.port + network.entry.first + groups) 65537 }
{
    u64::from(network.port) + u64::from(network.first) + u64::from(groups) <= MAX_SUM
}

/// Returns the files of the stations' settings, group by group.
fn seats_of<N: Opens>(
    alloc: Global,
    net: &N,
    input: &Input<'_, '_>,
    files: Files<'_>,
    groups: u32,
) -> Result<Vec<Output>, Failure>
    requires network { IsNetwork files.network }
    requires placed { ArePlaced files.network groups }
    ensures each { IfOk result (λ seats. AreSeatFiles (agents_by (N.has_opened net.now)
        (N.has_failed net.now) N.Wire.log) (source_in input.now) files.entry.folder.now
        files.entry.network 0 seats.items) }
    ensures all { IfOk result (λ seats. length seats.items
        ≡ groups * files.entry.network.stations) }
    ensures refused { IfErr result (λ failure. IsMemory failure ⊎ ((place : ℕ) × AreFitting
        (agents_by (N.has_opened net.now) (N.has_failed net.now) N.Wire.log) input.now.asked
        (IsSeatSettings (source_in input.now) (seat_at files.entry.network place))
        (Err failure))) }
{
    laws::seated();
    let count = groups as usize * files.network.stations as usize;
    let mut seats = Vec::new(alloc);
    for place in 0..count {
        let seat = seat_output(alloc, net, input, files, place)?;
        seats.push(seat)?;
    }
    Ok(seats)
}

/// Returns the file of the settings of the station of this place, whose polls the agent answers.
fn seat_output<N: Opens>(
    alloc: Global,
    net: &N,
    input: &Input<'_, '_>,
    files: Files<'_>,
    place: usize,
) -> Result<Output, Failure>
    requires seated { IsSeat (seat_at files.network place) }
    requires small { place < 2 ^ 32 }
    requires some { 1 ≤ files.network.stations }
    ensures file { IfOk result (IsSeatFile (agents_by (N.has_opened net.now)
        (N.has_failed net.now) N.Wire.log) (source_in input.now) files.entry.folder.now
        files.entry.network place) }
    ensures refused { IfErr result (λ failure. IsMemory failure ⊎ AreFitting
        (agents_by (N.has_opened net.now) (N.has_failed net.now) N.Wire.log) input.now.asked
        (IsSeatSettings (source_in input.now) (seat_at files.entry.network place))
        (Err failure)) }
{
    let seat = files.network.seat(place);
    let path = seat_path(alloc, files.folder, seat)?;
    match fit(alloc, net, input, Wish::Placed(seat), TargetSize::Sixteen) {
        Ok(drafted) => {
            let Drafted {
                text,
                longest,
                targets: _,
            } = drafted;
            Ok(Output {
                path,
                text,
                longest: Some(longest),
            })
        }
        Err(failure) => Err(failure),
    }
}

/// Appends the lists of a network: the targets that Prometheus scrapes, and the stations.
fn add_lists(
    alloc: Global,
    outputs: &mut Vec<Output>,
    files: Files<'_>,
    groups: u32,
) -> Result<(), AllocError>
    requires { ArePlaced files.network groups }
    ensures { OnOk result ((targets : AnyOutput) × (units : AnyOutput)
        × (outputs.new.items ≡ outputs.old.items ++ targets ∷ units ∷ [])
        × IsList (targets_path files.entry.folder.now files.entry.network)
        (targets_text files.entry.network groups) targets
        × IsList (units_path files.entry.folder.now files.entry.network)
        (units_text files.entry.network groups) units) }
{
    let targets = targets_of(alloc, files, groups)?;
    outputs.push(targets)?;
    let units = units_of(alloc, files, groups)?;
    Ok(outputs.push(units)?)
}

/// Returns the file of the targets that Prometheus scrapes.
fn targets_of(alloc: Global, files: Files<'_>, groups: u32) -> Result<Output, AllocError>
    requires { ArePlaced files.network groups }
    ensures { IfOk result (IsList (targets_path files.entry.folder.now files.entry.network)
        (targets_text files.entry.network groups)) }
{
    let path = list_path(alloc, files.folder, "targets", ".json", files.network.first)?;
    let text = targets_text(alloc, files.network, groups)?;
    Ok(list_of(path, text))
}

/// Returns the file of the list of the stations.
fn units_of(alloc: Global, files: Files<'_>, groups: u32) -> Result<Output, AllocError>
    requires { ArePlaced files.network groups }
    ensures { IfOk result (IsList (units_path files.entry.folder.now files.entry.network)
        (units_text files.entry.network groups)) }
{
    let path = list_path(alloc, files.folder, "units", ".txt", files.network.first)?;
    let text = units_text(alloc, files.network, groups)?;
    Ok(list_of(path, text))
}

/// Returns the file of a list at a path.
fn list_of(path: String, text: String) -> Output
    ensures { IsList (string_bytes path) (string_bytes text) result }
{
    Output {
        path,
        text,
        longest: None,
    }
}

/// Returns the path of a list of a network in a folder. If the first group of its stations is not
/// the network's first, the number of that group follows the name.
#[tactic(auto, unfolding(crate::specs::Network::list_path))]
fn list_path(
    alloc: Global,
    folder: &str,
    name: &str,
    ending: &str,
    first: u32,
) -> Result<String, AllocError>
    ensures { IfOk result (λ path. string_bytes path
        ≡ list_path folder.now name.now ending.now first) }
{
    if first == 1 {
        return format!(in alloc; "{folder}/{name}{ending}");
    }
    format!(in alloc; "{folder}/{name}-{first}{ending}")
}
