//! The command `settings`: asks an agent for its engine, walks its tables of interfaces, and prints
//! the settings of a station that polls it.

ghost use Rattle.std.specs.Prelude.{◌≡◌, ◌<◌, ◌≤◌, [], IfErr, IfOk, option_copied, string_bytes};
ghost use Rattle.mon_client.specs.Network.{agents_by};
ghost use Rattle.mon_host.specs.Log.{GoesOnBy};
ghost use Rattle.mon_settings_commands.specs.Appended.{IsAlone, IsAppendedOf, IsLonger, IsPutLonger};
ghost use Rattle.mon_settings_commands.specs.AgentOptions.{IsAsked};
ghost use Rattle.mon_settings_commands.specs.Command.{AreFreshSettings, AreLongerSettings, AreNewSettings, AreNewTexts, ArePutTexts, AreSettings, AreSettingsFor, IsWhole, split_paths_in};
ghost use Rattle.mon_settings_commands.specs.Network.{AreNumbers};
ghost use Rattle.mon_settings_commands.specs.Settings.{IsDraftPrinted, IsSettingsOf, up_of};
ghost use Rattle.mon_settings_commands.specs.Source.{source_in};
ghost use Rattle.mon_settings_commands.specs.Texts.{AreTexts, IsOfOptions};
ghost use Rattle.mon_settings_commands.specs.Updated.{IsUpdatedOf, IsUpdatedOn};

use crate::asking::{Survey, ask_agent};
use crate::existing::{Existing, existing_in};
use crate::failing::{survey_failure, together_failure};
use crate::labelling::{old_labels, write_labels};
use crate::network::{Layout, print_network, split_paths_of};
use crate::noting::{note_speeds, print_noted};
use crate::parts::write_parts;
use crate::trying::{Wish, fit};
use crate::updating::print_updated;
use crate::words::{
    given_or, kinds_of, percent_of, put_address, put_file, put_peers, require_peers,
};
use mon_cli::SettingsArgs;
use mon_client::Opens;
use mon_console::{AgentAt, Failure, agent_at, community, names_of};
use mon_host::Host;
use mon_smi::Names;
use mon_survey::{
    Choice, Drafted, Kinds, Known, Options, Peer, Surveyed, TargetSize, append, settings, update,
};
use std::alloc::Global;

/// Where a station listens if the arguments do not say.
const LISTEN: &str = "0.0.0.0:16101";

/// A station's file if the arguments do not say.
pub(crate) const FILE: &str = "station.mon";

/// Prints the settings of a station that polls the agent that the arguments name, writes those of
/// several stations or of a network, or prints settings that are there with the agent's targets at
/// their end, or with its interfaces as they are now. Nothing is printed or written unless all was
/// answered, each text was read back, and the agent answered a poll of each target that polls it.
/// Of each text a line on standard error says how long a round takes at most, by what was read
/// back.
pub fn print_settings<N: Opens, H: Host>(
    alloc: Global,
    host: &mut H,
    net: &N,
    words: SettingsArgs<'_, '_>,
) -> Result<(), Failure>
    requires { AreNumbers words }
    ensures { GoesOnBy (λ log. AreSettings (agents_by (N.has_opened net.now) (N.has_failed net.now)
        N.Wire.log)
        words.entry log result)
        (H.log host.old) (H.log host.new) }
{
    let asked = asked_of(alloc, &words)?;
    match words.update {
        Some(path) => {
            let addition = Addition {
                words: &words,
                path,
            };
            print_updated(alloc, host, net, addition, asked)
        }
        None => print_others(alloc, host, net, &words, asked),
    }
}

/// Prints settings that are there with the agent's targets at their end, or new ones.
fn print_others<N: Opens, H: Host>(
    alloc: Global,
    host: &mut H,
    net: &N,
    words: &SettingsArgs<'_, '_>,
    asked: AgentOptions<'_>,
) -> Result<(), Failure>
    requires { AreNumbers words.now }
    ensures { GoesOnBy (λ log. AreSettingsFor (agents_by (N.has_opened net.now)
        (N.has_failed net.now) N.Wire.log)
        words.now asked.entry (option_copied words.now.append) log result)
        (H.log host.old) (H.log host.new) }
{
    match words.append {
        Some(path) => {
            let addition = Addition { words, path };
            print_appended(alloc, host, net, addition, asked)
        }
        None => print_fresh(alloc, host, net, words, asked),
    }
}

/// Prints or writes new settings: those of a network if a folder and machines are given.
fn print_fresh<N: Opens, H: Host>(
    alloc: Global,
    host: &mut H,
    net: &N,
    words: &SettingsArgs<'_, '_>,
    asked: AgentOptions<'_>,
) -> Result<(), Failure>
    requires { AreNumbers words.now }
    ensures { GoesOnBy (λ log. AreFreshSettings (agents_by (N.has_opened net.now)
        (N.has_failed net.now) N.Wire.log)
        words.now asked.entry (split_paths_in (option_copied words.now.split)
        (option_copied words.now.machines)) log result)
        (H.log host.old) (H.log host.new) }
{
    match split_paths_of(words) {
        Some(paths) => print_network(alloc, host, net, Layout { words, paths }, asked),
        None => print_new(alloc, host, net, words, asked),
    }
}

/// What the arguments say of the agent, once it was read.
#[derive(Clone, Copy)]
pub(crate) struct AgentOptions<'a> {
    pub(crate) agent: AgentAt<'a>,
    pub(crate) community: &'a [u8],
    pub(crate) kinds: Kinds,
    /// Which part of an interface's speed raises an alarm; 0 for none.
    pub(crate) percent: u8,
}

/// Reads what the arguments say of the agent, and requires that each peer has a number and an
/// address, before the agent is asked.
fn asked_of<'a>(alloc: Global, words: &SettingsArgs<'_, 'a>) -> Result<AgentOptions<'a>, Failure>
    ensures { IsAsked words.now result }
{
    let asked = AgentOptions {
        agent: agent_at(alloc, words.address)?,
        community: community(alloc, words.community)?,
        kinds: kinds_of(alloc, words.only)?,
        percent: percent_of(alloc, words.thresholds)?,
    };
    require_peers(alloc, words.peers)?;
    Ok(asked)
}

/// Requires that neither several files nor modules are asked for together with settings that are
/// there.
fn require_alone(alloc: Global, words: &SettingsArgs<'_, '_>) -> Result<(), Failure>
    ensures { IsAlone words.now result }
{
    if words.split.is_some() || !words.modules.is_empty() {
        return Err(together_failure(alloc));
    }
    Ok(())
}

/// Prints the settings of a station that polls the agent, or writes those of several.
fn print_new<N: Opens, H: Host>(
    alloc: Global,
    host: &mut H,
    net: &N,
    words: &SettingsArgs<'_, '_>,
    asked: AgentOptions<'_>,
) -> Result<(), Failure>
    ensures { GoesOnBy (λ log. AreNewSettings (agents_by (N.has_opened net.now)
        (N.has_failed net.now) N.Wire.log)
        words.now asked.entry log result)
        (H.log host.old) (H.log host.new) }
{
    let names = names_of(alloc, host, words.modules)?;
    let survey = ask_agent(alloc, host, net, asked)?;
    let input = Input {
        words,
        asked,
        names: &names,
        survey: &survey,
    };
    write_new(alloc, host, net, &input)
}

/// Prints or writes new settings, and says for how many interfaces there is no threshold.
fn write_new<N: Opens, H: Host>(
    alloc: Global,
    host: &mut H,
    net: &N,
    input: &Input<'_, '_>,
) -> Result<(), Failure>
    ensures { GoesOnBy (λ log. AreNewTexts (agents_by (N.has_opened net.now) (N.has_failed net.now)
        N.Wire.log)
        (source_in input.now) log result)
        (H.log host.old) (H.log host.new) }
{
    put_texts(alloc, host, net, input)?;
    note_speeds(host, input);
    Ok(())
}

/// Prints the settings of a station, or writes those of several into a folder.
fn put_texts<N: Opens, H: Host>(
    alloc: Global,
    host: &mut H,
    net: &N,
    input: &Input<'_, '_>,
) -> Result<(), Failure>
    ensures { GoesOnBy (λ log. ArePutTexts (agents_by (N.has_opened net.now) (N.has_failed net.now)
        N.Wire.log)
        (source_in input.now) log result)
        (H.log host.old) (H.log host.new) }
{
    match input.words.split {
        Some(folder) => write_parts(alloc, host, net, input, folder),
        None => print_whole(alloc, host, net, input),
    }
}

/// What settings are written from.
#[derive(Clone, Copy)]
pub(crate) struct Input<'m, 'a> {
    pub(crate) words: &'m SettingsArgs<'m, 'a>,
    pub(crate) asked: AgentOptions<'a>,
    pub(crate) names: &'m Names,
    pub(crate) survey: &'m Survey,
}

/// Prints the settings of one station, whose polls the agent answers.
fn print_whole<N: Opens, H: Host>(
    alloc: Global,
    host: &mut H,
    net: &N,
    input: &Input<'_, '_>,
) -> Result<(), Failure>
    ensures { GoesOnBy (λ log. IsWhole (agents_by (N.has_opened net.now) (N.has_failed net.now)
        N.Wire.log)
        (source_in input.now) log result)
        (H.log host.old) (H.log host.new) }
{
    let drafted = fit(alloc, net, input, Wish::New(None), TargetSize::Sixteen)?;
    write_labels(alloc, host, input, "")?;
    print_drafted(alloc, host, &drafted)
}

/// Prints settings, and says how long a round of them takes at most.
pub(crate) fn print_drafted<H: Host>(
    alloc: Global,
    host: &mut H,
    drafted: &Drafted,
) -> Result<(), Failure>
    ensures { GoesOnBy (λ log. IsDraftPrinted drafted.now log result)
        (H.log host.old) (H.log host.new) }
{
    let text = drafted.text.as_bytes();
    print_noted(alloc, host, text, "these settings", drafted.longest)
}

/// What arguments say of settings that are there, and the path of these settings.
#[derive(Clone, Copy)]
pub(crate) struct Addition<'m, 'a> {
    pub(crate) words: &'m SettingsArgs<'m, 'a>,
    pub(crate) path: &'m str,
}

/// Prints settings that are there with the agent's targets at their end.
fn print_appended<N: Opens, H: Host>(
    alloc: Global,
    host: &mut H,
    net: &N,
    addition: Addition<'_, '_>,
    asked: AgentOptions<'_>,
) -> Result<(), Failure>
    ensures { GoesOnBy (λ log. AreLongerSettings (agents_by (N.has_opened net.now)
        (N.has_failed net.now) N.Wire.log)
        addition.entry.words.now asked.entry addition.entry.path.now log result)
        (H.log host.old) (H.log host.new) }
{
    let Addition { words, path } = addition;
    require_alone(alloc, words)?;
    let existing = existing_in(alloc, host, path)?;
    let old = old_labels(alloc, host, words.labels)?;
    let survey = ask_agent(alloc, host, net, asked)?;
    let input = Input {
        words,
        asked,
        names: &existing.names,
        survey: &survey,
    };
    let wish = Wish::Longer(&existing);
    let drafted = fit(alloc, net, &input, wish, TargetSize::Sixteen)?;
    print_longer(alloc, host, &input, &drafted, old.as_str())
}

/// Prints settings with the agent's targets at their end, and says for how many of its interfaces
/// there is no threshold.
fn print_longer<H: Host>(
    alloc: Global,
    host: &mut H,
    input: &Input<'_, '_>,
    drafted: &Drafted,
    old: &str,
) -> Result<(), Failure>
    ensures { GoesOnBy (λ log. IsLonger (source_in input.now) drafted.now old.now log result)
        (H.log host.old) (H.log host.new) }
{
    put_longer(alloc, host, input, drafted, old)?;
    note_speeds(host, input);
    Ok(())
}

/// Prints settings with the agent's targets at their end, and writes labels after the old ones.
fn put_longer<H: Host>(
    alloc: Global,
    host: &mut H,
    input: &Input<'_, '_>,
    drafted: &Drafted,
    old: &str,
) -> Result<(), Failure>
    ensures { GoesOnBy (λ log. IsPutLonger (source_in input.now) drafted.now old.now log result)
        (H.log host.old) (H.log host.new) }
{
    write_labels(alloc, host, input, old)?;
    print_drafted(alloc, host, drafted)
}

impl<'m, 'a> Input<'m, 'a> {
    /// Which counters are polled.
    pub(crate) fn choice(&self, group: Option<u32>) -> Choice<'a>
        ensures kinds { result.kinds ≡ self.now.asked.kinds }
        ensures up { result.up ≡ self.now.words.now.up }
        ensures part { result.part.now ≡ self.now.words.now.part.now }
        ensures group { result.group ≡ group }
    {
        Choice {
            kinds: self.asked.kinds,
            up: self.words.up,
            part: self.words.part.as_bytes(),
            group,
        }
    }

    /// The agent that answered.
    pub(crate) fn agent(&self) -> Surveyed<'m>
        ensures engine { result.engine.now ≡ self.now.survey.now.engine.items }
        ensures answers { result.answers.now ≡ self.now.survey.now.answers }
    {
        Surveyed {
            engine: self.survey.engine.as_slice(),
            answers: &self.survey.answers,
        }
    }
}

/// The texts that options lend, next to those of the arguments: where a station and its peers are,
/// and its file.
pub(crate) struct Texts {
    pub(crate) listen: String,
    pub(crate) file: String,
    pub(crate) peers: Vec<Peer>,
}

// By hand: where one is let go, a proof has one call and not a drop of each field.
impl Drop for Texts {
    fn drop(self) {
        let Texts {
            listen: _,
            file: _,
            peers: _,
        } = self;
    }
}

impl Texts {
    /// Returns empty texts.
    pub(crate) fn new(alloc: Global) -> Self
        ensures listen { string_bytes result.listen ≡ [] }
        ensures file { string_bytes result.file ≡ [] }
        ensures peers { result.peers.items ≡ [] }
    {
        Texts {
            listen: String::new(alloc),
            file: String::new(alloc),
            peers: Vec::new(alloc),
        }
    }
}

/// The texts that the arguments give, with ports and the file's name counted up.
fn texts_of(alloc: Global, words: &SettingsArgs<'_, '_>, up: u32) -> Result<Texts, Failure>
    requires { up < 65536 }
    ensures texts { IfOk result (AreTexts words.now up) }
    ensures refused { IfErr result IsOfOptions }
{
    let mut texts = Texts::new(alloc);
    put_address(alloc, &mut texts.listen, given_or(words.listen, LISTEN), up)?;
    put_file(&mut texts.file, given_or(words.file, FILE), up)?;
    put_peers(alloc, &mut texts.peers, words.peers, up)?;
    Ok(texts)
}

/// What options lend, and the size of targets.
#[derive(Clone, Copy)]
pub(crate) struct Lent<'p> {
    address: &'p str,
    community: &'p str,
    modules: &'p [&'p str],
    texts: &'p Texts,
    size: TargetSize,
}

/// Lends texts for as long as all of them live.
pub(crate) fn lend<'p>(
    address: &'p str,
    community: &'p str,
    modules: &'p [&'p str],
    texts: &'p Texts,
    size: TargetSize,
) -> Lent<'p>
    ensures address { result.address.now ≡ address.now }
    ensures community { result.community.now ≡ community.now }
    ensures modules { result.modules.now ≡ modules.now }
    ensures texts { result.texts.now ≡ texts.now }
    ensures size { result.size ≡ size }
{
    Lent {
        address,
        community,
        modules,
        texts,
        size,
    }
}

/// The settings' options. This percentage of a speed, up to 100, raises an alarm.
pub(crate) fn options_of<'p>(
    words: &SettingsArgs<'_, '_>,
    percent: u8,
    lent: Lent<'p>,
) -> Options<'p>
    ensures most { result.percent ≤ 100 }
    ensures same { percent ≤ 100 → result.percent ≡ percent }
    ensures station { result.station ≡ words.now.station }
    ensures window { result.window ≡ words.now.window }
    ensures wait_ms { result.wait_ms ≡ words.now.wait_ms }
    ensures tries { words.now.tries ≤ 8 → result.tries ≡ words.now.tries }
    ensures listen { result.listen.now ≡ string_bytes lent.entry.texts.now.listen }
    ensures file { result.file.now ≡ string_bytes lent.entry.texts.now.file }
    ensures peers { result.peers.now ≡ lent.entry.texts.now.peers.items }
    ensures modules { result.modules.now ≡ lent.entry.modules.now }
    ensures address { result.address.now ≡ lent.entry.address.now }
    ensures community { result.community.now ≡ lent.entry.community.now }
    ensures size { result.size ≡ lent.entry.size }
{
    Options {
        station: words.station,
        listen: lent.texts.listen.as_str(),
        file: lent.texts.file.as_str(),
        window: words.window,
        wait_ms: words.wait_ms,
        modules: lent.modules,
        peers: &lent.texts.peers,
        address: lent.address,
        community: lent.community,
        tries: words.tries.min(8) as u8,
        size: lent.size,
        percent: percent.min(100),
    }
}

/// The settings of a station that polls all counters, or those of a group, by which its ports and
/// the name of its file are counted up, by targets of this size.
pub(crate) fn settings_of(
    alloc: Global,
    input: &Input<'_, '_>,
    group: Option<u32>,
    size: TargetSize,
) -> Result<Drafted, Failure>
    requires { up_of group < 65536 }
    ensures { IsSettingsOf (source_in input.now) group size result }
{
    let texts = texts_of(alloc, input.words, group.unwrap_or(0))?;
    let words = input.words;
    let lent = lend(words.address, words.community, words.modules, &texts, size);
    let options = options_of(words, input.asked.percent, lent);
    match settings(
        alloc,
        input.names,
        &input.agent(),
        &options,
        &input.choice(group),
    ) {
        Ok(drafted) => Ok(drafted),
        Err(fault) => Err(survey_failure(alloc, input.asked.agent.word, fault)),
    }
}

/// Settings with the agent's targets, of this size, at their end.
pub(crate) fn appended(
    alloc: Global,
    input: &Input<'_, '_>,
    existing: &Existing,
    size: TargetSize,
) -> Result<Drafted, Failure>
    ensures { IsAppendedOf (source_in input.now) existing.now size result }
{
    let texts = texts_of(alloc, input.words, 0)?;
    let words = input.words;
    let lent = lend(words.address, words.community, words.modules, &texts, size);
    let options = options_of(words, input.asked.percent, lent);
    match append(
        alloc,
        &existing.lent(),
        &input.agent(),
        &options,
        &input.choice(None),
    ) {
        Ok(drafted) => Ok(drafted),
        Err(fault) => Err(survey_failure(alloc, input.asked.agent.word, fault)),
    }
}

/// Settings that are there, and the names that the agent's interfaces had.
#[derive(Clone, Copy)]
pub(crate) struct News<'e> {
    pub(crate) existing: &'e Existing,
    pub(crate) known: &'e [Known],
}

/// Settings with the agent's interfaces as they are now, with targets of this size for new ones.
pub(crate) fn updated(
    alloc: Global,
    input: &Input<'_, '_>,
    news: News<'_>,
    size: TargetSize,
) -> Result<Drafted, Failure>
    ensures { IsUpdatedOf (source_in input.now) news.entry.existing.now news.entry.known.now size
        result }
{
    let texts = texts_of(alloc, input.words, 0)?;
    let words = input.words;
    let lent = lend(words.address, words.community, words.modules, &texts, size);
    let options = options_of(words, input.asked.percent, lent);
    updated_on(alloc, input, news, &options)
}

/// Settings with the agent's interfaces as they are now, by these options.
fn updated_on(
    alloc: Global,
    input: &Input<'_, '_>,
    news: News<'_>,
    options: &Options<'_>,
) -> Result<Drafted, Failure>
    requires { options.now.percent ≤ 100 }
    ensures { IsUpdatedOn (source_in input.now) news.entry.existing.now news.entry.known.now
        options.now result }
{
    match update(
        alloc,
        &news.existing.lent(),
        &input.renamed(news.known),
        options,
        &input.choice(None),
    ) {
        Ok(drafted) => Ok(drafted),
        Err(fault) => Err(survey_failure(alloc, input.asked.agent.word, fault)),
    }
}
