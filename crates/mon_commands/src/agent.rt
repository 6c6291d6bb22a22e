//! The commands of an agent: `agent` and `answer`.

ghost use Rattle.std.specs.Prelude.{◌≡◌, IfErr, IfOk, Some, option_copied};
ghost use Rattle.mon_agent.specs.State.{policy_of, settings_of};
ghost use Rattle.mon_serving.specs.AtPort.{Happens};
ghost use Rattle.mon_serving.specs.Network.{ports_by};
ghost use Rattle.mon_serving.specs.Served.{AnswersIt, stands};
ghost use Rattle.mon_console.specs.Failure.{IsUnopened};
ghost use Rattle.mon_console.specs.Printing.{shown_names};
ghost use Rattle.mon_host.specs.Log.{GoesOnBy};
ghost use Rattle.mon_udp.specs.Addr.{addr_text};
ghost use Rattle.mon_commands.specs.Agent.{AreAgentSettings, AreAnswers, IsAgentIn, IsAnswering, IsFused, IsMomentOf, IsSimulated, PrintsAnswers, with_boots};
ghost use Rattle.mon_commands.specs.Serving.{IsDeafFor, IsNextServed, IsServedAt, IsServing, IsServingAgent, port_lines, untaken_lines};

use mon_agent::Agent;
use mon_answers::{Scene, answer_lines};
use mon_app::AppFault;
use mon_cli::{AgentArgs, AnswerArgs, Named};
use mon_console::{Failure, names_of, print, read_input_text, read_text, settings_failure};
use mon_host::{Host, Level};
use mon_mib::{Device, FuseDevice, Moment, SimDevice};
use mon_serving::{Buffers, Listens, Port, Served, serve_one};
use mon_settings::{AgentSettings, SettingsKind, read_agent};
use mon_smi::{Labels, Names};
use mon_udp::Addr;
use std::alloc::{AllocError, Global};
use std::net::SocketAddr;

/// The greatest time of a device's life, in hundredths of a second.
const MOMENTS: &str = "a moment up to 214748364799";

/// Serves the agent of the settings, as many datagrams as the arguments say.
pub fn serve_agent<L: Listens, H: Host>(
    alloc: Global,
    host: &mut H,
    net: &L,
    words: AgentArgs<'_>,
) -> Result<(), Failure>
    ensures { GoesOnBy (λ log. IsServingAgent (ports_by (L.has_opened net.now)
        (L.has_failed net.now) L.Port.log L.Port.failures)
        words.entry log result) (H.log host.old) (H.log host.new) }
{
    let told = read_agent_settings(alloc, host, words.settings, words.boots)?;
    let service = Service {
        listen: told.listen,
        count: words.count,
    };
    let mut agent = simulated(told)?;
    serve_at(alloc, host, net, service, &mut agent)
}

/// Where an agent is served, and how many datagrams.
#[derive(Clone, Copy)]
struct Service {
    listen: Addr,
    count: u32,
}

/// The agent of the settings over a device in memory.
fn simulated(told: AgentSettings) -> Result<Agent<SimDevice>, Failure>
    ensures { IsSimulated told result }
{
    let device = SimDevice::new(told.interfaces, told.texts)?;
    Ok(Agent::new(told.policy, told.settings, device))
}

/// Opens a port for the agent, says its address, and serves the agent at it.
fn serve_at<L: Listens, H: Host>(
    alloc: Global,
    host: &mut H,
    net: &L,
    service: Service,
    agent: &mut Agent<SimDevice>,
) -> Result<(), Failure>
    ensures { GoesOnBy (λ log. IsServedAt (ports_by (L.has_opened net.now)
        (L.has_failed net.now) L.Port.log L.Port.failures)
        service.listen service.count agent.old log result) (H.log host.old) (H.log host.new) }
{
    let (mut port, at) = listen_at(alloc, net, service.listen)?;
    tell_port(host, at);
    serve_all(alloc, host, &mut port, agent, service.count)
}

/// Opens a port at an address, and returns the port's own address too.
fn listen_at<L: Listens>(
    alloc: Global,
    net: &L,
    listen: Addr,
) -> Result<(L::Port, SocketAddr), Failure>
    ensures opened { IfOk result (λ given. L.has_opened net.now listen given.0 given.1) }
    ensures unopened { IfErr result (IsDeafFor (L.has_failed net.now) listen) }
{
    match net.listen(listen) {
        Ok(given) => Ok(given),
        Err(fault) => Err(port_failure(alloc, listen, fault)),
    }
}

/// Says where an agent listens.
fn tell_port<H: Host>(host: &mut H, at: SocketAddr)
    ensures { GoesOnBy (λ log. log ≡ port_lines at) (H.log host.old) (H.log host.new) }
{
    host.note(Level::Info, format_args!("snmpmon: agent at {at}\n"));
}

/// Serves the agent this many datagrams, and reports each for which memory ran out.
fn serve_all<P: Port, D: Device + Drop, H: Host>(
    alloc: Global,
    host: &mut H,
    port: &mut P,
    agent: &mut Agent<D>,
    count: u32,
) -> Result<(), Failure>
    ensures { let Answers = AnswersIt D.held D.failed D.refuses
        (policy_of agent.old) (settings_of agent.old) in
        Happens (λ at_port. GoesOnBy (λ log. IsServing Answers count (stands agent.old)
        (stands agent.new) at_port log result) (H.log host.old) (H.log host.new))
        (P.log port.old) (P.log port.new) (P.failures port.old) (P.failures port.new) }
{
    let mut room = Buffers::new(alloc)?;
    for _ in 0..count {
        serve_next(alloc, host, port, agent, &mut room)?;
    }
    Ok(())
}

/// Serves the agent the next datagram, and reports it if memory ran out for it.
fn serve_next<P: Port, D: Device + Drop, H: Host>(
    alloc: Global,
    host: &mut H,
    port: &mut P,
    agent: &mut Agent<D>,
    room: &mut Buffers,
) -> Result<(), AppFault>
    ensures served { let Answers = AnswersIt D.held D.failed D.refuses
        (policy_of agent.old) (settings_of agent.old) in
        Happens (λ at_port. GoesOnBy (λ log. IsNextServed Answers (stands agent.old)
        (stands agent.new) at_port log result) (H.log host.old) (H.log host.new))
        (P.log port.old) (P.log port.new) (P.failures port.old) (P.failures port.new) }
    ensures policy { policy_of agent.new ≡ policy_of agent.old }
    ensures settings { settings_of agent.new ≡ settings_of agent.old }
{
    let served = serve_one(alloc, port, agent, room)?;
    tell_untaken(host, served);
    Ok(())
}

/// Reports a datagram for which memory ran out.
fn tell_untaken<H: Host>(host: &mut H, served: Served)
    ensures { GoesOnBy (λ log. log ≡ untaken_lines served) (H.log host.old) (H.log host.new) }
{
    match served {
        Served::Answered => {}
        Served::Untaken => Failure::from(AppFault::OutOfMemory).report(host, Level::Warning),
    }
}

/// Returns why an agent does not listen at its address.
fn port_failure(alloc: Global, listen: Addr, fault: AppFault) -> Failure
    ensures { IsUnopened (Some (addr_text listen)) fault result }
{
    match fault {
        AppFault::SocketFault { reason } => { Failure::without_socket(alloc, listen, reason) }
        _ => Failure::from(fault),
    }
}

/// What the file of an agent's settings says, with the boots that may be given in their place.
fn read_agent_settings<H: Host>(
    alloc: Global,
    host: &mut H,
    path: &str,
    boots: Option<i32>,
) -> Result<AgentSettings, Failure>
    ensures { GoesOnBy (λ log. AreAgentSettings path.now boots log result)
        (H.log host.old) (H.log host.new) }
{
    let text = read_text(alloc, host, path)?;
    told_in(alloc, path, &text, boots)
}

/// What a text says as an agent's settings, with the boots that may be given in their place.
fn told_in(
    alloc: Global,
    path: &str,
    text: &str,
    boots: Option<i32>,
) -> Result<AgentSettings, Failure>
    ensures { IsAgentIn boots text.now result }
{
    match read_agent(alloc, text) {
        Ok(told) => Ok(with_boots(told, boots)),
        Err(fault) => Err(settings_failure(alloc, SettingsKind::Agent, path, text, fault)),
    }
}

/// Settings with these boots, if they are given.
fn with_boots(told: AgentSettings, boots: Option<i32>) -> AgentSettings
    ensures { result ≡ with_boots boots told }
{
    let mut told = told;
    if let Some(boots) = boots {
        told.settings.boots = boots;
    }
    told
}

/// Prints what the agent of the settings answers to the datagrams on standard input.
pub fn print_answers<H: Host>(
    alloc: Global,
    host: &mut H,
    words: AnswerArgs<'_, '_>,
) -> Result<(), Failure>
    ensures { GoesOnBy (λ log. IsAnswering words.entry log result)
        (H.log host.old) (H.log host.new) }
{
    let AnswerArgs { scene, named, .. } = words;
    let told = read_agent_settings(alloc, host, words.settings, words.boots)?;
    let mut agent = fused_agent(told, scene.fuses)?;
    let at = moment_of(alloc, scene.at)?;
    print_told(alloc, host, &mut agent, (at, scene.times), named)
}

/// Prints what an agent answers to the datagrams on standard input, which arrive at a time and so
/// many times each, with names by these modules.
fn print_told<D: Device + Drop, H: Host>(
    alloc: Global,
    host: &mut H,
    agent: &mut Agent<D>,
    arrivals: (Moment, u32),
    named: Named<'_, '_>,
) -> Result<(), Failure>
    ensures { let Answers = AnswersIt D.held D.failed D.refuses
        (policy_of agent.old) (settings_of agent.old) in
        GoesOnBy (λ log. PrintsAnswers Answers (stands agent.old) arrivals named.entry log result)
        (H.log host.old) (H.log host.new) }
{
    let names = names_of(alloc, host, named.modules)?;
    let text = read_input_text(alloc, host)?;
    let names = lent_if(named.shown, &names);
    let lines = told_answers(alloc, agent, arrivals, names, &text)?;
    print(alloc, host, lines.as_bytes())
}

/// Names, if they are shown.
fn lent_if(shown: bool, names: &Names) -> Option<&Names>
    ensures { option_copied result ≡ shown_names shown names.now }
{
    if shown { Some(names) } else { None }
}

/// The agent of the settings over a device that fails the changes of the fuses.
fn fused_agent(told: AgentSettings, fuses: u64) -> Result<Agent<FuseDevice<SimDevice>>, Failure>
    ensures { IsFused told fuses result }
{
    let simulated = SimDevice::new(told.interfaces, told.texts)?;
    let device = FuseDevice::new(simulated, fuses);
    Ok(Agent::new(told.policy, told.settings, device))
}

/// Makes the time of this many hundredths of a second.
fn moment_of(alloc: Global, hundredths: u64) -> Result<Moment, Failure>
    ensures { IsMomentOf hundredths result }
{
    match Moment::new(hundredths) {
        Some(at) => Ok(at),
        None => Err(Failure::text(alloc, "--at", MOMENTS)),
    }
}

/// Answers the datagrams of a text, which arrive at a time, each as often as `arrivals` says.
/// Returns what is printed, with the names that are given.
fn told_answers<D: Device + Drop>(
    alloc: Global,
    agent: &mut Agent<D>,
    arrivals: (Moment, u32),
    names: Option<&Names>,
    text: &str,
) -> Result<String, Failure>
    ensures { let Answers = AnswersIt D.held D.failed D.refuses
        (policy_of agent.old) (settings_of agent.old) in
        AreAnswers Answers (stands agent.old) arrivals
        (option_copied names.entry) text.now result }
{
    let (at, times) = arrivals;
    let labels = labels_of(alloc, names)?;
    let scene = Scene {
        at,
        times,
        labels: labels.as_ref(),
    };
    Ok(answer_lines(alloc, agent, text, &scene)?)
}

/// The labels of names, if there are any.
fn labels_of<'n>(alloc: Global, names: Option<&'n Names>) -> Result<Option<Labels<'n>>, AllocError>
    ensures { IfOk result (λ labels. labels ≡ option_copied names.entry) }
{
    match names {
        Some(names) => Ok(Some(names.labels(alloc)?)),
        None => Ok(None),
    }
}
