//! The newest datagrams of targets.

ghost use Rattle.std.specs.Prelude.{◌≡◌, ◌∷◌, [], IfOk, OnErr, OnOk, option_map};
ghost use Rattle.mon_reasons.specs.NewestDatagrams.{message_in, message_with, newest_of, other_engine, other_engine_in, reads_as};
ghost use Rattle.mon_udp.specs.Counts.{failed_after};
ghost use Rattle.mon_reasons.specs.Reason.{reason_of};

use crate::reason::{Reason, has_value, other_than, reason_of};
use mon_ber::Octets;
use mon_board::Watched;
use mon_pdu::{Message, PduFault, read_message};
use mon_sample::Sample;
use mon_udp::{Addr, failed_after};
use std::alloc::{AllocError, Global};

/// A datagram, and the address that it came from.
#[derive(Drop)]
pub(crate) struct Datagram {
    pub(crate) from: Addr,
    pub(crate) octets: Octets,
}

/// The newest datagrams of targets, the newest first.
#[derive(Drop)]
pub struct NewestDatagrams {
    datagrams: Vec<Datagram>,
    unkept: u64,
}

impl NewestDatagrams {
    /// Returns no datagrams.
    pub fn new(alloc: Global) -> Self
        ensures datagrams { result.datagrams.items ≡ [] }
        ensures unkept { result.unkept ≡ 0 }
    {
        NewestDatagrams {
            datagrams: Vec::new(alloc),
            unkept: 0,
        }
    }

    /// Returns how many datagrams were not kept since memory was refused, at most 2^64 - 1.
    pub fn unkept(&self) -> u64
        ensures { result ≡ self.now.unkept }
    {
        self.unkept
    }

    /// Keeps a datagram from this address as the newest one. Of this address at most `most` are
    /// kept, and the older ones are let go; those of other addresses stay.
    ///
    /// # Errors
    /// `AllocError` if memory is refused: then it is not kept, which is counted.
    pub fn keep(
        &mut self,
        alloc: Global,
        from: Addr,
        octets: &[u8],
        most: usize,
    ) -> Result<(), AllocError>
        ensures kept { OnOk result (self.new.datagrams.items
            ≡ newest_of from most (record { from = from; octets = octets.now }
            ∷ self.old.datagrams.items)) }
        ensures refused { OnErr result (self.new.datagrams.items ≡ self.old.datagrams.items) }
        ensures unkept { self.new.unkept ≡ failed_after result self.old.unkept }
    {
        let kept = keep_newest(&mut self.datagrams, alloc, from, octets, most);
        self.unkept = failed_after(self.unkept, &kept);
        kept
    }

    /// Returns why the newest message from this address that has a value of the instance gave it no
    /// sample newer than this one. Returns `None` if there is no such message, or no reason in it.
    ///
    /// # Errors
    /// `AllocError` if memory is refused.
    pub fn reason(
        &self,
        alloc: Global,
        from: Addr,
        watched: &Watched,
        newest: Option<Sample>,
    ) -> Result<Option<Reason>, AllocError>
        ensures { IfOk result (λ r. r ≡ reason_of watched.now newest
            (message_with from watched.now.instance.name self.now.datagrams.items)) }
    {
        let name = watched.instance.name.parts();
        let message = message_with(alloc, self.datagrams.as_slice(), from, name)?;
        Ok(reason_of(&message, watched, newest))
    }

    /// Returns the engine id in the newest message from this address that has another one than
    /// this.
    ///
    /// # Errors
    /// `AllocError` if memory is refused.
    pub fn other_engine(
        &self,
        alloc: Global,
        from: Addr,
        engine: &[u8],
    ) -> Result<Option<Octets>, AllocError>
        ensures { IfOk result (λ r. r ≡ other_engine from engine.now self.now.datagrams.items) }
    {
        other_engine(alloc, self.datagrams.as_slice(), from, engine)
    }
}

/// Keeps a datagram from this address as the first one, and of this address at most `most`.
fn keep_newest(
    datagrams: &mut Vec<Datagram>,
    alloc: Global,
    from: Addr,
    octets: &[u8],
    most: usize,
) -> Result<(), AllocError>
    ensures kept { OnOk result (datagrams.new.items ≡ newest_of from most
        (record { from = from; octets = octets.now } ∷ datagrams.old.items)) }
    ensures refused { OnErr result (datagrams.new.items ≡ datagrams.old.items) }
{
    let octets = Octets::from_slice(alloc, octets)?;
    datagrams.insert(0, Datagram { from, octets })?;
    limit(datagrams, from, most);
    Ok(())
}

/// Keeps of the datagrams from this address the first N, and all others.
fn limit(datagrams: &mut Vec<Datagram>, from: Addr, most: usize)
    ensures { datagrams.new.items ≡ newest_of from most datagrams.old.items }
{
    let mut left = most;
    let mut place = 0;
    while place < datagrams.len() {
        if datagrams[place].from != from {
            place += 1;
        } else if left > 0 {
            left -= 1;
            place += 1;
        } else {
            let _ = datagrams.remove(place);
        }
    }
}

/// Returns the engine id in the first message from this address that has another one than this.
fn other_engine(
    alloc: Global,
    datagrams: &[Datagram],
    from: Addr,
    engine: &[u8],
) -> Result<Option<Octets>, AllocError>
    ensures { IfOk result (λ r. r ≡ other_engine from engine.now datagrams.now) }
{
    let [datagram, others @ ..] = datagrams else {
        return Ok(None);
    };
    match other_engine_in(alloc, datagram, from, engine)? {
        Some(other) => Ok(Some(other)),
        None => other_engine(alloc, others, from, engine),
    }
}

/// Returns the engine id in the message of a datagram from this address, if it is another than
/// this.
fn other_engine_in(
    alloc: Global,
    datagram: &Datagram,
    from: Addr,
    engine: &[u8],
) -> Result<Option<Octets>, AllocError>
    ensures { IfOk result (λ r. r ≡ other_engine_in from engine.now datagram.now) }
{
    if datagram.from != from {
        return Ok(None);
    }
    match read(alloc, datagram.octets.as_slice())? {
        Some(message) => other_than(alloc, engine, message.body.bindings()),
        None => Ok(None),
    }
}

/// Returns the first message from this address that has a value of this name.
fn message_with(
    alloc: Global,
    datagrams: &[Datagram],
    from: Addr,
    name: &[u32],
) -> Result<Option<Message>, AllocError>
    ensures { IfOk result (λ m. m ≡ message_with from name.now datagrams.now) }
{
    let [datagram, others @ ..] = datagrams else {
        return Ok(None);
    };
    match message_in(alloc, datagram, from, name)? {
        Some(message) => Ok(Some(message)),
        None => message_with(alloc, others, from, name),
    }
}

/// Returns the message of a datagram from this address, if it has a value of this name.
fn message_in(
    alloc: Global,
    datagram: &Datagram,
    from: Addr,
    name: &[u32],
) -> Result<Option<Message>, AllocError>
    ensures { IfOk result (λ m. m ≡ message_in from name.now datagram.now) }
{
    if datagram.from != from {
        return Ok(None);
    }
    match read(alloc, datagram.octets.as_slice())? {
        Some(message) if has_value(name, message.body.bindings()) => Ok(Some(message)),
        _ => Ok(None),
    }
}

/// Returns the message that octets begin with, if they begin with one.
fn read(alloc: Global, octets: &[u8]) -> Result<Option<Message>, AllocError>
    ensures { IfOk result (λ m. m ≡ reads_as octets.now) }
{
    match read_message(alloc, octets) {
        Ok(message) => Ok(Some(message)),
        Err(PduFault::OutOfMemory) => Err(AllocError),
        Err(_) => Ok(None),
    }
}
