//! Which instance has which labels.

ghost use Rattle.std.specs.Prelude.{◌≡◌, [], IfOk, map, option_map, string_bytes};
ghost use Rattle.mon_labels.specs.Given.{address_of, device_of, given, given_from, interface_for, labels_for, polls, target_for};

use crate::interface::{InterfaceLabels, find_interface};
use mon_board::{Instance, Watched};
use mon_display::interface_of;
use mon_page::InstanceLabels;
use mon_poller::Target;
use std::alloc::{AllocError, Global};

/// The labels of interfaces, in the order of their text.
#[derive(Debug, Drop)]
pub struct Labels {
    pub interfaces: Vec<InterfaceLabels>,
}

/// Targets, and where the agent of each is reached, in their order.
#[derive(Clone, Copy)]
pub struct Reached<'a> {
    pub targets: &'a [Target],
    /// As `a.b.c.d:port`.
    pub addresses: &'a [String],
    /// The label of each target in the settings, if it has one.
    pub devices: &'a [Option<String>],
}

impl Labels {
    /// Returns labels of no interface.
    pub fn none(alloc: Global) -> Self
        ensures { result.interfaces.items ≡ [] }
    {
        Labels {
            interfaces: Vec::new(alloc),
        }
    }

    /// Returns the labels of these instances, in their order: the address of the first target that
    /// is polled for the instance and that target's label, and the ifName, the ifAlias and the
    /// speed of the interface at its engine, if its name is a column of ifTable or ifXTable.
    ///
    /// # Errors
    /// `AllocError` if there is no memory for them.
    pub fn of_instances(
        &self,
        alloc: Global,
        instances: &[Watched],
        reached: Reached<'_>,
    ) -> Result<Vec<InstanceLabels>, AllocError>
        ensures { IfOk result (λ v. map given v.items ≡ given_from self.now.interfaces.items
            reached.entry.targets.now reached.entry.addresses.now reached.entry.devices.now 0
            instances.now) }
    {
        let mut all = Vec::with_capacity(alloc, instances.len())?;
        for (place, watched) in instances.iter().enumerate() {
            let address = address_of(reached, place);
            let device = device_of(reached, place);
            let labels = self.of_instance(alloc, &watched.instance, address, device)?;
            all.push(labels)?;
        }
        Ok(all)
    }

    /// Returns the labels of an instance, of whose target these are the address and the label.
    fn of_instance(
        &self,
        alloc: Global,
        instance: &Instance,
        address: Option<&String>,
        device: Option<&String>,
    ) -> Result<InstanceLabels, AllocError>
        ensures { IfOk result (λ l. given l ≡ labels_for self.now.interfaces.items
            (option_map (λ t. string_bytes t.now) address.entry) (option_map (λ t. string_bytes t.now) device.entry) instance.now) }
    {
        let target = copied(alloc, address)?;
        let device = copied(alloc, device)?;
        match self.interface_for(instance) {
            None => Ok(InstanceLabels {
                target,
                device,
                if_name: None,
                if_alias: None,
                speed: None,
            }),
            Some(labels) => Ok(InstanceLabels {
                target,
                device,
                if_name: copied(alloc, labels.if_name.as_ref())?,
                if_alias: copied(alloc, labels.if_alias.as_ref())?,
                speed: labels.speed,
            }),
        }
    }

    /// Returns the interface of an instance, if there is one.
    fn interface_for(&self, instance: &Instance) -> Option<&InterfaceLabels>
        ensures { option_map (λ l. l.now) result ≡ interface_for self.now.interfaces.items
            instance.now }
    {
        match interface_of(instance.name.parts()) {
            None => None,
            Some(index) => find_interface(
                self.interfaces.as_slice(),
                instance.engine.as_slice(),
                index,
            ),
        }
    }
}

/// Returns a copy of a text, if there is one.
fn copied(alloc: Global, text: Option<&String>) -> Result<Option<String>, AllocError>
    ensures { IfOk result (λ t. option_map string_bytes t ≡ option_map (λ t. string_bytes t.now)
        text.entry) }
{
    match text {
        None => Ok(None),
        Some(text) => Ok(Some(String::from_str(alloc, text.as_str())?)),
    }
}

/// Returns the address of the first target that is polled for the instance of this number.
fn address_of<'a>(reached: Reached<'a>, instance: usize) -> Option<&'a String>
    ensures { option_map (λ t. string_bytes t.now) result ≡ address_of reached.entry.targets.now
        reached.entry.addresses.now instance }
{
    match target_for(reached.targets, instance) {
        None => None,
        Some(number) => reached.addresses.get(number),
    }
}

/// Returns the label of the first target that is polled for the instance of this number.
fn device_of<'a>(reached: Reached<'a>, instance: usize) -> Option<&'a String>
    ensures { option_map (λ t. string_bytes t.now) result ≡ device_of reached.entry.targets.now
        reached.entry.devices.now instance }
{
    match target_for(reached.targets, instance) {
        None => None,
        Some(number) => reached.devices.get(number)?.as_ref(),
    }
}

/// Returns the number of the first target that is polled for the instance of this number, from 0.
fn target_for(targets: &[Target], instance: usize) -> Option<usize>
    ensures { result ≡ target_for targets.now instance }
{
    for number in 0..targets.len() {
        if polls(&targets[number], instance) {
            return Some(number);
        }
    }
    None
}

/// Returns `true` if a target is polled for the instance of this number.
fn polls(target: &Target, instance: usize) -> bool
    ensures { result ≡ polls instance target.now }
{
    target
        .objects
        .as_slice()
        .iter()
        .any(|object| usize::from(object.instance) == instance)
}
