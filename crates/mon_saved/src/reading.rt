//! Reading images, from left to right. Each reader returns what it read, or the first fault.

ghost use Rattle.std.specs.Prelude.{◌≡◌, ◌≤◌, ◌<◌, ◌↔◌, ℕ, List, Ok, IfOk, IfErr, IsTrue, length};
ghost use Rattle.std.specs.Int.{w16, to_be_bytes};
ghost use Rattle.std.specs.List.Sorted.{IsStrictlySortedBy};
ghost use Rattle.std.specs.Ordering.{nat_cmp};
ghost use Rattle.mon_board.specs.Instance.{AreInstances, instances_of};
ghost use Rattle.mon_fields.specs.Reading.{AreOctets};
ghost use Rattle.mon_saved.specs.declared.image.Image.{Image};
ghost use Rattle.mon_saved.specs.Image.{SpellsImage};
ghost use Rattle.mon_saved.specs.Reading.{Fails, Gives, octet_within, magic_at, incarnation_at, window_at, expected_at, numbers_are, instance_is, sizes_at, fits_epoch, saved_at, entry_at, all_entries, header_at, image_at};

use crate::fault::ImageFault;
use crate::image::{Entries, Entry, Image};
use mon_board::{Instance, Watch, Watched};
use mon_fields::{Reader, SampleList};
use mon_sample::Sample;
use std::alloc::Global;

/// The sizes of an instance's window.
#[derive(Clone, Copy)]
pub struct Sizes {
    /// How many samples it holds, 1 to 64.
    pub window: u8,
    /// How many of these may have one boots number, 1 to the window.
    pub epoch: u8,
}

/// Reads an octet from `least` to `most`.
///
/// # Errors
/// `Truncated` if there is none, and the fault if it is another.
#[tactic(auto, unfolding(crate::specs::Reading::octet_within))]
pub fn octet_within(
    least: u8,
    most: u8,
    fault: ImageFault,
    reader: &mut Reader<'_>,
) -> Result<u8, ImageFault>
    ensures octets { AreOctets reader.old }
    ensures gives { Gives (λ octet. (octet, reader.new)) result
        (octet_within least most fault reader.old) }
{
    let octet = reader.octet()?;
    if octet < least || octet > most {
        return Err(fault);
    }
    Ok(octet)
}

/// Reads the letters MI.
///
/// # Errors
/// `Truncated`, and `BadImage` for other octets.
#[tactic(auto, unfolding(crate::specs::Reading::magic_at))]
pub fn magic_at(reader: &mut Reader<'_>) -> Result<(), ImageFault>
    ensures { Gives (λ _. reader.new) result (magic_at reader.old) }
{
    octet_within(b'M', b'M', ImageFault::BadImage, reader)?;
    octet_within(b'I', b'I', ImageFault::BadImage, reader)?;
    Ok(())
}

/// Reads an incarnation, which is not 0.
///
/// # Errors
/// `Truncated`, and `BadImage` for 0.
#[tactic(auto, unfolding(crate::specs::Reading::incarnation_at))]
pub fn incarnation_at(reader: &mut Reader<'_>) -> Result<u32, ImageFault>
    ensures { Gives (λ number. (number, reader.new)) result (incarnation_at reader.old) }
{
    let number = reader.number()?;
    if number == 0 {
        return Err(ImageFault::BadImage);
    }
    Ok(number)
}

/// Reads the one window of version 1, 1 to 64; returns 0 in version 2.
///
/// # Errors
/// `Truncated`, and `BadImage` for another window.
#[tactic(auto, unfolding(crate::specs::Reading::window_at))]
pub fn window_at(version: u8, reader: &mut Reader<'_>) -> Result<u8, ImageFault>
    ensures { Gives (λ window. (window, reader.new)) result (window_at version reader.old) }
{
    if version == 1 {
        return octet_within(1, 64, ImageFault::BadImage, reader);
    }
    Ok(0)
}

/// Reads these octets.
#[tactic(auto, unfolding(crate::specs::Reading::expected_at))]
fn expected_at(wanted: &[u8], reader: &mut Reader<'_>) -> Result<(), ImageFault>
    ensures { Gives (λ _. reader.new) result (expected_at wanted.now reader.old) }
{
    if reader.take(wanted.len())? == wanted {
        return Ok(());
    }
    Err(ImageFault::OtherWatch)
}

/// Reads these numbers, four octets each.
fn numbers_are(numbers: &[u32], reader: &mut Reader<'_>) -> Result<(), ImageFault>
    ensures { Gives (λ _. reader.new) result (numbers_are numbers.now reader.old) }
{
    for number in numbers {
        expected_at(&number.to_be_bytes(), reader)?;
    }
    Ok(())
}

/// Reads this instance.
#[tactic(auto, unfolding(crate::specs::Reading::instance_is))]
fn instance_is(instance: &Instance, reader: &mut Reader<'_>) -> Result<(), ImageFault>
    requires { length instance.now.engine < 256 }
    ensures { Gives (λ _. reader.new) result (instance_is instance.now reader.old) }
{
    let engine = instance.engine.as_slice();
    let name = instance.name.parts();
    expected_at(&[engine.len() as u8], reader)?;
    expected_at(engine, reader)?;
    expected_at(&[name.len() as u8], reader)?;
    numbers_are(name, reader)
}

/// Reads the window and the epoch of an instance: the one window, or two octets if that is 0.
///
/// # Errors
/// `Truncated`, and `BadImage` if one is out of its range.
#[tactic(auto, unfolding(crate::specs::Reading::sizes_at))]
pub fn sizes_at(window: u8, reader: &mut Reader<'_>) -> Result<Sizes, ImageFault>
    ensures { Gives (λ x. ((x.window, x.epoch), reader.new)) result (sizes_at window reader.old) }
{
    if window > 0 {
        return Ok(Sizes {
            window,
            epoch: window,
        });
    }
    let window = octet_within(1, 64, ImageFault::BadImage, reader)?;
    let epoch = octet_within(1, window, ImageFault::BadImage, reader)?;
    Ok(Sizes { window, epoch })
}

/// Returns `true` if no boots number has more than `epoch` of rising samples: those of one boots
/// number are neighbours, so none of them is `epoch` places after another.
fn fits_epoch(samples: &[Sample], epoch: usize) -> bool
    requires rising { IsStrictlySortedBy nat_cmp samples.now }
    ensures { result ≡ fits_epoch epoch samples.now }
{
    for i in epoch..samples.len() {
        if samples[i].boots() == samples[i - epoch].boots() {
            return false;
        }
    }
    true
}

/// Reads samples that fit the window and the epoch. They take one allocation.
///
/// # Errors
/// `Truncated`, `OutOfMemory`, and `BadImage` if a sample is none or does not rise, or if there are
/// too many, in all or of one boots number.
#[tactic(auto, unfolding(crate::specs::Reading::saved_at))]
pub fn saved_at(
    alloc: Global,
    sizes: Sizes,
    reader: &mut Reader<'_>,
) -> Result<SampleList, ImageFault>
    ensures { Gives (λ samples. (samples, reader.new)) result
        (saved_at (sizes.window, sizes.epoch) reader.old) }
{
    let count = octet_within(0, sizes.window, ImageFault::BadImage, reader)?;
    let samples = reader.samples(alloc, count)?;
    if fits_epoch(samples.as_slice(), usize::from(sizes.epoch)) {
        return Ok(samples);
    }
    Err(ImageFault::BadImage)
}

/// Reads the entry of an instance.
#[tactic(auto, unfolding(crate::specs::Reading::entry_at))]
fn entry_at(
    alloc: Global,
    window: u8,
    instance: &Instance,
    reader: &mut Reader<'_>,
) -> Result<Entry, ImageFault>
    requires { length instance.now.engine < 256 }
    ensures { Gives (λ entry. (entry, reader.new)) result
        (entry_at window instance.now reader.old) }
{
    let sizes = sizes_at(window, reader)?;
    instance_is(instance, reader)?;
    let samples = saved_at(alloc, sizes, reader)?;
    Ok(Entry {
        window: sizes.window,
        epoch: sizes.epoch,
        samples,
    })
}

/// Reads the incarnation and the one window, 0 in version 2, of an image of `many` instances.
#[tactic(auto, unfolding(crate::specs::Reading::header_at))]
fn header_at(many: u16, reader: &mut Reader<'_>) -> Result<(u32, u8), ImageFault>
    ensures { Gives (λ header. (header, reader.new)) result (header_at many reader.old) }
{
    magic_at(reader)?;
    let version = octet_within(1, 2, ImageFault::BadVersion, reader)?;
    let incarnation = incarnation_at(reader)?;
    let window = window_at(version, reader)?;
    expected_at(&many.to_be_bytes(), reader)?;
    Ok((incarnation, window))
}

/// Reads an entry for each instance, all of the octets.
fn entries_at(
    alloc: Global,
    window: u8,
    watched: &[Watched],
    reader: &mut Reader<'_>,
) -> Result<Vec<Entry>, ImageFault>
    requires { AreInstances watched.now }
    ensures { Gives (λ v. v.items) result
        (all_entries window (instances_of watched.now) reader.old) }
{
    let mut entries = Vec::with_capacity(alloc, watched.len())?;
    for one in watched {
        let entry = entry_at(alloc, window, &one.instance, reader)?;
        entries.push(entry)?;
    }
    if !reader.is_empty() {
        return Err(ImageFault::BadImage);
    }
    Ok(entries)
}

/// Reads the image of the watch's instances that all of the octets spell.
#[tactic(auto, unfolding(crate::specs::Reading::image_at))]
fn image_at(alloc: Global, watch: &Watch, octets: &[u8]) -> Result<Image, ImageFault>
    ensures { Gives (λ image. image) result
        (image_at (instances_of watch.now.instances) octets.now) }
{
    let watched = watch.instances();
    let mut reader = Reader::new(octets);
    let (incarnation, window) = header_at(watched.len() as u16, &mut reader)?;
    let entries = entries_at(alloc, window, watched, &mut reader)?;
    Ok(Image {
        incarnation,
        entries: Entries::new(entries),
    })
}

/// Reads the image of the watch's instances that the octets, all of them, spell in version 1 or 2.
/// Each instance's samples take one allocation.
///
/// # Errors
/// The first fault from the left.
pub fn read(alloc: Global, watch: &Watch, octets: &[u8]) -> Result<Image, ImageFault>
    // What is read is spelled so.
    ensures found { IfOk result (λ image. SpellsImage octets.now (instances_of watch.now.instances)
        image) }
    // What is spelled so is read, unless memory runs out.
    ensures only { (image : Image) → SpellsImage octets.now (instances_of watch.now.instances) image
        → Gives (λ x. x) result (Ok image) }
    // Which fault it is: the first from left to right.
    ensures fault { IfErr result (λ e. Fails e (image_at (instances_of watch.now.instances)
        octets.now)) }
{
    mon_fields::laws::samples();
    image_at(alloc, watch, octets)
}
