//! Reading what an image names, from left to right. Each reader returns what it read, or the first
//! fault.

ghost use Rattle.std.specs.Prelude.{◌≡◌, ◌≤◌, ℕ, List, Ok, IfOk, IfErr, length};
ghost use Rattle.mon_board.specs.Watch.{Watch as AnyWatch};
ghost use Rattle.mon_fields.specs.Reading.{Gives as Fields};
ghost use Rattle.mon_saved.specs.Reading.{Gives};
ghost use Rattle.mon_own_watch.specs.Named.{IsUnnamed};
ghost use Rattle.mon_own_watch.specs.Own.{NamesWatch};
ghost use Rattle.mon_own_watch.specs.Reading.{all_at, engine_at, head_at, is_unrooted, many_at, name_at, named_at, numbers_at, watched_at};

use mon_ber::Octets;
use mon_board::{Instance, Watch, Watched};
use mon_fields::{LayoutFault, Reader};
use mon_oid::Oid;
use mon_saved::{
    ImageFault, incarnation_at, magic_at, octet_within, saved_at, sizes_at, window_at,
};
use smallvec::SmallVec;
use std::alloc::Global;

/// Reads an engine id after its length.
#[tactic(auto, unfolding(crate::specs::Reading::engine_at))]
fn engine_at<'a>(reader: &mut Reader<'a>) -> Result<&'a [u8], ImageFault>
    ensures { Gives (λ engine. (engine.now, reader.new)) result (engine_at reader.old) }
{
    let len = octet_within(5, 32, ImageFault::BadImage, reader)?;
    Ok(reader.take(usize::from(len))?)
}

/// Reads `count` numbers of four octets each. Up to 16 allocate nothing.
#[tactic(auto, unfolding(crate::specs::Reading::numbers_at))]
fn numbers_at(
    alloc: Global,
    count: u8,
    reader: &mut Reader<'_>,
) -> Result<SmallVec<u32, 16>, LayoutFault>
    ensures { Fields (λ numbers. (numbers.items, reader.new)) result (numbers_at count reader.old) }
{
    let mut numbers = SmallVec::new(alloc);
    while numbers.len() < usize::from(count) {
        let number = reader.number()?;
        numbers.push(number)?;
    }
    Ok(numbers)
}

/// Returns `true` if the first two numbers are out of the range of an identifier's (RFC 2578
/// section 3.5).
#[tactic(auto, unfolding(crate::specs::Reading::is_unrooted))]
fn is_unrooted(parts: &[u32]) -> bool
    requires { 2 ≤ length parts.now }
    ensures { result ≡ is_unrooted parts.now }
{
    parts[0] > 2 || parts[0] < 2 && parts[1] > 39
}

/// Reads an identifier after the count of its numbers.
#[tactic(auto, unfolding(crate::specs::Reading::name_at))]
fn name_at(alloc: Global, reader: &mut Reader<'_>) -> Result<Oid, ImageFault>
    ensures { Gives (λ oid. (oid, reader.new)) result (name_at reader.old) }
{
    let count = octet_within(2, 128, ImageFault::BadImage, reader)?;
    let parts = numbers_at(alloc, count, reader)?;
    if is_unrooted(parts.as_slice()) {
        return Err(ImageFault::BadImage);
    }
    Ok(Oid::from_valid(parts))
}

/// Reads the entry of an instance: how it is watched.
#[tactic(auto, unfolding(crate::specs::Reading::watched_at))]
fn watched_at(alloc: Global, window: u8, reader: &mut Reader<'_>) -> Result<Watched, ImageFault>
    ensures { Gives (λ watched. (watched, reader.new)) result (watched_at window reader.old) }
{
    let sizes = sizes_at(window, reader)?;
    let engine = engine_at(reader)?;
    let name = name_at(alloc, reader)?;
    saved_at(alloc, sizes, reader)?;
    let engine = Octets::from_slice(alloc, engine)?;
    Ok(Watched {
        instance: Instance { engine, name },
        discontinuity: None,
        window: usize::from(sizes.window),
        epoch: usize::from(sizes.epoch),
    })
}

/// Reads the entries of `many` instances.
#[tactic(auto, unfolding(crate::specs::Reading::all_at))]
fn all_at(
    alloc: Global,
    window: u8,
    many: u16,
    reader: &mut Reader<'_>,
) -> Result<Vec<Watched>, ImageFault>
    ensures { Gives (λ all. (all.items, reader.new)) result (all_at window many reader.old) }
{
    let mut all = Vec::with_capacity(alloc, usize::from(many))?;
    while all.len() < usize::from(many) {
        let watched = watched_at(alloc, window, reader)?;
        all.push(watched)?;
    }
    Ok(all)
}

/// Reads how many instances there are, 1 to 256.
#[tactic(auto, unfolding(crate::specs::Reading::many_at))]
fn many_at(reader: &mut Reader<'_>) -> Result<u16, ImageFault>
    ensures { Gives (λ many. (many, reader.new)) result (many_at reader.old) }
{
    let mut field = [0; 2];
    field.copy_from_slice(reader.take(2)?);
    let many = u16::from_be_bytes(field);
    if many < 1 || many > 256 {
        return Err(ImageFault::BadImage);
    }
    Ok(many)
}

/// Reads how many instances an image has, and its one window, 0 in version 2.
#[tactic(auto, unfolding(crate::specs::Reading::head_at))]
fn head_at(reader: &mut Reader<'_>) -> Result<(u16, u8), ImageFault>
    ensures { Gives (λ head. (head, reader.new)) result (head_at reader.old) }
{
    magic_at(reader)?;
    let version = octet_within(1, 2, ImageFault::BadVersion, reader)?;
    incarnation_at(reader)?;
    let window = window_at(version, reader)?;
    let many = many_at(reader)?;
    Ok((many, window))
}

/// Reads the watched instances that all of the octets name.
#[tactic(auto, unfolding(crate::specs::Reading::named_at))]
fn named_at(alloc: Global, octets: &[u8]) -> Result<Vec<Watched>, ImageFault>
    ensures { Gives (λ all. all.items) result (named_at octets.now) }
{
    let mut reader = Reader::new(octets);
    let (many, window) = head_at(&mut reader)?;
    let all = all_at(alloc, window, many, &mut reader)?;
    if !reader.is_empty() {
        return Err(ImageFault::BadImage);
    }
    Ok(all)
}

/// Reads the watch that the octets of an image, all of them, name themselves in version 1 or 2: the
/// instances of its entries, each with the sizes of its entry. It has no rules, and no instance a
/// discontinuity. With this watch `read_image` of mon_saved reads the octets, and keeps all of
/// their samples (`laws::whole`).
///
/// # Errors
/// The first fault from the left: `Truncated` if the octets end too early, `BadVersion` if the
/// version is neither 1 nor 2, `BadImage` if they are no image, have no instances or more than 256,
/// or name one by no engine id or no object identifier; `OutOfMemory`. If all are read, `BadImage`
/// if the instances do not rise.
pub fn own_watch(alloc: Global, octets: &[u8]) -> Result<Watch, ImageFault>
    // What is returned is named.
    ensures found { IfOk result (λ watch. NamesWatch octets.now watch) }
    // What is named is returned, unless memory runs out.
    ensures only { (watch : AnyWatch) → NamesWatch octets.now watch
        → Gives (λ w. w) result (Ok watch) }
    // The fault is the first from the left, or the instances do not rise.
    ensures fault { IfErr result (IsUnnamed octets.now) }
{
    mon_fields::laws::samples();
    let all = named_at(alloc, octets)?;
    match Watch::new(all, Vec::new(alloc)) {
        Ok(watch) => {
            // Proof: the invariant of the watch.
            let _ = watch.instances();
            Ok(watch)
        }
        Err(_) => Err(ImageFault::BadImage),
    }
}
