//! Writing images, in version 2. Their size is known before, so they are written once, within
//! capacity that was allocated once.

ghost use Rattle.std.specs.Prelude.{◌≡◌, ◌≤◌, ◌<◌, ◌+◌, ◌++◌, ℕ, [], IfOk, length, get_or, vec_len, vec_capacity};
ghost use Rattle.std.specs.List.{AllByRecursion};
ghost use Rattle.mon_sample.specs.Key.{IsSample};
ghost use Rattle.mon_window.specs.Top.{rising};
ghost use Rattle.mon_board.specs.Board.{window_of};
ghost use Rattle.mon_board.specs.Instance.{instances_of};
ghost use Rattle.mon_board.specs.declared.instance.Watched.{Watched as AnyWatched};
ghost use Rattle.mon_saved.specs.Image.{Two, SpellsImage, IsEntry, entry_octets, entries_octets};
ghost use Rattle.mon_saved.specs.Written.{entry_of, entries_from, image_of, written_image};

use mon_board::{Board, Watched};
use mon_fields::{
    instance_size, put_instance, put_octet, put_octets, put_samples, put_u32, samples_size,
};
use mon_sample::Sample;
use std::alloc::{AllocError, Global};

/// How many octets the entry of an instance takes.
fn entry_size(watched: &Watched, samples: &[Sample]) -> usize
    requires engine { length watched.now.instance.engine ≤ 32 }
    requires few { length samples.now ≤ 64 }
    ensures size { result ≡ length (entry_octets Two watched.now.instance
        (entry_of watched.now samples.now)) }
    ensures few { result ≤ 1893 }
{
    let instance = &watched.instance;
    3 + instance_size(instance.engine.as_slice(), &instance.name) + samples_size(samples)
}

/// Appends the entry of an instance.
#[tactic(auto, unfolding(crate::specs::Image::entry_octets))]
fn put_entry(out: &mut Vec<u8>, watched: &Watched, samples: &[Sample])
    requires engine { length watched.now.instance.engine < 256 }
    requires window { watched.now.window ≤ 64 }
    requires epoch { watched.now.epoch ≤ 64 }
    requires few { length samples.now ≤ 64 }
    requires room { vec_len out.old + length (entry_octets Two watched.now.instance
        (entry_of watched.now samples.now)) ≤ vec_capacity out.old }
    ensures items { out.new.items ≡ out.old.items ++ entry_octets Two watched.now.instance
        (entry_of watched.now samples.now) }
    ensures len { vec_len out.new ≡ vec_len out.old + length
        (entry_octets Two watched.now.instance (entry_of watched.now samples.now)) }
    ensures capacity { vec_capacity out.old ≤ vec_capacity out.new }
    ensures samples { AllByRecursion IsSample samples.now }
{
    let instance = &watched.instance;
    put_octet(out, watched.window as u8);
    put_octet(out, watched.epoch as u8);
    put_instance(out, instance.engine.as_slice(), &instance.name);
    put_octet(out, samples.len() as u8);
    put_samples(out, samples);
}

/// Appends the entries of all instances.
fn put_entries(out: &mut Vec<u8>, board: &Board)
    requires room { vec_len out.old + length (entries_octets Two
        (instances_of board.now.watch.instances) (image_of board.now 1).entries)
        ≤ vec_capacity out.old }
    ensures items { out.new.items ≡ out.old.items ++ entries_octets Two
        (instances_of board.now.watch.instances) (image_of board.now 1).entries }
    ensures len { vec_len out.new ≡ vec_len out.old + length
        (entries_octets Two (instances_of board.now.watch.instances) (image_of board.now 1).entries) }
    ensures capacity { vec_capacity out.old ≤ vec_capacity out.new }
    ensures valid { AllByRecursion IsEntry (image_of board.now 1).entries }
{
    mon_window::laws::rising_list();
    mon_window::laws::bound();
    let watched = board.watch().instances();
    for i in 0..watched.len() {
        put_entry(out, &watched[i], board.items(i as u16));
    }
}

/// How many octets the image of the board takes: at most 484617, those of 256 full windows of 64
/// samples.
pub fn image_size(board: &Board) -> usize
    ensures size { (incarnation : ℕ) → result ≡ length (written_image board.now incarnation) }
    ensures few { result ≤ 484617 }
{
    let watched = board.watch().instances();
    let mut size = 9;
    for i in 0..watched.len() {
        size += entry_size(&watched[i], board.items(i as u16));
    }
    size
}

/// Appends the image of the board and the incarnation, which is not 0, within capacity that was
/// allocated before; so it cannot fail.
#[tactic(auto, unfolding(crate::specs::Image::image_octets))]
pub fn write_within(out: &mut Vec<u8>, board: &Board, incarnation: u32)
    requires positive { 1 ≤ incarnation }
    requires room { vec_len out.old + length (written_image board.now incarnation)
        ≤ vec_capacity out.old }
    ensures items { out.new.items ≡ out.old.items ++ written_image board.now incarnation }
    ensures spells { SpellsImage (written_image board.now incarnation)
        (instances_of board.now.watch.instances) (image_of board.now incarnation) }
    ensures len { vec_len out.new ≡ vec_len out.old + length (written_image board.now incarnation) }
    ensures capacity { vec_capacity out.old ≤ vec_capacity out.new }
{
    let many = board.watch().instances().len() as u16;
    put_octets(out, b"MI\x02");
    put_u32(out, incarnation);
    put_octets(out, &many.to_be_bytes());
    put_entries(out, board);
}

/// Allocates a buffer of just the size of the board's image.
fn image_buffer(alloc: Global, board: &Board) -> Result<Vec<u8>, AllocError>
    ensures empty { IfOk result (λ buffer. buffer.items ≡ []) }
    ensures len { IfOk result (λ buffer. vec_len buffer ≡ 0) }
    ensures capacity { IfOk result (λ buffer. (incarnation : ℕ)
        → vec_capacity buffer ≡ length (written_image board.now incarnation)) }
{
    Vec::with_capacity(alloc, image_size(board))
}

/// The image of the board and the incarnation, which is not 0, in a vector of just its size: the
/// one allocation.
pub fn write_image(alloc: Global, board: &Board, incarnation: u32) -> Result<Vec<u8>, AllocError>
    requires { 1 ≤ incarnation }
    ensures written { IfOk result (λ octets. octets.items ≡ written_image board.now incarnation) }
    ensures spells { IfOk result (λ octets. SpellsImage octets.items
        (instances_of board.now.watch.instances) (image_of board.now incarnation)) }
{
    let mut out = image_buffer(alloc, board)?;
    write_within(&mut out, board, incarnation);
    Ok(out)
}
