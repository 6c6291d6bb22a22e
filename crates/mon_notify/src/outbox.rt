//! Texts that wait to be delivered, in the order in which they came.

ghost use Rattle.std.specs.Prelude.{◌≡◌, ◌≤◌, ◌<◌, ◌∷◌, ◌++◌, [], All, IfOk, length, map, option_map, slice_get, vec_capacity};
ghost use Rattle.mon_notify.specs.Mail.{after_put, after_removal, empty, octets_of, IsRoomy};

use std::alloc::{AllocError, Global};
use std::marker::Model;

/// The most texts that wait.
const MAX_TEXTS: usize = 256;

/// The most octets of a text.
const MAX_OCTETS: usize = 4096;

/// Texts that wait to be delivered: at most 256, each of at most 4,096 octets. All memory is
/// allocated at the start.
#[derive(Drop)]
pub struct Outbox {
    texts: Vec<Vec<u8>>,
    /// Buffers that hold no text.
    spare: Vec<Vec<u8>>,
    dropped: u64,
    too_long: u64,
}

impl Model for Outbox {
    ghost use Rattle.std.specs.Prelude.{◌≡◌, ◌≤◌, ◌+◌, All, map, vec_capacity, vec_len};
    ghost use Rattle.mon_notify.specs.Mail.{Mail, octets_of, IsRoomy};

    ghost Value = { Mail };

    ghost view = { λ o. record {
      waiting = map octets_of o.texts.items;
      dropped = o.dropped;
      too_long = o.too_long;
    } };

    ghost invariant = { λ o. (vec_len o.texts + vec_len o.spare ≡ 256)
        × (256 ≤ vec_capacity o.texts) × (256 ≤ vec_capacity o.spare)
        × All IsRoomy o.texts.items × All IsRoomy o.spare.items };
}

/// Adds a text in a buffer. It allocates nothing.
fn add_text(texts: &mut Vec<Vec<u8>>, buffer: Vec<u8>, text: &[u8])
    requires roomy { 4096 ≤ vec_capacity buffer }
    requires short { length text.now ≤ 4096 }
    requires room { length texts.old.items < vec_capacity texts.old }
    requires all { All IsRoomy texts.old.items }
    ensures added { map octets_of texts.new.items ≡ map octets_of texts.old.items ++ text.now ∷ [] }
    ensures roomy { All IsRoomy texts.new.items }
    ensures capacity { vec_capacity texts.old ≤ vec_capacity texts.new }
{
    let mut buffer = buffer;
    buffer.clear();
    buffer.extend_from_slice(text).unwrap();
    texts.push(buffer).unwrap();
}

/// Makes buffers for all texts.
fn buffers(alloc: Global) -> Result<Vec<Vec<u8>>, AllocError>
    ensures count { IfOk result (λ v. length v.items ≡ 256) }
    ensures roomy { IfOk result (λ v. All IsRoomy v.items) }
    ensures capacity { IfOk result (λ v. 256 ≤ vec_capacity v) }
{
    let mut buffers = Vec::with_capacity(alloc, MAX_TEXTS)?;
    for _ in 0..MAX_TEXTS {
        buffers.push(Vec::with_capacity(alloc, MAX_OCTETS)?)?;
    }
    Ok(buffers)
}

impl Outbox {
    /// Makes an outbox without a text.
    ///
    /// # Errors
    /// `AllocError` if there is no memory for it.
    pub fn new(alloc: Global) -> Result<Self, AllocError>
        ensures { IfOk result (λ o. o ≡ empty) }
    {
        Ok(Outbox {
            texts: Vec::with_capacity(alloc, MAX_TEXTS)?,
            spare: buffers(alloc)?,
            dropped: 0,
            too_long: 0,
        })
    }

    /// Puts a text behind those that wait. It allocates nothing. If 256 texts wait, the oldest is
    /// dropped and counted. A text of more than 4,096 octets is not put, and counted.
    pub fn put(&mut self, text: &[u8])
        ensures { self.new ≡ after_put text.now self.old }
    {
        if text.len() > MAX_OCTETS {
            self.too_long = self.too_long.saturating_add(1);
            return;
        }
        match self.spare.pop() {
            Some(buffer) => add_text(&mut self.texts, buffer, text),
            None => {
                self.dropped = self.dropped.saturating_add(1);
                let buffer = self.texts.remove(0);
                add_text(&mut self.texts, buffer, text);
            }
        }
    }

    /// Returns the oldest text, if one waits.
    pub fn first(&self) -> Option<&[u8]>
        ensures { option_map (λ t. t.now) result ≡ slice_get self.now.waiting 0 }
    {
        match self.texts.first() {
            Some(text) => Some(text.as_slice()),
            None => None,
        }
    }

    /// Removes the oldest text.
    pub fn remove_first(&mut self)
        requires { 0 < length self.old.waiting }
        ensures { self.new ≡ after_removal self.old }
    {
        let buffer = self.texts.remove(0);
        self.spare.push(buffer).unwrap();
    }

    /// Returns how many texts wait.
    pub fn len(&self) -> usize
        ensures { result ≡ length self.now.waiting }
    {
        self.texts.len()
    }

    /// Returns how many texts were dropped since more came. It stays at its greatest.
    pub fn dropped(&self) -> u64
        ensures { result ≡ self.now.dropped }
    {
        self.dropped
    }

    /// Returns how many texts were not put, since they were too long. It stays at its greatest.
    pub fn too_long(&self) -> u64
        ensures { result ≡ self.now.too_long }
    {
        self.too_long
    }
}
