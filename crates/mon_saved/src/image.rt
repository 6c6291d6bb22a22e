//! Images as they are read.

ghost use Rattle.std.specs.Prelude.{◌≡◌};

use mon_fields::SampleList;
use std::marker::Model;

/// What an image says of an instance.
#[derive(Drop)]
pub struct Entry {
    /// How many samples its window held, 1 to 64.
    pub window: u8,
    /// How many of these could have one boots number, 1 to the window.
    pub epoch: u8,
    /// The samples, the oldest first.
    pub samples: SampleList,
}

/// Entries, one for each instance. Contracts see them as their list.
#[derive(Drop)]
pub struct Entries {
    items: Vec<Entry>,
}

impl Model for Entries {
    ghost use Rattle.std.specs.Prelude.{List};
    ghost use Rattle.mon_saved.specs.declared.image.Entry.{Entry};

    ghost Value = { List Entry };

    ghost view = { λ e. e.items.items };
}

impl Entries {
    /// Takes over these entries, in this order. It allocates nothing.
    pub fn new(items: Vec<Entry>) -> Self
        ensures { result ≡ items.items }
    {
        Entries { items }
    }

    /// The entries, in their order.
    pub fn as_slice(&self) -> &[Entry]
        ensures { result.now ≡ self.now }
    {
        self.items.as_slice()
    }
}

/// What an image says.
#[derive(Drop)]
pub struct Image {
    /// The incarnation of the station that saved it, not 0.
    pub incarnation: u32,
    /// What it says of each instance of the watch, in their order.
    pub entries: Entries,
}
