//! The connections.

ghost use Rattle.std.specs.Prelude.{◌≡◌, ◌≢◌, ◌↔◌, IfOk, IsTrue, Some, true, option_map, slice_get, slice_set};
ghost use Rattle.std.specs.Duration.{as_nanos};
ghost use Rattle.mon_web.specs.Slot.{IsAdmission, IsLate, HasSlot, KeepsOthers, NoneLate, free_slot, has_done, has_newcomer_by, is_free, longest_wait, marked, marked_by, slot_in, settled};
ghost use Rattle.mon_web.specs.declared.client.Turn.{Turn as TurnData};
ghost use Rattle.std.specs.List.{list_all};
ghost use Rattle.mon_web.specs.Pages.{view_of};

use crate::client::{Client, Turn};
use crate::content::Content;
use crate::pages::Pages;
use crate::response::Moment;
use crate::slot::{SLOTS, SPARED_MS, Slot, Stage, choose_slot, is_late};
use mio::net::{TcpListener, TcpStream};
use mio::{Registry, Token};
use std::alloc::{AllocError, Global};
use std::time::Duration;

/// The number of the listener's events. Those of connections have their places' numbers.
pub(crate) const ACCEPTOR: usize = SLOTS;

/// How many octets are read at once at most: a connection has capacity for no more.
const BUFFER: usize = 8192;

/// How long a wait lasts at most while there are clients, in milliseconds: after that it is looked
/// who is late.
const TICK_MS: u64 = 1000;

/// A place without a client.
const EMPTY: Slot = Slot {
    stage: Stage::Free,
    since: 0,
    is_ready: false,
};

/// The place of a client whose stage starts now.
fn slot_in(stage: Stage, now: u64) -> Slot
    ensures { result ≡ slot_in stage now }
{
    Slot {
        stage,
        since: now,
        is_ready: true,
    }
}

/// The connections, and the listener that they come by.
pub(crate) struct Table<C> {
    alloc: Global,
    listener: TcpListener,
    slots: Vec<Slot>,
    clients: Vec<Option<Client<TcpStream>>>,
    /// A newcomer may be let in.
    has_newcomer: bool,
    /// Whose turn is next.
    next: usize,
    buffer: Vec<u8>,
    pub(crate) pages: Pages<C>,
}

// By hand: where one is let go, a proof has one call and not a drop of each field.
impl<C: Drop> Drop for Table<C> {
    fn drop(self) {
        let Table {
            alloc: _,
            listener: _,
            slots: _,
            clients: _,
            has_newcomer: _,
            next: _,
            buffer: _,
            pages: _,
        } = self;
    }
}

impl<C: Content> Table<C> {
    /// No connections yet.
    pub(crate) fn new(
        alloc: Global,
        listener: TcpListener,
        pages: Pages<C>,
    ) -> Result<Self, AllocError>
        ensures { IfOk result (λ t. t.pages ≡ pages) }
    {
        let mut clients = Vec::with_capacity(alloc, SLOTS)?;
        for _ in 0..SLOTS {
            clients.push(None)?;
        }
        Ok(Table {
            alloc,
            listener,
            slots: vec![in alloc; EMPTY; SLOTS]?,
            clients,
            has_newcomer: true,
            next: 0,
            buffer: vec![in alloc; 0u8; BUFFER]?,
            pages,
        })
    }

    /// Takes note that something may be done for the one of this token.
    pub(crate) fn set_token_ready(&mut self, token: Token)
        ensures pages { self.new.pages ≡ self.old.pages }
        ensures slots { self.new.slots.items ≡ marked_by token.0 true self.old.slots.items }
        ensures acceptor { self.new.has_newcomer
            ≡ has_newcomer_by token.0 true self.old.has_newcomer }
    {
        if token.0 == ACCEPTOR {
            self.has_newcomer = true;
        } else {
            self.set_ready(token.0, true);
        }
    }

    /// Notes whether something may be done at once for the client of a place.
    fn set_ready(&mut self, place: usize, ready: bool)
        ensures pages { self.new.pages ≡ self.old.pages }
        ensures slots { self.new.slots.items ≡ marked place ready self.old.slots.items }
        ensures acceptor { self.new.has_newcomer ≡ self.old.has_newcomer }
    {
        if let Some(slot) = self.slots.get_mut(place) {
            slot.is_ready = ready;
        }
    }

    fn is_ready(&self, place: usize) -> bool
        ensures { place ≡ 32 → result ≡ self.now.has_newcomer }
    {
        if place == ACCEPTOR {
            return self.has_newcomer;
        }
        match self.slots.get(place) {
            Some(slot) => slot.is_ready,
            None => false,
        }
    }

    /// Does one thing for one client, or lets a newcomer in. Returns `false` if there was nothing
    /// to do.
    pub(crate) fn turn(&mut self, registry: &Registry, at: Moment) -> bool
        ensures { view_of C.says self.new.pages ≡ view_of C.says self.old.pages }
    {
        for _ in 0..=SLOTS {
            let place = self.next;
            self.next = if place < SLOTS { place + 1 } else { 0 };
            if self.is_ready(place) && self.give_turn(registry, place, at) {
                return true;
            }
        }
        false
    }

    /// Does one thing for the client of a place, or at the acceptor. Returns `false` if nothing was
    /// done.
    fn give_turn(&mut self, registry: &Registry, place: usize, at: Moment) -> bool
        ensures pages { view_of C.says self.new.pages ≡ view_of C.says self.old.pages }
        ensures acceptor { place ≡ 32
            → IsAdmission result at.now self.old.has_newcomer self.new.has_newcomer
            self.old.slots.items self.new.slots.items }
        ensures client { place ≢ 32
            → (turn : TurnData) × (result ≡ has_done turn)
            × (self.new.slots.items ≡ settled turn place at.now self.old.slots.items) }
        ensures newcomer { place ≢ 32 → self.new.has_newcomer ≡ self.old.has_newcomer }
    {
        if place == ACCEPTOR {
            return self.admit(registry, at.now);
        }
        let turn = match self.clients.get_mut(place) {
            Some(Some(client)) => client.turn(&mut self.pages, self.buffer.as_mut_slice(), at),
            _ => Turn::Waits,
        };
        self.settle(place, turn, at.now);
        turn != Turn::Waits
    }

    /// Does what a client's turn came to.
    fn settle(&mut self, place: usize, turn: Turn, now: u64)
        ensures pages { self.new.pages ≡ self.old.pages }
        ensures slots { self.new.slots.items ≡ settled turn place now self.old.slots.items }
        ensures acceptor { self.new.has_newcomer ≡ self.old.has_newcomer }
    {
        match turn {
            Turn::Waits => self.set_ready(place, false),
            Turn::GoesOn => {}
            Turn::Begins(stage) => self.set_slot(place, slot_in(stage, now)),
            Turn::Ends => self.clear(place),
        }
    }

    fn set_slot(&mut self, place: usize, slot: Slot)
        ensures pages { self.new.pages ≡ self.old.pages }
        ensures acceptor { self.new.has_newcomer ≡ self.old.has_newcomer }
        ensures slots { self.new.slots.items ≡ slice_set self.old.slots.items place slot }
    {
        if let Some(kept) = self.slots.get_mut(place) {
            *kept = slot;
        }
    }

    fn set_client(&mut self, place: usize, client: Option<Client<TcpStream>>)
        ensures pages { self.new.pages ≡ self.old.pages }
        ensures acceptor { self.new.has_newcomer ≡ self.old.has_newcomer }
        ensures slots { self.new.slots.items ≡ self.old.slots.items }
    {
        if let Some(kept) = self.clients.get_mut(place) {
            *kept = client;
        }
    }

    /// Closes the connection of a place.
    fn clear(&mut self, place: usize)
        ensures pages { self.new.pages ≡ self.old.pages }
        ensures acceptor { self.new.has_newcomer ≡ self.old.has_newcomer }
        ensures slots { self.new.slots.items ≡ slice_set self.old.slots.items place free_slot }
    {
        self.set_client(place, None);
        self.set_slot(place, EMPTY);
    }

    /// Lets a newcomer in, if there is one and a place for it. Returns `true` if one came.
    fn admit(&mut self, registry: &Registry, now: u64) -> bool
        ensures pages { self.new.pages ≡ self.old.pages }
        ensures slots { IsAdmission result now self.old.has_newcomer self.new.has_newcomer
            self.old.slots.items self.new.slots.items }
    {
        let Some(place) = choose_slot(self.slots.as_slice(), now) else {
            return false;
        };
        match self.listener.accept() {
            Ok((stream, _)) => {
                self.slot(registry, place, stream, now);
                true
            }
            Err(_) => {
                self.has_newcomer = false;
                false
            }
        }
    }

    /// Puts a newcomer into a slot. If memory is refused for it, it is closed.
    fn slot(&mut self, registry: &Registry, place: usize, stream: TcpStream, now: u64)
        ensures pages { self.new.pages ≡ self.old.pages }
        ensures slots { HasSlot place now self.old.slots.items self.new.slots.items }
        ensures acceptor { self.new.has_newcomer ≡ self.old.has_newcomer }
    {
        self.clear(place);
        if let Ok(client) = Client::new(self.alloc, registry, stream, Token(place)) {
            self.set_client(place, Some(client));
            self.set_slot(place, slot_in(Stage::Asking, now));
        }
    }

    /// Closes the connections of clients that are late.
    pub(crate) fn close_late(&mut self, now: u64)
        ensures pages { self.new.pages ≡ self.old.pages }
        ensures none { NoneLate now self.new.slots.items }
        ensures others { KeepsOthers (IsLate now) self.old.slots.items self.new.slots.items }
    {
        for place in 0..self.slots.len() {
            if self.is_late(place, now) {
                self.clear(place);
            }
        }
    }

    fn is_late(&self, place: usize, now: u64) -> bool
        ensures late { (slot : Slot) → slice_get self.now.slots.items place ≡ Some slot
            → IsTrue result ↔ IsLate now slot }
    {
        match self.slots.get(place) {
            Some(slot) => is_late(*slot, now),
            None => false,
        }
    }

    /// Returns how long a wait may last until it is looked again who is late or gives place to a
    /// newcomer.
    pub(crate) fn longest_wait(&self) -> Option<Duration>
        ensures { option_map as_nanos result ≡ longest_wait self.now.has_newcomer
            self.now.slots.items }
    {
        if self.is_ready(ACCEPTOR) {
            Some(Duration::from_millis(SPARED_MS))
        } else if are_free(self.slots.as_slice()) {
            None
        } else {
            Some(Duration::from_millis(TICK_MS))
        }
    }
}

/// Returns `true` if no place has a client.
fn are_free(slots: &[Slot]) -> bool
    ensures { result ≡ list_all (λ (slot : _). is_free slot.stage) slots.now }
{
    slots.iter().all(|slot| slot.stage.is_free())
}
