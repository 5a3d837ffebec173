//! The desks of all clients.
ghost use Rattle.std.specs.Prelude.{◌≡◌, ◌↔◌, ◌<◌, ◌≤◌, length, IfOk, IfSome, IsSome, OnOk};
ghost use Rattle.client_desks.specs.Deliveries.{IsToPlaceBelow};
ghost use Rattle.client_desks.specs.Slots.{AreInOrder};

use crate::desk::Desk;
use crate::frame_output::FrameOutput;
use crate::order::{Order, Rest};
use crate::slot::Slot;
use crate::visit::{OutOfTurn, Said};
use client_frames::{ClientPlace, Frame, LAST_PLACE};
use std::alloc::{AllocError, Global};
use std::io;
use std::marker::Model;
use std::sync::atomic::{AtomicU64, Ordering};
use std::sync::{Mutex, MutexGuard, Wait};

/// The most clients.
pub const MOST_CLIENTS: usize = LAST_PLACE as usize + 1;

/// The desks of all clients.
#[derive(Drop)]
pub struct Desks {
    slots: Vec<Slot>,
    // one frame is written at a time
    output: Mutex<FrameOutput>,
    // what all sessions were asked to do last
    order: Mutex<Order>,
    // how often there were news
    news: AtomicU64,
    // how many sessions don't follow them
    working: AtomicU64,
}

impl Model for Desks {
    ghost use Rattle.std.specs.Prelude.{ℕ, length};
    ghost use Rattle.client_desks.specs.Slots.{AreInOrder};

    ghost Value = { ℕ };

    ghost view = { λ inside. length inside.slots.items };

    ghost invariant = { λ inside. AreInOrder inside.slots.items };
}

impl Desks {
    ghost use Rattle.client_desks.specs.Desks.{place_of};

    /// So many empty desks, of the places from 0 on.
    pub fn new(alloc: Global, clients: usize) -> Result<Desks, AllocError>
        requires { clients ≤ MOST_CLIENTS }
        ensures { IfOk result (λ desks. desks ≡ clients) }
    {
        Ok(Desks {
            slots: new_slots(alloc, clients)?,
            output: Mutex::new(FrameOutput::new(alloc)?),
            order: Mutex::new(Order::Serve),
            news: AtomicU64::new(0),
            working: AtomicU64::new(0),
        })
    }

    /// How many desks there are.
    pub fn count(&self) -> usize
        ensures { result ≡ self.now }
    {
        self.slots.len()
    }

    /// How many desks have a client. Each is looked at by itself, so clients may come and go meanwhile.
    pub fn clients<R: Wait>(&self, rt: &R) -> usize
        ensures { result ≤ self.now }
    {
        let mut clients = 0;
        for index in 0..self.slots.len() {
            if self.slots[index].has_client(rt) {
                clients += 1;
            }
        }
        clients
    }

    /// The desk of this place.
    pub fn desk(&self, index: usize) -> Option<Desk<'_>>
        ensures is_there { IsSome result ↔ (index < self.now) }
        ensures place { IfSome result (λ desk. place_of desk ≡ index) }
    {
        let slot = self.slots.get(index)?;
        Some(Desk::new(self, slot))
    }

    /// The service is to stop: no session gets a further line.
    pub fn stop<R: Wait>(&self, rt: &R) {
        let mut guard = self.order.lock(rt);
        *guard = Order::Stop;
        self.give(rt, Order::Stop);
        let _ = MutexGuard::unlock(guard);
    }

    /// Sessions are to end, and their clients stay. After a stop nothing changes, nor does a rest at once become one soon.
    pub fn rest<R: Wait>(&self, rt: &R, how: Rest) {
        let mut guard = self.order.lock(rt);
        let order = (*guard).with_rest(how);
        *guard = order;
        self.give(rt, order);
        let _ = MutexGuard::unlock(guard);
    }

    /// The rest that was asked for, if sessions are to rest.
    pub fn rest_asked<R: Wait>(&self, rt: &R) -> Option<Rest> {
        let guard = self.order.lock(rt);
        let order = *guard;
        let _ = MutexGuard::unlock(guard);
        order.rest()
    }

    /// The rest is over. Each client that stayed goes on.
    pub fn begin_generation<R: Wait>(&self, rt: &R) {
        let mut guard = self.order.lock(rt);
        let order = (*guard).without_rest();
        *guard = order;
        self.give(rt, order);
        let _ = MutexGuard::unlock(guard);
    }

    // gives each desk an order
    fn give<R: Wait>(&self, rt: &R, order: Order) {
        for slot in self.slots.iter() {
            slot.give(rt, order);
        }
    }

    /// There are news: each session that follows them is woken. No lock is taken of a desk whose session doesn't.
    pub fn tell_news<R: Wait>(&self, rt: &R) {
        self.news.fetch_add(1, Ordering::SeqCst);
        for slot in self.slots.iter() {
            slot.wake_follower(rt);
        }
    }

    /// A session begins, or follows no news any more.
    pub(crate) fn begin_work(&self) {
        self.working.fetch_add(1, Ordering::SeqCst);
    }

    /// A session has ended, or follows news from now on. Those that follow are woken.
    pub(crate) fn end_work<R: Wait>(&self, rt: &R) {
        self.working.fetch_sub(1, Ordering::SeqCst);
        self.tell_news(rt);
    }

    /// Whether a session doesn't follow news.
    pub(crate) fn is_at_work(&self) -> bool {
        self.working.load(Ordering::SeqCst) != 0
    }

    /// The count of news.
    pub(crate) fn news(&self) -> &AtomicU64 {
        &self.news
    }

    /// Whether a frame could not be written. All desks were told to stop then.
    pub fn has_failed<R: Wait>(&self, rt: &R) -> bool {
        let guard = self.output.lock(rt);
        let has_failed = (&*guard).has_failed();
        let _ = MutexGuard::unlock(guard);
        has_failed
    }

    /// Tells the broker that the store is open.
    pub fn write_ready<R: Wait + Print>(&self, rt: &R) -> io::Result<()> {
        self.write(rt, &Frame::Ready)
    }

    /// Writes a frame. If it can't be written, all desks are told to stop.
    pub(crate) fn write<R: Wait + Print>(&self, rt: &R, frame: &Frame) -> io::Result<()> {
        let mut guard = self.output.lock(rt);
        let written = (&mut *guard).write(&mut io::writer(rt), frame);
        let _ = MutexGuard::unlock(guard);
        if written.is_err() {
            self.stop(rt);
        }
        written
    }

    /// Puts what a frame says on the desk of its place, if it is due there.
    pub(crate) fn deliver<R: Wait>(
        &self,
        rt: &R,
        alloc: Global,
        frame: Frame,
    ) -> Result<(), OutOfTurn>
        ensures { OnOk result (IsToPlaceBelow self.now frame) }
    {
        match frame {
            Frame::Ready => Err(OutOfTurn),
            Frame::Open { place } => self.slot(place)?.open(rt, alloc),
            Frame::Data { place, piece } => self.slot(place)?.hear(rt, place, Said::Data(piece)),
            Frame::More { place } => self.slot(place)?.hear(rt, place, Said::More),
            Frame::End { place } => self.slot(place)?.hear(rt, place, Said::End),
            Frame::Gone { place } => self.slot(place)?.hear(rt, place, Said::Gone),
        }
    }

    fn slot(&self, place: ClientPlace) -> Result<&Slot, OutOfTurn>
        ensures below { IfOk result (λ slot. place < self.now) }
        ensures place { IfOk result (λ slot. slot.now.place ≡ place) }
    {
        let number = usize::from(place.number());
        self.slots.get(number).ok_or(OutOfTurn)
    }
}

// so many empty slots
fn new_slots(alloc: Global, count: usize) -> Result<Vec<Slot>, AllocError>
    requires { count ≤ MOST_CLIENTS }
    ensures count { IfOk result (λ slots. length slots.items ≡ count) }
    ensures order { IfOk result (λ slots. AreInOrder slots.items) }
{
    let mut slots = Vec::new(alloc);
    for number in 0..count {
        let Some(place) = ClientPlace::new(number as u8) else {
            unreachable!()
        };
        match slots.push(Slot::new(place)) {
            Ok(()) => {}
            Err(why) => return Err(why.into()),
        }
    }
    Ok(slots)
}
