//! Who may ask for events.
//!
//! A permission is a share of a ledger, whose book counts what was asked for. Of a history that has a sole asker it has all
//! of the ledger's parts. Of another one it has one part, and the ledger as many as there are permissions. So who has all of
//! the parts knows, by the book, how many events were asked for.
ghost use Rattle.std.specs.Prelude.{◌≡◌, ◌+◌, ◌<◌, ◌≤◌, true, false};
ghost use Rattle.histories.specs.Asked.{is_asked as is_asked_by};
ghost use Rattle.histories.specs.Permissions.{parts_each};

use crate::start::Start;
use std::marker::Model;
use std::sync::ledger::{Book, Share};
use store_model::Event;

/// The right to ask for events, or none. It has no bytes but a flag.
pub struct Permission<O: Start> {
    share: Option<Share<O>>,
}

impl<O: Start> Drop for Permission<O> {
    // one drop for all that own one, whose proofs see no more of it than that
    fn drop(self) {
        let Permission { share: _ } = self;
    }
}

impl<O: Start> Model for Permission<O> {
    ghost use Rattle.std.specs.Prelude.{◌≡◌, ◌<◌, IfSome, is_some};
    ghost use Rattle.histories.specs.Permissions.{Right, asked_by, parts_each, right_code};

    ghost Value = { Right };

    ghost coded = { right_code };

    ghost view = { λ p. record { held = is_some p.share; asked = asked_by (λ s. s.amount) p.share } };

    ghost invariant = { λ p. IfSome p.share (λ s. (s.parts ≡ parts_each O.sole O.parts) × (0 < s.parts)) };
}

impl<O: Start> Permission<O> {
    /// That of the sole asker, which has not asked for anything.
    pub fn sole(share: Share<O>) -> Permission<O>
        requires sole { O.sole ≡ true }
        requires whole { share.parts ≡ O.parts }
        requires parts { 0 < share.parts }
        requires unused { share.amount ≡ 0 }
        ensures { result ≡ record { held = true; asked = 0 } }
    {
        Permission { share: Some(share) }
    }

    /// None, for what nobody asks for.
    pub fn none() -> Permission<O>
        ensures { result ≡ record { held = false; asked = 0 } }
    {
        Permission { share: None }
    }

    // its part of the ledger
    fn into_share(self) -> Share<O>
        requires held { self.held ≡ true }
        ensures parts { result.parts ≡ parts_each O.sole O.parts }
        ensures amount { result.amount ≡ self.asked }
    {
        let Permission { share } = self;
        match share {
            Some(share) => share,
            None => unreachable!(),
        }
    }
}

/// The permissions of a history of which several may ask for events, as far as nobody has them. It has no bytes.
pub struct PermissionPool<O: Start> {
    share: Share<O>,
}

impl<O: Start> Drop for PermissionPool<O> {
    fn drop(self) {
        let PermissionPool { share: _ } = self;
    }
}

impl<O: Start> Model for PermissionPool<O> {
    ghost use Rattle.histories.specs.Permissions.{Pool, pool_code};

    ghost Value = { Pool };

    ghost coded = { pool_code };

    ghost view = { λ p. record { left = p.share.parts; asked = p.share.amount } };
}

impl<O: Start> PermissionPool<O> {
    /// All of them, with which nothing was asked for.
    pub fn new(share: Share<O>) -> PermissionPool<O>
        requires whole { share.parts ≡ O.parts }
        requires unused { share.amount ≡ 0 }
        ensures { result ≡ record { left = O.parts; asked = 0 } }
    {
        PermissionPool { share }
    }

    /// One permission, which came back.
    pub fn of(permission: Permission<O>) -> PermissionPool<O>
        requires held { permission.held ≡ true }
        ensures { result ≡ record { left = parts_each O.sole O.parts; asked = permission.asked } }
    {
        PermissionPool {
            share: permission.into_share(),
        }
    }

    /// One of them, before any came back.
    pub fn take(&mut self) -> Permission<O>
        requires several { O.sole ≡ false }
        requires left { 0 < self.old.left }
        requires unused { self.old.asked ≡ 0 }
        ensures left { self.new.left + 1 ≡ self.old.left }
        ensures unused { self.new.asked ≡ 0 }
        ensures taken { result ≡ record { held = true; asked = 0 } }
    {
        let share = self.share.split_off(1, 0);
        Permission { share: Some(share) }
    }

    /// One of them comes back.
    pub fn give_back(&mut self, permission: Permission<O>)
        requires several { O.sole ≡ false }
        requires held { permission.held ≡ true }
        ensures left { self.new.left ≡ self.old.left + 1 }
        ensures asked { self.new.asked ≡ self.old.asked + permission.asked }
    {
        self.share.merge(permission.into_share());
    }
}

/// How many events of a history were asked for. It has no bytes.
pub struct RequestCount<O: Start> {
    book: Book<O>,
}

impl<O: Start> Drop for RequestCount<O> {
    fn drop(self) {
        let RequestCount { book: _ } = self;
    }
}

impl<O: Start> Model for RequestCount<O> {
    ghost use Rattle.std.specs.Prelude.{ℕ};
    ghost use Rattle.std.specs.Coded.{coded_ℕ};

    ghost Value = { ℕ };

    ghost coded = { coded_ℕ };

    ghost view = { λ c. c.book.total };
}

impl<O: Start> RequestCount<O> {
    /// The count that the book of the ledger keeps.
    pub fn new(book: Book<O>) -> RequestCount<O>
        ensures { result ≡ book.total }
    {
        RequestCount { book }
    }

    /// Counts an event that the owner of a permission asked for, if it was asked for.
    pub fn count(&mut self, permission: &mut Permission<O>, is_asked: bool)
        requires may { is_asked ≡ true → permission.old.held ≡ true }
        ensures held { permission.new.held ≡ permission.old.held }
        ensures counted { is_asked ≡ true →
            (self.new ≡ self.old + 1) × (permission.new.asked ≡ permission.old.asked + 1) }
        ensures unasked { is_asked ≡ false → (self.new ≡ self.old) × (permission.new ≡ permission.old) }
    {
        if is_asked {
            if let Some(share) = &mut permission.share {
                self.book.add(share, 1);
            }
        }
    }

    /// That the owner of a permission asked for no more than was asked for, and the sole asker for all of it.
    pub fn audit(&mut self, permission: &mut Permission<O>)
        ensures same { (self.new ≡ self.old) × (permission.new ≡ permission.old) }
        ensures bound { permission.old.asked ≤ self.old }
        ensures whole { O.sole ≡ true → permission.old.held ≡ true → permission.old.asked ≡ self.old }
    {
        if let Some(share) = &mut permission.share {
            self.book.audit(share);
        }
    }

    /// That nothing was asked for but with permissions that came back, if each has come back.
    pub fn audit_pool(&mut self, pool: &mut PermissionPool<O>)
        ensures same { (self.new ≡ self.old) × (pool.new ≡ pool.old) }
        ensures whole { pool.old.left ≡ O.parts → pool.old.asked ≡ self.old }
    {
        self.book.audit(&mut pool.share);
    }
}

/// Whether somebody asks for an event.
pub fn is_asked(event: &Event) -> bool
    ensures { result ≡ is_asked_by event.now }
{
    !matches!(
        event,
        Event::JournalStep
            | Event::FlusherStep { .. }
            | Event::TrimStep
            | Event::Acked { .. }
            | Event::Fold
    )
}
