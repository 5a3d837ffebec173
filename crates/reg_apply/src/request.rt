//! What is asked of an application beside its file.
ghost use Rattle.reg_apply.specs.Applied.{IsUnit, unit_of};

use reg_prefixes::Prefixes;
use uuid::Uuid;

/// The unit of work that an application is for.
#[derive(Clone, Copy)]
pub enum UnitOfWork {
    /// One of its own, which is made of the moment and the number of the store's last change.
    Own,
    /// This one, whether the store keeps a commit of it or not.
    Again(Uuid),
    /// This one, if the store keeps no commit of it; else nothing is changed.
    Once(Uuid),
}

/// How a file is to be applied.
#[derive(Clone, Copy)]
pub struct ApplyRequest<'a> {
    /// The prefixes by which its paths name hives.
    pub prefixes: &'a Prefixes,
    /// The moment of the change: 100 nanoseconds since the year 1601.
    pub moment: u64,
    /// The unit of work that the transaction is for.
    pub unit: UnitOfWork,
}

impl ApplyRequest<'_> {
    /// The unit of work, if the store's last change has this number.
    pub(crate) fn unit_of_work(&self, number: u64) -> Uuid
        ensures { IsUnit (unit_of self.now.unit) result }
    {
        match self.unit {
            UnitOfWork::Again(id) | UnitOfWork::Once(id) => id,
            UnitOfWork::Own => Uuid::from_u64_pair(self.moment, number),
        }
    }
}
