//! The disk as everything above sees it. What it promises is what a crash may leave, and nothing about when it fails.
ghost use Rattle.std.specs.Prelude.{◌≡◌, ℕ, ◌<◌, ◌≤◌, length, IfOk, OnOk, OnErr};
ghost use Rattle.disk_model.specs.FileState.{FileState, Writes, MayWrite, Cuts, MayCut, Syncs, IsSound};
ghost use Rattle.disk_model.specs.Call.{Passes, KeepsOthers, CountsFailure, ReadGives};
ghost use Rattle.refusals.specs.declared.refusal.Refusal.TheVariants.{DiskFault};

use refusals::Refusal;
use std::alloc::AllocError;

/// The device failed in this call.
#[derive(Clone, Copy, Debug, PartialEq, Eq)]
pub struct Failed;

impl From<AllocError> for Failed {
    fn from(_: AllocError) -> Failed {
        Failed
    }
}

impl From<Failed> for Refusal {
    ghost from_gives = { λ _ refusal. refusal ≡ DiskFault };

    fn from(_: Failed) -> Refusal {
        Refusal::DiskFault
    }
}

/// Files by number. A file that was never written is empty, unless the type of the disk says what its files first have.
///
/// Each call, also one that reads or fails, is one moment of the disk's clock. After a call that failed the disk may be
/// used further. A failed write or cut may have done any part of it.
///
/// What is said of bytes is under `faithful` of the disk *after* the call: that the device has answered, up to and with
/// this call, as this contract says. No proof knows what real files give. So a disk over them keeps a record of the
/// calls and their answers that only contracts read. Its premise is that each answer is one that the states allow,
/// beginning at what a type parameter says that the files first hold. Such a premise can be true. (A fact that a disk
/// must keep from before a call to after it could not be: only an impossible one stays true whatever a file gives.) A
/// caller has the premise of the disk as it is at the end, and so of each moment before.
pub trait Disk {
    /// The state of each file at each moment: first the moment, then the file.
    ghost state_at: { Self → ℕ → ℕ → FileState };

    /// The present moment, as the number of calls so far.
    ghost clock: { Self → ℕ };

    /// How many calls have failed.
    ghost failures: { Self → ℕ };

    /// The device has done so far what this contract says of bytes. It is a premise for a real device, which no proof
    /// can give; what holds of a later disk held of it at each earlier moment.
    ghost faithful: { Self → Type 0 };

    /// The length of a file in bytes.
    fn len(&mut self, file: u32) -> Result<u64, Failed>
        ensures len { IfOk result (λ n. faithful self.new →
            n ≡ length (state_at self.old (clock self.old) file).seen) }
        ensures same { (f : ℕ) → state_at self.new (clock self.new) f
            ≡ state_at self.old (clock self.old) f }
        ensures time { Passes (state_at self.old) (state_at self.new) (clock self.old)
            (clock self.new) }
        ensures failures { CountsFailure result (failures self.old) (failures self.new) }
        ensures faithful { faithful self.new → faithful self.old };

    /// Reads from an offset in bytes on into the front of `buffer`, and answers how many bytes there were.
    fn read(&mut self, file: u32, offset: u64, buffer: &mut [u8]) -> Result<usize, Failed>
        ensures count { IfOk result (λ n. n ≤ length buffer.old) }
        ensures read { IfOk result (λ n. faithful self.new →
            ReadGives offset (state_at self.old (clock self.old) file).seen buffer.old buffer.new n) }
        ensures same { (f : ℕ) → state_at self.new (clock self.new) f
            ≡ state_at self.old (clock self.old) f }
        ensures time { Passes (state_at self.old) (state_at self.new) (clock self.old)
            (clock self.new) }
        ensures failures { CountsFailure result (failures self.old) (failures self.new) }
        ensures faithful { faithful self.new → faithful self.old };

    /// Writes at an offset in bytes. Past the end the file gets longer, with zeros between. Until a sync a crash may
    /// leave any bytes in the range.
    fn write_at(&mut self, file: u32, offset: u64, bytes: &[u8]) -> Result<(), Failed>
        ensures written { OnOk result (faithful self.new → Writes offset bytes.now
            (state_at self.old (clock self.old) file) (state_at self.new (clock self.new) file)) }
        ensures failed { OnErr result (faithful self.new → MayWrite offset bytes.now
            (state_at self.old (clock self.old) file) (state_at self.new (clock self.new) file)) }
        ensures others { KeepsOthers file
            (state_at self.old (clock self.old)) (state_at self.new (clock self.new)) }
        ensures time { Passes (state_at self.old) (state_at self.new) (clock self.old)
            (clock self.new) }
        ensures failures { CountsFailure result (failures self.old) (failures self.new) }
        ensures faithful { faithful self.new → faithful self.old };

    /// Makes a file `len` bytes long: cuts it, or puts zeros after it.
    fn cut(&mut self, file: u32, len: u64) -> Result<(), Failed>
        ensures cut { OnOk result (faithful self.new → Cuts len
            (state_at self.old (clock self.old) file) (state_at self.new (clock self.new) file)) }
        ensures failed { OnErr result (faithful self.new → MayCut len
            (state_at self.old (clock self.old) file) (state_at self.new (clock self.new) file)) }
        ensures others { KeepsOthers file
            (state_at self.old (clock self.old)) (state_at self.new (clock self.new)) }
        ensures time { Passes (state_at self.old) (state_at self.new) (clock self.old)
            (clock self.new) }
        ensures failures { CountsFailure result (failures self.old) (failures self.new) }
        ensures faithful { faithful self.new → faithful self.old };

    /// After it a crash leaves what a read gives. A sync that failed keeps nothing: what was on its way still is.
    fn sync(&mut self, file: u32) -> Result<(), Failed>
        ensures synced { OnOk result (faithful self.new → Syncs
            (state_at self.old (clock self.old) file) (state_at self.new (clock self.new) file)) }
        ensures failed { OnErr result (faithful self.new →
            state_at self.new (clock self.new) file ≡ state_at self.old (clock self.old) file) }
        ensures others { KeepsOthers file
            (state_at self.old (clock self.old)) (state_at self.new (clock self.new)) }
        ensures time { Passes (state_at self.old) (state_at self.new) (clock self.old)
            (clock self.new) }
        ensures failures { CountsFailure result (failures self.old) (failures self.new) }
        ensures faithful { faithful self.new → faithful self.old };

    /// What a read gives is one of the contents that a crash may leave.
    ghost sound: { (disk : Self) (k f : ℕ) →
        faithful disk → k ≤ clock disk → IsSound (state_at disk k f) };
}
