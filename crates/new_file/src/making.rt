//! How a file is made.
ghost use Rattle.std.specs.Prelude.{◌≡◌, ◌∷◌, [], true, false, OnOk, OnErr, IfErr};
ghost use Rattle.new_file.specs.Calls.{NamesAfterSync, has_failed, is_kept, is_made, is_named, filling, part_of, whole, written, synced};
ghost use Rattle.new_file.specs.Makings.{AddsNoName, IsMakeError};

use crate::calls::FileMaking;
use std::io::{self, ErrorKind};

/// Why no file was made, or why it may not last.
#[derive(Debug, Drop)]
pub enum MakeError {
    /// Something has the file's name. Nothing was done.
    IsThere,
    /// Something has the name of its part. Nothing was done.
    PartIsThere,
    /// The system refuses something. The file isn't there, and its part was removed, if the system did that.
    Denied(io::Error),
    /// The file is there, whole. But its part's name wasn't removed, or a power cut may take the file's.
    NotKept(io::Error),
}

// how a file got its name
#[derive(Clone, Copy)]
enum Naming {
    // its part has its own name still
    Linked,
    // its part has no other
    Renamed,
}

/// Makes a file with these bytes where nothing has its name, so that it lasts.
///
/// Wherever the calls are cut, the file isn't there, or all its bytes were on the disk before it got its name. The part of
/// another run is left as it is.
pub fn make<F: FileMaking>(file: &mut F, bytes: &[u8]) -> Result<(), MakeError>
    requires { F.calls file.old ≡ [] }
    ensures safe { NamesAfterSync bytes.now (F.calls file.new) }
    ensures kept { OnOk result (is_kept (F.calls file.new) ≡ true) }
    ensures refused { IfErr result (IsMakeError (F.calls file.new)) }
{
    if let Ok(true) = file.look() {
        return Err(MakeError::IsThere);
    }
    match file.create() {
        Ok(()) => make_of_part(file, bytes),
        Err(error) if error.kind() == ErrorKind::AlreadyExists => Err(MakeError::PartIsThere),
        Err(error) => Err(MakeError::Denied(error)),
    }
}

// makes a file of its part, which is empty
fn make_of_part<F: FileMaking>(file: &mut F, bytes: &[u8]) -> Result<(), MakeError>
    requires empty { part_of (F.calls file.old) ≡ filling [] }
    requires made { is_made (F.calls file.old) ≡ true }
    requires named { is_named (F.calls file.old) ≡ false }
    requires safe { NamesAfterSync bytes.now (F.calls file.old) }
    ensures safe { NamesAfterSync bytes.now (F.calls file.new) }
    ensures kept { OnOk result (is_kept (F.calls file.new) ≡ true) }
    ensures refused { IfErr result (IsMakeError (F.calls file.new)) }
{
    match fill(file, bytes) {
        Ok(()) => place(file, bytes),
        Err(error) => {
            give_up(file);
            Err(MakeError::Denied(error))
        }
    }
}

// gives a part its file's name, if it has these bytes
fn place<F: FileMaking>(file: &mut F, bytes: &[u8]) -> Result<(), MakeError>
    requires whole { part_of (F.calls file.old) ≡ whole bytes.now }
    requires made { is_made (F.calls file.old) ≡ true }
    requires named { is_named (F.calls file.old) ≡ false }
    requires safe { NamesAfterSync bytes.now (F.calls file.old) }
    ensures safe { NamesAfterSync bytes.now (F.calls file.new) }
    ensures kept { OnOk result (is_kept (F.calls file.new) ≡ true) }
    ensures refused { IfErr result (IsMakeError (F.calls file.new)) }
{
    match name(file, bytes) {
        Ok(naming) => settle(file, naming),
        Err(error) => {
            give_up(file);
            Err(MakeError::Denied(error))
        }
    }
}

// puts the bytes into a part, and on the disk
fn fill<F: FileMaking>(file: &mut F, bytes: &[u8]) -> io::Result<()>
    ensures done { OnOk result (F.calls file.new ≡ synced true ∷ written bytes.now true ∷ F.calls file.old) }
    ensures failed { OnErr result (AddsNoName (F.calls file.old) (F.calls file.new)) }
    ensures why { OnErr result (has_failed (F.calls file.new) ≡ true) }
{
    file.write(bytes)?;
    file.sync()
}

// takes away the part of a file that isn't made
fn give_up<F: FileMaking>(file: &mut F)
    requires { is_made (F.calls file.old) ≡ true }
    ensures { AddsNoName (F.calls file.old) (F.calls file.new) }
{
    // what a failed run leaves is told the next time
    let _ = file.remove_part();
}

// gives a part its file's name, if it has these bytes
fn name<F: FileMaking>(file: &mut F, bytes: &[u8]) -> io::Result<Naming>
    requires whole { part_of (F.calls file.old) ≡ whole bytes.now }
    requires made { is_made (F.calls file.old) ≡ true }
    requires named { is_named (F.calls file.old) ≡ false }
    requires safe { NamesAfterSync bytes.now (F.calls file.old) }
    ensures safe { NamesAfterSync bytes.now (F.calls file.new) }
    ensures made { is_made (F.calls file.new) ≡ true }
    ensures named { OnOk result (is_named (F.calls file.new) ≡ true) }
    ensures failed { OnErr result (is_named (F.calls file.new) ≡ false) }
    ensures why { OnErr result (has_failed (F.calls file.new) ≡ true) }
{
    match file.link() {
        Ok(()) => Ok(Naming::Linked),
        Err(error) if has_no_links(error.kind()) => name_without_link(file, bytes),
        Err(error) => Err(error),
    }
}

// whether a file system says so that has no links, such as FAT
fn has_no_links(kind: ErrorKind) -> bool {
    matches!(kind, ErrorKind::PermissionDenied | ErrorKind::Unsupported)
}

// the same without a link: another program may come between the look and the renaming
fn name_without_link<F: FileMaking>(file: &mut F, _bytes: &[u8]) -> io::Result<Naming>
    requires failed { has_failed (F.calls file.old) ≡ true }
    requires whole { part_of (F.calls file.old) ≡ whole _bytes.now }
    requires made { is_made (F.calls file.old) ≡ true }
    requires named { is_named (F.calls file.old) ≡ false }
    requires safe { NamesAfterSync _bytes.now (F.calls file.old) }
    ensures safe { NamesAfterSync _bytes.now (F.calls file.new) }
    ensures made { is_made (F.calls file.new) ≡ true }
    ensures named { OnOk result (is_named (F.calls file.new) ≡ true) }
    ensures failed { OnErr result (is_named (F.calls file.new) ≡ false) }
    ensures why { OnErr result (has_failed (F.calls file.new) ≡ true) }
{
    match file.look() {
        Ok(false) => {}
        Ok(true) => return Err(ErrorKind::AlreadyExists.into()),
        Err(error) => return Err(error),
    }
    match file.rename() {
        Ok(()) => Ok(Naming::Renamed),
        Err(error) => Err(error),
    }
}

// takes the part's name away, if it has it still, and puts the file's name on the disk
fn settle<F: FileMaking>(file: &mut F, naming: Naming) -> Result<(), MakeError>
    requires made { is_made (F.calls file.old) ≡ true }
    requires named { is_named (F.calls file.old) ≡ true }
    ensures added { AddsNoName (F.calls file.old) (F.calls file.new) }
    ensures kept { OnOk result (is_kept (F.calls file.new) ≡ true) }
    ensures refused { IfErr result (IsMakeError (F.calls file.new)) }
{
    if let Naming::Linked = naming {
        match file.remove_part() {
            Ok(()) => {}
            Err(error) => return Err(MakeError::NotKept(error)),
        }
    }
    match file.sync_folder() {
        Ok(()) => Ok(()),
        Err(error) => Err(MakeError::NotKept(error)),
    }
}
