//! What a request of a script asks for, once its names are found right.
ghost use Rattle.std.specs.Prelude.{◌≡◌, ◌⊎◌, Ok, Err, IfOk, IfErr};
ghost use Rattle.refusals.specs.declared.refusal.Refusal.TheVariants.{NoMemory};
ghost use Rattle.script_runner.specs.Requests.{key_ref_of, operation_of, operation_at};

use refusals::Refusal;
use reg_names::{Name, Path};
use reg_tree::Op;
use script_syntax::{KeyRef, Request};
use std::alloc::Global;
use store_model::Question;

/// What a request asks for.
#[derive(Drop)]
pub enum Operation {
    /// An operation is to be carried out.
    Write {
        /// The operation.
        op: Op,
    },
    /// A key is to be read.
    Read {
        /// The hive's number.
        hive: u8,
        /// The key's path.
        path: Path,
        /// What is read of it.
        question: Question,
    },
}

/// What the request asks for. Its path is tested first, then a value's name: refused as the test refuses them, and with
/// `NoMemory`.
pub fn operation_of(alloc: Global, request: Request) -> Result<Operation, Refusal>
    ensures ok { IfOk result (λ asked. operation_of request ≡ Ok asked) }
    ensures refused { IfErr result (λ refusal. (operation_of request ≡ Err refusal)
        ⊎ (refusal ≡ NoMemory)) }
{
    let key_ref = key_ref_of(&request);
    let hive = key_ref.hive;
    let path = Path::parse(alloc, key_ref.path.units())?;
    operation_at(alloc, request, hive, path)
}

fn key_ref_of(request: &Request) -> &KeyRef
    ensures { result.now ≡ key_ref_of request.now }
{
    match request {
        Request::Create { key_ref }
        | Request::Delete { key_ref }
        | Request::Set { key_ref, .. }
        | Request::Unset { key_ref, .. }
        | Request::Get { key_ref, .. }
        | Request::Keys { key_ref }
        | Request::Values { key_ref }
        | Request::Info { key_ref } => key_ref,
    }
}

// what the request asks of the key at this path
fn operation_at(alloc: Global, request: Request, hive: u8, path: Path) -> Result<Operation, Refusal>
    ensures ok { IfOk result (λ asked. operation_at request hive path ≡ Ok asked) }
    ensures refused { IfErr result (λ refusal. (operation_at request hive path ≡ Err refusal)
        ⊎ (refusal ≡ NoMemory)) }
{
    Ok(match request {
        Request::Create { key_ref: _place } => write_operation(Op::CreateKey { hive, path }),
        Request::Delete { key_ref: _place } => write_operation(Op::DeleteKey { hive, path }),
        Request::Set {
            key_ref: _place,
            name,
            kind,
            data,
        } => {
            let name = Name::value(alloc, name.units())?;
            write_operation(Op::SetValue {
                hive,
                path,
                name,
                kind,
                data,
            })
        }
        Request::Unset {
            key_ref: _place,
            name,
        } => {
            let name = Name::value(alloc, name.units())?;
            write_operation(Op::DeleteValue { hive, path, name })
        }
        Request::Get {
            key_ref: _place,
            name,
        } => {
            let name = Name::value(alloc, name.units())?;
            read_operation(hive, path, Question::ValueOf { name })
        }
        Request::Keys { key_ref: _place } => read_operation(hive, path, Question::KeysOf),
        Request::Values { key_ref: _place } => read_operation(hive, path, Question::ValuesOf),
        Request::Info { key_ref: _place } => read_operation(hive, path, Question::InfoOf),
    })
}

fn write_operation(op: Op) -> Operation
    ensures { result ≡ Operation.Write op }
{
    Operation::Write { op }
}

fn read_operation(hive: u8, path: Path, question: Question) -> Operation
    ensures { result ≡ Operation.Read hive path question }
{
    Operation::Read {
        hive,
        path,
        question,
    }
}
