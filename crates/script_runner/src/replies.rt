//! An answer of the store as the reply to a line.
ghost use Rattle.std.specs.Prelude.{◌≡◌};
ghost use Rattle.script_runner.specs.Faults.{is_device_reply};
ghost use Rattle.script_runner.specs.Scripts.{reply_of, found_reply, accepted_reply, added_reply, outcome_reply, step_reply};

use refusals::Refusal;
use reg_tree::Value;
use reply_lines::ReplyLine;
use store_model::{Outcome, Progress, ReadResult, Reply};

/// The reply to the line that asked. A change that is to be waited for is reported as accepted, for the lines that wait
/// have replies of their own. A receipt is no line's reply, and no line asks for a subkey by its index.
pub fn reply_of(answer: Reply) -> ReplyLine
    ensures { result ≡ reply_of answer }
{
    match answer {
        Reply::Accepted { levels, number } => accepted_reply(levels, number),
        Reply::Added { levels } => added_reply(levels),
        Reply::Opened => ReplyLine::Opened,
        Reply::Read { found } => found_reply(found),
        Reply::OutcomeIs { outcome } => outcome_reply(outcome),
        Reply::CommittedAs { number } => ReplyLine::Committed { number },
        Reply::Refused { refusal } => ReplyLine::Refused { refusal },
        Reply::Awaits { number } => ReplyLine::Accepted { number },
        Reply::Stepped { progress } => step_reply(progress),
        Reply::Folded { number } => ReplyLine::Folded { number },
        Reply::NotYet => ReplyLine::NotYet,
        Reply::Done | Reply::Begun { .. } | Reply::Receipt { .. } => ReplyLine::Done,
    }
}

/// Whether a reply reports a failure of the device, in this call or in an earlier one.
pub(crate) fn is_device_reply(reported: &ReplyLine) -> bool
    ensures { result ≡ is_device_reply reported.now }
{
    match reported {
        ReplyLine::Refused {
            refusal: Refusal::DiskFault | Refusal::Faulted,
        } => true,
        _ => false,
    }
}

fn step_reply(progress: Progress) -> ReplyLine
    ensures { result ≡ step_reply progress }
{
    match progress {
        Progress::Idle => ReplyLine::StepIdle,
        Progress::More => ReplyLine::StepMore,
        Progress::Done => ReplyLine::StepDone,
    }
}

fn accepted_reply(levels: Option<usize>, number: u64) -> ReplyLine
    ensures { result ≡ accepted_reply levels number }
{
    match levels {
        Some(levels) => ReplyLine::Created { levels, number },
        None => ReplyLine::Accepted { number },
    }
}

fn added_reply(levels: Option<usize>) -> ReplyLine
    ensures { result ≡ added_reply levels }
{
    match levels {
        Some(levels) => ReplyLine::CreatedInside { levels },
        None => ReplyLine::Done,
    }
}

fn found_reply(found: ReadResult) -> ReplyLine
    ensures { result ≡ found_reply found }
{
    match found {
        ReadResult::Value { value } => {
            let Value { kind, data, .. } = value;
            ReplyLine::Value { kind, data }
        }
        ReadResult::Key { .. } => ReplyLine::Done,
        ReadResult::Keys { names } => ReplyLine::Keys { names },
        ReadResult::ValueNames { names } => ReplyLine::Values { names },
        ReadResult::Counts { info } => ReplyLine::Info {
            subkeys: info.subkeys,
            values: info.values,
            time: info.time,
        },
    }
}

fn outcome_reply(outcome: Outcome) -> ReplyLine
    ensures { result ≡ outcome_reply outcome }
{
    match outcome {
        Outcome::Active => ReplyLine::StillActive,
        Outcome::Committed => ReplyLine::HasCommitted,
        Outcome::RolledBack => ReplyLine::RolledBack,
    }
}
