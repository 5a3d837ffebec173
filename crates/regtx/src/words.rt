//! The words of the command line: one level of sub-commands, with positional arguments alone.

use crate::command_error::CommandError;
use crate::tasks::{ExportForm, HiveCount, RecoveryTask, Sources, Task};
use crate::value_words::parse_value_task;
use base_block::SequenceNumber;
use clap::{Arg, ArgAction, ArgMatches, Command};
use hive_recovery::RecoveryLimits;
use recovery_report::Wholeness;
use refusals::limits::MOST_HIVES;
use std::alloc::{AllocError, Global};
use uuid::Uuid;

/// The most words that name prefixes, a key or a unit of work.
const MOST_WORDS: usize = 64;

/// What the words ask for. Any other words are wrong.
pub fn parse_task<'a>(alloc: Global, words: &'a [String]) -> Result<Task<'a>, CommandError<'a>> {
    if let Some(task) = parse_value_task(words) {
        return task;
    }
    // clap would leave it out
    if words.iter().any(|word| word.as_str() == "--") {
        return Err(CommandError::WrongWords);
    }
    parse_command(alloc, words)
}

// what the words of a command that clap reads ask for
fn parse_command<'a>(alloc: Global, words: &'a [String]) -> Result<Task<'a>, CommandError<'a>> {
    let matches = command(alloc)?.try_get_matches_from(words)?;
    match matches.subcommand() {
        Some(("play", given)) => Ok(Task::Play {
            script: text(given, "SCRIPT")?,
        }),
        Some(("lab", given)) => Ok(Task::Lab {
            script: text(given, "SCRIPT")?,
        }),
        Some(("sweep", given)) => Ok(Task::Sweep {
            script: text(given, "SCRIPT")?,
        }),
        Some(("run", given)) => Ok(Task::Run {
            folder: text(given, "DIR")?,
            script: text(given, "SCRIPT")?,
        }),
        Some(("serve", given)) => Ok(Task::Serve {
            folder: text(given, "DIR")?,
            backups: given.get_str("BACKUPS"),
        }),
        Some(("dump", given)) => Ok(Task::Dump {
            file: text(given, "FILE")?,
        }),
        Some(("new", given)) => Ok(Task::New {
            folder: text(given, "DIR")?,
            id: id(given)?,
            count: hive_count(text(given, "COUNT")?)?,
        }),
        Some(("import", given)) => Ok(Task::Import {
            folder: text(given, "DIR")?,
            id: id(given)?,
            sources: sources_named(alloc, given)?,
        }),
        Some(("upgrade", given)) => Ok(Task::Upgrade {
            source: text(given, "OLD")?,
            folder: text(given, "NEW")?,
        }),
        Some((name, given)) => parse_file_task(alloc, name, given),
        _ => Err(CommandError::WrongWords),
    }
}

// what the words of a command for registration files ask for, or of one for the program itself
fn parse_file_task<'a>(
    alloc: Global,
    name: &str,
    given: &ArgMatches<'a>,
) -> Result<Task<'a>, CommandError<'a>> {
    match name {
        "apply" => Ok(Task::Apply {
            folder: text(given, "DIR")?,
            file: text(given, "FILE")?,
            words: words_after(alloc, given)?,
        }),
        "apply-check" => Ok(Task::ApplyCheck {
            folder: text(given, "DIR")?,
            file: text(given, "FILE")?,
            words: words_after(alloc, given)?,
        }),
        "export" => export_task(alloc, ExportForm::Reg, given),
        "export-utf8" => export_task(alloc, ExportForm::RegUtf8, given),
        "export-json" => export_task(alloc, ExportForm::Json, given),
        "export-tsv" => export_task(alloc, ExportForm::Tsv, given),
        "salvage" => salvage_task(alloc, ExportForm::Reg, given),
        "salvage-utf8" => salvage_task(alloc, ExportForm::RegUtf8, given),
        "salvage-json" => salvage_task(alloc, ExportForm::Json, given),
        "salvage-tsv" => salvage_task(alloc, ExportForm::Tsv, given),
        "check" => Ok(Task::Check {
            source: text(given, "SOURCE")?,
            logs: words_after(alloc, given)?,
        }),
        "follow" => Ok(Task::Follow {
            folder: text(given, "DIR")?,
            after: number(text(given, "N")?)?,
        }),
        "about" => Ok(Task::About),
        "usage" => Ok(Task::Usage {
            word: given.get_str("COMMAND"),
        }),
        _ => parse_recovery(alloc, name, given),
    }
}

// what the words of a command that recovers a hive ask for
fn parse_recovery<'a>(
    alloc: Global,
    name: &str,
    given: &ArgMatches<'a>,
) -> Result<Task<'a>, CommandError<'a>> {
    let none = RecoveryLimits::NONE;
    match name {
        "recover" => recovery_task(alloc, given, none, Wholeness::Demanded),
        "recover-from" => {
            let from = Some(entry_number(given)?);
            recovery_task(
                alloc,
                given,
                RecoveryLimits { from, ..none },
                Wholeness::Demanded,
            )
        }
        "recover-to" => {
            let to = Some(entry_number(given)?);
            recovery_task(
                alloc,
                given,
                RecoveryLimits { to, ..none },
                Wholeness::Demanded,
            )
        }
        "recover-damaged" => recovery_task(alloc, given, none, Wholeness::Waived),
        _ => Err(CommandError::WrongWords),
    }
}

// a recovery of the hive that the words name
fn recovery_task<'a>(
    alloc: Global,
    given: &ArgMatches<'a>,
    limits: RecoveryLimits,
    wholeness: Wholeness,
) -> Result<Task<'a>, CommandError<'a>> {
    Ok(Task::Recover(RecoveryTask {
        hive: text(given, "HIVE")?,
        paths: words_after(alloc, given)?,
        limits,
        wholeness,
    }))
}

// what the words of an export ask for
fn export_task<'a>(
    alloc: Global,
    form: ExportForm,
    given: &ArgMatches<'a>,
) -> Result<Task<'a>, CommandError<'a>> {
    Ok(Task::Export {
        source: text(given, "SOURCE")?,
        form,
        words: words_after(alloc, given)?,
    })
}

// what the words of a salvage ask for
fn salvage_task<'a>(
    alloc: Global,
    form: ExportForm,
    given: &ArgMatches<'a>,
) -> Result<Task<'a>, CommandError<'a>> {
    Ok(Task::Salvage {
        file: text(given, "SOURCE")?,
        form,
        words: words_after(alloc, given)?,
    })
}

// the words that may follow
fn words_after<'a>(
    alloc: Global,
    given: &ArgMatches<'a>,
) -> Result<Vec<&'a str>, CommandError<'a>> {
    match given.get_strs("WORD") {
        Some(words) => Ok(words.to_vec(alloc)?),
        None => Ok(Vec::new(alloc)),
    }
}

// the words that are understood; each command is added by a function of its own: that takes the prover a third of the
// time
fn command<'a>(alloc: Global) -> Result<Command<'a>, AllocError> {
    let all = Command::new(alloc, "regtx").subcommand_required(true);
    let all = with_one(alloc, all, "play", "SCRIPT")?;
    let all = with_one(alloc, all, "lab", "SCRIPT")?;
    let all = with_one(alloc, all, "sweep", "SCRIPT")?;
    let all = with_one(alloc, all, "dump", "FILE")?;
    let all = with_run(alloc, all)?;
    let all = with_serve(alloc, all)?;
    let all = with_new(alloc, all)?;
    let all = with_import(alloc, all)?;
    let all = with_upgrade(alloc, all)?;
    let all = with_apply(alloc, all, "apply")?;
    let all = with_apply(alloc, all, "apply-check")?;
    let all = with_export(alloc, all, "export")?;
    let all = with_export(alloc, all, "export-utf8")?;
    let all = with_export(alloc, all, "export-json")?;
    let all = with_export(alloc, all, "export-tsv")?;
    let all = with_export(alloc, all, "salvage")?;
    let all = with_export(alloc, all, "salvage-utf8")?;
    let all = with_export(alloc, all, "salvage-json")?;
    let all = with_export(alloc, all, "salvage-tsv")?;
    let all = with_check(alloc, all)?;
    let all = with_follow(alloc, all)?;
    let all = with_recover(alloc, all, "recover")?;
    let all = with_limited_recover(alloc, all, "recover-from")?;
    let all = with_limited_recover(alloc, all, "recover-to")?;
    let all = with_recover(alloc, all, "recover-damaged")?;
    let all = with_usage(alloc, all)?;
    all.subcommand(Command::new(alloc, "about"))
}

// the same, and a command of this name for a store and a registration file
fn with_apply<'a>(
    alloc: Global,
    all: Command<'a>,
    name: &'a str,
) -> Result<Command<'a>, AllocError> {
    let apply = Command::new(alloc, name).arg(one(alloc, "DIR"))?;
    let apply = apply.arg(one(alloc, "FILE"))?;
    all.subcommand(apply.arg(others(alloc))?)
}

// the same, and an export of this name
fn with_export<'a>(
    alloc: Global,
    all: Command<'a>,
    name: &'a str,
) -> Result<Command<'a>, AllocError> {
    let export = Command::new(alloc, name).arg(one(alloc, "SOURCE"))?;
    all.subcommand(export.arg(others(alloc))?)
}

// the same, and `check`
fn with_check<'a>(alloc: Global, all: Command<'a>) -> Result<Command<'a>, AllocError> {
    let check = Command::new(alloc, "check").arg(one(alloc, "SOURCE"))?;
    all.subcommand(check.arg(others(alloc))?)
}

// the same, and `follow`
fn with_follow<'a>(alloc: Global, all: Command<'a>) -> Result<Command<'a>, AllocError> {
    let follow = Command::new(alloc, "follow").arg(one(alloc, "DIR"))?;
    all.subcommand(follow.arg(one(alloc, "N"))?)
}

// the same, and a recovery of this name
fn with_recover<'a>(
    alloc: Global,
    all: Command<'a>,
    name: &'a str,
) -> Result<Command<'a>, AllocError> {
    let recover = Command::new(alloc, name).arg(one(alloc, "HIVE"))?;
    all.subcommand(recover.arg(others(alloc))?)
}

// the same, and a recovery of this name with the number of an entry
fn with_limited_recover<'a>(
    alloc: Global,
    all: Command<'a>,
    name: &'a str,
) -> Result<Command<'a>, AllocError> {
    let recover = Command::new(alloc, name).arg(one(alloc, "N"))?;
    let recover = recover.arg(one(alloc, "HIVE"))?;
    all.subcommand(recover.arg(others(alloc))?)
}

// the same, and `usage`
fn with_usage<'a>(alloc: Global, all: Command<'a>) -> Result<Command<'a>, AllocError> {
    let word = Arg::new(alloc, "COMMAND").action(ArgAction::Set);
    all.subcommand(Command::new(alloc, "usage").arg(word)?)
}

// words that may follow
fn others<'a>(alloc: Global) -> Arg<'a> {
    Arg::new(alloc, "WORD")
        .num_args(0..=MOST_WORDS)
        .action(ArgAction::Set)
}

// the same, and a command that takes one word
fn with_one<'a>(
    alloc: Global,
    all: Command<'a>,
    name: &'a str,
    word: &'a str,
) -> Result<Command<'a>, AllocError> {
    all.subcommand(Command::new(alloc, name).arg(one(alloc, word))?)
}

// the same, and `run`
fn with_run<'a>(alloc: Global, all: Command<'a>) -> Result<Command<'a>, AllocError> {
    let run = Command::new(alloc, "run").arg(one(alloc, "DIR"))?;
    all.subcommand(run.arg(one(alloc, "SCRIPT"))?)
}

// the same, and `serve`
fn with_serve<'a>(alloc: Global, all: Command<'a>) -> Result<Command<'a>, AllocError> {
    let serve = Command::new(alloc, "serve").arg(one(alloc, "DIR"))?;
    let backups = Arg::new(alloc, "BACKUPS").action(ArgAction::Set);
    all.subcommand(serve.arg(backups)?)
}

// the same, and `new`
fn with_new<'a>(alloc: Global, all: Command<'a>) -> Result<Command<'a>, AllocError> {
    let new = Command::new(alloc, "new").arg(one(alloc, "DIR"))?;
    let new = new.arg(one(alloc, "ID"))?;
    all.subcommand(new.arg(one(alloc, "COUNT"))?)
}

// the same, and `import`
fn with_import<'a>(alloc: Global, all: Command<'a>) -> Result<Command<'a>, AllocError> {
    let import = Command::new(alloc, "import").arg(one(alloc, "DIR"))?;
    let import = import.arg(one(alloc, "ID"))?;
    let files = one(alloc, "FILE").num_args(1..=MOST_HIVES);
    all.subcommand(import.arg(files)?)
}

// the same, and `upgrade`
fn with_upgrade<'a>(alloc: Global, all: Command<'a>) -> Result<Command<'a>, AllocError> {
    let upgrade = Command::new(alloc, "upgrade").arg(one(alloc, "OLD"))?;
    all.subcommand(upgrade.arg(one(alloc, "NEW"))?)
}

// one word that has to be there
fn one<'a>(alloc: Global, name: &'a str) -> Arg<'a> {
    Arg::new(alloc, name).required(true).action(ArgAction::Set)
}

// the word of this name
fn text<'a>(given: &ArgMatches<'a>, name: &str) -> Result<&'a str, CommandError<'a>> {
    given.get_str(name).ok_or(CommandError::WrongWords)
}

// the id, in any text form of a UUID
fn id<'a>(given: &ArgMatches<'a>) -> Result<Uuid, CommandError<'a>> {
    let word = text(given, "ID")?;
    match Uuid::parse_str(word) {
        Ok(id) => Ok(id),
        Err(_) => Err(CommandError::WrongWord(word)),
    }
}

// the number of an entry
fn entry_number<'a>(given: &ArgMatches<'a>) -> Result<SequenceNumber, CommandError<'a>> {
    let word = text(given, "N")?;
    match u32::try_from(number(word)?) {
        Ok(number) => Ok(SequenceNumber(number)),
        Err(_) => Err(CommandError::WrongWord(word)),
    }
}

// a number of hives
fn hive_count<'a>(word: &'a str) -> Result<HiveCount, CommandError<'a>> {
    match number(word)? {
        count if count >= 1 && count <= MOST_HIVES as u64 => Ok(HiveCount {
            number: count as usize,
        }),
        _ => Err(CommandError::WrongWord(word)),
    }
}

// a number in decimal digits; a sign isn't allowed
fn number<'a>(word: &'a str) -> Result<u64, CommandError<'a>> {
    if !word.as_bytes().iter().all(|byte| byte.is_ascii_digit()) {
        return Err(CommandError::WrongWord(word));
    }
    match word.parse::<u64>() {
        Ok(number) => Ok(number),
        Err(_) => Err(CommandError::WrongWord(word)),
    }
}

// the files of an import
fn sources_named<'a>(
    alloc: Global,
    given: &ArgMatches<'a>,
) -> Result<Sources<'a>, CommandError<'a>> {
    let Some(words) = given.get_strs("FILE") else {
        return Err(CommandError::WrongWords);
    };
    let paths = words.to_vec(alloc)?;
    if paths.is_empty() || paths.len() > MOST_HIVES {
        return Err(CommandError::WrongWords);
    }
    Ok(Sources { paths })
}
