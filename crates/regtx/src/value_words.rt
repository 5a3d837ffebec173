//! The words of commands for one key or value, which are taken as they stand: a name or a text may be `--`, or begin with
//! a hyphen.

use crate::command_error::CommandError;
use crate::tasks::Task;
use crate::value_commands::{Reading, Writing};
use store_values::ValueForm;

/// What the words ask for, of which the first two are the program and the command; `None` if the command is none of these.
pub fn parse_value_task<'a>(words: &'a [String]) -> Option<Result<Task<'a>, CommandError<'a>>> {
    let [_, command, rest @ ..] = words else {
        return None;
    };
    match command.as_str() {
        "get" => Some(get_task(rest, ValueForm::Line)),
        "get-raw" => Some(get_task(rest, ValueForm::Data)),
        "ls" => Some(ls_task(rest)),
        "set" => Some(set_task(rest)),
        "set-raw" => Some(set_raw_task(rest)),
        "create" => Some(create_task(rest)),
        "del" => Some(del_task(rest)),
        "del-tree" => Some(del_tree_task(rest)),
        _ => None,
    }
}

// `get SOURCE KEY [NAME]`, and `get-raw`
fn get_task<'a>(words: &'a [String], form: ValueForm) -> Result<Task<'a>, CommandError<'a>> {
    let (source, key, name) = key_and_name(words)?;
    let reading = Reading::Value { key, name, form };
    Ok(Task::Read { source, reading })
}

// `ls SOURCE KEY`
fn ls_task<'a>(words: &'a [String]) -> Result<Task<'a>, CommandError<'a>> {
    let (source, key) = key_alone(words)?;
    let reading = Reading::Key { key };
    Ok(Task::Read { source, reading })
}

// `set DIR KEY NAME TYPE VALUE`
fn set_task<'a>(words: &'a [String]) -> Result<Task<'a>, CommandError<'a>> {
    let [folder, key, name, kind, text] = words else {
        return Err(CommandError::WrongWords);
    };
    let writing = Writing::Set {
        key: key.as_str(),
        name: name.as_str(),
        kind: kind.as_str(),
        text: text.as_str(),
    };
    Ok(Task::Write {
        folder: folder.as_str(),
        writing,
    })
}

// `set-raw DIR KEY NAME TYPE FILE`
fn set_raw_task<'a>(words: &'a [String]) -> Result<Task<'a>, CommandError<'a>> {
    let [folder, key, name, kind, file] = words else {
        return Err(CommandError::WrongWords);
    };
    let writing = Writing::SetData {
        key: key.as_str(),
        name: name.as_str(),
        kind: kind.as_str(),
        file: file.as_str(),
    };
    Ok(Task::Write {
        folder: folder.as_str(),
        writing,
    })
}

// `create DIR KEY`
fn create_task<'a>(words: &'a [String]) -> Result<Task<'a>, CommandError<'a>> {
    let (folder, key) = key_alone(words)?;
    let writing = Writing::CreateKey { key };
    Ok(Task::Write { folder, writing })
}

// `del DIR KEY [NAME]`
fn del_task<'a>(words: &'a [String]) -> Result<Task<'a>, CommandError<'a>> {
    let (folder, key, name) = key_and_name(words)?;
    let writing = match name {
        Some(name) => Writing::DeleteValue { key, name },
        None => Writing::DeleteKey { key },
    };
    Ok(Task::Write { folder, writing })
}

// `del-tree DIR KEY`
fn del_tree_task<'a>(words: &'a [String]) -> Result<Task<'a>, CommandError<'a>> {
    let (folder, key) = key_alone(words)?;
    let writing = Writing::DeleteTree { key };
    Ok(Task::Write { folder, writing })
}

// a store and a key of it
fn key_alone<'a>(words: &'a [String]) -> Result<(&'a str, &'a str), CommandError<'a>> {
    match words {
        [folder, key] => Ok((folder.as_str(), key.as_str())),
        _ => Err(CommandError::WrongWords),
    }
}

// a store, a key of it, and the name of a value, which may be left out
fn key_and_name<'a>(
    words: &'a [String],
) -> Result<(&'a str, &'a str, Option<&'a str>), CommandError<'a>> {
    match words {
        [folder, key] => Ok((folder.as_str(), key.as_str(), None)),
        [folder, key, name] => Ok((folder.as_str(), key.as_str(), Some(name.as_str()))),
        _ => Err(CommandError::WrongWords),
    }
}
