//! How each command is used.

use std::fmt;

/// How a command is used.
pub struct Usage {
    /// The command's name.
    pub name: &'static str,
    // it with the words after it, and what it does
    call: &'static str,
    does: &'static str,
}

impl fmt::Display for Usage {
    fn fmt<W: fmt::Write>(&self, f: &mut fmt::Formatter<W>) -> fmt::Result {
        write!(f, "usage: regtx {:20} {}", self.call, self.does)
    }
}

/// How each command is used.
pub const USAGES: [Usage; 37] = [
    Usage {
        name: "new",
        call: "new DIR ID COUNT",
        does: "makes a store of COUNT (1 to 16) empty hives in a folder; ID is a UUID",
    },
    Usage {
        name: "import",
        call: "import DIR ID FILE..",
        does: "makes a store of the hives in files",
    },
    Usage {
        name: "upgrade",
        call: "upgrade OLD NEW",
        does: "copies a store that keeps no outcomes of commits to one that does",
    },
    Usage {
        name: "run",
        call: "run DIR SCRIPT",
        does: "runs a script on a store, one reply per line",
    },
    Usage {
        name: "serve",
        call: "serve DIR [BACKUPS]",
        does: "serves a store to the clients of the broker regtxd, by frames on standard input and output",
    },
    Usage {
        name: "apply",
        call: "apply DIR FILE [PREFIX=HIVE ..] [once] [ID]",
        does: "applies a registration file as one transaction",
    },
    Usage {
        name: "apply-check",
        call: "apply-check DIR FILE [PREFIX=HIVE ..]",
        does: "prints each line that `apply` would refuse, and changes nothing",
    },
    Usage {
        name: "kept",
        call: "kept DIR ID",
        does: "tells whether the store keeps the commit of a unit of work; status 3 if not",
    },
    Usage {
        name: "get",
        call: "get SOURCE HIVE:PATH [NAME]",
        does: "prints a value's type and data, by default those of `@`",
    },
    Usage {
        name: "get-raw",
        call: "get-raw SOURCE HIVE:PATH [NAME]",
        does: "prints a value's bytes and nothing else",
    },
    Usage {
        name: "ls",
        call: "ls SOURCE HIVE:PATH",
        does: "prints the subkeys and values of a key, a line each",
    },
    Usage {
        name: "set",
        call: "set DIR HIVE:PATH NAME TYPE VALUE",
        does: "writes a value; TYPE is sz, expand, dword, qword, multi, hex or hex(T)",
    },
    Usage {
        name: "set-raw",
        call: "set-raw DIR HIVE:PATH NAME TYPE FILE",
        does: "writes a value of this type with the bytes of a file; - is standard input",
    },
    Usage {
        name: "create",
        call: "create DIR HIVE:PATH",
        does: "makes a key, with all that are missing above it",
    },
    Usage {
        name: "del",
        call: "del DIR HIVE:PATH [NAME]",
        does: "deletes a value, or a key without subkeys",
    },
    Usage {
        name: "del-tree",
        call: "del-tree DIR HIVE:PATH",
        does: "deletes a key with all below it",
    },
    Usage {
        name: "export",
        call: "export SOURCE [HIVE:PATH] [PREFIX=HIVE ..]",
        does: "prints a store or a clean hive as a registration file",
    },
    Usage {
        name: "export-utf8",
        call: "export-utf8 SOURCE [HIVE:PATH] [PREFIX=HIVE ..]",
        does: "prints the same file as UTF-8",
    },
    Usage {
        name: "export-json",
        call: "export-json SOURCE [HIVE:PATH]",
        does: "prints it as lines of JSON",
    },
    Usage {
        name: "export-tsv",
        call: "export-tsv SOURCE [HIVE:PATH]",
        does: "prints it as fields between tabs, a line each",
    },
    Usage {
        name: "salvage",
        call: "salvage FILE [HIVE:PATH]",
        does: "prints what is left of a damaged hive as `export` does, and tells what isn't; status 3 if something isn't",
    },
    Usage {
        name: "salvage-utf8",
        call: "salvage-utf8 FILE [HIVE:PATH]",
        does: "prints it as `export-utf8` does",
    },
    Usage {
        name: "salvage-json",
        call: "salvage-json FILE [HIVE:PATH]",
        does: "prints it as `export-json` does",
    },
    Usage {
        name: "salvage-tsv",
        call: "salvage-tsv FILE [HIVE:PATH]",
        does: "prints it as `export-tsv` does",
    },
    Usage {
        name: "dump",
        call: "dump FILE",
        does: "prints a clean hive: its keys and values, a line each",
    },
    Usage {
        name: "check",
        call: "check SOURCE [LOG ..]",
        does: "reports what a store or a hive's file has, and whether it is whole; with its logs, what `recover` would make",
    },
    Usage {
        name: "follow",
        call: "follow DIR N",
        does: "tells the changes after number N that a store's journal holds, as lines that make them",
    },
    Usage {
        name: "recover",
        call: "recover HIVE LOG.. OUT",
        does: "makes a clean hive of one that wasn't closed, by its logs",
    },
    Usage {
        name: "recover-from",
        call: "recover-from N HIVE LOG.. OUT",
        does: "the same, if the first entry that is applied has the number N",
    },
    Usage {
        name: "recover-to",
        call: "recover-to N HIVE LOG.. OUT",
        does: "the same by the entries up to the number N: an earlier state",
    },
    Usage {
        name: "recover-damaged",
        call: "recover-damaged HIVE LOG.. OUT",
        does: "the same, also if the result is no whole hive; status 3 if it isn't",
    },
    Usage {
        name: "play",
        call: "play SCRIPT",
        does: "plays a script on a store in memory",
    },
    Usage {
        name: "lab",
        call: "lab SCRIPT",
        does: "the same in single steps, with power cuts",
    },
    Usage {
        name: "sweep",
        call: "sweep SCRIPT",
        does: "cuts the power after each device call of a script",
    },
    Usage {
        name: "wait",
        call: "wait SECONDS COMMAND ..",
        does: "does a command, and waits so long for a store that is in use",
    },
    Usage {
        name: "about",
        call: "about",
        does: "says which program this is",
    },
    Usage {
        name: "usage",
        call: "usage [COMMAND]",
        does: "says how a command is used, or each of them",
    },
];
