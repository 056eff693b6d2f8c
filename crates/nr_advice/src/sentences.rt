//! What each status and each line means, and what to do next, in one table.

ghost use Rattle.std.specs.Prelude.{◌≡◌, ◌++◌, OnOk};
ghost use Rattle.std.specs.Option.{option_copied};
ghost use Rattle.nr_advice.specs.Advice.{sentence_text};
ghost use Rattle.nr_advice.specs.Sentences.{is_of, sentence_for};

use crate::page::Page;
use std::alloc::AllocError;

/// What a line of a status means, and what to do next. The line is its beginning: the words of
/// docs/exit-statuses.md up to the first value. Two digests are told from two numbers by the least length.
#[derive(Clone, Copy, Debug)]
pub struct Sentence {
    pub status: u8,
    pub line: &'static str,
    pub least: usize,
    pub means: &'static str,
    pub next: &'static str,
}

/// What each status and each line is told as. The first that fits counts.
pub const SENTENCES: &[Sentence] = &[
    Sentence {
        status: 2,
        line: "usage",
        least: 0,
        means: "The words aren't those of a command.",
        next: "The first word is the command; each of its options stands behind it once, as --NAME VALUE \
            or --NAME=VALUE.",
    },
    Sentence {
        status: 3,
        line: "malformed promise ",
        least: 0,
        means: "The promise file has a mistake at this place: what begins there can't stand there, or it names\n\
            something that isn't declared, is declared twice, is of another kind or is past a limit.",
        next: "Mend it there, and ask again: netreview check --promise FILE",
    },
    Sentence {
        status: 3,
        line: "malformed seed ",
        least: 0,
        means: "A seed file holds 32 bytes and nothing else.",
        next: "Make one with: head -c 32 /dev/urandom >FILE",
    },
    Sentence {
        status: 3,
        line: "malformed key ",
        least: 0,
        means: "The key file isn't one that keygen wrote, or it was changed or cut short since.",
        next: "Name the key file, or take a copy of it. A new key can't go on with an old log.",
    },
    Sentence {
        status: 3,
        line: "malformed log ",
        least: 0,
        means: "The log isn't as record leaves it: it was changed or cut short, or it is another file.",
        next: "Keep the file as it is, and take a copy from before the change. Only record may write a log.",
    },
    Sentence {
        status: 3,
        line: "malformed mrt",
        least: 0,
        means: "The MRT file isn't whole, or isn't an MRT file.",
        next: "Wait until the router has closed the file, and take it as the router wrote it, unpacked.",
    },
    Sentence {
        status: 3,
        line: "malformed answer ",
        least: 0,
        means: "The answer isn't in the format of an answer, or it was changed or cut short on its way.",
        next: "Ask the network for the file again. What can't be read accuses nobody.",
    },
    Sentence {
        status: 3,
        line: "malformed auths ",
        least: 0,
        means: "The file of authenticators isn't one: it is NRT1 and authenticators, one behind another.",
        next: "Where you hold none, make an empty one with: printf NRT1 >FILE",
    },
    Sentence {
        status: 3,
        line: "malformed frames ",
        least: 0,
        means: "The file isn't a file of frames: it is NRF1 and frames, each behind its length, or it was cut short.",
        next: "Ask the neighbour for the file again. Frames inside of it that don't read are passed over.",
    },
    Sentence {
        status: 3,
        line: "malformed evidence ",
        least: 0,
        means: "The file isn't evidence, or something inside of it isn't in its format.",
        next: "Ask for the file again. What can't be read proves nothing.",
    },
    Sentence {
        status: 4,
        line: "read fault",
        least: 0,
        means: "A file couldn't be read.",
        next: "See that it is a regular file that you may read, on a disk that works, and run the command again.",
    },
    Sentence {
        status: 5,
        line: "write fault",
        least: 0,
        means: "A file couldn't be written. It may hold what it held, a part of what was to be written, or both.\n\
            A log holds what it held, with each turn that was appended in whole.",
        next: "Make room, or mend what stands at its name, and run the command again.",
    },
    Sentence {
        status: 5,
        line: "",
        least: 0,
        means: "The output couldn't be written, so what was to be told is lost or cut short.",
        next: "Run the command again with an output that takes all of it. What files should hold they hold.",
    },
    Sentence {
        status: 6,
        line: "",
        least: 0,
        means: "Memory ran out.",
        next: "Run the command on a machine with more memory. An audit takes as much as its files, and some more.",
    },
    Sentence {
        status: 7,
        line: "refused nofile promise",
        least: 0,
        means: "No file has the name that stands behind --promise.",
        next: "Write a promise file of that name, or name the one that you have.",
    },
    Sentence {
        status: 7,
        line: "refused nofile seed",
        least: 0,
        means: "No file has the name that stands behind --seed.",
        next: "Make a seed with: head -c 32 /dev/urandom >FILE",
    },
    Sentence {
        status: 7,
        line: "refused nofile key",
        least: 0,
        means: "No file has the name that stands behind --key.",
        next: "Make a key with netreview keygen, once, before the log is begun.",
    },
    Sentence {
        status: 7,
        line: "refused nofile log",
        least: 0,
        means: "No file has the name that stands behind --log.",
        next: "Begin the log with netreview record, or name the one that you have.",
    },
    Sentence {
        status: 7,
        line: "refused nofile auths",
        least: 0,
        means: "No file has the name that stands behind --auths.",
        next: "Where you hold no authenticators, make an empty file of them with: printf NRT1 >FILE",
    },
    Sentence {
        status: 7,
        line: "refused nofile ",
        least: 0,
        means: "No file has this name.",
        next: "See how the name is spelled, and in which folder the command runs.",
    },
    Sentence {
        status: 7,
        line: "refused limit message ",
        least: 0,
        means: "A message of the MRT files is longer than an entry of a log has room for. Nothing was written.",
        next: "Leave the file with that message out, and keep it apart: a log can't hold it.",
    },
    Sentence {
        status: 7,
        line: "refused limit log ",
        least: 0,
        means: "The log has, or would have, more bytes than a log may have.",
        next: "Keep this log as it is, and go on with a new key and a new log.",
    },
    Sentence {
        status: 7,
        line: "refused limit evidence ",
        least: 0,
        means: "The evidence has, or would have, more bytes than evidence may have.",
        next: "Audit a shorter period, or without --evidence.",
    },
    Sentence {
        status: 7,
        line: "refused limit answer ",
        least: 0,
        means: "The answer has, or would have, more bytes than an answer may have.",
        next: "A log of this size can't be answered in whole. Begin a new key and a new log before it \
            grows so long.",
    },
    Sentence {
        status: 7,
        line: "refused limit ",
        least: 0,
        means: "The file has more bytes than such a file may have. None of them was read.",
        next: "See that the right file is named: the line has its size and the greatest size.",
    },
    Sentence {
        status: 7,
        line: "refused form ",
        least: 0,
        means: "The answer in the evidence begins after entry 1. Such evidence isn't judged yet.",
        next: "Ask for evidence of an audit of the whole log.",
    },
    Sentence {
        status: 7,
        line: "refused late ",
        least: 100,
        means: "The answer begins at a checkpoint, and what it says of the routes before isn't what the \
            checkpoint signs:\nthe line has the digests of both.",
        next: "Ask the network for its answer again. As it is, it is no answer of this network.",
    },
    Sentence {
        status: 7,
        line: "refused late ",
        least: 0,
        means: "The answer begins at a checkpoint that isn't before the period, so it may leave out entries \
            of the period.",
        next: "Ask for an answer from an earlier checkpoint, or audit from a time above the checkpoint's: it is \
            the first number.",
    },
    Sentence {
        status: 7,
        line: "refused network ",
        least: 0,
        means: "Two files are of different networks: the line has the AS that was found and the AS that \
            was wanted.",
        next: "Take promise file, key, log and answer of one network.",
    },
    Sentence {
        status: 7,
        line: "refused key ",
        least: 100,
        means: "The log was begun with another key: the line has the roots of the log and of the key.",
        next: "Name the key with which the log was begun.",
    },
    Sentence {
        status: 7,
        line: "refused key ",
        least: 0,
        means: "The key is spent: each of its leaves has signed once. The log has what was appended before.",
        next: "Make a key of a greater height, and begin a new log with it.",
    },
    Sentence {
        status: 7,
        line: "refused unsealed",
        least: 0,
        means: "The log has no head for the auditor yet, so there is nothing to sign.",
        next: "Close the log first: run netreview record, with --until where there is nothing new to record.",
    },
    Sentence {
        status: 7,
        line: "refused head unsigned",
        least: 0,
        means: "The answer isn't signed under this root, so it accuses nobody.",
        next: "See that the root is the one that the network gave you, and ask the network for its answer again.",
    },
    Sentence {
        status: 7,
        line: "refused head ",
        least: 0,
        means: "The signed head isn't that of the entries: entries were changed, or the head is of another log.",
        next: "Ask the network for its answer again. As it is, it is no answer of this network.",
    },
    Sentence {
        status: 7,
        line: "refused short ",
        least: 0,
        means: "The answer ends before the period does, so it may leave out entries of the period.",
        next: "Ask the network for a later answer, or audit up to a time before the head's: it is the \
            first number.",
    },
    Sentence {
        status: 7,
        line: "refused promise none",
        least: 0,
        means: "No promise is in force in the period, so there is nothing to audit by.",
        next: "Audit a period in which the log has begun.",
    },
    Sentence {
        status: 7,
        line: "refused promise ",
        least: 0,
        means: "Another promise file was in force in the period than the one that was named.",
        next: "Take the file whose SHA-256 is the first of the two digests, or a period in which this \
            one was in force.",
    },
    Sentence {
        status: 8,
        line: "",
        least: 0,
        means: "The system didn't give the words, or there was no memory for them.",
        next: "Run the command again, with fewer files or on a machine with more memory.",
    },
];

fn is_of(status: u8, text: &[u8], row: &Sentence) -> bool
    ensures { result ≡ is_of status text.now row.now }
{
    row.status == status && (row.least <= text.len() && text.starts_with(row.line.as_bytes()))
}

/// The sentence of a status and of the text that was offered with it.
pub fn sentence_of<'a>(rows: &'a [Sentence], status: u8, text: &[u8]) -> Option<&'a Sentence>
    ensures { option_copied result ≡ sentence_for rows.now status text.now }
{
    for row in rows {
        if is_of(status, text, row) {
            return Some(row);
        }
    }
    None
}

/// Adds what a line means, and what to do next.
pub fn put_sentence(page: &mut Page, row: &Sentence) -> Result<(), AllocError>
    ensures { OnOk result (page.new ≡ page.old ++ sentence_text row.now) }
{
    page.texts(&[row.means, "\n", row.next, "\n"])
}
