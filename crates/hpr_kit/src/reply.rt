//! What is decided of a call, before it is written; and the fixed texts.
ghost use Rattle.std.specs.Prelude.{◌≡◌};
ghost use Rattle.hpr_kit.specs.Answer.{prints};
ghost use Rattle.hpr_kit.specs.Private.Replies.{seen};

use crate::status::Status;
use hpr_syntax::NoMemory;
use std::alloc::{AllocError, Global};

/// The text for words that are no call.
pub(crate) const USAGE: &[u8] = b"\
usage: hprkit fmt FILE [--check | --in-place]\n\
\x20      hprkit at FILE BYTE\n\
\x20      hprkit tag FILE --author N [--keep]\n\
\x20      hprkit graph FILE --json\n\
\x20      hprkit graph FILE --dot [--no-control] [--no-flow] [--no-order]\n\
\x20      hprkit impact FILE POINT.. [--json | --marks]\n\
\x20      hprkit affected BASE V\n\
\x20      hprkit conflicts BASE V1 V2..\n\
\x20      hprkit merge BASE V1 V2.. [--tries N]\n\
\x20      hprkit --help\n\
\x20      hprkit --version\n";

/// The text of `--help`.
pub(crate) const HELP: &[u8] = b"\
usage: hprkit fmt FILE [--check | --in-place]\n\
\x20      hprkit at FILE BYTE\n\
\x20      hprkit tag FILE --author N [--keep]\n\
\x20      hprkit graph FILE --json\n\
\x20      hprkit graph FILE --dot [--no-control] [--no-flow] [--no-order]\n\
\x20      hprkit impact FILE POINT.. [--json | --marks]\n\
\x20      hprkit affected BASE V\n\
\x20      hprkit conflicts BASE V1 V2..\n\
\x20      hprkit merge BASE V1 V2.. [--tries N]\n\
\x20      hprkit --help\n\
\x20      hprkit --version\n\
\n\
fmt FILE          print the canonical text of the program that FILE spells\n\
fmt FILE --check  print nothing: status 1 where FILE hasn't the canonical text\n\
fmt FILE --in-place\n\
\x20                 put the canonical text into FILE\n\
at FILE BYTE      print LINE:COLUMN of a byte of FILE, counted from 0\n\
tag FILE --author N [--keep]\n\
\x20                 give the parts without a tag the next serials of N, and print\n\
\x20                 the canonical text, or with --keep FILE's text with these tags\n\
graph FILE --json print the dependence graph of FILE's program as JSON\n\
graph FILE --dot  print it for Graphviz, less the kinds of edges that flags name\n\
impact FILE POINT.. [--json | --marks]\n\
\x20                 print what a change at these points can reach: one a line, as\n\
\x20                 JSON, or as FILE's text with marks at the lines it reaches\n\
affected BASE V   print, as JSON, the affected points of V, and why each is one\n\
conflicts BASE V1 V2..\n\
\x20                 print, as JSON, what interferes in their integration: 2 to 16\n\
\x20                 variants\n\
merge BASE V1 V2.. [--tries N]\n\
\x20                 integrate them, and print, as JSON, the program with the graph\n\
\x20                 that it has, or why there is none\n\
\n\
`-` as FILE is standard input.\n";

/// The text of `--version`.
pub(crate) const VERSION: &[u8] = b"hprkit 1.0.0\n";

/// An answer. Its status is none of a failure.
#[derive(Drop)]
pub(crate) enum Reply {
    /// Texts for `out` and `err`.
    Said {
        status: Status,
        out: Vec<u8>,
        err: Vec<u8>,
    },
    /// The command did what it is for once the file of this name has other bytes than it had.
    Rewrites {
        file: String,
        had: Vec<u8>,
        bytes: Vec<u8>,
    },
}

/// The reply that prints a text.
pub(crate) fn prints(alloc: Global, text: Vec<u8>) -> Reply
    ensures { seen result ≡ prints text.items }
{
    Reply::Said {
        status: Status::Done,
        out: text,
        err: Vec::new(alloc),
    }
}

/// Why there is no answer, with the message for `err` where it isn't a fixed one.
#[derive(Drop)]
pub(crate) enum Stop {
    ReadFault(String),
    WriteFault(String),
    Memory,
}

impl From<AllocError> for Stop {
    ghost use Rattle.std.specs.Prelude.{◌≡◌};
    ghost use Rattle.hpr_kit.specs.declared.reply.Stop.TheVariants.{Memory};

    ghost from_gives = { λ _ stop. stop ≡ Memory };

    fn from(_error: AllocError) -> Stop {
        Stop::Memory
    }
}

impl From<NoMemory> for Stop {
    ghost use Rattle.std.specs.Prelude.{◌≡◌};
    ghost use Rattle.hpr_kit.specs.declared.reply.Stop.TheVariants.{Memory};

    ghost from_gives = { λ _ stop. stop ≡ Memory };

    fn from(_error: NoMemory) -> Stop {
        Stop::Memory
    }
}
