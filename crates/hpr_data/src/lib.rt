//! What hpr answers as data: the words of a command over texts in memory become a status and one JSON object.
#![tactic(auto)]

mod affected;
mod find;
mod found;
mod graph;
mod integrate;
pub mod laws;
mod reply;
mod run;
mod texts;
mod verify;

ghost use Rattle.std.specs.Prelude.{◌≡◌, ◌≢◌, Some, IfOk};
ghost use Rattle.hpr_io.specs.Files.{files_in};
ghost use Rattle.hpr_words.specs.Asked.{request};
ghost use Rattle.hpr_words.specs.Request.{IsInRange};
ghost use Rattle.hpr_decisions.specs.Asked.{WhereAsked, asked_by};
ghost use Rattle.hpr_decisions.specs.Statuses.{DoesIntegrate};
ghost use Rattle.hpr_data.specs.Printed.{Agrees};
ghost use Rattle.hpr_data.specs.Told.{IsReply, TellsKept};

use crate::find::find;
use crate::found::Stop;
use crate::reply::{stopped, told};
pub use hpr_decisions::Status;
pub use hpr_syntax::NoMemory;
use hpr_words::{Asked, WordsError, read_words};
pub use reply::Reply;
use std::alloc::Global;

/// What hpr answers to the words of `integrate`, `affected`, `graph`, `run` or `verify` over these texts, as data.
///
/// A word for a file names the first text with this name. The words of a state are judged from left to right, before
/// any text; then each text before the next one: one that isn't there has the status `ReadFault`, and one that has
/// more than 4,194,304 bytes or spells no program is refused. So is the first text whose program has a graph of more
/// than 1,000,000 edges, where the command needs it. Words that are no call of one of the five commands have the
/// status `Words`. Whether a run's trace or the graph's JSON is asked for changes nothing. It fails only for want of memory.
pub fn data(alloc: Global, words: &[String], files: &[(String, Vec<u8>)]) -> Result<Reply, NoMemory>
    // The status and the object of what comes of the words.
    ensures tells { IfOk result (IsReply (asked_by words.now) (files_in files.now)) }

    // The status is that of hpr's own decision over these files, but where a text isn't there.
    ensures agrees { IfOk result (λ reply. WhereAsked words.now (Some (files_in files.now)) (λ request texts.
        reply.status ≢ Status.Words → reply.status ≢ Status.ReadFault → Agrees request texts reply.status)) }

    // The integration theorem: a program that is told keeps the meaning of all variants.
    ensures keeps { IfOk result (λ reply. WhereAsked words.now (Some (files_in files.now)) (λ request texts.
        DoesIntegrate request → reply.status ≡ Status.Done → TellsKept request texts reply.text.items)) }
{
    tell(alloc, words, files)
}

/// The same, told by what comes of the request.
fn tell(alloc: Global, words: &[String], files: &[(String, Vec<u8>)]) -> Result<Reply, NoMemory>
    ensures { IfOk result (IsReply (asked_by words.now) (files_in files.now)) }
{
    match read_words(alloc, words) {
        Ok(asked) => tell_asked(alloc, asked, files),
        Err(WordsError::Refused) => stopped(alloc, &Stop::NoCall),
        Err(WordsError::Memory) => Err(NoMemory),
    }
}

fn tell_asked(
    alloc: Global,
    asked: Asked<'_>,
    files: &[(String, Vec<u8>)],
) -> Result<Reply, NoMemory>
    requires { IsInRange (request asked) }
    ensures { IfOk result (IsReply (Some (request asked.entry)) (files_in files.now)) }
{
    match find(alloc, asked, files) {
        Ok(found) => told(alloc, &found),
        Err(stop) => stopped(alloc, &stop),
    }
}
