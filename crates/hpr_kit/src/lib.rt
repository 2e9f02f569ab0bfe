//! The top call of hprkit, what tools and hands need beside hpr: reads the words and the files that they name, decides,
//! and writes the answer.
#![tactic(auto)]

mod affected;
mod at;
mod canonical;
mod commands;
mod conflicts;
mod fetch;
mod graphs;
mod impact;
mod load;
mod merge;
mod place;
mod program;
mod put;
mod refused;
mod reply;
mod status;
mod store;
mod tag;
mod write;

ghost use Rattle.std.specs.Prelude.{◌≡◌, ◌≢◌, ◌↔◌, ℕ, List, None, Some, IfSome, IsTrue};
ghost use Rattle.hpr_words.specs.Request.{Text};
ghost use Rattle.hprkit_words.specs.Ask.{IsInRange};
ghost use Rattle.hprkit_words.specs.Asked.{ask_of};
ghost use Rattle.hpr_kit.specs.Comes.{Comes, MayRead, Names};
ghost use Rattle.hpr_kit.specs.Does.{Checks, Formats, Places, Renews, Tags, Took, WhereAsked, asked_by};
ghost use Rattle.hpr_kit.specs.Ends.{Ends};

use crate::commands::decide;
use crate::reply::{Stop, USAGE};
use crate::write::{write_message, write_reply, write_stop};
use hpr_io::{Shelf, Sink};
use hprkit_words::{Asked, WordsError, read_words};
pub use status::Status;
use std::alloc::Global;
pub use store::{RewriteError, Store};

/// Makes one call: reads its words, fetches the files that they name, each once those before it are judged, and puts
/// its text to `out` or its message to `err`.
///
/// `fmt FILE` prints the canonical text of the program that the file spells. `fmt FILE --check` prints nothing and
/// tells by the status whether the file has that text already; `fmt FILE --in-place` gives it the file, through `store`,
/// where it hasn't. `at FILE BYTE` prints the line and the column of a byte,
/// of whatever the file holds. `tag FILE --author N` prints the canonical text of the program that the file spells once
/// its parts without a tag have the next serials of the author, as [`hpr_tagging::tag_parts`] gives them, and with
/// `--keep` the file's own text with these tags. `graph FILE` prints the dependence graph of the program that the file
/// spells, as JSON with where its vertices stand, or for Graphviz; `impact FILE POINT..` what a change at some of its
/// points can reach; `affected BASE V` the affected points of a variant with their reasons; `conflicts BASE V1 V2..`
/// what interferes in an integration of two to sixteen variants; and `merge BASE V1 V2..` the program of their integration
/// with the graph that was searched for, or why there is none. `--help` and `--version` print fixed texts, and read
/// no file.
///
/// A file of more than 4,194,304 bytes is refused, and so is one that is to spell a program and spells none: with
/// the line that hpr says of it and, where its bytes spell no tree, the line around the place and a caret under it.
/// `tag` refuses also a file for whose parts the author has too few serials, and with `--keep` one whose text has more
/// bytes than that with the tags. A program whose graph has more than 1,000,000 edges is refused where its graph is
/// asked for, and so is a word that names no point.
/// All text is made before its first byte is put, or a file gets it. No status is for a failed write to `err`.
pub fn kit<S: Shelf, D: Store, O: Sink, E: Sink>(
    alloc: Global,
    words: &[String],
    shelf: &mut S,
    store: &mut D,
    out: &mut O,
    err: &mut E,
) -> Status
    requires { (name : Text) → Names (asked_by words.now) name → IsTrue (S.serves shelf.old name) }

    // The status and the texts are those of what comes of the words and the files, unless a write failed, or a read of a
    // file before which all others spell programs, or memory ran out.
    ensures ends { Ends result (λ a. IfSome (S.files shelf.old) (λ files. Comes (asked_by words.now) files a))
        (MayRead (asked_by words.now) (S.files shelf.old)) (S.faults shelf.old) (S.faults shelf.new)
        (record {
          before = D.faults store.old;
          now = D.faults store.new;
          old = D.rewritten store.old;
          new = D.rewritten store.new;
        })
        (record { before = O.faults out.old; now = O.faults out.new; old = O.taken out.old; new = O.taken out.new })
        (record { before = E.faults err.old; now = E.faults err.new; old = E.taken err.old; new = E.taken err.new }) }

    // The words are no call exactly where the status says so, if memory was found.
    ensures words { result ≢ Status.Memory → ((result ≡ Status.Words) ↔ (asked_by words.now ≡ None)) }

    // `fmt` prints the canonical text of exactly the program that the file spells.
    ensures formats { WhereAsked words.now (S.files shelf.old) (λ ask files. result ≡ Status.Done
        → Took (O.taken out.old) (O.taken out.new) (Formats ask files)) }

    // `fmt --check` ends with `Done` exactly where the file is the canonical text of the program that it spells, and
    // with `No` exactly where it spells a program in another text, unless a read or a write failed or memory ran out.
    ensures checks { WhereAsked words.now (S.files shelf.old) (λ ask files. Checks ask files result) }

    // `fmt --in-place` gives the file the canonical text of exactly the program that it spells, unless it has it, or
    // leaves it as it was and has another status. No other call gives a file anything.
    ensures renews { WhereAsked words.now (S.files shelf.old) (λ ask files. Renews ask files result
        (record {
          before = D.faults store.old;
          now = D.faults store.new;
          old = D.rewritten store.old;
          new = D.rewritten store.new;
        })) }

    // `at` prints the line and the column of a byte that the file has, or of its end.
    ensures places { WhereAsked words.now (S.files shelf.old) (λ ask files. result ≡ Status.Done
        → Took (O.taken out.old) (O.taken out.new) (Places ask files)) }

    // `tag` prints a text of the program that the file spells with the author's tags: its canonical text, or with
    // `--keep` the file's own text with these tags.
    ensures tags { WhereAsked words.now (S.files shelf.old) (λ ask files. result ≡ Status.Done
        → Took (O.taken out.old) (O.taken out.new) (Tags ask files)) }

    // The shelf tells the same files and serves the same names as before, so that a call can follow on it.
    ensures same_files { S.files shelf.new ≡ S.files shelf.old }
    ensures same_names { (n : List ℕ) → S.serves shelf.new n ≡ S.serves shelf.old n }
{
    run_words(alloc, words, shelf, store, out, err)
}

/// The same, told by how the call ends.
fn run_words<S: Shelf, D: Store, O: Sink, E: Sink>(
    alloc: Global,
    words: &[String],
    shelf: &mut S,
    store: &mut D,
    out: &mut O,
    err: &mut E,
) -> Status
    requires { (name : Text) → Names (asked_by words.now) name → IsTrue (S.serves shelf.old name) }
    ensures ends { Ends result (λ a. IfSome (S.files shelf.old) (λ files. Comes (asked_by words.now) files a))
        (MayRead (asked_by words.now) (S.files shelf.old)) (S.faults shelf.old) (S.faults shelf.new)
        (record {
          before = D.faults store.old;
          now = D.faults store.new;
          old = D.rewritten store.old;
          new = D.rewritten store.new;
        })
        (record { before = O.faults out.old; now = O.faults out.new; old = O.taken out.old; new = O.taken out.new })
        (record { before = E.faults err.old; now = E.faults err.new; old = E.taken err.old; new = E.taken err.new }) }
    ensures words { result ≢ Status.Memory → ((result ≡ Status.Words) ↔ (asked_by words.now ≡ None)) }
    ensures same_files { S.files shelf.new ≡ S.files shelf.old }
    ensures same_names { (n : List ℕ) → S.serves shelf.new n ≡ S.serves shelf.old n }
{
    match read_words(alloc, words) {
        Ok(asked) => run_asked(alloc, asked, shelf, store, out, err),
        Err(WordsError::Refused) => {
            write_message(USAGE, err);
            Status::Words
        }
        Err(WordsError::Memory) => write_stop(&Stop::Memory, err),
    }
}

fn run_asked<S: Shelf, D: Store, O: Sink, E: Sink>(
    alloc: Global,
    asked: Asked<'_>,
    shelf: &mut S,
    store: &mut D,
    out: &mut O,
    err: &mut E,
) -> Status
    requires names { (name : Text) → Names (Some (ask_of asked)) name → IsTrue (S.serves shelf.old name) }
    requires in_range { IsInRange (ask_of asked) }
    ensures ends { Ends result
        (λ a. IfSome (S.files shelf.old) (λ files. Comes (Some (ask_of asked.entry)) files a))
        (MayRead (Some (ask_of asked.entry)) (S.files shelf.old)) (S.faults shelf.old) (S.faults shelf.new)
        (record {
          before = D.faults store.old;
          now = D.faults store.new;
          old = D.rewritten store.old;
          new = D.rewritten store.new;
        })
        (record { before = O.faults out.old; now = O.faults out.new; old = O.taken out.old; new = O.taken out.new })
        (record { before = E.faults err.old; now = E.faults err.new; old = E.taken err.old; new = E.taken err.new }) }
    ensures taken { result ≢ Status.Words }
    ensures same_files { S.files shelf.new ≡ S.files shelf.old }
    ensures same_names { (n : List ℕ) → S.serves shelf.new n ≡ S.serves shelf.old n }
{
    match decide(alloc, asked, shelf) {
        Ok(reply) => write_reply(alloc, &reply, store, out, err),
        Err(stop) => write_stop(&stop, err),
    }
}
