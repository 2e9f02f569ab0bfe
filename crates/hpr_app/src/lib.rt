//! The top call of the integrator: reads the words, the files that they name, decides, and writes
//! the answer.
#![tactic(auto)]

mod affected;
mod answer;
mod certificate;
mod commands;
mod edit;
mod graph;
mod graphs;
mod integrate;
mod integrate_many;
mod programs;
mod run;
mod sample;
mod slice;
mod tag;
mod trace_text;
mod trial;
mod verify;

ghost use Rattle.std.specs.Prelude.{◌≡◌, ◌≢◌, ℕ, List, ◌<◌, ◌⊎◌, ◌↔◌, All, None, IfSome, IsTrue, map, string_bytes};
ghost use Rattle.hpr_io.specs.Counts.{Rose};
ghost use Rattle.hpr_io.specs.Files.{Files};
ghost use Rattle.hpr_io.specs.Taken.{taken_then};
ghost use Rattle.hpr_graph.specs.Answer.{interference, no_program, spent};
ghost use Rattle.hpr_words.specs.Asked.{request};
ghost use Rattle.hpr_words.specs.Plain.{plain};
ghost use Rattle.hpr_words.specs.Request.{Request, IsInRange};
ghost use Rattle.hpr_decisions.specs.Asked.{Took, WhereAsked, asked_by};
ghost use Rattle.hpr_decisions.specs.Reads.{MayRead, MayReadIfTaken, ReadsNothing, files_of, files_of_taken};
ghost use Rattle.hpr_decisions.specs.Outcome.{RequestOutcome, Outcome, OutcomeIfTold};
ghost use Rattle.hpr_decisions.specs.Statuses.{IsStatusOf};
ghost use Rattle.hpr_inputs.specs.Decision.{refuses};
ghost use Rattle.hpr_decisions.specs.Integrate.{no_program_text, spent_text};
ghost use Rattle.hpr_decisions.specs.Complete.{RequestCompletes, PrintsOther, UnlessFailed, IsRefusedCall};
ghost use Rattle.hpr_decisions.specs.Reports.{ConflictOf, HasAnswer, HasConflict, HasSpentLeaves, IsInterference, tries_of};
ghost use Rattle.hpr_decisions.specs.Theorem.{KeepsAllMeaning, KeepsMeaning};
ghost use Rattle.hpr_decisions.specs.MergedText.{PrintsMerged};
ghost use Rattle.hpr_decisions.specs.LeftText.{PrintsLeft};
ghost use Rattle.hpr_decisions.specs.SliceTheorem.{DoesSlice};
ghost use Rattle.hpr_decisions.specs.TrialKeeps.{EndsTrial, KeepsTrial};
ghost use Rattle.hpr_decisions.specs.VerifyKeeps.{HasVerified, IsRejected};
ghost use Rattle.hpr_decisions.specs.Ends.{Ends};

pub use certificate::certificate_json;
pub use hpr_decisions::Status;
use hpr_inputs::Stop;
use hpr_io::{Shelf, Sink};
use hpr_words::{Asked, WordsError, read_words};
use std::alloc::Global;

/// Runs one command: reads its words, fetches the files that they name, and puts its text to `out`
/// or its message to `err`.
///
/// The words of a state are judged from left to right, before any file is read; then each file
/// before the next one is fetched: one that has more than 4,194,304 bytes, spells no tree, or spells
/// a tree that is no program is refused. So is a file whose program has a graph of more than
/// 1,000,000 edges, where the command needs it; then the first word for a point that names no vertex
/// is refused. Variants that interfere are reported with all their conflicts; else the merged program
/// is printed, in which a part may have a new tag of author 0, or it is said that there is none, or that
/// the budget of tries is spent. A trial runs
/// where a program would be printed. A script is read after the program that it edits; its first
/// command that is refused is named with its number, and nothing is printed then. A sample is made of a
/// seed, and no file is read for it. An offered program is verified, or rejected with what shows it. All
/// text of `out` is made before its first byte is put. No status is for a failed write to `err`.
pub fn hpr<S: Shelf, O: Sink, E: Sink>(
    alloc: Global,
    words: &[String],
    shelf: &mut S,
    out: &mut O,
    err: &mut E,
) -> Status
    requires { All (λ name. IsTrue (S.serves shelf.old name)) (files_of_taken (asked_by words.now)) }

    // Exactly one of four cases holds, by the status.
    ensures ends { Ends result (OutcomeIfTold (asked_by words.now) (S.files shelf.old))
        (MayReadIfTaken (asked_by words.now) (S.files shelf.old))
        (S.faults shelf.old) (S.faults shelf.new)
        (record { before = O.faults out.old; now = O.faults out.new; old = O.taken out.old; new = O.taken out.new })
        (record { before = E.faults err.old; now = E.faults err.new; old = E.taken err.old; new = E.taken err.new }) }

    // The shelf tells the same files and serves the same names as before, so that a call can follow on it.
    ensures same_files { S.files shelf.new ≡ S.files shelf.old }
    ensures same_names { (n : List ℕ) → S.serves shelf.new n ≡ S.serves shelf.old n }

    // Each status has its cause, and plain words are a call.
    ensures words { result ≢ Status.Memory → ((result ≡ Status.Words) ↔ (asked_by words.now ≡ None)) }
    ensures plain { (asked : Request) → plain (map string_bytes words.now) ≡ Some asked → result ≢ Status.Words }
    ensures read { result ≡ Status.ReadFault → Rose (S.faults shelf.old) (S.faults shelf.new) }
    ensures write { result ≡ Status.WriteFault → Rose (O.faults out.old) (O.faults out.new) }
    ensures read_grew { S.faults shelf.old < S.faults shelf.new → (result ≡ Status.ReadFault)
        ⊎ (result ≡ Status.Memory) }
    ensures write_grew { O.faults out.old < O.faults out.new → result ≡ Status.WriteFault }

    // Whatever the shelf tells, the status is one of the command's.
    ensures status { IfSome (asked_by words.now) (λ asked. IsStatusOf asked result) }

    // A call that comes to read no file, as `sample` or one with a word of a state that is refused, ends as over any
    // files, and no read fails in it.
    ensures unread { ReadsNothing (asked_by words.now) → (files : Files) → Ends result
        (Outcome (asked_by words.now) files) (MayReadIfTaken (asked_by words.now) (S.files shelf.old))
        (S.faults shelf.old) (S.faults shelf.new)
        (record { before = O.faults out.old; now = O.faults out.new; old = O.taken out.old; new = O.taken out.new })
        (record { before = E.faults err.old; now = E.faults err.new; old = E.taken err.old; new = E.taken err.new }) }
    ensures unread_count { ReadsNothing (asked_by words.now) → S.faults shelf.new ≡ S.faults shelf.old }

    // Where no read and no write failed and nothing is refused, the command does what it is for, if memory was found.
    ensures complete { WhereAsked words.now (S.files shelf.old) (λ asked files.
        UnlessFailed (S.faults shelf.old) (S.faults shelf.new) (O.faults out.old) (O.faults out.new) result
        (RequestCompletes asked files (O.taken out.old) (O.taken out.new) result)) }

    // Where one variant is the base, the other one is printed; so is the only program that many variants became.
    ensures one_side { WhereAsked words.now (S.files shelf.old) (λ asked files.
        UnlessFailed (S.faults shelf.old) (S.faults shelf.new) (O.faults out.old) (O.faults out.new) result
        (PrintsOther asked files (O.taken out.old) (O.taken out.new) result)) }

    // The status is Interference exactly where a changed point's slice differs in the merged graph and no earlier cause
    // holds; `out` then takes the text of all conflicts.
    ensures conflict { WhereAsked words.now (S.files shelf.old) (λ asked files. HasConflict asked files
        → UnlessFailed (S.faults shelf.old) (S.faults shelf.new) (O.faults out.old) (O.faults out.new) result
        (result ≡ Status.Interference)) }
    ensures interferes { WhereAsked words.now (S.files shelf.old) (λ asked files. (cs : List (ConflictOf asked))
        → HasAnswer asked files (interference cs)
        → UnlessFailed (S.faults shelf.old) (S.faults shelf.new) (O.faults out.old) (O.faults out.new) result
        (IsInterference asked cs (O.taken out.old) (O.taken out.new) result)) }
    ensures interference { WhereAsked words.now (S.files shelf.old) (λ asked files. result ≡ Status.Interference
        → (cs : List (ConflictOf asked)) × HasAnswer asked files (interference cs)
        × IsInterference asked cs (O.taken out.old) (O.taken out.new) result) }

    // NoProgram comes only where no program has the merged graph, in which of two contents of one tag the one that A
    // lacks has a tag of author 0, and Spent only where none of the arrangements that may be tried has it and there are
    // more; `out` then takes the line that says so.
    ensures no_program { WhereAsked words.now (S.files shelf.old) (λ asked files. result ≡ Status.NoProgram
        → (parts : ℕ) × HasAnswer asked files (no_program parts)
        × (O.taken out.new ≡ taken_then (O.taken out.old) (no_program_text parts))) }
    ensures spent { WhereAsked words.now (S.files shelf.old) (λ asked files. result ≡ Status.Spent
        → HasAnswer asked files spent × (O.taken out.new ≡ taken_then (O.taken out.old)
        (spent_text (tries_of asked)))) }

    // So it is of their leaves too: arrangements that begin alike, up to a part which rules the graph out, are one
    // leaf, however many they are.
    ensures leaves { WhereAsked words.now (S.files shelf.old) (λ asked files. result ≡ Status.Spent
        → HasSpentLeaves asked files) }

    // Where no read failed, a call with a file that is refused gives its message, if memory was found.
    ensures refused { (message : List ℕ) → WhereAsked words.now (S.files shelf.old) (λ asked files.
        RequestOutcome asked files (refuses message) → ¬ Rose (S.faults shelf.old) (S.faults shelf.new)
        → IsRefusedCall message result
        (record { before = E.faults err.old; now = E.faults err.new; old = E.taken err.old; new = E.taken err.new })) }

    // The integration theorem: the bytes that `out` took in this call spell a program that keeps the meaning of both
    // variants.
    ensures keeps { WhereAsked words.now (S.files shelf.old) (λ asked files. result ≡ Status.Done
        → Took (O.taken out.old) (O.taken out.new) (KeepsMeaning asked files)) }

    // The same theorem of three variants or more: they spell a program that keeps the meaning of all of them.
    ensures keeps_all { WhereAsked words.now (S.files shelf.old) (λ asked files. result ≡ Status.Done
        → Took (O.taken out.old) (O.taken out.new) (KeepsAllMeaning asked files)) }

    // Its graph is the merged graph, in which the parts that are split off are under their new tags.
    ensures merged { WhereAsked words.now (S.files shelf.old) (λ asked files. result ≡ Status.Done
        → Took (O.taken out.old) (O.taken out.new) (PrintsMerged asked files)) }

    // Where a slice was asked for as a program, they are the canonical text of what it leaves of the file's program.
    ensures left { WhereAsked words.now (S.files shelf.old) (λ asked files. result ≡ Status.Done
        → Took (O.taken out.old) (O.taken out.new) (PrintsLeft asked files)) }

    // The theorem on slices as programs: these bytes spell a program whose graph is the slice, without the Init
    // vertices that nothing in it uses, and which does what the whole does there.
    ensures slices { WhereAsked words.now (S.files shelf.old) (λ asked files. result ≡ Status.Done
        → Took (O.taken out.old) (O.taken out.new) (DoesSlice asked files)) }

    // A trial is finished wherever base, A and B end. Then the merged program ends too, within as many steps as the
    // three took together, and the rows of the table have what a variant changed and what all three agree on.
    ensures trial_ends { WhereAsked words.now (S.files shelf.old) (λ asked files. EndsTrial asked files result) }
    ensures trial { WhereAsked words.now (S.files shelf.old) (λ asked files. result ≡ Status.Done
        → Took (O.taken out.old) (O.taken out.new) (KeepsTrial asked files)) }

    // A merge made elsewhere: a program is verified exactly where there is no conflict and its graph is the merged graph,
    // and then it keeps the meaning of both variants; else the call is rejected with the text of the verdict.
    ensures verified { WhereAsked words.now (S.files shelf.old) (λ asked files. result ≡ Status.Done
        → HasVerified asked files) }
    ensures rejected { WhereAsked words.now (S.files shelf.old) (λ asked files. result ≡ Status.Rejected
        → Took (O.taken out.old) (O.taken out.new) (IsRejected asked files)) }
{
    run_words(alloc, words, shelf, out, err)
}

/// The same, told by how the call ends.
fn run_words<S: Shelf, O: Sink, E: Sink>(
    alloc: Global,
    words: &[String],
    shelf: &mut S,
    out: &mut O,
    err: &mut E,
) -> Status
    requires { All (λ name. IsTrue (S.serves shelf.old name)) (files_of_taken (asked_by words.now)) }
    ensures ends { Ends result (OutcomeIfTold (asked_by words.now) (S.files shelf.old))
        (MayReadIfTaken (asked_by words.now) (S.files shelf.old))
        (S.faults shelf.old) (S.faults shelf.new)
        (record { before = O.faults out.old; now = O.faults out.new; old = O.taken out.old; new = O.taken out.new })
        (record { before = E.faults err.old; now = E.faults err.new; old = E.taken err.old; new = E.taken err.new }) }
    ensures words { result ≢ Status.Memory → ((result ≡ Status.Words) ↔ (asked_by words.now ≡ None)) }
    ensures status { IfSome (asked_by words.now) (λ asked. IsStatusOf asked result) }
    ensures unread { ReadsNothing (asked_by words.now) → (files : Files) → Ends result
        (Outcome (asked_by words.now) files) (MayReadIfTaken (asked_by words.now) (S.files shelf.old))
        (S.faults shelf.old) (S.faults shelf.new)
        (record { before = O.faults out.old; now = O.faults out.new; old = O.taken out.old; new = O.taken out.new })
        (record { before = E.faults err.old; now = E.faults err.new; old = E.taken err.old; new = E.taken err.new }) }
    ensures unread_count { ReadsNothing (asked_by words.now) → S.faults shelf.new ≡ S.faults shelf.old }
    ensures same_files { S.files shelf.new ≡ S.files shelf.old }
    ensures same_names { (n : List ℕ) → S.serves shelf.new n ≡ S.serves shelf.old n }
{
    match read_words(alloc, words) {
        Ok(asked) => run_asked(alloc, asked, shelf, out, err),
        Err(WordsError::Refused) => {
            answer::write_message(answer::USAGE, err);
            Status::Words
        }
        Err(WordsError::Memory) => answer::write_answer(Err(Stop::Memory), out, err),
    }
}

fn run_asked<S: Shelf, O: Sink, E: Sink>(
    alloc: Global,
    asked: Asked<'_>,
    shelf: &mut S,
    out: &mut O,
    err: &mut E,
) -> Status
    requires in_range { IsInRange (request asked) }
    requires serves { All (λ name. IsTrue (S.serves shelf.old name)) (files_of (request asked)) }
    ensures ends { Ends result (OutcomeIfTold (Some (request asked.entry)) (S.files shelf.old))
        (MayRead (request asked.entry) (S.files shelf.old))
        (S.faults shelf.old) (S.faults shelf.new)
        (record { before = O.faults out.old; now = O.faults out.new; old = O.taken out.old; new = O.taken out.new })
        (record { before = E.faults err.old; now = E.faults err.new; old = E.taken err.old; new = E.taken err.new }) }
    ensures taken { result ≢ Status.Words }
    ensures status { IsStatusOf (request asked.entry) result }
    ensures unread { ReadsNothing (Some (request asked.entry)) → (files : Files) → Ends result
        (RequestOutcome (request asked.entry) files) (MayRead (request asked.entry) (S.files shelf.old))
        (S.faults shelf.old) (S.faults shelf.new)
        (record { before = O.faults out.old; now = O.faults out.new; old = O.taken out.old; new = O.taken out.new })
        (record { before = E.faults err.old; now = E.faults err.new; old = E.taken err.old; new = E.taken err.new }) }
    ensures unread_count { ReadsNothing (Some (request asked.entry)) → S.faults shelf.new ≡ S.faults shelf.old }
    ensures same_files { S.files shelf.new ≡ S.files shelf.old }
    ensures same_names { (n : List ℕ) → S.serves shelf.new n ≡ S.serves shelf.old n }
{
    let answer = commands::decide(alloc, asked, shelf);
    answer::write_answer(answer, out, err)
}
