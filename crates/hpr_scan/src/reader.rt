//! Reads the bytes of a text.
ghost use Rattle.std.specs.Prelude.{◌≡◌, ℕ, ◌+◌, ◌<◌, ◌≤◌, true, false, length, take, IfOk};
ghost use Rattle.hpr_scan.specs.Place.{IsPlace, BeginsWith, Accepts, IfStuck};
ghost use Rattle.hpr_scan.specs.Scanner.{refusal_at, Scans};
ghost use Rattle.hpr_scan.specs.Steps.{IsReading};

use crate::machine::{Fault, FrontMachine, TokenMachine};
use crate::scanner::{Advance, Scanner};
use std::alloc::Global;

/// Why there is no machine after the bytes of a text.
#[derive(Clone, Copy, Debug, PartialEq, Eq)]
pub enum Refusal {
    /// The bytes are no text. The first `place` bytes are the front of some text, and no longer
    /// front is.
    Stuck { place: usize },
    /// Memory ran out.
    Memory,
}

// What a fault at the byte behind the first `place` ones means.
fn refused(fault: Fault, place: usize) -> Refusal
    ensures { result ≡ refusal_at place fault }
{
    match fault {
        Fault::Refused => Refusal::Stuck { place },
        Fault::Memory => Refusal::Memory,
    }
}

fn scan<M: TokenMachine + Drop>(
    alloc: Global,
    machine: M,
    bytes: &[u8],
) -> Result<Scanner<M>, Refusal>
    ensures { Scans M.next machine bytes.now result }
{
    let mut scanner = Scanner::new(machine);
    let mut place = 0;
    while place < bytes.len() {
        match scanner.advance(alloc, &bytes[place..]) {
            Advance::Passed(count) => place += count,
            Advance::Took(count) => place += count + 1,
            Advance::Failed(count, fault) => return Err(refused(fault, place + count)),
        }
    }
    Ok(scanner)
}

/// The machine after the tokens of the bytes, where a text may end at it.
///
/// `Stuck` comes exactly where the bytes are no text that the machine takes. Its place is the
/// length of the longest front of the bytes that further bytes complete to such a text. It is all
/// of them where only their end comes too early.
pub fn read<M: TokenMachine + Drop>(alloc: Global, machine: M, bytes: &[u8]) -> Result<M, Refusal>
    ensures reads { IfOk result (λ m. IsReading M.next machine bytes.now m) }
    ensures ends { IfOk result (λ m. M.may_end m ≡ true) }
    ensures place { IfStuck result (λ n. IsPlace (Accepts M.next M.may_end machine) bytes.now n) }
{
    let place = bytes.len();
    let scanner = scan(alloc, machine, bytes)?;
    let machine = match scanner.end(alloc) {
        Ok(machine) => machine,
        Err(fault) => return Err(refused(fault, place)),
    };
    if machine.can_end() {
        Ok(machine)
    } else {
        Err(Refusal::Stuck { place })
    }
}

/// Reads the text at the front of the bytes, whatever follows it.
///
/// `Ok((machine, at))`: the byte at `at` is the last one of the shortest front that is a text of
/// the machine. `Stuck` comes exactly where no front is such a text. Its place is the length of the
/// longest front of the bytes that further bytes complete to bytes that begin with such a text.
pub fn read_front<M: FrontMachine + Drop>(
    alloc: Global,
    machine: M,
    bytes: &[u8],
) -> Result<(M, usize), Refusal>
    requires { M.may_end machine ≡ false }
    ensures within { IfOk result (λ (_, at). at < length bytes.now) }
    ensures reads { IfOk result (λ (m, at). IsReading M.next machine (take (at + 1) bytes.now) m) }
    ensures ends { IfOk result (λ (m, _). M.may_end m ≡ true) }
    ensures shortest { let texts = Accepts M.next M.may_end machine in
        IfOk result (λ (_, at). (n : ℕ) → n ≤ at → texts (take n bytes.now) → ⊥) }
    ensures place { let texts = Accepts M.next M.may_end machine in
        IfStuck result (λ n. IsPlace (BeginsWith texts) bytes.now n) }
{
    let mut scanner = Scanner::new(machine);
    let mut place = 0;
    while place < bytes.len() {
        match scanner.advance(alloc, &bytes[place..]) {
            Advance::Passed(count) => place += count,
            Advance::Took(count) => {
                place += count;
                if scanner.machine.can_end() {
                    return Ok((scanner.machine, place));
                }
                place += 1;
            }
            Advance::Failed(count, fault) => return Err(refused(fault, place + count)),
        }
    }
    let place = bytes.len();
    Err(Refusal::Stuck { place })
}
