//! Writes an answer to `out` and `err`.
ghost use Rattle.std.specs.Prelude.{◌≡◌};
ghost use Rattle.hpr_decisions.specs.Ends.{Says, status_of_kind};
ghost use Rattle.hpr_app.specs.Private.Writes.{Writes, stop_status, stop_message};

use hpr_decisions::Status;
use hpr_inputs::{Kind, Report, Stop};
use hpr_io::{Sink, put_all};

/// The text for words that are no call.
pub const USAGE: &[u8] =
    b"usage: hpr integrate BASE V1 V2.. [--tries N]\n       hpr run FILE [STATE..] [--steps N] [--trace]\n       hpr graph FILE [--json]\n       hpr slice FILE POINT.. [--program]\n       hpr affected BASE A\n       hpr trial BASE A B [STATE..] [--steps N]\n       hpr edit FILE SCRIPT --author N\n       hpr tag FILE --author N\n       hpr sample SEED PARTS\n       hpr verify BASE A B M\n";

/// Puts the text of an answer to `out`, or its message to `err`.
pub fn write_answer<O: Sink, E: Sink>(
    answer: Result<Report, Stop>,
    out: &mut O,
    err: &mut E,
) -> Status
    ensures { Writes answer result
        (record { before = O.faults out.old; now = O.faults out.new; old = O.taken out.old; new = O.taken out.new })
        (record { before = E.faults err.old; now = E.faults err.new; old = E.taken err.old; new = E.taken err.new }) }
{
    match answer {
        Ok(report) => match put_all(out, report.text.as_slice()) {
            Ok(()) => status_of_kind(report.kind),
            Err(_) => {
                write_message(b"hpr: cannot write output\n", err);
                Status::WriteFault
            }
        },
        Err(stop) => write_stop(&stop, err),
    }
}

/// Puts a message to `err`; a put that fails changes nothing else.
pub fn write_message<E: Sink>(message: &[u8], err: &mut E)
    ensures { Says message.now
        (record { before = E.faults err.old; now = E.faults err.new; old = E.taken err.old; new = E.taken err.new }) }
{
    match put_all(err, message) {
        Ok(()) => {}
        Err(_) => {}
    }
}

fn write_stop<E: Sink>(stop: &Stop, err: &mut E) -> Status
    ensures status { result ≡ stop_status stop.now }
    ensures says { Says (stop_message stop.now)
        (record { before = E.faults err.old; now = E.faults err.new; old = E.taken err.old; new = E.taken err.new }) }
{
    write_message(message_of(stop), err);
    status_of(stop)
}

/// The status of an answer of this kind.
fn status_of_kind(kind: Kind) -> Status
    ensures { result ≡ status_of_kind kind }
{
    match kind {
        Kind::Done => Status::Done,
        Kind::Interference => Status::Interference,
        Kind::NoProgram => Status::NoProgram,
        Kind::Spent => Status::Spent,
        Kind::NotEnded => Status::NotEnded,
        Kind::Rejected => Status::Rejected,
    }
}

fn message_of(stop: &Stop) -> &[u8]
    ensures { result.now ≡ stop_message stop.now }
{
    match stop {
        Stop::Refused(message) => message.as_bytes(),
        Stop::ReadFault(message) => message.as_bytes(),
        Stop::Memory => b"hpr: no memory\n",
    }
}

fn status_of(stop: &Stop) -> Status
    ensures { result ≡ stop_status stop.now }
{
    match stop {
        Stop::Refused(_) => Status::Refused,
        Stop::ReadFault(_) => Status::ReadFault,
        Stop::Memory => Status::Memory,
    }
}
