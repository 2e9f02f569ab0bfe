//! Writes a reply to `out` and `err`.
ghost use Rattle.std.specs.Prelude.{◌≡◌};
ghost use Rattle.hpr_kit.specs.Ends.{Says};
ghost use Rattle.hpr_kit.specs.Private.Replies.{IsUnwritten, RewritesFile, Writes, WritesTexts, seen, stop_message, stop_status};

use crate::reply::{Reply, Stop};
use crate::status::Status;
use crate::store::{RewriteError, Store};
use hpr_io::{Sink, put_all};
use std::alloc::Global;

/// Puts the text of a reply to `out` and its message to `err`, or gives its file its bytes.
pub(crate) fn write_reply<D: Store, O: Sink, E: Sink>(
    alloc: Global,
    reply: &Reply,
    store: &mut D,
    out: &mut O,
    err: &mut E,
) -> Status
    ensures { Writes (seen reply.now) result
        (record {
          before = D.faults store.old;
          now = D.faults store.new;
          old = D.rewritten store.old;
          new = D.rewritten store.new;
        })
        (record { before = O.faults out.old; now = O.faults out.new; old = O.taken out.old; new = O.taken out.new })
        (record { before = E.faults err.old; now = E.faults err.new; old = E.taken err.old; new = E.taken err.new }) }
{
    match reply {
        Reply::Said {
            status,
            out: text,
            err: message,
        } => { write_texts(*status, text.as_slice(), message.as_slice(), out, err) }
        Reply::Rewrites { file, had, bytes } => {
            rewrite_file(
                alloc,
                file.as_str(),
                had.as_slice(),
                bytes.as_slice(),
                store,
                err,
            )
        }
    }
}

/// Puts a text to `out`, and then a message to `err`.
fn write_texts<O: Sink, E: Sink>(
    status: Status,
    text: &[u8],
    message: &[u8],
    out: &mut O,
    err: &mut E,
) -> Status
    ensures { WritesTexts status text.now message.now result
        (record { before = O.faults out.old; now = O.faults out.new; old = O.taken out.old; new = O.taken out.new })
        (record { before = E.faults err.old; now = E.faults err.new; old = E.taken err.old; new = E.taken err.new }) }
{
    match put_all(out, text) {
        Ok(()) => {
            write_message(message, err);
            status
        }
        Err(_) => {
            write_message(b"hprkit: cannot write output\n", err);
            Status::WriteFault
        }
    }
}

/// Gives a file its bytes.
fn rewrite_file<D: Store, E: Sink>(
    alloc: Global,
    file: &str,
    had: &[u8],
    bytes: &[u8],
    store: &mut D,
    err: &mut E,
) -> Status
    ensures { RewritesFile (record { file = file.now; had = had.now; bytes = bytes.now }) result
        (record {
          before = D.faults store.old;
          now = D.faults store.new;
          old = D.rewritten store.old;
          new = D.rewritten store.new;
        })
        (record { before = E.faults err.old; now = E.faults err.new; old = E.taken err.old; new = E.taken err.new }) }
{
    match store.rewrite(alloc, file, had, bytes) {
        Ok(()) => Status::Done,
        Err(RewriteError::Failed) => write_stop(&unwritten(alloc, file), err),
        Err(RewriteError::Memory) => write_stop(&Stop::Memory, err),
    }
}

/// That a file can't be written, or that there is no memory to say so.
fn unwritten(alloc: Global, file: &str) -> Stop
    ensures { IsUnwritten file.now result }
{
    match format!(in alloc; "hprkit: cannot write {file}\n") {
        Ok(message) => Stop::WriteFault(message),
        Err(_) => Stop::Memory,
    }
}

/// Puts a message to `err`; a put that fails changes nothing else.
pub(crate) fn write_message<E: Sink>(message: &[u8], err: &mut E)
    ensures { Says message.now
        (record { before = E.faults err.old; now = E.faults err.new; old = E.taken err.old; new = E.taken err.new }) }
{
    match put_all(err, message) {
        Ok(()) => {}
        Err(_) => {}
    }
}

/// Puts the message of a stop to `err`.
pub(crate) fn write_stop<E: Sink>(stop: &Stop, err: &mut E) -> Status
    ensures status { result ≡ stop_status stop.now }
    ensures says { Says (stop_message stop.now)
        (record { before = E.faults err.old; now = E.faults err.new; old = E.taken err.old; new = E.taken err.new }) }
{
    write_message(message_of(stop), err);
    status_of(stop)
}

fn message_of(stop: &Stop) -> &[u8]
    ensures { result.now ≡ stop_message stop.now }
{
    match stop {
        Stop::ReadFault(message) | Stop::WriteFault(message) => message.as_bytes(),
        Stop::Memory => b"hprkit: no memory\n",
    }
}

fn status_of(stop: &Stop) -> Status
    ensures { result ≡ stop_status stop.now }
{
    match stop {
        Stop::ReadFault(_) => Status::ReadFault,
        Stop::WriteFault(_) => Status::WriteFault,
        Stop::Memory => Status::Memory,
    }
}
