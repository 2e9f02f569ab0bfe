//! Calls of hpr_data over texts in memory, as rows: the words of a row are those of hpr, and its texts the files.
//! Its rows are those of hpr_rows.
#![tactic(auto)]

use hpr_data::data;
use hpr_rows::{Calls, Out, Row, Sheet, Text, put_bytes, put_count, take};
use std::alloc::Global;
use std::io;

struct DataCalls;

impl Calls for DataCalls {
    // The status of what is told, and its line.
    fn answer(row: Row<'_>, out: &mut Out) -> Option<()> {
        let files = files_of(row.alloc, row.texts)?;
        let reply = data(row.alloc, row.words, &files).ok()?;
        put_count(out, "status ", u64::from(reply.status.number()));
        put_bytes(out, &reply.text);
        Some(())
    }
}

// The texts, as files.
fn files_of(alloc: Global, texts: &[Text]) -> Option<Vec<(String, Vec<u8>)>> {
    let mut files = Vec::new(alloc);
    for text in texts {
        files.push(file_of(alloc, text)?).ok()?;
    }
    Some(files)
}

fn file_of(alloc: Global, text: &Text) -> Option<(String, Vec<u8>)> {
    let name = String::from_str(alloc, text.name.as_str()).ok()?;
    let bytes = Vec::from_slice(alloc, text.bytes.as_slice()).ok()?;
    Some((name, bytes))
}

fn main(rt: HostRuntime) -> io::Result<()> {
    let alloc = rt.alloc();
    let mut texts = Vec::new(alloc);
    let mut sheet = Sheet::new(alloc);
    for line in rt.lines(alloc) {
        let line = line?;
        if take::<DataCalls>(alloc, &mut texts, &mut sheet, line.as_str()).is_none() {
            sheet.refuse(line.as_str());
        }
    }
    let text = sheet.end(alloc);
    print!(rt; "{text}")
}
