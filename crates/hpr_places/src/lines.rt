//! Lines and columns of bytes.
ghost use Rattle.std.specs.Prelude.{◌≡◌, ◌≤◌, length, take};
ghost use Rattle.hpr_places.specs.Lines.{line_at, column_at};

fn front(bytes: &[u8], count: usize) -> &[u8]
    ensures { result.now ≡ take count bytes.now }
{
    if count < bytes.len() {
        &bytes[..count]
    } else {
        bytes
    }
}

/// The line and the column of a byte of a text, which counts from 0: lines and columns count from 1, and a column
/// counts bytes. A byte behind the text stands where the text ends.
pub fn line_and_column(bytes: &[u8], byte: usize) -> (usize, usize)
    ensures line { result.0 ≡ line_at bytes.now byte }
    ensures column { result.1 ≡ column_at bytes.now byte }
{
    let mut line = 1;
    let mut column = 1;
    for passed in front(bytes, byte) {
        if *passed == b'\n' {
            line += 1;
            column = 1;
        } else {
            column += 1;
        }
    }
    (line, column)
}
