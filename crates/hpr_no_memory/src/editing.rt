//! Calls of an editor that don't edit.

use crate::marks::Marks;
use hpr_edit::Editor;
use hpr_syntax::Program;

/// Makes the calls.
pub(crate) fn call(marks: &mut Marks, program: Program) -> Option<()> {
    marks.ready()?;
    let editor = Editor::start(program, 2);
    marks.after("Editor::start", true)?;
    marks.after("Editor::program", editor.program().part_count() == 6)?;
    let program = editor.close();
    marks.after("Editor::close", program.part_count() == 6)
}
