//! Calls of hpr_words.
use hpr_rows::{Out, Row, put, put_count, truth};
use hpr_words::{Asked, WordsError, read_words};

// Puts the words, each in brackets.
fn put_list(out: &mut Out, words: &[&str]) {
    for word in words {
        out.put_piece(" [");
        out.put_piece(word);
        out.put_piece("]");
    }
}

// Puts a command and its files.
fn put_files(out: &mut Out, command: &str, files: &[&str]) {
    out.put_piece(command);
    put_list(out, files);
}

fn put_integrate(out: &mut Out, files: &[&str], tries: u64) {
    put_files(out, "integrate", files);
    put_count(out, ", tries ", tries);
}

fn put_many(out: &mut Out, base: &str, variants: &[&str], tries: u64) {
    put_files(out, "integrate", &[base]);
    put_files(out, ", variants", variants);
    put_count(out, ", tries ", tries);
}

fn put_affected(out: &mut Out, files: &[&str]) {
    put_files(out, "affected", files);
    out.put_piece("\n");
}

fn put_trial(out: &mut Out, files: &[&str], states: &[&str], steps: u64) {
    put_files(out, "trial", files);
    put_files(out, ", states", states);
    put_count(out, ", steps ", steps);
}

// Puts a command that reads variants.
fn put_variants(out: &mut Out, asked: &Asked<'_>) {
    match asked {
        Asked::Integrate { base, a, b, tries } => put_integrate(out, &[base, a, b], *tries),
        Asked::IntegrateMany {
            base,
            variants,
            tries,
        } => put_many(out, base, variants, *tries),
        Asked::Affected { base, a } => put_affected(out, &[base, a]),
        Asked::Trial {
            base,
            a,
            b,
            states,
            steps,
        } => put_trial(out, &[base, a, b], states, *steps),
        _ => put_one_file(out, asked),
    }
}

fn put_run(out: &mut Out, file: &str, states: &[&str], steps: u64, trace: bool) {
    put_files(out, "run", &[file]);
    put_files(out, ", states", states);
    out.put_piece(", steps ");
    out.put_number(steps);
    put(out, &[", trace ", truth(trace), "\n"]);
}

fn put_graph(out: &mut Out, file: &str, json: bool) {
    put_files(out, "graph", &[file]);
    put(out, &[", json ", truth(json), "\n"]);
}

fn put_slice(out: &mut Out, file: &str, points: &[&str], program: bool) {
    put_files(out, "slice", &[file]);
    put_files(out, ", points", points);
    put(out, &[", program ", truth(program), "\n"]);
}

// Puts a command that shows one file.
fn put_one_file(out: &mut Out, asked: &Asked<'_>) {
    match asked {
        Asked::Run {
            file,
            states,
            steps,
            trace,
        } => put_run(out, file, states, *steps, *trace),
        Asked::Graph { file, json } => put_graph(out, file, *json),
        Asked::Slice {
            file,
            points,
            program,
        } => put_slice(out, file, points, *program),
        _ => put_change(out, asked),
    }
}

fn put_author(out: &mut Out, command: &str, files: &[&str], author: u32) {
    put_files(out, command, files);
    put_count(out, ", author ", u64::from(author));
}

fn put_sample(out: &mut Out, seed: u64, parts: usize) {
    out.put_piece("sample ");
    out.put_number(seed);
    put_count(out, ", parts ", parts as u64);
}

// Puts a command that changes a file, or that makes programs.
fn put_change(out: &mut Out, asked: &Asked<'_>) {
    match asked {
        Asked::Edit {
            file,
            script,
            author,
        } => put_author(out, "edit", &[file, script], *author),
        Asked::Tag { file, author } => put_author(out, "tag", &[file], *author),
        Asked::Sample { seed, parts } => put_sample(out, *seed, *parts),
        _ => out.put_piece("another command\n"),
    }
}

/// `WORD..`: what the words ask for.
pub(crate) fn call(row: Row<'_>, out: &mut Out) -> Option<()> {
    match read_words(row.alloc, row.rest(1)) {
        Ok(asked) => put_variants(out, &asked),
        Err(WordsError::Refused) => out.put_piece("refused\n"),
        Err(WordsError::Memory) => out.cut(),
    }
    Some(())
}
