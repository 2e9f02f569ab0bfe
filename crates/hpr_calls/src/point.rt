//! Calls of hpr_paths and hpr_reach on the points of a program.
ghost use Rattle.std.specs.Prelude.{◌<◌, length};

use hpr_paths::{Step, Succ, successors};
use hpr_reach::{BitRow, live_at_entry, reach};
use hpr_rows::{Out, Row, put, put_counted, put_names, put_tag};
use hpr_syntax::Program;
use hpr_terms::Name;
use std::alloc::Global;

/// Answers the call.
pub(crate) fn call(row: Row<'_>, out: &mut Out) -> Option<()> {
    let program = row.program(2)?;
    of_program(row, out, &program)
}

fn of_program(row: Row<'_>, out: &mut Out, program: &Program) -> Option<()> {
    let succ = successors(row.alloc, program).ok()?;
    answer(row, out, &succ)
}

fn answer(row: Row<'_>, out: &mut Out, succ: &Succ) -> Option<()> {
    match row.word(1)? {
        "points" => put_points(out, succ),
        "live" => put_live(row.alloc, out, succ),
        "users" => users(row, out, succ)?,
        "listed" => listed(row, out, succ)?,
        _ => reached(row, out, succ)?,
    }
    Some(())
}

// `live PROGRAM`: the names that it takes from before it.
fn put_live(alloc: Global, out: &mut Out, succ: &Succ) {
    match live_at_entry(alloc, succ) {
        Ok(names) => put_names(out, "live", &names),
        Err(_) => out.cut(),
    }
}

fn put_name(out: &mut Out, name: Option<&Name>) {
    if let Some(name) = name {
        put(out, &[" ", name.text()]);
    }
}

// Puts the tag and the name that is defined.
fn put_part(out: &mut Out, succ: &Succ, point: usize)
    requires { point < length succ.now }
{
    match succ.tag(point) {
        Some(tag) => {
            put_tag(out, tag);
            put_name(out, succ.defines(point));
        }
        None => out.put_piece("-"),
    }
}

fn put_steps(out: &mut Out, steps: &[Step]) {
    for step in steps {
        let how = if step.back { " back to " } else { " to " };
        put_counted(out, how, step.to);
    }
}

fn put_nest(out: &mut Out, nest: &[usize]) {
    for inner in nest {
        put_counted(out, " in ", *inner);
    }
}

// Puts what is known of a point, but for the names that it uses.
fn put_point(out: &mut Out, succ: &Succ, point: usize)
    requires { point < length succ.now }
{
    put_part(out, succ, point);
    put_steps(out, succ.next(point));
    put_nest(out, succ.nest(point));
    out.put_piece("\n");
}

// `points PROGRAM`: each point in a line.
fn put_points(out: &mut Out, succ: &Succ) {
    for point in 0..succ.points() {
        put_point(out, succ, point);
    }
}

fn put_users(out: &mut Out, succ: &Succ, name: &Name) {
    out.put_piece("used at");
    for point in 0..succ.points() {
        if succ.uses(point, name) {
            put_counted(out, " ", point);
        }
    }
    out.put_piece("\n");
}

// `users PROGRAM NAME`: the points that use the name.
fn users(row: Row<'_>, out: &mut Out, succ: &Succ) -> Option<()> {
    let name = row.name(3)?;
    put_users(out, succ, &name);
    Some(())
}

fn put_reached(out: &mut Out, reached: &BitRow, count: usize) {
    out.put_piece("reached");
    for point in 0..count {
        if reached.has(point) {
            put_counted(out, " ", point);
        }
    }
    out.put_piece("\n");
}

// `reach PROGRAM NAME POINT CUT`: the points that are reached.
fn reached(row: Row<'_>, out: &mut Out, succ: &Succ) -> Option<()> {
    let from = row.number(4)?;
    let cut = row.number(5)?;
    let name = row.name(3)?;
    reached_from(row.alloc, out, succ, &name, (from, cut))
}

fn reached_from(
    alloc: Global,
    out: &mut Out,
    succ: &Succ,
    name: &Name,
    start: (usize, usize),
) -> Option<()> {
    let (from, cut) = start;
    if from < succ.points() && cut <= succ.nest(from).len() {
        let reached = reach(alloc, succ, from, name, cut).ok()?;
        put_reached(out, &reached, succ.points());
    }
    Some(())
}

fn put_list(out: &mut Out, points: &[usize]) {
    out.put_piece("listed");
    for point in points {
        put_counted(out, " ", *point);
    }
    out.put_piece("\n");
}

// `listed PROGRAM NAME POINT CUT`: the same points from the list of them, in order.
fn listed(row: Row<'_>, out: &mut Out, succ: &Succ) -> Option<()> {
    let from = row.number(4)?;
    let cut = row.number(5)?;
    let name = row.name(3)?;
    listed_from(row.alloc, out, succ, &name, (from, cut))
}

fn listed_from(
    alloc: Global,
    out: &mut Out,
    succ: &Succ,
    name: &Name,
    start: (usize, usize),
) -> Option<()> {
    let (from, cut) = start;
    if from < succ.points() && cut <= succ.nest(from).len() {
        let reached = reach(alloc, succ, from, name, cut).ok()?;
        let mut points = reached.points().to_vec(alloc).ok()?;
        points.sort_unstable();
        put_list(out, &points);
    }
    Some(())
}
