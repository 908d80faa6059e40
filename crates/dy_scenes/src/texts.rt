// Answers and rows as texts. A place is its holder and its home, as in `3/1`.
use crate::calls::Got;
use crate::rings::NODES;
use dy_cluster::{Fault, NodeId, Row};
use dy_core::AnswerRead;
use dy_node::RowFor;
use std::alloc::Global;
use std::sync::{Mutex, Wait};

// The answer as `3/1=stored`, node 3 for home 1.
fn write_answer(out: &mut String, answer: &AnswerRead) -> Result<(), Fault> {
    let place = answer.place;
    write!(out, " {}/{}={}", place.holder, place.home, answer.kind)?;
    Ok(())
}

// Writes the answers of the holder, in the order in which they came.
fn write_answers(out: &mut String, holder: u8, answers: &[AnswerRead]) -> Result<(), Fault> {
    for answer in answers {
        if answer.place.holder.number() == holder {
            write_answer(out, answer)?;
        }
    }
    Ok(())
}

// The answers, holder by holder.
pub fn text_of(alloc: Global, answers: &[AnswerRead]) -> Result<String, Fault> {
    let mut text = String::new(alloc);
    for holder in 0..NODES {
        write_answers(&mut text, holder, answers)?;
    }
    Ok(text)
}

// The letter that is the row's one value. Where there is none or another, 0.
fn letter_of(row: &Row) -> u8 {
    match row.versions() {
        [version] => match version.value() {
            Some(value) => match value.as_bytes() {
                [letter] => *letter,
                _ => 0,
            },
            None => 0,
        },
        _ => 0,
    }
}

// What a get gave.
pub fn got_of(
    alloc: Global,
    homes: usize,
    row: &Row,
    answers: &[AnswerRead],
) -> Result<Got, Fault> {
    let told = text_of(alloc, answers)?;
    Ok(Got {
        homes,
        letter: letter_of(row),
        told,
    })
}

// The place, and the dots of its row.
fn write_row(alloc: Global, out: &mut String, holder: NodeId, row: &RowFor) -> Result<(), Fault> {
    let dots = row.1.dots(alloc)?;
    write!(out, " {holder}/{} {dots}", row.0)?;
    Ok(())
}

// What the holder keeps.
pub fn kept_text(alloc: Global, holder: NodeId, rows: &[RowFor]) -> Result<String, Fault> {
    let mut text = String::new(alloc);
    for row in rows {
        write_row(alloc, &mut text, holder, row)?;
    }
    Ok(text)
}

/// Whether this was told.
pub fn is_told<R: Wait>(rt: &R, told: &Mutex<Option<String>>, wanted: &str) -> bool {
    match &*told.lock(rt) {
        Some(text) => text.as_str() == wanted,
        None => false,
    }
}
