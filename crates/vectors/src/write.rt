// `write` lines: a filter is written from eight clauses.
use filter::request::{CLAUSE_NAMES, Request, no_clauses};
use filter_write::write::write_filter;
use line_words::answer::{say_unknown, say_written};
use line_words::word::{buffer_of, text_of};
use std::alloc::{AllocError, Global};
use std::io;
use std::io::Write;

// The clauses of a line, in document 01's order: `.` for an absent one, else its text, which is put into the source.
fn request_of(source: &mut Vec<u8>, words: &[&str]) -> Result<Option<Request>, AllocError> {
    if words.len() != CLAUSE_NAMES.len() {
        return Ok(None);
    }
    let mut request = no_clauses();
    for (name, word) in CLAUSE_NAMES.iter().zip(words) {
        if *word == "." {
            continue;
        }
        let Some(text) = text_of(source, word)? else {
            return Ok(None);
        };
        request = request.with(*name, Some(text));
    }
    Ok(Some(request))
}

pub fn answer_write<W: Write>(to: &mut W, alloc: Global, fields: &[&str]) -> io::Result<()> {
    let [room, clauses @ ..] = fields else {
        return say_unknown(to);
    };
    let mut source = Vec::new(alloc);
    let (Some(mut out), Some(request)) = (
        buffer_of(alloc, room)?,
        request_of(&mut source, clauses)?,
    ) else {
        return say_unknown(to);
    };
    let written = write_filter(&source, request, &mut out);
    say_written(to, "write", written, &out)
}
