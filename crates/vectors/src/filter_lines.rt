// `filter` and `values` lines: a filter is taken apart, and its values are judged.
use answers::number_in;
use filter::request::{CLAUSE_NAMES, Request};
use filter_read::read::take_apart;
use filter_read::value::judge_values;
use line_words::answer::{say_numbers, say_text, say_unknown};
use line_words::word::only_octets;
use std::alloc::Global;
use std::io;
use std::io::Write;

fn say_request<W: Write>(to: &mut W, filter: &[u8], request: Request) -> io::Result<()> {
    for name in CLAUSE_NAMES {
        match request.clause(name) {
            None => write!(to, " .")?,
            Some(clause) => say_text(to, clause.of(filter))?,
        }
    }
    Ok(())
}

// The clauses of a refused filter are all absent.
pub fn answer_filter<W: Write>(to: &mut W, alloc: Global, fields: &[&str]) -> io::Result<()> {
    let Some(filter) = only_octets(alloc, fields)? else {
        return say_unknown(to);
    };
    let taken = take_apart(&filter);
    say_numbers(to, "filter", &[number_in(&taken) as u64])?;
    match taken {
        Ok(request) => say_request(to, &filter, request),
        Err(_) => write!(to, " . . . . . . . ."),
    }
}

pub fn answer_values<W: Write>(to: &mut W, alloc: Global, fields: &[&str]) -> io::Result<()> {
    let Some(filter) = only_octets(alloc, fields)? else {
        return say_unknown(to);
    };
    let judged = take_apart(&filter).and_then(|request| judge_values(&filter, request));
    let number = number_in(&judged);
    let version = judged.unwrap_or(0);
    say_numbers(to, "values", &[number as u64])?;
    write!(to, " {version:08x}")
}
