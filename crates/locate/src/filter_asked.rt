// The filter that the arguments ask with: written from clauses, or given as it is.
use crate::asked::{AFTER_CLIENT, WORD_SIZE, is_asked, octets_asked};
use arguments::clause::{SOURCE_SIZE, read_clause};
use arguments::fault::{Fault, Shown};
use arguments::word::{has_word, take_word};
use filter::request::{Request, no_clauses};
use filter_write::write::write_filter;
use octets::part::part;
use std::env::Env;

// A word that should be a clause may begin with an option: it is told where that stands.
fn refuse_option(word: &[u8]) -> Result<(), Fault> {
    if word.starts_with(b"--filter") {
        return Err(Fault::Slip("--filter HEX stands alone after CLIENT\n"));
    }
    if word.starts_with(b"--mailslot") {
        return Err(Fault::Slip("--mailslot stands right after CLIENT\n"));
    }
    Ok(())
}

// The clauses with that of one more argument.
#[inline(never)]
fn with_argument<E: Env>(
    env: &E,
    number: usize,
    source: &mut [u8],
    request: Request,
) -> Result<Request, Fault> {
    let mut room = [0; WORD_SIZE];
    let clause = take_word(env, number, "a clause", &mut room)?;
    refuse_option(clause)?;
    match read_clause(clause, source, request) {
        Ok(longer) => Ok(longer),
        Err(error) => Err(Fault::Clause(error, Shown::of(clause))),
    }
}

// The clauses of the arguments from the first clause on.
fn request_asked<E: Env>(env: &E, source: &mut [u8]) -> Result<Request, Fault> {
    let mut request = no_clauses();
    for i in AFTER_CLIENT..usize::MAX {
        if !has_word(env, i) {
            break;
        }
        request = with_argument(env, i, source, request)?;
    }
    Ok(request)
}

// Clauses that no filter has room for ask with all of the room, which is too long.
fn written_filter<E: Env>(env: &E, room: &mut [u8]) -> Result<usize, Fault> {
    if !has_word(env, AFTER_CLIENT) {
        return Err(Fault::Slip("no clause is given\n"));
    }
    let mut source = [0; SOURCE_SIZE];
    let request = request_asked(env, &mut source)?;
    Ok(write_filter(&source, request, room).unwrap_or(room.len()))
}

// The octets of the argument HEX after --filter.
#[inline(never)]
fn given_filter<E: Env>(env: &E, room: &mut [u8]) -> Result<usize, Fault> {
    if has_word(env, AFTER_CLIENT + 2) {
        return Err(Fault::Slip("no argument is taken after --filter HEX\n"));
    }
    let mut word = [0; WORD_SIZE];
    let digits = take_word(env, AFTER_CLIENT + 1, "HEX", &mut word)?;
    octets_asked(digits, "--filter takes two hex digits for each octet", room)
}

// The filter, put at the front of lent room.
pub fn filter_asked<'a, E: Env>(env: &E, room: &'a mut [u8]) -> Result<&'a [u8], Fault> {
    let len = if is_asked(env, b"--filter") {
        given_filter(env, room)?
    } else {
        written_filter(env, room)?
    };
    Ok(part(room, 0, len))
}
