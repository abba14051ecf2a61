// The answer to one request line.
use crate::filter_lines::{answer_filter, answer_values};
use crate::ping_lines::answer_ping_line;
use crate::write::answer_write;
use answers::number_in;
use line_words::answer::{say_numbers, say_unknown};
use line_words::word::only_octets;
use mailslot_lines::read::answer_mailslot;
use mailslot_lines::write::answer_mailwrite;
use reply_lines::read::answer_read;
use reply_lines::walk::answer_walk;
use std::alloc::Global;
use std::io;
use std::io::Write;
use table_check::check::check_of;
use table_whole::judge::judge;

// The longest line that is read, without its LF.
pub const LONGEST: usize = 140100;

fn answer_check<W: Write>(to: &mut W, alloc: Global, fields: &[&str]) -> io::Result<()> {
    match only_octets(alloc, fields)? {
        Some(block) if block.len() == 508 => {
            let check = check_of(&block);
            say_numbers(to, "check", &[check.a as u64, check.b as u64])
        }
        _ => say_unknown(to),
    }
}

// Judges the image of a `table` line, which stands for the next lines.
fn answer_table<W: Write>(to: &mut W, fields: &[&str], image: &mut Vec<u8>) -> io::Result<()> {
    let Some(octets) = only_octets(*image.allocator(), fields)? else {
        return say_unknown(to);
    };
    *image = octets;
    say_numbers(to, "table", &[number_in(&judge(image)) as u64])
}

fn answer_words<W: Write>(to: &mut W, words: &[&str], image: &mut Vec<u8>) -> io::Result<()> {
    let [kind, fields @ ..] = words else {
        return say_unknown(to);
    };
    let alloc = *image.allocator();
    match *kind {
        "check" => answer_check(to, alloc, fields),
        "filter" => answer_filter(to, alloc, fields),
        "values" => answer_values(to, alloc, fields),
        "walk" => answer_walk(to, alloc, fields),
        "ping" | "mailping" => answer_ping_line(to, alloc, kind, fields, image),
        "read" => answer_read(to, alloc, fields),
        "write" => answer_write(to, alloc, fields),
        "table" => answer_table(to, fields, image),
        "mailslot" => answer_mailslot(to, alloc, fields),
        "mailwrite" => answer_mailwrite(to, alloc, fields),
        _ => say_unknown(to),
    }
}

// No kind of line has an octet that is not ASCII, nor more words than this: what is behind them is left in one piece more.
const WORDS_MOST: usize = 10;

fn answer_text<W: Write>(to: &mut W, line: &[u8], image: &mut Vec<u8>) -> io::Result<()> {
    let Ok(text) = str::from_utf8(line) else {
        return say_unknown(to);
    };
    let words: Vec<&str> = text
        .splitn(WORDS_MOST + 1, ' ')
        .collect(*image.allocator())?;
    answer_words(to, &words, image)
}

// Answers a line, which comes without its LF, over the image that stands. An empty line and one that begins with # have no answer.
pub fn answer_line<W: Write>(to: &mut W, line: &[u8], image: &mut Vec<u8>) -> io::Result<()> {
    if LONGEST < line.len() {
        say_unknown(to)?;
    } else if line.is_empty() | line.starts_with(b"#") {
        return Ok(());
    } else {
        answer_text(to, line, image)?;
    }
    writeln!(to)
}
