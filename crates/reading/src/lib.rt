// The event sheet, line by line. All functions take any bytes.
#![tactic(auto)]

ghost use Rattle.std.specs.Prelude.{◌≡◌, length};
ghost use Rattle.rules.specs.Answer.{events, read_sheet, events_or};
ghost use Rattle.reading.specs.Answers.{leads_with, WordRead, ended_as, EventOf, LineOf, LineChecked, SheetChecked};

use events::EventView;
use refusals::{Reason, Refusal};
use sheet::EventWord;

// A sheet in which every line is an event, its spans in the text beside it.
#[derive(Clone, Copy)]
pub struct ReadSheet<'a> {
    pub bytes: &'a [u8],
    pub text: &'a [u8],
    ghost read: { read_sheet text.now bytes.now ≡ events (events_or (read_sheet text.now bytes.now)) },
}

// The event that was read, if the line ends with it.
fn ended(line: &[u8], g: Option<(events::EventView, usize)>) -> Option<EventView>
    ensures { result ≡ ended_as (length line.now) g }
{
    let (v, m) = g?;
    if m <= line.len() {
        return None;
    }
    Some(v)
}

// Whether the line starts with a word and a tab.
fn leads(line: &[u8], word: &[u8]) -> bool
    ensures { result ≡ leads_with word.now line.now }
{
    if line.len() <= word.len() {
        return false;
    }
    for i in 0..word.len() {
        if line[i] != word[i] {
            return false;
        }
    }
    line[word.len()] == b'\t'
}

// A line's first word, if it is one of an event's, and where its next field starts. The frequent words first, without a search
// for the field's end.
fn first_word(line: &[u8]) -> Option<(EventWord, usize)>
    ensures { WordRead line.now result }
{
    if leads(line, b"text") {
        return Some((EventWord::Text, 5));
    }
    if leads(line, b"ingredient") {
        return Some((EventWord::Ingredient, 11));
    }
    if leads(line, b"start") {
        return Some((EventWord::Start, 6));
    }
    if leads(line, b"end") {
        return Some((EventWord::End, 4));
    }
    let f = sheet::field(line, 0);
    let word = sheet::event_word(f)?;
    Some((word, f.len() + 1))
}

// The event of a line's fields. Each word has an exit of its own, so that no view is copied that is larger than its own.
pub fn event_in(line: &[u8]) -> Option<EventView>
    ensures { EventOf line.now result }
{
    let (word, n) = first_word(line)?;
    match word {
        EventWord::Meta => {
            return ended(line, events::read_meta(line, n));
        }
        EventWord::Section => {
            return ended(line, events::read_section(line, n));
        }
        EventWord::Start => {
            return ended(line, events::read_start(line, n));
        }
        EventWord::End => {
            return ended(line, events::read_end(line, n));
        }
        EventWord::Text => {
            return ended(line, events::read_text_line(line, n));
        }
        EventWord::Ingredient => {
            return ended(line, events::read_ingredient(line, n));
        }
        EventWord::Cookware => {
            return ended(line, events::read_cookware(line, n));
        }
        EventWord::Timer => {
            return ended(line, events::read_timer(line, n));
        }
        EventWord::Error => {
            return ended(
                line,
                events::read_finding(line, n, events::Severity::Severe),
            );
        }
        EventWord::Warning => {
            return ended(line, events::read_finding(line, n, events::Severity::Mild));
        }
    }
}

// The event of a line without its LF; an ill-formed line has none.
fn event_at(line: &[u8]) -> Option<EventView>
    ensures { LineOf line.now result }
{
    match utf8::first_fault(line) {
        None => event_in(line),
        Some(_) => None,
    }
}

// The refusal of a line with its number: 8, 9 or 10.
fn check_line(text: &[u8], number: u32, line: &[u8]) -> Result<(), Reason>
    ensures { LineChecked text.now number line.now result }
{
    let Some(v) = event_at(line) else {
        return Err(Reason::IllLine);
    };
    if 4096 < number {
        return Err(Reason::ManyLines);
    }
    if spans::spans_good(text, v) {
        return Ok(());
    }
    Err(Reason::BadSpan)
}

pub fn read_sheet(bytes: &[u8], text: &[u8]) -> Result<(), Refusal>
    ensures { SheetChecked text.now bytes.now result }
{
    let mut at = 0;
    let mut number: u32 = 1;
    while at < bytes.len() {
        let Some(end) = sheet::line_end(bytes, at) else {
            return Err(Refusal {
                reason: Reason::IllLine,
                line: number,
            });
        };
        if let Err(reason) = check_line(text, number, &bytes[at..end]) {
            return Err(Refusal {
                reason,
                line: number,
            });
        }
        at = end + 1;
        number += 1;
    }
    Ok(())
}
