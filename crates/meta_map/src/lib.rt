// The map of metadata: one row for each key, at its first arrival's place and with its last value. The rows stand in a window
// of work memory, with the heads of their chains behind them (docs/MEMORY.md).
#![tactic(auto)]

ghost use Rattle.std.specs.Prelude.{◌≡◌, ◌≤◌, ◌<◌, length, true};
ghost use Rattle.rules.specs.Basic.{lf, is_some};
ghost use Rattle.rules.specs.Read.{parse_line};
ghost use Rattle.rules.specs.Sheet.{Without};
ghost use Rattle.content.specs.Contents.{kept_in};
ghost use Rattle.content.specs.Parts.{Field};
ghost use Rattle.parts.specs.Views.{TextWithin};
ghost use Rattle.known_events.specs.Fields.{TextField};
ghost use Rattle.known_events.specs.Known.{KnownEvent};
ghost use Rattle.chains.specs.Hashes.{Hashed};
ghost use Rattle.meta_map.specs.Index.{cell, head, RowIn, Indexed, RowFound, ValueSet, KeyPushed, Inserted, Cleared, MetaPut, MetasPut, part_at};
ghost use Rattle.meta_map.specs.Maps.{TrimmedPart, MetaIndexed, EventIndexed, LineIndexed, SheetIndexed, index_of, WordsIndexed};
ghost use Rattle.model.specs.declared.layout.TheConstants.{INDEX_WORDS, WORDS};

use events::{Between, EventView};
use model::layout;
use parts::{Part, TextView};
use reading::ReadSheet;
use text::Dropped;

// A word of a row, and the head of a chain.
fn cell_at(m: &[u32], i: usize, j: usize) -> usize
    requires { (i < 4096) × (j < 5) × (length m.now ≡ INDEX_WORDS) }
    ensures { result ≡ cell m.now i j }
{
    m[i * 5 + j] as usize
}

fn head_at(m: &[u32], b: usize) -> usize
    requires { (b < 1024) × (length m.now ≡ INDEX_WORDS) }
    ensures { result ≡ head m.now b }
{
    m[20480 + b] as usize
}

// Another value for the key of a row.
fn set_value(m: &mut [u32], i: usize, va: u32, ve: u32)
    requires { (i < 4096) × (length m.old ≡ INDEX_WORDS) }
    ensures { ValueSet m.old i va ve m.new }
{
    let at = i * 5 + 2;
    model::copy_words(m, at, &[va, ve]);
}

// One key more, first in the chain of its hash.
fn push_key(m: &mut [u32], n: usize, b: usize, ka: u32, ke: u32, va: u32, ve: u32)
    requires { (n < 4096) × (b < 1024) × (length m.old ≡ INDEX_WORDS) }
    ensures { KeyPushed m.old n b ka ke va ve m.new }
{
    let first = 20480 + b;
    let next = m[first];
    let at = n * 5;
    model::copy_words(m, at, &[ka, ke, va, ve, next]);
    let more = (n + 1) as u32;
    m[first] = more;
}

// No chain has a row.
fn clear_heads(m: &mut [u32])
    requires { length m.old ≡ INDEX_WORDS }
    ensures { Cleared m.old m.new }
{
    m[20480..].fill(0);
}

// ---- the lines of a sheet

// The part of a field without White_Space at its ends.
fn trim_part(line: &[u8], p: Part) -> Part
    requires { (p.from ≤ p.to) × (p.to ≤ length line.now) }
    ensures { TrimmedPart line.now p result }
{
    let from = p.from;
    let to = p.to;
    let f = &line[from..to];
    let a = text::start_of(f, Dropped::White);
    let e = text::end_of(&f[a..], Dropped::White);
    let start = from + a;
    let end = start + e;
    Part {
        from: start,
        to: end,
    }
}

// The rows that the index has so far, and the sheet whose keys they are.
#[derive(Drop)]
struct Map<'a> {
    sheet: &'a [u8],
    words: &'a mut [u32],
    rows: usize,
    ghost indexed: { ∥ Indexed sheet.now words.now rows ∥₁ },
    ghost short: { length sheet.now ≤ 65536 },
}

impl<'a> Map<'a> {
    // The row of a key with the hash b: the chain of b from its head on.
    fn find(&self, key: &[u8], b: usize) -> Option<usize>
        requires { Hashed (kept_in key.now) b }
        ensures { RowFound self.now.sheet.now self.now.words.now self.now.rows key.now result }
    {
        let mut p = head_at(self.words, b);
        while p != 0 {
            let i = p - 1;
            let from = cell_at(self.words, i, 0);
            let to = cell_at(self.words, i, 1);
            if content::same_parts(key, &self.sheet[from..to]) {
                return Some(i);
            }
            p = cell_at(self.words, i, 4);
        }
        None
    }

    // A key and its value, both trimmed, by their places in the sheet.
    fn insert(&mut self, ka: usize, ke: usize, va: usize, ve: usize)
        requires { (self.old.rows < 4096) × RowIn self.old.sheet.now ka ke va ve }
        ensures inserted { Inserted self.old.sheet.now self.old.words.now self.old.rows ka ke va ve self.new.words.now self.new.rows }
        ensures lent { self.new.words.ghost_name ≡ self.old.words.ghost_name }
        ensures sheet { self.new.sheet.now ≡ self.old.sheet.now }
    {
        let k = &self.sheet[ka..ke];
        let b = chains::hash_kept(k);
        match self.find(k, b) {
            Some(i) => set_value(self.words, i, va as u32, ve as u32),
            None => {
                let n = self.rows;
                push_key(self.words, n, b, ka as u32, ke as u32, va as u32, ve as u32);
                self.rows = n + 1;
            }
        }
    }

    // A `meta` line of the sheet, from `from` to `end`.
    fn index_meta(&mut self, flags: u32, from: usize, end: usize, key: TextView, value: TextView)
        requires { (self.old.rows < 4096) × (from ≤ end) × (end ≤ length self.old.sheet.now) × TextWithin (part_at self.old.sheet.now from end) key × TextWithin (part_at self.old.sheet.now from end) value × TextField (part_at self.old.sheet.now from end) key × TextField (part_at self.old.sheet.now from end) value }
        ensures indexed { MetaIndexed flags self.old.sheet.now (part_at self.old.sheet.now from end) self.old.words.now self.old.rows key value self.new.words.now self.new.rows }
        ensures lent { self.new.words.ghost_name ≡ self.old.words.ghost_name }
        ensures sheet { self.new.sheet.now ≡ self.old.sheet.now }
    {
        let line = &self.sheet[from..end];
        // A line that sets a mode stays out of the map.
        if config_keys::is_heeded(flags, &line[key.content.from..key.content.to]) {
            return;
        }
        let a = trim_part(line, key.content);
        let b = trim_part(line, value.content);
        let ka = from + a.from;
        let ke = from + a.to;
        let va = from + b.from;
        let ve = from + b.to;
        self.insert(ka, ke, va, ve);
    }

    // A line of the sheet: only `meta` lines count.
    fn index_event(&mut self, flags: u32, from: usize, end: usize, v: EventView)
        requires { (self.old.rows < 4096) × (from ≤ end) × (end ≤ length self.old.sheet.now) × KnownEvent (part_at self.old.sheet.now from end) v }
        ensures indexed { EventIndexed flags self.old.sheet.now (part_at self.old.sheet.now from end) self.old.words.now self.old.rows v self.new.words.now self.new.rows }
        ensures lent { self.new.words.ghost_name ≡ self.old.words.ghost_name }
        ensures sheet { self.new.sheet.now ≡ self.old.sheet.now }
    {
        match v {
            EventView::Between(b) => match b {
                Between::Meta(key, value) => self.index_meta(flags, from, end, key, value),
                Between::Section(name) => {}
                Between::Start(kind) => {}
            },
            EventView::Inside(i) => {}
            EventView::Finding(s, k) => {}
        }
    }

    // A line of the sheet before it is read: `meta` lines alone begin with an m.
    fn index_line(&mut self, flags: u32, from: usize, end: usize)
        requires { (self.old.rows < 4096) × (from ≤ end) × (end < length self.old.sheet.now) × (is_some (parse_line (part_at self.old.sheet.now from end)) ≡ true) × Without lf (part_at self.old.sheet.now from end) }
        ensures indexed { LineIndexed flags self.old.sheet.now (part_at self.old.sheet.now from end) self.old.words.now self.old.rows self.new.words.now self.new.rows }
        ensures lent { self.new.words.ghost_name ≡ self.old.words.ghost_name }
        ensures sheet { self.new.sheet.now ≡ self.old.sheet.now }
    {
        if self.sheet[from] != b'm' {
            return;
        }
        let v = known_events::event_of(&self.sheet[from..end]);
        self.index_event(flags, from, end, v);
    }
}

// All lines of a sheet that was read, into its map without rows.
fn index_lines(flags: u32, sheet: &ReadSheet, map: &mut Map)
    requires { (map.old.sheet.now ≡ sheet.now.bytes.now) × (map.old.rows ≡ 0) }
    ensures indexed { SheetIndexed flags sheet.now.text.now sheet.now.bytes.now map.new.words.now map.new.rows }
    ensures lent { map.new.words.ghost_name ≡ map.old.words.ghost_name }
{
    let mut from = 0;
    while from < sheet.bytes.len() {
        let Some(end) = sheet::line_end(sheet.bytes, from) else {
            return;
        };
        map.index_line(flags, from, end);
        from = end + 1;
    }
}

// The index of a sheet that was read: how many keys it has.
fn fill_index(flags: u32, sheet: &ReadSheet, m: &mut [u32]) -> usize
    requires { (length sheet.now.bytes.now ≤ 65536) × (length m.old ≡ INDEX_WORDS) }
    ensures { SheetIndexed flags sheet.now.text.now sheet.now.bytes.now m.new result }
{
    clear_heads(m);
    let mut map = Map {
        sheet: sheet.bytes,
        words: m,
        rows: 0,
    };
    index_lines(flags, sheet, &mut map);
    map.rows
}

// The same in the window of work memory.
pub fn index_metadata(flags: u32, sheet: &ReadSheet, words: &mut [u32]) -> usize
    requires { (length sheet.now.bytes.now ≤ 65536) × (WORDS ≤ length words.old) }
    ensures { WordsIndexed flags sheet.now.text.now sheet.now.bytes.now words.old words.new result }
{
    fill_index(flags, sheet, &mut words[layout::STATE_WORDS..layout::WORDS])
}

// ---- the page's lines

// The line of a key and its value, which are fields as they stand in the sheet.
fn meta_line(rest: &mut [u8], key: &[u8], value: &[u8]) -> usize
    requires { Field key.now × Field value.now }
    ensures { MetaPut key.now value.now rest.old 0 rest.new result }
{
    let a = output::put_bytes(rest, 0, b"meta");
    let b = output::put_byte(rest, a, b'\t');
    let c = text::put_kept(rest, b, key);
    let d = output::put_byte(rest, c, b'\t');
    let e = output::put_bytes(rest, d, value);
    output::put_byte(rest, e, b'\n')
}

fn put_meta(out: &mut [u8], at: usize, key: &[u8], value: &[u8]) -> usize
    requires { Field key.now × Field value.now }
    ensures { MetaPut key.now value.now out.old at out.new result }
{
    output::put_line(out, at, |rest: &mut [u8]| meta_line(rest, key, value))
}

// The lines of the first n rows of an index.
fn row_lines(sheet: &[u8], m: &[u32], n: usize, out: &mut [u8], at: usize) -> usize
    requires { Indexed sheet.now m.now n }
    ensures { MetasPut sheet.now m.now n out.old at out.new result }
{
    let mut c = finding_lines::begin(out, at);
    for i in 0..n {
        let ka = cell_at(m, i, 0);
        let ke = cell_at(m, i, 1);
        let va = cell_at(m, i, 2);
        let ve = cell_at(m, i, 3);
        c = put_meta(out, c, &sheet[ka..ke], &sheet[va..ve]);
    }
    c
}

// The `meta` lines of the page.
pub fn meta_lines(sheet: &[u8], words: &[u32], n: usize, out: &mut [u8], at: usize) -> usize
    requires { (WORDS ≤ length words.now) × Indexed sheet.now (index_of words.now) n }
    ensures { MetasPut sheet.now (index_of words.now) n out.old at out.new result }
{
    row_lines(
        sheet,
        &words[layout::STATE_WORDS..layout::WORDS],
        n,
        out,
        at,
    )
}
