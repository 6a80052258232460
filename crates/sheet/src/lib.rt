// Readers of the event sheet: lines, fields, words, numbers, escapes. All of them take any bytes.
#![tactic(auto)]

ghost use Rattle.std.specs.Prelude.{◌≡◌, ◌+◌, ◌≤◌, eqb, length};
ghost use Rattle.rules.specs.Basic.{eq_list, is_some, on_some, word_in};
ghost use Rattle.rules.specs.Words.{event_words, block_kinds, value_kinds, config_keys, define_words, duplicate_words};
ghost use Rattle.rules.specs.Utf8.{chars};
ghost use Rattle.rules.specs.Sheet.{escaped, unescape, number_up_to, number_of, signed_of};
ghost use Rattle.sheet.specs.Lines.{LineAt, field_at};
ghost use Rattle.sheet.specs.Runs.{is_stop, lacks, Lacking};
ghost use Rattle.sheet.specs.Words.{event_word_in, block_in, kind_in, key_in, define_of, duplicate_of};
ghost use Rattle.sheet.specs.Numbers.{signed_in};
ghost use Rattle.sheet.specs.Escapes.{Unescapes};

// Whether the eight bytes at a place lack the byte b. All of them are looked at, which the compiler makes one comparison.
#[tactic(auto, using(crate::proofs::Runs::lack_cases))]
fn eight_lack(s: &[u8], at: usize, b: u8) -> bool
    requires { at + 8 ≤ length s.now }
    ensures { result ≡ lacks (eqb b) s.now at 8 }
{
    let mut all = true;
    let mut j = 0;
    while j < 8 {
        if s[at + j] == b {
            all = false;
        }
        j += 1;
    }
    all
}

// Whether the sixteen bytes at a place lack the byte b, looked at in the same way.
#[tactic(auto, using(crate::proofs::Runs::lack_cases))]
fn sixteen_lack(s: &[u8], at: usize, b: u8) -> bool
    requires { at + 16 ≤ length s.now }
    ensures { result ≡ lacks (eqb b) s.now at 16 }
{
    let mut all = true;
    let mut j = 0;
    while j < 16 {
        if s[at + j] == b {
            all = false;
        }
        j += 1;
    }
    all
}

// Whether a byte ends a content, starts an escape or is ill-formed there.
fn is_stop(c: u8) -> bool
    ensures { result ≡ is_stop c }
{
    (c == b'\t') | (c == b'\\') | (c == b'\r')
}

// Whether none of the eight bytes at a place is such a byte.
#[tactic(auto, using(crate::proofs::Runs::stop_cases))]
pub fn eight_plain(s: &[u8], at: usize) -> bool
    requires { at + 8 ≤ length s.now }
    ensures { result ≡ lacks is_stop s.now at 8 }
{
    let mut all = true;
    let mut k = 0;
    while k < 8 {
        if is_stop(s[at + k]) {
            all = false;
        }
        k += 1;
    }
    all
}

// Whether none of the sixteen bytes is, looked at in the same way.
#[tactic(auto, using(crate::proofs::Runs::stop_cases))]
pub fn sixteen_plain(s: &[u8], at: usize) -> bool
    requires { at + 16 ≤ length s.now }
    ensures { result ≡ lacks is_stop s.now at 16 }
{
    let mut all = true;
    let mut k = 0;
    while k < 16 {
        if is_stop(s[at + k]) {
            all = false;
        }
        k += 1;
    }
    all
}

// A place that no byte b stands before, from `at` on, by sixteen bytes a turn.
#[tactic(auto, using(crate::proofs::Runs::runs))]
fn past_sixteens(s: &[u8], at: usize, b: u8) -> usize
    requires { at ≤ length s.now }
    ensures { Lacking (eqb b) s.now at result }
{
    let mut i = at;
    while 16 <= s.len() - i {
        if !sixteen_lack(s, i, b) {
            return i;
        }
        i += 16;
    }
    i
}

// A place that no byte b stands before, from `at` on, by sixteen bytes a turn and then by eight.
#[tactic(auto, using(crate::proofs::Runs::runs))]
pub fn past_lacking(s: &[u8], at: usize, b: u8) -> usize
    ensures { Lacking (eqb b) s.now at result }
{
    if s.len() < at {
        return at;
    }
    let mut i = past_sixteens(s, at, b);
    while 8 <= s.len() - i {
        if !eight_lack(s, i, b) {
            return i;
        }
        i += 8;
    }
    i
}

// The first LF at or after `at`.
pub fn line_end(s: &[u8], at: usize) -> Option<usize>
    ensures { LineAt s.now at result }
{
    let start = past_lacking(s, at, b'\n');
    for i in start..s.len() {
        if s[i] == b'\n' {
            return Some(i);
        }
    }
    None
}

// The field that starts at `at`, still escaped: up to the next tab or the line's end.
pub fn field<'a>(line: &'a [u8], at: usize) -> &'a [u8]
    ensures { result.now ≡ field_at line.now at }
{
    if line.len() < at {
        return &line[..0];
    }
    for i in at..line.len() {
        if line[i] == b'\t' {
            return &line[at..i];
        }
    }
    &line[at..]
}

pub fn same_bytes(a: &[u8], b: &[u8]) -> bool
    ensures { result ≡ eq_list a.now b.now }
{
    if a.len() != b.len() {
        return false;
    }
    let mut i = 0;
    while i < a.len() {
        if a[i] != b[i] {
            return false;
        }
        i += 1;
    }
    true
}

#[derive(Clone, Copy, PartialEq)]
pub enum EventWord {
    Meta,
    Section,
    Start,
    End,
    Text,
    Ingredient,
    Cookware,
    Timer,
    Error,
    Warning,
}

// The first field of a line: its kind of event.
#[tactic(auto, unfolding(rules::specs::Basic::on_some, rules::specs::Basic::word_in, crate::specs::Words::event_word_in))]
pub fn event_word(f: &[u8]) -> Option<EventWord>
    ensures { on_some event_word_in result ≡ word_in f.now event_words }
{
    if same_bytes(f, b"meta") {
        return Some(EventWord::Meta);
    }
    if same_bytes(f, b"section") {
        return Some(EventWord::Section);
    }
    if same_bytes(f, b"start") {
        return Some(EventWord::Start);
    }
    if same_bytes(f, b"end") {
        return Some(EventWord::End);
    }
    if same_bytes(f, b"text") {
        return Some(EventWord::Text);
    }
    if same_bytes(f, b"ingredient") {
        return Some(EventWord::Ingredient);
    }
    if same_bytes(f, b"cookware") {
        return Some(EventWord::Cookware);
    }
    if same_bytes(f, b"timer") {
        return Some(EventWord::Timer);
    }
    if same_bytes(f, b"error") {
        return Some(EventWord::Error);
    }
    if same_bytes(f, b"warning") {
        return Some(EventWord::Warning);
    }
    None
}

#[derive(Clone, Copy, PartialEq)]
pub enum BlockKind {
    Step,
    Text,
}

// The kind of a block that starts or ends.
#[tactic(auto, unfolding(rules::specs::Basic::on_some, rules::specs::Basic::word_in, crate::specs::Words::block_in))]
pub fn block_kind(f: &[u8]) -> Option<BlockKind>
    ensures { on_some block_in result ≡ word_in f.now block_kinds }
{
    if same_bytes(f, b"step") {
        return Some(BlockKind::Step);
    }
    if same_bytes(f, b"text") {
        return Some(BlockKind::Text);
    }
    None
}

#[derive(Clone, Copy, PartialEq)]
pub enum ValueKind {
    Number,
    Range,
    Textual,
}

// The kind of a value.
#[tactic(auto, unfolding(rules::specs::Basic::on_some, rules::specs::Basic::word_in, crate::specs::Words::kind_in))]
pub fn value_kind(f: &[u8]) -> Option<ValueKind>
    ensures { on_some kind_in result ≡ word_in f.now value_kinds }
{
    if same_bytes(f, b"n") {
        return Some(ValueKind::Number);
    }
    if same_bytes(f, b"r") {
        return Some(ValueKind::Range);
    }
    if same_bytes(f, b"t") {
        return Some(ValueKind::Textual);
    }
    None
}

#[derive(Clone, Copy, PartialEq)]
pub enum ConfigKey {
    Define,
    Duplicate,
}

// A config key, with its brackets.
#[tactic(auto, using(rules::proofs::Ascii::word_chars), unfolding(rules::specs::Basic::on_some, rules::specs::Basic::word_in, rules::proofs::Ascii::all_ascii, crate::specs::Words::key_in))]
pub fn config_key(f: &[u8]) -> Option<ConfigKey>
    ensures { on_some key_in result ≡ word_in (chars f.now) config_keys }
{
    if same_bytes(f, b"[mode]") {
        return Some(ConfigKey::Define);
    }
    if same_bytes(f, b"[define]") {
        return Some(ConfigKey::Define);
    }
    if same_bytes(f, b"[duplicate]") {
        return Some(ConfigKey::Duplicate);
    }
    None
}

#[derive(Clone, Copy, PartialEq)]
pub enum Define {
    All,
    Components,
    Steps,
    Text,
}

// The value of a `[mode]` or `[define]` line.
#[tactic(auto, using(rules::proofs::Ascii::word_chars), unfolding(rules::specs::Basic::on_some, rules::specs::Basic::word_in, rules::proofs::Ascii::all_ascii, crate::specs::Words::define_of))]
pub fn define_mode(f: &[u8]) -> Option<Define>
    ensures { on_some define_of result ≡ word_in (chars f.now) define_words }
{
    if same_bytes(f, b"all") {
        return Some(Define::All);
    }
    if same_bytes(f, b"default") {
        return Some(Define::All);
    }
    if same_bytes(f, b"components") {
        return Some(Define::Components);
    }
    if same_bytes(f, b"ingredients") {
        return Some(Define::Components);
    }
    if same_bytes(f, b"steps") {
        return Some(Define::Steps);
    }
    if same_bytes(f, b"text") {
        return Some(Define::Text);
    }
    None
}

#[derive(Clone, Copy, PartialEq)]
pub enum Duplicate {
    New,
    Reference,
}

// The value of a `[duplicate]` line.
#[tactic(auto, using(rules::proofs::Ascii::word_chars), unfolding(rules::specs::Basic::on_some, rules::specs::Basic::word_in, rules::proofs::Ascii::all_ascii, crate::specs::Words::duplicate_of))]
pub fn duplicate_mode(f: &[u8]) -> Option<Duplicate>
    ensures { on_some duplicate_of result ≡ word_in (chars f.now) duplicate_words }
{
    if same_bytes(f, b"new") {
        return Some(Duplicate::New);
    }
    if same_bytes(f, b"default") {
        return Some(Duplicate::New);
    }
    if same_bytes(f, b"reference") {
        return Some(Duplicate::Reference);
    }
    if same_bytes(f, b"ref") {
        return Some(Duplicate::Reference);
    }
    None
}

// A number in decimal, without leading zeros, of at most `most`.
fn read_up_to(f: &[u8], most: u16) -> Option<u32>
    ensures { result ≡ number_up_to most f.now }
{
    if f.is_empty() {
        return None;
    }
    if f[0] == b'0' {
        return if f.len() == 1 { Some(0) } else { None };
    }
    let mut n = 0;
    for &c in f {
        if !c.is_ascii_digit() {
            return None;
        }
        n = n * 10 + ((c - b'0') as u32);
        if (most as u32) < n {
            return None;
        }
    }
    Some(n)
}

// A number of the sheet.
pub fn read_number(f: &[u8]) -> Option<u32>
    ensures { result ≡ number_of f.now }
{
    read_up_to(f, 65535)
}

// A number with a sign, from -32768 to 32767: its size, and the sign as the variant.
#[derive(Clone, Copy)]
pub enum Signed {
    Plus(u32),
    Minus(u32),
}

pub fn read_signed(f: &[u8]) -> Option<Signed>
    ensures { on_some signed_in result ≡ signed_of f.now }
{
    if f.len() == 0 {
        return None;
    }
    if f[0] == b'-' {
        let n = read_up_to(&f[1..], 32768)?;
        if n == 0 {
            return None;
        }
        return Some(Signed::Minus(n));
    }
    let m = read_up_to(f, 32767)?;
    Some(Signed::Plus(m))
}

// What a letter after a backslash stands for.
pub fn letter(c: u8) -> Option<u8>
    ensures { result ≡ escaped c }
{
    match c {
        b'\\' => Some(b'\\'),
        b't' => Some(b'\t'),
        b'n' => Some(b'\n'),
        b'r' => Some(b'\r'),
        _ => None,
    }
}

// How many bytes a field has without its escapes.
pub fn unescaped_len(f: &[u8]) -> Option<usize>
    ensures { result ≡ on_some length (unescape f.now) }
{
    let mut i = 0;
    let mut n = 0;
    while i < f.len() {
        let c = f[i];
        if c == b'\r' {
            return None;
        }
        if c == b'\\' {
            let j = i + 1;
            if f.len() <= j {
                return None;
            }
            letter(f[j])?;
            i = j + 1;
            n += 1;
        } else {
            i += 1;
            n += 1;
        }
    }
    Some(n)
}

pub fn is_well_escaped(f: &[u8]) -> bool
    ensures { result ≡ is_some (unescape f.now) }
{
    unescaped_len(f).is_some()
}

// Why a field is not written without its escapes.
#[derive(Clone, Copy)]
pub enum NotUnescaped {
    // An escape of the field is ill-formed.
    Ill,
    // The text is longer than the buffer.
    NoRoom,
}

// Writes a field without its escapes at the front of `out` and answers their number, and writes nothing where that cannot be done.
pub fn unescape_into(out: &mut [u8], f: &[u8]) -> Result<usize, NotUnescaped>
    ensures { Unescapes f.now out.old out.new result }
{
    let Some(k) = unescaped_len(f) else {
        return Err(NotUnescaped::Ill);
    };
    if out.len() < k {
        return Err(NotUnescaped::NoRoom);
    }
    let mut n = 0;
    let mut i = 0;
    while i < f.len() {
        let c = f[i];
        if c == b'\\' {
            let j = i + 1;
            let d = f[j];
            let Some(e) = letter(d) else {
                return Err(NotUnescaped::Ill);
            };
            n = output::put_byte(out, n, e);
            i = j + 1;
        } else {
            n = output::put_byte(out, n, c);
            i += 1;
        }
    }
    Ok(k)
}
