// The keys of `meta` lines that set modes, and their values, in fields as they stand in a sheet, escaped.
#![tactic(auto)]

ghost use Rattle.std.specs.Prelude.{◌≡◌, drop};
ghost use Rattle.rules.specs.Basic.{on_some, word_in};
ghost use Rattle.rules.specs.Words.{define_words, duplicate_words};
ghost use Rattle.rules.specs.Text.{text_trimmed, text_outer_trimmed};
ghost use Rattle.rules.specs.Modes.{key_of, is_bracketed, ends_with_bracket};
ghost use Rattle.sheet.specs.Words.{define_of, duplicate_of};
ghost use Rattle.content.specs.Contents.{content_in};
ghost use Rattle.config_keys.specs.Keys.{key_in, HeededKey};

use sheet::{ConfigKey, Define, Duplicate};

// `[mode]` and `[define]`; `[duplicate]`; another key in brackets; any other.
#[derive(Clone, Copy)]
pub enum Key {
    Define,
    Duplicate,
    Unknown,
    Ordinary,
}

fn ends_in_bracket(f: &[u8], at: usize) -> bool
    ensures { result ≡ ends_with_bracket (content_in (drop at f.now)) }
{
    let mut i = at;
    let mut last: u32 = 0;
    while i < f.len() {
        let c = content::char_in(f, i);
        last = c.code;
        i += c.size;
    }
    last == 93
}

fn is_bracketed(f: &[u8]) -> bool
    ensures { result ≡ is_bracketed (content_in f.now) }
{
    if f.len() == 0 {
        return false;
    }
    let c = content::char_in(f, 0);
    if c.code == 91 {
        return ends_in_bracket(f, c.size);
    }
    false
}

// What a key is where flag 1 is set.
pub fn key_of(f: &[u8]) -> Key
    ensures { key_in result ≡ key_of (text_trimmed (content_in f.now)) }
{
    let w = text::text_outer_trimmed(f);
    match sheet::config_key(w) {
        Some(ConfigKey::Define) => Key::Define,
        Some(ConfigKey::Duplicate) => Key::Duplicate,
        None => {
            if is_bracketed(w) {
                return Key::Unknown;
            }
            Key::Ordinary
        }
    }
}

pub fn define_value(f: &[u8]) -> Option<Define>
    ensures { on_some define_of result ≡ word_in (text_outer_trimmed (content_in f.now)) define_words }
{
    let w = text::text_outer_trimmed(f);
    sheet::define_mode(w)
}

pub fn duplicate_value(f: &[u8]) -> Option<Duplicate>
    ensures { on_some duplicate_of result ≡ word_in (text_outer_trimmed (content_in f.now)) duplicate_words }
{
    let w = text::text_outer_trimmed(f);
    sheet::duplicate_mode(w)
}

// Whether a key sets a mode: the flags heed it if 1 is set.
pub fn is_heeded(flags: u32, f: &[u8]) -> bool
    ensures { HeededKey flags f.now result }
{
    flags % 2 == 1 && matches!(key_of(f), Key::Define | Key::Duplicate)
}
