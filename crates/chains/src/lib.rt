// Hashes of names, by which the rows of an index are chained. A name has one hash, however its characters are spelled.
#![tactic(auto)]

ghost use Rattle.std.specs.Prelude.{◌≡◌, ◌+◌, ◌*◌, ◌%◌, ◌<◌};
ghost use Rattle.rules.specs.Utf8.{chars};
ghost use Rattle.content.specs.Contents.{content_in, kept_in};
ghost use Rattle.chains.specs.Hashes.{Hashed};

fn mixed(h: usize, c: u32) -> usize
    requires { h < 1024 }
    ensures { (result ≡ (h * 31 + c) % 1024) × (result < 1024) }
{
    (h * 31 + c as usize) % 1024
}

// The hash of the content of a field, its blanks collapsed.
#[tactic(auto, using(content::proofs::Compare::sizes))]
pub fn hash_kept(f: &[u8]) -> usize
    ensures { Hashed (kept_in f.now) result }
{
    let mut h = 0;
    let mut i = 0;
    while i < f.len() {
        let a = f[i];
        if content::is_plain(a) {
            h = mixed(h, a as u32);
            i += 1;
        } else {
            let c = content::kept_char(f, i);
            h = mixed(h, c.code);
            i += c.size;
        }
    }
    h
}

// The same with all its blanks.
#[tactic(auto, using(content::proofs::Compare::sizes))]
pub fn hash_content(f: &[u8]) -> usize
    ensures { Hashed (content_in f.now) result }
{
    let mut h = 0;
    let mut i = 0;
    while i < f.len() {
        let a = f[i];
        if content::is_plain(a) {
            h = mixed(h, a as u32);
            i += 1;
        } else if 0x80 <= a {
            let c = utf8::char_near(f, i);
            h = mixed(h, c.code);
            i += c.size;
        } else {
            let c = content::char_in(f, i);
            h = mixed(h, c.code);
            i += c.size;
        }
    }
    h
}

// The hash of a text in UTF-8.
#[tactic(auto, using(content::proofs::Compare::sizes))]
pub fn hash_chars(s: &[u8]) -> usize
    ensures { Hashed (chars s.now) result }
{
    let mut h = 0;
    let mut i = 0;
    while i < s.len() {
        let a = s[i];
        if a < 0x80 {
            h = mixed(h, a as u32);
            i += 1;
        } else {
            let c = utf8::char_at(s, i);
            h = mixed(h, c.code);
            i += c.size;
        }
    }
    h
}
