// The bytes at the fronts and the ends of names and fields; no table is asked.
#![tactic(auto)]

ghost use Rattle.std.specs.Prelude.{◌≡◌, true, false, ◌||◌, ℕ, ◌+◌, ◌≤◌, ◌<◌, length, drop};
ghost use Rattle.rules.specs.Basic.{within};
ghost use Rattle.rules.specs.Unicode.{same_name};
ghost use Rattle.content.specs.Contents.{kept_in};
ghost use Rattle.content.specs.Parts.{Opens};
ghost use Rattle.fronts.specs.Plain.{SameLetter};
ghost use Rattle.fronts.specs.Seams.{same_at, WordAt, Common, Seam};
ghost use Rattle.fronts.specs.Ends.{LastStart, BlankFrom};

// Whether the characters at a place of each of two names tell that they are not the same from there on: both are plain, and
// not the two cases of one letter, which are 32 apart.
pub fn is_parted(a: &[u8], i: usize, b: &[u8], j: usize) -> bool
    ensures { result ≡ true → same_at a.now i b.now j ≡ false }
{
    if a.len() <= i || b.len() <= j {
        return false;
    }
    let x = a[i];
    let y = b[j];
    x % 32 != y % 32 && content::is_plain(x) && content::is_plain(y)
}

// Whether the last bytes of two names tell that they are not the same: the bytes before them start no escape, and both are
// plain and not the two cases of one letter.
pub fn is_parted_last(a: &[u8], b: &[u8]) -> bool
    ensures { result ≡ true → same_name (kept_in a.now) (kept_in b.now) ≡ false }
{
    let n = a.len();
    let m = b.len();
    if n < 2 || m < 2 {
        return false;
    }
    let x = a[n - 1];
    let y = b[m - 1];
    if x % 32 == y % 32 || a[n - 2] == b'\\' || b[m - 2] == b'\\' {
        return false;
    }
    content::is_plain(x) && content::is_plain(y)
}

// Four bytes as one number.
fn word(s: &[u8], i: usize) -> u32
    requires { i + 4 ≤ length s.now }
    ensures { WordAt s.now i result }
{
    let lower = (s[i] as u32) + (s[i + 1] as u32) * 256;
    let upper = (s[i + 2] as u32) + (s[i + 3] as u32) * 256;
    lower + upper * 65536
}

// From how many places on four bytes follow, in names of so many bytes.
fn words_in(n: usize) -> usize
    ensures { (result ≤ n) × ((i : ℕ) → i < result → i + 4 ≤ n) }
{
    if n < 4 {
        return 0;
    }
    n - 3
}

// A length of the front that two names have in common; four bytes a turn.
fn common_words(a: &[u8], b: &[u8]) -> usize
    ensures { Common a.now b.now result }
{
    let n = words_in(a.len().min(b.len()));
    let mut i = 0;
    while i < n {
        if word(a, i) != word(b, i) {
            return i;
        }
        i += 4;
    }
    i
}

// The whole length of that front.
fn common(a: &[u8], b: &[u8]) -> usize
    ensures { Common a.now b.now result }
{
    let n = a.len().min(b.len());
    for i in common_words(a, b)..n {
        if a[i] != b[i] {
            return i;
        }
    }
    n
}

// Whether no blank stands at a place and no byte that goes on with a character.
fn opens(s: &[u8], i: usize) -> bool
    ensures { result ≡ true → Opens (drop i s.now) }
{
    if s.len() <= i {
        return true;
    }
    let c = s[i];
    c != b' ' && (c < 0x80 || 0xbf < c)
}

// Whether the names can be cut at a place, the bytes before it being the same: no escape goes over it, and both rests open.
fn is_seam(a: &[u8], b: &[u8], i: usize) -> bool
    requires { (0 < i) × Common a.now b.now i }
    ensures { result ≡ true → Seam a.now b.now i }
{
    a[i - 1] != b'\\' && opens(a, i) && opens(b, i)
}

// A length of the common front that leaves two names with the same answer.
fn seam(a: &[u8], b: &[u8]) -> usize
    ensures { Seam a.now b.now result }
{
    let mut i = common(a, b);
    while 0 < i {
        if is_seam(a, b, i) {
            return i;
        }
        i -= 1;
    }
    0
}

fn is_letter(c: u8) -> bool
    ensures { result ≡ (within 65 90 c || within 97 122 c) }
{
    ((65 <= c) & (c <= 90)) | ((97 <= c) & (c <= 122))
}

// Whether two bytes are one letter, in whatever case: 32 apart at most.
fn is_same_letter(x: u8, y: u8) -> bool
    ensures { result ≡ true → SameLetter x y }
{
    if x % 32 != y % 32 {
        return false;
    }
    if x / 64 != y / 64 {
        return false;
    }
    is_letter(x)
}

// How many blanks both names start with.
fn blanks(a: &[u8], b: &[u8]) -> usize
    ensures { Common a.now b.now result }
{
    let n = a.len().min(b.len());
    for i in 0..n {
        if a[i] != b' ' || b[i] != b' ' {
            return i;
        }
    }
    n
}

// The same where neither goes on with one more blank, else 0.
fn blank_seam(a: &[u8], b: &[u8]) -> usize
    ensures { Seam a.now b.now result }
{
    let i = blanks(a, b);
    if 0 < i && is_seam(a, b, i) { i } else { 0 }
}

// The place after the letters of ASCII from a place on that are the same in two names, in whatever case, and the blanks
// between them.
fn letters(a: &[u8], b: &[u8], at: usize) -> usize
    requires { Seam a.now b.now at }
    ensures { Seam a.now b.now result }
{
    let n = a.len().min(b.len());
    let mut i = at;
    while i < n {
        if is_same_letter(a[i], b[i]) {
            i += 1;
        } else {
            let k = blank_seam(&a[i..], &b[i..]);
            if k == 0 {
                return i;
            }
            i += k;
        }
    }
    i
}

// A length of the front that leaves two names with the same answer: what they have in common, and the same letters in
// another case.
pub fn level(a: &[u8], b: &[u8]) -> usize
    ensures { Seam a.now b.now result }
{
    let mut i = seam(a, b);
    loop {
        let k = letters(a, b, i);
        if k <= i {
            return i;
        }
        i = k + seam(&a[k..], &b[k..]);
    }
}

// The last place where no byte stands that goes on with a character; without one 0.
pub fn last_start(s: &[u8]) -> usize
    requires { 0 < length s.now }
    ensures { LastStart s.now result }
{
    let mut i = s.len() - 1;
    while 0 < i {
        if s[i] < 0x80 {
            return i;
        }
        if 0xbf < s[i] {
            return i;
        }
        i -= 1;
    }
    0
}

// The place after the last byte that is no blank.
pub fn blanks_end(s: &[u8]) -> usize
    ensures { BlankFrom s.now result }
{
    let mut i = s.len();
    while 0 < i {
        if s[i - 1] != 32 {
            return i;
        }
        i -= 1;
    }
    i
}
