// The numbers of work memory (docs/MEMORY.md), each said once: code and definitions name them.

// How many words a component's row has, a pair of definition and referrer, a finding's row.
pub const ROW: usize = 12;

pub const PAIR: usize = 2;

pub const FINDING: usize = 8;

// How many a table has room for: one more than the limit, and for findings what one line more can draw.
pub const MOST_INGREDIENTS: usize = 513;

pub const MOST_COOKWARE: usize = 257;

pub const MOST_FINDINGS: usize = 1544;

pub const MOST_KINDS: usize = 1025;

// Rows of either kind of component are at most as many.
pub const MOST_ROWS: usize = MOST_INGREDIENTS;

// Where each window begins, one after another.
pub const INGREDIENTS: usize = 0;

pub const COOKWARE: usize = INGREDIENTS + MOST_INGREDIENTS * ROW;

pub const INGREDIENT_PAIRS: usize = COOKWARE + MOST_COOKWARE * ROW;

pub const COOKWARE_PAIRS: usize = INGREDIENT_PAIRS + MOST_INGREDIENTS * PAIR;

pub const FINDINGS: usize = COOKWARE_PAIRS + MOST_COOKWARE * PAIR;

pub const KINDS: usize = FINDINGS + MOST_FINDINGS * FINDING;

// Where the words of the pass end, and the index of metadata begins.
pub const STATE_WORDS: usize = KINDS + MOST_KINDS;

pub const INDEX_WORDS: usize = 21504;

pub const WORDS: usize = STATE_WORDS + INDEX_WORDS;
