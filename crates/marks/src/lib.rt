// Marks of blocks in lent 64-bit words.
#![tactic(auto)]

ghost use Rattle.std.specs.Prelude.{◌≡◌, ◌+◌, ◌*◌, ◌/◌, ◌<◌, ◌≤◌, ◌^◌, length};
ghost use Rattle.marks.specs.Marks.{mark_words, q12, marked, mark, count, first_not, AllMarked};

// The words that hold n marks.
pub fn mark_words(n: usize) -> usize
    requires { n + 63 < 2 ^ 64 }
    ensures { result ≡ mark_words n }
{
    (n + 63) / 64
}

// Question 12: are there words for n marks?
#[tactic(auto, unfolding(crate::specs::Marks::q12))]
pub fn has_words(words: usize, n: usize) -> bool
    requires { n + 63 < 2 ^ 64 }
    ensures { result ≡ q12 n words }
{
    mark_words(n) <= words
}

// Is block i marked?
#[tactic(auto, unfolding(crate::specs::Marks::marked))]
pub fn is_marked(marks: &[u64], i: usize) -> bool
    requires { i / 64 < length marks.now }
    ensures { result ≡ marked marks.now i }
{
    let word = i / 64;
    let bit = i % 64;
    (marks[word] >> bit) % 2 == 1
}

// Marks block i.
pub fn set_mark(marks: &mut [u64], i: usize)
    requires { i / 64 < length marks.old }
    ensures { marks.new ≡ mark marks.old i }
{
    let word = i / 64;
    let bit = i % 64;
    marks[word] = marks[word] | (1 << bit);
}

// How many of the first n blocks are marked.
pub fn count_marks(marks: &[u64], n: usize) -> usize
    requires { n ≤ 64 * length marks.now }
    ensures { result ≡ count n (marked marks.now) }
{
    let full = n / 64;
    let rest = n % 64;
    let mut sum: usize = 0;
    for word in &marks[..full] {
        sum += word.count_ones() as usize;
    }
    if 0 < rest {
        let mask = (1u64 << rest) - 1;
        sum += (marks[full] & mask).count_ones() as usize;
    }
    sum
}

// How many of the first n words have all their marks, up to the first that has not.
fn full_words(marks: &[u64], n: usize) -> usize
    requires { n ≤ length marks.now }
    ensures { (result ≤ n) × AllMarked marks.now (result * 64) }
{
    let found = marks[..n].iter().position(|word| word.count_ones() != 64);
    found.unwrap_or(n)
}

// A row before which all blocks are marked, found by whole words.
fn row_to_start(marks: &[u64], across: usize, down: usize) -> usize
    requires { (0 < across) × (across ≤ 9999) × (down ≤ 9999) × (down * across ≤ 64 * length marks.now) }
    ensures { (result ≤ down) × AllMarked marks.now (result * across) }
{
    let words = full_words(marks, down * across / 64);
    words * 64 / across
}

// The first unmarked block of a grid `across` blocks wide and `down` blocks high, by rows, then columns: its row and
// column.
pub fn first_unmarked(marks: &[u64], across: usize, down: usize) -> Option<(usize, usize)>
    requires { (0 < across) × (across ≤ 9999) × (down ≤ 9999) × (down * across ≤ 64 * length marks.now) }
    ensures { result ≡ first_not (marked marks.now) across down }
{
    let start = row_to_start(marks, across, down);
    // by number: the row and the column are the answer
    'first: {
        for row in start..down {
            for column in 0..across {
                if !is_marked(marks, row * across + column) {
                    break 'first Some((row, column));
                }
            }
        }
        None
    }
}
