// The lower level: words and children, all that survives a power cut. Nothing above this crate reads or stores a word or a child.
// A function takes a slice of any length, any number and any entry. What is wrong it answers, and then it stores nothing.
#![tactic(auto)]

ghost use Rattle.std.specs.Prelude.{◌≡◌, [], ◌∷◌, ◌+◌, ◌-◌, ◌*◌, ◌^◌, ◌≤◌, ◌<◌, length};
ghost use Rattle.laws.specs.Fields.{join};
ghost use Rattle.rules.specs.Blocks.{run_size};
ghost use Rattle.rules.specs.Lower.{child_layout, child_says, count_in, claim, take_huge, give_count, clear_huge, take_run, clear_run, zero_bits};
ghost use Rattle.laws.specs.Words.{zeros};
ghost use Rattle.laws.specs.Tables.{outcome};
ghost use Rattle.lower.specs.Tables.{step_at};
ghost use Rattle.lower.specs.Steps.{fields_of, low_of, fields_in, claim_in, take_huge_in, give_in, clear_huge_in, take_run_in, clear_run_in, fresh_word_in, fresh_child_in, recount_in, look_in, zeros_in, empty_in, sum_in};
ghost use Rattle.lower.specs.Search.{search, search_in};

use rules::{ChildEntry, Fault, Frame, Run, Took};

// Frames a child, words a child, bits a word; the most children of a zone.
const CHILD_FRAMES: u16 = 512;

const CHILD_WORDS: usize = 8;

const WORD_BITS: u32 = 64;

const MOST_CHILDREN: usize = 65536;

// ---- one child entry: a (1), zero (5), count (10)

#[derive(Clone, Copy)]
struct Fields {
    a: u16,
    zero: u16,
    count: u16,
}

fn split_child(entry: u16) -> Fields
    ensures { result ≡ fields_of entry }
{
    Fields {
        a: entry >> 15,
        zero: (entry >> 10) & 0x1f,
        count: entry & 0x3ff,
    }
}

fn join_child(a: u16, count: u16) -> u16
    requires { (a < 2) × (count < 2 ^ 10) }
    ensures { result ≡ join child_layout (a ∷ 0 ∷ count ∷ []) }
{
    a << 15 | count
}

// What an entry says: with a clear the count is at most 512, with a set it is 0.
fn says(entry: u16) -> Option<ChildEntry>
    ensures { result ≡ child_says entry }
{
    let e = split_child(entry);
    if e.zero != 0 {
        return None;
    }
    if e.a == 0 {
        if e.count <= CHILD_FRAMES {
            return Some(ChildEntry::Counts(e.count));
        }
        return None;
    }
    if e.count == 0 {
        return Some(ChildEntry::Flagged);
    }
    None
}

// ---- one word

// The bits of a run.
fn size_of(run: Run) -> u32
    ensures { (result ≡ run_size run) × (0 < result) × (result ≤ 64) }
{
    run.frames() as u32
}

// As many ones, the lowest bits of a word.
fn ones_of(size: u32) -> u64
    requires { (0 < size) × (size ≤ 64) }
    ensures { result ≡ 2 ^ size - 1 }
{
    u64::MAX >> (WORD_BITS - size)
}

// The word leaf: the lowest free run found and set, its first bit and the word. Below the run that holds the lowest zero bit every bit is set.
fn take_low(word: u64, run: Run) -> Option<(u8, u64)>
    ensures { low_of result ≡ take_run (run_size run) word }
{
    let size = size_of(run);
    let ones = ones_of(size);
    let first = u64::trailing_zeros(!word) & !(size - 1);
    for bit in (first..WORD_BITS).step_by(size as usize) {
        let mask = ones << bit;
        if word & mask == 0 {
            return Some((bit as u8, word | mask));
        }
    }
    None
}

fn zeros_of(word: u64) -> u32
    ensures { result ≡ zeros 64 word }
{
    WORD_BITS - u64::count_ones(word)
}

// The lowest free run of word `at` is set; its first bit.
fn take_at(words: &mut [u64], at: usize, run: Run) -> Option<u8>
    requires { at < length words.old }
    ensures { outcome result words.new ≡ step_at (take_run (run_size run)) words.old at }
{
    let (bit, word) = take_low(words[at], run)?;
    // rule 5, orders 0 to 6: the taking store
    words[at] = word;
    Some(bit)
}

// The zero bits of a child's field.
fn zeros_at(words: &[u64], child: usize) -> u16
    requires { child < fields_in words.now }
    ensures { result ≡ zero_bits words.now child }
{
    let field = &words[CHILD_WORDS * child..CHILD_WORDS * (child + 1)];
    let zeros: u32 = field.iter().map(|word| zeros_of(*word)).sum();
    zeros as u16
}

fn count_of(entry: u16) -> u32
    ensures { result ≡ count_in entry }
{
    match says(entry) {
        Some(ChildEntry::Counts(count)) => count as u32,
        Some(ChildEntry::Flagged) => 0,
        None => 0,
    }
}

// The frame of a bit, counted from the part's first.
fn frame_at(child: usize, word: usize, bit: u8) -> Frame
    requires { (child < 2 ^ 48) × (word < 8) }
    ensures { result.0 ≡ 512 * child + (64 * word + bit) }
{
    Frame(child as u64 * 512 + (word as u64 * 64 + bit as u64))
}

// Whether a child is well-formed, and what it says.
pub fn look(children: &[u16], child: usize) -> Result<ChildEntry, Fault>
    ensures { result ≡ look_in children.now child }
{
    if children.len() <= child {
        return Err(Fault::NoChild);
    }
    says(children[child]).ok_or(Fault::Damaged)
}

// ---- steps of a get and a put

// Rule 5: a child with a clear and a count of at least `size` loses `size`. Refuses a child that the table has not.
pub fn claim(children: &mut [u16], child: usize, size: u16) -> Result<Took, Fault>
    ensures { outcome result children.new ≡ claim_in size children.old child }
{
    match look(children, child)? {
        ChildEntry::Counts(count) if size <= count => {
            // rule 5: the claim
            children[child] = join_child(0, count - size);
            Ok(Took::Taken)
        }
        _ => Ok(Took::Passed),
    }
}

// Rule 5: a child with a clear and count 512 becomes one with a set, count 0.
pub fn take_huge(children: &mut [u16], child: usize) -> Result<Took, Fault>
    ensures { outcome result children.new ≡ take_huge_in children.old child }
{
    match look(children, child)? {
        ChildEntry::Counts(count) if count == CHILD_FRAMES => {
            // rule 5, order 9: the taking store
            children[child] = join_child(1, 0);
            Ok(Took::Taken)
        }
        _ => Ok(Took::Passed),
    }
}

// Rule 5: the lowest free run of word `word` of a child is set. Refuses a child whose field the table has not whole, then a word past the eighth.
pub fn take_run(words: &mut [u64], child: usize, word: usize, run: Run) -> Result<Option<u8>, Fault>
    ensures { outcome result words.new ≡ take_run_in (run_size run) words.old child word }
{
    if words.len() / CHILD_WORDS <= child {
        return Err(Fault::NoChild);
    }
    if CHILD_WORDS <= word {
        return Err(Fault::NoWord);
    }
    Ok(take_at(words, CHILD_WORDS * child + word, run))
}

// A count rises by `size`: a child with a set, or a sum past 512, is damaged.
pub fn give_count(children: &mut [u16], child: usize, size: u16) -> Result<(), Fault>
    ensures { outcome result children.new ≡ give_in size children.old child }
{
    match look(children, child)? {
        ChildEntry::Counts(count) if size <= CHILD_FRAMES - count => {
            // rule 5, giving back: the count rises
            children[child] = join_child(0, count + size);
            Ok(())
        }
        ChildEntry::Counts(_) => Err(Fault::Damaged),
        ChildEntry::Flagged => Err(Fault::Damaged),
    }
}

// Giving back, orders 0 to 6: a run whose bits are all set is cleared. Refuses the child, then the word, then a bit whose run does not end in the word.
pub fn clear_run(
    words: &mut [u64],
    child: usize,
    word: usize,
    bit: u32,
    run: Run,
) -> Result<(), Fault>
    ensures { outcome result words.new ≡ clear_run_in (run_size run) words.old child word bit }
{
    if words.len() / CHILD_WORDS <= child {
        return Err(Fault::NoChild);
    }
    if CHILD_WORDS <= word {
        return Err(Fault::NoWord);
    }
    let size = size_of(run);
    if WORD_BITS - size < bit {
        return Err(Fault::NoBit);
    }
    let at = CHILD_WORDS * child + word;
    let word = words[at];
    let mask = ones_of(size) << bit;
    if word & mask != mask {
        return Err(Fault::NotTaken);
    }
    // giving back, orders 0 to 6: the clearing store
    words[at] = word & !mask;
    Ok(())
}

// Giving back, order 9: a set becomes a clear, count 512.
pub fn clear_huge(children: &mut [u16], child: usize) -> Result<(), Fault>
    ensures { outcome result children.new ≡ clear_huge_in children.old child }
{
    match look(children, child)? {
        ChildEntry::Counts(_) => Err(Fault::NotTaken),
        ChildEntry::Flagged => {
            // giving back, order 9: the clearing store
            children[child] = join_child(0, CHILD_FRAMES);
            Ok(())
        }
    }
}

// ---- create

// Every bit of word `at` is clear.
pub fn store_fresh_word(words: &mut [u64], at: usize) -> Result<(), Fault>
    ensures { outcome result words.new ≡ fresh_word_in words.old at }
{
    if words.len() <= at {
        return Err(Fault::NoEntry);
    }
    // create: a word
    words[at] = 0;
    Ok(())
}

// A child with a clear and count 512.
pub fn store_fresh_child(children: &mut [u16], child: usize) -> Result<(), Fault>
    ensures { outcome result children.new ≡ fresh_child_in children.old child }
{
    if children.len() <= child {
        return Err(Fault::NoEntry);
    }
    // create: a child
    children[child] = join_child(0, CHILD_FRAMES);
    Ok(())
}

// ---- open and close

// A child with a clear gets the count of zero bits in its field; one with a set is stored as it stands. Refuses a child that the table has not,
// one without a field, then a malformed one.
pub fn store_recount(children: &mut [u16], words: &[u64], child: usize) -> Result<(), Fault>
    ensures { outcome result children.new ≡ recount_in children.old words.now child }
{
    if children.len() <= child {
        return Err(Fault::NoChild);
    }
    if words.len() / CHILD_WORDS <= child {
        return Err(Fault::NoField);
    }
    let entry = children[child];
    match says(entry).ok_or(Fault::Damaged)? {
        ChildEntry::Counts(_) => {
            // open: the recount
            children[child] = join_child(0, zeros_at(words, child));
        }
        ChildEntry::Flagged => {
            // open: one with a set, as it stands
            children[child] = entry;
        }
    }
    Ok(())
}

// The zero bits of a child's field.
pub fn zero_bits(words: &[u64], child: usize) -> Result<u16, Fault>
    ensures { result ≡ zeros_in words.now child }
{
    if words.len() / CHILD_WORDS <= child {
        return Err(Fault::NoField);
    }
    Ok(zeros_at(words, child))
}

// Whether a child's field is all zero.
pub fn field_empty(words: &[u64], child: usize) -> Result<bool, Fault>
    ensures { result ≡ empty_in words.now child }
{
    Ok(zero_bits(words, child)? == CHILD_FRAMES)
}

// The sum of the counts of a part. Refuses a part of more children than a zone has.
pub fn sum(children: &[u16]) -> Result<u32, Fault>
    ensures { result ≡ sum_in children.now }
{
    if MOST_CHILDREN < children.len() {
        return Err(Fault::TooMany);
    }
    Ok(children.iter().map(|entry| count_of(*entry)).sum())
}

// ---- the plain search

// Rule 5 for a run: children from the start child round to it again, each once, by words 0 to 7. Both loops are left with the run's first frame, counted
// from the part's first; a malformed child ends the search. Refuses a part of more children than a zone has, then a start child that the table has not,
// then words that lack a field.
pub fn search(
    children: &mut [u16],
    words: &mut [u64],
    start: usize,
    run: Run,
) -> Result<Option<Frame>, Fault>
    ensures { search result children.new words.new ≡ search_in (run_size run) children.old words.old start }
{
    let n = children.len();
    if MOST_CHILDREN < n {
        return Err(Fault::TooMany);
    }
    if n <= start {
        return Err(Fault::NoChild);
    }
    if words.len() / CHILD_WORDS < n {
        return Err(Fault::NoField);
    }
    let size = run.frames();
    let mut found = None;
    let mut child = start;
    'children: for turn in 0..n {
        match claim(children, child, size)? {
            Took::Taken => {
                for word in 0..CHILD_WORDS {
                    if let Some(bit) = take_at(words, CHILD_WORDS * child + word, run) {
                        found = Some(frame_at(child, word, bit));
                        break 'children;
                    }
                }
                // A count just claimed fits again.
                let _ = give_count(children, child, size);
            }
            Took::Passed => {}
        }
        child += 1;
        if child == n {
            child = 0;
        }
    }
    Ok(found)
}
