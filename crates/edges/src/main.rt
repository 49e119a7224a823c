// The lower level tried at the edges. A line is a call with its numbers, then the answer's number, then the entry afterwards.
#![tactic(auto)]

ghost use Rattle.std.specs.Prelude.{◌≡◌, ◌≤◌, ◌<◌, length};

use rules::{ChildEntry, Fault, Frame, Run, Took};
use std::io::{Print, Stdout};

fn line(out: Stdout, text: &[u8], numbers: &[u64]) {
    let _ = out.write_all(text);
    for number in numbers {
        let _ = out.write_all(b" ");
        let _ = out.print(*number);
    }
    let _ = out.write_all(b"\n");
}

// ---- answers as numbers

// A fault that the call has no number for.
const NO_NUMBER: u64 = 999999999;

fn claimed(said: Result<Took, Fault>) -> u64 {
    match said {
        Ok(Took::Taken) => 0,
        Ok(Took::Passed) => 1,
        Err(Fault::Damaged) => 2,
        Err(Fault::NoChild) => 3,
        Err(_) => NO_NUMBER,
    }
}

fn given(said: Result<(), Fault>) -> u64 {
    match said {
        Ok(()) => 0,
        Err(Fault::NotTaken) => 1,
        Err(Fault::Damaged) => 2,
        Err(Fault::NoChild) => 3,
        Err(Fault::NoWord) => 4,
        Err(Fault::NoBit) => 5,
        Err(_) => NO_NUMBER,
    }
}

// A bit is its number, 0 to 63.
fn taken(said: Result<Option<u8>, Fault>) -> u64 {
    match said {
        Ok(Some(bit)) => bit as u64,
        Ok(None) => 64,
        Err(Fault::NoChild) => 65,
        Err(Fault::NoWord) => 66,
        Err(_) => NO_NUMBER,
    }
}

// A count is itself.
fn looked(said: Result<ChildEntry, Fault>) -> u64 {
    match said {
        Ok(ChildEntry::Counts(count)) => count as u64,
        Ok(ChildEntry::Flagged) => 1000,
        Err(Fault::Damaged) => 1001,
        Err(Fault::NoChild) => 1002,
        Err(_) => NO_NUMBER,
    }
}

fn stored(said: Result<(), Fault>) -> u64 {
    match said {
        Ok(()) => 0,
        Err(Fault::NoEntry) => 1,
        Err(_) => NO_NUMBER,
    }
}

fn recounted(said: Result<(), Fault>) -> u64 {
    match said {
        Ok(()) => 0,
        Err(Fault::Damaged) => 1,
        Err(Fault::NoChild) => 2,
        Err(Fault::NoField) => 3,
        Err(_) => NO_NUMBER,
    }
}

fn zeros(said: Result<u16, Fault>) -> u64 {
    match said {
        Ok(bits) => bits as u64,
        Err(Fault::NoField) => 1000,
        Err(_) => NO_NUMBER,
    }
}

fn empty(said: Result<bool, Fault>) -> u64 {
    match said {
        Ok(true) => 0,
        Ok(false) => 1,
        Err(Fault::NoField) => 2,
        Err(_) => NO_NUMBER,
    }
}

fn summed(said: Result<u32, Fault>) -> u64 {
    match said {
        Ok(frames) => frames as u64,
        Err(Fault::TooMany) => 100000000,
        Err(_) => NO_NUMBER,
    }
}

// A frame is its number.
fn searched(said: Result<Option<Frame>, Fault>) -> u64 {
    match said {
        Ok(Some(frame)) => frame.0,
        Ok(None) => 100000,
        Err(Fault::Damaged) => 100001,
        Err(Fault::NoChild) => 100002,
        Err(Fault::NoField) => 100003,
        Err(Fault::TooMany) => 100004,
        Err(_) => NO_NUMBER,
    }
}

// ---- one child entry, with what each step makes of it

fn claim(out: Stdout, entry: u16, size: u16) {
    let mut children = [entry];
    let said = claimed(lower::claim(&mut children, 0, size));
    line(
        out,
        b"claim",
        &[entry as u64, size as u64, said, children[0] as u64],
    );
}

fn give_count(out: Stdout, entry: u16, size: u16) {
    let mut children = [entry];
    let said = given(lower::give_count(&mut children, 0, size));
    line(
        out,
        b"give_count",
        &[entry as u64, size as u64, said, children[0] as u64],
    );
}

fn take_huge(out: Stdout, entry: u16) {
    let mut children = [entry];
    let said = claimed(lower::take_huge(&mut children, 0));
    line(out, b"take_huge", &[entry as u64, said, children[0] as u64]);
}

fn clear_huge(out: Stdout, entry: u16) {
    let mut children = [entry];
    let said = given(lower::clear_huge(&mut children, 0));
    line(
        out,
        b"clear_huge",
        &[entry as u64, said, children[0] as u64],
    );
}

fn look(out: Stdout, entry: u16) {
    let children = [entry];
    line(
        out,
        b"look",
        &[entry as u64, looked(lower::look(&children, 0))],
    );
}

// The field has seven words with no zero bit, and the last as given.
fn store_recount(out: Stdout, entry: u16, last: u64) {
    let mut children = [entry];
    let full = u64::MAX;
    let words = [full, full, full, full, full, full, full, last];
    let said = recounted(lower::store_recount(&mut children, &words, 0));
    line(
        out,
        b"store_recount",
        &[entry as u64, last, said, children[0] as u64],
    );
}

fn entry(out: Stdout, e: u16) {
    for size in [0, 1, 511, 512, 513] {
        claim(out, e, size);
        give_count(out, e, size);
    }
    take_huge(out, e);
    clear_huge(out, e);
    look(out, e);
    for last in [0, FULL, FIRST, LAST] {
        store_recount(out, e, last);
    }
}

// ---- one word of a field of ones, with what each step makes of it

// No zero bit; one at bit 0; one at bit 63.
const FULL: u64 = 0xffff_ffff_ffff_ffff;

const FIRST: u64 = 0xffff_ffff_ffff_fffe;

const LAST: u64 = 0x7fff_ffff_ffff_ffff;

fn field(word: usize, value: u64) -> [u64; 8]
    requires { word < 8 }
    ensures { length result ≡ 8 }
{
    let mut words = [u64::MAX; 8];
    words[word] = value;
    words
}

// The run's frames are a line's first number.
fn take_run(out: Stdout, word: usize, value: u64, run: Run)
    requires { word < 8 }
{
    let mut words = field(word, value);
    let said = taken(lower::take_run(&mut words, 0, word, run));
    line(
        out,
        b"take_run",
        &[run.frames() as u64, word as u64, value, said, words[word]],
    );
}

fn clear_run(out: Stdout, value: u64, bit: u32, run: Run) {
    let mut words = field(7, value);
    let said = given(lower::clear_run(&mut words, 0, 7, bit, run));
    line(
        out,
        b"clear_run",
        &[run.frames() as u64, value, bit as u64, said, words[7]],
    );
}

fn word(out: Stdout, w: u64) {
    take_run(out, 0, w, Run::One);
    take_run(out, 7, w, Run::One);
    for bit in [0, 1, 63, 64] {
        clear_run(out, w, bit, Run::One);
    }
    let words = field(7, w);
    line(out, b"zero_bits", &[w, zeros(lower::zero_bits(&words, 0))]);
    let alone = [0, 0, 0, 0, 0, 0, 0, w];
    line(
        out,
        b"field_empty",
        &[w, empty(lower::field_empty(&alone, 0))],
    );
}

// Only bit 63 set; only bits 4 and 5 clear, a pair; only bits 5 and 6, no pair; only bit 0 and the last eight clear.
const TOP: u64 = 0x8000_0000_0000_0000;

const PAIR: u64 = 0xffff_ffff_ffff_ffcf;

const NO_PAIR: u64 = 0xffff_ffff_ffff_ff9f;

const ENDS: u64 = 0x00ff_ffff_ffff_fffe;

fn runs(out: Stdout, w: u64) {
    for run in [Run::Two, Run::Eight, Run::SixtyFour] {
        take_run(out, 7, w, run);
    }
}

// Each size with all its bits set, with one of them clear, and past the word's end.
fn clear_runs(out: Stdout) {
    for (value, bit, run) in [
        (FULL, 2, Run::Two),
        (FIRST, 0, Run::Two),
        (FULL, 63, Run::Two),
        (FULL, 0xffff_ffff, Run::Two),
        (FULL, 56, Run::Eight),
        (LAST, 56, Run::Eight),
        (FULL, 57, Run::Eight),
        (FULL, 0, Run::SixtyFour),
        (LAST, 0, Run::SixtyFour),
        (FULL, 1, Run::SixtyFour),
    ] {
        clear_run(out, value, bit, run);
    }
}

// ---- slices of length 0, one short, right and one long; an index below the length, at it and past it

fn claim_in(out: Stdout, children: &mut [u16], at: usize) {
    line(
        out,
        b"claim_in",
        &[
            children.len() as u64,
            at as u64,
            claimed(lower::claim(children, at, 1)),
        ],
    );
}

fn take_huge_in(out: Stdout, children: &mut [u16], at: usize) {
    line(
        out,
        b"take_huge_in",
        &[
            children.len() as u64,
            at as u64,
            claimed(lower::take_huge(children, at)),
        ],
    );
}

fn give_count_in(out: Stdout, children: &mut [u16], at: usize) {
    line(
        out,
        b"give_count_in",
        &[
            children.len() as u64,
            at as u64,
            given(lower::give_count(children, at, 1)),
        ],
    );
}

fn clear_huge_in(out: Stdout, children: &mut [u16], at: usize) {
    line(
        out,
        b"clear_huge_in",
        &[
            children.len() as u64,
            at as u64,
            given(lower::clear_huge(children, at)),
        ],
    );
}

fn fresh_child_in(out: Stdout, children: &mut [u16], at: usize) {
    line(
        out,
        b"fresh_child_in",
        &[
            children.len() as u64,
            at as u64,
            stored(lower::store_fresh_child(children, at)),
        ],
    );
}

fn looks_in(out: Stdout, children: &[u16], at: usize) {
    line(
        out,
        b"look_in",
        &[
            children.len() as u64,
            at as u64,
            looked(lower::look(children, at)),
        ],
    );
    line(
        out,
        b"sum_in",
        &[children.len() as u64, summed(lower::sum(children))],
    );
}

fn take_run_in(out: Stdout, words: &mut [u64], child: usize, at: usize) {
    line(
        out,
        b"take_run_in",
        &[
            words.len() as u64,
            child as u64,
            at as u64,
            taken(lower::take_run(words, child, at, Run::One)),
        ],
    );
}

fn clear_run_in(out: Stdout, words: &mut [u64], child: usize, at: usize) {
    line(
        out,
        b"clear_run_in",
        &[
            words.len() as u64,
            child as u64,
            at as u64,
            given(lower::clear_run(words, child, at, 0, Run::One)),
        ],
    );
}

fn fresh_word_in(out: Stdout, words: &mut [u64], at: usize) {
    line(
        out,
        b"fresh_word_in",
        &[
            words.len() as u64,
            at as u64,
            stored(lower::store_fresh_word(words, at)),
        ],
    );
}

fn fields_in(out: Stdout, words: &[u64], child: usize) {
    line(
        out,
        b"zero_bits_in",
        &[
            words.len() as u64,
            child as u64,
            zeros(lower::zero_bits(words, child)),
        ],
    );
    line(
        out,
        b"field_empty_in",
        &[
            words.len() as u64,
            child as u64,
            empty(lower::field_empty(words, child)),
        ],
    );
    let mut children = [1];
    line(
        out,
        b"recount_in",
        &[
            words.len() as u64,
            child as u64,
            recounted(lower::store_recount(&mut children, words, child)),
        ],
    );
}

fn of_children(out: Stdout, children: &mut [u16], at: usize) {
    claim_in(out, children, at);
    take_huge_in(out, children, at);
    give_count_in(out, children, at);
    clear_huge_in(out, children, at);
    looks_in(out, children, at);
    fresh_child_in(out, children, at);
}

fn of_words(out: Stdout, words: &mut [u64], child: usize, at: usize) {
    take_run_in(out, words, child, at);
    clear_run_in(out, words, child, at);
    fields_in(out, words, child);
    fresh_word_in(out, words, at);
}

fn children_of(out: Stdout, at: usize) {
    let mut none: [u16; 0] = [];
    of_children(out, &mut none, at);
    let mut one = [512];
    of_children(out, &mut one, at);
    let mut two = [512, 512];
    of_children(out, &mut two, at);
}

fn words_of(out: Stdout) {
    let mut none: [u64; 0] = [];
    of_words(out, &mut none, 0, 0);
    let mut short = [0; 7];
    of_words(out, &mut short, 0, 0);
    let mut right = [0; 8];
    of_words(out, &mut right, 0, 0);
    of_words(out, &mut right, 0, 7);
    of_words(out, &mut right, 0, 8);
    of_words(out, &mut right, 1, 0);
    let mut long = [0; 9];
    of_words(out, &mut long, 0, 0);
    of_words(out, &mut long, 1, 0);
    of_words(out, &mut long, 1, 9);
}

// ---- the plain search: the first child is taken whole, the second full below a count, the third has its last two bits

fn search(out: Stdout, start: usize, second: u16, third: u16, run: Run) {
    let mut children = [0x8000, second, third];
    let mut words = [u64::MAX; 24];
    words[23] = 0x3fff_ffff_ffff_ffff;
    let said = searched(lower::search(&mut children, &mut words, start, run));
    line(
        out,
        b"search",
        &[
            run.frames() as u64,
            start as u64,
            second as u64,
            third as u64,
            said,
        ],
    );
    line(
        out,
        b"leaves",
        &[
            children[0] as u64,
            children[1] as u64,
            children[2] as u64,
            words[23],
        ],
    );
}

fn searches(out: Stdout, start: usize) {
    for (second, third) in [(0, 2), (1, 2), (1, 0), (513, 2)] {
        search(out, start, second, third, Run::One);
    }
}

fn search_short(out: Stdout) {
    let mut children = [1, 1];
    let mut words = [0; 15];
    line(
        out,
        b"search_short",
        &[searched(lower::search(&mut children, &mut words, 0, Run::One))],
    );
}

// ---- one child more than a zone has

fn too_many(out: Stdout) {
    let mut children = [1; 65537];
    let mut words = [0; 8];
    line(
        out,
        b"too_many",
        &[
            summed(lower::sum(&children)),
            summed(lower::sum(&children[..65536])),
            searched(lower::search(&mut children, &mut words, 0, Run::One)),
        ],
    );
}

fn main(rt: HostRuntime) {
    let out = rt.stdout();
    for e in [
        0, 1, 511, 512, 513, 0x8000, 0x8001, 0x81ff, 0x8200, 0x8201, 0x0400, 0xffff,
    ] {
        entry(out, e);
    }
    for w in [0, FULL, FIRST, LAST] {
        word(out, w);
    }
    for w in [0, FULL, 1, TOP, PAIR, NO_PAIR, ENDS] {
        runs(out, w);
    }
    clear_runs(out);
    for at in 0..3 {
        children_of(out, at);
    }
    words_of(out);
    for start in 0..4 {
        searches(out, start);
    }
    search(out, 1, 2, 2, Run::Two);
    search(out, 1, 2, 4, Run::Four);
    search_short(out);
    too_many(out);
}
