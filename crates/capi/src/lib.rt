// The calls as C makes them: tables and record lent as slices, numbers bare, an answer by its number and frame. A record is two words. A call that
// goes on reads them; every call that is lent them writes them: the next record after 1, the finished one after any other answer. A record slice of another
// length is answered 8 where a table's would be, and left as it is.
#![tactic(auto)]

ghost use Rattle.std.specs.Prelude.{◌≡◌, not, [], ◌-◌, ◌*◌, length};
ghost use Rattle.laws.specs.Tests.{passes};
ghost use Rattle.laws.specs.Tables.{outcome};
ghost use Rattle.rules.specs.Numbers.{child_words};
ghost use Rattle.rules.specs.Step.{step, follow};
ghost use Rattle.rules.specs.Create.{size_checks};
ghost use Rattle.rules.specs.Open.{close_zone};
ghost use Rattle.calls.specs.Results.{zone};
ghost use Rattle.capi.specs.Calls.{record_words, answered_as, ran_as, laid, handed_back, no_record, no_create_record, called, followed, length_for, trees_for, get_call, put_call, step_call, run_call, get_run_call, put_run_call, create_call, create_step_call, create_run_call, open_call, open_step_call, open_run_call, close_call};

use calls::Way;
use entries::Zoned;
use rules::{Answer, Frame, Record};

const RECORD: usize = 2;

const MOST_HUGE: u64 = 65536;

const CHILD_WORDS: u64 = 8;

const TREE_CHILDREN: u64 = 32;

#[repr(C)]
#[derive(Clone, Copy)]
pub struct Answered {
    pub number: u64,
    pub frame: u64,
}

#[repr(C)]
#[derive(Clone, Copy)]
pub struct Ran {
    pub number: u64,
    pub frame: u64,
    pub steps: u64,
}

// ---- the lengths of the tables for n huge frames; 0 where there is no such zone

fn no_size(n: u64) -> bool
    ensures { result ≡ not (passes (size_checks n)) }
{
    n == 0 || MOST_HUGE < n
}

pub fn lovarntek_words(n: u64) -> u64
    ensures { result ≡ length_for n (child_words * n) }
{
    if no_size(n) {
        return 0;
    }
    CHILD_WORDS * n
}

pub fn lovarntek_children(n: u64) -> u64
    ensures { result ≡ length_for n n }
{
    if no_size(n) {
        return 0;
    }
    n
}

pub fn lovarntek_trees(n: u64) -> u64
    ensures { result ≡ length_for n (trees_for n) }
{
    if no_size(n) {
        return 0;
    }
    (n + (TREE_CHILDREN - 1)) / TREE_CHILDREN
}

// ---- answers and records

// An answer by its number and frame.
impl From<Answer> for Answered {
    ghost from_gives = { λ answer told. told ≡ answered_as answer };

    fn from(answer: Answer) -> Answered {
        Answered {
            number: records::number_of(answer),
            frame: records::frame_of(answer),
        }
    }
}

// The next record, laid down.
fn lay(rec: &mut [u64], next: Record)
    ensures { rec.new ≡ laid next rec.old }
{
    if rec.len() == RECORD {
        let words = records::encode(next);
        rec[0] = words.first;
        rec[1] = words.second;
    }
}

// The finished record, laid down: two zero words.
fn lay_finished(rec: &mut [u64])
    ensures { rec.new ≡ laid Record.Finished rec.old }
{
    if rec.len() == RECORD {
        rec[0] = 0;
        rec[1] = 0;
    }
}

// The record that an answer hands back.
fn hand_back(rec: &mut [u64], answer: Answer)
    ensures { rec.new ≡ handed_back answer rec.old }
{
    match calls::next_of(answer) {
        Some(next) => lay(rec, next),
        None => lay_finished(rec),
    }
}

// The end of a run. The record is handed back as above; the match stands here again, so that an answer that ends the run is copied nowhere.
fn told_run(rec: &mut [u64], answer: Answer, steps: u64) -> Ran
    ensures { outcome result rec.new ≡ outcome (ran_as answer steps) (handed_back answer rec.old) }
{
    match calls::next_of(answer) {
        Some(next) => lay(rec, next),
        None => lay_finished(rec),
    }
    Ran {
        number: records::number_of(answer),
        frame: records::frame_of(answer),
        steps,
    }
}

// The steps that are left of a run after `made` of `fuel`, and its end.
fn told_steps(
    header: &[u64],
    words: &mut [u64],
    children: &mut [u16],
    trees: &mut [u16],
    cpus: &mut [u64],
    rec: &mut [u64],
    next: Record,
    made: u64,
    fuel: u64,
) -> Ran
    requires { length rec.old ≡ record_words }
    ensures { called result (zone header.now words.new children.new trees.new cpus.new) rec.new ≡ followed (no_record Answer.Closed header.now) (zone header.now words.old children.old trees.old cpus.old) rec.old (follow step (fuel - made) made (Answer.UnderWay next) (zone header.now words.old children.old trees.old cpus.old)) }
{
    let ended = runs::step_on(header, words, children, trees, cpus, next, made, fuel);
    let answer = ended.answer;
    told_run(rec, answer, ended.steps)
}

// What is answered to a record slice of another length: what comes before 8, or 8. A closed zone is answered `closed`.
fn no_record(header: &[u64], closed: Answer) -> Answer
    ensures { result ≡ no_record closed header.now }
{
    match entries::zone_says(header) {
        Err(answer) => answer,
        Ok(Zoned::Clean(_)) => closed,
        Ok(Zoned::Running(_)) => Answer::BadBuffers,
    }
}

// The same at create: 14 comes before 8.
fn no_create_record(n: u64) -> Answer
    ensures { result ≡ no_create_record n }
{
    if no_size(n) {
        return Answer::BadSize;
    }
    Answer::BadBuffers
}

// ---- gets and puts

pub fn lovarntek_get(
    header: &[u64],
    words: &[u64],
    children: &[u16],
    trees: &[u16],
    cpus: &[u64],
    rec: &mut [u64],
    cpu: u64,
    order: u64,
) -> Answered
    ensures { called result (zone header.now words.now children.now trees.now cpus.now) rec.new ≡ get_call (zone header.now words.now children.now trees.now cpus.now) rec.old cpu order }
{
    if rec.len() != RECORD {
        return Answered::from(no_record(header, Answer::Closed));
    }
    let answer = begins::begin_get(header, words, children, trees, cpus, cpu, order);
    hand_back(rec, answer);
    Answered::from(answer)
}

pub fn lovarntek_put(
    header: &[u64],
    words: &[u64],
    children: &[u16],
    trees: &[u16],
    cpus: &[u64],
    rec: &mut [u64],
    cpu: u64,
    first: u64,
    order: u64,
) -> Answered
    ensures { called result (zone header.now words.now children.now trees.now cpus.now) rec.new ≡ put_call (zone header.now words.now children.now trees.now cpus.now) rec.old cpu first order }
{
    if rec.len() != RECORD {
        return Answered::from(no_record(header, Answer::Closed));
    }
    let answer = begins::begin_put(
        header,
        words,
        children,
        trees,
        cpus,
        cpu,
        Frame(first),
        order,
    );
    hand_back(rec, answer);
    Answered::from(answer)
}

pub fn lovarntek_step(
    header: &[u64],
    words: &mut [u64],
    children: &mut [u16],
    trees: &mut [u16],
    cpus: &mut [u64],
    rec: &mut [u64],
) -> Answered
    ensures { called result (zone header.now words.new children.new trees.new cpus.new) rec.new ≡ step_call (zone header.now words.old children.old trees.old cpus.old) rec.old }
{
    if rec.len() != RECORD {
        return Answered::from(no_record(header, Answer::Closed));
    }
    let given = records::decode(rec[0], rec[1]);
    let answer = upper::step(header, words, children, trees, cpus, given);
    hand_back(rec, answer);
    Answered::from(answer)
}

pub fn lovarntek_run(
    header: &[u64],
    words: &mut [u64],
    children: &mut [u16],
    trees: &mut [u16],
    cpus: &mut [u64],
    rec: &mut [u64],
    fuel: u64,
) -> Ran
    ensures { called result (zone header.now words.new children.new trees.new cpus.new) rec.new ≡ run_call (zone header.now words.old children.old trees.old cpus.old) rec.old fuel }
{
    if rec.len() != RECORD {
        return told_run(rec, no_record(header, Answer::Closed), 0);
    }
    let given = records::decode(rec[0], rec[1]);
    let ended = runs::run(header, words, children, trees, cpus, given, fuel);
    let answer = ended.answer;
    told_run(rec, answer, ended.steps)
}

pub fn lovarntek_get_run(
    header: &[u64],
    words: &mut [u64],
    children: &mut [u16],
    trees: &mut [u16],
    cpus: &mut [u64],
    rec: &mut [u64],
    cpu: u64,
    order: u64,
    fuel: u64,
) -> Ran
    ensures { called result (zone header.now words.new children.new trees.new cpus.new) rec.new ≡ get_run_call (zone header.now words.old children.old trees.old cpus.old) rec.old cpu order fuel }
{
    if rec.len() != RECORD {
        return told_run(rec, no_record(header, Answer::Closed), 0);
    }
    match get_runs::get_run(header, words, children, trees, cpus, cpu, order, fuel) {
        Way::Ends(ended) => {
            let answer = ended.answer;
            told_run(rec, answer, ended.steps)
        }
        Way::Goes { rec: next, steps } => told_steps(
            header, words, children, trees, cpus, rec, next, steps, fuel,
        ),
    }
}

pub fn lovarntek_put_run(
    header: &[u64],
    words: &mut [u64],
    children: &mut [u16],
    trees: &mut [u16],
    cpus: &mut [u64],
    rec: &mut [u64],
    cpu: u64,
    first: u64,
    order: u64,
    fuel: u64,
) -> Ran
    ensures { called result (zone header.now words.new children.new trees.new cpus.new) rec.new ≡ put_run_call (zone header.now words.old children.old trees.old cpus.old) rec.old cpu first order fuel }
{
    if rec.len() != RECORD {
        return told_run(rec, no_record(header, Answer::Closed), 0);
    }
    match put_runs::put_run(
        header,
        words,
        children,
        trees,
        cpus,
        cpu,
        Frame(first),
        order,
        fuel,
    ) {
        Way::Ends(ended) => {
            let answer = ended.answer;
            told_run(rec, answer, ended.steps)
        }
        Way::Goes { rec: next, steps } => told_steps(
            header, words, children, trees, cpus, rec, next, steps, fuel,
        ),
    }
}

// ---- create

pub fn lovarntek_create(
    header: &mut [u64],
    words: &[u64],
    children: &[u16],
    trees: &[u16],
    cpus: &[u64],
    rec: &mut [u64],
    n: u64,
) -> Answered
    ensures { called result (zone header.new words.now children.now trees.now cpus.now) rec.new ≡ create_call (zone header.old words.now children.now trees.now cpus.now) rec.old n }
{
    if rec.len() != RECORD {
        return Answered::from(no_create_record(n));
    }
    let answer = creating::create(header, words, children, trees, cpus, n);
    hand_back(rec, answer);
    Answered::from(answer)
}

pub fn lovarntek_create_step(
    header: &mut [u64],
    words: &mut [u64],
    children: &mut [u16],
    trees: &mut [u16],
    cpus: &mut [u64],
    rec: &mut [u64],
    n: u64,
) -> Answered
    ensures { called result (zone header.new words.new children.new trees.new cpus.new) rec.new ≡ create_step_call (zone header.old words.old children.old trees.old cpus.old) rec.old n }
{
    if rec.len() != RECORD {
        return Answered::from(no_create_record(n));
    }
    let given = records::decode(rec[0], rec[1]);
    let answer = creating::create_step(header, words, children, trees, cpus, n, given);
    hand_back(rec, answer);
    Answered::from(answer)
}

pub fn lovarntek_create_run(
    header: &mut [u64],
    words: &mut [u64],
    children: &mut [u16],
    trees: &mut [u16],
    cpus: &mut [u64],
    rec: &mut [u64],
    n: u64,
    fuel: u64,
) -> Ran
    ensures { called result (zone header.new words.new children.new trees.new cpus.new) rec.new ≡ create_run_call (zone header.old words.old children.old trees.old cpus.old) rec.old n fuel }
{
    if rec.len() != RECORD {
        return told_run(rec, no_create_record(n), 0);
    }
    let given = records::decode(rec[0], rec[1]);
    let ended = creating::run(header, words, children, trees, cpus, n, given, fuel);
    let answer = ended.answer;
    told_run(rec, answer, ended.steps)
}

// ---- open

pub fn lovarntek_open(
    header: &mut [u64],
    words: &[u64],
    children: &[u16],
    trees: &[u16],
    cpus: &[u64],
    rec: &mut [u64],
) -> Answered
    ensures { called result (zone header.new words.now children.now trees.now cpus.now) rec.new ≡ open_call (zone header.old words.now children.now trees.now cpus.now) rec.old }
{
    if rec.len() != RECORD {
        return Answered::from(no_record(header, Answer::BadBuffers));
    }
    let answer = opening::open(header, words, children, trees, cpus);
    hand_back(rec, answer);
    Answered::from(answer)
}

pub fn lovarntek_open_step(
    header: &[u64],
    words: &[u64],
    children: &mut [u16],
    trees: &mut [u16],
    cpus: &mut [u64],
    rec: &mut [u64],
) -> Answered
    ensures { called result (zone header.now words.now children.new trees.new cpus.new) rec.new ≡ open_step_call (zone header.now words.now children.old trees.old cpus.old) rec.old }
{
    if rec.len() != RECORD {
        return Answered::from(no_record(header, Answer::Closed));
    }
    let given = records::decode(rec[0], rec[1]);
    let answer = opening::open_step(header, words, children, trees, cpus, given);
    hand_back(rec, answer);
    Answered::from(answer)
}

pub fn lovarntek_open_run(
    header: &[u64],
    words: &[u64],
    children: &mut [u16],
    trees: &mut [u16],
    cpus: &mut [u64],
    rec: &mut [u64],
    fuel: u64,
) -> Ran
    ensures { called result (zone header.now words.now children.new trees.new cpus.new) rec.new ≡ open_run_call (zone header.now words.now children.old trees.old cpus.old) rec.old fuel }
{
    if rec.len() != RECORD {
        return told_run(rec, no_record(header, Answer::Closed), 0);
    }
    let given = records::decode(rec[0], rec[1]);
    let ended = opening::run(header, words, children, trees, cpus, given, fuel);
    let answer = ended.answer;
    told_run(rec, answer, ended.steps)
}

// ---- close

pub fn lovarntek_close(
    header: &mut [u64],
    words: &[u64],
    children: &[u16],
    trees: &[u16],
    cpus: &[u64],
) -> Answered
    ensures { called result (zone header.new words.now children.now trees.now cpus.now) [] ≡ close_call (zone header.old words.now children.now trees.now cpus.now) }
{
    Answered::from(closing::close(header, words, children, trees, cpus))
}

pub fn lovarntek_settled(
    header: &[u64],
    words: &[u64],
    children: &[u16],
    trees: &[u16],
    cpus: &[u64],
) -> Answered
    ensures { result ≡ answered_as (close_zone (zone header.now words.now children.now trees.now cpus.now)).answer }
{
    Answered::from(closing::settled(header, words, children, trees, cpus))
}
