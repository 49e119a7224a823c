// What every call on an open zone begins with, the answers that go on with a stage, and what a run goes by.
#![tactic(auto)]

ghost use Rattle.std.specs.Prelude.{◌≡◌, ◌-◌, max};
ghost use Rattle.calls.specs.Results.{checked, next_in, way_of};
ghost use Rattle.calls.specs.Runs.{Runs};

use entries::Zoned;
use places::Shape;
use rules::{Answer, Giving, Record, Taking};

// An open zone's shape. What every call on an open zone refuses first: 8 for the header slice, 9, 10, 8.
pub fn check(
    header: &[u64],
    words: usize,
    children: usize,
    trees: usize,
    cpus: usize,
) -> Result<Shape, Answer>
    ensures { result ≡ checked header.now words children trees cpus }
{
    let Zoned::Running(size) = entries::zone_says(header)? else {
        return Err(Answer::Closed);
    };
    if !size.lengths_fit(words, children, trees, cpus) {
        return Err(Answer::BadBuffers);
    }
    Ok(Shape {
        size,
        cpus: cpus as u8,
    })
}

// ---- answers

// A get goes on with a stage.
pub fn get(cpu: u8, stage: Taking) -> Answer
    ensures { result ≡ Answer.UnderWay (Record.Get cpu stage) }
{
    Answer::UnderWay(Record::Get { cpu, stage })
}

// A put goes on with a stage.
pub fn put(cpu: u8, stage: Giving) -> Answer
    ensures { result ≡ Answer.UnderWay (Record.Put cpu stage) }
{
    Answer::UnderWay(Record::Put { cpu, stage })
}

// ---- runs

// A run's last answer, and the steps that it made.
#[derive(Clone, Copy)]
pub struct Ended {
    pub answer: Answer,
    pub steps: u64,
}

// The steps that a run may make: a fuel of 0 counts as 1, so that every answer of a run is a step's.
pub fn at_least_one(fuel: u64) -> u64
    ensures { result ≡ max 1 fuel }
{
    if fuel == 0 {
        return 1;
    }
    fuel
}

// The record that an answer goes on with; None where the operation has ended.
pub fn next_of(answer: Answer) -> Option<Record>
    ensures { result ≡ next_in answer }
{
    match answer {
        Answer::UnderWay(rec) => Some(rec),
        _ => None,
    }
}

// How a run goes on: it has ended, or it goes on with a record after so many steps.
#[derive(Clone, Copy)]
pub enum Way {
    Ends(Ended),
    Goes { rec: Record, steps: u64 },
}

// What an answer makes of a run.
pub fn way_of(answer: Answer, steps: u64) -> Way
    ensures { result ≡ way_of answer steps }
{
    match next_of(answer) {
        Some(rec) => Way::Goes { rec, steps },
        None => Way::Ends(Ended { answer, steps }),
    }
}

// The steps that are left after `made` of `fuel`, one by one, from a record on.
pub fn follow<F: FnMut(Record) -> Answer>(step: &mut F, rec: Record, made: u64, fuel: u64) -> Ended
    requires { F.IsAlwaysCallable step.old }
    ensures { Runs F.step (fuel - made) made (Answer.UnderWay rec) step.old result step.new }
{
    let mut answer = Answer::UnderWay(rec);
    for steps in made..fuel {
        let Answer::UnderWay(at) = answer else {
            return Ended { answer, steps };
        };
        answer = step(at);
    }
    Ended {
        answer,
        steps: fuel.max(made),
    }
}
