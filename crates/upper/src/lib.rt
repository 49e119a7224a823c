// Steps of gets and puts. Every check is made here, in document 01's order; a refused step stores nothing.
#![tactic(auto)]

ghost use Rattle.std.specs.Prelude.{◌≡◌, [], ◌++◌};
ghost use Rattle.laws.specs.Tests.{Passes};
ghost use Rattle.rules.specs.Plan.{carried};
ghost use Rattle.rules.specs.Ranges.{cpu_in, taking_in, giving_in};
ghost use Rattle.rules.specs.Take.{take};
ghost use Rattle.rules.specs.Give.{give};
ghost use Rattle.rules.specs.Step.{step};
ghost use Rattle.places.specs.Shapes.{shape_of};
ghost use Rattle.calls.specs.Results.{zone, result_of, done, Fits};

use places::Shape;
use rules::{Answer, Block, Giving, Order, Record, Taking};

// ---- one stage

// A stage of a get, its numbers in range.
fn get_step(
    words: &mut [u64],
    children: &mut [u16],
    trees: &mut [u16],
    cpus: &mut [u64],
    shape: Shape,
    cpu: u8,
    stage: Taking,
) -> Answer
    requires { Fits shape words.old children.old trees.old cpus.old × Passes (cpu_in (shape_of shape) cpu ++ taking_in (shape_of shape) cpu stage) }
    ensures { result_of result (zone [] words.new children.new trees.new cpus.new) ≡ done (zone [] words.old children.old trees.old cpus.old) (carried (shape_of shape) (zone [] words.old children.old trees.old cpus.old) (take (shape_of shape) cpu stage)) }
{
    match stage {
        Taking::Own(order) => cpu_stages::own(cpus, shape, cpu, order),
        Taking::TakeCount { order, tree } => tree_stages::take_count(
            trees, shape, cpu, order, tree,
        ),
        Taking::FillEntry { order, tree, hand } => cpu_stages::fill_entry(
            cpus, shape, cpu, order, tree, hand,
        ),
        Taking::ReturnHand { order, tree, hand } => tree_stages::return_hand(
            trees, shape, cpu, order, tree, hand,
        ),
        Taking::LookAgain { order, tree } => cpu_stages::look_again(cpus, shape, cpu, order, tree),
        Taking::Release { order, place } => cpu_stages::release(cpus, shape, cpu, order, place),
        Taking::Unreserve { order, place, hand } => tree_stages::unreserve(
            trees, shape, cpu, order, place, hand,
        ),
        Taking::Try { order, pass } => tree_stages::try_tree(trees, shape, cpu, order, pass),
        Taking::Write { order, found, hand } => cpu_stages::write(
            cpus, shape, cpu, order, found, hand,
        ),
        Taking::Steal { order, from } => cpu_stages::steal(cpus, shape, cpu, order, from),
        Taking::StealCount {
            order,
            from,
            tree,
            hand,
        } => tree_stages::steal_count(trees, shape, cpu, order, from, tree, hand),
        Taking::Child {
            order,
            place,
            start,
            child,
        } => match order {
            Order::Run(run) => child_stages::child_run(
                children, shape, cpu, run, place, start, child,
            ),
            Order::Nine => child_stages::child_nine(children, shape, cpu, place, start, child),
        },
        Taking::Word {
            run,
            place,
            start,
            child,
            word,
        } => word_stages::word(words, shape, cpu, run, place, start, child, word),
        Taking::GiveBack {
            run,
            place,
            start,
            child,
        } => child_stages::give_back(children, shape, cpu, run, place, start, child),
        Taking::Last(block) => cpu_stages::last(cpus, shape, cpu, block),
        Taking::Fail { order, place } => tree_stages::fail(trees, shape, cpu, order, place),
        Taking::NoRoom => Answer::NoRoom,
    }
}

// A stage of a put, its numbers in range.
fn put_step(
    words: &mut [u64],
    children: &mut [u16],
    trees: &mut [u16],
    cpus: &mut [u64],
    shape: Shape,
    cpu: u8,
    stage: Giving,
) -> Answer
    requires { Fits shape words.old children.old trees.old cpus.old × Passes (cpu_in (shape_of shape) cpu ++ giving_in (shape_of shape) stage) }
    ensures { result_of result (zone [] words.new children.new trees.new cpus.new) ≡ done (zone [] words.old children.old trees.old cpus.old) (carried (shape_of shape) (zone [] words.old children.old trees.old cpus.old) (give (shape_of shape) cpu stage)) }
{
    match stage {
        Giving::Clear(block) => match block {
            Block::Run { run, first } => word_stages::clear(words, shape, cpu, run, first),
            Block::Whole(huge) => child_stages::clear_whole(children, shape, cpu, huge),
        },
        Giving::Raise { run, first } => child_stages::raise(children, shape, cpu, run, first),
        Giving::ToEntry(block) => cpu_stages::to_entry(cpus, shape, cpu, block),
        Giving::ToTree(block) => tree_stages::to_tree(trees, shape, cpu, block),
    }
}

// A step of a get or put: 8 for the header slice, 9, 10, 8, 11, then 12 or 6. At most one entry is stored.
pub fn step(
    header: &[u64],
    words: &mut [u64],
    children: &mut [u16],
    trees: &mut [u16],
    cpus: &mut [u64],
    rec: Record,
) -> Answer
    ensures { result_of result (zone header.now words.new children.new trees.new cpus.new) ≡ done (zone header.now words.old children.old trees.old cpus.old) (step (zone header.now words.old children.old trees.old cpus.old) rec) }
{
    match calls::check(header, words.len(), children.len(), trees.len(), cpus.len()) {
        Err(answer) => answer,
        Ok(shape) => match rec {
            Record::Finished => Answer::BadRecord,
            Record::Get { cpu, stage } => {
                if shape.cpus <= cpu {
                    return Answer::BadRecord;
                }
                if shape.taking_in(cpu, stage) {
                    return get_step(words, children, trees, cpus, shape, cpu, stage);
                }
                Answer::BadRecord
            }
            Record::Put { cpu, stage } => {
                if shape.cpus <= cpu {
                    return Answer::BadRecord;
                }
                if shape.giving_in(stage) {
                    return put_step(words, children, trees, cpus, shape, cpu, stage);
                }
                Answer::BadRecord
            }
            Record::Create(_) => Answer::BadRecord,
            Record::Open(_) => Answer::BadRecord,
        },
    }
}
