// The stages of a get and a put on CPU entries: each reads one entry, stores one at most, and answers.
// A number that the table has not is answered 11.
#![tactic(auto)]

ghost use Rattle.std.specs.Prelude.{◌≡◌};
ghost use Rattle.laws.specs.Tables.{outcome};
ghost use Rattle.rules.specs.Take.{take};
ghost use Rattle.rules.specs.Give.{give};
ghost use Rattle.places.specs.Shapes.{shape_of, ranged};
ghost use Rattle.cpu_stages.specs.Tables.{in_cpus};
ghost use Rattle.cpu_stages.specs.Answers.{own_answer, held_answer, again_answer, release_answer, write_answer, steal_answer};

use cpu_entries::{Again, Claimed, Stolen};
use places::Shape;
use rules::{Answer, Block, Fault, Found, Giving, Order, Pass, Place, Taking, Tree};

// ---- rule 1: the own entry

fn own_answer(shape: Shape, cpu: u8, order: Order, said: Result<Claimed, Fault>) -> Answer
    ensures { result ≡ own_answer (shape_of shape) cpu order said }
{
    match said {
        Ok(Claimed::Absent) => calls::get(
            cpu,
            Taking::Try {
                order,
                pass: Pass::Partial(Tree(0)),
            },
        ),
        Ok(Claimed::Claimed { tree, start }) => calls::get(
            cpu,
            Taking::Child {
                order,
                place: Place::Own(tree),
                start,
                child: start,
            },
        ),
        Ok(Claimed::Short(tree)) => calls::get(cpu, Taking::TakeCount { order, tree }),
        Err(fault) => Answer::from(fault),
    }
}

pub fn own(cpus: &mut [u64], shape: Shape, cpu: u8, order: Order) -> Answer
    ensures { outcome result cpus.new ≡ in_cpus (shape_of shape) (take (shape_of shape) cpu (Taking.Own order)) cpus.old }
{
    let said = cpu_entries::claim_own(cpus, shape.size, cpu as usize, order.frames());
    own_answer(shape, cpu, order, said)
}

// The answer of an entry that holds the tree, and of one that does not.
fn held_answer(holds: Answer, misses: Answer, said: Result<bool, Fault>) -> Answer
    ensures { result ≡ held_answer holds misses said }
{
    match said {
        Ok(true) => holds,
        Ok(false) => misses,
        Err(fault) => Answer::from(fault),
    }
}

// Rule 1: the hand into the own entry, if it still holds the tree.
pub fn fill_entry(
    cpus: &mut [u64],
    shape: Shape,
    cpu: u8,
    order: Order,
    tree: Tree,
    hand: u16,
) -> Answer
    ensures { outcome result cpus.new ≡ in_cpus (shape_of shape) (take (shape_of shape) cpu (Taking.FillEntry order tree hand)) cpus.old }
{
    let said = cpu_entries::add_own(cpus, shape.size, cpu as usize, tree, hand);
    held_answer(
        calls::get(cpu, Taking::LookAgain { order, tree }),
        calls::get(cpu, Taking::ReturnHand { order, tree, hand }),
        said,
    )
}

fn again_answer(
    shape: Shape,
    cpu: u8,
    order: Order,
    tree: Tree,
    said: Result<Again, Fault>,
) -> Answer
    ensures { result ≡ again_answer (shape_of shape) cpu order tree said }
{
    match said {
        Ok(Again::Claimed(start)) => calls::get(
            cpu,
            Taking::Child {
                order,
                place: Place::Own(tree),
                start,
                child: start,
            },
        ),
        Ok(Again::Released(hand)) => calls::get(
            cpu,
            Taking::Unreserve {
                order,
                place: Place::Own(tree),
                hand,
            },
        ),
        Ok(Again::Missed) => calls::get(cpu, shape.after_place(cpu, order, Place::Own(tree))),
        Err(fault) => Answer::from(fault),
    }
}

// Rule 1: the entry is looked at again: a claim, or the release's first step.
pub fn look_again(cpus: &mut [u64], shape: Shape, cpu: u8, order: Order, tree: Tree) -> Answer
    ensures { outcome result cpus.new ≡ in_cpus (shape_of shape) (take (shape_of shape) cpu (Taking.LookAgain order tree)) cpus.old }
{
    let said = cpu_entries::claim_or_release(cpus, shape.size, cpu as usize, tree, order.frames());
    again_answer(shape, cpu, order, tree, said)
}

// ---- rule 2

fn release_answer(
    shape: Shape,
    cpu: u8,
    order: Order,
    place: Place,
    said: Result<Option<u16>, Fault>,
) -> Answer
    ensures { result ≡ release_answer (shape_of shape) cpu order place said }
{
    match said {
        Ok(Some(hand)) => calls::get(cpu, Taking::Unreserve { order, place, hand }),
        Ok(None) => calls::get(cpu, shape.after_place(cpu, order, place)),
        Err(fault) => Answer::from(fault),
    }
}

pub fn release(cpus: &mut [u64], shape: Shape, cpu: u8, order: Order, place: Place) -> Answer
    ensures { outcome result cpus.new ≡ in_cpus (shape_of shape) (take (shape_of shape) cpu (Taking.Release order place)) cpus.old }
{
    let said = cpu_entries::release(cpus, shape.size, cpu as usize, place.tree());
    release_answer(shape, cpu, order, place, said)
}

// ---- rule 3: the own entry anew

fn write_answer(
    shape: Shape,
    cpu: u8,
    order: Order,
    found: Found,
    said: Result<(), Fault>,
) -> Answer
    ensures { result ≡ write_answer (shape_of shape) cpu order found said }
{
    match said {
        Ok(()) => calls::get(
            cpu,
            Taking::Child {
                order,
                place: Place::Found(found),
                start: 0,
                child: 0,
            },
        ),
        Err(fault) => Answer::from(fault),
    }
}

pub fn write(
    cpus: &mut [u64],
    shape: Shape,
    cpu: u8,
    order: Order,
    found: Found,
    hand: u16,
) -> Answer
    ensures { outcome result cpus.new ≡ in_cpus (shape_of shape) (take (shape_of shape) cpu (Taking.Write order found hand)) cpus.old }
{
    let frames = order.frames();
    if cpus.len() <= cpu as usize {
        return Answer::BadRecord;
    }
    if hand < frames {
        return Answer::Damaged;
    }
    let said = cpu_entries::write(cpus, shape.size, cpu as usize, found.tree(), hand - frames);
    write_answer(shape, cpu, order, found, said)
}

// ---- rule 4

fn steal_answer(
    shape: Shape,
    cpu: u8,
    order: Order,
    from: u8,
    said: Result<Option<Stolen>, Fault>,
) -> Answer
    ensures { result ≡ steal_answer (shape_of shape) cpu order from said }
{
    match said {
        Ok(None) => calls::get(cpu, shape.after_steal(cpu, order, from)),
        Ok(Some(Stolen { tree, count })) => calls::get(
            cpu,
            Taking::StealCount {
                order,
                from,
                tree,
                hand: count,
            },
        ),
        Err(fault) => Answer::from(fault),
    }
}

pub fn steal(cpus: &mut [u64], shape: Shape, cpu: u8, order: Order, from: u8) -> Answer
    ensures { outcome result cpus.new ≡ in_cpus (shape_of shape) (take (shape_of shape) cpu (Taking.Steal order from)) cpus.old }
{
    let said = cpu_entries::steal(cpus, shape.size, from as usize);
    steal_answer(shape, cpu, order, from, said)
}

// ---- a block's tree: the last step of a get, and a step of a put

// Rule 6: the block's child as start child, if the own entry still holds its tree; and the answer.
pub fn last(cpus: &mut [u64], shape: Shape, cpu: u8, block: Block) -> Answer
    ensures { outcome result cpus.new ≡ ranged (shape_of shape) block (in_cpus (shape_of shape) (take (shape_of shape) cpu (Taking.Last block))) cpus.old }
{
    match shape.block_at(block) {
        None => Answer::BadRecord,
        Some(at) => {
            let said = cpu_entries::set_start(cpus, shape.size, cpu as usize, at.tree, at.child);
            let done = Answer::Done(block.first());
            held_answer(done, done, said)
        }
    }
}

// Giving back: the block to the own entry, if it holds its tree.
pub fn to_entry(cpus: &mut [u64], shape: Shape, cpu: u8, block: Block) -> Answer
    ensures { outcome result cpus.new ≡ ranged (shape_of shape) block (in_cpus (shape_of shape) (give (shape_of shape) cpu (Giving.ToEntry block))) cpus.old }
{
    match shape.block_at(block) {
        None => Answer::BadRecord,
        Some(at) => {
            let said = cpu_entries::add_own(
                cpus,
                shape.size,
                cpu as usize,
                at.tree,
                block.frames(),
            );
            held_answer(
                Answer::Done(block.first()),
                calls::put(cpu, Giving::ToTree(block)),
                said,
            )
        }
    }
}
