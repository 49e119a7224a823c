// The stages of a get and a put on children. One tree's part of the table is lent to the lower level, which alone reads and stores it.
// A number that the table has not is answered 11.
#![tactic(auto)]

ghost use Rattle.std.specs.Prelude.{◌≡◌, ◌<◌, Err};
ghost use Rattle.std.specs.Fn.{FnOnceReturnsAtMut};
ghost use Rattle.laws.specs.Tables.{outcome};
ghost use Rattle.rules.specs.Take.{next_child, take};
ghost use Rattle.rules.specs.Give.{give};
ghost use Rattle.lower.specs.Steps.{claim_in, take_huge_in, give_in, clear_huge_in};
ghost use Rattle.places.specs.Shapes.{shape_of, ranged};
ghost use Rattle.child_stages.specs.Tables.{lent_children, LentTo, in_children};
ghost use Rattle.child_stages.specs.Answers.{claimed_answer};

use places::Shape;
use rules::{Answer, Block, Fault, Frame, Giving, Huge, Order, Place, Run, Taking, Took, Tree};

const TREE_CHILDREN: usize = 32;

// ---- a tree's part, lent

// The tree's children, lent to f. Refuses a table that has them not.
fn lent<R, F: FnOnce(&mut [u16]) -> Result<R, Fault>>(
    children: &mut [u16],
    shape: Shape,
    tree: Tree,
    f: F,
) -> Result<R, Fault>
    requires { F.IsAlwaysCallable f }
    ensures { LentTo (shape_of shape) tree (Err Fault.NoChild) (FnOnceReturnsAtMut F.FnOnce f) children.old (outcome result children.new) }
{
    let first = tree.0 as usize * TREE_CHILDREN;
    let end = first + shape.size.children_of(tree) as usize;
    if children.len() < end {
        return Err(Fault::NoChild);
    }
    f(&mut children[first..end])
}

pub fn claim(
    children: &mut [u16],
    shape: Shape,
    tree: Tree,
    child: u8,
    frames: u16,
) -> Result<Took, Fault>
    ensures { outcome result children.new ≡ lent_children (shape_of shape) tree (Err Fault.NoChild) (λ l. claim_in frames l child) children.old }
{
    lent(
        children,
        shape,
        tree,
        |part| lower::claim(part, child as usize, frames),
    )
}

pub fn take_huge(children: &mut [u16], shape: Shape, tree: Tree, child: u8) -> Result<Took, Fault>
    ensures { outcome result children.new ≡ lent_children (shape_of shape) tree (Err Fault.NoChild) (λ l. take_huge_in l child) children.old }
{
    lent(
        children,
        shape,
        tree,
        |part| lower::take_huge(part, child as usize),
    )
}

pub fn give_count(
    children: &mut [u16],
    shape: Shape,
    tree: Tree,
    child: u8,
    frames: u16,
) -> Result<(), Fault>
    ensures { outcome result children.new ≡ lent_children (shape_of shape) tree (Err Fault.NoChild) (λ l. give_in frames l child) children.old }
{
    lent(
        children,
        shape,
        tree,
        |part| lower::give_count(part, child as usize, frames),
    )
}

pub fn clear_huge(children: &mut [u16], shape: Shape, tree: Tree, child: u8) -> Result<(), Fault>
    ensures { outcome result children.new ≡ lent_children (shape_of shape) tree (Err Fault.NoChild) (λ l. clear_huge_in l child) children.old }
{
    lent(
        children,
        shape,
        tree,
        |part| lower::clear_huge(part, child as usize),
    )
}

// ---- answers

fn claimed_answer(taken: Answer, passed: Answer, said: Result<Took, Fault>) -> Answer
    ensures { result ≡ claimed_answer taken passed said }
{
    match said {
        Ok(Took::Taken) => taken,
        Ok(Took::Passed) => passed,
        Err(fault) => Answer::from(fault),
    }
}

// Rule 5: the child after this one, round to the start child; then the search has failed.
fn next_child(shape: Shape, cpu: u8, order: Order, place: Place, start: u8, child: u8) -> Answer
    requires { child < 255 }
    ensures { result ≡ next_child (shape_of shape) cpu order place start child }
{
    let next = child as u16 + 1;
    if next == shape.size.children_of(place.tree()) {
        if start == 0 {
            return calls::get(cpu, Taking::Fail { order, place });
        }
        return calls::get(
            cpu,
            Taking::Child {
                order,
                place,
                start,
                child: 0,
            },
        );
    }
    if next == start as u16 {
        return calls::get(cpu, Taking::Fail { order, place });
    }
    calls::get(
        cpu,
        Taking::Child {
            order,
            place,
            start,
            child: child + 1,
        },
    )
}

// ---- rule 5: the search

// The claim of a run on a child.
pub fn child_run(
    children: &mut [u16],
    shape: Shape,
    cpu: u8,
    run: Run,
    place: Place,
    start: u8,
    child: u8,
) -> Answer
    ensures { outcome result children.new ≡ in_children (shape_of shape) (take (shape_of shape) cpu (Taking.Child (Order.Run run) place start child)) children.old }
{
    let tree = place.tree();
    if shape.size.children_of(tree) <= child as u16 {
        return Answer::BadRecord;
    }
    let passed = next_child(shape, cpu, Order::Run(run), place, start, child);
    let said = claim(children, shape, tree, child, run.frames());
    claimed_answer(
        calls::get(
            cpu,
            Taking::Word {
                run,
                place,
                start,
                child,
                word: 0,
            },
        ),
        passed,
        said,
    )
}

// The taking of a huge frame.
pub fn child_nine(
    children: &mut [u16],
    shape: Shape,
    cpu: u8,
    place: Place,
    start: u8,
    child: u8,
) -> Answer
    ensures { outcome result children.new ≡ in_children (shape_of shape) (take (shape_of shape) cpu (Taking.Child Order.Nine place start child)) children.old }
{
    let tree = place.tree();
    if shape.size.children_of(tree) <= child as u16 {
        return Answer::BadRecord;
    }
    let passed = next_child(shape, cpu, Order::Nine, place, start, child);
    let block = Block::Whole(Huge(tree.0 as u32 * 32 + child as u32));
    let said = take_huge(children, shape, tree, child);
    claimed_answer(calls::get(cpu, Taking::Last(block)), passed, said)
}

// Eight words without a free run: the count is given back.
pub fn give_back(
    children: &mut [u16],
    shape: Shape,
    cpu: u8,
    run: Run,
    place: Place,
    start: u8,
    child: u8,
) -> Answer
    ensures { outcome result children.new ≡ in_children (shape_of shape) (take (shape_of shape) cpu (Taking.GiveBack run place start child)) children.old }
{
    let tree = place.tree();
    if shape.size.children_of(tree) <= child as u16 {
        return Answer::BadRecord;
    }
    let next = next_child(shape, cpu, Order::Run(run), place, start, child);
    let said = give_count(children, shape, tree, child, run.frames());
    lending::given_answer(next, said)
}

// ---- giving back

// The clearing store of a huge frame.
pub fn clear_whole(children: &mut [u16], shape: Shape, cpu: u8, huge: Huge) -> Answer
    ensures { outcome result children.new ≡ ranged (shape_of shape) (Block.Whole huge) (in_children (shape_of shape) (give (shape_of shape) cpu (Giving.Clear (Block.Whole huge)))) children.old }
{
    match shape.block_at(Block::Whole(huge)) {
        None => Answer::BadRecord,
        Some(at) => {
            let said = clear_huge(children, shape, at.tree, at.child);
            lending::given_answer(calls::put(cpu, Giving::ToEntry(Block::Whole(huge))), said)
        }
    }
}

// The child's count rises by the run's frames.
pub fn raise(children: &mut [u16], shape: Shape, cpu: u8, run: Run, first: Frame) -> Answer
    ensures { outcome result children.new ≡ ranged (shape_of shape) (Block.Run run first) (in_children (shape_of shape) (give (shape_of shape) cpu (Giving.Raise run first))) children.old }
{
    match shape.block_at(Block::Run { run, first }) {
        None => Answer::BadRecord,
        Some(at) => {
            let said = give_count(children, shape, at.tree, at.child, run.frames());
            lending::given_answer(
                calls::put(cpu, Giving::ToEntry(Block::Run { run, first })),
                said,
            )
        }
    }
}
