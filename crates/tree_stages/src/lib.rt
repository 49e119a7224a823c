// The stages of a get and a put on trees: each reads one entry, stores one at most, and answers.
// A number that the table has not is answered 11.
#![tactic(auto)]

ghost use Rattle.std.specs.Prelude.{◌≡◌};
ghost use Rattle.laws.specs.Tables.{outcome};
ghost use Rattle.rules.specs.Take.{take};
ghost use Rattle.rules.specs.Give.{give};
ghost use Rattle.places.specs.Shapes.{shape_of, ranged};
ghost use Rattle.tree_stages.specs.Tables.{in_trees};
ghost use Rattle.tree_stages.specs.Answers.{take_count_answer, try_answer, steal_count_answer};

use places::Shape;
use rules::{Answer, Block, Fault, Found, Giving, Order, Pass, Place, Taking, Tree};

fn take_count_answer(cpu: u8, order: Order, tree: Tree, said: Result<u16, Fault>) -> Answer
    ensures { result ≡ take_count_answer cpu order tree said }
{
    match said {
        Ok(hand) => calls::get(cpu, Taking::FillEntry { order, tree, hand }),
        Err(fault) => Answer::from(fault),
    }
}

// Rule 1: the tree's count into hand.
pub fn take_count(trees: &mut [u16], shape: Shape, cpu: u8, order: Order, tree: Tree) -> Answer
    ensures { outcome result trees.new ≡ in_trees (shape_of shape) (take (shape_of shape) cpu (Taking.TakeCount order tree)) trees.old }
{
    let said = entries::take_count(trees, shape.size, tree);
    take_count_answer(cpu, order, tree, said)
}

// Rule 1: the hand is returned to the tree's count.
pub fn return_hand(
    trees: &mut [u16],
    shape: Shape,
    cpu: u8,
    order: Order,
    tree: Tree,
    hand: u16,
) -> Answer
    ensures { outcome result trees.new ≡ in_trees (shape_of shape) (take (shape_of shape) cpu (Taking.ReturnHand order tree hand)) trees.old }
{
    let said = entries::add_count(trees, shape.size, tree, hand);
    lending::given_answer(calls::get(cpu, Taking::LookAgain { order, tree }), said)
}

// Rules 2 and 4: the hand to the tree's count, and r is cleared.
pub fn unreserve(
    trees: &mut [u16],
    shape: Shape,
    cpu: u8,
    order: Order,
    place: Place,
    hand: u16,
) -> Answer
    ensures { outcome result trees.new ≡ in_trees (shape_of shape) (take (shape_of shape) cpu (Taking.Unreserve order place hand)) trees.old }
{
    let said = entries::unreserve(trees, shape.size, place.tree(), hand);
    lending::given_answer(calls::get(cpu, shape.after_place(cpu, order, place)), said)
}

// Rule 7: the failed claim to the tree's count.
pub fn fail(trees: &mut [u16], shape: Shape, cpu: u8, order: Order, place: Place) -> Answer
    ensures { outcome result trees.new ≡ in_trees (shape_of shape) (take (shape_of shape) cpu (Taking.Fail order place)) trees.old }
{
    let said = entries::add_count(trees, shape.size, place.tree(), order.frames());
    lending::given_answer(calls::get(cpu, Taking::Release { order, place }), said)
}

fn try_answer(
    shape: Shape,
    cpu: u8,
    order: Order,
    pass: Pass,
    said: Result<Option<u16>, Fault>,
) -> Answer
    ensures { result ≡ try_answer (shape_of shape) cpu order pass said }
{
    match said {
        Ok(Some(hand)) => calls::get(
            cpu,
            Taking::Write {
                order,
                found: Found::Pass(pass),
                hand,
            },
        ),
        Ok(None) => calls::get(cpu, shape.after_pass(cpu, order, pass)),
        Err(fault) => Answer::from(fault),
    }
}

// Rule 3: one tree of a pass.
pub fn try_tree(trees: &mut [u16], shape: Shape, cpu: u8, order: Order, pass: Pass) -> Answer
    ensures { outcome result trees.new ≡ in_trees (shape_of shape) (take (shape_of shape) cpu (Taking.Try order pass)) trees.old }
{
    let said = entries::reserve(trees, shape.size, pass, order.frames());
    try_answer(shape, cpu, order, pass, said)
}

fn steal_count_answer(
    shape: Shape,
    cpu: u8,
    order: Order,
    from: u8,
    tree: Tree,
    said: Result<u16, Fault>,
) -> Answer
    ensures { result ≡ steal_count_answer (shape_of shape) cpu order from tree said }
{
    match said {
        Ok(hand) => {
            let found = Found::Steal { from, tree };
            if hand < order.frames() {
                return calls::get(
                    cpu,
                    Taking::Unreserve {
                        order,
                        place: Place::Found(found),
                        hand,
                    },
                );
            }
            calls::get(cpu, Taking::Write { order, found, hand })
        }
        Err(fault) => Answer::from(fault),
    }
}

// Rule 4: the tree's count is added to the hand.
pub fn steal_count(
    trees: &mut [u16],
    shape: Shape,
    cpu: u8,
    order: Order,
    from: u8,
    tree: Tree,
    hand: u16,
) -> Answer
    ensures { outcome result trees.new ≡ in_trees (shape_of shape) (take (shape_of shape) cpu (Taking.StealCount order from tree hand)) trees.old }
{
    let said = entries::take_with(trees, shape.size, tree, hand);
    steal_count_answer(shape, cpu, order, from, tree, said)
}

// Giving back: the block to its tree's count.
pub fn to_tree(trees: &mut [u16], shape: Shape, cpu: u8, block: Block) -> Answer
    ensures { outcome result trees.new ≡ ranged (shape_of shape) block (in_trees (shape_of shape) (give (shape_of shape) cpu (Giving.ToTree block))) trees.old }
{
    match shape.block_at(block) {
        None => Answer::BadRecord,
        Some(at) => {
            let said = entries::add_count(trees, shape.size, at.tree, block.frames());
            lending::given_answer(Answer::Done(block.first()), said)
        }
    }
}
