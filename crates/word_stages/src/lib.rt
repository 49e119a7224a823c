// The stages of a get and a put on words. One tree's part of the table is lent to the lower level, which alone reads and stores it.
// A number that the table has not is answered 11.
#![tactic(auto)]

ghost use Rattle.std.specs.Prelude.{◌≡◌, Err};
ghost use Rattle.std.specs.Fn.{FnOnceReturnsAtMut};
ghost use Rattle.laws.specs.Tables.{outcome};
ghost use Rattle.rules.specs.Blocks.{run_size, frame_at};
ghost use Rattle.rules.specs.Take.{take};
ghost use Rattle.rules.specs.Give.{give};
ghost use Rattle.lower.specs.Steps.{take_run_in, clear_run_in};
ghost use Rattle.places.specs.Shapes.{shape_of, ranged};
ghost use Rattle.word_stages.specs.Tables.{lent_words, LentTo, in_words, eighth};
ghost use Rattle.word_stages.specs.Answers.{word_answer};

use places::Shape;
use rules::{Answer, Block, Fault, Frame, Giving, Place, Run, Taking, Tree};

const CHILD_FRAMES: u64 = 512;

const CHILD_WORDS: usize = 8;

const WORD_BITS: u64 = 64;

const LAST_WORD: u8 = 7;

const TREE_CHILDREN: usize = 32;

// ---- a tree's part, lent

// The words of a tree's children, lent to f. Refuses a table that has them not.
fn lent<R, F: FnOnce(&mut [u64]) -> Result<R, Fault>>(
    words: &mut [u64],
    shape: Shape,
    tree: Tree,
    f: F,
) -> Result<R, Fault>
    requires { F.IsAlwaysCallable f }
    ensures { LentTo (shape_of shape) tree (Err Fault.NoChild) (FnOnceReturnsAtMut F.FnOnce f) words.old (outcome result words.new) }
{
    let first = CHILD_WORDS * (tree.0 as usize * TREE_CHILDREN);
    let end = first + CHILD_WORDS * shape.size.children_of(tree) as usize;
    if words.len() < end {
        return Err(Fault::NoChild);
    }
    f(&mut words[first..end])
}

pub fn take_run(
    words: &mut [u64],
    shape: Shape,
    tree: Tree,
    child: u8,
    word: u8,
    run: Run,
) -> Result<Option<u8>, Fault>
    ensures { outcome result words.new ≡ lent_words (shape_of shape) tree (Err Fault.NoChild) (λ l. take_run_in (run_size run) l child word) words.old }
{
    lent(
        words,
        shape,
        tree,
        |part| lower::take_run(part, child as usize, word as usize, run),
    )
}

pub fn clear_run(
    words: &mut [u64],
    shape: Shape,
    tree: Tree,
    child: u8,
    word: usize,
    bit: u32,
    run: Run,
) -> Result<(), Fault>
    ensures { outcome result words.new ≡ lent_words (shape_of shape) tree (Err Fault.NoChild) (λ l. clear_run_in (run_size run) l child word bit) words.old }
{
    lent(
        words,
        shape,
        tree,
        |part| lower::clear_run(part, child as usize, word, bit, run),
    )
}

// ---- answers

pub fn frame_at(shape: Shape, tree: Tree, child: u8, word: u8, bit: u8) -> Frame
    ensures { result ≡ frame_at (shape_of shape) tree child word bit }
{
    let huge = tree.0 as u64 * 32 + child as u64;
    Frame(huge * CHILD_FRAMES + word as u64 * WORD_BITS + bit as u64)
}

fn word_answer(
    shape: Shape,
    cpu: u8,
    run: Run,
    place: Place,
    start: u8,
    child: u8,
    word: u8,
    said: Result<Option<u8>, Fault>,
) -> Answer
    ensures { result ≡ word_answer (shape_of shape) cpu run place start child word said }
{
    match said {
        Ok(Some(bit)) => calls::get(
            cpu,
            Taking::Last(Block::Run {
                run,
                first: frame_at(shape, place.tree(), child, word, bit),
            }),
        ),
        Ok(None) if word < LAST_WORD => calls::get(
            cpu,
            Taking::Word {
                run,
                place,
                start,
                child,
                word: word + 1,
            },
        ),
        Ok(None) => calls::get(
            cpu,
            Taking::GiveBack {
                run,
                place,
                start,
                child,
            },
        ),
        Err(fault) => Answer::from(fault),
    }
}

// ---- rule 5: the search

// One word of a child.
pub fn word(
    words: &mut [u64],
    shape: Shape,
    cpu: u8,
    run: Run,
    place: Place,
    start: u8,
    child: u8,
    word: u8,
) -> Answer
    ensures { outcome result words.new ≡ eighth word (in_words (shape_of shape) (take (shape_of shape) cpu (Taking.Word run place start child word))) words.old }
{
    let said = take_run(words, shape, place.tree(), child, word, run);
    word_answer(shape, cpu, run, place, start, child, word, said)
}

// ---- giving back

// The clearing store of a run.
pub fn clear(words: &mut [u64], shape: Shape, cpu: u8, run: Run, first: Frame) -> Answer
    ensures { outcome result words.new ≡ ranged (shape_of shape) (Block.Run run first) (in_words (shape_of shape) (give (shape_of shape) cpu (Giving.Clear (Block.Run run first)))) words.old }
{
    match shape.block_at(Block::Run { run, first }) {
        None => Answer::BadRecord,
        Some(at) => {
            let word = (first.0 % CHILD_FRAMES / WORD_BITS) as usize;
            let bit = (first.0 % WORD_BITS) as u32;
            let said = clear_run(words, shape, at.tree, at.child, word, bit, run);
            lending::given_answer(calls::put(cpu, Giving::Raise { run, first }), said)
        }
    }
}
