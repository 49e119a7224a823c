// Create: header 0; words, children, trees, CPUs ascending; header running last. One store a step. Until the last one the header says that this is no zone.
#![tactic(auto)]

ghost use Rattle.std.specs.Prelude.{◌≡◌, [], ◌*◌, ◌<◌, max, length};
ghost use Rattle.laws.specs.Tests.{Passes};
ghost use Rattle.rules.specs.Numbers.{child_words, trees_of};
ghost use Rattle.entries.specs.Sizes.{huge_of};
ghost use Rattle.rules.specs.Ranges.{creating_in};
ghost use Rattle.rules.specs.Create.{create_zone, create_stage, create_step};
ghost use Rattle.rules.specs.Step.{follow};
ghost use Rattle.places.specs.Shapes.{shape_of};
ghost use Rattle.calls.specs.Results.{zone, result_of, done, ran_to, Fits};
ghost use Rattle.creating.specs.Creates.{creatable_in};

use calls::Ended;
use entries::Size;
use places::Shape;
use rules::{Answer, Creating, Frame, Huge, Record, Tree};

const CHILD_WORDS: u32 = 8;

const MOST_HUGE: u64 = 65536;

// What every step of create refuses first: 14, then 8 for the header slice and 8.
fn creatable(
    huge: u64,
    header: usize,
    words: usize,
    children: usize,
    trees: usize,
    cpus: usize,
) -> Result<Shape, Answer>
    ensures { result ≡ creatable_in huge header words children trees cpus }
{
    if !(1..=MOST_HUGE).contains(&huge) {
        return Err(Answer::BadSize);
    }
    if header != 1 {
        return Err(Answer::BadBuffers);
    }
    let size = Size((huge - 1) as u16);
    if size.lengths_fit(words, children, trees, cpus) {
        return Ok(Shape {
            size,
            cpus: cpus as u8,
        });
    }
    Err(Answer::BadBuffers)
}

// ---- the first step

// Create's first step: 14, 8; then the header says that this is no zone.
pub fn create(
    header: &mut [u64],
    words: &[u64],
    children: &[u16],
    trees: &[u16],
    cpus: &[u64],
    huge: u64,
) -> Answer
    ensures { result_of result (zone header.new words.now children.now trees.now cpus.now) ≡ done (zone header.old words.now children.now trees.now cpus.now) (create_zone huge (zone header.old words.now children.now trees.now cpus.now)) }
{
    match creatable(
        huge,
        header.len(),
        words.len(),
        children.len(),
        trees.len(),
        cpus.len(),
    ) {
        Err(answer) => answer,
        Ok(_) => match entries::store_unborn(header) {
            Ok(()) => creating(Creating::Words(0)),
            Err(_) => Answer::BadBuffers,
        },
    }
}

fn creating(stage: Creating) -> Answer
    ensures { result ≡ Answer.UnderWay (Record.Create stage) }
{
    Answer::UnderWay(Record::Create(stage))
}

// ---- later steps

// A word of all free frames.
fn fresh_word(words: &mut [u64], shape: Shape, at: u32) -> Answer
    requires { (child_words * huge_of shape.size ≡ length words.old) × (at < child_words * huge_of shape.size) }
    ensures { result_of result (zone [] words.new [] [] []) ≡ done (zone [] words.old [] [] []) (create_stage (shape_of shape) (Creating.Words at)) }
{
    match lower::store_fresh_word(words, at as usize) {
        Ok(()) => {
            if at + 1 < CHILD_WORDS * shape.size.huge_frames() {
                return creating(Creating::Words(at + 1));
            }
            creating(Creating::Children(Huge(0)))
        }
        Err(fault) => Answer::from(fault),
    }
}

// A child of all free frames.
fn fresh_child(children: &mut [u16], shape: Shape, huge: Huge) -> Answer
    requires { (huge_of shape.size ≡ length children.old) × (huge.0 < huge_of shape.size) }
    ensures { result_of result (zone [] [] children.new [] []) ≡ done (zone [] [] children.old [] []) (create_stage (shape_of shape) (Creating.Children huge)) }
{
    match lower::store_fresh_child(children, huge.0 as usize) {
        Ok(()) => {
            if huge.0 + 1 < shape.size.huge_frames() {
                return creating(Creating::Children(Huge(huge.0 + 1)));
            }
            creating(Creating::Trees(Tree(0)))
        }
        Err(fault) => Answer::from(fault),
    }
}

// A tree with its capacity as its count.
fn fresh_tree(trees: &mut [u16], shape: Shape, tree: Tree) -> Answer
    requires { (trees_of (shape_of shape) ≡ length trees.old) × (tree.0 < trees_of (shape_of shape)) }
    ensures { result_of result (zone [] [] [] trees.new []) ≡ done (zone [] [] [] trees.old []) (create_stage (shape_of shape) (Creating.Trees tree)) }
{
    match entries::store_count(trees, shape.size, tree, shape.size.capacity_of(tree) as u32) {
        Ok(()) => {
            if tree.0 + 1 < shape.size.trees() {
                return creating(Creating::Trees(Tree(tree.0 + 1)));
            }
            creating(Creating::Cpus(0))
        }
        Err(fault) => Answer::from(fault),
    }
}

// A CPU without a tree.
fn fresh_cpu(cpus: &mut [u64], shape: Shape, cpu: u8) -> Answer
    requires { (shape.cpus ≡ length cpus.old) × (cpu < shape.cpus) × (shape.cpus < 255) }
    ensures { result_of result (zone [] [] [] [] cpus.new) ≡ done (zone [] [] [] [] cpus.old) (create_stage (shape_of shape) (Creating.Cpus cpu)) }
{
    match cpu_entries::store_absent(cpus, cpu as usize) {
        Ok(()) => {
            if cpu + 1 < shape.cpus {
                return creating(Creating::Cpus(cpu + 1));
            }
            creating(Creating::Header)
        }
        Err(fault) => Answer::from(fault),
    }
}

// The header at last: a zone.
fn born(header: &mut [u64], shape: Shape) -> Answer
    requires { length header.old ≡ 1 }
    ensures { result_of result (zone header.new [] [] [] []) ≡ done (zone header.old [] [] [] []) (create_stage (shape_of shape) Creating.Header) }
{
    match entries::store_running(header, shape.size) {
        Ok(()) => Answer::Done(Frame(0)),
        Err(_) => Answer::BadBuffers,
    }
}

fn create_stage(
    header: &mut [u64],
    words: &mut [u64],
    children: &mut [u16],
    trees: &mut [u16],
    cpus: &mut [u64],
    shape: Shape,
    stage: Creating,
) -> Answer
    requires { (length header.old ≡ 1) × Fits shape words.old children.old trees.old cpus.old × Passes (creating_in (shape_of shape) stage) }
    ensures { result_of result (zone header.new words.new children.new trees.new cpus.new) ≡ done (zone header.old words.old children.old trees.old cpus.old) (create_stage (shape_of shape) stage) }
{
    match stage {
        Creating::Words(at) => fresh_word(words, shape, at),
        Creating::Children(huge) => fresh_child(children, shape, huge),
        Creating::Trees(tree) => fresh_tree(trees, shape, tree),
        Creating::Cpus(cpu) => fresh_cpu(cpus, shape, cpu),
        Creating::Header => born(header, shape),
    }
}

// A later step of create: 14, 8, 11. The number of huge frames is given again (the record does not hold it).
pub fn create_step(
    header: &mut [u64],
    words: &mut [u64],
    children: &mut [u16],
    trees: &mut [u16],
    cpus: &mut [u64],
    huge: u64,
    rec: Record,
) -> Answer
    ensures { result_of result (zone header.new words.new children.new trees.new cpus.new) ≡ done (zone header.old words.old children.old trees.old cpus.old) (create_step huge (zone header.old words.old children.old trees.old cpus.old) rec) }
{
    match creatable(
        huge,
        header.len(),
        words.len(),
        children.len(),
        trees.len(),
        cpus.len(),
    ) {
        Err(answer) => answer,
        Ok(shape) => match rec {
            Record::Finished => Answer::BadRecord,
            Record::Get { cpu: _, stage: _ } => Answer::BadRecord,
            Record::Put { cpu: _, stage: _ } => Answer::BadRecord,
            Record::Create(stage) => {
                if shape.creating_in(stage) {
                    return create_stage(header, words, children, trees, cpus, shape, stage);
                }
                Answer::BadRecord
            }
            Record::Open(_) => Answer::BadRecord,
        },
    }
}

// ---- runs

// Up to `fuel` later steps of create in one call, one at least, counted. Out of steps it answers 1 with the record. A refused step stores nothing: the tables are
// those after the last good step. For memory without cuts: a cut is admitted between calls only, and memory that survives one is driven by single steps.
pub fn run(
    header: &mut [u64],
    words: &mut [u64],
    children: &mut [u16],
    trees: &mut [u16],
    cpus: &mut [u64],
    huge: u64,
    rec: Record,
    fuel: u64,
) -> Ended
    ensures { ran_to result (zone header.new words.new children.new trees.new cpus.new) ≡ follow (create_step huge) (max 1 fuel) 0 (Answer.UnderWay rec) (zone header.old words.old children.old trees.old cpus.old) }
{
    let mut step = |at: Record| create_step(header, words, children, trees, cpus, huge, at);
    calls::follow(&mut step, rec, 0, calls::at_least_one(fuel))
}
