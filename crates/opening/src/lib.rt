// Open: header running; where it was running, each child recounted; then trees get the sum of their children's counts, and CPUs become absent.
// One store a step; the first makes all checks. Words and children are read and stored by the lower level alone.
#![tactic(auto)]

ghost use Rattle.std.specs.Prelude.{◌≡◌, [], ◌*◌, ◌-◌, ◌<◌, max, length, Ok};
ghost use Rattle.laws.specs.Tests.{Passes};
ghost use Rattle.laws.specs.Tables.{outcome};
ghost use Rattle.rules.specs.Numbers.{child_words, trees_of};
ghost use Rattle.rules.specs.Ranges.{opening_in};
ghost use Rattle.rules.specs.Open.{open_zone, open_step};
ghost use Rattle.rules.specs.Step.{follow};
ghost use Rattle.entries.specs.Sizes.{huge_of};
ghost use Rattle.places.specs.Shapes.{shape_of};
ghost use Rattle.calls.specs.Results.{zone, result_of, done, ran_to, checked, Fits, WentOn};
ghost use Rattle.opening.specs.Opens.{openable_in, start_in, open_at};

use calls::{Ended, Way};
use entries::{Size, Zoned};
use places::Shape;
use rules::{Answer, Frame, Huge, Opening, Record, Tree};

// What open refuses first: 8 for the header slice, 9, 8. A zone that the header says is running was cut off.
fn check(
    header: &[u64],
    words: usize,
    children: usize,
    trees: usize,
    cpus: usize,
) -> Result<Zoned, Answer>
    ensures { result ≡ openable_in header.now words children trees cpus }
{
    let zoned = entries::zone_says(header)?;
    let size = match zoned {
        Zoned::Running(size) => size,
        Zoned::Clean(size) => size,
    };
    if size.lengths_fit(words, children, trees, cpus) {
        return Ok(zoned);
    }
    Err(Answer::BadBuffers)
}

fn opening(stage: Opening) -> Answer
    ensures { result ≡ Answer.UnderWay (Record.Open stage) }
{
    Answer::UnderWay(Record::Open(stage))
}

// The header says running before anything else is stored.
fn start(header: &mut [u64], size: Size, stage: Opening) -> Answer
    ensures { outcome result header.new ≡ start_in size stage header.old }
{
    match entries::store_running(header, size) {
        Ok(()) => opening(stage),
        Err(_) => Answer::BadBuffers,
    }
}

// Open's first step: 8 for the header slice, 9, 8, 12. With marker clean the words aren't read.
pub fn open(
    header: &mut [u64],
    words: &[u64],
    children: &[u16],
    trees: &[u16],
    cpus: &[u64],
) -> Answer
    ensures { result_of result (zone header.new words.now children.now trees.now cpus.now) ≡ done (zone header.old words.now children.now trees.now cpus.now) (open_zone (zone header.old words.now children.now trees.now cpus.now)) }
{
    match check(header, words.len(), children.len(), trees.len(), cpus.len()) {
        Err(answer) => answer,
        Ok(Zoned::Running(size)) => {
            if !looks::children_formed(children) {
                return Answer::Damaged;
            }
            if !looks::flags_empty(children, words) {
                return Answer::Damaged;
            }
            start(header, size, Opening::Children(Huge(0)))
        }
        Ok(Zoned::Clean(size)) => {
            if !looks::children_formed(children) {
                return Answer::Damaged;
            }
            start(header, size, Opening::Trees(Tree(0)))
        }
    }
}

// ---- later steps

// A child with a clear gets the count of zero bits in its field; one with a set is stored as it stands.
fn recount(words: &[u64], children: &mut [u16], shape: Shape, huge: Huge) -> Answer
    requires { (child_words * huge_of shape.size ≡ length words.now) × (huge_of shape.size ≡ length children.old) × (huge.0 < huge_of shape.size) }
    ensures { result_of result (zone [] words.now children.new [] []) ≡ done (zone [] words.now children.old [] []) (open_at (shape_of shape) (zone [] words.now children.old [] []) (Opening.Children huge)) }
{
    match lower::store_recount(children, words, huge.0 as usize) {
        Ok(()) => {
            if huge.0 + 1 < shape.size.huge_frames() {
                return opening(Opening::Children(Huge(huge.0 + 1)));
            }
            opening(Opening::Trees(Tree(0)))
        }
        Err(fault) => Answer::from(fault),
    }
}

// A tree gets the sum of its children's counts, with r clear.
fn add_up(children: &[u16], trees: &mut [u16], shape: Shape, tree: Tree) -> Answer
    requires { (huge_of shape.size ≡ length children.now) × (trees_of (shape_of shape) ≡ length trees.old) × (tree.0 < trees_of (shape_of shape)) }
    ensures { result_of result (zone [] [] children.now trees.new []) ≡ done (zone [] [] children.now trees.old []) (open_at (shape_of shape) (zone [] [] children.now trees.old []) (Opening.Trees tree)) }
{
    if !looks::part_formed(children, shape, tree) {
        return Answer::Damaged;
    }
    match entries::store_count(
        trees,
        shape.size,
        tree,
        looks::child_count(children, shape, tree),
    ) {
        Ok(()) => {
            if tree.0 + 1 < shape.size.trees() {
                return opening(Opening::Trees(Tree(tree.0 + 1)));
            }
            opening(Opening::Cpus(0))
        }
        Err(fault) => Answer::from(fault),
    }
}

// A CPU becomes absent; the last one ends the open.
fn forget(cpus: &mut [u64], shape: Shape, cpu: u8) -> Answer
    requires { (shape.cpus ≡ length cpus.old) × (cpu < shape.cpus) × (shape.cpus < 255) }
    ensures { result_of result (zone [] [] [] [] cpus.new) ≡ done (zone [] [] [] [] cpus.old) (open_at (shape_of shape) (zone [] [] [] [] cpus.old) (Opening.Cpus cpu)) }
{
    match cpu_entries::store_absent(cpus, cpu as usize) {
        Ok(()) => {
            if cpu + 1 < shape.cpus {
                return opening(Opening::Cpus(cpu + 1));
            }
            Answer::Done(Frame(0))
        }
        Err(fault) => Answer::from(fault),
    }
}

fn open_stage(
    words: &[u64],
    children: &mut [u16],
    trees: &mut [u16],
    cpus: &mut [u64],
    shape: Shape,
    stage: Opening,
) -> Answer
    requires { Fits shape words.now children.old trees.old cpus.old × Passes (opening_in (shape_of shape) stage) }
    ensures { result_of result (zone [] words.now children.new trees.new cpus.new) ≡ done (zone [] words.now children.old trees.old cpus.old) (open_at (shape_of shape) (zone [] words.now children.old trees.old cpus.old) stage) }
{
    match stage {
        Opening::Children(huge) => recount(words, children, shape, huge),
        Opening::Trees(tree) => add_up(children, trees, shape, tree),
        Opening::Cpus(cpu) => forget(cpus, shape, cpu),
    }
}

// A later step of open: 8 for the header slice, 9, 10, 8, 11, 12. A child's step reads its field, a tree's step that tree's children.
pub fn open_step(
    header: &[u64],
    words: &[u64],
    children: &mut [u16],
    trees: &mut [u16],
    cpus: &mut [u64],
    rec: Record,
) -> Answer
    ensures { result_of result (zone header.now words.now children.new trees.new cpus.new) ≡ done (zone header.now words.now children.old trees.old cpus.old) (open_step (zone header.now words.now children.old trees.old cpus.old) rec) }
{
    match calls::check(header, words.len(), children.len(), trees.len(), cpus.len()) {
        Err(answer) => answer,
        Ok(shape) => match rec {
            Record::Finished => Answer::BadRecord,
            Record::Get { cpu: _, stage: _ } => Answer::BadRecord,
            Record::Put { cpu: _, stage: _ } => Answer::BadRecord,
            Record::Create(_) => Answer::BadRecord,
            Record::Open(stage) => {
                if shape.opening_in(stage) {
                    return open_stage(words, children, trees, cpus, shape, stage);
                }
                Answer::BadRecord
            }
        },
    }
}

// ---- runs

// The children from `first` on are recounted, up to `fuel` steps; then come the trees. The checks were made.
fn recount_on(
    header: &[u64],
    words: &[u64],
    children: &mut [u16],
    trees: &[u16],
    cpus: &[u64],
    shape: Shape,
    first: Huge,
    fuel: u64,
) -> Way
    requires { (checked header.now (length words.now) (length children.old) (length trees.now) (length cpus.now) ≡ Ok shape) × (first.0 < huge_of shape.size) }
    ensures { WentOn open_step fuel 0 (Record.Open (Opening.Children first)) result (zone header.now words.now children.new trees.now cpus.now) (zone header.now words.now children.old trees.now cpus.now) }
{
    let huge = shape.size.huge_frames();
    let mut at = first.0;
    for steps in 0..fuel {
        if let Err(fault) = lower::store_recount(children, words, at as usize) {
            return calls::way_of(Answer::from(fault), steps + 1);
        }
        at += 1;
        if at == huge {
            return Way::Goes {
                rec: Record::Open(Opening::Trees(Tree(0))),
                steps: steps + 1,
            };
        }
    }
    Way::Goes {
        rec: Record::Open(Opening::Children(Huge(at))),
        steps: fuel,
    }
}

// A record at a child goes on with all that follow; every other is left to the steps.
fn way(
    header: &[u64],
    words: &[u64],
    children: &mut [u16],
    trees: &[u16],
    cpus: &[u64],
    rec: Record,
    fuel: u64,
) -> Way
    ensures { WentOn open_step fuel 0 rec result (zone header.now words.now children.new trees.now cpus.now) (zone header.now words.now children.old trees.now cpus.now) }
{
    if let Record::Open(Opening::Children(first)) = rec {
        if let Ok(shape) = calls::check(
            header,
            words.len(),
            children.len(),
            trees.len(),
            cpus.len(),
        ) {
            if first.0 < shape.size.huge_frames() {
                return recount_on(header, words, children, trees, cpus, shape, first, fuel);
            }
        }
    }
    Way::Goes { rec, steps: 0 }
}

// The steps that are left of `fuel` after the first `made`.
fn step_on(
    header: &[u64],
    words: &[u64],
    children: &mut [u16],
    trees: &mut [u16],
    cpus: &mut [u64],
    rec: Record,
    made: u64,
    fuel: u64,
) -> Ended
    ensures { ran_to result (zone header.now words.now children.new trees.new cpus.new) ≡ follow open_step (fuel - made) made (Answer.UnderWay rec) (zone header.now words.now children.old trees.old cpus.old) }
{
    let mut step = |at: Record| open_step(header, words, children, trees, cpus, at);
    calls::follow(&mut step, rec, made, fuel)
}

// Up to `fuel` later steps of open in one call, one at least, counted. Out of steps it answers 1 with the record. A refused step stores nothing: the tables are
// those after the last good step. For memory without cuts: a cut is admitted between calls only, and memory that survives one is driven by single steps.
pub fn run(
    header: &[u64],
    words: &[u64],
    children: &mut [u16],
    trees: &mut [u16],
    cpus: &mut [u64],
    rec: Record,
    fuel: u64,
) -> Ended
    ensures { ran_to result (zone header.now words.now children.new trees.new cpus.new) ≡ follow open_step (max 1 fuel) 0 (Answer.UnderWay rec) (zone header.now words.now children.old trees.old cpus.old) }
{
    let most = calls::at_least_one(fuel);
    match way(header, words, children, trees, cpus, rec, most) {
        Way::Ends(ended) => ended,
        Way::Goes { rec: next, steps } => step_on(
            header, words, children, trees, cpus, next, steps, most,
        ),
    }
}
