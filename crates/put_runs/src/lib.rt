// A put from its first stage on, in one call: the clearing store, the child's count, the own entry or the tree.
// A function answers where the put stands after the stages that it made; no answer and no record is made between the stages.
#![tactic(auto)]

ghost use Rattle.std.specs.Prelude.{◌≡◌, ◌+◌, ◌<◌};
ghost use Rattle.rules.specs.Begin.{begin_put};
ghost use Rattle.rules.specs.Step.{step, follow};
ghost use Rattle.calls.specs.Results.{zone, Opened, went_to, WentOn};
ghost use Rattle.put_runs.specs.Stands.{steps_to_entry, ends_with, way_at, LiesAt, LiesIn};

use calls::{Ended, Way};
use places::Shape;
use rules::{Answer, Block, Frame, Giving, Huge, Record, Run, Tree};

const CHILD_FRAMES: u64 = 512;

const WORD_BITS: u64 = 64;

// Where a put stands: before a stage, or at its end, the block counted in the own entry or in its tree. Before a stage that is refused it stands still: a
// refusal stores nothing, and the single step answers it.
#[derive(Clone, Copy)]
enum At {
    Clear,
    Raise,
    ToEntry,
    ToTree,
    InEntry,
    InTree,
}

// The steps that lead to the entry: two for a run, one for a huge frame.
fn steps_to_entry(block: Block) -> u64
    ensures { result ≡ steps_to_entry block }
{
    match block {
        Block::Run { run: _, first: _ } => 2,
        Block::Whole(_) => 1,
    }
}

fn goes(cpu: u8, stage: Giving, steps: u64) -> Way
    ensures { result ≡ Way.Goes (Record.Put cpu stage) steps }
{
    Way::Goes {
        rec: Record::Put { cpu, stage },
        steps,
    }
}

fn ends(block: Block, steps: u64) -> Way
    ensures { result ≡ ends_with block steps }
{
    Way::Ends(Ended {
        answer: Answer::Done(block.first()),
        steps,
    })
}

// How the run of a put goes on that stands so.
fn way_at(cpu: u8, block: Block, at: At) -> Way
    ensures { result ≡ way_at cpu block at }
{
    let entry = steps_to_entry(block);
    match at {
        At::Clear => goes(cpu, Giving::Clear(block), 0),
        At::Raise => match block {
            Block::Run { run, first } => goes(cpu, Giving::Raise { run, first }, 1),
            Block::Whole(_) => goes(cpu, Giving::ToEntry(block), 1),
        },
        At::ToEntry => goes(cpu, Giving::ToEntry(block), entry),
        At::ToTree => goes(cpu, Giving::ToTree(block), entry + 1),
        At::InEntry => ends(block, entry + 1),
        At::InTree => ends(block, entry + 2),
    }
}

// The tree's count.
fn tree_on(
    header: &[u64],
    words: &[u64],
    children: &[u16],
    trees: &mut [u16],
    cpus: &[u64],
    shape: Shape,
    cpu: u8,
    block: Block,
    tree: Tree,
    steps: u64,
    fuel: u64,
) -> At
    requires { Opened shape cpu header.now words.now children.now trees.old cpus.now × (steps ≡ steps_to_entry block + 1) × LiesIn shape block tree }
    ensures { WentOn step fuel steps (Record.Put cpu (Giving.ToTree block)) (way_at cpu block result) (zone header.now words.now children.now trees.new cpus.now) (zone header.now words.now children.now trees.old cpus.now) }
{
    if fuel <= steps {
        return At::ToTree;
    }
    match entries::add_count(trees, shape.size, tree, block.frames()) {
        Ok(()) => At::InTree,
        Err(_) => At::ToTree,
    }
}

// The own entry, if it holds the block's tree; else the tree.
fn entry_on(
    header: &[u64],
    words: &[u64],
    children: &[u16],
    trees: &mut [u16],
    cpus: &mut [u64],
    shape: Shape,
    cpu: u8,
    block: Block,
    tree: Tree,
    steps: u64,
    fuel: u64,
) -> At
    requires { Opened shape cpu header.now words.now children.now trees.old cpus.old × (steps ≡ steps_to_entry block) × LiesIn shape block tree }
    ensures { WentOn step fuel steps (Record.Put cpu (Giving.ToEntry block)) (way_at cpu block result) (zone header.now words.now children.now trees.new cpus.new) (zone header.now words.now children.now trees.old cpus.old) }
{
    if fuel <= steps {
        return At::ToEntry;
    }
    match cpu_entries::add_own(cpus, shape.size, cpu as usize, tree, block.frames()) {
        Ok(true) => At::InEntry,
        Ok(false) => tree_on(
            header,
            words,
            children,
            trees,
            cpus,
            shape,
            cpu,
            block,
            tree,
            steps + 1,
            fuel,
        ),
        Err(_) => At::ToEntry,
    }
}

// The child's count.
fn raise_on(
    header: &[u64],
    words: &[u64],
    children: &mut [u16],
    trees: &[u16],
    cpus: &[u64],
    shape: Shape,
    cpu: u8,
    run: Run,
    first: Frame,
    tree: Tree,
    child: u8,
    fuel: u64,
) -> At
    requires { Opened shape cpu header.now words.now children.old trees.now cpus.now × LiesAt shape (Block.Run run first) tree child }
    ensures { WentOn step fuel 1 (Record.Put cpu (Giving.Raise run first)) (way_at cpu (Block.Run run first) result) (zone header.now words.now children.new trees.now cpus.now) (zone header.now words.now children.old trees.now cpus.now) }
{
    if fuel <= 1 {
        return At::Raise;
    }
    match child_stages::give_count(children, shape, tree, child, run.frames()) {
        Ok(()) => At::ToEntry,
        Err(_) => At::Raise,
    }
}

// The clearing store of a run.
fn clear_on(
    header: &[u64],
    words: &mut [u64],
    children: &mut [u16],
    trees: &[u16],
    cpus: &[u64],
    shape: Shape,
    cpu: u8,
    run: Run,
    first: Frame,
    tree: Tree,
    child: u8,
    fuel: u64,
) -> At
    requires { Opened shape cpu header.now words.old children.old trees.now cpus.now × (0 < fuel) × LiesAt shape (Block.Run run first) tree child }
    ensures { WentOn step fuel 0 (Record.Put cpu (Giving.Clear (Block.Run run first))) (way_at cpu (Block.Run run first) result) (zone header.now words.new children.new trees.now cpus.now) (zone header.now words.old children.old trees.now cpus.now) }
{
    let word = (first.0 % CHILD_FRAMES / WORD_BITS) as usize;
    let bit = (first.0 % WORD_BITS) as u32;
    match word_stages::clear_run(words, shape, tree, child, word, bit, run) {
        Ok(()) => raise_on(
            header, words, children, trees, cpus, shape, cpu, run, first, tree, child, fuel,
        ),
        Err(_) => At::Clear,
    }
}

// The clearing store of a huge frame.
fn whole_on(
    header: &[u64],
    words: &[u64],
    children: &mut [u16],
    trees: &[u16],
    cpus: &[u64],
    shape: Shape,
    cpu: u8,
    huge: Huge,
    tree: Tree,
    child: u8,
    fuel: u64,
) -> At
    requires { Opened shape cpu header.now words.now children.old trees.now cpus.now × (0 < fuel) × LiesAt shape (Block.Whole huge) tree child }
    ensures { WentOn step fuel 0 (Record.Put cpu (Giving.Clear (Block.Whole huge))) (way_at cpu (Block.Whole huge) result) (zone header.now words.now children.new trees.now cpus.now) (zone header.now words.now children.old trees.now cpus.now) }
{
    match child_stages::clear_huge(children, shape, tree, child) {
        Ok(()) => At::ToEntry,
        Err(_) => At::Clear,
    }
}

// The steps before the entry's, where one is left: the clearing store, and a run's count.
fn cleared_on(
    header: &[u64],
    words: &mut [u64],
    children: &mut [u16],
    trees: &[u16],
    cpus: &[u64],
    shape: Shape,
    cpu: u8,
    block: Block,
    tree: Tree,
    child: u8,
    fuel: u64,
) -> At
    requires { Opened shape cpu header.now words.old children.old trees.now cpus.now × (0 < fuel) × LiesAt shape block tree child }
    ensures { WentOn step fuel 0 (Record.Put cpu (Giving.Clear block)) (way_at cpu block result) (zone header.now words.new children.new trees.now cpus.now) (zone header.now words.old children.old trees.now cpus.now) }
{
    match block {
        Block::Run { run, first } => clear_on(
            header, words, children, trees, cpus, shape, cpu, run, first, tree, child, fuel,
        ),
        Block::Whole(huge) => whole_on(
            header, words, children, trees, cpus, shape, cpu, huge, tree, child, fuel,
        ),
    }
}

// A put from its clearing store on.
fn block_on(
    header: &[u64],
    words: &mut [u64],
    children: &mut [u16],
    trees: &mut [u16],
    cpus: &mut [u64],
    shape: Shape,
    cpu: u8,
    block: Block,
    fuel: u64,
) -> At
    requires { Opened shape cpu header.now words.old children.old trees.old cpus.old }
    ensures { WentOn step fuel 0 (Record.Put cpu (Giving.Clear block)) (way_at cpu block result) (zone header.now words.new children.new trees.new cpus.new) (zone header.now words.old children.old trees.old cpus.old) }
{
    if fuel == 0 {
        return At::Clear;
    }
    let Some(lies) = shape.block_at(block) else {
        return At::Clear;
    };
    let at = cleared_on(
        header, words, children, trees, cpus, shape, cpu, block, lies.tree, lies.child, fuel,
    );
    if let At::ToEntry = at {
        return entry_on(
            header,
            words,
            children,
            trees,
            cpus,
            shape,
            cpu,
            block,
            lies.tree,
            steps_to_entry(block),
            fuel,
        );
    }
    at
}

// Up to `fuel` steps of a put that begins: each as a single step makes it, the checks of the zone and the CPU made once.
pub fn put_on(
    header: &[u64],
    words: &mut [u64],
    children: &mut [u16],
    trees: &mut [u16],
    cpus: &mut [u64],
    cpu: u8,
    block: Block,
    fuel: u64,
) -> Way
    ensures { WentOn step fuel 0 (Record.Put cpu (Giving.Clear block)) result (zone header.now words.new children.new trees.new cpus.new) (zone header.now words.old children.old trees.old cpus.old) }
{
    let rec = Record::Put {
        cpu,
        stage: Giving::Clear(block),
    };
    if fuel == 0 {
        return Way::Goes { rec, steps: 0 };
    }
    match calls::check(header, words.len(), children.len(), trees.len(), cpus.len()) {
        Err(answer) => calls::way_of(answer, 1),
        Ok(shape) => {
            if shape.cpus <= cpu {
                return calls::way_of(Answer::BadRecord, 1);
            }
            let at = block_on(
                header, words, children, trees, cpus, shape, cpu, block, fuel,
            );
            way_at(cpu, block, at)
        }
    }
}

// A put begun and run: its checks, then up to `fuel` steps as above.
pub fn put_run(
    header: &[u64],
    words: &mut [u64],
    children: &mut [u16],
    trees: &mut [u16],
    cpus: &mut [u64],
    cpu: u64,
    frame: Frame,
    order: u64,
    fuel: u64,
) -> Way
    ensures { went_to step fuel result (zone header.now words.new children.new trees.new cpus.new) ≡ follow step fuel 0 (begin_put (zone header.now words.old children.old trees.old cpus.old) cpu frame order).answer (zone header.now words.old children.old trees.old cpus.old) }
{
    match begins::put_of(header, words, children, trees, cpus, cpu, frame, order) {
        Err(answer) => calls::way_of(answer, 0),
        Ok(put) => {
            let at = block_on(
                header, words, children, trees, cpus, put.shape, put.cpu, put.block, fuel,
            );
            way_at(put.cpu, put.block, at)
        }
    }
}
