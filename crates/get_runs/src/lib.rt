// A get from its first stage on, in one call: the own entry, the search of its tree, the last step. Where another stage follows, the record is handed back.
// A function answers where the get stands after the stages that it made; no answer and no record is made between the stages.
#![tactic(auto)]

ghost use Rattle.std.specs.Prelude.{◌≡◌};
ghost use Rattle.laws.specs.Tests.{Passes};
ghost use Rattle.laws.specs.Tables.{outcome};
ghost use Rattle.rules.specs.Ranges.{taking_in};
ghost use Rattle.rules.specs.Begin.{begin_get};
ghost use Rattle.rules.specs.Conversions.{frame};
ghost use Rattle.rules.specs.Step.{step, follow};
ghost use Rattle.places.specs.Shapes.{shape_of};
ghost use Rattle.calls.specs.Results.{zone, Opened, went_to, WentOn};
ghost use Rattle.child_stages.specs.Tables.{lent_children};
ghost use Rattle.get_runs.specs.Claims.{no_child, claims_in, claimed};
ghost use Rattle.get_runs.specs.Stands.{standing, block_of, way_left};

use calls::{Ended, Way};
use cpu_entries::Claimed;
use places::Shape;
use rules::{
    Answer, Block, Fault, Frame, Huge, Order, Pass, Place, Record, Run, Taking, Took, Tree,
};

const CHILD_WORDS: u8 = 8;

// Where a get stands: before a stage, or at its end.
#[derive(Clone, Copy)]
enum At {
    Own,
    Try,
    TakeCount,
    Child,
    Fail,
    Word,
    GiveBack,
    Last,
    Done,
}

// A get that stands there, with what the stages after it need; what a stage has no use for is 0. Before a stage that is refused it stands still: a refusal
// stores nothing, and the single step answers it. The fields fill their eight bytes and lie apart, so that a store of one is what a load of it reads.
#[derive(Clone, Copy)]
struct Left {
    at: At,
    start: u8,
    child: u8,
    word: u8,
    tree: Tree,
    order: Order,
    first: Frame,
    steps: u64,
}

fn stands(at: At, order: Order, tree: Tree, start: u8, child: u8, steps: u64) -> Left
    ensures { result ≡ standing at order tree start child 0 (frame 0) steps }
{
    Left {
        at,
        start,
        child,
        word: 0,
        tree,
        order,
        first: Frame(0),
        steps,
    }
}

fn at_word(order: Order, tree: Tree, start: u8, child: u8, word: u8, steps: u64) -> Left
    ensures { result ≡ standing At.Word order tree start child word (frame 0) steps }
{
    Left {
        at: At::Word,
        start,
        child,
        word,
        tree,
        order,
        first: Frame(0),
        steps,
    }
}

fn taken(at: At, order: Order, tree: Tree, child: u8, first: Frame, steps: u64) -> Left
    ensures { result ≡ standing at order tree 0 child 0 first steps }
{
    Left {
        at,
        start: 0,
        child,
        word: 0,
        tree,
        order,
        first,
        steps,
    }
}

// The block that was taken: a run by its first frame, a huge frame by its child.
fn block_of(order: Order, tree: Tree, child: u8, first: Frame) -> Block
    ensures { result ≡ block_of order tree child first }
{
    match order {
        Order::Run(run) => Block::Run { run, first },
        Order::Nine => Block::Whole(Huge(tree.0 as u32 * 32 + child as u32)),
    }
}

fn goes(cpu: u8, stage: Taking, steps: u64) -> Way
    ensures { result ≡ Way.Goes (Record.Get cpu stage) steps }
{
    Way::Goes {
        rec: Record::Get { cpu, stage },
        steps,
    }
}

// How the run of a get goes on that stands so. Compiled into its two callers: a call costs more instructions.
#[inline(always)]
fn way_left(cpu: u8, left: Left) -> Way
    ensures { result ≡ way_left cpu left }
{
    let order = left.order;
    let tree = left.tree;
    let place = Place::Own(tree);
    let start = left.start;
    let child = left.child;
    let first = left.first;
    let steps = left.steps;
    let at = left.at;
    match at {
        At::Own => goes(cpu, Taking::Own(order), steps),
        At::Try => {
            let pass = Pass::Partial(Tree(0));
            goes(cpu, Taking::Try { order, pass }, steps)
        }
        At::TakeCount => goes(cpu, Taking::TakeCount { order, tree }, steps),
        At::Child => {
            let stage = Taking::Child {
                order,
                place,
                start,
                child,
            };
            goes(cpu, stage, steps)
        }
        At::Fail => goes(cpu, Taking::Fail { order, place }, steps),
        At::Word => match order {
            Order::Run(run) => {
                let stage = Taking::Word {
                    run,
                    place,
                    start,
                    child,
                    word: left.word,
                };
                goes(cpu, stage, steps)
            }
            Order::Nine => goes(cpu, Taking::Own(order), steps),
        },
        At::GiveBack => match order {
            Order::Run(run) => {
                let stage = Taking::GiveBack {
                    run,
                    place,
                    start,
                    child,
                };
                goes(cpu, stage, steps)
            }
            Order::Nine => goes(cpu, Taking::Own(order), steps),
        },
        At::Last => {
            let block = block_of(order, tree, child, first);
            goes(cpu, Taking::Last(block), steps)
        }
        At::Done => Way::Ends(Ended {
            answer: Answer::Done(first),
            steps,
        }),
    }
}

// Rule 6. Compiled into its caller: a call costs more instructions.
#[inline(always)]
fn last_on(
    header: &[u64],
    words: &[u64],
    children: &[u16],
    trees: &[u16],
    cpus: &mut [u64],
    shape: Shape,
    cpu: u8,
    left: Left,
    fuel: u64,
) -> Left
    requires { Opened shape cpu header.now words.now children.now trees.now cpus.old × (left.at ≡ At.Last) }
    ensures { WentOn step fuel left.steps (Record.Get cpu (Taking.Last (block_of left.order left.tree left.child left.first))) (way_left cpu result) (zone header.now words.now children.now trees.now cpus.new) (zone header.now words.now children.now trees.now cpus.old) }
{
    let order = left.order;
    let tree = left.tree;
    let first = left.first;
    let child = left.child;
    let steps = left.steps;
    if fuel <= steps {
        return left;
    }
    let block = block_of(order, tree, child, first);
    let Some(lies) = shape.block_at(block) else {
        return left;
    };
    match cpu_entries::set_start(cpus, shape.size, cpu as usize, lies.tree, lies.child) {
        Ok(_) => {
            let end = block.first();
            taken(At::Done, order, tree, child, end, steps + 1)
        }
        Err(_) => left,
    }
}

// Rule 5: the words of a child that was claimed from.
fn word_on(
    header: &[u64],
    words: &mut [u64],
    children: &[u16],
    trees: &[u16],
    cpus: &[u64],
    shape: Shape,
    cpu: u8,
    run: Run,
    tree: Tree,
    start: u8,
    child: u8,
    made: u64,
    fuel: u64,
) -> Left
    requires { Opened shape cpu header.now words.old children.now trees.now cpus.now × Passes (taking_in (shape_of shape) cpu (Taking.Child (Order.Run run) (Place.Own tree) start child)) }
    ensures { WentOn step fuel made (Record.Get cpu (Taking.Word run (Place.Own tree) start child 0)) (way_left cpu result) (zone header.now words.new children.now trees.now cpus.now) (zone header.now words.old children.now trees.now cpus.now) }
{
    let order = Order::Run(run);
    let mut steps = made;
    for word in 0..CHILD_WORDS {
        if fuel <= steps {
            return at_word(order, tree, start, child, word, steps);
        }
        match word_stages::take_run(words, shape, tree, child, word, run) {
            Ok(Some(bit)) => {
                let first = word_stages::frame_at(shape, tree, child, word, bit);
                return taken(At::Last, order, tree, child, first, steps + 1);
            }
            Ok(None) => {}
            Err(_) => {
                return at_word(order, tree, start, child, word, steps);
            }
        }
        steps += 1;
    }
    stands(At::GiveBack, order, tree, start, child, steps)
}

// What follows a claim: the words, or before the last step.
fn taken_on(
    header: &[u64],
    words: &mut [u64],
    children: &[u16],
    trees: &[u16],
    cpus: &[u64],
    shape: Shape,
    cpu: u8,
    order: Order,
    tree: Tree,
    start: u8,
    child: u8,
    steps: u64,
    fuel: u64,
) -> Left
    requires { Opened shape cpu header.now words.old children.now trees.now cpus.now × Passes (taking_in (shape_of shape) cpu (Taking.Child order (Place.Own tree) start child)) }
    ensures { WentOn step fuel steps (Record.Get cpu (claimed (shape_of shape) order tree start child)) (way_left cpu result) (zone header.now words.new children.now trees.now cpus.now) (zone header.now words.old children.now trees.now cpus.now) }
{
    match order {
        Order::Run(run) => word_on(
            header, words, children, trees, cpus, shape, cpu, run, tree, start, child, steps, fuel,
        ),
        Order::Nine => taken(At::Last, order, tree, child, Frame(0), steps),
    }
}

// The claim of a run, or the taking of a huge frame.
fn claim(
    children: &mut [u16],
    shape: Shape,
    order: Order,
    tree: Tree,
    child: u8,
) -> Result<Took, Fault>
    ensures { outcome result children.new ≡ lent_children (shape_of shape) tree no_child (λ l. claims_in order l child) children.old }
{
    match order {
        Order::Run(run) => child_stages::claim(children, shape, tree, child, run.frames()),
        Order::Nine => child_stages::take_huge(children, shape, tree, child),
    }
}

// Rule 5: the children of the own tree, from the start child round to it again.
fn child_on(
    header: &[u64],
    words: &mut [u64],
    children: &mut [u16],
    trees: &[u16],
    cpus: &[u64],
    shape: Shape,
    cpu: u8,
    order: Order,
    tree: Tree,
    start: u8,
    made: u64,
    fuel: u64,
) -> Left
    requires { Opened shape cpu header.now words.old children.old trees.now cpus.now × Passes (taking_in (shape_of shape) cpu (Taking.Child order (Place.Own tree) start start)) }
    ensures { WentOn step fuel made (Record.Get cpu (Taking.Child order (Place.Own tree) start start)) (way_left cpu result) (zone header.now words.new children.new trees.now cpus.now) (zone header.now words.old children.old trees.now cpus.now) }
{
    let width = shape.size.children_of(tree) as u8;
    let mut child = start;
    for steps in made..fuel {
        match claim(children, shape, order, tree, child) {
            Ok(Took::Taken) => {
                return taken_on(
                    header,
                    words,
                    children,
                    trees,
                    cpus,
                    shape,
                    cpu,
                    order,
                    tree,
                    start,
                    child,
                    steps + 1,
                    fuel,
                );
            }
            Ok(Took::Passed) => {}
            Err(_) => {
                return stands(At::Child, order, tree, start, child, steps);
            }
        }
        child += 1;
        if child == width {
            child = 0;
        }
        if child == start {
            return stands(At::Fail, order, tree, 0, 0, steps + 1);
        }
    }
    stands(At::Child, order, tree, start, child, made.max(fuel))
}

// Rule 1.
fn own_on(
    header: &[u64],
    words: &mut [u64],
    children: &mut [u16],
    trees: &[u16],
    cpus: &mut [u64],
    shape: Shape,
    cpu: u8,
    order: Order,
    fuel: u64,
) -> Left
    requires { Opened shape cpu header.now words.old children.old trees.now cpus.old }
    ensures { WentOn step fuel 0 (Record.Get cpu (Taking.Own order)) (way_left cpu result) (zone header.now words.new children.new trees.now cpus.new) (zone header.now words.old children.old trees.now cpus.old) }
{
    if fuel == 0 {
        return stands(At::Own, order, Tree(0), 0, 0, 0);
    }
    match cpu_entries::claim_own(cpus, shape.size, cpu as usize, order.frames()) {
        Ok(Claimed::Absent) => stands(At::Try, order, Tree(0), 0, 0, 1),
        Ok(Claimed::Claimed { tree, start }) => {
            if shape.search_in(cpu, Place::Own(tree), start, start) {
                let left = child_on(
                    header, words, children, trees, cpus, shape, cpu, order, tree, start, 1, fuel,
                );
                let at = left.at;
                if let At::Last = at {
                    return last_on(header, words, children, trees, cpus, shape, cpu, left, fuel);
                }
                return left;
            }
            stands(At::Child, order, tree, start, start, 1)
        }
        Ok(Claimed::Short(tree)) => stands(At::TakeCount, order, tree, 0, 0, 1),
        Err(_) => stands(At::Own, order, Tree(0), 0, 0, 0),
    }
}

// Up to `fuel` steps of a get that begins: each as a single step makes it, the checks of the zone and the CPU made once.
pub fn get_on(
    header: &[u64],
    words: &mut [u64],
    children: &mut [u16],
    trees: &[u16],
    cpus: &mut [u64],
    cpu: u8,
    order: Order,
    fuel: u64,
) -> Way
    ensures { WentOn step fuel 0 (Record.Get cpu (Taking.Own order)) result (zone header.now words.new children.new trees.now cpus.new) (zone header.now words.old children.old trees.now cpus.old) }
{
    let rec = Record::Get {
        cpu,
        stage: Taking::Own(order),
    };
    if fuel == 0 {
        return Way::Goes { rec, steps: 0 };
    }
    match calls::check(header, words.len(), children.len(), trees.len(), cpus.len()) {
        Err(answer) => calls::way_of(answer, 1),
        Ok(shape) => {
            if shape.cpus <= cpu {
                return calls::way_of(Answer::BadRecord, 1);
            }
            let left = own_on(
                header, words, children, trees, cpus, shape, cpu, order, fuel,
            );
            way_left(cpu, left)
        }
    }
}

// A get begun and run: its checks, then up to `fuel` steps as above.
pub fn get_run(
    header: &[u64],
    words: &mut [u64],
    children: &mut [u16],
    trees: &[u16],
    cpus: &mut [u64],
    cpu: u64,
    order: u64,
    fuel: u64,
) -> Way
    ensures { went_to step fuel result (zone header.now words.new children.new trees.now cpus.new) ≡ follow step fuel 0 (begin_get (zone header.now words.old children.old trees.now cpus.old) cpu order).answer (zone header.now words.old children.old trees.now cpus.old) }
{
    match begins::get_of(header, words, children, trees, cpus, cpu, order) {
        Err(answer) => calls::way_of(answer, 0),
        Ok(got) => {
            let left = own_on(
                header, words, children, trees, cpus, got.shape, got.cpu, got.order, fuel,
            );
            way_left(got.cpu, left)
        }
    }
}
