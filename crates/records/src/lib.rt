// A record as two words, one encoding a record; and an answer's number and frame. Numbers are bare here: this is where they leave the types.
#![tactic(auto)]

ghost use Rattle.std.specs.Prelude.{◌≡◌, [], ◌∷◌, ◌%◌, ◌^◌};
ghost use Rattle.rules.specs.Begin.{order_number, order_of};
ghost use Rattle.rules.specs.Answers.{number, frame_of};
ghost use Rattle.records.specs.Layout.{first_layout, second_layout, spot_nowhere, tree_spot, from_spot, pass_spot, found_spot, place_spot, block_order, block_number};
ghost use Rattle.records.specs.Encoding.{fields_held, fields_searched, fields_blocked, fields_numbered, fields_of, BlockFits, Joins, Encodes, encode};
ghost use Rattle.records.specs.Decoding.{head_of, tail_of, pass_at, found_at, place_at, block_in, taking_at, giving_at, creating_at, opening_at, read, decode};

use rules::{
    Answer, Block, Creating, Found, Frame, Giving, Huge, Opening, Order, Pass, Place, Record, Run,
    Taking, Tree,
};

// ---- an answer's number and frame

pub fn number_of(answer: Answer) -> u64
    ensures { result ≡ number answer }
{
    match answer {
        Answer::Done(_) => 0,
        Answer::UnderWay(_) => 1,
        Answer::NoRoom => 2,
        Answer::BadOrder => 3,
        Answer::BadFrame => 4,
        Answer::Misaligned => 5,
        Answer::NotTaken => 6,
        Answer::BadCpu => 7,
        Answer::BadBuffers => 8,
        Answer::NotAZone => 9,
        Answer::Closed => 10,
        Answer::BadRecord => 11,
        Answer::Damaged => 12,
        Answer::NotSettled => 13,
        Answer::BadSize => 14,
    }
}

pub fn frame_of(answer: Answer) -> u64
    ensures { result ≡ frame_of answer }
{
    match answer {
        Answer::Done(frame) => frame.0,
        _ => 0,
    }
}

// ---- the two words

#[derive(Clone, Copy, PartialEq, Eq)]
pub struct Words {
    pub first: u64,
    pub second: u64,
}

// Stage (8), CPU (8), order (8), kind of place (8), start child (8), child (8), word (8), zero (8).
fn join_first(stage: u8, cpu: u8, order: u8, kind: u8, start: u8, child: u8, word: u8) -> u64
    ensures { Joins first_layout (stage ∷ cpu ∷ order ∷ kind ∷ start ∷ child ∷ word ∷ 0 ∷ []) result }
{
    (stage as u64) << 56
        | (cpu as u64) << 48
        | (order as u64) << 40
        | (kind as u64) << 32
        | (start as u64) << 24
        | (child as u64) << 16
        | (word as u64) << 8
}

// Tree (16), base (16), hand (16), CPU stolen from (8), zero (8).
fn join_second(tree: u16, base: u16, hand: u16, from: u8) -> u64
    ensures { Joins second_layout (tree ∷ base ∷ hand ∷ from ∷ 0 ∷ []) result }
{
    (tree as u64) << 48 | (base as u64) << 32 | (hand as u64) << 16 | (from as u64) << 8
}

#[derive(Clone, Copy)]
struct Head {
    stage: u8,
    cpu: u8,
    order: u8,
    kind: u8,
    start: u8,
    child: u8,
    word: u8,
}

fn split_first(first: u64) -> Head
    ensures { result ≡ head_of first }
{
    Head {
        stage: (first >> 56) as u8,
        cpu: ((first >> 48) & 0xff) as u8,
        order: ((first >> 40) & 0xff) as u8,
        kind: ((first >> 32) & 0xff) as u8,
        start: ((first >> 24) & 0xff) as u8,
        child: ((first >> 16) & 0xff) as u8,
        word: ((first >> 8) & 0xff) as u8,
    }
}

#[derive(Clone, Copy)]
struct Tail {
    tree: u16,
    base: u16,
    hand: u16,
    from: u8,
}

fn split_second(second: u64) -> Tail
    ensures { result ≡ tail_of second }
{
    Tail {
        tree: (second >> 48) as u16,
        base: ((second >> 32) & 0xffff) as u16,
        hand: ((second >> 16) & 0xffff) as u16,
        from: ((second >> 8) & 0xff) as u8,
    }
}

// A number of 32 bits in the second word.
fn short(second: u64) -> u32
    ensures { result ≡ second % 2 ^ 32 }
{
    (second & 0xffff_ffff) as u32
}

// ---- places and blocks, by numbers

// Kind 1: the own tree; 2 to 5: the near, partial, free and last pass; 6: stolen. Where there is no place, 0.
#[derive(Clone, Copy)]
struct Spot {
    kind: u8,
    tree: u16,
    base: u16,
    from: u8,
}

const NOWHERE: Spot = Spot {
    kind: 0,
    tree: 0,
    base: 0,
    from: 0,
};

// A tree, or a CPU to steal from, without a place.
fn tree_spot(tree: Tree) -> Spot
    ensures { result ≡ tree_spot tree }
{
    Spot {
        tree: tree.0,
        ..NOWHERE
    }
}

fn from_spot(from: u8) -> Spot
    ensures { result ≡ from_spot from }
{
    Spot { from, ..NOWHERE }
}

impl From<Pass> for Spot {
    ghost from_gives = { λ p s. s ≡ pass_spot p };

    fn from(pass: Pass) -> Spot {
        match pass {
            Pass::Near { tree, base } => Spot {
                kind: 2,
                tree: tree.0,
                base: base.0,
                ..NOWHERE
            },
            Pass::Partial(tree) => Spot {
                kind: 3,
                ..tree_spot(tree)
            },
            Pass::Free(tree) => Spot {
                kind: 4,
                ..tree_spot(tree)
            },
            Pass::Any(tree) => Spot {
                kind: 5,
                ..tree_spot(tree)
            },
        }
    }
}

impl From<Found> for Spot {
    ghost from_gives = { λ f s. s ≡ found_spot f };

    fn from(found: Found) -> Spot {
        match found {
            Found::Pass(pass) => Spot::from(pass),
            Found::Steal { from, tree } => Spot {
                kind: 6,
                from,
                ..tree_spot(tree)
            },
        }
    }
}

impl From<Place> for Spot {
    ghost from_gives = { λ p s. s ≡ place_spot p };

    fn from(place: Place) -> Spot {
        match place {
            Place::Own(tree) => Spot {
                kind: 1,
                ..tree_spot(tree)
            },
            Place::Found(found) => Spot::from(found),
        }
    }
}

fn pass_at(kind: u8, tail: Tail) -> Pass
    ensures { result ≡ pass_at kind tail }
{
    match kind {
        2 => Pass::Near {
            tree: Tree(tail.tree),
            base: Tree(tail.base),
        },
        3 => Pass::Partial(Tree(tail.tree)),
        4 => Pass::Free(Tree(tail.tree)),
        _ => Pass::Any(Tree(tail.tree)),
    }
}

fn found_at(kind: u8, tail: Tail) -> Found
    ensures { result ≡ found_at kind tail }
{
    if kind == 6 {
        return Found::Steal {
            from: tail.from,
            tree: Tree(tail.tree),
        };
    }
    Found::Pass(pass_at(kind, tail))
}

fn place_at(kind: u8, tail: Tail) -> Place
    ensures { result ≡ place_at kind tail }
{
    if kind == 1 {
        return Place::Own(Tree(tail.tree));
    }
    Place::Found(found_at(kind, tail))
}

// Orders 0 to 6.
const RUNS: u8 = 7;

fn order_number(order: Order) -> u8
    ensures { result ≡ order_number order }
{
    match order {
        Order::Run(run) => run.order(),
        Order::Nine => 9,
    }
}

fn order_at(order: u8) -> Order
    ensures { result ≡ order_of order }
{
    if order < RUNS {
        return Order::Run(rules::run_of(order as u64));
    }
    Order::Nine
}

fn block_order(block: Block) -> u8
    ensures { result ≡ block_order block }
{
    match block {
        Block::Run { run, first: _ } => run.order(),
        Block::Whole(_) => 9,
    }
}

fn block_number(block: Block) -> u64
    ensures { (result ≡ block_number block) × BlockFits block }
{
    match block {
        Block::Run { run: _, first } => first.0,
        Block::Whole(huge) => huge.0 as u64,
    }
}

fn block_at(order: u8, second: u64) -> Block
    ensures { result ≡ block_in order second }
{
    if order < RUNS {
        return Block::Run {
            run: rules::run_of(order as u64),
            first: Frame(second),
        };
    }
    Block::Whole(Huge(short(second)))
}

// ---- encoding

// A stage with its order, its place or tree, and what is in hand.
fn held(stage: u8, cpu: u8, order: Order, spot: Spot, hand: u16) -> Words
    ensures { Encodes (fields_held stage cpu order spot hand) result }
{
    Words {
        first: join_first(stage, cpu, order_number(order), spot.kind, 0, 0, 0),
        second: join_second(spot.tree, spot.base, hand, spot.from),
    }
}

// A stage of the search.
fn searched(stage: u8, cpu: u8, order: Order, place: Place, start: u8, child: u8, word: u8) -> Words
    ensures { Encodes (fields_searched stage cpu order place start child word) result }
{
    let spot = Spot::from(place);
    Words {
        first: join_first(
            stage,
            cpu,
            order_number(order),
            spot.kind,
            start,
            child,
            word,
        ),
        second: join_second(spot.tree, spot.base, 0, spot.from),
    }
}

// A stage on a block: the second word is its first frame, or its huge frame.
fn blocked(stage: u8, cpu: u8, block: Block) -> Words
    ensures { Encodes (fields_blocked stage cpu block) result }
{
    Words {
        first: join_first(stage, cpu, block_order(block), 0, 0, 0, 0),
        second: block_number(block),
    }
}

// A stage on a word or a child: the second word is its number.
fn numbered(stage: u8, at: u32) -> Words
    ensures { Encodes (fields_numbered stage at) result }
{
    Words {
        first: join_first(stage, 0, 0, 0, 0, 0, 0),
        second: at as u64,
    }
}

fn encode_taking(cpu: u8, stage: Taking) -> Words
    ensures { Encodes (fields_of (Record.Get cpu stage)) result }
{
    match stage {
        Taking::Own(order) => held(1, cpu, order, NOWHERE, 0),
        Taking::TakeCount { order, tree } => held(2, cpu, order, tree_spot(tree), 0),
        Taking::FillEntry { order, tree, hand } => held(3, cpu, order, tree_spot(tree), hand),
        Taking::ReturnHand { order, tree, hand } => held(4, cpu, order, tree_spot(tree), hand),
        Taking::LookAgain { order, tree } => held(5, cpu, order, tree_spot(tree), 0),
        Taking::Release { order, place } => held(6, cpu, order, Spot::from(place), 0),
        Taking::Unreserve { order, place, hand } => held(7, cpu, order, Spot::from(place), hand),
        Taking::Try { order, pass } => held(8, cpu, order, Spot::from(pass), 0),
        Taking::Write { order, found, hand } => held(9, cpu, order, Spot::from(found), hand),
        Taking::Steal { order, from } => held(10, cpu, order, from_spot(from), 0),
        Taking::StealCount {
            order,
            from,
            tree,
            hand,
        } => held(
            11,
            cpu,
            order,
            Spot::from(Found::Steal { from, tree }),
            hand,
        ),
        Taking::Child {
            order,
            place,
            start,
            child,
        } => searched(12, cpu, order, place, start, child, 0),
        Taking::Word {
            run,
            place,
            start,
            child,
            word,
        } => searched(13, cpu, Order::Run(run), place, start, child, word),
        Taking::GiveBack {
            run,
            place,
            start,
            child,
        } => searched(14, cpu, Order::Run(run), place, start, child, 0),
        Taking::Last(block) => blocked(15, cpu, block),
        Taking::Fail { order, place } => held(16, cpu, order, Spot::from(place), 0),
        Taking::NoRoom => held(17, cpu, Order::Run(Run::One), NOWHERE, 0),
    }
}

fn encode_giving(cpu: u8, stage: Giving) -> Words
    ensures { Encodes (fields_of (Record.Put cpu stage)) result }
{
    match stage {
        Giving::Clear(block) => blocked(18, cpu, block),
        Giving::Raise { run, first } => blocked(19, cpu, Block::Run { run, first }),
        Giving::ToEntry(block) => blocked(20, cpu, block),
        Giving::ToTree(block) => blocked(21, cpu, block),
    }
}

fn encode_creating(stage: Creating) -> Words
    ensures { Encodes (fields_of (Record.Create stage)) result }
{
    match stage {
        Creating::Words(at) => numbered(22, at),
        Creating::Children(huge) => numbered(23, huge.0),
        Creating::Trees(tree) => held(24, 0, Order::Run(Run::One), tree_spot(tree), 0),
        Creating::Cpus(cpu) => held(25, cpu, Order::Run(Run::One), NOWHERE, 0),
        Creating::Header => held(26, 0, Order::Run(Run::One), NOWHERE, 0),
    }
}

fn encode_opening(stage: Opening) -> Words
    ensures { Encodes (fields_of (Record.Open stage)) result }
{
    match stage {
        Opening::Children(huge) => numbered(27, huge.0),
        Opening::Trees(tree) => held(28, 0, Order::Run(Run::One), tree_spot(tree), 0),
        Opening::Cpus(cpu) => held(29, cpu, Order::Run(Run::One), NOWHERE, 0),
    }
}

// A record's two words. Decoded they are the record again.
pub fn encode(rec: Record) -> Words
    ensures { (result ≡ encode rec) × (decode result ≡ rec) }
{
    match rec {
        Record::Finished => held(0, 0, Order::Run(Run::One), NOWHERE, 0),
        Record::Get { cpu, stage } => encode_taking(cpu, stage),
        Record::Put { cpu, stage } => encode_giving(cpu, stage),
        Record::Create(stage) => encode_creating(stage),
        Record::Open(stage) => encode_opening(stage),
    }
}

// ---- decoding

fn taking_at(head: Head, second: u64) -> Taking
    ensures { result ≡ taking_at head (tail_of second) second }
{
    let order = order_at(head.order);
    let tail = split_second(second);
    let tree = Tree(tail.tree);
    match head.stage {
        1 => Taking::Own(order),
        2 => Taking::TakeCount { order, tree },
        3 => Taking::FillEntry {
            order,
            tree,
            hand: tail.hand,
        },
        4 => Taking::ReturnHand {
            order,
            tree,
            hand: tail.hand,
        },
        5 => Taking::LookAgain { order, tree },
        6 => Taking::Release {
            order,
            place: place_at(head.kind, tail),
        },
        7 => Taking::Unreserve {
            order,
            place: place_at(head.kind, tail),
            hand: tail.hand,
        },
        8 => Taking::Try {
            order,
            pass: pass_at(head.kind, tail),
        },
        9 => Taking::Write {
            order,
            found: found_at(head.kind, tail),
            hand: tail.hand,
        },
        10 => Taking::Steal {
            order,
            from: tail.from,
        },
        11 => Taking::StealCount {
            order,
            from: tail.from,
            tree,
            hand: tail.hand,
        },
        12 => Taking::Child {
            order,
            place: place_at(head.kind, tail),
            start: head.start,
            child: head.child,
        },
        13 => Taking::Word {
            run: rules::run_of(head.order as u64),
            place: place_at(head.kind, tail),
            start: head.start,
            child: head.child,
            word: head.word,
        },
        14 => Taking::GiveBack {
            run: rules::run_of(head.order as u64),
            place: place_at(head.kind, tail),
            start: head.start,
            child: head.child,
        },
        15 => Taking::Last(block_at(head.order, second)),
        16 => Taking::Fail {
            order,
            place: place_at(head.kind, tail),
        },
        _ => Taking::NoRoom,
    }
}

fn giving_at(head: Head, second: u64) -> Giving
    ensures { result ≡ giving_at head second }
{
    match head.stage {
        18 => Giving::Clear(block_at(head.order, second)),
        19 => Giving::Raise {
            run: rules::run_of(head.order as u64),
            first: Frame(second),
        },
        20 => Giving::ToEntry(block_at(head.order, second)),
        _ => Giving::ToTree(block_at(head.order, second)),
    }
}

fn creating_at(head: Head, second: u64) -> Creating
    ensures { result ≡ creating_at head (tail_of second) second }
{
    match head.stage {
        22 => Creating::Words(short(second)),
        23 => Creating::Children(Huge(short(second))),
        24 => Creating::Trees(Tree(split_second(second).tree)),
        25 => Creating::Cpus(head.cpu),
        _ => Creating::Header,
    }
}

fn opening_at(head: Head, second: u64) -> Opening
    ensures { result ≡ opening_at head (tail_of second) second }
{
    match head.stage {
        27 => Opening::Children(Huge(short(second))),
        28 => Opening::Trees(Tree(split_second(second).tree)),
        _ => Opening::Cpus(head.cpu),
    }
}

// The one record that two words may be the encoding of.
fn read(words: Words) -> Record
    ensures { result ≡ read words }
{
    let head = split_first(words.first);
    match head.stage {
        0 => Record::Finished,
        1..=17 => Record::Get {
            cpu: head.cpu,
            stage: taking_at(head, words.second),
        },
        18..=21 => Record::Put {
            cpu: head.cpu,
            stage: giving_at(head, words.second),
        },
        22..=26 => Record::Create(creating_at(head, words.second)),
        _ => Record::Open(opening_at(head, words.second)),
    }
}

// ---- the encoding of what is read, from the words

fn again_taking(head: Head, second: u64) -> Words
    ensures { Encodes (fields_of (Record.Get head.cpu (taking_at head (tail_of second) second))) result }
{
    let order = order_at(head.order);
    let tail = split_second(second);
    let tree = Tree(tail.tree);
    let cpu = head.cpu;
    match head.stage {
        1 => held(1, cpu, order, NOWHERE, 0),
        2 => held(2, cpu, order, tree_spot(tree), 0),
        3 => held(3, cpu, order, tree_spot(tree), tail.hand),
        4 => held(4, cpu, order, tree_spot(tree), tail.hand),
        5 => held(5, cpu, order, tree_spot(tree), 0),
        6 => held(6, cpu, order, Spot::from(place_at(head.kind, tail)), 0),
        7 => held(
            7,
            cpu,
            order,
            Spot::from(place_at(head.kind, tail)),
            tail.hand,
        ),
        8 => held(8, cpu, order, Spot::from(pass_at(head.kind, tail)), 0),
        9 => held(
            9,
            cpu,
            order,
            Spot::from(found_at(head.kind, tail)),
            tail.hand,
        ),
        10 => held(10, cpu, order, from_spot(tail.from), 0),
        11 => held(
            11,
            cpu,
            order,
            Spot::from(Found::Steal {
                from: tail.from,
                tree,
            }),
            tail.hand,
        ),
        12 => searched(
            12,
            cpu,
            order,
            place_at(head.kind, tail),
            head.start,
            head.child,
            0,
        ),
        13 => searched(
            13,
            cpu,
            Order::Run(rules::run_of(head.order as u64)),
            place_at(head.kind, tail),
            head.start,
            head.child,
            head.word,
        ),
        14 => searched(
            14,
            cpu,
            Order::Run(rules::run_of(head.order as u64)),
            place_at(head.kind, tail),
            head.start,
            head.child,
            0,
        ),
        15 => blocked(15, cpu, block_at(head.order, second)),
        16 => held(16, cpu, order, Spot::from(place_at(head.kind, tail)), 0),
        _ => held(17, cpu, Order::Run(Run::One), NOWHERE, 0),
    }
}

fn again_giving(head: Head, second: u64) -> Words
    ensures { Encodes (fields_of (Record.Put head.cpu (giving_at head second))) result }
{
    let cpu = head.cpu;
    match head.stage {
        18 => blocked(18, cpu, block_at(head.order, second)),
        19 => blocked(
            19,
            cpu,
            Block::Run {
                run: rules::run_of(head.order as u64),
                first: Frame(second),
            },
        ),
        20 => blocked(20, cpu, block_at(head.order, second)),
        _ => blocked(21, cpu, block_at(head.order, second)),
    }
}

fn again(words: Words) -> Words
    ensures { result ≡ encode (read words) }
{
    let head = split_first(words.first);
    match head.stage {
        0 => held(0, 0, Order::Run(Run::One), NOWHERE, 0),
        1..=17 => again_taking(head, words.second),
        18..=21 => again_giving(head, words.second),
        22..=26 => encode_creating(creating_at(head, words.second)),
        _ => encode_opening(opening_at(head, words.second)),
    }
}

// The record that two words are the encoding of. Words that are no record's are read as the finished one, which every step refuses with 11.
pub fn decode(first: u64, second: u64) -> Record
    ensures { result ≡ decode (record { first = first; second = second }) }
{
    let words = Words { first, second };
    let rec = read(words);
    let made = again(words);
    if made != words {
        return Record::Finished;
    }
    rec
}
