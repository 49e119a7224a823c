// Document 01's numbers, records and answers. What they mean is defined in specs/, and proved in proofs/.
#![tactic(auto)]

ghost use Rattle.std.specs.Prelude.{◌≡◌};
ghost use Rattle.rules.specs.Numbers.{format1};
ghost use Rattle.rules.specs.Conversions.{first_frame, huge_at, first_huge, tree_at};
ghost use Rattle.rules.specs.Blocks.{exponent, run_size, size, size_of, first_of};
ghost use Rattle.rules.specs.Places.{pass_tree, found_tree, place_tree};
ghost use Rattle.rules.specs.Begin.{run_of};
ghost use Rattle.rules.specs.Answers.{answer_of};

// ---- numbers: a frame, a huge frame, a tree; none stands in for another

#[derive(Clone, Copy, PartialEq, Eq)]
pub struct Frame(pub u64);

#[derive(Clone, Copy, PartialEq, Eq)]
pub struct Huge(pub u32);

#[derive(Clone, Copy, PartialEq, Eq)]
pub struct Tree(pub u16);

impl Huge {
    // A huge frame's first frame.
    pub fn first_frame(self) -> Frame
        ensures { result ≡ first_frame self }
    {
        Frame(self.0 as u64 * 512)
    }

    // The tree that a huge frame belongs to; none, where the number passes every tree's.
    pub fn tree(self) -> Option<Tree>
        ensures { result ≡ tree_at format1 self }
    {
        let tree = self.0 / 32;
        if tree < 0x1_0000 {
            Some(Tree(tree as u16))
        } else {
            None
        }
    }
}

impl Frame {
    // The huge frame that a frame lies in; none, where the number passes every huge frame's.
    pub fn huge(self) -> Option<Huge>
        ensures { result ≡ huge_at self }
    {
        let huge = self.0 / 512;
        if huge < 0x1_0000_0000 {
            Some(Huge(huge as u32))
        } else {
            None
        }
    }
}

impl Tree {
    // A tree's first huge frame.
    pub fn first_huge(self) -> Huge
        ensures { result ≡ first_huge format1 self }
    {
        Huge(self.0 as u32 * 32)
    }
}

// ---- orders and blocks

// Orders 0 to 6: one base frame, or a run of 2 to 64, naturally aligned, in one word.
#[derive(Clone, Copy)]
pub enum Run {
    One,
    Two,
    Four,
    Eight,
    Sixteen,
    ThirtyTwo,
    SixtyFour,
}

impl Run {
    // The frames of a run.
    pub fn frames(self) -> u16
        ensures { result ≡ run_size self }
    {
        match self {
            Run::One => 1,
            Run::Two => 2,
            Run::Four => 4,
            Run::Eight => 8,
            Run::Sixteen => 16,
            Run::ThirtyTwo => 32,
            Run::SixtyFour => 64,
        }
    }

    // Its order, 0 to 6; and the run of an order.
    pub fn order(self) -> u8
        ensures { result ≡ exponent self }
    {
        match self {
            Run::One => 0,
            Run::Two => 1,
            Run::Four => 2,
            Run::Eight => 3,
            Run::Sixteen => 4,
            Run::ThirtyTwo => 5,
            Run::SixtyFour => 6,
        }
    }
}

pub fn run_of(order: u64) -> Run
    ensures { result ≡ run_of order }
{
    match order {
        0 => Run::One,
        1 => Run::Two,
        2 => Run::Four,
        3 => Run::Eight,
        4 => Run::Sixteen,
        5 => Run::ThirtyTwo,
        _ => Run::SixtyFour,
    }
}

#[derive(Clone, Copy)]
pub enum Order {
    Run(Run),
    Nine,
}

impl Order {
    // The frames of a block of an order.
    pub fn frames(self) -> u16
        ensures { result ≡ size self }
    {
        match self {
            Order::Run(run) => run.frames(),
            Order::Nine => 512,
        }
    }
}

// A run is named by its first frame, a block of order 9 by its huge frame.
#[derive(Clone, Copy)]
pub enum Block {
    Run { run: Run, first: Frame },
    Whole(Huge),
}

impl Block {
    pub fn first(self) -> Frame
        ensures { result ≡ first_of self }
    {
        match self {
            Block::Run { run: _, first } => first,
            Block::Whole(huge) => huge.first_frame(),
        }
    }

    pub fn frames(self) -> u16
        ensures { result ≡ size_of self }
    {
        match self {
            Block::Run { run, first: _ } => run.frames(),
            Block::Whole(_) => 512,
        }
    }
}

// ---- what packed entries say; a malformed one says nothing

#[derive(Clone, Copy)]
pub enum Header {
    Running { huge: u32 },
    Clean { huge: u32 },
}

// A child with a clear and its count, or with a set.
#[derive(Clone, Copy)]
pub enum ChildEntry {
    Counts(u16),
    Flagged,
}

#[derive(Clone, Copy)]
pub struct TreeEntry {
    pub reserved: u16,
    pub count: u16,
}

#[derive(Clone, Copy)]
pub enum CpuEntry {
    Absent,
    Holds { tree: Tree, start: u8, count: u16 },
}

// ---- what a step on an entry says

// A claim on a child, or the taking of a huge frame.
#[derive(Clone, Copy, PartialEq, Eq)]
pub enum Took {
    Taken,
    Passed,
}

// Why nothing is stored: a malformed entry, or a sum or store that would pass a limit; bits that are not all set; what the table or the number has not.
#[derive(Clone, Copy, PartialEq, Eq)]
pub enum Fault {
    Damaged,
    NotTaken,
    NoEntry,
    NoChild,
    NoWord,
    NoBit,
    NoField,
    TooMany,
}

// ---- places (rules 3, 4 and 7)

#[derive(Clone, Copy)]
pub enum Pass {
    Near { tree: Tree, base: Tree },
    Partial(Tree),
    Free(Tree),
    Any(Tree),
}

impl Pass {
    pub fn tree(self) -> Tree
        ensures { result ≡ pass_tree self }
    {
        match self {
            Pass::Near { tree, base: _ } => tree,
            Pass::Partial(tree) => tree,
            Pass::Free(tree) => tree,
            Pass::Any(tree) => tree,
        }
    }
}

// A tree that a pass has taken, or one that was stolen from a CPU.
#[derive(Clone, Copy)]
pub enum Found {
    Pass(Pass),
    Steal { from: u8, tree: Tree },
}

impl Found {
    pub fn tree(self) -> Tree
        ensures { result ≡ found_tree self }
    {
        match self {
            Found::Pass(pass) => pass.tree(),
            Found::Steal { from: _, tree } => tree,
        }
    }
}

#[derive(Clone, Copy)]
pub enum Place {
    Own(Tree),
    Found(Found),
}

impl Place {
    pub fn tree(self) -> Tree
        ensures { result ≡ place_tree self }
    {
        match self {
            Place::Own(tree) => tree,
            Place::Found(found) => found.tree(),
        }
    }
}

// ---- operation records: one variant a stage, with what that stage needs

#[derive(Clone, Copy)]
pub enum Taking {
    // Rule 1.
    Own(Order),
    TakeCount {
        order: Order,
        tree: Tree,
    },
    FillEntry {
        order: Order,
        tree: Tree,
        hand: u16,
    },
    ReturnHand {
        order: Order,
        tree: Tree,
        hand: u16,
    },
    LookAgain {
        order: Order,
        tree: Tree,
    },
    // Rule 2, and rule 4's last step.
    Release {
        order: Order,
        place: Place,
    },
    Unreserve {
        order: Order,
        place: Place,
        hand: u16,
    },
    // Rule 3.
    Try {
        order: Order,
        pass: Pass,
    },
    Write {
        order: Order,
        found: Found,
        hand: u16,
    },
    // Rule 4.
    Steal {
        order: Order,
        from: u8,
    },
    StealCount {
        order: Order,
        from: u8,
        tree: Tree,
        hand: u16,
    },
    // Rule 5.
    Child {
        order: Order,
        place: Place,
        start: u8,
        child: u8,
    },
    Word {
        run: Run,
        place: Place,
        start: u8,
        child: u8,
        word: u8,
    },
    GiveBack {
        run: Run,
        place: Place,
        start: u8,
        child: u8,
    },
    // Rule 6.
    Last(Block),
    // Rule 7.
    Fail {
        order: Order,
        place: Place,
    },
    // After the last place.
    NoRoom,
}

#[derive(Clone, Copy)]
pub enum Giving {
    Clear(Block),
    Raise { run: Run, first: Frame },
    ToEntry(Block),
    ToTree(Block),
}

#[derive(Clone, Copy)]
pub enum Creating {
    Words(u32),
    Children(Huge),
    Trees(Tree),
    Cpus(u8),
    Header,
}

#[derive(Clone, Copy)]
pub enum Opening {
    Children(Huge),
    Trees(Tree),
    Cpus(u8),
}

#[derive(Clone, Copy)]
pub enum Record {
    Finished,
    Get { cpu: u8, stage: Taking },
    Put { cpu: u8, stage: Giving },
    Create(Creating),
    Open(Opening),
}

// ---- answers: one variant a number of document 01

#[derive(Clone, Copy)]
pub enum Answer {
    Done(Frame),
    UnderWay(Record),
    NoRoom,
    BadOrder,
    BadFrame,
    Misaligned,
    NotTaken,
    BadCpu,
    BadBuffers,
    NotAZone,
    Closed,
    BadRecord,
    Damaged,
    NotSettled,
    BadSize,
}

// What a step of a get or put answers to a fault.
impl From<Fault> for Answer {
    ghost from_gives = { λ f a. a ≡ answer_of f };

    fn from(fault: Fault) -> Answer {
        match fault {
            Fault::Damaged => Answer::Damaged,
            Fault::NotTaken => Answer::NotTaken,
            Fault::NoEntry => Answer::BadRecord,
            Fault::NoChild => Answer::BadRecord,
            Fault::NoWord => Answer::BadRecord,
            Fault::NoBit => Answer::BadRecord,
            Fault::NoField => Answer::BadRecord,
            Fault::TooMany => Answer::BadRecord,
        }
    }
}
