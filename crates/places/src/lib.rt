// What a record may hold, and the next place of a get. Nothing here looks at a table.
#![tactic(auto)]

ghost use Rattle.std.specs.Prelude.{◌≡◌, ◌++◌, suc, ◌^◌, ◌<◌, ltb};
ghost use Rattle.laws.specs.Tests.{passes, Passes};
ghost use Rattle.rules.specs.Blocks.{huge_of_block};
ghost use Rattle.rules.specs.Ranges.{tree_in, hand_in, child_in, frame_in, huge_in, block_in, pass_in, steal_in, found_in, place_in, taking_in, giving_in, creating_in, opening_in};
ghost use Rattle.rules.specs.Places.{place_tree, found_tree, skip, near_from, steal_from, after_pass, after_steal, after_place};
ghost use Rattle.places.specs.Shapes.{shape_of, tree_after_in, block_at_in};

use entries::Size;
use rules::{
    Block, Creating, Found, Frame, Giving, Huge, Opening, Order, Pass, Place, Run, Taking, Tree,
};

const CHILD_FRAMES: u64 = 512;

const CHILD_WORDS: u8 = 8;

const TREE_CHILDREN: u32 = 32;

const NEAR_TREES: u32 = 32;

// A zone's size, and the entries of its CPU table.
#[derive(Clone, Copy)]
pub struct Shape {
    pub size: Size,
    pub cpus: u8,
}

// ---- ranges: outside of them a record is refused

impl Shape {
    fn tree_in(self, tree: Tree) -> bool
        ensures { result ≡ passes (tree_in (shape_of self) tree) }
    {
        tree.0 < self.size.trees()
    }

    fn hand_in(self, tree: Tree, hand: u16) -> bool
        ensures { result ≡ passes (hand_in (shape_of self) tree hand) }
    {
        hand <= self.size.capacity_of(tree)
    }

    fn child_in(self, tree: Tree, child: u8) -> bool
        ensures { result ≡ passes (child_in (shape_of self) tree child) }
    {
        (child as u16) < self.size.children_of(tree)
    }

    fn huge_in(self, huge: Huge) -> bool
        ensures { result ≡ passes (huge_in (shape_of self) huge) }
    {
        huge.0 < self.size.huge_frames()
    }

    fn frame_in(self, frame: Frame) -> bool
        ensures { result ≡ passes (frame_in (shape_of self) frame) }
    {
        frame.0 < self.size.huge_frames() as u64 * CHILD_FRAMES
    }

    // A run begins at a multiple of its size.
    fn run_in(self, run: Run, first: Frame) -> bool
        ensures { result ≡ passes (block_in (shape_of self) (Block.Run run first)) }
    {
        self.frame_in(first) && first.0 % run.frames() as u64 == 0
    }

    fn block_in(self, block: Block) -> bool
        ensures { result ≡ passes (block_in (shape_of self) block) }
    {
        match block {
            Block::Run { run, first } => self.run_in(run, first),
            Block::Whole(huge) => self.huge_in(huge),
        }
    }

    // Near: another tree of the base's aligned block.
    fn pass_in(self, pass: Pass) -> bool
        ensures { result ≡ passes (pass_in (shape_of self) pass) }
    {
        match pass {
            Pass::Near { tree, base } => {
                self.tree_in(tree)
                    && self.tree_in(base)
                    && tree != base
                    && tree.0 as u32 / NEAR_TREES == base.0 as u32 / NEAR_TREES
            }
            Pass::Partial(tree) | Pass::Free(tree) | Pass::Any(tree) => self.tree_in(tree),
        }
    }

    // Steal: from another CPU.
    fn steal_in(self, cpu: u8, from: u8) -> bool
        ensures { result ≡ passes (steal_in (shape_of self) cpu from) }
    {
        from < self.cpus && from != cpu
    }

    fn found_in(self, cpu: u8, found: Found) -> bool
        ensures { result ≡ passes (found_in (shape_of self) cpu found) }
    {
        match found {
            Found::Pass(pass) => self.pass_in(pass),
            Found::Steal { from, tree } => self.steal_in(cpu, from) && self.tree_in(tree),
        }
    }

    fn place_in(self, cpu: u8, place: Place) -> bool
        ensures { result ≡ passes (place_in (shape_of self) cpu place) }
    {
        match place {
            Place::Own(tree) => self.tree_in(tree),
            Place::Found(found) => self.found_in(cpu, found),
        }
    }

    fn tree_hand_in(self, tree: Tree, hand: u16) -> bool
        ensures { result ≡ passes (tree_in (shape_of self) tree ++ hand_in (shape_of self) tree hand) }
    {
        self.tree_in(tree) && self.hand_in(tree, hand)
    }

    fn found_hand_in(self, cpu: u8, found: Found, hand: u16) -> bool
        ensures { result ≡ passes (found_in (shape_of self) cpu found ++ hand_in (shape_of self) (found_tree found) hand) }
    {
        self.found_in(cpu, found) && self.hand_in(found.tree(), hand)
    }

    fn place_hand_in(self, cpu: u8, place: Place, hand: u16) -> bool
        ensures { result ≡ passes (place_in (shape_of self) cpu place ++ hand_in (shape_of self) (place_tree place) hand) }
    {
        self.place_in(cpu, place) && self.hand_in(place.tree(), hand)
    }

    // A search: its place, its start child and the child that it is at.
    pub fn search_in(self, cpu: u8, place: Place, start: u8, child: u8) -> bool
        ensures { result ≡ passes (place_in (shape_of self) cpu place ++ (child_in (shape_of self) (place_tree place) start ++ child_in (shape_of self) (place_tree place) child)) }
    {
        let tree = place.tree();
        self.place_in(cpu, place) && self.child_in(tree, start) && self.child_in(tree, child)
    }

    pub fn taking_in(self, cpu: u8, stage: Taking) -> bool
        ensures { result ≡ passes (taking_in (shape_of self) cpu stage) }
    {
        match stage {
            Taking::Own(_) => true,
            Taking::TakeCount { order: _, tree } => self.tree_in(tree),
            Taking::FillEntry {
                order: _,
                tree,
                hand,
            } => self.tree_hand_in(tree, hand),
            Taking::ReturnHand {
                order: _,
                tree,
                hand,
            } => self.tree_hand_in(tree, hand),
            Taking::LookAgain { order: _, tree } => self.tree_in(tree),
            Taking::Release { order: _, place } => self.place_in(cpu, place),
            Taking::Unreserve {
                order: _,
                place,
                hand,
            } => self.place_hand_in(cpu, place, hand),
            Taking::Try { order: _, pass } => self.pass_in(pass),
            Taking::Write {
                order: _,
                found,
                hand,
            } => self.found_hand_in(cpu, found, hand),
            Taking::Steal { order: _, from } => self.steal_in(cpu, from),
            Taking::StealCount {
                order: _,
                from,
                tree,
                hand,
            } => self.found_hand_in(cpu, Found::Steal { from, tree }, hand),
            Taking::Child {
                order: _,
                place,
                start,
                child,
            } => self.search_in(cpu, place, start, child),
            Taking::Word {
                run: _,
                place,
                start,
                child,
                word,
            } => self.search_in(cpu, place, start, child) && word < CHILD_WORDS,
            Taking::GiveBack {
                run: _,
                place,
                start,
                child,
            } => self.search_in(cpu, place, start, child),
            Taking::Last(block) => self.block_in(block),
            Taking::Fail { order: _, place } => self.place_in(cpu, place),
            Taking::NoRoom => true,
        }
    }

    pub fn giving_in(self, stage: Giving) -> bool
        ensures { result ≡ passes (giving_in (shape_of self) stage) }
    {
        match stage {
            Giving::Clear(block) => self.block_in(block),
            Giving::Raise { run, first } => self.run_in(run, first),
            Giving::ToEntry(block) => self.block_in(block),
            Giving::ToTree(block) => self.block_in(block),
        }
    }

    pub fn creating_in(self, stage: Creating) -> bool
        ensures { result ≡ passes (creating_in (shape_of self) stage) }
    {
        match stage {
            Creating::Words(i) => i < CHILD_WORDS as u32 * self.size.huge_frames(),
            Creating::Children(huge) => self.huge_in(huge),
            Creating::Trees(tree) => self.tree_in(tree),
            Creating::Cpus(cpu) => cpu < self.cpus,
            Creating::Header => true,
        }
    }

    pub fn opening_in(self, stage: Opening) -> bool
        ensures { result ≡ passes (opening_in (shape_of self) stage) }
    {
        match stage {
            Opening::Children(huge) => self.huge_in(huge),
            Opening::Trees(tree) => self.tree_in(tree),
            Opening::Cpus(cpu) => cpu < self.cpus,
        }
    }
}

// ---- blocks

// The tree and the child that a block lies in.
#[derive(Clone, Copy)]
pub struct BlockAt {
    pub tree: Tree,
    pub child: u8,
}

impl Shape {
    // A block's huge frame, where the zone has it.
    fn huge_number(self, block: Block) -> u32
        requires { Passes (block_in (shape_of self) block) }
        ensures { result ≡ (huge_of_block block).0 }
    {
        match block {
            Block::Run { run: _, first } => (first.0 / CHILD_FRAMES) as u32,
            Block::Whole(huge) => huge.0,
        }
    }

    // None: the block lies outside the zone.
    pub fn block_at(self, block: Block) -> Option<BlockAt>
        ensures { result ≡ block_at_in (shape_of self) block }
    {
        if !self.block_in(block) {
            return None;
        }
        let huge = self.huge_number(block);
        Some(BlockAt {
            tree: Tree((huge / TREE_CHILDREN) as u16),
            child: (huge % TREE_CHILDREN) as u8,
        })
    }
}

// ---- the next place

impl Shape {
    // Near: the trees from `tree` on of the aligned block that holds the base, but the base; with none left the partial pass begins.
    fn near_from(self, cpu: u8, order: Order, tree: u32, base: Tree) -> Taking
        ensures { result ≡ near_from (shape_of self) cpu order tree base }
    {
        let pass = if tree < self.size.trees() as u32
            && tree / NEAR_TREES == base.0 as u32 / NEAR_TREES
        {
            Pass::Near {
                tree: Tree(tree as u16),
                base,
            }
        } else {
            Pass::Partial(Tree(0))
        };
        Taking::Try { order, pass }
    }

    // Steal: the CPUs from `from` on; after the last one, No room.
    fn steal_from(self, cpu: u8, order: Order, from: u32) -> Taking
        ensures { result ≡ steal_from (shape_of self) cpu order from }
    {
        if from < self.cpus as u32 {
            return Taking::Steal {
                order,
                from: from as u8,
            };
        }
        Taking::NoRoom
    }

    // The tree after this one; None after the zone's last.
    fn tree_after(self, tree: Tree) -> Option<Tree>
        ensures { result ≡ tree_after_in (shape_of self) tree }
    {
        if tree.0 as u32 + 1 < self.size.trees() as u32 {
            Some(Tree(tree.0 + 1))
        } else {
            None
        }
    }

    // The place after a tree of a pass.
    pub fn after_pass(self, cpu: u8, order: Order, pass: Pass) -> Taking
        ensures { result ≡ after_pass (shape_of self) cpu order pass }
    {
        match pass {
            Pass::Near { tree, base } => self.near_from(
                cpu,
                order,
                skip(base.0 as u32, tree.0 as u32 + 1),
                base,
            ),
            Pass::Partial(tree) => Taking::Try {
                order,
                pass: self
                    .tree_after(tree)
                    .map_or(Pass::Free(Tree(0)), Pass::Partial),
            },
            Pass::Free(tree) => Taking::Try {
                order,
                pass: self.tree_after(tree).map_or(Pass::Any(Tree(0)), Pass::Free),
            },
            Pass::Any(tree) => match self.tree_after(tree) {
                Some(next) => Taking::Try {
                    order,
                    pass: Pass::Any(next),
                },
                None => self.steal_from(cpu, order, skip(cpu as u32, 0)),
            },
        }
    }

    // The place after a CPU that had nothing to steal.
    pub fn after_steal(self, cpu: u8, order: Order, from: u8) -> Taking
        ensures { result ≡ after_steal (shape_of self) cpu order from }
    {
        self.steal_from(cpu, order, skip(cpu as u32, from as u32 + 1))
    }

    // The place after one that gave nothing (rule 7).
    pub fn after_place(self, cpu: u8, order: Order, place: Place) -> Taking
        ensures { result ≡ after_place (shape_of self) cpu order place }
    {
        match place {
            Place::Own(tree) => self.near_from(
                cpu,
                order,
                skip(tree.0 as u32, tree.0 as u32 / NEAR_TREES * NEAR_TREES),
                tree,
            ),
            Place::Found(found) => match found {
                Found::Pass(pass) => self.after_pass(cpu, order, pass),
                Found::Steal { from, tree: _ } => self.after_steal(cpu, order, from),
            },
        }
    }
}

// i, or the next where i is to be left out.
fn skip(x: u32, i: u32) -> u32
    requires { i < 2 ^ 31 }
    ensures { result ≡ skip x i }
{
    if i == x { i + 1 } else { i }
}
