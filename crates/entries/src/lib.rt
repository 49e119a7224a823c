// A zone's size; its header; a tree's entry. Each function reads one entry and stores one at most.
// A function takes a slice of any length and any numbers. What is wrong it answers, and then it stores nothing.
#![tactic(auto)]

ghost use Rattle.std.specs.Prelude.{◌≡◌, [], ◌∷◌, ◌+◌, ◌*◌, ◌^◌, ◌≤◌, ◌<◌, Ok, Err};
ghost use Rattle.laws.specs.Tests.{passes};
ghost use Rattle.laws.specs.Tables.{outcome};
ghost use Rattle.laws.specs.Fields.{join};
ghost use Rattle.rules.specs.Numbers.{format1, trees_of, children_of, capacity};
ghost use Rattle.rules.specs.Entries.{header_says, header_word, running, clean, tree_says, tree_word};
ghost use Rattle.rules.specs.Places.{fits, class_of};
ghost use Rattle.entries.specs.Sizes.{huge_of, shape_of, by_header, sized, zoned_in, lengths_of};
ghost use Rattle.entries.specs.Split.{header_fields, tree_fields};
ghost use Rattle.entries.specs.Steps.{take_count_in, add_count_in, unreserve_in, reserve_in, take_with_in, store_count_in, look_tree_in, count_in, stored_in};

use rules::{Answer, Fault, Pass, Tree, TreeEntry};

// Frames a child, words a child, children a tree; the most CPUs.
const CHILD_FRAMES: u16 = 512;

const CHILD_WORDS: usize = 8;

const TREE_CHILDREN: u16 = 32;

const MOST_CPUS: usize = 64;

// ---- a zone's size

// The huge frames of a zone, less one: 1 to 65,536 of them and no other number.
#[derive(Clone, Copy)]
pub struct Size(pub u16);

impl Size {
    pub fn huge_frames(self) -> u32
        ensures { result ≡ huge_of self }
    {
        self.0 as u32 + 1
    }

    pub fn trees(self) -> u16
        ensures { result ≡ trees_of (shape_of self) }
    {
        self.0 / TREE_CHILDREN + 1
    }

    // The children of a tree; none, where the zone has no such tree.
    pub fn children_of(self, tree: Tree) -> u16
        ensures { result ≡ children_of (shape_of self) tree.0 }
    {
        let last = self.0 / TREE_CHILDREN;
        if tree.0 < last {
            return TREE_CHILDREN;
        }
        if tree.0 == last {
            return self.0 % TREE_CHILDREN + 1;
        }
        0
    }

    pub fn capacity_of(self, tree: Tree) -> u16
        ensures { result ≡ capacity (shape_of self) tree.0 }
    {
        CHILD_FRAMES * self.children_of(tree)
    }

    // Whether the tables have the lengths that the size asks for.
    pub fn lengths_fit(self, words: usize, children: usize, trees: usize, cpus: usize) -> bool
        ensures { result ≡ passes (lengths_of self words children trees cpus) }
    {
        let huge = self.huge_frames() as usize;
        if words != CHILD_WORDS * huge {
            return false;
        }
        if children != huge {
            return false;
        }
        if trees != self.trees() as usize {
            return false;
        }
        if cpus == 0 {
            return false;
        }
        cpus <= MOST_CPUS
    }
}

// ---- the header: identifier (16), format (4), marker (2), n (17), zero (25)

const IDENTIFIER: u64 = 0x4c46;

const FORMAT: u64 = 1;

const RUNNING: u64 = 1;

const CLEAN: u64 = 2;

const MOST_HUGE: u64 = 65536;

#[derive(Clone, Copy)]
struct HeaderFields {
    identifier: u64,
    format: u64,
    marker: u64,
    huge: u64,
    zero: u64,
}

fn split_header(word: u64) -> HeaderFields
    ensures { result ≡ header_fields word }
{
    HeaderFields {
        identifier: word >> 48,
        format: (word >> 44) & 0xf,
        marker: (word >> 42) & 0x3,
        huge: (word >> 25) & 0x1_ffff,
        zero: word & 0x1ff_ffff,
    }
}

fn join_header(marker: u64, size: Size) -> u64
    requires { marker < 4 }
    ensures { result ≡ header_word marker (huge_of size) }
{
    IDENTIFIER << 48 | FORMAT << 44 | marker << 42 | (size.huge_frames() as u64) << 25
}

#[derive(Clone, Copy)]
pub enum Zoned {
    Running(Size),
    Clean(Size),
}

fn sized(huge: u64) -> Size
    requires { (0 < huge) × (huge ≤ 65536) }
    ensures { result ≡ sized huge }
{
    Size((huge - 1) as u16)
}

fn header_says(word: u64) -> Result<Zoned, Answer>
    ensures { result ≡ by_header (header_says word) (Err Answer.NotAZone) (λ n. Ok (Zoned.Running (sized n))) (λ n. Ok (Zoned.Clean (sized n))) }
{
    let h = split_header(word);
    if h.identifier != IDENTIFIER {
        return Err(Answer::NotAZone);
    }
    if h.format != FORMAT {
        return Err(Answer::NotAZone);
    }
    if h.huge == 0 {
        return Err(Answer::NotAZone);
    }
    if MOST_HUGE < h.huge {
        return Err(Answer::NotAZone);
    }
    if h.zero != 0 {
        return Err(Answer::NotAZone);
    }
    if h.marker == RUNNING {
        return Ok(Zoned::Running(sized(h.huge)));
    }
    if h.marker == CLEAN {
        return Ok(Zoned::Clean(sized(h.huge)));
    }
    Err(Answer::NotAZone)
}

// What a header slice says: its length first, then its one entry.
pub fn zone_says(header: &[u64]) -> Result<Zoned, Answer>
    ensures { result ≡ zoned_in header.now }
{
    if header.len() != 1 {
        return Err(Answer::BadBuffers);
    }
    header_says(header[0])
}

// The header while create is under way: no zone.
pub fn store_unborn(header: &mut [u64]) -> Result<(), Fault>
    ensures { outcome result header.new ≡ stored_in 0 0 header.old }
{
    if header.len() == 0 {
        return Err(Fault::NoEntry);
    }
    // create: the header first
    header[0] = 0;
    Ok(())
}

pub fn store_running(header: &mut [u64], size: Size) -> Result<(), Fault>
    ensures { outcome result header.new ≡ stored_in 0 (header_word running (huge_of size)) header.old }
{
    if header.len() == 0 {
        return Err(Fault::NoEntry);
    }
    // create: the header last; open: the header first
    header[0] = join_header(RUNNING, size);
    Ok(())
}

pub fn store_clean(header: &mut [u64], size: Size) -> Result<(), Fault>
    ensures { outcome result header.new ≡ stored_in 0 (header_word clean (huge_of size)) header.old }
{
    if header.len() == 0 {
        return Err(Fault::NoEntry);
    }
    // close: the header
    header[0] = join_header(CLEAN, size);
    Ok(())
}

// ---- a tree's entry: reserved r (1), count (15)

#[derive(Clone, Copy)]
struct TreeFields {
    reserved: u16,
    count: u16,
}

fn split_tree(word: u16) -> TreeFields
    ensures { result ≡ tree_fields word }
{
    TreeFields {
        reserved: word >> 15,
        count: word & 0x7fff,
    }
}

fn join_tree(reserved: u16, count: u16) -> u16
    requires { (reserved < 2) × (count < 2 ^ 15) }
    ensures { result ≡ tree_word reserved count }
{
    reserved << 15 | count
}

fn tree_says(size: Size, tree: Tree, word: u16) -> Option<TreeEntry>
    ensures { result ≡ tree_says (shape_of size) tree word }
{
    let f = split_tree(word);
    if size.capacity_of(tree) < f.count {
        return None;
    }
    Some(TreeEntry {
        reserved: f.reserved,
        count: f.count,
    })
}

// What a tree's entry says.
pub fn look_tree(trees: &[u16], size: Size, tree: Tree) -> Result<TreeEntry, Fault>
    ensures { result ≡ look_tree_in size tree trees.now }
{
    let at = tree.0 as usize;
    if trees.len() <= at {
        return Err(Fault::NoEntry);
    }
    tree_says(size, tree, trees[at]).ok_or(Fault::Damaged)
}

impl Size {
    // A count that the tree can have. One above the capacity is damaged.
    pub fn count_in(self, tree: Tree, count: u32) -> Result<u16, Fault>
        ensures { result ≡ count_in self tree count }
    {
        if (self.capacity_of(tree) as u32) < count {
            return Err(Fault::Damaged);
        }
        Ok(count as u16)
    }
}

// Rule 1: the count is taken, leaving 0; r stays.
pub fn take_count(trees: &mut [u16], size: Size, tree: Tree) -> Result<u16, Fault>
    ensures { outcome result trees.new ≡ take_count_in size tree trees.old }
{
    let at = tree.0 as usize;
    let TreeEntry { reserved, count } = look_tree(trees, size, tree)?;
    // rule 1: the tree's count into hand
    trees[at] = join_tree(reserved, 0);
    Ok(count)
}

// A count rises by `frames`; r stays. A sum above the capacity is damaged.
pub fn add_count(trees: &mut [u16], size: Size, tree: Tree, frames: u16) -> Result<(), Fault>
    ensures { outcome result trees.new ≡ add_count_in size tree frames trees.old }
{
    let at = tree.0 as usize;
    let TreeEntry { reserved, count } = look_tree(trees, size, tree)?;
    let sum = size.count_in(tree, count as u32 + frames as u32)?;
    // rules 1 and 7, giving back: the tree's count rises, r stays
    trees[at] = join_tree(reserved, sum);
    Ok(())
}

// Rule 2: a count rises by `frames`, and r is cleared.
pub fn unreserve(trees: &mut [u16], size: Size, tree: Tree, frames: u16) -> Result<(), Fault>
    ensures { outcome result trees.new ≡ unreserve_in size tree frames trees.old }
{
    let at = tree.0 as usize;
    let TreeEntry { reserved: _, count } = look_tree(trees, size, tree)?;
    let sum = size.count_in(tree, count as u32 + frames as u32)?;
    // rule 2: the hand to the tree's count, r clear
    trees[at] = join_tree(0, sum);
    Ok(())
}

// Classes, by count: allocated below 2,048; free above 14,336; partial between.
const LOW_EDGE: u16 = 2048;

const HIGH_EDGE: u16 = 14336;

// Rule 3: near takes partial or free; then partial; then free; then any.
fn fits_class(pass: Pass, count: u16) -> bool
    ensures { result ≡ fits pass (class_of count) }
{
    match pass {
        Pass::Near { tree: _, base: _ } => LOW_EDGE <= count,
        Pass::Partial(_) => {
            if count < LOW_EDGE {
                return false;
            }
            count <= HIGH_EDGE
        }
        Pass::Free(_) => HIGH_EDGE < count,
        Pass::Any(_) => true,
    }
}

// Rule 3: with r clear, a class that fits and a count of at least `frames`, r is set and the count taken.
pub fn reserve(trees: &mut [u16], size: Size, pass: Pass, frames: u16) -> Result<Option<u16>, Fault>
    ensures { outcome result trees.new ≡ reserve_in size pass frames trees.old }
{
    let tree = pass.tree();
    let at = tree.0 as usize;
    let TreeEntry { reserved, count } = look_tree(trees, size, tree)?;
    if reserved != 0 {
        return Ok(None);
    }
    if count < frames {
        return Ok(None);
    }
    if fits_class(pass, count) {
        // rule 3: r is set, the tree's count into hand
        trees[at] = join_tree(1, 0);
        return Ok(Some(count));
    }
    Ok(None)
}

// Rule 4: the hand with the tree's count, which leaves 0; r stays. A sum above the capacity is damaged.
pub fn take_with(trees: &mut [u16], size: Size, tree: Tree, hand: u16) -> Result<u16, Fault>
    ensures { outcome result trees.new ≡ take_with_in size tree hand trees.old }
{
    let at = tree.0 as usize;
    let TreeEntry { reserved, count } = look_tree(trees, size, tree)?;
    let sum = size.count_in(tree, count as u32 + hand as u32)?;
    // rule 4: the tree's count into hand
    trees[at] = join_tree(reserved, 0);
    Ok(sum)
}

// Create and open: a count with r clear, whatever stood there. A count above the capacity is damaged.
pub fn store_count(trees: &mut [u16], size: Size, tree: Tree, count: u32) -> Result<(), Fault>
    ensures { outcome result trees.new ≡ store_count_in size tree count trees.old }
{
    let at = tree.0 as usize;
    if trees.len() <= at {
        return Err(Fault::NoEntry);
    }
    let count = size.count_in(tree, count)?;
    // create and open: a tree
    trees[at] = join_tree(0, count);
    Ok(())
}
