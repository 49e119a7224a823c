// Looks at a whole table, entry by entry, the lowest number first; nothing is stored. Words and children are read by the lower level alone.
// A function takes tables of any length.
#![tactic(auto)]

ghost use Rattle.std.specs.Prelude.{◌≡◌};
ghost use Rattle.lower.specs.Steps.{zeros_in};
ghost use Rattle.looks.specs.Entries.{formed_in, empty_in, flag_in, counts_as, settled_in, tree_formed_in, cpu_formed_in, tree_count_in, cpu_count_in, held_in, child_count_in, tree_settled_in};
ghost use Rattle.looks.specs.Looks.{children_formed_in, part_formed_in, flags_empty_in, children_settled_in, trees_formed_in, cpus_formed_in, trees_settled_in};

use places::Shape;
use rules::{ChildEntry, CpuEntry, Fault, Tree};

const CHILD_WORDS: usize = 8;

const TREE_CHILDREN: usize = 32;

// ---- children

fn child_formed(children: &[u16], child: usize) -> bool
    ensures { result ≡ formed_in children.now child }
{
    lower::look(children, child).is_ok()
}

// No malformed child.
pub fn children_formed(children: &[u16]) -> bool
    ensures { result ≡ children_formed_in children.now }
{
    (0..children.len()).all(|child| child_formed(children, child))
}

// Whether a child's field is all zero.
fn empty(words: &[u64], child: usize) -> bool
    ensures { result ≡ empty_in words.now child }
{
    lower::field_empty(words, child).unwrap_or(false)
}

// A child with a set has an empty field.
fn flag_fits(children: &[u16], words: &[u64], child: usize) -> bool
    ensures { result ≡ flag_in children.now words.now child }
{
    match lower::look(children, child) {
        Ok(ChildEntry::Counts(_)) => true,
        Ok(ChildEntry::Flagged) => empty(words, child),
        Err(fault) => fault == Fault::Damaged,
    }
}

// No child with a set over a field that isn't all zero. Fails where the words lack a field.
pub fn flags_empty(children: &[u16], words: &[u64]) -> bool
    ensures { result ≡ flags_empty_in children.now words.now }
{
    if words.len() / CHILD_WORDS < children.len() {
        return false;
    }
    (0..children.len()).all(|child| flag_fits(children, words, child))
}

// Whether a count is that of the zero bits of a child's field.
fn counts(words: &[u64], child: usize, count: u16) -> bool
    ensures { result ≡ counts_as count (zeros_in words.now child) }
{
    lower::zero_bits(words, child) == Ok(count)
}

// A child with a clear counts its zero bits; a malformed one counts none.
fn child_settled(children: &[u16], words: &[u64], child: usize) -> bool
    ensures { result ≡ settled_in children.now words.now child }
{
    match lower::look(children, child) {
        Ok(ChildEntry::Counts(count)) => counts(words, child, count),
        Ok(ChildEntry::Flagged) => true,
        Err(fault) => fault == Fault::Damaged && counts(words, child, 0),
    }
}

// Every child with a clear counts its zero bits. Fails where the words lack a field.
pub fn children_settled(children: &[u16], words: &[u64]) -> bool
    ensures { result ≡ children_settled_in children.now words.now }
{
    if words.len() / CHILD_WORDS < children.len() {
        return false;
    }
    (0..children.len()).all(|child| child_settled(children, words, child))
}

// ---- trees and CPUs

fn tree_formed(trees: &[u16], shape: Shape, tree: Tree) -> bool
    ensures { result ≡ tree_formed_in shape tree trees.now }
{
    entries::look_tree(trees, shape.size, tree).is_ok()
}

// No malformed tree entry. Fails where the table lacks one.
pub fn trees_formed(trees: &[u16], shape: Shape) -> bool
    ensures { result ≡ trees_formed_in shape trees.now }
{
    let n = shape.size.trees();
    if trees.len() < n as usize {
        return false;
    }
    (0..n).all(|tree| tree_formed(trees, shape, Tree(tree)))
}

fn cpu_formed(cpus: &[u64], shape: Shape, cpu: u8) -> bool
    ensures { result ≡ cpu_formed_in shape cpu cpus.now }
{
    cpu_entries::look_cpu(cpus, shape.size, cpu as usize).is_ok()
}

// No malformed CPU entry. Fails where the table lacks one.
pub fn cpus_formed(cpus: &[u64], shape: Shape) -> bool
    ensures { result ≡ cpus_formed_in shape cpus.now }
{
    if cpus.len() < shape.cpus as usize {
        return false;
    }
    (0..shape.cpus).all(|cpu| cpu_formed(cpus, shape, cpu))
}

// ---- a tree's count, the CPU counts that hold it, its children's sum

fn tree_count(trees: &[u16], shape: Shape, tree: Tree) -> u16
    ensures { result ≡ tree_count_in shape tree trees.now }
{
    entries::look_tree(trees, shape.size, tree).map_or(0, |entry| entry.count)
}

fn cpu_count(cpus: &[u64], shape: Shape, tree: Tree, cpu: u8) -> u16
    ensures { result ≡ cpu_count_in shape tree cpu cpus.now }
{
    match cpu_entries::look_cpu(cpus, shape.size, cpu as usize) {
        Ok(
            CpuEntry::Holds {
                tree: held,
                start: _,
                count,
            },
        ) if held == tree => count,
        Ok(_) => 0,
        Err(_) => 0,
    }
}

// The CPU counts that hold a tree.
fn held_of(cpus: &[u64], shape: Shape, tree: Tree) -> u32
    ensures { result ≡ held_in shape tree cpus.now }
{
    (0..shape.cpus)
        .map(|cpu| cpu_count(cpus, shape, tree, cpu) as u32)
        .sum()
}

// The sum of a tree's children; none, where the table lacks them.
pub fn child_count(children: &[u16], shape: Shape, tree: Tree) -> u32
    ensures { result ≡ child_count_in shape tree children.now }
{
    let first = tree.0 as usize * TREE_CHILDREN;
    let end = first + shape.size.children_of(tree) as usize;
    if children.len() < end {
        return 0;
    }
    lower::sum(&children[first..end]).unwrap_or(0)
}

// No malformed child in a tree's part. Fails where the table lacks it.
pub fn part_formed(children: &[u16], shape: Shape, tree: Tree) -> bool
    ensures { result ≡ part_formed_in shape tree children.now }
{
    let first = tree.0 as usize * TREE_CHILDREN;
    let end = first + shape.size.children_of(tree) as usize;
    if children.len() < end {
        return false;
    }
    children_formed(&children[first..end])
}

fn tree_settled(children: &[u16], trees: &[u16], cpus: &[u64], shape: Shape, tree: Tree) -> bool
    ensures { result ≡ tree_settled_in shape tree children.now trees.now cpus.now }
{
    let counted = tree_count(trees, shape, tree) as u64 + held_of(cpus, shape, tree) as u64;
    counted == child_count(children, shape, tree) as u64
}

// Every tree's count plus the CPU counts that hold it equals its children's sum. Fails where a table lacks an entry.
pub fn trees_settled(children: &[u16], trees: &[u16], cpus: &[u64], shape: Shape) -> bool
    ensures { result ≡ trees_settled_in shape children.now trees.now cpus.now }
{
    if children.len() < shape.size.huge_frames() as usize {
        return false;
    }
    let n = shape.size.trees();
    if trees.len() < n as usize {
        return false;
    }
    if cpus.len() < shape.cpus as usize {
        return false;
    }
    (0..n).all(|tree| tree_settled(children, trees, cpus, shape, Tree(tree)))
}
