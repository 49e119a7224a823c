// A CPU's entry. Each function reads one entry and stores one at most.
// A function takes a slice of any length and any numbers. What is wrong it answers, and then it stores nothing.
#![tactic(auto)]

ghost use Rattle.std.specs.Prelude.{◌≡◌, [], ◌∷◌, ◌^◌, ◌<◌};
ghost use Rattle.laws.specs.Tables.{outcome};
ghost use Rattle.laws.specs.Fields.{join};
ghost use Rattle.rules.specs.Numbers.{format1};
ghost use Rattle.rules.specs.Entries.{cpu_layout, cpu_says};
ghost use Rattle.entries.specs.Sizes.{shape_of};
ghost use Rattle.entries.specs.Steps.{stored_in};
ghost use Rattle.cpu_entries.specs.Steps.{cpu_fields, claim_own_in, add_own_in, claim_or_release_in, release_in, write_in, steal_in, set_start_in, look_cpu_in, held_in};

use entries::Size;
use rules::{CpuEntry, Fault, Tree};

// ---- a CPU's entry: present (1), tree (11), start child (5), count (15), zero (32); an absent entry is the zero word

#[derive(Clone, Copy)]
struct CpuFields {
    present: u64,
    tree: u16,
    start: u8,
    count: u16,
    zero: u64,
}

fn split_cpu(word: u64) -> CpuFields
    ensures { result ≡ cpu_fields word }
{
    CpuFields {
        present: word >> 63,
        tree: ((word >> 52) & 0x7ff) as u16,
        start: ((word >> 47) & 0x1f) as u8,
        count: ((word >> 32) & 0x7fff) as u16,
        zero: word & 0xffff_ffff,
    }
}

fn join_cpu(tree: Tree, start: u8, count: u16) -> u64
    requires { (tree.0 < 2 ^ 11) × (start < 2 ^ 5) × (count < 2 ^ 15) }
    ensures { result ≡ join (cpu_layout format1) (1 ∷ tree.0 ∷ start ∷ count ∷ 0 ∷ []) }
{
    1u64 << 63 | (tree.0 as u64) << 52 | (start as u64) << 47 | (count as u64) << 32
}

fn cpu_says(size: Size, word: u64) -> Option<CpuEntry>
    ensures { result ≡ cpu_says (shape_of size) word }
{
    if word == 0 {
        return Some(CpuEntry::Absent);
    }
    let f = split_cpu(word);
    let tree = Tree(f.tree);
    if f.present == 0 {
        return None;
    }
    if f.zero != 0 {
        return None;
    }
    if size.children_of(tree) <= f.start as u16 {
        return None;
    }
    if size.capacity_of(tree) < f.count {
        return None;
    }
    Some(CpuEntry::Holds {
        tree,
        start: f.start,
        count: f.count,
    })
}

// What a CPU's entry says.
pub fn look_cpu(cpus: &[u64], size: Size, cpu: usize) -> Result<CpuEntry, Fault>
    ensures { result ≡ look_cpu_in size cpu cpus.now }
{
    if cpus.len() <= cpu {
        return Err(Fault::NoEntry);
    }
    cpu_says(size, cpus[cpu]).ok_or(Fault::Damaged)
}

// What an entry has besides its tree.
#[derive(Clone, Copy)]
struct Held {
    start: u8,
    count: u16,
}

// The entry, if it holds the tree.
fn held_at(cpus: &[u64], size: Size, cpu: usize, tree: Tree) -> Result<Option<Held>, Fault>
    ensures { result ≡ held_in size cpu tree cpus.now }
{
    let entry = look_cpu(cpus, size, cpu)?;
    match entry {
        CpuEntry::Absent => Ok(None),
        CpuEntry::Holds {
            tree: held,
            start,
            count,
        } => {
            if held != tree {
                return Ok(None);
            }
            Ok(Some(Held { start, count }))
        }
    }
}

// Rule 1: what the own entry gives.
#[derive(Clone, Copy)]
pub enum Claimed {
    Absent,
    Claimed { tree: Tree, start: u8 },
    Short(Tree),
}

// Rule 1, the second look: an entry that holds the tree is changed; one that does not is left alone.
#[derive(Clone, Copy)]
pub enum Again {
    Claimed(u8),
    Released(u16),
    Missed,
}

// Rule 4: what the entry held.
#[derive(Clone, Copy)]
pub struct Stolen {
    pub tree: Tree,
    pub count: u16,
}

// Rule 1: a count of at least `frames` loses `frames`, the claim.
pub fn claim_own(cpus: &mut [u64], size: Size, cpu: usize, frames: u16) -> Result<Claimed, Fault>
    ensures { outcome result cpus.new ≡ claim_own_in size cpu frames cpus.old }
{
    let entry = look_cpu(cpus, size, cpu)?;
    match entry {
        CpuEntry::Absent => Ok(Claimed::Absent),
        CpuEntry::Holds { tree, start, count } => {
            if count < frames {
                return Ok(Claimed::Short(tree));
            }
            // rule 1: the claim
            cpus[cpu] = join_cpu(tree, start, count - frames);
            Ok(Claimed::Claimed { tree, start })
        }
    }
}

// The entry, if it holds the tree, counts `frames` more. A sum above the capacity is damaged.
pub fn add_own(
    cpus: &mut [u64],
    size: Size,
    cpu: usize,
    tree: Tree,
    frames: u16,
) -> Result<bool, Fault>
    ensures { outcome result cpus.new ≡ add_own_in size cpu tree frames cpus.old }
{
    let Some(Held { start, count }) = held_at(cpus, size, cpu, tree)? else {
        return Ok(false);
    };
    let sum = size.count_in(tree, count as u32 + frames as u32)?;
    // rule 1, giving back: the entry's count rises
    cpus[cpu] = join_cpu(tree, start, sum);
    Ok(true)
}

// Rule 1, the second look: the entry, if it holds the tree, is claimed from, or released.
pub fn claim_or_release(
    cpus: &mut [u64],
    size: Size,
    cpu: usize,
    tree: Tree,
    frames: u16,
) -> Result<Again, Fault>
    ensures { outcome result cpus.new ≡ claim_or_release_in size cpu tree frames cpus.old }
{
    let Some(Held { start, count }) = held_at(cpus, size, cpu, tree)? else {
        return Ok(Again::Missed);
    };
    if count < frames {
        // rule 2: the release
        cpus[cpu] = 0;
        return Ok(Again::Released(count));
    }
    // rule 1: the claim
    cpus[cpu] = join_cpu(tree, start, count - frames);
    Ok(Again::Claimed(start))
}

// Rule 2: the entry, if it holds the tree, becomes absent; what it counted.
pub fn release(cpus: &mut [u64], size: Size, cpu: usize, tree: Tree) -> Result<Option<u16>, Fault>
    ensures { outcome result cpus.new ≡ release_in size cpu tree cpus.old }
{
    let Some(Held { start: _, count }) = held_at(cpus, size, cpu, tree)? else {
        return Ok(None);
    };
    // rule 2: the release
    cpus[cpu] = 0;
    Ok(Some(count))
}

// Rule 3: the entry anew, with start child 0. A tree that the zone has not, or a count above its capacity, is damaged.
pub fn write(cpus: &mut [u64], size: Size, cpu: usize, tree: Tree, count: u16) -> Result<(), Fault>
    ensures { outcome result cpus.new ≡ write_in size cpu tree count cpus.old }
{
    look_cpu(cpus, size, cpu)?;
    if size.trees() <= tree.0 {
        return Err(Fault::Damaged);
    }
    let count = size.count_in(tree, count as u32)?;
    // rule 3: the entry anew
    cpus[cpu] = join_cpu(tree, 0, count);
    Ok(())
}

// Rule 4: a present entry becomes absent; what it held.
pub fn steal(cpus: &mut [u64], size: Size, cpu: usize) -> Result<Option<Stolen>, Fault>
    ensures { outcome result cpus.new ≡ steal_in size cpu cpus.old }
{
    let entry = look_cpu(cpus, size, cpu)?;
    match entry {
        CpuEntry::Absent => Ok(None),
        CpuEntry::Holds {
            tree,
            start: _,
            count,
        } => {
            // rule 4: the steal
            cpus[cpu] = 0;
            Ok(Some(Stolen { tree, count }))
        }
    }
}

// Rule 6: the entry, if it holds the tree, gets a start child. One that the tree has not is damaged.
pub fn set_start(
    cpus: &mut [u64],
    size: Size,
    cpu: usize,
    tree: Tree,
    child: u8,
) -> Result<bool, Fault>
    ensures { outcome result cpus.new ≡ set_start_in size cpu tree child cpus.old }
{
    let Some(Held { start: _, count }) = held_at(cpus, size, cpu, tree)? else {
        return Ok(false);
    };
    if size.children_of(tree) <= child as u16 {
        return Err(Fault::Damaged);
    }
    // rule 6: the start child
    cpus[cpu] = join_cpu(tree, child, count);
    Ok(true)
}

// Create and open: an absent entry, whatever stood there.
pub fn store_absent(cpus: &mut [u64], cpu: usize) -> Result<(), Fault>
    ensures { outcome result cpus.new ≡ stored_in cpu 0 cpus.old }
{
    if cpus.len() <= cpu {
        return Err(Fault::NoEntry);
    }
    // create and open: a CPU's entry
    cpus[cpu] = 0;
    Ok(())
}
