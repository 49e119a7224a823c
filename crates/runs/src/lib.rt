// Runs of gets and puts. A run from a first stage goes on as far as the shorter ways lead; what is left is made by single steps.
#![tactic(auto)]

ghost use Rattle.std.specs.Prelude.{◌≡◌, ◌-◌, max};
ghost use Rattle.rules.specs.Step.{step, runs, follow};
ghost use Rattle.calls.specs.Results.{zone, ran_to, WentOn};

use calls::{Ended, Way};
use rules::{Answer, Giving, Record, Taking};

// The steps that are left after `made` of `fuel`, one by one.
pub fn step_on(
    header: &[u64],
    words: &mut [u64],
    children: &mut [u16],
    trees: &mut [u16],
    cpus: &mut [u64],
    rec: Record,
    made: u64,
    fuel: u64,
) -> Ended
    ensures { ran_to result (zone header.now words.new children.new trees.new cpus.new) ≡ follow step (fuel - made) made (Answer.UnderWay rec) (zone header.now words.old children.old trees.old cpus.old) }
{
    let mut step = |at: Record| upper::step(header, words, children, trees, cpus, at);
    calls::follow(&mut step, rec, made, fuel)
}

// A first stage goes on at once; every other record is left to the steps. The stage is matched by itself: one pattern for both takes more instructions.
fn first_way(
    header: &[u64],
    words: &mut [u64],
    children: &mut [u16],
    trees: &mut [u16],
    cpus: &mut [u64],
    rec: Record,
    fuel: u64,
) -> Way
    ensures { WentOn step fuel 0 (rec) result (zone header.now words.new children.new trees.new cpus.new) (zone header.now words.old children.old trees.old cpus.old) }
{
    match rec {
        Record::Get { cpu, stage } => {
            if let Taking::Own(order) = stage {
                return get_runs::get_on(header, words, children, trees, cpus, cpu, order, fuel);
            }
            Way::Goes { rec, steps: 0 }
        }
        Record::Put { cpu, stage } => {
            if let Giving::Clear(block) = stage {
                return put_runs::put_on(header, words, children, trees, cpus, cpu, block, fuel);
            }
            Way::Goes { rec, steps: 0 }
        }
        _ => Way::Goes { rec, steps: 0 },
    }
}

// Up to `fuel` steps of a get or put in one call, one at least, counted. Out of steps it answers 1 with the record. A refused step stores nothing: the tables are
// those after the last good step. For memory without cuts: a cut is admitted between calls only, and memory that survives one is driven by single steps.
pub fn run(
    header: &[u64],
    words: &mut [u64],
    children: &mut [u16],
    trees: &mut [u16],
    cpus: &mut [u64],
    rec: Record,
    fuel: u64,
) -> Ended
    ensures { ran_to result (zone header.now words.new children.new trees.new cpus.new) ≡ runs (max 1 fuel) (zone header.now words.old children.old trees.old cpus.old) rec }
{
    let most = calls::at_least_one(fuel);
    match first_way(header, words, children, trees, cpus, rec, most) {
        Way::Ends(ended) => ended,
        Way::Goes { rec: next, steps } => step_on(
            header, words, children, trees, cpus, next, steps, most,
        ),
    }
}
