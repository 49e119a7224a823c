// "This zone is settled", and close. Both look at every entry; words and children by the lower level alone.
#![tactic(auto)]

ghost use Rattle.std.specs.Prelude.{◌≡◌, []};
ghost use Rattle.rules.specs.Open.{settled, close_zone};
ghost use Rattle.places.specs.Shapes.{shape_of};
ghost use Rattle.calls.specs.Results.{zone, result_of, done, Fits};
ghost use Rattle.closing.specs.Verdicts.{sound_in, verdict_in};

use places::Shape;
use rules::{Answer, Frame};

// No malformed child, no child with a set over a field that isn't all zero, no malformed tree or CPU entry.
fn sound(words: &[u64], children: &[u16], trees: &[u16], cpus: &[u64], shape: Shape) -> bool
    requires { Fits shape words.now children.now trees.now cpus.now }
    ensures { result ≡ sound_in (shape_of shape) (zone [] words.now children.now trees.now cpus.now) }
{
    if !looks::children_formed(children) {
        return false;
    }
    if !looks::flags_empty(children, words) {
        return false;
    }
    if !looks::trees_formed(trees, shape) {
        return false;
    }
    looks::cpus_formed(cpus, shape)
}

// Every child with a clear counts its zero bits, and every tree's count plus the CPU counts that hold it equals its children's sum.
fn all_settled(words: &[u64], children: &[u16], trees: &[u16], cpus: &[u64], shape: Shape) -> bool
    requires { Fits shape words.now children.now trees.now cpus.now }
    ensures { result ≡ settled (shape_of shape) (zone [] words.now children.now trees.now cpus.now) }
{
    if !looks::children_settled(children, words) {
        return false;
    }
    looks::trees_settled(children, trees, cpus, shape)
}

// What close finds before its store: a settled zone's shape, or the refusal.
fn judge(
    header: &[u64],
    words: &[u64],
    children: &[u16],
    trees: &[u16],
    cpus: &[u64],
) -> Result<Shape, Answer>
    ensures { result ≡ verdict_in header.now words.now children.now trees.now cpus.now }
{
    let shape = calls::check(header, words.len(), children.len(), trees.len(), cpus.len())?;
    if !sound(words, children, trees, cpus, shape) {
        return Err(Answer::Damaged);
    }
    if !all_settled(words, children, trees, cpus, shape) {
        return Err(Answer::NotSettled);
    }
    Ok(shape)
}

// "This zone is settled": what close answers, without its store. 8 for the header slice, 9, 10, 8, 12, 13; Done with frame 0.
pub fn settled(
    header: &[u64],
    words: &[u64],
    children: &[u16],
    trees: &[u16],
    cpus: &[u64],
) -> Answer
    ensures { result ≡ (close_zone (zone header.now words.now children.now trees.now cpus.now)).answer }
{
    match judge(header, words, children, trees, cpus) {
        Err(answer) => answer,
        Ok(_) => Answer::Done(Frame(0)),
    }
}

// Close, one step: 8 for the header slice, 9, 10, 8, 12, 13; then the header says clean.
pub fn close(
    header: &mut [u64],
    words: &[u64],
    children: &[u16],
    trees: &[u16],
    cpus: &[u64],
) -> Answer
    ensures { result_of result (zone header.new words.now children.now trees.now cpus.now) ≡ done (zone header.old words.now children.now trees.now cpus.now) (close_zone (zone header.old words.now children.now trees.now cpus.now)) }
{
    match judge(header, words, children, trees, cpus) {
        Err(answer) => answer,
        Ok(shape) => match entries::store_clean(header, shape.size) {
            Ok(()) => Answer::Done(Frame(0)),
            Err(_) => Answer::BadBuffers,
        },
    }
}
