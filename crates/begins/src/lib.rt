// The beginnings of gets and puts. Every check is made here, in document 01's order; nothing is stored.
#![tactic(auto)]

ghost use Rattle.std.specs.Prelude.{◌≡◌, ◌^◌, ◌<◌};
ghost use Rattle.rules.specs.Begin.{begin_get, begin_put};
ghost use Rattle.calls.specs.Results.{zone, result_of, done};
ghost use Rattle.begins.specs.Orders.{order_at_in, block_of_in};
ghost use Rattle.begins.specs.Begun.{Gets, Puts};

use places::Shape;
use rules::{Answer, Block, Frame, Giving, Huge, Order, Taking};

const CHILD_FRAMES: u64 = 512;

// Orders 0 to 6.
const RUNS: u64 = 7;

fn order_at(order: u64) -> Option<Order>
    ensures { result ≡ order_at_in order }
{
    if order < RUNS {
        return Some(Order::Run(rules::run_of(order)));
    }
    if order == 9 {
        return Some(Order::Nine);
    }
    None
}

// ---- gets

// What the numbers of a get come to: the zone's shape, the CPU and the order.
#[derive(Clone, Copy)]
pub struct Getting {
    pub shape: Shape,
    pub cpu: u8,
    pub order: Order,
}

// A get's checks: 8 for the header slice, 9, 10, 8, 7, 3. Inlined, as what a put's checks call, for the bar of a get and put in one call (D105).
#[inline(always)]
pub fn get_of(
    header: &[u64],
    words: &[u64],
    children: &[u16],
    trees: &[u16],
    cpus: &[u64],
    cpu: u64,
    order: u64,
) -> Result<Getting, Answer>
    ensures { Gets (zone header.now words.now children.now trees.now cpus.now) cpu order result }
{
    let shape = calls::check(header, words.len(), children.len(), trees.len(), cpus.len())?;
    if shape.cpus as u64 <= cpu {
        return Err(Answer::BadCpu);
    }
    let order = order_at(order).ok_or(Answer::BadOrder)?;
    Ok(Getting {
        shape,
        cpu: cpu as u8,
        order,
    })
}

// Begins a get. Nothing is stored.
pub fn begin_get(
    header: &[u64],
    words: &[u64],
    children: &[u16],
    trees: &[u16],
    cpus: &[u64],
    cpu: u64,
    order: u64,
) -> Answer
    ensures { result_of result (zone header.now words.now children.now trees.now cpus.now) ≡ done (zone header.now words.now children.now trees.now cpus.now) (begin_get (zone header.now words.now children.now trees.now cpus.now) cpu order) }
{
    match get_of(header, words, children, trees, cpus, cpu, order) {
        Ok(got) => calls::get(got.cpu, Taking::Own(got.order)),
        Err(answer) => answer,
    }
}

// ---- puts

// What the numbers of a put come to: the zone's shape, the CPU and the block.
#[derive(Clone, Copy)]
pub struct Putting {
    pub shape: Shape,
    pub cpu: u8,
    pub block: Block,
}

// The block of a frame of the zone, by its order; 5 where the frame is not the first of one.
#[inline(always)]
fn block_of(frame: Frame, order: Order) -> Result<Block, Answer>
    requires { frame.0 < 2 ^ 25 }
    ensures { result ≡ block_of_in frame order }
{
    if frame.0 % order.frames() as u64 != 0 {
        return Err(Answer::Misaligned);
    }
    match order {
        Order::Run(run) => Ok(Block::Run { run, first: frame }),
        Order::Nine => Ok(Block::Whole(Huge((frame.0 / CHILD_FRAMES) as u32))),
    }
}

// A put's checks: 8 for the header slice, 9, 10, 8, 7, 3, 4, 5.
#[inline(always)]
pub fn put_of(
    header: &[u64],
    words: &[u64],
    children: &[u16],
    trees: &[u16],
    cpus: &[u64],
    cpu: u64,
    frame: Frame,
    order: u64,
) -> Result<Putting, Answer>
    ensures { Puts (zone header.now words.now children.now trees.now cpus.now) cpu frame order result }
{
    let shape = calls::check(header, words.len(), children.len(), trees.len(), cpus.len())?;
    if shape.cpus as u64 <= cpu {
        return Err(Answer::BadCpu);
    }
    let order = order_at(order).ok_or(Answer::BadOrder)?;
    if shape.size.huge_frames() as u64 * CHILD_FRAMES <= frame.0 {
        return Err(Answer::BadFrame);
    }
    let block = block_of(frame, order)?;
    Ok(Putting {
        shape,
        cpu: cpu as u8,
        block,
    })
}

// Begins a put. Nothing is stored.
pub fn begin_put(
    header: &[u64],
    words: &[u64],
    children: &[u16],
    trees: &[u16],
    cpus: &[u64],
    cpu: u64,
    frame: Frame,
    order: u64,
) -> Answer
    ensures { result_of result (zone header.now words.now children.now trees.now cpus.now) ≡ done (zone header.now words.now children.now trees.now cpus.now) (begin_put (zone header.now words.now children.now trees.now cpus.now) cpu frame order) }
{
    match put_of(header, words, children, trees, cpus, cpu, frame, order) {
        Ok(put) => calls::put(put.cpu, Giving::Clear(put.block)),
        Err(answer) => answer,
    }
}
