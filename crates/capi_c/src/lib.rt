// What C links: each call of capi under its name, with the same clauses. Nothing is decided here.
#![tactic(auto)]

ghost use Rattle.std.specs.Prelude.{◌≡◌, [], ◌*◌};
ghost use Rattle.rules.specs.Numbers.{child_words};
ghost use Rattle.rules.specs.Open.{close_zone};
ghost use Rattle.calls.specs.Results.{zone};
ghost use Rattle.capi.specs.Calls.{answered_as, called, length_for, trees_for, get_call, put_call, step_call, run_call, get_run_call, put_run_call, create_call, create_step_call, create_run_call, open_call, open_step_call, open_run_call, close_call};

use capi::{Answered, Ran};

#[unsafe(no_mangle)]
pub extern "C" fn lovarntek_words(n: u64) -> u64
    ensures { result ≡ length_for n (child_words * n) }
{
    capi::lovarntek_words(n)
}

#[unsafe(no_mangle)]
pub extern "C" fn lovarntek_children(n: u64) -> u64
    ensures { result ≡ length_for n n }
{
    capi::lovarntek_children(n)
}

#[unsafe(no_mangle)]
pub extern "C" fn lovarntek_trees(n: u64) -> u64
    ensures { result ≡ length_for n (trees_for n) }
{
    capi::lovarntek_trees(n)
}

#[unsafe(no_mangle)]
pub extern "C" fn lovarntek_get(
    header: &[u64],
    words: &[u64],
    children: &[u16],
    trees: &[u16],
    cpus: &[u64],
    rec: &mut [u64],
    cpu: u64,
    order: u64,
) -> Answered
    ensures { called result (zone header.now words.now children.now trees.now cpus.now) rec.new ≡ get_call (zone header.now words.now children.now trees.now cpus.now) rec.old cpu order }
{
    capi::lovarntek_get(header, words, children, trees, cpus, rec, cpu, order)
}

#[unsafe(no_mangle)]
pub extern "C" fn lovarntek_put(
    header: &[u64],
    words: &[u64],
    children: &[u16],
    trees: &[u16],
    cpus: &[u64],
    rec: &mut [u64],
    cpu: u64,
    first: u64,
    order: u64,
) -> Answered
    ensures { called result (zone header.now words.now children.now trees.now cpus.now) rec.new ≡ put_call (zone header.now words.now children.now trees.now cpus.now) rec.old cpu first order }
{
    capi::lovarntek_put(header, words, children, trees, cpus, rec, cpu, first, order)
}

#[unsafe(no_mangle)]
pub extern "C" fn lovarntek_step(
    header: &[u64],
    words: &mut [u64],
    children: &mut [u16],
    trees: &mut [u16],
    cpus: &mut [u64],
    rec: &mut [u64],
) -> Answered
    ensures { called result (zone header.now words.new children.new trees.new cpus.new) rec.new ≡ step_call (zone header.now words.old children.old trees.old cpus.old) rec.old }
{
    capi::lovarntek_step(header, words, children, trees, cpus, rec)
}

#[unsafe(no_mangle)]
pub extern "C" fn lovarntek_run(
    header: &[u64],
    words: &mut [u64],
    children: &mut [u16],
    trees: &mut [u16],
    cpus: &mut [u64],
    rec: &mut [u64],
    fuel: u64,
) -> Ran
    ensures { called result (zone header.now words.new children.new trees.new cpus.new) rec.new ≡ run_call (zone header.now words.old children.old trees.old cpus.old) rec.old fuel }
{
    capi::lovarntek_run(header, words, children, trees, cpus, rec, fuel)
}

#[unsafe(no_mangle)]
pub extern "C" fn lovarntek_get_run(
    header: &[u64],
    words: &mut [u64],
    children: &mut [u16],
    trees: &mut [u16],
    cpus: &mut [u64],
    rec: &mut [u64],
    cpu: u64,
    order: u64,
    fuel: u64,
) -> Ran
    ensures { called result (zone header.now words.new children.new trees.new cpus.new) rec.new ≡ get_run_call (zone header.now words.old children.old trees.old cpus.old) rec.old cpu order fuel }
{
    capi::lovarntek_get_run(header, words, children, trees, cpus, rec, cpu, order, fuel)
}

#[unsafe(no_mangle)]
pub extern "C" fn lovarntek_put_run(
    header: &[u64],
    words: &mut [u64],
    children: &mut [u16],
    trees: &mut [u16],
    cpus: &mut [u64],
    rec: &mut [u64],
    cpu: u64,
    first: u64,
    order: u64,
    fuel: u64,
) -> Ran
    ensures { called result (zone header.now words.new children.new trees.new cpus.new) rec.new ≡ put_run_call (zone header.now words.old children.old trees.old cpus.old) rec.old cpu first order fuel }
{
    capi::lovarntek_put_run(
        header, words, children, trees, cpus, rec, cpu, first, order, fuel,
    )
}

#[unsafe(no_mangle)]
pub extern "C" fn lovarntek_create(
    header: &mut [u64],
    words: &[u64],
    children: &[u16],
    trees: &[u16],
    cpus: &[u64],
    rec: &mut [u64],
    n: u64,
) -> Answered
    ensures { called result (zone header.new words.now children.now trees.now cpus.now) rec.new ≡ create_call (zone header.old words.now children.now trees.now cpus.now) rec.old n }
{
    capi::lovarntek_create(header, words, children, trees, cpus, rec, n)
}

#[unsafe(no_mangle)]
pub extern "C" fn lovarntek_create_step(
    header: &mut [u64],
    words: &mut [u64],
    children: &mut [u16],
    trees: &mut [u16],
    cpus: &mut [u64],
    rec: &mut [u64],
    n: u64,
) -> Answered
    ensures { called result (zone header.new words.new children.new trees.new cpus.new) rec.new ≡ create_step_call (zone header.old words.old children.old trees.old cpus.old) rec.old n }
{
    capi::lovarntek_create_step(header, words, children, trees, cpus, rec, n)
}

#[unsafe(no_mangle)]
pub extern "C" fn lovarntek_create_run(
    header: &mut [u64],
    words: &mut [u64],
    children: &mut [u16],
    trees: &mut [u16],
    cpus: &mut [u64],
    rec: &mut [u64],
    n: u64,
    fuel: u64,
) -> Ran
    ensures { called result (zone header.new words.new children.new trees.new cpus.new) rec.new ≡ create_run_call (zone header.old words.old children.old trees.old cpus.old) rec.old n fuel }
{
    capi::lovarntek_create_run(header, words, children, trees, cpus, rec, n, fuel)
}

#[unsafe(no_mangle)]
pub extern "C" fn lovarntek_open(
    header: &mut [u64],
    words: &[u64],
    children: &[u16],
    trees: &[u16],
    cpus: &[u64],
    rec: &mut [u64],
) -> Answered
    ensures { called result (zone header.new words.now children.now trees.now cpus.now) rec.new ≡ open_call (zone header.old words.now children.now trees.now cpus.now) rec.old }
{
    capi::lovarntek_open(header, words, children, trees, cpus, rec)
}

#[unsafe(no_mangle)]
pub extern "C" fn lovarntek_open_step(
    header: &[u64],
    words: &[u64],
    children: &mut [u16],
    trees: &mut [u16],
    cpus: &mut [u64],
    rec: &mut [u64],
) -> Answered
    ensures { called result (zone header.now words.now children.new trees.new cpus.new) rec.new ≡ open_step_call (zone header.now words.now children.old trees.old cpus.old) rec.old }
{
    capi::lovarntek_open_step(header, words, children, trees, cpus, rec)
}

#[unsafe(no_mangle)]
pub extern "C" fn lovarntek_open_run(
    header: &[u64],
    words: &[u64],
    children: &mut [u16],
    trees: &mut [u16],
    cpus: &mut [u64],
    rec: &mut [u64],
    fuel: u64,
) -> Ran
    ensures { called result (zone header.now words.now children.new trees.new cpus.new) rec.new ≡ open_run_call (zone header.now words.now children.old trees.old cpus.old) rec.old fuel }
{
    capi::lovarntek_open_run(header, words, children, trees, cpus, rec, fuel)
}

#[unsafe(no_mangle)]
pub extern "C" fn lovarntek_close(
    header: &mut [u64],
    words: &[u64],
    children: &[u16],
    trees: &[u16],
    cpus: &[u64],
) -> Answered
    ensures { called result (zone header.new words.now children.now trees.now cpus.now) [] ≡ close_call (zone header.old words.now children.now trees.now cpus.now) }
{
    capi::lovarntek_close(header, words, children, trees, cpus)
}

#[unsafe(no_mangle)]
pub extern "C" fn lovarntek_settled(
    header: &[u64],
    words: &[u64],
    children: &[u16],
    trees: &[u16],
    cpus: &[u64],
) -> Answered
    ensures { result ≡ answered_as (close_zone (zone header.now words.now children.now trees.now cpus.now)).answer }
{
    capi::lovarntek_settled(header, words, children, trees, cpus)
}
