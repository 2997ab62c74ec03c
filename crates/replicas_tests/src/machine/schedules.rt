//! Three nodes whose machines take single operations in a drawn order.
ghost use Rattle.nr_machine.specs.Sound.{IsSound};

use crate::machine::counters::{Counters, add};
use crate::machine::words::{Words, carry_out};
use nr_machine::{Asked, Node, Update, everywhere};

/// The next drawn number.
fn drawn(seed: u64) -> u64 {
    seed.wrapping_mul(6_364_136_223_846_793_005)
        .wrapping_add(1_442_695_040_888_963_407)
}

/// What a machine does next: one operation, one entry, or nothing where it is at rest. Whether it is.
fn step(node: &mut Node, words: &mut Words, counters: &mut Counters) -> bool
    requires { IsSound node.old }
    ensures { IsSound node.new }
{
    match node.asks() {
        Asked::Carry(operation) => {
            let was = carry_out(words, operation);
            let _next = node.told(was);
            false
        }
        Asked::Apply(update) => {
            let reply = add(counters, update);
            let _next = node.applied(reply);
            false
        }
        Asked::Lags(_) => {
            let _next = node.told(0);
            false
        }
        Asked::Done | Asked::Broken => true,
    }
}

/// Begins a call at a machine that is at rest: of one to three updates that add 1, where so many are left, or a sync. How many are left.
fn begin(node: &mut Node, seed: u64, left: u64) -> u64
    requires { IsSound node.old }
    ensures { IsSound node.new }
{
    let count = seed / 65_536 % 4;
    if count == 0 || count > left {
        let _asked = node.sync(u64::MAX);
        return left;
    }
    let updates = [Update {
        first: seed / 1_048_576 % 4,
        second: 1,
    }; 3];
    match node.update(&updates[..count as usize]) {
        Ok(_) => left - count,
        Err(_) => left,
    }
}

/// Goes on with a machine: a step, or the begin of a call. How many updates are left.
fn go_on(node: &mut Node, words: &mut Words, counters: &mut Counters, seed: u64, left: u64) -> u64
    requires { IsSound node.old }
    ensures { IsSound node.new }
{
    if step(node, words, counters) {
        begin(node, seed, left)
    } else {
        left
    }
}

/// Has a machine take so many steps, alone.
fn take_steps(node: &mut Node, words: &mut Words, counters: &mut Counters)
    requires { IsSound node.old }
    ensures { IsSound node.new }
{
    'steps: for _ in 0..500 {
        let _rests = step(node, words, counters);
    }
}

/// Has a machine end its call and then take all that there is, alone.
fn settle(node: &mut Node, words: &mut Words, counters: &mut Counters)
    requires { IsSound node.old }
    ensures { IsSound node.new }
{
    take_steps(node, words, counters);
    let _asked = node.sync(u64::MAX);
    take_steps(node, words, counters);
}

/// What three nodes keep after 60 updates in a drawn schedule; the head, and what each is done with.
fn run(first: u64) -> ([Counters; 3], u64, [u64; 3]) {
    let mut words = [0; 138];
    let mut counters = [[0; 4]; 3];
    let [mut one, mut two, mut three] = counters;
    let (Some(mut a), Some(mut b), Some(mut c)) = (
        Node::new(3, 0),
        Node::new(3, 1),
        Node::new(3, 2),
    ) else {
        return (counters, 0, [0; 3]);
    };
    let mut left = 60;
    let mut seed = first;
    'steps: for _ in 0..4_000 {
        seed = drawn(seed);
        left = match seed / 8_589_934_592 % 3 {
            0 => go_on(&mut a, &mut words, &mut one, seed, left),
            1 => go_on(&mut b, &mut words, &mut two, seed, left),
            _ => go_on(&mut c, &mut words, &mut three, seed, left),
        };
    }
    'ends: for _ in 0..2 {
        settle(&mut a, &mut words, &mut one);
        settle(&mut b, &mut words, &mut two);
        settle(&mut c, &mut words, &mut three);
    }
    counters = [one, two, three];
    (counters, words[0] / 128, [words[6], words[7], words[8]])
}

// All nodes keep the same counters after each drawn schedule, each update is counted once, and all are done with the last one.
#[test]
fn nodes_keep_the_same_counters(rt: HostRuntime) {
    for seed in 0..20 {
        let ([one, two, three], tail, done) = run(seed);
        assert!(rt; one == two && two == three);
        assert!(rt;
            tail == 60 && one.iter().fold(0u64, |sum, count| sum.wrapping_add(*count)) == 60
        );
        assert!(rt; everywhere(&done, 59) && !everywhere(&done, 60));
    }
}
