//! Worked examples: what each call on a log answers. The logs have two replicas, which the parties 0 and 1 own, and party 2 owns none.

use crate::log::scene::{Layout, Test, run};
use crate::log::steps::{Does, Step};
use vs_types::Depth;

static FILLS_AND_FREES: [Step; 13] = [
    Step(2, Does::AppendsAll(0, 0)),
    Step(2, Does::IsFull(16, 0, [0, 0, 0, 0])),
    Step(0, Does::Fetches(&[0; 16])),
    Step(0, Does::Advances(16)),
    Step(2, Does::IsFull(16, 16, [16, 0, 0, 0])),
    Step(1, Does::Advances(1)),
    Step(2, Does::Appends(1, 16)),
    Step(2, Does::Looks(17, 16, [16, 1, 0, 0])),
    Step(
        1,
        Does::Fetches(&[0, 0, 0, 0, 0, 0, 0, 0, 0, 0, 0, 0, 0, 0, 0, 1]),
    ),
    Step(0, Does::Looks(17, 16, [16, 1, 0, 0])),
    Step(0, Does::IsTold(0)),
    Step(0, Does::Looks(17, 16, [16, 1, 0, 0])),
    Step(1, Does::Looks(17, 16, [16, 1, 0, 0])),
];

static TAKES_ALL: [Step; 9] = [
    Step(2, Does::AppendsAll(0, 0)),
    Step(0, Does::Takes(&[0; 16])),
    Step(0, Does::Takes(&[])),
    Step(2, Does::IsFull(16, 16, [16, 0, 0, 0])),
    Step(1, Does::Takes(&[0; 16])),
    Step(2, Does::Appends(1, 16)),
    Step(2, Does::Appends(2, 17)),
    Step(1, Does::Takes(&[1, 2])),
    Step(0, Does::Looks(18, 18, [16, 18, 0, 0])),
];

static ADVANCE_MEETS_ANOTHER_EVENT: [Step; 5] = [
    Step(2, Does::Appends(1, 0)),
    Step(0, Does::Looks(1, 0, [0, 0, 0, 0])),
    Step(0, Does::AdvancesLate(1, 1)),
    Step(0, Does::Advances(1)),
    Step(2, Does::Looks(2, 1, [1, 0, 0, 0])),
];

static LOOKS_SEE_OTHER_PASSES: [Step; 17] = [
    Step(0, Does::Looks(0, 0, [0, 0, 0, 0])),
    Step(2, Does::Appends(1, 0)),
    Step(2, Does::Looks(1, 0, [0, 0, 0, 0])),
    Step(0, Does::Looks(1, 0, [0, 0, 0, 0])),
    Step(0, Does::Advances(1)),
    Step(0, Does::Fetches(&[])),
    Step(0, Does::Looks(1, 1, [1, 0, 0, 0])),
    Step(2, Does::Looks(1, 1, [1, 0, 0, 0])),
    Step(1, Does::Looks(1, 1, [1, 0, 0, 0])),
    Step(2, Does::Appends(1, 1)),
    Step(2, Does::Appends(1, 2)),
    Step(1, Does::Fetches(&[1; 3])),
    Step(0, Does::Looks(3, 1, [1, 0, 0, 0])),
    Step(1, Does::IsTold(0)),
    Step(2, Does::Appends(1, 3)),
    Step(1, Does::Appends(1, 4)),
    Step(2, Does::Looks(5, 1, [1, 0, 0, 0])),
];

static LOOKS_SEE_WHAT_REFUSED: [Step; 9] = [
    Step(2, Does::Appends(1, 0)),
    Step(0, Does::AdvancesLate(1, 1)),
    Step(0, Does::Looks(2, 0, [0, 0, 0, 0])),
    Step(2, Does::Appends(1, 2)),
    Step(0, Does::Looks(3, 0, [0, 0, 0, 0])),
    Step(0, Does::IsFullForAll(3, 0, [0, 0, 0, 0])),
    Step(2, Does::Appends(1, 3)),
    Step(0, Does::IsFullForAll(4, 0, [0, 0, 0, 0])),
    Step(0, Does::Looks(4, 0, [0, 0, 0, 0])),
];

/// Replicas append as they take: with entries of others before theirs, with their own, and with none.
static APPENDS_AND_TAKES: [Step; 10] = [
    Step(2, Does::Appends(7, 0)),
    Step(0, Does::AppendsAndTakes(8, 1, &[7])),
    Step(2, Does::Looks(2, 2, [2, 0, 0, 0])),
    Step(1, Does::AppendsAndTakes(9, 2, &[7, 8])),
    Step(2, Does::Looks(3, 3, [2, 3, 0, 0])),
    Step(0, Does::AppendsAndTakes(10, 3, &[9])),
    Step(0, Does::AppendsAndTakes(11, 4, &[])),
    Step(0, Does::Looks(5, 5, [5, 3, 0, 0])),
    Step(1, Does::Takes(&[10, 11])),
    Step(0, Does::Takes(&[])),
];

#[test]
fn ring_fills_and_frees(rt: HostRuntime) {
    let layout = Layout::new(Depth::Four, 2, 1);
    run(&rt, rt.alloc(), layout, Test::Steps(&FILLS_AND_FREES));
}

#[test]
fn replicas_take_all(rt: HostRuntime) {
    let layout = Layout::new(Depth::Four, 2, 1);
    run(&rt, rt.alloc(), layout, Test::Steps(&TAKES_ALL));
}

#[test]
fn replicas_append_and_take(rt: HostRuntime) {
    let layout = Layout::new(Depth::Four, 2, 1);
    run(&rt, rt.alloc(), layout, Test::Steps(&APPENDS_AND_TAKES));
}

#[test]
fn advance_meets_another_event(rt: HostRuntime) {
    let layout = Layout::new(Depth::Four, 2, 1);
    run(
        &rt,
        rt.alloc(),
        layout,
        Test::Steps(&ADVANCE_MEETS_ANOTHER_EVENT),
    );
}

/// No clause says that a look shows what other passes have done before it. Each look here follows an event.
#[test]
fn looks_see_other_passes(rt: HostRuntime) {
    let layout = Layout::new(Depth::Four, 2, 1);
    run(
        &rt,
        rt.alloc(),
        layout,
        Test::Steps(&LOOKS_SEE_OTHER_PASSES),
    );
}

#[test]
fn looks_see_what_refused(rt: HostRuntime) {
    let layout = Layout::new(Depth::Four, 2, 1);
    run(
        &rt,
        rt.alloc(),
        layout,
        Test::Steps(&LOOKS_SEE_WHAT_REFUSED),
    );
}

#[test]
fn log_ends(rt: HostRuntime) {
    let layout = Layout::new(Depth::Four, 1, 0);
    run(&rt, rt.alloc(), layout, Test::Fill(4096));
}

/// Logs of 48 and of 100,000 places end there, and not at 65,536.
#[test]
fn log_ends_at_its_places(rt: HostRuntime) {
    for (places, batches) in [(48, 3), (100_000, 6_250)] {
        let layout = Layout {
            places,
            ..Layout::new(Depth::Four, 1, 0)
        };
        run(&rt, rt.alloc(), layout, Test::Fill(batches));
    }
}

#[test]
fn batches_of_each_size(rt: HostRuntime) {
    let layout = Layout::new(Depth::Four, 1, 0);
    run(&rt, rt.alloc(), layout, Test::Batches);
}

/// The last party of a log of three replicas, with five passes that own none, appends; the first sees it.
#[test]
fn log_of_three_replicas(rt: HostRuntime) {
    let steps = [
        Step(7, Does::Appends(1, 0)),
        Step(0, Does::Looks(1, 0, [0, 0, 0, 0])),
    ];
    let layout = Layout::new(Depth::Four, 3, 5);
    run(&rt, rt.alloc(), layout, Test::Steps(&steps));
}

/// The same of a log with all the replicas and passes that it can have.
#[test]
fn log_of_most_passes(rt: HostRuntime) {
    let steps = [
        Step(67, Does::Appends(1, 0)),
        Step(0, Does::Looks(1, 0, [0, 0, 0, 0])),
    ];
    let layout = Layout::new(Depth::Four, 4, 64);
    run(&rt, rt.alloc(), layout, Test::Steps(&steps));
}
