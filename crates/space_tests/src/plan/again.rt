//! Entries whose flags a processor sets beside a plan: stores that are still right, and calls that are planned again.

use crate::plan::carried::{TARGET, carried, plan_for};
use crate::plan::memory::Memory;
use crate::plan::worked::{A, C, Row, Said, WRITE, is_so, page};
use vs_plan::{Fill, Flush, Reply, Request, Store};
use vs_types::{Answer, Rights, Size};

/// A store of these words.
fn store(old: u64, new: u64) -> Store {
    Store {
        frame: 7,
        index: 3,
        old,
        new,
    }
}

// A store whose word was given flags meanwhile keeps them, but where it links; one that finds anything else isn't made again.
#[test]
fn stores_again(rt: HostRuntime) {
    let narrow = store(0x1007, 0x8000_0000_0000_1003);
    let cases = [
        (0x1007, Some(store(0x1007, 0x8000_0000_0000_1003))),
        (0x1027, Some(store(0x1027, 0x8000_0000_0000_1023))),
        (0x1067, Some(store(0x1067, 0x8000_0000_0000_1063))),
        (0x1006, None),
        (0x1005, None),
        (0x1087, None),
        (0x2007, None),
        (0, None),
    ];
    for (word, again) in cases {
        assert!(rt; narrow.again(word, false) == again);
    }
    assert!(rt; store(0x1007, 0).again(0x1067, false) == Some(store(0x1067, 0)));
    assert!(rt; store(0, 0x1007).again(0, false) == None);
    let joined = store(0x1007, 0x2000E7);
    assert!(rt; joined.again(0x1027, true) == Some(store(0x1027, 0x2000E7)));
    assert!(rt; joined.again(0x2027, true) == None);
    let fill = Fill {
        frame: 7,
        first: 0x600003,
        step: 0x1000,
        ..Fill::default()
    };
    let flagged = Fill {
        first: 0x600063,
        ..fill
    };
    assert!(rt; fill.again(0x2000E3) == flagged && flagged.again(0x200083) == fill);
}

// A whole plan, whose store found flags: of a protect they are in what is stored, of a split in the fill; of a join both were set.
#[test]
fn plans_again(rt: HostRuntime) {
    let mut memory = Memory::new(&rt, rt.alloc(), 8);
    let large = page(0x200000, Size::M2, 0x600000, WRITE);
    let _plan = carried(&rt, &mut memory, TARGET, Request::Map(large, 0));
    let word = 0x8000_0000_0060_0083;
    let was = Reply::Answer(Answer::Changed(WRITE));
    let mut plan = plan_for(
        &rt,
        &mut memory,
        TARGET,
        Request::Protect(0x200000, Rights::NONE),
    );
    assert!(rt; !plan.again(0, word + 0x200000) && !plan.again(1, word));
    assert!(rt; plan.again(0, word + 0x60));
    let rows = [Row(A, 1, word + 0x60, word + 0x5E)];
    let flush = Flush::Page(0x200000, Size::M2);
    assert!(rt; is_so(&plan, Said(was, 0x60, flush, &rows, &[])));
    let mut plan = plan_for(&rt, &mut memory, TARGET, Request::Split(0x200000));
    assert!(rt; plan.again(0, word + 0x20));
    let rows = [Row(A, 1, word + 0x20, 0x1_0000_3007)];
    let flush = Flush::Range(0x200000, Size::M2);
    assert!(rt; is_so(&plan, Said(was, 0x20, flush, &rows, &[])));
    let fill = Fill {
        frame: C,
        first: 0x8000_0000_0060_0023,
        step: 0x1000,
        ..Fill::default()
    };
    assert!(rt; plan.fill == Some(fill));
    memory.write(&rt, A, 1, word + 0x20);
    memory.carry_out(&rt, &plan);
    let mut plan = plan_for(&rt, &mut memory, TARGET, Request::Join(0x200000));
    assert!(rt; plan.again(0, 0x1_0000_3027));
    let rows = [Row(A, 1, 0x1_0000_3027, word + 0x60)];
    assert!(rt; is_so(&plan, Said(was, 0x20, flush, &rows, &[C])));
}
