//! Probes of the ancestor.

use genotype_probe::{Efforts, probe_all, probe_text};
use serial_slicer::run_serial;
use std::alloc::Global;
use std::test::Fail;
use test_soups::{ancestor_file, setup_of};
use tierra_model::{Effort, Groups};

const FIRST: Effort = Effort {
    ran: 839,
    moved: 80,
};

const SECOND: Effort = Effort {
    ran: 813,
    moved: 80,
};

/// The genebank of the ancestor's first quanta: one genotype from quantum 34 on, and none before.
fn bank_of(alloc: Global, quanta: u16) -> Result<Groups, Fail> {
    let setup = setup_of(alloc, &ancestor_file(alloc, "")?)?;
    let world = run_serial(alloc, &setup, u64::from(quanta))?;
    Ok(world.groups_from(alloc, 0)?)
}

#[test]
fn a_probe_has_the_efforts_of_the_genotype_alone(rt: HostRuntime) -> Result<(), Fail> {
    let groups = bank_of(rt.alloc(), 34)?;
    let rows = [
        (
            100,
            3,
            Some(FIRST),
            Some(SECOND),
            "0080aaa first 839 80 second 813 80\n",
        ),
        (
            99,
            1,
            Some(FIRST),
            None,
            "0080aaa first 839 80 second none\n",
        ),
        (33, 64, None, None, "0080aaa first none second none\n"),
    ];
    for (n, workers, first, second, text) in rows {
        let efforts = probe_all(&rt, rt.alloc(), &groups, n, workers)?;
        assert_eq!(rt;
            efforts.items.as_slice(),
            [Efforts { first, second }].as_slice()
        );
        let told = probe_text(&rt, rt.alloc(), &groups, n, workers)?;
        assert_eq!(rt; told.items.as_slice(), text.as_bytes());
    }
    let none = bank_of(rt.alloc(), 33)?;
    assert_eq!(rt; probe_text(&rt, rt.alloc(), &none, 100, 2)?.items.len(), 0);
    Ok(())
}
