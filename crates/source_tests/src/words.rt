//! Command lines with their orders, and those that are refused.

use soup_words::{Action, Order, WordsFault, file_for, read_words};
use std::alloc::{AllocError, Global};

/// The order of an action with no options given.
const PLAIN: Order = Order {
    action: Action::Grow,
    quanta: 1000,
    workers: 1,
    number: 0,
    every: 1000,
    looks: 10,
    isles: 2,
    epochs: 2,
};

// The words of a line, separated by spaces.
fn words_of(alloc: Global, line: &str) -> Result<Vec<String>, AllocError> {
    let mut words = Vec::new(alloc);
    for word in line.split(' ') {
        if !word.is_empty() {
            words.push(String::from_str(alloc, word)?)?;
        }
    }
    Ok(words)
}

// The order of a line's words, or their fault.
fn order_of(alloc: Global, line: &str) -> Result<Result<Order, WordsFault>, AllocError> {
    let words = words_of(alloc, line)?;
    Ok(read_words(alloc, &words))
}

#[test]
fn an_action_alone_has_the_defaults(rt: HostRuntime) -> Result<(), AllocError> {
    let rows = [
        ("grow", Action::Grow),
        ("run", Action::Run),
        ("asm", Action::Asm),
        ("dis", Action::Dis),
        ("bank", Action::Bank),
        ("drill", Action::Drill),
        ("dump", Action::Dump),
        ("hold", Action::Hold),
        ("curve", Action::Curve),
        ("probe", Action::Probe),
        ("watch", Action::Watch),
        ("isles", Action::Isles),
    ];
    for (line, action) in rows {
        let order = order_of(rt.alloc(), line)?;
        assert_eq!(rt; order, Ok(Order { action, ..PLAIN }), "{line}");
    }
    Ok(())
}

const RUN: Order = Order {
    action: Action::Run,
    ..PLAIN
};

const DRILL: Order = Order {
    action: Action::Drill,
    ..PLAIN
};

const WATCH: Order = Order {
    action: Action::Watch,
    ..PLAIN
};

const ISLES: Order = Order {
    action: Action::Isles,
    ..PLAIN
};

/// Words, each with the order that they give.
const ORDERS: [(&str, Order); 13] = [
    (
        "--workers=2 run --quanta 34",
        Order {
            quanta: 34,
            workers: 2,
            ..RUN
        },
    ),
    ("--quanta 5 -- run", Order { quanta: 5, ..RUN }),
    (
        "--quanta 1 --workers 64 grow",
        Order {
            quanta: 1,
            workers: 64,
            ..PLAIN
        },
    ),
    (
        "drill --number=18446744073709551615 --quanta=4000000",
        Order {
            quanta: 4_000_000,
            number: u64::MAX,
            ..DRILL
        },
    ),
    ("drill --number 0", DRILL),
    (
        "dump --quanta 10",
        Order {
            action: Action::Dump,
            quanta: 10,
            ..PLAIN
        },
    ),
    (
        "hold --quanta 100 --every 34",
        Order {
            action: Action::Hold,
            quanta: 100,
            every: 34,
            ..PLAIN
        },
    ),
    (
        "--every=4000000 curve",
        Order {
            action: Action::Curve,
            every: 4_000_000,
            ..PLAIN
        },
    ),
    (
        "probe --quanta 100 --workers 64",
        Order {
            action: Action::Probe,
            quanta: 100,
            workers: 64,
            ..PLAIN
        },
    ),
    (
        "watch --workers 63 --looks 1000",
        Order {
            workers: 63,
            looks: 1000,
            ..WATCH
        },
    ),
    (
        "watch --quanta 2 --looks 1",
        Order {
            quanta: 2,
            looks: 1,
            ..WATCH
        },
    ),
    (
        "isles --quanta 2 --epochs 1 --isles 1 --workers 64",
        Order {
            quanta: 2,
            epochs: 1,
            isles: 1,
            workers: 64,
            ..ISLES
        },
    ),
    (
        "isles --epochs 1000 --isles 64",
        Order {
            epochs: 1000,
            isles: 64,
            ..ISLES
        },
    ),
];

#[test]
fn words_give_their_order(rt: HostRuntime) -> Result<(), AllocError> {
    for (line, order) in ORDERS {
        assert_eq!(rt; order_of(rt.alloc(), line)?, Ok(order), "{line}");
    }
    Ok(())
}

/// Words that give no order.
const REFUSED: [&str; 48] = [
    "",
    "run --quanta 0",
    "run --quanta 4000001",
    "run --quanta 007",
    "run --quanta 5 --quanta 5",
    "asm --quanta 3",
    "run --workers 65",
    "run --workers 0",
    "dump --workers 1",
    "run --number 1",
    "drill --number 18446744073709551616",
    "run --quanta",
    "run --quanta=",
    "run --quanta +5",
    "run --quanta -5",
    "run --quanta=-5",
    "run --quanta -",
    "run --quanta -- 5",
    "run asm",
    "--help",
    "run --help",
    "run -h",
    "run --version",
    "-- --help",
    "Run",
    "runs",
    "run --seed 1",
    "run -- --quanta 5",
    "hold --every 0",
    "curve --every 4000001",
    "run --every 10",
    "hold --workers 2",
    "curve --looks 3",
    "bank --quanta 3",
    "probe --workers 65",
    "probe --number 1",
    "watch --workers 64",
    "watch --looks 0",
    "watch --looks 1001",
    "watch --every 5",
    "isles --epochs 1001",
    "isles --epochs 0",
    "isles --isles 65",
    "isles --isles 0",
    "isles --workers 65",
    "grow --isles 2",
    "grow --epochs 2",
    "isles --isles 2 --isles 2",
];

#[test]
fn other_words_are_refused(rt: HostRuntime) -> Result<(), AllocError> {
    for line in REFUSED {
        let order = order_of(rt.alloc(), line)?;
        assert_eq!(rt; order, Err(WordsFault::Refused), "{line}");
    }
    Ok(())
}

#[test]
fn a_hold_alone_keeps_a_checkpoint(rt: HostRuntime) -> Result<(), AllocError> {
    let rows = [
        ("hold", "tierra.hold"),
        ("--every 34 hold --quanta 100", "tierra.hold"),
        ("hold --every 0", "tierra.bank"),
        ("hold hold", "tierra.bank"),
        ("run --quanta 5", "tierra.bank"),
        ("bank", "tierra.bank"),
        ("", "tierra.bank"),
    ];
    for (line, file) in rows {
        assert_eq!(rt; file_of(rt.alloc(), line)?, file, "{line}");
    }
    Ok(())
}

// The file that the action of a line's words keeps.
fn file_of(alloc: Global, line: &str) -> Result<&'static str, AllocError> {
    let words = words_of(alloc, line)?;
    file_for(alloc, &words)
}
