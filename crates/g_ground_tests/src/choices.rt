//! The worked rows of the choice, of budgets and of a tariff.
ghost use Rattle.g_rules.specs.Rule.{IsInRange};

use g_rules::{Charge, Standing, Tariff, Usage, WeighRule, choose};

/// Two jobs, of 50 and of 10 units: what was charged to each before the choice, and the place chosen.
static CHOICES: [(u64, u64, usize); 8] = [
    (0, 0, 0),
    (1, 0, 1),
    (1, 1, 0),
    (2, 1, 0),
    (3, 1, 0),
    (4, 1, 0),
    (5, 1, 0),
    (6, 1, 1),
];

#[test]
fn the_least_share_of_its_allowance_goes(rt: HostRuntime) {
    let rule = WeighRule::new(
        |standing: &Standing| -> u64
            requires { IsInRange standing.now }
        { standing.used * 1_000_000 / standing.allowance },
    );
    assert!(rt; choose(&rule, &[]) == None);
    for (used, other_used, place) in &CHOICES {
        assert!(rt; *used <= 50 && *other_used <= 10);
        let list = [
            Standing {
                number: 1,
                used: *used,
                allowance: 50,
                turns: *used,
            },
            Standing {
                number: 2,
                used: *other_used,
                allowance: 10,
                turns: *other_used,
            },
        ];
        assert!(rt;
            choose(&rule, &list) == Some(*place),
            "at {used} and {other_used}"
        );
    }
}

#[test]
fn a_price(rt: HostRuntime) {
    let tariff = Tariff::new(|usage: &Usage| Charge {
        units: 2 + u64::from(usage.orders),
        money: 0,
    });
    let usage = Usage {
        orders: 64,
        blocks: 0,
    };
    let charge = Charge {
        units: 66,
        money: 0,
    };
    assert!(rt; tariff.charge(&usage) == charge);
}
