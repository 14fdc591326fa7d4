use crate::piles::{Rates, share_in_three_tiers, share_over_equal_parts};
use sharing::MemberRow;

#[test]
fn tiers_stack(rt: HostRuntime) {
    let rows = [
        MemberRow {
            id: 1,
            demand: 4000,
            deviation: 1000,
        },
        MemberRow {
            id: 2,
            demand: 4000,
            deviation: 3000,
        },
    ];
    let rates = Rates {
        first: 10,
        second: 5,
        third: 0,
    };
    let mut shares = [7, 7, 7];
    let reply = share_in_three_tiers(rates, 100, &rows, &mut shares);
    assert!(rt; reply.is_ok());
    assert_eq!(rt; shares, [35, 65, 7]);
}

#[test]
fn odd_cents_fall_to_the_first(rt: HostRuntime) {
    let some = MemberRow {
        id: 1,
        demand: 5,
        deviation: 0,
    };
    let none = MemberRow {
        id: 2,
        demand: 0,
        deviation: 0,
    };
    let mut shares = [0; 4];
    let reply = share_over_equal_parts(20, 11, &[some, none, some, some], &mut shares);
    assert!(rt; reply.is_ok());
    assert_eq!(rt; shares, [4, 0, 4, 3]);
    let refused = share_over_equal_parts(20, 11, &[none, none], &mut shares);
    assert!(rt; refused.is_err());
    assert_eq!(rt; shares, [4, 0, 4, 3]);
}
