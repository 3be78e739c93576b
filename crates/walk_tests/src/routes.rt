// First routes.
use crate::closed::Closed;
use std::test::Fail;
use walk::errand::Errand;
use walk::horizon::{Horizon, MAX_INSTANTS};
use walk::route::first_route;
use walk::standing::Standing;

#[test]
fn a_sled_at_its_goal_costs_nothing(rt: HostRuntime) -> Result<(), Fail> {
    let found = first_route(
        &Standing::open(2, 2),
        Errand {
            start: 17,
            goal: 17,
            horizon: Horizon { steps: 5 },
        },
    )
    .ok_or("no route")?;
    assert_eq!(rt; found.cost, 0);
    assert_eq!(rt; found.places, [17; MAX_INSTANTS]);
    Ok(())
}

#[test]
fn a_goal_left_again_is_not_yet_the_cost(rt: HostRuntime) -> Result<(), Fail> {
    let sled = Closed {
        floor: Standing::open(2, 1),
        place: 1,
        instant: 2,
    };
    let found = first_route(
        &sled,
        Errand {
            start: 1,
            goal: 1,
            horizon: Horizon { steps: 4 },
        },
    )
    .ok_or("no route")?;
    assert_eq!(rt; found.cost, 3);
    assert!(rt; found.places[0] == 1 && found.places[1] == 0 && found.places[2] == 0);
    assert!(rt; found.places[3] == 1 && found.places[4] == 1);
    Ok(())
}

#[test]
fn a_route_waits_where_it_must(rt: HostRuntime) -> Result<(), Fail> {
    let sled = Closed {
        floor: Standing::open(3, 1),
        place: 1,
        instant: 1,
    };
    let found = first_route(
        &sled,
        Errand {
            start: 0,
            goal: 2,
            horizon: Horizon { steps: 3 },
        },
    )
    .ok_or("no route")?;
    assert_eq!(rt; found.cost, 3);
    assert!(rt; found.places[1] == 0 && found.places[2] == 1 && found.places[3] == 2);
    Ok(())
}

#[test]
fn there_is_no_route_through_a_place_that_is_shut(rt: HostRuntime) {
    let sled = Standing::open(16, 15);
    assert!(rt;
        first_route(
            &sled,
            Errand {
                start: 0,
                goal: 255,
                horizon: Horizon { steps: 63 }
            }
        )
        .is_none()
    );
}
