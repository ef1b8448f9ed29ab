// Blanks that pending constructions want, and deliveries that end for lack of one.

use super::counters::{ask, new_engine};
use charmlet_engine::Deliveries;
use charmlet_kinds::Counter;
use charmlet_model::{CONSTRUCT, Kind, Refusal};

// Three elements are to be constructed, and there are two blanks. A request to a present element
// wants none.
#[test]
fn constructions_want_blanks(rt: HostRuntime) {
    let mut engine = new_engine(&rt);
    for client in 1..4u32 {
        ask(&rt, &mut engine, client, u64::from(client), CONSTRUCT);
    }
    assert_eq!(rt; engine.wanted_blanks(Kind::Counter), 3);
    assert_eq!(rt; engine.wanted_blanks(Kind::Ring), 0);
    let lacking = Some(Refusal::NoBlank(Kind::Counter));
    let made = engine.deliver_up_to(100);
    assert_eq!(rt;
        made,
        Deliveries {
            count: 2,
            refusal: lacking
        }
    );
    assert_eq!(rt; engine.wanted_blanks(Kind::Counter), 1);
    // Both were made before; one of them is asked for again, and one adds 0.
    ask(&rt, &mut engine, 4, 1, CONSTRUCT);
    ask(&rt, &mut engine, 5, 2, 0);
    assert_eq!(rt; engine.wanted_blanks(Kind::Counter), 1);
    let none = engine.deliver_up_to(0);
    assert_eq!(rt;
        none,
        Deliveries {
            count: 0,
            refusal: None
        }
    );
    let still = engine.deliver_up_to(1);
    assert_eq!(rt;
        still,
        Deliveries {
            count: 0,
            refusal: lacking
        }
    );
    let mut objects = Vec::new(rt.alloc());
    objects.push(Counter::blank()).expect(&rt, "memory");
    assert!(rt; engine.supply(objects).is_ok());
    let one = engine.deliver_up_to(1);
    assert_eq!(rt;
        one,
        Deliveries {
            count: 1,
            refusal: None
        }
    );
    assert_eq!(rt; engine.wanted_blanks(Kind::Counter), 0);
    let rest = engine.deliver_up_to(u32::MAX);
    assert_eq!(rt;
        rest,
        Deliveries {
            count: 2,
            refusal: None
        }
    );
}
