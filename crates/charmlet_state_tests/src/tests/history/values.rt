//! Each call of an authority and its fragments, over values that only contracts see.

ghost use Rattle.std.specs.Prelude.{◌≡◌, ◌∷◌, [], None};
ghost use Rattle.charmlet_locks.specs.GhostAuth.Naming.{table_of};

use charmlet_locks::{Authority, AuthorityName, GhostValue, UnnamedAuthority};
use std::marker::Brand;

// The type of the authority's values.
#[derive(Drop)]
struct Amount {
    count: u64,
}

impl GhostValue<Amount> for Brand {
    ghost value = { record { count = 0 } };
}

// Two values are issued. The first is changed twice, the second time to a value that no code has.
// Then both are taken back, and no value is left.
fn change_amounts<B: AuthorityName>(authority: &mut Authority<Amount, B>)
    requires { authority.old ≡ [] }
    ensures { authority.new ≡ None ∷ None ∷ [] }
{
    let mut first = authority.issue(&Amount { count: 1 });
    let second = authority.issue(&Amount { count: 2 });
    authority.change(&mut first, &Amount { count: 3 });
    authority.change_to::<Brand>(&mut first);
    authority.agree(&mut first);
    authority.take_back(second);
    authority.take_back(first);
}

// Changes the values of a new authority.
fn change_all<B: AuthorityName>(unnamed: UnnamedAuthority<Amount>)
    requires { table_of unnamed ≡ B.table }
{
    let mut authority = unnamed.named::<B>();
    change_amounts(&mut authority);
}

// Changes the values by a name that is picked here.
fn run(unnamed: UnnamedAuthority<Amount>) {
    change_all::<Brand>(unnamed)
}

#[test]
fn values_are_changed_and_taken_back(rt: HostRuntime) {
    let unnamed = UnnamedAuthority::new(rt.alloc());
    run(unnamed.expect(&rt, "memory"));
}
