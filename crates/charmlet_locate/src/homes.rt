//! Homes of elements.

ghost use Rattle.std.specs.Prelude.{◌≡◌, ◌≤◌, IfOk, IfErr, is_ok};
ghost use Rattle.charmlet_model.specs.Core.{home};
ghost use Rattle.charmlet_model.specs.declared.refusal.Refusal.TheVariants as refusals;
ghost use Rattle.charmlet_locate.specs.Locations.{is_processor_count};

use charmlet_model::{Elem, Refusal};

/// The most processors of a store.
pub const MAX_PROCESSORS: u16 = 64;

/// The home of an element on 1 to 64 processors: its array plus its index, modulo the number of
/// processors. The sum may not fit in 64 bits. Processors count from 0. `BadPes` for any other
/// number of processors, and for nothing else. It takes no memory.
pub fn home(elem: Elem, processors: u16) -> Result<u16, Refusal>
    ensures ok { IfOk result (λ place. place ≡ home elem processors) }
    ensures which { is_ok result ≡ is_processor_count processors }
    ensures err { IfErr result (λ refusal. refusal ≡ refusals.BadPes) }
{
    if !is_processor_count(processors) {
        return Err(Refusal::BadPes);
    }
    Ok(home_of(elem, processors))
}

/// Whether a store can have this number of processors: 1 to 64.
pub fn is_processor_count(processors: u16) -> bool
    ensures { result ≡ is_processor_count processors }
{
    (1..=MAX_PROCESSORS).contains(&processors)
}

/// The home of an element on `processors` processors, at least one. Each part is reduced before
/// they are added, so that the sum can't wrap.
#[tactic(auto, using(crate::proofs::Sums::sum_of_reduced))]
pub(crate) fn home_of(elem: Elem, processors: u16) -> u16
    requires { 1 ≤ processors }
    ensures { result ≡ home elem processors }
{
    let count = u64::from(processors);
    let sum = u64::from(elem.array) % count + elem.index % count;
    (sum % count) as u16
}
