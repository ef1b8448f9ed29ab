//! Blanks that a replayer gets.

ghost use Rattle.std.specs.Prelude.{◌≡◌, ◌+◌, ◌≤◌, ◌&&◌, true, IsSome, OnOk};
ghost use Rattle.std.specs.BTreeMap.{is_at};
ghost use Rattle.std.specs.Map.{lookup};
ghost use Rattle.std.specs.Ordering.{nat_cmp};
ghost use Rattle.charmlet_model.specs.declared.kind.Kind as kinds;
ghost use Rattle.charmlet_recovery.specs.Blanks.{array_is, one_if};
ghost use Rattle.charmlet_stock.specs.Stock.{blanks_in, part_of};
ghost use Rattle.charmlet_replay.specs.RestoredShard.{IsHeld};
ghost use Rattle.charmlet_parallel_replay.specs.Image.Keeping.{KeepsOne};

use charmlet_chare::Chare;
use charmlet_model::{Kind, Manifest};
use charmlet_replay::RestoredShard;
use charmlet_stock::Stock;
use std::alloc::AllocError;

/// The kind of an existing array.
fn kind_of_array(manifest: &Manifest, array: u16) -> Kind
    requires { IsSome (lookup (is_at (nat_cmp array)) manifest.now) }
    ensures is { array_is manifest.now result array ≡ true }
    ensures one { (kind : kinds.Kind) → one_if (array_is manifest.now kind array)
        ≡ part_of result 1 kind }
{
    let Some(kind_version) = manifest.kind_version_of(array) else {
        unreachable!()
    };
    kind_version.kind()
}

/// Gives a replayer a blank of an array's kind from the stock, which has to have one. It fails only
/// when out of memory.
fn draw_blank<C: Chare>(
    manifest: &Manifest,
    stock: &mut Stock<C>,
    restored: &mut RestoredShard<C>,
    array: u16,
) -> Result<(), AllocError>
    requires held { IsHeld restored.old }
    requires array { IsSome (lookup (is_at (nat_cmp array)) manifest.now) }
    requires blank { (kind : kinds.Kind) → array_is manifest.now kind array ≡ true →
        1 ≤ blanks_in stock.old kind }
    ensures keeps { KeepsOne stock.old stock.new restored.old restored.new }
    ensures rest { restored.new ≡ record restored.old { stock = restored.new.stock } }
    ensures own { (kind : kinds.Kind) → OnOk result (blanks_in restored.new.stock kind
        ≡ blanks_in restored.old.stock kind + one_if (array_is manifest.now kind array)) }
    ensures given { (kind : kinds.Kind) → OnOk result (blanks_in stock.new kind
        + one_if (array_is manifest.now kind array) ≡ blanks_in stock.old kind) }
{
    let kind = kind_of_array(manifest, array);
    restored.stock.transfer_from(stock, kind, 1)
}

/// Gives a replayer a blank of an array's kind from the stock, which has to have one, if the blank
/// is wanted. It fails only when out of memory.
pub(crate) fn draw_if<C: Chare>(
    is_wanted: bool,
    manifest: &Manifest,
    stock: &mut Stock<C>,
    restored: &mut RestoredShard<C>,
    array: u16,
) -> Result<(), AllocError>
    requires held { IsHeld restored.old }
    requires array { is_wanted ≡ true → IsSome (lookup (is_at (nat_cmp array)) manifest.now) }
    requires blank { (kind : kinds.Kind) → (is_wanted && array_is manifest.now kind array) ≡ true →
        1 ≤ blanks_in stock.old kind }
    ensures keeps { KeepsOne stock.old stock.new restored.old restored.new }
    ensures rest { restored.new ≡ record restored.old { stock = restored.new.stock } }
    ensures own { (kind : kinds.Kind) → OnOk result (blanks_in restored.new.stock kind
        ≡ blanks_in restored.old.stock kind
        + one_if (is_wanted && array_is manifest.now kind array)) }
    ensures given { (kind : kinds.Kind) → OnOk result (blanks_in stock.new kind
        + one_if (is_wanted && array_is manifest.now kind array) ≡ blanks_in stock.old kind) }
{
    if !is_wanted {
        return Ok(());
    }
    draw_blank(manifest, stock, restored, array)
}
