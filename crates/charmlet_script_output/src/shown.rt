//! Lines that show something of a store.

ghost use Rattle.std.specs.Prelude.{◌≡◌, IfOk, IsOk, None};
ghost use Rattle.std.specs.List.{flat_map};
ghost use Rattle.charmlet_script.specs.Printed.{shown_text};
ghost use Rattle.charmlet_script_output.specs.Shown.{counted_texts, look_text};
ghost use Rattle.charmlet_script_output.specs.Writing.{Writes, in_lines};

use crate::writers::write_line;
use charmlet_model::Elem;
use charmlet_script::{Counted, Shown, Standing};
use charmlet_store::Look;
use std::alloc::{AllocError, Global};
use std::io;
use std::io::Write;

/// The `state` line of an element with this view. It fails only when out of memory, and only if the
/// element is there.
pub fn shown_of(alloc: Global, elem: Elem, look: Look) -> Result<Shown, AllocError>
    ensures ok { IfOk result (λ shown. shown_text shown ≡ look_text elem look) }
    ensures absent { look.standing ≡ None → IsOk result }
{
    let (sent, received) = (look.sent, look.received);
    let Some(standing) = look.standing else {
        return Ok(Shown {
            elem,
            standing: None,
            sent,
            received,
        });
    };
    let packed = hex::encode(alloc, standing.packed)?;
    Ok(Shown {
        elem,
        standing: Some(Standing {
            processor: standing.processor,
            packed,
        }),
        sent,
        received,
    })
}

/// Writes the counts of each kind of which objects were supplied.
pub fn write_counts<W: Write>(alloc: Global, writer: &mut W, counts: &[Counted]) -> io::Result<()>
    ensures { Writes result (W.contents writer.old) (W.contents writer.new)
        (in_lines (flat_map counted_texts counts.now)) }
{
    for counted in counts {
        write_count(alloc, writer, counted)?;
    }
    Ok(())
}

/// Writes the counts of a kind, if objects of it were supplied.
fn write_count<W: Write>(alloc: Global, writer: &mut W, counted: &Counted) -> io::Result<()>
    ensures { Writes result (W.contents writer.old) (W.contents writer.new)
        (in_lines (counted_texts counted.now)) }
{
    if counted.supplied == 0 {
        return Ok(());
    }
    write_line(alloc, writer, counted)
}
