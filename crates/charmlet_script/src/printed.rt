//! The printed forms of answers to lines that aren't steps.

use charmlet_model::{Elem, Kind, MsgId};
use std::fmt;

/// The answer to a `supply` line.
#[derive(Clone, Copy, Debug, PartialEq, Eq)]
pub struct Supplied {
    pub kind: Kind,
    pub count: u32,
}

/// The answer to a `drain` line: how many messages it delivered, and how many are pending after it.
#[derive(Clone, Copy, Debug, PartialEq, Eq)]
pub struct Drained {
    pub delivered: u32,
    pub left: u64,
}

/// The answer to a `state` line: an element, how many messages it sent and received, and, if it is
/// there, its processor and state.
#[derive(Debug, Drop)]
pub struct Shown {
    pub elem: Elem,
    pub standing: Option<Standing>,
    pub sent: u64,
    pub received: u64,
}

/// The processor of an element that is there, and its packed state in hexadecimal digits.
#[derive(Debug, Drop)]
pub struct Standing {
    pub processor: u16,
    pub packed: String,
}

/// The answer to a `pending` line: the ids of the pending messages, in order of arrival.
#[derive(Clone, Copy, Debug)]
pub struct PendingIds<'a>(pub &'a [MsgId]);

/// A line of the answer to `census`: how many objects of one kind were supplied, are on shelves,
/// are in the stock, and were retired.
#[derive(Clone, Copy, Debug, PartialEq, Eq)]
pub struct Counted {
    pub kind: Kind,
    pub supplied: u64,
    pub on_shelves: u64,
    pub in_stock: u64,
    pub retired: u64,
}

/// Writes `supplied K N`, without a line feed.
impl fmt::Display for Supplied {
    ghost use Rattle.std.specs.Prelude.{Some};
    ghost use Rattle.charmlet_script.specs.Printed.{supplied_text};

    ghost output = { λ supplied. Some (supplied_text supplied) };

    fn fmt<W: fmt::Write>(&self, f: &mut fmt::Formatter<W>) -> fmt::Result {
        let kind = self.kind;
        let count = self.count;
        write!(f, "supplied {kind} {count}")
    }
}

/// Writes `drained K left P`, without a line feed.
impl fmt::Display for Drained {
    ghost use Rattle.std.specs.Prelude.{Some};
    ghost use Rattle.charmlet_script.specs.Printed.{drained_text};

    ghost output = { λ drained. Some (drained_text drained) };

    fn fmt<W: fmt::Write>(&self, f: &mut fmt::Formatter<W>) -> fmt::Result {
        let delivered = self.delivered;
        let left = self.left;
        write!(f, "drained {delivered} left {left}")
    }
}

/// Writes `state A.I pe P sent S received R X`, or `state A.I none sent S received R` if the
/// element isn't there, without a line feed.
impl fmt::Display for Shown {
    ghost use Rattle.std.specs.Prelude.{Some};
    ghost use Rattle.charmlet_script.specs.Printed.{shown_text};

    ghost output = { λ shown. Some (shown_text shown) };

    fn fmt<W: fmt::Write>(&self, f: &mut fmt::Formatter<W>) -> fmt::Result {
        let elem = self.elem;
        let sent = self.sent;
        let received = self.received;
        match &self.standing {
            Some(standing) => {
                let processor = standing.processor;
                let packed = standing.packed.as_str();
                write!(
                    f,
                    "state {elem} pe {processor} sent {sent} received {received} {packed}"
                )
            }
            None => write!(f, "state {elem} none sent {sent} received {received}"),
        }
    }
}

/// Writes `pending P` and each id after a space, without a line feed.
impl<'a> fmt::Display for PendingIds<'a> {
    ghost use Rattle.std.specs.Prelude.{Some};
    ghost use Rattle.charmlet_script.specs.Printed.{pending_text};

    ghost output = { λ pending. Some (pending_text pending.0.now) };

    fn fmt<W: fmt::Write>(&self, f: &mut fmt::Formatter<W>) -> fmt::Result {
        let ids = self.0;
        let count = ids.len();
        write!(f, "pending {count}")?;
        for id in ids {
            write!(f, " {id}")?;
        }
        Ok(())
    }
}

/// Writes `census K supplied S shelves H stock T retired R`, without a line feed.
impl fmt::Display for Counted {
    ghost use Rattle.std.specs.Prelude.{Some};
    ghost use Rattle.charmlet_script.specs.Printed.{counted_text};

    ghost output = { λ counted. Some (counted_text counted) };

    fn fmt<W: fmt::Write>(&self, f: &mut fmt::Formatter<W>) -> fmt::Result {
        let kind = self.kind;
        let supplied = self.supplied;
        let on_shelves = self.on_shelves;
        let in_stock = self.in_stock;
        let retired = self.retired;
        write!(
            f,
            "census {kind} supplied {supplied} shelves {on_shelves} stock {in_stock} retired {retired}"
        )
    }
}
