//! The facts of a dump, and the plain form of each.

use charmlet_model::{Elem, Kind, KindVersion, Message, Record, Refusal, State, Words};
use std::fmt;

/// A fact of a dump, in a line of its own.
#[derive(Clone, Copy)]
pub enum Fact<'a> {
    /// The generation of the taken image, and how many events led to the world.
    Store {
        generation: u64,
        events: u64,
    },
    /// An array, and the kind and the version of its elements.
    Array {
        array: u16,
        kind_version: KindVersion,
    },
    /// An element's record, and its home.
    Element {
        elem: Elem,
        home: u16,
        kept: &'a Record,
    },
    /// A pending message.
    Pending {
        message: &'a Message,
    },
    /// A kind, and how many pending messages construct an element of it.
    Constructions {
        kind: Kind,
        count: usize,
    },
    /// A client, and the number of its last request.
    Client {
        client: u32,
        last: u64,
    },
    /// A request of a client's window, and the reply to it, if there is one.
    Request {
        client: u32,
        number: u64,
        reply: Option<&'a Words>,
    },
    /// Why nothing is dumped.
    Refused {
        refusal: Refusal,
    },
}

/// A kind by its name.
#[derive(Clone, Copy)]
pub struct KindName(pub Kind);

/// A fact in the plain form.
#[derive(Clone, Copy)]
pub struct PlainLine<'a>(pub Fact<'a>);

/// An object's kind and its fields by their names, in the plain form.
#[derive(Clone, Copy)]
struct PlainState<'a>(&'a State);

/// Writes the kind's name.
impl fmt::Display for KindName {
    ghost use Rattle.std.specs.Prelude.{Some};
    ghost use Rattle.charmlet_dump.specs.Plain.{kind_name};

    ghost output = { λ name. Some (kind_name name.0) };

    fn fmt<W: fmt::Write>(&self, f: &mut fmt::Formatter<W>) -> fmt::Result {
        match self.0 {
            Kind::Counter => write!(f, "counter"),
            Kind::Ring => write!(f, "ring"),
            Kind::Account => write!(f, "account"),
            Kind::Sum => write!(f, "sum"),
            Kind::Tree => write!(f, "tree"),
            Kind::Tape => write!(f, "tape"),
        }
    }
}

/// Writes the name of the object's kind, and each field after its name.
impl<'a> fmt::Display for PlainState<'a> {
    ghost use Rattle.std.specs.Prelude.{Some};
    ghost use Rattle.charmlet_dump.specs.Plain.{plain_state};

    ghost output = { λ state. Some (plain_state state.0.now) };

    fn fmt<W: fmt::Write>(&self, f: &mut fmt::Formatter<W>) -> fmt::Result {
        match *self.0 {
            State::FirstCounter { count } => write!(f, "counter count {count}"),
            State::Counter { count, peak } => write!(f, "counter count {count} peak {peak}"),
            State::Ring { next, seen } => write!(f, "ring next {next} seen {seen}"),
            State::Account { balance } => write!(f, "account balance {balance}"),
            State::Sum {
                want,
                got,
                total,
                up,
            } => write!(f, "sum want {want} got {got} total {total} up {up}"),
            State::Tree { depth } => write!(f, "tree depth {depth}"),
            State::Tape { ref items } => write!(f, "tape items{items}"),
        }
    }
}

/// Writes the plain line of a fact, without a line feed.
impl<'a> fmt::Display for PlainLine<'a> {
    ghost use Rattle.std.specs.Prelude.{Some};
    ghost use Rattle.charmlet_dump.specs.Facts.{fact_in};
    ghost use Rattle.charmlet_dump.specs.Plain.{plain_text};

    ghost output = { λ line. Some (plain_text (fact_in line.0)) };

    fn fmt<W: fmt::Write>(&self, f: &mut fmt::Formatter<W>) -> fmt::Result {
        match self.0 {
            Fact::Store { generation, events } => {
                write!(f, "store generation {generation} events {events}")
            }
            Fact::Array {
                array,
                kind_version,
            } => {
                let kind = kind_version.kind();
                let version = kind_version.version();
                let name = KindName(kind);
                write!(f, "array {array} kind {kind} version {version} {name}")
            }
            Fact::Element { elem, home, kept } => {
                let sent = kept.sent;
                let received = kept.received;
                match &kept.state {
                    Some(state) => {
                        let state = PlainState(state);
                        write!(
                            f,
                            "element {elem} pe {home} sent {sent} received {received} {state}"
                        )
                    }
                    None => write!(f, "element {elem} none sent {sent} received {received}"),
                }
            }
            Fact::Pending { message } => {
                let id = message.id;
                let to = message.to;
                let entry = message.entry;
                let words = &message.words;
                write!(f, "pending {id} to {to} entry {entry} words{words}")
            }
            Fact::Constructions { kind, count } => {
                let name = KindName(kind);
                write!(f, "constructions {count} kind {kind} {name}")
            }
            Fact::Client { client, last } => write!(f, "client {client} last {last}"),
            Fact::Request {
                client,
                number,
                reply,
            } => match reply {
                Some(words) => write!(f, "request {client} {number} replied{words}"),
                None => write!(f, "request {client} {number} accepted"),
            },
            Fact::Refused { refusal } => {
                let number = refusal.number();
                write!(f, "refused {number} {refusal}")
            }
        }
    }
}
